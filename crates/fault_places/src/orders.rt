//! Channels that preserve commit order and bring transactions in opposite orders.
ghost use Rattle.std.specs.Prelude.{◌≡◌, [], OnOk, IfOk, None};
ghost use Rattle.std.specs.BTreeMap.{get};
ghost use Rattle.gtid_text.specs.Gtids.{gtid_cmp};
ghost use Rattle.fault_places.specs.Orders.{preserving, ArePositions, is_after, first_after, inversion_by, inversion_at, inversion_from, inverted_with, first_inverted, inverted_pair, position_in};
ghost use Rattle.fault_places.specs.Channels.{entries_of};

use crate::channels::entries_of;
use gtid_set::GtidSet;
use gtid_text::Gtid;
use journal::{Entry, Journal};
use std::alloc::{AllocError, Global};
use std::collections::BTreeMap;
use txn_journal::{Bundle, BundleChannel};

/// Two transactions: a channel brings `earlier` before `later`, and a previous channel brings `later` before `earlier`.
#[derive(Clone, Copy, Drop)]
pub(crate) struct Inversion {
    pub(crate) earlier: Gtid,
    pub(crate) later: Gtid,
}

/// The numbers of two channels, `first` below `second`, and two transactions that they bring in opposite orders.
#[derive(Clone, Copy, Drop)]
pub(crate) struct InvertedPair {
    pub(crate) first: usize,
    pub(crate) second: usize,
    pub(crate) inversion: Inversion,
}

/// The numbers of the channels that preserve commit order.
fn preserving(alloc: Global, channels: &[BundleChannel]) -> Result<Vec<usize>, AllocError>
    ensures { IfOk result (λ numbers. numbers.items ≡ preserving 0 channels.now) }
{
    let mut numbers = Vec::new(alloc);
    for (i, channel) in channels.iter().enumerate() {
        if channel.preserve {
            numbers.push(i)?;
        }
    }
    Ok(numbers)
}

/// The index of the entry of each GTID that is not in the opening set.
fn positions_in(
    alloc: Global,
    opened: &GtidSet,
    entries: &[Entry],
) -> Result<BTreeMap<Gtid, usize>, AllocError>
    ensures { IfOk result (ArePositions opened.now entries.now) }
{
    let mut places = BTreeMap::new(alloc);
    let mut left = entries.len();
    // (backwards, so that the index of the first entry of a GTID is kept)
    while left > 0 {
        left -= 1;
        let gtid = entries[left].gtid;
        if !opened.contains(&gtid) {
            places.insert(gtid, left)?;
        }
    }
    Ok(places)
}

fn position_of(places: &BTreeMap<Gtid, usize>, gtid: &Gtid) -> Option<usize>
    ensures { result ≡ get gtid_cmp places.now gtid.now }
{
    places.get(gtid).copied()
}

/// Whether a GTID has an index greater than `place`.
fn is_after(places: &BTreeMap<Gtid, usize>, place: usize, gtid: &Gtid) -> bool
    ensures { result ≡ is_after place (get gtid_cmp places.now gtid.now) }
{
    match position_of(places, gtid) {
        Some(other) => place < other,
        None => false,
    }
}

/// The first entry whose GTID has an index greater than `place`.
fn first_after(places: &BTreeMap<Gtid, usize>, place: usize, entries: &[Entry]) -> Option<Gtid>
    ensures { result ≡ first_after (get gtid_cmp places.now) place entries.now }
{
    for entry in entries {
        if is_after(places, place, &entry.gtid) {
            return Some(entry.gtid);
        }
    }
    None
}

/// The inversion of an entry and the first entry before it that the other journal has after it.
fn inversion_at(
    places: &BTreeMap<Gtid, usize>,
    seen: &[Entry],
    entry: &Entry,
    place: usize,
) -> Option<Inversion>
    ensures { result ≡ inversion_by (get gtid_cmp places.now) seen.now entry.now (Some place) }
{
    match first_after(places, place, seen) {
        Some(earlier) => Some(Inversion {
            earlier,
            later: entry.gtid,
        }),
        None => None,
    }
}

/// The first entry that comes after one which the other journal has later. `last` is the greatest index seen so far.
fn find_inversion(places: &BTreeMap<Gtid, usize>, entries: &[Entry]) -> Option<Inversion>
    ensures { result ≡ inversion_from (get gtid_cmp places.now) [] entries.now }
{
    let mut last = 0;
    for (i, entry) in entries.iter().enumerate() {
        let Some(place) = position_of(places, &entry.gtid) else {
            continue;
        };
        if place >= last {
            last = place;
            continue;
        }
        if let Some(found) = inversion_at(places, &entries[..i], entry, place) {
            return Some(found);
        }
    }
    None
}

/// The first of the other channels that brings two transactions in the opposite order to the first channel.
fn inverted_with(
    places: &BTreeMap<Gtid, usize>,
    journals: &[Journal],
    first: usize,
    others: &[usize],
) -> Option<InvertedPair>
    ensures { result ≡ inverted_with (get gtid_cmp places.now) journals.now first others.now }
{
    for second in others {
        if let Some(inversion) = find_inversion(places, entries_of(journals, *second)) {
            return Some(InvertedPair {
                first,
                second: *second,
                inversion,
            });
        }
    }
    None
}

/// The same, with the table of positions built here, unless there is no other channel.
fn inverted_from(
    alloc: Global,
    opened: &GtidSet,
    journals: &[Journal],
    first: usize,
    others: &[usize],
) -> Result<Option<InvertedPair>, AllocError>
    ensures { IfOk result (λ found. found ≡ inverted_with (position_in opened.now (entries_of journals.now first)) journals.now first others.now) }
{
    if others.is_empty() {
        return Ok(None);
    }
    let places = positions_in(alloc, opened, entries_of(journals, first))?;
    Ok(inverted_with(&places, journals, first, others))
}

/// The first pair of channels that bring two transactions in opposite orders.
fn find_inverted(
    alloc: Global,
    opened: &GtidSet,
    journals: &[Journal],
    numbers: &[usize],
) -> Result<Option<InvertedPair>, AllocError>
    ensures { IfOk result (λ found. found ≡ first_inverted opened.now journals.now numbers.now) }
{
    for (i, first) in numbers.iter().enumerate() {
        if let Some(found) = inverted_from(alloc, opened, journals, *first, &numbers[i + 1..])? {
            return Ok(Some(found));
        }
    }
    Ok(None)
}

/// The first pair of channels that preserve commit order and bring two transactions in opposite orders.
pub(crate) fn inverted_pair(
    alloc: Global,
    bundle: &Bundle,
) -> Result<Option<InvertedPair>, AllocError>
    ensures { IfOk result (λ found. found ≡ inverted_pair bundle.now) }
{
    let numbers = preserving(alloc, bundle.channels())?;
    find_inverted(alloc, bundle.opening_set(), bundle.journals(), &numbers)
}
