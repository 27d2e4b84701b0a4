//! The first difference between the transactions that two journals have under one GTID.
ghost use Rattle.std.specs.Prelude.{◌≡◌, ◌++◌, OnOk, IfOk, option_map};
ghost use Rattle.std.specs.List.{position_from};
ghost use Rattle.gtid_text.specs.Gtids.{same_gtid};
ghost use Rattle.fault_places.specs.Channels.{label_at};
ghost use Rattle.fault_places.specs.Differences.{changes_under, has_gtid, has_other, changes_at, difference_between, difference_from, difference_under};

use crate::channels::{entries_of, put_label_at};
use crate::differences::{change_difference, put_changes};
use crate::values::Labels;
use gtid_text::Gtid;
use journal::{Entry, Journal};
use rows::Change;
use std::alloc::{AllocError, Global};
use txn_journal::{Bundle, BundleChannel};

fn is_same(a: &Gtid, b: &Gtid) -> bool
    ensures { result ≡ same_gtid a.now b.now }
{
    a.source == b.source && a.number == b.number
}

/// The changes of the entry with a GTID.
fn changes_under<'a>(gtid: &Gtid, entries: &'a [Entry]) -> Option<&'a [Change]>
    ensures { option_map (λ changes. changes.now) result ≡ changes_under gtid.now entries.now }
{
    for entry in entries {
        if is_same(gtid, &entry.gtid) {
            return Some(entry.txn.changes.as_slice());
        }
    }
    None
}

/// The changes that a channel has under a GTID.
fn changes_at<'a>(gtid: &Gtid, journals: &'a [Journal], place: usize) -> &'a [Change]
    ensures { result.now ≡ changes_at gtid.now journals.now place }
{
    match changes_under(gtid, entries_of(journals, place)) {
        Some(changes) => changes,
        None => &[],
    }
}

fn has_gtid(gtid: &Gtid, journal: &Journal) -> bool
    ensures { result ≡ has_gtid gtid.now journal.now }
{
    changes_under(gtid, journal.entries()).is_some()
}

/// Whether a journal has a transaction with a GTID that differs from these changes.
fn has_other(gtid: &Gtid, changes: &[Change], journal: &Journal) -> bool
    ensures { result ≡ has_other gtid.now changes.now journal.now }
{
    match changes_under(gtid, journal.entries()) {
        Some(others) => change_difference(changes, others).is_some(),
        None => false,
    }
}

/// The number of the first journal that has a GTID.
fn first_with(gtid: &Gtid, journals: &[Journal]) -> Option<usize>
    ensures { result ≡ position_from (has_gtid gtid.now) 0 journals.now }
{
    for (i, journal) in journals.iter().enumerate() {
        if has_gtid(gtid, journal) {
            return Some(i);
        }
    }
    None
}

/// The number of the first journal that has a transaction with a GTID that differs from these changes.
fn first_other(gtid: &Gtid, changes: &[Change], journals: &[Journal]) -> Option<usize>
    ensures { result ≡ position_from (has_other gtid.now changes.now) 0 journals.now }
{
    for (i, journal) in journals.iter().enumerate() {
        if has_other(gtid, changes, journal) {
            return Some(i);
        }
    }
    None
}

/// The labels of two channels.
fn labels_of(
    alloc: Global,
    channels: &[BundleChannel],
    first: usize,
    second: usize,
) -> Result<Labels, AllocError>
    ensures { IfOk result (λ labels. (labels.first.items ≡ label_at channels.now first) × (labels.second.items ≡ label_at channels.now second)) }
{
    let mut labels = Labels {
        first: Vec::new(alloc),
        second: Vec::new(alloc),
    };
    put_label_at(&mut labels.first, channels, first)?;
    put_label_at(&mut labels.second, channels, second)?;
    Ok(labels)
}

/// Appends the first difference between two channels under a GTID.
fn put_between(
    alloc: Global,
    out: &mut Vec<u8>,
    gtid: &Gtid,
    bundle: &Bundle,
    first: usize,
    second: usize,
) -> Result<(), AllocError>
    ensures { OnOk result (out.new.items ≡ out.old.items ++ difference_between gtid.now bundle.now first (Some second)) }
{
    let labels = labels_of(alloc, bundle.channels(), first, second)?;
    let changes = changes_at(gtid, bundle.journals(), first);
    let others = changes_at(gtid, bundle.journals(), second);
    put_changes(alloc, out, &labels, changes, others)
}

/// Appends the first difference between a channel and the first one that differs from it under a GTID.
fn put_from(
    alloc: Global,
    out: &mut Vec<u8>,
    gtid: &Gtid,
    bundle: &Bundle,
    first: usize,
) -> Result<(), AllocError>
    ensures { OnOk result (out.new.items ≡ out.old.items ++ difference_from gtid.now bundle.now (Some first)) }
{
    let changes = changes_at(gtid, bundle.journals(), first);
    match first_other(gtid, changes, bundle.journals()) {
        Some(second) => put_between(alloc, out, gtid, bundle, first, second),
        None => Ok(()),
    }
}

/// Appends the first difference between the first channel that has a GTID and the first one that differs from it.
pub(crate) fn put_difference(
    alloc: Global,
    out: &mut Vec<u8>,
    gtid: &Gtid,
    bundle: &Bundle,
) -> Result<(), AllocError>
    ensures { OnOk result (out.new.items ≡ out.old.items ++ difference_under gtid.now bundle.now) }
{
    match first_with(gtid, bundle.journals()) {
        Some(first) => put_from(alloc, out, gtid, bundle, first),
        None => Ok(()),
    }
}
