//! Statements: transactions that a channel brings, by their GTIDs.
ghost use Rattle.std.specs.Prelude.{◌≡◌, IfOk};
ghost use Rattle.std.specs.List.{list_all, position_or_len};
ghost use Rattle.std.specs.FinSet as set;
ghost use Rattle.gtid_set.specs.Spans.{set_of};
ghost use Rattle.journal.specs.Journals.{gtids_of};
ghost use Rattle.txn_journal.specs.Assumptions.{has_entries, has_span, is_called, journal_of};

use crate::bundle::BundleChannel;
use gtid_text::{Gtid, Span};
use journal::{Entry, Journal};
use rows::Name;
use std::alloc::{AllocError, Global};
use std::collections::BTreeSet;

/// The GTIDs of entries.
fn gtids_of(alloc: Global, entries: &[Entry]) -> Result<BTreeSet<Gtid>, AllocError>
    ensures { IfOk result (λ known. set.from_list known.keys ≡ gtids_of entries.now) }
{
    let mut known = BTreeSet::new(alloc);
    for entry in entries {
        known.insert(entry.gtid)?;
    }
    Ok(known)
}

/// Whether all numbers of an interval are there. It ends at the first that is not.
fn has_numbers(known: &BTreeSet<Gtid>, span: &Span) -> bool
    ensures { result ≡ has_span (set.from_list known.now.keys) span.now }
{
    for number in span.lo..=span.hi {
        let source = span.source;
        if !known.contains(&Gtid { source, number }) {
            return false;
        }
    }
    true
}

fn has_each(known: &BTreeSet<Gtid>, spans: &[Span]) -> bool
    ensures { result ≡ list_all (has_span (set.from_list known.now.keys)) spans.now }
{
    spans.iter().all(|span| has_numbers(known, span))
}

/// Whether these entries have the GTIDs of all spans.
#[tactic(auto, using(crate::proofs::SpansWithin::each_within))]
fn has_all(alloc: Global, entries: &[Entry], spans: &[Span]) -> Result<bool, AllocError>
    ensures { IfOk result (λ has. has ≡ set.is_subset (set_of spans.now) (gtids_of entries.now)) }
{
    let known = gtids_of(alloc, entries)?;
    Ok(has_each(&known, spans))
}

/// The place of the channel of this name, or how many channels there are.
fn place_of(channels: &[BundleChannel], name: &Name) -> usize
    ensures { result ≡ position_or_len (is_called name.now) channels.now }
{
    for (i, channel) in channels.iter().enumerate() {
        if channel.name == *name {
            return i;
        }
    }
    channels.len()
}

/// Whether the channel of this name brings the GTIDs of all spans.
pub(crate) fn has_entries(
    alloc: Global,
    channels: &[BundleChannel],
    journals: &[Journal],
    name: &Name,
    spans: &[Span],
) -> Result<bool, AllocError>
    ensures { IfOk result (λ has. has ≡ has_entries (journal_of channels.now journals.now name.now) spans.now) }
{
    match journals.get(place_of(channels, name)) {
        Some(journal) => has_all(alloc, journal.entries(), spans),
        None => Ok(false),
    }
}
