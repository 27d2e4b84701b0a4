//! What a channel has of its source's binary log, and what it receives next.
ghost use Rattle.std.specs.Prelude.{◌≡◌, ◌≤◌, false, true, Some, length, take, IfOk, IfErr, MatchOption};
ghost use Rattle.std.specs.List.{list_all};
ghost use Rattle.std.specs.FinSet as set;
ghost use Rattle.gtid_set.specs.Full.{HasManyIntervals, IsMemoryOr};
ghost use Rattle.apply_channel.specs.Full.{gtids_with};
ghost use Rattle.replica_core.specs.Faults.{IsFaultIn, HasRoomFor};
ghost use Rattle.network.specs.Reading.{HasRead, IsNextPlace, IsRead, has_come};

use apply_channel::Channel;
use gtid_set::{GtidSet, SetFault};
use gtid_text::Gtid;
use journal::{Entry, Journal};
use std::alloc::Global;

/// Whether a channel has a GTID: in the set that it asked with, or among what it has received.
fn has_come(asked: &GtidSet, received: &GtidSet, gtid: &Gtid) -> bool
    ensures { result ≡ set.contains (set.union asked.now received.now) gtid.now }
{
    asked.contains(gtid) || received.contains(gtid)
}

/// Whether a channel has all of a set.
fn have_come(
    alloc: Global,
    asked: &GtidSet,
    received: &GtidSet,
    gtids: &GtidSet,
) -> Result<bool, SetFault>
    ensures ok { IfOk result (λ b. b ≡ set.is_subset gtids.now (set.union asked.now received.now)) }
    ensures fault { IfErr result (IsMemoryOr ⊥ (HasManyIntervals (set.difference gtids.now asked.now))) }
    ensures anew { IfErr result (λ f. set.is_subset gtids.now asked.now ≡ false) }
{
    if gtids.is_subset(asked) {
        return Ok(true);
    }
    let others = gtids.subtract(alloc, asked)?;
    Ok(others.is_subset(received))
}

/// The place of the first entry that a channel has not, or the number of entries. It has those before the given place.
pub(crate) fn next_place(
    entries: &[Entry],
    place: usize,
    asked: &GtidSet,
    received: &GtidSet,
) -> usize
    requires short { place ≤ length entries.now }
    requires come { list_all (has_come (set.union asked.now received.now)) (take place entries.now) ≡ true }
    ensures { IsNextPlace (set.union asked.now received.now) entries.now result }
{
    let mut next = place;
    'next: while next < entries.len() && has_come(asked, received, &entries[next].gtid) {
        next += 1;
    }
    next
}

/// The fault of a Receive of an entry if there is no memory before it.
pub(crate) fn refusal_to_receive(into: &Channel, entry: &Entry) -> SetFault
    ensures cause { IsFaultIn result (Some (gtids_with entry.now into.now.channel)) }
    ensures room { HasRoomFor result (Some (gtids_with entry.now into.now.channel)) }
{
    if into.received().has_room_for(&entry.gtid) {
        SetFault::Memory
    } else {
        SetFault::SourcesFull
    }
}

/// A place of a journal such that a channel has all entries before it, purged ones too: the one that is known, or else the first, if it
/// has all that was purged.
pub(crate) fn start(
    alloc: Global,
    known: Option<usize>,
    journal: &Journal,
    asked: &GtidSet,
    received: &GtidSet,
) -> Result<Option<usize>, SetFault>
    requires { IsRead (set.union asked.now received.now) journal.now known }
    ensures ok { IfOk result (λ start. MatchOption start (set.is_subset journal.now.previous (set.union asked.now received.now) ≡ false) (HasRead (set.union asked.now received.now) journal.now)) }
    ensures fault { IfErr result (IsMemoryOr ⊥ (HasManyIntervals (set.difference journal.now.previous asked.now))) }
    ensures anew { IfErr result (λ f. set.is_subset journal.now.previous asked.now ≡ false) }
{
    if known.is_some() {
        return Ok(known);
    }
    if have_come(alloc, asked, received, journal.previous())? {
        Ok(Some(0))
    } else {
        Ok(None)
    }
}
