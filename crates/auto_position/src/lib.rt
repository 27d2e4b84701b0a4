//! Auto-positioning: which entries of its journal a source sends to a replica that asks with a set of GTIDs. (MySQL 8.0 Reference Manual,
//! "GTID Auto-Positioning".)
//!
//! `plan` is what a source answers to COM_BINLOG_DUMP_GTID: the places of the entries whose GTID is not asked with, in order; or a
//! refusal: first the purged GTIDs that the replica lacks, and else the GTIDs of the source's own UUID that the replica has and the
//! source does not. The order of the two refusals, and that the second names the set, are our own rules.
//!
//! What a contract sees: the journal, the set that is asked with, and one definition, `sent` (`specs/Sending`), by which runs and
//! networks also define what a channel receives.
//!
//! Not proved: speed. By the code each entry is looked up once in the set, and the entries of the own UUID are sorted once.
#![tactic(auto)]

ghost use Rattle.std.specs.Prelude.{◌≡◌, ◌==◌, IfOk, IfErr};
ghost use Rattle.std.specs.FinSet as set;
ghost use Rattle.gtid_set.specs.Sets.{only};
ghost use Rattle.journal.specs.Journals.{whole, gtids_of};
ghost use Rattle.auto_position.specs.Sending.{is_wanted, numbers_of, places_from, sent, IsPlan, IsRefusal, IsEntriesFault, IsPlanFault};

use gtid_set::{GtidSet, SetFault};
use gtid_text::{Gtid, SourceId};
use journal::{Entry, Journal};
use std::alloc::{AllocError, AllocFailed, Global};

/// Why a source refuses to send.
#[derive(Drop)]
pub enum PositionFault {
    /// GTIDs that the replica lacks and that the journal has purged.
    PurgedRequired(GtidSet),
    /// GTIDs of this source that the replica has and the journal has no record of.
    ReplicaHasMore(GtidSet),
    /// A set was not made: out of memory, or too many intervals (`PoolFull`). `SourcesFull` never comes: each set has one source, or is
    /// part of a set that is there.
    Set(SetFault),
}

impl From<SetFault> for PositionFault {
    ghost use Rattle.auto_position.specs.declared.PositionFault.TheVariants.{Set};

    ghost from_gives = { λ f e. e ≡ Set f };

    fn from(fault: SetFault) -> PositionFault {
        PositionFault::Set(fault)
    }
}

impl From<AllocError> for PositionFault {
    ghost use Rattle.gtid_set.specs.declared.fault.SetFault.TheVariants.{Memory};
    ghost use Rattle.auto_position.specs.declared.PositionFault.TheVariants.{Set};

    ghost from_gives = { λ _ e. e ≡ Set Memory };

    fn from(_e: AllocError) -> PositionFault {
        PositionFault::Set(SetFault::Memory)
    }
}

/// The numbers of the entries of a source, in journal order.
fn numbers_of(alloc: Global, source: SourceId, entries: &[Entry]) -> Result<Vec<u64>, AllocError>
    ensures { IfOk result (λ v. v.items ≡ numbers_of source entries.now) }
{
    let mut numbers = Vec::new(alloc);
    'entries: for entry in entries {
        if entry.gtid.source == source {
            numbers.push(entry.gtid.number)?;
        }
    }
    Ok(numbers)
}

/// The GTIDs of a source among the entries. The set is built with its numbers ascending.
fn recorded_gtids(alloc: Global, source: SourceId, entries: &[Entry]) -> Result<GtidSet, SetFault>
    ensures ok { IfOk result (λ s. s ≡ only (gtids_of entries.now) source) }
    ensures fault { IfErr result (IsEntriesFault entries.now) }
{
    let mut numbers = numbers_of(alloc, source, entries)?;
    numbers.sort_unstable();
    let mut recorded = GtidSet::empty(alloc);
    'numbers: for number in &numbers {
        let gtid = Gtid {
            source,
            number: *number,
        };
        match recorded.add(gtid) {
            Ok(()) => {}
            Err(fault) => return Err(fault),
        }
    }
    Ok(recorded)
}

/// The source's own GTIDs that are asked with and that the journal has no record of.
fn unknown_gtids(
    alloc: Global,
    own: SourceId,
    journal: &Journal,
    ask: &GtidSet,
) -> Result<GtidSet, SetFault>
    ensures ok { IfOk result (λ s. s ≡ set.difference (only ask.now own) (whole journal.now)) }
    ensures fault { IfErr result (IsPlanFault journal.now ask.now) }
{
    let asked = ask.only(alloc, own)?;
    let unpurged = asked.subtract(alloc, journal.previous())?;
    let recorded = recorded_gtids(alloc, own, journal.entries())?;
    unpurged.subtract(alloc, &recorded)
}

/// The places in the journal, ascending, of the entries that the source sends to a replica that asks with a set: those whose GTID is not in
/// it. `own` is the source's own UUID, if it has one.
///
/// It refuses if an entry that should be sent was purged, and else if the replica has GTIDs of this source that the journal has no record
/// of. From the MySQL 8.0 Reference Manual, "GTID Auto-Positioning"; the order of the refusals, and that the second names the GTIDs, are
/// our own. `PoolFull` comes only if the intervals of the set that is asked with, those of the previous set and the entries are together
/// more than 4,294,967,294. It takes n log n steps at worst.
pub fn plan(
    alloc: Global,
    own: Option<SourceId>,
    journal: &Journal,
    ask: &GtidSet,
) -> Result<Vec<u64>, PositionFault>
    ensures plan { IfOk result (λ p. IsPlan journal.now.entries p.items (sent journal.now ask.now own)) }
    ensures refusal { IfErr result (λ f. IsRefusal f journal.now ask.now own) }
{
    let kept = journal.previous().is_subset(ask);
    if !kept {
        let purged = journal.previous().subtract(alloc, ask)?;
        return Err(PositionFault::PurgedRequired(purged));
    }
    if let Some(own) = own {
        let more = unknown_gtids(alloc, own, journal, ask)?;
        let known = more.is_subset(&GtidSet::empty(alloc));
        if !known {
            return Err(PositionFault::ReplicaHasMore(more));
        }
    }
    let places = places(alloc, journal.entries(), ask)?;
    Ok(places)
}

/// The places of the entries whose GTIDs are not in the set that is asked with.
fn places(alloc: Global, entries: &[Entry], ask: &GtidSet) -> Result<Vec<u64>, AllocError>
    ensures { IfOk result (λ v. v.items ≡ places_from (is_wanted ask.now) 0 entries.now) }
{
    let mut places = Vec::new(alloc);
    'entries: for (place, entry) in entries.iter().enumerate() {
        if !ask.contains(&entry.gtid) {
            places.push(place as u64)?;
        }
    }
    Ok(places)
}
