//! For the statements of which transactions of a log an operator answers.
ghost use Rattle.std.specs.Prelude.{◌≡◌, IfOk, OnOk, if◌then◌else◌};
ghost use Rattle.std.specs.FinSet as set;
ghost use Rattle.binlog_bundle.specs.Accepted.{is_accepted, accepted_in};

use gtid_set::GtidSet;
use journal::Entry;
use std::alloc::{AllocError, Global};

/// Whether an entry has no changes, and its GTID is one of the set that is accepted.
fn is_accepted(accepted: &GtidSet, entry: &Entry) -> bool
    ensures { result ≡ is_accepted accepted.now entry.now }
{
    entry.txn.changes.as_slice().is_empty() && accepted.contains(&entry.gtid)
}

/// Adds the GTID of such an entry.
fn add_accepted(found: &mut GtidSet, accepted: &GtidSet, entry: &Entry) -> Result<(), AllocError>
    ensures { OnOk result (found.new ≡ (if is_accepted accepted.now entry.now then set.insert found.old entry.now.gtid else found.old)) }
{
    if !is_accepted(accepted, entry) {
        return Ok(());
    }
    match found.add(entry.gtid) {
        Ok(()) => Ok(()),
        Err(_) => Err(AllocError),
    }
}

/// The GTIDs of the entries without changes that are in the set that is accepted. It is out of memory, too, where they have more intervals
/// than a set may have.
pub fn accepted_in(
    alloc: Global,
    accepted: &GtidSet,
    entries: &[Entry],
) -> Result<GtidSet, AllocError>
    ensures { IfOk result (λ found. found ≡ accepted_in accepted.now entries.now) }
{
    let mut found = GtidSet::empty(alloc);
    for entry in entries {
        add_accepted(&mut found, accepted, entry)?;
    }
    Ok(found)
}
