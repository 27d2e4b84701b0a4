//! The GTIDs of all journals together.
ghost use Rattle.std.specs.Prelude.{◌≡◌, IfSome, true};
ghost use Rattle.std.specs.FinSet as set;
ghost use Rattle.journal.specs.Journals.{gtids_of, whole};
ghost use Rattle.convergence.specs.Deciding.{all_of};

use gtid_set::GtidSet;
use journal::{Entry, Journal};
use std::alloc::Global;

/// Adds the GTIDs of entries to a set, unless a call fails.
fn add_gtids(known: &mut GtidSet, entries: &[Entry]) -> bool
    ensures { result ≡ true → known.new ≡ set.union known.old (gtids_of entries.now) }
{
    for entry in entries {
        match known.add(entry.gtid) {
            Ok(()) => {}
            Err(_) => return false,
        }
    }
    true
}

/// Adds all GTIDs that a journal has a record of to a set; false if the set lacks the journal's previous set or a call fails.
fn add_journal(known: &mut GtidSet, journal: &Journal) -> bool
    ensures { result ≡ true → known.new ≡ set.union known.old (whole journal.now) }
{
    if !journal.previous().is_subset(known) {
        return false;
    }
    add_gtids(known, journal.entries())
}

fn add_each(known: &mut GtidSet, journals: &[Journal]) -> bool
    ensures { result ≡ true → known.new ≡ all_of known.old journals.now }
{
    for journal in journals {
        if !add_journal(known, journal) {
            return false;
        }
    }
    true
}

/// A set with all that journals have a record of, unless it lacks the previous set of one of them or a call fails.
pub(crate) fn union_of(alloc: Global, opened: &GtidSet, journals: &[Journal]) -> Option<GtidSet>
    ensures { IfSome result (λ known. known ≡ all_of opened.now journals.now) }
{
    let Ok(mut known) = opened.copy(alloc) else {
        return None;
    };
    if !add_each(&mut known, journals) {
        return None;
    }
    Some(known)
}
