//! What is reported about an entry that is out of turn.
ghost use Rattle.std.specs.Prelude.{◌≡◌};
ghost use Rattle.world.specs.Audit.{is_recorded_in};
ghost use Rattle.history.specs.Histories.{has};
ghost use Rattle.world.specs.AuditInOrder.{pair_fault};
ghost use Rattle.world.specs.Bundles.{beyond_opening, history_of, histories_of};
ghost use Rattle.audit.specs.Chains.{name_verdict};

use crate::turns::OutOfTurn;
use gtid_set::GtidSet;
use gtid_text::Gtid;
use journal::{Entry, Journal};
use world::Verdict;

/// Whether one of these entries has a GTID.
fn has_gtid(entries: &[Entry], gtid: &Gtid) -> bool
    ensures { result ≡ is_recorded_in entries.now gtid.now }
{
    entries.iter().any(|entry| *gtid == entry.gtid)
}

/// Whether one of these entries has a GTID that is beyond the opening set.
#[tactic(auto, using(crate::proofs::Behind::beyond_has))]
fn has(opened: &GtidSet, entries: &[Entry], gtid: &Gtid) -> bool
    ensures { result ≡ has (beyond_opening opened.now entries.now) gtid.now }
{
    !opened.contains(gtid) && has_gtid(entries, gtid)
}

/// The fault between the first journal that has what has to come first and the one that was read.
fn pair_fault(opened: &GtidSet, bringer: &Journal, journal: &Journal, out: OutOfTurn) -> Verdict
    ensures { result ≡ pair_fault (history_of opened.now bringer.now) (history_of opened.now journal.now) out.next out.entry out.key }
{
    let has_next = has(opened, journal.entries(), &out.next);
    if has(opened, bringer.entries(), &out.entry) {
        if has_next {
            Verdict::Reordered(out.next, out.entry, out.key)
        } else {
            Verdict::NotClosed(out.entry, out.next)
        }
    } else if has_next {
        Verdict::NotClosed(out.next, out.entry)
    } else {
        Verdict::Concurrent(out.next, out.entry, out.key)
    }
}

/// The verdict on an entry that is out of turn in a journal, and on what has to come before it.
pub(crate) fn name_verdict(
    opened: &GtidSet,
    journals: &[Journal],
    journal: &Journal,
    out: OutOfTurn,
) -> Option<Verdict>
    ensures { result ≡ name_verdict (histories_of opened.now journals.now) (history_of opened.now journal.now) out }
{
    for bringer in journals {
        if has(opened, bringer.entries(), &out.next) {
            return Some(pair_fault(opened, bringer, journal, out));
        }
    }
    None
}
