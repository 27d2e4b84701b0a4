//! All faults: GTIDs under which journals differ from the world, journals that begin after the opening set, missing GTIDs, shared keys,
//! GTIDs that are present without what they need and sources whose transactions do not apply.
ghost use Rattle.std.specs.Prelude.{◌≡◌, IfOk, IfErr};
ghost use Rattle.world.specs.Audit.{verdict};
ghost use Rattle.audit.specs.Faults.{IsAuditFault};
ghost use Rattle.audit.specs.Others.{IsListFault, HoldsFaults, faults_of, is_of_journal, other_purged};

use crate::finding::audit;
use crate::sources::World;
use gtid_set::{GtidSet, SetFault};
use journal::Journal;
use std::alloc::Global;
use world::Verdict;

/// What an audit lists: its verdict, and all other faults.
#[derive(Drop)]
pub struct AllFaults {
    /// The verdict of `audit`.
    pub verdict: Verdict,
    /// Each other GTID under which a journal has another transaction than the world.
    pub unequal: Vec<Verdict>,
    /// Each other journal that begins after the opening set, with what is missing.
    pub purged: Vec<Verdict>,
    /// The other missing GTIDs.
    pub missing: GtidSet,
    /// Each other shared key, with the least pair that touches it, in the order of the greater GTIDs.
    pub shared: Vec<Verdict>,
    /// Each other GTID that is in a journal without the nearest earlier transaction of its source at
    /// one of its keys, with this one, in the order of journals and entries.
    pub not_closed: Vec<Verdict>,
    /// If by the verdict a transaction does not apply, the first that does not of each other source, taken alone, sources ascending.
    pub does_not_apply: Vec<Verdict>,
}

/// Whether a verdict is that of a journal.
fn is_of_journal(journal: usize, verdict: &Verdict) -> bool
    ensures { result ≡ is_of_journal journal verdict.now }
{
    match verdict {
        Verdict::Purged(other, _) => *other == journal,
        _ => false,
    }
}

impl World {
    /// Each journal whose previous set is not within the opening set, but that of the verdict.
    fn other_purged(
        &self,
        alloc: Global,
        journals: &[Journal],
        verdict: &Verdict,
    ) -> Result<Vec<Verdict>, SetFault>
        ensures found { IfOk result (λ list. list.items ≡ other_purged self.now journals.now verdict.now) }
        ensures fault { IfErr result (IsAuditFault self.now.opening_set journals.now) }
    {
        let mut list = Vec::new(alloc);
        for (i, journal) in journals.iter().enumerate() {
            if !journal.previous().is_subset(self.opening_set()) && !is_of_journal(i, verdict) {
                let missing = journal.previous().subtract(alloc, self.opening_set())?;
                list.push(Verdict::Purged(i, missing))?;
            }
        }
        Ok(list)
    }

    /// All other faults.
    fn list_behind(
        &self,
        alloc: Global,
        journals: &[Journal],
        first: Verdict,
    ) -> Result<AllFaults, SetFault>
        requires first { first ≡ verdict self.now journals.now }
        ensures found { IfOk result (λ all. HoldsFaults all (faults_of self.now journals.now)) }
        ensures fault { IfErr result (IsListFault self.now journals.now) }
    {
        let ordered = self.are_in_order(alloc, journals)?;
        let unequal = self.other_unequal(alloc, journals, &first)?;
        let purged = self.other_purged(alloc, journals, &first)?;
        let missing = self.other_missing(alloc, journals, ordered, &first)?;
        let shared = self.other_pairs(alloc, &first)?;
        let not_closed = self.other_gaps(alloc, journals, ordered, &first)?;
        let does_not_apply = self.other_refusals(alloc, &first)?;
        Ok(AllFaults {
            verdict: first,
            unequal,
            purged,
            missing,
            shared,
            not_closed,
            does_not_apply,
        })
    }
}

/// The verdict of `audit`, and after it each other GTID under which journals differ from the world, each other journal that begins after
/// the opening set, each other missing GTID, each other shared key, each other GTID that is present without what it needs and each other
/// source whose transactions do not apply (`faults_are_all`). `SourcesFull` comes only if the numbers that are passed over, missing or
/// executed from the start, are of too many sources; `PoolFull` only if the intervals of the opening set and of the previous sets and the
/// entries together are too many.
pub fn audit_all(alloc: Global, world: &World, journals: &[Journal]) -> Result<AllFaults, SetFault>
    ensures found { IfOk result (λ all. HoldsFaults all (faults_of world.now journals.now)) }
    ensures fault { IfErr result (IsListFault world.now journals.now) }
{
    let first = audit(alloc, world, journals)?;
    world.list_behind(alloc, journals, first)
}
