//! Journals that begin after the opening set.
ghost use Rattle.std.specs.Prelude.{◌≡◌, IfOk, IfErr};
ghost use Rattle.world.specs.Audit.{purged};
ghost use Rattle.audit.specs.Passing.{first_from, purged_at};
ghost use Rattle.audit.specs.Faults.{IsAuditFault};

use crate::sources::World;
use gtid_set::SetFault;
use journal::Journal;
use std::alloc::Global;
use world::Verdict;

impl World {
    /// The first journal whose previous set is not within the opening set, with what is missing.
    pub(crate) fn find_purged(
        &self,
        alloc: Global,
        journals: &[Journal],
    ) -> Result<Option<Verdict>, SetFault>
        ensures found { IfOk result (λ found. found ≡ purged self.now journals.now) }
        ensures fault { IfErr result (IsAuditFault self.now.opening_set journals.now) }
    {
        self.first_purged(alloc, journals)
    }

    fn first_purged(&self, alloc: Global, journals: &[Journal]) -> Result<Option<Verdict>, SetFault>
        ensures found { IfOk result (λ found. found ≡ first_from (purged_at self.now) 0 journals.now) }
        ensures fault { IfErr result (IsAuditFault self.now.opening_set journals.now) }
    {
        for (i, journal) in journals.iter().enumerate() {
            if !journal.previous().is_subset(self.opening_set()) {
                let missing = journal.previous().subtract(alloc, self.opening_set())?;
                return Ok(Some(Verdict::Purged(i, missing)));
            }
        }
        Ok(None)
    }
}
