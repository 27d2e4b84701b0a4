//! Each GTID under which a journal has another transaction than the world.
ghost use Rattle.std.specs.Prelude.{◌≡◌, List, ◌∷◌, ◌++◌, IfOk, OnOk};
ghost use Rattle.journal.specs.declared.Entry.{Entry};
ghost use Rattle.std.specs.FinSet as set;
ghost use Rattle.world.specs.Audit.{all_entries};
ghost use Rattle.audit.specs.OtherUnequal.{other_unequal, unequal_from};

use crate::contents::Guesses;
use crate::sources::World;
use crate::standing::GtidTable;
use gtid_text::Gtid;
use journal::{Entry, Journal};
use std::alloc::{AllocError, Global};
use world::Verdict;

impl World {
    /// Reports the GTID of an entry as unequal, if it is and was not reported already.
    fn report_unequal(
        &self,
        found: &mut Vec<Verdict>,
        reported: &mut GtidTable,
        guesses: &mut Guesses,
        entry: &Entry,
    ) -> Result<(), AllocError>
        ensures { OnOk result ((rest : List Entry) → found.new.items ++ unequal_from self.now reported.new rest ≡ found.old.items ++ unequal_from self.now reported.old (entry.now ∷ rest)) }
    {
        if self.is_unequal(guesses, entry) && !reported.has(&entry.gtid) {
            found.push(Verdict::Unequal(entry.gtid))?;
            reported.put(entry.gtid)?;
        }
        Ok(())
    }

    fn report_unequal_among(
        &self,
        found: &mut Vec<Verdict>,
        reported: &mut GtidTable,
        entries: &[Entry],
    ) -> Result<(), AllocError>
        ensures { OnOk result ((rest : List Entry) → found.new.items ++ unequal_from self.now reported.new rest ≡ found.old.items ++ unequal_from self.now reported.old (entries.now ++ rest)) }
    {
        let mut guesses = [0; 16];
        for entry in entries {
            self.report_unequal(found, reported, &mut guesses, entry)?;
        }
        Ok(())
    }

    /// Each GTID that is unequal, but for one that is reported already.
    fn unequal_beside(
        &self,
        alloc: Global,
        journals: &[Journal],
        gtid: Gtid,
    ) -> Result<Vec<Verdict>, AllocError>
        ensures { IfOk result (λ found. found.items ≡ unequal_from self.now (set.insert set.empty gtid) (all_entries journals.now)) }
    {
        let mut found = Vec::new(alloc);
        let mut reported = GtidTable::new(alloc);
        reported.put(gtid)?;
        for journal in journals {
            self.report_unequal_among(&mut found, &mut reported, journal.entries())?;
        }
        Ok(found)
    }

    /// Each GTID that is unequal, but for that of the verdict. If the verdict is another one, there is none.
    pub(crate) fn other_unequal(
        &self,
        alloc: Global,
        journals: &[Journal],
        verdict: &Verdict,
    ) -> Result<Vec<Verdict>, AllocError>
        ensures { IfOk result (λ found. found.items ≡ other_unequal self.now journals.now verdict.now) }
    {
        match verdict {
            Verdict::Unequal(gtid) => self.unequal_beside(alloc, journals, *gtid),
            _ => Ok(Vec::new(alloc)),
        }
    }
}
