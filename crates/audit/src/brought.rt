//! What journals have, if that is not all that the world has.
ghost use Rattle.std.specs.Prelude.{◌≡◌, IfOk, None, length, true};
ghost use Rattle.std.specs.List.{list_all};
ghost use Rattle.std.specs.Option.{unwrap_or};
ghost use Rattle.world.specs.Audit.{all_entries, first_contents, unequal};
ghost use Rattle.audit.specs.Worlds.{AreAllIn, AreMarkedMore, IsWorldOf};

use crate::contents::Contents;
use crate::sources::World;
use journal::{Entry, Journal};
use std::alloc::{AllocError, Global};

/// Whether all places are marked.
fn are_all(marks: &[bool]) -> bool
    ensures { result ≡ list_all (λ mark. mark) marks.now }
{
    marks.iter().all(|mark| *mark)
}

impl World {
    /// Marks the place of each transaction whose GTID is that of one of these entries.
    fn mark(&self, marks: &mut Vec<bool>, entries: &[Entry])
        ensures len { length marks.new.items ≡ length marks.old.items }
        ensures marks { AreMarkedMore self.now.contents entries.now marks.old.items marks.new.items }
    {
        let mut guesses = [0; 16];
        for entry in entries {
            let Some(place) = self.contents().place_near(&mut guesses, &entry.gtid) else {
                continue;
            };
            if place < marks.len() {
                marks[place] = true;
            }
        }
    }

    /// Whether each transaction's GTID is found in a journal. It takes a byte for each transaction.
    fn are_all_recorded(&self, alloc: Global, journals: &[Journal]) -> Result<bool, AllocError>
        ensures { IfOk result (λ yes. yes ≡ true → AreAllIn self.now.contents (all_entries journals.now)) }
    {
        let mut marks = vec![in alloc; false; self.in_order().len()]?;
        for journal in journals {
            self.mark(&mut marks, journal.entries());
        }
        Ok(are_all(&marks))
    }

    /// Whether the world is found to be that of journals; the caller may know that they bring nothing unequal.
    fn is_of(&self, alloc: Global, journals: &[Journal], equal: bool) -> Result<bool, AllocError>
        requires { equal ≡ true → unequal self.now journals.now ≡ None }
        ensures { IfOk result (λ yes. yes ≡ true → IsWorldOf self.now journals.now) }
    {
        if !equal {
            return Ok(false);
        }
        self.lie_beyond();
        self.are_all_recorded(alloc, journals)
    }

    /// What journals bring first under each GTID beyond the opening set, unless that is found to be what the world has.
    pub(crate) fn first_contents(
        &self,
        alloc: Global,
        journals: &[Journal],
        equal: bool,
    ) -> Result<Option<Contents>, AllocError>
        requires { equal ≡ true → unequal self.now journals.now ≡ None }
        ensures { IfOk result (λ other. unwrap_or other self.now.contents ≡ first_contents self.now.opening_set (all_entries journals.now)) }
    {
        if self.is_of(alloc, journals, equal)? {
            return Ok(None);
        }
        let contents = Contents::of_journals(alloc, self.opening_set(), journals)?;
        Ok(Some(contents))
    }
}
