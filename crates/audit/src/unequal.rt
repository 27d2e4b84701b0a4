//! Entries whose transaction is not the world's for their GTID.
ghost use Rattle.std.specs.Prelude.{◌≡◌};
ghost use Rattle.world.specs.declared.verdict.Verdict.TheVariants.{Unequal};
ghost use Rattle.world.specs.Search.{first, when};
ghost use Rattle.world.specs.Audit.{is_content, is_unequal, unequal};

use crate::contents::Guesses;
use crate::equal::is_equal;
use crate::sources::World;
use journal::{Entry, Journal};
use world::Verdict;

impl World {
    /// Whether the world has this transaction under this GTID. The search begins at its source's guess.
    fn has(&self, guesses: &mut Guesses, entry: &Entry) -> bool
        ensures { result ≡ is_content self.now entry.now }
    {
        match self.contents().get_near(guesses, &entry.gtid) {
            Some(txn) => is_equal(&entry.txn, txn),
            None => false,
        }
    }

    pub(crate) fn is_unequal(&self, guesses: &mut Guesses, entry: &Entry) -> bool
        ensures { result ≡ is_unequal self.now entry.now }
    {
        !self.opening_set().contains(&entry.gtid) && !self.has(guesses, entry)
    }

    fn unequal_among(&self, entries: &[Entry]) -> Option<Verdict>
        ensures { result ≡ first (λ e. when (is_unequal self.now e) (Unequal e.gtid)) entries.now }
    {
        let mut guesses = [0; 16];
        for entry in entries {
            if self.is_unequal(&mut guesses, entry) {
                return Some(Verdict::Unequal(entry.gtid));
            }
        }
        None
    }

    /// The first entry, in order of journals and entries, whose transaction is not the world's. If a journal has the transactions of a
    /// source one after another, each is found at its first guess.
    pub(crate) fn find_unequal(&self, journals: &[Journal]) -> Option<Verdict>
        ensures { result ≡ unequal self.now journals.now }
    {
        for journal in journals {
            if let Some(verdict) = self.unequal_among(journal.entries()) {
                return Some(verdict);
            }
        }
        None
    }
}
