//! A journal with the last_committed of each of its entries.
ghost use Rattle.std.specs.Prelude.{◌≡◌};

use journal::Journal;
use std::marker::Model;

/// A journal, and the last_committed number of each entry as its text by version 2 of the format writes it.
#[derive(Drop)]
pub struct TimestampedJournal {
    journal: Journal,
    last_committed: Vec<u64>,
}

impl Model for TimestampedJournal {
    ghost use Rattle.std.specs.Coded.{codes};
    ghost use Rattle.gtid_set.specs.Sets.{gtids_code};
    ghost use Rattle.txn_journal.specs.Timestamped.{TimestampedValue};

    ghost Value = { TimestampedValue };

    ghost coded = { Prim.hlevel (codes, gtids_code) };

    ghost view = { λ j. record { journal = j.journal; last_committed = j.last_committed.items } };
}

impl TimestampedJournal {
    /// A journal with these numbers.
    pub(crate) fn new(journal: Journal, last_committed: Vec<u64>) -> TimestampedJournal
        ensures { result ≡ record { journal = journal; last_committed = last_committed.items } }
    {
        TimestampedJournal {
            journal,
            last_committed,
        }
    }

    /// The journal.
    pub fn journal(&self) -> &Journal
        ensures { result.now ≡ self.now.journal }
    {
        &self.journal
    }

    /// The last_committed of each entry, in order: the sequence number of an earlier entry, or 0 for none (MySQL 8.0
    /// Reference Manual, binlog_transaction_dependency_tracking). The sequence number of an entry is its place, from 1.
    pub fn last_committed(&self) -> &[u64]
        ensures { result.now ≡ self.now.last_committed }
    {
        &self.last_committed
    }

    /// The journal, and the last_committed of each entry.
    pub fn into_parts(self) -> (Journal, Vec<u64>)
        ensures journal { result.0 ≡ self.journal }
        ensures last_committed { result.1.items ≡ self.last_committed }
    {
        (self.journal, self.last_committed)
    }
}
