//! Which entry touched each key last.
ghost use Rattle.std.specs.Prelude.{◌≡◌, IfOk, OnOk};
ghost use Rattle.std.specs.FinMap as finmap;
ghost use Rattle.logical_timestamps.specs.Timestamps.{last_committed_of};
ghost use Rattle.logical_timestamps.specs.Writers.{IsNextLastCommitted, AreNextWriters, writers_after, record_writes, earlier_place, latest_in_turn};

use journal::{Entry, Journal};
use key_table::KeyTable;
use rows::{Key, Schema, keys_touched};
use std::alloc::{AllocError, Global};
use std::marker::Model;

/// The sequence number of the entry that touched each key last.
#[derive(Drop)]
pub struct LastWriters {
    last: KeyTable<Key, u64>,
}

impl Model for LastWriters {
    ghost use Rattle.std.specs.FinMap as finmap;
    ghost use Rattle.logical_timestamps.specs.Writers.{Writers, writers_code};

    ghost Value = { Writers };

    ghost coded = { writers_code };

    ghost view = { λ a. finmap.from_entries a.last.entries };
}

impl LastWriters {
    /// Before the first entry: nothing has touched a key.
    pub fn new(alloc: Global) -> Self
        ensures { result ≡ finmap.empty }
    {
        LastWriters {
            last: KeyTable::new(alloc),
        }
    }

    /// After these entries of a journal, from the first.
    pub fn after(
        alloc: Global,
        schema: &Schema,
        entries: &[Entry],
    ) -> Result<LastWriters, AllocError>
        ensures { IfOk result (λ writers. writers ≡ writers_after schema.now entries.now) }
    {
        let mut writers = LastWriters::new(alloc);
        for (place, entry) in entries.iter().enumerate() {
            writers.next(alloc, schema, place as u64 + 1, entry)?;
        }
        Ok(writers)
    }

    /// An entry touches a key. The result is what touched it last before.
    fn replace(&mut self, key: Key, number: u64) -> Result<Option<u64>, AllocError>
        ensures written { OnOk result (self.new ≡ finmap.insert self.old key number) }
        ensures before { IfOk result (λ before. before ≡ finmap.get self.old key) }
    {
        let Ok(before) = self.last.insert(key, number) else {
            return Err(AllocError);
        };
        Ok(before)
    }

    /// An entry touches a key. The result is the number of the earlier entry that touched it last, or 0.
    fn write(&mut self, key: Key, number: u64) -> Result<u64, AllocError>
        ensures written { OnOk result (self.new ≡ finmap.insert self.old key number) }
        ensures earlier { IfOk result (λ n. n ≡ earlier_place number (finmap.get self.old key)) }
    {
        match self.replace(key, number)? {
            None => Ok(0),
            Some(before) if before == number => Ok(0),
            Some(before) => Ok(before),
        }
    }

    /// An entry touches keys. The result is the greatest number of the earlier entries that touched them last, or 0.
    fn write_all(&mut self, keys: Vec<Key>, number: u64) -> Result<u64, AllocError>
        ensures written { OnOk result (self.new ≡ record_writes number keys.items self.old) }
        ensures latest { IfOk result (λ n. n ≡ latest_in_turn number keys.items self.old 0) }
    {
        let mut latest = 0;
        for key in keys {
            let earlier = self.write(key, number)?;
            latest = latest.max(earlier);
        }
        Ok(latest)
    }

    /// The last_committed of the next entry, which is then the last writer of its keys. Its sequence
    /// number is one more than the count of the entries before it. (MySQL 8.0 Reference Manual,
    /// binlog_transaction_dependency_tracking, WRITESET; keys themselves, not hashes, are our own
    /// rule.) After an error some of its keys may be written.
    pub fn next(
        &mut self,
        alloc: Global,
        schema: &Schema,
        number: u64,
        entry: &Entry,
    ) -> Result<u64, AllocError>
        ensures last_committed { IfOk result (IsNextLastCommitted self.old schema.now number entry.now) }
        ensures writers { OnOk result (AreNextWriters self.old schema.now number entry.now self.new) }
    {
        let keys = keys_touched(alloc, schema, &entry.txn)?;
        self.write_all(keys, number)
    }
}

/// The last_committed of each entry of a journal, in order.
pub fn last_committed_of(
    alloc: Global,
    schema: &Schema,
    journal: &Journal,
) -> Result<Vec<u64>, AllocError>
    ensures { IfOk result (λ numbers. numbers.items ≡ last_committed_of schema.now journal.now.entries) }
{
    let entries = journal.entries();
    let mut writers = LastWriters::new(alloc);
    let mut numbers = Vec::with_capacity(alloc, entries.len())?;
    for (place, entry) in entries.iter().enumerate() {
        let number = place as u64 + 1;
        numbers.push(writers.next(alloc, schema, number, entry)?)?;
    }
    Ok(numbers)
}
