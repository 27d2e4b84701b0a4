//! The numbers of a small journal, worked out by hand from the definition.

use gtid_set::GtidSet;
use gtid_text::{Gtid, SourceId};
use journal::{Entry, Journal};
use logical_timestamps::last_committed_of;
use rows::{
    ByteString, Change, Changes, ColumnLists, Columns, Limits, Name, Row, Schema, Table,
    Transaction, Value,
};
use std::alloc::{AllocError, Global};
use std::test::Fail;

/// A row: its primary key and its unique key.
type Keys = (i64, u8);

/// The number of each transaction and the images of its one change; the fourth has none.
const CHANGES: [(u64, Option<Keys>, Option<Keys>); 6] = [
    (1, None, Some((1, b'a'))),
    (2, Some((1, b'a')), Some((1, b'b'))),
    (3, None, Some((2, b'c'))),
    (4, None, None),
    (5, Some((2, b'c')), Some((2, b'a'))),
    (6, Some((1, b'b')), None),
];

/// The second shares the key 1 with the first. The fifth shares the key 2 with the third, and `a` with the second
/// before that. The sixth shares the key 1 with the second last, and nothing with the three in between.
const WANT: [u64; 6] = [0, 1, 0, 0, 3, 2];

fn name(alloc: Global) -> Option<Name> {
    let name = String::from_str(alloc, "t").ok()?;
    Name::new(name).ok()
}

fn columns(alloc: Global, column: u32) -> Result<Columns, AllocError> {
    Columns::new(vec![in alloc; column]?)
}

fn table(alloc: Global) -> Option<Table> {
    let primary = columns(alloc, 0).ok()?;
    let unique = columns(alloc, 1).ok()?;
    let uniques = ColumnLists::new(vec![in alloc; unique].ok()?).ok()?;
    let name = name(alloc)?;
    Some(Table {
        name,
        columns: 2,
        primary,
        uniques,
        hidden: 0,
        limits: Limits::Narrow,
    })
}

/// The table `t` alone: its first column is the primary key, its second a unique key.
fn schema(alloc: Global) -> Option<Schema> {
    let mut schema = Schema::empty(alloc);
    schema.add(table(alloc)?).ok()?;
    Some(schema)
}

fn image(alloc: Global, keys: Keys) -> Result<Row, AllocError> {
    let unique = ByteString::from_slice(alloc, &[keys.1])?;
    Row::new(vec![in alloc; Value::Int(keys.0), Value::Bytes(unique)]?)
}

fn change(alloc: Global, before: Option<Keys>, after: Option<Keys>) -> Option<Change> {
    let table = name(alloc)?;
    match (before, after) {
        (Some(before), Some(after)) => {
            let before = image(alloc, before).ok()?;
            let after = image(alloc, after).ok()?;
            Some(Change::Update {
                table,
                before,
                after,
            })
        }
        (Some(before), None) => {
            let before = image(alloc, before).ok()?;
            Some(Change::Delete { table, before })
        }
        (None, Some(after)) => {
            let after = image(alloc, after).ok()?;
            Some(Change::Insert { table, after })
        }
        (None, None) => None,
    }
}

/// A transaction of one change, or of none.
fn transaction(alloc: Global, before: Option<Keys>, after: Option<Keys>) -> Option<Transaction> {
    let mut changes = Vec::new(alloc);
    if before.is_some() || after.is_some() {
        changes.push(change(alloc, before, after)?).ok()?;
    }
    let changes = Changes::new(changes).ok()?;
    Some(Transaction { changes })
}

fn push(journal: &mut Journal, entry: Entry) -> Option<()> {
    if journal.contains(&entry.gtid) || !entry.is_writable(Limits::Wide) {
        return None;
    }
    journal.push(entry).ok()
}

fn push_all(alloc: Global, journal: &mut Journal) -> Option<()> {
    let source = SourceId::from_bits(1);
    for (number, before, after) in CHANGES {
        let txn = transaction(alloc, before, after)?;
        let gtid = Gtid { source, number };
        push(journal, Entry { gtid, txn })?;
    }
    Some(())
}

#[tactic(auto, using(journal::proofs::EntryLemmas::no_numbers))]
fn numbers(alloc: Global) -> Option<Vec<u64>> {
    let schema = schema(alloc)?;
    let mut journal = Journal::start(alloc, GtidSet::empty(alloc));
    push_all(alloc, &mut journal)?;
    last_committed_of(alloc, &schema, &journal).ok()
}

#[test]
fn each_entry_waits_for_the_last_that_shares_a_key(rt: HostRuntime) -> Result<(), Fail> {
    let numbers = numbers(rt.alloc());
    let is_wanted = match &numbers {
        Some(numbers) => numbers.as_slice() == WANT.as_slice(),
        None => false,
    };
    assert!(rt; is_wanted);
    Ok(())
}
