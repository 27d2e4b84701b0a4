//! Marks of keys: numbers that equal keys share. A key is marked by the words of its values, so that none of them is read.
ghost use Rattle.std.specs.Prelude.{◌≡◌, ◌≤◌, ◌++◌, ℕ, List, [], ◌∷◌, length, map, OnOk};
ghost use Rattle.std.specs.List.{fold, list_any};
ghost use Rattle.std.specs.Hash.FoldHasher as folding;
ghost use Rattle.row_images.specs.Values.{is_null, value_text};
ghost use Rattle.rows.specs.Keys.{carried_keys, keys_of_row, unique_keys, values_in};
ghost use Rattle.rows.specs.WriteSet.{keys_of_change, write_set};
ghost use Rattle.audit.specs.Marks.{key_mark};

use crate::row_words::RowWords;
use row_images::Row;
use rows::{Change, Columns, Name, Schema, Table, Transaction, has_null_at};
use std::alloc::AllocError;
use std::hash::{FoldHasher, Hasher};

/// The hash of a table's name.
fn hash_name(name: &Name) -> FoldHasher
    ensures { result ≡ folding.write folding.initial name.now }
{
    let mut state = FoldHasher::default();
    state.write(name.as_str().as_bytes());
    state
}

/// The mark of a key of these columns. The hash is that of the table's name.
fn mark_of(hash: &FoldHasher, index: u8, columns: &Columns, words: &RowWords) -> u64
    ensures { result ≡ folding.finish (fold folding.write (folding.write hash.now (index ∷ [])) (map value_text (values_in columns.now words.now))) }
{
    let mut state = *hash;
    state.write(&[index]);
    for column in columns.as_slice() {
        state.write(words.at(*column));
    }
    state.finish()
}

/// Whether the value in one of these columns is null, or there is none.
fn has_null(columns: &Columns, row: &Row) -> bool
    ensures { result ≡ list_any is_null (values_in columns.now row.now) }
{
    has_null_at(columns.as_slice(), row)
}

/// Adds the mark of a unique key, if it has no null. The hash is that of the table's name.
fn push_unique(
    marks: &mut Vec<u64>,
    hash: &FoldHasher,
    index: u8,
    columns: &Columns,
    words: &RowWords,
) -> Result<(), AllocError>
    ensures { OnOk result ((name : List ℕ) → hash.now ≡ folding.write folding.initial name → marks.new.items ≡ marks.old.items ++ map key_mark (unique_keys name index (columns.now ∷ []) words.now)) }
{
    if has_null(columns, words.row()) {
        return Ok(());
    }
    marks.push(mark_of(hash, index, columns, words))?;
    Ok(())
}

/// Adds the marks of the keys that a row of this table carries.
fn push_marks_of(marks: &mut Vec<u64>, table: &Table, row: &Row) -> Result<(), AllocError>
    requires { length table.now.uniques ≤ 64 }
    ensures { OnOk result (marks.new.items ≡ marks.old.items ++ map key_mark (keys_of_row table.now row.now)) }
{
    let words = RowWords::of(*marks.allocator(), table, row)?;
    let uniques = table.uniques.as_slice();
    let hash = hash_name(&table.name);
    marks.push(mark_of(&hash, 0, &table.primary, &words))?;
    for (i, columns) in uniques.iter().enumerate() {
        push_unique(marks, &hash, i as u8 + 1, columns, &words)?;
    }
    Ok(())
}

/// Adds the marks of the keys that a row carries.
fn push_carried(
    marks: &mut Vec<u64>,
    schema: &Schema,
    name: &Name,
    row: &Row,
) -> Result<(), AllocError>
    ensures { OnOk result (marks.new.items ≡ marks.old.items ++ map key_mark (carried_keys schema.now name.now row.now)) }
{
    match schema.find(name) {
        Some(table) => push_marks_of(marks, table, row),
        None => Ok(()),
    }
}

/// Adds the marks of the keys that two rows of one table carry.
fn push_both(
    marks: &mut Vec<u64>,
    schema: &Schema,
    name: &Name,
    before: &Row,
    after: &Row,
) -> Result<(), AllocError>
    ensures { OnOk result (marks.new.items ≡ marks.old.items ++ map key_mark (carried_keys schema.now name.now before.now ++ carried_keys schema.now name.now after.now)) }
{
    match schema.find(name) {
        Some(table) => {
            push_marks_of(marks, table, before)?;
            push_marks_of(marks, table, after)
        }
        None => Ok(()),
    }
}

/// Adds the marks of the keys that a change touches.
fn push_change(marks: &mut Vec<u64>, schema: &Schema, change: &Change) -> Result<(), AllocError>
    ensures { OnOk result (marks.new.items ≡ marks.old.items ++ map key_mark (keys_of_change schema.now change.now)) }
{
    match change {
        Change::Insert { table, after } => push_carried(marks, schema, table, after),
        Change::Delete { table, before } => push_carried(marks, schema, table, before),
        Change::Update {
            table,
            before,
            after,
        } => push_both(marks, schema, table, before, after),
    }
}

/// Adds the marks of the keys that a transaction touches, in order; a mark may occur more than once.
pub(crate) fn push_marks(
    marks: &mut Vec<u64>,
    schema: &Schema,
    txn: &Transaction,
) -> Result<(), AllocError>
    ensures { OnOk result (marks.new.items ≡ marks.old.items ++ map key_mark (write_set schema.now txn.now)) }
{
    for change in txn.changes.as_slice() {
        push_change(marks, schema, change)?;
    }
    Ok(())
}
