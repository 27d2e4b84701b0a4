//! The changes of a transaction, made in place one key after another. No list of keys is made.
ghost use Rattle.std.specs.Prelude.{◌≡◌, ◌≤◌, ◌∷◌, [], ℕ, true, false, length, Ok, IfSome, IsSomeAnd};
ghost use Rattle.std.specs.FinMap as map;
ghost use Rattle.indexmap.specs.IndexMap.{spare};
ghost use Rattle.row_images.specs.Order.{row_eq};
ghost use Rattle.rows.specs.declared.steps.Expected.TheVariants.{Nothing};
ghost use Rattle.rows.specs.Apply.{without_keys, insert_row, delete_row, apply_change, apply_from};
ghost use Rattle.rows.specs.declared.change.Change.TheVariants.{Update};
ghost use Rattle.rows.specs.Keys.{unique_keys, keys_of_row, carried_keys};
ghost use Rattle.rows.specs.Making.{update_row};
ghost use Rattle.rows.specs.Steps.{IsExpected, IsPlaced, all_undone, expected_if, primary_key, rows_in};

use crate::change::{Change, Key};
use crate::keys::{keeps_keys, key_values};
use crate::name::Name;
use crate::schema::{Columns, Schema, Table};
use crate::steps::{EntryStep, Expected, put, remove, take_all_back};
use key_table::KeyTable;
use row_images::{KeyValues, Row};
use std::alloc::Global;

/// A key of a table.
fn key_of(name: &Name, index: u32, values: KeyValues) -> Option<Key>
    ensures { IfSome result (λ key. key ≡ record { table = name.now; index = index; values = values }) }
{
    let Ok(table) = name.clone() else {
        return None;
    };
    Some(Key {
        table,
        index,
        values,
    })
}

/// Puts a row under the key of these values.
fn put_values(
    carriers: &mut KeyTable<Key, Row>,
    log: &mut Vec<EntryStep>,
    name: &Name,
    index: u32,
    values: KeyValues,
    row: &Row,
    expected: Expected<'_>,
) -> bool
    ensures put { result ≡ true → rows_in carriers.new.entries ≡ map.insert (rows_in carriers.old.entries) (record { table = name.now; index = index; values = values }) row.now }
    ensures over { result ≡ true → IsExpected expected.entry (map.get (rows_in carriers.old.entries) (record { table = name.now; index = index; values = values })) }
    ensures back { all_undone log.new.items carriers.new.entries ≡ all_undone log.old.items carriers.old.entries }
    ensures room { length log.old.items ≤ spare carriers.old → length log.new.items ≤ spare carriers.new }
{
    let Some(key) = key_of(name, index, values) else {
        return false;
    };
    let Ok(own) = row.clone() else {
        return false;
    };
    put(carriers, log, key, own, expected)
}

/// Removes what is under the key of these values.
fn remove_values(
    carriers: &mut KeyTable<Key, Row>,
    log: &mut Vec<EntryStep>,
    name: &Name,
    index: u32,
    values: KeyValues,
    expected: Expected<'_>,
) -> bool
    ensures removed { result ≡ true → rows_in carriers.new.entries ≡ map.remove (rows_in carriers.old.entries) (record { table = name.now; index = index; values = values }) }
    ensures over { result ≡ true → IsExpected expected.entry (map.get (rows_in carriers.old.entries) (record { table = name.now; index = index; values = values })) }
    ensures back { all_undone log.new.items carriers.new.entries ≡ all_undone log.old.items carriers.old.entries }
    ensures room { length log.old.items ≤ spare carriers.old → length log.new.items ≤ spare carriers.new }
{
    let Some(key) = key_of(name, index, values) else {
        return false;
    };
    remove(carriers, log, &key, expected)
}

/// What has to be under a unique key.
fn expected_if(free: bool) -> Expected<'static>
    ensures { result ≡ expected_if free }
{
    if free {
        Expected::Nothing
    } else {
        Expected::Anything
    }
}

/// Puts a row under the primary key of an image.
fn put_under_primary(
    alloc: Global,
    carriers: &mut KeyTable<Key, Row>,
    log: &mut Vec<EntryStep>,
    table: &Table,
    image: &Row,
    row: &Row,
    expected: Expected<'_>,
) -> bool
    ensures put { result ≡ true → rows_in carriers.new.entries ≡ map.insert (rows_in carriers.old.entries) (primary_key table.now image.now) row.now }
    ensures over { result ≡ true → IsExpected expected.entry (map.get (rows_in carriers.old.entries) (primary_key table.now image.now)) }
    ensures back { all_undone log.new.items carriers.new.entries ≡ all_undone log.old.items carriers.old.entries }
    ensures room { length log.old.items ≤ spare carriers.old → length log.new.items ≤ spare carriers.new }
{
    let Ok(values) = key_values(alloc, &table.primary, image) else {
        return false;
    };
    put_values(carriers, log, &table.name, 0, values, row, expected)
}

/// Puts a row under a unique key of an image, unless that has a null.
fn put_under_unique(
    alloc: Global,
    carriers: &mut KeyTable<Key, Row>,
    log: &mut Vec<EntryStep>,
    name: &Name,
    index: u32,
    columns: &Columns,
    image: &Row,
    row: &Row,
    free: bool,
) -> bool
    ensures placed { result ≡ true → IsPlaced free (unique_keys name.now index (columns.now ∷ []) image.now) row.now (rows_in carriers.old.entries) (rows_in carriers.new.entries) }
    ensures back { all_undone log.new.items carriers.new.entries ≡ all_undone log.old.items carriers.old.entries }
    ensures room { length log.old.items ≤ spare carriers.old → length log.new.items ≤ spare carriers.new }
{
    let Ok(values) = key_values(alloc, columns, image) else {
        return false;
    };
    if values.has_null() {
        return true;
    }
    put_values(carriers, log, name, index, values, row, expected_if(free))
}

/// Puts a row under the unique keys of an image, in order.
fn put_under_uniques(
    alloc: Global,
    carriers: &mut KeyTable<Key, Row>,
    log: &mut Vec<EntryStep>,
    table: &Table,
    image: &Row,
    row: &Row,
    free: bool,
) -> bool
    requires { length table.now.uniques ≤ 64 }
    ensures placed { result ≡ true → IsPlaced free (unique_keys table.now.name 1 table.now.uniques image.now) row.now (rows_in carriers.old.entries) (rows_in carriers.new.entries) }
    ensures back { all_undone log.new.items carriers.new.entries ≡ all_undone log.old.items carriers.old.entries }
    ensures room { length log.old.items ≤ spare carriers.old → length log.new.items ≤ spare carriers.new }
{
    let uniques = table.uniques.as_slice();
    for (i, columns) in uniques.iter().enumerate() {
        if !put_under_unique(
            alloc,
            carriers,
            log,
            &table.name,
            i as u32 + 1,
            columns,
            image,
            row,
            free,
        ) {
            return false;
        }
    }
    true
}

/// Puts a row under the keys of an image.
fn put_under_each(
    alloc: Global,
    carriers: &mut KeyTable<Key, Row>,
    log: &mut Vec<EntryStep>,
    table: &Table,
    image: &Row,
    row: &Row,
    first: Expected<'_>,
    free: bool,
) -> bool
    requires few { length table.now.uniques ≤ 64 }
    requires first { free ≡ true → first ≡ Nothing }
    ensures placed { result ≡ true → IsPlaced free (keys_of_row table.now image.now) row.now (rows_in carriers.old.entries) (rows_in carriers.new.entries) }
    ensures over { result ≡ true → IsExpected first.entry (map.get (rows_in carriers.old.entries) (primary_key table.now image.now)) }
    ensures back { all_undone log.new.items carriers.new.entries ≡ all_undone log.old.items carriers.old.entries }
    ensures room { length log.old.items ≤ spare carriers.old → length log.new.items ≤ spare carriers.new }
{
    if !put_under_primary(alloc, carriers, log, table, image, row, first) {
        return false;
    }
    put_under_uniques(alloc, carriers, log, table, image, row, free)
}

/// Removes what is under a unique key of a row, unless that has a null.
fn remove_unique(
    alloc: Global,
    carriers: &mut KeyTable<Key, Row>,
    log: &mut Vec<EntryStep>,
    name: &Name,
    index: u32,
    columns: &Columns,
    row: &Row,
) -> bool
    ensures removed { result ≡ true → rows_in carriers.new.entries ≡ without_keys (unique_keys name.now index (columns.now ∷ []) row.now) (rows_in carriers.old.entries) }
    ensures back { all_undone log.new.items carriers.new.entries ≡ all_undone log.old.items carriers.old.entries }
    ensures room { length log.old.items ≤ spare carriers.old → length log.new.items ≤ spare carriers.new }
{
    let Ok(values) = key_values(alloc, columns, row) else {
        return false;
    };
    if values.has_null() {
        return true;
    }
    remove_values(carriers, log, name, index, values, Expected::Anything)
}

/// Removes what is under the unique keys of a row, in order.
fn remove_uniques(
    alloc: Global,
    carriers: &mut KeyTable<Key, Row>,
    log: &mut Vec<EntryStep>,
    table: &Table,
    row: &Row,
) -> bool
    requires { length table.now.uniques ≤ 64 }
    ensures removed { result ≡ true → rows_in carriers.new.entries ≡ without_keys (unique_keys table.now.name 1 table.now.uniques row.now) (rows_in carriers.old.entries) }
    ensures back { all_undone log.new.items carriers.new.entries ≡ all_undone log.old.items carriers.old.entries }
    ensures room { length log.old.items ≤ spare carriers.old → length log.new.items ≤ spare carriers.new }
{
    let uniques = table.uniques.as_slice();
    for (i, columns) in uniques.iter().enumerate() {
        if !remove_unique(
            alloc,
            carriers,
            log,
            &table.name,
            i as u32 + 1,
            columns,
            row,
        ) {
            return false;
        }
    }
    true
}

/// Removes an equal row under the primary key of this one.
fn remove_primary(
    alloc: Global,
    carriers: &mut KeyTable<Key, Row>,
    log: &mut Vec<EntryStep>,
    table: &Table,
    row: &Row,
) -> bool
    ensures removed { result ≡ true → rows_in carriers.new.entries ≡ map.remove (rows_in carriers.old.entries) (primary_key table.now row.now) }
    ensures over { result ≡ true → IsSomeAnd (map.get (rows_in carriers.old.entries) (primary_key table.now row.now)) (λ found. row_eq found row.now ≡ true) }
    ensures back { all_undone log.new.items carriers.new.entries ≡ all_undone log.old.items carriers.old.entries }
    ensures room { length log.old.items ≤ spare carriers.old → length log.new.items ≤ spare carriers.new }
{
    let Ok(values) = key_values(alloc, &table.primary, row) else {
        return false;
    };
    remove_values(carriers, log, &table.name, 0, values, Expected::This(row))
}

/// Makes an insert, if all keys are free and there is memory.
fn insert(
    alloc: Global,
    carriers: &mut KeyTable<Key, Row>,
    log: &mut Vec<EntryStep>,
    schema: &Schema,
    name: &Name,
    row: &Row,
) -> bool
    ensures made { result ≡ true → (n : ℕ) → insert_row n (carried_keys schema.now name.now row.now) row.now (rows_in carriers.old.entries) ≡ Ok (rows_in carriers.new.entries) }
    ensures back { all_undone log.new.items carriers.new.entries ≡ all_undone log.old.items carriers.old.entries }
    ensures room { length log.old.items ≤ spare carriers.old → length log.new.items ≤ spare carriers.new }
{
    let Some(table) = schema.find(name) else {
        return true;
    };
    put_under_each(
        alloc,
        carriers,
        log,
        table,
        row,
        row,
        Expected::Nothing,
        true,
    )
}

/// Makes a delete, if the row is there and there is memory.
fn delete(
    alloc: Global,
    carriers: &mut KeyTable<Key, Row>,
    log: &mut Vec<EntryStep>,
    schema: &Schema,
    name: &Name,
    row: &Row,
) -> bool
    ensures made { result ≡ true → (n : ℕ) → delete_row n (carried_keys schema.now name.now row.now) row.now (rows_in carriers.old.entries) ≡ Ok (rows_in carriers.new.entries) }
    ensures back { all_undone log.new.items carriers.new.entries ≡ all_undone log.old.items carriers.old.entries }
    ensures room { length log.old.items ≤ spare carriers.old → length log.new.items ≤ spare carriers.new }
{
    let Some(table) = schema.find(name) else {
        return false;
    };
    if !remove_primary(alloc, carriers, log, table, row) {
        return false;
    }
    remove_uniques(alloc, carriers, log, table, row)
}

/// Puts a row in the place of another that carries the same keys, if that is there and there is memory.
fn replace(
    alloc: Global,
    carriers: &mut KeyTable<Key, Row>,
    log: &mut Vec<EntryStep>,
    schema: &Schema,
    name: &Name,
    before: &Row,
    after: &Row,
) -> bool
    ensures made { result ≡ true → (n : ℕ) → update_row n (carried_keys schema.now name.now before.now) before.now (carried_keys schema.now name.now before.now) after.now (rows_in carriers.old.entries) ≡ Ok (rows_in carriers.new.entries) }
    ensures back { all_undone log.new.items carriers.new.entries ≡ all_undone log.old.items carriers.old.entries }
    ensures room { length log.old.items ≤ spare carriers.old → length log.new.items ≤ spare carriers.new }
{
    let Some(table) = schema.find(name) else {
        return false;
    };
    put_under_each(
        alloc,
        carriers,
        log,
        table,
        before,
        after,
        Expected::This(before),
        false,
    )
}

/// Makes an update, if it can be made and there is memory.
fn update(
    alloc: Global,
    carriers: &mut KeyTable<Key, Row>,
    log: &mut Vec<EntryStep>,
    schema: &Schema,
    name: &Name,
    before: &Row,
    after: &Row,
) -> bool
    ensures made { result ≡ true → (n : ℕ) → apply_change schema.now n (Update name.now before.now after.now) (rows_in carriers.old.entries) ≡ Ok (rows_in carriers.new.entries) }
    ensures back { all_undone log.new.items carriers.new.entries ≡ all_undone log.old.items carriers.old.entries }
    ensures room { length log.old.items ≤ spare carriers.old → length log.new.items ≤ spare carriers.new }
{
    if keeps_keys(schema, name, before, after) {
        return replace(alloc, carriers, log, schema, name, before, after);
    }
    if !delete(alloc, carriers, log, schema, name, before) {
        return false;
    }
    insert(alloc, carriers, log, schema, name, after)
}

/// Makes a change, if it can be made and there is memory.
fn make(
    alloc: Global,
    carriers: &mut KeyTable<Key, Row>,
    log: &mut Vec<EntryStep>,
    schema: &Schema,
    change: &Change,
) -> bool
    ensures made { result ≡ true → (n : ℕ) → apply_change schema.now n change.now (rows_in carriers.old.entries) ≡ Ok (rows_in carriers.new.entries) }
    ensures back { all_undone log.new.items carriers.new.entries ≡ all_undone log.old.items carriers.old.entries }
    ensures room { length log.old.items ≤ spare carriers.old → length log.new.items ≤ spare carriers.new }
{
    match change {
        Change::Insert { table, after } => insert(alloc, carriers, log, schema, table, after),
        Change::Delete { table, before } => delete(alloc, carriers, log, schema, table, before),
        Change::Update {
            table,
            before,
            after,
        } => update(alloc, carriers, log, schema, table, before, after),
    }
}

/// Makes changes in order, if all can be made and there is memory. Else some are made, and the log has the way back.
fn make_in_turn(
    alloc: Global,
    carriers: &mut KeyTable<Key, Row>,
    log: &mut Vec<EntryStep>,
    schema: &Schema,
    changes: &[Change],
) -> bool
    ensures made { result ≡ true → apply_from schema.now 0 changes.now (rows_in carriers.old.entries) ≡ Ok (rows_in carriers.new.entries) }
    ensures back { all_undone log.new.items carriers.new.entries ≡ all_undone log.old.items carriers.old.entries }
    ensures room { length log.old.items ≤ spare carriers.old → length log.new.items ≤ spare carriers.new }
{
    for change in changes {
        if !make(alloc, carriers, log, schema, change) {
            return false;
        }
    }
    true
}

/// Makes changes in order, if all can be made and there is memory; else nothing changes.
pub(crate) fn make_all_in_place(
    alloc: Global,
    carriers: &mut KeyTable<Key, Row>,
    schema: &Schema,
    changes: &[Change],
) -> bool
    ensures made { result ≡ true → apply_from schema.now 0 changes.now (rows_in carriers.old.entries) ≡ Ok (rows_in carriers.new.entries) }
    ensures kept { result ≡ false → carriers.new.entries ≡ carriers.old.entries }
{
    // (most changes make two steps)
    let Ok(mut log) = Vec::with_capacity(alloc, 2 * changes.len().min(65_536)) else {
        return false;
    };
    if make_in_turn(alloc, carriers, &mut log, schema, changes) {
        return true;
    }
    take_all_back(carriers, log);
    false
}
