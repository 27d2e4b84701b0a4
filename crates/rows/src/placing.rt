//! A row is put under its keys one after another, if all are free. No list of the keys is made.
ghost use Rattle.std.specs.Prelude.{◌≡◌, ◌≤◌, ◌<◌, ◌+◌, ◌++◌, ◌∷◌, [], true, false, length, None};
ghost use Rattle.std.specs.FinMap as map;
ghost use Rattle.indexmap.specs.IndexMap.{index_map_len, set_value_at};
ghost use Rattle.rows.specs.Keys.{values_in, unique_keys, keys_of_row, carried_keys};
ghost use Rattle.rows.specs.Making.{IsPut, Extends};
ghost use Rattle.rows.specs.Order.{key_cmp};

use crate::change::Key;
use crate::keys::key_values;
use crate::name::Name;
use crate::schema::{Columns, Schema, Table};
use key_table::KeyTable;
use row_images::{KeyValues, Row};
use std::alloc::Global;

/// Puts a row back at its place.
#[cold]
#[inline(never)]
fn put_back(carriers: &mut KeyTable<Key, Row>, place: usize, row: Row)
    requires { place < index_map_len carriers.old }
    ensures { carriers.new.entries ≡ set_value_at carriers.old.entries place row }
{
    carriers.replace_at(place, row);
}

/// Appends a row under a key, if the key is free and there is memory; returns whether it did.
fn push_under(carriers: &mut KeyTable<Key, Row>, key: Key, row: Row) -> bool
    ensures put { result ≡ true → IsPut (key ∷ []) row (map.from_entries {R = key_cmp} carriers.old.entries) (map.from_entries carriers.new.entries) }
    ensures after { Extends carriers.old.entries carriers.new.entries }
{
    let Ok((place, over)) = carriers.insert_full(key, row) else {
        return false;
    };
    let Some(over) = over else {
        return true;
    };
    put_back(carriers, place, over);
    false
}

/// Puts a row under the key of these values, if it is free.
fn push_values(
    carriers: &mut KeyTable<Key, Row>,
    name: &Name,
    index: u32,
    values: KeyValues,
    row: &Row,
) -> bool
    ensures put { result ≡ true → IsPut (record { table = name.now; index = index; values = values } ∷ []) row.now (map.from_entries {R = key_cmp} carriers.old.entries) (map.from_entries carriers.new.entries) }
    ensures after { Extends carriers.old.entries carriers.new.entries }
{
    let Ok(table) = name.clone() else {
        return false;
    };
    let Ok(own) = row.clone() else {
        return false;
    };
    let key = Key {
        table,
        index,
        values,
    };
    push_under(carriers, key, own)
}

/// Puts a row under its primary key, if it is free.
fn push_under_primary(
    alloc: Global,
    carriers: &mut KeyTable<Key, Row>,
    table: &Table,
    row: &Row,
) -> bool
    ensures put { result ≡ true → IsPut (record { table = table.now.name; index = 0; values = values_in table.now.primary row.now } ∷ []) row.now (map.from_entries {R = key_cmp} carriers.old.entries) (map.from_entries carriers.new.entries) }
    ensures after { Extends carriers.old.entries carriers.new.entries }
{
    let Ok(values) = key_values(alloc, &table.primary, row) else {
        return false;
    };
    push_values(carriers, &table.name, 0, values, row)
}

/// Puts a row under a unique key, if it is free or has a null.
fn push_under_unique(
    alloc: Global,
    carriers: &mut KeyTable<Key, Row>,
    name: &Name,
    index: u32,
    columns: &Columns,
    row: &Row,
) -> bool
    ensures put { result ≡ true → IsPut (unique_keys name.now index (columns.now ∷ []) row.now) row.now (map.from_entries {R = key_cmp} carriers.old.entries) (map.from_entries carriers.new.entries) }
    ensures after { Extends carriers.old.entries carriers.new.entries }
{
    let Ok(values) = key_values(alloc, columns, row) else {
        return false;
    };
    if values.has_null() {
        return true;
    }
    push_values(carriers, name, index, values, row)
}

/// Puts a row under its keys in order, up to one that is taken.
fn push_under_each(
    alloc: Global,
    carriers: &mut KeyTable<Key, Row>,
    table: &Table,
    row: &Row,
) -> bool
    requires { length table.now.uniques ≤ 64 }
    ensures put { result ≡ true → IsPut (keys_of_row table.now row.now) row.now (map.from_entries {R = key_cmp} carriers.old.entries) (map.from_entries carriers.new.entries) }
    ensures after { Extends carriers.old.entries carriers.new.entries }
{
    let uniques = table.uniques.as_slice();
    if !push_under_primary(alloc, carriers, table, row) {
        return false;
    }
    for (i, columns) in uniques.iter().enumerate() {
        if !push_under_unique(alloc, carriers, &table.name, i as u32 + 1, columns, row) {
            return false;
        }
    }
    true
}

/// Puts a row of a table under all its keys, if each is free and there is memory; else nothing changes.
pub(crate) fn put_if_free(
    alloc: Global,
    carriers: &mut KeyTable<Key, Row>,
    schema: &Schema,
    name: &Name,
    row: &Row,
) -> bool
    ensures put { result ≡ true → IsPut (carried_keys schema.now name.now row.now) row.now (map.from_entries {R = key_cmp} carriers.old.entries) (map.from_entries carriers.new.entries) }
    ensures kept { result ≡ false → carriers.new.entries ≡ carriers.old.entries }
{
    let Some(table) = schema.find(name) else {
        return true;
    };
    let count = carriers.len();
    if push_under_each(alloc, carriers, table, row) {
        return true;
    }
    carriers.truncate(count);
    false
}
