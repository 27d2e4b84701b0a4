//! Rows in order.
ghost use Rattle.std.specs.Prelude.{◌≡◌, true, IsPermutation, IsSortedByKey, OnOk, IfOk};
ghost use Rattle.std.specs.FinMap as map;
ghost use Rattle.rows.specs.Listing.{key_shown, all_shown, entries_listed, primary_entries, rows_of, rows_listed};
ghost use Rattle.rows.specs.Order.{key_cmp};

use crate::change::{Key, TableRow};
use key_table::KeyTable;
use row_images::Row;
use std::alloc::{AllocError, Global};

/// What is stored under primary keys.
fn primaries<'a>(
    alloc: Global,
    carriers: &'a KeyTable<Key, Row>,
) -> Result<Vec<(&'a Key, &'a Row)>, AllocError>
    ensures { IfOk result (λ list. all_shown list.items ≡ primary_entries carriers.now.entries) }
{
    let mut list = Vec::new(alloc);
    for (key, row) in carriers.as_slice() {
        if key.index == 0 {
            list.push((key, row))?;
        }
    }
    Ok(list)
}

/// Whether rows are of one table: then the values of their keys decide their order.
fn are_of_one_table(list: &[(&Key, &Row)]) -> bool {
    let [first, others @ ..] = list else {
        return true;
    };
    let first = first.0;
    for entry in others {
        let key = entry.0;
        if key.table != first.table {
            return false;
        }
    }
    true
}

/// Whether rows are in the order of their keys.
fn are_in_order(list: &[(&Key, &Row)]) -> bool
    ensures { result ≡ true → IsSortedByKey key_shown key_cmp list.now }
{
    for i in 1..list.len() {
        if list[i].0.cmp(list[i - 1].0).is_lt() {
            return false;
        }
    }
    true
}

/// Puts rows of one table in the order of their keys' values.
fn sort_one_table(list: &mut Vec<(&Key, &Row)>) -> Result<(), AllocError>
    ensures { IsPermutation list.old.items list.new.items }
{
    if !are_of_one_table(list) {
        return Ok(());
    }
    list.sort_by_key(|entry| &entry.0.values)?;
    Ok(())
}

/// Puts rows in the order of their keys, whatever their order is.
fn sort_anew(list: &mut Vec<(&Key, &Row)>) -> Result<(), AllocError>
    ensures same { IsPermutation list.old.items list.new.items }
    ensures sorted { OnOk result (IsSortedByKey key_shown key_cmp list.new.items) }
{
    list.sort_by_key(|entry| entry.0)?;
    Ok(())
}

/// Puts rows, lent with their keys, in the order of the keys: by table name, and then by the values. If the rows are of one table, no name
/// is compared more than once; if they are a few lists one after another, each in order, these are merged. After a failed allocation the
/// same rows are in some order.
pub fn sort_by_keys(list: &mut Vec<(&Key, &Row)>) -> Result<(), AllocError>
    ensures same { IsPermutation list.old.items list.new.items }
    ensures sorted { OnOk result (IsSortedByKey key_shown key_cmp list.new.items) }
{
    sort_one_table(list)?;
    if are_in_order(list) {
        return Ok(());
    }
    sort_anew(list)
}

/// These rows with their tables.
fn to_table_rows(alloc: Global, list: &[(&Key, &Row)]) -> Result<Vec<TableRow>, AllocError>
    ensures { IfOk result (λ rows. rows.items ≡ rows_of (all_shown list.now)) }
{
    let mut rows = Vec::with_capacity(alloc, list.len())?;
    for (key, row) in list {
        let table = key.table.clone()?;
        let row = (**row).clone()?;
        rows.push(TableRow { table, row })?;
    }
    Ok(rows)
}

/// The rows under primary keys, lent, by table name, and then by the values of the key.
pub(crate) fn sort_primary<'a>(
    alloc: Global,
    carriers: &'a KeyTable<Key, Row>,
) -> Result<Vec<(&'a Key, &'a Row)>, AllocError>
    ensures { IfOk result (λ list. all_shown list.items ≡ entries_listed (map.from_entries carriers.now.entries)) }
{
    // `len` is called for its clause that no key occurs twice, which the proof cites.
    let _len = carriers.len();
    let mut list = primaries(alloc, carriers)?;
    sort_by_keys(&mut list)?;
    Ok(list)
}

/// The rows under primary keys, by table name, and then by the values of the key.
pub(crate) fn list_primary(
    alloc: Global,
    carriers: &KeyTable<Key, Row>,
) -> Result<Vec<TableRow>, AllocError>
    ensures { IfOk result (λ list. list.items ≡ rows_listed (map.from_entries carriers.now.entries)) }
{
    let list = sort_primary(alloc, carriers)?;
    to_table_rows(alloc, &list)
}
