//! Hidden columns by their tables.
ghost use Rattle.std.specs.Prelude.{◌≡◌, [], ℕ, List, IfOk, OnOk, is_some, if◌then◌else◌};
ghost use Rattle.std.specs.List.{list_any};
ghost use Rattle.std.specs.Str.{bytes_eq};
ghost use Rattle.rows.specs.Fits.{table_of};
ghost use Rattle.derived_columns.specs.Tables.{listed, lists_of, AreByTable, IsPut};

use crate::column::DerivedColumn;
use key_table::KeyTable;
use rows::{Change, Name};
use std::alloc::{AllocError, Global};

/// Takes a table's columns out.
fn take_columns(
    alloc: Global,
    tables: &mut KeyTable<Name, Vec<DerivedColumn>>,
    table: &Name,
) -> Vec<DerivedColumn>
    ensures taken { result.items ≡ listed tables.old table.now }
    ensures left { (t : List ℕ) → listed tables.new t ≡ (if bytes_eq table.now t then [] else listed tables.old t) }
{
    match tables.swap_remove(table) {
        Some(columns) => columns,
        None => Vec::new(alloc),
    }
}

/// Puts a column behind those of its table. After an error that table may have none.
fn put(
    alloc: Global,
    tables: &mut KeyTable<Name, Vec<DerivedColumn>>,
    column: DerivedColumn,
) -> Result<(), AllocError>
    ensures { OnOk result (IsPut tables.old column tables.new) }
{
    let table = column.table().clone()?;
    let mut columns = take_columns(alloc, tables, &table);
    columns.push(column)?;
    match tables.insert(table, columns) {
        Ok(_before) => Ok(()),
        Err(_) => Err(AllocError),
    }
}

/// Columns by the names of their tables.
pub(crate) fn by_table(
    alloc: Global,
    columns: &[DerivedColumn],
) -> Result<KeyTable<Name, Vec<DerivedColumn>>, AllocError>
    ensures { IfOk result (AreByTable columns.now) }
{
    let mut tables = KeyTable::new(alloc);
    for column in columns {
        put(alloc, &mut tables, column.clone()?)?;
    }
    Ok(tables)
}

/// Whether one of the changes is of a table with hidden columns.
pub(crate) fn touches(tables: &KeyTable<Name, Vec<DerivedColumn>>, changes: &[Change]) -> bool
    ensures { result ≡ list_any (λ change. is_some (lists_of tables.now (table_of change))) changes.now }
{
    changes
        .iter()
        .any(|change| tables.contains_key(change.table()))
}
