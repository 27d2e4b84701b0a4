//! Keys whose values the server compares otherwise than their bytes.
ghost use Rattle.std.specs.Prelude.{◌≡◌, IfOk};
ghost use Rattle.binlog_entries.specs.Keys.{varied_column, varied_in_lists, key_column, varied_key, varied_places};

use log_transactions::VariedColumns;
use rows::{Columns, Name, Table};
use std::alloc::{AllocError, Global};

/// The first of the columns of this table that is among these.
fn varied_column(
    table: &Name,
    columns: &[u32],
    varied: &VariedColumns,
) -> Result<Option<usize>, AllocError>
    ensures { IfOk result (λ found. found ≡ varied_column table.now columns.now varied.now) }
{
    for column in columns {
        let place = *column as usize;
        if varied.has(table, place)? {
            return Ok(Some(place));
        }
    }
    Ok(None)
}

fn varied_in_lists(
    table: &Name,
    lists: &[Columns],
    varied: &VariedColumns,
) -> Result<Option<usize>, AllocError>
    ensures { IfOk result (λ found. found ≡ varied_in_lists table.now lists.now varied.now) }
{
    for columns in lists {
        if let Some(column) = varied_column(table, columns.as_slice(), varied)? {
            return Ok(Some(column));
        }
    }
    Ok(None)
}

/// The first column of a key of the table that is among these: of its primary key, and then of its unique keys.
fn key_column(table: &Table, varied: &VariedColumns) -> Result<Option<usize>, AllocError>
    ensures { IfOk result (λ found. found ≡ key_column table.now varied.now) }
{
    match varied_column(&table.name, table.primary.as_slice(), varied)? {
        Some(column) => Ok(Some(column)),
        None => varied_in_lists(&table.name, table.uniques.as_slice(), varied),
    }
}

/// The first table with such a column, by its name, and the column.
pub fn varied_key(
    tables: &[Table],
    varied: &VariedColumns,
) -> Result<Option<(Name, usize)>, AllocError>
    ensures { IfOk result (λ found. found ≡ varied_key tables.now varied.now) }
{
    for table in tables {
        if let Some(column) = key_column(table, varied)? {
            let name = table.name.clone()?;
            return Ok(Some((name, column)));
        }
    }
    Ok(None)
}

/// The places of all tables with such a column, ascending.
pub fn varied_places(
    alloc: Global,
    tables: &[Table],
    varied: &VariedColumns,
) -> Result<Vec<usize>, AllocError>
    ensures { IfOk result (λ places. places.items ≡ varied_places 0 tables.now varied.now) }
{
    let mut places = Vec::new(alloc);
    for (i, table) in tables.iter().enumerate() {
        if key_column(table, varied)?.is_some() {
            places.push(i)?;
        }
    }
    Ok(places)
}
