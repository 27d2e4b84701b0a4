//! Which transactions a schema takes.

ghost use Rattle.std.specs.Prelude.{◌≡◌, ◌≤◌, length, OnOk, IfErr, None, Some, slice_index_or};
ghost use Rattle.std.specs.List.{list_any};
ghost use Rattle.row_images.specs.declared.value.Value.TheVariants.{Null};
ghost use Rattle.row_images.specs.Values.{is_null};
ghost use Rattle.rows.specs.Keys.{find_table};
ghost use Rattle.rows.specs.Database.{opening};
ghost use Rattle.rows.specs.Fits.{has_primary_null, row_misfit, rank, first_cause, images_misfit, table_of, misfit_in, change_misfit, misfit};

use crate::change::{Change, Misfit, NotInSchema, Transaction};
use crate::many_columns::{FEW_COLUMNS, has_null_among};
use crate::name::Name;
use crate::schema::{Schema, Table};
use row_images::Row;

/// Whether a schema takes a transaction; else the first change that it does not take.
pub fn fits(schema: &Schema, txn: &Transaction) -> Result<(), NotInSchema>
    ensures ok { OnOk result (misfit schema.now txn.now ≡ None) }
    ensures refused { IfErr result (λ fault. misfit schema.now txn.now ≡ Some fault) }
{
    for (n, change) in txn.changes.as_slice().iter().enumerate() {
        if let Some(cause) = change_misfit(schema, n, change) {
            return Err(NotInSchema {
                change: n as u32,
                cause,
            });
        }
    }
    Ok(())
}

/// Whether a schema takes the insert of one row as a transaction.
pub(crate) fn fits_row(schema: &Schema, table: &Name, row: &Row) -> Result<(), NotInSchema>
    ensures ok { OnOk result (misfit schema.now (opening table.now row.now) ≡ None) }
    ensures refused { IfErr result (λ fault. misfit schema.now (opening table.now row.now) ≡ Some fault) }
{
    match insert_misfit(schema, table, row) {
        Some(cause) => Err(NotInSchema { change: 0, cause }),
        None => Ok(()),
    }
}

fn insert_misfit(schema: &Schema, table: &Name, row: &Row) -> Option<Misfit>
    ensures { result ≡ misfit_in (find_table table.now schema.now) (Change.Insert table.now row.now) }
{
    match schema.find(table) {
        Some(table) => row_misfit(table, row),
        None => Some(Misfit::NoTable),
    }
}

/// Why a schema does not take the n-th change.
fn change_misfit(schema: &Schema, n: usize, change: &Change) -> Option<Misfit>
    ensures { result ≡ change_misfit schema.now n change.now }
{
    let Some(table) = schema.find(change.table()) else {
        return Some(Misfit::NoTable);
    };
    let cause = images_misfit(table, change);
    if n < table.limits.changes() {
        cause
    } else {
        Some(cause.unwrap_or(Misfit::TooMany))
    }
}

fn images_misfit(table: &Table, change: &Change) -> Option<Misfit>
    ensures { result ≡ images_misfit table.now change.now }
{
    match change {
        Change::Insert { after, .. } => row_misfit(table, after),
        Change::Delete { before, .. } => row_misfit(table, before),
        Change::Update { before, after, .. } => {
            first_cause(row_misfit(table, before), row_misfit(table, after))
        }
    }
}

/// The cause that is tested first.
fn first_cause(a: Option<Misfit>, b: Option<Misfit>) -> Option<Misfit>
    ensures { result ≡ first_cause a b }
{
    match (a, b) {
        (None, b) => b,
        (a, None) => a,
        (Some(a), Some(b)) => { if rank(a) <= rank(b) { Some(a) } else { Some(b) } }
    }
}

/// The place of a cause in the order in which they are tested.
fn rank(cause: Misfit) -> u8
    ensures { result ≡ rank cause }
{
    match cause {
        Misfit::NoTable => 0,
        Misfit::Columns => 1,
        Misfit::NullInPrimary => 2,
        Misfit::TooLong => 3,
        Misfit::TooMany => 4,
    }
}

/// Why this is no row of a table.
fn row_misfit(table: &Table, row: &Row) -> Option<Misfit>
    ensures { result ≡ row_misfit table.now row.now }
{
    if row.len() != table.columns as usize {
        return Some(Misfit::Columns);
    }
    if has_null_at(table.primary.as_slice(), row) {
        return Some(Misfit::NullInPrimary);
    }
    if row.has_longer_value(table.limits.bytes()) {
        return Some(Misfit::TooLong);
    }
    None
}

/// Whether the value of a row at one of these columns is missing or null.
pub fn has_null_at(columns: &[u32], row: &Row) -> bool
    ensures { result ≡ list_any (λ column. is_null (slice_index_or row.now column Null)) columns.now }
{
    if columns.len() > FEW_COLUMNS {
        return has_null_among(columns, row);
    }
    columns.iter().any(|column| row.is_null_at(*column))
}
