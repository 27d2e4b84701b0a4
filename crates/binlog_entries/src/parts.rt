//! Parts of rows.
ghost use Rattle.std.specs.Prelude.{◌≡◌, length, IfOk};
ghost use Rattle.binlog_entries.specs.Machine.{Finds, is_whole, change_of, before_due, after_due, parse_value};
ghost use Rattle.binlog_entries.specs.Tables.{type_at};

use crate::draft::RowPart;
use crate::fault::{EntryFault, EntryRefusal};
use crate::tables::Tables;
use binlog_text::{ColumnType, RowOperation, read_value};
use rows::{Change, Name, Row, Value};
use std::alloc::{AllocError, Global};

/// Whether a row has the parts that its operation has, with a value for each column.
pub fn is_whole(
    operation: RowOperation,
    part: RowPart,
    before: usize,
    after: usize,
    columns: usize,
) -> bool
    ensures { result ≡ is_whole operation part before after columns }
{
    match operation {
        RowOperation::Insert => part == RowPart::After && after == columns,
        RowOperation::Delete => part == RowPart::Before && before == columns,
        RowOperation::Update => part == RowPart::After && before == columns && after == columns,
    }
}

pub fn change_of(
    operation: RowOperation,
    table: Name,
    before: Vec<Value>,
    after: Vec<Value>,
) -> Result<Change, AllocError>
    ensures { IfOk result (λ change. change ≡ change_of operation table before.items after.items) }
{
    match operation {
        RowOperation::Insert => {
            let after = Row::new(after)?;
            Ok(Change::Insert { table, after })
        }
        RowOperation::Delete => {
            let before = Row::new(before)?;
            Ok(Change::Delete { table, before })
        }
        RowOperation::Update => {
            let before = Row::new(before)?;
            let after = Row::new(after)?;
            Ok(Change::Update {
                table,
                before,
                after,
            })
        }
    }
}

pub fn before_due(operation: RowOperation, part: RowPart) -> bool
    ensures { result ≡ before_due operation part }
{
    match operation {
        RowOperation::Insert => false,
        RowOperation::Update | RowOperation::Delete => part == RowPart::Head,
    }
}

pub fn after_due(operation: RowOperation, part: RowPart) -> bool
    ensures { result ≡ after_due operation part }
{
    match operation {
        RowOperation::Insert => part == RowPart::Head,
        RowOperation::Update => part == RowPart::Before,
        RowOperation::Delete => false,
    }
}

/// The type of a column, counted from 0, of the table of a row.
pub fn type_at(row: &Option<Name>, tables: &Tables, place: usize) -> Option<ColumnType>
    ensures { result ≡ type_at row.now tables.now place }
{
    let Some(row) = row else {
        return None;
    };
    match tables.find(row) {
        Some(table) => table.column(place),
        None => None,
    }
}

pub fn parse_value(
    alloc: Global,
    column: Option<ColumnType>,
    text: &[u8],
) -> Result<Value, EntryFault>
    ensures { Finds (λ v. v) result (parse_value column text.now) }
{
    let Some(column) = column else {
        return Err(EntryFault::Refused(EntryRefusal::Columns));
    };
    match read_value(alloc, column, text)? {
        Some(value) => Ok(value),
        None => Err(EntryFault::Refused(EntryRefusal::Value)),
    }
}
