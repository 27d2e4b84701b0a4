//! What the event that maps a table tells the log.
ghost use Rattle.std.specs.Prelude.{◌≡◌, ℕ, List, [], ◌∷◌, Ok, OnOk, Some};
ghost use Rattle.binlog_events.specs.Bodies.{mapped, mapped_table};
ghost use Rattle.binlog_files.specs.Tables.{tables_in, HasTables, with_columns, with_mapped};
ghost use Rattle.binlog_files.specs.Taking.{Tells};
ghost use Rattle.binlog_files.specs.Told.{varies, table_told, columns_told, map_told};
ghost use Rattle.binlog_rows.specs.Collations.{varied_columns};
ghost use Rattle.binlog_rows.specs.Columns.{columns_of};
ghost use Rattle.log_transactions.specs.Events.{Columns, Varies};
ghost use Rattle.log_transactions.specs.States.{state};

use crate::bodies::settled;
use crate::fault::{FileFault, FileRefusal};
use crate::tables::{FileTable, FileTables};
use binlog_events::{NamedTable, mapped};
use binlog_rows::{MappedColumn, VariedPlace, read_columns, varied_columns};
use log_transactions::{EventRefusal, LogTransactions};
use rows::Name;
use std::alloc::{AllocError, Global};

/// Tells a log a column of a table of this name that is compared otherwise than by its bytes.
fn tell_column(
    alloc: Global,
    log: &mut LogTransactions,
    table: &Name,
    column: &VariedPlace,
) -> Result<(), FileFault>
    ensures { Tells result (state log.old) (Ok (Varies table.now column.now.place column.now.collation ∷ [])) (state log.new) }
{
    let name = table.clone()?;
    log.vary(alloc, name, column.place, column.collation)?;
    Ok(())
}

/// Tells a log the columns of a table of this name that are compared otherwise than by their bytes.
fn tell_varied(
    alloc: Global,
    log: &mut LogTransactions,
    table: &Name,
    varied: &[VariedPlace],
) -> Result<(), FileFault>
    ensures { Tells result (state log.old) (Ok (varies table.now varied.now)) (state log.new) }
{
    for column in varied {
        match tell_column(alloc, log, table, column) {
            Ok(()) => {}
            Err(fault) => return Err(fault),
        }
    }
    Ok(())
}

/// Tells a log the number of columns of the table that is mapped, and those that are compared otherwise than by their bytes.
fn tell_columns(
    alloc: Global,
    log: &mut LogTransactions,
    columns: usize,
    varied: &[VariedPlace],
) -> Result<(), FileFault>
    ensures { (table : List ℕ) → (state log.old).mapping ≡ Some table
        → Tells result (state log.old) (Ok (Columns columns ∷ varies table varied.now)) (state log.new) }
{
    let Some(name) = log.mapped() else {
        return Err(FileFault::Refused(FileRefusal::Event(EventRefusal::Table)));
    };
    let name = name.clone()?;
    match settled(log.take_columns(columns)) {
        Ok(()) => tell_varied(alloc, log, &name, varied),
        Err(fault) => Err(fault),
    }
}

/// Tells a log the table that is mapped, the number of its columns, and those that are compared otherwise than by their bytes.
fn tell_table(
    alloc: Global,
    log: &mut LogTransactions,
    found: &NamedTable<'_>,
    columns: usize,
    varied: &[VariedPlace],
) -> Result<(), FileFault>
    ensures { Tells result (state log.old) (table_told (mapped_table found.now) columns varied.now) (state log.new) }
{
    match settled(log.map_table(alloc, found.database, found.table)) {
        Ok(()) => tell_columns(alloc, log, columns, varied),
        Err(fault) => Err(fault),
    }
}

/// Keeps a table with its columns.
fn keep_table(
    alloc: Global,
    tables: &mut FileTables,
    found: &NamedTable<'_>,
    columns: Vec<MappedColumn>,
) -> Result<(), AllocError>
    ensures { OnOk result (HasTables tables.new (with_columns (mapped_table found.now) (Some columns.items) (tables_in tables.old))) }
{
    let database = Vec::from_slice(alloc, found.database)?;
    let table = Vec::from_slice(alloc, found.table)?;
    tables.insert(
        found.id,
        FileTable {
            database,
            table,
            columns,
        },
    )
}

/// Tells a log the table that is mapped, and keeps it, where its columns are known.
fn take_table(
    alloc: Global,
    log: &mut LogTransactions,
    tables: &mut FileTables,
    found: &NamedTable<'_>,
    body: &[u8],
) -> Result<(), FileFault>
    ensures told { Tells result (state log.old)
        (columns_told (mapped_table found.now) (columns_of body.now) (varied_columns body.now)) (state log.new) }
    ensures kept { OnOk result (HasTables tables.new (with_columns (mapped_table found.now) (columns_of body.now) (tables_in tables.old))) }
{
    let Some(columns) = read_columns(alloc, body)? else {
        return Err(FileFault::Refused(FileRefusal::Type));
    };
    let Some(varied) = varied_columns(alloc, body)? else {
        return Err(FileFault::Refused(FileRefusal::Metadata));
    };
    match tell_table(alloc, log, found, columns.len(), &varied) {
        Ok(()) => {}
        Err(fault) => return Err(fault),
    }
    keep_table(alloc, tables, found, columns)?;
    Ok(())
}

/// Tells a log what a TABLE_MAP tells, and keeps the table.
pub(crate) fn take_map(
    alloc: Global,
    log: &mut LogTransactions,
    tables: &mut FileTables,
    body: &[u8],
) -> Result<(), FileFault>
    ensures told { Tells result (state log.old) (map_told (mapped body.now) (columns_of body.now) (varied_columns body.now)) (state log.new) }
    ensures kept { OnOk result (HasTables tables.new (with_mapped (mapped body.now) body.now (tables_in tables.old))) }
{
    match mapped(body) {
        None => Err(FileFault::Refused(FileRefusal::Format)),
        Some(found) => take_table(alloc, log, tables, &found, body),
    }
}
