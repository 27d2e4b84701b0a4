//! What rows events tell the log.
ghost use Rattle.std.specs.Prelude.{◌≡◌, Ok, Some, map, IfOk, option_map};
ghost use Rattle.std.specs.List.{list_all};
ghost use Rattle.binlog_events.specs.Bodies.{rows_id};
ghost use Rattle.binlog_files.specs.Rows.{is_write, is_update, has_values, row_has_values, values_of, change_of, row_told, row_events, rows_have_values, rows_told, has_all, read_told, named_told, rows_of_told};
ghost use Rattle.binlog_files.specs.Tables.{table_view, tables_in};
ghost use Rattle.binlog_files.specs.Taking.{Tells};
ghost use Rattle.binlog_files.specs.Told.{id_told};
ghost use Rattle.binlog_rows.specs.Reading.{row_view, rows_view, rows_read};
ghost use Rattle.log_transactions.specs.States.{state};

use crate::bodies::settled;
use crate::fault::{FileFault, FileRefusal};
use crate::tables::{FileTable, FileTables};
use binlog_events::rows_id;
use binlog_rows::{LoggedRow, LoggedRows, read_rows};
use log_transactions::{EventRefusal, LogTransactions, table_name};
use row_images::Value;
use rows::{Change, Name, Row};
use std::alloc::{AllocError, Global};

fn is_write(kind: u8) -> bool
    ensures { result ≡ is_write kind }
{
    kind == 23 || kind == 30
}

fn is_update(kind: u8) -> bool
    ensures { result ≡ is_update kind }
{
    kind == 24 || kind == 31
}

fn has_values(image: &[Option<Value>]) -> bool
    ensures { result ≡ has_values image.now }
{
    image.iter().all(|value| value.is_some())
}

/// The image with those of its values that have a form.
fn values_of(alloc: Global, image: &[Option<Value>]) -> Result<Row, AllocError>
    ensures { IfOk result (λ row. row ≡ values_of image.now) }
{
    let mut values = Vec::new(alloc);
    for value in image {
        if let Some(value) = value {
            values.push(value.clone()?)?;
        }
    }
    Row::new(values)
}

/// The change of a row.
fn change_of(alloc: Global, kind: u8, table: Name, row: &LoggedRow) -> Result<Change, AllocError>
    ensures { IfOk result (λ change. change ≡ change_of kind table (row_view row.now)) }
{
    let first = values_of(alloc, &row.first)?;
    if is_update(kind) {
        let after = values_of(alloc, &row.second)?;
        return Ok(Change::Update {
            table,
            before: first,
            after,
        });
    }
    if is_write(kind) {
        Ok(Change::Insert {
            table,
            after: first,
        })
    } else {
        Ok(Change::Delete {
            table,
            before: first,
        })
    }
}

/// Tells a log the change of a row.
fn take_row(
    alloc: Global,
    log: &mut LogTransactions,
    kind: u8,
    table: &Name,
    row: &LoggedRow,
) -> Result<(), FileFault>
    ensures { Tells result (state log.old) (row_told kind table.now (row_view row.now)) (state log.new) }
{
    let table = table.clone()?;
    let change = change_of(alloc, kind, table, row)?;
    settled(log.take_row(change))
}

/// Tells a log the changes of rows.
fn take_rows(
    alloc: Global,
    log: &mut LogTransactions,
    kind: u8,
    table: &Name,
    rows: &[LoggedRow],
) -> Result<(), FileFault>
    ensures { Tells result (state log.old) (Ok (row_events kind table.now (map row_view rows.now))) (state log.new) }
{
    for row in rows {
        match take_row(alloc, log, kind, table, row) {
            Ok(()) => {}
            Err(fault) => return Err(fault),
        }
    }
    Ok(())
}

/// Whether each value of each row has a form.
fn have_values(rows: &[LoggedRow]) -> bool
    ensures { result ≡ list_all (λ row. row_has_values (row_view row)) rows.now }
{
    rows.iter()
        .all(|row| has_values(&row.first) && has_values(&row.second))
}

fn rows_have_values(rows: &[LoggedRow]) -> bool
    ensures { result ≡ rows_have_values (map row_view rows.now) }
{
    have_values(rows)
}

/// Tells a log a rows event with these rows, if each value has a form.
fn tell_rows(
    alloc: Global,
    log: &mut LogTransactions,
    kind: u8,
    ends: bool,
    table: &Name,
    rows: &[LoggedRow],
) -> Result<(), FileFault>
    ensures { Tells result (state log.old) (rows_told kind ends table.now (map row_view rows.now)) (state log.new) }
{
    if !rows_have_values(rows) {
        return Err(FileFault::Refused(FileRefusal::Value));
    }
    match settled(log.take_rows(ends)) {
        Ok(()) => take_rows(alloc, log, kind, table, rows),
        Err(fault) => Err(fault),
    }
}

fn are_all(flags: &[bool]) -> bool
    ensures { result ≡ list_all (λ b. b) flags.now }
{
    flags.iter().all(|flag| *flag)
}

/// Whether each image has all columns.
fn has_all(kind: u8, rows: &LoggedRows) -> bool
    ensures { result ≡ has_all kind (rows_view rows.now) }
{
    are_all(&rows.first) && (!is_update(kind) || are_all(&rows.second))
}

/// Tells a log a rows event of a table of this name, if its body is in that form and each image has all columns.
fn tell_read(
    alloc: Global,
    log: &mut LogTransactions,
    kind: u8,
    ends: bool,
    table: &Name,
    read: &Option<LoggedRows>,
) -> Result<(), FileFault>
    ensures { Tells result (state log.old) (read_told kind ends table.now (option_map rows_view read.now)) (state log.new) }
{
    let Some(rows) = read else {
        return Err(FileFault::Refused(FileRefusal::Format));
    };
    if has_all(kind, rows) {
        tell_rows(alloc, log, kind, ends, table, &rows.rows)
    } else {
        Err(FileFault::Refused(FileRefusal::Partial))
    }
}

/// Tells a log a rows event that names this table.
fn tell_table(
    alloc: Global,
    log: &mut LogTransactions,
    kind: u8,
    table: &FileTable,
    body: &[u8],
) -> Result<(), FileFault>
    ensures { Tells result (state log.old) (rows_of_told kind body.now (Some (table_view table.now))) (state log.new) }
{
    let Some(name) = table_name(alloc, &table.database, &table.table)? else {
        return Err(FileFault::Refused(FileRefusal::Event(EventRefusal::Table)));
    };
    let read = read_rows(alloc, kind, &table.columns, body)?;
    let ends = body.len() > 6 && body[6] % 2 == 1;
    tell_read(alloc, log, kind, ends, &name, &read)
}

/// Tells a log what a rows event tells, where these tables are mapped.
pub(crate) fn take_rows_event(
    alloc: Global,
    log: &mut LogTransactions,
    tables: &FileTables,
    kind: u8,
    body: &[u8],
) -> Result<(), FileFault>
    ensures { Tells result (state log.old) (id_told (tables_in tables.now) kind body.now (rows_id body.now)) (state log.new) }
{
    let Some(id) = rows_id(body) else {
        return Err(FileFault::Refused(FileRefusal::Format));
    };
    match tables.get(id) {
        Some(table) => tell_table(alloc, log, kind, table, body),
        None => Err(FileFault::Refused(FileRefusal::Event(EventRefusal::Table))),
    }
}
