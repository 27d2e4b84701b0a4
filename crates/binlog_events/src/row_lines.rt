//! The lines of the rows of an event.
ghost use Rattle.std.specs.Prelude.{◌≡◌, ◌++◌, ◌∷◌, map, OnOk, IfOk, option_map, string_bytes};
ghost use Rattle.std.specs.List.{flat_map};
ghost use Rattle.binlog_rows.specs.Rows.{is_update};
ghost use Rattle.binlog_rows.specs.Reading.{row_view, rows_view};
ghost use Rattle.binlog_events.specs.Bodies.{rows_id};
ghost use Rattle.binlog_events.specs.Names.{described, names_in};
ghost use Rattle.binlog_events.specs.RowLines.{value_said, image_text, row_word, second_text, row_line, row_lines, lines_by_columns, lines_by_table, lines_by_id, rows_beneath};

use crate::bodies::rows_id;
use crate::names::{DescribedTable, TableNames};
use crate::text::put;
use binlog_rows::{LoggedRow, LoggedRows, MappedColumn, read_rows};
use row_images::{Value, write_value};
use std::alloc::{AllocError, Global};

/// What is listed of an event.
#[derive(Clone, Copy, Drop)]
pub enum EventDetail {
    /// Its line.
    Line,
    /// Its line, and one for each of its rows.
    Rows,
}

/// Appends a value, or that it has none here.
fn write_said(alloc: Global, out: &mut String, value: &Option<Value>) -> Result<(), AllocError>
    ensures { OnOk result (string_bytes out.new ≡ string_bytes out.old ++ value_said value.now) }
{
    match value {
        None => out.push_str("?"),
        Some(value) => write_value(alloc, out, value),
    }
}

/// Appends a value with a blank before it.
fn write_next(alloc: Global, out: &mut String, value: &Option<Value>) -> Result<(), AllocError>
    ensures { OnOk result (string_bytes out.new ≡ string_bytes out.old ++ (32 ∷ value_said value.now)) }
{
    out.push_str(" ")?;
    write_said(alloc, out, value)
}

/// The values of an image that has these of the table's columns.
fn image_text(alloc: Global, flags: &[bool], values: &[Option<Value>]) -> Result<String, AllocError>
    ensures { IfOk result (λ text. string_bytes text ≡ image_text flags.now values.now) }
{
    let mut text = String::new(alloc);
    let mut at = 0;
    for flag in flags {
        if !*flag {
            text.push_str(" -")?;
            continue;
        }
        if at >= values.len() {
            return Ok(text);
        }
        write_next(alloc, &mut text, &values[at])?;
        at += 1;
    }
    Ok(text)
}

/// Appends the values of an image.
fn put_image(
    alloc: Global,
    out: &mut Vec<u8>,
    flags: &[bool],
    values: &[Option<Value>],
) -> Result<(), AllocError>
    ensures { OnOk result (out.new.items ≡ out.old.items ++ image_text flags.now values.now) }
{
    let text = image_text(alloc, flags, values)?;
    put(out, &text)
}

fn row_word(kind: u8) -> &'static str
    ensures { result.now ≡ row_word kind }
{
    match kind {
        23 | 30 => "  ins ",
        24 | 31 => "  upd ",
        _ => "  del ",
    }
}

fn is_update(kind: u8) -> bool
    ensures { result ≡ is_update kind }
{
    kind == 24 || kind == 31
}

/// Appends the second image, if there is one.
fn put_second(
    alloc: Global,
    out: &mut Vec<u8>,
    two: bool,
    flags: &[bool],
    values: &[Option<Value>],
) -> Result<(), AllocError>
    ensures { OnOk result (out.new.items ≡ out.old.items ++ second_text two flags.now values.now) }
{
    if !two {
        return Ok(());
    }
    put(out, " |")?;
    put_image(alloc, out, flags, values)
}

/// Appends the line of a row.
fn put_row(
    alloc: Global,
    out: &mut Vec<u8>,
    kind: u8,
    name: &[u8],
    read: &LoggedRows,
    row: &LoggedRow,
) -> Result<(), AllocError>
    ensures { OnOk result (out.new.items ≡ out.old.items ++ row_line kind name.now read.now.first.items read.now.second.items (row_view row.now)) }
{
    put(out, row_word(kind))?;
    out.extend_from_slice(name)?;
    put_image(alloc, out, &read.first, &row.first)?;
    put_second(alloc, out, is_update(kind), &read.second, &row.second)?;
    put(out, "\n")
}

/// Appends the lines of rows.
fn put_rows(
    alloc: Global,
    out: &mut Vec<u8>,
    kind: u8,
    name: &[u8],
    read: &LoggedRows,
    rows: &[LoggedRow],
) -> Result<(), AllocError>
    ensures { OnOk result (out.new.items ≡ out.old.items ++ flat_map (row_line kind name.now read.now.first.items read.now.second.items) (map row_view rows.now)) }
{
    for row in rows {
        put_row(alloc, out, kind, name, read, row)?;
    }
    Ok(())
}

/// Appends the lines of the rows that were read, if the event is in that form.
fn put_read(
    alloc: Global,
    out: &mut Vec<u8>,
    kind: u8,
    name: &[u8],
    found: &Option<LoggedRows>,
) -> Result<(), AllocError>
    ensures { OnOk result (out.new.items ≡ out.old.items ++ row_lines kind name.now (option_map rows_view found.now)) }
{
    match found {
        None => Ok(()),
        Some(read) => put_rows(alloc, out, kind, name, read, &read.rows),
    }
}

/// Appends the lines of the rows of an event over these columns.
fn put_by_columns(
    alloc: Global,
    out: &mut Vec<u8>,
    kind: u8,
    body: &[u8],
    name: &[u8],
    columns: &Option<Vec<MappedColumn>>,
) -> Result<(), AllocError>
    ensures { OnOk result (out.new.items ≡ out.old.items ++ lines_by_columns kind body.now name.now (option_map (λ v. v.items) columns.now)) }
{
    match columns {
        None => Ok(()),
        Some(columns) => {
            let found = read_rows(alloc, kind, columns, body)?;
            put_read(alloc, out, kind, name, &found)
        }
    }
}

/// Appends the lines of the rows of an event of this table, if an event has mapped it.
fn put_by_table(
    alloc: Global,
    out: &mut Vec<u8>,
    kind: u8,
    body: &[u8],
    table: Option<&DescribedTable>,
) -> Result<(), AllocError>
    ensures { OnOk result (out.new.items ≡ out.old.items ++ lines_by_table kind body.now (option_map (λ t. described t.now) table.entry)) }
{
    match table {
        None => Ok(()),
        Some(table) => put_by_columns(alloc, out, kind, body, &table.name, &table.columns),
    }
}

/// Appends the lines of the rows of an event, if they are asked for.
#[tactic(auto, unfolding(crate::specs::RowLines::rows_beneath))]
pub(crate) fn put_beneath(
    alloc: Global,
    out: &mut Vec<u8>,
    detail: EventDetail,
    names: &TableNames,
    kind: u8,
    body: &[u8],
) -> Result<(), AllocError>
    ensures { OnOk result (out.new.items ≡ out.old.items ++ rows_beneath detail (names_in names.now) kind body.now) }
{
    match detail {
        EventDetail::Line => Ok(()),
        EventDetail::Rows => match rows_id(body) {
            None => Ok(()),
            Some(id) => put_by_table(alloc, out, kind, body, names.get(id)),
        },
    }
}
