//! The rows of rows events, by their values.
ghost use Rattle.std.specs.Prelude.{◌≡◌, Some, None, [], map, option_map, ◌++◌, ◌∷◌, IfOk, OnOk, if◌then◌else◌};
ghost use Rattle.binlog_rows.specs.Images.{value_at, values_from, image_at};
ghost use Rattle.binlog_rows.specs.Rows.{row_at, rows_to_end, rows_in, body_view};
ghost use Rattle.binlog_rows.specs.Reading.{flags_of, values_in, rows_read, row_view, rows_view, value_behind, values_behind, with_left, rows_with_left, row_behind, rows_behind, rows_if, read_of};

use crate::bodies::{BodyBytes, body_of};
use crate::columns::MappedColumn;
use crate::images::{layout_of, present, value_by};
use crate::numbers::{bits_width, is_set, split};
use crate::values::value_of;
use row_images::Value;
use std::alloc::{AllocError, Global};

/// A row of a rows event: a value for each column that an image has, `None` where its bytes have no value (`value_of`).
pub struct LoggedRow {
    /// UPDATE and DELETE have here what the row was, WRITE what it is.
    pub first: Vec<Option<Value>>,
    /// What the row is after an UPDATE; nothing for the others.
    pub second: Vec<Option<Value>>,
}

impl Drop for LoggedRow {
    // (by hand: for a caller the end of a LoggedRow is one call)
    fn drop(self) {
        let LoggedRow {
            first: _first,
            second: _second,
        } = self;
    }
}

/// The rows of a rows event.
pub struct LoggedRows {
    /// Whether the first image of each row has the table's column at each place.
    pub first: Vec<bool>,
    /// The same of the second image.
    pub second: Vec<bool>,
    pub rows: Vec<LoggedRow>,
}

impl Drop for LoggedRows {
    // (by hand: for a caller the end of LoggedRows is one call)
    fn drop(self) {
        let LoggedRows {
            first: _first,
            second: _second,
            rows: _rows,
        } = self;
    }
}

/// Appends the value at this place of an image with these null bits; what is behind it.
#[tactic(auto, unfolding(crate::specs::Images::value_at))]
fn read_value<'a>(
    alloc: Global,
    nulls: &[u8],
    place: usize,
    column: MappedColumn,
    bytes: &'a [u8],
    values: &mut Vec<Option<Value>>,
) -> Result<Option<&'a [u8]>, AllocError>
    ensures { IfOk result (λ left. with_left values.new.items (option_map (λ t. t.now) left) ≡ option_map (value_behind values.old.items column) (value_at nulls.now place column bytes.now)) }
{
    if is_set(nulls, place) {
        values.push(Some(Value::Null))?;
        return Ok(Some(bytes));
    }
    let Some((value, rest)) = value_by(layout_of(column), bytes) else {
        return Ok(None);
    };
    values.push(value_of(alloc, column, value)?)?;
    Ok(Some(rest))
}

/// Appends the values of these columns; what is behind them.
fn read_values<'a>(
    alloc: Global,
    nulls: &[u8],
    columns: &[MappedColumn],
    bytes: &'a [u8],
    values: &mut Vec<Option<Value>>,
) -> Result<Option<&'a [u8]>, AllocError>
    ensures { IfOk result (λ left. with_left values.new.items (option_map (λ t. t.now) left) ≡ option_map (values_behind values.old.items columns.now) (values_from nulls.now 0 columns.now bytes.now)) }
{
    let mut rest = bytes;
    for (i, column) in columns.iter().enumerate() {
        let Some(behind) = read_value(alloc, nulls, i, *column, rest, values)? else {
            return Ok(None);
        };
        rest = behind;
    }
    Ok(Some(rest))
}

/// Appends the values of the image at the front, which has these columns; what is behind it.
#[tactic(auto, unfolding(crate::specs::Images::image_at))]
fn read_image<'a>(
    alloc: Global,
    columns: &[MappedColumn],
    bytes: &'a [u8],
    values: &mut Vec<Option<Value>>,
) -> Result<Option<&'a [u8]>, AllocError>
    ensures { IfOk result (λ left. with_left values.new.items (option_map (λ t. t.now) left) ≡ option_map (values_behind values.old.items columns.now) (image_at columns.now bytes.now)) }
{
    let Some((nulls, rest)) = split(bits_width(columns.len() as u64), bytes) else {
        return Ok(None);
    };
    read_values(alloc, nulls, columns, rest, values)
}

/// Appends the row at the front, whose images have these columns; what is behind it.
#[tactic(auto, unfolding(crate::specs::Rows::row_at))]
fn read_row<'a>(
    alloc: Global,
    first: &[MappedColumn],
    second: &[MappedColumn],
    bytes: &'a [u8],
    rows: &mut Vec<LoggedRow>,
) -> Result<Option<&'a [u8]>, AllocError>
    ensures { IfOk result (λ left. rows_with_left rows.new.items (option_map (λ t. t.now) left) ≡ option_map (row_behind rows.old.items first.now second.now) (row_at first.now second.now bytes.now)) }
{
    let mut before = Vec::with_capacity(alloc, first.len())?;
    let mut after = Vec::with_capacity(alloc, second.len())?;
    let Some(rest) = read_image(alloc, first, bytes, &mut before)? else {
        return Ok(None);
    };
    let Some(behind) = read_image(alloc, second, rest, &mut after)? else {
        return Ok(None);
    };
    rows.push(LoggedRow {
        first: before,
        second: after,
    })?;
    Ok(Some(behind))
}

/// Appends the rows that these bytes are to their end, whose images have these columns; whether they are rows.
fn read_to_end(
    alloc: Global,
    first: &[MappedColumn],
    second: &[MappedColumn],
    bytes: &[u8],
    rows: &mut Vec<LoggedRow>,
) -> Result<bool, AllocError>
    ensures { IfOk result (λ done. rows_if done rows.new.items ≡ option_map (rows_behind rows.old.items first.now second.now) (rows_to_end first.now second.now bytes.now)) }
{
    let mut rest = bytes;
    for count in 0..bytes.len() {
        if rest.is_empty() {
            return Ok(true);
        }
        let Some(behind) = read_row(alloc, first, second, rest, rows)? else {
            return Ok(false);
        };
        rest = behind;
    }
    Ok(rest.is_empty())
}

/// Appends a row whose images have no columns.
fn push_empty(alloc: Global, rows: &mut Vec<LoggedRow>) -> Result<(), AllocError>
    ensures { OnOk result (map row_view rows.new.items ≡ map row_view rows.old.items ++ ([], []) ∷ []) }
{
    rows.push(LoggedRow {
        first: Vec::new(alloc),
        second: Vec::new(alloc),
    })?;
    Ok(())
}

/// Appends the rows that these bytes are, whose images have these columns; whether they are rows.
fn read_in(
    alloc: Global,
    first: &[MappedColumn],
    second: &[MappedColumn],
    bytes: &[u8],
    rows: &mut Vec<LoggedRow>,
) -> Result<bool, AllocError>
    ensures { IfOk result (λ done. rows_if done rows.new.items ≡ option_map (rows_behind rows.old.items first.now second.now) (rows_in first.now second.now bytes.now)) }
{
    if first.is_empty() && second.is_empty() && bytes.is_empty() {
        push_empty(alloc, rows)?;
        return Ok(true);
    }
    read_to_end(alloc, first, second, bytes, rows)
}

/// Whether an image has each of so many columns.
fn flags_of(alloc: Global, bits: &[u8], count: usize) -> Result<Vec<bool>, AllocError>
    ensures { IfOk result (λ flags. flags.items ≡ flags_of bits.now count) }
{
    let mut flags = Vec::with_capacity(alloc, count)?;
    for i in 0..count {
        flags.push(is_set(bits, i))?;
    }
    Ok(flags)
}

/// The rows of these parts of a rows event, whose table has these columns.
fn read_of(
    alloc: Global,
    columns: &[MappedColumn],
    parts: &BodyBytes<'_>,
) -> Result<Option<LoggedRows>, AllocError>
    ensures { IfOk result (λ found. option_map rows_view found ≡ read_of columns.now (body_view parts.now)) }
{
    let mut rows = Vec::new(alloc);
    let first = present(alloc, parts.first, columns)?;
    let second = present(alloc, parts.second, columns)?;
    if !read_in(alloc, &first, &second, parts.rows, &mut rows)? {
        return Ok(None);
    }
    let first = flags_of(alloc, parts.first, columns.len())?;
    let second = flags_of(alloc, parts.second, columns.len())?;
    Ok(Some(LoggedRows {
        first,
        second,
        rows,
    }))
}

/// The rows of a rows event, each value by its column. `kind` is the number of the event's type: WRITE, UPDATE and DELETE are 23 to 25 in
/// version 1 and 30 to 32 in version 2; `columns` are those of the table's map. `None` where the body is not in the form, as for
/// `count_rows`. Only the columns that an image has are in a row: with `binlog_row_image=FULL` these are all.
#[tactic(auto, unfolding(crate::specs::Reading::rows_read))]
pub fn read_rows(
    alloc: Global,
    kind: u8,
    columns: &[MappedColumn],
    body: &[u8],
) -> Result<Option<LoggedRows>, AllocError>
    ensures { IfOk result (λ found. option_map rows_view found ≡ rows_read kind columns.now body.now) }
{
    match body_of(kind, columns.len() as u64, body) {
        None => Ok(None),
        Some(parts) => read_of(alloc, columns, &parts),
    }
}
