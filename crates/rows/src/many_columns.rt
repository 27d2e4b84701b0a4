//! What is asked of a row in many columns, which is read in one pass over its text.

ghost use Rattle.std.specs.Prelude.{◌≡◌, IfOk, slice_index_or};
ghost use Rattle.std.specs.List.{list_any};
ghost use Rattle.std.specs.Ordering.{eq_by_cmp};
ghost use Rattle.row_images.specs.declared.value.Value.TheVariants.{Null};
ghost use Rattle.row_images.specs.Order.{value_cmp};
ghost use Rattle.row_images.specs.OnePass.{AreNulls, AreSame};
ghost use Rattle.row_images.specs.Values.{is_null};
ghost use Rattle.rows.specs.Keys.{values_in};
ghost use Rattle.rows.specs.Making.{same_in};

use row_images::{Row, Value};
use std::alloc::{AllocError, Global};

/// Up to this many columns, each is looked for in a row's text from its start (MySQL's own limit of a key; a choice of speed alone).
pub(crate) const FEW_COLUMNS: usize = 16;

/// The most columns that are marked, from the first on. No table has more.
const MARKED_COLUMNS: usize = 4_096;

/// The value in a column of a row that has these, or null past the last.
fn value_in(values: &[Value], column: u32) -> Result<Value, AllocError>
    ensures { IfOk result (λ value. value ≡ slice_index_or values.now column Null) }
{
    match values.get(column as usize) {
        Some(value) => value.clone(),
        None => Ok(Value::Null),
    }
}

/// The values of a row in these columns.
#[inline(never)]
pub(crate) fn pick_many(alloc: Global, columns: &[u32], row: &Row) -> Result<Vec<Value>, AllocError>
    ensures { IfOk result (λ picked. picked.items ≡ values_in columns.now row.now) }
{
    let values = row.values(alloc)?;
    let mut picked = Vec::with_capacity(alloc, columns.len())?;
    for column in columns {
        picked.push(value_in(values.as_slice(), *column)?)?;
    }
    Ok(picked)
}

/// Whether the value of a row in a column is missing or null, by the marks of those that are.
fn is_null_by(marks: &[bool], row: &Row, column: u32) -> bool
    requires { AreNulls marks.now row.now }
    ensures { result ≡ is_null (slice_index_or row.now column Null) }
{
    match marks.get(column as usize) {
        Some(mark) => *mark,
        None => row.is_null_at(column),
    }
}

fn has_null_by(marks: &[bool], columns: &[u32], row: &Row) -> bool
    requires { AreNulls marks.now row.now }
    ensures { result ≡ list_any (λ column. is_null (slice_index_or row.now column Null)) columns.now }
{
    columns.iter().any(|column| is_null_by(marks, row, *column))
}

/// Whether the value of a row at one of these columns is missing or null.
#[inline(never)]
pub(crate) fn has_null_among(columns: &[u32], row: &Row) -> bool
    ensures { result ≡ list_any (λ column. is_null (slice_index_or row.now column Null)) columns.now }
{
    let mut room = [false; MARKED_COLUMNS];
    let marks = &mut room[..row.len().min(MARKED_COLUMNS)];
    row.mark_nulls(marks);
    has_null_by(marks, columns, row)
}

/// Whether both images have the same value in a column, by the marks of those in which they do.
fn is_same_by(marks: &[bool], before: &Row, after: &Row, column: u32) -> bool
    requires { AreSame marks.now before.now after.now }
    ensures { result ≡ eq_by_cmp value_cmp (slice_index_or before.now column Null) (slice_index_or after.now column Null) }
{
    match marks.get(column as usize) {
        Some(mark) => *mark,
        None => before.has_same_value_at(after, column),
    }
}

fn are_same_by(marks: &[bool], columns: &[u32], before: &Row, after: &Row) -> bool
    requires { AreSame marks.now before.now after.now }
    ensures { result ≡ same_in before.now after.now columns.now }
{
    columns
        .iter()
        .all(|column| is_same_by(marks, before, after, *column))
}

/// Whether both images have the same values in these columns.
#[inline(never)]
pub(crate) fn are_same_among(columns: &[u32], before: &Row, after: &Row) -> bool
    ensures { result ≡ same_in before.now after.now columns.now }
{
    let mut room = [false; MARKED_COLUMNS];
    let marks = &mut room[..before.len().max(after.len()).min(MARKED_COLUMNS)];
    before.mark_same(after, marks);
    are_same_by(marks, columns, before, after)
}
