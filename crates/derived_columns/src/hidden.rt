//! The hidden values of an image.
ghost use Rattle.std.specs.Prelude.{◌≡◌, Some, Ok, IfOk, IfErr, ok_or};
ghost use Rattle.derived_columns.specs.Images.{hidden_value, row_value, hidden_or_part, hidden_values};
ghost use Rattle.derived_columns.specs.Faults.{IsImageFault};
ghost use Rattle.derived_columns.specs.declared.column.DerivedColumn.TheVariants.{Part};

use crate::column::{DerivedColumn, KeyComparison, KeyPart};
use crate::compared::compared_bytes;
use crate::fault::ImageFault;
use row_images::{ByteString, Row, Value};
use std::alloc::{AllocError, Global};

/// Of more columns the whole image is read in one pass. (Else each value is looked for from the start of its row.)
const FEW_COLUMNS: usize = 16;

/// The hidden value of a value.
fn hidden_value(
    alloc: Global,
    comparison: KeyComparison,
    value: &Value,
) -> Result<Option<Value>, AllocError>
    ensures { IfOk result (λ found. found ≡ hidden_value comparison value.now) }
{
    match value {
        Value::Null => Ok(Some(Value::Null)),
        Value::Int(_) => Ok(None),
        Value::Bytes(bytes) => match compared_bytes(alloc, comparison, bytes.as_slice())? {
            Some(compared) => Ok(Some(Value::Bytes(compared))),
            None => Ok(None),
        },
    }
}

/// The text of an image, as bytes.
fn row_value(alloc: Global, image: &Row) -> Result<Value, AllocError>
    ensures { IfOk result (λ value. value ≡ row_value image.now) }
{
    let text = ByteString::from_slice(alloc, image.as_str().as_bytes())?;
    Ok(Value::Bytes(text))
}

/// What was found for a part of a key, or the fault that names it.
fn named(part: &KeyPart, found: Option<Value>) -> Result<Value, ImageFault>
    ensures found { IfOk result (λ value. found ≡ Some value) }
    ensures fault { IfErr result (IsImageFault (ok_or found part.now)) }
{
    match found {
        Some(value) => Ok(value),
        None => Err(ImageFault::NoHiddenValue(part.clone()?)),
    }
}

/// The hidden value of a part of a key, of the value in its column of an image.
fn part_at(alloc: Global, part: &KeyPart, image: &Row) -> Result<Value, ImageFault>
    ensures found { IfOk result (λ value. hidden_or_part image.now (Part part.now) ≡ Ok value) }
    ensures fault { IfErr result (IsImageFault (hidden_or_part image.now (Part part.now))) }
{
    if part.column as usize >= image.len() {
        return named(part, None);
    }
    let value = image.value_at(alloc, part.column)?;
    named(part, hidden_value(alloc, part.comparison, &value)?)
}

/// The hidden value of a part of a key, of the value in its column of an image that was read.
fn part_among(alloc: Global, part: &KeyPart, image: &[Value]) -> Result<Value, ImageFault>
    ensures found { IfOk result (λ value. hidden_or_part image.now (Part part.now) ≡ Ok value) }
    ensures fault { IfErr result (IsImageFault (hidden_or_part image.now (Part part.now))) }
{
    match image.get(part.column as usize) {
        Some(value) => named(part, hidden_value(alloc, part.comparison, value)?),
        None => named(part, None),
    }
}

/// What a hidden column holds of an image.
fn hidden_at(alloc: Global, column: &DerivedColumn, image: &Row) -> Result<Value, ImageFault>
    ensures found { IfOk result (λ value. hidden_or_part image.now column.now ≡ Ok value) }
    ensures fault { IfErr result (IsImageFault (hidden_or_part image.now column.now)) }
{
    match column {
        DerivedColumn::Part(part) => part_at(alloc, part, image),
        DerivedColumn::Row(_table) => Ok(row_value(alloc, image)?),
    }
}

/// What a hidden column holds of an image with these values.
fn hidden_among(
    alloc: Global,
    column: &DerivedColumn,
    image: &Row,
    values: &[Value],
) -> Result<Value, ImageFault>
    requires { values.now ≡ image.now }
    ensures found { IfOk result (λ value. hidden_or_part image.now column.now ≡ Ok value) }
    ensures fault { IfErr result (IsImageFault (hidden_or_part image.now column.now)) }
{
    match column {
        DerivedColumn::Part(part) => part_among(alloc, part, values),
        DerivedColumn::Row(_table) => Ok(row_value(alloc, image)?),
    }
}

/// The hidden values of an image with these values.
fn each_among(
    alloc: Global,
    columns: &[DerivedColumn],
    image: &Row,
    values: &[Value],
) -> Result<Vec<Value>, ImageFault>
    requires { values.now ≡ image.now }
    ensures found { IfOk result (λ hidden. hidden_values columns.now image.now ≡ Ok hidden.items) }
    ensures fault { IfErr result (IsImageFault (hidden_values columns.now image.now)) }
{
    let mut hidden = Vec::with_capacity(alloc, columns.len())?;
    for column in columns {
        hidden.push(hidden_among(alloc, column, image, values)?)?;
    }
    Ok(hidden)
}

/// The hidden values of an image in few columns.
fn each_at(alloc: Global, columns: &[DerivedColumn], image: &Row) -> Result<Vec<Value>, ImageFault>
    ensures found { IfOk result (λ hidden. hidden_values columns.now image.now ≡ Ok hidden.items) }
    ensures fault { IfErr result (IsImageFault (hidden_values columns.now image.now)) }
{
    let mut hidden = Vec::with_capacity(alloc, columns.len())?;
    for column in columns {
        hidden.push(hidden_at(alloc, column, image)?)?;
    }
    Ok(hidden)
}

/// The hidden values of an image, or the first part of a key that has none.
pub(crate) fn hidden_values(
    alloc: Global,
    columns: &[DerivedColumn],
    image: &Row,
) -> Result<Vec<Value>, ImageFault>
    ensures found { IfOk result (λ hidden. hidden_values columns.now image.now ≡ Ok hidden.items) }
    ensures fault { IfErr result (IsImageFault (hidden_values columns.now image.now)) }
{
    if columns.len() <= FEW_COLUMNS {
        return each_at(alloc, columns, image);
    }
    let values = image.values(alloc)?;
    each_among(alloc, columns, image, values.as_slice())
}
