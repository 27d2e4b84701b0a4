//! Images with their hidden values.
ghost use Rattle.std.specs.Prelude.{◌≡◌, ◌<◌, [], ◌∷◌, ◌++◌, Ok, IfOk, IfErr, length};
ghost use Rattle.std.specs.String.{string_bytes};
ghost use Rattle.derived_columns.specs.Images.{hidden_values, with_behind};
ghost use Rattle.derived_columns.specs.Faults.{IsImageFault};

use crate::column::DerivedColumn;
use crate::fault::ImageFault;
use crate::hidden::hidden_values;
use row_images::{Row, Value};
use std::alloc::{AllocError, Global};

/// Two texts with a blank between.
fn joined_text(alloc: Global, front: &str, back: &str) -> Result<String, AllocError>
    ensures { IfOk result (λ text. string_bytes text ≡ (front.now ++ 32 ∷ []) ++ back.now) }
{
    let room = front.len().saturating_add(back.len()).saturating_add(1);
    let mut text = String::with_capacity(alloc, room)?;
    text.push_str(front)?;
    text.push_str(" ")?;
    text.push_str(back)?;
    Ok(text)
}

/// The values of two images. Their texts are copied, and no value is read.
fn join(alloc: Global, front: &Row, back: &Row) -> Result<Row, AllocError>
    requires front { 0 < length front.now }
    requires back { 0 < length back.now }
    ensures { IfOk result (λ row. row ≡ front.now ++ back.now) }
{
    front.keeps_rules();
    back.keeps_rules();
    let text = joined_text(alloc, front.as_str(), back.as_str())?;
    match Row::from_text(alloc, text.as_bytes())? {
        Some(row) => Ok(row),
        None => unreachable!(),
    }
}

/// An image with more values behind.
fn with_behind(alloc: Global, image: &Row, more: Vec<Value>) -> Result<Row, AllocError>
    ensures { IfOk result (λ row. row ≡ image.now ++ more.items) }
{
    if more.is_empty() {
        return image.clone();
    }
    let more = Row::new(more)?;
    if image.is_empty() {
        return Ok(more);
    }
    join(alloc, image, &more)
}

/// An image with its hidden values behind.
pub(crate) fn with_hidden(
    alloc: Global,
    columns: &[DerivedColumn],
    image: &Row,
) -> Result<Row, ImageFault>
    ensures found { IfOk result (λ row. with_behind image.now (hidden_values columns.now image.now) ≡ Ok row) }
    ensures fault { IfErr result (IsImageFault (with_behind image.now (hidden_values columns.now image.now))) }
{
    let hidden = hidden_values(alloc, columns, image)?;
    Ok(with_behind(alloc, image, hidden)?)
}
