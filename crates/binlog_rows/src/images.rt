//! The images of rows.
ghost use Rattle.std.specs.Prelude.{◌≡◌, option_map, IfOk};
ghost use Rattle.binlog_rows.specs.Images.{digits_width, length_width, layout_of, value_by, value_at, values_from, image_at, present_from};

use crate::columns::MappedColumn;
use crate::numbers::{bits_width, is_set, number_of, split};
use std::alloc::{AllocError, Global};

/// How the values of a column lie.
#[derive(Clone, Copy, Drop)]
pub(crate) enum Layout {
    /// In so many bytes.
    Fixed(u64),
    /// Behind their length, which takes so many bytes.
    Counted(u64),
}

/// How many bytes so many digits of a DECIMAL take.
pub(crate) fn digits_width(digits: u8) -> u64
    ensures { result ≡ digits_width digits }
{
    digits as u64 / 9 * 4 + (digits as u64 % 9 + 1) / 2
}

/// How many bytes a length takes that is at most this.
fn length_width(most: u16) -> u64
    ensures { result ≡ length_width most }
{
    if most < 256 { 1 } else { 2 }
}

/// How the values of a column lie.
#[tactic(auto, unfolding(crate::specs::Images::layout_of))]
pub(crate) fn layout_of(column: MappedColumn) -> Layout
    ensures { result ≡ layout_of column }
{
    match column {
        MappedColumn::Year => Layout::Fixed(1),
        MappedColumn::Date => Layout::Fixed(3),
        MappedColumn::Float => Layout::Fixed(4),
        MappedColumn::Double => Layout::Fixed(8),
        MappedColumn::Integer(width, _) | MappedColumn::Enum(width) | MappedColumn::Set(width) =>
            Layout::Fixed(width as u64),
        MappedColumn::Decimal(precision, scale) => Layout::Fixed(
            digits_width(precision.saturating_sub(scale)) + digits_width(scale),
        ),
        MappedColumn::Bit(bits) => Layout::Fixed(bits_width(bits as u64)),
        MappedColumn::Time(digits) => Layout::Fixed(3 + (digits as u64 + 1) / 2),
        MappedColumn::Datetime(digits) => Layout::Fixed(5 + (digits as u64 + 1) / 2),
        MappedColumn::Timestamp(digits) => Layout::Fixed(4 + (digits as u64 + 1) / 2),
        MappedColumn::Char(most) | MappedColumn::Varchar(most) => Layout::Counted(length_width(
            most,
        )),
        MappedColumn::Blob(width)
        | MappedColumn::Json(width)
        | MappedColumn::Geometry(width)
        | MappedColumn::Vector(width) => Layout::Counted(width as u64),
    }
}

/// The bytes of the value at the front, without its length, and what is behind it.
pub(crate) fn value_by(layout: Layout, bytes: &[u8]) -> Option<(&[u8], &[u8])>
    ensures { option_map (λ p. (p.0.now, p.1.now)) result ≡ value_by layout bytes.now }
{
    match layout {
        Layout::Fixed(width) => split(width, bytes),
        Layout::Counted(width) => {
            let Some((len, rest)) = number_of(width, bytes) else {
                return None;
            };
            split(len, rest)
        }
    }
}

/// What is behind the value at this place of an image with these null bits.
#[tactic(auto, unfolding(crate::specs::Images::value_at))]
fn behind_value<'a>(
    nulls: &[u8],
    place: usize,
    column: MappedColumn,
    bytes: &'a [u8],
) -> Option<&'a [u8]>
    ensures { option_map (λ t. t.now) result ≡ option_map (λ p. p.1) (value_at nulls.now place column bytes.now) }
{
    if is_set(nulls, place) {
        return Some(bytes);
    }
    let Some((_, rest)) = value_by(layout_of(column), bytes) else {
        return None;
    };
    Some(rest)
}

/// What is behind the values of these columns.
fn behind_values<'a>(nulls: &[u8], columns: &[MappedColumn], bytes: &'a [u8]) -> Option<&'a [u8]>
    ensures { option_map (λ t. t.now) result ≡ option_map (λ p. p.1) (values_from nulls.now 0 columns.now bytes.now) }
{
    let mut rest = bytes;
    for (i, column) in columns.iter().enumerate() {
        let Some(behind) = behind_value(nulls, i, *column, rest) else {
            return None;
        };
        rest = behind;
    }
    Some(rest)
}

/// What is behind the image at the front, which has these columns.
#[tactic(auto, unfolding(crate::specs::Images::image_at))]
pub(crate) fn behind_image<'a>(columns: &[MappedColumn], bytes: &'a [u8]) -> Option<&'a [u8]>
    ensures { option_map (λ t. t.now) result ≡ option_map (λ p. p.1) (image_at columns.now bytes.now) }
{
    let Some((nulls, values)) = split(bits_width(columns.len() as u64), bytes) else {
        return None;
    };
    behind_values(nulls, columns, values)
}

/// The columns that an image has: a bit for each is set.
pub(crate) fn present(
    alloc: Global,
    bits: &[u8],
    columns: &[MappedColumn],
) -> Result<Vec<MappedColumn>, AllocError>
    ensures { IfOk result (λ found. found.items ≡ present_from bits.now 0 columns.now) }
{
    let mut found = Vec::new(alloc);
    for (i, column) in columns.iter().enumerate() {
        if is_set(bits, i) {
            found.push(*column)?;
        }
    }
    Ok(found)
}
