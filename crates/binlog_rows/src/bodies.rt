//! The rows of rows events.
ghost use Rattle.std.specs.Prelude.{◌≡◌, length, option_map, IfOk};
ghost use Rattle.binlog_rows.specs.Rows.{row_at, rows_to_end, rows_in, behind_extra, behind_head, second_width, bits_at, body_of, body_view, row_count};

use crate::columns::MappedColumn;
use crate::images::{behind_image, present};
use crate::numbers::{behind, bits_width, number_of, packed, split};
use std::alloc::{AllocError, Global};

/// What is behind the row at the front, whose images have these columns.
#[tactic(auto, unfolding(crate::specs::Rows::row_at))]
fn behind_row<'a>(
    first: &[MappedColumn],
    second: &[MappedColumn],
    bytes: &'a [u8],
) -> Option<&'a [u8]>
    ensures { option_map (λ t. t.now) result ≡ option_map (λ p. p.1) (row_at first.now second.now bytes.now) }
{
    let Some(rest) = behind_image(first, bytes) else {
        return None;
    };
    behind_image(second, rest)
}

/// How many rows these bytes are to their end, whose images have these columns.
fn count_to_end(first: &[MappedColumn], second: &[MappedColumn], bytes: &[u8]) -> Option<u64>
    ensures { result ≡ option_map length (rows_to_end first.now second.now bytes.now) }
{
    let mut rest = bytes;
    for count in 0..bytes.len() {
        if rest.is_empty() {
            return Some(count as u64);
        }
        let Some(behind) = behind_row(first, second, rest) else {
            return None;
        };
        rest = behind;
    }
    if rest.is_empty() {
        Some(bytes.len() as u64)
    } else {
        None
    }
}

/// How many rows these bytes are, whose images have these columns.
fn count_in(first: &[MappedColumn], second: &[MappedColumn], bytes: &[u8]) -> Option<u64>
    ensures { result ≡ option_map length (rows_in first.now second.now bytes.now) }
{
    if first.is_empty() && second.is_empty() && bytes.is_empty() {
        return Some(1);
    }
    count_to_end(first, second, bytes)
}

/// What is behind the extra information of version 2.
#[tactic(auto, unfolding(crate::specs::Rows::behind_extra))]
fn behind_extra(bytes: &[u8]) -> Option<&[u8]>
    ensures { option_map (λ t. t.now) result ≡ behind_extra bytes.now }
{
    let Some((len, rest)) = number_of(2, bytes) else {
        return None;
    };
    if len < 2 { None } else { behind(len - 2, rest) }
}

/// What is behind the head of a rows event.
#[tactic(auto, unfolding(crate::specs::Rows::behind_head))]
fn behind_head(kind: u8, body: &[u8]) -> Option<&[u8]>
    ensures { option_map (λ t. t.now) result ≡ behind_head kind body.now }
{
    match kind {
        23..=25 => behind(8, body),
        30..=32 => {
            let Some(rest) = behind(8, body) else {
                return None;
            };
            behind_extra(rest)
        }
        _ => None,
    }
}

/// A rows event without its head.
#[derive(Drop)]
pub(crate) struct BodyBytes<'a> {
    /// A bit for each column of the map, whether the first image has it.
    pub(crate) first: &'a [u8],
    /// The same of the second image, which only UPDATE has.
    pub(crate) second: &'a [u8],
    pub(crate) rows: &'a [u8],
}

/// How many bytes the bits of the second image take.
fn second_width(kind: u8, count: u64) -> u64
    ensures { result ≡ second_width kind count }
{
    if kind == 24 || kind == 31 {
        bits_width(count)
    } else {
        0
    }
}

/// From the bits on, where the map has so many columns.
#[tactic(auto, unfolding(crate::specs::Rows::bits_at))]
fn bits_at(kind: u8, count: u64, bytes: &[u8]) -> Option<BodyBytes<'_>>
    ensures { option_map body_view result ≡ bits_at kind count bytes.now }
{
    let Some((first, rest)) = split(bits_width(count), bytes) else {
        return None;
    };
    let Some((second, rows)) = split(second_width(kind, count), rest) else {
        return None;
    };
    Some(BodyBytes {
        first,
        second,
        rows,
    })
}

/// The parts of a rows event whose table has so many columns.
#[tactic(auto, unfolding(crate::specs::Rows::body_of))]
pub(crate) fn body_of(kind: u8, count: u64, body: &[u8]) -> Option<BodyBytes<'_>>
    ensures { option_map body_view result ≡ body_of kind count body.now }
{
    let Some(rest) = behind_head(kind, body) else {
        return None;
    };
    let Some((width, bits)) = packed(rest) else {
        return None;
    };
    if width == count {
        bits_at(kind, count, bits)
    } else {
        None
    }
}

/// How many rows the body of a rows event has, whose table has these columns. `kind` is the number of the event's type: WRITE, UPDATE and
/// DELETE of version 1 are 23 to 25, those of version 2 are 30 to 32. The two images of an UPDATE are one row. `None` where the body is not
/// in this form, and of each other kind.
#[tactic(auto, unfolding(crate::specs::Rows::rows_of))]
pub fn count_rows(
    alloc: Global,
    kind: u8,
    columns: &[MappedColumn],
    body: &[u8],
) -> Result<Option<u64>, AllocError>
    ensures { IfOk result (λ count. count ≡ row_count kind columns.now body.now) }
{
    let Some(parts) = body_of(kind, columns.len() as u64, body) else {
        return Ok(None);
    };
    let first = present(alloc, parts.first, columns)?;
    let second = present(alloc, parts.second, columns)?;
    Ok(count_in(&first, &second, parts.rows))
}
