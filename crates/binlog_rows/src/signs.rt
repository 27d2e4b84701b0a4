//! Whether the numbers of columns have a sign.
ghost use Rattle.std.specs.Prelude.{◌≡◌, ◌<◌, ◌≤◌, ◌^◌, length, IfOk};
ghost use Rattle.binlog_rows.specs.Signs.{signedness_of, sign_at, is_numeric, with_sign, place_behind, signed_from, numbered_from, has_signs};

use crate::columns::{MappedColumn, Signedness};
use crate::numbers::bits_width;
use crate::options::content_in;
use std::alloc::{AllocError, Global};

/// The content of SIGNEDNESS among the optional metadata; nothing where it isn't there.
pub(crate) fn signedness_in(bytes: &[u8]) -> &[u8]
    ensures { result.now ≡ signedness_of bytes.now }
{
    match content_in(1, bytes) {
        Some(bits) => bits,
        None => &bytes[..0],
    }
}

/// Whether the numeric column at this place has a sign.
#[tactic(auto, unfolding(crate::specs::Signs::sign_at))]
fn sign_at(bits: &[u8], place: usize) -> Signedness
    ensures { result ≡ sign_at bits.now place }
{
    if place / 8 >= bits.len() {
        return Signedness::Unknown;
    }
    if (bits[place / 8] >> (7 - place % 8)) % 2 == 1 {
        Signedness::Unsigned
    } else {
        Signedness::Signed
    }
}

fn is_numeric(column: MappedColumn) -> bool
    ensures { result ≡ is_numeric column }
{
    match column {
        MappedColumn::Integer(_, _)
        | MappedColumn::Float
        | MappedColumn::Double
        | MappedColumn::Decimal(_, _)
        | MappedColumn::Year => true,
        _ => false,
    }
}

/// The column with this sign, if it has integers.
fn with_sign(sign: Signedness, column: MappedColumn) -> MappedColumn
    ensures { result ≡ with_sign sign column }
{
    match column {
        MappedColumn::Integer(width, _) => MappedColumn::Integer(width, sign),
        other => other,
    }
}

/// The place of the next numeric column behind this one.
fn place_behind(column: MappedColumn, place: usize) -> usize
    requires { place < 2 ^ 63 }
    ensures { result ≡ place_behind column place }
{
    if is_numeric(column) { place + 1 } else { place }
}

/// The columns with their signs, which these bits are.
pub(crate) fn signed(
    alloc: Global,
    bits: &[u8],
    columns: &[MappedColumn],
) -> Result<Vec<MappedColumn>, AllocError>
    ensures { IfOk result (λ found. found.items ≡ signed_from bits.now 0 columns.now) }
{
    let mut found = Vec::new(alloc);
    let mut place = 0;
    for column in columns {
        found.push(with_sign(sign_at(bits, place), *column))?;
        place = place_behind(*column, place);
    }
    Ok(found)
}

/// How many of the columns are numeric.
fn numeric_count(columns: &[MappedColumn]) -> usize
    ensures count { result ≡ numbered_from 0 columns.now }
    ensures bound { result ≤ length columns.now }
{
    let mut place = 0;
    for column in columns {
        place = place_behind(*column, place);
    }
    place
}

/// Whether these bits have one for each numeric column.
pub(crate) fn has_signs(bits: &[u8], columns: &[MappedColumn]) -> bool
    ensures { result ≡ has_signs bits.now columns.now }
{
    bits_width(numeric_count(columns) as u64) <= bits.len() as u64
}
