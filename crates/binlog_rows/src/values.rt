//! What the bytes of a value are.
ghost use Rattle.std.specs.Prelude.{◌≡◌, ◌<◌, ◌^◌, length, IfOk, IfSome, option_map, Some, reverse};
ghost use Rattle.row_images.specs.declared.value.Value.TheVariants.{Bytes};
ghost use Rattle.binlog_rows.specs.Values.{unsigned_value, greatest, signed_value, signed_by, integer_value, year_value, set_value, low_bits, bit_value, short_value, timestamp_value, value_by_type, lies_so, value_of};

use crate::columns::{MappedColumn, Signedness};
use crate::decimals::decimal_value;
use crate::digits::{are_zeros, bits_text, bytes_value, copied_value};
use crate::images::{Layout, layout_of};
use crate::json::json_value;
use crate::numbers::{high_number, low_number};
use crate::times::{date_value, datetime_value, time_value, timestamp_value};
use itoa::Buffer;
use row_images::Value;
use std::alloc::{AllocError, Global};

/// The value of a number without a sign: from 2^63 on, the bytes of its decimal digits.
fn unsigned_value(alloc: Global, number: u64) -> Result<Value, AllocError>
    ensures { IfOk result (λ value. value ≡ unsigned_value number) }
{
    if number < 0x8000_0000_0000_0000 {
        return Ok(Value::Int(number as i64));
    }
    let mut digits = Buffer::new();
    copied_value(alloc, digits.format(number).as_bytes())
}

/// The greatest number of so many bytes, one bit of which is the sign.
fn greatest(width: u8) -> Option<u64>
    ensures greatest { result ≡ greatest width }
    ensures small { IfSome result (λ most. most < 2 ^ 63) }
{
    match width {
        1 => Some(0x7f),
        2 => Some(0x7fff),
        3 => Some(0x7f_ffff),
        4 => Some(0x7fff_ffff),
        8 => Some(0x7fff_ffff_ffff_ffff),
        _ => None,
    }
}

/// The number of which this is the two's complement, where this one is the greatest.
fn signed_value(most: u64, number: u64) -> Option<Value>
    requires { most < 2 ^ 63 }
    ensures { result ≡ signed_value most number }
{
    let last = most + most + 1;
    if number <= most {
        Some(Value::Int(number as i64))
    } else if number <= last {
        Some(Value::Int(-1 - (last - number) as i64))
    } else {
        None
    }
}

/// The number of so many bytes that has a sign.
fn signed_by(width: u8, number: u64) -> Option<Value>
    ensures { result ≡ signed_by (greatest width) number }
{
    match greatest(width) {
        None => None,
        Some(most) => signed_value(most, number),
    }
}

/// The number of so many bytes.
fn integer_value(
    alloc: Global,
    width: u8,
    sign: Signedness,
    bytes: &[u8],
) -> Result<Option<Value>, AllocError>
    ensures { IfOk result (λ value. value ≡ integer_value width sign bytes.now) }
{
    match sign {
        Signedness::Unknown => Ok(None),
        Signedness::Signed => Ok(signed_by(width, low_number(bytes))),
        Signedness::Unsigned => Ok(Some(unsigned_value(alloc, low_number(bytes))?)),
    }
}

/// The year that a byte is.
fn year_value(bytes: &[u8]) -> Option<Value>
    ensures { result ≡ year_value bytes.now }
{
    match bytes {
        [number] => Some(Value::Int(1900 + *number as i64)),
        _ => None,
    }
}

/// The value of a FLOAT or a DOUBLE.
fn reversed(alloc: Global, bytes: &[u8]) -> Result<Value, AllocError>
    ensures { IfOk result (λ value. value ≡ Bytes (reverse bytes.now)) }
{
    let mut reversed = Vec::from_slice(alloc, bytes)?;
    reversed.as_mut_slice().reverse();
    bytes_value(reversed)
}

/// The value of a SET.
fn set_value(alloc: Global, bytes: &[u8]) -> Result<Value, AllocError>
    ensures { IfOk result (λ value. value ≡ set_value bytes.now) }
{
    bytes_value(bits_text(alloc, bytes)?)
}

/// The last so many bits, if those before them are 0.
fn low_bits(alloc: Global, count: u8, digits: &[u8]) -> Result<Option<Value>, AllocError>
    ensures { IfOk result (λ value. value ≡ low_bits count digits.now) }
{
    let spare = digits.len().saturating_sub(count as usize);
    if are_zeros(&digits[..spare]) {
        Ok(Some(copied_value(alloc, &digits[spare..])?))
    } else {
        Ok(None)
    }
}

/// The value of a BIT of so many bits.
fn bit_value(alloc: Global, count: u8, bytes: &[u8]) -> Result<Option<Value>, AllocError>
    ensures { IfOk result (λ value. value ≡ bit_value count bytes.now) }
{
    let digits = bits_text(alloc, bytes)?;
    low_bits(alloc, count, &digits)
}

/// The bytes, if they are no more than so many.
fn short_value(alloc: Global, most: u16, bytes: &[u8]) -> Result<Option<Value>, AllocError>
    ensures { IfOk result (λ value. value ≡ short_value most bytes.now) }
{
    if bytes.len() <= most as usize {
        Ok(Some(copied_value(alloc, bytes)?))
    } else {
        Ok(None)
    }
}

/// The value of a TIMESTAMP.
fn seconds_value(alloc: Global, digits: u8, bytes: &[u8]) -> Result<Option<Value>, AllocError>
    ensures { IfOk result (λ value. value ≡ timestamp_value digits bytes.now) }
{
    if digits == 0 {
        return Ok(Some(unsigned_value(alloc, high_number(bytes))?));
    }
    timestamp_value(alloc, digits, bytes)
}

/// The value of a column's type that these bytes are.
#[tactic(auto, unfolding(crate::specs::Values::value_by_type))]
fn value_by_type(
    alloc: Global,
    column: MappedColumn,
    bytes: &[u8],
) -> Result<Option<Value>, AllocError>
    ensures { IfOk result (λ value. value ≡ value_by_type column bytes.now) }
{
    match column {
        MappedColumn::Integer(width, sign) => integer_value(alloc, width, sign, bytes),
        MappedColumn::Year => Ok(year_value(bytes)),
        MappedColumn::Enum(_) => Ok(Some(unsigned_value(alloc, low_number(bytes))?)),
        MappedColumn::Float | MappedColumn::Double => Ok(Some(reversed(alloc, bytes)?)),
        MappedColumn::Decimal(precision, scale) => decimal_value(alloc, precision, scale, bytes),
        MappedColumn::Bit(count) => bit_value(alloc, count, bytes),
        MappedColumn::Set(_) => Ok(Some(set_value(alloc, bytes)?)),
        MappedColumn::Date => date_value(alloc, bytes),
        MappedColumn::Time(digits) => time_value(alloc, digits, bytes),
        MappedColumn::Datetime(digits) => datetime_value(alloc, digits, bytes),
        MappedColumn::Timestamp(digits) => seconds_value(alloc, digits, bytes),
        MappedColumn::Char(most) | MappedColumn::Varchar(most) => short_value(alloc, most, bytes),
        MappedColumn::Blob(_) | MappedColumn::Geometry(_) | MappedColumn::Vector(_) => Ok(Some(
            copied_value(alloc, bytes)?,
        )),
        MappedColumn::Json(_) => json_value(alloc, bytes),
    }
}

/// Whether so many bytes lie so.
fn lies_so(layout: Layout, len: usize) -> bool
    ensures { result ≡ lies_so layout len }
{
    match layout {
        Layout::Fixed(width) => width == len as u64,
        Layout::Counted(_) => true,
    }
}

/// The value that these bytes are in a column, as an import of mysqlbinlog's text has it: numbers of INTEGER types, YEAR and ENUM, and of
/// TIMESTAMP without a fraction, but of numbers from 2^63 on the bytes of their decimal digits; else a string of bytes, which is the text that
/// mysqlbinlog prints of a time, a DECIMAL and bits, and the bytes themselves of a string. FLOAT and DOUBLE are the bytes of their IEEE form,
/// the sign's first, GEOMETRY and VECTOR those of the log. JSON is the text of the document, as a server prints it (`CAST(.. AS CHAR)`):
/// members in the order of the binary form, by which servers sort them, and the bytes of strings as they are, whether they are UTF-8 or not.
///
/// `None` for a JSON that has a value of an SQL type in it, a double that a server prints with an exponent, more than 100 levels, or a text
/// of more than 6 times its bytes; for integers of which the map doesn't say whether they have a sign; and where the bytes are not in the one
/// form that the server writes: a part of a time that is too large, -0, a digit too many, more bytes than the column holds.
#[tactic(auto, unfolding(crate::specs::Values::value_of))]
pub fn value_of(
    alloc: Global,
    column: MappedColumn,
    bytes: &[u8],
) -> Result<Option<Value>, AllocError>
    ensures { IfOk result (λ value. value ≡ value_of column bytes.now) }
{
    if lies_so(layout_of(column), bytes.len()) {
        value_by_type(alloc, column, bytes)
    } else {
        Ok(None)
    }
}
