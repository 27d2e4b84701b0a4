//! Values by the type of their column.
ghost use Rattle.std.specs.Prelude.{◌≡◌, ◌+◌, ◌<◌, ◌≤◌, ◌^◌, Some, IfOk, IfSome, option_map};
ghost use Rattle.std.specs.List.{list_all};
ghost use Rattle.std.specs.Char.{is_ascii_digit};
ghost use Rattle.row_images.specs.declared.value.Value.TheVariants as Cell;
ghost use Rattle.row_images.specs.declared.value.Value.{Value};
ghost use Rattle.binlog_text.specs.Values.{range_of, half_of, are_digits, is_seconds, is_decimal, is_bit, readings_at, agree, negative, large, below, signed_value, unsigned_value, unsigned_at, bits_at, value_of_type, value_at, shown_value};

use crate::quoted::unquote;
use crate::tokens::{after_prefix, cut_at};
use crate::types::{ColumnType, IntegerType};
use itoa::Buffer;
use row_images::{count, is_count};
use rows::{ByteString, Value};
use std::alloc::{AllocError, Global};

impl IntegerType {
    /// How many numbers are below 0 in the type with a sign.
    fn half(self) -> u64
        ensures { result ≡ half_of self }
    {
        match self {
            IntegerType::TinyInt => 0x80,
            IntegerType::SmallInt => 0x8000,
            IntegerType::MediumInt => 0x80_0000,
            IntegerType::Int => 0x8000_0000,
            IntegerType::BigInt => 0x8000_0000_0000_0000,
        }
    }

    /// Whether two numbers are the readings of one number: how far it is below 0 with a sign, and what it is without one.
    fn agree(self, below: u64, above: u64) -> bool
        ensures { result ≡ agree self below above }
    {
        let half = self.half();
        if below < 1 || half < below || above < half {
            return false;
        }
        half - below == above - half
    }
}

/// Both readings of a number that is printed as one below 0, after the minus.
fn readings(text: &[u8]) -> Option<(u64, u64)>
    ensures { result ≡ readings_at text.now }
{
    let Some((first, rest)) = cut_at(text, b' ') else {
        return None;
    };
    let Some(inner) = after_prefix(rest, b"(") else {
        return None;
    };
    let Some((second, rest)) = cut_at(inner, b')') else {
        return None;
    };
    if !rest.is_empty() {
        return None;
    }
    let Some(below) = count(first) else {
        return None;
    };
    let Some(above) = count(second) else {
        return None;
    };
    Some((below, above))
}

/// The number below 0 that two readings are of.
fn negative(integer: IntegerType, readings: Option<(u64, u64)>) -> Option<i64>
    ensures { result ≡ negative integer readings }
{
    let Some((below, above)) = readings else {
        return None;
    };
    if !integer.agree(below, above) {
        return None;
    }
    match i64::try_from(below - 1) {
        Ok(distance) => Some(-1 - distance),
        Err(_) => None,
    }
}

/// The value of a number without a sign: from 2^63 on, the bytes of its decimal digits.
fn unsigned_value(alloc: Global, number: u64) -> Result<Value, AllocError>
    ensures { IfOk result (λ value. value ≡ unsigned_value number) }
{
    if number < 0x8000_0000_0000_0000 {
        return Ok(Value::Int(number as i64));
    }
    let mut digits = Buffer::new();
    let text = digits.format(number).as_bytes();
    Ok(Value::Bytes(ByteString::from_slice(alloc, text)?))
}

/// The value of the number without a sign that two readings are of.
fn large(
    alloc: Global,
    integer: IntegerType,
    readings: Option<(u64, u64)>,
) -> Result<Option<Value>, AllocError>
    ensures { IfOk result (λ found. found ≡ large integer readings) }
{
    let Some((below, above)) = readings else {
        return Ok(None);
    };
    if !integer.agree(below, above) {
        return Ok(None);
    }
    Ok(Some(unsigned_value(alloc, above)?))
}

/// A number below a limit.
fn below(limit: u64, number: Option<u64>) -> Option<i64>
    requires { limit ≤ 2 ^ 63 }
    ensures { result ≡ below limit number }
{
    let Some(number) = number else {
        return None;
    };
    if limit <= number {
        return None;
    }
    Some(number as i64)
}

fn signed_value(integer: IntegerType, text: &[u8]) -> Option<i64>
    ensures { result ≡ signed_value integer text.now }
{
    match text {
        [] => None,
        [b'-', rest @ ..] => negative(integer, readings(rest)),
        _ => below(integer.half(), count(text)),
    }
}

fn unsigned_at(
    alloc: Global,
    integer: IntegerType,
    text: &[u8],
) -> Result<Option<Value>, AllocError>
    ensures { IfOk result (λ found. found ≡ unsigned_at integer text.now) }
{
    match text {
        [] => Ok(None),
        [b'-', rest @ ..] => large(alloc, integer, readings(rest)),
        _ => Ok(int_value(below(integer.half(), count(text)))),
    }
}

fn all_digits(text: &[u8]) -> bool
    ensures { result ≡ list_all is_ascii_digit text.now }
{
    text.iter().all(|b| b.is_ascii_digit())
}

fn are_digits(text: &[u8]) -> bool
    ensures { result ≡ are_digits text.now }
{
    !text.is_empty() && all_digits(text)
}

fn is_seconds(text: &[u8]) -> bool
    ensures { result ≡ is_seconds text.now }
{
    match cut_at(text, b'.') {
        Some((whole, fraction)) => is_count(whole) && are_digits(fraction),
        None => is_count(text),
    }
}

fn is_decimal(text: &[u8]) -> bool
    ensures { result ≡ is_decimal text.now }
{
    match text {
        [] => false,
        [b'-', rest @ ..] => is_seconds(rest),
        _ => is_seconds(text),
    }
}

fn are_bits(text: &[u8]) -> bool
    ensures { result ≡ list_all is_bit text.now }
{
    text.iter().all(|b| *b == b'0' || *b == b'1')
}

fn bits(text: &[u8]) -> Option<&[u8]>
    ensures { option_map (λ r. r.now) result ≡ bits_at text.now }
{
    let Some(rest) = after_prefix(text, b"b'") else {
        return None;
    };
    let Some((bits, rest)) = cut_at(rest, b'\'') else {
        return None;
    };
    if !rest.is_empty() || !are_bits(bits) {
        return None;
    }
    Some(bits)
}

fn int_value(number: Option<i64>) -> Option<Value>
    ensures { result ≡ option_map Cell.Int number }
{
    match number {
        Some(number) => Some(Value::Int(number)),
        None => None,
    }
}

fn copy_text(alloc: Global, bytes: &[u8]) -> Result<Option<Value>, AllocError>
    ensures { IfOk result (λ found. found ≡ Some (Cell.Bytes bytes.now)) }
{
    Ok(Some(Value::Bytes(ByteString::from_slice(alloc, bytes)?)))
}

fn value_of_type(
    alloc: Global,
    column: ColumnType,
    text: &[u8],
) -> Result<Option<Value>, AllocError>
    ensures { IfOk result (λ found. found ≡ value_of_type column text.now) }
{
    match column {
        ColumnType::Signed(integer) => Ok(int_value(signed_value(integer, text))),
        ColumnType::Unsigned(integer) => unsigned_at(alloc, integer, text),
        ColumnType::Number => Ok(int_value(below(0x8000_0000_0000_0000, count(text)))),
        ColumnType::Decimal if is_decimal(text) => copy_text(alloc, text),
        ColumnType::Seconds if is_seconds(text) => copy_text(alloc, text),
        ColumnType::Decimal | ColumnType::Seconds => Ok(None),
        ColumnType::Bits => match bits(text) {
            Some(bits) => copy_text(alloc, bits),
            None => Ok(None),
        },
        ColumnType::Quoted => match unquote(alloc, text)? {
            Some(bytes) => Ok(Some(Value::Bytes(ByteString::new(bytes)?))),
            None => Ok(None),
        },
    }
}

fn value_at(alloc: Global, column: ColumnType, text: &[u8]) -> Result<Option<Value>, AllocError>
    ensures { IfOk result (λ found. found ≡ value_at column text.now) }
{
    match value_of_type(alloc, column, text)? {
        Some(value) => Ok(Some(value)),
        None if text == b"NULL".as_slice() => Ok(Some(Value::Null)),
        None => Ok(None),
    }
}

/// The value that a text shows in a column of this type.
pub fn read_value(
    alloc: Global,
    column: ColumnType,
    text: &[u8],
) -> Result<Option<Value>, AllocError>
    ensures exact { IfOk result (λ found. found ≡ value_at column text.now) }
    // The text is what mysqlbinlog prints for the value.
    ensures found { IfOk result (λ found. IfSome found (λ v. shown_value column v ≡ Some text.now)) }
    // What mysqlbinlog prints for a value is read as it.
    ensures only { IfOk result (λ found. (v : Value) → shown_value column v ≡ Some text.now → found ≡ Some v) }
{
    value_at(alloc, column, text)
}
