//! Values as words.
ghost use Rattle.std.specs.Prelude.{true, ◌≡◌, ◌≤◌, ◌^◌, ◌*◌, ◌/◌, ◌++◌, ◌∷◌, ◌<◌, get_or, false, is_some, length, Some, None, IfOk, OnOk, IsAscii, option_map, if◌then◌else◌};
ghost use Rattle.std.specs.List.{list_all};
ghost use Rattle.std.specs.Str.Parse.{starts_with_minus};
ghost use Rattle.hex.specs.Hex.{encode_lower, lower_digits, IsBytes};
ghost use Rattle.std.specs.String.{string_bytes};
ghost use Rattle.row_images.specs.Values.{value_text, below_zero, int_of, is_lower_digit, digit_of, pairs_of, bytes_of, value_of, FitsValue};
ghost use Rattle.row_images.specs.Images.{values_text, values_behind, AreValues};

use crate::value::{ByteString, Value};
use crate::words::{count, is_count};
use itoa::Buffer;
use std::alloc::{AllocError, Global};

/// The most digits that are decoded on the stack: two for each byte that a value holds in place.
const FEW_DIGITS: usize = 44;

/// The negative of a number.
fn negative(number: u64) -> i64
    requires low { 1 ≤ number }
    requires high { number ≤ 2 ^ 63 }
    ensures { result ≡ below_zero number }
{
    -1 - (number - 1) as i64
}

/// The number that the digits after a minus parse as.
fn int_below_zero(digits: &[u8]) -> Option<i64>
    ensures { result ≡ int_of (45 ∷ digits.now) }
{
    let Some(number) = count(digits) else {
        return None;
    };
    if number < 1 {
        return None;
    }
    if number > 0x8000_0000_0000_0000 {
        return None;
    }
    Some(negative(number))
}

/// The number that a word without a minus parses as.
fn int_from_zero(word: &[u8]) -> Option<i64>
    requires { starts_with_minus word.now ≡ false }
    ensures { result ≡ int_of word.now }
{
    let Some(number) = count(word) else {
        return None;
    };
    if number >= 0x8000_0000_0000_0000 {
        return None;
    }
    Some(number as i64)
}

/// A number of this many decimal digits is below 2^63.
pub(crate) const FEW_DECIMAL_DIGITS: usize = 18;

/// Whether a word without a minus parses as a number. If its digits are few, the number itself is not computed.
fn is_int_from_zero(word: &[u8]) -> bool
    requires { starts_with_minus word.now ≡ false }
    ensures { result ≡ is_some (int_of word.now) }
{
    if word.len() <= FEW_DECIMAL_DIGITS {
        return is_count(word);
    }
    int_from_zero(word).is_some()
}

/// Whether a word parses as a number.
fn is_int(word: &[u8]) -> bool
    ensures { result ≡ is_some (int_of word.now) }
{
    match word {
        [b'-', digits @ ..] => int_below_zero(digits).is_some(),
        _ => is_int_from_zero(word),
    }
}

/// The value of a digit that lower case writes. It takes no branch and no table, so that many digits are read at once.
fn digit_value(byte: u8) -> u8
    ensures { is_lower_digit byte ≡ true → result ≡ digit_of byte }
{
    byte % 16 + byte / 64 * 9
}

/// Writes the bytes that lower-case digits parse as into the room.
fn pairs_into(digits: &[u8], room: &mut [u8])
    requires len { length digits.now ≡ 2 * length room.old }
    requires lower { list_all is_lower_digit digits.now ≡ true }
    ensures { room.new ≡ pairs_of digits.now }
{
    for i in 0..room.len() {
        let high = digit_value(digits[2 * i]);
        let low = digit_value(digits[2 * i + 1]);
        room[i] = high % 16 * 16 + low % 16;
    }
}

/// Writes the bytes that lower-case digits parse as into the room; whether they parse as any.
fn digits_into(digits: &[u8], room: &mut [u8]) -> bool
    requires { length room.old ≡ length digits.now / 2 }
    ensures { bytes_of digits.now ≡ (if result then Some room.new else None) }
{
    if digits.len() % 2 == 1 {
        return false;
    }
    if !are_lower_digits(digits) {
        return false;
    }
    pairs_into(digits, room);
    true
}

/// The number that the word parses as.
fn int_at(word: &[u8]) -> Option<i64>
    ensures { result ≡ int_of word.now }
{
    match word {
        [b'-', digits @ ..] => int_below_zero(digits),
        _ => int_from_zero(word),
    }
}

/// The bytes that few digits parse as, decoded on the stack.
fn few_bytes(alloc: Global, digits: &[u8]) -> Result<Option<ByteString>, AllocError>
    requires { length digits.now ≤ 44 }
    ensures { IfOk result (λ found. found ≡ bytes_of digits.now) }
{
    let mut room = [0; 22];
    let bytes = &mut room[..digits.len() / 2];
    if !digits_into(digits, bytes) {
        return Ok(None);
    }
    Ok(Some(ByteString::from_slice(alloc, bytes)?))
}

/// The bytes that many digits parse as.
#[inline(never)]
fn many_bytes(alloc: Global, digits: &[u8]) -> Result<Option<ByteString>, AllocError>
    ensures { IfOk result (λ found. found ≡ bytes_of digits.now) }
{
    let mut bytes = vec![in alloc; 0u8; digits.len() / 2]?;
    if !digits_into(digits, bytes.as_mut_slice()) {
        return Ok(None);
    }
    Ok(Some(ByteString::new(bytes)?))
}

/// The bytes that the digits parse as.
fn bytes_at(alloc: Global, digits: &[u8]) -> Result<Option<ByteString>, AllocError>
    ensures { IfOk result (λ found. found ≡ bytes_of digits.now) }
{
    if digits.len() <= FEW_DIGITS {
        few_bytes(alloc, digits)
    } else {
        many_bytes(alloc, digits)
    }
}

fn byte_value(alloc: Global, digits: &[u8]) -> Result<Option<Value>, AllocError>
    ensures { IfOk result (λ found. found ≡ option_map Value.Bytes (bytes_of digits.now)) }
{
    match bytes_at(alloc, digits)? {
        Some(bytes) => Ok(Some(Value::Bytes(bytes))),
        None => Ok(None),
    }
}

fn int_value(word: &[u8]) -> Option<Value>
    ensures { result ≡ option_map Value.Int (int_of word.now) }
{
    match int_at(word) {
        Some(number) => Some(Value::Int(number)),
        None => None,
    }
}

/// The value that the word parses as. A value of any number of bytes is read.
pub fn value_word(alloc: Global, word: &[u8]) -> Result<Option<Value>, AllocError>
    ensures { IfOk result (λ found. found ≡ value_of word.now) }
{
    if word == b"null".as_slice() {
        return Ok(Some(Value::Null));
    }
    match word {
        [b'x', digits @ ..] => byte_value(alloc, digits),
        _ => Ok(int_value(word)),
    }
}

/// The text of digits that were written into a room.
fn text_of(digits: &[u8]) -> &str
    requires { IsAscii digits.now }
    ensures { result.now ≡ digits.now }
{
    match std::str::from_utf8(digits) {
        Ok(text) => text,
        Err(_) => unreachable!(),
    }
}

/// The digits of the numbers below 16, in lower case.
static LOWER_DIGITS: [u8; 16] = *b"0123456789abcdef";

/// The digit of a number below 16.
fn lower_digit(value: u8) -> u8
    requires { value < 16 }
    ensures { result ≡ get_or lower_digits value 0 }
{
    LOWER_DIGITS[value as usize]
}

/// Writes two lower-case digits for each byte into the room.
fn encode_into(bytes: &[u8], room: &mut [u8])
    requires { length room.old ≡ 2 * length bytes.now }
    ensures { room.new ≡ encode_lower bytes.now }
{
    for i in 0..bytes.len() {
        let high = lower_digit(bytes[i] / 16);
        let low = lower_digit(bytes[i] % 16);
        room[2 * i] = high;
        room[2 * i + 1] = low;
    }
}

/// Appends two lower-case digits for each byte. Those of few bytes are written on the stack.
fn write_digits(alloc: Global, out: &mut String, bytes: &[u8]) -> Result<(), AllocError>
    ensures { OnOk result (string_bytes out.new ≡ string_bytes out.old ++ encode_lower bytes.now) }
{
    if bytes.len() > FEW_DIGITS / 2 {
        let digits = hex::encode(alloc, bytes)?;
        return out.push_str(digits.as_str());
    }
    let mut room = [0; FEW_DIGITS];
    let digits = &mut room[..2 * bytes.len()];
    encode_into(bytes, digits);
    out.push_str(text_of(digits))
}

/// Appends the word of a value.
pub fn write_value(alloc: Global, out: &mut String, value: &Value) -> Result<(), AllocError>
    ensures { OnOk result (string_bytes out.new ≡ string_bytes out.old ++ value_text value.now) }
{
    match value {
        Value::Null => out.push_str("null"),
        Value::Int(number) => {
            let mut buffer = Buffer::new();
            out.push_str(buffer.format(*number))
        }
        Value::Bytes(bytes) => {
            out.push_str("x")?;
            write_digits(alloc, out, bytes.as_slice())
        }
    }
}

/// Appends a value after a blank.
fn write_after_blank(alloc: Global, out: &mut String, value: &Value) -> Result<(), AllocError>
    ensures { OnOk result (string_bytes out.new ≡ string_bytes out.old ++ 32 ∷ value_text value.now) }
{
    out.push_str(" ")?;
    write_value(alloc, out, value)
}

/// Appends values, each after a blank.
fn write_behind(alloc: Global, out: &mut String, values: &[Value]) -> Result<(), AllocError>
    ensures { OnOk result (string_bytes out.new ≡ string_bytes out.old ++ values_behind values.now) }
{
    for value in values {
        write_after_blank(alloc, out, value)?;
    }
    Ok(())
}

/// Appends values with a blank between.
pub(crate) fn write_values(
    alloc: Global,
    out: &mut String,
    values: &[Value],
) -> Result<(), AllocError>
    ensures { OnOk result (string_bytes out.new ≡ string_bytes out.old ++ values_text values.now) }
{
    let [first, others @ ..] = values else {
        return Ok(());
    };
    write_value(alloc, out, first)?;
    write_behind(alloc, out, others)
}

fn is_lower_digit(byte: u8) -> bool
    ensures { result ≡ is_lower_digit byte }
{
    ((48 <= byte) & (byte <= 57)) | ((97 <= byte) & (byte <= 102))
}

fn are_lower_digits(word: &[u8]) -> bool
    ensures { result ≡ list_all is_lower_digit word.now }
{
    let mut lower = true;
    // (no branch, so that many bytes are tested at once)
    for byte in word {
        lower &= is_lower_digit(*byte);
    }
    lower
}

/// Whether digits are those of bytes.
fn are_digits_of_bytes(digits: &[u8]) -> bool
    ensures { result ≡ is_some (bytes_of digits.now) }
{
    digits.len() % 2 == 0 && are_lower_digits(digits)
}

/// Whether the word is that of a value.
pub(crate) fn is_value(word: &[u8]) -> bool
    ensures { result ≡ is_some (value_of word.now) }
{
    match word {
        [b'x', digits @ ..] => are_digits_of_bytes(digits),
        b"null" => true,
        _ => is_int(word),
    }
}

/// Each byte is one. (A fact about the type.)
fn are_bytes(bytes: &[u8])
    ensures { IsBytes bytes.now }
{
    let _len = bytes.len();
}

/// A value is one that its type has. (A fact about the type.)
fn fits(value: &Value)
    ensures { FitsValue value.now }
{
    match value {
        Value::Null => {}
        Value::Int(number) => {
            let _number = *number;
        }
        Value::Bytes(bytes) => are_bytes(bytes.as_slice()),
    }
}

/// Each of these values is one that its type has.
pub(crate) fn all_fit(values: &[Value])
    ensures { AreValues values.now }
{
    for value in values {
        fits(value);
    }
}
