//! Numbers and bits in digits of ASCII.
ghost use Rattle.std.specs.Prelude.{◌≡◌, ◌++◌, ◌∷◌, [], OnOk, IfOk};
ghost use Rattle.std.specs.List.{list_all, flat_map};
ghost use Rattle.row_images.specs.declared.value.Value.TheVariants.{Bytes};
ghost use Rattle.binlog_rows.specs.Digits.{digit, two_digits, four_digits, six_digits, nine_digits, is_zero, bit, byte_digits};

use row_images::{ByteString, Value};
use std::alloc::{AllocError, Global};

/// The value that these bytes are.
pub(crate) fn bytes_value(text: Vec<u8>) -> Result<Value, AllocError>
    ensures { IfOk result (λ value. value ≡ Bytes text.items) }
{
    Ok(Value::Bytes(ByteString::new(text)?))
}

/// The value that a copy of these bytes is.
pub(crate) fn copied_value(alloc: Global, bytes: &[u8]) -> Result<Value, AllocError>
    ensures { IfOk result (λ value. value ≡ Bytes bytes.now) }
{
    Ok(Value::Bytes(ByteString::from_slice(alloc, bytes)?))
}

/// Appends a text.
pub(crate) fn put(out: &mut Vec<u8>, text: &[u8]) -> Result<(), AllocError>
    ensures { OnOk result (out.new.items ≡ out.old.items ++ text.now) }
{
    out.extend_from_slice(text)
}

/// Appends a byte.
pub(crate) fn put_byte(out: &mut Vec<u8>, byte: u8) -> Result<(), AllocError>
    ensures { OnOk result (out.new.items ≡ out.old.items ++ byte ∷ []) }
{
    out.push(byte)?;
    Ok(())
}

/// The last decimal digit of a number.
pub(crate) fn digit(number: u64) -> u8
    ensures { result ≡ digit number }
{
    48 + (number % 10) as u8
}

/// Appends the last two digits of a number.
pub(crate) fn put_two(out: &mut Vec<u8>, number: u64) -> Result<(), AllocError>
    ensures { OnOk result (out.new.items ≡ out.old.items ++ two_digits number) }
{
    put(out, &[digit(number / 10), digit(number)])
}

/// Appends the last four digits of a number.
pub(crate) fn put_four(out: &mut Vec<u8>, number: u64) -> Result<(), AllocError>
    ensures { OnOk result (out.new.items ≡ out.old.items ++ four_digits number) }
{
    put_two(out, number / 100)?;
    put_two(out, number)
}

/// The last six digits of a number.
pub(crate) fn six_digits(number: u64) -> [u8; 6]
    ensures { result ≡ six_digits number }
{
    [
        digit(number / 10000 / 10),
        digit(number / 10000),
        digit(number / 100 / 10),
        digit(number / 100),
        digit(number / 10),
        digit(number),
    ]
}

/// The last nine digits of a number.
pub(crate) fn nine_digits(number: u64) -> [u8; 9]
    ensures { result ≡ nine_digits number }
{
    let high = number / 10000;
    [
        digit(number / 100000000),
        digit(high / 100 / 10),
        digit(high / 100),
        digit(high / 10),
        digit(high),
        digit(number / 100 / 10),
        digit(number / 100),
        digit(number / 10),
        digit(number),
    ]
}

/// Whether all digits are 0.
pub(crate) fn are_zeros(digits: &[u8]) -> bool
    ensures { result ≡ list_all is_zero digits.now }
{
    digits.iter().all(|digit| *digit == 48)
}

/// The lowest bit of a number.
fn bit(number: u8) -> u8
    ensures { result ≡ bit number }
{
    48 + number % 2
}

/// The bits of a byte, the high one first.
fn byte_digits(byte: u8) -> [u8; 8]
    ensures { result ≡ byte_digits byte }
{
    [
        bit(byte / 128),
        bit(byte / 64),
        bit(byte / 32),
        bit(byte / 16),
        bit(byte / 8),
        bit(byte / 4),
        bit(byte / 2),
        bit(byte),
    ]
}

/// The bits of bytes, the high one of each first.
pub(crate) fn bits_text(alloc: Global, bytes: &[u8]) -> Result<Vec<u8>, AllocError>
    ensures { IfOk result (λ text. text.items ≡ flat_map byte_digits bytes.now) }
{
    let mut text = Vec::with_capacity(alloc, 64)?;
    for byte in bytes {
        text.extend_from_slice(&byte_digits(*byte))?;
    }
    Ok(text)
}
