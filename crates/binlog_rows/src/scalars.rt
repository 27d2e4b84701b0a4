//! The values of JSON that have no parts, as texts.
ghost use Rattle.std.specs.Prelude.{◌≡◌, ◌≤◌, ◌<◌, ◌+◌, ◌-◌, ◌*◌, ◌^◌, ◌++◌, Some, OnOk, IfOk, decimal, option_map};
ghost use Rattle.std.specs.List.{flat_map};
ghost use Rattle.binlog_rows.specs.Texts.{Puts};
ghost use Rattle.binlog_rows.specs.Scalars.{hex_digit, escaped, string_text, length_at, string_at, literal_text, literal_at, signed_text, unsigned_at, signed_at, double_at, scalar_text};

use crate::digits::{put, put_byte};
use crate::doubles::put_double;
use crate::numbers::{number_of, split};
use crate::texts::put_text;
use itoa::Buffer;
use std::alloc::AllocError;

/// The last digit of a number in base 16.
fn hex_digit(number: u8) -> u8
    ensures { result ≡ hex_digit number }
{
    let digit = number % 16;
    if digit < 10 { 48 + digit } else { 87 + digit }
}

/// Appends a byte as it stands in a string.
#[tactic(auto, unfolding(crate::specs::Scalars::escaped))]
fn put_escaped(out: &mut Vec<u8>, byte: u8) -> Result<(), AllocError>
    ensures { OnOk result (out.new.items ≡ out.old.items ++ escaped byte) }
{
    match byte {
        b'"' | b'\\' => put(out, &[b'\\', byte]),
        8 => put(out, b"\\b"),
        9 => put(out, b"\\t"),
        10 => put(out, b"\\n"),
        12 => put(out, b"\\f"),
        13 => put(out, b"\\r"),
        0..=31 => put(
            out,
            &[
                b'\\',
                b'u',
                b'0',
                b'0',
                hex_digit(byte / 16),
                hex_digit(byte),
            ],
        ),
        _ => put_byte(out, byte),
    }
}

/// Appends bytes as they stand in a string.
fn put_all_escaped(out: &mut Vec<u8>, bytes: &[u8]) -> Result<(), AllocError>
    ensures { OnOk result (out.new.items ≡ out.old.items ++ flat_map escaped bytes.now) }
{
    for byte in bytes {
        put_escaped(out, *byte)?;
    }
    Ok(())
}

/// Appends a string between its quotes.
fn put_quoted(out: &mut Vec<u8>, bytes: &[u8]) -> Result<(), AllocError>
    ensures { OnOk result (out.new.items ≡ out.old.items ++ string_text bytes.now) }
{
    put_byte(out, b'"')?;
    put_all_escaped(out, bytes)?;
    put_byte(out, b'"')
}

/// Appends a string; whether there are no more than so many bytes then.
pub(crate) fn put_string(out: &mut Vec<u8>, most: u128, bytes: &[u8]) -> Result<bool, AllocError>
    ensures { IfOk result (λ done. Puts most out.old.items out.new.items done (Some (string_text bytes.now))) }
{
    put_quoted(out, bytes)?;
    Ok(out.len() as u128 <= most)
}

/// A group of 7 bits, and the groups above it.
fn joined(low: u8, more: u64) -> u64
    requires { (128 ≤ low) × (more < 2 ^ 48) }
    ensures { result ≡ low - 128 + 128 * more }
{
    low as u64 - 128 + 128 * more
}

/// The length at the front, and what is behind it.
#[tactic(auto, unfolding(crate::specs::Scalars::length_at))]
fn length_at(bytes: &[u8]) -> Option<(u64, &[u8])>
    ensures { option_map (λ p. (p.0, p.1.now)) result ≡ length_at 5 bytes.now }
{
    match bytes {
        [a, rest @ ..] if *a < 128 => Some((*a as u64, rest)),
        [a, b, rest @ ..] if *b < 128 => Some((joined(*a, *b as u64), rest)),
        [a, b, c, rest @ ..] if *c < 128 => { Some((joined(*a, joined(*b, *c as u64)), rest)) }
        [a, b, c, d, rest @ ..] if *d < 128 => {
            Some((joined(*a, joined(*b, joined(*c, *d as u64))), rest))
        }
        [a, b, c, d, e, rest @ ..] if *e < 128 => {
            Some((
                joined(*a, joined(*b, joined(*c, joined(*d, *e as u64)))),
                rest,
            ))
        }
        _ => None,
    }
}

/// Appends the string at the front, which is behind its length.
#[tactic(auto, unfolding(crate::specs::Scalars::string_at))]
fn put_string_at(out: &mut Vec<u8>, most: u128, bytes: &[u8]) -> Result<bool, AllocError>
    ensures { IfOk result (λ done. Puts most out.old.items out.new.items done (string_at bytes.now)) }
{
    let Some((len, rest)) = length_at(bytes) else {
        return Ok(false);
    };
    let Some((string, _)) = split(len, rest) else {
        return Ok(false);
    };
    put_string(out, most, string)
}

/// Appends a literal.
fn put_literal(out: &mut Vec<u8>, most: u128, number: u64) -> Result<bool, AllocError>
    ensures { IfOk result (λ done. Puts most out.old.items out.new.items done (literal_text number)) }
{
    match number {
        0 => put_text(out, most, b"null"),
        1 => put_text(out, most, b"true"),
        2 => put_text(out, most, b"false"),
        _ => Ok(false),
    }
}

/// Appends the literal at the front.
fn put_literal_at(out: &mut Vec<u8>, most: u128, bytes: &[u8]) -> Result<bool, AllocError>
    ensures { IfOk result (λ done. Puts most out.old.items out.new.items done (literal_at bytes.now)) }
{
    match number_of(1, bytes) {
        None => Ok(false),
        Some((number, _)) => put_literal(out, most, number),
    }
}

/// Appends the digits of a number.
fn put_decimal(out: &mut Vec<u8>, most: u128, number: u64) -> Result<bool, AllocError>
    ensures { IfOk result (λ done. Puts most out.old.items out.new.items done (Some (decimal number))) }
{
    let mut digits = Buffer::new();
    put_text(out, most, digits.format(number).as_bytes())
}

/// Appends the number of which this is the two's complement, where so many are not below 0.
fn put_signed(out: &mut Vec<u8>, most: u128, half: u64, number: u64) -> Result<bool, AllocError>
    ensures { IfOk result (λ done. Puts most out.old.items out.new.items done (Some (signed_text half number))) }
{
    if number < half {
        return put_decimal(out, most, number);
    }
    if !put_text(out, most, b"-")? {
        return Ok(false);
    }
    put_decimal(out, most, half.saturating_sub(number - half))
}

/// Appends the integer of so many bytes at the front.
fn put_unsigned_at(
    out: &mut Vec<u8>,
    most: u128,
    width: u64,
    bytes: &[u8],
) -> Result<bool, AllocError>
    ensures { IfOk result (λ done. Puts most out.old.items out.new.items done (unsigned_at width bytes.now)) }
{
    match number_of(width, bytes) {
        None => Ok(false),
        Some((number, _)) => put_decimal(out, most, number),
    }
}

/// Appends the integer of so many bytes at the front, which has a sign.
fn put_signed_at(
    out: &mut Vec<u8>,
    most: u128,
    half: u64,
    width: u64,
    bytes: &[u8],
) -> Result<bool, AllocError>
    ensures { IfOk result (λ done. Puts most out.old.items out.new.items done (signed_at half width bytes.now)) }
{
    match number_of(width, bytes) {
        None => Ok(false),
        Some((number, _)) => put_signed(out, most, half, number),
    }
}

/// Appends the double at the front.
fn put_double_at(out: &mut Vec<u8>, most: u128, bytes: &[u8]) -> Result<bool, AllocError>
    ensures { IfOk result (λ done. Puts most out.old.items out.new.items done (double_at bytes.now)) }
{
    match number_of(8, bytes) {
        None => Ok(false),
        Some((bits, _)) => put_double(out, most, bits),
    }
}

/// Appends the value of this type at the front, which has no parts.
#[tactic(auto, unfolding(crate::specs::Scalars::scalar_text))]
pub(crate) fn put_scalar(
    out: &mut Vec<u8>,
    most: u128,
    kind: u64,
    bytes: &[u8],
) -> Result<bool, AllocError>
    ensures { IfOk result (λ done. Puts most out.old.items out.new.items done (scalar_text kind bytes.now)) }
{
    match kind {
        4 => put_literal_at(out, most, bytes),
        5 => put_signed_at(out, most, 0x8000, 2, bytes),
        6 => put_unsigned_at(out, most, 2, bytes),
        7 => put_signed_at(out, most, 0x8000_0000, 4, bytes),
        8 => put_unsigned_at(out, most, 4, bytes),
        9 => put_signed_at(out, most, 0x8000_0000_0000_0000, 8, bytes),
        10 => put_unsigned_at(out, most, 8, bytes),
        11 => put_double_at(out, most, bytes),
        12 => put_string_at(out, most, bytes),
        _ => Ok(false),
    }
}
