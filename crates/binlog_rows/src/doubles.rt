//! Doubles of JSON, as texts.
ghost use Rattle.std.specs.Prelude.{◌≡◌, ◌≤◌, ◌<◌, ◌*◌, ◌^◌, Some, IfOk, decimal, drop};
ghost use Rattle.binlog_rows.specs.Texts.{Puts};
ghost use Rattle.binlog_rows.specs.Doubles.{nearest, distance, point_text, shortest_text, exponent, mantissa, below_limit, magnitude_text, minus_text, double_text};

use crate::texts::put_text;
use itoa::Buffer;
use std::alloc::AllocError;

/// How many digits are behind the point at most.
const DIGITS: u8 = 22;

/// The whole number that is nearest to a fraction.
fn nearest(number: u128, parts: u128) -> u128
    requires { (0 < parts) × (parts ≤ 2 ^ 100) × (number < 2 ^ 127) }
    ensures { result ≡ nearest number parts }
{
    let whole = number / parts;
    let left = number % parts;
    if 2 * left < parts {
        whole
    } else if parts < 2 * left {
        whole + 1
    } else {
        whole + whole % 2
    }
}

/// How far a fraction is from it.
fn distance(number: u128, parts: u128) -> u128
    requires { (0 < parts) × (parts ≤ 2 ^ 100) }
    ensures is { result ≡ distance number parts }
    ensures small { result ≤ 2 ^ 100 }
{
    let left = number % parts;
    if 2 * left < parts { left } else { parts - left }
}

/// Appends the digits of a number but for the first one.
fn put_behind(out: &mut Vec<u8>, most: u128, number: u128) -> Result<bool, AllocError>
    ensures { IfOk result (λ done. Puts most out.old.items out.new.items done (Some (drop 1 (decimal number)))) }
{
    let mut digits = Buffer::new();
    match digits.format(number).as_bytes() {
        [] => put_text(out, most, b""),
        [_, rest @ ..] => put_text(out, most, rest),
    }
}

/// Appends the decimal that a number of parts is.
fn put_point(out: &mut Vec<u8>, most: u128, unit: u128, number: u128) -> Result<bool, AllocError>
    requires { (0 < unit) × (unit ≤ 10 ^ 22) }
    ensures { IfOk result (λ done. Puts most out.old.items out.new.items done (Some (point_text unit number))) }
{
    let mut whole = Buffer::new();
    if !put_text(out, most, whole.format(number / unit).as_bytes())? {
        return Ok(false);
    }
    if !put_text(out, most, b".")? {
        return Ok(false);
    }
    put_behind(out, most, unit + number % unit)
}

/// So many parts of 1, each of so many.
fn scaled(number: u64, unit: u128) -> u128
    requires { (number < 2 ^ 53) × (unit ≤ 10 ^ 22) }
    ensures is { result ≡ number * unit }
    ensures small { result < 2 ^ 127 }
{
    number as u128 * unit
}

/// Appends the shortest decimal that reads as so many parts.
fn put_shortest(out: &mut Vec<u8>, most: u128, number: u64, parts: u128) -> Result<bool, AllocError>
    requires { (number < 2 ^ 53) × (0 < parts) × (parts ≤ 2 ^ 100) }
    ensures { IfOk result (λ done. Puts most out.old.items out.new.items done (shortest_text 22 10 number parts)) }
{
    let mut unit = 10;
    for i in 0..DIGITS {
        let scaled = scaled(number, unit);
        if 2 * distance(scaled, parts) < unit {
            return put_point(out, most, unit, nearest(scaled, parts));
        }
        unit *= 10;
    }
    Ok(false)
}

/// A power of 2.
fn power(places: u64) -> u128
    requires { places ≤ 100 }
    ensures is { result ≡ 2 ^ places }
    ensures some { 0 < result }
    ensures small { result ≤ 2 ^ 100 }
{
    1u128 << places
}

/// Appends a double that isn't 0, without its sign.
fn put_parts(out: &mut Vec<u8>, most: u128, number: u64, parts: u128) -> Result<bool, AllocError>
    requires { (number < 2 ^ 53) × (0 < parts) × (parts ≤ 2 ^ 100) }
    ensures { IfOk result (λ done. Puts most out.old.items out.new.items done (below_limit number parts)) }
{
    if number as u128 / parts < 1_000_000_000_000_000 {
        put_shortest(out, most, number, parts)
    } else {
        Ok(false)
    }
}

/// Appends a double without its sign.
#[tactic(auto, unfolding(crate::specs::Doubles::magnitude_text))]
fn put_magnitude(out: &mut Vec<u8>, most: u128, bits: u64) -> Result<bool, AllocError>
    ensures { IfOk result (λ done. Puts most out.old.items out.new.items done (magnitude_text bits)) }
{
    let bits = bits % 0x8000_0000_0000_0000;
    if bits == 0 {
        return put_text(out, most, b"0.0");
    }
    let exponent = bits / 0x10_0000_0000_0000;
    if 975 <= exponent && exponent <= 1072 {
        let mantissa = 0x10_0000_0000_0000 + bits % 0x10_0000_0000_0000;
        put_parts(out, most, mantissa, power(1075 - exponent))
    } else {
        Ok(false)
    }
}

/// The sign of a double.
fn minus(bits: u64) -> &'static [u8]
    ensures { result.now ≡ minus_text bits }
{
    if bits < 0x8000_0000_0000_0000 {
        b""
    } else {
        b"-"
    }
}

/// Appends a double, by its bits.
pub(crate) fn put_double(out: &mut Vec<u8>, most: u128, bits: u64) -> Result<bool, AllocError>
    ensures { IfOk result (λ done. Puts most out.old.items out.new.items done (double_text bits)) }
{
    if !put_text(out, most, minus(bits))? {
        return Ok(false);
    }
    put_magnitude(out, most, bits)
}
