//! DECIMAL as a text.
ghost use Rattle.std.specs.Prelude.{◌≡◌, ◌++◌, ◌-◌, map, Some, None, OnOk, IfOk, option_map, if◌then◌else◌};
ghost use Rattle.gtid_text.specs.Scan.{skip_while};
ghost use Rattle.row_images.specs.declared.value.Value.TheVariants.{Bytes};
ghost use Rattle.binlog_rows.specs.Digits.{is_zero};
ghost use Rattle.binlog_rows.specs.Decimals.{group_digits, group_at, nines_at, digits_at, is_below, magnitude, or_zero, whole_text, point_text, sign_text, decimal_text, decimal_of, PutsGroup, Puts};

use crate::digits::{are_zeros, bytes_value, nine_digits, put, put_byte};
use crate::images::digits_width;
use crate::numbers::{high_number, split};
use row_images::Value;
use std::alloc::{AllocError, Global};

/// The most bytes of the text of a DECIMAL: a sign, 65 digits, a 0 before the point, and the point.
const MOST_TEXT: usize = 68;

/// Appends a number in so many digits, up to nine, if it has no more.
#[tactic(auto, unfolding(crate::specs::Decimals::group_digits))]
fn put_group_digits(out: &mut Vec<u8>, count: u8, number: u64) -> Result<bool, AllocError>
    ensures { IfOk result (λ found. PutsGroup out.old.items out.new.items found (group_digits count number)) }
{
    let digits = nine_digits(number);
    let spare = 9u8.saturating_sub(count) as usize;
    if number < 1000000000 && are_zeros(&digits[..spare]) {
        put(out, &digits[spare..])?;
        return Ok(true);
    }
    Ok(false)
}

/// Appends the digits at the front, so many, up to nine; what is behind them.
#[tactic(auto, unfolding(crate::specs::Decimals::group_at))]
fn put_group<'a>(
    out: &mut Vec<u8>,
    count: u8,
    bytes: &'a [u8],
) -> Result<Option<&'a [u8]>, AllocError>
    ensures { IfOk result (λ found. Puts out.old.items out.new.items (option_map (λ t. t.now) found) (group_at count bytes.now)) }
{
    let Some((group, rest)) = split(digits_width(count), bytes) else {
        return Ok(None);
    };
    if put_group_digits(out, count, high_number(group))? {
        Ok(Some(rest))
    } else {
        Ok(None)
    }
}

/// Appends so many groups of nine digits; what is behind them.
fn put_nines<'a>(
    out: &mut Vec<u8>,
    count: u8,
    bytes: &'a [u8],
) -> Result<Option<&'a [u8]>, AllocError>
    ensures { IfOk result (λ found. Puts out.old.items out.new.items (option_map (λ t. t.now) found) (nines_at count bytes.now)) }
{
    let mut rest = bytes;
    for i in 0..count {
        let Some(behind) = put_group(out, 9, rest)? else {
            return Ok(None);
        };
        rest = behind;
    }
    Ok(Some(rest))
}

/// Appends so many digits before the point and behind it; what is behind them.
#[tactic(auto, unfolding(crate::specs::Decimals::digits_at))]
fn put_digits<'a>(
    out: &mut Vec<u8>,
    before: u8,
    behind: u8,
    bytes: &'a [u8],
) -> Result<Option<&'a [u8]>, AllocError>
    ensures { IfOk result (λ found. Puts out.old.items out.new.items (option_map (λ t. t.now) found) (digits_at before behind bytes.now)) }
{
    let Some(nines) = put_group(out, before % 9, bytes)? else {
        return Ok(None);
    };
    let Some(rest) = put_nines(out, before / 9 + behind / 9, nines)? else {
        return Ok(None);
    };
    put_group(out, behind % 9, rest)
}

/// Whether a number is below 0.
fn is_below(bytes: &[u8]) -> bool
    ensures { result ≡ is_below bytes.now }
{
    match bytes {
        [] => false,
        [first, ..] => *first < 128,
    }
}

/// Appends bytes turned round.
fn put_turned(out: &mut Vec<u8>, bytes: &[u8]) -> Result<(), AllocError>
    ensures { OnOk result (out.new.items ≡ out.old.items ++ map (λ x. 255 - x) bytes.now) }
{
    for byte in bytes {
        out.push(255 - *byte)?;
    }
    Ok(())
}

/// The bytes of the number without its sign.
fn magnitude(alloc: Global, bytes: &[u8]) -> Result<Vec<u8>, AllocError>
    ensures { IfOk result (λ found. found.items ≡ magnitude bytes.now) }
{
    let mut found = Vec::with_capacity(alloc, bytes.len())?;
    let Some((first, rest)) = bytes.split_first() else {
        return Ok(found);
    };
    if *first < 128 {
        put_byte(&mut found, 127 - *first)?;
        put_turned(&mut found, rest)?;
    } else {
        put_byte(&mut found, *first - 128)?;
        put(&mut found, rest)?;
    }
    Ok(found)
}

fn is_zero(digit: u8) -> bool
    ensures { result ≡ is_zero digit }
{
    digit == 48
}

/// The digits without zeros in front.
fn without_zeros(digits: &[u8]) -> &[u8]
    ensures { result.now ≡ skip_while is_zero digits.now }
{
    for (i, digit) in digits.iter().enumerate() {
        if !is_zero(*digit) {
            return &digits[i..];
        }
    }
    &digits[digits.len()..]
}

/// Appends the digits before the point.
fn put_whole(out: &mut Vec<u8>, digits: &[u8]) -> Result<(), AllocError>
    ensures { OnOk result (out.new.items ≡ out.old.items ++ whole_text digits.now) }
{
    match without_zeros(digits) {
        [] => put_byte(out, 48),
        whole => put(out, whole),
    }
}

/// Appends a point and the digits behind it, if there are any.
fn put_point(out: &mut Vec<u8>, digits: &[u8]) -> Result<(), AllocError>
    ensures { OnOk result (out.new.items ≡ out.old.items ++ point_text digits.now) }
{
    if digits.is_empty() {
        return Ok(());
    }
    put_byte(out, b'.')?;
    put(out, digits)
}

/// Appends a minus for a number below 0.
fn put_sign(out: &mut Vec<u8>, below: bool) -> Result<(), AllocError>
    ensures { OnOk result (out.new.items ≡ out.old.items ++ sign_text below) }
{
    if below { put_byte(out, b'-') } else { Ok(()) }
}

/// The value of these digits, of which so many are before the point.
#[tactic(auto, unfolding(crate::specs::Decimals::decimal_text))]
fn digits_value(
    alloc: Global,
    below: bool,
    before: u8,
    digits: &[u8],
) -> Result<Option<Value>, AllocError>
    ensures { IfOk result (λ value. value ≡ option_map Bytes (decimal_text below before digits.now)) }
{
    if below && are_zeros(digits) {
        return Ok(None);
    }
    let before = digits.len().min(before as usize);
    let mut text = Vec::with_capacity(alloc, MOST_TEXT)?;
    put_sign(&mut text, below)?;
    put_whole(&mut text, &digits[..before])?;
    put_point(&mut text, &digits[before..])?;
    Ok(Some(bytes_value(text)?))
}

/// The value of a DECIMAL of so many digits, and so many of these behind the point.
#[tactic(auto, unfolding(crate::specs::Decimals::decimal_of))]
pub(crate) fn decimal_value(
    alloc: Global,
    precision: u8,
    scale: u8,
    bytes: &[u8],
) -> Result<Option<Value>, AllocError>
    ensures { IfOk result (λ value. value ≡ option_map Bytes (decimal_of precision scale bytes.now)) }
{
    let before = precision.saturating_sub(scale);
    let magnitude = magnitude(alloc, bytes)?;
    let mut digits = Vec::with_capacity(alloc, MOST_TEXT)?;
    let Some(_rest) = put_digits(&mut digits, before, scale, &magnitude)? else {
        return Ok(None);
    };
    digits_value(alloc, is_below(bytes), before, &digits)
}
