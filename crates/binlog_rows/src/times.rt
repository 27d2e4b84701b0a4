//! Dates and times as texts.
ghost use Rattle.std.specs.Prelude.{◌≡◌, ◌≤◌, ◌<◌, ◌++◌, ◌^◌, ◌-◌, OnOk, IfOk, Some, None, decimal, option_map, if◌then◌else◌};
ghost use Rattle.row_images.specs.declared.value.Value.TheVariants.{Bytes};
ghost use Rattle.binlog_rows.specs.Times.{microseconds, fraction_text, fraction_unit, date_text, is_clock, hours_text, clock_text, is_date, date_of, time_text, time_by, time_of, is_datetime, datetime_text, datetime_by, datetime_of, timestamp_of};

use crate::digits::{bytes_value, digit, put, put_byte, put_four, put_two, six_digits};
use crate::numbers::{high_number, low_number, split};
use itoa::Buffer;
use row_images::Value;
use std::alloc::{AllocError, Global};

/// The most bytes of such a text.
const MOST_TEXT: usize = 32;

/// The millionths of a fraction of so many digits.
#[tactic(auto, unfolding(crate::specs::Times::microseconds))]
fn microseconds(digits: u8, number: u64) -> Option<u64>
    ensures { result ≡ microseconds digits number }
{
    if digits % 2 == 1 && 0 < number % 10 {
        return None;
    }
    match digits {
        0..=2 if number < 100 => Some(number * 10000),
        3..=4 if number < 10000 => Some(number * 100),
        5.. if number < 1000000 => Some(number),
        _ => None,
    }
}

/// Appends a point and so many digits of millionths, if there are any.
fn put_fraction(out: &mut Vec<u8>, digits: u8, millionths: u64) -> Result<(), AllocError>
    ensures { OnOk result (out.new.items ≡ out.old.items ++ fraction_text digits millionths) }
{
    if digits == 0 {
        return Ok(());
    }
    let six = six_digits(millionths);
    put_byte(out, b'.')?;
    if digits < 6 {
        put(out, &six[..digits as usize])
    } else {
        put(out, &six)
    }
}

/// One more than the greatest number in the bytes of a fraction.
fn fraction_unit(digits: u8) -> u64
    ensures unit { result ≡ fraction_unit digits }
    ensures low { 1 ≤ result }
    ensures high { result ≤ 16777216 }
{
    match digits {
        0 => 1,
        1..=2 => 256,
        3..=4 => 65536,
        _ => 16777216,
    }
}

/// Appends a year, a month and a day.
fn put_date(out: &mut Vec<u8>, mark: u8, year: u64, month: u64, day: u64) -> Result<(), AllocError>
    ensures { OnOk result (out.new.items ≡ out.old.items ++ date_text mark year month day) }
{
    put_four(out, year)?;
    put_byte(out, mark)?;
    put_two(out, month)?;
    put_byte(out, mark)?;
    put_two(out, day)
}

/// Whether such a number is a clock's.
fn is_clock(most: u64, number: u64) -> bool
    ensures { result ≡ is_clock most number }
{
    number / 4096 <= most && (number / 64 % 64 < 60 && number % 64 < 60)
}

/// Appends two digits of hours at least.
fn put_hours(out: &mut Vec<u8>, hours: u64) -> Result<(), AllocError>
    ensures { OnOk result (out.new.items ≡ out.old.items ++ hours_text hours) }
{
    if hours < 100 {
        return put_two(out, hours);
    }
    put_byte(out, digit(hours / 100))?;
    put_two(out, hours)
}

/// Appends hours, minutes and seconds.
fn put_clock(out: &mut Vec<u8>, number: u64) -> Result<(), AllocError>
    ensures { OnOk result (out.new.items ≡ out.old.items ++ clock_text number) }
{
    put_hours(out, number / 4096)?;
    put_byte(out, b':')?;
    put_two(out, number / 64 % 64)?;
    put_byte(out, b':')?;
    put_two(out, number % 64)
}

fn is_date(number: u64) -> bool
    ensures { result ≡ is_date number }
{
    number / 512 <= 9999 && number / 32 % 16 <= 12
}

/// The value of a DATE.
pub(crate) fn date_value(alloc: Global, bytes: &[u8]) -> Result<Option<Value>, AllocError>
    ensures { IfOk result (λ value. value ≡ option_map Bytes (date_of bytes.now)) }
{
    let number = low_number(bytes);
    if !is_date(number) {
        return Ok(None);
    }
    let mut text = Vec::with_capacity(alloc, MOST_TEXT)?;
    put_date(&mut text, b':', number / 512, number / 32 % 16, number % 32)?;
    Ok(Some(bytes_value(text)?))
}

/// Appends the text of a TIME that is not below 0.
fn put_time(out: &mut Vec<u8>, digits: u8, number: u64, millionths: u64) -> Result<(), AllocError>
    ensures { OnOk result (out.new.items ≡ out.old.items ++ time_text digits number millionths) }
{
    put_clock(out, number / fraction_unit(digits))?;
    put_fraction(out, digits, millionths)
}

/// The millionths of a TIME, if none of its parts is more than it can be.
fn time_millionths(digits: u8, number: u64) -> Option<u64>
    ensures { option_map (time_text digits number) result ≡ time_by digits number }
{
    let unit = fraction_unit(digits);
    let Some(millionths) = microseconds(digits, number % unit) else {
        return None;
    };
    if is_clock(838, number / unit) {
        Some(millionths)
    } else {
        None
    }
}

/// The value of a TIME with this sign.
fn signed_time(
    alloc: Global,
    sign: &[u8],
    digits: u8,
    number: u64,
) -> Result<Option<Value>, AllocError>
    ensures { IfOk result (λ value. value ≡ option_map (λ text. Bytes (sign.now ++ text)) (time_by digits number)) }
{
    let Some(millionths) = time_millionths(digits, number) else {
        return Ok(None);
    };
    let mut text = Vec::with_capacity(alloc, MOST_TEXT)?;
    put(&mut text, sign)?;
    put_time(&mut text, digits, number, millionths)?;
    Ok(Some(bytes_value(text)?))
}

/// The value of a TIME with so many digits of a second's fraction.
#[tactic(auto, unfolding(crate::specs::Times::time_of))]
pub(crate) fn time_value(
    alloc: Global,
    digits: u8,
    bytes: &[u8],
) -> Result<Option<Value>, AllocError>
    ensures { IfOk result (λ value. value ≡ option_map Bytes (time_of digits bytes.now)) }
{
    let number = high_number(bytes);
    let zero = 8388608 * fraction_unit(digits);
    if number < zero {
        signed_time(alloc, b"-", digits, zero - number)
    } else {
        signed_time(alloc, b"", digits, number - zero)
    }
}

fn is_datetime(number: u64) -> bool
    ensures { result ≡ is_datetime number }
{
    number / 4194304 / 13 <= 9999 && is_clock(23, number % 131072)
}

/// Appends the text of a DATETIME.
fn put_datetime(
    out: &mut Vec<u8>,
    digits: u8,
    number: u64,
    millionths: u64,
) -> Result<(), AllocError>
    ensures { OnOk result (out.new.items ≡ out.old.items ++ datetime_text digits number millionths) }
{
    let months = number / 4194304;
    put_date(out, b'-', months / 13, months % 13, number / 131072 % 32)?;
    put_byte(out, b' ')?;
    put_clock(out, number % 131072)?;
    put_fraction(out, digits, millionths)
}

/// The value of a DATETIME of this number and fraction.
fn datetime_by(
    alloc: Global,
    digits: u8,
    number: u64,
    fraction: Option<u64>,
) -> Result<Option<Value>, AllocError>
    ensures { IfOk result (λ value. value ≡ option_map Bytes (datetime_by digits number fraction)) }
{
    let Some(millionths) = fraction else {
        return Ok(None);
    };
    if !is_datetime(number) {
        return Ok(None);
    }
    let mut text = Vec::with_capacity(alloc, MOST_TEXT)?;
    put_datetime(&mut text, digits, number, millionths)?;
    Ok(Some(bytes_value(text)?))
}

/// The value of a DATETIME with so many digits of a second's fraction.
#[tactic(auto, unfolding(crate::specs::Times::datetime_of))]
pub(crate) fn datetime_value(
    alloc: Global,
    digits: u8,
    bytes: &[u8],
) -> Result<Option<Value>, AllocError>
    ensures { IfOk result (λ value. value ≡ option_map Bytes (datetime_of digits bytes.now)) }
{
    let Some((front, rest)) = split(5, bytes) else {
        return Ok(None);
    };
    let number = high_number(front);
    if number < 0x80_0000_0000 {
        return Ok(None);
    }
    let fraction = microseconds(digits, high_number(rest));
    datetime_by(alloc, digits, number - 0x80_0000_0000, fraction)
}

/// Appends a number in decimal digits.
fn put_number(out: &mut Vec<u8>, number: u64) -> Result<(), AllocError>
    ensures { OnOk result (out.new.items ≡ out.old.items ++ decimal number) }
{
    let mut buffer = Buffer::new();
    put(out, buffer.format(number).as_bytes())
}

/// The value of a TIMESTAMP with so many digits of a second's fraction, one at least.
#[tactic(auto, unfolding(crate::specs::Times::timestamp_of))]
pub(crate) fn timestamp_value(
    alloc: Global,
    digits: u8,
    bytes: &[u8],
) -> Result<Option<Value>, AllocError>
    ensures { IfOk result (λ value. value ≡ option_map Bytes (timestamp_of digits bytes.now)) }
{
    let Some((front, rest)) = split(4, bytes) else {
        return Ok(None);
    };
    let Some(millionths) = microseconds(digits, high_number(rest)) else {
        return Ok(None);
    };
    let mut text = Vec::with_capacity(alloc, MOST_TEXT)?;
    put_number(&mut text, high_number(front))?;
    put_fraction(&mut text, digits, millionths)?;
    Ok(Some(bytes_value(text)?))
}
