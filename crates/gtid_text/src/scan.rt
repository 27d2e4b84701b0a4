ghost use Rattle.std.specs.Prelude.{◌≡◌, ◌+◌, ◌-◌, ◌*◌, true};
ghost use Rattle.std.specs.Char.{is_ascii_digit};
ghost use Rattle.std.specs.List.{list_all};
ghost use Rattle.std.specs.Str.Parse.{digits_value};
ghost use Rattle.gtid_text.specs.Scan.{is_blank, is_uuid_byte, run, skip_while, number_of, small, source_of, source_at, number_at, colon_at, end_at, Sees};

use crate::SourceId;
use uuid::Uuid;

/// The greatest number of a transaction.
pub const MAX_NUMBER: u64 = 9223372036854775807;

/// What is wrong with a text.
#[derive(Clone, Copy, Debug, PartialEq, Eq)]
pub enum Kind {
    BadUuid,
    NoInterval,
    BadNumber,
    NumberRange,
    Reversed,
    Stray,
}

/// What is wrong, and how many bytes are left there.
#[derive(Clone, Copy, Debug, PartialEq, Eq)]
pub struct ScanFault {
    pub kind: Kind,
    pub left: usize,
}

fn is_blank(byte: u8) -> bool
    ensures { result ≡ is_blank byte }
{
    byte == b' ' || byte == b'\t' || byte == b'\r' || byte == b'\n'
}

fn is_uuid_byte(byte: u8) -> bool
    ensures { result ≡ is_uuid_byte byte }
{
    byte.is_ascii_hexdigit() || byte == b'-'
}

/// What follows the blanks at the start.
pub fn skip(rest: &[u8]) -> &[u8]
    ensures { result.now ≡ skip_while is_blank rest.now }
{
    for (i, b) in rest.iter().enumerate() {
        if !is_blank(*b) {
            return &rest[i..];
        }
    }
    &rest[rest.len()..]
}

fn uuid_run(rest: &[u8]) -> (&[u8], &[u8])
    ensures run { result.0.now ≡ run is_uuid_byte rest.now }
    ensures past { result.1.now ≡ skip_while is_uuid_byte rest.now }
{
    for (i, b) in rest.iter().enumerate() {
        if !is_uuid_byte(*b) {
            return rest.split_at(i);
        }
    }
    rest.split_at(rest.len())
}

fn digit_run(rest: &[u8]) -> (&[u8], &[u8])
    ensures run { result.0.now ≡ run is_ascii_digit rest.now }
    ensures past { result.1.now ≡ skip_while is_ascii_digit rest.now }
{
    for (i, b) in rest.iter().enumerate() {
        if !b.is_ascii_digit() {
            return rest.split_at(i);
        }
    }
    rest.split_at(rest.len())
}

/// The source that a hyphenated UUID names.
fn source_id(text: &[u8]) -> Option<SourceId>
    ensures { result ≡ source_of text.now }
{
    if text.len() != 36 {
        return None;
    }
    match Uuid::try_parse_ascii(text) {
        Ok(id) => Some(SourceId::from_bits(id.as_u128())),
        Err(_) => None,
    }
}

/// The UUID at the start, and what follows it.
pub fn source(rest: &[u8]) -> Result<(SourceId, &[u8]), ScanFault>
    ensures { Sees (λ x. (x.0, x.1.now)) result (source_at rest.now) }
{
    let (run, after) = uuid_run(rest);
    match source_id(run) {
        Some(id) => Ok((id, after)),
        None => Err(ScanFault {
            kind: Kind::BadUuid,
            left: rest.len(),
        }),
    }
}

/// A number with one more digit, if that is below 2 ^ 64.
fn with_digit(number: u64, digit: u8) -> Option<u64>
    requires { is_ascii_digit digit ≡ true }
    ensures { result ≡ small (number * 10 + (digit - 48)) }
{
    number.checked_mul(10)?.checked_add(u64::from(digit - b'0'))
}

/// A number of this many decimal digits is below 2^64, whichever they are.
const SAFE_DIGITS: usize = 19;

/// The number that digits parse as, if it is below 2 ^ 64.
fn parse_digits(digits: &[u8]) -> Option<u64>
    requires { list_all is_ascii_digit digits.now ≡ true }
    ensures { result ≡ small (digits_value 10 digits.now) }
{
    if digits.len() <= SAFE_DIGITS {
        let mut number: u64 = 0;
        'few: for digit in digits {
            number = number * 10 + u64::from(*digit - b'0');
        }
        return Some(number);
    }
    let mut number = 0;
    'digits: for digit in digits {
        let Some(more) = with_digit(number, *digit) else {
            return None;
        };
        number = more;
    }
    Some(number)
}

/// The number that digits parse as, if a transaction may have it.
fn value(digits: &[u8]) -> Option<u64>
    requires { list_all is_ascii_digit digits.now ≡ true }
    ensures { result ≡ number_of digits.now }
{
    match parse_digits(digits) {
        Some(number) if number >= 1 && number <= MAX_NUMBER => Some(number),
        _ => None,
    }
}

/// The number of a transaction at the start, and what follows it.
pub fn number(rest: &[u8]) -> Result<(u64, &[u8]), ScanFault>
    ensures { Sees (λ x. (x.0, x.1.now)) result (number_at rest.now) }
{
    let (digits, after) = digit_run(rest);
    if digits.is_empty() {
        return Err(ScanFault {
            kind: Kind::BadNumber,
            left: rest.len(),
        });
    }
    match value(digits) {
        Some(number) => Ok((number, after)),
        None => Err(ScanFault {
            kind: Kind::NumberRange,
            left: rest.len(),
        }),
    }
}

pub fn colon(rest: &[u8]) -> Result<&[u8], ScanFault>
    ensures { Sees (λ x. x.now) result (colon_at rest.now) }
{
    match rest {
        [b':', after @ ..] => Ok(after),
        _ => Err(ScanFault {
            kind: Kind::NoInterval,
            left: rest.len(),
        }),
    }
}

pub fn end(rest: &[u8]) -> Result<(), ScanFault>
    ensures { Sees (λ x. x) result (end_at rest.now) }
{
    if !rest.is_empty() {
        return Err(ScanFault {
            kind: Kind::Stray,
            left: rest.len(),
        });
    }
    Ok(())
}
