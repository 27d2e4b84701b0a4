//! Strings between quotes.
ghost use Rattle.std.specs.Prelude.{◌≡◌, ◌+◌, ◌≤◌, ℕ, List, Some, IfOk, IfSome, option_map};
ghost use Rattle.binlog_text.specs.Quoted.{quote, unescape, hex_value, byte_of_digits, low_of, plainly, next, read_quoted, unquote, HighFits};
ghost use Rattle.binlog_text.specs.declared.quoted.Mode.TheVariants as modes;

use std::alloc::{AllocError, Global};

/// How much of a string has come.
#[derive(Clone, Copy, Debug, PartialEq, Eq)]
enum Mode {
    /// The next byte denotes itself, begins an escape, or is the quote at the end.
    Plain,
    /// A backslash has come.
    Escape,
    /// `\x` has come.
    High,
    /// `\x` and its first digit have come: sixteen times the digit.
    Low(u8),
    /// The quote at the end has come.
    Closed,
}

/// The byte that a backslash and a letter denote.
fn unescape(letter: u8) -> Option<u8>
    ensures { result ≡ unescape letter }
{
    match letter {
        b'b' => Some(8),
        b't' => Some(9),
        b'n' => Some(10),
        b'f' => Some(12),
        b'r' => Some(13),
        b'\'' => Some(39),
        b'\\' => Some(92),
        _ => None,
    }
}

fn hex_value(digit: u8) -> Option<u8>
    ensures value { result ≡ hex_value digit }
    ensures small { IfSome result (λ d. d ≤ 15) }
{
    match digit {
        b'0'..=b'9' => Some(digit - b'0'),
        b'a'..=b'f' => Some(digit - 87),
        _ => None,
    }
}

/// The byte of two digits, unless it is one that has a letter.
fn byte_of_digits(high: u8, digit: u8) -> Option<u8>
    requires { high ≤ 16 }
    ensures { result ≡ low_of high (hex_value digit) }
{
    let Some(low) = hex_value(digit) else {
        return None;
    };
    match high + low {
        8 | 9 | 10 | 12 | 13 => None,
        byte => Some(byte),
    }
}

fn plainly(byte: Option<u8>) -> Option<(Mode, Option<u8>)>
    ensures { result ≡ plainly byte }
{
    match byte {
        Some(byte) => Some((Mode::Plain, Some(byte))),
        None => None,
    }
}

impl Mode {
    /// What has come after one more byte, and the byte of the string that is whole with it.
    fn next(self, byte: u8) -> Option<(Mode, Option<u8>)>
        requires { HighFits self }
        ensures next { result ≡ next self byte }
        ensures fits { IfSome result (λ t. HighFits t.0) }
    {
        match self {
            Mode::Plain => match byte {
                b'\\' => Some((Mode::Escape, None)),
                b'\'' => Some((Mode::Closed, None)),
                0..=31 => None,
                _ => Some((Mode::Plain, Some(byte))),
            },
            Mode::Escape => match byte {
                b'x' => Some((Mode::High, None)),
                _ => plainly(unescape(byte)),
            },
            Mode::High => match byte {
                b'0' => Some((Mode::Low(0), None)),
                b'1' => Some((Mode::Low(16), None)),
                _ => None,
            },
            Mode::Low(high) => plainly(byte_of_digits(high, byte)),
            Mode::Closed => None,
        }
    }
}

/// The bytes after the quote at the start.
fn read_quoted(alloc: Global, text: &[u8]) -> Result<Option<Vec<u8>>, AllocError>
    ensures { IfOk result (λ found. option_map (λ v. v.items) found ≡ read_quoted modes.Plain text.now) }
{
    let mut bytes = Vec::new(alloc);
    let mut mode = Mode::Plain;
    for byte in text {
        let Some((after, whole)) = mode.next(*byte) else {
            return Ok(None);
        };
        if let Some(whole) = whole {
            bytes.push(whole)?;
        }
        mode = after;
    }
    if mode == Mode::Closed {
        Ok(Some(bytes))
    } else {
        Ok(None)
    }
}

fn quoted_at(alloc: Global, text: &[u8]) -> Result<Option<Vec<u8>>, AllocError>
    ensures { IfOk result (λ found. option_map (λ v. v.items) found ≡ unquote text.now) }
{
    match text {
        [b'\'', rest @ ..] => read_quoted(alloc, rest),
        _ => Ok(None),
    }
}

/// The bytes that a string shows between quotes, by mysqlbinlog's escapes. Each string of bytes is shown in one way.
pub fn unquote(alloc: Global, text: &[u8]) -> Result<Option<Vec<u8>>, AllocError>
    ensures exact { IfOk result (λ found. option_map (λ v. v.items) found ≡ unquote text.now) }
    ensures found { IfOk result (λ found. IfSome found (λ v. text.now ≡ quote v.items)) }
    ensures only { IfOk result (λ found. (bytes : List ℕ) → text.now ≡ quote bytes → option_map (λ v. v.items) found ≡ Some bytes) }
{
    quoted_at(alloc, text)
}
