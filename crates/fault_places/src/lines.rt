//! The lines of an input, and their words.
ghost use Rattle.std.specs.Prelude.{◌≡◌, ℕ, ◌==◌, ◌<◌, ◌≤◌, length, ◌++◌, IfOk, OnOk, map, take, codes, string_bytes, decimal};
ghost use Rattle.std.specs.List.{flat_map, position_or_len, after_first};
ghost use Rattle.fault_places.specs.Lines.{lines_of, first_word, behind_word, word_at, second_word, is_channel, is_previous, is_table, is_transaction, is_change, hex_digit, shown_byte, shorten};

use itoa::Buffer;
use std::alloc::{AllocError, Global};

/// The most bytes of a line that are shown (our own rule).
pub(crate) const MOST_SHOWN: usize = 120;

/// What is between the line feeds of a text, in order: line n, counted from 1, is the n-th.
pub(crate) fn lines_of(alloc: Global, bytes: &[u8]) -> Result<Vec<&[u8]>, AllocError>
    ensures { IfOk result (λ lines. map (λ x. x.now) lines.items ≡ lines_of bytes.now) }
{
    bytes.split(|b| *b == b'\n').collect(alloc)
}

/// The place of the first such byte, or the length.
fn place_of(wanted: u8, text: &[u8]) -> usize
    ensures place { result ≡ position_or_len (λ b. b == wanted) text.now }
    ensures within { result ≤ length text.now }
{
    for (i, byte) in text.iter().enumerate() {
        if *byte == wanted {
            return i;
        }
    }
    text.len()
}

/// What comes after the first such byte.
pub(crate) fn behind(wanted: u8, text: &[u8]) -> &[u8]
    ensures { result.now ≡ after_first (λ b. b == wanted) text.now }
{
    let at = place_of(wanted, text);
    if at < text.len() {
        &text[at + 1..]
    } else {
        &[]
    }
}

/// What comes before the first blank.
pub(crate) fn first_word(line: &[u8]) -> &[u8]
    ensures { result.now ≡ first_word line.now }
{
    &line[..place_of(b' ', line)]
}

/// What comes after the first blank.
pub(crate) fn behind_word(line: &[u8]) -> &[u8]
    ensures { result.now ≡ behind_word line.now }
{
    behind(b' ', line)
}

/// The word after this many others.
pub(crate) fn word_at(line: &[u8], place: usize) -> &[u8]
    ensures { result.now ≡ word_at place line.now }
{
    let mut left = place;
    let mut rest = line;
    while left > 0 {
        rest = behind_word(rest);
        left -= 1;
    }
    first_word(rest)
}

pub(crate) fn second_word(line: &[u8]) -> &[u8]
    ensures { result.now ≡ second_word line.now }
{
    first_word(behind_word(line))
}

pub(crate) fn is_channel(line: &[u8]) -> bool
    ensures { result ≡ is_channel line.now }
{
    line.starts_with(b"channel ")
}

pub(crate) fn is_previous(line: &[u8]) -> bool
    ensures { result ≡ is_previous line.now }
{
    line.starts_with(b"previous ")
}

pub(crate) fn is_table(line: &[u8]) -> bool
    ensures { result ≡ is_table line.now }
{
    line.starts_with(b"table ")
}

pub(crate) fn is_transaction(line: &[u8]) -> bool
    ensures { result ≡ is_transaction line.now }
{
    line.starts_with(b"txn ")
}

pub(crate) fn is_change(line: &[u8]) -> bool
    ensures { result ≡ is_change line.now }
{
    line.starts_with(b"ins ") || line.starts_with(b"upd ") || line.starts_with(b"del ")
}

/// Appends a text.
pub fn put(out: &mut Vec<u8>, text: &str) -> Result<(), AllocError>
    ensures { OnOk result (out.new.items ≡ out.old.items ++ text.now) }
{
    out.extend_from_slice(text.as_bytes())
}

/// Appends a number in decimal digits.
pub fn put_number(out: &mut Vec<u8>, number: usize) -> Result<(), AllocError>
    ensures { OnOk result (out.new.items ≡ out.old.items ++ decimal number) }
{
    let mut buffer = Buffer::new();
    put(out, buffer.format(number))
}

/// The hexadecimal digit of a number below 16.
fn hex_digit(number: u8) -> u8
    requires { number < 16 }
    ensures { result ≡ hex_digit number }
{
    if number < 10 {
        48 + number
    } else {
        87 + number
    }
}

fn put_byte(out: &mut Vec<u8>, byte: u8) -> Result<(), AllocError>
    ensures { OnOk result (out.new.items ≡ out.old.items ++ shown_byte byte) }
{
    if 32 <= byte && byte < 127 {
        out.push(byte)?;
        return Ok(());
    }
    let escape = [92, 120, hex_digit(byte / 16), hex_digit(byte % 16)];
    out.extend_from_slice(&escape)
}

/// Appends bytes, those that are no printed characters by their hexadecimal digits.
pub(crate) fn put_bytes(out: &mut Vec<u8>, bytes: &[u8]) -> Result<(), AllocError>
    ensures { OnOk result (out.new.items ≡ out.old.items ++ flat_map shown_byte bytes.now) }
{
    for byte in bytes {
        put_byte(out, *byte)?;
    }
    Ok(())
}

/// Appends the first bytes of a text, at most this many.
pub(crate) fn put_first(out: &mut Vec<u8>, most: usize, text: &[u8]) -> Result<(), AllocError>
    ensures { OnOk result (out.new.items ≡ out.old.items ++ flat_map shown_byte (take most text.now)) }
{
    if text.len() < most {
        put_bytes(out, text)
    } else {
        put_bytes(out, &text[..most])
    }
}

/// Appends the first bytes of a line.
pub fn put_shown(out: &mut Vec<u8>, line: &[u8]) -> Result<(), AllocError>
    ensures { OnOk result (out.new.items ≡ out.old.items ++ shorten line.now) }
{
    put_first(out, MOST_SHOWN, line)
}
