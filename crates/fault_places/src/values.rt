//! The text on two values that differ.
ghost use Rattle.std.specs.Prelude.{◌≡◌, ◌++◌, ◌*◌, ◌<◌, ◌^◌, OnOk, length, take, drop, nat_eq};
ghost use Rattle.fault_places.specs.Differences.{first_difference, is_long, byte_difference, digits_text, part_text, side_text, whole_text, parts_text, from_text, long_text, values_text};

use crate::lines::{put, put_number};
use std::alloc::{AllocError, Global};

/// The greatest length of a value's word that is printed whole (our own rule).
const MOST_WHOLE: usize = 4096;

/// The number of bytes printed before the first difference (our own rule).
const SHOWN_BEFORE: usize = 32;

/// The number of digits printed of a long value: two for each of 64 bytes (our own rule).
const SHOWN_DIGITS: usize = 128;

/// The labels of the two channels whose journals differ.
#[derive(Drop)]
pub(crate) struct Labels {
    pub(crate) first: Vec<u8>,
    pub(crate) second: Vec<u8>,
}

/// Whether a word is too long to be printed whole.
fn is_long(word: &[u8]) -> bool
    ensures { result ≡ is_long word.now }
{
    word.len() > MOST_WHOLE
}

/// The index of the first byte in which two words differ.
fn first_difference(first: &[u8], second: &[u8]) -> Option<usize>
    ensures { result ≡ first_difference nat_eq 0 first.now second.now }
{
    for (i, byte) in first.iter().enumerate() {
        if i >= second.len() {
            return Some(i);
        }
        if *byte != second[i] {
            return Some(i);
        }
    }
    if first.len() < second.len() {
        Some(first.len())
    } else {
        None
    }
}

/// The index, within the values, of the first byte in which two words differ.
fn byte_difference(first: &[u8], second: &[u8]) -> usize
    ensures place { result ≡ byte_difference first.now second.now }
    ensures small { result < 2 ^ 63 }
{
    let place = first_difference(first, second).unwrap_or(0);
    place.saturating_sub(1) / 2
}

/// The digits of up to 64 bytes, starting at byte `from`.
fn digits_from(digits: &[u8], from: usize) -> &[u8]
    requires { from < 2 ^ 63 }
    ensures { result.now ≡ take 128 (drop (2 * from) digits.now) }
{
    let start = 2 * from;
    if start >= digits.len() {
        return &[];
    }
    let left = &digits[start..];
    if left.len() < SHOWN_DIGITS {
        left
    } else {
        &left[..SHOWN_DIGITS]
    }
}

fn put_word(out: &mut Vec<u8>, word: &[u8]) -> Result<(), AllocError>
    ensures { OnOk result (out.new.items ≡ out.old.items ++ word.now) }
{
    out.extend_from_slice(word)
}

/// Appends the length of a byte string, and `digits`, which start at byte `from`.
fn put_digits(out: &mut Vec<u8>, count: usize, from: usize, digits: &[u8]) -> Result<(), AllocError>
    ensures { OnOk result (out.new.items ≡ out.old.items ++ digits_text count from digits.now) }
{
    put_number(out, count)?;
    put(out, " bytes, from byte ")?;
    put_number(out, from)?;
    put(out, ": x")?;
    put_word(out, digits)
}

/// Appends part of a byte string, or the whole word of null or a number.
fn put_part(out: &mut Vec<u8>, word: &[u8], from: usize) -> Result<(), AllocError>
    requires { from < 2 ^ 63 }
    ensures { OnOk result (out.new.items ≡ out.old.items ++ part_text from word.now) }
{
    match word {
        [b'x', digits @ ..] => put_digits(out, digits.len() / 2, from, digits_from(digits, from)),
        _ => put_word(out, word),
    }
}

/// Appends the line of one channel.
pub(crate) fn put_side(out: &mut Vec<u8>, label: &[u8], shown: &[u8]) -> Result<(), AllocError>
    ensures { OnOk result (out.new.items ≡ out.old.items ++ side_text label.now shown.now) }
{
    put(out, "    ")?;
    out.extend_from_slice(label)?;
    put(out, ": ")?;
    out.extend_from_slice(shown)?;
    put(out, "\n")
}

/// Appends the line of one channel with part of a value.
fn put_part_side(
    alloc: Global,
    out: &mut Vec<u8>,
    label: &[u8],
    word: &[u8],
    from: usize,
) -> Result<(), AllocError>
    requires { from < 2 ^ 63 }
    ensures { OnOk result (out.new.items ≡ out.old.items ++ side_text label.now (part_text from word.now)) }
{
    let mut part = Vec::new(alloc);
    put_part(&mut part, word, from)?;
    put_side(out, label, &part)
}

/// Appends both values whole.
fn put_whole(
    out: &mut Vec<u8>,
    labels: &Labels,
    first: &[u8],
    second: &[u8],
) -> Result<(), AllocError>
    ensures { OnOk result (out.new.items ≡ out.old.items ++ whole_text labels.now.first.items labels.now.second.items first.now second.now) }
{
    put(out, ":\n")?;
    put_side(out, &labels.first, first)?;
    put_side(out, &labels.second, second)
}

/// Appends part of both values.
fn put_parts(
    alloc: Global,
    out: &mut Vec<u8>,
    labels: &Labels,
    from: usize,
    first: &[u8],
    second: &[u8],
) -> Result<(), AllocError>
    requires { from < 2 ^ 63 }
    ensures { OnOk result (out.new.items ≡ out.old.items ++ parts_text from labels.now.first.items labels.now.second.items first.now second.now) }
{
    put_part_side(alloc, out, &labels.first, first, from)?;
    put_part_side(alloc, out, &labels.second, second, from)
}

/// Appends the end of the heading: the first byte that differs.
fn put_byte_difference(out: &mut Vec<u8>, at: usize) -> Result<(), AllocError>
    ensures { OnOk result (out.new.items ≡ out.old.items ++ from_text at) }
{
    put(out, ", from byte ")?;
    put_number(out, at)?;
    put(out, " on:\n")
}

/// Appends the first byte that differs, and up to 64 bytes of both values around it.
fn put_long(
    alloc: Global,
    out: &mut Vec<u8>,
    labels: &Labels,
    at: usize,
    first: &[u8],
    second: &[u8],
) -> Result<(), AllocError>
    requires { at < 2 ^ 63 }
    ensures { OnOk result (out.new.items ≡ out.old.items ++ long_text at labels.now.first.items labels.now.second.items first.now second.now) }
{
    put_byte_difference(out, at)?;
    put_parts(
        alloc,
        out,
        labels,
        at.saturating_sub(SHOWN_BEFORE),
        first,
        second,
    )
}

/// Appends two values that differ, given as words: whole if both are short.
pub(crate) fn put_values(
    alloc: Global,
    out: &mut Vec<u8>,
    labels: &Labels,
    first: &[u8],
    second: &[u8],
) -> Result<(), AllocError>
    ensures { OnOk result (out.new.items ≡ out.old.items ++ values_text labels.now.first.items labels.now.second.items first.now second.now) }
{
    if is_long(first) || is_long(second) {
        let at = byte_difference(first, second);
        put_long(alloc, out, labels, at, first, second)
    } else {
        put_whole(out, labels, first, second)
    }
}
