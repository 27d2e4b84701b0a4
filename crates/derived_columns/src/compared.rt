//! What a server compares of a column's bytes in a key.
ghost use Rattle.std.specs.Prelude.{◌≡◌, ◌==◌, ◌-◌, ◌≤◌, length, take, IfOk};
ghost use Rattle.std.specs.List.{suffix_len};
ghost use Rattle.std.specs.Option.{option_map};
ghost use Rattle.collation_weights.specs.Weights.{weights};
ghost use Rattle.derived_columns.specs.Compared.{compared_bytes, first_weights, fixed_weights, without_end, float_bytes};

use crate::column::KeyComparison;
use collation_weights::{first_characters, weigh};
use collations::Collation;
use row_images::ByteString;
use std::alloc::{AllocError, Global};

/// What a text weighs.
fn weights(
    alloc: Global,
    collation: Collation,
    text: &[u8],
) -> Result<Option<ByteString>, AllocError>
    ensures { IfOk result (λ found. found ≡ weights collation text.now) }
{
    match weigh(alloc, collation, text)? {
        Some(weights) => Ok(Some(ByteString::new(weights)?)),
        None => Ok(None),
    }
}

/// What the first characters of a text weigh.
fn first_weights(
    alloc: Global,
    collation: Collation,
    count: u32,
    text: &[u8],
) -> Result<Option<ByteString>, AllocError>
    ensures { IfOk result (λ found. found ≡ first_weights collation count text.now) }
{
    match first_characters(collation, count, text) {
        Some(characters) => weights(alloc, collation, characters),
        None => Ok(None),
    }
}

/// How many bytes are left without those at the end that are this one.
fn kept_len(bytes: &[u8], byte: u8) -> usize
    ensures kept { result ≡ length bytes.now - suffix_len (λ b. b == byte) bytes.now }
    ensures bound { result ≤ length bytes.now }
{
    let mut len = bytes.len();
    while len > 0 && bytes[len - 1] == byte {
        len -= 1;
    }
    len
}

/// Bytes without those at the end that are this one.
fn without_end(bytes: &[u8], byte: u8) -> &[u8]
    ensures { result.now ≡ without_end byte bytes.now }
{
    &bytes[..kept_len(bytes, byte)]
}

/// What the first characters of a CHAR weigh.
fn fixed_weights(
    alloc: Global,
    collation: Collation,
    count: u32,
    text: &[u8],
) -> Result<Option<ByteString>, AllocError>
    ensures { IfOk result (λ found. found ≡ fixed_weights collation count text.now) }
{
    match first_characters(collation, count, text) {
        Some(characters) => weights(alloc, collation, without_end(characters, b' ')),
        None => Ok(None),
    }
}

/// The first bytes, so many or all of them.
fn first_bytes(bytes: &[u8], count: u32) -> &[u8]
    ensures { result.now ≡ take count bytes.now }
{
    &bytes[..bytes.len().min(count as usize)]
}

/// The bytes of a number of FLOAT or DOUBLE; those of -0 are those of 0.
fn float_bytes(bytes: &[u8]) -> Option<&[u8]>
    ensures { option_map (λ b. b.now) result ≡ float_bytes bytes.now }
{
    if bytes == b"\x80\0\0\0".as_slice() {
        Some(b"\0\0\0\0")
    } else if bytes == b"\x80\0\0\0\0\0\0\0".as_slice() {
        Some(b"\0\0\0\0\0\0\0\0")
    } else if bytes.len() == 4 || bytes.len() == 8 {
        Some(bytes)
    } else {
        None
    }
}

/// A copy of bytes, if there are any.
fn copied(alloc: Global, bytes: Option<&[u8]>) -> Result<Option<ByteString>, AllocError>
    ensures { IfOk result (λ found. found ≡ option_map (λ b. b.now) bytes.entry) }
{
    match bytes {
        Some(bytes) => Ok(Some(ByteString::from_slice(alloc, bytes)?)),
        None => Ok(None),
    }
}

/// What is compared of the bytes of a value, if they are bytes of such a column.
#[tactic(auto, unfolding(crate::specs::Compared::compared_bytes))]
pub(crate) fn compared_bytes(
    alloc: Global,
    comparison: KeyComparison,
    bytes: &[u8],
) -> Result<Option<ByteString>, AllocError>
    ensures { IfOk result (λ found. found ≡ compared_bytes comparison bytes.now) }
{
    match comparison {
        KeyComparison::Text(collation) => weights(alloc, collation, bytes),
        KeyComparison::FirstCharacters(collation, count) => {
            first_weights(alloc, collation, count, bytes)
        }
        KeyComparison::FirstBytes(count) => copied(alloc, Some(first_bytes(bytes, count))),
        KeyComparison::FixedCharacters(collation, count) => {
            fixed_weights(alloc, collation, count, bytes)
        }
        KeyComparison::FixedBytes(count) => {
            copied(alloc, Some(without_end(first_bytes(bytes, count), 0)))
        }
        KeyComparison::Float => copied(alloc, float_bytes(bytes)),
    }
}
