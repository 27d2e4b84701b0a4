//! The text of a JSON document.
ghost use Rattle.std.specs.Prelude.{◌≡◌, Some, IfOk, drop, option_map};
ghost use Rattle.row_images.specs.declared.value.Value.TheVariants.{Bytes};
ghost use Rattle.binlog_rows.specs.Texts.{Puts};
ghost use Rattle.binlog_rows.specs.Json.{offset_width, key_width, value_width, keys_place, values_place, head_width, members_at, members_view, part_at, key_at, key_text, name_text, is_short, value_at, comma, member_text, all_members_text, opening, closing, container_text, value_text, json_text};

use crate::digits::{bytes_value, copied_value};
use crate::numbers::{behind, number_of, split};
use crate::scalars::{put_scalar, put_string};
use crate::texts::put_text;
use row_images::Value;
use std::alloc::{AllocError, Global};

/// How many levels of objects and arrays a server has.
const LEVELS: u8 = 100;

/// How many times the bytes of a document its text has at most.
const TIMES: u128 = 6;

/// The members of an object or an array: its type, their number, and its bytes from the number on.
pub(crate) struct MembersBytes<'a> {
    kind: u64,
    count: u64,
    whole: &'a [u8],
}

impl<'a> Drop for MembersBytes<'a> {
    // (by hand: for a caller the end of MembersBytes is one call)
    fn drop(self) {
        let MembersBytes {
            kind: _kind,
            count: _count,
            whole: _whole,
        } = self;
    }
}

/// How many bytes a count, a size and an offset take.
fn offset_width(kind: u64) -> u64
    ensures { result ≡ offset_width kind }
{
    if kind % 2 == 0 { 2 } else { 4 }
}

/// How many bytes the entry of a key takes.
fn key_width(kind: u64) -> u64
    ensures { result ≡ key_width kind }
{
    if kind < 2 { offset_width(kind) + 2 } else { 0 }
}

/// How many bytes the entry of a value takes.
fn value_width(kind: u64) -> u64
    ensures { result ≡ value_width kind }
{
    offset_width(kind) + 1
}

/// Where the entries of keys begin.
fn keys_place(kind: u64) -> u128
    ensures { result ≡ keys_place kind }
{
    2 * offset_width(kind) as u128
}

/// Where the entries of values begin.
fn values_place(kind: u64, count: u64) -> u128
    ensures { result ≡ values_place kind count }
{
    match kind {
        0 => 4 + count as u128 * 4,
        1 => 8 + count as u128 * 6,
        _ => keys_place(kind),
    }
}

/// Where the entries of values end.
fn head_width(kind: u64, count: u64) -> u128
    ensures { result ≡ head_width kind count }
{
    if kind % 2 == 0 {
        values_place(kind, count) + count as u128 * 3
    } else {
        values_place(kind, count) + count as u128 * 5
    }
}

/// The members of the object or array of this type at the front.
#[tactic(auto, unfolding(crate::specs::Json::members_at))]
fn members_at(kind: u64, bytes: &[u8]) -> Option<MembersBytes<'_>>
    ensures { option_map members_view result ≡ members_at kind bytes.now }
{
    let Some((count, rest)) = number_of(offset_width(kind), bytes) else {
        return None;
    };
    let Some((size, _)) = number_of(offset_width(kind), rest) else {
        return None;
    };
    let Some((whole, _)) = split(size, bytes) else {
        return None;
    };
    if (whole.len() as u128) < head_width(kind, count) {
        return None;
    }
    Some(MembersBytes { kind, count, whole })
}

/// What lies at an offset.
#[tactic(auto, unfolding(crate::specs::Json::part_at))]
fn part_at<'a>(members: &MembersBytes<'a>, offset: u64) -> Option<&'a [u8]>
    ensures { option_map (λ t. t.now) result ≡ part_at (members_view members.now) offset }
{
    if (offset as u128) < head_width(members.kind, members.count) {
        return None;
    }
    behind(offset, members.whole)
}

/// The bytes of a key by its entry.
#[tactic(auto, unfolding(crate::specs::Json::key_at))]
fn key_at<'a>(members: &MembersBytes<'a>, entry: &[u8]) -> Option<&'a [u8]>
    ensures { option_map (λ t. t.now) result ≡ key_at (members_view members.now) entry.now }
{
    let Some((offset, rest)) = number_of(offset_width(members.kind), entry) else {
        return None;
    };
    let Some((len, _)) = number_of(2, rest) else {
        return None;
    };
    let Some(part) = part_at(members, offset) else {
        return None;
    };
    let Some((key, _)) = split(len, part) else {
        return None;
    };
    Some(key)
}

/// Appends a key and a colon.
#[tactic(auto, using(crate::proofs::TextWalks::puts_stop, crate::proofs::TextWalks::puts_on))]
fn put_key(out: &mut Vec<u8>, most: u128, key: &[u8]) -> Result<bool, AllocError>
    ensures { IfOk result (λ done. Puts most out.old.items out.new.items done (key_text key.now)) }
{
    if !put_string(out, most, key)? {
        return Ok(false);
    }
    put_text(out, most, b": ")
}

/// Appends what is before the value of a member.
fn put_name(
    out: &mut Vec<u8>,
    most: u128,
    members: &MembersBytes<'_>,
    entry: &[u8],
) -> Result<bool, AllocError>
    ensures { IfOk result (λ done. Puts most out.old.items out.new.items done (name_text (members_view members.now) entry.now)) }
{
    if 2 <= members.kind {
        return put_text(out, most, b"");
    }
    match key_at(members, entry) {
        None => Ok(false),
        Some(key) => put_key(out, most, key),
    }
}

/// Whether a value of this type stands in its entry.
fn is_short(kind: u64, value: u64) -> bool
    ensures { result ≡ is_short kind value }
{
    match value {
        4 | 5 | 6 => true,
        7 | 8 => kind % 2 == 1,
        _ => false,
    }
}

/// A value by its entry: its type, and the bytes that it begins.
#[tactic(auto, unfolding(crate::specs::Json::value_at))]
fn value_at<'a>(members: &MembersBytes<'a>, entry: &'a [u8]) -> Option<(u64, &'a [u8])>
    ensures { option_map (λ p. (p.0, p.1.now)) result ≡ value_at (members_view members.now) entry.now }
{
    let Some((kind, rest)) = number_of(1, entry) else {
        return None;
    };
    if is_short(members.kind, kind) {
        return Some((kind, rest));
    }
    let Some((offset, _)) = number_of(offset_width(members.kind), rest) else {
        return None;
    };
    let Some(part) = part_at(members, offset) else {
        return None;
    };
    Some((kind, part))
}

/// What is between a member and so many that follow it.
fn comma(left: u64) -> &'static [u8]
    ensures { result.now ≡ comma left }
{
    if left == 0 { b"" } else { b", " }
}

/// What is before the members.
fn opening(kind: u64) -> &'static [u8]
    ensures { result.now ≡ opening kind }
{
    if kind < 2 { b"{" } else { b"[" }
}

/// What is behind the members.
fn closing(kind: u64) -> &'static [u8]
    ensures { result.now ≡ closing kind }
{
    if kind < 2 { b"}" } else { b"]" }
}

/// What is behind so many bytes, if there are so many.
fn tail(bytes: &[u8], place: u128) -> &[u8]
    ensures { result.now ≡ drop place bytes.now }
{
    if place < bytes.len() as u128 {
        &bytes[place as usize..]
    } else {
        &bytes[bytes.len()..]
    }
}

/// Appends a member by its entries, which so many follow.
#[cycle(json)]
fn put_member(
    out: &mut Vec<u8>,
    most: u128,
    levels: u8,
    members: &MembersBytes<'_>,
    left: u64,
    key: &[u8],
    value: &[u8],
) -> Result<bool, AllocError>
    ensures { IfOk result (λ done. Puts most out.old.items out.new.items done (member_text (value_text levels) (members_view members.now) left key.now value.now)) }
{
    if !put_name(out, most, members, key)? {
        return Ok(false);
    }
    let Some((kind, bytes)) = value_at(members, value) else {
        return Ok(false);
    };
    if !put_value(out, most, levels, kind, bytes)? {
        return Ok(false);
    }
    put_text(out, most, comma(left))
}

/// Appends all members.
#[cycle(json)]
fn put_members(
    out: &mut Vec<u8>,
    most: u128,
    levels: u8,
    members: &MembersBytes<'_>,
) -> Result<bool, AllocError>
    ensures { IfOk result (λ done. Puts most out.old.items out.new.items done (all_members_text (value_text levels) (members_view members.now))) }
{
    let mut keys = tail(members.whole, keys_place(members.kind));
    let mut values = tail(members.whole, values_place(members.kind, members.count));
    for i in 0..members.count {
        let Some((key, more_keys)) = split(key_width(members.kind), keys) else {
            return Ok(false);
        };
        let Some((value, more_values)) = split(value_width(members.kind), values) else {
            return Ok(false);
        };
        let left = members.count - 1 - i;
        if !put_member(out, most, levels, members, left, key, value)? {
            return Ok(false);
        }
        keys = more_keys;
        values = more_values;
    }
    put_text(out, most, b"")
}

/// Appends an object or an array.
#[cycle(json)]
fn put_container(
    out: &mut Vec<u8>,
    most: u128,
    levels: u8,
    members: &MembersBytes<'_>,
) -> Result<bool, AllocError>
    ensures { IfOk result (λ done. Puts most out.old.items out.new.items done (container_text (value_text levels) (members_view members.now))) }
{
    if !put_text(out, most, opening(members.kind))? {
        return Ok(false);
    }
    if !put_members(out, most, levels, members)? {
        return Ok(false);
    }
    put_text(out, most, closing(members.kind))
}

/// Appends the value of this type at the front, with objects and arrays up to so many levels deep.
#[cycle(json)]
fn put_value(
    out: &mut Vec<u8>,
    most: u128,
    levels: u8,
    kind: u64,
    bytes: &[u8],
) -> Result<bool, AllocError>
    ensures { IfOk result (λ done. Puts most out.old.items out.new.items done (value_text levels kind bytes.now)) }
{
    if levels == 0 || 4 <= kind {
        return put_scalar(out, most, kind, bytes);
    }
    match members_at(kind, bytes) {
        None => Ok(false),
        Some(members) => put_container(out, most, levels - 1, &members),
    }
}

/// The value of a JSON column: the text of the document.
#[tactic(auto, unfolding(crate::specs::Json::json_text))]
pub(crate) fn json_value(alloc: Global, bytes: &[u8]) -> Result<Option<Value>, AllocError>
    ensures { IfOk result (λ value. value ≡ option_map Bytes (json_text bytes.now)) }
{
    let mut text = Vec::new(alloc);
    let Some((kind, rest)) = bytes.split_first() else {
        return Ok(Some(copied_value(alloc, b"null")?));
    };
    let most = bytes.len() as u128 * TIMES;
    if put_value(&mut text, most, LEVELS, *kind as u64, rest)? {
        Ok(Some(bytes_value(text)?))
    } else {
        Ok(None)
    }
}
