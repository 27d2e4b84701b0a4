//! The GTIDs of events.
ghost use Rattle.std.specs.Prelude.{◌≡◌, ◌+◌, ◌≤◌, length, option_map};
ghost use Rattle.std.specs.Int.{w128, from_be_bytes};
ghost use Rattle.binlog_events.specs.Numbers.{part};
ghost use Rattle.binlog_events.specs.Gtids.{is_number, numbered, gtid_of, behind_number, in_field, source_from, tagged_by, tagged_behind, tagged_fields, tagged_of, tagged_gtid};

use crate::numbers::{low_number, part, varied};
use gtid_text::{Gtid, SourceId};

fn is_number(number: u64) -> bool
    ensures { result ≡ is_number number }
{
    1 <= number && number < 9_223_372_036_854_775_808
}

fn numbered(source: u128, number: u64) -> Option<Gtid>
    ensures { result ≡ numbered source number }
{
    if !is_number(number) {
        return None;
    }
    Some(Gtid {
        source: SourceId::from_bits(source),
        number,
    })
}

/// The number that sixteen bytes are, highest first.
pub(crate) fn sixteen(bytes: &[u8], from: usize) -> u128
    requires { from + 16 ≤ length bytes.now }
    ensures { result ≡ from_be_bytes w128 (part from 16 bytes.now) }
{
    match part(from, 16, bytes).split_first_chunk::<16>() {
        Some((cells, _)) => u128::from_be_bytes(*cells),
        None => 0,
    }
}

/// The GTID of a GTID event, by the body. `None` where the body is not in that form.
#[tactic(auto, unfolding(crate::specs::Gtids::gtid_of))]
pub fn gtid_of(body: &[u8]) -> Option<Gtid>
    ensures { result ≡ gtid_of body.now }
{
    if body.len() < 25 {
        return None;
    }
    numbered(sixteen(body, 1), low_number(part(17, 8, body)))
}

/// What is behind the number of varying length at the front.
#[tactic(auto, unfolding(crate::specs::Gtids::behind_number))]
fn behind_number(bytes: &[u8]) -> Option<&[u8]>
    ensures { option_map (λ t. t.now) result ≡ behind_number bytes.now }
{
    let Some((_, rest)) = varied(bytes) else {
        return None;
    };
    Some(rest)
}

/// What is behind a field's number.
#[tactic(auto, unfolding(crate::specs::Gtids::in_field))]
fn in_field(field: u64, bytes: &[u8]) -> Option<&[u8]>
    ensures { option_map (λ t. t.now) result ≡ in_field field bytes.now }
{
    let Some((number, rest)) = varied(bytes) else {
        return None;
    };
    if number == field { Some(rest) } else { None }
}

/// A UUID of which so many bytes are left, and what is behind it.
#[tactic(auto, unfolding(crate::specs::Gtids::source_from))]
fn source_from(left: u8, source: u128, bytes: &[u8]) -> Option<(u128, &[u8])>
    ensures { option_map (λ p. (p.0, p.1.now)) result ≡ source_from left source bytes.now }
{
    if left == 0 {
        return Some((source, bytes));
    }
    let Some((byte, rest)) = varied(bytes) else {
        return None;
    };
    if byte < 256 {
        let more = source.wrapping_mul(256).wrapping_add(byte as u128);
        source_from(left - 1, more, rest)
    } else {
        None
    }
}

/// A GTID with a tag.
#[derive(Drop)]
pub(crate) struct TaggedGtid<'a> {
    pub(crate) source: SourceId,
    pub(crate) tag: &'a [u8],
    pub(crate) number: u64,
}

/// The GTID whose tag has this length, at the front of bytes.
#[tactic(auto, unfolding(crate::specs::Gtids::tagged_by))]
fn tagged_by(source: u128, doubled: u64, len: u64, rest: &[u8]) -> Option<TaggedGtid<'_>>
    ensures { option_map tagged_gtid result ≡ tagged_by source doubled len rest.now }
{
    if (1 <= len && len <= 32)
        && (len <= rest.len() as u64 && (doubled % 2 == 0 && is_number(doubled / 2)))
    {
        Some(TaggedGtid {
            source: SourceId::from_bits(source),
            tag: &rest[..len as usize],
            number: doubled / 2,
        })
    } else {
        None
    }
}

/// The GTID whose number's field is at the front.
#[tactic(auto, unfolding(crate::specs::Gtids::tagged_behind))]
fn tagged_behind(source: u128, bytes: &[u8]) -> Option<TaggedGtid<'_>>
    ensures { option_map tagged_gtid result ≡ tagged_behind source bytes.now }
{
    let Some(number) = in_field(2, bytes) else {
        return None;
    };
    let Some((doubled, rest)) = varied(number) else {
        return None;
    };
    let Some(tag) = in_field(3, rest) else {
        return None;
    };
    let Some((len, text)) = varied(tag) else {
        return None;
    };
    tagged_by(source, doubled, len, text)
}

/// The GTID whose fields are at the front.
#[tactic(auto, unfolding(crate::specs::Gtids::tagged_fields))]
fn tagged_fields(bytes: &[u8]) -> Option<TaggedGtid<'_>>
    ensures { option_map tagged_gtid result ≡ tagged_fields bytes.now }
{
    let Some(flags) = in_field(0, bytes) else {
        return None;
    };
    let Some(rest) = behind_number(flags) else {
        return None;
    };
    let Some(uuid) = in_field(1, rest) else {
        return None;
    };
    let Some((source, behind)) = source_from(16, 0, uuid) else {
        return None;
    };
    tagged_behind(source, behind)
}

/// The GTID of a GTID_TAGGED event.
#[tactic(auto, unfolding(crate::specs::Gtids::tagged_of))]
pub(crate) fn tagged_of(body: &[u8]) -> Option<TaggedGtid<'_>>
    ensures { option_map tagged_gtid result ≡ tagged_of body.now }
{
    let Some(size) = behind_number(body) else {
        return None;
    };
    let Some(last) = behind_number(size) else {
        return None;
    };
    let Some(fields) = behind_number(last) else {
        return None;
    };
    tagged_fields(fields)
}
