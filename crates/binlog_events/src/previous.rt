//! The set of PREVIOUS_GTIDS.
ghost use Rattle.std.specs.Prelude.{◌≡◌, ◌*◌, ◌≤◌, ◌++◌, length, OnOk, IfOk, IfSome, option_map};
ghost use Rattle.binlog_events.specs.Previous.{interval_at, intervals_at, counted_item, item_behind, tag_at, item_at, items_at, is_behind, comes_before, may_follow, lead_of, interval_text, tag_text, previous_text, previous_said, item_of, behind_others, put_whole, intervals_text, led_text, rest_text};

use crate::gtids::sixteen;
use crate::numbers::{low_number, part, rest_of, varied};
use crate::text::{put, put_escaped, put_number, put_source};
use gtid_text::SourceId;
use std::alloc::{AllocError, Global};

/// Numbers of transactions of one UUID with one tag.
#[derive(Clone, Copy, Drop)]
struct SetInterval {
    start: u64,
    /// The number behind the last one.
    end: u64,
}

/// A UUID with a tag, and the bytes of its intervals.
#[derive(Clone, Copy, Drop)]
struct SetItem<'a> {
    source: u128,
    /// Empty where there is none.
    tag: &'a [u8],
    /// How many intervals there are, each of 16 bytes.
    count: usize,
    /// The intervals, and what is behind them.
    intervals: &'a [u8],
}

/// The interval at the front of bytes.
fn interval_at(bytes: &[u8]) -> SetInterval
    requires { 16 ≤ length bytes.now }
    ensures { result ≡ interval_at bytes.now }
{
    SetInterval {
        start: low_number(part(0, 8, bytes)),
        end: low_number(part(8, 8, bytes)),
    }
}

/// The item whose intervals are so many, and what is behind it.
#[tactic(auto, unfolding(crate::specs::Previous::counted_item))]
fn counted_item<'a>(
    source: u128,
    tag: &'a [u8],
    count: u64,
    bytes: &'a [u8],
) -> Option<(SetItem<'a>, &'a [u8])>
    ensures item { option_map (λ p. (item_of p.0, p.1.now)) result ≡ counted_item source tag.now count bytes.now }
    ensures fits { IfSome result (λ p. 16 * p.0.count ≤ length p.0.intervals.now) }
{
    if ((bytes.len() / 16) as u64) < count {
        return None;
    }
    let item = SetItem {
        source,
        tag,
        count: count as usize,
        intervals: bytes,
    };
    Some((item, rest_of(bytes, 16 * count as usize)))
}

/// The item whose count of intervals is at the front of bytes.
#[tactic(auto, unfolding(crate::specs::Previous::item_behind))]
fn item_behind<'a>(source: u128, tag: &'a [u8], bytes: &'a [u8]) -> Option<(SetItem<'a>, &'a [u8])>
    ensures item { option_map (λ p. (item_of p.0, p.1.now)) result ≡ item_behind source tag.now bytes.now }
    ensures fits { IfSome result (λ p. 16 * p.0.count ≤ length p.0.intervals.now) }
{
    if bytes.len() < 8 {
        return None;
    }
    counted_item(
        source,
        tag,
        low_number(part(0, 8, bytes)),
        rest_of(bytes, 8),
    )
}

/// The tag at the front of bytes, where there are tags.
#[tactic(auto, unfolding(crate::specs::Previous::tag_at))]
fn tag_at(is_tagged: bool, bytes: &[u8]) -> Option<(&[u8], &[u8])>
    ensures { option_map (λ p. (p.0.now, p.1.now)) result ≡ tag_at is_tagged bytes.now }
{
    if !is_tagged {
        return Some((&bytes[..0], bytes));
    }
    let Some((len, rest)) = varied(bytes) else {
        return None;
    };
    if len <= 32 && len <= rest.len() as u64 {
        Some((part(0, len as usize, rest), rest_of(rest, len as usize)))
    } else {
        None
    }
}

/// The item at the front of bytes, and what is behind it.
#[tactic(auto, unfolding(crate::specs::Previous::item_at))]
fn item_at(is_tagged: bool, bytes: &[u8]) -> Option<(SetItem<'_>, &[u8])>
    ensures item { option_map (λ p. (item_of p.0, p.1.now)) result ≡ item_at is_tagged bytes.now }
    ensures fits { IfSome result (λ p. 16 * p.0.count ≤ length p.0.intervals.now) }
{
    if bytes.len() < 16 {
        return None;
    }
    let Some((tag, rest)) = tag_at(is_tagged, rest_of(bytes, 16)) else {
        return None;
    };
    item_behind(sixteen(bytes, 0), tag, rest)
}

fn is_behind(last: u64, interval: SetInterval) -> bool
    ensures { result ≡ is_behind last interval }
{
    last < interval.start
        && (interval.start < interval.end && interval.end < 9_223_372_036_854_775_808)
}

/// Whether an item comes before another, by the UUID, then by the tag.
fn comes_before(item: &SetItem<'_>, other: &SetItem<'_>) -> bool
    ensures { result ≡ comes_before (item_of item.now) (item_of other.now) }
{
    item.source < other.source || (item.source == other.source && item.tag.cmp(other.tag).is_lt())
}

fn may_follow(last: &Option<SetItem<'_>>, item: &SetItem<'_>) -> bool
    ensures { result ≡ may_follow (option_map item_of last.now) (item_of item.now) }
{
    match last {
        None => true,
        Some(last) => comes_before(last, item),
    }
}

/// Appends an interval behind a colon.
fn put_interval(out: &mut Vec<u8>, interval: SetInterval) -> Result<(), AllocError>
    requires { 1 ≤ interval.end }
    ensures { OnOk result (out.new.items ≡ out.old.items ++ interval_text interval) }
{
    let last = interval.end - 1;
    put(out, ":")?;
    put_number(out, interval.start)?;
    if interval.start == last {
        return Ok(());
    }
    put(out, "-")?;
    put_number(out, last)
}

/// Appends intervals, if they ascend and are apart.
fn put_intervals(out: &mut Vec<u8>, count: usize, bytes: &[u8]) -> Result<bool, AllocError>
    requires { 16 * count ≤ length bytes.now }
    ensures { IfOk result (λ whole.
        behind_others out.old.items (intervals_text 0 (intervals_at count bytes.now)) ≡ put_whole whole out.new.items) }
{
    let mut rest = bytes;
    let mut last = 0u64;
    let mut left = count;
    while left > 0 {
        let interval = interval_at(rest);
        if !is_behind(last, interval) {
            return Ok(false);
        }
        put_interval(out, interval)?;
        last = interval.end;
        rest = rest_of(rest, 16);
        left -= 1;
    }
    Ok(true)
}

/// Appends a tag behind a colon, if there is one.
fn put_tag(out: &mut Vec<u8>, tag: &[u8]) -> Result<(), AllocError>
    ensures { OnOk result (out.new.items ≡ out.old.items ++ tag_text tag.now) }
{
    if tag.is_empty() {
        return Ok(());
    }
    put(out, ":")?;
    put_escaped(out, tag)
}

/// The byte before an item: a blank before the first, a comma before each other.
fn lead_of(last: &Option<SetItem<'_>>) -> u8
    ensures { result ≡ lead_of (option_map item_of last.now) }
{
    match last {
        None => 32,
        Some(_) => 44,
    }
}

/// Appends an item behind the last one, if both may be in a set, one behind the other.
fn put_item(
    alloc: Global,
    out: &mut Vec<u8>,
    last: &Option<SetItem<'_>>,
    item: &SetItem<'_>,
) -> Result<bool, AllocError>
    requires { 16 * item.now.count ≤ length item.now.intervals.now }
    ensures { IfOk result (λ whole.
        behind_others out.old.items (led_text (option_map item_of last.now) (item_of item.now)) ≡ put_whole whole out.new.items) }
{
    if item.count == 0 {
        return Ok(false);
    }
    if !may_follow(last, item) {
        return Ok(false);
    }
    out.push(lead_of(last))?;
    put_source(alloc, out, SourceId::from_bits(item.source))?;
    put_tag(out, item.tag)?;
    put_intervals(out, item.count, item.intervals)
}

/// Appends so many items, if they are a set and nothing is behind them.
fn put_items(
    alloc: Global,
    out: &mut Vec<u8>,
    is_tagged: bool,
    count: u64,
    bytes: &[u8],
) -> Result<bool, AllocError>
    ensures { IfOk result (λ whole.
        behind_others out.old.items (rest_text None (items_at is_tagged count bytes.now)) ≡ put_whole whole out.new.items) }
{
    let mut rest = bytes;
    let mut last = None;
    let mut left = count;
    while left > 0 {
        let Some((item, behind)) = item_at(is_tagged, rest) else {
            return Ok(false);
        };
        if !put_item(alloc, out, &last, &item)? {
            return Ok(false);
        }
        rest = behind;
        last = Some(item);
        left -= 1;
    }
    Ok(rest.is_empty())
}

/// The text of so many items, if they are a set and nothing is behind them.
fn items_text(
    alloc: Global,
    is_tagged: bool,
    count: u64,
    bytes: &[u8],
) -> Result<Option<Vec<u8>>, AllocError>
    ensures { IfOk result (λ text. option_map (λ t. t.items) text ≡ rest_text None (items_at is_tagged count bytes.now)) }
{
    let mut text = Vec::new(alloc);
    if put_items(alloc, &mut text, is_tagged, count, bytes)? {
        Ok(Some(text))
    } else {
        Ok(None)
    }
}

/// The text of the set that the body of PREVIOUS_GTIDS has, with a blank before it; nothing is the empty set. `None` where the body is not in
/// that form.
#[tactic(auto, unfolding(crate::specs::Previous::items_of))]
pub fn previous_text(alloc: Global, body: &[u8]) -> Result<Option<Vec<u8>>, AllocError>
    ensures { IfOk result (λ text. option_map (λ t. t.items) text ≡ previous_text body.now) }
{
    if body.len() < 8 {
        return Ok(None);
    }
    if body[0] == 1 && body[7] == 1 {
        return items_text(alloc, true, low_number(part(1, 6, body)), rest_of(body, 8));
    }
    items_text(alloc, false, low_number(part(0, 8, body)), rest_of(body, 8))
}

/// Appends what PREVIOUS_GTIDS says.
pub(crate) fn put_previous(alloc: Global, out: &mut Vec<u8>, body: &[u8]) -> Result<(), AllocError>
    ensures { OnOk result (out.new.items ≡ out.old.items ++ previous_said (previous_text body.now)) }
{
    match previous_text(alloc, body)? {
        None => put(out, " malformed"),
        Some(text) => {
            if text.is_empty() {
                return put(out, " -");
            }
            out.extend_from_slice(&text)
        }
    }
}
