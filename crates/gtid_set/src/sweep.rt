//! One pass over merged lists of spans.
ghost use Rattle.std.specs.Prelude.{if◌then◌else◌, ◌≡◌, true, ◌&&◌, ◌||◌, not, IfSome, ◌+◌, ◌-◌, length, ◌++◌, [], ◌<◌};
ghost use Rattle.std.specs.FinSet as set;
ghost use Rattle.gtid_set.specs.Sweep.{TakesFirst, sources_in, is_new, is_sorted, start_of, is_from};

use crate::cursor::Cursor;
use gtid_text::{SourceId, Span};
use std::alloc::{AllocError, Global};

/// Whether a span starts no later than another.
#[inline(always)]
pub fn starts_by(span: &Span, next: &Span) -> bool
    ensures { result ≡ is_from (start_of span.now) (start_of next.now) }
{
    span.source < next.source || span.source == next.source && span.lo <= next.lo
}

/// Takes the span that starts first from two lists.
#[inline(always)]
pub fn take_first(left: &mut Cursor<'_>, right: &mut Cursor<'_>) -> Option<Span>
    requires left { is_sorted left.old ≡ true }
    requires right { is_sorted right.old ≡ true }
    ensures none { result ≡ None → (left.old ≡ []) × (right.old ≡ []) }
    ensures some { IfSome result (λ first. TakesFirst left.old right.old first left.new right.new) }
{
    let Some(span) = left.peek() else {
        let first = right.peek();
        right.advance();
        return first;
    };
    let Some(other) = right.peek() else {
        left.advance();
        return Some(span);
    };
    if starts_by(&span, &other) {
        left.advance();
        return Some(span);
    }
    right.advance();
    Some(other)
}

/// Whether a source is not the one before.
#[inline(always)]
fn is_new(last: Option<SourceId>, source: SourceId) -> bool
    ensures { result ≡ is_new last source }
{
    match last {
        None => true,
        Some(id) => id != source,
    }
}

/// A count of sources with one that is not the one before.
#[inline(always)]
fn with_new(count: u64, last: Option<SourceId>, source: SourceId) -> u64
    requires { count < 18446744073709551615 }
    ensures { result ≡ (if is_new last source then count + 1 else count) }
{
    if is_new(last, source) {
        count + 1
    } else {
        count
    }
}

/// How many sources the spans of two lists have together.
pub fn count_sources(left: Cursor<'_>, right: Cursor<'_>) -> u64
    requires left { is_sorted left ≡ true }
    requires right { is_sorted right ≡ true }
    requires small { length left + length right < 18446744073709551616 }
    ensures { result ≡ set.len (sources_in (left.entry ++ right.entry)) }
{
    let mut count = 0;
    let mut last = None;
    let mut left = left;
    let mut right = right;
    while let Some(span) = take_first(&mut left, &mut right) {
        count = with_new(count, last, span.source);
        last = Some(span.source);
    }
    count
}

/// How many sources spans have.
pub fn count_sources_of(spans: &[Span]) -> u64
    requires { is_sorted spans.now ≡ true }
    ensures { result ≡ set.len (sources_in spans.now) }
{
    let mut count = 0;
    let mut last = None;
    let mut rest = spans;
    while let Some((span, more)) = rest.split_first() {
        count = with_new(count, last, span.source);
        last = Some(span.source);
        rest = more;
    }
    count
}
