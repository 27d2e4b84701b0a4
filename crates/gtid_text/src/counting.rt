//! The sources of set text, counted without memory.
ghost use Rattle.std.specs.Prelude.{◌≡◌, ◌∷◌, ◌==◌, ◌&&◌, [], Some, None, length, option_map, decimal, if◌then◌else◌};
ghost use Rattle.gtid_text.specs.Canonical.{source_text, numbers_text, span_text, next_text};
ghost use Rattle.gtid_text.specs.Reading.{spans_in};
ghost use Rattle.gtid_text.specs.Counting.{is_behind, counts_as, count_read, Strips, FindsNext};

use crate::set_text::turn;
use crate::{SourceId, Span};
use itoa::Buffer;
use uuid::Uuid;

impl Span {
    /// Whether the interval comes after an earlier one, with a number missing between where both are of one source.
    pub fn is_behind(&self, earlier: &Span) -> bool
        ensures { result ≡ is_behind earlier.now self.now }
    {
        earlier.source < self.source
            || (earlier.source == self.source && earlier.hi < self.lo && 1 < self.lo - earlier.hi)
    }
}

/// What follows the text of a source.
#[tactic(auto, unfolding(crate::specs::Canonical::source_text))]
fn strip_source(text: &[u8], id: SourceId) -> Option<&[u8]>
    ensures { Strips text.now (source_text id) (option_map (λ r. r.now) result) }
{
    let mut buffer = Uuid::encode_buffer();
    let source = Uuid::from_u128(id.bits())
        .hyphenated()
        .encode_lower(&mut buffer);
    text.strip_prefix(source.as_bytes())
}

/// What follows a number.
fn strip_number(text: &[u8], number: u64) -> Option<&[u8]>
    ensures { Strips text.now (decimal number) (option_map (λ r. r.now) result) }
{
    let mut buffer = Buffer::new();
    text.strip_prefix(buffer.format(number).as_bytes())
}

/// What follows a byte.
fn strip_byte(text: &[u8], byte: u8) -> Option<&[u8]>
    ensures { Strips text.now (byte ∷ []) (option_map (λ r. r.now) result) }
{
    match text {
        [first, rest @ ..] if *first == byte => Some(rest),
        _ => None,
    }
}

/// What follows the numbers of an interval.
fn strip_numbers(text: &[u8], lo: u64, hi: u64) -> Option<&[u8]>
    ensures { Strips text.now (numbers_text lo hi) (option_map (λ r. r.now) result) }
{
    let after = strip_number(text, lo)?;
    if lo == hi {
        return Some(after);
    }
    let digits = strip_byte(after, b'-')?;
    strip_number(digits, hi)
}

/// What follows the text of an interval, its source, a colon and its numbers.
fn strip_span(text: &[u8], span: Span) -> Option<&[u8]>
    ensures { Strips text.now (span_text span) (option_map (λ r. r.now) result) }
{
    let after = strip_source(text, span.source)?;
    let numbers = strip_byte(after, b':')?;
    strip_numbers(numbers, span.lo, span.hi)
}

/// What follows the text of an interval after one of this source.
fn strip_after(text: &[u8], source: SourceId, span: Span) -> Option<&[u8]>
    ensures { Strips text.now (next_text (Some source) span) (option_map (λ r. r.now) result) }
{
    if source == span.source {
        let numbers = strip_byte(text, b':')?;
        return strip_numbers(numbers, span.lo, span.hi);
    }
    let next = strip_byte(text, b',')?;
    strip_span(next, span)
}

/// 1 if the source of an interval differs from that of the one before it, else 0.
fn counts_as(before: Option<&Span>, span: &Span) -> usize
    ensures { result ≡ counts_as (option_map (λ s. s.now) before.entry) span.now }
{
    match before {
        Some(earlier) if earlier.source == span.source => 0,
        _ => 1,
    }
}

/// What follows the text of an interval that comes after the one before it.
fn follow<'a>(text: &'a [u8], before: Option<&Span>, span: &Span) -> Option<&'a [u8]>
    ensures { FindsNext (option_map (λ s. s.now) before.entry) span.now text.now (option_map (λ r. r.now) result) }
{
    let Some(earlier) = before else {
        return strip_span(text, *span);
    };
    if !span.is_behind(earlier) {
        return None;
    }
    strip_after(text, earlier.source, *span)
}

/// How many sources set text has, if its intervals are in order and merged, and it is their one text; none for any other text. It does not
/// allocate.
pub fn count_sources(text: &[u8]) -> Option<usize>
    ensures { result ≡ count_read text.now (spans_in text.now) }
{
    let mut sources = 0;
    let mut before = None;
    let mut left = text;
    let mut inside = None;
    let mut rest = text;
    'turns: loop {
        let read = match turn(inside, rest) {
            Ok(read) => read,
            Err(_) => return None,
        };
        match read {
            None => return end_count(sources, before.is_some(), left),
            Some((span, next, after)) => {
                if let Some(span) = span {
                    left = follow(left, before.as_ref(), &span)?;
                    sources += counts_as(before.as_ref(), &span);
                    before = Some(span);
                }
                inside = next;
                rest = after;
            }
        }
    }
}

/// The count, if there were intervals and nothing follows them.
fn end_count(sources: usize, are_some: bool, left: &[u8]) -> Option<usize>
    ensures { result ≡ (if are_some && length left.now == 0 then Some sources else None) }
{
    if are_some && left.is_empty() {
        Some(sources)
    } else {
        None
    }
}
