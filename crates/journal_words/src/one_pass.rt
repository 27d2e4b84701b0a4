//! Sets as words, read in one pass.
//!
//! Most words are read so. The pass gives up at a number above 9,223,372,036,854,775,799, if out of memory, if the set is full, and at
//! anything that is no set: then `gtids` reads the word in several passes, with the exact fault.
ghost use Rattle.std.specs.Prelude.{◌≡◌, ◌<◌, ◌^◌, IsTrue, IfSome, Some, None, List, ℕ};
ghost use Rattle.gtid_text.specs.Written.{IsUsableSpan};
ghost use Rattle.journal_words.specs.Gtids.{set_of_word};
ghost use Rattle.journal_words.specs.WordPrefix.{IsNumberAt, AreNumbersAt, IsSpanAt, Promises};

use crate::gtids::source_word;
use gtid_set::GtidSet;
use gtid_text::{SourceId, Span};
use std::alloc::Global;

/// The bytes of a source's text.
const SOURCE_BYTES: usize = 36;

/// Any digit may follow the digits of a number up to this one.
const MOST_BEFORE_DIGIT: u64 = 922_337_203_685_477_579;

/// The number at the start of a text, and what follows it.
#[inline(always)]
fn read_number(text: &[u8]) -> Option<(u64, &[u8])>
    ensures { IfSome result (λ r. IsNumberAt text.now r.0 r.1.now) }
{
    let Some((first, more)) = text.split_first() else {
        return None;
    };
    if *first < b'1' || *first > b'9' {
        return None;
    }
    let mut number = u64::from(*first - b'0');
    let mut rest = more;
    while let Some((digit, after)) = rest.split_first() {
        if !digit.is_ascii_digit() {
            return Some((number, rest));
        }
        if number > MOST_BEFORE_DIGIT {
            return None;
        }
        number = number * 10 + u64::from(*digit - b'0');
        rest = after;
    }
    Some((number, rest))
}

/// The numbers of an interval at the start of a text, and what follows them.
#[inline(always)]
fn read_numbers(text: &[u8]) -> Option<(u64, u64, &[u8])>
    ensures { IfSome result (λ r. AreNumbersAt text.now r.0 r.1 r.2.now) }
{
    let Some((lo, rest)) = read_number(text) else {
        return None;
    };
    let [b'-', digits @ ..] = rest else {
        return Some((lo, lo, rest));
    };
    let Some((hi, after)) = read_number(digits) else {
        return None;
    };
    if hi <= lo {
        return None;
    }
    Some((lo, hi, after))
}

/// A law, which does nothing: a source has 128 bits.
fn source_fits(source: SourceId)
    ensures { source < 2 ^ 128 }
{
    let _bits = source.bits();
}

/// The interval at the start of a text, with its source, and what follows it.
#[cold]
#[inline(never)]
fn read_first(alloc: Global, text: &[u8]) -> Option<(Span, &[u8])>
    ensures { IfSome result (λ r. IsSpanAt None text.now r.0 r.1.now) }
{
    if text.len() < SOURCE_BYTES {
        return None;
    }
    let (front, behind) = text.split_at(SOURCE_BYTES);
    let Ok(Some(source)) = source_word(alloc, front) else {
        return None;
    };
    let [b':', numbers @ ..] = behind else {
        return None;
    };
    let Some((lo, hi, rest)) = read_numbers(numbers) else {
        return None;
    };
    source_fits(source);
    Some((Span { source, lo, hi }, rest))
}

/// The interval of a greater source at the start of a text, and what follows it.
fn read_other<'a>(alloc: Global, last: &Span, text: &'a [u8]) -> Option<(Span, &'a [u8])>
    ensures { IfSome result (λ r. IsSpanAt (Some last.now) text.now r.0 r.1.now) }
{
    let [b',', other @ ..] = text else {
        return None;
    };
    let Some((span, rest)) = read_first(alloc, other) else {
        return None;
    };
    if !(last.source < span.source) {
        return None;
    }
    Some((span, rest))
}

/// The interval at the start of a text that comes after another one, and what follows it.
#[inline(always)]
fn read_next<'a>(alloc: Global, last: &Span, text: &'a [u8]) -> Option<(Span, &'a [u8])>
    requires { IsUsableSpan last.now }
    ensures { IfSome result (λ r. IsSpanAt (Some last.now) text.now r.0 r.1.now) }
{
    let [b':', numbers @ ..] = text else {
        return read_other(alloc, last, text);
    };
    let Some((lo, hi, rest)) = read_numbers(numbers) else {
        return None;
    };
    if lo <= last.hi || lo - last.hi == 1 {
        return None;
    }
    let source = last.source;
    Some((Span { source, lo, hi }, rest))
}

/// Adds an interval and those in the text after it; returns whether that was all. Else some of them may be in the set.
fn add_all(alloc: Global, set: &mut GtidSet, first: Span, text: &[u8]) -> bool
    requires { IsUsableSpan first }
    ensures { IsTrue result → (word : List ℕ) → Promises word set.old first text.now → set_of_word word ≡ Some set.new }
{
    let mut last = first;
    let mut rest = text;
    'spans: while !rest.is_empty() {
        let Some((span, after)) = read_next(alloc, &last, rest) else {
            return false;
        };
        let Ok(()) = set.add_span(last) else {
            return false;
        };
        last = span;
        rest = after;
    }
    let Ok(()) = set.add_span(last) else {
        return false;
    };
    true
}

/// The set that a word parses as, if one pass is enough to tell.
pub fn set_in_one_pass(alloc: Global, word: &[u8]) -> Option<GtidSet>
    ensures { IfSome result (λ s. set_of_word word.now ≡ Some s) }
{
    let Some((first, rest)) = read_first(alloc, word) else {
        return None;
    };
    let mut set = GtidSet::empty(alloc);
    if add_all(alloc, &mut set, first, rest) {
        return Some(set);
    }
    None
}
