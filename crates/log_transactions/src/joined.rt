//! Sets joined to a set, interval by interval.
ghost use Rattle.std.specs.Prelude.{◌≡◌, true, OnOk, IfOk, IfErr};
ghost use Rattle.std.specs.FinSet as set;
ghost use Rattle.std.specs.List.{list_all};
ghost use Rattle.gtid_set.specs.Full.{IsFaultOf};
ghost use Rattle.gtid_set.specs.Sets.{interval};
ghost use Rattle.gtid_set.specs.Spans.{set_of};

use gtid_set::{GtidSet, SetFault};
use gtid_text::Span;
use std::alloc::{AllocError, Global};

/// Adds intervals to a set, up to the first that is refused. The result is whether none was.
fn add_all(whole: &mut GtidSet, spans: &[Span]) -> bool
    ensures all { result ≡ true → whole.new ≡ set.union whole.old (set_of spans.now) }
    ensures part { set.union whole.new (set_of spans.now) ≡ set.union whole.old (set_of spans.now) }
{
    for span in spans {
        let Ok(()) = whole.add_span(*span) else {
            return false;
        };
    }
    true
}

/// Joins a set to another, interval by interval: it takes as many steps as the other has intervals, times the binary digits of the number
/// of those that are there. After an error part of it has joined.
pub fn join(alloc: Global, whole: &mut GtidSet, more: &GtidSet) -> Result<(), SetFault>
    ensures ok { OnOk result (whole.new ≡ set.union whole.old more.now) }
    ensures fault { IfErr result (λ fault. IsFaultOf fault (set.union whole.old more.now)) }
    ensures part { set.union whole.new more.now ≡ set.union whole.old more.now }
{
    let spans = more.spans(alloc)?;
    if add_all(whole, &spans) {
        return Ok(());
    }
    // (if an interval is refused on the way, the whole may still have room)
    *whole = whole.union(alloc, more)?;
    Ok(())
}

/// Whether a set has all of an interval.
fn has_span(whole: &GtidSet, span: &Span) -> bool
    ensures { result ≡ set.is_subset (interval span.now.source span.now.lo span.now.hi) whole.now }
{
    match whole.run_end(span.source, span.lo) {
        Some(last) => span.hi <= last,
        None => span.hi < span.lo,
    }
}

fn has_each(whole: &GtidSet, spans: &[Span]) -> bool
    ensures { result ≡ list_all (λ s. set.is_subset (interval s.source s.lo s.hi) whole.now) spans.now }
{
    spans.iter().all(|span| has_span(whole, span))
}

/// Whether a set has all of these intervals.
fn has_spans(whole: &GtidSet, spans: &[Span]) -> bool
    ensures { result ≡ set.is_subset (set_of spans.now) whole.now }
{
    has_each(whole, spans)
}

/// Whether a set has all of another, interval by interval: as many steps as to join it.
pub fn has_all(alloc: Global, whole: &GtidSet, more: &GtidSet) -> Result<bool, AllocError>
    ensures { IfOk result (λ has. has ≡ set.is_subset more.now whole.now) }
{
    let spans = more.spans(alloc)?;
    Ok(has_spans(whole, &spans))
}
