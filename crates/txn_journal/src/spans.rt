//! Spans: parts of sets, as words name them.
ghost use Rattle.std.specs.Prelude.{◌≡◌, ◌++◌, OnOk, option_map};
ghost use Rattle.std.specs.String.{string_bytes};
ghost use Rattle.std.specs.List.{list_all};
ghost use Rattle.std.specs.FinSet as set;
ghost use Rattle.gtid_set.specs.Spans.{set_of};
ghost use Rattle.txn_journal.specs.WrittenSets.{spans_word};
ghost use Rattle.txn_journal.specs.Stream.{Finds};
ghost use Rattle.txn_journal.specs.Assumptions.{has_span, spans_behind};

use crate::fault::{Cause, LineFault};
use gtid_set::GtidSet;
use gtid_text::Span;
use std::alloc::{AllocError, Global};
use std::marker::Model;

/// Spans, each after the one before it.
#[derive(Drop)]
pub struct SpanList {
    items: Vec<Span>,
}

impl Model for SpanList {
    ghost use Rattle.std.specs.Prelude.{List};
    ghost use Rattle.gtid_text.specs.declared.Span.{Span};

    ghost Value = { List Span };

    ghost use Rattle.std.specs.Prelude.{◌≡◌, true};
    ghost use Rattle.gtid_set.specs.Spans.{is_merged};

    ghost view = { λ s. s.items.items };

    ghost invariant = { λ s. is_merged s.items.items ≡ true };
}

impl SpanList {
    /// The spans, in order.
    pub fn as_slice(&self) -> &[Span]
        ensures { result.now ≡ self.now }
    {
        &self.items
    }

    /// Whether a set has all of them.
    pub(crate) fn are_in(&self, whole: &GtidSet) -> bool
        ensures { result ≡ set.is_subset (set_of self.now) whole.now }
    {
        has_spans(whole, &self.items)
    }
}

/// The spans that are the whole rest of a line, one or more.
#[tactic(auto, using(crate::proofs::GtidLaws::word_merged))]
pub(crate) fn spans_in(alloc: Global, rest: Option<&[u8]>) -> Result<SpanList, LineFault>
    ensures { Finds (λ s. s) result (spans_behind (option_map (λ r. r.now) rest.entry)) }
{
    let Some(word) = rest else {
        return Err(LineFault::Wrong(Cause::Body));
    };
    match journal_words::spans_word(alloc, word)? {
        Some(items) if !items.is_empty() => Ok(SpanList { items }),
        _ => Err(LineFault::Wrong(Cause::Body)),
    }
}

/// Appends the word of spans: `-` for none.
pub fn write_spans_word(out: &mut String, spans: &[Span]) -> Result<(), AllocError>
    ensures { OnOk result (string_bytes out.new ≡ string_bytes out.old ++ spans_word spans.now) }
{
    if spans.is_empty() {
        return out.push_str("-");
    }
    journal_words::write_spans(out, spans)
}

/// Whether a set has all of an interval.
fn has_span(whole: &GtidSet, span: &Span) -> bool
    ensures { result ≡ has_span whole.now span.now }
{
    match whole.run_end(span.source, span.lo) {
        Some(last) => span.hi <= last,
        None => span.hi < span.lo,
    }
}

fn has_each(whole: &GtidSet, spans: &[Span]) -> bool
    ensures { result ≡ list_all (has_span whole.now) spans.now }
{
    spans.iter().all(|span| has_span(whole, span))
}

/// Whether a set has all of these spans. It takes as many steps as there are spans, times the binary digits of the number of the set's.
#[tactic(auto, using(crate::proofs::SpansWithin::each_within))]
pub fn has_spans(whole: &GtidSet, spans: &[Span]) -> bool
    ensures { result ≡ set.is_subset (set_of spans.now) whole.now }
{
    has_each(whole, spans)
}
