//! The text of a list of spans.
ghost use Rattle.std.specs.Prelude.{◌≡◌, true, IfOk, string_bytes};
ghost use Rattle.std.specs.List.Sorted.{IsPermutation};
ghost use Rattle.gtid_text.specs.Canonical.{spans_text};
ghost use Rattle.gtid_set.specs.Sweep.{is_sorted, start_of};

use crate::cursor::Cursor;
use gtid_text::{Gtid, Span, write_next_span};
use std::alloc::{AllocError, Global};

/// The text of a list of spans: a source is written only if it differs from the one before.
pub fn format_spans(alloc: Global, spans: Cursor<'_>) -> Result<String, AllocError>
    ensures { IfOk result (λ t. string_bytes t ≡ spans_text spans.entry) }
{
    let mut text = String::new(alloc);
    let mut before = None;
    let mut rest = spans;
    while let Some(span) = rest.peek() {
        let source = span.source;
        write_next_span(&mut text, before, span)?;
        before = Some(source);
        rest.advance();
    }
    Ok(text)
}

/// The first GTID of a span.
fn start(span: &Span) -> Gtid
    ensures { result ≡ start_of span.now }
{
    Gtid {
        source: span.source,
        number: span.lo,
    }
}

/// Sorts spans by their starts.
pub fn sort_by_start(spans: &mut Vec<Span>)
    ensures rises { is_sorted spans.new.items ≡ true }
    ensures same { IsPermutation spans.old.items spans.new.items }
{
    spans.sort_unstable_by_key(|span| start(span));
}
