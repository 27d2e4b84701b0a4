//! One pass over one merged list of spans.
ghost use Rattle.std.specs.Prelude.{if◌then◌else◌, ◌≡◌, true, ◌&&◌, OnOk, IfOk, ◌+◌, ◌-◌, ◌∷◌, ◌++◌, [], ◌<◌, ◌≤◌, length, sum_by};
ghost use Rattle.gtid_set.specs.Spans.{is_merged, has};
ghost use Rattle.std.specs.List.{list_all, AllByRecursion};
ghost use Rattle.gtid_set.specs.Sweep.{IsListOf, is_kept, size_of, is_in_range, HasSource};

use crate::GREATEST;
use crate::cursor::Cursor;
use gtid_text::{SourceId, Span};
use std::alloc::{AllocError, Global};

/// Appends a span if it is wanted.
fn push_if(out: &mut Vec<Span>, span: &Span, wanted: bool) -> Result<(), AllocError>
    ensures { OnOk result (out.new.items ≡ (if wanted then out.old.items ++ span.now ∷ [] else out.old.items)) }
{
    if wanted {
        out.push(*span)?;
        return Ok(());
    }
    Ok(())
}

/// The merged list of the spans of one source, or of all others.
pub fn of_source(
    alloc: Global,
    spans: Cursor<'_>,
    source: SourceId,
    wanted: bool,
) -> Result<Vec<Span>, AllocError>
    requires { is_merged spans ≡ true }
    ensures list { IfOk result (λ v. IsListOf (λ q. has spans.entry q && is_kept source wanted q.source) v.items) }
    ensures few { IfOk result (λ v. length v.items ≤ length spans.entry) }
{
    let mut out = Vec::new(alloc);
    let mut rest = spans;
    while let Some(span) = rest.peek() {
        push_if(&mut out, &span, is_kept(source, wanted, span.source))?;
        rest.advance();
    }
    Ok(out)
}

/// Whether a source is the wanted one, or one of the others.
fn is_kept(source: SourceId, wanted: bool, other: SourceId) -> bool
    ensures { result ≡ is_kept source wanted other }
{
    if other == source { wanted } else { !wanted }
}

/// How many numbers the spans have.
pub fn count_numbers(spans: Cursor<'_>) -> u128
    requires merged { is_merged spans ≡ true }
    requires small { length spans < 18446744073709551616 }
    ensures { result ≡ sum_by size_of spans.entry }
{
    let mut count = 0;
    let mut rest = spans;
    while let Some(span) = rest.peek() {
        count += u128::from(span.hi - span.lo) + 1;
        rest.advance();
    }
    count
}

/// The spans as a list.
pub fn collect_spans(alloc: Global, spans: Cursor<'_>) -> Result<Vec<Span>, AllocError>
    ensures { IfOk result (λ v. v.items ≡ spans.entry) }
{
    let mut list = Vec::new(alloc);
    let mut rest = spans;
    while let Some(span) = rest.peek() {
        list.push(span)?;
        rest.advance();
    }
    Ok(list)
}

/// Whether the numbers of a span are in range.
fn is_in_range(span: &Span) -> bool
    ensures { result ≡ is_in_range span.now }
{
    1 <= span.lo && span.hi <= GREATEST
}

/// Whether the numbers of all spans are in range.
pub fn are_in_range(spans: Cursor<'_>) -> bool
    ensures { result ≡ list_all is_in_range spans.entry }
{
    let mut rest = spans;
    while let Some(span) = rest.peek() {
        if !is_in_range(&span) {
            return false;
        }
        rest.advance();
    }
    true
}

/// A law, which does nothing: the source of a span has 128 bits.
fn source_fits(span: &Span)
    ensures { HasSource span.now }
{
    let _bits = span.source.bits();
}

/// A law, which changes nothing: the sources of spans have 128 bits.
pub fn sources_fit(spans: Cursor<'_>)
    ensures { AllByRecursion HasSource spans.entry }
{
    let mut rest = spans;
    while let Some(span) = rest.peek() {
        source_fits(&span);
        rest.advance();
    }
}
