//! A set made of spans in order.
ghost use Rattle.std.specs.Prelude.{◌≡◌, ◌≤◌, true, IfOk};
ghost use Rattle.gtid_set.specs.Sets.{source_count, most_sources};
ghost use Rattle.gtid_set.specs.Spans.{set_of};
ghost use Rattle.gtid_set.specs.Sweep.{is_sorted};
ghost use Rattle.gtid_set.specs.Full.{IsCrowdedExactly};
ghost use Rattle.gtid_set.specs.BySource.{JoinsSource, are_from};

use crate::fault::SetFault;
use crate::kept::Kept;
use crate::numbers::join;
use gtid_text::{SourceId, Span};
use interval_pool::Interval;
use std::alloc::{AllocError, Global};

/// Overwrites `run` with the merged intervals of the first spans, as far as they are of one source, and returns the spans after them.
fn join_source<'a>(
    run: &mut Vec<Interval>,
    id: SourceId,
    spans: &'a [Span],
) -> Result<&'a [Span], AllocError>
    requires rises { is_sorted spans.now ≡ true }
    requires from { are_from id spans.now ≡ true }
    ensures { IfOk result (λ rest. JoinsSource spans.now id run.new.items rest.now) }
{
    run.clear();
    let mut rest = spans;
    while let Some((span, more)) = rest.split_first() {
        if span.source != id {
            return Ok(rest);
        }
        join(
            run,
            Interval {
                lo: span.lo,
                hi: span.hi,
            },
        )?;
        rest = more;
    }
    Ok(rest)
}

/// The merged spans of a list, whose sources are not too many.
pub fn gather(alloc: Global, spans: &[Span]) -> Result<Kept, SetFault>
    requires rises { is_sorted spans.now ≡ true }
    requires fits { source_count (set_of spans.now) ≤ most_sources }
    ensures ok { IfOk result (λ k. set_of k ≡ set_of spans.now) }
    ensures full { IsCrowdedExactly result (set_of spans.now) }
{
    let mut kept = Kept::open(alloc);
    let mut run = Vec::new(alloc);
    let mut rest = spans;
    while let Some((first, _more)) = rest.split_first() {
        let id = first.source;
        match join_source(&mut run, id, rest) {
            Ok(behind) => rest = behind,
            Err(_) => return Err(SetFault::Memory),
        }
        match kept.put(id, &run) {
            Ok(()) => {}
            Err(fault) => return Err(fault),
        }
    }
    kept.is_kept();
    Ok(kept)
}
