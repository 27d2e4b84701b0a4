//! The gaps of a set.
ghost use Rattle.std.specs.Prelude.{◌≡◌};
ghost use Rattle.std.specs.FinSet as set;
ghost use Rattle.gtid_report.specs.SetAnswers.{Answers};
ghost use Rattle.server_states.specs.States.{whole, fill_intervals, gaps};
ghost use Rattle.gtid_set.specs.Sets.{interval};
ghost use Rattle.gtid_text.specs.Gtids.{gtid_cmp};

use crate::together::difference;
use gtid_report::Fault;
use gtid_set::GtidSet;
use gtid_text::{SourceId, Span};
use std::alloc::Global;

/// Adds all numbers of a source from 1 to a last one.
fn fill(gtids: &mut GtidSet, source: SourceId, last: u64) -> Result<(), Fault>
    ensures { Answers (λ _. gtids.new) result (whole (set.union gtids.old (interval source 1 last))) }
{
    match gtids.add_span(Span {
        source,
        lo: 1,
        hi: last,
    }) {
        Ok(()) => Ok(()),
        Err(fault) => Err(Fault::from(fault)),
    }
}

/// All numbers from 1 to the last of each interval.
fn fill_intervals(alloc: Global, spans: &[Span]) -> Result<GtidSet, Fault>
    ensures { Answers (λ s. s) result (fill_intervals (set.empty) spans.now) }
{
    let mut all = GtidSet::empty(alloc);
    for span in spans {
        let Span { source, lo: _, hi } = *span;
        match fill(&mut all, source, hi) {
            Ok(()) => {}
            Err(fault) => return Err(fault),
        }
    }
    Ok(all)
}

/// The GTIDs that a set lacks below one that it has of the same source.
pub fn gaps(alloc: Global, gtids: &GtidSet) -> Result<GtidSet, Fault>
    ensures { Answers (λ s. s) result (gaps gtids.now) }
{
    let spans = gtids.spans(alloc)?;
    let all = fill_intervals(alloc, &spans)?;
    difference(alloc, &all, gtids)
}
