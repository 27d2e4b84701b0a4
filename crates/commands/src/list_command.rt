//! The command `audit --all`.
ghost use Rattle.std.specs.Prelude.{◌≡◌, ◌++◌, IfOk, IfErr, OnOk, string_bytes};
ghost use Rattle.gtid_report.specs.VerdictLines.{verdict_line};
ghost use Rattle.serving.specs.Listing.{IsFaultsFault};
ghost use Rattle.commands.specs.Printed.{Holds, to_all, IsDone, HasFailed, with_line_feed};
ghost use Rattle.gtid_report.specs.Assumed.{assumed};
ghost use Rattle.commands.specs.Listings.{Lists, last_line, printed_faults, held_faults, list_answer, run_line, run_lines, verdict_lines};

use crate::answer::{Answer, with_line_feed};
use crate::audit_command::verdict_ending;
use crate::edge::{Outcome, RunFault, Sink, Source};
use crate::pieces::Text;
use crate::request::{Request, run};
use crate::streams::Streams;
use audit::AllFaults;
use gtid_report::{Fault, is_assuming, push_conditions, render_verdict, render_verdict_on};
use gtid_text::{Span, write_span};
use serving::faults_known;
use std::alloc::{AllocError, Global};
use std::mem;
use txn_journal::Bundle;
use world::Verdict;

/// The line of a verdict.
fn push_verdict(alloc: Global, text: &mut String, verdict: &Verdict) -> Result<(), AllocError>
    ensures { OnOk result (string_bytes text.new ≡ string_bytes text.old ++ with_line_feed (verdict_line verdict.now)) }
{
    let line = render_verdict(alloc, verdict)?;
    text.push_str(&line)?;
    text.push_str("\n")
}

/// The lines of verdicts.
fn push_verdicts(alloc: Global, text: &mut String, verdicts: &[Verdict]) -> Result<(), AllocError>
    ensures { OnOk result (string_bytes text.new ≡ string_bytes text.old ++ verdict_lines verdicts.now) }
{
    for verdict in verdicts {
        push_verdict(alloc, text, verdict)?;
    }
    Ok(())
}

/// The line of missing numbers.
fn push_run(text: &mut String, run: Span) -> Result<(), AllocError>
    ensures { OnOk result (string_bytes text.new ≡ string_bytes text.old ++ run_line run) }
{
    text.push_str("missing ")?;
    write_span(text, run)?;
    text.push_str("\n")
}

/// The lines of missing numbers.
fn push_runs(text: &mut String, runs: &[Span]) -> Result<(), AllocError>
    ensures { OnOk result (string_bytes text.new ≡ string_bytes text.old ++ run_lines runs.now) }
{
    for run in runs {
        push_run(text, *run)?;
    }
    Ok(())
}

/// What the faults of a bundle rest on, if its verdict doesn't say it.
pub(crate) fn push_last(
    text: &mut String,
    bundle: &Bundle,
    verdict: &Verdict,
) -> Result<(), AllocError>
    ensures { OnOk result (string_bytes text.new ≡ string_bytes text.old ++ last_line (assumed bundle.now) verdict.now) }
{
    if matches!(verdict, Verdict::Sound) || !is_assuming(bundle) {
        return Ok(());
    }
    text.push_str("if ")?;
    push_conditions(text, bundle)?;
    text.push_str("\n")
}

/// The lines of all faults of a bundle.
fn list_answer(alloc: Global, bundle: &Bundle, all: &AllFaults) -> Result<Answer, AllocError>
    ensures { IfOk result (λ answer. Holds answer (printed_faults (assumed bundle.now) (held_faults all.now))) }
{
    let line = render_verdict_on(alloc, bundle, &all.verdict)?;
    let mut text = with_line_feed(line)?;
    push_verdicts(alloc, &mut text, all.unequal.as_slice())?;
    push_verdicts(alloc, &mut text, all.purged.as_slice())?;
    let runs = all.missing.spans(alloc)?;
    push_runs(&mut text, runs.as_slice())?;
    push_verdicts(alloc, &mut text, all.shared.as_slice())?;
    push_verdicts(alloc, &mut text, all.not_closed.as_slice())?;
    push_verdicts(alloc, &mut text, all.does_not_apply.as_slice())?;
    push_last(&mut text, bundle, &all.verdict)?;
    Ok(Answer {
        outcome: verdict_ending(bundle, &all.verdict),
        text: Text::of(alloc, text),
    })
}

/// The request to list all faults of a bundle.
struct List;

impl Request for List {
    type Value = Bundle;

    ghost answers = { λ _ b. list_answer b };

    ghost may_fail = { λ _ b. IsFaultsFault b };

    fn answer(&self, alloc: Global, bundle: &Bundle) -> Result<Answer, Fault> {
        let all = faults_known(alloc, bundle)?;
        let answer = list_answer(alloc, bundle, &all);
        mem::forget(all);
        Ok(answer?)
    }
}

/// Reads a bundle, and writes the line of its audit's verdict and after it one for each other GTID under which journals differ, each other
/// journal that begins after the opening set, each other run of missing GTIDs, each other shared key, each other GTID that is in a journal
/// without what it needs and, if by the verdict a transaction does not apply, each other source of which one does not, and at last one for
/// what that rests on, if the verdict doesn't say it; or the line of its refusal; and nothing else.
pub fn run_list<S: Source, W: Sink>(
    alloc: Global,
    streams: &mut Streams<S, W>,
) -> Result<Outcome, RunFault>
    ensures done { IfOk result (IsDone (to_all Lists) streams.old streams.new) }
    ensures failed { IfErr result (HasFailed (to_all Lists) streams.old streams.new) }
{
    run(alloc, &List, streams)
}
