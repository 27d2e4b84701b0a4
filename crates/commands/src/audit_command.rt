//! The command `audit`.
ghost use Rattle.std.specs.Prelude.{◌≡◌, IfOk, IfErr};
ghost use Rattle.serving.specs.Faults.{IsVerdictFault};
ghost use Rattle.commands.specs.Printed.{Holds, to_all, IsDone, HasFailed};
ghost use Rattle.gtid_report.specs.Assumed.{assumed};
ghost use Rattle.commands.specs.Verdicts.{sound_ending, verdict_ending, printed_verdict};
ghost use Rattle.commands.specs.Bundles.{Audits, audit_answer};

use crate::answer::{Answer, with_line_feed};
use crate::edge::{Outcome, RunFault, Sink, Source};
use crate::pieces::Text;
use crate::request::{Request, run};
use crate::streams::Streams;
use gtid_report::{Fault, is_assuming, render_verdict_on};
use serving::{Order, audited_over};
use std::alloc::{AllocError, Global};
use txn_journal::Bundle;
use world::Verdict;

/// How a command ends that finds a bundle sound.
pub(crate) fn sound_ending(bundle: &Bundle) -> Outcome
    ensures { result ≡ sound_ending (assumed bundle.now) }
{
    if is_assuming(bundle) {
        Outcome::Assumed
    } else {
        Outcome::Done
    }
}

/// How a verdict on a bundle ends a command.
pub(crate) fn verdict_ending(bundle: &Bundle, verdict: &Verdict) -> Outcome
    ensures { result ≡ verdict_ending (assumed bundle.now) verdict.now }
{
    match verdict {
        Verdict::Sound => sound_ending(bundle),
        _ => Outcome::Refused,
    }
}

/// The one line of a verdict on a bundle, and of what it rests on.
pub(crate) fn verdict_answer(
    alloc: Global,
    bundle: &Bundle,
    verdict: &Verdict,
) -> Result<Answer, AllocError>
    ensures { IfOk result (λ answer. Holds answer (printed_verdict (assumed bundle.now) verdict.now)) }
{
    let line = render_verdict_on(alloc, bundle, verdict)?;
    Ok(Answer {
        outcome: verdict_ending(bundle, verdict),
        text: Text::of(alloc, with_line_feed(line)?),
    })
}

/// The request to audit a bundle by an order.
#[derive(Drop)]
struct Audit {
    order: Order,
}

impl Request for Audit {
    type Value = Bundle;

    ghost answers = { λ asked b. audit_answer asked.order b };

    ghost may_fail = { λ _ b. IsVerdictFault b };

    fn answer(&self, alloc: Global, bundle: &Bundle) -> Result<Answer, Fault> {
        let verdict = audited_over(alloc, bundle, self.order)?;
        Ok(verdict_answer(alloc, bundle, &verdict)?)
    }
}

/// Reads a bundle, and writes the line of the verdict of the audit that asks for this order, or of its
/// refusal, and nothing else.
pub fn run_audit<S: Source, W: Sink>(
    alloc: Global,
    order: Order,
    streams: &mut Streams<S, W>,
) -> Result<Outcome, RunFault>
    ensures done { IfOk result (IsDone (to_all (Audits order)) streams.old streams.new) }
    ensures failed { IfErr result (HasFailed (to_all (Audits order)) streams.old streams.new) }
{
    run(alloc, &Audit { order }, streams)
}
