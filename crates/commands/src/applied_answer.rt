//! The answers of `apply`: a state, or the line of a verdict.
ghost use Rattle.std.specs.Prelude.{◌≡◌, ◌++◌, IfOk, string_bytes};
ghost use Rattle.gtid_report.specs.State.{executed_line};
ghost use Rattle.gtid_report.specs.Assumed.{assumed, assume_lines};
ghost use Rattle.serving.specs.Verdicts.{IsUnsound};
ghost use Rattle.commands.specs.Printed.{Holds};
ghost use Rattle.commands.specs.Bundles.{printed_state, applied_answer};

use crate::answer::Answer;
use crate::audit_command::{sound_ending, verdict_answer};
use crate::pieces::Text;
use gtid_report::{render_assumed, render_executed, render_lent_rows};
use gtid_set::GtidSet;
use replica_core::Core;
use serving::Order;
use std::alloc::{AllocError, Global};
use txn_journal::Bundle;
use world::Verdict;

/// The first lines of a state in which a bundle results: what it rests on, and the executed set.
pub(crate) fn first_lines(
    alloc: Global,
    bundle: &Bundle,
    executed: &GtidSet,
) -> Result<String, AllocError>
    ensures { IfOk result (λ text. string_bytes text ≡ assume_lines (assumed bundle.now) ++ executed_line executed.now) }
{
    let mut text = render_assumed(alloc, bundle)?;
    let line = render_executed(alloc, executed)?;
    text.push_str(&line)?;
    Ok(text)
}

/// The lines of a replica's state in which a bundle results.
pub(crate) fn state_answer(
    alloc: Global,
    bundle: &Bundle,
    core: &Core,
) -> Result<Answer, AllocError>
    ensures { IfOk result (λ answer. Holds answer (printed_state (assumed bundle.now) bundle.now.start.schema core.now.state.executed core.now.state.rows)) }
{
    let mut text = first_lines(alloc, bundle, core.executed())?;
    let list = core.rows().list_lent(alloc)?;
    render_lent_rows(&mut text, bundle.schema(), &list)?;
    Ok(Answer {
        outcome: sound_ending(bundle),
        text: Text::of(alloc, text),
    })
}

/// The line of a verdict on a bundle, which is not Sound.
#[tactic(auto, using(crate::proofs::Unsound::verdict_applied))]
pub(crate) fn unsound_answer(
    alloc: Global,
    order: Order,
    bundle: &Bundle,
    verdict: &Verdict,
) -> Result<Answer, AllocError>
    requires { IsUnsound order bundle.now verdict.now }
    ensures { IfOk result (λ answer. Holds answer (applied_answer order bundle.now)) }
{
    verdict_answer(alloc, bundle, verdict)
}
