//! An answer.
ghost use Rattle.std.specs.Prelude.{◌≡◌, IfOk, IfErr, string_bytes};
ghost use Rattle.gtid_report.specs.Refusals.{refusal_line};
ghost use Rattle.commands.specs.Printed.{with_line_feed, refused_with, Holds, Settles};

use crate::edge::{Outcome, RunFault};
use crate::pieces::Text;
use gtid_report::{Fault, Refusal, render_fault};
use std::alloc::{AllocError, Global};

/// What is written, and how the command ends.
#[derive(Drop)]
pub struct Answer {
    pub outcome: Outcome,
    pub text: Text,
}

/// A line with its line feed.
pub(crate) fn with_line_feed(line: String) -> Result<String, AllocError>
    ensures { IfOk result (λ text. string_bytes text ≡ with_line_feed (string_bytes line)) }
{
    let mut text = line;
    text.push_str("\n")?;
    Ok(text)
}

/// The one line of a refusal.
pub(crate) fn refusal_text(alloc: Global, refusal: &Refusal) -> Result<String, AllocError>
    ensures { IfOk result (λ text. string_bytes text ≡ with_line_feed (refusal_line refusal.now)) }
{
    let line = render_fault(alloc, refusal)?;
    with_line_feed(line)
}

/// The answer that a refusal is.
pub(crate) fn refusal_answer(alloc: Global, refusal: &Refusal) -> Result<Answer, AllocError>
    ensures { IfOk result (λ answer. Holds answer (refused_with refusal.now)) }
{
    Ok(Answer {
        outcome: Outcome::Refused,
        text: Text::of(alloc, refusal_text(alloc, refusal)?),
    })
}

/// An answer, or the line of its refusal.
pub(crate) fn settle(alloc: Global, found: Result<Answer, Fault>) -> Result<Answer, RunFault>
    ensures ok { IfOk result (Settles found) }
    ensures memory { IfErr result (λ f. f ≡ RunFault.Memory) }
{
    match found {
        Ok(answer) => Ok(answer),
        Err(Fault::Memory) => Err(RunFault::Memory),
        Err(Fault::Refused(refusal)) => match refusal_answer(alloc, &refusal) {
            Ok(answer) => Ok(answer),
            Err(_) => Err(RunFault::Memory),
        },
    }
}
