//! The version of the program.
ghost use Rattle.std.specs.Prelude.{IfOk, IfErr};
ghost use Rattle.commands.specs.Printed.{Holds, at_once, IsDone, HasFailed};
ghost use Rattle.commands.specs.Version.{printed_version};

use crate::answer::Answer;
use crate::edge::{Outcome, RunFault, Sink, Source};
use crate::pieces::Text;
use crate::streams::Streams;
use std::alloc::{AllocError, Global};

/// The program's name and version.
fn version_answer(alloc: Global) -> Result<Answer, AllocError>
    ensures { IfOk result (λ answer. Holds answer printed_version) }
{
    Ok(Answer {
        outcome: Outcome::Done,
        text: Text::of(alloc, String::from_str(alloc, "gtidrep 0.9.0\n")?),
    })
}

/// Writes the program's name and version, and nothing else; nothing is read.
pub fn run_version<S: Source, W: Sink>(
    alloc: Global,
    streams: &mut Streams<S, W>,
) -> Result<Outcome, RunFault>
    ensures done { IfOk result (IsDone (at_once printed_version) streams.old streams.new) }
    ensures failed { IfErr result (HasFailed (at_once printed_version) streams.old streams.new) }
{
    let Ok(answer) = version_answer(alloc) else {
        return Err(RunFault::Memory);
    };
    streams.send(&answer)
}
