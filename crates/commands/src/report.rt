//! Commands that write to standard output and to standard error: an answer, and notes beside it.
ghost use Rattle.std.specs.Prelude.{◌≡◌, ℕ, List, IfOk, IfErr, OnOk, OnErr};
ghost use Rattle.std.specs.Io.KnownBytes.{Appends};
ghost use Rattle.commands.specs.Edge.{one_more, Begins};
ghost use Rattle.commands.specs.Printed.{Printed};
ghost use Rattle.commands.specs.Reports.{HoldsReport, HasReported, HasNotReported};

use crate::answer::Answer;
use crate::edge::{Outcome, RunFault, Sink, Source};
use crate::streams::Streams;
use std::alloc::Global;

/// An answer, and the notes beside it.
#[derive(Drop)]
pub(crate) struct Report {
    pub(crate) answer: Answer,
    pub(crate) notes: Vec<u8>,
}

/// What a command answers to all bytes that it reads, and what it notes beside that.
pub(crate) trait Reporter {
    /// What is required of the reporter.
    ghost ready: { Self → Type 0 } = { λ _. Unit {0} };

    /// The answer to bytes, and the notes beside it.
    ghost reports: { Self → List ℕ → Printed → List ℕ → Type 0 };

    /// The answer to these bytes, with its notes.
    fn report(&self, alloc: Global, bytes: &[u8]) -> Result<Report, RunFault>
        requires { ready self.now }
        ensures ok { IfOk result (HoldsReport (reports self.now) bytes.now) }
        ensures memory { IfErr result (λ f. f ≡ RunFault.Memory) };
}

/// Writes notes.
fn write_notes<E: Sink>(errors: &mut E, notes: &[u8]) -> Result<(), RunFault>
    ensures done { OnOk result (Appends (E.written errors.old) (E.written errors.new) notes.now) }
    ensures write { IfErr result (λ f. f ≡ RunFault.Write) }
    ensures begins { OnErr result (Begins (E.written errors.old) (E.written errors.new) notes.now) }
    ensures counted { OnErr result (E.failed errors.new ≡ one_more (E.failed errors.old)) }
{
    match errors.write(notes) {
        Ok(()) => Ok(()),
        Err(_) => Err(RunFault::Write),
    }
}

/// Reads all, writes the answer to it, and then the notes beside that to `errors`, and nothing else. What was read is kept until then.
pub(crate) fn run_report<R: Reporter, S: Source, W: Sink, E: Sink>(
    alloc: Global,
    reporter: &R,
    streams: &mut Streams<S, W>,
    errors: &mut E,
) -> Result<Outcome, RunFault>
    requires { R.ready reporter.now }
    ensures done { IfOk result
        (HasReported E.written E.failed (R.reports reporter.now) errors.old errors.new streams.old streams.new) }
    ensures failed { IfErr result
        (HasNotReported E.written E.failed (R.reports reporter.now) errors.old errors.new streams.old streams.new) }
{
    let bytes = streams.read_all(alloc)?;
    let report = reporter.report(alloc, &bytes)?;
    let outcome = streams.send(&report.answer)?;
    write_notes(errors, &report.notes)?;
    Ok(outcome)
}
