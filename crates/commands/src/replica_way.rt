//! The result of a bundle when workers share a replica.
ghost use Rattle.std.specs.Prelude.{◌≡◌, ◌≤◌, IfOk, IfErr};
ghost use Rattle.serving.specs.Faults.{IsBundleFault};
ghost use Rattle.serving.specs.Verdicts.{IsConcluded, IsStateOrVerdict};
ghost use Rattle.commands.specs.Applying.{IsWorked};
ghost use Rattle.commands.specs.Printed.{Holds, GivesUp};
ghost use Rattle.commands.specs.Bundles.{applied_answer, apply_answer};

use crate::answer::Answer;
use crate::applied_answer::{state_answer, unsound_answer};
use crate::parallel::{Worked, work_journals};
use crate::unapplied::{rows_line, unapplied_answer};
use applier::Gate;
use gtid_report::Fault;
use serving::{Order, StateOrVerdict};
use std::alloc::{AllocError, Global};
use std::sync::Wait;
use std::thread::Threads;
use txn_journal::Bundle;

/// The lines of a history's result.
pub(crate) fn worked_answer(
    alloc: Global,
    order: Order,
    bundle: &Bundle,
    worked: &Worked,
) -> Result<Answer, AllocError>
    requires { IsConcluded order bundle.now worked.now.book.now worked.now.verdict }
    ensures { IfOk result (λ answer. Holds answer (applied_answer order bundle.now)) }
{
    match &worked.verdict {
        None => state_answer(alloc, bundle, worked.book.state()),
        Some(verdict) => unsound_answer(alloc, order, bundle, verdict),
    }
}

/// The lines of what workers left of a bundle's journals.
fn found_answer(
    alloc: Global,
    order: Order,
    bundle: &Bundle,
    found: &StateOrVerdict<Worked>,
) -> Result<Answer, AllocError>
    requires { IsStateOrVerdict (IsWorked order bundle.now) order bundle.now found.now }
    ensures { IfOk result (λ answer. Holds answer (applied_answer order bundle.now)) }
{
    match found {
        StateOrVerdict::State(worked) => worked_answer(alloc, order, bundle, worked),
        StateOrVerdict::Verdict(verdict) => unsound_answer(alloc, order, bundle, verdict),
    }
}

/// The result of a bundle: the same for every number of workers and every order of their steps. A replica is opened, and each of its
/// channels is positioned and receives what auto-positioning sends, while another thread audits the keys; nothing is applied before the
/// workers start. The workers then share the replica and pass the gate, each on a thread of its own if one can be started, and what they
/// leave is drained. A refusal is `SourcesFull`, if the GTIDs of all journals together are of more than 65,536 sources, or `PoolFull`, if
/// the intervals of the opening set and of the previous sets and the entries are together more than 4,294,967,294.
pub fn apply_decoded<G: Gate + Sync, R: Threads + Wait + Sync>(
    rt: &R,
    alloc: Global,
    bundle: &Bundle,
    order: Order,
    workers: u8,
    gate: &G,
) -> Result<Answer, Fault>
    requires { (1 ≤ workers) × (workers ≤ 64) }
    ensures comes { IfOk result (λ answer. Holds answer (apply_answer order bundle.now)) }
    ensures fault { IfErr result (GivesUp (IsBundleFault bundle.now)) }
{
    if bundle.lacks_rows() {
        return unapplied_answer(alloc, order, bundle, rows_line(bundle));
    }
    let found = work_journals(rt, alloc, bundle, order, workers, gate)?;
    let answer = found_answer(alloc, order, bundle, &found);
    drop(found);
    Ok(answer?)
}
