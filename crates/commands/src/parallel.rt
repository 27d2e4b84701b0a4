//! The result of a bundle's journals when workers apply them.
ghost use Rattle.std.specs.Prelude.{◌≤◌, IfOk, IfErr};
ghost use Rattle.replica_core.specs.Draining.{AreStoppedOrDone};
ghost use Rattle.applier.specs.Draining.{AllApply, Drains};
ghost use Rattle.txn_journal.specs.BundleStates.{BundleValue};
ghost use Rattle.serving.specs.declared.order.Order.{Order};
ghost use Rattle.serving.specs.Faults.{IsBundleFault};
ghost use Rattle.serving.specs.Serving.{IsReady};
ghost use Rattle.serving.specs.Verdicts.{IsConcluded, IsStateOrVerdict, IsVerdictOfKeys};
ghost use Rattle.commands.specs.Applying.{HasMergedIn, IsHistory, IsWorked};

use crate::side_by_side::begin_beside;
use crate::worker_history::run_history;
use applier::{Gate, drain};
use gtid_set::SetFault;
use serving::{Order, StateOrVerdict, begin, conclude};
use shared_replica::ClosedBook;
use std::alloc::Global;
use std::sync::Wait;
use std::thread::Threads;
use txn_journal::Bundle;
use world::Verdict;

/// What workers did to the replica of a bundle: their history, and the verdict of the audit, if not everything is executed.
#[derive(Drop)]
pub(crate) struct Worked {
    pub(crate) book: ClosedBook,
    pub(crate) verdict: Option<Verdict>,
}

/// The result of a history of work over a replica that was served all journals, once what it left is drained: nothing if all is executed,
/// or else the verdict of the audit.
fn drain_and_conclude(
    alloc: Global,
    bundle: &Bundle,
    order: Order,
    book: &mut ClosedBook,
) -> Result<Option<Verdict>, SetFault>
    requires ready { IsReady order bundle.now book.old.opening }
    requires work { AllApply book.old.steps }
    ensures history { IfOk result (λ _. IsHistory order bundle.now book.new) }
    ensures found { IfOk result (IsConcluded order bundle.now book.new.now) }
    ensures fault { IfErr result (IsBundleFault bundle.now) }
{
    let drained = drain(alloc, book);
    let core = book.state();
    drained?;
    Ok(conclude(alloc, bundle, order, core)?)
}

/// The result of a history of work over a replica that was served all journals.
fn conclude_history(
    alloc: Global,
    bundle: &Bundle,
    order: Order,
    mut book: ClosedBook,
) -> Result<Worked, SetFault>
    requires ready { IsReady order bundle.now book.opening }
    requires work { AllApply book.steps }
    ensures worked { IfOk result (IsWorked order bundle.now) }
    ensures fault { IfErr result (IsBundleFault bundle.now) }
{
    let concluded = drain_and_conclude(alloc, bundle, order, &mut book);
    match concluded {
        Ok(verdict) => Ok(Worked { book, verdict }),
        Err(fault) => {
            drop(book);
            Err(fault)
        }
    }
}

/// The result of the journals if no worker's history is known: a replica that is opened anew is drained.
fn drain_anew(
    alloc: Global,
    bundle: &Bundle,
    order: Order,
) -> Result<StateOrVerdict<Worked>, SetFault>
    ensures worked { IfOk result (IsStateOrVerdict (IsWorked order bundle.now) order bundle.now) }
    ensures keys { IfOk result (IsVerdictOfKeys order bundle.now) }
    ensures fault { IfErr result (IsBundleFault bundle.now) }
{
    match begin(alloc, bundle, order)? {
        StateOrVerdict::State(core) => {
            let book = ClosedBook::start(alloc, core);
            Ok(StateOrVerdict::State(conclude_history(alloc, bundle, order, book)?))
        }
        StateOrVerdict::Verdict(verdict) => Ok(StateOrVerdict::Verdict(verdict)),
    }
}

/// What workers did to the replica of a bundle, or the verdict of the audit of its keys.
pub(crate) fn work_journals<G: Gate + Sync, R: Threads + Wait + Sync>(
    rt: &R,
    alloc: Global,
    bundle: &Bundle,
    order: Order,
    workers: u8,
    gate: &G,
) -> Result<StateOrVerdict<Worked>, SetFault>
    requires { (1 ≤ workers) × (workers ≤ 64) }
    ensures worked { IfOk result (IsStateOrVerdict (IsWorked order bundle.now) order bundle.now) }
    ensures keys { IfOk result (IsVerdictOfKeys order bundle.now) }
    ensures fault { IfErr result (IsBundleFault bundle.now) }
{
    let core = match begin_beside(rt, alloc, bundle, order)? {
        StateOrVerdict::State(core) => core,
        StateOrVerdict::Verdict(verdict) => return Ok(StateOrVerdict::Verdict(verdict)),
    };
    match run_history(rt, alloc, core, workers, gate) {
        Some(book) => Ok(StateOrVerdict::State(conclude_history(alloc, bundle, order, book)?)),
        None => drain_anew(alloc, bundle, order),
    }
}

/// The history, if all is executed, or else the verdict.
fn book_or_verdict(worked: Worked) -> StateOrVerdict<ClosedBook>
    ensures { (order : Order) (b : BundleValue) → IsConcluded order b worked.book.now worked.verdict
        → IsStateOrVerdict (HasMergedIn order b) order b result }
{
    let Worked { book, verdict } = worked;
    match verdict {
        None => StateOrVerdict::State(book),
        Some(verdict) => {
            drop(book);
            StateOrVerdict::Verdict(verdict)
        }
    }
}

/// The result of a bundle's journals over its opening rows: all of them executed together, or the verdict of the audit that asks for this
/// order, if that is not Sound. One thread audits their keys while another receives them. Then the workers apply them, each on a thread of
/// its own if one can be started; what they leave is applied when they have ended. The answer does not depend on their number, nor on the
/// order of their steps.
///
/// `Memory` is a failed allocation, `SourcesFull` comes only if the GTIDs of all journals together are of more than 65,536 sources, and
/// `PoolFull` only if the intervals of the opening set and of the previous sets and the entries are together more than 4,294,967,294. A
/// worker's fault is never the answer.
pub fn apply_journals<G: Gate + Sync, R: Threads + Wait + Sync>(
    rt: &R,
    alloc: Global,
    bundle: &Bundle,
    order: Order,
    workers: u8,
    gate: &G,
) -> Result<StateOrVerdict<ClosedBook>, SetFault>
    requires { (1 ≤ workers) × (workers ≤ 64) }
    ensures applied { IfOk result (IsStateOrVerdict (HasMergedIn order bundle.now) order bundle.now) }
    ensures fault { IfErr result (IsBundleFault bundle.now) }
{
    match work_journals(rt, alloc, bundle, order, workers, gate)? {
        StateOrVerdict::State(worked) => Ok(book_or_verdict(worked)),
        StateOrVerdict::Verdict(verdict) => Ok(StateOrVerdict::Verdict(verdict)),
    }
}
