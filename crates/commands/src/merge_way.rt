//! The result of a bundle by the fast way: seats share no replica, and if the sources share no key no replica is opened.
ghost use Rattle.std.specs.Prelude.{◌≡◌, ◌≤◌, IfOk, IfErr, IfSome};
ghost use Rattle.serving.specs.Faults.{IsBundleFault};
ghost use Rattle.serving.specs.declared.order.Order.TheVariants.{BySource};
ghost use Rattle.serving.specs.Verdicts.{HasMerged, IsStateOrVerdict};
ghost use Rattle.commands.specs.Printed.{Printed, Holds, GivesUp};
ghost use Rattle.rows.specs.Listing.{all_shown, rows_of};
ghost use Rattle.rows.specs.Parts.{AreParts};
ghost use Rattle.row_parts.specs.Listing.{rows_in_each};
ghost use Rattle.gtid_report.specs.Assumed.{assumed};
ghost use Rattle.commands.specs.Bundles.{printed_rows, printed_state, applied_answer, apply_answer};

use crate::answer::Answer;
use crate::applied_answer::{first_lines, state_answer, unsound_answer};
use crate::audit_command::sound_ending;
use crate::pieces::Text;
use crate::printing::render_beside;
use crate::side_by_side::serve_beside;
use crate::unapplied::{rows_line, unapplied_answer};
use gtid_report::Fault;
use gtid_set::GtidSet;
use journal::{Entry, Journal};
use replica_core::Core;
use row_parts::list_whole;
use rows::{Key, Row};
use serving::{Order, StateOrVerdict, keeps_servable, serve};
use source_shares::{Merged, ShareGate, merge_by_shares};
use std::alloc::{AllocError, Global};
use std::mem;
use std::thread::Threads;
use txn_journal::Bundle;

/// How often the list of rows is halved for threads that print it.
const HALVINGS: u8 = 2;

/// The lines of an executed set in which a bundle results, and of rows that are lent in order.
fn listed_answer<R: Threads + Sync>(
    rt: &R,
    alloc: Global,
    bundle: &Bundle,
    executed: &GtidSet,
    list: &[(&Key, &Row)],
) -> Result<Answer, AllocError>
    ensures { IfOk result (λ answer. Holds answer (printed_rows (assumed bundle.now) bundle.now.start.schema executed.now (rows_of (all_shown list.now)))) }
{
    let lines = first_lines(alloc, bundle, executed)?;
    let text = render_beside(rt, alloc, lines, bundle.schema(), list, HALVINGS)?;
    Ok(Answer {
        outcome: sound_ending(bundle),
        text,
    })
}

/// The lines of the result of all journals together.
fn parts_answer<R: Threads + Sync>(
    rt: &R,
    alloc: Global,
    bundle: &Bundle,
    merged: &Merged,
) -> Result<Answer, AllocError>
    ensures { IfOk result (λ answer. (whole : _) → AreParts bundle.now.start.rows (rows_in_each merged.now.parts.items) whole → Holds answer (printed_state (assumed bundle.now) bundle.now.start.schema merged.now.executed whole)) }
{
    let list = list_whole(rt, alloc, bundle.rows(), &merged.parts)?;
    listed_answer(rt, alloc, bundle, &merged.executed, &list)
}

/// The lines of a bundle's result.
fn merged_answer(
    alloc: Global,
    order: Order,
    bundle: &Bundle,
    merged: &StateOrVerdict<Core>,
) -> Result<Answer, AllocError>
    requires { IsStateOrVerdict (HasMerged order bundle.now) order bundle.now merged.now }
    ensures { IfOk result (λ answer. Holds answer (applied_answer order bundle.now)) }
{
    match merged {
        StateOrVerdict::State(core) => state_answer(alloc, bundle, core),
        StateOrVerdict::Verdict(verdict) => unsound_answer(alloc, order, bundle, verdict),
    }
}

/// What was made for an answer.
#[derive(Drop)]
enum Left {
    /// A replica that was served, or the verdict.
    Served(StateOrVerdict<Core>),
    /// What threads made of shares of the sources.
    Shares(Merged),
}

/// An answer, and what was made for it, which takes long to be freed.
#[derive(Drop)]
pub(crate) struct KeptAnswer {
    answer: Answer,
    left: Left,
}

impl KeptAnswer {
    /// The answer. What was made for it is leaked on purpose: the end of the process frees it at once.
    pub(crate) fn leave(self) -> Answer
        ensures { result ≡ self.answer }
    {
        let KeptAnswer { answer, left } = self;
        mem::forget(left);
        answer
    }

    /// The answer. What was made for it is freed.
    fn free(self) -> Answer
        ensures { result ≡ self.answer }
    {
        let KeptAnswer { answer, left } = self;
        drop(left);
        answer
    }
}

/// An answer with what was served for it, which is freed if there is no answer.
fn hold(
    answer: Result<Answer, AllocError>,
    served: StateOrVerdict<Core>,
) -> Result<KeptAnswer, AllocError>
    ensures { (printed : Printed) → IfOk answer (λ a. Holds a printed) → IfOk result (λ held. Holds held.answer printed) }
{
    match answer {
        Ok(answer) => Ok(KeptAnswer {
            answer,
            left: Left::Served(served),
        }),
        Err(error) => {
            drop(served);
            Err(error)
        }
    }
}

/// Audits and applies a bundle on the calling thread.
fn apply_alone(alloc: Global, bundle: &Bundle, order: Order) -> Result<KeptAnswer, Fault>
    ensures comes { IfOk result (λ held. Holds held.answer (applied_answer order bundle.now)) }
    ensures fault { IfErr result (GivesUp (IsBundleFault bundle.now)) }
{
    let merged = serve(alloc, bundle, order)?;
    let answer = merged_answer(alloc, order, bundle, &merged);
    Ok(hold(answer, merged)?)
}

/// Applies a bundle on the calling thread, while another audits its keys.
fn apply_beside<R: Threads>(
    rt: &R,
    alloc: Global,
    bundle: &Bundle,
    order: Order,
) -> Result<KeptAnswer, Fault>
    ensures comes { IfOk result (λ held. Holds held.answer (applied_answer order bundle.now)) }
    ensures fault { IfErr result (GivesUp (IsBundleFault bundle.now)) }
{
    let merged = serve_beside(rt, alloc, bundle, order)?;
    let answer = merged_answer(alloc, order, bundle, &merged);
    Ok(hold(answer, merged)?)
}

/// The most shares of the sources that are applied at the same time: more don't pay on the machines that were measured.
const MOST_SHARES: usize = 4;

/// Applies a bundle by threads, each a share of its sources, if these share no key; nothing if that can't be done.
fn apply_by_shares<G: ShareGate + Sync, R: Threads + Sync>(
    rt: &R,
    alloc: Global,
    bundle: &Bundle,
    workers: u8,
    gate: &G,
) -> Result<Option<KeptAnswer>, AllocError>
    requires { 1 ≤ workers }
    ensures { IfOk result (λ found. IfSome found (λ held. Holds held.answer (applied_answer BySource bundle.now))) }
{
    keeps_servable(bundle);
    let most = usize::from(workers).min(MOST_SHARES);
    let opened = bundle.opening_set();
    let rows = bundle.rows();
    let found = merge_by_shares(rt, alloc, opened, rows, bundle.journals(), most, gate);
    let Some(merged) = found else {
        return Ok(None);
    };
    match parts_answer(rt, alloc, bundle, &merged) {
        Ok(answer) => Ok(Some(KeptAnswer {
            answer,
            left: Left::Shares(merged),
        })),
        Err(error) => {
            drop(merged);
            Err(error)
        }
    }
}

/// Applies a bundle with two or more workers. By `BySource`: by shares of its sources, or else on one thread. By `ByConflict`: on one
/// thread, while a second one audits the keys.
fn apply_side_by_side<G: ShareGate + Sync, R: Threads + Sync>(
    rt: &R,
    alloc: Global,
    bundle: &Bundle,
    order: Order,
    workers: u8,
    gate: &G,
) -> Result<KeptAnswer, Fault>
    requires { 1 ≤ workers }
    ensures comes { IfOk result (λ held. Holds held.answer (applied_answer order bundle.now)) }
    ensures fault { IfErr result (GivesUp (IsBundleFault bundle.now)) }
{
    if let Order::BySource = order {
        return match apply_by_shares(rt, alloc, bundle, workers, gate)? {
            Some(held) => Ok(held),
            None => apply_alone(alloc, bundle, order),
        };
    }
    apply_beside(rt, alloc, bundle, order)
}

/// The result of a bundle whose opening rows are known, with what was made for it: by one thread, or by several at the same time.
pub(crate) fn merge_held<G: ShareGate + Sync, R: Threads + Sync>(
    rt: &R,
    alloc: Global,
    bundle: &Bundle,
    order: Order,
    workers: u8,
    gate: &G,
) -> Result<KeptAnswer, Fault>
    requires { 1 ≤ workers }
    ensures comes { IfOk result (λ held. Holds held.answer (applied_answer order bundle.now)) }
    ensures fault { IfErr result (GivesUp (IsBundleFault bundle.now)) }
{
    if workers == 1 {
        apply_alone(alloc, bundle, order)
    } else {
        apply_side_by_side(rt, alloc, bundle, order, workers, gate)
    }
}

/// The result of a bundle, the same as that of `apply_decoded`, and faster. One worker is the calling thread. With more, threads apply
/// shares of the sources, if these share no key and one pass over the journals shows it; by `ByConflict` a second thread audits the keys
/// while the first serves the journals and applies what it receives. (No workers share a replica here, as those of `apply_decoded` do, and
/// if the shares give nothing one thread goes on alone: more were slower wherever it was measured.) A refusal is `SourcesFull`, if the
/// GTIDs of all journals together are of more than 65,536 sources, or `PoolFull`, if the intervals of the opening set and of the previous
/// sets and the entries are together more than 4,294,967,294.
pub fn merge_decoded<G: ShareGate + Sync, R: Threads + Sync>(
    rt: &R,
    alloc: Global,
    bundle: &Bundle,
    order: Order,
    workers: u8,
    gate: &G,
) -> Result<Answer, Fault>
    requires { (1 ≤ workers) × (workers ≤ 64) }
    ensures comes { IfOk result (λ answer. Holds answer (apply_answer order bundle.now)) }
    ensures fault { IfErr result (GivesUp (IsBundleFault bundle.now)) }
{
    if bundle.lacks_rows() {
        return unapplied_answer(alloc, order, bundle, rows_line(bundle));
    }
    let held = merge_held(rt, alloc, bundle, order, workers, gate)?;
    Ok(held.free())
}
