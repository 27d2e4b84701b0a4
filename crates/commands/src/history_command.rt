//! The command `apply --by replica --history`.
ghost use Rattle.std.specs.Prelude.{◌≡◌, ◌≤◌, ◌-◌, ◌++◌, [], true, IfOk, IfErr, OnOk, string_bytes};
ghost use Rattle.std.specs.Thread.{IsSync};
ghost use Rattle.serving.specs.Faults.{IsBundleFault};
ghost use Rattle.serving.specs.Verdicts.{IsStateOrVerdict, IsUnsound, IsVerdictOfKeys, keys_over};
ghost use Rattle.replica_lines.specs.Histories.{history_line};
ghost use Rattle.commands.specs.Applying.{IsWorked, Tells, TellsOf, lines_from};
ghost use Rattle.commands.specs.Printed.{Holds, GivesUp, refused_with, with_line_feed};
ghost use Rattle.commands.specs.Bundles.{applied_answer, applied_text};
ghost use Rattle.commands.specs.Counted.{line_count};
ghost use Rattle.commands.specs.Unapplied.{unapplied};
ghost use Rattle.txn_journal.specs.Assumptions.{lacks_rows};
ghost use Rattle.commands.specs.Reports.{HoldsReport, HasReported, HasNotReported};
ghost use Rattle.commands.specs.Telling.{FindsTold, SettlesTold};

use crate::answer::refusal_answer;
use crate::applied_answer::unsound_answer;
use crate::bundle_reading::{count_lines, decode_whole};
use crate::edge::{Outcome, RunFault, Sink, Source};
use crate::parallel::{Worked, work_journals};
use crate::replica_way::worked_answer;
use crate::report::{Report, Reporter, run_report};
use crate::streams::Streams;
use crate::unapplied::unapplied_answer;
use applier::NoGate;
use gtid_report::{Fault, Refusal};
use replica_lines::push_history_line;
use serving::{Order, StateOrVerdict};
use shared_replica::Step;
use std::alloc::{AllocError, Global};
use std::sync::Wait;
use std::thread::Threads;
use txn_journal::Bundle;
use world::Verdict;

/// Appends the line of a step.
fn push_step(alloc: Global, text: &mut String, place: usize, step: &Step) -> Result<(), AllocError>
    ensures { OnOk result (string_bytes text.new ≡ string_bytes text.old ++ with_line_feed (history_line place step.now.event step.now.reply)) }
{
    push_history_line(alloc, text, place as u64, &step.event, &step.reply)?;
    text.push_str("\n")
}

/// The lines of steps, each with its place.
fn history_text(alloc: Global, steps: &[Step]) -> Result<String, AllocError>
    ensures { IfOk result (λ text. string_bytes text ≡ lines_from 0 steps.now) }
{
    let mut text = String::new(alloc);
    for (place, step) in steps.iter().enumerate() {
        push_step(alloc, &mut text, place, step)?;
    }
    Ok(text)
}

/// The result of a history, with its lines.
fn tell_worked(
    alloc: Global,
    order: Order,
    bundle: &Bundle,
    worked: &Worked,
) -> Result<Report, AllocError>
    requires { IsWorked order bundle.now worked.now }
    ensures answer { IfOk result (λ held. Holds held.answer (applied_answer order bundle.now)) }
    ensures notes { IfOk result (λ held. TellsOf order bundle.now held.notes.items) }
{
    let lines = history_text(alloc, worked.book.steps())?;
    Ok(Report {
        answer: worked_answer(alloc, order, bundle, worked)?,
        notes: lines.into_bytes(),
    })
}

/// The line of a verdict on the keys. There is no history.
#[tactic(auto, using(crate::proofs::Telling::no_history))]
fn tell_unsound(
    alloc: Global,
    order: Order,
    bundle: &Bundle,
    verdict: &Verdict,
) -> Result<Report, AllocError>
    requires unsound { IsUnsound order bundle.now verdict.now }
    requires keys { verdict.now ≡ keys_over order bundle.now }
    ensures answer { IfOk result (λ held. Holds held.answer (applied_answer order bundle.now)) }
    ensures notes { IfOk result (λ held. TellsOf order bundle.now held.notes.items) }
{
    Ok(Report {
        answer: unsound_answer(alloc, order, bundle, verdict)?,
        notes: Vec::new(alloc),
    })
}

/// What workers left of a bundle's journals, with the lines of their history.
fn tell_result(
    alloc: Global,
    order: Order,
    bundle: &Bundle,
    found: &StateOrVerdict<Worked>,
) -> Result<Report, AllocError>
    requires found { IsStateOrVerdict (IsWorked order bundle.now) order bundle.now found.now }
    requires keys { IsVerdictOfKeys order bundle.now found.now }
    ensures answer { IfOk result (λ held. Holds held.answer (applied_answer order bundle.now)) }
    ensures notes { IfOk result (λ held. TellsOf order bundle.now held.notes.items) }
{
    match found {
        StateOrVerdict::State(worked) => tell_worked(alloc, order, bundle, worked),
        StateOrVerdict::Verdict(verdict) => tell_unsound(alloc, order, bundle, verdict),
    }
}

/// The result of a bundle whose opening rows are known, with the lines of a history.
fn tell_known<R: Threads + Wait + Sync>(
    rt: &R,
    alloc: Global,
    order: Order,
    workers: u8,
    bundle: &Bundle,
) -> Result<Report, Fault>
    requires { (1 ≤ workers) × (workers ≤ 64) }
    ensures answer { IfOk result (λ held. Holds held.answer (applied_answer order bundle.now)) }
    ensures notes { IfOk result (λ held. TellsOf order bundle.now held.notes.items) }
    ensures fault { IfErr result (GivesUp (IsBundleFault bundle.now)) }
{
    let found = work_journals(rt, alloc, bundle, order, workers, &NoGate)?;
    let held = tell_result(alloc, order, bundle, &found);
    drop(found);
    Ok(held?)
}

/// What is answered where the opening rows aren't known. There is no history.
fn tell_unapplied(
    alloc: Global,
    order: Order,
    bytes: &[u8],
    bundle: &Bundle,
) -> Result<Report, Fault>
    requires { lacks_rows bundle.now.assumptions ≡ true }
    ensures answer { IfOk result (λ held. Holds held.answer (unapplied order (line_count bytes.now - 1) bundle.now)) }
    ensures notes { IfOk result (λ held. TellsOf order bundle.now held.notes.items) }
    ensures fault { IfErr result (GivesUp (IsBundleFault bundle.now)) }
{
    Ok(Report {
        answer: unapplied_answer(alloc, order, bundle, count_lines(bytes).saturating_sub(1))?,
        notes: Vec::new(alloc),
    })
}

/// The result of a bundle that has this text, with the lines of a history.
fn tell_bundle<R: Threads + Wait + Sync>(
    rt: &R,
    alloc: Global,
    order: Order,
    workers: u8,
    bytes: &[u8],
    bundle: &Bundle,
) -> Result<Report, Fault>
    requires { (1 ≤ workers) × (workers ≤ 64) }
    ensures answer { IfOk result (λ held. Holds held.answer (applied_text order (record { bundle = bundle.now; lines = line_count bytes.now }))) }
    ensures notes { IfOk result (λ held. TellsOf order bundle.now held.notes.items) }
    ensures fault { IfErr result (GivesUp (IsBundleFault bundle.now)) }
{
    if bundle.lacks_rows() {
        tell_unapplied(alloc, order, bytes, bundle)
    } else {
        tell_known(rt, alloc, order, workers, bundle)
    }
}

/// The result of a bundle's bytes, with the lines of a history; or the fault of the bytes.
fn tell_found<R: Threads + Wait + Sync>(
    rt: &R,
    alloc: Global,
    order: Order,
    workers: u8,
    bytes: &[u8],
) -> Result<Report, Fault>
    requires { (1 ≤ workers) × (workers ≤ 64) }
    ensures { FindsTold order bytes.now result }
{
    match decode_whole(alloc, bytes) {
        Ok(bundle) => tell_bundle(rt, alloc, order, workers, bytes, &bundle),
        Err(fault) => Err(Fault::from(fault)),
    }
}

/// The line of a refusal, which has no history.
fn tell_refused(alloc: Global, refusal: &Refusal) -> Result<Report, AllocError>
    ensures answer { IfOk result (λ held. Holds held.answer (refused_with refusal.now)) }
    ensures notes { IfOk result (λ held. held.notes.items ≡ []) }
{
    Ok(Report {
        answer: refusal_answer(alloc, refusal)?,
        notes: Vec::new(alloc),
    })
}

/// An answer, or the line of its refusal, with the lines of a history.
fn settle_told(alloc: Global, found: Result<Report, Fault>) -> Result<Report, RunFault>
    ensures ok { IfOk result (SettlesTold found) }
    ensures memory { IfErr result (λ f. f ≡ RunFault.Memory) }
{
    match found {
        Ok(held) => Ok(held),
        Err(Fault::Memory) => Err(RunFault::Memory),
        Err(Fault::Refused(refusal)) => match tell_refused(alloc, &refusal) {
            Ok(held) => Ok(held),
            Err(_) => Err(RunFault::Memory),
        },
    }
}

/// The answer to bytes, with the lines of a history.
fn tell_bytes<R: Threads + Wait + Sync>(
    rt: &R,
    alloc: Global,
    order: Order,
    workers: u8,
    bytes: &[u8],
) -> Result<Report, RunFault>
    requires { (1 ≤ workers) × (workers ≤ 64) }
    ensures ok { IfOk result (HoldsReport (Tells order) bytes.now) }
    ensures memory { IfErr result (λ f. f ≡ RunFault.Memory) }
{
    settle_told(alloc, tell_found(rt, alloc, order, workers, bytes))
}

/// The request to apply a bundle with this many workers, 1 to 64, and to tell their history.
#[derive(Drop)]
struct ToldApply<'a, R: Threads + Wait + Sync> {
    threads: &'a R,
    order: Order,
    workers: u8,
}

impl<'a, R: Threads + Wait + Sync> Reporter for ToldApply<'a, R> {
    ghost use Rattle.commands.specs.Applying.{Tells};

    ghost ready = { λ asked. (1 ≤ asked.workers) × (asked.workers ≤ 64) × IsSync R.row };

    ghost reports = { λ asked. Tells asked.order };

    fn report(&self, alloc: Global, bytes: &[u8]) -> Result<Report, RunFault> {
        tell_bytes(self.threads, alloc, self.order, self.workers, bytes)
    }
}

/// Reads a bundle, writes to the streams what `apply_bundle` writes, and nothing else, and to `errors` the lines of the history by which
/// workers that share a replica came to it: `<place> <seat> <event> -> <reply>`. If the bytes are no bundle, if its opening rows aren't known, or
/// if the keys of its journals are not sound, there is no history. If the answer could not be written, nothing is told.
pub fn apply_and_tell<S: Source, W: Sink, E: Sink, R: Threads + Wait + Sync>(
    rt: &R,
    alloc: Global,
    order: Order,
    workers: u8,
    streams: &mut Streams<S, W>,
    errors: &mut E,
) -> Result<Outcome, RunFault>
    requires { (1 ≤ workers) × (workers ≤ 64) }
    ensures done { IfOk result
        (HasReported E.written E.failed (Tells order) errors.old errors.new streams.old streams.new) }
    ensures failed { IfErr result
        (HasNotReported E.written E.failed (Tells order) errors.old errors.new streams.old streams.new) }
{
    let told = ToldApply {
        threads: rt,
        order,
        workers,
    };
    run_report(alloc, &told, streams, errors)
}
