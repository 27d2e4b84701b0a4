//! The command `audit --explain`.
ghost use Rattle.std.specs.Prelude.{◌≡◌, IfOk, IfErr};
ghost use Rattle.serving.specs.Faults.{IsVerdictFault};
ghost use Rattle.fault_places.specs.Lines.{lines_of};
ghost use Rattle.fault_places.specs.Explained.{refusal_explained};
ghost use Rattle.commands.specs.Printed.{Holds, GivesUp, refused_with};
ghost use Rattle.commands.specs.Bundles.{audit_answer};
ghost use Rattle.commands.specs.Reports.{HoldsReport, HasReported, HasNotReported};
ghost use Rattle.commands.specs.Explaining.{AreMissingBeside, Explains, ExplainsBundle, FindsExplained, SettlesExplained};

use crate::answer::{Answer, refusal_answer};
use crate::audit_command::verdict_answer;
use crate::bundle_reading::decode_whole;
use crate::edge::{Outcome, RunFault, Sink, Source};
use crate::report::{Report, Reporter, run_report};
use crate::streams::Streams;
use fault_places::{explain_refusal, explain_verdict};
use gtid_report::{Fault, Refusal};
use gtid_set::{GtidSet, SetFault};
use serving::{Order, audited_over, faults_over};
use std::alloc::{AllocError, Global};
use std::mem;
use txn_journal::Bundle;
use world::Verdict;

/// The GTIDs that are missing beside the one of the verdict.
fn missing_beside(
    alloc: Global,
    bundle: &Bundle,
    verdict: &Verdict,
) -> Result<Option<GtidSet>, AllocError>
    ensures { IfOk result (AreMissingBeside bundle.now verdict.now) }
{
    match verdict {
        Verdict::Missing(_) => match faults_over(alloc, bundle) {
            Ok(all) => Ok(Some(all.missing)),
            Err(SetFault::Memory) => Err(AllocError),
            Err(_) => Ok(None),
        },
        _ => Ok(None),
    }
}

/// The verdict on a bundle, and what explains it.
fn explain_bundle(
    alloc: Global,
    order: Order,
    bytes: &[u8],
    bundle: &Bundle,
) -> Result<Report, Fault>
    ensures answer { IfOk result (λ held. Holds held.answer (audit_answer order bundle.now)) }
    ensures notes { IfOk result (λ held. ExplainsBundle order bytes.now bundle.now held.notes.items) }
    ensures fault { IfErr result (GivesUp (IsVerdictFault bundle.now)) }
{
    let verdict = audited_over(alloc, bundle, order)?;
    let missing = missing_beside(alloc, bundle, &verdict)?;
    let notes = explain_verdict(alloc, bytes, bundle, &missing, &verdict)?;
    Ok(Report {
        answer: verdict_answer(alloc, bundle, &verdict)?,
        notes,
    })
}

/// The answer to a bundle's bytes, with what explains it; or the fault of the bytes. The bundle is leaked: the end of the process frees it.
fn explain_found(alloc: Global, order: Order, bytes: &[u8]) -> Result<Report, Fault>
    ensures { FindsExplained order bytes.now result }
{
    match decode_whole(alloc, bytes) {
        Ok(bundle) => {
            let held = explain_bundle(alloc, order, bytes, &bundle);
            mem::forget(bundle);
            held
        }
        Err(fault) => Err(Fault::from(fault)),
    }
}

/// The line of a refusal, and what explains it.
fn explain_refused(alloc: Global, bytes: &[u8], refusal: &Refusal) -> Result<Report, AllocError>
    ensures answer { IfOk result (λ held. Holds held.answer (refused_with refusal.now)) }
    ensures notes { IfOk result (λ held. held.notes.items ≡ refusal_explained (lines_of bytes.now) refusal.now) }
{
    let notes = explain_refusal(alloc, bytes, refusal)?;
    Ok(Report {
        answer: refusal_answer(alloc, refusal)?,
        notes,
    })
}

/// An answer, or the line of its refusal, and what explains it.
fn settle_explained(
    alloc: Global,
    bytes: &[u8],
    found: Result<Report, Fault>,
) -> Result<Report, RunFault>
    ensures ok { IfOk result (SettlesExplained bytes.now found) }
    ensures memory { IfErr result (λ f. f ≡ RunFault.Memory) }
{
    match found {
        Ok(held) => Ok(held),
        Err(Fault::Memory) => Err(RunFault::Memory),
        Err(Fault::Refused(refusal)) => match explain_refused(alloc, bytes, &refusal) {
            Ok(held) => Ok(held),
            Err(_) => Err(RunFault::Memory),
        },
    }
}

/// The answer to bytes, and what explains it.
fn explain_bytes(alloc: Global, order: Order, bytes: &[u8]) -> Result<Report, RunFault>
    ensures ok { IfOk result (HoldsReport (Explains order) bytes.now) }
    ensures memory { IfErr result (λ f. f ≡ RunFault.Memory) }
{
    settle_explained(alloc, bytes, explain_found(alloc, order, bytes))
}

/// The audit that asks for an order, with what explains its answer.
#[derive(Drop)]
struct ExplainedAudit {
    order: Order,
}

impl Reporter for ExplainedAudit {
    ghost use Rattle.commands.specs.Explaining.{Explains};

    ghost reports = { λ a. Explains a.order };

    fn report(&self, alloc: Global, bytes: &[u8]) -> Result<Report, RunFault> {
        explain_bytes(alloc, self.order, bytes)
    }
}

/// Reads a bundle, writes to the streams what `run_audit` writes, and nothing else, and to `errors` lines that explain it: where the input
/// has what the verdict or the refusal names (`fault_places::explain_verdict`, `explain_refusal`). The text is kept until then. If the
/// verdict's line could not be written, nothing explains it.
pub fn run_explain<S: Source, W: Sink, E: Sink>(
    alloc: Global,
    order: Order,
    streams: &mut Streams<S, W>,
    errors: &mut E,
) -> Result<Outcome, RunFault>
    ensures done { IfOk result
        (HasReported E.written E.failed (Explains order) errors.old errors.new streams.old streams.new) }
    ensures failed { IfErr result
        (HasNotReported E.written E.failed (Explains order) errors.old errors.new streams.old streams.new) }
{
    run_report(alloc, &ExplainedAudit { order }, streams, errors)
}
