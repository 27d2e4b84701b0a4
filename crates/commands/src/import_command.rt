//! The command `import`.
ghost use Rattle.std.specs.Prelude.{◌≡◌, IfOk, IfErr, OnOk};
ghost use Rattle.commands.specs.Printed.{Holds};
ghost use Rattle.commands.specs.Bundles.{text_answer};
ghost use Rattle.txn_journal.specs.declared.lines.Version.TheVariants.{Three};
ghost use Rattle.commands.specs.Reports.{HoldsReport, HasReported, HasNotReported};
ghost use Rattle.commands.specs.Imports.{Imports, HasLine, refusal_notes, silent_refusal};

use crate::answer::Answer;
use crate::edge::{Outcome, RunFault, Sink, Source};
use crate::import_fault::{Refused, bundle_refused};
use crate::import_refusal::refusal_notes;
use crate::pieces::Text;
use crate::report::{Report, Reporter, run_report};
use crate::streams::Streams;
use binlog_bundle::{Grants, ImportedBundle, import_bundle};
use gtid_set::GtidSet;
use std::alloc::Global;
use std::mem;
use txn_journal::{Bundle, Version, bundle_text};

/// The text of a bundle.
fn import_found(alloc: Global, bundle: &Bundle) -> Result<Answer, RunFault>
    ensures ok { IfOk result (λ answer. Holds answer (text_answer Three bundle.now)) }
    ensures memory { IfErr result (λ f. f ≡ RunFault.Memory) }
{
    match bundle_text(alloc, Version::Three, bundle) {
        Ok(text) => Ok(Answer {
            outcome: Outcome::Done,
            text: Text::of(alloc, text),
        }),
        Err(_) => Err(RunFault::Memory),
    }
}

/// The text of a bundle, and what a verdict on it won't see and it doesn't say. The bundle is leaked: the end of the process frees it.
pub(crate) fn report_imported(alloc: Global, imported: ImportedBundle) -> Result<Report, RunFault>
    ensures answer { IfOk result (λ held. Holds held.answer (text_answer Three imported.bundle)) }
    ensures notes { IfOk result (λ held. held.notes.items ≡ imported.notes.items) }
    ensures memory { IfErr result (λ f. f ≡ RunFault.Memory) }
{
    let ImportedBundle { bundle, notes } = imported;
    let answer = import_found(alloc, &bundle);
    mem::forget(bundle);
    Ok(Report {
        answer: answer?,
        notes,
    })
}

/// The line of a refusal of a text, and, if that is asked for, what explains it.
pub(crate) fn report_refused(
    alloc: Global,
    is_explained: bool,
    text: &[u8],
    refused: Refused,
) -> Result<Report, RunFault>
    ensures answer { IfOk result (λ held. Holds held.answer silent_refusal) }
    ensures notes { IfOk result (λ held. held.notes.items ≡ refusal_notes is_explained text.now refused) }
    ensures line { OnOk result (HasLine refused) }
    ensures memory { IfErr result (λ f. f ≡ RunFault.Memory) }
{
    let Ok(notes) = refusal_notes(alloc, is_explained, text, &refused) else {
        return Err(RunFault::Memory);
    };
    Ok(Report {
        answer: Answer {
            outcome: Outcome::Refused,
            text: Text::of(alloc, String::new(alloc)),
        },
        notes,
    })
}

/// What is written for a text.
fn report_import(
    alloc: Global,
    grants: Grants,
    accepted: &GtidSet,
    is_explained: bool,
    text: &[u8],
) -> Result<Report, RunFault>
    ensures ok { IfOk result (HoldsReport (Imports accepted.now grants is_explained) text.now) }
    ensures memory { IfErr result (λ f. f ≡ RunFault.Memory) }
{
    match import_bundle(alloc, grants, accepted, text) {
        Ok(imported) => report_imported(alloc, imported),
        Err(fault) => report_refused(alloc, is_explained, text, bundle_refused(fault)),
    }
}

/// The import with what an operator grants and answers for, and whether a refusal is explained.
#[derive(Drop)]
struct Import<'a> {
    grants: Grants,
    accepted: &'a GtidSet,
    is_explained: bool,
}

impl<'a> Reporter for Import<'a> {
    ghost use Rattle.commands.specs.Imports.{Imports};

    ghost reports = { λ i. Imports i.accepted.now i.grants i.is_explained };

    fn report(&self, alloc: Global, bytes: &[u8]) -> Result<Report, RunFault> {
        report_import(alloc, self.grants, self.accepted, self.is_explained, bytes)
    }
}

/// Reads a bundle whose journals are the texts of logs. If it is imported, its text by version 3 of the format is written to the streams,
/// with a line for each thing that a verdict rests on by what the operator grants and answers for; and to `errors` a line for each that the text doesn't say. If
/// it is refused, nothing is written to the streams, and to `errors` the line of the refusal; if `is_explained`, also the line that it
/// names, with the transaction, the end of the event and the file.
pub fn run_import<S: Source, W: Sink, E: Sink>(
    alloc: Global,
    grants: Grants,
    accepted: &GtidSet,
    is_explained: bool,
    streams: &mut Streams<S, W>,
    errors: &mut E,
) -> Result<Outcome, RunFault>
    ensures done { IfOk result
        (HasReported E.written E.failed (Imports accepted.now grants is_explained) errors.old errors.new streams.old streams.new) }
    ensures failed { IfErr result
        (HasNotReported E.written E.failed (Imports accepted.now grants is_explained) errors.old errors.new streams.old streams.new) }
{
    let import = Import {
        grants,
        accepted,
        is_explained,
    };
    run_report(alloc, &import, streams, errors)
}
