//! The command `import` with binary log files.
ghost use Rattle.std.specs.Prelude.{◌≡◌, None, option_map, IfOk, IfErr};
ghost use Rattle.commands.specs.Reports.{HoldsReport, HasReported, HasNotReported};
ghost use Rattle.commands.specs.Imports.{ImportsWithFiles, has_name, unnamed};
ghost use Rattle.binlog_bundle.specs.Weighed.{ImportsLogs};
ghost use Rattle.binlog_bundle.specs.Files.{files as log_files};

use crate::edge::{Outcome, RunFault, Sink, Source};
use crate::import_command::{report_imported, report_refused};
use crate::import_fault::{Refused, bundle_refused};
use crate::report::{Report, Reporter, run_report};
use crate::streams::Streams;
use binlog_bundle::{ChannelFiles, Grants, ImportedBundle, import_files};
use gtid_set::GtidSet;
use std::alloc::Global;
use txn_journal::BundleChannel;

/// Whether a channel has this name.
fn has_name(name: &[u8], channels: &[BundleChannel]) -> bool
    ensures { result ≡ has_name name.now channels.now }
{
    channels
        .iter()
        .any(|channel| channel.name.as_str().as_bytes() == name)
}

/// The first name of files that is none of these channels'.
fn unnamed<'a>(logs: &'a [ChannelFiles], channels: &[BundleChannel]) -> Option<&'a [u8]>
    ensures { option_map (λ name. name.now) result ≡ unnamed logs.now channels.now }
{
    for log in logs {
        if !has_name(&log.name, channels) {
            return Some(&log.name);
        }
    }
    None
}

/// The bundle, or that some files are of none of its channels.
fn report_filed(
    alloc: Global,
    grants: Grants,
    accepted: &GtidSet,
    is_explained: bool,
    logs: &[ChannelFiles],
    text: &[u8],
    imported: ImportedBundle,
) -> Result<Report, RunFault>
    requires { ImportsLogs grants (log_files accepted.now logs.now) text.now imported.bundle imported.notes.items }
    ensures ok { IfOk result (HoldsReport (ImportsWithFiles accepted.now logs.now grants is_explained) text.now) }
    ensures memory { IfErr result (λ f. f ≡ RunFault.Memory) }
{
    let Some(name) = unnamed(logs, imported.bundle.channels()) else {
        return report_imported(alloc, imported);
    };
    match Vec::from_slice(alloc, name) {
        Ok(name) => report_refused(alloc, is_explained, text, Refused::Files(name)),
        Err(_) => Err(RunFault::Memory),
    }
}

/// What is written for a head and these files.
fn report_files(
    alloc: Global,
    grants: Grants,
    accepted: &GtidSet,
    is_explained: bool,
    logs: &[ChannelFiles],
    text: &[u8],
) -> Result<Report, RunFault>
    ensures ok { IfOk result (HoldsReport (ImportsWithFiles accepted.now logs.now grants is_explained) text.now) }
    ensures memory { IfErr result (λ f. f ≡ RunFault.Memory) }
{
    match import_files(alloc, grants, accepted, logs, text) {
        Ok(imported) => report_filed(alloc, grants, accepted, is_explained, logs, text, imported),
        Err(fault) => report_refused(alloc, is_explained, text, bundle_refused(fault)),
    }
}

/// The import of files, with what an operator grants and answers for, and whether a refusal is explained.
#[derive(Drop)]
struct FileImport<'a> {
    logs: &'a [ChannelFiles],
    grants: Grants,
    accepted: &'a GtidSet,
    is_explained: bool,
}

impl<'a> Reporter for FileImport<'a> {
    ghost use Rattle.commands.specs.Imports.{ImportsWithFiles};

    ghost reports = { λ i. ImportsWithFiles i.accepted.now i.logs.now i.grants i.is_explained };

    fn report(&self, alloc: Global, bytes: &[u8]) -> Result<Report, RunFault> {
        report_files(
            alloc,
            self.grants,
            self.accepted,
            self.is_explained,
            self.logs,
            bytes,
        )
    }
}

/// Reads the head of a bundle, whose journals are those of binary log files. If it is imported, its text by version 3 of the format is written to
/// the streams, with a line for each thing that a verdict rests on by what the operator grants and answers for, or because a log has no checksums; and to
/// `errors` a line for each that the text doesn't say. If it is refused, nothing is written to the streams, and to `errors` the line of the
/// refusal: a line of the head, or a file and the offset of an event. If `is_explained`, also the line of the head that it names.
pub fn run_import_files<S: Source, W: Sink, E: Sink>(
    alloc: Global,
    grants: Grants,
    accepted: &GtidSet,
    is_explained: bool,
    logs: &[ChannelFiles],
    streams: &mut Streams<S, W>,
    errors: &mut E,
) -> Result<Outcome, RunFault>
    ensures done { IfOk result
        (HasReported E.written E.failed (ImportsWithFiles accepted.now logs.now grants is_explained) errors.old errors.new streams.old streams.new) }
    ensures failed { IfErr result
        (HasNotReported E.written E.failed (ImportsWithFiles accepted.now logs.now grants is_explained) errors.old errors.new streams.old streams.new) }
{
    let import = FileImport {
        logs,
        grants,
        accepted,
        is_explained,
    };
    run_report(alloc, &import, streams, errors)
}
