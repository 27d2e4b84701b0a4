//! A bundle whose journals are logs, as a bundle.
ghost use Rattle.std.specs.Prelude.{◌≡◌, ◌≢◌, [], IfOk, IfErr};
ghost use Rattle.txn_journal.specs.BundleReaders.{bundle_reading};
ghost use Rattle.binlog_bundle.specs.Bundles.{BeginsLast, IsStart, ImportsBundle};
ghost use Rattle.binlog_bundle.specs.Files.{files};
ghost use Rattle.binlog_bundle.specs.Weighed.{ImportsLogs, IsNoImportOfLogs};
ghost use Rattle.binlog_bundle.specs.Logs.{terms_of, texts};
ghost use Rattle.binlog_bundle.specs.Refused.{end_for, IsNoBundle};
ghost use Rattle.binlog_bundle.specs.Channels.{HasCome, HasHead, IsDescribed};

use crate::assumed::said_before;
use crate::channels::{ImportProgress, take_channels};
use crate::executed::first_lack;
use crate::fault::{BundleFault, fault_at_line};
use crate::files::{ChannelFiles, FileLogs};
use crate::grants::Grants;
use crate::head::{HeadFault, PlainHead, WeighedHead, fault_in_head, weighed_head};
use crate::lines::{cut_own, line_at, split_line};
use crate::logs::{Logs, TextLogs};
use crate::reading::{add, add_both, close, read_head};
use crate::weighed::WeighedLogs;
use gtid_set::{GtidSet, SetFault};
use std::alloc::Global;
use txn_journal::{Bundle, BundleReader, JournalFault};

/// A bundle that a text of logs describes.
#[derive(Drop)]
pub struct ImportedBundle {
    pub bundle: Bundle,
    /// What a verdict on the bundle doesn't see and no line of the bundle says, a line for each: the tables of each channel with a key that the
    /// server compares otherwise than by its bytes.
    pub notes: Vec<u8>,
}

/// The bundle, if no channel lacks anything that its server had executed.
fn without_lack<L: Logs>(
    alloc: Global,
    grants: Grants,
    logs: &L,
    text: &[u8],
    bundle: Bundle,
    executed: &[Option<GtidSet>],
    notes: Vec<u8>,
) -> Result<ImportedBundle, BundleFault>
    requires { IsDescribed (terms_of grants (L.origin logs.now)) text.now bundle executed.now notes.items }
    ensures found { IfOk result (λ i. ImportsBundle (terms_of grants (L.origin logs.now)) text.now i.bundle i.notes.items) }
    ensures refused { IfErr result (λ fault. IsNoBundle (terms_of grants (L.origin logs.now)) fault text.now) }
{
    match first_lack(alloc, &bundle, executed) {
        Ok(None) => Ok(ImportedBundle { bundle, notes }),
        Ok(Some(lack)) => Err(BundleFault::Executed {
            channel: lack.channel,
            missing: lack.missing,
        }),
        Err(fault) => Err(BundleFault::Own(JournalFault::Set(fault))),
    }
}

/// The bundle that a text describes, after its channels.
fn end<L: Logs>(
    alloc: Global,
    grants: Grants,
    logs: &L,
    start: &Bundle,
    progress: ImportProgress,
    text: &[u8],
    left: &[u8],
) -> Result<ImportedBundle, BundleFault>
    requires last { BeginsLast left.now }
    requires come { HasCome (terms_of grants (L.origin logs.now)) start.now text.now left.now progress }
    ensures found { IfOk result (λ i. ImportsBundle (terms_of grants (L.origin logs.now)) text.now i.bundle i.notes.items) }
    ensures refused { IfErr result (λ fault. IsNoBundle (terms_of grants (L.origin logs.now)) fault text.now) }
{
    let ImportProgress {
        reader,
        executed,
        assumed,
        passed_over,
        notes,
    } = progress;
    let mut reader = reader;
    let Ok(said) = said_before(alloc, grants, left, assumed, passed_over) else {
        return Err(BundleFault::Own(JournalFault::Set(SetFault::Memory)));
    };
    let (line, behind) = split_line(left);
    match add_both(alloc, &mut reader, &said, line) {
        Ok(()) => {}
        Err(fault) => return Err(BundleFault::Own(fault_at_line(fault, line_at(text, left)))),
    }
    match close(alloc, reader, behind) {
        Ok(bundle) => without_lack(alloc, grants, logs, text, bundle, &executed, notes),
        Err(fault) => Err(BundleFault::Own(fault_at_line(fault, line_at(text, behind)))),
    }
}

/// The bundle that a text describes, from its first channel on. Its head is this one, and begins a bundle.
fn import_channels<L: Logs>(
    alloc: Global,
    grants: Grants,
    logs: &L,
    start: &Bundle,
    head: &[u8],
    plain: PlainHead,
    text: &[u8],
    rest: &[u8],
) -> Result<ImportedBundle, BundleFault>
    requires head { HasHead (terms_of grants (L.origin logs.now)) text.now head.now plain.text.items plain.passed_over rest.now }
    requires begins { IsStart plain.text.items start.now }
    requires more { rest.now ≢ [] }
    ensures found { IfOk result (λ i. ImportsBundle (terms_of grants (L.origin logs.now)) text.now i.bundle i.notes.items) }
    ensures refused { IfErr result (λ fault. IsNoBundle (terms_of grants (L.origin logs.now)) fault text.now) }
{
    let mut progress = ImportProgress {
        reader: BundleReader::start(alloc),
        executed: Vec::new(alloc),
        assumed: Vec::new(alloc),
        passed_over: plain.passed_over,
        notes: Vec::new(alloc),
    };
    match add(alloc, &mut progress.reader, &plain.text) {
        Ok(()) => {}
        Err(fault) => return Err(BundleFault::Own(fault_in_head(head, fault))),
    }
    match take_channels(alloc, grants, logs, start, &mut progress, text, rest) {
        Ok(left) => end(alloc, grants, logs, start, progress, text, left),
        Err(fault) => Err(fault),
    }
}

/// What is read with a head: nothing if nothing comes after it, and else the end of a bundle.
fn end_for(rest: &[u8]) -> &'static [u8]
    ensures { result.now ≡ end_for rest.now }
{
    if rest.is_empty() { b"" } else { b"done\n" }
}

/// The bundle that a text describes whose head has a plain one.
fn import_plain<L: Logs>(
    alloc: Global,
    grants: Grants,
    logs: &L,
    head: &[u8],
    plain: PlainHead,
    text: &[u8],
    rest: &[u8],
) -> Result<ImportedBundle, BundleFault>
    requires { HasHead (terms_of grants (L.origin logs.now)) text.now head.now plain.text.items plain.passed_over rest.now }
    ensures found { IfOk result (λ i. ImportsBundle (terms_of grants (L.origin logs.now)) text.now i.bundle i.notes.items) }
    ensures refused { IfErr result (λ fault. IsNoBundle (terms_of grants (L.origin logs.now)) fault text.now) }
{
    let mut plain = plain;
    match read_head(alloc, &mut plain.text, end_for(rest)) {
        Ok(bundle) if rest.is_empty() => Ok(ImportedBundle {
            bundle,
            notes: Vec::new(alloc),
        }),
        Ok(start) => import_channels(alloc, grants, logs, &start, head, plain, text, rest),
        Err(fault) => Err(BundleFault::Own(fault_in_head(head, fault))),
    }
}

/// The bundle that a text describes: a bundle of version 3, but that a channel's log, wherever logs come from, is in the place of its journal,
/// that the line of a channel says what its server had executed, and that the head may name what a bundle can't hold. What is granted of these
/// the bundle assumes, and also what of the opening set the servers of its channels hadn't executed, and which logs may be damaged unseen.
pub fn import_bundle_from<L: Logs>(
    alloc: Global,
    grants: Grants,
    logs: &L,
    text: &[u8],
) -> Result<ImportedBundle, BundleFault>
    // Its text is the other one with the journals of the channels' logs, and with the lines of what is assumed before the last one; what was
    // executed is within it, and this is noted.
    ensures found { IfOk result (λ i. ImportsLogs grants (L.origin logs.now) text.now i.bundle i.notes.items) }
    // Which line is the first that is refused, which log describes no journal of that bundle, or which channel's server had executed more.
    ensures refused { IfErr result (λ fault. IsNoImportOfLogs grants (L.origin logs.now) fault text.now) }
{
    let (head, rest) = cut_own(text);
    match weighed_head(alloc, grants, head) {
        Ok(WeighedHead { plain, derivation }) => {
            let logs = WeighedLogs {
                logs,
                derivation: &derivation,
            };
            import_plain(alloc, grants, &logs, head, plain, text, rest)
        }
        Err(HeadFault::Memory) => Err(BundleFault::Own(JournalFault::Set(SetFault::Memory))),
        Err(HeadFault::Unsupported(what)) => Err(BundleFault::Unsupported(what)),
    }
}

/// The bundle that a text describes in which a log's text, as mysqlbinlog prints it, is in the place of each journal, where an operator
/// answers for the statements of these transactions.
pub fn import_bundle(
    alloc: Global,
    grants: Grants,
    accepted: &GtidSet,
    text: &[u8],
) -> Result<ImportedBundle, BundleFault>
    ensures found { IfOk result (λ i. ImportsLogs grants (texts accepted.now) text.now i.bundle i.notes.items) }
    ensures refused { IfErr result (λ fault. IsNoImportOfLogs grants (texts accepted.now) fault text.now) }
{
    import_bundle_from(alloc, grants, &TextLogs { accepted }, text)
}

/// The bundle that a text describes where the log of each channel is in the binary log files of its name, and nothing in the text is in the
/// place of its journal, and an operator answers for the statements of these transactions.
pub fn import_files(
    alloc: Global,
    grants: Grants,
    accepted: &GtidSet,
    channels: &[ChannelFiles],
    text: &[u8],
) -> Result<ImportedBundle, BundleFault>
    ensures found { IfOk result (λ i.
        ImportsLogs grants (files accepted.now channels.now) text.now i.bundle i.notes.items) }
    ensures refused { IfErr result (λ fault. IsNoImportOfLogs grants (files accepted.now channels.now) fault text.now) }
{
    import_bundle_from(alloc, grants, &FileLogs { channels, accepted }, text)
}
