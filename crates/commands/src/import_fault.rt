//! Why `import` refuses a text.
ghost use Rattle.std.specs.Prelude.{◌≡◌};
ghost use Rattle.commands.specs.Imports.{text_refused, entry_refused, log_refused, cause_refused, journal_refused, binlog_refused, logless_refused, bundle_refused, line_named};

use binlog_bundle::{BundleFault, Logless};
use binlog_entries::{EntryRefusal, ImportFault, Limit, LogFault, ReadFault};
use binlog_files::{FileRefusal, FilesFault};
use binlog_frames::FaultKind;
use gtid_report::{Fault, Refusal};
use gtid_set::GtidSet;
use gtid_text::Gtid;
use rows::Name;
use txn_journal::{Cause, JournalFault};

/// What is wrong with a line of a log, or with a channel or its log.
#[derive(Drop)]
pub(crate) enum ImportCause {
    /// The line is refused.
    Line(EntryRefusal),
    /// The log ends before its last line.
    Unfinished,
    /// A table, and a column of one of its keys, counted from 0, that the server does not compare by its bytes.
    Key(Name, usize),
    /// The entry of this GTID passes a limit.
    TooLarge(Gtid, Limit),
    /// An entry passes a limit of the format.
    Limit,
    /// The tables don't take an entry.
    Schema,
    /// It isn't known what the channel's server had executed.
    Unknown,
    /// No file of the channel is named.
    NoFiles,
    /// There is text in the place of the channel's log, and files are read.
    Text,
    /// The log says that the server compares this column of this table, counted from 0, otherwise than the head says.
    Collation(Name, u32),
    /// In the entry of this GTID a value of this column of this table has no hidden value, as bytes that are no text of its character set.
    Weights(Gtid, Name, u32),
}

/// What is wrong with a binary log file.
#[derive(Clone, Copy, Debug, PartialEq, Eq, Drop)]
pub(crate) enum FileCause {
    /// Its bytes are not those of one.
    Damaged(FaultKind),
    /// An event is refused.
    Refused(FileRefusal),
}

/// Why a text is refused.
#[derive(Drop)]
pub(crate) enum Refused {
    /// For a reason for which any text may be refused.
    Known(Fault),
    /// A line of a log is refused, or a channel at its line.
    At(u64, ImportCause),
    /// The server of this channel had executed these GTIDs, which are missing.
    Executed(Name, GtidSet),
    /// The head names what a bundle can't hold.
    Unsupported(Vec<u8>),
    /// The file of this channel and number, counted from 1, is refused, for the event at this offset.
    Binlog(Vec<u8>, u64, u64, FileCause),
    /// Files are named of a channel that the head hasn't.
    Files(Vec<u8>),
}

fn text_refused(channel: u64, fault: ReadFault) -> Refused
    ensures { result ≡ text_refused channel fault }
{
    match fault {
        ReadFault::Set(fault) => Refused::Known(Fault::from(fault)),
        ReadFault::Line { line, refusal } => Refused::At(
            channel.saturating_add(line),
            ImportCause::Line(refusal),
        ),
        ReadFault::Unfinished { line } => Refused::At(
            channel.saturating_add(line),
            ImportCause::Unfinished,
        ),
    }
}

fn entry_refused(channel: u64, fault: LogFault) -> Refused
    ensures { result ≡ entry_refused channel fault }
{
    match fault {
        LogFault::Set(fault) => Refused::Known(Fault::from(fault)),
        LogFault::Twice(gtid) => Refused::Known(Fault::Refused(Refusal::Twice(gtid))),
        LogFault::TooLarge(gtid, limit) => Refused::At(channel, ImportCause::TooLarge(gtid, limit)),
    }
}

fn log_refused(channel: u64, fault: ImportFault) -> Refused
    ensures { result ≡ log_refused channel fault }
{
    match fault {
        ImportFault::Text(fault) => text_refused(channel, fault),
        ImportFault::Key(table, column) => Refused::At(channel, ImportCause::Key(table, column)),
        ImportFault::Log(fault) => entry_refused(channel, fault),
    }
}

fn cause_refused(channel: u64, cause: Cause) -> Refused
    ensures { result ≡ cause_refused channel cause }
{
    match cause {
        Cause::Schema => Refused::At(channel, ImportCause::Schema),
        Cause::Limit => Refused::At(channel, ImportCause::Limit),
        Cause::Version | Cause::Keyword | Cause::Body | Cause::Stamp | Cause::Twice(_) =>
            Refused::Known(Fault::from(JournalFault::Line {
                line: channel,
                cause,
            })),
    }
}

fn journal_refused(fault: JournalFault) -> Refused
    ensures { result ≡ journal_refused fault }
{
    match fault {
        JournalFault::Set(fault) => Refused::Known(Fault::from(fault)),
        JournalFault::Line { line, cause } => cause_refused(line, cause),
        JournalFault::Truncated { line } => Refused::Known(Fault::from(JournalFault::Truncated {
            line,
        })),
    }
}

fn binlog_refused(channel: Vec<u8>, file: u64, fault: FilesFault) -> Refused
    ensures { result ≡ binlog_refused channel file fault }
{
    match fault {
        FilesFault::Set(fault) => Refused::Known(Fault::from(fault)),
        FilesFault::Damaged(fault) => Refused::Binlog(
            channel,
            file,
            fault.offset,
            FileCause::Damaged(fault.kind),
        ),
        FilesFault::Refused(offset, refusal) => Refused::Binlog(
            channel,
            file,
            offset,
            FileCause::Refused(refusal),
        ),
    }
}

fn logless_refused(line: u64, why: Logless) -> Refused
    ensures { result ≡ logless_refused line why }
{
    match why {
        Logless::Missing => Refused::At(line, ImportCause::NoFiles),
        Logless::Surplus => Refused::At(line, ImportCause::Text),
        Logless::Collation(table, column) => {
            Refused::At(line, ImportCause::Collation(table, column))
        }
        Logless::Weights(gtid, table, column) => {
            Refused::At(line, ImportCause::Weights(gtid, table, column))
        }
    }
}

/// Why a text is refused with this fault.
pub(crate) fn bundle_refused(fault: BundleFault) -> Refused
    ensures { result ≡ bundle_refused fault }
{
    match fault {
        BundleFault::Own(fault) => Refused::Known(Fault::from(fault)),
        BundleFault::Log { line, fault } => log_refused(line, fault),
        BundleFault::Table { line, at } => Refused::At(
            line.saturating_add(at),
            ImportCause::Line(EntryRefusal::Table),
        ),
        BundleFault::Journal(fault) => journal_refused(fault),
        BundleFault::Unsupported(what) => Refused::Unsupported(what),
        BundleFault::Unknown { line } => Refused::At(line, ImportCause::Unknown),
        BundleFault::Executed { channel, missing } => Refused::Executed(channel, missing),
        BundleFault::Binlog { channel, fault } => binlog_refused(channel, fault.file, fault.fault),
        BundleFault::Logless { line, why } => logless_refused(line, why),
    }
}

/// The line that a refusal names.
pub(crate) fn line_named(refused: &Refused) -> Option<u64>
    ensures { result ≡ line_named refused.now }
{
    match refused {
        Refused::At(line, _) => Some(*line),
        Refused::Known(Fault::Refused(Refusal::Line(line, _))) => Some(*line),
        Refused::Known(Fault::Refused(Refusal::Truncated(line))) => Some(*line),
        Refused::Known(Fault::Refused(Refusal::Version(line))) => Some(*line),
        _ => None,
    }
}
