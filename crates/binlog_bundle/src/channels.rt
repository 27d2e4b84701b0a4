//! The channels of a bundle of logs.
ghost use Rattle.std.specs.Prelude.{◌≡◌, ◌++◌, ◌∷◌, [], ℕ, List, option_map, IfOk, IfErr, OnOk};
ghost use Rattle.txn_journal.specs.BundleReaders.{bundle_reading};
ghost use Rattle.binlog_bundle.specs.Accepted.{accepted_in};
ghost use Rattle.binlog_bundle.specs.Assumed.{assumed_of, IsPartFault};
ghost use Rattle.binlog_entries.specs.Imports.{IsWritten, IsNotWritten};
ghost use Rattle.binlog_bundle.specs.Notes.{name_in, notes_for};
ghost use Rattle.binlog_bundle.specs.Bundles.{BeginsLast};
ghost use Rattle.binlog_bundle.specs.Logs.{terms_of, BringsJournal};
ghost use Rattle.binlog_bundle.specs.Refused.{IsFed, IsNoBundle};
ghost use Rattle.binlog_bundle.specs.Channels.{HasRead, HasCome, FeedsLog, FeedsChannel, IsSaid, IsAssumed, IsNoted, IsWordRead, IsWordRefused, IsNotHad, IsJournalFault, CantFeedLog, CantFeedChannel};

use crate::accepted::accepted_in;
use crate::assumed::{AssumedLine, assume_channel};
use crate::executed::{cut_executed, executed_set};
use crate::fault::{BundleFault, ChannelFault, SourceFault};
use crate::grants::Grants;
use crate::lines::{cut_own, is_channel, line_at};
use crate::logs::{Logs, ReadChannel};
use crate::notes::{name_in, note_bytes};
use crate::reading::{add, add_line};
use crate::tables::other_table;
use binlog_entries::{ImportFault, ImportedJournal, ReadFault, cut_line, journal_of};
use gtid_set::{GtidSet, SetFault};
use rows::Schema;
use std::alloc::{AllocError, Global};
use txn_journal::{Bundle, BundleReader, JournalFault};

/// What the head and the channels of a text have made, as far as they have come.
#[derive(Drop)]
pub struct ImportProgress {
    /// It has read the plain head, and the journals of the logs.
    pub reader: BundleReader,
    /// What the server of each channel had executed, if its line says so.
    pub executed: Vec<Option<GtidSet>>,
    /// The lines that say what is assumed of the channels.
    pub assumed: Vec<AssumedLine>,
    /// Whether lines of the head were passed over.
    pub passed_over: bool,
    pub notes: Vec<u8>,
}

/// Why the journal that a log describes is not taken: a line of the log that maps a table which the schema has not is named, if there is one.
fn journal_fault(alloc: Global, schema: &Schema, log: &[u8], fault: JournalFault) -> ChannelFault
    ensures { IsJournalFault schema.now log.now fault result }
{
    match fault {
        JournalFault::Line { line: _, cause: _ } => {
            match other_table(alloc, schema.tables(), log) {
                Ok(Some(at)) => ChannelFault::Table(at),
                Ok(None) => ChannelFault::Journal(fault),
                Err(AllocError) => ChannelFault::Own(JournalFault::Set(SetFault::Memory)),
            }
        }
        _ => ChannelFault::Journal(fault),
    }
}

/// Why the channel of this name isn't read, if it has no log for this reason.
fn source_fault(alloc: Global, name: &[u8], fault: SourceFault) -> ChannelFault
    ensures { IsNotHad name.now fault result }
{
    match fault {
        SourceFault::Text(fault) => ChannelFault::Log(ImportFault::Text(fault)),
        SourceFault::Logless(why) => ChannelFault::Logless(why),
        SourceFault::File(fault) => match name.to_vec(alloc) {
            Ok(channel) => ChannelFault::Binlog(channel, fault),
            Err(_) => ChannelFault::Own(JournalFault::Set(SetFault::Memory)),
        },
    }
}

/// The journal of a channel's log.
#[derive(Drop)]
pub struct LogJournal {
    pub journal: ImportedJournal,
    /// Whether damage in the log couldn't be seen.
    pub is_unchecked: bool,
    /// The transactions for whose statements an operator answers.
    pub statements: GtidSet,
}

/// The journal of a log that was read, and the transactions for whose statements an operator answers.
fn write_journal(
    alloc: Global,
    grants: Grants,
    accepted: &GtidSet,
    start: &Bundle,
    read: ReadChannel,
) -> Result<LogJournal, ImportFault>
    ensures written { IfOk result (λ j. IsWritten start.now.start.schema grants.bytes read.log.previous read.log.entries.items
        read.log.varied.items j.journal.text.items j.journal.varied.items) }
    ensures unchecked { IfOk result (λ j. j.is_unchecked ≡ read.is_unchecked) }
    ensures statements { IfOk result (λ j. j.statements ≡ accepted_in accepted.now read.log.entries.items) }
    ensures refused { IfErr result (IsNotWritten start.now.start.schema grants.bytes read.log.previous read.log.entries.items
        read.log.varied.items) }
{
    let journal = match journal_of(alloc, start.schema(), grants.bytes, &read.log) {
        Ok(journal) => journal,
        Err(fault) => return Err(fault),
    };
    match accepted_in(alloc, accepted, &read.log.entries) {
        Ok(statements) => Ok(LogJournal {
            journal,
            is_unchecked: read.is_unchecked,
            statements,
        }),
        Err(_) => Err(ImportFault::Text(ReadFault::Set(SetFault::Memory))),
    }
}

/// The journal of the log of the channel of this name, with this text behind its line.
fn read_journal<L: Logs>(
    alloc: Global,
    grants: Grants,
    logs: &L,
    start: &Bundle,
    name: &[u8],
    log: &[u8],
) -> Result<LogJournal, ChannelFault>
    ensures found { IfOk result (λ j. BringsJournal (terms_of grants (L.origin logs.now)) start.now name.now log.now
        j.journal.text.items j.journal.varied.items j.statements) }
    ensures unchecked { IfOk result (λ j. j.is_unchecked ≡ (L.origin logs.now).is_unchecked name.now) }
    ensures refused { (before : List ℕ) → IfErr result (CantFeedLog (terms_of grants (L.origin logs.now)) start.now name.now log.now before) }
{
    let read = match logs.read(alloc, name, start.opening_set(), log) {
        Ok(read) => read,
        Err(fault) => return Err(source_fault(alloc, name, fault)),
    };
    match write_journal(alloc, grants, logs.accepted(), start, read) {
        Ok(journal) => Ok(journal),
        Err(fault) => Err(ChannelFault::Log(fault)),
    }
}

/// Takes the journal of the log of the channel of this name, with this text behind its line.
fn take_log<L: Logs>(
    alloc: Global,
    grants: Grants,
    logs: &L,
    start: &Bundle,
    reader: &mut BundleReader,
    name: &[u8],
    log: &[u8],
) -> Result<LogJournal, ChannelFault>
    ensures fed { IfOk result (λ j. FeedsLog (terms_of grants (L.origin logs.now)) start.now name.now log.now (bundle_reading reader.old) (bundle_reading reader.new) j.journal.varied.items j.statements) }
    ensures unchecked { IfOk result (λ j. j.is_unchecked ≡ (L.origin logs.now).is_unchecked name.now) }
    ensures refused { (before : List ℕ) → IsFed (bundle_reading reader.old) before → IfErr result (CantFeedLog (terms_of grants (L.origin logs.now)) start.now name.now log.now before) }
{
    let read = match read_journal(alloc, grants, logs, start, name, log) {
        Ok(read) => read,
        Err(fault) => return Err(fault),
    };
    match add(alloc, reader, &read.journal.text) {
        Ok(()) => Ok(read),
        Err(fault) => Err(journal_fault(alloc, start.schema(), log, fault)),
    }
}

/// What the server of a channel had executed, by the word of the channel's line; that there is none has to be granted.
fn executed_of(
    alloc: Global,
    grants: Grants,
    word: Option<&[u8]>,
) -> Result<Option<GtidSet>, ChannelFault>
    ensures found { IfOk result (IsWordRead grants (option_map (λ w. w.now) word.entry)) }
    ensures refused { IfErr result (IsWordRefused grants (option_map (λ w. w.now) word.entry)) }
{
    match word {
        Some(word) => match executed_set(alloc, word) {
            Ok(executed) => Ok(Some(executed)),
            Err(fault) => Err(ChannelFault::Own(fault)),
        },
        None if grants.executed_unknown => Ok(None),
        None => Err(ChannelFault::Unknown),
    }
}

/// Keeps what a channel's server had executed, what is assumed of the channel, and the notes on it.
fn keep_channel(
    alloc: Global,
    start: &Bundle,
    progress: &mut ImportProgress,
    own: &[u8],
    read: &LogJournal,
    executed: Option<GtidSet>,
) -> Result<(), SetFault>
    ensures reader { bundle_reading progress.new.reader ≡ bundle_reading progress.old.reader }
    ensures said { OnOk result (IsSaid progress.old progress.new executed) }
    ensures assumed { OnOk result (IsAssumed progress.old progress.new (assumed_of (name_in own.now) start.now.opened executed read.now.is_unchecked read.now.statements)) }
    ensures noted { OnOk result (IsNoted progress.old progress.new (notes_for start.now own.now read.now.journal.varied.items)) }
    ensures head { progress.new.passed_over ≡ progress.old.passed_over }
    ensures fault { IfErr result (λ fault. IsPartFault fault start.now.opened executed) }
{
    let channel = name_in(own);
    match assume_channel(
        alloc,
        &mut progress.assumed,
        channel,
        start.opening_set(),
        &executed,
        read.is_unchecked,
        &read.statements,
    ) {
        Ok(()) => {}
        Err(fault) => return Err(fault),
    }
    note_bytes(
        &mut progress.notes,
        channel,
        start.schema().tables(),
        &read.journal.varied,
    )?;
    progress.executed.push(executed)?;
    Ok(())
}

/// Takes the line of a channel, and the journal of its log.
fn take_channel<L: Logs>(
    alloc: Global,
    grants: Grants,
    logs: &L,
    start: &Bundle,
    progress: &mut ImportProgress,
    line: &[u8],
    log: &[u8],
) -> Result<(), ChannelFault>
    ensures fed { OnOk result (FeedsChannel (terms_of grants (L.origin logs.now)) start.now line.now log.now progress.old progress.new) }
    ensures refused { (before : List ℕ) → HasRead progress.old before → IfErr result (CantFeedChannel (terms_of grants (L.origin logs.now)) start.now line.now log.now before) }
{
    let (own, word) = cut_executed(line);
    match add_line(alloc, &mut progress.reader, own) {
        Ok(()) => {}
        Err(fault) => return Err(ChannelFault::Own(fault)),
    }
    let executed = match executed_of(alloc, grants, word) {
        Ok(executed) => executed,
        Err(fault) => return Err(fault),
    };
    let reader = &mut progress.reader;
    let read = match take_log(alloc, grants, logs, start, reader, name_in(own), log) {
        Ok(read) => read,
        Err(fault) => return Err(fault),
    };
    match keep_channel(alloc, start, progress, own, &read, executed) {
        Ok(()) => Ok(()),
        Err(fault) => Err(ChannelFault::Own(JournalFault::Set(fault))),
    }
}

/// Takes the channels with which what is left of a text begins, and returns what is left after them.
pub fn take_channels<'a, L: Logs>(
    alloc: Global,
    grants: Grants,
    logs: &L,
    start: &Bundle,
    progress: &mut ImportProgress,
    text: &[u8],
    rest: &'a [u8],
) -> Result<&'a [u8], BundleFault>
    requires { HasCome (terms_of grants (L.origin logs.now)) start.now text.now rest.now progress.old }
    ensures last { IfOk result (λ left. BeginsLast left.now) }
    ensures come { IfOk result (λ left. HasCome (terms_of grants (L.origin logs.now)) start.now text.now left.now progress.new) }
    ensures refused { IfErr result (λ fault. IsNoBundle (terms_of grants (L.origin logs.now)) fault text.now) }
{
    let mut left = rest;
    while let Some((line, after)) = cut_line(left) {
        if !is_channel(line) {
            return Ok(left);
        }
        let (log, behind) = cut_own(after);
        match take_channel(alloc, grants, logs, start, progress, line, log) {
            Ok(()) => left = behind,
            Err(fault) => return Err(fault.at(line_at(text, left))),
        }
    }
    Ok(left)
}
