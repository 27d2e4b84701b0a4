//! A log as the text of a journal.
ghost use Rattle.std.specs.Prelude.{◌≡◌, IfOk, IfErr, OnOk, IfSome, IfNone};
ghost use Rattle.txn_journal.specs.Spelling.{spelling_as};
ghost use Rattle.txn_journal.specs.Stamps.{right_stamps};
ghost use Rattle.txn_journal.specs.declared.lines.Version.TheVariants.{Three};
ghost use Rattle.binlog_entries.specs.Keys.{varied_places};
ghost use Rattle.binlog_entries.specs.Imports.{Imports, IsNoImport, IsWritten, IsNotWritten, AreKeysTaken, IsKeyFault};

use crate::as_journal::{LogFault, log_journal};
use crate::fault::ReadFault;
use crate::keys::{varied_key, varied_places};
use crate::reader::read_log;
use gtid_set::{GtidSet, SetFault};
use journal::Journal;
use log_transactions::{LoggedTransactions, Varied, VariedColumns};
use rows::{Name, Schema, Table};
use std::alloc::{AllocError, Global};
use std::fmt;
use thiserror::Error;
use txn_journal::encode_v2;

/// Where the first line of a journal, `journal 2`, has its version.
const VERSION_PLACE: usize = 8;

/// Why a log, or its text, is not imported.
#[derive(Drop, Error)]
pub enum ImportFault {
    /// Its text is not read; or out of memory.
    #[error("{0}")]
    Text(ReadFault),
    /// A table of the schema, and a column of a key of it, counted from 0, whose values the server compares otherwise than their bytes.
    #[error("column {1} of a key is not compared by bytes")]
    Key(Name, usize),
    /// What it describes is no journal.
    #[error("{0}")]
    Log(LogFault),
}

impl fmt::Debug for ImportFault {
    fn fmt<W: fmt::Write>(&self, f: &mut fmt::Formatter<W>) -> fmt::Result {
        fmt::Display::fmt(self, f)
    }
}

/// The journal that the text of a binary log describes.
#[derive(Drop)]
pub struct ImportedJournal {
    /// Its text, by version 3 of the format.
    pub text: Vec<u8>,
    /// The places, ascending from 0, of the tables of the schema with a key that the server compares otherwise than by its bytes.
    pub varied: Vec<usize>,
}

/// The first table with a key that is not compared by its bytes, by its name, and the key's column, unless such keys are taken.
fn key_fault(bytes: bool, tables: &[Table], varied: &VariedColumns) -> Option<ImportFault>
    ensures none { IfNone result (AreKeysTaken tables.now bytes varied.now) }
    ensures some { IfSome result (IsKeyFault tables.now bytes varied.now) }
{
    if bytes {
        return None;
    }
    let Ok(found) = varied_key(tables, varied) else {
        return Some(ImportFault::Text(ReadFault::Set(SetFault::Memory)));
    };
    let Some((table, column)) = found else {
        return None;
    };
    Some(ImportFault::Key(table, column))
}

/// The places of the tables with a key that is not compared by its bytes; or why there is no journal.
fn places_of(
    alloc: Global,
    bytes: bool,
    tables: &[Table],
    varied: &[Varied],
) -> Result<Vec<usize>, ImportFault>
    ensures taken { OnOk result (AreKeysTaken tables.now bytes varied.now) }
    ensures places { IfOk result (λ places. places.items ≡ varied_places 0 tables.now varied.now) }
    ensures fault { IfErr result (IsKeyFault tables.now bytes varied.now) }
{
    let Ok(varied) = VariedColumns::of(alloc, varied) else {
        return Err(ImportFault::Text(ReadFault::Set(SetFault::Memory)));
    };
    if let Some(fault) = key_fault(bytes, tables, &varied) {
        return Err(fault);
    }
    match varied_places(alloc, tables, &varied) {
        Ok(places) => Ok(places),
        Err(_) => Err(ImportFault::Text(ReadFault::Set(SetFault::Memory))),
    }
}

/// The text of a journal by version 3 of the format, whose entries change tables of this schema. It is that of version 2 but for the number of the
/// version in the first line.
fn journal_text(alloc: Global, schema: &Schema, journal: &Journal) -> Result<Vec<u8>, AllocError>
    ensures { IfOk result (λ text. text.items ≡ spelling_as Three (right_stamps Three schema.now journal.now.entries) journal.now) }
{
    let mut text = encode_v2(alloc, schema, journal)?;
    text[VERSION_PLACE] = b'3';
    Ok(text)
}

/// The journal of a log, wherever its transactions were read; its entries change tables of this schema. `bytes` takes keys that the server
/// compares otherwise than their bytes.
pub fn journal_of(
    alloc: Global,
    schema: &Schema,
    bytes: bool,
    log: &LoggedTransactions,
) -> Result<ImportedJournal, ImportFault>
    // It is written with the log's entries, after what was executed before.
    ensures found { IfOk result (λ i.
        IsWritten schema.now bytes log.now.previous log.now.entries.items log.now.varied.items i.text.items i.varied.items) }
    // Which key is the first that is not compared by bytes, or which entry may not follow those before it.
    ensures refused { IfErr result
        (IsNotWritten schema.now bytes log.now.previous log.now.entries.items log.now.varied.items) }
{
    let varied = match places_of(alloc, bytes, schema.tables(), &log.varied) {
        Ok(varied) => varied,
        Err(fault) => return Err(fault),
    };
    let journal = match log_journal(alloc, log) {
        Ok(journal) => journal,
        Err(fault) => return Err(ImportFault::Log(fault)),
    };
    match journal_text(alloc, schema, &journal) {
        Ok(text) => Ok(ImportedJournal { text, varied }),
        Err(_) => Err(ImportFault::Log(LogFault::Set(SetFault::Memory))),
    }
}

/// The journal that the text of a binary log describes; its entries change tables of this schema, and what comes before the log is in the
/// opening set. `bytes` takes keys that the server compares otherwise than their bytes.
pub fn import_journal(
    alloc: Global,
    schema: &Schema,
    opening: &GtidSet,
    bytes: bool,
    text: &[u8],
) -> Result<ImportedJournal, ImportFault>
    // What the lines of the log's text mean, the journal's entries denote.
    ensures found { IfOk result (λ i. Imports schema.now opening.now bytes text.now i.text.items i.varied.items) }
    // Which line is the first that is refused, which key is the first that is not compared by bytes, or which entry may not follow those before it.
    ensures refused { IfErr result (λ fault. IsNoImport schema.now opening.now bytes fault text.now) }
{
    match read_log(alloc, opening, text) {
        Ok(log) => journal_of(alloc, schema, bytes, &log),
        Err(fault) => Err(ImportFault::Text(fault)),
    }
}
