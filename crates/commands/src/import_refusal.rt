//! The lines with which `import` refuses a text.
ghost use Rattle.std.specs.Prelude.{◌≡◌, ◌++◌, ◌∷◌, IfOk, OnOk, option_map, codes, decimal};
ghost use Rattle.txn_journal.specs.WrittenSets.{set_text};
ghost use Rattle.gtid_text.specs.Canonical.{gtid_text};
ghost use Rattle.commands.specs.LogPlaces.{place_of, place_at};
ghost use Rattle.commands.specs.Imports.{column_text, mapped_text, refusal_text, limit_text, cause_text, HasLine, file_word, offset_text, binlog_line, refused_line, line_explained, explanation, refusal_notes};
ghost use Rattle.binlog_entries.specs.declared.fault.EntryRefusal.TheVariants as refusals;
ghost use Rattle.commands.specs.declared.import_fault.Refused.TheVariants.{At};

use crate::import_fault::{FileCause, ImportCause, Refused, line_named};
use crate::log_places::{LogPlace, place_at, put_place};
use binlog_entries::{EntryRefusal, Limit};
use binlog_events::fault_word;
use fault_places::{put, put_number};
use gtid_report::{Fault, push_set, render_fault};
use gtid_set::GtidSet;
use gtid_text::{Gtid, write_gtid};
use log_transactions::table_name;
use rows::Name;
use std::alloc::{AllocError, Global};

fn put_bytes(out: &mut Vec<u8>, bytes: &[u8]) -> Result<(), AllocError>
    ensures { OnOk result (out.new.items ≡ out.old.items ++ bytes.now) }
{
    out.extend_from_slice(bytes)
}

/// Appends a table, and a column of it.
fn put_column(out: &mut Vec<u8>, table: &[u8], column: usize) -> Result<(), AllocError>
    ensures { OnOk result (out.new.items ≡ out.old.items ++ column_text table.now column) }
{
    put(out, " ")?;
    put_bytes(out, table)?;
    put(out, " ")?;
    put_number(out, column)
}

/// Appends a table of this name, if it has one, and its next column.
fn put_mapped(out: &mut Vec<u8>, table: &Option<Name>, columns: u64) -> Result<(), AllocError>
    ensures { OnOk result (out.new.items ≡ out.old.items ++ mapped_text table.now columns) }
{
    match table {
        Some(table) => put_column(out, table.as_str().as_bytes(), columns as usize),
        None => Ok(()),
    }
}

/// The name of the table that was mapped last.
fn mapped_name(alloc: Global, place: &LogPlace<'_>) -> Result<Option<Name>, AllocError>
    ensures { IfOk result (λ name. name ≡ (place_of place.now).table) }
{
    match place.table {
        Some((database, table)) => table_name(alloc, database, table),
        None => Ok(None),
    }
}

/// Appends that the type of a column is refused.
fn put_type(alloc: Global, out: &mut Vec<u8>, place: &LogPlace<'_>) -> Result<(), AllocError>
    ensures { OnOk result (out.new.items ≡ out.old.items ++ refusal_text refusals.Type (place_of place.now)) }
{
    let table = mapped_name(alloc, place)?;
    put(out, "type")?;
    put_mapped(out, &table, place.columns)
}

/// Appends why a line of a log in this text is refused.
fn put_entry_refusal(
    alloc: Global,
    out: &mut Vec<u8>,
    text: &[u8],
    line: u64,
    refusal: EntryRefusal,
) -> Result<(), AllocError>
    ensures { OnOk result (out.new.items ≡ out.old.items ++ refusal_text refusal (place_at line text.now)) }
{
    match refusal {
        EntryRefusal::Type => put_type(alloc, out, &place_at(text, line)),
        _ => put(out, refusal.word()),
    }
}

fn put_gtid(alloc: Global, out: &mut Vec<u8>, gtid: Gtid) -> Result<(), AllocError>
    ensures { OnOk result (out.new.items ≡ out.old.items ++ gtid_text gtid) }
{
    let mut text = String::new(alloc);
    write_gtid(&mut text, gtid)?;
    put(out, text.as_str())
}

fn put_set(alloc: Global, out: &mut Vec<u8>, set: &GtidSet) -> Result<(), AllocError>
    ensures { OnOk result (out.new.items ≡ out.old.items ++ set_text set.now) }
{
    let mut text = String::new(alloc);
    push_set(alloc, &mut text, set)?;
    put(out, text.as_str())
}

/// Appends which limit an entry passes.
fn put_limit(out: &mut Vec<u8>, limit: &Limit) -> Result<(), AllocError>
    ensures { OnOk result (out.new.items ≡ out.old.items ++ limit_text limit.now) }
{
    match limit {
        Limit::Changes => Ok(()),
        Limit::Columns(table) => {
            put(out, " ")?;
            put(out, table.as_str())
        }
        Limit::Bytes(table, column) => put_column(out, table.as_str().as_bytes(), *column),
    }
}

/// Appends that an entry passes a limit.
fn put_too_large(
    alloc: Global,
    out: &mut Vec<u8>,
    gtid: Gtid,
    limit: &Limit,
) -> Result<(), AllocError>
    ensures { OnOk result (out.new.items ≡ out.old.items ++ (codes "limit " ++ (gtid_text gtid ++ limit_text limit.now))) }
{
    put(out, "limit ")?;
    put_gtid(alloc, out, gtid)?;
    put_limit(out, limit)
}

/// Appends that a value of a column has no hidden value.
fn put_unweighed(
    alloc: Global,
    out: &mut Vec<u8>,
    gtid: Gtid,
    table: &Name,
    column: u32,
) -> Result<(), AllocError>
    ensures { OnOk result (out.new.items ≡ out.old.items ++ (codes "characters " ++ (gtid_text gtid ++ column_text table.now column))) }
{
    put(out, "characters ")?;
    put_gtid(alloc, out, gtid)?;
    put_column(out, table.as_str().as_bytes(), column as usize)
}

/// Appends why a line of this text is refused.
fn put_cause(
    alloc: Global,
    out: &mut Vec<u8>,
    text: &[u8],
    line: u64,
    cause: &ImportCause,
) -> Result<(), AllocError>
    ensures { OnOk result (out.new.items ≡ out.old.items ++ cause_text cause.now (place_at line text.now)) }
{
    match cause {
        ImportCause::Line(refusal) => put_entry_refusal(alloc, out, text, line, *refusal),
        ImportCause::Unfinished => put(out, "unfinished"),
        ImportCause::Key(table, column) => {
            put(out, "key")?;
            put_column(out, table.as_str().as_bytes(), *column)
        }
        ImportCause::TooLarge(gtid, limit) => put_too_large(alloc, out, *gtid, limit),
        ImportCause::Limit => put(out, "limit"),
        ImportCause::Schema => put(out, "schema"),
        ImportCause::Unknown => put(out, "executed"),
        ImportCause::NoFiles => put(out, "files"),
        ImportCause::Text => put(out, "text"),
        ImportCause::Collation(table, column) => {
            put(out, "collation")?;
            put_column(out, table.as_str().as_bytes(), *column as usize)
        }
        ImportCause::Weights(gtid, table, column) => {
            put_unweighed(alloc, out, *gtid, table, *column)
        }
    }
}

/// Appends that a line of this text is refused.
fn put_line_refused(
    alloc: Global,
    out: &mut Vec<u8>,
    text: &[u8],
    line: u64,
    cause: &ImportCause,
) -> Result<(), AllocError>
    ensures { OnOk result (out.new.items ≡ out.old.items ++ refused_line text.now (At line cause.now)) }
{
    put(out, "refused import line ")?;
    put_number(out, line as usize)?;
    put(out, " ")?;
    put_cause(alloc, out, text, line, cause)
}

/// Appends that a channel lacks what its server had executed.
fn put_lacking(
    alloc: Global,
    out: &mut Vec<u8>,
    channel: &str,
    missing: &GtidSet,
) -> Result<(), AllocError>
    ensures { OnOk result (out.new.items ≡ out.old.items ++ (codes "refused import executed " ++ (channel.now ++ 32 ∷ set_text missing.now))) }
{
    put(out, "refused import executed ")?;
    put(out, channel)?;
    put(out, " ")?;
    put_set(alloc, out, missing)
}

/// Appends that the head names what a bundle can't hold.
fn put_unsupported(out: &mut Vec<u8>, what: &[u8]) -> Result<(), AllocError>
    ensures { OnOk result (out.new.items ≡ out.old.items ++ (codes "refused import unsupported " ++ what.now)) }
{
    put(out, "refused import unsupported ")?;
    put_bytes(out, what)
}

/// The word of what is wrong with a file.
fn file_word(cause: FileCause) -> &'static str
    ensures { result.now ≡ file_word cause }
{
    match cause {
        FileCause::Damaged(kind) => fault_word(kind),
        FileCause::Refused(refusal) => refusal.word(),
    }
}

/// Appends an offset of a file, and what is wrong there.
fn put_offset(out: &mut Vec<u8>, offset: u64, cause: FileCause) -> Result<(), AllocError>
    ensures { OnOk result (out.new.items ≡ out.old.items ++ offset_text offset cause) }
{
    put(out, " ")?;
    put_number(out, offset as usize)?;
    put(out, " ")?;
    put(out, file_word(cause))
}

/// Appends a file of a channel, by its number, and what is wrong at an offset of it.
fn put_file(
    out: &mut Vec<u8>,
    channel: &[u8],
    file: u64,
    offset: u64,
    cause: FileCause,
) -> Result<(), AllocError>
    ensures { OnOk result (out.new.items ≡ out.old.items ++ (channel.now ++ 32 ∷ (decimal file ++ offset_text offset cause))) }
{
    put_bytes(out, channel)?;
    put(out, " ")?;
    put_number(out, file as usize)?;
    put_offset(out, offset, cause)
}

/// Appends that a file of a channel is refused.
fn put_binlog(
    out: &mut Vec<u8>,
    channel: &[u8],
    file: u64,
    offset: u64,
    cause: FileCause,
) -> Result<(), AllocError>
    ensures { OnOk result (out.new.items ≡ out.old.items ++ binlog_line channel.now file offset cause) }
{
    put(out, "refused binlog ")?;
    put_file(out, channel, file, offset, cause)
}

/// Appends that files are named of a channel that the head hasn't.
fn put_files(out: &mut Vec<u8>, channel: &[u8]) -> Result<(), AllocError>
    ensures { OnOk result (out.new.items ≡ out.old.items ++ (codes "refused import files " ++ channel.now)) }
{
    put(out, "refused import files ")?;
    put_bytes(out, channel)
}

/// Appends the line of a refusal of this text, without the line feed.
fn put_refused(
    alloc: Global,
    out: &mut Vec<u8>,
    text: &[u8],
    refused: &Refused,
) -> Result<(), AllocError>
    ensures text { OnOk result (out.new.items ≡ out.old.items ++ refused_line text.now refused.now) }
    ensures line { OnOk result (HasLine refused.now) }
{
    match refused {
        Refused::Known(Fault::Memory) => Err(AllocError),
        Refused::Known(Fault::Refused(refusal)) => put(out, render_fault(alloc, refusal)?.as_str()),
        Refused::At(line, cause) => put_line_refused(alloc, out, text, *line, cause),
        Refused::Executed(channel, missing) => put_lacking(alloc, out, channel.as_str(), missing),
        Refused::Unsupported(what) => put_unsupported(out, what),
        Refused::Binlog(channel, file, offset, cause) => put_binlog(
            out, channel, *file, *offset, *cause,
        ),
        Refused::Files(channel) => put_files(out, channel),
    }
}

/// Appends what is known at the line that a refusal names.
fn put_explanation(out: &mut Vec<u8>, text: &[u8], line: Option<u64>) -> Result<(), AllocError>
    ensures { OnOk result (out.new.items ≡ out.old.items ++ line_explained text.now line) }
{
    match line {
        Some(line) => put_place(out, line, &place_at(text, line)),
        None => Ok(()),
    }
}

/// The line of a refusal of a text, and, if that is asked for, what explains it.
pub(crate) fn refusal_notes(
    alloc: Global,
    is_explained: bool,
    text: &[u8],
    refused: &Refused,
) -> Result<Vec<u8>, AllocError>
    ensures text { IfOk result (λ notes. notes.items ≡ refusal_notes is_explained text.now refused.now) }
    ensures line { OnOk result (HasLine refused.now) }
{
    let mut notes = Vec::new(alloc);
    put_refused(alloc, &mut notes, text, refused)?;
    put(&mut notes, "\n")?;
    if is_explained {
        put_explanation(&mut notes, text, line_named(refused))?;
    }
    Ok(notes)
}
