//! The line of an event.
ghost use Rattle.std.specs.Prelude.{◌≡◌, ◌++◌, ◌∷◌, OnOk, IfOk, option_map, string_bytes};
ghost use Rattle.gtid_text.specs.Canonical.{gtid_text};
ghost use Rattle.binlog_frames.specs.Views.{view};
ghost use Rattle.binlog_frames.specs.Placed.{Placed};
ghost use Rattle.binlog_events.specs.Bodies.{rows_id, mapped_table};
ghost use Rattle.binlog_events.specs.Gtids.{gtid_of, tagged_of, tagged_gtid};
ghost use Rattle.binlog_events.specs.Names.{described, names_in};
ghost use Rattle.binlog_events.specs.Lines.{checksums_text, format_said, xid_said, mapped_said, gtid_said, tagged_text, tagged_said, counted, count_said, table_said, rows_said, is_rows, said, head_text, event_line};

use crate::bodies::{NamedTable, behind, mapped, query_text, rows_id};
use crate::gtids::{TaggedGtid, gtid_of, tagged_of};
use crate::kinds::put_kind;
use crate::names::{DescribedTable, TableNames};
use crate::numbers::part;
use crate::previous::put_previous;
use crate::text::{
    before_zero, put, put_bytes, put_escaped, put_number, put_source, put_table_name, put_text,
};
use binlog_frames::LoggedEvent;
use binlog_rows::{MappedColumn, count_rows};
use gtid_text::{Gtid, write_gtid};
use std::alloc::{AllocError, Global};

const MALFORMED: &str = " malformed";

fn checksums_text(algorithm: u8) -> &'static str
    ensures { result.now ≡ checksums_text algorithm }
{
    if algorithm == 1 {
        " crc32"
    } else {
        " no-checksums"
    }
}

/// Appends what a FORMAT_DESCRIPTION says.
#[tactic(auto, unfolding(crate::specs::Lines::format_said))]
fn put_format(out: &mut Vec<u8>, body: &[u8]) -> Result<(), AllocError>
    ensures { OnOk result (out.new.items ≡ out.old.items ++ format_said body.now) }
{
    if body.len() < 58 {
        return put(out, MALFORMED);
    }
    put(out, " ")?;
    put_bytes(out, before_zero(part(2, 50, body)))?;
    put(out, checksums_text(body[body.len() - 1]))
}

fn put_xid(out: &mut Vec<u8>, body: &[u8]) -> Result<(), AllocError>
    ensures { OnOk result (out.new.items ≡ out.old.items ++ xid_said body.now) }
{
    if body.len() == 8 {
        return Ok(());
    }
    put(out, MALFORMED)
}

/// Appends what a TABLE_MAP says.
fn put_mapped(out: &mut Vec<u8>, found: Option<NamedTable<'_>>) -> Result<(), AllocError>
    ensures { OnOk result (out.new.items ≡ out.old.items ++ mapped_said (option_map mapped_table found.entry)) }
{
    match found {
        None => put(out, MALFORMED),
        Some(table) => {
            put(out, " ")?;
            put_table_name(out, table.database, table.table)
        }
    }
}

fn gtid_text(alloc: Global, gtid: Gtid) -> Result<String, AllocError>
    ensures { IfOk result (λ text. string_bytes text ≡ gtid_text gtid) }
{
    let mut text = String::new(alloc);
    write_gtid(&mut text, gtid)?;
    Ok(text)
}

/// Appends what a GTID event says.
fn put_gtid(alloc: Global, out: &mut Vec<u8>, found: Option<Gtid>) -> Result<(), AllocError>
    ensures { OnOk result (out.new.items ≡ out.old.items ++ gtid_said found) }
{
    match found {
        None => put(out, MALFORMED),
        Some(gtid) => {
            let text = gtid_text(alloc, gtid)?;
            put(out, " ")?;
            put(out, &text)
        }
    }
}

/// Appends a GTID with a tag.
fn put_tagged_text(
    alloc: Global,
    out: &mut Vec<u8>,
    gtid: &TaggedGtid<'_>,
) -> Result<(), AllocError>
    ensures { OnOk result (out.new.items ≡ out.old.items ++ tagged_text (tagged_gtid gtid.now)) }
{
    put_source(alloc, out, gtid.source)?;
    put(out, ":")?;
    put_escaped(out, gtid.tag)?;
    put(out, ":")?;
    put_number(out, gtid.number)
}

/// Appends what a GTID_TAGGED event says.
fn put_tagged(alloc: Global, out: &mut Vec<u8>, body: &[u8]) -> Result<(), AllocError>
    ensures { OnOk result (out.new.items ≡ out.old.items ++ tagged_said (tagged_of body.now)) }
{
    let Some(gtid) = tagged_of(body) else {
        return put(out, MALFORMED);
    };
    put(out, " ")?;
    put_tagged_text(alloc, out, &gtid)
}

/// How many rows a rows event has of a table with these columns.
fn counted(
    alloc: Global,
    kind: u8,
    body: &[u8],
    columns: &Option<Vec<MappedColumn>>,
) -> Result<Option<u64>, AllocError>
    ensures { IfOk result (λ count. count ≡ counted kind body.now (option_map (λ v. v.items) columns.now)) }
{
    match columns {
        None => Ok(None),
        Some(columns) => count_rows(alloc, kind, columns, body),
    }
}

/// Appends how many rows there are.
fn put_count(out: &mut Vec<u8>, count: Option<u64>) -> Result<(), AllocError>
    ensures { OnOk result (out.new.items ≡ out.old.items ++ count_said count) }
{
    match count {
        None => put(out, MALFORMED),
        Some(count) => {
            put(out, " ")?;
            put_number(out, count)
        }
    }
}

/// Appends what a rows event says of its table, if an event has mapped its id.
fn put_table(
    alloc: Global,
    out: &mut Vec<u8>,
    kind: u8,
    body: &[u8],
    table: Option<&DescribedTable>,
) -> Result<(), AllocError>
    ensures { OnOk result (out.new.items ≡ out.old.items ++ table_said kind body.now (option_map (λ t. described t.now) table.entry)) }
{
    let Some(table) = table else {
        return put(out, " -");
    };
    put(out, " ")?;
    out.extend_from_slice(&table.name)?;
    if kind == 39 {
        return Ok(());
    }
    let count = counted(alloc, kind, body, &table.columns)?;
    put_count(out, count)
}

/// Appends what a rows event says.
fn put_rows(
    alloc: Global,
    out: &mut Vec<u8>,
    names: &TableNames,
    kind: u8,
    body: &[u8],
) -> Result<(), AllocError>
    ensures { OnOk result (out.new.items ≡ out.old.items ++ rows_said (names_in names.now) kind body.now (rows_id body.now)) }
{
    match rows_id(body) {
        None => put(out, MALFORMED),
        Some(id) => put_table(alloc, out, kind, body, names.get(id)),
    }
}

/// Appends what the body of a kind says.
#[tactic(auto, unfolding(crate::specs::Lines::said))]
fn put_said(
    alloc: Global,
    out: &mut Vec<u8>,
    names: &TableNames,
    kind: u8,
    body: &[u8],
) -> Result<(), AllocError>
    ensures { OnOk result (out.new.items ≡ out.old.items ++ said (names_in names.now) kind body.now) }
{
    match kind {
        2 => put_text(out, query_text(body)),
        4 => put_text(out, behind(8, body)),
        15 => put_format(out, body),
        16 => put_xid(out, body),
        19 => put_mapped(out, mapped(body)),
        29 => put_text(out, behind(1, body)),
        33 => put_gtid(alloc, out, gtid_of(body)),
        35 => put_previous(alloc, out, body),
        42 => put_tagged(alloc, out, body),
        23..=25 | 30..=32 | 39 => put_rows(alloc, out, names, kind, body),
        _ => Ok(()),
    }
}

/// Appends the offset, the kind and the length of an event.
fn put_head(out: &mut Vec<u8>, offset: u64, kind: u8, len: u64) -> Result<(), AllocError>
    ensures { OnOk result (out.new.items ≡ out.old.items ++ head_text offset kind len) }
{
    put_number(out, offset)?;
    put(out, " ")?;
    put_kind(out, kind)?;
    put(out, " ")?;
    put_number(out, len)
}

/// Appends the line of an event that begins at this offset and takes so many bytes.
pub(crate) fn put_event(
    alloc: Global,
    out: &mut Vec<u8>,
    names: &TableNames,
    offset: u64,
    len: u64,
    event: &LoggedEvent<'_>,
) -> Result<(), AllocError>
    ensures { OnOk result (out.new.items ≡ out.old.items ++ event_line (names_in names.now) (record { offset = offset; len = len; event = view event.now })) }
{
    put_head(out, offset, event.kind, len)?;
    put_said(alloc, out, names, event.kind, event.body)?;
    put(out, "\n")
}
