//! Tables that a log maps.
ghost use Rattle.std.specs.Prelude.{◌≡◌, IfOk, IfSome, IfNone};
ghost use Rattle.binlog_text.specs.Reading.{line_of};
ghost use Rattle.binlog_bundle.specs.Tables.{has_table, has_named, maps_other, HasOther, HasNoOther};

use crate::lines::line_at;
use binlog_entries::cut_line;
use binlog_text::{LogLine, read_line};
use log_transactions::table_name;
use rows::{Name, Table};
use std::alloc::{AllocError, Global};

/// Whether one of the tables has this name.
fn has_table(tables: &[Table], name: &Name) -> bool
    ensures { result ≡ has_table tables.now name.now }
{
    tables.iter().any(|table| table.name.as_str().as_bytes() == name.as_str().as_bytes())
}

/// Whether one of the tables has this name, if there is one.
fn has_named(tables: &[Table], name: &Option<Name>) -> bool
    ensures { result ≡ has_named tables.now name.now }
{
    match name {
        Some(name) => has_table(tables, name),
        None => false,
    }
}

/// Whether a line maps a table that is none of these.
fn maps_other(alloc: Global, tables: &[Table], line: &[u8]) -> Result<bool, AllocError>
    ensures { IfOk result (λ other. other ≡ maps_other tables.now (line_of line.now)) }
{
    match read_line(line) {
        Some(LogLine::TableMap(database, table)) => {
            let name = table_name(alloc, database, table)?;
            Ok(!has_named(tables, &name))
        }
        _ => Ok(false),
    }
}

/// The number, from 1, of the first line of a log that maps a table which is none of these.
pub fn other_table(alloc: Global, tables: &[Table], log: &[u8]) -> Result<Option<u64>, AllocError>
    ensures found { IfOk result (λ found. IfSome found (λ n. HasOther tables.now n log.now)) }
    ensures none { IfOk result (λ found. IfNone found (HasNoOther tables.now log.now)) }
{
    let mut left = log;
    while let Some((line, after)) = cut_line(left) {
        if maps_other(alloc, tables, line)? {
            return Ok(Some(line_at(log, left)));
        }
        left = after;
    }
    Ok(None)
}
