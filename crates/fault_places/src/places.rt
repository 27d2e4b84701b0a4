//! Where in the text the transactions of a GTID and the previous sets of journals are.
ghost use Rattle.std.specs.Prelude.{◌≡◌, ◌++◌, OnOk, map, length, ◌<◌, ◌^◌};
ghost use Rattle.fault_places.specs.HiddenValues.{without_hidden};
ghost use Rattle.fault_places.specs.Places.{channel_text, line_text, entry_text, named_text, change_text, report_entry, places_of, report_previous, previous_sets};

use crate::channels::put_label;
use crate::hidden_values::{ShownTables, put_without_hidden};
use crate::lines::{is_change, is_previous, put, put_number, put_shown};
use crate::log_places::put_log_place;
use crate::standing::{Standing, channel_after, is_named};
use crate::wanted::Wanted;
use rows::Schema;
use std::alloc::{AllocError, Global};

/// The number and the name of a channel.
fn put_channel(out: &mut Vec<u8>, name: &[u8], standing: Standing) -> Result<(), AllocError>
    ensures { OnOk result (out.new.items ≡ out.old.items ++ channel_text name.now standing) }
{
    put_label(out, standing.channels.saturating_sub(1), name)
}

/// A line, and its number from 1.
pub fn put_line(out: &mut Vec<u8>, number: usize, line: &[u8]) -> Result<(), AllocError>
    ensures { OnOk result (out.new.items ≡ out.old.items ++ line_text number line.now) }
{
    put(out, "line ")?;
    put_number(out, number)?;
    put(out, ": ")?;
    put_shown(out, line)?;
    put(out, "\n")
}

fn put_entry(
    out: &mut Vec<u8>,
    gtid: &[u8],
    name: &[u8],
    standing: Standing,
    number: usize,
) -> Result<(), AllocError>
    ensures { OnOk result (out.new.items ≡ out.old.items ++ entry_text gtid.now name.now standing number) }
{
    put(out, "  ")?;
    out.extend_from_slice(gtid)?;
    put(out, ": ")?;
    put_channel(out, name, standing)?;
    put(out, ", entry ")?;
    put_number(out, standing.entries)?;
    put(out, ", line ")?;
    put_number(out, number)?;
    put(out, "\n")
}

/// A transaction's place, and where a server's log has it, by the line before its own.
fn put_named(
    out: &mut Vec<u8>,
    gtid: &[u8],
    before: &[u8],
    name: &[u8],
    standing: Standing,
    number: usize,
) -> Result<(), AllocError>
    ensures { OnOk result (out.new.items ≡ out.old.items ++ named_text gtid.now before.now name.now standing number) }
{
    put_entry(out, gtid, name, standing, number)?;
    put_log_place(out, before)
}

/// The line of a change without the values that its table hides, and its number from 1.
fn put_change_line(
    alloc: Global,
    out: &mut Vec<u8>,
    tables: &ShownTables,
    number: usize,
    line: &[u8],
) -> Result<(), AllocError>
    ensures { OnOk result (out.new.items ≡ out.old.items ++ line_text number (without_hidden tables.now.schema.now line.now)) }
{
    put(out, "line ")?;
    put_number(out, number)?;
    put(out, ": ")?;
    put_without_hidden(alloc, out, tables, line)?;
    put(out, "\n")
}

fn put_change(
    alloc: Global,
    out: &mut Vec<u8>,
    tables: &ShownTables,
    standing: Standing,
    number: usize,
    line: &[u8],
) -> Result<(), AllocError>
    ensures { OnOk result (out.new.items ≡ out.old.items ++ change_text tables.now.schema.now standing number line.now) }
{
    put(out, "    change ")?;
    put_number(out, standing.changes)?;
    put(out, ", ")?;
    put_change_line(alloc, out, tables, number, line)
}

/// What is shown of a line; `before` is the line before it.
fn report_entry(
    alloc: Global,
    out: &mut Vec<u8>,
    tables: &ShownTables,
    gtid: &[u8],
    wanted: &Wanted,
    before: &[u8],
    name: &[u8],
    standing: Standing,
    number: usize,
    line: &[u8],
) -> Result<(), AllocError>
    ensures { OnOk result (out.new.items ≡ out.old.items ++ report_entry tables.now.schema.now gtid.now wanted.now before.now name.now standing number line.now) }
{
    if is_named(gtid, line) {
        return put_named(out, gtid, before, name, standing, number);
    }
    if standing.inside && is_change(line) && wanted.takes(standing.changes, line) {
        return put_change(alloc, out, tables, standing, number, line);
    }
    Ok(())
}

/// What is shown of all lines.
fn report_all(
    alloc: Global,
    out: &mut Vec<u8>,
    tables: &ShownTables,
    gtid: &[u8],
    wanted: &Wanted,
    lines: &[&[u8]],
) -> Result<(), AllocError>
    requires { length lines.now < 2 ^ 63 }
    ensures { OnOk result (out.new.items ≡ out.old.items ++ places_of tables.now.schema.now gtid.now wanted.now (map (λ x. x.now) lines.now)) }
{
    let mut standing = Standing::at_start();
    let mut before: &[u8] = &[];
    let mut name: &[u8] = &[];
    for (i, line) in lines.iter().enumerate() {
        report_entry(
            alloc,
            out,
            tables,
            gtid,
            wanted,
            before,
            name,
            standing,
            i + 1,
            line,
        )?;
        before = line;
        name = channel_after(name, line);
        standing = standing.after(gtid, line);
    }
    Ok(())
}

/// Each transaction with this GTID, with those of its changes that are wanted: its channel and its entry, counted from 0, and its line,
/// counted from 1, and where a server's log has it, if the line before says so. Of changes the values that their tables hide are left out.
pub(crate) fn put_places(
    alloc: Global,
    out: &mut Vec<u8>,
    schema: &Schema,
    gtid: &[u8],
    wanted: &Wanted,
    lines: &[&[u8]],
) -> Result<(), AllocError>
    requires { length lines.now < 2 ^ 63 }
    ensures { OnOk result (out.new.items ≡ out.old.items ++ places_of schema.now gtid.now wanted.now (map (λ x. x.now) lines.now)) }
{
    let tables = ShownTables::new(schema);
    report_all(alloc, out, &tables, gtid, wanted, lines)
}

fn report_previous(
    out: &mut Vec<u8>,
    name: &[u8],
    standing: Standing,
    number: usize,
    line: &[u8],
) -> Result<(), AllocError>
    ensures { OnOk result (out.new.items ≡ out.old.items ++ report_previous name.now standing number line.now) }
{
    if !is_previous(line) {
        return Ok(());
    }
    put(out, "  ")?;
    put_channel(out, name, standing)?;
    put(out, ", ")?;
    put_line(out, number, line)
}

/// The previous set of each journal, with its channel and its line.
pub(crate) fn put_previous_sets(out: &mut Vec<u8>, lines: &[&[u8]]) -> Result<(), AllocError>
    requires { length lines.now < 2 ^ 63 }
    ensures { OnOk result (out.new.items ≡ out.old.items ++ previous_sets (map (λ x. x.now) lines.now)) }
{
    let mut standing = Standing::at_start();
    let mut name: &[u8] = &[];
    for (i, line) in lines.iter().enumerate() {
        report_previous(out, name, standing, i + 1, line)?;
        name = channel_after(name, line);
        standing = standing.after(&[], line);
    }
    Ok(())
}
