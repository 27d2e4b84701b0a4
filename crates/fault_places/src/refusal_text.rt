//! What explains a refusal.
ghost use Rattle.std.specs.Prelude.{◌≡◌, ℕ, ◌++◌, ◌<◌, ◌^◌, OnOk, IfOk, map, length};
ghost use Rattle.fault_places.specs.Lines.{lines_of};
ghost use Rattle.fault_places.specs.Twice.{read_until_twice};
ghost use Rattle.fault_places.specs.Explained.{due_text, cause_text, faulty_line, twice_text, refusal_explained};

use crate::due::{due_at, line_at};
use crate::lines::{lines_of, put};
use crate::places::{put_line, put_previous_sets};
use crate::twice::count_read;
use crate::verdict_text::put_bare;
use gtid_report::{LineCause, Refusal};
use gtid_text::{Gtid, write_gtid};
use std::alloc::{AllocError, Global};

/// The lines that are allowed in the place of a line.
fn put_due(out: &mut Vec<u8>, number: usize, lines: &[&[u8]]) -> Result<(), AllocError>
    ensures { OnOk result (out.new.items ≡ out.old.items ++ due_text number (map (λ x. x.now) lines.now)) }
{
    put(out, "  due here: ")?;
    put(out, due_at(lines, number))?;
    put(out, "\n")
}

/// What is wrong with a line.
fn put_cause(
    out: &mut Vec<u8>,
    cause: LineCause,
    number: usize,
    lines: &[&[u8]],
) -> Result<(), AllocError>
    ensures { OnOk result (out.new.items ≡ out.old.items ++ cause_text cause number (map (λ x. x.now) lines.now)) }
{
    match cause {
        LineCause::Keyword => put_due(out, number, lines),
        LineCause::Body => put_due(out, number, lines),
        LineCause::Limit => put(
            out,
            "  a limit is passed: columns, hidden columns, unique keys, tables, foreign keys, channels, changes, bytes of a value, values of an image, entries, or assumptions\n",
        ),
        LineCause::Schema => put(
            out,
            "  the lines before do not take it: a name twice, an unknown table, column, key or channel, a wrong number of columns or values, a null in the primary key, or a key that a row has already\n",
        ),
        LineCause::Stamp => put(
            out,
            "  the sequence number is not the entry's place, or the last_committed is not that of its keys\n",
        ),
    }
}

/// A line with its number.
fn put_faulty(out: &mut Vec<u8>, number: usize, lines: &[&[u8]]) -> Result<(), AllocError>
    ensures { OnOk result (out.new.items ≡ out.old.items ++ faulty_line number (map (λ x. x.now) lines.now)) }
{
    put(out, "  ")?;
    put_line(out, number, line_at(lines, number))
}

/// A line, and the lines that are allowed there.
fn put_misplaced(out: &mut Vec<u8>, number: usize, lines: &[&[u8]]) -> Result<(), AllocError>
    ensures { OnOk result (out.new.items ≡ out.old.items ++ faulty_line number (map (λ x. x.now) lines.now) ++ due_text number (map (λ x. x.now) lines.now)) }
{
    put_faulty(out, number, lines)?;
    put_due(out, number, lines)
}

/// The previous set of each journal, and each place of a GTID.
fn put_each_place(
    alloc: Global,
    out: &mut Vec<u8>,
    gtid: &Gtid,
    lines: &[&[u8]],
) -> Result<(), AllocError>
    requires { length lines.now < 2 ^ 63 }
    ensures { OnOk result (out.new.items ≡ out.old.items ++ twice_text gtid.now (map (λ x. x.now) lines.now)) }
{
    put_previous_sets(out, lines)?;
    put_bare(alloc, out, gtid, lines)
}

/// The same for a GTID that comes twice, of the lines that were read.
fn put_twice(
    alloc: Global,
    out: &mut Vec<u8>,
    gtid: &Gtid,
    lines: &[&[u8]],
) -> Result<(), AllocError>
    requires { length lines.now < 2 ^ 63 }
    ensures { OnOk result (out.new.items ≡ out.old.items ++ twice_text gtid.now (read_until_twice gtid.now (map (λ x. x.now) lines.now))) }
{
    let mut text = String::new(alloc);
    write_gtid(&mut text, *gtid)?;
    let count = count_read(alloc, gtid, text.as_bytes(), lines)?;
    put_each_place(alloc, out, gtid, &lines[..count])
}

/// What explains a refusal.
fn put_refusal(
    alloc: Global,
    out: &mut Vec<u8>,
    lines: &[&[u8]],
    refusal: &Refusal,
) -> Result<(), AllocError>
    requires { length lines.now < 2 ^ 63 }
    ensures { OnOk result (out.new.items ≡ out.old.items ++ refusal_explained (map (λ x. x.now) lines.now) refusal.now) }
{
    match refusal {
        Refusal::Line(number, cause) => {
            put_faulty(out, *number as usize, lines)?;
            put_cause(out, *cause, *number as usize, lines)
        }
        Refusal::Truncated(number) => put_misplaced(out, *number as usize, lines),
        Refusal::Version(number) => put_misplaced(out, *number as usize, lines),
        Refusal::Twice(gtid) => put_twice(alloc, out, gtid, lines),
        Refusal::SourcesFull => put(out, "  a set has more than 65536 sources\n"),
        Refusal::PoolFull => put(out, "  a set has more than 4294967294 intervals\n"),
        _ => Ok(()),
    }
}

/// What explains that these bytes are refused as a bundle, or that a set is full: lines, each after two blanks and ended by a line
/// feed. For a faulty line there is the line, and the lines that are allowed there or what is wrong with it; for a GTID that comes twice
/// the previous set of each journal, and each place. The words are our own.
pub fn explain_refusal(
    alloc: Global,
    bytes: &[u8],
    refusal: &Refusal,
) -> Result<Vec<u8>, AllocError>
    ensures { IfOk result (λ text. text.items ≡ refusal_explained (lines_of bytes.now) refusal.now) }
{
    let mut out = Vec::new(alloc);
    let lines = lines_of(alloc, bytes)?;
    put_refusal(alloc, &mut out, &lines, refusal)?;
    Ok(out)
}
