//! What explains a verdict.
ghost use Rattle.std.specs.Prelude.{◌≡◌, ℕ, ◌++◌, ◌<◌, ◌^◌, OnOk, IfOk, map, length, None};
ghost use Rattle.gtid_text.specs.Canonical.{gtid_text};
ghost use Rattle.gtid_report.specs.Verdicts.{row_fault_place};
ghost use Rattle.fault_places.specs.declared.wanted.Wanted.TheVariants.{Numbered};
ghost use Rattle.fault_places.specs.Lines.{lines_of};
ghost use Rattle.fault_places.specs.Places.{places_of, bare_places};
ghost use Rattle.fault_places.specs.Explained.{is_of_key, columns_text, report_columns, columns_from, key_explained, missing_text, next_places, next_text, row_fault_meaning, unconditional, verdict_explained};

use crate::assumed_places::put_assumed;
use crate::inverted_text::put_inverted;
use crate::lines::{is_table, lines_of, put, put_number, put_shown, second_word, word_at};
use crate::next_there::next_there;
use crate::places::{put_line, put_places, put_previous_sets};
use crate::unequal::put_difference;
use crate::wanted::Wanted;
use gtid_report::{is_implied, push_set};
use gtid_set::GtidSet;
use gtid_text::{Gtid, write_gtid};
use itoa::Buffer;
use rows::{Key, RowFault, Schema};
use std::alloc::{AllocError, Global};
use txn_journal::Bundle;
use world::Verdict;

/// The places of a GTID, with those of its changes that are wanted.
fn put_gtid(
    alloc: Global,
    out: &mut Vec<u8>,
    schema: &Schema,
    gtid: &Gtid,
    wanted: &Wanted,
    lines: &[&[u8]],
) -> Result<(), AllocError>
    requires { length lines.now < 2 ^ 63 }
    ensures { OnOk result (out.new.items ≡ out.old.items ++ places_of schema.now (gtid_text gtid.now) wanted.now (map (λ x. x.now) lines.now)) }
{
    let mut text = String::new(alloc);
    write_gtid(&mut text, *gtid)?;
    put_places(alloc, out, schema, text.as_bytes(), wanted, lines)
}

/// The places of a GTID, without its changes.
pub(crate) fn put_bare(
    alloc: Global,
    out: &mut Vec<u8>,
    gtid: &Gtid,
    lines: &[&[u8]],
) -> Result<(), AllocError>
    requires { length lines.now < 2 ^ 63 }
    ensures { OnOk result (out.new.items ≡ out.old.items ++ bare_places (gtid_text gtid.now) (map (λ x. x.now) lines.now)) }
{
    let schema = Schema::empty(alloc);
    put_gtid(alloc, out, &schema, gtid, &Wanted::Nothing, lines)
}

/// Whether a line is that of a key's table.
fn is_of_key(key: &Key, line: &[u8]) -> bool
    ensures { result ≡ is_of_key key.now line.now }
{
    is_table(line) && second_word(line) == key.table.as_str().as_bytes()
}

/// The columns of a key, by the line of its table.
fn put_columns_of(
    out: &mut Vec<u8>,
    key: &Key,
    number: usize,
    line: &[u8],
) -> Result<(), AllocError>
    ensures { OnOk result (out.new.items ≡ out.old.items ++ columns_text key.now number line.now) }
{
    put(out, "  key ")?;
    put_number(out, key.index as usize)?;
    put(out, " is columns ")?;
    put_shown(out, word_at(line, 4 + 2 * key.index as usize))?;
    put(out, ", ")?;
    put_line(out, number, line)
}

/// The columns of a key, on the line of its table.
fn report_columns(
    out: &mut Vec<u8>,
    key: &Key,
    number: usize,
    line: &[u8],
) -> Result<(), AllocError>
    ensures { OnOk result (out.new.items ≡ out.old.items ++ report_columns key.now number line.now) }
{
    if is_of_key(key, line) {
        return put_columns_of(out, key, number, line);
    }
    Ok(())
}

/// The columns of a key.
fn put_columns(out: &mut Vec<u8>, key: &Key, lines: &[&[u8]]) -> Result<(), AllocError>
    requires { length lines.now < 2 ^ 63 }
    ensures { OnOk result (out.new.items ≡ out.old.items ++ columns_from key.now 1 (map (λ x. x.now) lines.now)) }
{
    for (i, line) in lines.iter().enumerate() {
        report_columns(out, key, i + 1, line)?;
    }
    Ok(())
}

/// The columns of a key, and the changes of two transactions in its table.
fn put_key(
    alloc: Global,
    out: &mut Vec<u8>,
    schema: &Schema,
    first: &Gtid,
    second: &Gtid,
    key: &Key,
    lines: &[&[u8]],
) -> Result<(), AllocError>
    requires { length lines.now < 2 ^ 63 }
    ensures { OnOk result (out.new.items ≡ out.old.items ++ key_explained schema.now first.now second.now key.now (map (λ x. x.now) lines.now)) }
{
    let wanted = Wanted::OfTable(key.table.clone()?);
    put_columns(out, key, lines)?;
    put_gtid(alloc, out, schema, first, &wanted, lines)?;
    put_gtid(alloc, out, schema, second, &wanted, lines)
}

/// How many other GTIDs are missing, and which.
fn put_missing(alloc: Global, out: &mut Vec<u8>, gtids: &Option<GtidSet>) -> Result<(), AllocError>
    ensures { OnOk result (out.new.items ≡ out.old.items ++ missing_text gtids.now) }
{
    let Some(gtids) = gtids else {
        return Ok(());
    };
    let mut set = String::new(alloc);
    push_set(alloc, &mut set, gtids)?;
    let mut buffer = Buffer::new();
    put(out, "  also missing: ")?;
    put(out, buffer.format(gtids.count()))?;
    put(out, ", ")?;
    put(out, &set)?;
    put(out, "\n")
}

/// The places of the next number that is there.
fn put_next_places(
    alloc: Global,
    out: &mut Vec<u8>,
    gtid: &Gtid,
    lines: &[&[u8]],
) -> Result<(), AllocError>
    requires { length lines.now < 2 ^ 63 }
    ensures { OnOk result (out.new.items ≡ out.old.items ++ next_places gtid.now (map (λ x. x.now) lines.now)) }
{
    put(out, "  next there:\n")?;
    put_bare(alloc, out, gtid, lines)
}

/// The places of the next number that is there, where there is one.
fn put_next(
    alloc: Global,
    out: &mut Vec<u8>,
    next: &Option<Gtid>,
    lines: &[&[u8]],
) -> Result<(), AllocError>
    requires { length lines.now < 2 ^ 63 }
    ensures { OnOk result (out.new.items ≡ out.old.items ++ next_text next.now (map (λ x. x.now) lines.now)) }
{
    match next {
        Some(gtid) => put_next_places(alloc, out, gtid, lines),
        None => Ok(()),
    }
}

fn row_fault_meaning(fault: &RowFault) -> &'static str
    ensures { result.now ≡ row_fault_meaning fault.now }
{
    match fault {
        RowFault::RowMissing { .. } =>
            "  E10: no row has the primary key of the change's before image\n",
        RowFault::RowDiffers { .. } =>
            "  E11: the row with that primary key is another than the change's before image\n",
        RowFault::DuplicateKey { .. } =>
            "  E12: a row has this key of the change's after image already\n",
    }
}

/// What a row fault means, and the change that has it.
fn put_row_fault(
    alloc: Global,
    out: &mut Vec<u8>,
    schema: &Schema,
    gtid: &Gtid,
    fault: &RowFault,
    lines: &[&[u8]],
) -> Result<(), AllocError>
    requires { length lines.now < 2 ^ 63 }
    ensures { OnOk result (out.new.items ≡ out.old.items ++ row_fault_meaning fault.now ++ places_of schema.now (gtid_text gtid.now) (Numbered (row_fault_place fault.now).0) (map (λ x. x.now) lines.now)) }
{
    put(out, row_fault_meaning(fault))?;
    let change = match fault {
        RowFault::RowMissing { change, .. } => *change,
        RowFault::RowDiffers { change, .. } => *change,
        RowFault::DuplicateKey { change, .. } => *change,
    };
    put_gtid(alloc, out, schema, gtid, &Wanted::Numbered(change), lines)
}

/// What explains a verdict, but for what it rests on.
fn put_unconditional(
    alloc: Global,
    out: &mut Vec<u8>,
    lines: &[&[u8]],
    bundle: &Bundle,
    missing: &Option<GtidSet>,
    verdict: &Verdict,
) -> Result<(), AllocError>
    requires { length lines.now < 2 ^ 63 }
    ensures { OnOk result (out.new.items ≡ out.old.items ++ unconditional (map (λ x. x.now) lines.now) bundle.now missing.now verdict.now) }
{
    let schema = bundle.schema();
    match verdict {
        Verdict::Unequal(gtid) => {
            put_gtid(alloc, out, schema, gtid, &Wanted::Every, lines)?;
            put_difference(alloc, out, gtid, bundle)
        }
        Verdict::Purged(_, _) => put_previous_sets(out, lines),
        Verdict::Missing(gtid) => {
            put_missing(alloc, out, missing)?;
            let next = next_there(bundle.opening_set(), gtid, bundle.journals());
            put_next(alloc, out, &next, lines)
        }
        Verdict::Shared(a, b, key)
        | Verdict::Reordered(a, b, key)
        | Verdict::Concurrent(a, b, key) => put_key(alloc, out, schema, a, b, key, lines),
        Verdict::NotClosed(a, b) => {
            put_gtid(alloc, out, schema, a, &Wanted::Every, lines)?;
            put_gtid(alloc, out, schema, b, &Wanted::Every, lines)
        }
        Verdict::DoesNotApply(gtid, fault) => put_row_fault(alloc, out, schema, gtid, fault, lines),
        Verdict::Sound => put_inverted(alloc, out, bundle, lines),
    }
}

/// What a verdict rests on, and what explains it.
fn put_verdict(
    alloc: Global,
    out: &mut Vec<u8>,
    lines: &[&[u8]],
    bundle: &Bundle,
    missing: &Option<GtidSet>,
    verdict: &Verdict,
) -> Result<(), AllocError>
    requires { length lines.now < 2 ^ 63 }
    ensures { OnOk result (out.new.items ≡ out.old.items ++ verdict_explained (map (λ x. x.now) lines.now) bundle.now missing.now verdict.now) }
{
    put_assumed(out, is_implied(bundle), lines)?;
    put_unconditional(alloc, out, lines, bundle, missing, verdict)
}

/// What explains a verdict on a bundle, whose text these bytes are: lines, each after two blanks and ended by a line feed. For each GTID
/// that the verdict names there is each transaction, with its channel and its entry, counted from 0, and its line, counted from 1; after
/// it its changes, without the values of hidden columns: for a shared key those in the key's table, for a row fault the one that has it. If two transactions have one GTID, the
/// first difference between them follows: the change, the image and the column, counted from 0, and both values. For other missing GTIDs,
/// where they are given, there is their number and their set. If the bundle is sound but two channels that preserve commit order bring two
/// transactions in opposite orders, there are the places of both. Where the verdict rests on something that the bundle doesn't show, the
/// lines that say so come first. The words are our own.
pub fn explain_verdict(
    alloc: Global,
    bytes: &[u8],
    bundle: &Bundle,
    missing: &Option<GtidSet>,
    verdict: &Verdict,
) -> Result<Vec<u8>, AllocError>
    ensures { IfOk result (λ text. text.items ≡ verdict_explained (lines_of bytes.now) bundle.now missing.now verdict.now) }
{
    let mut out = Vec::new(alloc);
    let lines = lines_of(alloc, bytes)?;
    put_verdict(alloc, &mut out, &lines, bundle, missing, verdict)?;
    Ok(out)
}
