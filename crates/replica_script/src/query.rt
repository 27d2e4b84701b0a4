//! Answers to queries.
ghost use Rattle.std.specs.Prelude.{◌≡◌, ◌++◌, IfOk, IfErr, OnOk, string_bytes};
ghost use Rattle.std.specs.Option.{option_copied};
ghost use Rattle.txn_journal.specs.Spelling.{spelling_as};
ghost use Rattle.txn_journal.specs.Stamps.{right_stamps};
ghost use Rattle.txn_journal.specs.WrittenSets.{set_text};
ghost use Rattle.txn_journal.specs.declared.lines.Version.TheVariants.{Three};
ghost use Rattle.replica_core.specs.Faults.{ask_set, IsFaultIn};
ghost use Rattle.replica_script.specs.Replies.{with_line_feed};
ghost use Rattle.replica_script.specs.Scripts.{made_for};
ghost use Rattle.replica_script.specs.Texts.{changes_or_gone, journal_text, place_or_none, query_text, shown_entry, truth};

use crate::question::Query;
use gtid_report::{push_number, push_set, render_rows};
use gtid_set::{GtidSet, SetFault};
use gtid_text::{Gtid, write_gtid};
use journal::Journal;
use replica_core::Core;
use replica_lines::status;
use rows::{Schema, Transaction};
use std::alloc::{AllocError, Global};
use txn_journal::{Version, encode, encode_v2};

fn set_line(alloc: Global, set: &GtidSet) -> Result<String, AllocError>
    ensures { IfOk result (λ text. string_bytes text ≡ with_line_feed (set_text set.now)) }
{
    let mut text = String::new(alloc);
    push_set(alloc, &mut text, set)?;
    text.push_str("\n")?;
    Ok(text)
}

fn truth_line(alloc: Global, holds: bool) -> Result<String, AllocError>
    ensures { IfOk result (λ text. string_bytes text ≡ with_line_feed (truth holds)) }
{
    if holds {
        String::from_str(alloc, "true\n")
    } else {
        String::from_str(alloc, "false\n")
    }
}

fn rows_text(alloc: Global, core: &Core) -> Result<String, AllocError>
    ensures { IfOk result (λ text. string_bytes text ≡ query_text core.now Query.Rows) }
{
    let rows = core.rows().list_sorted(alloc)?;
    let mut text = String::new(alloc);
    render_rows(&mut text, core.rows().schema(), &rows)?;
    Ok(text)
}

/// The one text of a journal by version 3 of the format. Its first line alone tells it from that by version 2.
#[tactic(auto, using(crate::proofs::Versions::third_from_second))]
fn encode_v3(alloc: Global, schema: &Schema, journal: &Journal) -> Result<Vec<u8>, AllocError>
    ensures { IfOk result (λ bytes. bytes.items ≡ spelling_as Three (right_stamps Three schema.now journal.now.entries) journal.now) }
{
    let mut text = encode_v2(alloc, schema, journal)?;
    text[8] = b'3';
    Ok(text)
}

/// The lines of the own journal, by a version of the format.
fn journal_text(alloc: Global, core: &Core, version: Version) -> Result<Vec<u8>, AllocError>
    ensures { IfOk result (λ text. text.items ≡ journal_text version core.now) }
{
    let (schema, journal) = (core.rows().schema(), core.journal().as_journal());
    match version {
        Version::One => encode(alloc, journal),
        Version::Two => encode_v2(alloc, schema, journal),
        Version::Three => encode_v3(alloc, schema, journal),
    }
}

/// The line of the set with which a channel would ask now.
#[tactic(auto, using(crate::proofs::Faults::memory_anywhere))]
fn ask_line(alloc: Global, core: &Core, channel: usize) -> Result<String, SetFault>
    ensures ok { IfOk result (λ text. string_bytes text ≡ query_text core.now (Query.Ask channel)) }
    ensures fault { IfErr result (λ f. IsFaultIn f (ask_set channel core.now.state)) }
{
    match core.ask(alloc, channel)? {
        Some(set) => Ok(set_line(alloc, &set)?),
        None => Ok(String::from_str(alloc, "none\n")?),
    }
}

fn push_place(out: &mut String, place: Option<usize>) -> Result<(), AllocError>
    ensures { OnOk result (string_bytes out.new ≡ string_bytes out.old ++ place_or_none place) }
{
    match place {
        Some(place) => push_number(out, place as u64),
        None => out.push_str("none"),
    }
}

/// The line of the least place from this number on that a seat may take.
fn next_line(alloc: Global, core: &Core, channel: usize, from: usize) -> Result<String, AllocError>
    ensures { IfOk result (λ text. string_bytes text ≡ query_text core.now (Query.Next channel from)) }
{
    let mut text = String::new(alloc);
    push_place(&mut text, core.next_ready(channel, from))?;
    text.push_str("\n")?;
    Ok(text)
}

fn push_changes(out: &mut String, txn: Option<&Transaction>) -> Result<(), AllocError>
    ensures { OnOk result (string_bytes out.new ≡ string_bytes out.old ++ changes_or_gone (option_copied txn.entry)) }
{
    match txn {
        Some(txn) => push_number(out, txn.changes.as_slice().len() as u64),
        None => out.push_str("gone"),
    }
}

fn shown_line(alloc: Global, gtid: Gtid, txn: Option<&Transaction>) -> Result<String, AllocError>
    ensures { IfOk result (λ text. string_bytes text ≡ with_line_feed (shown_entry gtid (option_copied txn.entry))) }
{
    let mut text = String::new(alloc);
    write_gtid(&mut text, gtid)?;
    text.push_str(" ")?;
    push_changes(&mut text, txn)?;
    text.push_str("\n")?;
    Ok(text)
}

/// The line of the entry at a place of a channel.
fn entry_line(
    alloc: Global,
    core: &Core,
    channel: usize,
    place: usize,
) -> Result<String, AllocError>
    ensures { IfOk result (λ text. string_bytes text ≡ query_text core.now (Query.Entry channel place)) }
{
    let Some((gtid, txn)) = core.entry(channel, place) else {
        return String::from_str(alloc, "none\n");
    };
    shown_line(alloc, gtid, txn)
}

/// The lines that answer a query. Another error than `Memory` comes only if the set with which a channel would ask has too many sources.
pub fn query_text(alloc: Global, core: &Core, query: Query) -> Result<Vec<u8>, SetFault>
    ensures ok { IfOk result (λ text. text.items ≡ query_text core.now query) }
    ensures fault { IfErr result (λ f. IsFaultIn f (made_for query core.now.state)) }
{
    match query {
        Query::Rows => Ok(rows_text(alloc, core)?.into_bytes()),
        Query::Executed => Ok(set_line(alloc, core.executed())?.into_bytes()),
        Query::Purged => Ok(set_line(alloc, core.purged())?.into_bytes()),
        Query::Journal(version) => Ok(journal_text(alloc, core, version)?),
        Query::Drained => Ok(truth_line(alloc, core.is_drained())?.into_bytes()),
        Query::Status => Ok(status(alloc, core)?.into_bytes()),
        Query::Ask(channel) => Ok(ask_line(alloc, core, channel)?.into_bytes()),
        Query::Next(channel, from) => Ok(next_line(alloc, core, channel, from)?.into_bytes()),
        Query::Entry(channel, place) => Ok(entry_line(alloc, core, channel, place)?.into_bytes()),
    }
}
