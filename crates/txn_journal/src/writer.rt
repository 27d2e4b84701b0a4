//! Journals written as text.
ghost use Rattle.std.specs.Prelude.{◌≡◌, ◌∷◌, ◌++◌, None, IfOk, OnOk, length, decimal};
ghost use Rattle.std.specs.String.{string_bytes};
ghost use Rattle.txn_journal.specs.WrittenSets.{set_text};
ghost use Rattle.txn_journal.specs.Spelling.{Header, Previous, Begin, Makes, image_text, change_text, numbers_text, line_text, ended_line, lines_text, numbers_of, entry_lines, spelling, spelling_as, FitsText, Writes};
ghost use Rattle.row_images.specs.Images.{values_text};
ghost use Rattle.txn_journal.specs.Stamps.{right_stamps};
ghost use Rattle.txn_journal.specs.Timestamped.{WritesIfFits};
ghost use Rattle.txn_journal.specs.Texts.{changes_text, body_text, entries_text, stamped_text, opening_text, text_around};
ghost use Rattle.rows.specs.declared.limits.Limits.TheVariants.{Narrow};
ghost use Rattle.txn_journal.specs.declared.lines.Version.TheVariants.{One, Two};

use crate::fitting::journal_fits;
use crate::lines::Version;
use gtid_set::GtidSet;
use gtid_text::{Gtid, write_gtid};
use itoa::Buffer;
use journal::{Entry, Journal};
use logical_timestamps::last_committed_of;
use rows::{Change, Name, Row, Schema, Transaction};
use std::alloc::{AllocError, Global};

/// Appends a word, a table and an image.
#[tactic(auto, using(crate::proofs::WriteLemmas::image_appended))]
pub(crate) fn write_image(
    out: &mut String,
    word: &str,
    table: &Name,
    image: &Row,
) -> Result<(), AllocError>
    ensures { OnOk result (string_bytes out.new ≡ string_bytes out.old ++ image_text word.now table.now image.now) }
{
    out.push_str(word)?;
    out.push_str(" ")?;
    out.push_str(table.as_str())?;
    out.push_str(" ")?;
    out.push_str(image.as_str())
}

/// Appends the line of a change, without its line feed.
#[tactic(auto, using(crate::proofs::WriteLemmas::two_images_text))]
fn write_change(out: &mut String, change: &Change) -> Result<(), AllocError>
    ensures { OnOk result (string_bytes out.new ≡ string_bytes out.old ++ change_text change.now) }
{
    match change {
        Change::Insert { table, after } => write_image(out, "ins", table, after),
        Change::Delete { table, before } => write_image(out, "del", table, before),
        Change::Update {
            table,
            before,
            after,
        } => {
            write_image(out, "upd", table, before)?;
            out.push_str(" | ")?;
            out.push_str(after.as_str())
        }
    }
}

/// Appends the line of a change.
fn write_change_line(out: &mut String, change: &Change) -> Result<(), AllocError>
    ensures { OnOk result (string_bytes out.new ≡ string_bytes out.old ++ ended_line (Makes change.now)) }
{
    write_change(out, change)?;
    out.push_str("\n")
}

/// Appends the lines of changes.
fn write_changes(out: &mut String, changes: &[Change]) -> Result<(), AllocError>
    ensures { OnOk result (string_bytes out.new ≡ string_bytes out.old ++ changes_text changes.now) }
{
    for change in changes {
        write_change_line(out, change)?;
    }
    Ok(())
}

/// Appends the first words of the line that begins an entry.
#[tactic(auto, using(crate::proofs::WriteLemmas::begin_appended))]
fn write_begin(out: &mut String, gtid: Gtid) -> Result<(), AllocError>
    ensures { OnOk result (string_bytes out.new ≡ string_bytes out.old ++ line_text (Begin gtid None)) }
{
    out.push_str("txn ")?;
    write_gtid(out, gtid)
}

/// Appends a number.
pub(crate) fn write_number(out: &mut String, number: u64) -> Result<(), AllocError>
    ensures { OnOk result (string_bytes out.new ≡ string_bytes out.old ++ decimal number) }
{
    let mut buffer = Buffer::new();
    out.push_str(buffer.format(number))
}

/// Appends a number after a blank.
pub(crate) fn write_next_number(out: &mut String, number: u64) -> Result<(), AllocError>
    ensures { OnOk result (string_bytes out.new ≡ string_bytes out.old ++ 32 ∷ decimal number) }
{
    out.push_str(" ")?;
    write_number(out, number)
}

/// Appends the last_committed of the entry at a place, and the place, which is its sequence number, where the version writes them.
fn write_numbers(
    out: &mut String,
    version: Version,
    stamp: u64,
    place: u64,
) -> Result<(), AllocError>
    ensures { OnOk result (string_bytes out.new ≡ string_bytes out.old ++ numbers_text (numbers_of version place stamp)) }
{
    match version {
        Version::One => Ok(()),
        Version::Two | Version::Three => {
            write_next_number(out, stamp)?;
            write_next_number(out, place)
        }
    }
}

/// Appends the text of an entry from the line feed of its first line on.
fn write_body(out: &mut String, txn: &Transaction) -> Result<(), AllocError>
    ensures { OnOk result (string_bytes out.new ≡ string_bytes out.old ++ body_text txn.now.changes) }
{
    out.push_str("\n")?;
    write_changes(out, txn.changes.as_slice())?;
    out.push_str("end\n")
}

/// Appends the lines of an entry without numbers.
#[tactic(auto, using(crate::proofs::WriteLemmas::entry_appended))]
fn write_entry(out: &mut String, entry: &Entry) -> Result<(), AllocError>
    ensures { OnOk result (string_bytes out.new ≡ string_bytes out.old ++ lines_text (entry_lines None entry.now)) }
{
    write_begin(out, entry.gtid)?;
    write_body(out, &entry.txn)
}

/// Appends the lines of the entry at a place, with this last_committed.
#[tactic(auto, using(crate::proofs::WriteLemmas::stamped_entry_appended))]
fn write_stamped_entry(
    out: &mut String,
    version: Version,
    stamp: u64,
    place: u64,
    entry: &Entry,
) -> Result<(), AllocError>
    ensures { OnOk result (string_bytes out.new ≡ string_bytes out.old ++ lines_text (entry_lines (numbers_of version place stamp) entry.now)) }
{
    write_begin(out, entry.gtid)?;
    write_numbers(out, version, stamp, place)?;
    write_body(out, &entry.txn)
}

/// Appends the lines of entries without numbers.
fn write_entries(out: &mut String, entries: &[Entry]) -> Result<(), AllocError>
    ensures { OnOk result (string_bytes out.new ≡ string_bytes out.old ++ entries_text entries.now) }
{
    for entry in entries {
        write_entry(out, entry)?;
    }
    Ok(())
}

/// Appends the lines of entries, each with its last_committed.
fn write_stamped_entries(
    out: &mut String,
    version: Version,
    stamps: &[u64],
    entries: &[Entry],
) -> Result<(), AllocError>
    requires { length stamps.now ≡ length entries.now }
    ensures { OnOk result (string_bytes out.new ≡ string_bytes out.old ++ stamped_text version 1 stamps.now entries.now) }
{
    for (i, entry) in entries.iter().enumerate() {
        write_stamped_entry(out, version, stamps[i], i as u64 + 1, entry)?;
    }
    Ok(())
}

/// Appends the word of a set.
pub(crate) fn write_set(alloc: Global, out: &mut String, set: &GtidSet) -> Result<(), AllocError>
    ensures { OnOk result (string_bytes out.new ≡ string_bytes out.old ++ set_text set.now) }
{
    let text = set.to_text(alloc)?;
    if text.is_empty() {
        return out.push_str("-");
    }
    out.push_str(text.as_str())
}

/// Appends the line of a previous set.
#[tactic(auto, using(crate::proofs::WriteLemmas::previous_appended))]
fn write_previous(alloc: Global, out: &mut String, previous: &GtidSet) -> Result<(), AllocError>
    ensures { OnOk result (string_bytes out.new ≡ string_bytes out.old ++ ended_line (Previous previous.now)) }
{
    out.push_str("previous ")?;
    write_set(alloc, out, previous)?;
    out.push_str("\n")
}

/// Appends the first line of a journal.
fn write_header(out: &mut String, version: Version) -> Result<(), AllocError>
    ensures { OnOk result (string_bytes out.new ≡ string_bytes out.old ++ ended_line (Header version)) }
{
    match version {
        Version::One => out.push_str("journal 1\n"),
        Version::Two => out.push_str("journal 2\n"),
        Version::Three => out.push_str("journal 3\n"),
    }
}

/// Appends the first two lines of a journal.
#[tactic(auto, using(crate::proofs::WriteLemmas::opening_appended))]
fn write_opening(
    alloc: Global,
    out: &mut String,
    version: Version,
    previous: &GtidSet,
) -> Result<(), AllocError>
    ensures { OnOk result (string_bytes out.new ≡ string_bytes out.old ++ opening_text version previous.now) }
{
    write_header(out, version)?;
    write_previous(alloc, out, previous)
}

/// Appends the text of a journal without numbers.
#[tactic(auto, using(crate::proofs::WriteLemmas::around_appended))]
fn write_parts(
    alloc: Global,
    out: &mut String,
    previous: &GtidSet,
    entries: &[Entry],
) -> Result<(), AllocError>
    ensures { OnOk result (string_bytes out.new ≡ string_bytes out.old ++ text_around One previous.now (entries_text entries.now)) }
{
    write_opening(alloc, out, Version::One, previous)?;
    write_entries(out, entries)?;
    out.push_str("close\n")
}

/// Appends the text of a journal, each entry with its last_committed.
#[tactic(auto, using(crate::proofs::WriteLemmas::around_appended))]
fn write_stamped_parts(
    alloc: Global,
    out: &mut String,
    version: Version,
    previous: &GtidSet,
    stamps: &[u64],
    entries: &[Entry],
) -> Result<(), AllocError>
    requires { length stamps.now ≡ length entries.now }
    ensures { OnOk result (string_bytes out.new ≡ string_bytes out.old ++ text_around version previous.now (stamped_text version 1 stamps.now entries.now)) }
{
    write_opening(alloc, out, version, previous)?;
    write_stamped_entries(out, version, stamps, entries)?;
    out.push_str("close\n")
}

/// The one text of a journal by version 1 of the format: its lines, each ended by one line feed.
pub fn encode(alloc: Global, journal: &Journal) -> Result<Vec<u8>, AllocError>
    ensures spelled { IfOk result (λ bytes. bytes.items ≡ spelling journal.now) }
    // It is a text by the grammar, and read back as this journal, if it has no more than a text may have.
    ensures writes { FitsText Narrow journal.now → IfOk result (λ bytes. Writes bytes.items journal.now) }
{
    journal_fits(journal);
    let mut out = String::new(alloc);
    write_unstamped(alloc, &mut out, journal)?;
    Ok(out.into_bytes())
}

/// Appends the text of a journal, with these as the last_committed of its entries.
#[tactic(auto, using(crate::proofs::WriteLemmas::stamped_journal_text))]
fn write_stamped(
    alloc: Global,
    out: &mut String,
    version: Version,
    stamps: &[u64],
    journal: &Journal,
) -> Result<(), AllocError>
    requires { length stamps.now ≡ length journal.now.entries }
    ensures { OnOk result (string_bytes out.new ≡ string_bytes out.old ++ spelling_as version stamps.now journal.now) }
{
    let (previous, entries) = (journal.previous(), journal.entries());
    write_stamped_parts(alloc, out, version, previous, stamps, entries)
}

/// Appends the text of a journal by version 1 of the format.
#[tactic(auto, using(crate::proofs::WriteLemmas::journal_text))]
fn write_unstamped(alloc: Global, out: &mut String, journal: &Journal) -> Result<(), AllocError>
    ensures { OnOk result (string_bytes out.new ≡ string_bytes out.old ++ spelling journal.now) }
{
    write_parts(alloc, out, journal.previous(), journal.entries())
}

/// Appends the text of a journal by a version of the format, whose entries change tables of this schema.
#[tactic(auto, using(logical_timestamps::proofs::Timestamps::each_last_committed_length))]
pub(crate) fn write_journal_by(
    alloc: Global,
    out: &mut String,
    version: Version,
    schema: &Schema,
    journal: &Journal,
) -> Result<(), AllocError>
    ensures { OnOk result (string_bytes out.new ≡ string_bytes out.old ++ spelling_as version (right_stamps version schema.now journal.now.entries) journal.now) }
{
    match version {
        Version::One => write_unstamped(alloc, out, journal),
        Version::Two | Version::Three => {
            let stamps = last_committed_of(alloc, schema, journal)?;
            write_stamped(alloc, out, version, stamps.as_slice(), journal)
        }
    }
}

/// The one text of a journal by version 2 of the format, whose entries change tables of this schema. Each entry has
/// its last_committed and its sequence number.
pub fn encode_v2(alloc: Global, schema: &Schema, journal: &Journal) -> Result<Vec<u8>, AllocError>
    ensures spelled { IfOk result (λ bytes. bytes.items ≡ spelling_as Two (right_stamps Two schema.now journal.now.entries) journal.now) }
    // It is a text by the grammar, and read back as this journal with these numbers, if it has no more than a text may have.
    ensures writes { IfOk result (λ bytes. WritesIfFits bytes.items schema.now journal.now) }
{
    journal_fits(journal);
    let mut out = String::new(alloc);
    write_journal_by(alloc, &mut out, Version::Two, schema, journal)?;
    Ok(out.into_bytes())
}
