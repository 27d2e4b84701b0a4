//! Bundles written as text.
ghost use Rattle.std.specs.Prelude.{◌≡◌, ◌∷◌, ◌++◌, IfOk, OnOk, codes, decimal};
ghost use Rattle.std.specs.String.{string_bytes};
ghost use Rattle.txn_journal.specs.Splits.{columns_text};
ghost use Rattle.txn_journal.specs.Shapes.{shape_for};
ghost use Rattle.txn_journal.specs.References.{reference_shape};
ghost use Rattle.txn_journal.specs.BundleText.{Heads, Names, Has, Refers, Puts, Opens, Assumes, Own, ended_bundle_line, bundle_text, opening_set_lines, bundle_spelling, spelling_by, WritesWhereWritable};
ghost use Rattle.txn_journal.specs.Texts.{columns_behind, uniques_text, hidden_part, cascade_part, tables_text, references_text, rows_text, assumptions_text, channel_and_journal_text, channels_and_journals_text, head_text, start_text};

use crate::assumptions::Assumption;
use crate::bundle::{Bundle, BundleChannel};
use crate::lines::Version;
use crate::references::Reference;
use crate::writer::{write_image, write_journal_by, write_next_number, write_number, write_set};
use gtid_set::GtidSet;
use gtid_text::{SourceId, write_source};
use journal::Journal;
use rows::{Columns, Schema, Table, TableRow};
use std::alloc::{AllocError, Global};

/// Appends the line of a replica.
#[tactic(auto, using(crate::proofs::BundleWriting::replica_appended))]
fn write_replica(out: &mut String, replica: SourceId) -> Result<(), AllocError>
    ensures { OnOk result (string_bytes out.new ≡ string_bytes out.old ++ ended_bundle_line (Own (Names replica))) }
{
    out.push_str("replica ")?;
    write_source(out, replica)?;
    out.push_str("\n")
}

/// Appends the line of an opening set, which version 1 does not have.
#[tactic(auto, using(crate::proofs::BundleWriting::opened_appended))]
fn write_opening_set(
    alloc: Global,
    out: &mut String,
    version: Version,
    opened: &GtidSet,
) -> Result<(), AllocError>
    ensures { OnOk result (string_bytes out.new ≡ string_bytes out.old ++ bundle_text (opening_set_lines version opened.now)) }
{
    match version {
        Version::One => Ok(()),
        Version::Two | Version::Three => {
            out.push_str("opening ")?;
            write_set(alloc, out, opened)?;
            out.push_str("\n")
        }
    }
}

/// Appends the first line of a bundle.
fn write_version(out: &mut String, version: Version) -> Result<(), AllocError>
    ensures { OnOk result (string_bytes out.new ≡ string_bytes out.old ++ ended_bundle_line (Own (Heads version))) }
{
    match version {
        Version::One => out.push_str("bundle 1\n"),
        Version::Two => out.push_str("bundle 2\n"),
        Version::Three => out.push_str("bundle 3\n"),
    }
}

/// Appends the lines of a bundle before its tables.
#[tactic(auto, using(crate::proofs::BundleWriting::head_appended))]
fn write_head(
    alloc: Global,
    out: &mut String,
    version: Version,
    replica: SourceId,
    opened: &GtidSet,
) -> Result<(), AllocError>
    ensures { OnOk result (string_bytes out.new ≡ string_bytes out.old ++ head_text version replica opened.now) }
{
    write_version(out, version)?;
    write_replica(out, replica)?;
    write_opening_set(alloc, out, version, opened)
}

/// Appends a column after a comma.
fn write_next_column(out: &mut String, column: u32) -> Result<(), AllocError>
    ensures { OnOk result (string_bytes out.new ≡ string_bytes out.old ++ 44 ∷ decimal column) }
{
    out.push_str(",")?;
    write_number(out, u64::from(column))
}

/// Appends columns, each after a comma.
fn write_next_columns(out: &mut String, columns: &[u32]) -> Result<(), AllocError>
    ensures { OnOk result (string_bytes out.new ≡ string_bytes out.old ++ columns_behind columns.now) }
{
    for column in columns {
        write_next_column(out, *column)?;
    }
    Ok(())
}

/// Appends columns with a comma between.
fn write_columns(out: &mut String, columns: &[u32]) -> Result<(), AllocError>
    ensures { OnOk result (string_bytes out.new ≡ string_bytes out.old ++ columns_text columns.now) }
{
    let [first, others @ ..] = columns else {
        return Ok(());
    };
    write_number(out, u64::from(*first))?;
    write_next_columns(out, others)
}

/// Appends the columns of a unique key.
fn write_unique(out: &mut String, columns: &Columns) -> Result<(), AllocError>
    ensures { OnOk result (string_bytes out.new ≡ string_bytes out.old ++ (codes " uk " ++ columns_text columns.now)) }
{
    out.push_str(" uk ")?;
    write_columns(out, columns.as_slice())
}

/// Appends the columns of unique keys.
fn write_uniques(out: &mut String, uniques: &[Columns]) -> Result<(), AllocError>
    ensures { OnOk result (string_bytes out.new ≡ string_bytes out.old ++ uniques_text uniques.now) }
{
    for columns in uniques {
        write_unique(out, columns)?;
    }
    Ok(())
}

/// Appends how many columns are hidden, if any are.
fn write_hidden(out: &mut String, hidden: u32) -> Result<(), AllocError>
    ensures { OnOk result (string_bytes out.new ≡ string_bytes out.old ++ hidden_part hidden) }
{
    if hidden == 0 {
        return Ok(());
    }
    out.push_str(" hidden")?;
    write_next_number(out, u64::from(hidden))
}

/// Appends the line of a table.
#[tactic(auto, using(crate::proofs::BundleWriting::table_appended))]
fn write_table(out: &mut String, table: &Table) -> Result<(), AllocError>
    ensures { OnOk result (string_bytes out.new ≡ string_bytes out.old ++ ended_bundle_line (Own (Has (shape_for table.now)))) }
{
    out.push_str("table ")?;
    out.push_str(table.name.as_str())?;
    write_next_number(out, u64::from(table.columns))?;
    out.push_str(" pk ")?;
    write_columns(out, table.primary.as_slice())?;
    write_uniques(out, table.uniques.as_slice())?;
    write_hidden(out, table.hidden)?;
    out.push_str("\n")
}

/// Appends the lines of tables.
fn write_tables(out: &mut String, tables: &[Table]) -> Result<(), AllocError>
    ensures { OnOk result (string_bytes out.new ≡ string_bytes out.old ++ tables_text tables.now) }
{
    for table in tables {
        write_table(out, table)?;
    }
    Ok(())
}

/// Appends the word of a reference whose children the server itself changes, and the end of its line.
fn write_cascade(out: &mut String, cascade: bool) -> Result<(), AllocError>
    ensures { OnOk result (string_bytes out.new ≡ string_bytes out.old ++ (cascade_part cascade ++ codes "\n")) }
{
    if cascade {
        out.push_str(" cascade\n")
    } else {
        out.push_str("\n")
    }
}

/// Appends the line of a reference.
#[tactic(auto, using(crate::proofs::BundleWriting::reference_appended))]
fn write_reference(out: &mut String, reference: &Reference) -> Result<(), AllocError>
    ensures { OnOk result (string_bytes out.new ≡ string_bytes out.old ++ ended_bundle_line (Own (Refers (reference_shape reference.now)))) }
{
    out.push_str("fk ")?;
    out.push_str(reference.child.as_str())?;
    out.push_str(" ")?;
    write_columns(out, reference.columns.as_slice())?;
    out.push_str(" ")?;
    out.push_str(reference.parent.as_str())?;
    write_next_number(out, reference.key)?;
    write_cascade(out, reference.cascade)
}

/// Appends the lines of references.
fn write_references(out: &mut String, references: &[Reference]) -> Result<(), AllocError>
    ensures { OnOk result (string_bytes out.new ≡ string_bytes out.old ++ references_text references.now) }
{
    for reference in references {
        write_reference(out, reference)?;
    }
    Ok(())
}

/// Appends the line of an assumption.
#[tactic(auto, using(crate::proofs::BundleWriting::assumption_appended))]
fn write_assumption(out: &mut String, assumption: &Assumption) -> Result<(), AllocError>
    ensures { OnOk result (string_bytes out.new ≡ string_bytes out.old ++ ended_bundle_line (Own (Assumes assumption.now))) }
{
    out.push_str("assume ")?;
    assumption.write(out)?;
    out.push_str("\n")
}

/// Appends the lines of assumptions.
fn write_assumptions(out: &mut String, assumptions: &[Assumption]) -> Result<(), AllocError>
    ensures { OnOk result (string_bytes out.new ≡ string_bytes out.old ++ assumptions_text assumptions.now) }
{
    for assumption in assumptions {
        write_assumption(out, assumption)?;
    }
    Ok(())
}

/// Appends the line of a row.
fn write_row(alloc: Global, out: &mut String, row: &TableRow) -> Result<(), AllocError>
    ensures { OnOk result (string_bytes out.new ≡ string_bytes out.old ++ ended_bundle_line (Own (Puts row.now))) }
{
    write_image(out, "row", &row.table, &row.row)?;
    out.push_str("\n")
}

/// Appends the lines of rows.
fn write_rows(alloc: Global, out: &mut String, rows: &[TableRow]) -> Result<(), AllocError>
    ensures { OnOk result (string_bytes out.new ≡ string_bytes out.old ++ rows_text rows.now) }
{
    for row in rows {
        write_row(alloc, out, row)?;
    }
    Ok(())
}

/// Appends the line of a channel.
#[tactic(auto, using(crate::proofs::BundleWriting::preserving_appended, crate::proofs::BundleWriting::channel_appended))]
fn write_channel(out: &mut String, channel: &BundleChannel) -> Result<(), AllocError>
    ensures { OnOk result (string_bytes out.new ≡ string_bytes out.old ++ ended_bundle_line (Own (Opens channel.now))) }
{
    out.push_str("channel ")?;
    out.push_str(channel.name.as_str())?;
    if channel.preserve {
        out.push_str(" preserve\n")
    } else {
        out.push_str("\n")
    }
}

/// Appends the lines of a channel and its journal.
#[tactic(auto, using(crate::proofs::BundleWriting::brought_appended))]
fn write_channel_and_journal(
    alloc: Global,
    out: &mut String,
    version: Version,
    schema: &Schema,
    channel: &BundleChannel,
    journal: &Journal,
) -> Result<(), AllocError>
    ensures { OnOk result (string_bytes out.new ≡ string_bytes out.old ++ channel_and_journal_text version schema.now channel.now journal.now) }
{
    write_channel(out, channel)?;
    write_journal_by(alloc, out, version, schema, journal)
}

/// Appends the lines of channels and their journals.
fn write_channels(
    alloc: Global,
    out: &mut String,
    version: Version,
    schema: &Schema,
    channels: &[BundleChannel],
    journals: &[Journal],
) -> Result<(), AllocError>
    ensures { OnOk result (string_bytes out.new ≡ string_bytes out.old ++ channels_and_journals_text version schema.now channels.now journals.now) }
{
    for (channel, journal) in channels.iter().zip(journals) {
        write_channel_and_journal(alloc, out, version, schema, channel, journal)?;
    }
    Ok(())
}

/// Appends the lines before the first channel.
#[tactic(auto, using(crate::proofs::BundleWriting::start_appended))]
fn write_start(
    alloc: Global,
    out: &mut String,
    version: Version,
    replica: SourceId,
    opened: &GtidSet,
    tables: &[Table],
    references: &[Reference],
    rows: &[TableRow],
) -> Result<(), AllocError>
    ensures { OnOk result (string_bytes out.new ≡ string_bytes out.old ++ start_text version replica opened.now tables.now references.now rows.now) }
{
    write_head(alloc, out, version, replica, opened)?;
    write_tables(out, tables)?;
    write_references(out, references)?;
    write_rows(alloc, out, rows)
}

/// Appends the text of a bundle, whose rows come in this order.
#[tactic(auto, using(crate::proofs::BundleWriting::bundle_appended))]
fn write_bundle(
    alloc: Global,
    out: &mut String,
    version: Version,
    rows: &[TableRow],
    bundle: &Bundle,
) -> Result<(), AllocError>
    ensures { OnOk result (string_bytes out.new ≡ string_bytes out.old ++ bundle_spelling version rows.now bundle.now) }
{
    let schema = bundle.schema();
    write_start(
        alloc,
        out,
        version,
        bundle.replica(),
        bundle.opening_set(),
        schema.tables(),
        bundle.references(),
        rows,
    )?;
    let (channels, journals) = (bundle.channels(), bundle.journals());
    write_channels(alloc, out, version, schema, channels, journals)?;
    write_assumptions(out, bundle.assumptions())?;
    out.push_str("done\n")
}

/// The text of a bundle by a version of the format: its lines, each ended by one line feed. Rows come by table name, and then by the
/// values of their primary key; each entry has its last_committed and its sequence number, but in version 1.
#[tactic(auto, using(crate::proofs::BundlePlaces::spelled_writes))]
pub fn bundle_text(alloc: Global, version: Version, bundle: &Bundle) -> Result<String, AllocError>
    ensures spelled { IfOk result (λ text. string_bytes text ≡ spelling_by version bundle.now) }
    // It is a text by the grammar, and read back as this bundle, if that version can write it.
    ensures writes { IfOk result (λ text. WritesWhereWritable version (string_bytes text) bundle.now) }
{
    let rows = bundle.rows().list_sorted(alloc)?;
    let mut out = String::new(alloc);
    write_bundle(alloc, &mut out, version, rows.as_slice(), bundle)?;
    Ok(out)
}

/// The same as bytes.
pub fn encode_bundle(
    alloc: Global,
    version: Version,
    bundle: &Bundle,
) -> Result<Vec<u8>, AllocError>
    ensures spelled { IfOk result (λ bytes. bytes.items ≡ spelling_by version bundle.now) }
    ensures writes { IfOk result (λ bytes. WritesWhereWritable version bytes.items bundle.now) }
{
    let text = bundle_text(alloc, version, bundle)?;
    Ok(text.into_bytes())
}
