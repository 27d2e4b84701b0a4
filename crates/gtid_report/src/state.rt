ghost use Rattle.std.specs.Prelude.{◌≡◌, ◌++◌, ◌≤◌, List, Some, IfOk, IfSome, OnOk, length, take, string_bytes};
ghost use Rattle.std.specs.Option.{option_copied};
ghost use Rattle.txn_journal.specs.WrittenSets.{set_text};
ghost use Rattle.rows.specs.declared.schema.Table.{Table};
ghost use Rattle.rows.specs.Keys.{find_table};
ghost use Rattle.rows.specs.Listing.{all_shown, rows_of};
ghost use Rattle.gtid_report.specs.State.{values_text, shown_values, row_line, rows_text, hides_columns, ShowAlike, executed_line, state_text};

use gtid_set::GtidSet;
use row_images::write_value;
use rows::{Key, Name, Row, Rows, Schema, Table, TableRow, Value};
use std::alloc::{AllocError, Global};
use txn_journal::write_spans_word;

/// The words of values, each after a blank.
pub(crate) fn push_values(
    alloc: Global,
    out: &mut String,
    values: &[Value],
) -> Result<(), AllocError>
    ensures { OnOk result (string_bytes out.new ≡ string_bytes out.old ++ values_text values.now) }
{
    for value in values {
        out.push_str(" ")?;
        write_value(alloc, out, value)?;
    }
    Ok(())
}

/// The words of a row's values, each after a blank.
#[tactic(auto, using(crate::proofs::ImageLemmas::values_joined))]
fn push_image(out: &mut String, row: &Row) -> Result<(), AllocError>
    ensures { OnOk result (string_bytes out.new ≡ string_bytes out.old ++ values_text row.now) }
{
    if row.is_empty() {
        return Ok(());
    }
    out.push_str(" ")?;
    out.push_str(row.as_str())
}

/// The words of a row's first values, this many, each after a blank.
fn push_front(out: &mut String, row: &Row, count: usize) -> Result<(), AllocError>
    requires { count ≤ length row.now }
    ensures { OnOk result (string_bytes out.new ≡ string_bytes out.old ++ values_text (take count row.now)) }
{
    row.keeps_rules();
    let mut left = row.as_str();
    for _column in 0..count {
        out.push_str(" ")?;
        let Some((word, more)) = left.split_once(' ') else {
            return out.push_str(left);
        };
        out.push_str(word)?;
        left = more;
    }
    Ok(())
}

/// The words of a row's values that are shown, each after a blank.
#[tactic(auto, using(crate::proofs::ShownRows::nothing_hidden))]
fn push_shown(out: &mut String, table: Option<&Table>, row: &Row) -> Result<(), AllocError>
    ensures { OnOk result (string_bytes out.new ≡ string_bytes out.old ++ values_text (shown_values (option_copied table.entry) row.now)) }
{
    match table {
        Some(table) if table.hidden > 0 => {
            push_front(out, row, row.len().saturating_sub(table.hidden as usize))
        }
        _ => push_image(out, row),
    }
}

/// The line of a row of a table that shows what this one does.
fn push_row(
    out: &mut String,
    table: Option<&Table>,
    name: &Name,
    row: &Row,
) -> Result<(), AllocError>
    ensures { (schema : List Table) → ShowAlike (option_copied table.entry) (find_table name.now schema)
        → OnOk result (string_bytes out.new ≡ string_bytes out.old ++ row_line schema (record { table = name.now; row = row.now })) }
{
    out.push_str("row ")?;
    out.push_str(name.as_str())?;
    push_shown(out, table, row)?;
    out.push_str("\n")
}

/// Whether a table has hidden columns.
fn hides_columns(schema: &Schema) -> bool
    ensures { result ≡ hides_columns schema.now }
{
    schema.tables().iter().any(|table| table.hidden > 0)
}

/// The table of a name, which may be the one that was found last.
#[tactic(auto, using(crate::proofs::ShownRows::own_found, crate::proofs::ShownRows::still_found))]
fn find_near<'a>(schema: &'a Schema, last: Option<&'a Table>, name: &Name) -> Option<&'a Table>
    requires { IfSome last (λ table. find_table table.now.name schema.now ≡ Some table.now) }
    ensures found { option_copied result ≡ find_table name.now schema.now }
    ensures own { IfSome result (λ table. find_table table.now.name schema.now ≡ Some table.now) }
{
    if let Some(table) = last {
        if table.name == *name {
            return last;
        }
    }
    schema.find(name)
}

/// What shows as much of a row as the table of this name: the table, or none, if no table hides a column.
#[tactic(auto, using(crate::proofs::ShownRows::none_hides, crate::proofs::ShownRows::found_shows))]
#[inline(always)]
fn find_hiding<'a>(
    schema: &'a Schema,
    hides: bool,
    last: Option<&'a Table>,
    name: &Name,
) -> Option<&'a Table>
    requires hides { hides ≡ hides_columns schema.now }
    requires own { IfSome last (λ table. find_table table.now.name schema.now ≡ Some table.now) }
    ensures alike { ShowAlike (option_copied result) (find_table name.now schema.now) }
    ensures own { IfSome result (λ table. find_table table.now.name schema.now ≡ Some table.now) }
{
    if hides {
        find_near(schema, last, name)
    } else {
        None
    }
}

/// The line of each row that is lent with its key, in the order of the list, by these tables.
pub fn render_lent_rows(
    out: &mut String,
    schema: &Schema,
    list: &[(&Key, &Row)],
) -> Result<(), AllocError>
    ensures { OnOk result (string_bytes out.new ≡ string_bytes out.old ++ rows_text schema.now (rows_of (all_shown list.now))) }
{
    let hides = hides_columns(schema);
    let mut last = None;
    for (key, row) in list {
        last = find_hiding(schema, hides, last, &key.table);
        push_row(out, last, &key.table, row)?;
    }
    Ok(())
}

/// The line of each row, in the order of the list, by these tables.
pub fn render_rows(out: &mut String, schema: &Schema, rows: &[TableRow]) -> Result<(), AllocError>
    ensures { OnOk result (string_bytes out.new ≡ string_bytes out.old ++ rows_text schema.now rows.now) }
{
    let hides = hides_columns(schema);
    let mut last = None;
    for row in rows {
        last = find_hiding(schema, hides, last, &row.table);
        push_row(out, last, &row.table, &row.row)?;
    }
    Ok(())
}

/// Appends the word of a set: its canonical text, or `-` if it is empty.
pub fn push_set(alloc: Global, out: &mut String, set: &GtidSet) -> Result<(), AllocError>
    ensures { OnOk result (string_bytes out.new ≡ string_bytes out.old ++ set_text set.now) }
{
    let spans = set.spans(alloc)?;
    write_spans_word(out, &spans)
}

/// The line of an executed set, `-` if it is empty.
pub fn render_executed(alloc: Global, executed: &GtidSet) -> Result<String, AllocError>
    ensures { IfOk result (λ text. string_bytes text ≡ executed_line executed.now) }
{
    let mut text = String::from_str(alloc, "executed ")?;
    push_set(alloc, &mut text, executed)?;
    text.push_str("\n")?;
    Ok(text)
}

/// The printed lines of a state: the executed set, `-` if it is empty, and then each row, by the name of its table and then by the values
/// of its primary key. The words and their order are our own.
pub fn render_state(alloc: Global, executed: &GtidSet, rows: &Rows) -> Result<String, AllocError>
    ensures { IfOk result (λ text. string_bytes text ≡ state_text rows.now.schema executed.now rows.now.rows) }
{
    let mut text = render_executed(alloc, executed)?;
    let list = rows.list_lent(alloc)?;
    render_lent_rows(&mut text, rows.schema(), &list)?;
    Ok(text)
}
