//! Change lines without the values of hidden columns.
ghost use Rattle.std.specs.Prelude.{◌≡◌, ℕ, ◌+◌, ◌<◌, ◌^◌, ◌++◌, take, OnOk, IfOk, IfSome, false};
ghost use Rattle.std.specs.List.{flat_map};
ghost use Rattle.std.specs.Ordering.{nat_cmp, eq_by_cmp};
ghost use Rattle.std.specs.Cmp.Lexicographic.{slice_cmp};
ghost use Rattle.std.specs.Option.{option_copied};
ghost use Rattle.rows.specs.Keys.{find_table};
ghost use Rattle.gtid_report.specs.State.{hides_columns};
ghost use Rattle.fault_places.specs.Lines.{shown_byte, shorten};
ghost use Rattle.fault_places.specs.HiddenValues.{first_words, is_update, second_image, second_values, first_values, shown_columns, without_hidden};

use crate::lines::{MOST_SHOWN, behind, behind_word, put_bytes, put_first, put_shown, second_word};
use rows::{Name, NameFault, Schema, Table};
use std::alloc::{AllocError, Global};

/// Up to this many tables are searched one by one. Our own rule.
const FEW: usize = 4;

/// Tables, some of whose columns may be hidden.
#[derive(Drop)]
pub(crate) struct ShownTables<'a> {
    pub(crate) schema: &'a Schema,
    /// Whether one of them hides a column.
    hides: bool,
    ghost told: { hides ≡ hides_columns schema.now },
}

/// Whether a table hides a column.
fn hides_columns(schema: &Schema) -> bool
    ensures { result ≡ hides_columns schema.now }
{
    schema.tables().iter().any(|table| table.hidden > 0)
}

/// The first words of a text, this many.
fn first_words(text: &[u8], count: usize) -> &[u8]
    ensures { result.now ≡ first_words count text.now }
{
    if count == 0 {
        return &[];
    }
    let mut left = count;
    for (i, byte) in text.iter().enumerate() {
        if *byte == b' ' {
            if left == 1 {
                return &text[..i];
            }
            left -= 1;
        }
    }
    text
}

/// The first bytes of the first words of a text, at most this many.
fn words_within(text: &[u8], count: usize, most: usize) -> &[u8]
    ensures { result.now ≡ take most (first_words count text.now) }
{
    if text.len() < most {
        first_words(text, count)
    } else {
        first_words(&text[..most], count)
    }
}

fn is_update(line: &[u8]) -> bool
    ensures { result ≡ is_update line.now }
{
    line.starts_with(b"upd ")
}

/// The after image of an update.
fn second_image(line: &[u8]) -> &[u8]
    ensures { result.now ≡ second_image line.now }
{
    behind_word(behind(b'|', line))
}

/// Appends the first bytes of the first values of an update's after image, at most this many.
fn put_second_values(
    out: &mut Vec<u8>,
    most: usize,
    count: u32,
    line: &[u8],
) -> Result<(), AllocError>
    ensures { OnOk result (out.new.items ≡ out.old.items ++ flat_map shown_byte (take most (second_values count line.now))) }
{
    if most == 0 || !is_update(line) {
        return Ok(());
    }
    put_first(out, most, b" | ")?;
    let values = words_within(second_image(line), count as usize, most.saturating_sub(3));
    put_bytes(out, values)
}

/// Appends the first bytes of a change line that has the first values of each image, this many.
fn put_first_values(out: &mut Vec<u8>, count: u32, line: &[u8]) -> Result<(), AllocError>
    ensures { OnOk result (out.new.items ≡ out.old.items ++ shorten (first_values count line.now)) }
{
    let first = words_within(line, 2 + count as usize, MOST_SHOWN);
    put_bytes(out, first)?;
    put_second_values(out, MOST_SHOWN.saturating_sub(first.len()), count, line)
}

/// How many columns of a table are shown, if it hides some.
fn shown_columns(table: Option<&Table>) -> Option<u32>
    ensures { result ≡ shown_columns (option_copied table.entry) }
{
    match table {
        Some(table) if table.hidden > 0 => Some(table.columns.saturating_sub(table.hidden)),
        _ => None,
    }
}

fn is_named(name: &[u8], table: &Table) -> bool
    ensures { result ≡ eq_by_cmp (slice_cmp nat_cmp) name.now table.now.name }
{
    name == table.name.as_str().as_bytes()
}

/// The table of a name, one by one.
fn table_of<'a>(tables: &'a [Table], name: &[u8]) -> Option<&'a Table>
    ensures { option_copied result ≡ find_table name.now tables.now }
{
    for table in tables {
        if is_named(name, table) {
            return Some(table);
        }
    }
    None
}

/// A word as a name; None if it is none.
fn name_of(alloc: Global, word: &[u8]) -> Result<Option<Name>, AllocError>
    ensures { IfOk result (λ found. IfSome found (λ name. name ≡ word.now)) }
{
    let Ok(text) = std::str::from_utf8(word) else {
        return Ok(None);
    };
    match Name::new(String::from_str(alloc, text)?) {
        Ok(name) => Ok(Some(name)),
        Err(NameFault::NotAName) => Ok(None),
        Err(NameFault::Memory) => Err(AllocError),
    }
}

impl<'a> ShownTables<'a> {
    pub(crate) fn new(schema: &'a Schema) -> ShownTables<'a>
        ensures { result.schema.now ≡ schema.now }
    {
        ShownTables {
            schema,
            hides: hides_columns(schema),
        }
    }

    /// How many columns of the table of a name are shown, if it hides some.
    fn shown_columns(&self, alloc: Global, word: &[u8]) -> Result<Option<u32>, AllocError>
        ensures { IfOk result (λ count. count ≡ shown_columns (find_table word.now self.now.schema.now)) }
    {
        let tables = self.schema.tables();
        if tables.len() > FEW {
            if let Some(name) = name_of(alloc, word)? {
                return Ok(shown_columns(self.schema.find(&name)));
            }
        }
        Ok(shown_columns(table_of(tables, word)))
    }
}

/// Appends the first bytes of a change line, without the values that its table hides.
pub(crate) fn put_without_hidden(
    alloc: Global,
    out: &mut Vec<u8>,
    tables: &ShownTables,
    line: &[u8],
) -> Result<(), AllocError>
    ensures { OnOk result (out.new.items ≡ out.old.items ++ shorten (without_hidden tables.now.schema.now line.now)) }
{
    if !tables.hides {
        return put_shown(out, line);
    }
    match tables.shown_columns(alloc, second_word(line))? {
        Some(count) => put_first_values(out, count, line),
        None => put_shown(out, line),
    }
}
