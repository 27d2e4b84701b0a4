//! Tables as words.
ghost use Rattle.std.specs.Prelude.{◌≡◌, ◌≤◌, ◌&&◌, ◌∷◌, ◌++◌, [], false, map, option_map, codes, IfOk};
ghost use Rattle.std.specs.Str.{bytes_eq};
ghost use Rattle.rows.specs.Tables.{table_fault};
ghost use Rattle.std.specs.List.{list_all};
ghost use Rattle.row_images.specs.Words.{is_count};
ghost use Rattle.row_images.specs.Parts.{before, behind, parts_of};
ghost use Rattle.txn_journal.specs.Stream.{Finds, TakesPart};
ghost use Rattle.txn_journal.specs.Splits.{are_new_to, are_columns, is_columns_text};
ghost use Rattle.txn_journal.specs.Shapes.{hides, is_last_pair, hidden_word, behind_from, is_head, shape_in, width_of, hidden_of, numbers_from, columns_in, keys_from, table_of, after_fault, with_table, added_table};
ghost use Rattle.txn_journal.specs.Shaped.{shape, behind_shape};

use crate::fault::{Cause, LineFault};
use crate::names::Names;
use gtid_set::SetFault;
use row_images::{count, is_count};
use rows::{ColumnLists, Columns, Limits, Name, Schema, SchemaFault, Table, TableFault};
use std::alloc::{AllocError, Global};
use std::collections::BTreeSet;

/// The content of a table's line, before its numbers are read.
#[derive(Drop)]
pub struct TableWords<'a> {
    pub name: Name,
    columns: &'a [u8],
    primary: &'a [u8],
    uniques: Vec<&'a [u8]>,
    hidden: Option<&'a [u8]>,
}

/// What follows the primary key of a table's line.
#[derive(Drop)]
pub struct BehindWords<'a> {
    uniques: Vec<&'a [u8]>,
    hidden: Option<&'a [u8]>,
}

/// What comes before the first separator, and what follows it.
fn cut_at(separator: u8, text: &[u8]) -> (&[u8], Option<&[u8]>)
    ensures part { result.0.now ≡ before separator text.now }
    ensures rest { option_map (λ r. r.now) result.1 ≡ behind separator text.now }
{
    for (i, b) in text.iter().enumerate() {
        if *b == separator {
            return (&text[..i], Some(&text[i + 1..]));
        }
    }
    (text, None)
}

/// The parts between separators.
pub fn parts(alloc: Global, separator: u8, text: &[u8]) -> Result<Vec<&[u8]>, AllocError>
    ensures { IfOk result (λ parts. map (λ p. p.now) parts.items ≡ parts_of separator text.now) }
{
    let mut parts = Vec::new(alloc);
    let mut left = text;
    'parts: loop {
        let (part, more) = cut_at(separator, left);
        parts.push(part)?;
        match more {
            Some(after) => left = after,
            None => return Ok(parts),
        }
    }
}

fn are_counts(words: &[&[u8]]) -> bool
    ensures { result ≡ list_all is_count (map (λ w. w.now) words.now) }
{
    for word in words {
        if !is_count(word) {
            return false;
        }
    }
    true
}

/// Whether each word is new, and not one that came earlier.
#[tactic(auto, unfolding(crate::specs::Splits::are_new_to))]
fn are_new(alloc: Global, words: &[&[u8]]) -> Result<bool, AllocError>
    ensures { IfOk result (λ are. are ≡ are_new_to (λ v. false) (map (λ w. w.now) words.now)) }
{
    let mut seen = BTreeSet::new(alloc);
    for word in words {
        if !seen.insert(*word)? {
            return Ok(false);
        }
    }
    Ok(true)
}

/// Whether a text is one or more column numbers, joined by commas, no number twice.
pub fn is_columns(alloc: Global, text: &[u8]) -> Result<bool, AllocError>
    ensures { IfOk result (λ is. is ≡ is_columns_text text.now) }
{
    let words = parts(alloc, b',', text)?;
    if !are_counts(&words) {
        return Ok(false);
    }
    are_new(alloc, &words)
}

/// Whether a word is the one that comes before the columns of a unique key, and these are columns.
fn is_unique(alloc: Global, key: &[u8], columns: &[u8]) -> Result<bool, AllocError>
    ensures { IfOk result (λ is. is ≡ (bytes_eq key.now (codes "uk") && is_columns_text columns.now)) }
{
    if key != b"uk".as_slice() {
        return Ok(false);
    }
    is_columns(alloc, columns)
}

/// Whether a word says how many columns are hidden, by these limits.
fn hides(limits: Limits, count: &[u8]) -> bool
    ensures { result ≡ hides limits count.now }
{
    match limits {
        Limits::Narrow => false,
        Limits::Wide => is_count(count),
    }
}

/// How many columns are hidden, if these two words say it and none comes after them.
fn last_pair<'a>(
    limits: Limits,
    key: &[u8],
    count: &'a [u8],
    after: &[&[u8]],
) -> Result<Option<&'a [u8]>, LineFault>
    ensures { Finds (λ found. option_map (λ c. c.now) found) result (hidden_word (is_last_pair limits key.now count.now (map (λ w. w.now) after.now)) count.now) }
{
    if after.is_empty() && key == b"hidden".as_slice() && hides(limits, count) {
        Ok(Some(count))
    } else {
        Err(LineFault::Wrong(Cause::Body))
    }
}

/// The columns of each unique key, and how many columns are hidden.
#[tactic(auto, unfolding(crate::specs::Shapes::behind_from))]
fn behind_in<'a>(
    alloc: Global,
    limits: Limits,
    words: &[&'a [u8]],
) -> Result<BehindWords<'a>, LineFault>
    ensures { Finds (λ b. behind_shape b) result (behind_from limits [] (map (λ w. w.now) words.now)) }
{
    let mut uniques = Vec::new(alloc);
    let mut left = words;
    'words: loop {
        match left {
            [] => {
                return Ok(BehindWords {
                    uniques,
                    hidden: None,
                });
            }
            [key, word, after @ ..] => {
                if !is_unique(alloc, key, word)? {
                    let hidden = last_pair(limits, key, word, after)?;
                    return Ok(BehindWords { uniques, hidden });
                }
                uniques.push(*word)?;
                left = after;
            }
            _ => return Err(LineFault::Wrong(Cause::Body)),
        }
    }
}

/// Whether these are a number of columns, the word before the primary key, and its columns.
fn is_head(alloc: Global, columns: &[u8], key: &[u8], primary: &[u8]) -> Result<bool, AllocError>
    ensures { IfOk result (λ is. is ≡ is_head columns.now key.now primary.now) }
{
    if !is_count(columns) || key != b"pk".as_slice() {
        return Ok(false);
    }
    is_columns(alloc, primary)
}

/// The content of a table's line.
#[tactic(auto, unfolding(crate::specs::Shapes::shape_in, crate::specs::Shapes::shape_of))]
fn table_words<'a>(
    alloc: Global,
    limits: Limits,
    names: &mut Names,
    text: &'a [u8],
) -> Result<TableWords<'a>, LineFault>
    ensures { Finds (λ w. shape w) result (shape_in limits text.now) }
{
    let words = parts(alloc, b' ', text)?;
    let [name, columns, key, primary, rest @ ..] = words.as_slice() else {
        return Err(LineFault::Wrong(Cause::Body));
    };
    let Some(name) = names.read(alloc, limits, name)? else {
        return Err(LineFault::Wrong(Cause::Body));
    };
    if !is_head(alloc, columns, key, primary)? {
        return Err(LineFault::Wrong(Cause::Body));
    }
    let behind = behind_in(alloc, limits, rest)?;
    Ok(TableWords {
        name,
        columns: *columns,
        primary: *primary,
        uniques: behind.uniques,
        hidden: behind.hidden,
    })
}

/// The numbers of columns, if each is below the limit.
#[tactic(auto, unfolding(crate::specs::Shapes::numbers_from))]
fn numbers_below(alloc: Global, limit: u64, words: &[&[u8]]) -> Result<Vec<u32>, LineFault>
    requires { limit ≤ 4294967296 }
    ensures { Finds (λ c. c.items) result (numbers_from limit [] (map (λ w. w.now) words.now)) }
{
    let mut columns = Vec::new(alloc);
    for word in words {
        match count(word) {
            Some(number) if number < limit => columns.push(number as u32)?,
            _ => return Err(LineFault::Wrong(Cause::Schema)),
        }
    }
    Ok(columns)
}

/// The columns that a text names, if each is below the limit.
#[tactic(auto, unfolding(crate::specs::Shapes::columns_in))]
pub fn columns_below(alloc: Global, limit: u64, text: &[u8]) -> Result<Columns, LineFault>
    requires { limit ≤ 4294967296 }
    ensures { Finds (λ c. c) result (columns_in limit text.now) }
{
    let words = parts(alloc, b',', text)?;
    let columns = numbers_below(alloc, limit, &words)?;
    Ok(Columns::new(columns)?)
}

/// The columns of each key, if each is below the limit.
#[tactic(auto, unfolding(crate::specs::Shapes::keys_from))]
fn lists_below(alloc: Global, limit: u64, texts: &[&[u8]]) -> Result<Vec<Columns>, LineFault>
    requires { limit ≤ 4294967296 }
    ensures { Finds (λ k. k.items) result (keys_from limit [] (map (λ t. t.now) texts.now)) }
{
    let mut keys = Vec::new(alloc);
    for text in texts {
        keys.push(columns_below(alloc, limit, text)?)?;
    }
    Ok(keys)
}

fn keys_below(alloc: Global, limit: u64, texts: &[&[u8]]) -> Result<ColumnLists, LineFault>
    requires { limit ≤ 4294967296 }
    ensures { Finds (λ c. c) result (keys_from limit [] (map (λ t. t.now) texts.now)) }
{
    let keys = lists_below(alloc, limit, texts)?;
    Ok(ColumnLists::new(keys)?)
}

impl TableWords<'_> {
    /// How many columns the table has, if that is within the limits.
    #[tactic(auto, unfolding(crate::specs::Shapes::width_of))]
    fn columns(&self, limits: Limits) -> Result<u64, LineFault>
        ensures found { Finds (λ n. n) result (width_of limits (shape self.now)) }
        ensures low { IfOk result (λ columns. columns ≤ 4096) }
    {
        if self.uniques.len() > limits.uniques() {
            return Err(LineFault::Wrong(Cause::Limit));
        }
        match count(self.columns) {
            Some(columns) if 1 <= columns && columns <= u64::from(limits.columns()) => Ok(columns),
            _ => Err(LineFault::Wrong(Cause::Limit)),
        }
    }

    /// How many of this many columns are hidden, if that is within the limits.
    fn hidden(&self, columns: u64) -> Result<u64, LineFault>
        requires { columns ≤ 4096 }
        ensures found { Finds (λ n. n) result (hidden_of columns (shape self.now).hidden) }
        ensures low { IfOk result (λ hidden. hidden ≤ 4096) }
    {
        let Some(word) = self.hidden else {
            return Ok(0);
        };
        match count(word) {
            Some(hidden) if 1 <= hidden && hidden < columns => Ok(hidden),
            _ => Err(LineFault::Wrong(Cause::Limit)),
        }
    }

    /// The table of these words, with these numbers of columns and of hidden ones.
    #[tactic(auto, unfolding(crate::specs::Shapes::table_of))]
    fn table(
        &self,
        alloc: Global,
        limits: Limits,
        columns: u64,
        hidden: u64,
    ) -> Result<Table, LineFault>
        requires few { columns ≤ 4096 }
        requires hidden { hidden ≤ 4096 }
        ensures { Finds (λ t. t) result (table_of limits (shape self.now) columns hidden) }
    {
        let primary = columns_below(alloc, columns, self.primary)?;
        let uniques = keys_below(alloc, columns, &self.uniques)?;
        Ok(Table {
            name: self.name.clone()?,
            columns: columns as u32,
            primary,
            uniques,
            hidden: hidden as u32,
            limits,
        })
    }
}

/// Appends a table.
fn push_table(schema: &mut Schema, table: Table) -> Result<(), LineFault>
    ensures { TakesPart result (after_fault (table_fault schema.old table) (schema.old ++ table ∷ [])) schema.new }
{
    match schema.add(table) {
        Ok(()) => Ok(()),
        Err(SchemaFault::Memory) => Err(LineFault::Set(SetFault::Memory)),
        Err(SchemaFault::Table(TableFault::Body)) => Err(LineFault::Wrong(Cause::Body)),
        Err(SchemaFault::Table(TableFault::Limit)) => Err(LineFault::Wrong(Cause::Limit)),
        Err(SchemaFault::Table(TableFault::Schema)) => Err(LineFault::Wrong(Cause::Schema)),
    }
}

/// Appends the table of these words.
#[tactic(auto, unfolding(crate::specs::Shapes::with_table))]
fn add_words(
    alloc: Global,
    limits: Limits,
    schema: &mut Schema,
    words: &TableWords,
) -> Result<(), LineFault>
    ensures { TakesPart result (with_table limits schema.old (shape words.now)) schema.new }
{
    let columns = words.columns(limits)?;
    let hidden = words.hidden(columns)?;
    if schema.tables().len() >= limits.tables() {
        return Err(LineFault::Wrong(Cause::Limit));
    }
    let table = words.table(alloc, limits, columns, hidden)?;
    push_table(schema, table)
}

/// Appends the table that a text parses as.
#[tactic(auto, unfolding(crate::specs::Shapes::added_table))]
pub fn add_table(
    alloc: Global,
    limits: Limits,
    names: &mut Names,
    schema: &mut Schema,
    text: &[u8],
) -> Result<(), LineFault>
    ensures { TakesPart result (added_table limits schema.old text.now) schema.new }
{
    let words = table_words(alloc, limits, names, text)?;
    add_words(alloc, limits, schema, &words)
}
