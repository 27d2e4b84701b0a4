//! References: columns of a table that refer to a key of another.
ghost use Rattle.std.specs.Prelude.{◌≡◌, option_map, map, slice_get};
ghost use Rattle.row_images.specs.Words.{count_of};
ghost use Rattle.txn_journal.specs.Stream.{Finds};
ghost use Rattle.txn_journal.specs.References.{keys_of_table, name_in, cascade_in, reference_in, reference_behind, key_numbered, table_named, reference_to};
ghost use Rattle.txn_journal.specs.Referred.{reference_words_shape};

use crate::fault::{Cause, LineFault};
use crate::names::Names;
use crate::tables::{columns_below, is_columns, parts};
use row_images::{count, is_count};
use rows::{Columns, Limits, Name, Schema, Table};
use std::alloc::Global;

/// The greatest number of references. Our own limit.
pub const MAX_REFERENCES: usize = 65_536;

/// Columns of a table that refer to a key of another, or of the same table.
#[derive(Clone, Drop)]
pub struct Reference {
    /// The table whose rows refer.
    pub child: Name,
    /// Its columns, as many as the key has and in the order of the key's.
    pub columns: Columns,
    /// The table that is referred to.
    pub parent: Name,
    /// The number of its key: 0 is the primary key, 1 the first unique key, and so on.
    pub key: u64,
    /// Whether the server itself changes or deletes rows of the child, when the parent's change.
    pub cascade: bool,
}

/// The content of a reference's line, before its numbers are read.
#[derive(Drop)]
pub struct ReferenceWords<'a> {
    child: Name,
    columns: &'a [u8],
    parent: Name,
    key: &'a [u8],
    cascade: bool,
}

/// Whether the server itself changes children, by the words after the key.
fn cascade_in(words: &[&[u8]]) -> Result<bool, LineFault>
    ensures { Finds (λ b. b) result (cascade_in (map (λ w. w.now) words.now)) }
{
    match words {
        [] => Ok(false),
        [word] if *word == b"cascade".as_slice() => Ok(true),
        _ => Err(LineFault::Wrong(Cause::Body)),
    }
}

/// The name that a word is.
fn name_in(alloc: Global, limits: Limits, names: &mut Names, word: &[u8]) -> Result<Name, LineFault>
    ensures { Finds (λ n. n) result (name_in limits word.now) }
{
    match names.read(alloc, limits, word)? {
        Some(name) => Ok(name),
        None => Err(LineFault::Wrong(Cause::Body)),
    }
}

/// The content of a reference's line.
#[tactic(auto, unfolding(crate::specs::References::reference_in, crate::specs::References::reference_of))]
fn words_in<'a>(
    alloc: Global,
    limits: Limits,
    names: &mut Names,
    text: &'a [u8],
) -> Result<ReferenceWords<'a>, LineFault>
    ensures { Finds (λ w. reference_words_shape w) result (reference_in limits text.now) }
{
    let words = parts(alloc, b' ', text)?;
    let [child, columns, parent, key, more @ ..] = words.as_slice() else {
        return Err(LineFault::Wrong(Cause::Body));
    };
    let child = name_in(alloc, limits, names, child)?;
    let parent = name_in(alloc, limits, names, parent)?;
    if !is_columns(alloc, columns)? || !is_count(key) {
        return Err(LineFault::Wrong(Cause::Body));
    }
    Ok(ReferenceWords {
        child,
        columns: *columns,
        parent,
        key: *key,
        cascade: cascade_in(more)?,
    })
}

/// The content of a reference's line, by what follows its first word.
pub fn reference_words<'a>(
    alloc: Global,
    limits: Limits,
    names: &mut Names,
    rest: Option<&'a [u8]>,
) -> Result<ReferenceWords<'a>, LineFault>
    ensures { Finds (λ w. reference_words_shape w) result (reference_behind limits (option_map (λ r. r.now) rest.entry)) }
{
    match rest {
        Some(text) => words_in(alloc, limits, names, text),
        None => Err(LineFault::Wrong(Cause::Body)),
    }
}

/// The table of a name.
fn table_named<'a>(schema: &'a Schema, name: &Name) -> Result<&'a Table, LineFault>
    ensures { Finds (λ t. t.now) result (table_named schema.now name.now) }
{
    match schema.find(name) {
        Some(table) => Ok(table),
        None => Err(LineFault::Wrong(Cause::Schema)),
    }
}

/// The columns of the key with this number.
fn key_columns(table: &Table, number: u64) -> Option<&Columns>
    ensures { option_map (λ c. c.now) result ≡ slice_get (keys_of_table table.now) number }
{
    match number.checked_sub(1) {
        None => Some(&table.primary),
        Some(place) => table.uniques.as_slice().get(place as usize),
    }
}

/// The number of a key, and how many columns it has.
fn key_numbered(table: &Table, word: &[u8]) -> Result<(u64, usize), LineFault>
    ensures { Finds (λ k. k) result (key_numbered (keys_of_table table.now) (count_of word.now)) }
{
    let Some(number) = count(word) else {
        return Err(LineFault::Wrong(Cause::Schema));
    };
    match key_columns(table, number) {
        Some(columns) => Ok((number, columns.as_slice().len())),
        None => Err(LineFault::Wrong(Cause::Schema)),
    }
}

impl ReferenceWords<'_> {
    /// The reference of these words, if the schema has what it names.
    #[tactic(auto, unfolding(crate::specs::References::reference_to))]
    pub fn reference(&self, alloc: Global, schema: &Schema) -> Result<Reference, LineFault>
        ensures { Finds (λ r. r) result (reference_to schema.now (reference_words_shape self.now)) }
    {
        let child = table_named(schema, &self.child)?;
        let parent = table_named(schema, &self.parent)?;
        let columns = columns_below(alloc, u64::from(child.columns), self.columns)?;
        let (key, width) = key_numbered(parent, self.key)?;
        if columns.as_slice().len() != width {
            return Err(LineFault::Wrong(Cause::Schema));
        }
        Ok(Reference {
            child: self.child.clone()?,
            columns,
            parent: self.parent.clone()?,
            key,
            cascade: self.cascade,
        })
    }
}
