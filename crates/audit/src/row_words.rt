//! The words of a row's values, each looked up by its column.
ghost use Rattle.std.specs.Prelude.{◌≡◌, IfOk, map, option_map, slice_get, slice_index_or};
ghost use Rattle.row_images.specs.declared.value.Value.TheVariants.{Null};
ghost use Rattle.row_images.specs.Images.{words_of};
ghost use Rattle.row_images.specs.Values.{value_text};
ghost use Rattle.audit.specs.RowTexts.{AreWords, words_held};

use row_images::{Row, cut};
use rows::Table;
use std::alloc::{AllocError, Global};
use std::marker::Model;

/// Of a key of up to this many columns, each word is looked for in a row's text from its start (MySQL's own limit of a key; a choice of
/// speed alone).
const FEW_COLUMNS: usize = 16;

/// A row and the words of its values: in a list, or if that has none, in a text.
#[derive(Drop)]
pub(crate) struct RowWords<'a> {
    row: &'a Row,
    text: &'a [u8],
    list: Vec<&'a [u8]>,
}

impl<'a> Model for RowWords<'a> {
    ghost use Rattle.std.specs.Prelude.{List, map};
    ghost use Rattle.row_images.specs.declared.value.Value.{Value as Cell};
    ghost use Rattle.audit.specs.RowTexts.{AreWords, words_held};

    ghost Value = { List Cell };

    ghost view = { λ a. a.row.now };

    // The words are those of the row.
    ghost invariant = { λ a. AreWords (words_held (map (λ w. w.now) a.list.items) a.text.now) a.row.now };
}

/// The word at a place of a text, counted from 0.
fn word_in(text: &[u8], place: u32) -> Option<&[u8]>
    ensures { option_map (λ word. word.now) result ≡ slice_get (words_of text.now) place }
{
    let mut left = text;
    for _passed in 0..place {
        match cut(left).1 {
            Some(after) => left = after,
            None => return None,
        }
    }
    Some(cut(left).0)
}

/// The word at a place of those that are held, counted from 0.
fn word_of<'a>(list: &[&'a [u8]], text: &'a [u8], place: u32) -> Option<&'a [u8]>
    ensures { option_map (λ word. word.now) result ≡ slice_get (words_held (map (λ w. w.now) list.now) text.now) place }
{
    if list.is_empty() {
        return word_in(text, place);
    }
    match list.get(place as usize) {
        Some(word) => Some(*word),
        None => None,
    }
}

/// Whether a key of a table has many columns.
fn has_long_key(table: &Table) -> bool {
    table.primary.as_slice().len() > FEW_COLUMNS
        || table
            .uniques
            .as_slice()
            .iter()
            .any(|columns| columns.as_slice().len() > FEW_COLUMNS)
}

/// The words of a row's values; a row of none has the word of null.
fn text_of(row: &Row) -> &[u8]
    ensures { AreWords (words_of result.now) row.now }
{
    row.keeps_rules();
    if row.is_empty() {
        return b"null".as_slice();
    }
    row.as_str().as_bytes()
}

/// The words of a text.
fn list_words(alloc: Global, text: &[u8]) -> Result<Vec<&[u8]>, AllocError>
    ensures { IfOk result (λ list. map (λ w. w.now) list.items ≡ words_of text.now) }
{
    text.split(|b| *b == b' ').collect(alloc)
}

/// A list of the words of a text, if a key of a table has many columns; else a list of none.
fn list_for<'a>(alloc: Global, table: &Table, text: &'a [u8]) -> Result<Vec<&'a [u8]>, AllocError>
    ensures { IfOk result (λ list. words_held (map (λ w. w.now) list.items) text.now ≡ words_of text.now) }
{
    if has_long_key(table) {
        return list_words(alloc, text);
    }
    Ok(Vec::new(alloc))
}

impl<'a> RowWords<'a> {
    /// The words of a row of this table.
    pub(crate) fn of(alloc: Global, table: &Table, row: &'a Row) -> Result<RowWords<'a>, AllocError>
        ensures { IfOk result (λ words. words ≡ row.now) }
    {
        let text = text_of(row);
        let list = list_for(alloc, table, text)?;
        Ok(RowWords { row, text, list })
    }

    /// The row.
    pub(crate) fn row(&self) -> &Row
        ensures { result.now ≡ self.now }
    {
        self.row
    }

    /// The word of the row's value in a column, or that of null past the last.
    pub(crate) fn at(&self, column: u32) -> &[u8]
        ensures { result.now ≡ value_text (slice_index_or self.now column Null) }
    {
        match word_of(self.list.as_slice(), self.text, column) {
            Some(word) => word,
            None => b"null".as_slice(),
        }
    }
}
