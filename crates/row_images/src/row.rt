//! Images of rows, each kept as its text.
ghost use Rattle.std.specs.Prelude.{◌≡◌, ◌==◌, ◌≤◌, ◌<◌, IfOk, IfSome, None, is_some, length, map, option_map, slice_get, slice_index_or};
ghost use Rattle.std.specs.List.{list_any};
ghost use Rattle.std.specs.Ordering.{eq_by_cmp};
ghost use Rattle.row_images.specs.Order.{value_cmp};
ghost use Rattle.row_images.specs.declared.value.Value.TheVariants.{Null};
ghost use Rattle.row_images.specs.Values.{value_text, is_null, is_longer, is_long_word};
ghost use Rattle.row_images.specs.Images.{words_of, values_text, image_of, AreValues};
ghost use Rattle.row_images.specs.OnePass.{words_left, behind_first, AreNulls, AreSame};

use crate::first_value::{rest_from, value_len};
use crate::image_text::ImageText;
use crate::value::Value;
use crate::value_words::{all_fit, value_word, write_values};
use crate::words::cut;
use std::alloc::{AllocError, Global};
use std::marker::Model;

/// A value for each column. It is kept as the text of them, which a clone shares.
pub struct Row {
    text: ImageText,
}

impl Drop for Row {
    // (by hand: for a caller the end of a Row is one call)
    fn drop(self) {
        let Row { text: _text } = self;
    }
}

impl Model for Row {
    ghost use Rattle.std.specs.Prelude.{◌≡◌, List, length};
    ghost use Rattle.row_images.specs.Held.{image_bytes, image_values};
    ghost use Rattle.row_images.specs.Images.{values_in, values_text};
    ghost use Rattle.row_images.specs.declared.value.Value.{Value as Cell};

    ghost Value = { List Cell };

    ghost view = { λ a. values_in (image_bytes a.text) };

    // The text has the values, and nothing else. Each column has one.
    ghost invariant = { λ a. (values_text (values_in (image_bytes a.text)) ≡ image_bytes a.text) × (image_values a.text ≡ length (values_in (image_bytes a.text))) };
}

impl PartialEq for Row {
    ghost use Rattle.std.specs.Ordering.{eq_by_cmp};
    ghost use Rattle.std.specs.Cmp.{eq_by_cmp_equiv, partial_equiv_from_equiv};
    ghost use Rattle.std.specs.Cmp.Lexicographic.{slice_cmp, lists_total};
    ghost use Rattle.row_images.specs.Order.{value_cmp};
    ghost use Rattle.row_images.specs.Total.{value_total};

    ghost eq = { eq_by_cmp (slice_cmp value_cmp) };

    ghost laws = { partial_equiv_from_equiv (eq_by_cmp_equiv (lists_total value_total)) };

    fn eq(&self, other: &Row) -> bool {
        self.text.as_slice() == other.text.as_slice()
    }
}

impl Eq for Row {
    ghost use Rattle.std.specs.Cmp.{eq_by_cmp_equiv};
    ghost use Rattle.std.specs.Cmp.Lexicographic.{lists_total};
    ghost use Rattle.row_images.specs.Total.{value_total};

    ghost laws = { eq_by_cmp_equiv (lists_total value_total) };
}

impl Clone for Row {
    ghost use Rattle.std.specs.Prelude.{◌≡◌};

    ghost is_clone = { λ a b. b ≡ a };

    fn clone(&self) -> Result<Row, AllocError> {
        Ok(Row {
            text: self.text.share()?,
        })
    }
}

/// How many values a text has, if it is that of values.
fn image_len(text: &[u8]) -> Option<usize>
    ensures some { is_some result ≡ is_some (image_of text.now) }
    ensures len { IfSome result (λ len. len ≡ length (words_of text.now)) }
{
    let mut count = 1;
    let mut left = text;
    'words: loop {
        let Some(len) = value_len(left) else {
            return None;
        };
        if len >= left.len() {
            return Some(count);
        }
        left = rest_from(left, len + 1);
        count += 1;
    }
}

/// Whether a word has `x` and the digits of more than this many bytes.
fn is_long_word(word: &[u8], most: u32) -> bool
    ensures { result ≡ is_long_word most word.now }
{
    match word {
        [b'x', digits @ ..] => digits.len() > 2 * most as usize,
        _ => false,
    }
}

fn has_long_word(text: &[u8], most: u32) -> bool
    ensures { result ≡ list_any (is_long_word most) (words_of text.now) }
{
    let mut left = text;
    'words: loop {
        let (word, more) = cut(left);
        if is_long_word(word, most) {
            return true;
        }
        match more {
            Some(after) => left = after,
            None => return false,
        }
    }
}

/// The word at a place of a text, counted from 0.
fn word_in(text: &[u8], place: usize) -> Option<&[u8]>
    ensures { option_map (λ word. word.now) result ≡ slice_get (words_of text.now) place }
{
    let mut left = text;
    for _passed in 0..place {
        match cut(left).1 {
            Some(after) => left = after,
            None => return None,
        }
    }
    Some(cut(left).0)
}

/// The next of the words that are left, or that of null past the last, and what is left after it.
fn next_word(left: Option<&[u8]>) -> (&[u8], Option<&[u8]>)
    ensures word { result.0.now ≡ slice_index_or (words_left (option_map (λ t. t.now) left.entry)) 0 (value_text Null) }
    ensures rest { words_left (option_map (λ t. t.now) result.1) ≡ behind_first (words_left (option_map (λ t. t.now) left.entry)) }
{
    match left {
        Some(text) => cut(text),
        None => (b"null".as_slice(), None),
    }
}

impl Row {
    /// These values, in the order of the columns.
    pub fn new(values: Vec<Value>) -> Result<Row, AllocError>
        ensures { IfOk result (λ row. row ≡ values.items) }
    {
        let alloc = *values.allocator();
        all_fit(values.as_slice());
        let mut text = String::new(alloc);
        write_values(alloc, &mut text, values.as_slice())?;
        let text = ImageText::of(alloc, text.as_bytes(), values.as_slice().len())?;
        Ok(Row { text })
    }

    /// The values that a text has: the words of one or more values, with one blank between.
    pub fn from_text(alloc: Global, text: &[u8]) -> Result<Option<Row>, AllocError>
        ensures { IfOk result (λ found. found ≡ image_of text.now) }
    {
        let Some(columns) = image_len(text) else {
            return Ok(None);
        };
        let text = ImageText::of(alloc, text, columns)?;
        Ok(Some(Row { text }))
    }

    /// The words of the values, with one blank between.
    pub fn as_str(&self) -> &str
        ensures { result.now ≡ values_text self.now }
    {
        // (the type keeps that it is the text of values, and that is UTF-8)
        unsafe { std::str::from_utf8_unchecked(self.text.as_slice()) }
    }

    /// Each value is one that its type has. (For the proofs of callers.)
    pub fn keeps_rules(&self)
        ensures { AreValues self.now }
    {
        let _text = self.text.as_slice();
    }

    /// How many values there are.
    pub fn len(&self) -> usize
        ensures { result ≡ length self.now }
    {
        self.text.values()
    }

    /// Whether there is no value.
    pub fn is_empty(&self) -> bool
        ensures { result ≡ (length self.now == 0) }
    {
        self.text.values() == 0
    }

    /// The word of the value in a column.
    fn word_at(&self, column: usize) -> Option<&[u8]>
        ensures { option_map (λ word. word.now) result ≡ option_map value_text (slice_get self.now column) }
    {
        if column >= self.text.values() {
            return None;
        }
        word_in(self.text.as_slice(), column)
    }

    /// The word of the value in a column, or that of null past the last.
    fn word_or_null_at(&self, column: u32) -> &[u8]
        ensures { result.now ≡ value_text (slice_index_or self.now column Null) }
    {
        match self.word_at(column as usize) {
            Some(word) => word,
            None => b"null".as_slice(),
        }
    }

    /// Whether both rows have the same value in a column; it is null past the last. Only the words are compared.
    pub fn has_same_value_at(&self, other: &Row, column: u32) -> bool
        ensures { result ≡ eq_by_cmp value_cmp (slice_index_or self.now column Null) (slice_index_or other.now column Null) }
    {
        self.keeps_rules();
        other.keeps_rules();
        *self.word_or_null_at(column) == *other.word_or_null_at(column)
    }

    /// What a pass over the words begins with: the text, if it has a word.
    fn all_left(&self) -> Option<&[u8]>
        ensures { words_left (option_map (λ t. t.now) result) ≡ map value_text self.now }
    {
        let text = self.text.as_slice();
        if text.is_empty() {
            return None;
        }
        Some(text)
    }

    /// All values, read in one pass.
    pub fn values(&self, alloc: Global) -> Result<Vec<Value>, AllocError>
        ensures { IfOk result (λ values. values.items ≡ self.now) }
    {
        self.keeps_rules();
        let mut values = Vec::with_capacity(alloc, self.len())?;
        let mut left = self.all_left();
        for _read in 0..self.len() {
            let (word, rest) = next_word(left);
            let value = value_word(alloc, word)?;
            values.push(value.unwrap_or(Value::Null))?;
            left = rest;
        }
        Ok(values)
    }

    /// Marks the columns whose value is null or missing, from the first on, and no others, in one pass.
    pub fn mark_nulls(&self, marks: &mut [bool])
        ensures { AreNulls marks.new self.now }
    {
        self.keeps_rules();
        let mut left = self.all_left();
        for mark in marks.iter_mut() {
            let (word, rest) = next_word(left);
            *mark = *word == *b"null".as_slice();
            left = rest;
        }
    }

    /// Marks the columns in which both rows have the same value, from the first on, and no others, in one pass.
    /// The value is null past the last. Only the words are compared.
    pub fn mark_same(&self, other: &Row, marks: &mut [bool])
        ensures { AreSame marks.new self.now other.now }
    {
        self.keeps_rules();
        other.keeps_rules();
        let mut left = self.all_left();
        let mut other_left = other.all_left();
        for mark in marks.iter_mut() {
            let (word, rest) = next_word(left);
            let (other_word, other_rest) = next_word(other_left);
            *mark = *word == *other_word;
            left = rest;
            other_left = other_rest;
        }
    }

    /// The value in a column, or null past the last.
    pub fn value_at(&self, alloc: Global, column: u32) -> Result<Value, AllocError>
        ensures { IfOk result (λ value. value ≡ slice_index_or self.now column Null) }
    {
        self.keeps_rules();
        match self.word_at(column as usize) {
            Some(word) => {
                let value = value_word(alloc, word)?;
                Ok(value.unwrap_or(Value::Null))
            }
            None => Ok(Value::Null),
        }
    }

    /// Whether the value in a column is null, or there is none.
    pub fn is_null_at(&self, column: u32) -> bool
        ensures { result ≡ is_null (slice_index_or self.now column Null) }
    {
        self.keeps_rules();
        match self.word_at(column as usize) {
            Some(word) => word == b"null".as_slice(),
            None => true,
        }
    }

    /// Whether a value has more than this many bytes.
    pub fn has_longer_value(&self, most: u32) -> bool
        ensures { result ≡ list_any (is_longer most) self.now }
    {
        let text = self.text.as_slice();
        // (most texts are shorter than the word of such a value)
        if text.len() <= 2 * most as usize {
            return false;
        }
        has_long_word(text, most)
    }
}
