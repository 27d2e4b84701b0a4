//! The text on the first difference between two transactions.
ghost use Rattle.std.specs.Prelude.{◌≡◌, ◌++◌, OnOk, IfOk, codes, map, slice_get};
ghost use Rattle.std.specs.Str.{bytes_eq};
ghost use Rattle.world.specs.Equal.{change_eq};
ghost use Rattle.fault_places.specs.Differences.{first_difference, kind_word, words_of, before_words, after_words, word_in, attribute_text, column_text, before_text, after_text, change_text, extra_text, change_at_text, difference_text, changes_text};

use crate::lines::{put, put_number};
use crate::values::{Labels, put_side, put_values};
use rows::{Change, Row};
use std::alloc::{AllocError, Global};

/// Whether two changes have the same kind, table and images.
fn is_same_change(a: &Change, b: &Change) -> bool
    ensures { result ≡ change_eq a.now b.now }
{
    match a {
        Change::Insert { table, after } => match b {
            Change::Insert {
                table: other,
                after: row,
            } => *table == *other && *after == *row,
            _ => false,
        },
        Change::Delete { table, before } => match b {
            Change::Delete {
                table: other,
                before: row,
            } => *table == *other && *before == *row,
            _ => false,
        },
        Change::Update {
            table,
            before,
            after,
        } => match b {
            Change::Update {
                table: other,
                before: old,
                after: new,
            } => *table == *other && *before == *old && *after == *new,
            _ => false,
        },
    }
}

/// The index of the first change that differs; None if the lists are equal.
pub(crate) fn change_difference(first: &[Change], second: &[Change]) -> Option<usize>
    ensures { result ≡ first_difference change_eq 0 first.now second.now }
{
    for (i, change) in first.iter().enumerate() {
        if i >= second.len() {
            return Some(i);
        }
        if !is_same_change(change, &second[i]) {
            return Some(i);
        }
    }
    if first.len() < second.len() {
        Some(first.len())
    } else {
        None
    }
}

/// The index of the first word that differs; None if the lists are equal.
fn word_difference(first: &[&[u8]], second: &[&[u8]]) -> Option<usize>
    ensures { result ≡ first_difference bytes_eq 0 (map (λ x. x.now) first.now) (map (λ x. x.now) second.now) }
{
    for (i, word) in first.iter().enumerate() {
        if i >= second.len() {
            return Some(i);
        }
        if **word != *second[i] {
            return Some(i);
        }
    }
    if first.len() < second.len() {
        Some(first.len())
    } else {
        None
    }
}

/// The keyword of a change.
fn kind_word(change: &Change) -> &'static str
    ensures { result.now ≡ kind_word change.now }
{
    match change {
        Change::Insert { .. } => "ins",
        Change::Delete { .. } => "del",
        Change::Update { .. } => "upd",
    }
}

/// The words of the values of an image.
fn words_of(alloc: Global, row: &Row) -> Result<Vec<&[u8]>, AllocError>
    ensures { IfOk result (λ words. map (λ x. x.now) words.items ≡ words_of row.now) }
{
    row.keeps_rules();
    if row.is_empty() {
        return Ok(Vec::new(alloc));
    }
    row.as_str().as_bytes().split(|b| *b == b' ').collect(alloc)
}

/// The words of the before image; an insert has none.
fn before_words(alloc: Global, change: &Change) -> Result<Vec<&[u8]>, AllocError>
    ensures { IfOk result (λ words. map (λ x. x.now) words.items ≡ before_words change.now) }
{
    match change {
        Change::Insert { .. } => Ok(Vec::new(alloc)),
        Change::Delete { before, .. } => words_of(alloc, before),
        Change::Update { before, .. } => words_of(alloc, before),
    }
}

/// The words of the after image; a delete has none.
fn after_words(alloc: Global, change: &Change) -> Result<Vec<&[u8]>, AllocError>
    ensures { IfOk result (λ words. map (λ x. x.now) words.items ≡ after_words change.now) }
{
    match change {
        Change::Insert { after, .. } => words_of(alloc, after),
        Change::Delete { .. } => Ok(Vec::new(alloc)),
        Change::Update { after, .. } => words_of(alloc, after),
    }
}

/// The word in a column; empty past the last column.
fn word_in<'a>(words: &[&'a [u8]], column: usize) -> &'a [u8]
    ensures { result.now ≡ word_in (map (λ x. x.now) words.now) column }
{
    match words.get(column) {
        Some(word) => *word,
        None => &[],
    }
}

/// Appends the kinds or the tables of two changes, which differ.
fn put_attribute(
    out: &mut Vec<u8>,
    labels: &Labels,
    place: usize,
    what: &str,
    first: &[u8],
    second: &[u8],
) -> Result<(), AllocError>
    ensures { OnOk result (out.new.items ≡ out.old.items ++ attribute_text labels.now.first.items labels.now.second.items place what.now first.now second.now) }
{
    put(out, "  change ")?;
    put_number(out, place)?;
    put(out, " differs in its ")?;
    put(out, what)?;
    put(out, ":\n")?;
    put_side(out, &labels.first, first)?;
    put_side(out, &labels.second, second)
}

/// Appends the values in a column of an image, which differ.
fn put_column(
    alloc: Global,
    out: &mut Vec<u8>,
    labels: &Labels,
    place: usize,
    image: &str,
    column: usize,
    first: &[u8],
    second: &[u8],
) -> Result<(), AllocError>
    ensures { OnOk result (out.new.items ≡ out.old.items ++ column_text labels.now.first.items labels.now.second.items place image.now column first.now second.now) }
{
    put(out, "  change ")?;
    put_number(out, place)?;
    put(out, " differs in column ")?;
    put_number(out, column)?;
    put(out, " of its ")?;
    put(out, image)?;
    put(out, " image")?;
    put_values(alloc, out, labels, first, second)
}

/// Appends the first column in which the after images differ, if there is one.
fn put_after(
    alloc: Global,
    out: &mut Vec<u8>,
    labels: &Labels,
    place: usize,
    first: &Change,
    second: &Change,
) -> Result<(), AllocError>
    ensures { OnOk result (out.new.items ≡ out.old.items ++ after_text labels.now.first.items labels.now.second.items place (after_words first.now) (after_words second.now) (first_difference bytes_eq 0 (after_words first.now) (after_words second.now))) }
{
    let words = after_words(alloc, first)?;
    let others = after_words(alloc, second)?;
    match word_difference(&words, &others) {
        Some(column) => put_column(
            alloc,
            out,
            labels,
            place,
            "after",
            column,
            word_in(&words, column),
            word_in(&others, column),
        ),
        None => Ok(()),
    }
}

/// Appends the first column in which the before images differ, or else the after images.
fn put_images(
    alloc: Global,
    out: &mut Vec<u8>,
    labels: &Labels,
    place: usize,
    first: &Change,
    second: &Change,
) -> Result<(), AllocError>
    ensures { OnOk result (out.new.items ≡ out.old.items ++ before_text labels.now.first.items labels.now.second.items place first.now second.now (first_difference bytes_eq 0 (before_words first.now) (before_words second.now))) }
{
    let words = before_words(alloc, first)?;
    let others = before_words(alloc, second)?;
    match word_difference(&words, &others) {
        Some(column) => put_column(
            alloc,
            out,
            labels,
            place,
            "before",
            column,
            word_in(&words, column),
            word_in(&others, column),
        ),
        None => put_after(alloc, out, labels, place, first, second),
    }
}

/// Appends the first difference between two changes: kind, then table, then images.
fn put_change(
    alloc: Global,
    out: &mut Vec<u8>,
    labels: &Labels,
    place: usize,
    first: &Change,
    second: &Change,
) -> Result<(), AllocError>
    ensures { OnOk result (out.new.items ≡ out.old.items ++ change_text labels.now.first.items labels.now.second.items place first.now second.now) }
{
    let kind = kind_word(first).as_bytes();
    let other = kind_word(second).as_bytes();
    if kind != other {
        return put_attribute(out, labels, place, "kind", kind, other);
    }
    if *first.table() != *second.table() {
        let table = first.table().as_str().as_bytes();
        let other = second.table().as_str().as_bytes();
        return put_attribute(out, labels, place, "table", table, other);
    }
    put_images(alloc, out, labels, place, first, second)
}

/// Appends that only one channel has a change with this number.
fn put_extra(out: &mut Vec<u8>, label: &[u8], place: usize) -> Result<(), AllocError>
    ensures { OnOk result (out.new.items ≡ out.old.items ++ extra_text label.now place) }
{
    put(out, "  change ")?;
    put_number(out, place)?;
    put(out, " is only in ")?;
    out.extend_from_slice(label)?;
    put(out, "\n")
}

/// Appends the difference at a change, of which one may be absent.
fn put_change_at(
    alloc: Global,
    out: &mut Vec<u8>,
    labels: &Labels,
    place: usize,
    first: &[Change],
    second: &[Change],
) -> Result<(), AllocError>
    ensures { OnOk result (out.new.items ≡ out.old.items ++ change_at_text labels.now.first.items labels.now.second.items place (slice_get first.now place) (slice_get second.now place)) }
{
    let Some(change) = first.get(place) else {
        return put_extra(out, &labels.second, place);
    };
    let Some(other) = second.get(place) else {
        return put_extra(out, &labels.first, place);
    };
    put_change(alloc, out, labels, place, change, other)
}

/// Appends the first difference between two lists of changes, if there is one.
pub(crate) fn put_changes(
    alloc: Global,
    out: &mut Vec<u8>,
    labels: &Labels,
    first: &[Change],
    second: &[Change],
) -> Result<(), AllocError>
    ensures { OnOk result (out.new.items ≡ out.old.items ++ changes_text labels.now.first.items labels.now.second.items first.now second.now) }
{
    match change_difference(first, second) {
        Some(place) => put_change_at(alloc, out, labels, place, first, second),
        None => Ok(()),
    }
}
