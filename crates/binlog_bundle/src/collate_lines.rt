//! Lines of a head that say what hidden columns hold, and rows with their hidden values behind.
ghost use Rattle.std.specs.Prelude.{◌≡◌, ◌++◌, ◌∷◌, [], ℕ, List, IfOk, OnOk, option_map};
ghost use Rattle.row_images.specs.Images.{values_text};
ghost use Rattle.row_images.specs.Words.{count_of};
ghost use Rattle.binlog_bundle.specs.Lines.{AreLines};
ghost use Rattle.binlog_bundle.specs.Comparisons.{comparison_of};
ghost use Rattle.binlog_bundle.specs.Collated.{part_of, row_of, column_behind, collated, column_list, columns_of, image_line, weighed_words, weighed_row, weighed_line};

use crate::comparison_words::comparison_of;
use crate::lines::strip;
use crate::names::table_name;
use binlog_entries::cut_line;
use derived_columns::{Derivation, DerivedColumn, KeyPart};
use row_images::{Row, count, cut};
use rows::Name;
use std::alloc::{AllocError, Global};

/// The part of a key that these words name.
fn part_of(
    alloc: Global,
    table: &[u8],
    column: &[u8],
    how: &[u8],
) -> Result<Option<DerivedColumn>, AllocError>
    ensures { IfOk result (λ found. found ≡ part_of table.now (count_of column.now) (comparison_of how.now)) }
{
    let Some(column) = count(column) else {
        return Ok(None);
    };
    let Some(comparison) = comparison_of(how) else {
        return Ok(None);
    };
    let Ok(column) = u32::try_from(column) else {
        return Ok(None);
    };
    let Some(table) = table_name(alloc, table)? else {
        return Ok(None);
    };
    Ok(Some(DerivedColumn::Part(KeyPart {
        table,
        column,
        comparison,
    })))
}

/// The rows of the table of this name, if the word is `row`.
fn row_of(alloc: Global, table: &[u8], word: &[u8]) -> Result<Option<DerivedColumn>, AllocError>
    ensures { IfOk result (λ found. found ≡ row_of table.now word.now) }
{
    if word != b"row".as_slice() {
        return Ok(None);
    }
    match table_name(alloc, table)? {
        Some(table) => Ok(Some(DerivedColumn::Row(table))),
        None => Ok(None),
    }
}

/// What a hidden column holds, by the words behind the table: a column and how it is compared, or `row` alone.
fn column_behind(
    alloc: Global,
    table: &[u8],
    words: &[u8],
) -> Result<Option<DerivedColumn>, AllocError>
    ensures { IfOk result (λ found. found ≡ column_behind table.now words.now) }
{
    match cut(words) {
        (column, Some(how)) => part_of(alloc, table, column, how),
        (word, None) => row_of(alloc, table, word),
    }
}

/// What a hidden column holds, by a line `collate ..`.
pub fn collated(alloc: Global, line: &[u8]) -> Result<Option<DerivedColumn>, AllocError>
    ensures { IfOk result (λ found. found ≡ collated line.now) }
{
    let Some(words) = cut(line).1 else {
        return Ok(None);
    };
    match cut(words) {
        (table, Some(words)) => column_behind(alloc, table, words),
        _ => Ok(None),
    }
}

/// Adds what a hidden column holds by a line, if it is one that says so.
fn add_column(
    alloc: Global,
    columns: &mut Vec<DerivedColumn>,
    line: &[u8],
) -> Result<(), AllocError>
    ensures { OnOk result (columns.new.items ≡ columns.old.items ++ column_list line.now) }
{
    if !line.starts_with(b"collate ") {
        return Ok(());
    }
    if let Some(column) = collated(alloc, line)? {
        columns.push(column)?;
    }
    Ok(())
}

/// What hidden columns hold by the lines of a head, in order.
pub fn collated_columns(alloc: Global, head: &[u8]) -> Result<Vec<DerivedColumn>, AllocError>
    ensures { IfOk result (λ columns. (lines : List (List ℕ)) → AreLines lines head.now → columns.items ≡ columns_of lines) }
{
    let mut columns = Vec::new(alloc);
    let mut left = head;
    while let Some((line, after)) = cut_line(left) {
        add_column(alloc, &mut columns, line)?;
        left = after;
    }
    Ok(columns)
}

/// The line of a row of this table.
fn row_line(alloc: Global, table: &[u8], image: &Row) -> Result<Vec<u8>, AllocError>
    ensures { IfOk result (λ line. line.items ≡ image_line table.now image.now) }
{
    let mut line = Vec::new(alloc);
    line.extend_from_slice(b"row ")?;
    line.extend_from_slice(table)?;
    line.push(b' ')?;
    line.extend_from_slice(image.as_str().as_bytes())?;
    Ok(line)
}

/// The line of the row of this table with these words and its hidden values.
fn weighed_words(
    alloc: Global,
    derivation: &Derivation,
    table: &Name,
    words: &[u8],
) -> Result<Option<Vec<u8>>, AllocError>
    ensures { IfOk result (λ line. option_map (λ l. l.items) line ≡ weighed_words derivation.now table.now words.now) }
{
    let Some(image) = Row::from_text(alloc, words)? else {
        return Ok(None);
    };
    let Some(image) = derivation.derive_row(alloc, table, &image)? else {
        return Ok(None);
    };
    let line = row_line(alloc, table.as_str().as_bytes(), &image)?;
    Ok(Some(line))
}

/// The line of a row with its hidden values, by what follows the word `row`.
fn weighed_row(
    alloc: Global,
    derivation: &Derivation,
    part: &[u8],
) -> Result<Option<Vec<u8>>, AllocError>
    ensures { IfOk result (λ line. option_map (λ l. l.items) line ≡ weighed_row derivation.now part.now) }
{
    let (table, behind) = cut(part);
    let Some(words) = behind else {
        return Ok(None);
    };
    let Some(table) = table_name(alloc, table)? else {
        return Ok(None);
    };
    weighed_words(alloc, derivation, &table, words)
}

/// Appends a line; a row with its hidden values, if the head has such lines.
pub fn put_weighed(
    alloc: Global,
    text: &mut Vec<u8>,
    derivation: &Derivation,
    line: &[u8],
) -> Result<(), AllocError>
    ensures { OnOk result (text.new.items ≡ text.old.items ++ weighed_line derivation.now line.now) }
{
    if derivation.columns().is_empty() {
        return text.extend_from_slice(line);
    }
    let Some(part) = strip(line, b"row ") else {
        return text.extend_from_slice(line);
    };
    match weighed_row(alloc, derivation, part)? {
        Some(row) => text.extend_from_slice(&row),
        None => text.extend_from_slice(line),
    }
}
