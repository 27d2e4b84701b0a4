//! The columns whose values a server compares otherwise than by their bytes.
ghost use Rattle.std.specs.Prelude.{◌≡◌, ◌<◌, ◌^◌, ◌++◌, [], option_map, IfOk, OnOk};
ghost use Rattle.binlog_rows.specs.Collations.{is_unpadded, is_bin, is_character, has_negative_zero, compares_bytes, compared_by, compared_alone, index_behind, by_default, collation_at, read_column, with_place, varied_from, varied_by, varied_of, varied_columns};

use crate::columns::{MappedColumn, columns_from, described};
use crate::numbers::packed;
use crate::options::content_in;
use crate::signs::{has_signs, signedness_in};
use collations::{Collation, collation_numbered};
use std::alloc::{AllocError, Global};

/// A column, by its place from 0, whose values a server compares otherwise than by their bytes.
#[derive(Clone, Copy, Debug, PartialEq, Eq)]
pub struct VariedPlace {
    pub place: usize,
    /// The collation by which they are compared, where it is one whose weights are known. FLOAT and DOUBLE have none.
    pub collation: Option<Collation>,
}

/// How a server compares the values of a column.
#[derive(Clone, Copy, Debug, PartialEq, Eq)]
enum Comparison {
    /// By their bytes.
    Bytes,
    /// Otherwise: by this collation, where it is one whose weights are known.
    Otherwise(Option<Collation>),
}

/// Whether a collation compares texts by their bytes, blanks at their end too.
#[tactic(auto, unfolding(crate::specs::Collations::is_unpadded))]
fn is_unpadded(collation: u64) -> bool
    ensures { result ≡ is_unpadded collation }
{
    collation == 63 || collation == 309
}

/// Whether a collation compares texts without blanks at their end by their bytes.
#[tactic(auto, unfolding(crate::specs::Collations::is_bin))]
fn is_bin(collation: u64) -> bool
    ensures { result ≡ is_bin collation }
{
    match collation {
        46..=47 | 61..=75 | 77..=91 => true,
        43 | 50 | 53 | 55 | 58 | 93 | 96 | 98 | 249 | 309 => true,
        _ => false,
    }
}

fn is_character(column: MappedColumn) -> bool
    ensures { result ≡ is_character column }
{
    match column {
        MappedColumn::Char(_)
        | MappedColumn::Varchar(_)
        | MappedColumn::Blob(_)
        | MappedColumn::Vector(_) => true,
        _ => false,
    }
}

/// Whether a column has two values that are equal for the server, 0 and -0.
fn has_negative_zero(column: MappedColumn) -> bool
    ensures { result ≡ has_negative_zero column }
{
    matches!(column, MappedColumn::Float | MappedColumn::Double)
}

/// Whether two values of a column are equal for the server if and only if their bytes are.
fn compares_bytes(column: MappedColumn, collation: u64) -> bool
    ensures { result ≡ compares_bytes column collation }
{
    match column {
        MappedColumn::Char(_) => is_bin(collation),
        _ => is_unpadded(collation),
    }
}

/// How a server compares a character column of this collation.
fn compared_by(column: MappedColumn, collation: u64) -> Comparison
    ensures { result ≡ compared_by column collation }
{
    if compares_bytes(column, collation) {
        Comparison::Bytes
    } else {
        Comparison::Otherwise(collation_numbered(collation))
    }
}

/// How a server compares a column that has no collation.
fn compared_alone(column: MappedColumn) -> Comparison
    ensures { result ≡ compared_alone column }
{
    if has_negative_zero(column) {
        Comparison::Otherwise(None)
    } else {
        Comparison::Bytes
    }
}

/// The index of the next character column behind this one.
fn index_behind(column: MappedColumn, index: usize) -> usize
    requires { index < 2 ^ 63 }
    ensures { result ≡ index_behind column index }
{
    if is_character(column) {
        index + 1
    } else {
        index
    }
}

/// The collation of the character column of this index, which pairs may give another than the default, and what is behind it.
#[tactic(auto, unfolding(crate::specs::Collations::by_default))]
fn by_default(default: u64, index: usize, bytes: &[u8]) -> Option<(u64, &[u8])>
    ensures { option_map (λ p. (p.0, p.1.now)) result ≡ by_default default index bytes.now }
{
    if bytes.is_empty() {
        return Some((default, bytes));
    }
    let Some((place, rest)) = packed(bytes) else {
        return None;
    };
    if place == index as u64 {
        packed(rest)
    } else {
        Some((default, bytes))
    }
}

/// The collation of the character column of this index, and what is behind it.
fn collation_at(default: Option<u64>, index: usize, bytes: &[u8]) -> Option<(u64, &[u8])>
    ensures { option_map (λ p. (p.0, p.1.now)) result ≡ collation_at default index bytes.now }
{
    match default {
        None => packed(bytes),
        Some(default) => by_default(default, index, bytes),
    }
}

/// How a column is compared, and what is behind its collation.
#[tactic(auto, unfolding(crate::specs::Collations::read_column))]
fn read_column(
    default: Option<u64>,
    index: usize,
    bytes: &[u8],
    column: MappedColumn,
) -> Option<(Comparison, &[u8])>
    ensures { option_map (λ p. (p.0, p.1.now)) result ≡ read_column default index bytes.now column }
{
    if !is_character(column) {
        return Some((compared_alone(column), bytes));
    }
    let Some((collation, rest)) = collation_at(default, index, bytes) else {
        return None;
    };
    Some((compared_by(column, collation), rest))
}

/// Appends the place of a column that is compared otherwise than by its bytes.
fn put_place(
    places: &mut Vec<VariedPlace>,
    comparison: Comparison,
    place: usize,
) -> Result<(), AllocError>
    ensures { OnOk result (places.new.items ≡ places.old.items ++ with_place comparison place []) }
{
    if let Comparison::Otherwise(collation) = comparison {
        places.push(VariedPlace { place, collation })?;
    }
    Ok(())
}

/// The places of the columns that are compared otherwise than by their bytes, whose collations these bytes are.
fn varied_from(
    alloc: Global,
    default: Option<u64>,
    columns: &[MappedColumn],
    bytes: &[u8],
) -> Result<Option<Vec<VariedPlace>>, AllocError>
    ensures { IfOk result (λ found. option_map (λ v. v.items) found ≡ varied_from default 0 0 columns.now bytes.now) }
{
    let mut places = Vec::new(alloc);
    let mut index = 0;
    let mut rest = bytes;
    for (place, column) in columns.iter().enumerate() {
        let Some((comparison, behind)) = read_column(default, index, rest, *column) else {
            return Ok(None);
        };
        put_place(&mut places, comparison, place)?;
        index = index_behind(*column, index);
        rest = behind;
    }
    if !rest.is_empty() {
        return Ok(None);
    }
    Ok(Some(places))
}

/// The same by the fields that have collations.
fn varied_by(
    alloc: Global,
    columns: &[MappedColumn],
    each: Option<&[u8]>,
    other: Option<&[u8]>,
) -> Result<Option<Vec<VariedPlace>>, AllocError>
    ensures { IfOk result (λ found. option_map (λ v. v.items) found
        ≡ varied_by columns.now (option_map (λ t. t.now) each.entry) (option_map (λ t. t.now) other.entry)) }
{
    if let Some(each) = each {
        return varied_from(alloc, None, columns, each);
    }
    let Some(bytes) = other else {
        return varied_from(alloc, None, columns, &[]);
    };
    match packed(bytes) {
        Some((default, pairs)) => varied_from(alloc, Some(default), columns, pairs),
        None => Ok(None),
    }
}

/// The columns whose values a server compares otherwise than by their bytes, in their order, by the body of a TABLE_MAP. `None` where it is not in that form, and where it doesn't say the sign of a numeric column or the collation of a character
/// column, as those of servers before 8.0.1.
#[tactic(auto, unfolding(crate::specs::Collations::varied_columns))]
pub fn varied_columns(alloc: Global, body: &[u8]) -> Result<Option<Vec<VariedPlace>>, AllocError>
    ensures { IfOk result (λ found. option_map (λ v. v.items) found ≡ varied_columns body.now) }
{
    let Some(parts) = described(body) else {
        return Ok(None);
    };
    let Some(columns) = columns_from(alloc, parts.kinds, parts.metadata)? else {
        return Ok(None);
    };
    if !has_signs(signedness_in(parts.options), &columns) {
        return Ok(None);
    }
    let each = content_in(3, parts.options);
    varied_by(alloc, &columns, each, content_in(2, parts.options))
}
