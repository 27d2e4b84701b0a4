//! Rows of a table, and the weights of a character by its row.
ghost use Rattle.std.specs.Prelude.{◌≡◌, ◌+◌, ◌<◌, ◌≤◌, ◌++◌, true, false, length, nat_le, IfSome, OnOk};
ghost use Rattle.std.specs.List.{Contains};
ghost use Rattle.std.specs.List.Sorted.{IsNonDecreasingBy, IsPartitionPoint};
ghost use Rattle.collation_weights.specs.Rows.{is_hangul, raised, row_at, weights_by};

use std::alloc::AllocError;

/// How the weights of a row go from character to character.
#[derive(Clone, Copy, PartialEq, Eq, Drop)]
pub enum RowKind {
    /// They are the same for all.
    Same,
    /// The last one grows by one for each.
    Rising,
    /// The last one grows by two for each pair.
    Pairs,
    /// They are made of the code point.
    Implicit,
    /// They are those of the letters of a Hangul syllable.
    Hangul,
}

/// The first character, how the weights go, and where among the table's weights they begin, and how many they are. A row holds up to the next.
#[derive(Clone, Copy)]
pub struct WeightRow(pub u32, pub RowKind, pub u16, pub u8);

/// How many rows begin at a character or before it.
fn rows_until(rows: &[WeightRow], point: u32) -> usize
    requires { IsNonDecreasingBy (λ row. row.0) rows.now }
    ensures bound { result ≤ length rows.now }
    ensures parted { IsPartitionPoint (λ row. nat_le row.0 point ≡ true) (λ row. nat_le row.0 point ≡ false) rows.now result }
{
    rows.partition_point(|row| row.0 <= point)
}

/// The row of a character.
pub(crate) fn row_at(rows: &[WeightRow], point: u32) -> Option<WeightRow>
    requires { IsNonDecreasingBy (λ row. row.0) rows.now }
    ensures found { result ≡ row_at rows.now point }
    ensures begins { IfSome result (λ row. row.0 ≤ point) }
    ensures among { IfSome result (Contains rows.now) }
{
    let until = rows_until(rows, point);
    if until == 0 {
        return None;
    }
    Some(rows[until - 1])
}

/// Whether the characters of a row are Hangul syllables.
pub(crate) fn is_hangul(row: WeightRow) -> bool
    ensures { result ≡ is_hangul row.1 }
{
    match row.1 {
        RowKind::Hangul => true,
        RowKind::Same | RowKind::Rising | RowKind::Pairs | RowKind::Implicit => false,
    }
}

/// Appends weights.
fn push_all(out: &mut Vec<u32>, weights: &[u16]) -> Result<(), AllocError>
    ensures { OnOk result (out.new.items ≡ out.old.items ++ weights.now) }
{
    for weight in weights {
        out.push(*weight as u32)?;
    }
    Ok(())
}

/// Appends weights, the last one raised.
fn push_raised(out: &mut Vec<u32>, weights: &[u16], by: u32) -> Result<(), AllocError>
    requires { by < 0x110000 }
    ensures { OnOk result (out.new.items ≡ out.old.items ++ raised weights.now by) }
{
    match weights.split_last() {
        None => Ok(()),
        Some((last, before)) => {
            push_all(out, before)?;
            Ok(out.push(*last as u32 + by)?)
        }
    }
}

/// Appends the weights of a character by its row.
#[tactic(auto, using(crate::proofs::Raising::raised_zero))]
pub(crate) fn push_by_row(
    out: &mut Vec<u32>,
    row: WeightRow,
    weights: &[u16],
    point: u32,
) -> Result<(), AllocError>
    requires begun { row.0 ≤ point }
    requires point { point < 0x110000 }
    ensures { OnOk result (out.new.items ≡ out.old.items ++ weights_by row weights.now point) }
{
    let WeightRow(first, kind, _, _) = row;
    match kind {
        RowKind::Same => push_raised(out, weights, 0),
        RowKind::Rising => push_raised(out, weights, point - first),
        RowKind::Pairs => push_raised(out, weights, (point - first) / 2 * 2),
        RowKind::Implicit => {
            push_raised(out, weights, point / 0x8000)?;
            Ok(out.push(0x8000 + point % 0x8000)?)
        }
        RowKind::Hangul => Ok(()),
    }
}
