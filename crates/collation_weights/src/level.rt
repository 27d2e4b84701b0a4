//! The weights of characters by a table.
ghost use Rattle.std.specs.Prelude.{◌≡◌, ◌<◌, ◌≤◌, ◌++◌, chars, IfSome, OnOk};
ghost use Rattle.std.specs.List.{flat_map};
ghost use Rattle.collation_weights.specs.Characters.{points};
ghost use Rattle.collation_weights.specs.Levels.{plain_weights, weights_at, level};
ghost use Rattle.collation_weights.specs.Rows.{IsWithin, letters, own_weights, row_at};
ghost use Rattle.collation_weights.specs.Tables.{rows_of, weights_of};

use crate::character_set::Characters;
use crate::row::{WeightRow, is_hangul, push_by_row, row_at};
use crate::tables::WeightTable;
use std::alloc::AllocError;

/// The row of a character in a table.
fn row_of(table: WeightTable, point: u32) -> Option<WeightRow>
    ensures found { result ≡ row_at (rows_of table) point }
    ensures begins { IfSome result (λ row. row.0 ≤ point) }
    ensures within { IfSome result (IsWithin (weights_of table)) }
{
    row_at(table.rows(), point)
}

/// The weights of a row of a table.
fn own_weights(table: WeightTable, row: WeightRow) -> &'static [u16]
    requires { IsWithin (weights_of table) row }
    ensures { result.now ≡ own_weights (weights_of table) row }
{
    let at = row.2 as usize;
    &table.weights()[at..at + row.3 as usize]
}

/// Appends the weights of a character that is taken as a whole.
#[tactic(auto, unfolding(crate::specs::Levels::plain_weights))]
fn push_plain(out: &mut Vec<u32>, table: WeightTable, point: u32) -> Result<(), AllocError>
    requires { point < 0x110000 }
    ensures { OnOk result (out.new.items ≡ out.old.items ++ plain_weights table point) }
{
    match row_of(table, point) {
        Some(row) => push_by_row(out, row, own_weights(table, row), point),
        None => Ok(()),
    }
}

/// Appends the weights of a Hangul syllable: those of its letters.
#[tactic(auto, unfolding(crate::specs::Rows::letters))]
fn push_letters(out: &mut Vec<u32>, table: WeightTable, point: u32) -> Result<(), AllocError>
    requires { point < 0x110000 }
    ensures { OnOk result (out.new.items ≡ out.old.items ++ flat_map (plain_weights table) (letters point)) }
{
    let place = point.saturating_sub(0xAC00);
    push_plain(out, table, 0x1100 + place / 588)?;
    push_plain(out, table, 0x1161 + place % 588 / 28)?;
    if place % 28 == 0 {
        return Ok(());
    }
    push_plain(out, table, 0x11A7 + place % 28)
}

/// Appends the weights of a character.
#[tactic(auto, unfolding(crate::specs::Levels::weights_at))]
fn push_weights(out: &mut Vec<u32>, table: WeightTable, point: u32) -> Result<(), AllocError>
    requires { point < 0x110000 }
    ensures { OnOk result (out.new.items ≡ out.old.items ++ weights_at table point) }
{
    let Some(row) = row_of(table, point) else {
        return Ok(());
    };
    if is_hangul(row) {
        return push_letters(out, table, point);
    }
    push_by_row(out, row, own_weights(table, row), point)
}

/// Appends the weights of characters, one after another.
pub(crate) fn push_level(
    out: &mut Vec<u32>,
    table: WeightTable,
    characters: &Characters<'_>,
) -> Result<(), AllocError>
    ensures { OnOk result (out.new.items ≡ out.old.items ++ level table (points characters.now)) }
{
    match characters {
        Characters::Bytes(bytes) => push_bytes(out, table, bytes),
        Characters::Text(text) => push_text(out, table, text),
    }
}

fn push_bytes(out: &mut Vec<u32>, table: WeightTable, bytes: &[u8]) -> Result<(), AllocError>
    ensures { OnOk result (out.new.items ≡ out.old.items ++ level table bytes.now) }
{
    for byte in bytes {
        push_weights(out, table, *byte as u32)?;
    }
    Ok(())
}

fn push_text(out: &mut Vec<u32>, table: WeightTable, text: &str) -> Result<(), AllocError>
    ensures { OnOk result (out.new.items ≡ out.old.items ++ level table (chars text.now)) }
{
    for c in text.chars() {
        push_weights(out, table, c as u32)?;
    }
    Ok(())
}
