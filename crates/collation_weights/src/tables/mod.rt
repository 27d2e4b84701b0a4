//! The tables: their rows, and the weights of these.
ghost use Rattle.std.specs.Prelude.{◌≡◌};
ghost use Rattle.collation_weights.specs.Tables.{rows_of};
ghost use Rattle.collation_weights.specs.declared.tables.WeightTable.TheVariants.{CodePoints, Ascii, Latin1Swedish, Latin1GeneralCi, Latin1GeneralCs, General, Uca400, Uca520, Uca900Primary, Uca900Secondary, Uca900Tertiary};

use crate::row::WeightRow;

mod ascii;
mod code_points;
mod general;
mod latin1_general_ci;
mod latin1_general_cs;
mod latin1_swedish;
mod uca_400;
mod uca_520;
mod uca_900_primary;
mod uca_900_secondary;
mod uca_900_tertiary;

/// A table: the collations that it stands for.
#[derive(Clone, Copy, Drop)]
pub enum WeightTable {
    /// Each character weighs its code point.
    CodePoints,
    /// ascii_general_ci.
    Ascii,
    /// latin1_swedish_ci.
    Latin1Swedish,
    /// latin1_general_ci.
    Latin1GeneralCi,
    /// latin1_general_cs.
    Latin1GeneralCs,
    /// utf8mb4_general_ci and utf8mb3_general_ci.
    General,
    /// utf8mb4_unicode_ci and utf8mb3_unicode_ci.
    Uca400,
    /// utf8mb4_unicode_520_ci.
    Uca520,
    /// utf8mb4_0900_ai_ci, and level 1 of utf8mb4_0900_as_cs.
    Uca900Primary,
    /// Level 2 of utf8mb4_0900_as_cs.
    Uca900Secondary,
    /// Level 3 of utf8mb4_0900_as_cs.
    Uca900Tertiary,
}

#[tactic(auto, unfolding(crate::specs::Tables::rows_of))]
fn code_points_rows() -> &'static [WeightRow]
    ensures { result.now ≡ rows_of CodePoints }
{
    &code_points::ROWS
}

#[tactic(auto, unfolding(crate::specs::Tables::rows_of))]
fn ascii_rows() -> &'static [WeightRow]
    ensures { result.now ≡ rows_of Ascii }
{
    &ascii::ROWS
}

#[tactic(auto, unfolding(crate::specs::Tables::rows_of))]
fn latin1_swedish_rows() -> &'static [WeightRow]
    ensures { result.now ≡ rows_of Latin1Swedish }
{
    &latin1_swedish::ROWS
}

#[tactic(auto, unfolding(crate::specs::Tables::rows_of))]
fn latin1_general_ci_rows() -> &'static [WeightRow]
    ensures { result.now ≡ rows_of Latin1GeneralCi }
{
    &latin1_general_ci::ROWS
}

#[tactic(auto, unfolding(crate::specs::Tables::rows_of))]
fn latin1_general_cs_rows() -> &'static [WeightRow]
    ensures { result.now ≡ rows_of Latin1GeneralCs }
{
    &latin1_general_cs::ROWS
}

#[tactic(auto, unfolding(crate::specs::Tables::rows_of))]
fn general_rows() -> &'static [WeightRow]
    ensures { result.now ≡ rows_of General }
{
    &general::ROWS
}

#[tactic(auto, unfolding(crate::specs::Tables::rows_of))]
fn uca_400_rows() -> &'static [WeightRow]
    ensures { result.now ≡ rows_of Uca400 }
{
    &uca_400::ROWS
}

#[tactic(auto, unfolding(crate::specs::Tables::rows_of))]
fn uca_520_rows() -> &'static [WeightRow]
    ensures { result.now ≡ rows_of Uca520 }
{
    &uca_520::ROWS
}

#[tactic(auto, unfolding(crate::specs::Tables::rows_of))]
fn uca_900_primary_rows() -> &'static [WeightRow]
    ensures { result.now ≡ rows_of Uca900Primary }
{
    &uca_900_primary::ROWS
}

#[tactic(auto, unfolding(crate::specs::Tables::rows_of))]
fn uca_900_secondary_rows() -> &'static [WeightRow]
    ensures { result.now ≡ rows_of Uca900Secondary }
{
    &uca_900_secondary::ROWS
}

#[tactic(auto, unfolding(crate::specs::Tables::rows_of))]
fn uca_900_tertiary_rows() -> &'static [WeightRow]
    ensures { result.now ≡ rows_of Uca900Tertiary }
{
    &uca_900_tertiary::ROWS
}

impl WeightTable {
    ghost use Rattle.collation_weights.specs.Tables.{weights_of};

    /// Its rows.
    pub(crate) fn rows(self) -> &'static [WeightRow]
        ensures { result.now ≡ rows_of self }
    {
        match self {
            WeightTable::CodePoints => code_points_rows(),
            WeightTable::Ascii => ascii_rows(),
            WeightTable::Latin1Swedish => latin1_swedish_rows(),
            WeightTable::Latin1GeneralCi => latin1_general_ci_rows(),
            WeightTable::Latin1GeneralCs => latin1_general_cs_rows(),
            WeightTable::General => general_rows(),
            WeightTable::Uca400 => uca_400_rows(),
            WeightTable::Uca520 => uca_520_rows(),
            WeightTable::Uca900Primary => uca_900_primary_rows(),
            WeightTable::Uca900Secondary => uca_900_secondary_rows(),
            WeightTable::Uca900Tertiary => uca_900_tertiary_rows(),
        }
    }

    /// The weights of its rows.
    #[tactic(auto, unfolding(crate::specs::Tables::weights_of))]
    pub(crate) fn weights(self) -> &'static [u16]
        ensures { result.now ≡ weights_of self }
    {
        match self {
            WeightTable::CodePoints => &code_points::WEIGHTS,
            WeightTable::Ascii => &ascii::WEIGHTS,
            WeightTable::Latin1Swedish => &latin1_swedish::WEIGHTS,
            WeightTable::Latin1GeneralCi => &latin1_general_ci::WEIGHTS,
            WeightTable::Latin1GeneralCs => &latin1_general_cs::WEIGHTS,
            WeightTable::General => &general::WEIGHTS,
            WeightTable::Uca400 => &uca_400::WEIGHTS,
            WeightTable::Uca520 => &uca_520::WEIGHTS,
            WeightTable::Uca900Primary => &uca_900_primary::WEIGHTS,
            WeightTable::Uca900Secondary => &uca_900_secondary::WEIGHTS,
            WeightTable::Uca900Tertiary => &uca_900_tertiary::WEIGHTS,
        }
    }
}
