//! What texts weigh.
ghost use Rattle.std.specs.Prelude.{◌≡◌, ◌==◌, ◌-◌, ◌≤◌, ◌++◌, length, IfOk, OnOk};
ghost use Rattle.std.specs.List.{flat_map, suffix_len};
ghost use Rattle.std.specs.Int.{bytes_high_first};
ghost use Rattle.std.specs.Option.{option_map};
ghost use Rattle.collation_weights.specs.Characters.{points};
ghost use Rattle.collation_weights.specs.Weights.{blank_of, character_set_of, numbers_of, table_of, weights, width_of, without_blanks};

use crate::character_set::{CharacterSet, Characters, decode};
use crate::level::push_level;
use crate::tables::WeightTable;
use collations::Collation;
use std::alloc::{AllocError, Global};

/// The character set of a collation.
pub(crate) fn character_set_of(collation: Collation) -> CharacterSet
    ensures { result ≡ character_set_of collation }
{
    match collation {
        Collation::AsciiGeneralCi | Collation::AsciiBin => CharacterSet::Ascii,
        Collation::Latin1SwedishCi
        | Collation::Latin1GeneralCi
        | Collation::Latin1GeneralCs
        | Collation::Latin1Bin => CharacterSet::Latin1,
        Collation::Utf8mb3GeneralCi | Collation::Utf8mb3UnicodeCi | Collation::Utf8mb3Bin => {
            CharacterSet::Utf8mb3
        }
        Collation::Utf8mb4GeneralCi
        | Collation::Utf8mb4UnicodeCi
        | Collation::Utf8mb4Unicode520Ci
        | Collation::Utf8mb4Bin
        | Collation::Utf8mb4_0900AiCi
        | Collation::Utf8mb4_0900AsCs
        | Collation::Utf8mb4_0900Bin => CharacterSet::Utf8mb4,
    }
}

/// The table of a collation, which of several levels is that of the first.
fn table_of(collation: Collation) -> WeightTable
    ensures { result ≡ table_of collation }
{
    match collation {
        Collation::AsciiGeneralCi => WeightTable::Ascii,
        Collation::Latin1SwedishCi => WeightTable::Latin1Swedish,
        Collation::Latin1GeneralCi => WeightTable::Latin1GeneralCi,
        Collation::Latin1GeneralCs => WeightTable::Latin1GeneralCs,
        Collation::Utf8mb3GeneralCi | Collation::Utf8mb4GeneralCi => WeightTable::General,
        Collation::Utf8mb3UnicodeCi | Collation::Utf8mb4UnicodeCi => WeightTable::Uca400,
        Collation::Utf8mb4Unicode520Ci => WeightTable::Uca520,
        Collation::Utf8mb4_0900AiCi | Collation::Utf8mb4_0900AsCs => WeightTable::Uca900Primary,
        Collation::AsciiBin
        | Collation::Latin1Bin
        | Collation::Utf8mb3Bin
        | Collation::Utf8mb4Bin
        | Collation::Utf8mb4_0900Bin => WeightTable::CodePoints,
    }
}

/// How many bytes a weight of a collation has.
fn width_of(collation: Collation) -> usize
    ensures width { result ≡ width_of collation }
    ensures bound { result ≤ 4 }
{
    match character_set_of(collation) {
        CharacterSet::Ascii | CharacterSet::Latin1 => 1,
        _ if collation == Collation::Utf8mb4Bin => 3,
        _ => 2,
    }
}

/// What a blank weighs by a collation that pads with blanks.
fn blank_of(collation: Collation) -> Option<u32>
    ensures { result ≡ blank_of collation }
{
    match collation {
        Collation::Utf8mb3UnicodeCi | Collation::Utf8mb4UnicodeCi => Some(0x0209),
        Collation::Utf8mb4Unicode520Ci => Some(0x020A),
        Collation::Utf8mb4_0900AiCi | Collation::Utf8mb4_0900AsCs | Collation::Utf8mb4_0900Bin =>
            None,
        _ => Some(0x20),
    }
}

/// The weights of characters, as numbers.
fn numbers_of(
    alloc: Global,
    collation: Collation,
    characters: &Characters<'_>,
) -> Result<Vec<u32>, AllocError>
    ensures { IfOk result (λ numbers. numbers.items ≡ numbers_of collation (points characters.now)) }
{
    let mut numbers = Vec::new(alloc);
    push_level(&mut numbers, table_of(collation), characters)?;
    if collation == Collation::Utf8mb4_0900AsCs {
        numbers.push(0)?;
        push_level(&mut numbers, WeightTable::Uca900Secondary, characters)?;
        numbers.push(0)?;
        push_level(&mut numbers, WeightTable::Uca900Tertiary, characters)?;
    }
    Ok(numbers)
}

/// How many weights are left without the blanks at the end.
fn kept_len(weights: &[u32], blank: u32) -> usize
    ensures kept { result ≡ length weights.now - suffix_len (λ w. w == blank) weights.now }
    ensures bound { result ≤ length weights.now }
{
    let mut len = weights.len();
    while len > 0 && weights[len - 1] == blank {
        len -= 1;
    }
    len
}

/// The weights without the blanks at the end.
#[tactic(auto, unfolding(crate::specs::Weights::without_blanks))]
fn without_blanks(weights: &[u32], blank: Option<u32>) -> &[u32]
    ensures { result.now ≡ without_blanks blank weights.now }
{
    match blank {
        Some(blank) => &weights[..kept_len(weights, blank)],
        None => weights,
    }
}

/// Appends the bytes of a weight, the high one first.
#[tactic(auto, using(crate::proofs::LowBytes::low_bytes))]
fn push_bytes(out: &mut Vec<u8>, weight: u32, width: usize) -> Result<(), AllocError>
    requires { width ≤ 4 }
    ensures { OnOk result (out.new.items ≡ out.old.items ++ bytes_high_first width weight) }
{
    Ok(out.extend_from_slice(&weight.to_be_bytes()[4 - width..])?)
}

/// The bytes of weights.
fn bytes_of(alloc: Global, weights: &[u32], width: usize) -> Result<Vec<u8>, AllocError>
    requires { width ≤ 4 }
    ensures { IfOk result (λ bytes. bytes.items ≡ flat_map (bytes_high_first width) weights.now) }
{
    let mut bytes = Vec::new(alloc);
    for weight in weights {
        push_bytes(&mut bytes, *weight, width)?;
    }
    Ok(bytes)
}

fn copy_of(alloc: Global, text: &[u8]) -> Result<Vec<u8>, AllocError>
    ensures { IfOk result (λ copy. copy.items ≡ text.now) }
{
    let mut copy = Vec::new(alloc);
    copy.extend_from_slice(text)?;
    Ok(copy)
}

/// What a text weighs by a collation, as bytes, if its bytes are a text of the collation's character set. Fails where memory is refused.
#[tactic(auto, unfolding(crate::specs::Weights::weights))]
pub fn weigh(
    alloc: Global,
    collation: Collation,
    text: &[u8],
) -> Result<Option<Vec<u8>>, AllocError>
    ensures { IfOk result (λ found. option_map (λ v. v.items) found ≡ weights collation text.now) }
{
    let Some(characters) = decode(character_set_of(collation), text) else {
        return Ok(None);
    };
    if collation == Collation::Utf8mb4_0900Bin {
        return Ok(Some(copy_of(alloc, text)?));
    }
    let numbers = numbers_of(alloc, collation, &characters)?;
    let kept = without_blanks(&numbers, blank_of(collation));
    Ok(Some(bytes_of(alloc, kept, width_of(collation))?))
}
