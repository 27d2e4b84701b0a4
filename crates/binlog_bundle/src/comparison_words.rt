//! How a server compares a column in a key, by the words of a line `collate ..`.
ghost use Rattle.std.specs.Prelude.{◌≡◌, option_map};
ghost use Rattle.binlog_bundle.specs.Comparisons.{front_of, behind_of, length_of, length_in, prefix_of, whole_of, word_comparison, fixed_of, comparison_of};

use collations::collation_named;
use derived_columns::KeyComparison;
use memchr::memchr;
use row_images::{count, cut};

/// What stands before the first of this byte, and what stands behind it.
fn cut_at(text: &[u8], byte: u8) -> (&[u8], Option<&[u8]>)
    ensures front { result.0.now ≡ front_of byte text.now }
    ensures behind { option_map (λ b. b.now) result.1 ≡ behind_of byte text.now }
{
    match memchr(byte, text) {
        Some(at) => (&text[..at], Some(&text[at + 1..])),
        None => (text, None),
    }
}

/// The length that a word is: a count from 1 up, of 32 bits.
fn length(word: &[u8]) -> Option<u32>
    ensures { result ≡ length_of word.now }
{
    match count(word) {
        Some(0) => None,
        Some(length) => u32::try_from(length).ok(),
        None => None,
    }
}

/// The length before a closing bracket, if nothing is behind that.
fn length_in(text: &[u8]) -> Option<u32>
    ensures { result ≡ length_in text.now }
{
    match cut_at(text, b')') {
        (word, Some([])) => length(word),
        _ => None,
    }
}

/// How a prefix of this length is compared: of `binary` by bytes, of a text by a collation.
fn prefix_of(name: &[u8], length: u32) -> Option<KeyComparison>
    ensures { result ≡ prefix_of name.now length }
{
    if name == b"binary".as_slice() {
        return Some(KeyComparison::FirstBytes(length));
    }
    match collation_named(name) {
        Some(collation) => Some(KeyComparison::FirstCharacters(collation, length)),
        None => None,
    }
}

/// How whole values are compared: `float`, or texts by a collation.
fn whole_of(word: &[u8]) -> Option<KeyComparison>
    ensures { result ≡ whole_of word.now }
{
    if word == b"float".as_slice() {
        return Some(KeyComparison::Float);
    }
    match collation_named(word) {
        Some(collation) => Some(KeyComparison::Text(collation)),
        None => None,
    }
}

/// How a column is compared by this word: `<collation>`, `<collation>(<length>)`, `binary(<length>)` or `float`.
#[tactic(auto, unfolding(crate::specs::Comparisons::word_comparison))]
fn word_comparison(word: &[u8]) -> Option<KeyComparison>
    ensures { result ≡ word_comparison word.now }
{
    let (name, behind) = cut_at(word, b'(');
    let Some(behind) = behind else {
        return whole_of(name);
    };
    match length_in(behind) {
        Some(length) => prefix_of(name, length),
        None => None,
    }
}

/// How the same prefix of CHAR or BINARY is compared, if it is one.
fn fixed_of(comparison: KeyComparison) -> Option<KeyComparison>
    ensures { result ≡ fixed_of comparison }
{
    match comparison {
        KeyComparison::FirstCharacters(collation, length) => {
            Some(KeyComparison::FixedCharacters(collation, length))
        }
        KeyComparison::FirstBytes(length) => Some(KeyComparison::FixedBytes(length)),
        _ => None,
    }
}

/// How a column is compared by these words: one of `word_comparison`, or `fixed` and then that of a prefix.
#[tactic(auto, unfolding(crate::specs::Comparisons::comparison_of))]
pub fn comparison_of(words: &[u8]) -> Option<KeyComparison>
    ensures { result ≡ comparison_of words.now }
{
    let (word, more) = cut(words);
    let Some(more) = more else {
        return word_comparison(word);
    };
    if word != b"fixed".as_slice() {
        return None;
    }
    match word_comparison(more) {
        Some(comparison) => fixed_of(comparison),
        None => None,
    }
}
