//! Words and counts.
ghost use Rattle.std.specs.Prelude.{◌≡◌, true, option_map};
ghost use Rattle.std.specs.List.{list_all};
ghost use Rattle.std.specs.Char.{is_ascii_digit};
ghost use Rattle.row_images.specs.Words.{is_count, begins_well, count_of, first_word, others};

use crate::runs::{WordBytes, run_end};

fn all_digits(word: &[u8]) -> bool
    ensures { result ≡ list_all is_ascii_digit word.now }
{
    word.iter().all(|b| b.is_ascii_digit())
}

/// Whether the word is not empty, and has no zero before other bytes.
fn begins_well(word: &[u8]) -> bool
    ensures { result ≡ begins_well word.now }
{
    !(word.is_empty() || (word.len() > 1 && word[0] == b'0'))
}

/// Whether the word is a number in its one decimal spelling, however large.
pub fn is_count(word: &[u8]) -> bool
    ensures { result ≡ is_count word.now }
{
    begins_well(word) && all_digits(word)
}

/// The number below 2^64 that a long word is the one decimal spelling of.
#[cold]
#[inline(never)]
fn long_count(word: &[u8]) -> Option<u64>
    ensures { result ≡ count_of word.now }
{
    if !is_count(word) {
        return None;
    }
    match std::str::from_utf8(word) {
        Ok(text) => text.parse().ok(),
        Err(_) => None,
    }
}

/// A number of this many decimal digits is below 2^64, whichever they are.
const SAFE_DIGITS: usize = 19;

/// The number that the word parses as in digits, however it begins.
fn digits_count(word: &[u8]) -> Option<u64>
    requires { begins_well word.now ≡ true }
    ensures { result ≡ count_of word.now }
{
    if word.len() > SAFE_DIGITS {
        return long_count(word);
    }
    let mut value: u64 = 0;
    for digit in word {
        if !digit.is_ascii_digit() {
            return None;
        }
        value = 10 * value + (*digit - b'0') as u64;
    }
    Some(value)
}

/// The number below 2^64 that the word is the one decimal spelling of.
pub fn count(word: &[u8]) -> Option<u64>
    ensures { result ≡ count_of word.now }
{
    if begins_well(word) {
        digits_count(word)
    } else {
        None
    }
}

/// The first word of a line, and what follows the blank after it.
pub fn cut(line: &[u8]) -> (&[u8], Option<&[u8]>)
    ensures word { result.0.now ≡ first_word line.now }
    ensures rest { option_map (λ r. r.now) result.1 ≡ others line.now }
{
    let end = run_end::<WordBytes>(line, 0);
    if end < line.len() {
        (&line[..end], Some(&line[end + 1..]))
    } else {
        (line, None)
    }
}
