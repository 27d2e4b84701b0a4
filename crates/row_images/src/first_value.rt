//! The first word of a text, if it is the word of a value.
ghost use Rattle.std.specs.Prelude.{◌≡◌, ◌≤◌, Some, IfSome, drop, length};
ghost use Rattle.row_images.specs.Runs.{is_word_end, has_idle_zero, len_where};
ghost use Rattle.row_images.specs.Values.{bytes_of, value_of};

use crate::runs::{DecimalDigits, LowerDigits, run_end};
use crate::value_words::{FEW_DECIMAL_DIGITS, is_value};
use crate::words::cut;

/// Whether a word that goes on up to a place ends there.
#[inline(always)]
fn ends_at(text: &[u8], end: usize) -> bool
    requires { end ≤ length text.now }
    ensures { result ≡ is_word_end text.now end }
{
    if end < text.len() {
        text[end] == b' '
    } else {
        true
    }
}

/// Whether the first `end` digits of a text have a zero before the others.
#[inline(always)]
fn has_idle_zero(text: &[u8], end: usize) -> bool
    requires { end ≤ length text.now }
    ensures { result ≡ has_idle_zero text.now end }
{
    end > 1 && text[0] == b'0'
}

/// The length of the first word, if it has the digits of bytes.
#[inline(always)]
fn digits_len(text: &[u8]) -> Option<usize>
    ensures len { result ≡ len_where bytes_of text.now }
    ensures within { IfSome result (λ len. len ≤ length text.now) }
{
    let end = run_end::<LowerDigits>(text, 0);
    if !ends_at(text, end) {
        return None;
    }
    if end % 2 == 1 {
        return None;
    }
    Some(end)
}

/// The length of the first word, if it is a number of few digits without a minus.
#[inline(always)]
fn few_digits_len(text: &[u8]) -> Option<usize>
    ensures len { IfSome result (λ len. Some len ≡ len_where value_of text.now) }
    ensures within { IfSome result (λ len. len ≤ length text.now) }
{
    let end = run_end::<DecimalDigits>(text, 0);
    if end < 1 || end > FEW_DECIMAL_DIGITS {
        return None;
    }
    if !ends_at(text, end) {
        return None;
    }
    if has_idle_zero(text, end) {
        return None;
    }
    Some(end)
}

/// The length of the first word, if it is the word of a value.
#[inline(never)]
fn word_len(text: &[u8]) -> Option<usize>
    ensures len { result ≡ len_where value_of text.now }
    ensures within { IfSome result (λ len. len ≤ length text.now) }
{
    let (word, _others) = cut(text);
    if is_value(word) {
        Some(word.len())
    } else {
        None
    }
}

/// The length of the first word, if it is the word of a value. The word is read once.
#[inline(always)]
pub(crate) fn value_len(text: &[u8]) -> Option<usize>
    ensures len { result ≡ len_where value_of text.now }
    ensures within { IfSome result (λ len. len ≤ length text.now) }
{
    if let [b'x', digits @ ..] = text {
        return match digits_len(digits) {
            Some(len) => Some(len + 1),
            None => None,
        };
    }
    match few_digits_len(text) {
        Some(len) => Some(len),
        None => word_len(text),
    }
}

/// What a text has from a place on.
#[inline(always)]
pub(crate) fn rest_from(text: &[u8], from: usize) -> &[u8]
    requires { from ≤ length text.now }
    ensures { result.now ≡ drop from text.now }
{
    &text[from..]
}
