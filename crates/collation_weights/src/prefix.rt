//! The first characters of texts.
ghost use Rattle.std.specs.Prelude.{◌≡◌, ◌≤◌, chars, encode_utf8_all, length, take};
ghost use Rattle.std.specs.Option.{option_map};
ghost use Rattle.collation_weights.specs.Prefixes.{first_characters};

use crate::character_set::{Characters, decode};
use crate::weighing::character_set_of;
use collations::Collation;

/// How many bytes the first characters of a text take.
fn front_len(text: &str, count: u32) -> usize
    ensures front { take result text.now ≡ encode_utf8_all (take count (chars text.now)) }
    ensures bound { result ≤ length text.now }
{
    let mut len = 0;
    let mut left = count;
    for c in text.chars() {
        if left == 0 {
            return len;
        }
        left -= 1;
        len += c.len_utf8();
    }
    len
}

/// The first characters of a text, or all of them where it has fewer. None, where its bytes are no text of the collation's character set.
#[tactic(auto, unfolding(crate::specs::Prefixes::first_characters))]
pub fn first_characters(collation: Collation, count: u32, text: &[u8]) -> Option<&[u8]>
    ensures { option_map (λ t. t.now) result ≡ first_characters collation count text.now }
{
    match decode(character_set_of(collation), text) {
        Some(Characters::Bytes(bytes)) => Some(&bytes[..bytes.len().min(count as usize)]),
        Some(Characters::Text(characters)) => {
            Some(&characters.as_bytes()[..front_len(characters, count)])
        }
        None => None,
    }
}
