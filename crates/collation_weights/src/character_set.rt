//! Character sets, and the characters of texts.
ghost use Rattle.std.specs.Prelude.{◌≡◌, IfSome};
ghost use Rattle.std.specs.Option.{option_map};
ghost use Rattle.collation_weights.specs.Characters.{characters, points, is_ascii, is_basic, is_in_utf8, is_unicode, text_of};

use std::str;

/// A character set of MySQL.
#[derive(Clone, Copy, Debug, PartialEq, Eq, Drop)]
pub enum CharacterSet {
    Ascii,
    /// Each byte is a character.
    Latin1,
    /// UTF-8 without characters above U+FFFF.
    Utf8mb3,
    Utf8mb4,
}

/// The characters of a text.
#[derive(Clone, Copy, Drop)]
pub(crate) enum Characters<'a> {
    /// Each byte is one.
    Bytes(&'a [u8]),
    Text(&'a str),
}

/// Whether each byte is a character of ASCII.
fn is_ascii(bytes: &[u8]) -> bool
    ensures { result ≡ is_ascii bytes.now }
{
    bytes.iter().all(|byte| *byte < 128)
}

/// Whether no character is above U+FFFF.
fn is_basic(text: &str) -> bool
    ensures { result ≡ is_basic text.now }
{
    text.chars().all(|c| (c as u32) < 0x10000)
}

/// The text that bytes are in UTF-8, if they are one.
#[tactic(auto, using(crate::proofs::Texts::is_text, crate::proofs::Texts::is_no_text))]
fn text_of(bytes: &[u8]) -> Option<&str>
    ensures { option_map (λ t. t.now) result ≡ text_of bytes.now }
{
    match str::from_utf8(bytes) {
        Ok(text) => Some(text),
        Err(_) => None,
    }
}

/// The characters of a text in a character set, if its bytes are one.
#[tactic(auto, unfolding(crate::specs::Characters::characters))]
pub(crate) fn decode(set: CharacterSet, bytes: &[u8]) -> Option<Characters<'_>>
    ensures found { option_map points result ≡ characters set bytes.now }
    ensures form { IfSome result (λ found. is_in_utf8 found ≡ is_unicode set) }
{
    match set {
        CharacterSet::Ascii if is_ascii(bytes) => Some(Characters::Bytes(bytes)),
        CharacterSet::Ascii => None,
        CharacterSet::Latin1 => Some(Characters::Bytes(bytes)),
        CharacterSet::Utf8mb3 => match text_of(bytes) {
            Some(text) if is_basic(text) => Some(Characters::Text(text)),
            _ => None,
        },
        CharacterSet::Utf8mb4 => match text_of(bytes) {
            Some(text) => Some(Characters::Text(text)),
            None => None,
        },
    }
}
