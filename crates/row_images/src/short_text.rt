//! A short text, held in place.
ghost use Rattle.std.specs.Prelude.{◌≡◌, ◌≤◌, IfSome};

use std::marker::Model;

/// A short text, held in place.
#[derive(Drop)]
pub(crate) struct ShortText<const ROOM: usize> {
    len: u8,
    bytes: [u8; ROOM],
}

impl<const ROOM: usize> Model for ShortText<ROOM> {
    ghost use Rattle.std.specs.Prelude.{ℕ, ◌≤◌, List, length, take};

    ghost Value = { List ℕ };

    ghost view = { λ a. take a.len a.bytes };

    ghost invariant = { λ a. a.len ≤ length a.bytes };
}

impl<const ROOM: usize> ShortText<ROOM> {
    /// This text, if it is short enough.
    pub(crate) fn from_slice(text: &[u8]) -> Option<ShortText<ROOM>>
        requires { ROOM ≤ 255 }
        ensures { IfSome result (λ it. it ≡ text.now) }
    {
        let len = text.len();
        if len > ROOM {
            return None;
        }
        let mut bytes = [0; ROOM];
        bytes[..len].copy_from_slice(text);
        Some(ShortText {
            len: len as u8,
            bytes,
        })
    }

    /// The text.
    pub(crate) fn as_slice(&self) -> &[u8]
        ensures { result.now ≡ self.now }
    {
        &self.bytes[..self.len as usize]
    }
}
