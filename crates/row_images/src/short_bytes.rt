//! Few bytes, held in place.
ghost use Rattle.std.specs.Prelude.{◌≡◌, IfSome};

use std::marker::Model;

/// The most bytes that are held in place: with their number and the enum's tag they fill three words.
const ROOM: usize = 22;

/// Few bytes, held in place.
#[derive(Drop)]
pub(crate) struct ShortBytes {
    len: u8,
    bytes: [u8; ROOM],
}

impl Model for ShortBytes {
    ghost use Rattle.std.specs.Prelude.{ℕ, ◌≤◌, List, take};

    ghost Value = { List ℕ };

    ghost view = { λ a. take a.len a.bytes };

    ghost invariant = { λ a. a.len ≤ 22 };
}

impl ShortBytes {
    /// These bytes, if they are few enough.
    pub(crate) fn from_slice(bytes: &[u8]) -> Option<ShortBytes>
        ensures { IfSome result (λ it. it ≡ bytes.now) }
    {
        let len = bytes.len();
        if len > ROOM {
            return None;
        }
        let mut held = [0; ROOM];
        held[..len].copy_from_slice(bytes);
        Some(ShortBytes {
            len: len as u8,
            bytes: held,
        })
    }

    /// The bytes.
    pub(crate) fn as_slice(&self) -> &[u8]
        ensures { result.now ≡ self.now }
    {
        &self.bytes[..self.len as usize]
    }

    /// The same bytes.
    pub(crate) fn copy(&self) -> ShortBytes
        ensures { result ≡ self.now }
    {
        ShortBytes {
            len: self.len,
            bytes: self.bytes,
        }
    }
}
