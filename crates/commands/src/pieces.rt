//! The text of an answer, in pieces.
ghost use Rattle.std.specs.Prelude.{◌≡◌, ◌++◌, ◌∷◌, OnOk, OnErr, flat_map, string_bytes};
ghost use Rattle.std.specs.Io.KnownBytes.{Appends};
ghost use Rattle.commands.specs.Edge.{one_more, Begins};

use crate::edge::{Failed, Sink};
use std::alloc::{AllocError, Global};
use std::marker::Model;

/// A text in pieces. They are written one after another, and never put together.
pub struct Text {
    first: String,
    others: Vec<String>,
}

impl Drop for Text {
    // (by hand: for a caller the end of a Text is one call)
    fn drop(self) {
        let Text {
            first: _first,
            others: _others,
        } = self;
    }
}

impl Model for Text {
    ghost use Rattle.std.specs.Prelude.{◌++◌, List, ℕ, flat_map, string_bytes};

    ghost Value = { List ℕ };

    ghost view = { λ t. string_bytes t.first ++ flat_map string_bytes t.others.items };
}

/// Moves pieces to the end of others. An error leaves these as they were.
fn move_behind(
    pieces: &mut Vec<String>,
    first: String,
    others: Vec<String>,
) -> Result<(), AllocError>
    ensures ok { OnOk result (pieces.new.items ≡ pieces.old.items ++ first ∷ others.items) }
    ensures err { OnErr result (pieces.new.items ≡ pieces.old.items) }
{
    let mut others = others;
    pieces.reserve(others.len() + 1)?;
    let _ = pieces.push(first);
    let _ = pieces.append(&mut others);
    Ok(())
}

/// Writes pieces one after another, or a prefix of them.
fn write_pieces<W: Sink>(writer: &mut W, pieces: &[String]) -> Result<(), Failed>
    ensures ok { OnOk result (Appends (W.written writer.old) (W.written writer.new) (flat_map string_bytes pieces.now)) }
    ensures begins { OnErr result (Begins (W.written writer.old) (W.written writer.new) (flat_map string_bytes pieces.now)) }
    ensures calm { OnOk result (W.failed writer.new ≡ W.failed writer.old) }
    ensures counted { OnErr result (W.failed writer.new ≡ one_more (W.failed writer.old)) }
{
    for piece in pieces {
        let Ok(()) = writer.write(piece.as_bytes()) else {
            return Err(Failed);
        };
    }
    Ok(())
}

/// Writes a piece and then others, or a prefix of them.
fn write_behind<W: Sink>(writer: &mut W, first: &str, others: &[String]) -> Result<(), Failed>
    ensures ok { OnOk result (Appends (W.written writer.old) (W.written writer.new) (first.now ++ flat_map string_bytes others.now)) }
    ensures begins { OnErr result (Begins (W.written writer.old) (W.written writer.new) (first.now ++ flat_map string_bytes others.now)) }
    ensures calm { OnOk result (W.failed writer.new ≡ W.failed writer.old) }
    ensures counted { OnErr result (W.failed writer.new ≡ one_more (W.failed writer.old)) }
{
    let Ok(()) = writer.write(first.as_bytes()) else {
        return Err(Failed);
    };
    write_pieces(writer, others)
}

impl Text {
    /// A text of one piece.
    pub fn of(alloc: Global, text: String) -> Text
        ensures { result ≡ string_bytes text }
    {
        Text {
            first: text,
            others: Vec::new(alloc),
        }
    }

    /// Appends a text to this one. Its pieces are moved, and no byte is copied. An error leaves this one as it was.
    pub(crate) fn append(&mut self, behind: Text) -> Result<(), AllocError>
        ensures ok { OnOk result (self.new ≡ self.old ++ behind) }
        ensures err { OnErr result (self.new ≡ self.old) }
    {
        let Text { first, others } = behind;
        move_behind(&mut self.others, first, others)
    }

    /// Writes the pieces one after another, or a prefix of them.
    pub fn write_to<W: Sink>(&self, writer: &mut W) -> Result<(), Failed>
        ensures ok { OnOk result (Appends (W.written writer.old) (W.written writer.new) self.now) }
        ensures begins { OnErr result (Begins (W.written writer.old) (W.written writer.new) self.now) }
        ensures calm { OnOk result (W.failed writer.new ≡ W.failed writer.old) }
        ensures counted { OnErr result (W.failed writer.new ≡ one_more (W.failed writer.old)) }
    {
        write_behind(writer, &self.first, &self.others)
    }
}
