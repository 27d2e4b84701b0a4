//! Where a server's log has an entry, by the line before the entry's.
ghost use Rattle.std.specs.Prelude.{◌≡◌, ◌++◌, OnOk};
ghost use Rattle.fault_places.specs.LogPlaces.{is_place, time_shown, where_text, when_text, at_text, log_place_text};

use crate::lines::{put, put_bytes, word_at};
use crate::times::put_instant;
use row_images::count;
use std::alloc::AllocError;

/// The year 10000, in microseconds since 1970, before which times are.
const END_OF_TIMES: u64 = 253_402_300_800_000_000;

fn is_place(line: &[u8]) -> bool
    ensures { result ≡ is_place line.now }
{
    line.starts_with(b"place ")
}

/// Appends the time that a word stands for, or else the word.
#[tactic(auto, unfolding(txn_journal::specs::Places::end_of_times))]
fn put_time_of(out: &mut Vec<u8>, word: &[u8]) -> Result<(), AllocError>
    ensures { OnOk result (out.new.items ≡ out.old.items ++ time_shown word.now) }
{
    let Some(micros) = count(word) else {
        return put_bytes(out, word);
    };
    if micros < END_OF_TIMES {
        return put_instant(out, micros);
    }
    put_bytes(out, word)
}

/// Appends a file and a position in it.
fn put_where(out: &mut Vec<u8>, file: &[u8], position: &[u8]) -> Result<(), AllocError>
    ensures { OnOk result (out.new.items ≡ out.old.items ++ where_text file.now position.now) }
{
    put(out, "    at ")?;
    put_bytes(out, file)?;
    put(out, " ")?;
    put_bytes(out, position)
}

/// Appends a time and a server.
fn put_when(out: &mut Vec<u8>, time: &[u8], server: &[u8]) -> Result<(), AllocError>
    ensures { OnOk result (out.new.items ≡ out.old.items ++ when_text time.now server.now) }
{
    put(out, ", ")?;
    put_time_of(out, time)?;
    put(out, ", server ")?;
    put_bytes(out, server)?;
    put(out, "\n")
}

/// Appends those of a place's line.
fn put_at(out: &mut Vec<u8>, line: &[u8]) -> Result<(), AllocError>
    ensures { OnOk result (out.new.items ≡ out.old.items ++ at_text line.now) }
{
    put_where(out, word_at(line, 1), word_at(line, 2))?;
    put_when(out, word_at(line, 3), word_at(line, 4))
}

/// Appends where a server's log has an entry, if the line before the entry's says so.
pub(crate) fn put_log_place(out: &mut Vec<u8>, before: &[u8]) -> Result<(), AllocError>
    ensures { OnOk result (out.new.items ≡ out.old.items ++ log_place_text before.now) }
{
    if is_place(before) {
        return put_at(out, before);
    }
    Ok(())
}
