//! The lines that were read where a GTID comes twice.
ghost use Rattle.std.specs.Prelude.{◌≡◌, ◌≤◌, IfOk, length, map, false};
ghost use Rattle.gtid_text.specs.Canonical.{gtid_text};
ghost use Rattle.journal_words.specs.Gtids.{set_of_word};
ghost use Rattle.fault_places.specs.Twice.{set_has, has_after, count_read};

use crate::lines::{is_previous, second_word};
use crate::standing::is_named;
use gtid_text::Gtid;
use journal_words::set_word;
use std::alloc::{AllocError, Global};

/// Whether the set that a word parses as has a GTID.
fn word_has(alloc: Global, gtid: &Gtid, word: &[u8]) -> Result<bool, AllocError>
    ensures { IfOk result (λ has. has ≡ set_has gtid.now (set_of_word word.now)) }
{
    match set_word(alloc, word) {
        Ok(Some(set)) => Ok(set.contains(gtid)),
        Ok(None) => Ok(false),
        Err(_) => Err(AllocError),
    }
}

/// Whether a journal has a GTID after a line; `text` is the GTID's.
fn has_after(
    alloc: Global,
    gtid: &Gtid,
    text: &[u8],
    has: bool,
    line: &[u8],
) -> Result<bool, AllocError>
    requires { text.now ≡ gtid_text gtid.now }
    ensures { IfOk result (λ after. after ≡ has_after gtid.now has line.now) }
{
    if is_previous(line) {
        return word_has(alloc, gtid, second_word(line));
    }
    Ok(has || is_named(text, line))
}

/// How many lines there are up to the first that begins an entry with a GTID in a journal that has it; `text` is the GTID's.
pub(crate) fn count_read(
    alloc: Global,
    gtid: &Gtid,
    text: &[u8],
    lines: &[&[u8]],
) -> Result<usize, AllocError>
    requires { text.now ≡ gtid_text gtid.now }
    ensures read { IfOk result (λ count. count ≡ count_read gtid.now false (map (λ x. x.now) lines.now)) }
    ensures within { IfOk result (λ count. count ≤ length lines.now) }
{
    let mut has = false;
    for (i, line) in lines.iter().enumerate() {
        if has && is_named(text, line) {
            return Ok(i + 1);
        }
        has = has_after(alloc, gtid, text, has, line)?;
    }
    Ok(lines.len())
}
