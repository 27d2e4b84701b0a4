//! Places of entries in a server's log, as their lines have them.
ghost use Rattle.std.specs.Prelude.{◌≡◌, option_map, IfOk, true};
ghost use Rattle.rows.specs.Names.{is_name};
ghost use Rattle.row_images.specs.Words.{count_of};
ghost use Rattle.txn_journal.specs.Stream.{Finds};
ghost use Rattle.txn_journal.specs.Places.{is_unknown, is_at_most, is_less, is_place_words, is_within_limits, is_place_line, is_entry_line, allowed_place, place_in};
ghost use Rattle.txn_journal.specs.LogPlaces.{log_place};

use crate::fault::{Cause, LineFault};
use crate::names::new_name;
use row_images::{count, cut, is_count};
use rows::Limits;
use std::alloc::{AllocError, Global};

/// The greatest position and server. Our own limit.
const GREATEST: u64 = 9_223_372_036_854_775_807;

/// The year 10000, in microseconds since 1970, before which times are. Our own limit.
const END_OF_TIMES: u64 = 253_402_300_800_000_000;

/// The words of a place's line, after the first.
#[derive(Drop)]
pub struct PlaceWords<'a> {
    file: &'a [u8],
    position: &'a [u8],
    time: &'a [u8],
    server: &'a [u8],
}

/// Whether a line is that of a place, by its first word.
pub fn is_place_line(line: &[u8]) -> bool
    ensures { result ≡ is_place_line line.now }
{
    cut(line).0 == b"place".as_slice()
}

/// Whether a line begins an entry, by its first word.
pub fn is_entry_line(line: &[u8]) -> bool
    ensures { result ≡ is_entry_line line.now }
{
    cut(line).0 == b"txn".as_slice()
}

/// Whether a word is a name of version 3.
fn is_name(alloc: Global, word: &[u8]) -> Result<bool, AllocError>
    ensures { IfOk result (λ found. found ≡ is_name word.now) }
{
    match new_name(alloc, Limits::Wide, word)? {
        Some(_) => Ok(true),
        None => Ok(false),
    }
}

/// Whether a word stands for a time that isn't known.
fn is_unknown(word: &[u8]) -> bool
    ensures { result ≡ is_unknown word.now }
{
    word == b"-".as_slice()
}

fn is_at_most(most: u64, word: &[u8]) -> bool
    ensures { result ≡ is_at_most most (count_of word.now) }
{
    match count(word) {
        Some(number) => number <= most,
        None => false,
    }
}

fn is_less(end: u64, word: &[u8]) -> bool
    ensures { result ≡ is_less end (count_of word.now) }
{
    match count(word) {
        Some(number) => number < end,
        None => false,
    }
}

impl PlaceWords<'_> {
    /// Whether they are a name and numbers, of any length.
    fn fit(&self, alloc: Global) -> Result<bool, AllocError>
        ensures { IfOk result (λ fit. fit ≡ is_place_words (log_place self.now)) }
    {
        if !is_name(alloc, self.file)? {
            return Ok(false);
        }
        Ok(
            is_count(self.position)
                && (is_unknown(self.time) || is_count(self.time))
                && is_count(self.server),
        )
    }

    /// Whether the numbers are within the limits.
    #[tactic(auto, unfolding(gtid_set::specs::Sets::greatest, crate::specs::Places::end_of_times))]
    fn are_within(&self) -> bool
        ensures { result ≡ is_within_limits (log_place self.now) }
    {
        is_at_most(GREATEST, self.position)
            && (is_unknown(self.time) || is_less(END_OF_TIMES, self.time))
            && is_at_most(GREATEST, self.server)
    }
}

/// These words, if they are those of a place.
fn allowed<'a>(alloc: Global, words: PlaceWords<'a>) -> Result<PlaceWords<'a>, LineFault>
    ensures { Finds (λ w. log_place w) result (allowed_place (log_place words.entry)) }
{
    if !words.fit(alloc)? {
        return Err(LineFault::Wrong(Cause::Body));
    }
    if !words.are_within() {
        return Err(LineFault::Wrong(Cause::Limit));
    }
    Ok(words)
}

/// The words of a place, by what follows the first word of its line.
#[tactic(auto, unfolding(crate::specs::Places::place_in))]
pub fn place_in<'a>(alloc: Global, rest: Option<&'a [u8]>) -> Result<PlaceWords<'a>, LineFault>
    ensures { Finds (λ w. log_place w) result (place_in (option_map (λ r. r.now) rest.entry)) }
{
    let Some(text) = rest else {
        return Err(LineFault::Wrong(Cause::Body));
    };
    let (file, more) = cut(text);
    let Some(text) = more else {
        return Err(LineFault::Wrong(Cause::Body));
    };
    let (position, more) = cut(text);
    let Some(text) = more else {
        return Err(LineFault::Wrong(Cause::Body));
    };
    let (time, more) = cut(text);
    let Some(server) = more else {
        return Err(LineFault::Wrong(Cause::Body));
    };
    allowed(
        alloc,
        PlaceWords {
            file,
            position,
            time,
            server,
        },
    )
}
