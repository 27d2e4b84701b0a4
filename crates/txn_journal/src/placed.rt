//! Lines among which places of entries may be.
ghost use Rattle.std.specs.Prelude.{◌≡◌, ℕ, Bool, List, true, false, Err};
ghost use Rattle.txn_journal.specs.Places.{is_place_line};
ghost use Rattle.txn_journal.specs.declared.fault.Cause.TheVariants as causes;

use crate::fault::{Cause, LineFault};
use crate::feed::{TakeChange, TakeLine};
use crate::log_places::{is_entry_line, is_place_line, place_in};
use crate::parsed_lines::ParsedEntry;
use row_images::cut;
use rows::{Change, Limits};
use std::alloc::{AllocError, Global};

/// What takes lines, and knows where the place of an entry may stand between them.
pub trait TakePlaces: TakeLine {
    ghost takes: { Self → Bool };

    /// Whether the place of the entry that comes next may stand here.
    fn takes_places(&self) -> bool
        ensures { result ≡ takes self.now };

    // None of its own lines begins with the word of a place.
    ghost unknown: { (s : Self) (line : List ℕ) → is_place_line line ≡ true → Self.judge s line ≡ Err causes.Keyword };
}

/// What lines have made, among which places may be.
#[derive(Drop)]
pub struct Placed<T> {
    /// What the lines but those of places have made.
    pub made: T,
    /// Whether the last line was that of a place.
    pub is_placed: bool,
}

impl<T> Placed<T> {
    /// Before the first line.
    pub fn start(made: T) -> Placed<T>
        ensures { result ≡ record { made = made; is_placed = false } }
    {
        Placed {
            made,
            is_placed: false,
        }
    }
}

impl<T: TakePlaces> Placed<T> {
    ghost use Rattle.txn_journal.specs.Stream.{TakesLine, IsRefusedWhereFull};
    ghost use Rattle.txn_journal.specs.PlacedFormats.{place_line, plain_line, IsFullPlaced};
    ghost use Rattle.row_images.specs.Words.{others};

    /// Takes the line of a place.
    fn take_place(&mut self, alloc: Global, line: &[u8]) -> Result<(), LineFault>
        ensures line { TakesLine (IsFullPlaced T.full) result (place_line self.old.made line.now) self.new }
        ensures room { IsRefusedWhereFull (IsFullPlaced T.full) result (place_line self.old.made line.now) }
    {
        let (_, rest) = cut(line);
        place_in(alloc, rest)?;
        self.is_placed = true;
        Ok(())
    }

    /// Takes another line.
    fn take_other(&mut self, alloc: Global, line: &[u8]) -> Result<(), LineFault>
        ensures line { TakesLine (IsFullPlaced T.full) result (plain_line (T.judge self.old.made line.now)) self.new }
        ensures room { T.counts self.old.made → IsRefusedWhereFull (IsFullPlaced T.full) result (plain_line (T.judge self.old.made line.now)) }
    {
        self.is_placed = false;
        self.made.take_line(alloc, line)
    }
}

impl<T: TakePlaces> TakeLine for Placed<T> {
    ghost use Rattle.txn_journal.specs.PlacedFormats.{judge_placed, IsFullPlaced};

    ghost judge = { judge_placed T.takes T.judge };

    ghost full = { IsFullPlaced T.full };

    ghost counts = { λ p. T.counts p.made };

    #[tactic(auto, unfolding(crate::specs::PlacedFormats::judge_placed))]
    fn take_line(&mut self, alloc: Global, line: &[u8]) -> Result<(), LineFault> {
        if self.is_placed {
            if !is_entry_line(line) {
                return Err(LineFault::Wrong(Cause::Keyword));
            }
            return self.take_other(alloc, line);
        }
        if self.made.takes_places() && is_place_line(line) {
            return self.take_place(alloc, line);
        }
        self.take_other(alloc, line)
    }

    #[inline(always)]
    fn take_plain(&mut self, alloc: Global, line: &[u8]) -> Result<bool, AllocError> {
        if self.is_placed {
            return Ok(false);
        }
        self.made.take_plain(alloc, line)
    }
}

impl<T: TakePlaces + TakeChange> TakeChange for Placed<T> {
    fn take_change(
        &mut self,
        alloc: Global,
        limits: Limits,
        line: &[u8],
        change: Change,
    ) -> Result<(), LineFault> {
        if self.is_placed {
            return Err(LineFault::Wrong(Cause::Keyword));
        }
        self.made.take_change(alloc, limits, line, change)
    }

    fn take_entry(&mut self, alloc: Global, entry: ParsedEntry<'_>) -> Result<bool, AllocError> {
        if self.is_placed {
            return Ok(false);
        }
        self.made.take_entry(alloc, entry)
    }
}
