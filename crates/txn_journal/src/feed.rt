//! Lines out of pieces.
ghost use Rattle.std.specs.Prelude.{◌≡◌, ◌+◌, ◌≤◌, ◌^◌, ◌-◌, length, Ok, IfSome, IfNone};
ghost use Rattle.gtid_set.specs.declared.fault.SetFault.{SetFault};
ghost use Rattle.txn_journal.specs.Words.{IsOneLine, BeginsWithLine};
ghost use Rattle.txn_journal.specs.Stream.{Judge, TakesLine, IsRefusedWhereFull, TakesPlain, IsLeftWhereFull};
ghost use Rattle.txn_journal.specs.ChangeLines.{change_in};
ghost use Rattle.txn_journal.specs.TakenEntries.{TakesText};

use crate::fault::{Cause, JournalFault, LineFault};
use crate::parsed_lines::{ParsedEntry, ParsedItem, ParsedLine, ParsedLines};
use row_images::first_line_feed;
use rows::{Change, Limits};
use std::alloc::{AllocError, Global};

/// The first line of a text, and what follows its line feed.
pub fn cut_line(text: &[u8]) -> Option<(&[u8], &[u8])>
    ensures found { IfSome result (λ r. BeginsWithLine text.now r.0.now r.1.now) }
    ensures none { IfNone result (IsOneLine text.now) }
{
    let Some(at) = first_line_feed(text) else {
        return None;
    };
    let (line, rest) = text.split_at(at);
    match rest {
        [_, after @ ..] => Some((line, after)),
        [] => None,
    }
}

/// What the lines of a text make, one after another.
pub trait TakeLine {
    ghost judge: { Judge Self };

    // A set of what the lines have made has too many sources or intervals: by this fault.
    ghost full: { SetFault → Self → Type 0 };

    // At this point the sources are counted before any allocation.
    ghost counts: { Self → Type 0 };

    /// Takes the next line, or returns its first fault.
    fn take_line(&mut self, alloc: Global, line: &[u8]) -> Result<(), LineFault>
        ensures line { TakesLine full result (judge self.old line.now) self.new }
        ensures room { counts self.old → IsRefusedWhereFull full result (judge self.old line.now) };

    /// Takes the next line if it is a plain one (most are) and nothing is wrong with it. If false, nothing has changed.
    fn take_plain(&mut self, alloc: Global, line: &[u8]) -> Result<bool, AllocError>
        ensures line { TakesPlain result (judge self.old line.now) self.old self.new }
        ensures room { counts self.old → IsLeftWhereFull full result (judge self.old line.now) };
}

/// What also takes lines of changes, and entries, that were read beforehand.
pub trait TakeChange: TakeLine {
    /// Takes the next line, which writes this change in a text with these limits, or returns its first fault.
    fn take_change(
        &mut self,
        alloc: Global,
        limits: Limits,
        line: &[u8],
        change: Change,
    ) -> Result<(), LineFault>
        requires { change_in limits line.now ≡ Ok change }
        ensures { TakesLine Self.full result (Self.judge self.old line.now) self.new };

    /// Takes the lines of a whole entry, if nothing is wrong with them. If false, nothing has changed.
    fn take_entry(&mut self, alloc: Global, entry: ParsedEntry<'_>) -> Result<bool, AllocError>
        ensures { TakesText Self.judge result entry.entry.text (length entry.entry.changes + 2) self.old self.new };
}

/// A text that comes in pieces, as far as it has come.
#[derive(Drop)]
pub struct Feed<T> {
    /// What the whole lines have made.
    pub made: T,
    /// How many whole lines have come.
    lines: u64,
    /// The bytes of the line that has not come whole.
    rest: Vec<u8>,
    stopped: Option<JournalFault>,
}

impl<T> Feed<T> {
    ghost use Rattle.std.specs.Prelude.{[], true};
    ghost use Rattle.txn_journal.specs.Stream.{Reading, CountsLines, answer, end_of};
    ghost use Rattle.txn_journal.specs.Feeds.{progress};

    /// Before the first byte.
    pub fn start(alloc: Global, made: T) -> Feed<T>
        ensures { progress result ≡ Reading made 0 [] }
    {
        Feed {
            made,
            lines: 0,
            rest: Vec::new(alloc),
            stopped: None,
        }
    }

    /// The error at which the reading stopped, if it did.
    pub fn answer(&self) -> Result<(), JournalFault>
        ensures { result ≡ answer (progress self.now) }
    {
        match self.stopped {
            None => Ok(()),
            Some(fault) => Err(fault),
        }
    }

    /// How many whole lines have come.
    pub fn lines(&self) -> u64
        ensures { CountsLines (progress self.now) result }
    {
        self.lines
    }

    /// Whether no byte of the next line has come.
    fn is_at_line(&self) -> bool
        ensures { result ≡ true → self.now.rest.items ≡ [] }
    {
        self.rest.is_empty()
    }

    /// What is wrong with the text as a whole.
    pub fn end(&self, is_ended: bool) -> Result<(), JournalFault>
        ensures { result ≡ end_of is_ended (progress self.now) }
    {
        self.answer()?;
        let line = self.lines.saturating_add(1);
        if !is_ended {
            return Err(JournalFault::Truncated { line });
        }
        if !self.rest.is_empty() {
            return Err(JournalFault::Line {
                line,
                cause: Cause::Keyword,
            });
        }
        Ok(())
    }
}

impl<T: TakeLine> Feed<T> {
    ghost use Rattle.std.specs.Prelude.{[], ◌∷◌, ◌++◌, None, Err, OnOk};
    ghost use Rattle.gtid_set.specs.declared.fault.SetFault.TheVariants.{SourcesFull};
    ghost use Rattle.txn_journal.specs.declared.fault.JournalFault.TheVariants.{Set};
    ghost use Rattle.txn_journal.specs.Stream.{feed_bytes, IsPieceFault, Feeds, StaysStopped, TakesPiece, GivesFull, NamesSources, answer};
    ghost use Rattle.txn_journal.specs.Feeds.{progress};

    /// Takes the next piece. After an error every later call returns that error.
    pub fn feed(&mut self, alloc: Global, piece: &[u8]) -> Result<(), JournalFault>
        ensures next { Feeds T.full T.judge (progress self.old) piece.now (progress self.new) }
        ensures stays { StaysStopped (progress self.old) (progress self.new) }
        ensures answer { result ≡ answer (progress self.new) }
        ensures room { NamesSources T.counts T.full T.judge (progress self.old) piece.now result }
    {
        if let Err(earlier) = self.answer() {
            return Err(earlier);
        }
        if let Err(fault) = self.take_piece(alloc, piece) {
            self.stopped = Some(fault);
        }
        self.answer()
    }

    fn take_piece(&mut self, alloc: Global, piece: &[u8]) -> Result<(), JournalFault>
        requires { self.old.stopped ≡ None }
        ensures next { TakesPiece (IsPieceFault T.full T.judge (progress self.old) piece.now) result (progress self.new) (feed_bytes T.judge (progress self.old) piece.now) }
        ensures goes { self.new.stopped ≡ None }
        ensures room { NamesSources T.counts T.full T.judge (progress self.old) piece.now result }
    {
        let mut left = piece;
        'lines: loop {
            match cut_line(left) {
                Some((line, after)) => match self.take_next(alloc, line) {
                    Ok(()) => left = after,
                    Err(fault) => return Err(fault),
                },
                None => {
                    self.rest.extend_from_slice(left)?;
                    return Ok(());
                }
            }
        }
    }

    /// Takes the line whose last bytes are these. A plain one is taken at once if none of its bytes came before.
    #[inline(always)]
    fn take_next(&mut self, alloc: Global, bytes: &[u8]) -> Result<(), JournalFault>
        requires goes { self.old.stopped ≡ None }
        requires whole { IsOneLine bytes.now }
        ensures next { TakesPiece (IsPieceFault T.full T.judge (progress self.old) (bytes.now ++ 10 ∷ [])) result (progress self.new) (feed_bytes T.judge (progress self.old) (bytes.now ++ 10 ∷ [])) }
        ensures goes { self.new.stopped ≡ None }
        ensures room { T.counts self.old.made → GivesFull (T.full SourcesFull) (T.judge self.old.made bytes.now) → self.old.rest.items ≡ [] → result ≡ Err (Set SourcesFull) }
    {
        if !self.is_at_line() {
            // (the line's first bytes came in an earlier piece)
            return self.take_line(alloc, bytes);
        }
        if self.made.take_plain(alloc, bytes)? {
            let number = self.lines.saturating_add(1);
            self.lines = number;
            return Ok(());
        }
        self.take_line(alloc, bytes)
    }

    /// Takes the line whose last bytes are these.
    #[inline(never)]
    fn take_line(&mut self, alloc: Global, bytes: &[u8]) -> Result<(), JournalFault>
        requires goes { self.old.stopped ≡ None }
        requires whole { IsOneLine bytes.now }
        ensures next { TakesPiece (IsPieceFault T.full T.judge (progress self.old) (bytes.now ++ 10 ∷ [])) result (progress self.new) (feed_bytes T.judge (progress self.old) (bytes.now ++ 10 ∷ [])) }
        ensures goes { self.new.stopped ≡ None }
        ensures room { T.counts self.old.made → GivesFull (T.full SourcesFull) (T.judge self.old.made bytes.now) → self.old.rest.items ≡ [] → result ≡ Err (Set SourcesFull) }
    {
        self.lines = self.lines.saturating_add(1);
        match self.make(alloc, bytes) {
            Ok(()) => Ok(()),
            Err(LineFault::Set(fault)) => Err(JournalFault::Set(fault)),
            Err(LineFault::Wrong(cause)) => Err(JournalFault::Line {
                line: self.lines,
                cause,
            }),
        }
    }

    fn make(&mut self, alloc: Global, bytes: &[u8]) -> Result<(), LineFault>
        ensures made { TakesLine T.full result (T.judge self.old.made (self.old.rest.items ++ bytes.now)) self.new.made }
        ensures rest { OnOk result (self.new.rest.items ≡ []) }
        ensures lines { self.new.lines ≡ self.old.lines }
        ensures stopped { self.new.stopped ≡ self.old.stopped }
        ensures room { T.counts self.old.made → self.old.rest.items ≡ [] → IsRefusedWhereFull T.full result (T.judge self.old.made bytes.now) }
    {
        if self.rest.is_empty() {
            return self.made.take_line(alloc, bytes);
        }
        self.rest.extend_from_slice(bytes)?;
        self.made.take_line(alloc, &self.rest)?;
        self.rest.clear();
        Ok(())
    }
}

impl<T: TakeChange> Feed<T> {
    ghost use Rattle.std.specs.Prelude.{[], ◌∷◌, ◌++◌, None, OnOk};
    ghost use Rattle.txn_journal.specs.Stream.{feed_bytes, IsPieceFault, Feeds, StaysStopped, TakesPiece, answer};
    ghost use Rattle.txn_journal.specs.ChangeLines.{HasChange};
    ghost use Rattle.txn_journal.specs.ParsedTexts.{item_text};
    ghost use Rattle.txn_journal.specs.Feeds.{progress};

    /// Takes the next piece, whose lines were parsed. After an error every later call returns that error.
    pub fn feed_parsed(&mut self, alloc: Global, piece: ParsedLines<'_>) -> Result<(), JournalFault>
        ensures next { Feeds T.full T.judge (progress self.old) piece.entry (progress self.new) }
        ensures stays { StaysStopped (progress self.old) (progress self.new) }
        ensures answer { result ≡ answer (progress self.new) }
    {
        if let Err(fault) = self.answer() {
            return Err(fault);
        }
        self.stopped = self.take_parsed(alloc, piece).err();
        self.answer()
    }

    fn take_parsed(&mut self, alloc: Global, piece: ParsedLines<'_>) -> Result<(), JournalFault>
        requires { self.old.stopped ≡ None }
        ensures next { TakesPiece (IsPieceFault T.full T.judge (progress self.old) piece.entry) result (progress self.new) (feed_bytes T.judge (progress self.old) piece.entry) }
        ensures goes { self.new.stopped ≡ None }
    {
        let (mut items, rest) = piece.into_parts();
        'parsed: while let Some(item) = items.pop_front() {
            match self.take_item(alloc, item) {
                Ok(()) => {}
                Err(fault) => return Err(fault),
            }
        }
        self.take_piece(alloc, rest)
    }

    /// Takes an entry or a line.
    fn take_item(&mut self, alloc: Global, item: ParsedItem<'_>) -> Result<(), JournalFault>
        requires { self.old.stopped ≡ None }
        ensures next { TakesPiece (IsPieceFault T.full T.judge (progress self.old) (item_text item.entry)) result (progress self.new) (feed_bytes T.judge (progress self.old) (item_text item.entry)) }
        ensures goes { self.new.stopped ≡ None }
    {
        match item {
            ParsedItem::Entry(entry) => self.take_whole(alloc, entry),
            ParsedItem::Line(parsed) => {
                let ParsedLine {
                    line,
                    change,
                    limits,
                } = parsed;
                self.take_either(alloc, limits, line, change)
            }
        }
    }

    /// The number of an entry's last line, if that can be counted and no byte of its first line came before.
    fn last_number(&self, entry: &ParsedEntry<'_>) -> Option<u64>
        ensures first { IfSome result (λ number. self.now.rest.items ≡ []) }
        ensures number { IfSome result (λ number. number ≡ self.now.lines + (length entry.now.changes + 2)) }
        ensures fits { IfSome result (λ number. number ≤ 2 ^ 64 - 1) }
    {
        if !self.is_at_line() {
            return None;
        }
        self.lines.checked_add(entry.lines())
    }

    /// Takes the lines of an entry.
    fn take_whole(&mut self, alloc: Global, entry: ParsedEntry<'_>) -> Result<(), JournalFault>
        requires { self.old.stopped ≡ None }
        ensures next { TakesPiece (IsPieceFault T.full T.judge (progress self.old) entry.entry.text) result (progress self.new) (feed_bytes T.judge (progress self.old) entry.entry.text) }
        ensures goes { self.new.stopped ≡ None }
    {
        let text = entry.text();
        if let Some(number) = self.last_number(&entry) {
            if self.made.take_entry(alloc, entry)? {
                self.lines = number;
                return Ok(());
            }
        }
        self.take_piece(alloc, text)
    }

    /// Takes a line, and the change that it writes if that was read.
    fn take_either(
        &mut self,
        alloc: Global,
        limits: Limits,
        line: &[u8],
        change: Option<Change>,
    ) -> Result<(), JournalFault>
        requires goes { self.old.stopped ≡ None }
        requires whole { IsOneLine line.now }
        requires written { HasChange limits line.now change }
        ensures next { TakesPiece (IsPieceFault T.full T.judge (progress self.old) (line.now ++ 10 ∷ [])) result (progress self.new) (feed_bytes T.judge (progress self.old) (line.now ++ 10 ∷ [])) }
        ensures goes { self.new.stopped ≡ None }
    {
        match change {
            Some(change) => if self.rest.is_empty() {
                self.take_change(alloc, limits, line, change)
            } else {
                // (the line's first bytes came in an earlier piece)
                self.take_line(alloc, line)
            },
            None => self.take_next(alloc, line),
        }
    }

    /// Takes the line that writes this change.
    fn take_change(
        &mut self,
        alloc: Global,
        limits: Limits,
        line: &[u8],
        change: Change,
    ) -> Result<(), JournalFault>
        requires goes { self.old.stopped ≡ None }
        requires first { self.old.rest.items ≡ [] }
        requires whole { IsOneLine line.now }
        requires written { change_in limits line.now ≡ Ok change }
        ensures next { TakesPiece (IsPieceFault T.full T.judge (progress self.old) (line.now ++ 10 ∷ [])) result (progress self.new) (feed_bytes T.judge (progress self.old) (line.now ++ 10 ∷ [])) }
        ensures goes { self.new.stopped ≡ None }
    {
        let number = self.lines.saturating_add(1);
        self.lines = number;
        match self.made.take_change(alloc, limits, line, change) {
            Ok(()) => Ok(()),
            Err(LineFault::Set(fault)) => Err(JournalFault::Set(fault)),
            Err(LineFault::Wrong(cause)) => Err(JournalFault::Line {
                line: number,
                cause,
            }),
        }
    }
}
