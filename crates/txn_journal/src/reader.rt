//! The reader of journals.
ghost use Rattle.std.specs.Prelude.{◌≡◌, None, Some, Err, IfOk, IfErr};
ghost use Rattle.journal.specs.Journals.{JournalValue};
ghost use Rattle.txn_journal.specs.Spelling.{Writes};
ghost use Rattle.txn_journal.specs.Refused.{Refuses};
ghost use Rattle.txn_journal.specs.Stream.{IsWhole, IsRead};
ghost use Rattle.txn_journal.specs.Machine.{Standing};
ghost use Rattle.txn_journal.specs.Reading.{before_first, feed_journal_bytes, closing, AnyCut};
ghost use Rattle.txn_journal.specs.Timestamped.{TimestampedValue, WritesTimestamped, RefusesTimestamped, BeginsAsVersionOne, first_line_version, timestamped_start, feed_timestamped, closing_timestamped};

use crate::draft::Draft;
use crate::fault::{JournalFault, LineFault};
use crate::feed::{Feed, TakeLine};
use crate::lines::{Due, Version};
use crate::names::Names;
use crate::placed::{Placed, TakePlaces};
use crate::timestamped_journal::TimestampedJournal;
use journal::{Entry, Journal};
use std::alloc::{AllocError, Global};
use std::marker::Model;

/// A journal that stands alone, as far as its lines have come.
#[derive(Drop)]
struct Alone {
    draft: Draft,
    names: Names,
}

impl Model for Alone {
    ghost use Rattle.txn_journal.specs.Machine.{Standing};
    ghost use Rattle.std.specs.Coded.{codes};
    ghost use Rattle.gtid_set.specs.Sets.{gtids_code};

    ghost Value = { Standing };

    ghost coded = { Prim.hlevel (codes, gtids_code) };

    ghost use Rattle.txn_journal.specs.Drafts.{standing};

    ghost view = { λ a. standing a.draft };
}

impl Alone {
    ghost use Rattle.txn_journal.specs.Machine.{empty, is_last, drop_entries};
    ghost use Rattle.txn_journal.specs.Timestamped.{timestamped_of};

    /// Before the first line.
    fn start(alloc: Global, due: Due) -> Alone
        ensures { result ≡ empty due }
    {
        Alone {
            draft: Draft::start(alloc, due),
            names: Names::start(alloc),
        }
    }

    fn is_ended(&self) -> bool
        ensures { result ≡ is_last self.now.place }
    {
        self.draft.is_ended()
    }

    fn take_entries(&mut self, alloc: Global) -> Vec<Entry>
        ensures taken { result.items ≡ self.old.journal.entries }
        ensures left { self.new ≡ drop_entries self.old }
    {
        self.draft.take_entries(alloc)
    }

    fn into_journal(self) -> Journal
        ensures { result ≡ self.journal }
    {
        self.draft.into_journal()
    }

    fn into_timestamped(self) -> TimestampedJournal
        ensures { result ≡ timestamped_of self }
    {
        self.draft.into_timestamped()
    }
}

impl TakeLine for Alone {
    ghost use Rattle.std.specs.Prelude.{None};
    ghost use Rattle.txn_journal.specs.Machine.{judge, IsFull};

    ghost judge = { judge None };

    ghost full = { IsFull };

    ghost counts = { λ _. Unit {0} };

    fn take_line(&mut self, alloc: Global, line: &[u8]) -> Result<(), LineFault> {
        self.draft.take_line(alloc, None, &mut self.names, line)
    }

    // (none is plain here)
    fn take_plain(&mut self, _alloc: Global, _line: &[u8]) -> Result<bool, AllocError> {
        Ok(false)
    }
}

impl TakePlaces for Alone {
    ghost use Rattle.std.specs.Prelude.{None};
    ghost use Rattle.txn_journal.specs.Machine.{takes_places};
    ghost use Rattle.txn_journal.specs.PlaceWords.{unknown_place};

    ghost takes = { takes_places };

    ghost unknown = { unknown_place None };

    fn takes_places(&self) -> bool {
        self.draft.takes_places()
    }
}

/// Reads a journal that comes in pieces, cut anywhere.
#[derive(Drop)]
pub struct Reader {
    feed: Feed<Placed<Alone>>,
}

impl Reader {
    ghost use Rattle.std.specs.Prelude.{Ok, Err, IfOk, IfErr, OnOk};
    ghost use Rattle.txn_journal.specs.Stream.{answer, IsAfter, StaysStopped};
    ghost use Rattle.txn_journal.specs.Formats.{FeedsBy, NamesSourcesBy};
    ghost use Rattle.txn_journal.specs.Reading.{journals, before_first, entries_of, without_entries, feed_journal_bytes, IsFaultAlone, closing};
    ghost use Rattle.txn_journal.specs.Readers.{reading};

    /// Before the first byte of a journal of any version.
    pub fn start(alloc: Global) -> Reader
        ensures { reading result ≡ before_first }
    {
        Reader {
            feed: Feed::start(alloc, Placed::start(Alone::start(alloc, Due::Any))),
        }
    }

    /// Takes the next piece. After an error every later call returns that error.
    pub fn feed(&mut self, alloc: Global, piece: &[u8]) -> Result<(), JournalFault>
        ensures next { FeedsBy journals (reading self.old) piece.now (reading self.new) }
        ensures stays { StaysStopped (reading self.old) (reading self.new) }
        ensures answer { result ≡ answer (reading self.new) }
        // A line that ends an entry and is the first of its piece is refused for too many sources, whatever memory there is.
        ensures room { NamesSourcesBy journals (λ _. Unit {0}) (reading self.old) piece.now result }
    {
        self.feed.feed(alloc, piece)
    }

    /// The whole entries so far that were not taken, in order.
    pub fn take_entries(&mut self, alloc: Global) -> Result<Vec<Entry>, JournalFault>
        ensures entries { IfOk result (λ entries. entries.items ≡ entries_of (reading self.old)) }
        ensures ok { OnOk result (reading self.new ≡ without_entries (reading self.old)) }
        ensures err { IfErr result (λ e. (Err e ≡ answer (reading self.old)) × (reading self.new ≡ reading self.old)) }
    {
        match self.feed.answer() {
            Ok(()) => Ok(self.feed.made.made.take_entries(alloc)),
            Err(fault) => Err(fault),
        }
    }

    /// The journal, if its last line has come, with the entries that were not taken.
    #[tactic(auto, unfolding(crate::specs::Formats::closing_by))]
    pub fn finish(self) -> Result<Journal, JournalFault>
        ensures { result ≡ closing (reading self) }
    {
        match self.feed.end(self.feed.made.made.is_ended()) {
            Ok(()) => Ok(self.feed.made.made.into_journal()),
            Err(fault) => Err(fault),
        }
    }

    /// The reader of all of these bytes. It keeps a fault, which its end returns.
    fn over(alloc: Global, bytes: &[u8]) -> Reader
        ensures { IsAfter (IsFaultAlone before_first bytes.now) (reading result) (feed_journal_bytes before_first bytes.now) }
    {
        let mut reader = Reader::start(alloc);
        let _ = reader.feed(alloc, bytes);
        reader
    }
}

/// Reads a journal of version 2, which has no places.
#[derive(Drop)]
struct TimestampedReader {
    feed: Feed<Alone>,
}

impl TimestampedReader {
    ghost use Rattle.txn_journal.specs.Stream.{IsAfter};
    ghost use Rattle.txn_journal.specs.Formats.{IsFaultBy};
    ghost use Rattle.txn_journal.specs.Feeds.{progress};
    ghost use Rattle.txn_journal.specs.Timestamped.{timestamped_journals, timestamped_start, feed_timestamped, closing_timestamped};

    /// The reader of all of these bytes. It keeps a fault, which its end returns.
    fn over(alloc: Global, bytes: &[u8]) -> TimestampedReader
        ensures { IsAfter (IsFaultBy timestamped_journals timestamped_start bytes.now) (progress result.feed) (feed_timestamped timestamped_start bytes.now) }
    {
        let mut feed = Feed::start(alloc, Alone::start(alloc, Due::Only(Version::Two)));
        let _ = feed.feed(alloc, bytes);
        TimestampedReader { feed }
    }

    /// The journal, if its last line has come, and the last_committed of each entry.
    #[tactic(auto, unfolding(crate::specs::Formats::closing_by))]
    fn finish(self) -> Result<TimestampedJournal, JournalFault>
        ensures { result ≡ closing_timestamped (progress self.feed) }
    {
        match self.feed.end(self.feed.made.is_ended()) {
            Ok(()) => Ok(self.feed.made.into_timestamped()),
            Err(fault) => Err(fault),
        }
    }
}

/// The journal that the bytes parse as, all of the bytes.
pub fn decode(alloc: Global, bytes: &[u8]) -> Result<Journal, JournalFault>
    // Accepted bytes are a text of this value by the grammar.
    ensures found { IfOk result (λ j. Writes bytes.now j) }
    // A text of a value by the grammar is accepted as it, if memory and the sources of a set allow.
    ensures only { (j : JournalValue) → Writes bytes.now j → IsRead result j }
    // A refusal names the first faulty line, and what is wrong with it.
    ensures refused { IfErr result (λ fault. Refuses fault bytes.now) }
    // The same, by the fold over the bytes.
    ensures exact { IsWhole result (closing (feed_journal_bytes before_first bytes.now)) }
{
    Reader::over(alloc, bytes).finish()
}

/// The journal that the bytes parse as by version 2 of the format, all of the bytes, with the last_committed of each entry as it
/// is written. What begins as a journal of another version is refused for it. A journal that stands alone has no tables, so
/// its numbers are tested against its entries' places and not against their keys.
pub fn decode_v2(alloc: Global, bytes: &[u8]) -> Result<TimestampedJournal, JournalFault>
    // Accepted bytes are a text of this value by the grammar, with these numbers.
    ensures found { IfOk result (λ j. WritesTimestamped bytes.now j) }
    // A text of a value by the grammar is accepted as it, if memory and the sources of a set allow.
    ensures only { (j : TimestampedValue) → WritesTimestamped bytes.now j → IsRead result j }
    // A refusal names the first faulty line, and what is wrong with it.
    ensures refused { IfErr result (λ fault. RefusesTimestamped fault bytes.now) }
    // The same, by the fold over the bytes.
    ensures exact { IsWhole result (closing_timestamped (feed_timestamped timestamped_start bytes.now)) }
    // A text of version 1 is refused at its first line.
    ensures version { BeginsAsVersionOne bytes.now → IsWhole result (Err first_line_version) }
{
    TimestampedReader::over(alloc, bytes).finish()
}

/// A text is read the same, however it is cut into pieces.
pub fn any_cut()
    ensures { AnyCut }
{}
