//! The reader of bundles.
ghost use Rattle.std.specs.Prelude.{◌≡◌, None, Some, IfOk, IfErr};
ghost use Rattle.txn_journal.specs.BundleStates.{BundleValue};
ghost use Rattle.txn_journal.specs.BundleText.{WritesBundleBy, WritesBundle};
ghost use Rattle.txn_journal.specs.Stream.{IsWhole, IsWholeOr, IsRead};
ghost use Rattle.txn_journal.specs.BundleRefused.{RefusesBundleBy, RefusesBundle};
ghost use Rattle.txn_journal.specs.declared.lines.Due.TheVariants.{Any};
ghost use Rattle.txn_journal.specs.BundleReading.{bundle_start, IsFaultOfBundle, feed_bundle_bytes, closing_bundle, AnyCutOfBundles};

use crate::bundle::Bundle;
use crate::bundle_draft::BundleDraft;
use crate::fault::{JournalFault, LineFault};
use crate::feed::{Feed, TakeChange, TakeLine};
use crate::lines::Due;
use crate::parsed_lines::{ParsedEntry, ParsedLines};
use crate::placed::{Placed, TakePlaces};
use rows::{Change, Limits};
use std::alloc::{AllocError, Global};
use std::marker::Model;

/// A bundle, as far as its lines have come.
#[derive(Drop)]
struct Lines {
    draft: BundleDraft,
}

impl Model for Lines {
    ghost use Rattle.std.specs.Coded.{codes};
    ghost use Rattle.gtid_set.specs.Sets.{gtids_code};
    ghost use Rattle.rows.specs.Coding.{rows_code};
    ghost use Rattle.txn_journal.specs.BundleStates.{BundleStanding};
    ghost use Rattle.txn_journal.specs.BundleDrafts.{bundle_standing};

    ghost Value = { BundleStanding };

    ghost coded = { Prim.hlevel (codes, gtids_code, rows_code) };

    ghost use Rattle.txn_journal.specs.BundleLines.{HasCome};

    ghost view = { λ a. bundle_standing a.draft };

    ghost invariant = { λ a. HasCome (bundle_standing a.draft) };
}

impl Lines {
    ghost use Rattle.std.specs.Prelude.{true};
    ghost use Rattle.txn_journal.specs.Versions.{limits_of};
    ghost use Rattle.txn_journal.specs.BundleStates.{no_bundle, is_done};

    /// Before the first line.
    fn start(alloc: Global, due: Due) -> Lines
        ensures { result ≡ no_bundle due }
    {
        Lines {
            draft: BundleDraft::start(alloc, due),
        }
    }

    fn is_ended(&self) -> bool
        ensures { result ≡ is_done self.now.part }
    {
        self.draft.is_ended()
    }

    fn limits(&self) -> Limits
        ensures { result ≡ limits_of self.now.version }
    {
        self.draft.limits()
    }

    /// The bundle, whose last line has come.
    fn into_bundle(self) -> Bundle
        requires { is_done self.part ≡ true }
        ensures { result ≡ self.bundle }
    {
        Bundle::of(self.draft.into_parts())
    }
}

impl TakeLine for Lines {
    ghost use Rattle.txn_journal.specs.BundleStates.{judge_bundle, IsFullBundle, CountsFirst};

    ghost judge = { judge_bundle };

    ghost full = { IsFullBundle };

    ghost counts = { CountsFirst };

    fn take_line(&mut self, alloc: Global, line: &[u8]) -> Result<(), LineFault> {
        match self.draft.take_line(alloc, line) {
            Ok(()) => Ok(()),
            Err(fault) => {
                self.draft.start_again(alloc);
                Err(fault)
            }
        }
    }

    #[inline(always)]
    fn take_plain(&mut self, alloc: Global, line: &[u8]) -> Result<bool, AllocError> {
        match self.draft.take_plain(alloc, line) {
            Ok(made) => Ok(made),
            Err(fault) => {
                self.draft.start_again(alloc);
                Err(fault)
            }
        }
    }
}

impl TakeChange for Lines {
    fn take_change(
        &mut self,
        alloc: Global,
        limits: Limits,
        line: &[u8],
        change: Change,
    ) -> Result<(), LineFault> {
        match self.draft.take_change(alloc, limits, line, change) {
            Ok(()) => Ok(()),
            Err(fault) => {
                self.draft.start_again(alloc);
                Err(fault)
            }
        }
    }

    fn take_entry(&mut self, alloc: Global, entry: ParsedEntry<'_>) -> Result<bool, AllocError> {
        match self.draft.take_entry(entry) {
            Ok(made) => Ok(made),
            Err(fault) => {
                self.draft.start_again(alloc);
                Err(fault)
            }
        }
    }
}

impl TakePlaces for Lines {
    ghost use Rattle.txn_journal.specs.BundleStates.{bundle_takes_places};
    ghost use Rattle.txn_journal.specs.PlaceWords.{unknown_in_bundle};

    ghost takes = { bundle_takes_places };

    ghost unknown = { unknown_in_bundle };

    fn takes_places(&self) -> bool {
        self.draft.takes_places()
    }
}

/// Reads a bundle that comes in pieces, cut anywhere.
#[derive(Drop)]
pub struct BundleReader {
    feed: Feed<Placed<Lines>>,
}

impl BundleReader {
    ghost use Rattle.std.specs.Prelude.{IfSome, IfNone, IsOk, Err};
    ghost use Rattle.txn_journal.specs.Stream.{CountsLines, answer, StaysStopped};
    ghost use Rattle.txn_journal.specs.Formats.{FeedsBy, NamesSourcesBy};
    ghost use Rattle.txn_journal.specs.BundleReading.{bundles, bundle_start, closing_bundle, CountsFirstHere};
    ghost use Rattle.txn_journal.specs.BundleReaders.{bundle_reading, limits_ahead};

    /// Before the first byte of a bundle of any version.
    pub fn start(alloc: Global) -> BundleReader
        ensures { bundle_reading result ≡ bundle_start Any }
    {
        BundleReader::start_as(alloc, Due::Any)
    }

    /// Before the first byte of a bundle of the version that is due.
    fn start_as(alloc: Global, due: Due) -> BundleReader
        ensures { bundle_reading result ≡ bundle_start due }
    {
        BundleReader {
            feed: Feed::start(alloc, Placed::start(Lines::start(alloc, due))),
        }
    }

    /// Takes the next piece. After an error every later call returns that error.
    pub fn feed(&mut self, alloc: Global, piece: &[u8]) -> Result<(), JournalFault>
        ensures next { FeedsBy (bundles Any) (bundle_reading self.old) piece.now (bundle_reading self.new) }
        ensures stays { StaysStopped (bundle_reading self.old) (bundle_reading self.new) }
        ensures answer { result ≡ answer (bundle_reading self.new) }
        // In version 1 a line that ends an entry and is the first of its piece is refused for too many sources, whatever memory there is.
        ensures room { NamesSourcesBy (bundles Any) CountsFirstHere (bundle_reading self.old) piece.now result }
    {
        self.feed.feed(alloc, piece)
    }

    /// Takes the next piece, whose lines were parsed. After an error every later call returns that error.
    pub fn feed_parsed(&mut self, alloc: Global, piece: ParsedLines<'_>) -> Result<(), JournalFault>
        ensures next { FeedsBy (bundles Any) (bundle_reading self.old) piece.entry (bundle_reading self.new) }
        ensures stays { StaysStopped (bundle_reading self.old) (bundle_reading self.new) }
        ensures answer { result ≡ answer (bundle_reading self.new) }
    {
        self.feed.feed_parsed(alloc, piece)
    }

    /// The limits by which the lines of the next piece are best parsed. It is a guess, and no answer goes by it.
    pub fn limits_ahead(&self, piece: &[u8]) -> Limits
        ensures { result ≡ limits_ahead self.now piece.now }
    {
        if piece.starts_with(b"bundle 3\n") {
            Limits::Wide
        } else {
            self.feed.made.made.limits()
        }
    }

    /// How many whole lines have come.
    pub fn lines(&self) -> u64
        ensures { CountsLines (bundle_reading self.now) result }
    {
        self.feed.lines()
    }

    /// What is wrong with the text as a whole, if anything is: the fault that `finish` returns.
    #[tactic(auto, unfolding(crate::specs::Formats::closing_by))]
    pub fn fault(&self) -> Option<JournalFault>
        ensures some { IfSome result (λ fault. closing_bundle (bundle_reading self.now) ≡ Err fault) }
        ensures none { IfNone result (IsOk (closing_bundle (bundle_reading self.now))) }
    {
        let is_ended = self.feed.made.made.is_ended();
        match self.feed.end(is_ended) {
            Ok(()) => None,
            Err(fault) => Some(fault),
        }
    }

    /// The bundle, if its last line has come.
    #[tactic(auto, unfolding(crate::specs::Formats::closing_by))]
    pub fn finish(self) -> Result<Bundle, JournalFault>
        ensures { result ≡ closing_bundle (bundle_reading self) }
    {
        match self.feed.end(self.feed.made.made.is_ended()) {
            Ok(()) => Ok(self.feed.made.made.into_bundle()),
            Err(fault) => Err(fault),
        }
    }
}

fn read_bundle(alloc: Global, due: Due, bytes: &[u8]) -> Result<Bundle, JournalFault>
    ensures { IsWholeOr (IsFaultOfBundle (bundle_start due) bytes.now) result (closing_bundle (feed_bundle_bytes (bundle_start due) bytes.now)) }
{
    let mut reader = BundleReader::start_as(alloc, due);
    match reader.feed(alloc, bytes) {
        Ok(()) => reader.finish(),
        Err(fault) => Err(fault),
    }
}

/// The bundle that the bytes parse as, all of the bytes, by any version of the format.
pub fn decode_bundle(alloc: Global, bytes: &[u8]) -> Result<Bundle, JournalFault>
    // Accepted bytes are a text of this value by the grammar.
    ensures found { IfOk result (λ b. WritesBundle bytes.now b) }
    // A text of a value by the grammar is accepted as it, if memory and the sources of a set allow.
    ensures only { (b : BundleValue) → WritesBundle bytes.now b → IsRead result b }
    // A refusal names the first faulty line, and what is wrong with it.
    ensures refused { IfErr result (λ fault. RefusesBundle fault bytes.now) }
    // The same, by the fold over the bytes.
    ensures exact { IsWhole result (closing_bundle (feed_bundle_bytes (bundle_start Any) bytes.now)) }
{
    read_bundle(alloc, Due::Any, bytes)
}

/// The bundle that the bytes parse as, all of the bytes, by a version that is due. What begins as a bundle of another is refused for it.
pub fn decode_bundle_by(alloc: Global, due: Due, bytes: &[u8]) -> Result<Bundle, JournalFault>
    // Accepted bytes are a text of this value by the grammar.
    ensures found { IfOk result (λ b. WritesBundleBy due bytes.now b) }
    // A text of a value by the grammar is accepted as it, if memory and the sources of a set allow.
    ensures only { (b : BundleValue) → WritesBundleBy due bytes.now b → IsRead result b }
    // A refusal names the first faulty line, and what is wrong with it.
    ensures refused { IfErr result (λ fault. RefusesBundleBy due fault bytes.now) }
    // The same, by the fold over the bytes.
    ensures exact { IsWhole result (closing_bundle (feed_bundle_bytes (bundle_start due) bytes.now)) }
{
    read_bundle(alloc, due, bytes)
}

/// A bundle's text is read the same, however it is cut into pieces.
pub fn any_cut_of_bundles()
    ensures { AnyCutOfBundles }
{}
