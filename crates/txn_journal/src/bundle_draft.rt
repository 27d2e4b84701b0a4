//! A bundle as far as its lines have come.
ghost use Rattle.std.specs.Prelude.{◌≡◌, None, option_map};
ghost use Rattle.txn_journal.specs.Stream.{Finds};
ghost use Rattle.txn_journal.specs.Writers.{AreWriters};
ghost use Rattle.txn_journal.specs.BundleStates.{word_of, replica_in, preserve_in, channel_in, is_word_of};
ghost use Rattle.txn_journal.specs.Referred.{reference_words_shape};

use crate::assumptions::{
    Assumption, MAX_ASSUMPTIONS, assumption_in, has_channel, may_assume, may_follow,
};
use crate::bundle::BundleChannel;
use crate::draft::{Draft, version_in};
use crate::fault::{Cause, LineFault};
use crate::images::{image, table_at};
use crate::lines::{Due, Version};
use crate::names::Names;
use crate::open_bundle::OpenBundle;
use crate::parsed_lines::ParsedEntry;
use crate::references::{MAX_REFERENCES, ReferenceWords, reference_words};
use crate::tables::add_table;
use gtid_set::{GtidSet, SetFault};
use gtid_text::SourceId;
use journal::Entry;
use journal_words::{set_word, source_word};
use logical_timestamps::LastWriters;
use row_images::cut;
use rows::{Change, Limits, Name, Row, Rows, Schema};
use std::alloc::{AllocError, Global};
use std::mem;

/// The greatest number of channels.
const MAX_CHANNELS: usize = 256;

/// Where in a bundle the next line is.
#[derive(Clone, Copy, Debug, PartialEq, Eq)]
pub enum Part {
    Header,
    Replica,
    Opening,
    Tables,
    References,
    Rows,
    Channels,
    Journal,
    Assumptions,
    Ended,
}

/// The first word of a bundle's own line.
#[derive(Clone, Copy, Debug, PartialEq, Eq)]
pub enum Word {
    Bundle,
    Replica,
    Opening,
    Table,
    Reference,
    Row,
    Channel,
    Assume,
    Done,
}

fn word_at(word: &[u8]) -> Option<Word>
    ensures { result ≡ word_of word.now }
{
    if word == b"bundle".as_slice() {
        Some(Word::Bundle)
    } else if word == b"replica".as_slice() {
        Some(Word::Replica)
    } else if word == b"opening".as_slice() {
        Some(Word::Opening)
    } else if word == b"table".as_slice() {
        Some(Word::Table)
    } else if word == b"fk".as_slice() {
        Some(Word::Reference)
    } else if word == b"row".as_slice() {
        Some(Word::Row)
    } else if word == b"channel".as_slice() {
        Some(Word::Channel)
    } else if word == b"assume".as_slice() {
        Some(Word::Assume)
    } else if word == b"done".as_slice() {
        Some(Word::Done)
    } else {
        None
    }
}

impl Part {
    ghost use Rattle.txn_journal.specs.BundleStates.{is_in_part, is_due_in};

    /// Whether it has lines with this first word.
    fn has(self, word: Word) -> bool
        ensures { result ≡ is_in_part self word }
    {
        match self {
            Part::Header => matches!(word, Word::Bundle),
            Part::Replica => matches!(word, Word::Replica),
            Part::Opening => matches!(word, Word::Opening),
            Part::Tables => matches!(
                word,
                Word::Table
                    | Word::Reference
                    | Word::Row
                    | Word::Channel
                    | Word::Assume
                    | Word::Done
            ),
            Part::References => matches!(
                word,
                Word::Reference | Word::Row | Word::Channel | Word::Assume | Word::Done
            ),
            Part::Rows => matches!(word, Word::Row | Word::Channel | Word::Assume | Word::Done),
            Part::Channels => matches!(word, Word::Channel | Word::Assume | Word::Done),
            Part::Journal => false,
            Part::Assumptions => matches!(word, Word::Assume | Word::Done),
            Part::Ended => false,
        }
    }

    /// Whether a line with this first word is allowed here, in a text of this version.
    fn takes(self, version: Version, word: Word) -> bool
        ensures { result ≡ is_due_in version self word }
    {
        self.has(word) && is_word_of(version, word)
    }
}

/// Whether a version has lines with this first word.
fn is_word_of(version: Version, word: Word) -> bool
    ensures { result ≡ is_word_of version word }
{
    match word {
        Word::Reference | Word::Assume => version == Version::Three,
        _ => true,
    }
}

/// A bundle as far as its lines have come.
#[derive(Drop)]
pub struct BundleDraft {
    part: Part,
    /// The version that is due, or none if any known one is.
    due: Due,
    version: Version,
    names: Names,
    /// The tables, until the first line after them.
    schema: Schema,
    bundle: OpenBundle,
    /// The channel that is open, and its journal.
    channel: Option<BundleChannel>,
    draft: Draft,
    /// The last writers of the keys of that journal, or none: then they are made anew.
    writers: Option<LastWriters>,
    ghost written: { AreWriters bundle.start.schema draft.journal.entries writers },
}

/// The replica that a line names.
fn replica_in(alloc: Global, rest: Option<&[u8]>) -> Result<SourceId, LineFault>
    ensures { Finds (λ r. r) result (replica_in (option_map (λ r. r.now) rest.entry)) }
{
    let Some(word) = rest else {
        return Err(LineFault::Wrong(Cause::Body));
    };
    match source_word(alloc, word)? {
        Some(replica) => Ok(replica),
        None => Err(LineFault::Wrong(Cause::Body)),
    }
}

/// A channel's name, and whether it preserves order.
#[tactic(auto, unfolding(crate::specs::BundleStates::channel_in))]
fn channel_in(
    alloc: Global,
    limits: Limits,
    names: &mut Names,
    rest: Option<&[u8]>,
) -> Result<BundleChannel, LineFault>
    ensures { Finds (λ c. c) result (channel_in limits (option_map (λ r. r.now) rest.entry)) }
{
    let Some(text) = rest else {
        return Err(LineFault::Wrong(Cause::Body));
    };
    let (word, more) = cut(text);
    let Some(name) = names.read(alloc, limits, word)? else {
        return Err(LineFault::Wrong(Cause::Body));
    };
    let preserve = preserve_in(more)?;
    Ok(BundleChannel { name, preserve })
}

/// Whether order is preserved, by the word after a channel's name.
fn preserve_in(rest: Option<&[u8]>) -> Result<bool, LineFault>
    ensures { Finds (λ b. b) result (preserve_in (option_map (λ r. r.now) rest.entry)) }
{
    match rest {
        None => Ok(false),
        Some(word) => if word == b"preserve".as_slice() {
            Ok(true)
        } else {
            Err(LineFault::Wrong(Cause::Body))
        },
    }
}

/// Drops the last writers, if there are any.
fn forget(writers: &mut Option<LastWriters>)
    ensures { writers.new ≡ None }
{
    if writers.is_some() {
        *writers = None;
    }
}

impl BundleDraft {
    ghost use Rattle.std.specs.Prelude.{option_map, None, Ok, IfOk, true, false, [], ◌∷◌, ◌++◌, ◌+◌, ◌&&◌, length, codes};
    ghost use Rattle.std.specs.Str.{bytes_eq};
    ghost use Rattle.logical_timestamps.specs.Writers.{writers_after};
    ghost use Rattle.gtid_set.specs.declared.fault.SetFault.TheVariants.{SourcesFull};
    ghost use Rattle.txn_journal.specs.Machine.{is_within, IsInEntry};
    ghost use Rattle.txn_journal.specs.Drafts.{standing};
    ghost use Rattle.txn_journal.specs.Stamps.{right_stamp};
    ghost use Rattle.txn_journal.specs.Versions.{limits_of};
    ghost use Rattle.txn_journal.specs.declared.lines.LinePlace.TheVariants.{Within};
    ghost use Rattle.txn_journal.specs.declared.bundle_draft.Word.TheVariants as words;
    ghost use Rattle.txn_journal.specs.declared.bundle_draft.Part.TheVariants as parts;
    ghost use Rattle.txn_journal.specs.declared.lines.Version.TheVariants.{One};
    ghost use Rattle.txn_journal.specs.declared.lines.Due.TheVariants.{Any};
    ghost use Rattle.txn_journal.specs.Versions.{is_numbered};
    ghost use Rattle.txn_journal.specs.Stream.{TakesLine, GivesFull, IsRefusedWhereFull, TakesPlain, IsLeftWhereFull};
    ghost use Rattle.txn_journal.specs.BundleStates.{IsFullBundle, CountsFirst, no_bundle, is_done, bundle_takes_places, version_line, replica_line, opening_line, add_table_line, reference_line, put_reference, assume_line, put_assumption, row_line, put_within, put_row, after_tables, channel_line, join_channel, done_line, own_step, judge_own, after_inner, end_entry, close_channel, judge_inner, judge_bundle};
    ghost use Rattle.txn_journal.specs.BundleDrafts.{bundle_standing};
    ghost use Rattle.txn_journal.specs.ChangeLines.{change_in};
    ghost use Rattle.txn_journal.specs.BundleChanges.{with_change};
    ghost use Rattle.txn_journal.specs.TakenEntries.{TakesText};

    /// Before the first line.
    pub fn start(alloc: Global, due: Due) -> BundleDraft
        ensures { bundle_standing result ≡ no_bundle due }
    {
        BundleDraft {
            part: Part::Header,
            due,
            version: Version::One,
            names: Names::start(alloc),
            schema: Schema::empty(alloc),
            bundle: OpenBundle::open(
                alloc,
                SourceId::from_bits(0),
                GtidSet::empty(alloc),
                Rows::open(alloc, Schema::empty(alloc)),
            ),
            channel: None,
            draft: Draft::start(alloc, Due::Any),
            writers: None,
        }
    }

    /// Before the first line again, of any version.
    #[cold]
    #[inline(never)]
    pub fn start_again(&mut self, alloc: Global)
        ensures { bundle_standing self.new ≡ no_bundle Any }
    {
        *self = BundleDraft::start(alloc, Due::Any);
    }

    /// Whether the last line has come.
    pub fn is_ended(&self) -> bool
        ensures { result ≡ is_done (bundle_standing self.now).part }
    {
        self.part == Part::Ended
    }

    /// The limits of its version, as far as that has come: those of version 1 before.
    pub fn limits(&self) -> Limits
        ensures { result ≡ limits_of (bundle_standing self.now).version }
    {
        self.version.limits()
    }

    /// Whether the place of the entry that comes next may stand here.
    pub fn takes_places(&self) -> bool
        ensures { result ≡ bundle_takes_places (bundle_standing self.now) }
    {
        self.part == Part::Journal && self.draft.is_between() && self.version.has_places()
    }

    /// What the lines have made.
    pub fn into_parts(self) -> OpenBundle
        ensures { result ≡ (bundle_standing self).bundle }
    {
        self.bundle
    }

    #[tactic(auto, unfolding(crate::specs::BundleStates::own_step))]
    /// Takes a line of the bundle's own.
    fn take(&mut self, alloc: Global, word: Word, rest: Option<&[u8]>) -> Result<(), LineFault>
        ensures line { TakesLine IsFullBundle result (own_step (bundle_standing self.old) word (option_map (λ r. r.now) rest.entry)) (bundle_standing self.new) }
        ensures room { word ≡ words.Opening → IsRefusedWhereFull IsFullBundle result (own_step (bundle_standing self.old) word (option_map (λ r. r.now) rest.entry)) }
    {
        match word {
            Word::Bundle => self.read_header(rest),
            Word::Replica => self.name_replica(alloc, rest),
            Word::Opening => self.begin_with(alloc, rest),
            Word::Table => self.add_table(alloc, rest),
            Word::Reference => self.add_reference(alloc, rest),
            Word::Row => self.add_row(alloc, rest),
            Word::Channel => self.open_channel(alloc, rest),
            Word::Assume => self.assume(alloc, rest),
            Word::Done => self.end(alloc, rest),
        }
    }

    #[tactic(auto, unfolding(crate::specs::BundleStates::version_line))]
    fn read_header(&mut self, rest: Option<&[u8]>) -> Result<(), LineFault>
        ensures { TakesLine IsFullBundle result (version_line (bundle_standing self.old) (option_map (λ r. r.now) rest.entry)) (bundle_standing self.new) }
    {
        match version_in(self.due, rest) {
            Ok(version) => {
                self.version = version;
                self.part = Part::Replica;
                Ok(())
            }
            Err(fault) => Err(fault),
        }
    }

    #[tactic(auto, unfolding(crate::specs::BundleStates::replica_line))]
    fn name_replica(&mut self, alloc: Global, rest: Option<&[u8]>) -> Result<(), LineFault>
        ensures { TakesLine IsFullBundle result (replica_line (bundle_standing self.old) (option_map (λ r. r.now) rest.entry)) (bundle_standing self.new) }
    {
        match replica_in(alloc, rest) {
            Ok(replica) => {
                self.writers = None;
                let rows = Rows::open(alloc, Schema::empty(alloc));
                self.bundle = OpenBundle::open(alloc, replica, GtidSet::empty(alloc), rows);
                self.part = match self.version {
                    Version::One => Part::Tables,
                    Version::Two | Version::Three => Part::Opening,
                };
                Ok(())
            }
            Err(fault) => Err(fault),
        }
    }

    #[tactic(auto, unfolding(crate::specs::BundleStates::opening_line))]
    fn begin_with(&mut self, alloc: Global, rest: Option<&[u8]>) -> Result<(), LineFault>
        ensures line { TakesLine IsFullBundle result (opening_line (bundle_standing self.old) (option_map (λ r. r.now) rest.entry)) (bundle_standing self.new) }
        ensures room { IsRefusedWhereFull IsFullBundle result (opening_line (bundle_standing self.old) (option_map (λ r. r.now) rest.entry)) }
    {
        self.draft.keeps_limits();
        let Some(word) = rest else {
            return Err(LineFault::Wrong(Cause::Body));
        };
        let Some(opened) = set_word(alloc, word)? else {
            return Err(LineFault::Wrong(Cause::Body));
        };
        self.writers = None;
        let replica = self.bundle.replica();
        let rows = Rows::open(alloc, Schema::empty(alloc));
        self.bundle = OpenBundle::open(alloc, replica, opened, rows);
        self.part = Part::Tables;
        Ok(())
    }

    #[tactic(auto, unfolding(crate::specs::BundleStates::add_table_line))]
    fn add_table(&mut self, alloc: Global, rest: Option<&[u8]>) -> Result<(), LineFault>
        ensures { TakesLine IsFullBundle result (add_table_line (bundle_standing self.old) (option_map (λ r. r.now) rest.entry)) (bundle_standing self.new) }
    {
        let Some(text) = rest else {
            return Err(LineFault::Wrong(Cause::Body));
        };
        let limits = self.version.limits();
        add_table(alloc, limits, &mut self.names, &mut self.schema, text)
    }

    /// Opens the rows, if the tables or the references end here.
    fn leave_tables(&mut self, alloc: Global)
        ensures { bundle_standing self.new ≡ after_tables (bundle_standing self.old) }
    {
        if self.part == Part::Tables {
            let schema = mem::replace(&mut self.schema, Schema::empty(alloc));
            self.writers = None;
            self.bundle.open_rows(alloc, schema);
            self.part = Part::Rows;
        } else if self.part == Part::References {
            self.part = Part::Rows;
        }
    }

    #[tactic(auto, unfolding(crate::specs::BundleStates::reference_line))]
    fn add_reference(&mut self, alloc: Global, rest: Option<&[u8]>) -> Result<(), LineFault>
        ensures { TakesLine IsFullBundle result (reference_line (bundle_standing self.old) (option_map (λ r. r.now) rest.entry)) (bundle_standing self.new) }
    {
        let words = reference_words(alloc, self.version.limits(), &mut self.names, rest)?;
        self.leave_tables(alloc);
        self.refer(alloc, &words)
    }

    #[tactic(auto, unfolding(crate::specs::BundleStates::put_reference))]
    fn refer(&mut self, alloc: Global, words: &ReferenceWords<'_>) -> Result<(), LineFault>
        ensures { TakesLine IsFullBundle result (put_reference (bundle_standing self.old) (reference_words_shape words.now)) (bundle_standing self.new) }
    {
        if self.bundle.references().len() >= MAX_REFERENCES {
            return Err(LineFault::Wrong(Cause::Limit));
        }
        let reference = words.reference(alloc, self.bundle.schema())?;
        self.writers = None;
        self.bundle.refer(reference)?;
        self.part = Part::References;
        Ok(())
    }

    #[tactic(auto, unfolding(crate::specs::BundleStates::row_line))]
    fn add_row(&mut self, alloc: Global, rest: Option<&[u8]>) -> Result<(), LineFault>
        ensures { TakesLine IsFullBundle result (row_line (bundle_standing self.old) (option_map (λ r. r.now) rest.entry)) (bundle_standing self.new) }
    {
        let (table, text) = table_at(&mut self.names, alloc, self.version.limits(), rest)?;
        let row = image(alloc, text)?;
        self.put_within(alloc, &table, &row)
    }

    /// Puts an opening row, if it is within the limits.
    fn put_within(&mut self, alloc: Global, table: &Name, row: &Row) -> Result<(), LineFault>
        ensures { TakesLine IsFullBundle result (put_within (bundle_standing self.old) (record { table = table.now; row = row.now })) (bundle_standing self.new) }
    {
        if !journal::is_image_writable(row, self.version.limits()) {
            return Err(LineFault::Wrong(Cause::Limit));
        }
        self.leave_tables(alloc);
        self.put(alloc, table, row)
    }

    #[tactic(auto, unfolding(crate::specs::BundleStates::put_row))]
    fn put(&mut self, alloc: Global, table: &Name, row: &Row) -> Result<(), LineFault>
        ensures { TakesLine IsFullBundle result (put_row (bundle_standing self.old) (record { table = table.now; row = row.now })) (bundle_standing self.new) }
    {
        self.writers = None;
        self.bundle.put(alloc, table, row)
    }

    #[tactic(auto, unfolding(crate::specs::BundleStates::channel_line))]
    fn open_channel(&mut self, alloc: Global, rest: Option<&[u8]>) -> Result<(), LineFault>
        ensures { TakesLine IsFullBundle result (channel_line (bundle_standing self.old) (option_map (λ r. r.now) rest.entry)) (bundle_standing self.new) }
    {
        let channel = channel_in(alloc, self.version.limits(), &mut self.names, rest)?;
        self.join(alloc, channel)
    }

    #[tactic(auto, unfolding(crate::specs::BundleStates::join_channel))]
    fn join(&mut self, alloc: Global, channel: BundleChannel) -> Result<(), LineFault>
        ensures { TakesLine IsFullBundle result (join_channel (bundle_standing self.old) channel) (bundle_standing self.new) }
    {
        if self.bundle.channels().len() >= MAX_CHANNELS {
            return Err(LineFault::Wrong(Cause::Limit));
        }
        if has_channel(self.bundle.channels(), &channel.name) {
            return Err(LineFault::Wrong(Cause::Schema));
        }
        self.leave_tables(alloc);
        self.channel = Some(channel);
        self.writers = None;
        self.draft = Draft::start(alloc, Due::Only(self.version));
        self.part = Part::Journal;
        Ok(())
    }

    #[tactic(auto, unfolding(crate::specs::BundleStates::assume_line))]
    fn assume(&mut self, alloc: Global, rest: Option<&[u8]>) -> Result<(), LineFault>
        ensures { TakesLine IsFullBundle result (assume_line (bundle_standing self.old) (option_map (λ r. r.now) rest.entry)) (bundle_standing self.new) }
    {
        let assumption = assumption_in(alloc, self.version.limits(), &mut self.names, rest)?;
        self.leave_tables(alloc);
        if !may_follow(self.bundle.assumptions(), &assumption) {
            return Err(LineFault::Wrong(Cause::Body));
        }
        self.add_assumption(alloc, assumption)
    }

    #[tactic(auto, unfolding(crate::specs::BundleStates::put_assumption))]
    fn add_assumption(&mut self, alloc: Global, assumption: Assumption) -> Result<(), LineFault>
        ensures { TakesLine IsFullBundle result (put_assumption (bundle_standing self.old) assumption) (bundle_standing self.new) }
    {
        if self.bundle.assumptions().len() >= MAX_ASSUMPTIONS {
            return Err(LineFault::Wrong(Cause::Limit));
        }
        if !may_assume(
            alloc,
            self.bundle.opening_set(),
            self.bundle.rows(),
            self.bundle.channels(),
            self.bundle.journals(),
            &assumption,
        )? {
            return Err(LineFault::Wrong(Cause::Schema));
        }
        self.writers = None;
        self.bundle.assume(assumption)?;
        self.part = Part::Assumptions;
        Ok(())
    }

    #[tactic(auto, unfolding(crate::specs::BundleStates::done_line))]
    fn end(&mut self, alloc: Global, rest: Option<&[u8]>) -> Result<(), LineFault>
        ensures { TakesLine IsFullBundle result (done_line (bundle_standing self.old) (option_map (λ r. r.now) rest.entry)) (bundle_standing self.new) }
    {
        if rest.is_some() {
            return Err(LineFault::Wrong(Cause::Body));
        }
        self.leave_tables(alloc);
        self.part = Part::Ended;
        Ok(())
    }

    /// The last writers of the keys of the open journal. They are no longer in the draft.
    #[inline(never)]
    fn take_writers(&mut self, alloc: Global) -> Result<LastWriters, AllocError>
        ensures writers { IfOk result (λ w. w ≡ writers_after self.old.bundle.start.schema self.old.draft.journal.entries) }
        ensures left { bundle_standing self.new ≡ bundle_standing self.old }
    {
        match self.writers.take() {
            Some(writers) => Ok(writers),
            None => LastWriters::after(alloc, self.bundle.schema(), self.draft.entries()),
        }
    }

    /// The last_committed of an entry after the others by the last writers of its keys, and the last writers with it.
    #[inline(never)]
    fn next_written(
        &mut self,
        alloc: Global,
        entry: &Entry,
    ) -> Result<(u64, Option<LastWriters>), AllocError>
        requires { is_numbered self.old.version ≡ true }
        ensures stamp { IfOk result (λ r. r.0 ≡ right_stamp self.old.version self.old.bundle.start.schema self.old.draft.journal.entries entry.now) }
        ensures writers { IfOk result (λ r. AreWriters self.old.bundle.start.schema (self.old.draft.journal.entries ++ entry.now ∷ []) r.1) }
        ensures left { bundle_standing self.new ≡ bundle_standing self.old }
    {
        let mut writers = self.take_writers(alloc)?;
        let number = self.draft.entries().len() as u64 + 1;
        let stamp = writers.next(alloc, self.bundle.schema(), number, entry)?;
        Ok((stamp, Some(writers)))
    }

    #[tactic(auto, using(crate::proofs::CountedEnds::first_full, crate::proofs::CountedEnds::first_fits))]
    /// Whether the end of the entry that is open is refused for too many sources, as far as that is known without an allocation: in version
    /// 1, which writes no numbers.
    fn is_refused(&self) -> bool
        ensures full { result ≡ true → GivesFull (IsFullBundle SourcesFull) (end_entry (bundle_standing self.now)) }
        ensures room { result ≡ false → self.now.version ≡ One → GivesFull (IsFullBundle SourcesFull) (end_entry (bundle_standing self.now)) → ⊥ }
    {
        self.bundle.opening_set().keeps_limits();
        match self.version {
            Version::One => self.draft.stamp() == 0 && !self.draft.has_room(),
            Version::Two | Version::Three => false,
        }
    }

    /// Ends the entry that is open. In version 1 the sources are counted before any allocation.
    fn end_counted(&mut self, alloc: Global) -> Result<(), LineFault>
        requires { (standing self.old.draft).place ≡ Within }
        ensures line { TakesLine IsFullBundle result (end_entry (bundle_standing self.old)) (bundle_standing self.new) }
        ensures room { self.old.version ≡ One → IsRefusedWhereFull IsFullBundle result (end_entry (bundle_standing self.old)) }
    {
        if self.is_refused() {
            return Err(LineFault::Set(SetFault::SourcesFull));
        }
        self.end_entry(alloc)
    }

    /// Ends the entry that is open, if it has the last_committed that it has to have.
    fn end_entry(&mut self, alloc: Global) -> Result<(), LineFault>
        requires { (standing self.old.draft).place ≡ Within }
        ensures { TakesLine IsFullBundle result (end_entry (bundle_standing self.old)) (bundle_standing self.new) }
    {
        match self.version {
            Version::One => self.end_unnumbered(alloc),
            Version::Two | Version::Three => self.end_numbered(alloc),
        }
    }

    /// The same in version 1, which writes no numbers. No last writers are looked up.
    #[inline(never)]
    fn end_unnumbered(&mut self, alloc: Global) -> Result<(), LineFault>
        requires place { (standing self.old.draft).place ≡ Within }
        requires version { self.old.version ≡ One }
        ensures { TakesLine IsFullBundle result (end_entry (bundle_standing self.old)) (bundle_standing self.new) }
    {
        let entry = self.draft.take_entry(alloc)?;
        forget(&mut self.writers);
        if self.draft.stamp() != 0 {
            return Err(LineFault::Wrong(Cause::Stamp));
        }
        self.draft.join(entry)?;
        Ok(())
    }

    /// The same in a version that writes numbers.
    #[inline(never)]
    fn end_numbered(&mut self, alloc: Global) -> Result<(), LineFault>
        requires place { (standing self.old.draft).place ≡ Within }
        requires version { is_numbered self.old.version ≡ true }
        ensures { TakesLine IsFullBundle result (end_entry (bundle_standing self.old)) (bundle_standing self.new) }
    {
        let entry = self.draft.take_entry(alloc)?;
        let (stamp, writers) = self.next_written(alloc, &entry)?;
        self.writers = None;
        if self.draft.stamp() != stamp {
            return Err(LineFault::Wrong(Cause::Stamp));
        }
        self.draft.join(entry)?;
        self.writers = writers;
        Ok(())
    }

    #[tactic(auto, unfolding(crate::specs::BundleStates::judge_inner))]
    /// Takes a line of the open channel's journal.
    fn take_inside(&mut self, alloc: Global, line: &[u8]) -> Result<(), LineFault>
        ensures line { TakesLine IsFullBundle result (judge_inner true (bundle_standing self.old) line.now) (bundle_standing self.new) }
        ensures room { (IsInEntry (standing self.old.draft) → self.old.version ≡ One) → IsRefusedWhereFull IsFullBundle result (judge_inner true (bundle_standing self.old) line.now) }
    {
        if self.draft.ends_entry(line) {
            return self.end_counted(alloc);
        }
        self.take_within(alloc, line)
    }

    #[tactic(auto, unfolding(crate::specs::BundleStates::judge_inner))]
    /// Takes a line of the open channel's journal that ends no entry.
    fn take_within(&mut self, alloc: Global, line: &[u8]) -> Result<(), LineFault>
        requires { (is_within (standing self.old.draft).place && bytes_eq line.now (codes "end")) ≡ false }
        ensures line { TakesLine IsFullBundle result (judge_inner true (bundle_standing self.old) line.now) (bundle_standing self.new) }
        ensures room { IsRefusedWhereFull IsFullBundle result (judge_inner true (bundle_standing self.old) line.now) }
    {
        if !self.draft.has_begun() {
            self.writers = None;
        }
        self.bundle.opening_set().keeps_limits();
        let schema = Some(self.bundle.schema());
        match self.draft.take_line(alloc, schema, &mut self.names, line) {
            Ok(()) => self.add_open_channel(alloc),
            Err(fault) => {
                self.writers = None;
                Err(fault)
            }
        }
    }

    /// Adds the open channel to the bundle, if its journal has ended.
    #[tactic(auto, unfolding(crate::specs::BundleStates::after_inner))]
    fn add_open_channel(&mut self, alloc: Global) -> Result<(), LineFault>
        ensures { TakesLine IsFullBundle result (Ok (after_inner (bundle_standing self.old) (bundle_standing self.old).draft)) (bundle_standing self.new) }
    {
        if !self.draft.is_ended() {
            return Ok(());
        }
        self.close_channel(alloc)
    }

    /// Adds the open channel to the bundle, whose journal has ended.
    #[cold]
    #[inline(never)]
    fn close_channel(&mut self, alloc: Global) -> Result<(), LineFault>
        ensures { TakesLine IsFullBundle result (Ok (close_channel (bundle_standing self.old) (bundle_standing self.old).draft)) (bundle_standing self.new) }
    {
        self.writers = None;
        let draft = mem::replace(
            &mut self.draft,
            Draft::start(alloc, Due::Only(self.version)),
        );
        let channel = self.channel.take();
        self.part = Part::Channels;
        if let Some(channel) = channel {
            self.bundle.add(channel, draft.into_journal())?;
        }
        Ok(())
    }

    #[tactic(auto, unfolding(crate::specs::BundleStates::judge_own))]
    #[inline(never)]
    fn take_own(&mut self, alloc: Global, line: &[u8]) -> Result<(), LineFault>
        ensures line { TakesLine IsFullBundle result (judge_own (bundle_standing self.old) line.now) (bundle_standing self.new) }
        ensures room { self.old.part ≡ parts.Opening → IsRefusedWhereFull IsFullBundle result (judge_own (bundle_standing self.old) line.now) }
    {
        let (word, rest) = cut(line);
        match word_at(word) {
            Some(word) if self.part.takes(self.version, word) => self.take(alloc, word, rest),
            _ => Err(LineFault::Wrong(Cause::Keyword)),
        }
    }

    #[tactic(auto, unfolding(crate::specs::BundleStates::judge_bundle))]
    /// Takes the next line, or returns its first fault.
    pub fn take_line(&mut self, alloc: Global, line: &[u8]) -> Result<(), LineFault>
        ensures line { TakesLine IsFullBundle result (judge_bundle (bundle_standing self.old) line.now) (bundle_standing self.new) }
        ensures room { CountsFirst (bundle_standing self.old) → IsRefusedWhereFull IsFullBundle result (judge_bundle (bundle_standing self.old) line.now) }
    {
        if self.part == Part::Journal {
            return self.take_inside(alloc, line);
        }
        self.take_own(alloc, line)
    }

    #[tactic(auto, using(crate::proofs::CountedEnds::first_fits))]
    /// Whether the entry that is open is of version 1, which writes no numbers, and its source is not one too many.
    fn ends_plainly(&self) -> bool
        ensures first { result ≡ true → self.now.version ≡ One }
        ensures stamp { result ≡ true → (standing self.now.draft).stamp ≡ 0 }
        ensures room { result ≡ true → GivesFull (IsFullBundle SourcesFull) (end_entry (bundle_standing self.now)) → ⊥ }
    {
        self.bundle.opening_set().keeps_limits();
        match self.version {
            Version::One => self.draft.stamp() == 0 && self.draft.has_room(),
            Version::Two | Version::Three => false,
        }
    }

    /// Ends the entry that is open, if its version writes no numbers and there is room. If false, nothing has changed.
    fn end_plain(&mut self, alloc: Global) -> Result<bool, AllocError>
        requires { (standing self.old.draft).place ≡ Within }
        ensures line { TakesPlain result (end_entry (bundle_standing self.old)) (bundle_standing self.old) (bundle_standing self.new) }
        ensures room { self.old.version ≡ One → IsLeftWhereFull IsFullBundle result (end_entry (bundle_standing self.old)) }
    {
        if !self.ends_plainly() {
            return Ok(false);
        }
        forget(&mut self.writers);
        self.draft.end_plain(alloc)
    }

    /// Takes a line of the open channel's journal that begins an entry or writes a change, and has no fault. If false, nothing has changed.
    fn go_on_plain(&mut self, alloc: Global, line: &[u8]) -> bool
        requires { (is_within (standing self.old.draft).place && bytes_eq line.now (codes "end")) ≡ false }
        ensures made { result ≡ true → judge_inner true (bundle_standing self.old) line.now ≡ Ok (bundle_standing self.new) }
        ensures left { result ≡ false → bundle_standing self.new ≡ bundle_standing self.old }
        ensures room { GivesFull (IsFullBundle SourcesFull) (judge_inner true (bundle_standing self.old) line.now) → result ≡ false }
    {
        if !self.draft.has_begun() {
            return false;
        }
        self.bundle.opening_set().keeps_limits();
        let schema = self.bundle.schema();
        self.draft.take_plain(alloc, schema, &mut self.names, line)
    }

    /// Takes a plain line of the open channel's journal. If false, nothing has changed.
    fn take_plain_inside(&mut self, alloc: Global, line: &[u8]) -> Result<bool, AllocError>
        ensures line { TakesPlain result (judge_inner true (bundle_standing self.old) line.now) (bundle_standing self.old) (bundle_standing self.new) }
        ensures room { (IsInEntry (standing self.old.draft) → self.old.version ≡ One) → IsLeftWhereFull IsFullBundle result (judge_inner true (bundle_standing self.old) line.now) }
    {
        if self.draft.ends_entry(line) {
            return self.end_plain(alloc);
        }
        Ok(self.go_on_plain(alloc, line))
    }

    #[tactic(auto, unfolding(crate::specs::BundleStates::judge_bundle))]
    /// Takes the next line if it is a plain one: it begins an entry, writes a change or ends an entry of version 1, and has no fault. If
    /// false, nothing has changed.
    pub fn take_plain(&mut self, alloc: Global, line: &[u8]) -> Result<bool, AllocError>
        ensures line { TakesPlain result (judge_bundle (bundle_standing self.old) line.now) (bundle_standing self.old) (bundle_standing self.new) }
        ensures room { CountsFirst (bundle_standing self.old) → IsLeftWhereFull IsFullBundle result (judge_bundle (bundle_standing self.old) line.now) }
    {
        if self.part != Part::Journal {
            return Ok(false);
        }
        self.take_plain_inside(alloc, line)
    }

    /// Adds a change to the entry that is open.
    fn add_change(&mut self, change: Change) -> Result<(), LineFault>
        requires { is_within (standing self.old.draft).place ≡ true }
        ensures { TakesLine IsFullBundle result (with_change (bundle_standing self.old) change) (bundle_standing self.new) }
    {
        self.draft.add(Some(self.bundle.schema()), change)
    }

    /// Takes the next line, which writes this change in a text with these limits, or returns its first fault.
    pub fn take_change(
        &mut self,
        alloc: Global,
        limits: Limits,
        line: &[u8],
        change: Change,
    ) -> Result<(), LineFault>
        requires { change_in limits line.now ≡ Ok change }
        ensures { TakesLine IsFullBundle result (judge_bundle (bundle_standing self.old) line.now) (bundle_standing self.new) }
    {
        if self.part == Part::Journal && self.draft.is_within() && self.draft.limits() == limits {
            return self.add_change(change);
        }
        self.take_line(alloc, line)
    }

    /// Takes the lines of a whole entry of the open channel's journal, if nothing is wrong with them. If false, nothing has changed.
    pub fn take_entry(&mut self, entry: ParsedEntry<'_>) -> Result<bool, AllocError>
        ensures { TakesText judge_bundle result entry.entry.text (length entry.entry.changes + 2) (bundle_standing self.old) (bundle_standing self.new) }
    {
        if self.part != Part::Journal || self.version != Version::One {
            return Ok(false);
        }
        forget(&mut self.writers);
        let (gtid, changes) = entry.into_parts();
        self.draft.join_whole(self.bundle.schema(), gtid, changes)
    }
}
