//! A journal as far as its lines have come.
ghost use Rattle.std.specs.Prelude.{◌≡◌, ◌≤◌, [], true, option_map, Some, IfOk};
ghost use Rattle.std.specs.List.{list_all};
ghost use Rattle.txn_journal.specs.Stream.{Finds};
ghost use Rattle.txn_journal.specs.Lines.{version_named, version_in};
ghost use Rattle.txn_journal.specs.Machine.{is_row_of, are_rows_of, fits};
ghost use Rattle.journal.specs.Writing.{is_number};
ghost use Rattle.txn_journal.specs.Kept.{IsSeen, IsOpenNew, AreWritable};
ghost use Rattle.txn_journal.specs.Due.{is_due};
ghost use Rattle.txn_journal.specs.declared.lines.LinePlace.TheVariants.{Between, Within};
ghost use Rattle.txn_journal.specs.declared.lines.Keyword.TheVariants.{Ins, Upd, Del};
ghost use Rattle.txn_journal.specs.declared.fault.Cause.{Cause};
ghost use Rattle.txn_journal.specs.Versions.{limits_of};
ghost use Rattle.rows.specs.declared.limits.Limits.TheVariants.{Narrow};

use crate::fault::{Cause, LineFault};
use crate::images::{find_image, find_images, find_table, image, table_at, two_images};
use crate::lines::{Due, Keyword, LinePlace, Version, keyword_at};
use crate::names::Names;
use crate::numbers::{NearSources, beginning_at};
use crate::timestamped_journal::TimestampedJournal;
use gtid_set::{GtidSet, SetFault};
use gtid_text::{Gtid, SourceId};
use journal::{Entry, Journal, is_change_writable, is_number};
use journal_words::set_word;
use row_images::{cut, is_count};
use rows::{Change, Changes, Limits, Name, Row, Schema, Table, Transaction, has_null_at};
use std::alloc::{AllocError, Global};
use std::mem;

/// The greatest number of entries of a journal's text. Our own limit.
pub const MAX_ENTRIES: u64 = 4_294_967_294;

/// A journal as far as its lines have come.
#[derive(Drop)]
pub struct Draft {
    place: LinePlace,
    /// The version that is due, or none if any known one is.
    due: Due,
    version: Version,
    journal: Journal,
    /// The last_committed of each entry of the journal; 0 in version 1, which writes none.
    stamps: Vec<u64>,
    /// The previous set with the GTIDs of all entries, including those that were taken.
    seen: GtidSet,
    /// How many entries have come, including those that were taken.
    count: u64,
    /// The sources of the last GTIDs.
    near: NearSources,
    /// The entry that is open.
    gtid: Gtid,
    stamp: u64,
    changes: Vec<Change>,
    ghost seen_all: { IsSeen journal seen },
    ghost open_new: { IsOpenNew place seen count gtid },
    ghost writable: { AreWritable (limits_of version) changes.items },
    ghost few: { count ≤ 4294967294 },
}

/// The version that a word names.
fn version_named(word: &[u8]) -> Option<Version>
    ensures { result ≡ version_named word.now }
{
    match word {
        b"1" => Some(Version::One),
        b"2" => Some(Version::Two),
        b"3" => Some(Version::Three),
        _ => None,
    }
}

/// The version that a header names, if it is known.
pub fn version_in(due: Due, rest: Option<&[u8]>) -> Result<Version, LineFault>
    ensures { Finds (λ v. v) result (version_in due (option_map (λ r. r.now) rest.entry)) }
{
    let Some(word) = rest else {
        return Err(LineFault::Wrong(Cause::Body));
    };
    if !is_count(word) {
        return Err(LineFault::Wrong(Cause::Body));
    }
    match version_named(word) {
        Some(version) if due.takes(version) => Ok(version),
        _ => Err(LineFault::Wrong(Cause::Version)),
    }
}

/// Whether a row has the columns of its table, and no null in its primary key.
#[inline(always)]
fn is_row_of(table: &Table, row: &Row) -> bool
    ensures { result ≡ is_row_of table.now row.now }
{
    row.len() == table.columns as usize && !has_null_at(table.primary.as_slice(), row)
}

#[inline(always)]
fn are_rows_of(table: &Table, change: &Change) -> bool
    ensures { result ≡ are_rows_of table.now change.now }
{
    match change {
        Change::Insert { table: _, after } => is_row_of(table, after),
        Change::Delete { table: _, before } => is_row_of(table, before),
        Change::Update {
            table: _,
            before,
            after,
        } => is_row_of(table, before) && is_row_of(table, after),
    }
}

/// Whether the schema, if there is one, takes the images of a change.
#[inline(always)]
fn fits(schema: Option<&Schema>, change: &Change) -> bool
    ensures { result ≡ fits (option_map (λ tables. tables.now) schema.entry) change.now }
{
    match schema {
        None => true,
        Some(schema) => match schema.find(change.table()) {
            Some(table) => are_rows_of(table, change),
            None => false,
        },
    }
}

/// Whether the schema takes the images of all of these changes.
fn fit_all(schema: &Schema, changes: &[Change]) -> bool
    ensures { result ≡ list_all (fits (Some schema.now)) changes.now }
{
    changes.iter().all(|change| fits(Some(schema), change))
}

/// The most changes for which room is made before they come.
const MOST_ROOM: usize = 64;

/// Takes all changes out of the list. If it was one, its room stays for those that come next; if there were more, those that come next have
/// room for as many.
pub fn take_changes(alloc: Global, changes: &mut Vec<Change>) -> Result<Changes, AllocError>
    ensures changes { IfOk result (λ it. it ≡ changes.old.items) }
    ensures left { changes.new.items ≡ [] }
{
    if changes.len() == 1 {
        if let Some(change) = changes.pop() {
            return Changes::single(alloc, change);
        }
    }
    let room = changes.len().min(MOST_ROOM);
    let taken = mem::replace(changes, Vec::new(alloc));
    // (a guess, for which there may be no memory)
    let _ = changes.reserve(room);
    Changes::new(taken)
}

impl Draft {
    ghost use Rattle.std.specs.Prelude.{Ok, false, ◌&&◌, codes};
    ghost use Rattle.std.specs.Str.{bytes_eq};
    ghost use Rattle.journal.specs.Writing.{is_writable};
    ghost use Rattle.txn_journal.specs.Reading.{has_begun};
    ghost use Rattle.std.specs.FinSet as set;
    ghost use Rattle.gtid_set.specs.Sets.{source_count, most_sources};
    ghost use Rattle.gtid_set.specs.Full.{HasManySources};
    ghost use Rattle.gtid_set.specs.declared.fault.SetFault.TheVariants.{SourcesFull};
    ghost use Rattle.txn_journal.specs.Stream.{TakesLine, IsRefusedWhereFull, TakesPlain};
    ghost use Rattle.txn_journal.specs.Machine.{Standing, IsFull, TakesIn, judge, empty, is_last, is_between, takes_places, is_within, open_entry, join_entry, close_entry, drop_entries, add, header_line, previous_line, txn_line, end_line, close_line, step};
    ghost use Rattle.txn_journal.specs.Drafts.{standing};
    ghost use Rattle.txn_journal.specs.TakenEntries.{MayFollow, JoinsEntry};
    ghost use Rattle.txn_journal.specs.Timestamped.{timestamped_of};

    /// Before the first line.
    pub fn start(alloc: Global, due: Due) -> Draft
        ensures { standing result ≡ empty due }
    {
        Draft {
            place: LinePlace::Header,
            due,
            version: Version::One,
            journal: Journal::start(alloc, GtidSet::empty(alloc)),
            stamps: Vec::new(alloc),
            seen: GtidSet::empty(alloc),
            count: 0,
            near: NearSources::start(alloc),
            gtid: Gtid {
                source: SourceId::from_bits(0),
                number: 0,
            },
            stamp: 0,
            changes: Vec::new(alloc),
        }
    }

    /// Whether the last line has come.
    pub fn is_ended(&self) -> bool
        ensures { result ≡ is_last (standing self.now).place }
    {
        self.place == LinePlace::Ended
    }

    /// Whether the next line is between entries.
    pub fn is_between(&self) -> bool
        ensures { result ≡ is_between (standing self.now).place }
    {
        self.place.is_between()
    }

    /// Whether the place of the entry that comes next may stand here.
    pub fn takes_places(&self) -> bool
        ensures { result ≡ takes_places (standing self.now) }
    {
        self.place.is_between() && self.version.has_places()
    }

    /// The entries that were not taken yet.
    pub fn take_entries(&mut self, alloc: Global) -> Vec<Entry>
        ensures taken { result.items ≡ (standing self.old).journal.entries }
        ensures left { standing self.new ≡ drop_entries (standing self.old) }
    {
        self.stamps = Vec::new(alloc);
        self.journal.take_entries(alloc)
    }

    /// The journal, with the entries that were not taken.
    pub fn into_journal(self) -> Journal
        ensures { result ≡ (standing self).journal }
    {
        self.journal
    }

    /// The journal, with the last_committed of each of the entries that were not taken.
    pub fn into_timestamped(self) -> TimestampedJournal
        ensures { result ≡ timestamped_of (standing self) }
    {
        TimestampedJournal::new(self.journal, self.stamps)
    }

    #[tactic(auto, unfolding(crate::specs::Machine::judge))]
    /// Takes the next line, or returns its first fault.
    #[inline(never)]
    pub fn take_line(
        &mut self,
        alloc: Global,
        schema: Option<&Schema>,
        names: &mut Names,
        line: &[u8],
    ) -> Result<(), LineFault>
        ensures line { TakesIn (option_map (λ tables. tables.now) schema.entry) (standing self.old) line.now result (standing self.new) }
        ensures room { IsRefusedWhereFull IsFull result (judge (option_map (λ tables. tables.now) schema.entry) (standing self.old) line.now) }
    {
        // (nearly all lines begin with one of these words)
        let (keyword, rest) = match line {
            [b't', b'x', b'n', b' ', rest @ ..] => (Some(Keyword::Txn), Some(rest)),
            [b'i', b'n', b's', b' ', rest @ ..] => (Some(Keyword::Ins), Some(rest)),
            [b'u', b'p', b'd', b' ', rest @ ..] => (Some(Keyword::Upd), Some(rest)),
            [b'd', b'e', b'l', b' ', rest @ ..] => (Some(Keyword::Del), Some(rest)),
            _ => {
                let (word, rest) = cut(line);
                (keyword_at(word), rest)
            }
        };
        match keyword {
            Some(keyword) if self.place.takes(keyword) => {
                self.take(alloc, schema, names, keyword, rest)
            }
            _ => Err(LineFault::Wrong(Cause::Keyword)),
        }
    }

    #[tactic(auto, unfolding(crate::specs::Machine::step), using(crate::proofs::FullSets::not_full))]
    /// Takes the line of a keyword that is due.
    fn take(
        &mut self,
        alloc: Global,
        schema: Option<&Schema>,
        names: &mut Names,
        keyword: Keyword,
        rest: Option<&[u8]>,
    ) -> Result<(), LineFault>
        requires { is_due self.old.place keyword ≡ true }
        ensures line { TakesLine IsFull result (step (option_map (λ tables. tables.now) schema.entry) (standing self.old) keyword (option_map (λ r. r.now) rest.entry)) (standing self.new) }
        ensures room { IsRefusedWhereFull IsFull result (step (option_map (λ tables. tables.now) schema.entry) (standing self.old) keyword (option_map (λ r. r.now) rest.entry)) }
    {
        match keyword {
            Keyword::Journal => self.open(alloc, rest),
            Keyword::Previous => self.follow(alloc, rest),
            Keyword::Txn => self.begin(alloc, rest),
            Keyword::Ins => self.insert(alloc, schema, names, rest),
            Keyword::Del => self.delete(alloc, schema, names, rest),
            Keyword::Upd => self.update(alloc, schema, names, rest),
            Keyword::End => self.end(alloc, rest),
            Keyword::Close => self.close(rest),
        }
    }

    #[tactic(auto, unfolding(crate::specs::Machine::step))]
    /// Takes the line of a new row. (Out of `take`, whose other lines need none of its locals.)
    #[inline(never)]
    fn insert(
        &mut self,
        alloc: Global,
        schema: Option<&Schema>,
        names: &mut Names,
        rest: Option<&[u8]>,
    ) -> Result<(), LineFault>
        requires { is_due self.old.place Ins ≡ true }
        ensures { TakesLine IsFull result (step (option_map (λ tables. tables.now) schema.entry) (standing self.old) Ins (option_map (λ r. r.now) rest.entry)) (standing self.new) }
    {
        let (table, text) = table_at(names, alloc, self.version.limits(), rest)?;
        let after = image(alloc, text)?;
        self.add(schema, Change::Insert { table, after })
    }

    #[tactic(auto, unfolding(crate::specs::Machine::step))]
    /// Takes the line of a row that is taken away.
    #[inline(never)]
    fn delete(
        &mut self,
        alloc: Global,
        schema: Option<&Schema>,
        names: &mut Names,
        rest: Option<&[u8]>,
    ) -> Result<(), LineFault>
        requires { is_due self.old.place Del ≡ true }
        ensures { TakesLine IsFull result (step (option_map (λ tables. tables.now) schema.entry) (standing self.old) Del (option_map (λ r. r.now) rest.entry)) (standing self.new) }
    {
        let (table, text) = table_at(names, alloc, self.version.limits(), rest)?;
        let before = image(alloc, text)?;
        self.add(schema, Change::Delete { table, before })
    }

    #[tactic(auto, unfolding(crate::specs::Machine::step))]
    /// Takes the line of a row in the place of another.
    #[inline(never)]
    fn update(
        &mut self,
        alloc: Global,
        schema: Option<&Schema>,
        names: &mut Names,
        rest: Option<&[u8]>,
    ) -> Result<(), LineFault>
        requires { is_due self.old.place Upd ≡ true }
        ensures { TakesLine IsFull result (step (option_map (λ tables. tables.now) schema.entry) (standing self.old) Upd (option_map (λ r. r.now) rest.entry)) (standing self.new) }
    {
        let (table, text) = table_at(names, alloc, self.version.limits(), rest)?;
        let (before, after) = two_images(alloc, text)?;
        self.add(
            schema,
            Change::Update {
                table,
                before,
                after,
            },
        )
    }

    #[tactic(auto, unfolding(crate::specs::Machine::header_line))]
    #[inline(never)]
    fn open(&mut self, alloc: Global, rest: Option<&[u8]>) -> Result<(), LineFault>
        ensures { TakesLine IsFull result (header_line (standing self.old) (option_map (λ r. r.now) rest.entry)) (standing self.new) }
    {
        match version_in(self.due, rest) {
            Ok(version) => {
                self.changes = Vec::new(alloc);
                self.version = version;
                self.place = LinePlace::Previous;
                Ok(())
            }
            Err(fault) => Err(fault),
        }
    }

    #[tactic(auto, unfolding(crate::specs::Machine::previous_line))]
    #[inline(never)]
    fn follow(&mut self, alloc: Global, rest: Option<&[u8]>) -> Result<(), LineFault>
        ensures line { TakesLine IsFull result (previous_line (standing self.old) (option_map (λ r. r.now) rest.entry)) (standing self.new) }
        ensures room { IsRefusedWhereFull IsFull result (previous_line (standing self.old) (option_map (λ r. r.now) rest.entry)) }
    {
        let Some(word) = rest else {
            return Err(LineFault::Wrong(Cause::Body));
        };
        let Some(previous) = set_word(alloc, word)? else {
            return Err(LineFault::Wrong(Cause::Body));
        };
        self.seen = previous.copy(alloc)?;
        self.journal = Journal::start(alloc, previous);
        self.place = LinePlace::Between;
        Ok(())
    }

    #[tactic(auto, unfolding(crate::specs::Machine::txn_line, crate::specs::Machine::begin))]
    #[inline(never)]
    fn begin(&mut self, alloc: Global, rest: Option<&[u8]>) -> Result<(), LineFault>
        ensures { TakesLine IsFull result (txn_line (standing self.old) (option_map (λ r. r.now) rest.entry)) (standing self.new) }
    {
        let place = self.count + 1;
        let beginning = beginning_at(alloc, &mut self.near, self.version, place, rest)?;
        let gtid = beginning.gtid;
        if !is_number(gtid.number) {
            return Err(LineFault::Wrong(Cause::Body));
        }
        if self.count >= MAX_ENTRIES {
            return Err(LineFault::Wrong(Cause::Limit));
        }
        let Some(stamp) = beginning.stamp else {
            return Err(LineFault::Wrong(Cause::Stamp));
        };
        if self.seen.contains(&gtid) {
            return Err(LineFault::Wrong(Cause::Twice(gtid)));
        }
        self.gtid = gtid;
        self.stamp = stamp;
        self.place = LinePlace::Within;
        Ok(())
    }

    #[tactic(auto, unfolding(crate::specs::Machine::add))]
    /// Adds a change to the entry that is open.
    pub fn add(&mut self, schema: Option<&Schema>, change: Change) -> Result<(), LineFault>
        ensures line { TakesLine IsFull result (add (option_map (λ tables. tables.now) schema.entry) (standing self.old) change) (standing self.new) }
        ensures journal { (standing self.new).journal ≡ (standing self.old).journal }
    {
        let limits = self.version.limits();
        if self.changes.len() >= limits.changes() || !is_change_writable(&change, limits) {
            return Err(LineFault::Wrong(Cause::Limit));
        }
        if !fits(schema, &change) {
            return Err(LineFault::Wrong(Cause::Schema));
        }
        self.changes.push(change)?;
        Ok(())
    }

    #[tactic(auto, unfolding(crate::specs::Machine::end_line))]
    #[inline(never)]
    fn end(&mut self, alloc: Global, rest: Option<&[u8]>) -> Result<(), LineFault>
        requires { self.old.place ≡ Within }
        ensures line { TakesLine IsFull result (end_line (standing self.old) (option_map (λ r. r.now) rest.entry)) (standing self.new) }
        ensures room { IsRefusedWhereFull IsFull result (end_line (standing self.old) (option_map (λ r. r.now) rest.entry)) }
    {
        if rest.is_some() {
            return Err(LineFault::Wrong(Cause::Body));
        }
        if !self.has_room() {
            return Err(LineFault::Set(SetFault::SourcesFull));
        }
        let entry = self.take_entry(alloc)?;
        self.join(entry)
    }

    /// Whether the line ends the entry that is open.
    pub fn ends_entry(&self, line: &[u8]) -> bool
        ensures { result ≡ (is_within (standing self.now).place && bytes_eq line.now (codes "end")) }
    {
        self.place == LinePlace::Within && line == b"end".as_slice()
    }

    /// The limits of the journal's version.
    pub fn limits(&self) -> Limits
        ensures { result ≡ limits_of (standing self.now).version }
    {
        self.version.limits()
    }

    /// Whether an entry is open.
    pub fn is_within(&self) -> bool
        ensures { result ≡ is_within (standing self.now).place }
    {
        self.place == LinePlace::Within
    }

    /// Whether the lines before the first entry have come.
    pub fn has_begun(&self) -> bool
        ensures { result ≡ has_begun (standing self.now).place }
    {
        match self.place {
            LinePlace::Header | LinePlace::Previous => false,
            LinePlace::Between | LinePlace::Within | LinePlace::Ended => true,
        }
    }

    /// The whole entries that were not taken.
    pub fn entries(&self) -> &[Entry]
        ensures { result.now ≡ (standing self.now).journal.entries }
    {
        self.journal.entries()
    }

    /// The last_committed of the entry that is open.
    pub fn stamp(&self) -> u64
        ensures { result ≡ (standing self.now).stamp }
    {
        self.stamp
    }

    /// The changes of the entry that is open. They are no longer in the draft.
    fn take_changes(&mut self, alloc: Global) -> Result<Changes, AllocError>
        ensures changes { IfOk result (λ changes. changes ≡ self.old.changes.items) }
        ensures left { standing self.new ≡ record (standing self.old) { changes = [] } }
        ensures gtid { self.new.gtid ≡ self.old.gtid }
    {
        take_changes(alloc, &mut self.changes)
    }

    /// A law, which does nothing: what was seen has not too many sources.
    pub fn keeps_limits(&self)
        ensures { IsFull SourcesFull (standing self.now) → ⊥ }
    {
        self.seen.keeps_limits();
    }

    /// Whether what was seen has not too many sources once the entry that is open ends. It does not allocate.
    pub fn has_room(&self) -> bool
        ensures room { result ≡ true → source_count (set.insert (standing self.now).seen (standing self.now).gtid) ≤ most_sources }
        ensures full { result ≡ false → HasManySources (set.insert (standing self.now).seen (standing self.now).gtid) }
    {
        self.seen.has_room_for(&self.gtid)
    }

    /// The entry that is open. Its changes are no longer in the draft.
    pub fn take_entry(&mut self, alloc: Global) -> Result<Entry, AllocError>
        requires { (standing self.old).place ≡ Within }
        ensures entry { IfOk result (λ entry. entry ≡ open_entry (standing self.old)) }
        ensures writable { IfOk result (λ entry. is_writable (limits_of (standing self.old).version) entry ≡ true) }
        ensures left { standing self.new ≡ record (standing self.old) { changes = [] } }
    {
        let changes = self.take_changes(alloc)?;
        Ok(Entry {
            gtid: self.gtid,
            txn: Transaction { changes },
        })
    }

    #[tactic(auto, using(crate::proofs::SoundLines::wide_entry))]
    /// An entry with the GTID of the one that is open joins the others.
    pub fn join(&mut self, entry: Entry) -> Result<(), LineFault>
        requires place { (standing self.old).place ≡ Within }
        requires gtid { entry.gtid ≡ (standing self.old).gtid }
        requires writable { is_writable (limits_of (standing self.old).version) entry ≡ true }
        requires taken { (standing self.old).changes ≡ [] }
        ensures line { TakesLine IsFull result (Ok (join_entry (standing self.old) entry)) (standing self.new) }
        ensures room { IsRefusedWhereFull IsFull result (Ok (join_entry (standing self.old) entry)) }
    {
        self.place = LinePlace::Between;
        self.seen.add(entry.gtid)?;
        self.journal.push(entry)?;
        self.stamps.push(self.stamp)?;
        self.count += 1;
        Ok(())
    }

    #[tactic(auto, unfolding(crate::specs::Machine::txn_line, crate::specs::Machine::begin))]
    /// Begins an entry of version 1, if its source is near and nothing is wrong with it. If false, nothing has changed.
    fn begin_plain(&mut self, word: &[u8]) -> bool
        requires { self.old.place ≡ Between }
        ensures made { result ≡ true → txn_line (standing self.old) (Some word.now) ≡ Ok (standing self.new) }
        ensures open { result ≡ true → self.new.place ≡ Within }
        ensures left { result ≡ false → standing self.new ≡ standing self.old }
    {
        if self.version != Version::One || self.count >= MAX_ENTRIES {
            return false;
        }
        let Some(gtid) = self.near.find(word) else {
            return false;
        };
        if !is_number(gtid.number) || self.seen.contains(&gtid) {
            return false;
        }
        self.gtid = gtid;
        self.stamp = 0;
        self.place = LinePlace::Within;
        true
    }

    #[tactic(auto, unfolding(crate::specs::Machine::add))]
    /// Adds a change to the entry that is open, if nothing is wrong with it. If false, nothing has changed.
    #[inline(always)]
    fn add_plain(&mut self, schema: &Schema, change: Change) -> bool
        ensures made { result ≡ true → add (Some schema.now) (standing self.old) change ≡ Ok (standing self.new) }
        ensures place { self.new.place ≡ self.old.place }
        ensures left { result ≡ false → standing self.new ≡ standing self.old }
    {
        let limits = self.version.limits();
        if self.changes.len() >= limits.changes() || !is_change_writable(&change, limits) {
            return false;
        }
        if !fits(Some(schema), &change) {
            return false;
        }
        let Ok(()) = self.changes.push(change) else {
            return false;
        };
        true
    }

    #[tactic(auto, unfolding(crate::specs::Machine::step))]
    /// Takes the rest of the line of a new row, if nothing is wrong with it. If false, nothing has changed.
    #[inline(never)]
    fn insert_plain(
        &mut self,
        alloc: Global,
        schema: &Schema,
        names: &mut Names,
        rest: &[u8],
    ) -> bool
        ensures made { result ≡ true → step (Some schema.now) (standing self.old) Ins (Some rest.now) ≡ Ok (standing self.new) }
        ensures place { self.new.place ≡ self.old.place }
        ensures left { result ≡ false → standing self.new ≡ standing self.old }
    {
        let Some((table, text)) = find_table(names, alloc, self.version.limits(), rest) else {
            return false;
        };
        let Some(after) = find_image(alloc, text) else {
            return false;
        };
        self.add_plain(schema, Change::Insert { table, after })
    }

    #[tactic(auto, unfolding(crate::specs::Machine::step))]
    /// The same of a row that is taken away.
    #[inline(never)]
    fn delete_plain(
        &mut self,
        alloc: Global,
        schema: &Schema,
        names: &mut Names,
        rest: &[u8],
    ) -> bool
        ensures made { result ≡ true → step (Some schema.now) (standing self.old) Del (Some rest.now) ≡ Ok (standing self.new) }
        ensures place { self.new.place ≡ self.old.place }
        ensures left { result ≡ false → standing self.new ≡ standing self.old }
    {
        let Some((table, text)) = find_table(names, alloc, self.version.limits(), rest) else {
            return false;
        };
        let Some(before) = find_image(alloc, text) else {
            return false;
        };
        self.add_plain(schema, Change::Delete { table, before })
    }

    #[tactic(auto, unfolding(crate::specs::Machine::step))]
    /// The same of a row in the place of another.
    #[inline(never)]
    fn update_plain(
        &mut self,
        alloc: Global,
        schema: &Schema,
        names: &mut Names,
        rest: &[u8],
    ) -> bool
        ensures made { result ≡ true → step (Some schema.now) (standing self.old) Upd (Some rest.now) ≡ Ok (standing self.new) }
        ensures place { self.new.place ≡ self.old.place }
        ensures left { result ≡ false → standing self.new ≡ standing self.old }
    {
        let Some((table, text)) = find_table(names, alloc, self.version.limits(), rest) else {
            return false;
        };
        let Some((before, after)) = find_images(alloc, text) else {
            return false;
        };
        self.add_plain(
            schema,
            Change::Update {
                table,
                before,
                after,
            },
        )
    }

    #[tactic(auto, unfolding(crate::specs::Machine::judge, crate::specs::Machine::step))]
    /// Takes a line between two entries, if it begins one and nothing is wrong with it. If false, nothing has changed. (`schema` is read by
    /// the clauses alone.)
    fn take_between(&mut self, schema: &Schema, line: &[u8]) -> bool
        requires { self.old.place ≡ Between }
        ensures made { result ≡ true → judge (Some schema.now) (standing self.old) line.now ≡ Ok (standing self.new) }
        ensures open { result ≡ true → self.new.place ≡ Within }
        ensures left { result ≡ false → standing self.new ≡ standing self.old }
    {
        match line {
            [b't', b'x', b'n', b' ', rest @ ..] => self.begin_plain(rest),
            _ => false,
        }
    }

    #[tactic(auto, unfolding(crate::specs::Machine::judge))]
    /// Takes a line within an entry, if it writes a change and nothing is wrong with it. If false, nothing has changed.
    fn take_within(
        &mut self,
        alloc: Global,
        schema: &Schema,
        names: &mut Names,
        line: &[u8],
    ) -> bool
        requires { self.old.place ≡ Within }
        ensures made { result ≡ true → judge (Some schema.now) (standing self.old) line.now ≡ Ok (standing self.new) }
        ensures open { result ≡ true → self.new.place ≡ Within }
        ensures left { result ≡ false → standing self.new ≡ standing self.old }
    {
        match line {
            [b'i', b'n', b's', b' ', rest @ ..] => self.insert_plain(alloc, schema, names, rest),
            [b'u', b'p', b'd', b' ', rest @ ..] => self.update_plain(alloc, schema, names, rest),
            [b'd', b'e', b'l', b' ', rest @ ..] => self.delete_plain(alloc, schema, names, rest),
            _ => false,
        }
    }

    /// Takes a line that begins an entry or writes a change, if nothing is wrong with it. If false, nothing has changed.
    pub fn take_plain(
        &mut self,
        alloc: Global,
        schema: &Schema,
        names: &mut Names,
        line: &[u8],
    ) -> bool
        ensures made { result ≡ true → judge (Some schema.now) (standing self.old) line.now ≡ Ok (standing self.new) }
        ensures open { result ≡ true → (standing self.new).place ≡ Within }
        ensures left { result ≡ false → standing self.new ≡ standing self.old }
    {
        match self.place {
            LinePlace::Between => self.take_between(schema, line),
            LinePlace::Within => self.take_within(alloc, schema, names, line),
            LinePlace::Header | LinePlace::Previous | LinePlace::Ended => false,
        }
    }

    /// Ends the entry that is open, if its GTID can be added to what was seen. If false, nothing has changed.
    pub fn end_plain(&mut self, alloc: Global) -> Result<bool, AllocError>
        requires { (standing self.old).place ≡ Within }
        ensures { TakesPlain result (Ok (close_entry (standing self.old))) (standing self.old) (standing self.new) }
    {
        let Ok(()) = self.seen.add(self.gtid) else {
            return Ok(false);
        };
        self.place = LinePlace::Between;
        let changes = self.take_changes(alloc)?;
        self.journal.push(Entry {
            gtid: self.gtid,
            txn: Transaction { changes },
        })?;
        self.stamps.push(self.stamp)?;
        self.count += 1;
        Ok(true)
    }

    /// Adds a whole entry of version 1, whose lines were read beforehand, if nothing is wrong with it. If false, nothing has changed.
    pub fn join_whole(
        &mut self,
        schema: &Schema,
        gtid: Gtid,
        changes: Changes,
    ) -> Result<bool, AllocError>
        requires { AreWritable Narrow changes }
        ensures { JoinsEntry schema.now result gtid changes (standing self.old) (standing self.new) }
    {
        if !self.may_follow(schema, &gtid, &changes) {
            return Ok(false);
        }
        let Ok(()) = self.seen.add(gtid) else {
            return Ok(false);
        };
        self.gtid = gtid;
        self.stamp = 0;
        self.journal.push(Entry {
            gtid,
            txn: Transaction { changes },
        })?;
        self.stamps.push(0)?;
        self.count += 1;
        Ok(true)
    }

    /// Whether nothing is wrong with an entry of version 1 that comes next.
    fn may_follow(&self, schema: &Schema, gtid: &Gtid, changes: &Changes) -> bool
        ensures { result ≡ true → MayFollow schema.now (standing self.now) gtid.now changes.now }
    {
        if self.place != LinePlace::Between
            || self.version != Version::One
            || !self.changes.is_empty()
        {
            return false;
        }
        if !is_number(gtid.number) || self.count >= MAX_ENTRIES || self.seen.contains(gtid) {
            return false;
        }
        fit_all(schema, changes.as_slice())
    }

    #[tactic(auto, unfolding(crate::specs::Machine::close_line))]
    #[inline(never)]
    fn close(&mut self, rest: Option<&[u8]>) -> Result<(), LineFault>
        ensures { TakesLine IsFull result (close_line (standing self.old) (option_map (λ r. r.now) rest.entry)) (standing self.new) }
    {
        if rest.is_some() {
            return Err(LineFault::Wrong(Cause::Body));
        }
        self.place = LinePlace::Ended;
        Ok(())
    }
}
