//! Journals: what a server executed, in order. A journal is a previous set and the entries after it, each a transaction with its GTID, as
//! a binary log begins with its Previous-GTIDs event. (MySQL 8.0 Reference Manual, "GTID Life Cycle".)
//!
//! What a contract sees: a `Journal` is the record of its previous set and its list of entries. No contract shows that a clone of an
//! `Entry` shares its images.
//!
//! Kept by the type (`IsJournal`): no GTID is there twice or in the previous set, and each entry can be written as text by the
//! widest limits: its number is 1 to 2^63 - 1, it has at most 4,294,967,294 changes, images of 1 to 4,096 values, and values of at most
//! 4,294,967,295 bytes. The numbers of the previous set are 1 to 2^63 - 1 too.
//!
//! The contract of each call is one equation. `previous_after_purge` and the like fail if out of memory, or if a set that is made on the
//! way is full (`fault`).
//!
//! Cost: `contains` looks at each entry. Readers and the own journal of a replica keep a set with the journal instead.
#![tactic(auto)]

ghost use Rattle.std.specs.Prelude.{◌≡◌, ◌-◌, [], ◌∷◌, ◌++◌, true, false, OnOk, OnErr, IfOk, IfErr, length, take, drop, ◌==◌, ◌≤◌};
ghost use Rattle.std.specs.List.{list_all, list_any};
ghost use Rattle.gtid_text.specs.Gtids.{same_gtid};
ghost use Rattle.std.specs.FinSet as set;
ghost use Rattle.gtid_set.specs.Laws.{HaveNumbers};
ghost use Rattle.rows.specs.declared.limits.Limits.TheVariants.{Wide};
ghost use Rattle.journal.specs.Journals.{gtids_of, previous_after_purge, whole, IsJournal};
ghost use Rattle.journal.specs.Faults.{IsAddingFault, IsPurgedFault};
ghost use Rattle.journal.specs.Writing.{is_value_writable, is_image_writable, is_change_writable, is_txn_writable, is_writable, is_number};

use gtid_set::{GtidSet, SetFault};
use gtid_text::Gtid;
use rows::{Change, Limits, Row, Transaction, Value};
use std::alloc::{AllocError, Global};
use std::marker::Model;
use std::mem;

/// The greatest transaction number.
pub const GREATEST: u64 = 9_223_372_036_854_775_807;

/// A transaction with its GTID. A clone shares the changes.
#[derive(Drop)]
pub struct Entry {
    pub gtid: Gtid,
    pub txn: Transaction,
}

impl Clone for Entry {
    ghost use Rattle.std.specs.Prelude.{◌≡◌};

    ghost is_clone = { λ a b. b ≡ a };

    fn clone(&self) -> Result<Entry, AllocError> {
        let txn = self.txn.clone()?;
        Ok(Entry {
            gtid: self.gtid,
            txn,
        })
    }
}

/// Whether no value has more bytes than the limits say.
fn are_values_writable(image: &Row, limits: Limits) -> bool
    ensures { result ≡ list_all (is_value_writable limits) image.now }
{
    !image.has_longer_value(limits.bytes())
}

/// Whether an image can be written: it has at least one value, and no more values and no longer ones than the limits say.
pub fn is_image_writable(image: &Row, limits: Limits) -> bool
    ensures { result ≡ is_image_writable limits image.now }
{
    let values = image.len();
    1 <= values && values <= limits.columns() as usize && are_values_writable(image, limits)
}

/// Whether a change can be written: each of its images can be (`is_image_writable`).
pub fn is_change_writable(change: &Change, limits: Limits) -> bool
    ensures { result ≡ is_change_writable limits change.now }
{
    match change {
        Change::Insert { table: _, after } => is_image_writable(after, limits),
        Change::Delete { table: _, before } => is_image_writable(before, limits),
        Change::Update {
            table: _,
            before,
            after,
        } => is_image_writable(before, limits) && is_image_writable(after, limits),
    }
}

fn are_changes_writable(changes: &[Change], limits: Limits) -> bool
    ensures { result ≡ list_all (is_change_writable limits) changes.now }
{
    changes
        .iter()
        .all(|change| is_change_writable(change, limits))
}

/// Whether a transaction can be written: it has no more changes than the limits say, and each can be written.
pub fn is_txn_writable(txn: &Transaction, limits: Limits) -> bool
    ensures { result ≡ is_txn_writable limits txn.now }
{
    let changes = txn.changes.as_slice();
    changes.len() <= limits.changes() && are_changes_writable(changes, limits)
}

/// Whether a transaction number is in range.
#[tactic(auto, unfolding(gtid_set::specs::Sets::greatest))]
pub fn is_number(number: u64) -> bool
    ensures { result ≡ is_number number }
{
    1 <= number && number <= GREATEST
}

impl Entry {
    /// Whether the entry can be written: its number is 1 to 9223372036854775807 ("GTID Format and
    /// Storage"; the greatest number is our own) and its transaction can be written.
    pub fn is_writable(&self, limits: Limits) -> bool
        ensures { result ≡ is_writable limits self.now }
    {
        is_number(self.gtid.number) && is_txn_writable(&self.txn, limits)
    }
}

/// Whether one of the entries has this GTID.
fn any_has(entries: &[Entry], gtid: &Gtid) -> bool
    ensures { result ≡ list_any (λ e. same_gtid gtid.now e.gtid) entries.now }
{
    entries.iter().any(|entry| is_same(gtid, &entry.gtid))
}

fn is_same(a: &Gtid, b: &Gtid) -> bool
    ensures { result ≡ same_gtid a.now b.now }
{
    a.source == b.source && a.number == b.number
}

fn add_gtids(known: &mut GtidSet, entries: &[Entry]) -> Result<(), SetFault>
    ensures ok { OnOk result (known.new ≡ set.union known.old (gtids_of entries.now)) }
    ensures fault { IfErr result (λ f. IsAddingFault f known.old entries.now) }
{
    for entry in entries {
        match known.add(entry.gtid) {
            Ok(()) => {}
            Err(fault) => return Err(fault),
        }
    }
    Ok(())
}

fn drop_front(entries: &mut Vec<Entry>, count: usize)
    requires { count ≤ length entries.old.items }
    ensures { entries.new.items ≡ drop count entries.old.items }
{
    entries.drain(..count);
}

/// What was executed before, and the entries after it in order. No GTID occurs twice or in the
/// previous set, transactions may have the numbers of that set, and each entry can be written.
pub struct Journal {
    previous: GtidSet,
    entries: Vec<Entry>,
}

impl Drop for Journal {
    // (by hand: for a caller the end of a Journal is one call)
    fn drop(self) {
        let Journal {
            previous: _previous,
            entries: _entries,
        } = self;
    }
}

impl Model for Journal {
    ghost use Rattle.journal.specs.Journals.{JournalValue};
    ghost use Rattle.std.specs.Coded.{codes};
    ghost use Rattle.gtid_set.specs.Sets.{gtids_code};

    ghost Value = { JournalValue };

    ghost coded = { Prim.hlevel (codes, gtids_code) };

    ghost use Rattle.journal.specs.Journals.{IsJournal};

    ghost view = { λ j. record { previous = j.previous; entries = j.entries.items } };

    ghost invariant = { λ j. IsJournal j.previous j.entries.items };
}

impl Journal {
    /// A journal without entries after this set, whose numbers are 1 to 2^63 - 1 (`GtidSet::are_numbers_in_range`).
    pub fn start(alloc: Global, previous: GtidSet) -> Journal
        requires { HaveNumbers previous }
        ensures { result ≡ record { previous = previous; entries = [] } }
    {
        Journal {
            previous,
            entries: Vec::new(alloc),
        }
    }

    /// Appends an entry.
    pub fn push(&mut self, entry: Entry) -> Result<(), AllocError>
        requires new { set.contains (whole self.old) entry.gtid ≡ false }
        requires writable { is_writable Wide entry ≡ true }
        ensures ok { OnOk result (self.new ≡ record self.old { entries = self.old.entries ++ entry ∷ [] }) }
        ensures err { OnErr result (self.new ≡ self.old) }
    {
        self.entries.push(entry)?;
        Ok(())
    }

    /// Whether a GTID is in the previous set or is that of an entry. It looks at each entry.
    pub fn contains(&self, gtid: &Gtid) -> bool
        ensures { result ≡ set.contains (whole self.now) gtid.now }
    {
        self.previous.contains(gtid) || any_has(&self.entries, gtid)
    }

    /// Removes the last entry, if there is one.
    pub fn pop(&mut self)
        ensures { self.new ≡ record self.old { entries = take (length self.old.entries - 1) self.old.entries } }
    {
        let kept = self.entries.len().saturating_sub(1);
        self.entries.truncate(kept);
    }

    /// The previous set after a purge of the first `count` entries. The GTIDs are added one by one: the set is also too large if it has too
    /// many intervals after some of them.
    pub fn previous_after_purge(&self, alloc: Global, count: usize) -> Result<GtidSet, SetFault>
        requires { count ≤ length self.now.entries }
        ensures ok { IfOk result (λ s. s ≡ previous_after_purge count self.now) }
        ensures fault { IfErr result (λ f. IsPurgedFault f count self.now) }
    {
        let mut previous = self.previous.copy(alloc)?;
        add_gtids(&mut previous, &self.entries[..count])?;
        Ok(previous)
    }

    /// Removes the first entries, whose GTIDs move into the previous set.
    pub fn purge(&mut self, count: usize, previous: GtidSet)
        requires count { count ≤ length self.old.entries }
        requires previous { previous ≡ previous_after_purge count self.old }
        ensures { self.new ≡ record { previous = previous; entries = drop count self.old.entries } }
    {
        drop_front(&mut self.entries, count);
        self.previous = previous;
    }

    /// Takes the entries out, in order. The previous set stays.
    pub fn take_entries(&mut self, alloc: Global) -> Vec<Entry>
        ensures taken { result.items ≡ self.old.entries }
        ensures left { self.new ≡ record self.old { entries = [] } }
    {
        mem::replace(&mut self.entries, Vec::new(alloc))
    }

    /// The set that was executed before the entries.
    pub fn previous(&self) -> &GtidSet
        ensures { result.now ≡ self.now.previous }
    {
        &self.previous
    }

    /// The entries in order.
    pub fn entries(&self) -> &[Entry]
        ensures { result.now ≡ self.now.entries }
    {
        &self.entries
    }

    /// The type keeps the rules of a journal: no GTID occurs twice or in the previous set, transactions may have the numbers of
    /// that set, and each entry can be written. It does nothing; a proof calls it for its contract.
    pub fn keeps_rules(&self)
        ensures { IsJournal self.now.previous self.now.entries }
    {
        let _ = &self.entries;
    }

    /// How many entries there are.
    pub fn len(&self) -> usize
        ensures { result ≡ length self.now.entries }
    {
        self.entries.len()
    }

    /// Whether there is no entry.
    pub fn is_empty(&self) -> bool
        ensures { result ≡ (length self.now.entries == 0) }
    {
        self.entries.is_empty()
    }
}
