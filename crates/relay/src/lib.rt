//! The own journal of a replica: its binary log, with what it executed in the order of the commits.
//!
//! What a contract sees: an `OwnJournal` is its journal: the purged set, and the entries.
//!
//! `executed` is the purged set with the GTIDs of the entries (`gtid_executed`), and a purge never changes it; a replica has no second one.
//! `append` adds an entry or leaves all as it was, and `take_back` undoes the last append and allocates nothing, so that a commit whose
//! rows are refused can be undone. `purge` moves entries into the purged set (`gtid_purged`) and is refused if and only if there are fewer.
//!
//! How it is kept: the executed set is kept twice, one copy an entry behind the other, so that an append can be taken back without
//! memory and no commit copies a set.
//!
//! Not proved: speed. Which error comes is in `fault`: out of memory, or a set that would have too many sources or intervals.
#![tactic(auto)]

ghost use Rattle.std.specs.Prelude.{◌≡◌, ◌≤◌, ◌<◌, ◌↔◌, [], ◌∷◌, ◌++◌, true, false, ℕ, OnOk, OnErr, IfOk, IfErr, IsOkUnless, Err, Ok, length, take, drop, slice_get};
ghost use Rattle.std.specs.Bool.{Decides};
ghost use Rattle.std.specs.Option.{option_copied};
ghost use Rattle.std.specs.FinSet as set;
ghost use Rattle.journal.specs.Journals.{previous_after_purge, whole};
ghost use Rattle.gtid_set.specs.Full.{IsFullExactly};
ghost use Rattle.gtid_set.specs.Laws.{HaveNumbers};
ghost use Rattle.gtid_set.specs.declared.fault.SetFault.TheVariants.{Memory};
ghost use Rattle.rows.specs.declared.limits.Limits.TheVariants.{Wide};
ghost use Rattle.journal.specs.Writing.{is_writable};
ghost use Rattle.relay.specs.Own.{without_last, with_last, purge_to, IsTooMany, IsPurgeFault};
ghost use Rattle.relay.specs.declared.PurgeFault.TheVariants.{TooMany, Set};

use gtid_set::{GtidSet, SetFault};
use gtid_text::Gtid;
use journal::{Entry, Journal};
use std::alloc::Global;
use std::marker::Model;
use std::mem;
use thiserror::Error;

/// How the spare set differs from the executed set.
#[derive(Clone, Copy, Drop)]
enum Behind {
    /// They are equal.
    Equal,
    /// The spare set lacks the last entry's GTID.
    ByLast(Gtid),
    /// The spare set lacks this GTID.
    By(Gtid),
    /// The spare set has this GTID besides.
    Ahead(Gtid),
}

/// The executed set, and a spare set at most one GTID away from it.
#[derive(Drop)]
struct Known {
    executed: GtidSet,
    spare: GtidSet,
    behind: Behind,
}

impl Known {
    ghost use Rattle.relay.specs.Known.{IsNear, equal_to, ahead_by, step_back, keep_step};

    /// Makes the spare set anew.
    #[cold]
    #[inline(never)]
    fn renew(&mut self, alloc: Global) -> Result<(), SetFault>
        ensures ok { OnOk result (self.new ≡ record self.old { spare = self.old.executed }) }
        ensures err { OnErr result (self.new ≡ self.old) }
        ensures fault { IsOkUnless result Memory }
    {
        self.spare = self.executed.copy(alloc)?;
        Ok(())
    }

    /// Makes the spare set equal to the executed set.
    fn catch_up(&mut self, alloc: Global) -> Result<(), SetFault>
        requires { IsNear self.old }
        ensures ok { OnOk result (self.new ≡ equal_to self.old.executed) }
        ensures err { OnErr result (self.new ≡ self.old) }
        ensures fault { IsOkUnless result Memory }
    {
        match self.behind {
            Behind::Equal => {}
            Behind::ByLast(gtid) => self.spare.add(gtid)?,
            Behind::By(gtid) => self.spare.add(gtid)?,
            Behind::Ahead(_) => self.renew(alloc)?,
        }
        self.behind = Behind::Equal;
        Ok(())
    }

    /// Adds a GTID, and leaves the spare set one step behind.
    fn advance(&mut self, gtid: &Gtid) -> Result<(), SetFault>
        requires { self.old.spare ≡ self.old.executed }
        ensures ok { OnOk result (self.new ≡ ahead_by gtid.now self.old.executed) }
        ensures err { OnErr result (self.new ≡ self.old) }
        ensures full { IsFullExactly result (set.insert self.old.executed gtid.now) }
    {
        self.executed.add(*gtid)?;
        self.behind = Behind::ByLast(*gtid);
        Ok(())
    }

    /// Undoes the last step.
    fn step_back(&mut self)
        ensures { self.new ≡ step_back self.old }
    {
        if let Behind::ByLast(gtid) = self.behind {
            mem::swap(&mut self.executed, &mut self.spare);
            self.behind = Behind::Ahead(gtid);
        }
    }

    /// From now on the last step cannot be taken back.
    fn settle(&mut self)
        ensures { self.new ≡ keep_step self.old }
    {
        if let Behind::ByLast(gtid) = self.behind {
            self.behind = Behind::By(gtid);
        }
    }
}

/// Why entries were not purged.
#[derive(Clone, Copy, Debug, PartialEq, Eq, Error)]
pub enum PurgeFault {
    /// There are fewer entries than were to be purged: this many.
    #[error("only {0} entries")]
    TooMany(usize),
    /// A set could not be made.
    #[error("{0}")]
    Set(SetFault),
}

impl From<SetFault> for PurgeFault {
    ghost from_gives = { λ f e. e ≡ Set f };

    fn from(fault: SetFault) -> PurgeFault {
        PurgeFault::Set(fault)
    }
}

/// A server's own journal with the set that it has executed. The previous set of the journal is
/// the purged set. (MySQL 8.0 Reference Manual, "GTID Life Cycle".)
///
/// Two sets are kept, one of them at most one GTID away from the other, so that a commit
/// copies no set and its entry can be taken back without memory.
pub struct OwnJournal {
    journal: Journal,
    known: Known,
}

impl Drop for OwnJournal {
    // (by hand: for a caller the end of a OwnJournal is one call)
    fn drop(self) {
        let OwnJournal {
            journal: _journal,
            known: _known,
        } = self;
    }
}

impl Model for OwnJournal {
    ghost use Rattle.std.specs.Coded.{codes};
    ghost use Rattle.gtid_set.specs.Sets.{gtids_code};
    ghost use Rattle.relay.specs.Own.{OwnValue};

    ghost Value = { OwnValue };

    ghost coded = { Prim.hlevel (codes, gtids_code) };

    ghost use Rattle.relay.specs.Known.{is_undoable};
    ghost use Rattle.relay.specs.Own.{IsOwn};

    ghost view = { λ o. record { journal = o.journal; undoable = is_undoable o.known.behind } };

    ghost invariant = { λ o. IsOwn o.journal o.known };
}

impl OwnJournal {
    /// An own journal without entries, after this purged set, whose numbers are 1 to 2^63 - 1 (`GtidSet::are_numbers_in_range`).
    pub fn start(alloc: Global, purged: GtidSet) -> Result<OwnJournal, SetFault>
        requires { HaveNumbers purged }
        ensures ok { IfOk result (λ o. o.journal ≡ record { previous = purged; entries = [] }) }
        ensures fault { IsOkUnless result Memory }
    {
        let executed = purged.copy(alloc)?;
        let spare = purged.copy(alloc)?;
        Ok(OwnJournal {
            journal: Journal::start(alloc, purged),
            known: Known {
                executed,
                spare,
                behind: Behind::Equal,
            },
        })
    }

    /// The executed set: the purged set with the GTIDs of the entries.
    pub fn executed(&self) -> &GtidSet
        ensures { result.now ≡ whole self.now.journal }
    {
        &self.known.executed
    }

    /// The purged set: the executed GTIDs that are no longer in an entry.
    pub fn purged(&self) -> &GtidSet
        ensures { result.now ≡ self.now.journal.previous }
    {
        self.journal.previous()
    }

    /// The entry at this place, from 0.
    pub fn entry(&self, place: usize) -> Option<&Entry>
        ensures { option_copied result ≡ slice_get self.now.journal.entries place }
    {
        self.journal.entries().get(place)
    }

    /// The journal itself.
    pub fn as_journal(&self) -> &Journal
        ensures { result.now ≡ self.now.journal }
    {
        &self.journal
    }

    /// Appends an entry. It can be taken back until something else changes.
    pub fn append(&mut self, alloc: Global, entry: Entry) -> Result<(), SetFault>
        requires new { set.contains (whole self.old.journal) entry.gtid ≡ false }
        requires writable { is_writable Wide entry ≡ true }
        ensures ok { OnOk result (self.new.journal ≡ with_last entry self.old.journal) }
        ensures undoable { OnOk result (self.new.undoable ≡ true) }
        ensures err { OnErr result (self.new.journal ≡ self.old.journal) }
        ensures fault { IsFullExactly result (set.insert (whole self.old.journal) entry.gtid) }
    {
        let gtid = entry.gtid;
        if !self.known.executed.has_room_for(&gtid) {
            return Err(SetFault::SourcesFull);
        }
        self.known.catch_up(alloc)?;
        self.journal.push(entry)?;
        match self.known.advance(&gtid) {
            Ok(()) => Ok(()),
            Err(fault) => {
                self.journal.pop();
                Err(fault)
            }
        }
    }

    /// Undoes the last append. It does not allocate.
    pub fn take_back(&mut self)
        requires { self.old.undoable ≡ true }
        ensures { self.new.journal ≡ without_last self.old.journal }
    {
        self.known.step_back();
        self.journal.pop();
    }

    /// Removes the first entries and adds their GTIDs to the purged set; the result is a copy of that set.
    /// The executed set stays.
    pub fn purge(&mut self, alloc: Global, count: usize) -> Result<GtidSet, PurgeFault>
        ensures ok { IfOk result (λ s. s ≡ previous_after_purge count self.old.journal) }
        ensures rest { OnOk result (self.new.journal ≡ purge_to count self.old.journal) }
        ensures many { IsTooMany result ↔ (length self.old.journal.entries < count) }
        ensures len { (n : ℕ) → result ≡ Err (TooMany n) → n ≡ length self.old.journal.entries }
        ensures executed { whole self.new.journal ≡ whole self.old.journal }
        ensures err { OnErr result (self.new.journal ≡ self.old.journal) }
        ensures fault { IfErr result (λ f. IsPurgeFault f count self.old.journal) }
    {
        let there = self.journal.len();
        if there < count {
            return Err(PurgeFault::TooMany(there));
        }
        self.known.executed.keeps_limits();
        let previous = self.journal.previous_after_purge(alloc, count)?;
        let shown = previous.copy(alloc)?;
        self.known.settle();
        self.journal.purge(count, previous);
        Ok(shown)
    }
}

/// Whether two entries are the same.
fn is_same_entry(left: &Entry, right: &Entry) -> bool
    ensures { Decides result (left.now ≡ right.now) }
{
    if left.gtid != right.gtid {
        return false;
    }
    left.txn.is_equal(&right.txn)
}

/// Whether two lists have the same entries in the same order.
fn are_same_entries(left: &[Entry], right: &[Entry]) -> bool
    ensures { Decides result (left.now ≡ right.now) }
{
    let mut left = left;
    let mut right = right;
    while let Some((entry, more)) = left.split_first() {
        let Some((other, rest)) = right.split_first() else {
            return false;
        };
        if !is_same_entry(entry, other) {
            return false;
        }
        left = more;
        right = rest;
    }
    right.is_empty()
}

/// The same journal, whose entries share their changes with these.
fn copy_journal(alloc: Global, journal: &Journal) -> Result<Journal, SetFault>
    ensures ok { IfOk result (λ copy. copy ≡ journal.now) }
    ensures fault { IsOkUnless result Memory }
{
    journal.keeps_rules();
    let previous = journal.previous().copy(alloc)?;
    let mut copy = Journal::start(alloc, previous);
    for entry in journal.entries() {
        let entry = entry.clone()?;
        copy.push(entry)?;
    }
    Ok(copy)
}

impl OwnJournal {
    /// The same own journal. The changes of its transactions are shared, not copied. The one error
    /// is a failed allocation.
    pub fn copy(&self, alloc: Global) -> Result<OwnJournal, SetFault>
        ensures ok { IfOk result (λ copy. copy ≡ self.now) }
        ensures fault { IsOkUnless result Memory }
    {
        let journal = copy_journal(alloc, &self.journal)?;
        let executed = self.known.executed.copy(alloc)?;
        let spare = self.known.spare.copy(alloc)?;
        let behind = self.known.behind;
        Ok(OwnJournal {
            journal,
            known: Known {
                executed,
                spare,
                behind,
            },
        })
    }

    /// Whether both have the same purged set and the same entries in the same order. Whether the
    /// last entry can be taken back makes no difference.
    pub fn is_same_journal(&self, other: &OwnJournal) -> bool
        ensures { Decides result (self.now.journal ≡ other.now.journal) }
    {
        if !self.purged().is_equal(other.purged()) {
            return false;
        }
        are_same_entries(self.journal.entries(), other.journal.entries())
    }
}
