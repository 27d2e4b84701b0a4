//! A log as a journal.
ghost use Rattle.std.specs.Prelude.{◌≡◌, ◌∷◌, ◌++◌, [], true, false, OnOk, IfOk, IfErr};
ghost use Rattle.std.specs.FinSet as set;
ghost use Rattle.gtid_set.specs.declared.fault.SetFault.TheVariants.{Memory};
ghost use Rattle.journal.specs.Writing.{is_number};
ghost use Rattle.txn_journal.specs.Kept.{IsSeen};
ghost use Rattle.binlog_entries.specs.Journals.{are_numbered, IsNoJournal, MayFollow, MayNotFollow};
ghost use Rattle.binlog_entries.specs.declared.as_journal.LogFault.TheVariants as log_faults;

use crate::limits::{Limit, limit_of};
use gtid_set::{GtidSet, SetFault};
use gtid_text::Gtid;
use journal::{Entry, Journal};
use log_transactions::LoggedTransactions;
use std::alloc::{AllocError, Global};
use std::fmt;
use thiserror::Error;

/// Why a log is no journal.
#[derive(Drop, Error)]
pub enum LogFault {
    /// Out of memory, or a set is full.
    #[error("{0}")]
    Set(SetFault),
    /// The GTID of an entry was executed before, or is that of an earlier entry.
    #[error("a GTID stands twice")]
    Twice(Gtid),
    /// The entry of this GTID has more changes, columns or bytes than an entry may have.
    #[error("an entry is too large")]
    TooLarge(Gtid, Limit),
}

impl fmt::Debug for LogFault {
    fn fmt<W: fmt::Write>(&self, f: &mut fmt::Formatter<W>) -> fmt::Result {
        fmt::Display::fmt(self, f)
    }
}

impl From<AllocError> for LogFault {
    ghost from_gives = { λ _ e. e ≡ log_faults.Set Memory };

    fn from(_e: AllocError) -> LogFault {
        LogFault::Set(SetFault::Memory)
    }
}

impl From<SetFault> for LogFault {
    ghost from_gives = { λ fault e. e ≡ log_faults.Set fault };

    fn from(fault: SetFault) -> LogFault {
        LogFault::Set(fault)
    }
}

/// Puts an entry after those of a journal whose GTIDs were seen.
fn follow(
    alloc: Global,
    journal: &mut Journal,
    seen: &mut GtidSet,
    entry: &Entry,
) -> Result<(), LogFault>
    requires seen { IsSeen journal.old seen.old }
    requires number { is_number entry.now.gtid.number ≡ true }
    ensures journal { OnOk result (journal.new ≡ record journal.old { entries = journal.old.entries ++ entry.now ∷ [] }) }
    ensures seen { OnOk result (seen.new ≡ set.insert seen.old entry.now.gtid) }
    ensures follows { OnOk result (MayFollow seen.old entry.now) }
    ensures refused { IfErr result (λ fault. MayNotFollow fault seen.old entry.now) }
{
    let gtid = entry.gtid;
    if seen.contains(&gtid) {
        return Err(LogFault::Twice(gtid));
    }
    if let Some(limit) = limit_of(alloc, entry)? {
        return Err(LogFault::TooLarge(gtid, limit));
    }
    match seen.add(gtid) {
        Ok(()) => {}
        Err(fault) => return Err(LogFault::Set(fault)),
    }
    let entry = entry.clone()?;
    journal.push(entry)?;
    Ok(())
}

/// Puts entries after those of a journal whose GTIDs were seen.
fn follow_all(
    alloc: Global,
    journal: &mut Journal,
    seen: &mut GtidSet,
    entries: &[Entry],
) -> Result<(), LogFault>
    requires seen { IsSeen journal.old seen.old }
    requires numbers { are_numbered entries.now ≡ true }
    ensures journal { OnOk result (journal.new ≡ record journal.old { entries = journal.old.entries ++ entries.now }) }
    ensures refused { IfErr result (λ fault. IsNoJournal fault seen.old entries.now) }
{
    for entry in entries {
        match follow(alloc, journal, seen, entry) {
            Ok(()) => {}
            Err(fault) => return Err(fault),
        }
    }
    Ok(())
}

/// The journal of a log: its entries after what was executed before.
pub fn log_journal(alloc: Global, log: &LoggedTransactions) -> Result<Journal, LogFault>
    ensures found { IfOk result (λ j. j ≡ record { previous = log.now.previous; entries = log.now.entries.items }) }
    ensures refused { IfErr result (λ fault. IsNoJournal fault log.now.previous log.now.entries.items) }
{
    let mut seen = log.previous.copy(alloc)?;
    let mut journal = Journal::start(alloc, log.previous.copy(alloc)?);
    match follow_all(alloc, &mut journal, &mut seen, &log.entries) {
        Ok(()) => Ok(journal),
        Err(fault) => Err(fault),
    }
}
