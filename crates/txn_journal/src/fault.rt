//! Why a text is refused.
ghost use Rattle.std.specs.Prelude.{◌≡◌};
ghost use Rattle.gtid_set.specs.declared.fault.SetFault.TheVariants.{Memory};
ghost use Rattle.txn_journal.specs.declared.fault.LineFault.TheVariants.{Set, Wrong};
ghost use Rattle.txn_journal.specs.declared.fault.JournalFault.TheVariants as faults;

use gtid_set::SetFault;
use gtid_text::Gtid;
use std::alloc::{AllocError, AllocFailed};
use thiserror::Error;

/// What is wrong with a line. If several causes hold, the first in the order of this list is named (our own rule).
#[derive(Clone, Copy, Debug, PartialEq, Eq)]
pub enum Cause {
    /// A version that is not known.
    Version,
    /// The first word is none of those due there, or a line comes after the last.
    Keyword,
    /// The rest of the line is not in the grammar of its word.
    Body,
    /// A limit is passed.
    Limit,
    /// The schema of the bundle does not allow the line.
    Schema,
    /// The sequence number of an entry is not its place, or its last_committed is not the one that it has to have.
    Stamp,
    /// The GTID is in the previous set, or came before in the same journal.
    Twice(Gtid),
}

/// Why a text is not read. Lines count from 1.
#[derive(Clone, Copy, Debug, PartialEq, Eq, Error)]
pub enum JournalFault {
    /// Out of memory, or a set is full.
    #[error("{0}")]
    Set(SetFault),
    /// The first faulty line, and what is wrong with it.
    #[error("line {line} is faulty")]
    Line { line: u64, cause: Cause },
    /// The text ends before its last line has come whole.
    #[error("truncated at line {line}")]
    Truncated { line: u64 },
}

impl From<AllocError> for JournalFault {
    ghost from_gives = { λ _ e. e ≡ faults.Set Memory };

    fn from(_e: AllocError) -> JournalFault {
        JournalFault::Set(SetFault::Memory)
    }
}

/// Why a line is not taken.
#[derive(Clone, Copy, Debug, PartialEq, Eq)]
pub enum LineFault {
    Set(SetFault),
    Wrong(Cause),
}

impl From<SetFault> for LineFault {
    ghost from_gives = { λ fault e. e ≡ Set fault };

    fn from(fault: SetFault) -> LineFault {
        LineFault::Set(fault)
    }
}

impl From<Cause> for LineFault {
    ghost from_gives = { λ cause e. e ≡ Wrong cause };

    fn from(cause: Cause) -> LineFault {
        LineFault::Wrong(cause)
    }
}

impl From<AllocError> for LineFault {
    ghost from_gives = { λ _ e. e ≡ Set Memory };

    fn from(_e: AllocError) -> LineFault {
        LineFault::Set(SetFault::Memory)
    }
}

impl<T: Drop> From<AllocFailed<T>> for LineFault {
    ghost from_gives = { λ _ e. e ≡ Set Memory };

    fn from(_e: AllocFailed<T>) -> LineFault {
        LineFault::Set(SetFault::Memory)
    }
}
