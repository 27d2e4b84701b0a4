//! Why a line is not taken.
ghost use Rattle.std.specs.Prelude.{◌≡◌};
ghost use Rattle.gtid_set.specs.declared.fault.SetFault.TheVariants.{Memory};
ghost use Rattle.binlog_entries.specs.declared.fault.EntryFault.TheVariants.{Set};

use gtid_set::SetFault;
use log_transactions::{EventFault, EventRefusal};
use std::alloc::{AllocError, AllocFailed};
use thiserror::Error;

/// What is wrong with a line.
#[derive(Clone, Copy, Debug, PartialEq, Eq)]
pub enum EntryRefusal {
    /// It is none of mysqlbinlog's lines, or is where none of its kind may be.
    Format,
    /// A statement other than the beginning, the end and a savepoint of a transaction.
    Statement,
    /// A distributed transaction.
    Xa,
    /// A GTID that does not parse as one here, an anonymous or missing GTID, or a GTID inside a transaction.
    Gtid,
    /// A transaction's line outside of one, a second beginning, or an end within a statement of rows.
    Transaction,
    /// A table that no line maps, or one without a name.
    Table,
    /// A type whose values are not printed whole.
    Type,
    /// A row that lacks a column or a part, or has one too many.
    Columns,
    /// A text that is none of a value of its column.
    Value,
    /// The text of another server's logs.
    Mariadb,
    /// A rows event that ends its statement, and no row after its head. (`mysqlbinlog` without `-v` prints none.)
    Rows,
    /// A previous set of a later file with GTIDs that are neither in the opening set nor in the log before it.
    Gap,
}

impl EntryRefusal {
    ghost use Rattle.binlog_entries.specs.Refusals.{refusal_of_event};
    ghost use Rattle.binlog_entries.specs.Unread.{word_of};
    ghost use Rattle.binlog_entries.specs.Stream.{named_line};

    /// That of a line whose event is refused.
    fn of_event(refusal: EventRefusal) -> EntryRefusal
        ensures { result ≡ refusal_of_event refusal }
    {
        match refusal {
            EventRefusal::Gtid => EntryRefusal::Gtid,
            EventRefusal::Transaction => EntryRefusal::Transaction,
            EventRefusal::Table => EntryRefusal::Table,
            EventRefusal::Columns => EntryRefusal::Columns,
            EventRefusal::Gap => EntryRefusal::Gap,
        }
    }

    /// The word that names it.
    pub fn word(self) -> &'static str
        ensures { result.now ≡ word_of self }
    {
        match self {
            EntryRefusal::Format => "format",
            EntryRefusal::Statement => "statement",
            EntryRefusal::Xa => "xa",
            EntryRefusal::Gtid => "gtid",
            EntryRefusal::Transaction => "transaction",
            EntryRefusal::Table => "table",
            EntryRefusal::Type => "type",
            EntryRefusal::Columns => "columns",
            EntryRefusal::Value => "value",
            EntryRefusal::Mariadb => "mariadb",
            EntryRefusal::Rows => "rows",
            EntryRefusal::Gap => "gap",
        }
    }

    /// The line that the refusal names, if this one shows it: the one before it, if rows lack.
    pub fn named_line(self, line: u64) -> u64
        ensures { result ≡ named_line self line }
    {
        match self {
            EntryRefusal::Rows => line.saturating_sub(1),
            _ => line,
        }
    }
}

/// Why a line is not taken.
#[derive(Clone, Copy, Debug, PartialEq, Eq)]
pub enum EntryFault {
    /// Out of memory, or a set is full.
    Set(SetFault),
    /// The line is refused.
    Refused(EntryRefusal),
}

impl From<AllocError> for EntryFault {
    ghost from_gives = { λ _ e. e ≡ Set Memory };

    fn from(_e: AllocError) -> EntryFault {
        EntryFault::Set(SetFault::Memory)
    }
}

impl From<SetFault> for EntryFault {
    ghost from_gives = { λ fault e. e ≡ Set fault };

    fn from(fault: SetFault) -> EntryFault {
        EntryFault::Set(fault)
    }
}

impl<T: Drop> From<AllocFailed<T>> for EntryFault {
    ghost from_gives = { λ _ e. e ≡ Set Memory };

    fn from(_e: AllocFailed<T>) -> EntryFault {
        EntryFault::Set(SetFault::Memory)
    }
}

impl From<EventFault> for EntryFault {
    ghost use Rattle.binlog_entries.specs.Refusals.{fault_of_event};

    ghost from_gives = { λ fault e. e ≡ fault_of_event fault };

    fn from(fault: EventFault) -> EntryFault {
        match fault {
            EventFault::Set(fault) => EntryFault::Set(fault),
            EventFault::Refused(refusal) => EntryFault::Refused(EntryRefusal::of_event(refusal)),
        }
    }
}

/// Why a text is not read. Lines count from 1.
#[derive(Clone, Copy, Debug, PartialEq, Eq, Error)]
pub enum ReadFault {
    /// Out of memory, or a set is full.
    #[error("{0}")]
    Set(SetFault),
    /// The first line that is refused, and what is wrong with it.
    #[error("line {line} is refused")]
    Line { line: u64, refusal: EntryRefusal },
    /// The text ends before its log does.
    #[error("unfinished at line {line}")]
    Unfinished { line: u64 },
}

impl From<AllocError> for ReadFault {
    ghost use Rattle.gtid_set.specs.declared.fault.SetFault.TheVariants.{Memory};
    ghost use Rattle.binlog_entries.specs.declared.fault.ReadFault.TheVariants as read_faults;

    ghost from_gives = { λ _ e. e ≡ read_faults.Set Memory };

    fn from(_e: AllocError) -> ReadFault {
        ReadFault::Set(SetFault::Memory)
    }
}
