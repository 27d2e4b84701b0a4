//! Why an event of a file is not taken.
ghost use Rattle.std.specs.Prelude.{◌≡◌};
ghost use Rattle.gtid_set.specs.declared.fault.SetFault.TheVariants.{Memory};
ghost use Rattle.binlog_files.specs.Words.{event_word};
ghost use Rattle.binlog_files.specs.declared.fault.FileFault.TheVariants.{Set};

use gtid_set::SetFault;
use log_transactions::EventRefusal;
use std::alloc::{AllocError, AllocFailed};

/// Why an event of a file is refused.
#[derive(Clone, Copy, Debug, PartialEq, Eq)]
pub enum FileRefusal {
    /// What the event tells has no place there.
    Event(EventRefusal),
    /// The body is not in the form of its kind.
    Format,
    /// The second event of a file is no PREVIOUS_GTIDS.
    Previous,
    /// A statement other than BEGIN, COMMIT, a savepoint and one of maintenance.
    Statement,
    /// A distributed transaction.
    Xa,
    /// A transaction without a GTID, or a GTID or a set of them with tags.
    Gtid,
    /// The server has lost events.
    Incident,
    /// Events that are packed into one.
    Compressed,
    /// A row without all of its columns.
    Partial,
    /// A column of a type whose values are not read.
    Type,
    /// The map of a table doesn't say its signs or collations: the server is older than 8.0.1.
    Metadata,
    /// A value that has no form in a bundle.
    Value,
    /// A kind of event that is unknown, and may not be passed over.
    Kind,
}

fn event_word(refusal: EventRefusal) -> &'static str
    ensures { result.now ≡ event_word refusal }
{
    match refusal {
        EventRefusal::Gtid => "gtid",
        EventRefusal::Transaction => "transaction",
        EventRefusal::Table => "table",
        EventRefusal::Columns => "columns",
        EventRefusal::Gap => "gap",
    }
}

impl FileRefusal {
    ghost use Rattle.binlog_files.specs.Words.{word_of};

    /// The word that names it; where a text's import has a word for the same, it is that one.
    pub fn word(self) -> &'static str
        ensures { result.now ≡ word_of self }
    {
        match self {
            FileRefusal::Event(refusal) => event_word(refusal),
            FileRefusal::Format => "format",
            FileRefusal::Previous => "previous",
            FileRefusal::Statement => "statement",
            FileRefusal::Xa => "xa",
            FileRefusal::Gtid => "gtid",
            FileRefusal::Incident => "incident",
            FileRefusal::Compressed => "compressed",
            FileRefusal::Partial => "partial",
            FileRefusal::Type => "type",
            FileRefusal::Metadata => "metadata",
            FileRefusal::Value => "value",
            FileRefusal::Kind => "kind",
        }
    }
}

/// Why an event of a file is not taken.
#[derive(Clone, Copy, Debug, PartialEq, Eq)]
pub enum FileFault {
    /// Out of memory, or a set is full.
    Set(SetFault),
    /// The event is refused.
    Refused(FileRefusal),
}

impl From<AllocError> for FileFault {
    ghost from_gives = { λ _ e. e ≡ Set Memory };

    fn from(_e: AllocError) -> FileFault {
        FileFault::Set(SetFault::Memory)
    }
}

impl From<SetFault> for FileFault {
    ghost from_gives = { λ fault e. e ≡ Set fault };

    fn from(fault: SetFault) -> FileFault {
        FileFault::Set(fault)
    }
}

impl<T: Drop> From<AllocFailed<T>> for FileFault {
    ghost from_gives = { λ _ e. e ≡ Set Memory };

    fn from(_e: AllocFailed<T>) -> FileFault {
        FileFault::Set(SetFault::Memory)
    }
}
