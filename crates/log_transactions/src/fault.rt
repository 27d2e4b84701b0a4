//! Why an event is not taken.
ghost use Rattle.std.specs.Prelude.{◌≡◌};
ghost use Rattle.gtid_set.specs.declared.fault.SetFault.TheVariants.{Memory};
ghost use Rattle.log_transactions.specs.declared.fault.EventFault.TheVariants.{Set};

use gtid_set::SetFault;
use std::alloc::{AllocError, AllocFailed};

/// What is wrong with an event.
#[derive(Clone, Copy, Debug, PartialEq, Eq)]
pub enum EventRefusal {
    /// A GTID inside a transaction.
    Gtid,
    /// An event of a transaction outside of one, a second beginning, or an end within a statement of rows.
    Transaction,
    /// A table that no event of the statement maps, or one without a name.
    Table,
    /// A row that lacks a column, or has one too many.
    Columns,
    /// A previous set of a later file with GTIDs that are neither in the opening set nor in the log before it.
    Gap,
}

/// Why an event is not taken.
#[derive(Clone, Copy, Debug, PartialEq, Eq)]
pub enum EventFault {
    /// Out of memory, or a set is full.
    Set(SetFault),
    /// The event is refused.
    Refused(EventRefusal),
}

impl From<AllocError> for EventFault {
    ghost from_gives = { λ _ e. e ≡ Set Memory };

    fn from(_e: AllocError) -> EventFault {
        EventFault::Set(SetFault::Memory)
    }
}

impl From<SetFault> for EventFault {
    ghost from_gives = { λ fault e. e ≡ Set fault };

    fn from(fault: SetFault) -> EventFault {
        EventFault::Set(fault)
    }
}

impl<T: Drop> From<AllocFailed<T>> for EventFault {
    ghost from_gives = { λ _ e. e ≡ Set Memory };

    fn from(_e: AllocFailed<T>) -> EventFault {
        EventFault::Set(SetFault::Memory)
    }
}
