ghost use Rattle.std.specs.Prelude.{◌≡◌};
ghost use Rattle.gtid_set.specs.declared.fault.SetFault.TheVariants.{Memory};
ghost use Rattle.gtid_set.specs.Full.{fault_of};

use gtid_text::TextFault;
use interval_pool::PoolFault;
use std::alloc::{AllocError, AllocFailed};
use thiserror::Error;

/// Why a set was not made or changed. The limits are our own rule.
#[derive(Clone, Copy, Debug, PartialEq, Eq, Error)]
pub enum SetFault {
    /// Out of memory.
    #[error("out of memory")]
    Memory,
    /// The pool of intervals has no room left.
    #[error("too many intervals")]
    PoolFull,
    /// The set would have more than 65,536 sources.
    #[error("too many sources")]
    SourcesFull,
}

impl From<AllocError> for SetFault {
    ghost from_gives = { λ _ e. e ≡ Memory };

    fn from(_e: AllocError) -> SetFault {
        SetFault::Memory
    }
}

impl<T: Drop> From<AllocFailed<T>> for SetFault {
    ghost from_gives = { λ _ e. e ≡ Memory };

    fn from(_e: AllocFailed<T>) -> SetFault {
        SetFault::Memory
    }
}

impl From<PoolFault> for SetFault {
    ghost from_gives = { λ fault e. e ≡ fault_of fault };

    fn from(fault: PoolFault) -> SetFault {
        match fault {
            PoolFault::Memory => SetFault::Memory,
            PoolFault::Full => SetFault::PoolFull,
        }
    }
}

/// Why a text was not read as a set.
#[derive(Clone, Copy, Debug, PartialEq, Eq, Error)]
pub enum SetTextFault {
    /// The text parses as no set, or out of memory while a set's text was read.
    #[error("{0}")]
    Text(TextFault),
    /// The set could not be made.
    #[error("{0}")]
    Set(SetFault),
}
