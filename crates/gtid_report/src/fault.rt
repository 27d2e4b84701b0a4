ghost use Rattle.std.specs.Prelude.{◌≡◌};
ghost use Rattle.gtid_report.specs.Faults.{text_fault, set_fault};
ghost use Rattle.gtid_report.specs.declared.fault.Fault.TheVariants.{Memory};

use crate::refusal::Refusal;
use gtid_set::SetFault;
use gtid_text::TextFault;
use std::alloc::AllocError;

/// Why there is no answer.
#[derive(Clone, Copy, Debug, PartialEq, Eq, Drop)]
pub enum Fault {
    /// Out of memory.
    Memory,
    /// The content is refused.
    Refused(Refusal),
}

impl From<AllocError> for Fault {
    ghost from_gives = { λ _ e. e ≡ Memory };

    fn from(_e: AllocError) -> Fault {
        Fault::Memory
    }
}

impl From<TextFault> for Fault {
    ghost from_gives = { λ fault e. e ≡ text_fault fault };

    fn from(fault: TextFault) -> Fault {
        match fault {
            TextFault::Memory => Fault::Memory,
            TextFault::BadUuid(at) => Fault::Refused(Refusal::BadUuid(at)),
            TextFault::NoInterval(at) => Fault::Refused(Refusal::NoInterval(at)),
            TextFault::BadNumber(at) => Fault::Refused(Refusal::BadNumber(at)),
            TextFault::NumberRange(at) => Fault::Refused(Refusal::NumberRange(at)),
            TextFault::Reversed(at) => Fault::Refused(Refusal::Reversed(at)),
            TextFault::Stray(at) => Fault::Refused(Refusal::Stray(at)),
        }
    }
}

impl From<SetFault> for Fault {
    ghost from_gives = { λ fault e. e ≡ set_fault fault };

    fn from(fault: SetFault) -> Fault {
        match fault {
            SetFault::Memory => Fault::Memory,
            SetFault::PoolFull => Fault::Refused(Refusal::PoolFull),
            SetFault::SourcesFull => Fault::Refused(Refusal::SourcesFull),
        }
    }
}
