//! Why a pool is left as it was.
ghost use Rattle.std.specs.Prelude.{◌≡◌};
ghost use Rattle.interval_pool.specs.declared.fault.PoolFault.TheVariants.{Memory};

use std::alloc::AllocError;
use thiserror::Error;

/// Why a pool was not changed. The limit is our own rule.
#[derive(Clone, Copy, Debug, PartialEq, Eq, Error)]
pub enum PoolFault {
    /// Out of memory.
    #[error("out of memory")]
    Memory,
    /// The pool would have more than 4,294,967,294 intervals.
    #[error("too many intervals")]
    Full,
}

impl From<AllocError> for PoolFault {
    ghost from_gives = { λ _ e. e ≡ Memory };

    fn from(_e: AllocError) -> PoolFault {
        PoolFault::Memory
    }
}
