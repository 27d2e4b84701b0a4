//! What can be a key.
ghost use Rattle.std.specs.Prelude.{◌≡◌, IfOk};

use gtid_text::{Gtid, SourceId};
use std::alloc::AllocError;
use std::hash::Hash;

/// A key of a table: it is hashed, and in an order with the others.
pub trait TableKey: Ord + Hash + Drop {
    /// The same key again.
    fn again(&self) -> Result<Self, AllocError>
        ensures { IfOk result (λ key. key ≡ self.now) };
}

impl TableKey for SourceId {
    fn again(&self) -> Result<SourceId, AllocError> {
        Ok(*self)
    }
}

impl TableKey for Gtid {
    fn again(&self) -> Result<Gtid, AllocError> {
        Ok(*self)
    }
}

impl TableKey for u64 {
    fn again(&self) -> Result<u64, AllocError> {
        Ok(*self)
    }
}
