//! The result of a take.
use replica_core::Reply;
use rows::{Footprint, Transaction};

/// The reply to a take, and what a worker needs to prepare the transaction without the lock: the transaction, and all keys that it touches
/// with the rows that carried them at that moment. Nothing of that if the seat took nothing, if it took few changes, or if out of memory.
#[derive(Drop)]
pub struct Taking {
    pub reply: Reply,
    pub footprint: Option<(Transaction, Footprint)>,
}
