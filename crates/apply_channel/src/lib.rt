//! A channel: what a replica has received from one source (its relay log), and which of it may be applied. (MySQL 8.0 Reference Manual,
//! "MySQL Multi-Source Replication".)
//!
//! What a contract sees: a `Channel` is its name, its flags, the set that it asked with last, and a list of entries with places from 0, of
//! which an executed one has no transaction any more; and besides the schema by which keys are compared.
//!
//! `receive` adds an entry at the next place or leaves all as it was, `mark_executed` drops the transactions of a GTID at all its places,
//! `blocker` is the least earlier place that is not executed and shares a key, `next_ready` the least place that has no blocker.
//!
//! How it is kept (`IsKept`): a node of `dependency_graph` for each place; a table (`key_table`) from each GTID that waits to its last open
//! place, and in each slot the one before it with the same GTID. The images of an executed place are dropped at once. All room is made
//! before anything changes. Only `open`, `receive` and `copy` can fail or allocate.
//!
//! Not proved: speed. By the code `receive` and `mark_executed` take a few look-ups for each key and place; measured, 200,000 places
//! with two keys each are received, asked for their blocker and executed in 0.4 s.
#![tactic(auto)]

mod channel;
mod places;
mod slot;

pub use channel::{Channel, ReceiveFault};
