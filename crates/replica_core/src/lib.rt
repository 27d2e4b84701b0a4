//! The state machine of a replica: one event, one reply, one new state.
//!
//! What a contract sees: a `Core` is its own UUID and schema, which never change (`Site`), and its state: the executed set, the rows, which
//! seat took which place, the channels, and its own journal (`State`). `step` of `specs/Machine` is the machine as a function, one
//! definition for each of the ten events, with the replies in the order in which they are tested; `Core::step` refines it (`ok`), and after
//! an error nothing has changed (`err`). An error comes only in place of a reply that allocates (`fault`), and is a failed allocation only
//! if the set that the event makes, if it makes one, has not too many sources (`room`).
//!
//! Kept by the type: the executed set is that of the own journal; a received entry has its transaction if and only if its GTID is not
//! executed; each such transaction fits the schema; the place that a seat took has its transaction, and no GTID is at two seats
//! (`one_seat_each`).
//!
//! `laws::order_is_preserved`: on a channel that preserves its order (`replica_preserve_commit_order`) each commit finds all earlier
//! places executed. `footprint` and `commit_prepared` are optimistic concurrency control: a transaction is prepared without the lock and
//! validated when it is committed. `receive_and_commit` makes three events at once, and keeps no keys of an entry that waits for nothing.
//!
//! How it is kept: a commit appends to the own journal first, which can be taken back without memory, then applies the transaction to the
//! rows, which a refusal leaves unchanged; the rest cannot fail. No set and no rows are copied. The search for an owner looks at 64 seats.
//!
//! Not proved: speed, and that a run goes on.
#![tactic(auto)]

mod at_once;
mod channels;
mod commit;
mod event;
mod feed;
pub mod laws;
mod local;
mod machine;
mod prepared;
mod query;
mod room;
mod same;
mod step;
mod take;

pub use event::{Event, Reply, Spot};
pub use machine::Core;
