//! A replica under one lock, for threads that each hold a pass. The threads are linearizable: the calls of each thread are, in order, in
//! one sequential history, and `close` proves that the logs of all threads cover it.
//!
//! What a contract sees: a `SharedReplica` is the core with which it was opened and the number of its seats; a `Pass` is its seat, what its
//! share has counted, and its log of receipts, each a step (event and reply) with its place in the history; a `ClosedBook` is the opening,
//! the steps, the core after them, each seat's receipts and the counts. A type parameter (`Naming`) names one shared replica.
//!
//! Under the lock (`IsBook`): the steps are what the machine does from the opening, reply for reply, and leave the core that is there;
//! the total (`commit_ledger`) counts them. Each of the eleven calls has one clause, `Makes`: after a reply the pass has one step and one
//! receipt more; after an error it is as before, and so is the history.
//!
//! `close` (`IsClosed`): the receipts of all passes are the steps, each at its place, ascending within a pass, none twice and none
//! missing.
//!
//! How it is kept: all copies and all room are made before the core changes. The opening is a member of the type parameter, so it is not
//! copied.
//!
//! Not proved: that a lock is acquired, which thread comes first, that a place that `ready_places` gives is still free, and that a
//! footprint is of what the seat holds: a commit validates it.
#![tactic(auto)]

mod book;
mod closed;
mod closing;
mod copies;
mod draft;
mod naming;
mod pass;
mod replica;
pub mod room;
mod same;
mod step;
mod taking;

pub use book::Book;
pub use closed::ClosedBook;
pub use naming::{LedgersOf, Naming};
pub use pass::Pass;
pub use replica::SharedReplica;
pub use step::{Receipt, Step};
pub use taking::Taking;
