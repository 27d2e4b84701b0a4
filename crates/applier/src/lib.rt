//! Workers that apply what a replica has received, each on a thread of its own if one can be started, and what is done without threads once
//! they have ended.
//!
//! A worker rolls back what its seat holds, then takes places: by a ticket of its own deque, else by one stolen from another worker, else
//! by asking the channels. What it took it prepares without the lock and commits by the prepared write. A commit that comes too early on
//! a channel that preserves its order is tried again, at most 1,000 times.
//!
//! What a contract sees: the passes of `shared_replica`. `run_workers` gives them back in order, each with its earlier receipts as a prefix
//! and further ones of Take, Commit and Rollback alone (`AllGoOn`), also if out of memory or if a thread cannot be started. `drain` does,
//! on one thread, what they left to do: then no seat holds a place, and each channel is stopped or has executed all that it received
//! (`rests`, `ends`).
//!
//! Tickets are hints: those that were put are those that were taken and those in the deques, each once (`Balanced`), and a Take decides
//! whether a ticket's place is still free.
//!
//! Not proved: that the workers get anything done, how many threads there are, and which of their faults is reported. Tests in
//! `worked_gates` show that they run at the same time and steal one another's tickets.
#![tactic(auto)]

mod draining;
mod gate;
mod hand;
mod round;
mod work;
mod workers;

pub use draining::drain;
pub use gate::{Gate, NoGate};
pub use hand::{Hand, Ticket, make_hands};
pub use workers::{WorkersEnd, run_workers};
