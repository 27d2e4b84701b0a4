//! The executed sets of several servers, compared.
//!
//! A text has a line for each server: its name, its UUID, and the set that it has executed. The answer has the union of all sets, and for
//! each server what it lacks of that union, its gaps (the GTIDs that it lacks below one that it has of the same source), and what it
//! alone has: transactions that no other server has, and so errant ones wherever these servers replicate from one another.
//!
//! A contract sees a server as its name, its UUID and a finite set of pairs (source, number).
#![tactic(auto)]

mod filling;
mod laws;
mod lines;
mod server;
mod together;

pub use filling::gaps;
pub use laws::{gaps_lie_below, shared_by_two};
pub use lines::{Compared, compare};
pub use server::{Server, read_servers};
pub use together::{Together, all_together};
