//! The lines in which events and replies of a replica are written, in scripts and in histories, and its status. docs/SCRIPTS.md has the
//! language.
//!
//! What a contract sees: each line as a definition over the event or the reply that it shows. What is appended to a text is exactly
//! `reply_line`, `event_line` and `history_line`; a line has no line feed here. `status` gives exactly `status_text`.
//!
//! Of a received entry and of a transaction of the server's own the line is the first one alone: the lines of their changes are no part of it.
//!
//! A status has an owned GTID with its seat, in the order of GTIDs, where MySQL's `gtid_owned` has the thread. `each_owner_is_listed` is the
//! law that no seat is lost by that order.
//!
//! Not proved: what is left of a text when an allocation fails within a line; each caller drops the text then.
#![tactic(auto)]

mod event;
mod history_line;
mod replica_status;
mod reply;

pub use event::push_event;
pub use history_line::push_history_line;
pub use replica_status::{each_owner_is_listed, status};
pub use reply::push_reply;
