//! The journals of sources that share no key, merged by several threads: each applies what some of the sources committed.
//!
//! What a contract sees: if `merge_by_shares` gives something, the verdict of the audit on the journals is Sound, the set is that of all
//! journals together, and the rows are parts of those that it denotes (`AreMerged`), what a replica holds that has executed all of them:
//! under each key the row is the opening one, or that of the part that changed it (`AreParts` of `rows`). If it gives nothing, no clause
//! tells why: out of memory, or the journals are not of the kind that one pass of the audit can take, or they have so few changes that
//! copies of the opening rows would not pay.
//!
//! How it goes: one pass lists the first entry of each GTID (`audit::list_agreeing`), while another thread tests that the journals begin in
//! order (`audit::begin_in_order`). The sources are then put into as many shares as there are threads, and each thread applies one share to
//! a copy of the opening rows, while others search for a key of two sources (`apart`): four list the marks of what parts of the entries
//! touch, and then each of four examines one part of the marks. Since sources share no key, the shares change different keys; that their
//! rows are parts of the rows of all is a law of `history` (`shares_are_parts`). Nothing is joined: `row_parts` lists the rows of all from
//! the parts. A thread that can't be started leaves its work to the caller's.
//!
//! Not proved: speed, that shares are of one size, and that a thread runs. The thread that applies a share tells a gate when it begins and
//! when it ends (`ShareGate`): so a test of `worked_gates` shows that two shares are applied at the same time.
#![tactic(auto)]

mod apart;
mod applying;
mod executing;
mod gate;
mod gathering;
mod merging;
mod sharing;

pub use gate::{NoShareGate, ShareGate};
pub use merging::{Merged, merge_by_shares};
