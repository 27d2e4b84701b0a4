//! The logical timestamps of a journal's entries, by which MySQL's binary log marks which transactions may be applied at the same time.
//! (MySQL 8.0 Reference Manual, `binlog_transaction_dependency_tracking`, WRITESET.)
//!
//! The sequence number of an entry is its place, from 1. Its last_committed is the place of the last entry before it that shares a key with
//! it, or 0: it shares no key with the entries in between, and so may be applied at the same time as they.
//!
//! What a contract sees: a list of numbers (`last_committed_of`), and a table of last writers by key, which `LastWriters::next` reads and
//! updates for whichever entries the table is of.
//!
//! How it is kept: a table (`key_table`) has the entry that touched each key last, so that each key of an entry is looked up once. MySQL
//! keeps hashes of keys, and forgets them if they are too many; here all keys are kept, and the keys themselves.
#![tactic(auto)]

mod laws;
mod writers;

pub use laws::last_committed_laws;
pub use writers::{LastWriters, last_committed_of};
