//! Tests of calls that no program makes, and of threads, by public calls alone. There is no code here: a crate with tests of its own is
//! proved twice, and here they cost no crate a second proof.
//!
//! What they must answer was written down by hand before anything ran. What a program prints for an input is in tests/cases.
//!
//! Lists of intervals after each of some calls (`interval_pool`); the end of a run of numbers, and sets that grow (`gtid_set`); a row found
//! by its key (`rows`); audits over opening sets that are not empty, and of other journals than the world was made of (`audit`); what a
//! source without a UUID sends (`auto_position`); a reader that keeps its refusal and gives its entries once, bundles in pieces, and
//! numbers as they are written (`txn_journal`); a graph of dependencies (`dependency_graph`); keys and patches (`write_set`); events in one
//! run (`replica_core`, `network`); a ring (`network`); seats of a shared replica: calls by turns, a write prepared without the lock, one
//! that comes too late, two commits on threads, and `close` with a pass too few (`shared_replica`); what a drain adds (`applier`); lines of
//! a history (`replica_lines`); the numbers of a small journal (`logical_timestamps`); and lines, types, values and whole logs of MySQL 9.7,
//! with the collations of columns (`binlog_text`, `binlog_entries`, `log_transactions`).
#![tactic(auto)]

#[cfg(test)]
mod audits;
#[cfg(test)]
mod calls;
#[cfg(test)]
mod cuts;
#[cfg(test)]
mod graphs;
#[cfg(test)]
mod histories;
#[cfg(test)]
mod history_lines;
#[cfg(test)]
mod intervals;
#[cfg(test)]
mod last_committed;
#[cfg(test)]
mod log_lines;
#[cfg(test)]
mod logs;
#[cfg(test)]
mod lookups;
#[cfg(test)]
mod pairs;
#[cfg(test)]
mod patches;
#[cfg(test)]
mod pieces;
#[cfg(test)]
mod positions;
#[cfg(test)]
mod ring;
#[cfg(test)]
mod runs;
#[cfg(test)]
mod seats;
#[cfg(test)]
mod sets;
#[cfg(test)]
mod sources;
#[cfg(test)]
mod written;
