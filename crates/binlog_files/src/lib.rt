//! What the events of binary log files of MySQL tell of a log's transactions, read from bytes that come in any pieces.
//!
//! What a contract sees: `told` (`specs/Told`) is what an event tells, in the words of `log_transactions`, where these tables are mapped, or why
//! it is refused; `take_events` (`specs/Taking`) is a state after events, of which transactions of the opening set are passed over, whatever they
//! hold. An operator may answer for the statements of some transactions (`GivenSets`): those that may be accepted (`may_be_accepted`,
//! `specs/Accepted`) and come right behind their GTID are entries without changes then. `LogFiles` is fed the bytes of the files of a log, one file after another (`HasTaken`). A file whose bytes are not those of events, by
//! the grammar of `binlog_frames`, or an event that is refused, ends the reading, with the event's offset (`IsDamaged`, `IsRefused`).
//! `read_files` does so with files that are there whole: what they tell of a log, its entries denote (`AreFilesOf`), or a file of this number
//! stops it (`StopsInFiles`). `is_unchecked` is whether a file has no checksums (`has_no_checksums`): damage in it can't be seen.
//!
//! A TABLE_MAP tells its table, the number of its columns, and which of these a server compares otherwise than by their bytes. One that doesn't
//! say its signs or collations is refused: nothing is guessed.
//!
//! What is kept is one event's bytes, the tables that were mapped, and the log; by `read_files` the bytes of one file more.
//!
//! Not read: what is in a TRANSACTION_PAYLOAD, GTIDs with tags, PARTIAL_UPDATE_ROWS: they are refused by name. Not proved: that these are the
//! bodies of a server. A log of MySQL 9.7.4 was read so once, and gave the changes that `import` reads of its text (988 of 450 transactions);
//! of the maps of another one, with all of its collations, the varied columns were those of its text. No test of the repository does that yet.
#![tactic(auto)]

mod accepted;
mod bodies;
mod fault;
mod files;
mod given;
mod mapping;
mod previous;
mod row_events;
mod statements;
mod tables;
mod taking;
mod whole;

pub use fault::{FileFault, FileRefusal};
pub use files::{FilesFault, LogFiles};
pub use given::GivenSets;
pub use whole::{FiledFault, FiledTransactions, read_files};
