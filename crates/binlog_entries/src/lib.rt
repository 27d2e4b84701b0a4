//! The text of MySQL's binary logs as entries: the lines of `binlog_text`, which tell the events of `log_transactions`.
//!
//! `LogReader` takes the text in pieces (`start`, `feed`, `finish`), and `read_log` is one `feed` and `finish`. Each is given the opening set:
//! what comes before the log. `LoggedTransactions` are the set that was executed before, by the first file, and the entries in order.
//! `journal_of` writes them, wherever they were read, as a journal's text, by version 3 of the format; `import_journal` is `read_log` and that.
//!
//! What a contract sees: `takes` defines which kinds of lines are allowed in the body of which event, `events_of` which events of
//! `log_transactions` a line tells, and `take_content` what it adds besides: the types of columns, and the row that is open. `IsLog` says
//! that the lines are taken where they stand, that what they tell is the events of a log with these entries (`AreOfLog`), and that what they
//! mean is what the entries denote: GTIDs, rows with their operation, table and images, and commits. Nothing is dropped, doubled or moved
//! (`lines_mean_entries`), and it makes no difference where a text is cut (`cut_anywhere`). A refusal names the first line that is refused,
//! but for rows that lack: it names the line before, which is the head of their event.
//!
//! Two faults of a text that looks whole are refused. `HaveRows`: mysqlbinlog prints the rows of a statement after the head of the rows
//! event that ends it, whatever tables and operations they are of, and without `-v` it prints none. So that head has a row after it, and no
//! transaction ends within a statement. `NoGap`: the previous set of each file but the first lies within the opening set, the previous set
//! of the first file and the GTIDs that came (else a file was left out). A previous set that comes after a GTID is one of a later file.
//!
//! Rows are taken in the bodies of rows events alone, so what a statement's text prints is never taken for rows
//! (`statements_hold_no_rows`). Statements, DDL, XA and partial row images are refused; a statement of maintenance is an entry without
//! changes. Columns that the server compares otherwise than by bytes are known from the log. A key with such a column is refused, by its
//! table and column, unless the caller asks for bytes: then the tables with such keys are listed.
//! An entry that passes a limit of the journal's format is refused by that limit (`Limit`).
//!
//! Not proved: that what mysqlbinlog prints is what the server logged, and what was executed before the first file. Run by hand: 27 MB of
//! two servers of MySQL 9.7 with 5,735 random transactions gave the rows that the servers have, at 120 MB/s.
#![tactic(auto)]

mod as_journal;
mod bodies;
mod draft;
mod fault;
mod import;
mod keys;
mod laws;
mod limits;
mod parts;
mod reader;
mod tables;
mod unread;

pub use as_journal::LogFault;
pub use draft::LogDraft;
pub use fault::{EntryFault, EntryRefusal, ReadFault};
pub use import::{ImportFault, ImportedJournal, import_journal, journal_of};
pub use laws::{cut_anywhere, lines_mean_entries, statements_hold_no_rows};
pub use limits::Limit;
pub use log_transactions::{LoggedTransactions, Varied};
pub use reader::{LogReader, cut_line, read_log};
