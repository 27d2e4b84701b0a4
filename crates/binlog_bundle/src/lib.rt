//! Bundles whose journals are the logs of MySQL's servers, wherever a channel's log comes from (`Logs`): the text of `mysqlbinlog` 9.7
//! in the place of each journal (`TextLogs`, `import_bundle`), or binary log files by the names of channels (`FileLogs`, `import_files`).
//!
//! The input is a bundle of version 3 with the text of a channel's logs, or nothing, in the place of its journal, and which says two things
//! more. The line of a channel, `channel <name>[ preserve] executed <set>`, says what its server had executed when the logs were taken. Lines
//! `unsupported <what> <where>` before the first channel name what a bundle can't hold, such as a foreign key. Lines `collate <table> ..`
//! there say what hidden columns hold: what the server compares of a column in a key (`comparison_of`: weights of texts, prefixes, numbers), or
//! the text of whole rows, for a table without a key, where the opening rows aren't known. The text is cut at the lines of the bundle's own (`channel ..`, `done`), which no line of a log is (`logs_are_not_cut`). Each log is written as a journal by
//! `binlog_entries::journal_of`, and the reader of bundles is fed with the lines of the bundle, as they are without these two, and
//! with the text of each journal in its place. Rows of the head and entries of logs get their hidden values on the way (`weighed`); a log that
//! says that such a column is compared otherwise is refused, and one with a value that has no hidden value.
//!
//! What a bundle would hide is refused: a line `unsupported ..`; a channel's line that doesn't say what was executed; and a channel whose
//! server had executed anything that is neither in the opening set, nor in the set that was executed before its log, nor an entry of it.
//! An operator may grant foreign keys, that what was executed isn't known, and keys that aren't compared by bytes (`Grants`). The first two the
//! bundle then says in its `assume` lines, and also what of the opening set a channel's server hadn't executed, that damage in its log couldn't
//! be seen, and for the statements of which transactions an operator answers (`accepted_in`); of keys there is a note.
//!
//! What a contract sees: how a text is imported (`Terms`: what is granted, and where logs come from, `Origin`), a text, the bundle that it
//! describes and the notes (`ImportsLogs`): head and lines of channels are the same but for what was added, the journal of each channel
//! is that of its log (`BringsJournal`), before the last line are the lines of exactly what is assumed, and what was executed lies within. A
//! refusal is one of a log, of a line of the bundle's own, of a key, of a line `unsupported ..` or of what was executed, with its line or
//! channel (`IsNoImportOfLogs`); lines count over the whole text.
//!
//! Not proved: that what mysqlbinlog prints is what the server logged, that the sets and the lines `unsupported ..` are what the server
//! answered, and that each text which means a bundle is accepted: lines elsewhere than mysqlbinlog puts them are refused. Cost, from the
//! code: one pass over the input, and one over the GTIDs of each journal to make their set; an opening row is read twice.
#![tactic(auto)]

mod accepted;
mod assumed;
mod channels;
mod collate_lines;
mod comparison_words;
mod executed;
mod fault;
mod files;
mod grants;
mod head;
mod import;
mod laws;
mod lines;
mod logs;
mod names;
mod notes;
mod reading;
mod tables;
mod weighed;

pub use fault::{BundleFault, Logless, SourceFault};
pub use files::{ChannelFiles, FileLogs};
pub use grants::Grants;
pub use import::{ImportedBundle, import_bundle, import_bundle_from, import_files};
pub use laws::logs_are_not_cut;
pub use logs::{Logs, ReadChannel, TextLogs};
