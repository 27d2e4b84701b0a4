//! Journals and bundles as text: readers that take a text in pieces, and writers (docs/FORMATS.md).
//!
//! `Reader` and `BundleReader` have `start`, `feed` and `finish`; `decode` and `decode_bundle` are one `feed` and `finish`. All versions of
//! the format are read; a journal is written by `encode` (version 1) and `encode_v2`, a bundle by `encode_bundle` in the version asked for.
//!
//! `ParsedLines` is a piece of text whose entries and changes were read beforehand, on any thread; `feed_parsed` of `BundleReader` takes it
//! as `feed` takes its text. A whole entry of version 1 with nothing wrong is taken at once: what its lines make one after another is a law.
//!
//! What a contract sees: a `Journal` is a previous set and a list of entries; a `Reader` is how far a text has come, what its whole lines
//! have made, or the fault at which it stopped. A grammar defines which lines write a value (`Writes`, `WritesBundle`). A text is read if
//! and only if it writes one (`found`, `only`), and a refusal names the first line with which no text begins, and its cause (`refused`);
//! `exact` states the same by the fold over bytes, so pieces make no difference (`any_cut`). After a fault every later call gives that
//! fault. A text has one value (`one_spelling`, `one_bundle`). A line that makes a set with too many sources is refused for them, whatever
//! memory there is, if it is the first of its piece and not the end of an entry that has numbers, in a bundle (`room` of `feed`).
//!
//! What is written is a text of its value by the grammar (`writes`). A bundle's type keeps that version 2 or version 3 can write it
//! (`Bundle::keeps_rules`), by the limits of its tables. For a journal it holds if it has no more than a text of versions 1 and 2 may have (`FitsText`: how many
//! entries, their limits and the names of their tables), for the type `Journal` takes more. What was read has no more, nor have a bundle's
//! journals (`IsWritten`).
//!
//! One theory serves journals and bundles: a record `Format` has the content of lines, the judge of lines and the last line, and both
//! formats are values of it (`specs/Formats`). A version is a value in the state of a reader, and no other theory. `placed` makes of a
//! format the one whose texts of version 3 may have the places of entries in a server's log: lines that no value has (`specs/Places`).
//!
//! Not proved: speed. Measured on 2026-11-27, a bundle of transactions of one row takes 2,200 instructions an entry (173 bytes). By the
//! code a reader is linear in its text: a line is copied only if it comes in more than one piece.
#![tactic(auto)]

mod assumptions;
mod bundle;
mod bundle_draft;
mod bundle_reader;
mod bundle_writer;
mod draft;
mod fault;
mod feed;
mod fitting;
mod images;
mod laws;
mod lines;
mod log_places;
mod names;
mod numbers;
mod open_bundle;
mod parsed_lines;
mod placed;
mod reader;
mod references;
mod spans;
mod statements;
mod tables;
mod timestamped_journal;
mod writer;

pub use assumptions::Assumption;
pub use bundle::{Bundle, BundleChannel};
pub use bundle_reader::{BundleReader, any_cut_of_bundles, decode_bundle, decode_bundle_by};
pub use bundle_writer::{bundle_text, encode_bundle};
pub use draft::MAX_ENTRIES;
pub use fault::{Cause, JournalFault};
pub use laws::{
    one_bundle, one_spelling, rows_in_listed_order, taken_in_front, timestamped_read_back,
    upgrade_keeps_bundle, version_three_widens_bundle,
};
pub use lines::{Due, Version};
/// The `last_committed` of each entry, which `encode_v2` writes as its stamp.
pub use logical_timestamps::last_committed_of as stamps;
pub use parsed_lines::ParsedLines;
pub use reader::{Reader, any_cut, decode, decode_v2};
pub use references::Reference;
pub use spans::{SpanList, has_spans, write_spans_word};
pub use timestamped_journal::TimestampedJournal;
pub use writer::{encode, encode_v2};
