//! The events of a binary log of MySQL as lines of text: the offset, the kind and the length of each, and what it says.
//!
//! What a contract sees: `event_line` (`specs/Lines`) is the line of an event in its place, by the bytes of its body: the GTID of a GTID
//! event, also of one with a tag; the set of PREVIOUS_GTIDS; the name of the table that a TABLE_MAP maps, and that a rows event names by its
//! id, with how many rows it has, by the columns of the map and the grammar of `binlog_rows`; the text of a statement. An event whose body is
//! not in the form of its kind says `malformed`: its frame is sound, and the list goes on. `rows_beneath` (`specs/RowLines`) is the lines of
//! the rows of a rows event, which are listed below it where they are asked for (`EventDetail`).
//!
//! An `EventLister` is fed the bytes of a file in any pieces. What it has appended is the lines of the events that the bytes so far have,
//! by the grammar of `binlog_frames` (`HasCome`). `fault` is the first fault of a file that ends there, and no line comes after it
//! (`Lists`). Bytes have one list, and of a file it is that of its events (`one_list`, `file_is_listed`). What the lister keeps is one
//! event's bytes, and the names and columns of the tables that were mapped.
//!
//! Not read: what is in a TRANSACTION_PAYLOAD. The names and numbers of kinds are MySQL's; those of MariaDB are
//! listed by number.
#![tactic(auto)]

mod bodies;
mod gtids;
mod kinds;
mod laws;
mod lines;
mod lister;
mod names;
mod numbers;
mod previous;
mod row_lines;
mod text;

pub use bodies::{NamedTable, mapped, query_text, rows_id};
pub use gtids::gtid_of;
pub use laws::{file_is_listed, one_list};
pub use lister::{EventLister, fault_word, put_refusal};
pub use previous::previous_text;
pub use row_lines::EventDetail;
