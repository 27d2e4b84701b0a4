//! The text of MySQL's binary logs, a line at a time, as `mysqlbinlog -v --base64-output=decode-rows --print-table-metadata` of MySQL 9.7
//! prints it.
//!
//! `read_line` gives the content of a line; `parse_type` the type that the text of a column names; `read_value` reads a value of such a
//! column.
//!
//! What a contract sees: `IsLine` is the grammar of lines, by the bytes of each kind. A line is read if and only if the grammar has it
//! (`found`, `only`), so a line has one content, and a line that is none has no content. A value is read if and only if its text is what
//! mysqlbinlog prints of it (`shown_value`): whole numbers by both readings, which must agree; DECIMAL and TIMESTAMP by their digits; BIT
//! and SET by their bits; strings and times by the bytes between the quotes, which have one spelling (`unquote`).
//!
//! Not read: FLOAT, DOUBLE, JSON, GEOMETRY and VECTOR, whose values are not printed whole; names with a backquote or
//! line feed.
//!
//! `compares_bytes` decides whether the server takes two values of a column for equal if and only if their bytes are. `collation_in` is the
//! collation that the text of a column's type names, where it is one of crate `collations`.
//!
//! Not proved: which lines may follow which (that is `binlog_entries`: a statement's text is printed raw and may hold any line), and that
//! these are the lines of a server. That is tested by lines of MySQL 9.7.
#![tactic(auto)]

mod lines;
mod maintenance;
mod quoted;
mod reading;
mod tokens;
mod type_text;
mod types;
mod values;

pub use lines::{Column, LogEvent, LogLine, Mark, RowOperation};
pub use quoted::unquote;
pub use reading::read_line;
pub use tokens::cut_at;
pub use type_text::{collation_in, compares_bytes, parse_type};
pub use types::{ColumnType, IntegerType};
pub use values::read_value;
