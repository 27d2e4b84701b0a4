//! The columns of a TABLE_MAP of a binary log of MySQL, and the rows of the rows events that name it.
//!
//! What a contract sees: `columns_of` (`specs/Columns`) is the columns that the body of a TABLE_MAP describes, each with what the map says
//! of its values: their width, and whether integers have a sign (`specs/Signs`). `rows_of` (`specs/Rows`) is the rows of the body of a rows
//! event over such columns: the bytes of each value that its images have. Either is None where the body is not in that form, and then
//! `read_columns`, `count_rows` and `read_rows` give None. `value_of` (`specs/Values`) is the value that bytes are in a column, and
//! `rows_read` (`specs/Reading`) the rows of `rows_of` with their values. Of a JSON that is the text of the document (`json_text`,
//! `specs/Json`), since one document has several binary forms. `varied_columns` (`specs/Collations`) is which columns a server
//! compares otherwise than by their bytes, and by which collation; it is None too where a map doesn't say the signs of its numbers or the collations of its texts.
//!
//! Where a value lies is said once, by `value_by` (`specs/Images`). Counting takes time in proportion to the bytes: the columns that an
//! event's images have are looked for once for the event, and each row is passed over by these.
//!
//! Not read: of what a TABLE_MAP has behind its null bits all but signs and collations (names, keys, collations of ENUM and SET, which are
//! compared by their numbers); in a JSON doubles that a server prints with an exponent, and values of SQL types; PARTIAL_UPDATE_ROWS. Not
//! proved: that these are the bodies of a server, and the values those that it has. That is tested with logs of MySQL 9.7.
#![tactic(auto)]

mod bodies;
mod columns;
mod comparisons;
mod decimals;
mod digits;
mod doubles;
mod images;
mod json;
mod numbers;
mod options;
mod reading;
mod scalars;
mod signs;
mod texts;
mod times;
mod values;

pub use bodies::count_rows;
pub use columns::{MappedColumn, Signedness, read_columns};
pub use comparisons::{VariedPlace, varied_columns};
pub use reading::{LoggedRow, LoggedRows, read_rows};
pub use values::value_of;
