//! Values of rows, and images of rows, each of which is kept as its text.
//!
//! What a contract sees: a `Value` is null, a whole number of 64 bits or a string of bytes; a `Row` is the list of its values. A word is
//! read if and only if it is the one spelling of a value (`value_word`), and `write_value` appends that spelling (docs/FORMATS.md, section
//! 2). A text of such words with one blank between is an image (`Row::from_text`, `as_str`).
//!
//! How it is kept: since each value has one spelling, a row is the text of its values, in one shared block. Reading it is a test and a
//! copy, equality is that of the texts, and writing it is a copy. A value is read from its word when it is asked for (`value_at`). A byte
//! string of up to 22 bytes is held in place, and decoded and written on the stack; a longer one is one shared vector.
//!
//! How it is read: the search for the end of a word, of digits or of a line tests 16 bytes at a time (`runs`), so an image is tested in one
//! pass over its text (`first_value`).
//!
//! A count of any length is recognised by its form, apart from its value (`is_count`, `count`).
//!
//! Not proved: what is left of a text when an allocation fails within `write_value`; its callers drop the text then.
#![tactic(auto)]

mod first_value;
mod image_text;
mod key_values;
mod packed;
mod row;
mod runs;
mod short_bytes;
mod short_text;
mod value;
mod value_words;
mod words;

pub use key_values::KeyValues;
pub use row::Row;
pub use runs::first_line_feed;
pub use value::{ByteString, Value};
pub use value_words::{value_word, write_value};
pub use words::{count, cut, is_count};
