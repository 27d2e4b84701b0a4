//! The hidden columns that are derived from images: of the values of a column what a server compares of them in a key, or the text of a whole row.
//!
//! A server of MySQL takes 'Hat' and 'hat' for one key where the collation says so, compares the first characters alone in a key of a prefix,
//! and takes 0 and -0 of FLOAT and DOUBLE for equal; a bundle compares keys by their bytes. So an image gets a hidden column with what is
//! compared, behind all other columns (docs/FORMATS.md, section 5, `hidden`): two images have equal hidden values in it exactly if their values
//! are one value of the key (`hidden_values_tell_keys`). A table without a key has the text of its row there, which tells rows apart
//! (`hidden_values_tell_rows`).
//!
//! What a contract sees: a `Derivation` is a list of what hidden columns hold, each of its table. What a table's nth column of this list holds
//! is in the nth place behind the image (`hidden_columns_are_behind`). What is derived from an image, a change or entries is one definition,
//! whose error is the first part of a key without a hidden value: of a number, of bytes that are no text of the collation's character set or
//! no FLOAT or DOUBLE, and where the image has no such column. Null stays null.
//!
//! How it is kept: the list once more in a table by the names of its tables (`tables`). An image of a table without hidden columns is
//! shared, and so are the changes of an entry that touches no other tables. Else the text of the image is copied, with the words of the
//! hidden values behind; of its values none is read but those of the parts, unless a table has more than 16 hidden columns.
//!
//! Not proved: speed. An image that gets hidden columns is tested once more as a text (`Row::from_text`).
#![tactic(auto)]

mod column;
mod compared;
mod derivation;
mod entries;
mod fault;
mod hidden;
mod images;
mod laws;
mod tables;

pub use column::{DerivedColumn, KeyComparison, KeyPart};
pub use derivation::Derivation;
pub use fault::DerivationFault;
pub use laws::{
    gtids_stay, hidden_columns_are_behind, hidden_values_tell_keys, hidden_values_tell_rows,
};
