//! What texts weigh by a collation: two texts are equal to a server of MySQL if and only if they weigh the same.
//!
//! What a contract sees: `weights` (`specs/Weights`) is what a text weighs, as bytes, and none where its bytes are no text of the collation's
//! character set (`characters`, `specs/Characters`). The characters' own weights stand one after another, by the rows of a table
//! (`weights_at`, `specs/Rows`): nothing is normalized, and no pair of characters weighs otherwise than its two. Where the server pads with
//! blanks (PAD SPACE), weights of a blank at the end are taken away. By utf8mb4_0900_as_cs the weights of one level stand behind those of
//! the other, with a weight 0 between them.
//!
//! `first_characters` are those that a key on a column's prefix takes: it is their weights that count then.
//!
//! Rows are data, `src/tables`, which `tools/collations` writes from what a server answers; the definitions cite the very rows that the code
//! searches. That the rows rise, and have their weights within their table, is proved.
//!
//! Not proved: that a server goes by these rows and rules. Tests compare 3,100 pairs of texts with what a server 9.7.4 calls equal.
#![tactic(auto)]

mod character_set;
mod level;
mod prefix;
mod row;
mod tables;
mod weighing;

pub use prefix::first_characters;
pub use weighing::weigh;
