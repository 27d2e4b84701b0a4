//! Tests of `collations` and `collation_weights` by what a server of MySQL 9.7.4 answers. There is no code here.
//!
//! Pairs of texts, each with whether the server calls them equal: `drawn_pairs` from all characters, with other spellings and characters
//! that are ignored; `near_pairs` by `tools/collations --pairs`, for each collation. Weights that the manual or the server prints, texts
//! that are none of their character set, and names and numbers of collations.
#![tactic(auto)]

#[cfg(test)]
mod drawn_pairs;
#[cfg(test)]
mod names;
#[cfg(test)]
mod near_pairs;
#[cfg(test)]
mod pairs;
#[cfg(test)]
mod texts;
