//! Rows of a whole, listed from parts that several threads made.
//!
//! What a contract sees: opening rows, and parts of a whole (`AreParts` of `rows`): each came from the opening rows, and under each key one
//! of them at most changed what was there. `list_whole` lends the rows of the whole with their primary keys, in the order of `list_lent`
//! of `rows`, though nobody holds the whole: no row is moved or copied.
//!
//! How it goes: each part lists, on a thread of its own, the rows that the opening rows don't have, in order, and one thread lists the
//! opening rows that every part still has. No key is in two of the lists, so that put one after another and sorted they are the list of the
//! whole. They are sorted by ranges of keys: each list is cut at the same three keys, a thread of its own merges what the lists have in one
//! range, and the ranges stand one after another. Where the keys are cut is a guess: any cuts deal out the same entries, and it is tested
//! whether each range begins after the one before; if one does not, all are sorted.
//!
//! Not proved: speed, and that a thread runs.
#![tactic(auto)]

mod listing;
mod ranges;

pub use listing::list_whole;
