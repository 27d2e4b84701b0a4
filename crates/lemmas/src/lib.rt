//! Lemmas that the proofs of many crates cite and std doesn't have: of tests, numbers, options and lists, and of GTIDs that are the same.
//!
//! There is nothing to call. A change here is a check of everything.
