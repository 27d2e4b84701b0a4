//! Tests of `derived_columns`: the hidden columns of images, with the weights that a server of MySQL 9.7.4 gives their texts
//! (`WEIGHT_STRING`), with prefixes, numbers and rows by hand, and the first column without a hidden value. There is no code here.
#![tactic(auto)]

#[cfg(test)]
mod images;
