//! The weights of ascii_general_ci, as MySQL 9.7.4-2 has them.
//! Written by tools/collations. Do not edit.
use crate::row::RowKind::Rising;
use crate::row::WeightRow;

#[rattlefmt::skip]
pub(crate) static ROWS: [WeightRow; 3] = [
    WeightRow(0x0, Rising, 0, 1), WeightRow(0x61, Rising, 1, 1), WeightRow(0x7B, Rising, 2, 1),
];

#[rattlefmt::skip]
pub(crate) static WEIGHTS: [u16; 3] = [
    0x00, 0x41, 0x7B,
];
