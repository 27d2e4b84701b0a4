//! The weights of latin1_swedish_ci, as MySQL 9.7.4-2 has them.
//! Written by tools/collations. Do not edit.
use crate::row::RowKind::{Rising, Same};
use crate::row::WeightRow;

#[rattlefmt::skip]
pub(crate) static ROWS: [WeightRow; 33] = [
    WeightRow(0x0, Rising, 0, 1), WeightRow(0x61, Rising, 1, 1), WeightRow(0x7B, Rising, 2, 1), WeightRow(0xC0, Same, 1, 1), WeightRow(0xC4, Same, 3, 1), WeightRow(0xC5, Rising, 4, 1), WeightRow(0xC7, Same, 5, 1), WeightRow(0xC8, Same, 6, 1),
    WeightRow(0xCC, Same, 7, 1), WeightRow(0xD0, Same, 8, 1), WeightRow(0xD1, Rising, 9, 1), WeightRow(0xD3, Same, 10, 1), WeightRow(0xD6, Same, 11, 1), WeightRow(0xD7, Rising, 12, 1), WeightRow(0xD9, Same, 13, 1), WeightRow(0xDC, Same, 14, 1),
    WeightRow(0xDE, Rising, 15, 1), WeightRow(0xE0, Same, 1, 1), WeightRow(0xE4, Same, 3, 1), WeightRow(0xE5, Rising, 4, 1), WeightRow(0xE7, Same, 5, 1), WeightRow(0xE8, Same, 6, 1), WeightRow(0xEC, Same, 7, 1), WeightRow(0xF0, Same, 8, 1),
    WeightRow(0xF1, Rising, 9, 1), WeightRow(0xF3, Same, 10, 1), WeightRow(0xF6, Same, 11, 1), WeightRow(0xF7, Same, 16, 1), WeightRow(0xF8, Same, 17, 1), WeightRow(0xF9, Same, 13, 1), WeightRow(0xFC, Same, 14, 1), WeightRow(0xFE, Same, 15, 1),
    WeightRow(0xFF, Same, 18, 1),
];

#[rattlefmt::skip]
pub(crate) static WEIGHTS: [u16; 19] = [
    0x00, 0x41, 0x7B, 0x5C, 0x5B, 0x43, 0x45, 0x49,
    0x44, 0x4E, 0x4F, 0x5D, 0xD7, 0x55, 0x59, 0xDE,
    0xF7, 0xD8, 0xFF,
];
