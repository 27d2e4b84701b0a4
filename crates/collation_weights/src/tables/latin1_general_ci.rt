//! The weights of latin1_general_ci, as MySQL 9.7.4-2 has them.
//! Written by tools/collations. Do not edit.
use crate::row::RowKind::{Rising, Same};
use crate::row::WeightRow;

#[rattlefmt::skip]
pub(crate) static ROWS: [WeightRow; 119] = [
    WeightRow(0x0, Rising, 0, 1), WeightRow(0x42, Same, 1, 1), WeightRow(0x43, Same, 2, 1), WeightRow(0x44, Same, 3, 1), WeightRow(0x45, Same, 4, 1), WeightRow(0x46, Same, 5, 1), WeightRow(0x47, Same, 6, 1), WeightRow(0x48, Same, 7, 1),
    WeightRow(0x49, Same, 8, 1), WeightRow(0x4A, Same, 9, 1), WeightRow(0x4B, Same, 10, 1), WeightRow(0x4C, Same, 11, 1), WeightRow(0x4D, Same, 12, 1), WeightRow(0x4E, Same, 13, 1), WeightRow(0x4F, Same, 14, 1), WeightRow(0x50, Same, 15, 1),
    WeightRow(0x51, Same, 16, 1), WeightRow(0x52, Same, 17, 1), WeightRow(0x53, Same, 18, 1), WeightRow(0x54, Same, 19, 1), WeightRow(0x55, Same, 20, 1), WeightRow(0x56, Same, 21, 1), WeightRow(0x57, Same, 22, 1), WeightRow(0x58, Same, 23, 1),
    WeightRow(0x59, Same, 24, 1), WeightRow(0x5A, Same, 25, 1), WeightRow(0x5B, Rising, 26, 1), WeightRow(0x61, Same, 27, 1), WeightRow(0x62, Same, 1, 1), WeightRow(0x63, Same, 2, 1), WeightRow(0x64, Same, 3, 1), WeightRow(0x65, Same, 4, 1),
    WeightRow(0x66, Same, 5, 1), WeightRow(0x67, Same, 6, 1), WeightRow(0x68, Same, 7, 1), WeightRow(0x69, Same, 8, 1), WeightRow(0x6A, Same, 9, 1), WeightRow(0x6B, Same, 10, 1), WeightRow(0x6C, Same, 11, 1), WeightRow(0x6D, Same, 12, 1),
    WeightRow(0x6E, Same, 13, 1), WeightRow(0x6F, Same, 14, 1), WeightRow(0x70, Same, 15, 1), WeightRow(0x71, Same, 16, 1), WeightRow(0x72, Same, 17, 1), WeightRow(0x73, Same, 18, 1), WeightRow(0x74, Same, 19, 1), WeightRow(0x75, Same, 20, 1),
    WeightRow(0x76, Same, 21, 1), WeightRow(0x77, Same, 22, 1), WeightRow(0x78, Same, 23, 1), WeightRow(0x79, Same, 24, 1), WeightRow(0x7A, Same, 25, 1), WeightRow(0x7B, Rising, 28, 1), WeightRow(0x7F, Rising, 29, 1), WeightRow(0xC0, Same, 30, 1),
    WeightRow(0xC1, Same, 31, 1), WeightRow(0xC2, Same, 32, 1), WeightRow(0xC3, Same, 33, 1), WeightRow(0xC4, Same, 34, 1), WeightRow(0xC5, Same, 35, 1), WeightRow(0xC6, Same, 36, 1), WeightRow(0xC7, Same, 37, 1), WeightRow(0xC8, Same, 38, 1),
    WeightRow(0xC9, Same, 39, 1), WeightRow(0xCA, Same, 40, 1), WeightRow(0xCB, Same, 41, 1), WeightRow(0xCC, Same, 42, 1), WeightRow(0xCD, Same, 43, 1), WeightRow(0xCE, Same, 44, 1), WeightRow(0xCF, Same, 45, 1), WeightRow(0xD0, Same, 46, 1),
    WeightRow(0xD1, Same, 47, 1), WeightRow(0xD2, Same, 48, 1), WeightRow(0xD3, Same, 49, 1), WeightRow(0xD4, Same, 50, 1), WeightRow(0xD5, Same, 51, 1), WeightRow(0xD6, Same, 52, 1), WeightRow(0xD7, Same, 53, 1), WeightRow(0xD8, Same, 54, 1),
    WeightRow(0xD9, Same, 55, 1), WeightRow(0xDA, Same, 56, 1), WeightRow(0xDB, Same, 57, 1), WeightRow(0xDC, Same, 58, 1), WeightRow(0xDD, Same, 59, 1), WeightRow(0xDE, Same, 60, 1), WeightRow(0xDF, Same, 61, 1), WeightRow(0xE0, Same, 30, 1),
    WeightRow(0xE1, Same, 31, 1), WeightRow(0xE2, Same, 32, 1), WeightRow(0xE3, Same, 33, 1), WeightRow(0xE4, Same, 34, 1), WeightRow(0xE5, Same, 35, 1), WeightRow(0xE6, Same, 36, 1), WeightRow(0xE7, Same, 37, 1), WeightRow(0xE8, Same, 38, 1),
    WeightRow(0xE9, Same, 39, 1), WeightRow(0xEA, Same, 40, 1), WeightRow(0xEB, Same, 41, 1), WeightRow(0xEC, Same, 42, 1), WeightRow(0xED, Same, 43, 1), WeightRow(0xEE, Same, 44, 1), WeightRow(0xEF, Same, 45, 1), WeightRow(0xF0, Same, 46, 1),
    WeightRow(0xF1, Same, 47, 1), WeightRow(0xF2, Same, 48, 1), WeightRow(0xF3, Same, 49, 1), WeightRow(0xF4, Same, 50, 1), WeightRow(0xF5, Same, 51, 1), WeightRow(0xF6, Same, 52, 1), WeightRow(0xF7, Same, 62, 1), WeightRow(0xF8, Same, 54, 1),
    WeightRow(0xF9, Same, 55, 1), WeightRow(0xFA, Same, 56, 1), WeightRow(0xFB, Same, 57, 1), WeightRow(0xFC, Same, 58, 1), WeightRow(0xFD, Same, 59, 1), WeightRow(0xFE, Same, 60, 1), WeightRow(0xFF, Same, 63, 1),
];

#[rattlefmt::skip]
pub(crate) static WEIGHTS: [u16; 64] = [
    0x00, 0x51, 0x53, 0x57, 0x5B, 0x65, 0x67, 0x69,
    0x6B, 0x75, 0x77, 0x79, 0x7B, 0x7D, 0x81, 0x8F,
    0x91, 0x93, 0x95, 0x98, 0x9A, 0xA4, 0xA6, 0xA8,
    0xAA, 0xAF, 0xB3, 0x41, 0xB9, 0xBF, 0x43, 0x45,
    0x47, 0x49, 0x4B, 0x4D, 0x4F, 0x55, 0x5D, 0x5F,
    0x61, 0x63, 0x6D, 0x6F, 0x71, 0x73, 0x59, 0x7F,
    0x83, 0x85, 0x87, 0x89, 0x8B, 0xBD, 0x8D, 0x9C,
    0x9E, 0xA0, 0xA2, 0xAC, 0xB1, 0x97, 0xBE, 0xAE,
];
