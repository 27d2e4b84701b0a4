//! Each character weighs its code point.
use crate::row::RowKind::Rising;
use crate::row::WeightRow;

pub(crate) static ROWS: [WeightRow; 1] = [WeightRow(0x0, Rising, 0, 1)];

pub(crate) static WEIGHTS: [u16; 1] = [0x00];
