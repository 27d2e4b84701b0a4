//! The CRC-32 of zlib, which the events of MySQL's binary logs have behind them, of bytes that come in pieces.
//!
//! What a contract sees: the CRC is defined bit by bit (`specs/Crc`), with no table in it; a `Crc32` is its word, a number below 2^32.
//! Eight tables of 256 words each are proved to be what eight or more shifts make of a byte, so eight bytes are taken at a time.
//!
//! Any cut of the bytes gives the same (`any_cut_is_same`). Bytes that differ, and within 32 bits in a row alone, have different CRCs
//! (`bursts_show`, `changed_bytes_show`); bytes with their CRC behind them that are the same but for 32 bits in a row, of which some may be
//! those of the CRC, are the same (`sealed_bursts_show`). `check_value` is the one value by which a CRC is known.
//!
//! Not proved: speed (over 1 GB/s).
#![tactic(auto)]

mod crc;
mod laws;
mod tables;

pub use crc::{Crc32, crc32_of};
pub use laws::{any_cut_is_same, bursts_show, changed_bytes_show, check_value, sealed_bursts_show};
