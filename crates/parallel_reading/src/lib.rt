//! Bundles that several threads read: their lines are parsed at the same time, and taken in order.
//!
//! What a contract sees: the bytes of the text, and the bundle or the fault that they are. The clauses of `decode_beside` are those of
//! `decode_bundle` of `txn_journal`: the same text is accepted as the same bundle, and refused at the same line for the same cause,
//! whatever the number of threads, whichever of them could be started and however the text is cut into parts. `feed_beside` takes
//! one more piece, for callers that read while it does.
//!
//! How it goes: a text is cut into blocks of 1 MiB for each thread that parses, and a block into as many parts, cut anywhere. Whole
//! entries, and what lines of changes write elsewhere, are read on those threads (`ParsedLines` of `txn_journal`), while another takes them
//! of the block before in order, since each line is judged by what those before it have made. If there is no memory for the parts of a
//! block, its bytes are taken as they are. A thread that can't be started leaves its work to the caller's.
//!
//! Not proved: speed, and that a thread runs.
#![tactic(auto)]

mod parts;
mod reading;

pub use reading::{decode_beside, feed_beside};
