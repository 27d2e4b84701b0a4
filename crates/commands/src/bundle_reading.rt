//! Bundles that commands read.
ghost use Rattle.std.specs.Prelude.{◌≡◌, IfOk, IfErr};
ghost use Rattle.commands.specs.Parsing.{ParsesAsBundle, bundle_in};
ghost use Rattle.commands.specs.Counted.{ParsesAsCounted, counted_in, line_count};
ghost use Rattle.commands.specs.Edge.{ReadFault};
ghost use Rattle.commands.specs.Texts.{HasFound, IsTextOf};

use crate::edge::{RunFault, Sink, Source};
use crate::streams::Streams;
use crate::text::{CountedBundle, Text};
use std::alloc::Global;
use std::thread::Threads;
use txn_journal::{Bundle, JournalFault, decode_bundle};

/// The bundle that bytes parse as, all of the bytes.
pub(crate) fn decode_whole(alloc: Global, bytes: &[u8]) -> Result<Bundle, JournalFault>
    ensures { IsTextOf ParsesAsBundle bundle_in bytes.now result }
{
    decode_bundle(alloc, bytes)
}

/// How many lines bytes have.
pub(crate) fn count_lines(bytes: &[u8]) -> u64
    ensures { result ≡ line_count bytes.now }
{
    bytes.iter().filter(|b| **b == b'\n').count() as u64
}

/// What all bytes that a reader has left parse as. Their lines are parsed by several threads.
pub(crate) fn read_bundle<S: Source + Send, W: Sink, R: Threads + Sync>(
    rt: &R,
    alloc: Global,
    workers: u8,
    streams: &mut Streams<S, W>,
) -> Result<Result<CountedBundle, JournalFault>, RunFault>
    ensures output { streams.new.output ≡ streams.old.output }
    ensures read { IfOk result (HasFound ParsesAsCounted counted_in streams.old.input.left streams.new.input.left) }
    ensures fault { IfErr result (ReadFault streams.old.input streams.new.input) }
{
    match streams.read_beside(rt, alloc, workers) {
        Ok(reader) => Ok(<CountedBundle as Text>::finish(alloc, reader)),
        Err(fault) => Err(fault),
    }
}
