//! Text that is read in blocks, each while the lines of the one before are parsed.
ghost use Rattle.std.specs.Prelude.{◌≡◌, ◌<◌, IfOk, IfErr, OnOk};
ghost use Rattle.std.specs.Thread.{IsSync};
ghost use Rattle.commands.specs.Edge.{input_of, BlockFault, HasReadBlock, ReadFault};
ghost use Rattle.commands.specs.Texts.{HasAllCome, IsFed};

use crate::edge::{RunFault, Source};
use crate::reading::MOST_READS;
use parallel_reading::feed_beside;
use std::alloc::Global;
use std::mem;
use std::thread::{Threads, join_mut};
use txn_journal::BundleReader;

/// How many reads, of at most 65,536 bytes each, make the first block: 2 MiB. Nothing is parsed while it is read.
const FIRST_READS: usize = 32;

/// The most reads that make a block: 4 MiB. Freeing a larger one at the end takes milliseconds on one thread, and touching more fresh pages
/// costs more than reading anew into the same ones.
const MOST_BLOCK_READS: usize = 64;

/// Fills `block` by at most `reads` reads, in place of what it held; returns whether it is the last.
fn read_block<S: Source>(
    source: &mut S,
    reads: usize,
    block: &mut Vec<u8>,
) -> Result<bool, RunFault>
    requires { 0 < reads }
    ensures read { IfOk result (HasReadBlock (S.left source.old) (S.left source.new) block.new.items) }
    ensures calm { OnOk result (S.failed source.new ≡ S.failed source.old) }
    ensures fault { IfErr result (BlockFault (input_of S.left S.failed source.old) (input_of S.left S.failed source.new)) }
{
    block.clear();
    let mut piece = [0u8; 65_536];
    for _read in 0..reads {
        let Ok(n) = source.read(&mut piece) else {
            return Err(RunFault::Read);
        };
        if n == 0 {
            return Ok(true);
        }
        let Ok(()) = block.extend_from_slice(&piece[..n]) else {
            return Err(RunFault::Memory);
        };
    }
    Ok(false)
}

/// Twice as many reads, for the next block, up to the most. (While the lines of a block are parsed, twice as much can be read.)
fn more_reads(reads: usize) -> usize
    requires { 0 < reads }
    ensures { 0 < result }
{
    if reads < MOST_BLOCK_READS {
        reads * 2
    } else {
        reads
    }
}

/// Takes a block, whose lines are parsed by threads, while the next one is read.
fn take_and_read<S: Source + Send, R: Threads + Sync>(
    rt: &R,
    alloc: Global,
    workers: u8,
    reader: BundleReader,
    block: &[u8],
    source: &mut S,
    reads: usize,
    next: &mut Vec<u8>,
) -> (BundleReader, Result<bool, RunFault>)
    requires { 0 < reads }
    ensures taken { IsFed reader result.0 block.now }
    ensures read { IfOk result.1 (HasReadBlock (S.left source.old) (S.left source.new) next.new.items) }
    ensures calm { OnOk result.1 (S.failed source.new ≡ S.failed source.old) }
    ensures fault { IfErr result.1 (BlockFault (input_of S.left S.failed source.old) (input_of S.left S.failed source.new)) }
{
    let mut reader = reader;
    let (read, ()) = join_mut(
        rt,
        &mut || -> Result<bool, RunFault>
            requires { 0 < reads }
            ensures read { IfOk result (HasReadBlock (S.left source.entry.now) (S.left source.exit.now) next.exit.now.items) }
            ensures calm { OnOk result (S.failed source.exit.now ≡ S.failed source.entry.now) }
            ensures fault { IfErr result (BlockFault (input_of S.left S.failed source.entry.now) (input_of S.left S.failed source.exit.now)) }
        { read_block(source, reads, next) },
        &mut ||
            requires { IsSync R.row }
            ensures { IsFed reader.entry reader.exit block.entry.now }
        { feed_beside(rt, alloc, &mut reader, block, workers) },
    );
    (reader, read)
}

/// A reader of bundles after all bytes that a source has left. They are read in blocks, each while threads parse the lines of the one
/// before.
pub(crate) fn read_beside<S: Source + Send, R: Threads + Sync>(
    rt: &R,
    alloc: Global,
    workers: u8,
    source: &mut S,
) -> Result<BundleReader, RunFault>
    ensures read { IfOk result (HasAllCome (S.left source.old) (S.left source.new)) }
    ensures calm { OnOk result (S.failed source.new ≡ S.failed source.old) }
    ensures fault { IfErr result (ReadFault (input_of S.left S.failed source.old) (input_of S.left S.failed source.new)) }
{
    let mut reader = BundleReader::start(alloc);
    let mut block = Vec::new(alloc);
    let mut next = Vec::new(alloc);
    let mut reads = FIRST_READS;
    let mut is_last = read_block(source, reads, &mut block)?;
    for _turn in 0..MOST_READS {
        if is_last {
            feed_beside(rt, alloc, &mut reader, &block, workers);
            return Ok(reader);
        }
        reads = more_reads(reads);
        let (taken, read) = take_and_read(
            rt, alloc, workers, reader, &block, source, reads, &mut next,
        );
        reader = taken;
        match read {
            Ok(last) => is_last = last,
            Err(fault) => return Err(fault),
        }
        mem::swap(&mut block, &mut next);
    }
    Err(RunFault::Read)
}
