//! A reader of bundles that is fed with parsed lines.
ghost use Rattle.std.specs.Prelude.{◌≡◌, ◌++◌, ◌<◌, ◌≤◌, ℕ, List, IfOk, IfErr};
ghost use Rattle.std.specs.List.{concat};
ghost use Rattle.std.specs.Thread.{IsSync};
ghost use Rattle.txn_journal.specs.BundleStates.{BundleValue};
ghost use Rattle.txn_journal.specs.BundleText.{WritesBundle};
ghost use Rattle.txn_journal.specs.BundleRefused.{RefusesBundle};
ghost use Rattle.txn_journal.specs.Stream.{IsWhole, IsRead};
ghost use Rattle.txn_journal.specs.BundleReading.{bundle_start, feed_bundle_bytes, closing_bundle};
ghost use Rattle.txn_journal.specs.declared.lines.Due.TheVariants.{Any};
ghost use Rattle.parallel_reading.specs.Coming.{HasCome};

use crate::parts::{cut_block, parse_block};
use rows::Limits;
use std::alloc::{AllocError, Global};
use std::thread::Threads;
use std::{mem, thread};
use txn_journal::{Bundle, BundleReader, JournalFault, ParsedLines};

/// How many bytes a thread parses at a time, at most.
const PART: usize = 1_048_576;

/// How many it parses at least, unless that is all.
const LEAST_PART: usize = 262_144;

/// The most threads that parse lines.
const MOST_PARSERS: usize = 4;

/// How many bytes each thread parses next, at most, if `left` bytes are left. The parts become smaller towards the end, because nothing is
/// parsed while the last ones are taken.
fn part_size(left: usize, parsers: usize) -> usize
    requires some { 0 < parsers }
    requires few { parsers ≤ 4 }
    ensures some { 0 < result }
    ensures most { result ≤ 1048576 }
{
    (left / (2 * parsers)).clamp(LEAST_PART, PART)
}

/// Takes parts in their order.
fn take_all(alloc: Global, reader: &mut BundleReader, parsed: Vec<ParsedLines<'_>>)
    ensures { (bytes : List ℕ) → HasCome reader.old bytes → HasCome reader.new (bytes ++ concat parsed.entry.items) }
{
    for part in parsed {
        let _ = reader.feed_parsed(alloc, part);
    }
}

/// Takes a block, whose lines were parsed, unless there was no memory for them.
fn take_block(
    alloc: Global,
    reader: &mut BundleReader,
    block: &[u8],
    parsed: Result<Vec<ParsedLines<'_>>, AllocError>,
)
    requires { IfOk parsed (λ parsed. concat parsed.items ≡ block.now) }
    ensures { (bytes : List ℕ) → HasCome reader.old bytes → HasCome reader.new (bytes ++ block.now) }
{
    match parsed {
        Ok(parsed) => take_all(alloc, reader, parsed),
        Err(_) => {
            let _ = reader.feed(alloc, block);
        }
    }
}

/// Takes a block while the lines of the next one are parsed by these limits, in parts of `part` bytes.
fn take_and_parse<'a, R: Threads + Sync>(
    rt: &R,
    alloc: Global,
    reader: BundleReader,
    block: &'a [u8],
    parsed: Result<Vec<ParsedLines<'a>>, AllocError>,
    next: &'a [u8],
    limits: Limits,
    part: usize,
) -> (BundleReader, Result<Vec<ParsedLines<'a>>, AllocError>)
    requires block { IfOk parsed (λ parsed. concat parsed.items ≡ block.now) }
    requires part { 0 < part }
    ensures taken { (bytes : List ℕ) → HasCome reader bytes → HasCome result.0 (bytes ++ block.now) }
    ensures parsed { IfOk result.1 (λ parsed. concat parsed.items ≡ next.now) }
{
    thread::join(
        rt,
        move || -> BundleReader
            requires { IfOk parsed (λ parsed. concat parsed.items ≡ block.now) }
            ensures { (bytes : List ℕ) → HasCome reader bytes → HasCome result (bytes ++ block.entry.now) }
        {
            let mut reader = reader;
            take_block(alloc, &mut reader, block, parsed);
            reader
        },
        || -> Result<Vec<ParsedLines<'_>>, AllocError>
            requires { IsSync R.row × (0 < part) }
            ensures { IfOk result (λ parsed. concat parsed.items ≡ next.entry.now) }
        { parse_block(rt, alloc, limits, next, part) },
    )
}

/// A reader of bundles after all bytes of one more piece of a text.
fn fed_beside<R: Threads + Sync>(
    rt: &R,
    alloc: Global,
    reader: BundleReader,
    piece: &[u8],
    workers: u8,
) -> BundleReader
    ensures { (bytes : List ℕ) → HasCome reader bytes → HasCome result (bytes ++ piece.now) }
{
    let parsers = usize::from(workers).clamp(1, MOST_PARSERS);
    let limits = reader.limits_ahead(piece);
    let mut reader = reader;
    let part = part_size(piece.len(), parsers);
    let (mut block, mut left) = cut_block(piece, part * parsers);
    let mut parsed = parse_block(rt, alloc, limits, block, part);
    'reading: while !left.is_empty() {
        let part = part_size(left.len(), parsers);
        let (next, after) = cut_block(left, part * parsers);
        let (taken, ahead) = take_and_parse(rt, alloc, reader, block, parsed, next, limits, part);
        reader = taken;
        parsed = ahead;
        block = next;
        left = after;
    }
    take_block(alloc, &mut reader, block, parsed);
    reader
}

/// Takes the next piece of a text. Its lines are parsed by as many threads as there are workers, but by one at least and four at most,
/// while the lines before them are taken. A fault of the text is reported by `BundleReader::finish`.
pub fn feed_beside<R: Threads + Sync>(
    rt: &R,
    alloc: Global,
    reader: &mut BundleReader,
    piece: &[u8],
    workers: u8,
)
    ensures { (bytes : List ℕ) → HasCome reader.old bytes → HasCome reader.new (bytes ++ piece.now) }
{
    let taken = mem::replace(reader, BundleReader::start(alloc));
    *reader = fed_beside(rt, alloc, taken, piece, workers);
}

/// The bundle that the bytes parse as, all of the bytes, by any version of the format. Its lines are parsed by several threads.
pub fn decode_beside<R: Threads + Sync>(
    rt: &R,
    alloc: Global,
    bytes: &[u8],
    workers: u8,
) -> Result<Bundle, JournalFault>
    // Accepted bytes are a text of this value by the grammar.
    ensures found { IfOk result (λ b. WritesBundle bytes.now b) }
    // A text of a value by the grammar is accepted as it, if memory and the sources of a set allow.
    ensures only { (b : BundleValue) → WritesBundle bytes.now b → IsRead result b }
    // A refusal names the first faulty line, and what is wrong with it.
    ensures refused { IfErr result (λ fault. RefusesBundle fault bytes.now) }
    // The same, by the fold over the bytes.
    ensures exact { IsWhole result (closing_bundle (feed_bundle_bytes (bundle_start Any) bytes.now)) }
{
    let reader = fed_beside(rt, alloc, BundleReader::start(alloc), bytes, workers);
    reader.finish()
}
