//! The parts of a text, and the lines of each, parsed on a thread of its own.
ghost use Rattle.std.specs.Prelude.{◌≡◌, ◌++◌, ◌<◌, IfOk, map, length, slice_index_or};
ghost use Rattle.std.specs.List.{concat};

use rows::Limits;
use std::alloc::{AllocError, Global};
use std::thread;
use std::thread::Threads;
use txn_journal::ParsedLines;

/// The first `size` bytes of a text, or all if there are fewer, and what follows them.
pub fn cut_block(text: &[u8], size: usize) -> (&[u8], &[u8])
    ensures parts { text.now ≡ result.0.now ++ result.1.now }
    ensures smaller { 0 < size → 0 < length text.now → length result.1.now < length text.now }
{
    if text.len() <= size {
        return (text, &text[text.len()..]);
    }
    text.split_at(size)
}

/// The parts of a text, each of `size` bytes but for the last, and after them an empty one: `map_indices` makes its last call on the
/// calling thread, which then waits for the others at once. (A thread that was just started may be queued behind the thread that started it
/// until that one waits, though other processors are idle.)
fn parts_of(alloc: Global, text: &[u8], size: usize) -> Result<Vec<&[u8]>, AllocError>
    requires { 0 < size }
    ensures { IfOk result (λ parts. concat (map (λ p. p.now) parts.items) ≡ text.now) }
{
    let mut parts = Vec::new(alloc);
    let mut left = text;
    'parts: while left.len() > size {
        let (part, more) = left.split_at(size);
        parts.push(part)?;
        left = more;
    }
    let (last, none) = left.split_at(left.len());
    parts.push(last)?;
    parts.push(none)?;
    Ok(parts)
}

/// The lines of each part, parsed by these limits on a thread of its own if one can be started.
fn parse_all<'a, R: Threads + Sync>(
    rt: &R,
    alloc: Global,
    limits: Limits,
    parts: &[&'a [u8]],
) -> Result<Vec<ParsedLines<'a>>, AllocError>
    ensures { IfOk result (λ parsed. parsed.items ≡ map (λ p. p.now) parts.now) }
{
    thread::map_indices(
        rt,
        alloc,
        parts.len(),
        &|i: usize| -> ParsedLines<'_>
            requires { i < length parts.now }
            ensures { (d : _) → result ≡ (slice_index_or parts.entry.now i d).now }
        { ParsedLines::parse(alloc, limits, parts[i]) },
    )
}

/// The lines of a block, parsed by these limits in parts of `size` bytes.
pub fn parse_block<'a, R: Threads + Sync>(
    rt: &R,
    alloc: Global,
    limits: Limits,
    block: &'a [u8],
    size: usize,
) -> Result<Vec<ParsedLines<'a>>, AllocError>
    requires { 0 < size }
    ensures { IfOk result (λ parsed. concat parsed.items ≡ block.now) }
{
    let parts = parts_of(alloc, block, size)?;
    parse_all(rt, alloc, limits, &parts)
}
