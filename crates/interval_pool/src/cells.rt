//! Cells linked by index into chains.
ghost use Rattle.std.specs.Prelude.{◌≡◌, ℕ};
ghost use Rattle.interval_pool.specs.Cells.{after, cell_at, head_at, with_next, first_with, with_head, with_owner};
ghost use Rattle.interval_pool.specs.Pools.{Unlinks, Links};

use crate::link::Link;

/// An interval of numbers in the chain of its owner.
#[derive(Clone, Copy, Drop)]
pub struct Cell {
    pub lo: u64,
    pub hi: u64,
    pub next: Link,
    pub owner: u32,
}

/// The head of a chain: its first cell, how many cells it has, and whether it is a list.
#[derive(Clone, Copy, Drop)]
pub struct Head {
    pub first: Link,
    pub len: u32,
    pub is_list: bool,
}

/// The cell at a place; beyond the last an empty one.
pub fn cell_at(cells: &[Cell], at: usize) -> Cell
    ensures { result ≡ cell_at cells.now at }
{
    if at < cells.len() {
        cells[at]
    } else {
        Cell {
            lo: 0,
            hi: 0,
            next: Link::none(),
            owner: 0,
        }
    }
}

/// The cell after one of a chain, or the chain's first.
pub fn after(cells: &[Cell], heads: &[Head], chain: usize, before: Link) -> Link
    ensures { result ≡ after cells.now heads.now chain before }
{
    match before.place() {
        Some(at) if at < cells.len() => cells[at].next,
        Some(_) => Link::none(),
        None if chain < heads.len() => heads[chain].first,
        None => Link::none(),
    }
}

/// Links a cell to the next one of its chain.
pub fn put_next(cells: &mut [Cell], before: Link, next: Link)
    ensures { cells.new ≡ with_next cells.old before next }
{
    if let Some(at) = before.place() {
        if at < cells.len() {
            cells[at].next = next;
        }
    }
}

/// A chain's first cell once `next` comes after `before`, or at its start.
fn first_with(before: Link, next: Link, first: Link) -> Link
    ensures { result ≡ first_with before next first }
{
    match before.place() {
        Some(_) => first,
        None => next,
    }
}

/// Sets a chain's length, and its first cell to `next` unless that comes after a cell of the chain.
pub fn put_head(heads: &mut [Head], chain: usize, before: Link, next: Link, len: u32)
    ensures { heads.new ≡ with_head heads.old chain before next len }
{
    if chain < heads.len() {
        let head = heads[chain];
        let first = first_with(before, next, head.first);
        heads[chain] = Head { first, len, ..head };
    }
}

/// Gives a cell an owner, and links it to the next one.
fn put_owner(cells: &mut [Cell], at: usize, owner: u32, next: Link)
    ensures { cells.new ≡ with_owner cells.old at owner next }
{
    if at < cells.len() {
        let cell = cells[at];
        cells[at] = Cell {
            next,
            owner,
            ..cell
        };
    }
}

/// How many cells a chain has.
pub fn count(heads: &[Head], chain: usize) -> u32
    ensures { result ≡ (head_at heads.now chain).len }
{
    if chain < heads.len() {
        heads[chain].len
    } else {
        0
    }
}

/// Takes the cell after one of a chain, or the chain's first, out of it.
pub fn unlink(cells: &mut [Cell], heads: &mut [Head], chain: usize, before: Link) -> Link
    ensures { Unlinks cells.old heads.old chain before result cells.new heads.new }
{
    let at = after(cells, heads, chain, before);
    let next = after(cells, heads, chain, at);
    let len = count(heads, chain).saturating_sub(1);
    put_next(cells, before, next);
    put_head(heads, chain, before, next, len);
    at
}

/// Puts a cell into a chain after one of its cells, or at its start.
pub fn link(cells: &mut [Cell], heads: &mut [Head], chain: u32, before: Link, at: usize)
    ensures { Links cells.old heads.old chain before at cells.new heads.new }
{
    let next = after(cells, heads, chain as usize, before);
    let len = count(heads, chain as usize).saturating_add(1);
    put_owner(cells, at, chain, next);
    put_next(cells, before, Link::to(at));
    put_head(heads, chain as usize, before, Link::to(at), len);
}
