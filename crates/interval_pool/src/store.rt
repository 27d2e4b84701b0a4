//! Cells of lists, and free cells.
ghost use Rattle.std.specs.Prelude.{◌≡◌, ◌↔◌, ◌<◌, ◌≤◌, ◌+◌, IfSome, IsFalse, IsTrue, OnOk, OnErr, IfErr, length, vec_len, vec_capacity, ◌++◌, ℕ, Some};
ghost use Rattle.interval_pool.specs.Cells.{head_at, with_head, with_next, with_numbers};
ghost use Rattle.interval_pool.specs.Intervals.{list_of_pieces};
ghost use Rattle.interval_pool.specs.Links.{most_cells};
ghost use Rattle.interval_pool.specs.Changes.{MakesRoom, Sets, Puts, Replaces, Spends, Pushes, PutsLast, Renews, PlacesRun, PushesRun, next_of, run};
ghost use Rattle.interval_pool.specs.declared.fault.PoolFault.TheVariants.{Full};
ghost use Rattle.interval_pool.specs.Pools.{Frees, FreesSome, Grows, Places};

use crate::cells::{Cell, Head, after, count, link, put_head, put_next, unlink};
use crate::fault::PoolFault;
use crate::interval::{Interval, Pieces, count_pieces, only_piece};
use crate::link::{Link, MOST_CELLS};
use std::alloc::AllocError;

/// The chain of the free cells.
const FREE: u32 = 0;

/// Whether there are as many cells as there may be.
fn is_full(cells: &[Cell]) -> bool
    ensures full { IsTrue result → most_cells ≤ length cells.now }
    ensures room { IsFalse result → length cells.now < most_cells }
{
    cells.len() >= MOST_CELLS as usize
}

/// Frees the cell after one of a list, or the list's first.
pub fn free(cells: &mut [Cell], heads: &mut [Head], list: u32, before: Link)
    ensures { Frees cells.old heads.old list before cells.new heads.new }
{
    let at = unlink(cells, heads, list as usize, before);
    if let Some(i) = at.place() {
        link(cells, heads, FREE, Link::none(), i);
    }
}

/// Frees `count` cells of a list: those after `before`, or the list's first.
pub fn free_some(cells: &mut [Cell], heads: &mut [Head], list: u32, before: Link, count: u32)
    ensures { FreesSome cells.old heads.old list before count cells.new heads.new }
{
    for _done in 0..count {
        free(cells, heads, list, before);
    }
}

/// Makes one more free cell.
pub fn grow(cells: &mut Vec<Cell>, heads: &mut [Head]) -> Result<(), AllocError>
    ensures ok { OnOk result (Grows cells.old.items heads.old cells.new.items heads.new) }
    ensures cells { OnErr result (cells.new.items ≡ cells.old.items) }
    ensures heads { OnErr result (heads.new ≡ heads.old) }
    ensures capacity { vec_capacity cells.old ≤ vec_capacity cells.new }
    ensures kept { OnErr result (vec_capacity cells.new ≡ vec_capacity cells.old) }
    ensures none { OnErr result (vec_capacity cells.old ≤ length cells.old.items) }
{
    let at = cells.as_slice().len();
    cells.reserve(1)?;
    let _ = cells.push(Cell {
        lo: 0,
        hi: 0,
        next: Link::none(),
        owner: FREE,
    });
    link(cells, heads, FREE, Link::none(), at);
    Ok(())
}

/// Gives a cell other numbers.
fn put_numbers(cells: &mut [Cell], at: usize, lo: u64, hi: u64)
    ensures { cells.new ≡ with_numbers cells.old at lo hi }
{
    if at < cells.len() {
        let cell = cells[at];
        cells[at] = Cell { lo, hi, ..cell };
    }
}

/// Puts the first free cell into a list after one of its cells, or at its start, with these numbers.
pub fn place(cells: &mut [Cell], heads: &mut [Head], list: u32, before: Link, lo: u64, hi: u64)
    ensures { Places cells.old heads.old list before (record { lo = lo; hi = hi }) cells.new heads.new }
{
    let at = unlink(cells, heads, FREE as usize, Link::none());
    if let Some(i) = at.place() {
        put_numbers(cells, i, lo, hi);
        link(cells, heads, list, before, i);
    }
}

/// Lets the last cell of a list go on with another, or the list begin with it.
fn link_last(cells: &mut [Cell], heads: &mut [Head], list: u32, last: Link, next: Link)
    requires there { list < length heads.old }
    requires below { IfSome last (λ i. i < length cells.old) }
    ensures cells { cells.new ≡ with_next cells.old last next }
    ensures heads { (head_at heads.old list).len < most_cells → heads.new ≡ with_head heads.old list last next ((head_at heads.old list).len + 1) }
{
    let head = heads[list as usize];
    let len = head.len.saturating_add(1);
    if let Some(before) = last.place() {
        heads[list as usize].len = len;
        cells[before].next = next;
    } else {
        heads[list as usize] = Head {
            first: next,
            len,
            ..head
        };
    }
}

/// Appends a cell with these numbers to a list whose last cell is `last`.
#[inline(always)]
fn push(
    cells: &mut Vec<Cell>,
    heads: &mut [Head],
    list: u32,
    last: Link,
    numbers: Interval,
) -> Result<(), AllocError>
    requires there { list < length heads.old }
    requires below { IfSome last (λ i. i < length cells.old.items) }
    ensures ok { OnOk result (Pushes cells.old.items heads.old list last numbers cells.new.items heads.new) }
    ensures cells { OnErr result (cells.new.items ≡ cells.old.items) }
    ensures heads { OnErr result (heads.new ≡ heads.old) }
    ensures capacity { vec_capacity cells.old ≤ vec_capacity cells.new }
    ensures kept { OnErr result (vec_capacity cells.new ≡ vec_capacity cells.old) }
    ensures none { OnErr result (vec_capacity cells.old ≤ length cells.old.items) }
{
    let at = cells.as_slice().len();
    cells.reserve(1)?;
    link_last(cells, heads, list, last, Link::to(at));
    let _ = cells.push(Cell {
        lo: numbers.lo,
        hi: numbers.hi,
        next: Link::none(),
        owner: list,
    });
    Ok(())
}

/// Puts an interval after the last cell of a list. A free cell is taken before one is made.
#[inline(always)]
pub fn put_last(
    cells: &mut Vec<Cell>,
    heads: &mut [Head],
    list: u32,
    last: Link,
    numbers: Interval,
) -> Result<(), PoolFault>
    requires there { list < length heads.old }
    requires below { IfSome last (λ i. i < length cells.old.items) }
    ensures ok { OnOk result (PutsLast cells.old.items heads.old list last numbers cells.new.items heads.new) }
    ensures capacity { vec_capacity cells.old ≤ vec_capacity cells.new }
    ensures cells { OnErr result (cells.new.items ≡ cells.old.items) }
    ensures heads { OnErr result (heads.new ≡ heads.old) }
    ensures kept { OnErr result (vec_capacity cells.new ≡ vec_capacity cells.old) }
    ensures spent { OnErr result (Spends cells.old.items heads.old (vec_capacity cells.old)) }
    ensures full { IfErr result (λ fault. fault ≡ Full ↔ (most_cells ≤ length cells.old.items)) }
{
    if count(heads, FREE as usize) > 0 {
        place(cells, heads, list, last, numbers.lo, numbers.hi);
        return Ok(());
    }
    if is_full(cells) {
        return Err(PoolFault::Full);
    }
    push(cells, heads, list, last, numbers)?;
    Ok(())
}

/// Puts intervals after the last cell of a list, in free cells. Gives back the new last cell.
pub fn place_run(
    cells: &mut [Cell],
    heads: &mut [Head],
    list: u32,
    last: Link,
    intervals: &[Interval],
) -> Link
    ensures { PlacesRun cells.old heads.old list last intervals.now result cells.new heads.new }
{
    let mut end = last;
    let mut rest = intervals;
    'place: while let Some((numbers, more)) = rest.split_first() {
        let at = after(cells, heads, FREE as usize, Link::none());
        place(cells, heads, list, end, numbers.lo, numbers.hi);
        end = at;
        rest = more;
    }
    end
}

/// The cell of the first of these intervals, if there is one: this place.
#[inline(always)]
fn next_of(intervals: &[Interval], place: Link) -> Link
    ensures { (at : ℕ) → (0 < length intervals.now → place ≡ Some at) → result ≡ next_of intervals.now at }
{
    if intervals.is_empty() {
        Link::none()
    } else {
        place
    }
}

/// Makes cells of a list, one leading to another, with these numbers.
#[inline(always)]
fn push_cells(cells: &mut Vec<Cell>, list: u32, intervals: &[Interval])
    requires small { length cells.old.items + length intervals.now ≤ most_cells }
    requires room { vec_len cells.old + length intervals.now ≤ vec_capacity cells.old }
    ensures items { cells.new.items ≡ cells.old.items ++ run list (length cells.old.items) intervals.now }
    ensures capacity { vec_capacity cells.new ≡ vec_capacity cells.old }
{
    let mut rest = intervals;
    let mut behind = Link::to(cells.as_slice().len() + 1);
    'push: while let Some((numbers, more)) = rest.split_first() {
        let next = next_of(more, behind);
        cells.push_reserved(Cell {
            lo: numbers.lo,
            hi: numbers.hi,
            next,
            owner: list,
        });
        behind = behind.behind();
        rest = more;
    }
}

/// Puts intervals after the last cell of a list, in new cells, for which there is room.
pub fn push_run(
    cells: &mut Vec<Cell>,
    heads: &mut [Head],
    list: u32,
    last: Link,
    intervals: &[Interval],
)
    requires there { list < length heads.old }
    requires small { length cells.old.items + length intervals.now ≤ most_cells }
    requires room { vec_len cells.old + length intervals.now ≤ vec_capacity cells.old }
    ensures run { PushesRun cells.old.items heads.old list last intervals.now cells.new.items heads.new }
    ensures capacity { vec_capacity cells.new ≡ vec_capacity cells.old }
{
    if intervals.is_empty() {
        return;
    }
    let at = Link::to(cells.as_slice().len());
    let len = count(heads, list as usize).saturating_add(intervals.len() as u32);
    put_next(cells, last, at);
    put_head(heads, list as usize, last, at, len);
    push_cells(cells, list, intervals);
}

/// Puts an interval, if there is one, into a list after `before`, or at its start.
fn set(cells: &mut [Cell], heads: &mut [Head], list: u32, before: Link, numbers: Option<Interval>)
    ensures { Sets cells.old heads.old list before numbers cells.new heads.new }
{
    if let Some(numbers) = numbers {
        place(cells, heads, list, before, numbers.lo, numbers.hi);
    }
}

/// Makes a free cell if the free ones and those that will be freed are too few.
fn make_room(
    cells: &mut Vec<Cell>,
    heads: &mut [Head],
    freed: u32,
    needed: u32,
) -> Result<(), PoolFault>
    ensures ok { OnOk result (MakesRoom cells.old.items heads.old freed needed cells.new.items heads.new) }
    ensures capacity { vec_capacity cells.old ≤ vec_capacity cells.new }
    ensures cells { OnErr result (cells.new.items ≡ cells.old.items) }
    ensures heads { OnErr result (heads.new ≡ heads.old) }
    ensures kept { OnErr result (vec_capacity cells.new ≡ vec_capacity cells.old) }
    ensures spent { OnErr result (Spends cells.old.items heads.old (vec_capacity cells.old)) }
    ensures needed { OnErr result (freed < needed) }
    ensures full { IfErr result (λ fault. fault ≡ Full ↔ (most_cells ≤ length cells.old.items)) }
{
    if needed <= freed || count(heads, FREE as usize) > 0 {
        return Ok(());
    }
    if is_full(cells) {
        return Err(PoolFault::Full);
    }
    grow(cells, heads)?;
    Ok(())
}

/// Puts intervals into a list in place of the `count` cells after `before`, or at the list's start.
fn put(cells: &mut [Cell], heads: &mut [Head], list: u32, before: Link, count: u32, pieces: Pieces)
    ensures { Puts cells.old heads.old list before count pieces cells.new heads.new }
{
    free_some(cells, heads, list, before, count);
    set(cells, heads, list, before, pieces.second);
    set(cells, heads, list, before, pieces.first);
}

/// Gives the cell after one of a list, or the list's first, other numbers.
fn renew(cells: &mut [Cell], heads: &[Head], list: u32, before: Link, numbers: Interval)
    ensures { Renews cells.old heads.now list before numbers cells.new }
{
    if let Some(at) = after(cells, heads, list as usize, before).place() {
        put_numbers(cells, at, numbers.lo, numbers.hi);
    }
}

/// Puts intervals, at most one more than `count`, into a list in place of the `count` cells after `before`, or at the list's start.
pub fn replace(
    cells: &mut Vec<Cell>,
    heads: &mut [Head],
    list: u32,
    before: Link,
    count: u32,
    pieces: Pieces,
) -> Result<(), PoolFault>
    ensures ok { OnOk result (Replaces cells.old.items heads.old list before count pieces cells.new.items heads.new) }
    ensures capacity { vec_capacity cells.old ≤ vec_capacity cells.new }
    ensures cells { OnErr result (cells.new.items ≡ cells.old.items) }
    ensures heads { OnErr result (heads.new ≡ heads.old) }
    ensures kept { OnErr result (vec_capacity cells.new ≡ vec_capacity cells.old) }
    ensures spent { OnErr result (Spends cells.old.items heads.old (vec_capacity cells.old)) }
    ensures needed { OnErr result (count < length (list_of_pieces pieces)) }
    ensures full { IfErr result (λ fault. fault ≡ Full ↔ (most_cells ≤ length cells.old.items)) }
{
    if count == 1 {
        if let Some(numbers) = only_piece(pieces) {
            renew(cells, heads, list, before, numbers);
            return Ok(());
        }
    }
    make_room(cells, heads, count, count_pieces(pieces))?;
    put(cells, heads, list, before, count, pieces);
    Ok(())
}
