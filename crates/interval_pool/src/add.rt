//! Adding numbers to a list.
ghost use Rattle.std.specs.Prelude.{◌≡◌, ◌↔◌, ◌≢◌, ◌<◌, ◌≤◌, List, IsTrue, OnOk, OnErr, IfErr, length, vec_capacity};
ghost use Rattle.interval_pool.specs.Links.{most_cells};
ghost use Rattle.interval_pool.specs.Intervals.{AreMerged, IsApart};
ghost use Rattle.interval_pool.specs.declared.cells.Head.{Head};
ghost use Rattle.interval_pool.specs.Cells.{with_end};
ghost use Rattle.interval_pool.specs.Places.{IsBehind, TouchesEnd};
ghost use Rattle.interval_pool.specs.Pools.{AreWhole};
ghost use Rattle.interval_pool.specs.Changes.{Added, Spends, spans_of};
ghost use Rattle.interval_pool.specs.declared.fault.PoolFault.TheVariants.{Full};

use crate::append::append;
use crate::cells::{Cell, Head, count};
use crate::fault::PoolFault;
use crate::hints::Hints;
use crate::interval::{Interval, Pieces};
use crate::link::Link;
use crate::meet::meet;
use crate::seek::seek;
use crate::store::replace;

/// Adds the numbers of an interval to a list; returns the last cell that ends before them. Any guess of that cell serves.
fn add_at(
    cells: &mut Vec<Cell>,
    heads: &mut [Head],
    list: u32,
    numbers: Interval,
    guess: Link,
) -> Result<Link, PoolFault>
    requires whole { AreWhole cells.old.items heads.old }
    requires small { length cells.old.items ≤ most_cells }
    requires is_list { list ≢ 0 }
    requires there { list < length heads.old }
    requires merged { AreMerged (spans_of cells.old.items heads.old list) }
    requires filled { numbers.lo ≤ numbers.hi }
    ensures ok { OnOk result (Added cells.old.items heads.old list numbers cells.new.items heads.new) }
    ensures capacity { vec_capacity cells.old ≤ vec_capacity cells.new }
    ensures cells { OnErr result (cells.new.items ≡ cells.old.items) }
    ensures heads { OnErr result (heads.new ≡ heads.old) }
    ensures kept { OnErr result (vec_capacity cells.new ≡ vec_capacity cells.old) }
    ensures spent { OnErr result (Spends cells.old.items heads.old (vec_capacity cells.old)) }
    ensures needed { OnErr result (IsApart (spans_of cells.old.items heads.old list) numbers) }
    ensures full { IfErr result (λ fault. fault ≡ Full ↔ (most_cells ≤ length cells.old.items)) }
{
    let before = seek(cells, heads, list, numbers.lo.saturating_sub(1), guess);
    let joined = meet(cells, heads, list, before, numbers, 1);
    let pieces = Pieces {
        first: Some(joined.numbers),
        second: None,
    };
    replace(cells, heads, list, before, joined.count, pieces)?;
    Ok(before)
}

/// Whether numbers begin in the last cell of a list, or right after it.
fn touches_end(cells: &[Cell], list: u32, numbers: Interval, end: Link) -> bool
    ensures { IsTrue result → (heads : List Head) → TouchesEnd cells.now heads list numbers end }
{
    let Some(at) = end.place() else {
        return false;
    };
    at < cells.len()
        && cells[at].owner == list
        && cells[at].next.is_none()
        && cells[at].lo <= numbers.lo
        && numbers.lo.saturating_sub(1) <= cells[at].hi
}

/// Whether numbers begin beyond the last cell of a list, not right after it, or the list is empty.
fn is_behind(cells: &[Cell], heads: &[Head], list: u32, numbers: Interval, end: Link) -> bool
    ensures { IsTrue result → IsBehind cells.now heads.now list numbers end }
{
    match end.place() {
        Some(at) => {
            at < cells.len()
                && cells[at].owner == list
                && cells[at].next.is_none()
                && cells[at].hi < numbers.lo.saturating_sub(1)
        }
        None => count(heads, list as usize) == 0,
    }
}

/// Raises the end of a cell to this number, if that is greater.
fn grow_end(cells: &mut [Cell], end: Link, hi: u64)
    ensures { cells.new ≡ with_end cells.old end hi }
{
    if let Some(at) = end.place() {
        if at < cells.len() {
            cells[at].hi = cells[at].hi.max(hi);
        }
    }
}

/// Adds the numbers of an interval to a list. It takes a few steps at the end of the list.
pub fn add(
    cells: &mut Vec<Cell>,
    heads: &mut [Head],
    hints: &mut Hints,
    list: u32,
    numbers: Interval,
) -> Result<(), PoolFault>
    requires whole { AreWhole cells.old.items heads.old }
    requires small { length cells.old.items ≤ most_cells }
    requires is_list { list ≢ 0 }
    requires there { list < length heads.old }
    requires merged { AreMerged (spans_of cells.old.items heads.old list) }
    requires filled { numbers.lo ≤ numbers.hi }
    ensures ok { OnOk result (Added cells.old.items heads.old list numbers cells.new.items heads.new) }
    ensures capacity { vec_capacity cells.old ≤ vec_capacity cells.new }
    ensures cells { OnErr result (cells.new.items ≡ cells.old.items) }
    ensures heads { OnErr result (heads.new ≡ heads.old) }
    ensures kept { OnErr result (vec_capacity cells.new ≡ vec_capacity cells.old) }
    ensures spent { OnErr result (Spends cells.old.items heads.old (vec_capacity cells.old)) }
    ensures needed { OnErr result (IsApart (spans_of cells.old.items heads.old list) numbers) }
    ensures full { IfErr result (λ fault. fault ≡ Full ↔ (most_cells ≤ length cells.old.items)) }
{
    let is_run = hints.is_run(list);
    let end = hints.last_known(cells, heads, list, is_run);
    if touches_end(cells, list, numbers, end) {
        grow_end(cells, end, numbers.hi);
        return Ok(());
    }
    if is_behind(cells, heads, list, numbers, end) {
        let place = append(cells, heads, list, numbers, end)?;
        hints.note_appended(cells, heads, list, place, numbers, is_run);
        return Ok(());
    }
    let guess = hints.near_place(cells, heads, list, numbers.lo.saturating_sub(1));
    let many = count(heads, list as usize);
    let between = add_at(cells, heads, list, numbers, guess)?;
    hints.note_added(cells, heads, list, between, numbers, many);
    Ok(())
}
