//! The place of a number among the cells of a list.
ghost use Rattle.std.specs.Prelude.{◌≡◌, ℕ, true, false, IfSome, IfNone, IsTrue, None};
ghost use Rattle.std.specs.List.{Contains};
ghost use Rattle.interval_pool.specs.Pools.{AreWhole, chain_of};
ghost use Rattle.interval_pool.specs.Chains.{last_or};
ghost use Rattle.interval_pool.specs.Changes.{spans_of};
ghost use Rattle.interval_pool.specs.Intervals.{covers, has};
ghost use Rattle.interval_pool.specs.Places.{AreBelow, IsAscending, IsEnd, IsStart, IsPlace};

use crate::cells::{Cell, Head, after, cell_at, count};
use crate::interval::Interval;
use crate::link::Link;

/// The guess, if it is a cell of the list that ends below a number.
fn start(cells: &[Cell], list: u32, number: u64, guess: Link) -> Link
    ensures { IsStart cells.now list number result }
{
    match guess.place() {
        Some(at) if at < cells.len() && cells[at].owner == list && cells[at].hi < number => guess,
        _ => Link::none(),
    }
}

/// The last cell of a list that ends below a number, or none. Any guess of it serves; a good one saves the walk.
pub fn seek(cells: &[Cell], heads: &[Head], list: u32, number: u64, guess: Link) -> Link
    requires whole { AreWhole cells.now heads.now }
    requires ascending { IsAscending cells.now (chain_of cells.now heads.now list) }
    ensures { IsPlace cells.now heads.now list number result }
{
    let mut before = start(cells, list, number, guess);
    let mut at = after(cells, heads, list as usize, before);
    let mut left = count(heads, list as usize);
    'walk: while left > 0 {
        let Some(i) = at.place() else {
            return before;
        };
        if i >= cells.len() || cells[i].hi >= number {
            return before;
        }
        before = at;
        at = cells[i].next;
        left -= 1;
    }
    before
}

/// The interval of a list that has a number. Any guess of the last cell that ends below it serves.
pub fn interval_with(
    cells: &[Cell],
    heads: &[Head],
    list: u32,
    number: u64,
    guess: Link,
) -> Option<Interval>
    requires whole { AreWhole cells.now heads.now }
    requires ascending { IsAscending cells.now (chain_of cells.now heads.now list) }
    ensures one { IfSome result (λ s. Contains (spans_of cells.now heads.now list) s) }
    ensures covers { IfSome result (λ s. covers s number ≡ true) }
    ensures none { IfNone result (has (spans_of cells.now heads.now list) number ≡ false) }
{
    let before = seek(cells, heads, list, number, guess);
    let Some(at) = after(cells, heads, list as usize, before).place() else {
        return None;
    };
    let Cell { lo, hi, .. } = cell_at(cells, at);
    if lo > number {
        return None;
    }
    Some(Interval { lo, hi })
}

/// Whether a place is that of a list's last cell, or none of an empty list.
fn is_last(cells: &[Cell], heads: &[Head], list: u32, place: Link) -> bool
    ensures { IsTrue result → IsEnd cells.now heads.now list place }
{
    match place.place() {
        Some(at) => at < cells.len() && cells[at].owner == list && cells[at].next.is_none(),
        None => count(heads, list as usize) == 0,
    }
}

/// The last cell of a list whose cells end below a number, or none. Any guess of it serves.
pub fn last(cells: &[Cell], heads: &[Head], list: u32, number: u64, guess: Link) -> Link
    requires whole { AreWhole cells.now heads.now }
    requires ascending { IsAscending cells.now (chain_of cells.now heads.now list) }
    requires below { AreBelow cells.now number (chain_of cells.now heads.now list) }
    ensures { result ≡ last_or None (chain_of cells.now heads.now list) }
{
    if is_last(cells, heads, list, guess) {
        return guess;
    }
    seek(cells, heads, list, number, guess)
}
