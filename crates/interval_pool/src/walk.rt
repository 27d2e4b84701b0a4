//! A walk along the cells of a list.
ghost use Rattle.std.specs.Prelude.{◌≡◌, ◌∷◌, [], drop, MatchOption};
ghost use Rattle.interval_pool.specs.Walks.{IsWalk, IsWay, intervals_from, place_in};

use crate::cells::Cell;
use crate::interval::Interval;
use crate::link::Link;
use std::marker::Model;

/// The intervals of a list from one on.
#[derive(Drop)]
pub struct Walk<'a> {
    cells: &'a [Cell],
    // the cells from the first one on, none at the end
    rest: &'a [Cell],
}

impl<'a> Model for Walk<'a> {
    ghost use Rattle.std.specs.Prelude.{List};
    ghost use Rattle.interval_pool.specs.declared.interval.Interval.{Interval};
    ghost use Rattle.interval_pool.specs.Walks.{IsWay, intervals_from, place_in};

    ghost Value = { List Interval };

    ghost view = { λ w. intervals_from w.cells.now (place_in w.cells.now w.rest.now) };

    ghost invariant = { λ w. IsWay w.cells.now w.rest.now };
}

/// The cells from one on.
#[inline(never)]
fn cells_from<'a>(cells: &'a [Cell], at: Link) -> &'a [Cell]
    requires { IsWalk cells.now at }
    ensures place { place_in cells.now result.now ≡ at }
    ensures way { IsWay cells.now result.now }
{
    match at.place() {
        None => &[],
        Some(at) => &cells[at..],
    }
}

/// The intervals of the cells from one on.
pub fn walk_from<'a>(cells: &'a [Cell], at: Link) -> Walk<'a>
    requires { IsWalk cells.now at }
    ensures { result ≡ intervals_from cells.now at }
{
    Walk {
        cells,
        rest: cells_from(cells, at),
    }
}

impl<'a> Walk<'a> {
    /// No intervals.
    pub fn empty() -> Walk<'a>
        ensures { result ≡ [] }
    {
        Walk {
            cells: &[],
            rest: &[],
        }
    }

    /// The same intervals.
    #[inline(always)]
    pub fn again(&self) -> Walk<'a>
        ensures { result ≡ self.now }
    {
        Walk {
            cells: self.cells,
            rest: self.rest,
        }
    }

    /// The first interval.
    #[inline(always)]
    pub fn peek(&self) -> Option<Interval>
        ensures cases { MatchOption result (self.now ≡ []) (λ s. self.now ≡ s ∷ drop 1 self.now) }
    {
        match self.rest.split_first() {
            None => None,
            Some((cell, _rest)) => Some(Interval {
                lo: cell.lo,
                hi: cell.hi,
            }),
        }
    }

    /// Moves past the first interval, if there is one. No link is followed if the next cell is at the next place.
    #[inline(always)]
    pub fn advance(&mut self)
        ensures { self.new ≡ drop 1 self.old }
    {
        let Some((cell, rest)) = self.rest.split_first() else {
            return;
        };
        if cell.next.is_to(self.cells.len() - rest.len()) {
            self.rest = rest;
        } else {
            self.rest = cells_from(self.cells, cell.next);
        }
    }
}
