//! A place among the spans of a set.
ghost use Rattle.std.specs.Prelude.{◌≡◌, ◌∷◌, [], drop, length, true, Some, IfSome, IsSome, MatchOption};
ghost use Rattle.std.specs.List.{concat, list_all};
ghost use Rattle.interval_pool.specs.Values.{cells_of, first_cell};
ghost use Rattle.gtid_set.specs.Kept.{are_places, is_filled, sources_at, spans_of, IsPlaceIn};

use crate::order::{Block, Places};
use crate::sources::{SourceList, source_of};
use gtid_text::Span;
use interval_pool::{Interval, Pool};
use std::marker::Model;

/// An interval of a source's list, the cell after it, how many intervals of the list lie before, and how many it has.
#[derive(Clone, Copy, Drop)]
struct Place {
    source: SourceList,
    numbers: Interval,
    next: Option<u32>,
    passed: u32,
    len: u32,
}

/// The spans of a set from one on.
#[derive(Drop)]
pub struct Cursor<'a> {
    pool: &'a Pool,
    sources: &'a [SourceList],
    // the places of the sources that follow
    behind: Places<'a>,
    at: Option<Place>,
}

impl<'a> Model for Cursor<'a> {
    ghost use Rattle.std.specs.Prelude.{List};
    ghost use Rattle.gtid_text.specs.declared.Span.{Span};
    ghost use Rattle.gtid_set.specs.Kept.{cursor_view, IsCursor};

    ghost Value = { List Span };

    ghost view = { λ c. cursor_view c.pool.now c.sources.now c.behind c.at };

    ghost invariant = { λ c. IsCursor c.pool.now c.sources.now c.behind c.at };
}

/// The place of a cell, which is `passed` cells after the first of its list.
#[inline(always)]
fn place_of_cell(pool: &Pool, source: SourceList, cell: u32, passed: u32, len: u32) -> Place
    requires cell { first_cell (drop passed (cells_of pool.now source.list)) ≡ Some cell }
    requires len { len ≡ length (cells_of pool.now source.list) }
    ensures { IsPlaceIn pool.now source passed result }
{
    Place {
        source,
        numbers: pool.span(cell),
        next: pool.next(cell),
        passed,
        len,
    }
}

/// The first place in the list of a source.
fn begin(pool: &Pool, source: SourceList) -> Option<Place>
    requires { is_filled pool.now source ≡ true }
    ensures begins { IfSome result (IsPlaceIn pool.now source 0) }
    ensures there { IsSome result }
{
    match pool.first(source.list) {
        None => None,
        Some(cell) => Some(place_of_cell(pool, source, cell, 0, pool.len(source.list))),
    }
}

/// The spans of sources.
fn over<'a>(pool: &'a Pool, sources: &'a [SourceList], order: Places<'a>) -> Cursor<'a>
    requires places { are_places sources.now order ≡ true }
    requires filled { list_all (is_filled pool.now) (sources_at sources.now order) ≡ true }
    ensures { result ≡ spans_of pool.now (sources_at sources.now order.entry) }
{
    let mut behind = order;
    match behind.first() {
        None => Cursor {
            pool,
            sources,
            behind,
            at: None,
        },
        Some(first) => {
            behind.advance();
            let at = begin(pool, source_of(sources, first));
            Cursor {
                pool,
                sources,
                behind,
                at,
            }
        }
    }
}

impl<'a> Cursor<'a> {
    /// The spans of sources.
    pub fn over(pool: &'a Pool, sources: &'a [SourceList], order: &'a [Block]) -> Cursor<'a>
        requires places { are_places sources.now (concat order.now) ≡ true }
        requires filled { list_all (is_filled pool.now) (sources_at sources.now (concat order.now)) ≡ true }
        ensures { result ≡ spans_of pool.now (sources_at sources.now (concat order.now)) }
    {
        over(pool, sources, Places::of(order))
    }

    /// The same spans.
    pub fn again(&self) -> Cursor<'a>
        ensures { result ≡ self.now }
    {
        Cursor {
            pool: self.pool,
            sources: self.sources,
            behind: self.behind.again(),
            at: self.at,
        }
    }

    /// The first span.
    #[inline(always)]
    pub fn peek(&self) -> Option<Span>
        ensures cases { MatchOption result (self.now ≡ []) (λ s. self.now ≡ s ∷ drop 1 self.now) }
    {
        match self.at {
            None => None,
            Some(at) => Some(Span {
                source: at.source.id,
                lo: at.numbers.lo,
                hi: at.numbers.hi,
            }),
        }
    }

    /// Moves past the first span, if there is one.
    #[inline(always)]
    pub fn advance(&mut self)
        ensures { self.new ≡ drop 1 self.old }
    {
        let Some(at) = self.at else {
            return;
        };
        match at.next {
            Some(cell) => {
                self.at = Some(place_of_cell(self.pool, at.source, cell, at.passed + 1, at.len));
            }
            None => *self = over(self.pool, self.sources, self.behind.again()),
        }
    }
}
