//! A walk over a set, source by source.
ghost use Rattle.std.specs.Prelude.{◌≡◌, ◌<◌, [], true, IfSome, None, length};
ghost use Rattle.std.specs.List.{concat, list_all};
ghost use Rattle.gtid_set.specs.Kept.{are_places, are_ascending, is_filled, sources_at, source_at, spans_of};
ghost use Rattle.gtid_set.specs.BySource.{IsFirstSource, IsNextSource, TakesSource, are_from};

use crate::order::{Block, Places};
use crate::sources::{SourceList, source_of};
use gtid_text::SourceId;
use interval_pool::{Pool, Walk};
use std::marker::Model;

/// The sources of a set from one on, with their numbers.
#[derive(Drop)]
pub struct SourceLists<'a> {
    pool: &'a Pool,
    sources: &'a [SourceList],
    order: Places<'a>,
}

impl<'a> Model for SourceLists<'a> {
    ghost use Rattle.std.specs.Prelude.{List};
    ghost use Rattle.gtid_text.specs.declared.Span.{Span};
    ghost use Rattle.gtid_set.specs.Kept.{flat};
    ghost use Rattle.gtid_set.specs.BySource.{AreLists};

    ghost Value = { List Span };

    ghost view = { λ s. flat s.pool.now s.sources.now s.order };

    ghost invariant = { λ s. AreLists s.pool.now s.sources.now s.order };
}

impl<'a> SourceLists<'a> {
    /// All sources of a set.
    pub fn of(pool: &'a Pool, sources: &'a [SourceList], order: &'a [Block]) -> SourceLists<'a>
        requires places { are_places sources.now (concat order.now) ≡ true }
        requires rising { are_ascending (sources_at sources.now (concat order.now)) ≡ true }
        requires filled { list_all (is_filled pool.now) (sources_at sources.now (concat order.now)) ≡ true }
        ensures { result ≡ spans_of pool.now (sources_at sources.now (concat order.now)) }
    {
        SourceLists {
            pool,
            sources,
            order: Places::of(order),
        }
    }

    /// The first source.
    #[inline(always)]
    pub fn first(&self) -> Option<SourceId>
        ensures none { result ≡ None → self.now ≡ [] }
        ensures some { IfSome result (IsFirstSource self.now) }
    {
        let Some(at) = self.order.first() else {
            return None;
        };
        Some(source_of(self.sources, at).id)
    }

    /// Takes the numbers of a source that no other comes before; there are none if it is not the first.
    pub fn take(&mut self, id: SourceId) -> Walk<'a>
        requires { are_from id self.old ≡ true }
        ensures { TakesSource self.old id result self.new }
    {
        let Some(at) = self.order.first() else {
            return Walk::empty();
        };
        let source = source_of(self.sources, at);
        if source.id != id {
            return Walk::empty();
        }
        self.order.advance();
        self.pool.walk(source.list)
    }
}

/// The least source of two sets.
pub fn next_source(left: &SourceLists<'_>, right: &SourceLists<'_>) -> Option<SourceId>
    ensures none { result ≡ None → (left.now ≡ []) × (right.now ≡ []) }
    ensures some { IfSome result (IsNextSource left.now right.now) }
{
    let Some(id) = left.first() else {
        return right.first();
    };
    let Some(other) = right.first() else {
        return Some(id);
    };
    if other < id {
        return Some(other);
    }
    Some(id)
}
