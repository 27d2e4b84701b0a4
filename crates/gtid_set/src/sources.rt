//! The sources of a set, and their order.
ghost use Rattle.std.specs.Prelude.{◌≡◌, ◌<◌, ◌-◌, length, take, true, Some, None, IfSome, IfNone, IsSome, IsTrue, MatchBool};
ghost use Rattle.std.specs.List.{concat, slice_get};
ghost use Rattle.gtid_set.specs.Kept.{comes_before, are_places, are_ascending, sources_at, source_at, IsSourceAt, IsNoSourceAt, IsSourceOf, IsSourcePlace, are_others};
ghost use Rattle.gtid_set.specs.Order.{IsSeat, IsBlockOf, BeginsBelow, HasFrom, are_below, index_of};

use crate::order::{Block, Seat, last_place, place_at};
use gtid_text::SourceId;
use interval_pool::ListId;

/// A source, and the list of its numbers.
#[derive(Clone, Copy, Drop)]
pub struct SourceList {
    pub id: SourceId,
    pub list: ListId,
}

/// Whether the source at a place is less than another.
fn comes_before(sources: &[SourceList], at: u16, id: SourceId) -> bool
    ensures { result ≡ comes_before sources.now id at }
{
    let at = at as usize;
    at < sources.len() && sources[at].id < id
}

/// The source at a place.
#[inline(always)]
pub fn source_of(sources: &[SourceList], at: u16) -> SourceList
    requires { at < length sources.now }
    ensures { result ≡ source_at sources.now at }
{
    sources[at as usize]
}

/// The source at a seat, if it has this identifier.
pub fn find(sources: &[SourceList], order: &[Block], at: Seat, id: SourceId) -> Option<SourceList>
    requires { are_places sources.now (concat order.now) ≡ true }
    ensures some { IfSome result (IsSourceAt (sources_at sources.now (concat order.now)) (index_of order.now at) id) }
    ensures seat { IsSome result → IsSeat order.now at }
    ensures none { IfNone result (IsSeat order.now at → IsNoSourceAt (sources_at sources.now (concat order.now)) (index_of order.now at) id) }
{
    let Some(place) = place_at(order, at) else {
        return None;
    };
    let source = source_of(sources, place);
    if source.id != id {
        return None;
    }
    Some(source)
}

/// The last source, if it has this identifier.
pub fn find_last(sources: &[SourceList], order: &[Block], id: SourceId) -> Option<SourceList>
    requires { are_places sources.now (concat order.now) ≡ true }
    ensures some { IfSome result (IsSourceAt (sources_at sources.now (concat order.now)) (length (concat order.now) - 1) id) }
    ensures none { IfNone result (IsNoSourceAt (sources_at sources.now (concat order.now)) (length (concat order.now) - 1) id) }
{
    let Some(place) = last_place(order) else {
        return None;
    };
    let last = source_of(sources, place);
    if last.id != id {
        return None;
    }
    Some(last)
}

/// Whether the first source of a block is less than another.
fn begins_before(sources: &[SourceList], block: &Block, id: SourceId) -> bool
    ensures { IsTrue result → BeginsBelow sources.now block.now id }
{
    let places = block.places();
    places.len() > 0 && comes_before(sources, places[0], id)
}

/// Whether all sources of a block are less than another.
fn ends_before(sources: &[SourceList], block: &Block, id: SourceId) -> bool
    requires places { are_places sources.now block.now ≡ true }
    requires rising { are_ascending (sources_at sources.now block.now) ≡ true }
    ensures { MatchBool result (are_below sources.now id block.now ≡ true) (HasFrom sources.now block.now id) }
{
    let places = block.places();
    let count = places.len();
    if count == 0 {
        return true;
    }
    comes_before(sources, places[count - 1], id)
}

/// A block, such that the sources of those before it are less than another.
fn start_of_search(sources: &[SourceList], order: &[Block], id: SourceId) -> usize
    requires { are_ascending (sources_at sources.now (concat order.now)) ≡ true }
    ensures { are_below sources.now id (concat (take result order.now)) ≡ true }
{
    let behind = order.partition_point(|block| begins_before(sources, block, id));
    let guess = behind.saturating_sub(1);
    if guess < order.len() && begins_before(sources, &order[guess], id) {
        return guess;
    }
    0
}

/// The block in which a source has its seat.
fn block_of(sources: &[SourceList], order: &[Block], id: SourceId) -> usize
    requires places { are_places sources.now (concat order.now) ≡ true }
    requires rising { are_ascending (sources_at sources.now (concat order.now)) ≡ true }
    ensures { IsBlockOf sources.now order.now id result }
{
    let mut at = start_of_search(sources, order, id);
    while at < order.len() {
        if !ends_before(sources, &order[at], id) {
            return at;
        }
        at += 1;
    }
    at
}

/// The seat of a source in the order.
pub fn seat_of(sources: &[SourceList], order: &[Block], id: SourceId) -> Seat
    requires places { are_places sources.now (concat order.now) ≡ true }
    requires rising { are_ascending (sources_at sources.now (concat order.now)) ≡ true }
    ensures place { IsSourcePlace (sources_at sources.now (concat order.now)) id (index_of order.now result) }
    ensures seat { IsSeat order.now result }
{
    let block = block_of(sources, order, id);
    if block >= order.len() {
        return Seat { block, offset: 0 };
    }
    let offset = order[block]
        .places()
        .partition_point(|at| comes_before(sources, *at, id));
    Seat { block, offset }
}

/// The source at a place, if it has this identifier. (`order` is read by the clauses alone.)
#[inline(always)]
pub fn find_in_place(
    sources: &[SourceList],
    order: &[Block],
    at: u16,
    id: SourceId,
) -> Option<SourceList>
    requires places { are_places sources.now (concat order.now) ≡ true }
    requires many { length (concat order.now) ≡ length sources.now }
    requires rising { are_ascending (sources_at sources.now (concat order.now)) ≡ true }
    ensures { IfSome result (λ s. IsSourceOf (sources_at sources.now (concat order.now)) s id) }
{
    if at as usize >= sources.len() {
        return None;
    }
    let found = source_of(sources, at);
    if found.id != id {
        return None;
    }
    Some(found)
}

/// The source with this identifier, if there is one. Any guess of its place serves; a good one saves the search.
#[inline(always)]
pub fn find_near(
    sources: &[SourceList],
    order: &[Block],
    guess: u16,
    id: SourceId,
) -> Option<SourceList>
    requires places { are_places sources.now (concat order.now) ≡ true }
    requires many { length (concat order.now) ≡ length sources.now }
    requires rising { are_ascending (sources_at sources.now (concat order.now)) ≡ true }
    ensures some { IfSome result (λ s. IsSourceOf (sources_at sources.now (concat order.now)) s id) }
    ensures none { IfNone result (are_others id (sources_at sources.now (concat order.now)) ≡ true) }
{
    if let Some(source) = find_in_place(sources, order, guess, id) {
        return Some(source);
    }
    find_by_search(sources, order, id)
}

/// The source with this identifier, if there is one.
fn find_by_search(sources: &[SourceList], order: &[Block], id: SourceId) -> Option<SourceList>
    requires places { are_places sources.now (concat order.now) ≡ true }
    requires rising { are_ascending (sources_at sources.now (concat order.now)) ≡ true }
    ensures some { IfSome result (λ s. IsSourceOf (sources_at sources.now (concat order.now)) s id) }
    ensures none { IfNone result (are_others id (sources_at sources.now (concat order.now)) ≡ true) }
{
    let at = seat_of(sources, order, id);
    find(sources, order, at, id)
}
