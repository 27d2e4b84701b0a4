//! Lists in order, cut into ranges of keys, each of which is merged by a thread of its own.
ghost use Rattle.std.specs.Prelude.{◌≡◌, ◌++◌, [], true, length, slice_get, IfOk, OnOk, Some, Ok, map, IsPermutation};
ghost use Rattle.row_parts.specs.Listing.{joined_before};
ghost use Rattle.row_parts.specs.Ranges.{Follows, IsRange, IsRising, RisesAlong, cut_from, cuts_in, left_of, range_of, ranges_at, shown_at};

use crate::listing::Listed;
use rows::{Key, Row, sort_by_keys};
use std::alloc::{AllocError, Global};
use std::thread;
use std::thread::Threads;

/// How many ranges are merged at the same time.
pub(crate) const RANGES: usize = 4;

/// How many entries of a list lie between each cut and the cut before it.
pub(crate) type Cuts = [usize; 3];

/// The longest of lists.
fn longest<'b, 'a>(lists: &'b [Listed<'a>]) -> Option<&'b Listed<'a>> {
    let mut found: Option<&Listed<'a>> = None;
    for list in lists {
        let most = match found {
            Some(longest) => longest.entries.len(),
            None => 0,
        };
        if list.entries.len() > most {
            found = Some(list);
        }
    }
    found
}

/// The keys at which the longest list would be cut into ranges of one length. (A guess.)
fn pivots_of<'a>(alloc: Global, lists: &[Listed<'a>]) -> Result<Vec<&'a Key>, AllocError> {
    let mut pivots = Vec::new(alloc);
    let Some(longest) = longest(lists) else {
        return Ok(pivots);
    };
    for place in 1..RANGES {
        if let Some((key, _row)) = longest.entries.get(longest.entries.len() / RANGES * place) {
            pivots.push(*key)?;
        }
    }
    Ok(pivots)
}

/// Where a list is cut before each of these keys. (A guess.)
fn cuts_of(list: &[(&Key, &Row)], pivots: &[&Key]) -> Cuts {
    let mut cuts = [0; 3];
    let mut before = 0;
    for (place, pivot) in pivots.iter().enumerate() {
        let below = list.partition_point(|entry| entry.0 < *pivot);
        if place < cuts.len() {
            cuts[place] = below.saturating_sub(before);
        }
        before = below;
    }
    cuts
}

/// Where each list is cut.
fn cut_all(alloc: Global, lists: &[Listed<'_>]) -> Result<Vec<Cuts>, AllocError> {
    let pivots = pivots_of(alloc, lists)?;
    let mut cuts = Vec::with_capacity(alloc, lists.len())?;
    for list in lists {
        cuts.push(cuts_of(&list.entries, &pivots))?;
    }
    Ok(cuts)
}

/// How many entries the cut at a place takes from a list.
fn cut_at(list: &[(&Key, &Row)], cuts: &[usize], place: usize) -> usize
    ensures { result ≡ cut_from list.now (slice_get cuts.now place) }
{
    match cuts.get(place) {
        Some(cut) => (*cut).min(list.len()),
        None => 0,
    }
}

/// What is left of a list after this many cuts.
fn left_of<'b, 'a>(
    list: &'b [(&'a Key, &'a Row)],
    cuts: &[usize],
    count: usize,
) -> &'b [(&'a Key, &'a Row)]
    ensures { result.now ≡ left_of list.now cuts.now count }
{
    if count == 0 {
        return list;
    }
    let left = left_of(list, cuts, count - 1);
    let (_front, back) = left.split_at(cut_at(left, cuts, count - 1));
    back
}

/// The range of a list at a place.
fn range_of<'b, 'a>(
    list: &'b [(&'a Key, &'a Row)],
    cuts: &[usize],
    place: usize,
) -> &'b [(&'a Key, &'a Row)]
    ensures { result.now ≡ range_of list.now cuts.now place }
{
    let left = left_of(list, cuts, place);
    if place == 3 {
        return left;
    }
    let (front, _back) = left.split_at(cut_at(left, cuts, place));
    front
}

/// The cuts of the list at a place.
fn cuts_at(cuts: &[Cuts], place: usize) -> &[usize]
    ensures { result.now ≡ cuts_in (slice_get cuts.now place) }
{
    match cuts.get(place) {
        Some(cuts) => cuts.as_slice(),
        None => &[],
    }
}

/// A range of all lists, one after another.
fn gather_range<'a>(
    alloc: Global,
    lists: &[Listed<'a>],
    cuts: &[Cuts],
    place: usize,
) -> Result<Vec<(&'a Key, &'a Row)>, AllocError>
    ensures { IfOk result (λ all. all.items ≡ ranges_at lists.now (λ i. cuts_in (slice_get cuts.now i)) place) }
{
    let mut all = Vec::new(alloc);
    for i in 0..lists.len() {
        all.extend_from_slice(range_of(&lists[i].entries, cuts_at(cuts, i), place))?;
    }
    Ok(all)
}

/// A range of all lists, in order.
fn merge_range<'a>(
    alloc: Global,
    lists: &[Listed<'a>],
    cuts: &[Cuts],
    place: usize,
) -> Result<Listed<'a>, AllocError>
    ensures { IfOk result (IsRange lists.now (λ i. cuts_in (slice_get cuts.now i)) place) }
{
    let mut entries = gather_range(alloc, lists, cuts, place)?;
    sort_by_keys(&mut entries)?;
    Ok(Listed { entries })
}

/// Each range of all lists, in order, merged by a thread of its own if one can be started.
fn merge_ranges<'a, R: Threads + Sync>(
    rt: &R,
    alloc: Global,
    lists: &[Listed<'a>],
    cuts: &[Cuts],
) -> Result<Vec<Result<Listed<'a>, AllocError>>, AllocError>
    ensures count { IfOk result (λ found. length found.items ≡ 4) }
    ensures ranges { IfOk result (λ found. (i : _) (range : _) → slice_get found.items i ≡ Some (Ok range) → IsRange lists.now (λ i. cuts_in (slice_get cuts.now i)) i range) }
{
    thread::map_indices(
        rt,
        alloc,
        RANGES,
        &|place: usize| -> Result<Listed<'_>, AllocError>
            ensures { IfOk result (IsRange lists.entry.now (λ i. cuts_in (slice_get cuts.entry.now i)) place) }
        { merge_range(alloc, lists, cuts, place) },
    )
}

/// Lists that were made, unless one of them was not or out of memory.
pub(crate) fn all_made<'a>(
    alloc: Global,
    found: Vec<Result<Listed<'a>, AllocError>>,
) -> Result<Vec<Listed<'a>>, AllocError>
    ensures { IfOk result (λ lists. map Ok lists.items ≡ found.entry.items) }
{
    let mut lists = Vec::new(alloc);
    for list in found {
        let list = list?;
        lists.push(list)?;
    }
    Ok(lists)
}

/// Whether the first key of a list is not below the last one of another.
fn follows(before: &[(&Key, &Row)], list: &[(&Key, &Row)]) -> bool
    ensures { result ≡ true → Follows before.now list.now }
{
    let (Some(last), Some(first)) = (before.last(), list.first()) else {
        return true;
    };
    !first.0.cmp(last.0).is_lt()
}

/// Appends a list to others; returns whether its first key is not below the last one there.
fn put_behind<'a>(
    all: &mut Vec<(&'a Key, &'a Row)>,
    list: &[(&'a Key, &'a Row)],
) -> Result<bool, AllocError>
    ensures put { OnOk result (all.new.items ≡ all.old.items ++ list.now) }
    ensures rising { IfOk result (λ yes. yes ≡ true → IsRising all.old.items → IsRising list.now → IsRising all.new.items) }
{
    let rises = follows(all, list);
    all.extend_from_slice(list)?;
    Ok(rises)
}

/// The lists one after another; and whether each begins after those before it.
pub(crate) fn put_along<'a>(
    all: &mut Vec<(&'a Key, &'a Row)>,
    lists: &[Listed<'a>],
) -> Result<bool, AllocError>
    requires { all.old.items ≡ [] }
    ensures put { OnOk result (all.new.items ≡ joined_before (shown_at lists.now) (length lists.now)) }
    ensures rising { IfOk result (λ yes. yes ≡ true → RisesAlong lists.now all.new.items) }
{
    let mut rising = true;
    for i in 0..lists.len() {
        if !put_behind(all, &lists[i].entries)? {
            rising = false;
        }
    }
    Ok(rising)
}

/// Ranges, each of which is in order, in order: one after another, unless a range begins below the end of the one before.
fn join_ranges<'a>(
    alloc: Global,
    ranges: &[Listed<'a>],
) -> Result<Vec<(&'a Key, &'a Row)>, AllocError>
    ensures same { IfOk result (λ all. IsPermutation (joined_before (shown_at ranges.now) (length ranges.now)) all.items) }
    ensures rising { IfOk result (λ all. RisesAlong ranges.now all.items) }
{
    let mut all = Vec::new(alloc);
    if put_along(&mut all, ranges)? {
        return Ok(all);
    }
    sort_by_keys(&mut all)?;
    Ok(all)
}

/// The entries of lists, in order: merged by ranges of keys, each by a thread of its own if one can be started.
pub(crate) fn merge_beside<'a, R: Threads + Sync>(
    rt: &R,
    alloc: Global,
    lists: &[Listed<'a>],
) -> Result<Vec<(&'a Key, &'a Row)>, AllocError>
    ensures same { IfOk result (λ all. IsPermutation (joined_before (shown_at lists.now) (length lists.now)) all.items) }
    ensures rising { IfOk result (λ all. IsRising all.items) }
{
    let cuts = cut_all(alloc, lists)?;
    let found = merge_ranges(rt, alloc, lists, &cuts)?;
    let ranges = all_made(alloc, found)?;
    join_ranges(alloc, &ranges)
}
