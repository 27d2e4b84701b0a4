//! The intervals of lists and the number of free cells after each of some calls, worked out by hand.
ghost use Rattle.std.specs.Prelude.{◌≡◌, ◌<◌, ◌≤◌, [], IfOk};
ghost use Rattle.interval_pool.specs.Values.{IsRange, IsList, spans};

use interval_pool::{Interval, ListId, Pool, Walk};
use std::alloc::{AllocError, Global};

fn add(pool: &mut Pool, list: ListId, numbers: Interval) -> bool
    requires { IsRange numbers }
{
    pool.is_list(list) && pool.add(list, numbers).is_ok()
}

fn cut(pool: &mut Pool, list: ListId, numbers: Interval) -> bool
    requires { IsRange numbers }
{
    pool.is_list(list) && pool.cut(list, numbers).is_ok()
}

/// The intervals of a list, from cell to cell.
fn spans(alloc: Global, pool: &Pool, list: ListId) -> Result<Vec<Interval>, AllocError>
    requires { IsList pool.now list }
    ensures { IfOk result (λ found. found.items ≡ spans pool.now list) }
{
    let mut found = Vec::new(alloc);
    let mut next = pool.first(list);
    'cells: for _cell in 0..pool.len(list) {
        let Some(cell) = next else {
            return Ok(found);
        };
        found.push(pool.span(cell))?;
        next = pool.next(cell);
    }
    Ok(found)
}

/// Whether a list has these intervals, and so many cells are free.
fn shows(pool: &Pool, list: ListId, spans: &[(u64, u64)], free: u32) -> bool {
    if !pool.is_list(list) || pool.free_cells() != free {
        return false;
    }
    let mut next = pool.first(list);
    for (lo, hi) in spans {
        let Some(cell) = next else {
            return false;
        };
        let found = pool.span(cell);
        if found.lo != *lo || found.hi != *hi {
            return false;
        }
        next = pool.next(cell);
    }
    next.is_none()
}

/// Whether a way along a list sees these intervals, one after another.
fn walks(pool: &Pool, list: ListId, spans: &[(u64, u64)]) -> bool {
    if !pool.is_list(list) || Walk::empty().peek().is_some() {
        return false;
    }
    let mut rest = pool.walk(list);
    for (lo, hi) in spans {
        let Some(found) = rest.again().peek() else {
            return false;
        };
        if found.lo != *lo || found.hi != *hi {
            return false;
        }
        rest.advance();
    }
    rest.peek().is_none()
}

/// The first list after each call on it.
fn shows_first(pool: &mut Pool, list: ListId) -> bool {
    add(pool, list, Interval { lo: 1, hi: 10 })
        && shows(pool, list, &[(1, 10)], 0)
        && cut(pool, list, Interval { lo: 3, hi: 4 })
        && shows(pool, list, &[(1, 2), (5, 10)], 0)
        && cut(pool, list, Interval { lo: 7, hi: 7 })
        && shows(pool, list, &[(1, 2), (5, 6), (8, 10)], 0)
        && cut(pool, list, Interval { lo: 5, hi: 6 })
        && shows(pool, list, &[(1, 2), (8, 10)], 1)
}

/// Both lists after each call on one of them.
fn shows_both(pool: &mut Pool, first: ListId, second: ListId) -> bool {
    add(pool, second, Interval { lo: 5, hi: 6 })
        && shows(pool, first, &[(1, 2), (8, 10)], 0)
        && shows(pool, second, &[(5, 6)], 0)
        && add(pool, first, Interval { lo: 3, hi: 7 })
        && shows(pool, first, &[(1, 10)], 1)
        && shows(pool, second, &[(5, 6)], 1)
}

/// One list once the other was released.
fn shows_second(pool: &mut Pool, first: ListId, second: ListId) -> bool {
    if !pool.is_list(first) {
        return false;
    }
    pool.release(first);
    !pool.is_list(first)
        && shows(pool, second, &[(5, 6)], 2)
        && pool.reserve(3).is_ok()
        && shows(pool, second, &[(5, 6)], 2)
        && pool.is_list(second)
        && pool.contains(second, 6)
}

fn shows_all(pool: &mut Pool) -> bool {
    let Ok(first) = pool.new_list() else {
        return false;
    };
    if !shows_first(pool, first) {
        return false;
    }
    let Ok(second) = pool.new_list() else {
        return false;
    };
    shows_both(pool, first, second) && shows_second(pool, first, second)
}

/// Pools may be lent to threads and handed to them.
fn crosses<T: Send + Sync>(_value: &T) {}

#[test]
fn free_cells_after_each_call(rt: HostRuntime) {
    let mut pool = Pool::open(rt.alloc());
    crosses(&pool);
    let shown = shows_all(&mut pool);
    assert!(rt; shown);
}

/// Whether a walk along a list sees so many intervals.
fn sees(alloc: Global, pool: &Pool, list: ListId, count: usize) -> bool {
    if !pool.is_list(list) {
        return false;
    }
    match spans(alloc, pool, list) {
        Ok(found) => found.as_slice().len() == count,
        Err(_) => false,
    }
}

fn sees_two(alloc: Global, pool: &mut Pool) -> bool {
    let Ok(list) = pool.new_list() else {
        return false;
    };
    add(pool, list, Interval { lo: 1, hi: 10 })
        && cut(pool, list, Interval { lo: 4, hi: 5 })
        && sees(alloc, pool, list, 2)
}

#[test]
fn walk_along_a_list(rt: HostRuntime) {
    let mut pool = Pool::open(rt.alloc());
    let seen = sees_two(rt.alloc(), &mut pool);
    assert!(rt; seen);
}

/// Puts so many intervals of two numbers into an empty list, one after another, with a number missing between two.
fn append_all(pool: &mut Pool, list: ListId, count: u64) -> bool
    requires list { IsList pool.old list }
    requires none { spans pool.old list ≡ [] }
    requires few { count < 1000 }
{
    'pairs: for i in 0..count {
        let numbers = Interval {
            lo: 3 * i + 1,
            hi: 3 * i + 2,
        };
        let Ok(()) = pool.append(list, numbers) else {
            return false;
        };
    }
    true
}

/// A new list of so many pairs.
fn list_of_pairs(pool: &mut Pool, count: u64) -> Option<ListId>
    requires { count < 1000 }
{
    let Ok(list) = pool.new_list() else {
        return None;
    };
    if append_all(pool, list, count) {
        Some(list)
    } else {
        None
    }
}

/// Whether a number is in this interval of a list.
fn finds(pool: &Pool, list: ListId, number: u64, lo: u64, hi: u64) -> bool {
    if !pool.is_list(list) {
        return false;
    }
    match pool.interval_with(list, number) {
        Some(found) => found.lo == lo && found.hi == hi,
        None => false,
    }
}

/// Whether a number is in no interval of a list.
fn misses(pool: &Pool, list: ListId, number: u64) -> bool {
    pool.is_list(list) && pool.interval_with(list, number).is_none()
}

/// Three pairs, and what has which number.
fn shows_pairs(pool: &mut Pool) -> bool {
    let Some(list) = list_of_pairs(pool, 3) else {
        return false;
    };
    shows(pool, list, &[(1, 2), (4, 5), (7, 8)], 0)
        && walks(pool, list, &[(1, 2), (4, 5), (7, 8)])
        && misses(pool, list, 0)
        && finds(pool, list, 4, 4, 5)
        && finds(pool, list, 5, 4, 5)
        && misses(pool, list, 6)
        && finds(pool, list, 8, 7, 8)
        && misses(pool, list, 9)
        && add(pool, list, Interval { lo: 9, hi: 9 })
        && shows(pool, list, &[(1, 2), (4, 5), (7, 9)], 0)
}

/// A long list, and the cells that it leaves, taken again.
fn shows_reuse(pool: &mut Pool) -> bool {
    let Some(long) = list_of_pairs(pool, 100) else {
        return false;
    };
    if !finds(pool, long, 152, 151, 152) || !misses(pool, long, 153) || !pool.is_list(long) {
        return false;
    }
    pool.release(long);
    let Some(short) = list_of_pairs(pool, 2) else {
        return false;
    };
    shows(pool, short, &[(1, 2), (4, 5)], 98)
}

#[test]
fn intervals_behind_one_another(rt: HostRuntime) {
    let mut pool = Pool::open(rt.alloc());
    let shown = shows_pairs(&mut pool) && shows_reuse(&mut pool);
    assert!(rt; shown);
}

/// A copy, and its changes and those of the original, each seen in the one alone.
fn shows_copy(alloc: Global, pool: &mut Pool, list: ListId) -> bool {
    let Ok(mut other) = pool.copy(alloc) else {
        return false;
    };
    cut(&mut other, list, Interval { lo: 4, hi: 5 })
        && shows(&other, list, &[(1, 2), (7, 8)], 1)
        && shows(pool, list, &[(1, 2), (4, 5), (7, 8)], 0)
        && add(pool, list, Interval { lo: 3, hi: 3 })
        && shows(pool, list, &[(1, 5), (7, 8)], 1)
        && shows(&other, list, &[(1, 2), (7, 8)], 1)
        && finds(&other, list, 8, 7, 8)
}

fn shows_copy_of_pairs(alloc: Global, pool: &mut Pool) -> bool {
    match list_of_pairs(pool, 3) {
        Some(list) => shows_copy(alloc, pool, list),
        None => false,
    }
}

#[test]
fn a_copy_changes_alone(rt: HostRuntime) {
    let mut pool = Pool::open(rt.alloc());
    let shown = shows_copy_of_pairs(rt.alloc(), &mut pool);
    assert!(rt; shown);
}

/// Intervals after those of a list with none, and after these.
fn shows_extended(pool: &mut Pool, list: ListId) -> bool
    requires list { IsList pool.old list }
    requires none { spans pool.old list ≡ [] }
{
    let first = [Interval { lo: 1, hi: 2 }, Interval { lo: 4, hi: 4 }];
    let Ok(()) = pool.extend(list, &first) else {
        return false;
    };
    let second = [
        Interval { lo: 6, hi: 9 },
        Interval { lo: 11, hi: 11 },
        Interval { lo: 20, hi: 25 },
    ];
    let Ok(()) = pool.extend(list, &second) else {
        return false;
    };
    let Ok(()) = pool.extend(list, &[]) else {
        return false;
    };
    shows(pool, list, &[(1, 2), (4, 4), (6, 9), (11, 11), (20, 25)], 0)
        && finds(pool, list, 4, 4, 4)
        && misses(pool, list, 10)
        && finds(pool, list, 22, 20, 25)
        && add(pool, list, Interval { lo: 5, hi: 10 })
        && shows(pool, list, &[(1, 2), (4, 11), (20, 25)], 2)
        && walks(pool, list, &[(1, 2), (4, 11), (20, 25)])
}

/// A list whose first intervals are put into free cells, and the others into new ones.
fn shows_taken(pool: &mut Pool, list: ListId) -> bool
    requires list { IsList pool.old list }
    requires none { spans pool.old list ≡ [] }
{
    let numbers = [
        Interval { lo: 1, hi: 1 },
        Interval { lo: 3, hi: 3 },
        Interval { lo: 5, hi: 6 },
        Interval { lo: 8, hi: 8 },
    ];
    let Ok(()) = pool.extend(list, &numbers) else {
        return false;
    };
    shows(pool, list, &[(1, 1), (3, 3), (5, 6), (8, 8)], 0)
        && finds(pool, list, 6, 5, 6)
        && misses(pool, list, 7)
}

fn shows_first_extended(pool: &mut Pool) -> bool {
    match pool.new_list() {
        Ok(list) => shows_extended(pool, list),
        Err(_) => false,
    }
}

fn shows_second_extended(pool: &mut Pool) -> bool {
    match pool.new_list() {
        Ok(list) => shows_taken(pool, list),
        Err(_) => false,
    }
}

#[test]
fn many_intervals_at_once(rt: HostRuntime) {
    let mut pool = Pool::open(rt.alloc());
    let shown = shows_first_extended(&mut pool) && shows_second_extended(&mut pool);
    assert!(rt; shown);
}
