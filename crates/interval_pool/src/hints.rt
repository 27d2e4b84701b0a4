//! Guesses of the place of a number in a list. Each is tested when it is used, so a wrong one only costs time.
use crate::cells::{Cell, Head, after, cell_at, count};
use crate::interval::Interval;
use crate::link::Link;
use std::alloc::{AllocError, Global};
use std::collections::BTreeMap;

/// A list of at most this many cells is walked from its first.
const SHORT: u32 = 32;

/// How many cells a place may lie after one that is guessed.
const NEAR: u32 = 2;

/// What is remembered of a list: whether its cells are contiguous, whether they are in the index, and where it was changed last.
#[derive(Clone, Copy, Drop)]
struct ListHints {
    // the place of the last change, and the cell after it
    place: Link,
    cell: Link,
    // the list that was released before it
    released: u32,
    is_run: bool,
    is_indexed: bool,
}

/// The cells of a list by their least numbers.
type Index = BTreeMap<u64, Link>;

/// What is remembered of all lists, and an index of the cells of some, at the list's number.
#[derive(Drop)]
pub struct Hints {
    lists: Vec<ListHints>,
    released: u32,
    indexes: Vec<Index>,
}

/// What is remembered of an empty list.
fn empty_list() -> ListHints {
    ListHints {
        place: Link::none(),
        cell: Link::none(),
        released: 0,
        is_run: true,
        is_indexed: false,
    }
}

/// Whether a cell is one of a list that ends below a number.
fn is_below(cells: &[Cell], list: u32, number: u64, place: Link) -> bool {
    let Some(at) = place.place() else {
        return false;
    };
    let cell = cell_at(cells, at);
    cell.owner == list && cell.hi < number
}

/// Whether a number's place is this one, or near after it.
fn is_near(cells: &[Cell], heads: &[Head], list: u32, number: u64, place: Link) -> bool {
    if place.place().is_some() && !is_below(cells, list, number, place) {
        return false;
    }
    let mut next = after(cells, heads, list as usize, place);
    for _step in 0..NEAR {
        let Some(at) = next.place() else {
            return true;
        };
        let cell = cell_at(cells, at);
        if cell.hi >= number {
            return true;
        }
        next = cell.next;
    }
    false
}

/// The last cell that ends below a number, of a list whose cells are contiguous.
fn search_run(cells: &[Cell], heads: &[Head], list: u32, number: u64) -> Link {
    let Some(first) = after(cells, heads, list as usize, Link::none()).place() else {
        return Link::none();
    };
    let behind = first.saturating_add(count(heads, list as usize) as usize);
    if behind > cells.len() {
        return Link::none();
    }
    let below = cells[first..behind].partition_point(|cell| cell.hi < number);
    if below == 0 {
        return Link::none();
    }
    Link::to(first.saturating_add(below - 1))
}

/// Whether a cell is what was left beside numbers that were cut out.
fn is_beside(cell: Cell, numbers: Interval) -> bool {
    cell.hi.saturating_add(1) == numbers.lo || numbers.hi.saturating_add(1) == cell.lo
}

/// The last cell of a list whose cells are contiguous.
fn end_of_run(cells: &[Cell], heads: &[Head], list: u32) -> Link {
    let first = after(cells, heads, list as usize, Link::none());
    first.last_of(count(heads, list as usize))
}

/// Whether a cell is the last of a list.
fn is_end(cells: &[Cell], list: u32, place: Link) -> bool {
    let Some(at) = place.place() else {
        return false;
    };
    let cell = cell_at(cells, at);
    cell.owner == list && cell.next.is_none()
}

/// Whether the cells after a place are still contiguous after a small change.
fn is_still_run(cells: &[Cell], heads: &[Head], list: u32, place: Link) -> bool {
    let mut last = place;
    for _step in 0..NEAR + 1 {
        let Some(at) = after(cells, heads, list as usize, last).place() else {
            return true;
        };
        if let Some(before) = last.place() {
            if at != before.saturating_add(1) {
                return false;
            }
        }
        last = Link::to(at);
    }
    true
}

/// The last least number of an index up to this one.
fn last_key(index: &Index, upto: u64) -> Option<u64> {
    match index.range(..=upto).next_back() {
        Some((key, _)) => Some(*key),
        None => None,
    }
}

/// Takes the cells that begin in this interval, at most `most` of them, out of an index.
fn forget_between(index: &mut Index, from: u64, upto: u64, most: u32) {
    let numbers = upto.saturating_add(1).saturating_sub(from);
    for _cell in 0..numbers.min(most as u64) {
        let Some(key) = last_key(index, upto) else {
            return;
        };
        if key < from {
            return;
        }
        let _ = index.remove(&key);
    }
}

impl Hints {
    /// No lists.
    pub fn open(alloc: Global) -> Hints {
        Hints {
            lists: Vec::new(alloc),
            released: 0,
            indexes: Vec::new(alloc),
        }
    }

    /// The same of a copy of the pool.
    pub fn copy(&self, alloc: Global) -> Result<Hints, AllocError> {
        let lists = Vec::from_slice(alloc, &self.lists)?;
        let indexes = self.indexes.clone()?;
        Ok(Hints {
            lists,
            released: self.released,
            indexes,
        })
    }

    fn of(&self, list: u32) -> ListHints {
        match self.lists.get(list as usize) {
            Some(hints) => *hints,
            None => empty_list(),
        }
    }

    /// Stores what is to be remembered of a list, if there is a place for it.
    fn put(&mut self, list: u32, hints: ListHints) {
        let at = list as usize;
        if at < self.lists.as_slice().len() {
            self.lists[at] = hints;
        }
    }

    /// The same, and makes a place first if there is memory.
    fn keep(&mut self, list: u32, hints: ListHints) {
        let missing = (list as usize + 1).saturating_sub(self.lists.as_slice().len());
        for _list in 0..missing {
            let _ = self.lists.push(empty_list());
        }
        self.put(list, hints);
    }

    /// A list that may have been released.
    pub fn released_list(&self) -> u32 {
        self.released
    }

    /// A list begins. A pool with one list allocates nothing for it here.
    pub fn begin(&mut self, list: u32) {
        if self.released == list {
            self.released = self.of(list).released;
        }
        if list > 1 {
            self.keep(list, empty_list());
        } else {
            self.put(list, empty_list());
        }
    }

    /// A list ends.
    pub fn end(&mut self, list: u32) {
        if self.of(list).is_indexed {
            self.forget_all(list);
        }
        let released = self.released;
        self.put(
            list,
            ListHints {
                released,
                ..empty_list()
            },
        );
        self.released = list;
    }

    /// The place of a number, as far as it is known.
    pub fn place(&self, cells: &[Cell], heads: &[Head], list: u32, number: u64) -> Link {
        if count(heads, list as usize) <= SHORT {
            return Link::none();
        }
        if self.of(list).is_run {
            return search_run(cells, heads, list, number);
        }
        self.search_index(cells, list, number)
    }

    /// The same, tried first where the last change was.
    pub fn near_place(&self, cells: &[Cell], heads: &[Head], list: u32, number: u64) -> Link {
        let last = self.of(list).place;
        if is_near(cells, heads, list, number, last) {
            return last;
        }
        self.place(cells, heads, list, number)
    }

    /// Whether the cells of a list are contiguous.
    pub fn is_run(&self, list: u32) -> bool {
        self.of(list).is_run
    }

    /// The last cell of a list, if it is known at once.
    pub fn last_known(&self, cells: &[Cell], heads: &[Head], list: u32, is_run: bool) -> Link {
        if is_run {
            end_of_run(cells, heads, list)
        } else {
            self.of(list).cell
        }
    }

    /// The last cell of a list, as far as it is known.
    pub fn last(&self, cells: &[Cell], heads: &[Head], list: u32, is_run: bool) -> Link {
        let end = self.last_known(cells, heads, list, is_run);
        if is_run || is_end(cells, list, end) {
            return end;
        }
        self.search_index(cells, list, u64::MAX)
    }

    /// The last cell of the index that ends below a number.
    fn search_index(&self, cells: &[Cell], list: u32, number: u64) -> Link {
        let Some(index) = self.indexes.get(list as usize) else {
            return Link::none();
        };
        let mut found = index.range(..=number);
        for _step in 0..NEAR {
            let Some((_, cell)) = found.next_back() else {
                return Link::none();
            };
            if is_below(cells, list, number, *cell) {
                return *cell;
            }
        }
        Link::none()
    }

    /// Makes an index for a list, if there is memory.
    fn begin_index(&mut self, list: u32) {
        let alloc = *self.indexes.allocator();
        let missing = (list as usize + 1).saturating_sub(self.indexes.as_slice().len());
        for _list in 0..missing {
            let _ = self.indexes.push(BTreeMap::new(alloc));
        }
    }

    /// Puts a cell into the index, if there is memory.
    fn remember(&mut self, cells: &[Cell], list: u32, at: usize) {
        let place = list as usize;
        if place < self.indexes.as_slice().len() {
            let _ = self.indexes[place].insert(cell_at(cells, at).lo, Link::to(at));
        }
    }

    /// Takes all cells of a list out of its index.
    fn forget_all(&mut self, list: u32) {
        let alloc = *self.indexes.allocator();
        let place = list as usize;
        if place < self.indexes.as_slice().len() {
            self.indexes[place] = BTreeMap::new(alloc);
        }
    }

    /// Takes the cells of a list that begin in this interval, at most `most` of them, out of the index.
    fn forget(&mut self, list: u32, from: u64, upto: u64, most: u32) {
        let place = list as usize;
        if place < self.indexes.as_slice().len() {
            forget_between(&mut self.indexes[place], from, upto, most);
        }
    }

    /// Puts all cells of a list after a place into the index.
    fn remember_behind(&mut self, cells: &[Cell], heads: &[Head], list: u32, place: Link) {
        let mut next = after(cells, heads, list as usize, place);
        for _cell in 0..count(heads, list as usize) {
            let Some(at) = next.place() else {
                return;
            };
            self.remember(cells, list, at);
            next = cell_at(cells, at).next;
        }
    }

    /// Whether the index has to follow a change after a place: not if the list's cells are contiguous, and not if the index is made anew.
    fn keeps_index(&mut self, cells: &[Cell], heads: &[Head], list: u32, place: Link) -> bool {
        let hints = self.of(list);
        let is_one = count(heads, list as usize) <= 1;
        if is_one && hints.is_indexed {
            self.forget_all(list);
        }
        let was_indexed = hints.is_indexed && !is_one;
        let is_run = is_one || hints.is_run && is_still_run(cells, heads, list, place);
        let is_long = count(heads, list as usize) > SHORT;
        let begins = !is_run && !was_indexed && is_long;
        if begins {
            self.begin_index(list);
            self.remember_behind(cells, heads, list, Link::none());
        }
        let is_indexed = was_indexed || begins;
        let known = ListHints {
            place,
            is_run,
            is_indexed,
            ..hints
        };
        if is_long || !is_run {
            self.keep(list, known);
        } else {
            self.put(list, known);
        }
        was_indexed
    }

    /// Numbers were added after a place of a list that had `many` cells before.
    pub fn note_added(
        &mut self,
        cells: &[Cell],
        heads: &[Head],
        list: u32,
        place: Link,
        numbers: Interval,
        many: u32,
    ) {
        let cell = after(cells, heads, list as usize, place);
        let Some(at) = cell.place() else {
            return;
        };
        let is_told = self.keeps_index(cells, heads, list, place);
        let hints = self.of(list);
        let Cell { lo, hi, .. } = cell_at(cells, at);
        self.put(list, ListHints { cell, ..hints });
        if is_told {
            let joined = many
                .saturating_add(1)
                .saturating_sub(count(heads, list as usize));
            let kept = if lo < numbers.lo { 1 } else { 0 };
            self.forget(list, lo.saturating_add(1), hi, joined.saturating_sub(kept));
            // one that only goes on further has its cell and its least number still
            let is_longer = joined == 1 && kept == 1;
            if !is_longer {
                self.remember(cells, list, at);
            }
        }
    }

    /// An interval was appended to a list. A contiguous list stays so if its last cells are the last of all.
    pub fn note_appended(
        &mut self,
        cells: &[Cell],
        heads: &[Head],
        list: u32,
        place: Link,
        numbers: Interval,
        is_run: bool,
    ) {
        if !is_run || !place.is_before(cells.len().saturating_sub(1)) {
            let many = count(heads, list as usize).saturating_sub(1);
            self.note_added(cells, heads, list, place, numbers, many);
        }
    }

    /// `many` intervals were appended after `place`. A contiguous list stays so if they are in new cells alone, the last of all cells.
    #[inline(always)]
    pub fn note_extended(
        &mut self,
        cells: &[Cell],
        heads: &[Head],
        list: u32,
        place: Link,
        many: usize,
        is_run: bool,
    ) {
        let goes_on = place.is_none() || place.is_before(cells.len().saturating_sub(many));
        if !is_run || !goes_on {
            self.note_scattered(cells, heads, list, place, many);
        }
    }

    /// `many` intervals were inserted after `place`; the list's cells are no longer contiguous.
    fn note_scattered(
        &mut self,
        cells: &[Cell],
        heads: &[Head],
        list: u32,
        place: Link,
        many: usize,
    ) {
        let all = count(heads, list as usize);
        if many == 0 || all <= 1 {
            return;
        }
        let hints = self.of(list);
        let is_indexed = hints.is_indexed || all > SHORT;
        if is_indexed {
            let known = if hints.is_indexed {
                place
            } else {
                Link::none()
            };
            self.begin_index(list);
            self.remember_behind(cells, heads, list, known);
        }
        let end = cells.len().saturating_sub(1);
        self.keep(
            list,
            ListHints {
                place,
                cell: Link::to(end),
                is_run: false,
                is_indexed,
                ..hints
            },
        );
    }

    /// An interval was cut out after a place.
    pub fn note_cut(
        &mut self,
        cells: &[Cell],
        heads: &[Head],
        list: u32,
        place: Link,
        numbers: Interval,
    ) {
        if self.keeps_index(cells, heads, list, place) {
            self.forget(list, numbers.lo, numbers.hi, u32::MAX);
            let mut next = after(cells, heads, list as usize, place);
            for _piece in 0..NEAR {
                let Some(at) = next.place() else {
                    break;
                };
                let cell = cell_at(cells, at);
                next = cell.next;
                if is_beside(cell, numbers) {
                    self.remember(cells, list, at);
                }
            }
        }
        let hints = self.of(list);
        self.put(
            list,
            ListHints {
                cell: Link::none(),
                ..hints
            },
        );
    }
}
