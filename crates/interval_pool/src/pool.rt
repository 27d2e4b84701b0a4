//! The pool as its callers see it.
ghost use Rattle.std.specs.Prelude.{◌≡◌, ◌↔◌, ◌≢◌, ℕ, ◌<◌, ◌≤◌, IsOk, OnOk, OnErr, IfOk, IfErr, IfSome, IfNone, true, false, length, vec_capacity, ◌++◌};
ghost use Rattle.interval_pool.specs.Links.{most_cells};
ghost use Rattle.interval_pool.specs.Intervals.{AreMerged, IsBefore, IsApart, IsSplit, covers, has};
ghost use Rattle.std.specs.List.{AllByRecursion, Contains};
ghost use Rattle.interval_pool.specs.Values.{empty, is_list, IsList, IsRange, cells_of, spans, first_cell, Follows, Covers, IsPartition, Opened, AddedTo, Appended, Extended, Copied, CutFrom, Released, Reserved, HasNoRoom, HasNoRoomFor, IsFull, IsFullWith, AreAllLists};
ghost use Rattle.interval_pool.specs.declared.fault.PoolFault.TheVariants.{Full, Memory};

use crate::add::add;
use crate::append::append;
use crate::cells::{Cell, Head, after, cell_at, count};
use crate::claim::{claim, drop_list};
use crate::cut::cut;
use crate::extend::extend;
use crate::fault::PoolFault;
use crate::hints::Hints;
use crate::interval::Interval;
use crate::link::{Link, MOST_CELLS};
use crate::seek::interval_with;
use crate::walk::{Walk, walk_from};
use std::alloc::Global;
use std::marker::Model;

/// The name of a list, of 32 bits. The name of a list that was released may be that of a later one.
#[derive(Clone, Copy, Debug, PartialEq, Eq, Drop)]
pub struct ListId {
    number: u32,
}

impl Model for ListId {
    ghost use Rattle.std.specs.Prelude.{ℕ};

    ghost Value = { ℕ };

    ghost view = { λ l. l.number };

    ghost inverse = { λ n. record { number = n } };

    ghost use Rattle.std.proofs.Common.{refl};

    ghost inverse_ok = { λ l h. refl };
}

impl ListId {
    fn number(self) -> u32
        ensures { result ≡ self }
    {
        self.number
    }
}

/// Lists of numbers of 64 bits, each kept as merged intervals in cells of one vector. A cell
/// is named by a number of 32 bits, which holds until the next change of its list.
pub struct Pool {
    cells: Vec<Cell>,
    heads: Vec<Head>,
    hints: Hints,
}

impl Drop for Pool {
    // (by hand: for a caller dropping a Pool is one call)
    fn drop(self) {
        let Pool {
            cells: _cells,
            heads: _heads,
            hints: _hints,
        } = self;
    }
}

impl Model for Pool {
    ghost use Rattle.std.specs.Prelude.{vec_capacity};
    ghost use Rattle.interval_pool.specs.Values.{PoolValue, pool_code, value_of, IsPool};

    ghost Value = { PoolValue };

    ghost coded = { pool_code };

    ghost view = { λ p. value_of p.cells.items p.heads.items (vec_capacity p.cells) };

    ghost invariant = { λ p. IsPool p.cells.items p.heads.items };
}

impl Pool {
    /// A pool without lists and cells. It does not allocate.
    pub fn open(alloc: Global) -> Pool
        ensures { result ≡ empty }
    {
        Pool {
            cells: Vec::new(alloc),
            heads: Vec::new(alloc),
            hints: Hints::open(alloc),
        }
    }

    /// Adds numbers to a list. It fails only if they touch no interval of the list, no cell is free, and there is no memory for one more
    /// (`Memory`) or 4,294,967,294 intervals are in the pool (`Full`). An error changes nothing.
    pub fn add(&mut self, list: ListId, numbers: Interval) -> Result<(), PoolFault>
        requires list { IsList self.old list }
        requires range { IsRange numbers }
        ensures ok { OnOk result (AddedTo self.old list numbers self.new) }
        ensures err { OnErr result (self.new ≡ self.old) }
        ensures room { OnErr result (HasNoRoom self.old) }
        ensures apart { OnErr result (IsApart (spans self.old list) numbers) }
        ensures full { IfErr result (λ fault. fault ≡ Full ↔ IsFull self.old) }
    {
        add(
            &mut self.cells,
            &mut self.heads,
            &mut self.hints,
            list.number(),
            numbers,
        )?;
        Ok(())
    }

    /// Appends an interval to a list. It costs a few steps, however many there are, and is for lists that are written in order; after
    /// `reserve` their cells come to lie one after another. It fails only if no cell is free, and there is no memory for one more
    /// (`Memory`) or 4,294,967,294 intervals are in the pool (`Full`). An error changes nothing.
    pub fn append(&mut self, list: ListId, numbers: Interval) -> Result<(), PoolFault>
        requires list { IsList self.old list }
        requires range { IsRange numbers }
        requires behind { AllByRecursion (λ t. IsBefore t numbers) (spans self.old list) }
        ensures ok { OnOk result (Appended self.old list numbers self.new) }
        ensures err { OnErr result (self.new ≡ self.old) }
        ensures room { OnErr result (HasNoRoom self.old) }
        ensures full { IfErr result (λ fault. fault ≡ Full ↔ IsFull self.old) }
    {
        let list = list.number();
        let is_run = self.hints.is_run(list);
        let guess = self.hints.last(&self.cells, &self.heads, list, is_run);
        let place = append(&mut self.cells, &mut self.heads, list, numbers, guess)?;
        self.hints
            .note_appended(&self.cells, &self.heads, list, place, numbers, is_run);
        Ok(())
    }

    /// Appends intervals to a list, at a cost of a few steps each, fewest if no cell is free. It fails only if they are more than the free
    /// cells and those for which there is room, and there is no memory for more (`Memory`), or if they and the intervals in the pool are
    /// together more than 4,294,967,294 (`Full`). An error changes nothing.
    pub fn extend(&mut self, list: ListId, intervals: &[Interval]) -> Result<(), PoolFault>
        requires list { IsList self.old list }
        requires merged { AreMerged (spans self.old list ++ intervals.now) }
        ensures ok { OnOk result (Extended self.old list intervals.now self.new) }
        ensures err { OnErr result (self.new ≡ self.old) }
        ensures room { OnErr result (HasNoRoomFor self.old (length intervals.now)) }
        ensures full { IfErr result (λ fault. fault ≡ Full ↔ IsFullWith self.old (length intervals.now)) }
    {
        let list = list.number();
        let is_run = self.hints.is_run(list);
        let guess = self.hints.last(&self.cells, &self.heads, list, is_run);
        let is_new = count(&self.heads, 0) == 0;
        let place = extend(&mut self.cells, &mut self.heads, list, intervals, guess)?;
        let many = intervals.len();
        self.hints.note_extended(
            &self.cells,
            &self.heads,
            list,
            place,
            many,
            is_run && is_new,
        );
        Ok(())
    }

    /// Cuts numbers out of a list. It fails only if they lie within an interval that goes on at both ends, no cell is free, and there is no
    /// memory for one more (`Memory`) or 4,294,967,294 intervals are in the pool (`Full`). An error changes nothing.
    pub fn cut(&mut self, list: ListId, numbers: Interval) -> Result<(), PoolFault>
        requires list { IsList self.old list }
        requires range { IsRange numbers }
        ensures ok { OnOk result (CutFrom self.old list numbers self.new) }
        ensures err { OnErr result (self.new ≡ self.old) }
        ensures room { OnErr result (HasNoRoom self.old) }
        ensures split { OnErr result (IsSplit (spans self.old list) numbers) }
        ensures full { IfErr result (λ fault. fault ≡ Full ↔ IsFull self.old) }
    {
        let list = list.number();
        let guess = self
            .hints
            .near_place(&self.cells, &self.heads, list, numbers.lo);
        let place = cut(&mut self.cells, &mut self.heads, list, numbers, guess)?;
        self.hints
            .note_cut(&self.cells, &self.heads, list, place, numbers);
        Ok(())
    }

    /// A copy of the pool: the same lists, with the same cells, and the same free cells. It fails if out of memory (`Memory`).
    pub fn copy(&self, alloc: Global) -> Result<Pool, PoolFault>
        ensures ok { IfOk result (λ pool. Copied self.now pool) }
        ensures memory { IfErr result (λ fault. fault ≡ Memory) }
    {
        let hints = self.hints.copy(alloc)?;
        let heads = Vec::from_slice(alloc, &self.heads)?;
        let cells = Vec::from_slice(alloc, &self.cells)?;
        Ok(Pool {
            cells,
            heads,
            hints,
        })
    }

    /// Makes an empty list. It fails if out of memory (`Memory`), or if there are 4,294,967,294 lists (`Full`). An error changes nothing.
    pub fn new_list(&mut self) -> Result<ListId, PoolFault>
        ensures ok { IfOk result (λ list. Opened self.old list self.new) }
        ensures err { OnErr result (self.new ≡ self.old) }
        ensures full { IfErr result (λ fault. fault ≡ Full ↔ AreAllLists self.old) }
    {
        let number = claim(&mut self.heads, self.hints.released_list())?;
        self.hints.begin(number);
        Ok(ListId { number })
    }

    /// Ends a list and frees its cells. It does not allocate.
    pub fn release(&mut self, list: ListId)
        requires list { IsList self.old list }
        ensures { Released self.old list self.new }
    {
        drop_list(&mut self.cells, &mut self.heads, list.number());
        self.hints.end(list.number());
    }

    /// Whether this is a list.
    pub fn is_list(&self, list: ListId) -> bool
        ensures { result ≡ is_list self.now list }
    {
        let at = list.number() as usize;
        at < self.heads.as_slice().len() && self.heads[at].is_list
    }

    /// Whether a list has a number.
    pub fn contains(&self, list: ListId, number: u64) -> bool
        requires list { IsList self.now list }
        ensures { result ≡ has (spans self.now list) number }
    {
        self.interval_with(list, number).is_some()
    }

    /// The interval of a list that has a number, if there is one.
    pub fn interval_with(&self, list: ListId, number: u64) -> Option<Interval>
        requires list { IsList self.now list }
        ensures one { IfSome result (λ s. Contains (spans self.now list) s) }
        ensures covers { IfSome result (λ s. covers s number ≡ true) }
        ensures none { IfNone result (has (spans self.now list) number ≡ false) }
    {
        let list = list.number();
        let guess = self.hints.place(&self.cells, &self.heads, list, number);
        interval_with(&self.cells, &self.heads, list, number, guess)
    }

    /// How many intervals a list has.
    pub fn len(&self, list: ListId) -> u32
        requires list { IsList self.now list }
        ensures { result ≡ length (cells_of self.now list) }
    {
        count(&self.heads, list.number() as usize)
    }

    /// The first cell of a list, or none if it is empty.
    pub fn first(&self, list: ListId) -> Option<u32>
        requires list { IsList self.now list }
        ensures { result ≡ first_cell (cells_of self.now list) }
    {
        after(
            &self.cells,
            &self.heads,
            list.number() as usize,
            Link::none(),
        )
        .number()
    }

    /// The way along a list from its first interval.
    pub fn walk(&self, list: ListId) -> Walk<'_>
        requires list { IsList self.now list }
        ensures { result ≡ spans self.now list }
    {
        let list = list.number() as usize;
        let first = after(&self.cells, &self.heads, list, Link::none());
        walk_from(&self.cells, first)
    }

    /// The cell after this one in its list, none after the last. No clause tells what comes of a cell in no list.
    pub fn next(&self, cell: u32) -> Option<u32>
        ensures { Follows self.now cell result }
    {
        cell_at(&self.cells, cell as usize).next.number()
    }

    /// The interval of a cell. No clause tells what comes of a cell in no list.
    pub fn span(&self, cell: u32) -> Interval
        ensures { Covers self.now cell result }
    {
        let found = cell_at(&self.cells, cell as usize);
        Interval {
            lo: found.lo,
            hi: found.hi,
        }
    }

    /// How many cells are free.
    pub fn free_cells(&self) -> u32
        ensures { result ≡ length (self.now).free }
    {
        count(&self.heads, 0)
    }

    /// Makes room for `more` cells, so that `more` calls of `add` and `cut` succeed after it (`reserved_lasts`). The free cells stay as
    /// they are. It fails if out of memory (`Memory`), or if `more` and the cells in lists are together more than 4,294,967,294 (`Full`).
    /// An error changes nothing.
    pub fn reserve(&mut self, more: usize) -> Result<(), PoolFault>
        ensures ok { OnOk result (Reserved self.old more self.new) }
        ensures err { OnErr result (self.new ≡ self.old) }
        ensures there { more ≤ (self.old).room → IsOk result }
        ensures full { IfErr result (λ fault. fault ≡ Full ↔ IsFullWith self.old more) }
    {
        let left = MOST_CELLS as usize - self.cells.as_slice().len();
        let free = count(&self.heads, 0) as usize;
        if more > left + free {
            return Err(PoolFault::Full);
        }
        self.cells.reserve(more.min(left))?;
        Ok(())
    }

    /// A law, which does nothing: lists are merged; lists and the free cells share no cell, and are together all cells,
    /// which are no more than 4,294,967,294.
    pub fn partition(&self)
        ensures small { (self.now).cells ≤ most_cells }
        ensures merged { (l : ℕ) → AreMerged (spans self.now l) }
        ensures parted { IsPartition self.now }
    {
        let _ = &self.cells;
    }
}
