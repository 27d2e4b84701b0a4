//! Which numbers are ready, counted in blocks of three sizes, so that a search passes over blocks without any.

ghost use Rattle.std.specs.Prelude.{◌≡◌, ◌≤◌, ◌<◌, ◌+◌, ℕ, Bool, true, false, length, OnOk};
ghost use Rattle.dependency_graph.specs.Ready.{Forgets, HasRoomAt, Inserts, IsListing, Lowers, Opens, Passes, Raises, Removes, Restarts, count_at};

use std::alloc::{AllocError, Global};
use std::collections::VecDeque;

/// The sizes of blocks. Our own rule.
const SMALL: usize = 64;

const MIDDLE: usize = 4_096;

const LARGE: usize = 262_144;

/// How many numbers of each block are ready, from the first block that is kept on.
#[derive(Drop)]
pub struct Level {
    pub first: usize,
    pub counts: VecDeque<usize>,
}

impl Level {
    fn new(alloc: Global) -> Level
        ensures first { result.first ≡ 0 }
        ensures counts { length result.counts.items ≡ 0 }
    {
        Level {
            first: 0,
            counts: VecDeque::new(alloc),
        }
    }

    /// Makes room for a block that is kept, or is the next one.
    fn open(&mut self, block: usize) -> Result<(), AllocError>
        ensures { Opens self.old self.new block result }
    {
        if block.saturating_sub(self.first) >= self.counts.len() {
            self.counts.push_back(0)?;
        }
        Ok(())
    }

    /// Keeps one block, which has none.
    fn restart(&mut self, block: usize) -> Result<(), AllocError>
        ensures { OnOk result (Restarts self.new block) }
    {
        self.counts.clear();
        self.counts.push_back(0)?;
        self.first = block;
        Ok(())
    }

    /// Adds one to the count of a block.
    fn raise(&mut self, block: usize)
        ensures { Raises self.old self.new block }
    {
        let at = block.saturating_sub(self.first);
        if let Some(count) = self.counts.get_mut(at) {
            *count = count.saturating_add(1);
        }
    }

    /// Takes one from the count of a block.
    fn lower(&mut self, block: usize)
        ensures { Lowers self.old self.new block }
    {
        let at = block.saturating_sub(self.first);
        if let Some(count) = self.counts.get_mut(at) {
            *count = count.saturating_sub(1);
        }
    }

    /// Drops the first block if it comes before this one.
    fn pass(&mut self, block: usize)
        ensures { Passes self.old self.new block }
    {
        if self.first < block {
            if let Some(_) = self.counts.pop_front() {
                self.first += 1;
            }
        }
    }

    /// Whether no number of a block is ready.
    fn is_bare(&self, block: usize) -> bool
        ensures { result ≡ true → count_at self.now block ≡ 0 }
    {
        if block < self.first {
            return true;
        }
        match self.counts.get(block - self.first) {
            Some(count) => *count == 0,
            None => true,
        }
    }
}

/// Ready numbers, counted in blocks of three sizes.
#[derive(Drop)]
pub struct Ready {
    pub small: Level,
    pub middle: Level,
    pub large: Level,
}

impl Ready {
    /// No number is ready.
    pub fn new(alloc: Global) -> Ready
        ensures { (p : ℕ → Bool) → ((m : ℕ) → p m ≡ false) → IsListing result 0 0 p }
    {
        Ready {
            small: Level::new(alloc),
            middle: Level::new(alloc),
            large: Level::new(alloc),
        }
    }

    /// Makes room for the next number.
    pub fn reserve(&mut self, number: usize) -> Result<(), AllocError>
        ensures same { (base end : ℕ) (p : ℕ → Bool) → IsListing self.old base end p → IsListing self.new base end p }
        ensures room { OnOk result (HasRoomAt number self.old self.new) }
    {
        self.small.open(number / SMALL)?;
        self.middle.open(number / MIDDLE)?;
        self.large.open(number / LARGE)?;
        Ok(())
    }

    /// Makes room for a number when none is ready, and forgets what was kept of others.
    pub fn restart(&mut self, number: usize) -> Result<(), AllocError>
        ensures { OnOk result ((p : ℕ → Bool) → ((m : ℕ) → p m ≡ false) → IsListing self.new number (number + 1) p) }
    {
        self.small.restart(number / SMALL)?;
        self.middle.restart(number / MIDDLE)?;
        self.large.restart(number / LARGE)?;
        Ok(())
    }

    /// Makes a number ready, if that is wanted.
    pub fn insert_if(&mut self, number: usize, wanted: bool)
        ensures { Inserts number wanted self.old self.new }
    {
        if wanted {
            self.small.raise(number / SMALL);
            self.middle.raise(number / MIDDLE);
            self.large.raise(number / LARGE);
        }
    }

    /// Makes a number not ready, if it was ready.
    pub fn remove_if(&mut self, number: usize, was: bool)
        ensures { Removes number was self.old self.new }
    {
        if was {
            self.small.lower(number / SMALL);
            self.middle.lower(number / MIDDLE);
            self.large.lower(number / LARGE);
        }
    }

    /// Drops all numbers below `base`. A call drops at most one block of each size, which is enough if `base` grows by one.
    pub fn pass(&mut self, base: usize)
        ensures { Forgets base self.old self.new }
    {
        self.small.pass(base / SMALL);
        self.middle.pass(base / MIDDLE);
        self.large.pass(base / LARGE);
    }

    /// A count of numbers from this one on that are not ready: at most 262,144, and perhaps fewer than there are.
    pub fn skip(&self, number: usize) -> usize
        ensures bare { (base end : ℕ) (p : ℕ → Bool) → IsListing self.now base end p → (m : ℕ) → number ≤ m → m < number + result → p m ≡ false }
        ensures small { result ≤ 262144 }
    {
        if self.large.is_bare(number / LARGE) {
            return LARGE - number % LARGE;
        }
        if self.middle.is_bare(number / MIDDLE) {
            return MIDDLE - number % MIDDLE;
        }
        if self.small.is_bare(number / SMALL) {
            return SMALL - number % SMALL;
        }
        0
    }
}
