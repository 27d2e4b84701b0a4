//! What follows of pools, whatever made them.
ghost use Rattle.std.specs.Prelude.{◌+◌, ◌<◌, ◌≤◌, ℕ, List, length};
ghost use Rattle.interval_pool.specs.Chains.{AreOnce};
ghost use Rattle.interval_pool.specs.Values.{PoolValue, HasNoRoom, AreSteps, last_of, AreAmong, cells_in_lists, intervals_of};

/// After room for some number of cells was reserved, none of as many calls of `add` and `cut` fails.
pub fn reserved_lasts()
    ensures { (p : PoolValue) (n : ℕ) (steps : List PoolValue) → n ≤ length p.free + p.room → AreSteps p steps → length steps < n → HasNoRoom (last_of p steps) → ⊥ }
{}

/// The cells in lists are no more than the intervals of any lists that include all lists of the pool. So a full pool has that many
/// intervals in the lists that its caller knows.
pub fn cells_are_within_lists()
    ensures { (p : PoolValue) (lists : List ℕ) → AreAmong p lists → length (cells_in_lists p.lists) ≤ intervals_of p lists }
{}

/// The intervals of distinct lists are together no more than the cells that are in lists.
pub fn distinct_lists_fit()
    ensures { (p : PoolValue) (lists : List ℕ) → AreOnce lists → intervals_of p lists ≤ length (cells_in_lists p.lists) }
{}
