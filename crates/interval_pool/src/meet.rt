//! An interval joined with those of a list that it meets.
ghost use Rattle.std.specs.Prelude.{◌≡◌, ◌+◌, map, nat_lt};
ghost use Rattle.interval_pool.specs.Intervals.{meet};
ghost use Rattle.interval_pool.specs.Pools.{interval_at, rest_of};

use crate::cells::{Cell, Head, after, cell_at, count};
use crate::interval::{Interval, Joined, hull};
use crate::link::Link;

/// Whether `number` exceeds `hi` by more than `reach`.
fn is_beyond(number: u64, hi: u64, reach: u64) -> bool
    ensures { result ≡ nat_lt (hi + reach) number }
{
    number > hi && number - hi > reach
}

/// An interval joined with the cells of a list after `before`, as long as the next cell begins at most `reach` numbers after it.
pub fn meet(
    cells: &[Cell],
    heads: &[Head],
    list: u32,
    before: Link,
    numbers: Interval,
    reach: u64,
) -> Joined
    ensures { result ≡ meet (numbers.hi + reach) numbers 0 (map (interval_at cells.now) (rest_of cells.now heads.now list before)) }
{
    let mut joined = Joined { numbers, count: 0 };
    let mut at = after(cells, heads, list as usize, before);
    let mut left = count(heads, list as usize);
    'meet: while left > 0 {
        let Some(i) = at.place() else {
            return joined;
        };
        let cell = cell_at(cells, i);
        if is_beyond(cell.lo, numbers.hi, reach) {
            return joined;
        }
        let other = Interval {
            lo: cell.lo,
            hi: cell.hi,
        };
        joined = Joined {
            numbers: hull(joined.numbers, other),
            count: joined.count + 1,
        };
        at = cell.next;
        left -= 1;
    }
    joined
}
