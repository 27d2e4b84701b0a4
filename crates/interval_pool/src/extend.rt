//! Appending intervals to a list.
ghost use Rattle.std.specs.Prelude.{◌≡◌, ◌↔◌, ◌≢◌, ◌<◌, ◌≤◌, ◌+◌, ◌++◌, OnOk, OnErr, IfErr, length, vec_capacity};
ghost use Rattle.interval_pool.specs.Links.{most_cells};
ghost use Rattle.interval_pool.specs.Intervals.{AreMerged};
ghost use Rattle.interval_pool.specs.Pools.{AreWhole};
ghost use Rattle.interval_pool.specs.Changes.{IsSpentBy, Prolonged, free_count, spans_of};
ghost use Rattle.interval_pool.specs.declared.fault.PoolFault.TheVariants.{Full};

use crate::cells::{Cell, Head, count};
use crate::fault::PoolFault;
use crate::interval::Interval;
use crate::link::{Link, MOST_CELLS};
use crate::seek::last;
use crate::store::{place_run, push_run};

/// Puts intervals after all others of a list, in the free cells first. Any guess of its last cell serves. Gives back that cell, or none if
/// there are no intervals.
pub fn extend(
    cells: &mut Vec<Cell>,
    heads: &mut [Head],
    list: u32,
    intervals: &[Interval],
    guess: Link,
) -> Result<Link, PoolFault>
    requires whole { AreWhole cells.old.items heads.old }
    requires small { length cells.old.items ≤ most_cells }
    requires is_list { list ≢ 0 }
    requires there { list < length heads.old }
    requires merged { AreMerged (spans_of cells.old.items heads.old list ++ intervals.now) }
    ensures ok { OnOk result (Prolonged cells.old.items heads.old list intervals.now cells.new.items heads.new) }
    ensures capacity { vec_capacity cells.old ≤ vec_capacity cells.new }
    ensures cells { OnErr result (cells.new.items ≡ cells.old.items) }
    ensures heads { OnErr result (heads.new ≡ heads.old) }
    ensures kept { OnErr result (vec_capacity cells.new ≡ vec_capacity cells.old) }
    ensures spent { OnErr result (IsSpentBy (length intervals.now) cells.old.items heads.old (vec_capacity cells.old)) }
    ensures full { IfErr result (λ fault. fault ≡ Full ↔ (most_cells + free_count cells.old.items heads.old < length cells.old.items + length intervals.now)) }
{
    let Some((first, _)) = intervals.split_first() else {
        return Ok(Link::none());
    };
    let free = count(heads, 0) as usize;
    let left = MOST_CELLS as usize - cells.as_slice().len();
    if intervals.len() > left + free {
        return Err(PoolFault::Full);
    }
    let (some, others) = intervals.split_at(free.min(intervals.len()));
    cells.reserve(others.len())?;
    let before = last(cells, heads, list, first.lo, guess);
    let end = place_run(cells, heads, list, before, some);
    push_run(cells, heads, list, end, others);
    Ok(before)
}
