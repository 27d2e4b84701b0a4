//! Cutting numbers out of a list.
ghost use Rattle.std.specs.Prelude.{◌≡◌, ◌↔◌, ◌≢◌, ◌<◌, ◌≤◌, OnOk, OnErr, IfErr, length, vec_capacity};
ghost use Rattle.interval_pool.specs.Links.{most_cells};
ghost use Rattle.interval_pool.specs.Intervals.{AreMerged, IsSplit};
ghost use Rattle.interval_pool.specs.Pools.{AreWhole};
ghost use Rattle.interval_pool.specs.Changes.{Cut, Spends, spans_of};
ghost use Rattle.interval_pool.specs.declared.fault.PoolFault.TheVariants.{Full};

use crate::cells::{Cell, Head};
use crate::fault::PoolFault;
use crate::interval::{Interval, parts_outside};
use crate::link::Link;
use crate::meet::meet;
use crate::seek::seek;
use crate::store::replace;

/// Cuts the numbers of an interval out of a list; returns the last cell that ends before them. Any guess of that cell serves.
pub fn cut(
    cells: &mut Vec<Cell>,
    heads: &mut [Head],
    list: u32,
    numbers: Interval,
    guess: Link,
) -> Result<Link, PoolFault>
    requires whole { AreWhole cells.old.items heads.old }
    requires small { length cells.old.items ≤ most_cells }
    requires is_list { list ≢ 0 }
    requires there { list < length heads.old }
    requires merged { AreMerged (spans_of cells.old.items heads.old list) }
    requires filled { numbers.lo ≤ numbers.hi }
    ensures ok { OnOk result (Cut cells.old.items heads.old list numbers cells.new.items heads.new) }
    ensures capacity { vec_capacity cells.old ≤ vec_capacity cells.new }
    ensures cells { OnErr result (cells.new.items ≡ cells.old.items) }
    ensures heads { OnErr result (heads.new ≡ heads.old) }
    ensures kept { OnErr result (vec_capacity cells.new ≡ vec_capacity cells.old) }
    ensures spent { OnErr result (Spends cells.old.items heads.old (vec_capacity cells.old)) }
    ensures needed { OnErr result (IsSplit (spans_of cells.old.items heads.old list) numbers) }
    ensures full { IfErr result (λ fault. fault ≡ Full ↔ (most_cells ≤ length cells.old.items)) }
{
    let before = seek(cells, heads, list, numbers.lo, guess);
    let joined = meet(cells, heads, list, before, numbers, 0);
    let pieces = parts_outside(joined.numbers, numbers);
    replace(cells, heads, list, before, joined.count, pieces)?;
    Ok(before)
}
