//! Appending an interval to a list.
ghost use Rattle.std.specs.Prelude.{◌≡◌, ◌↔◌, ◌≢◌, ◌<◌, ◌≤◌, ◌∷◌, ◌++◌, [], OnOk, OnErr, IfErr, length, vec_capacity};
ghost use Rattle.std.specs.List.{AllByRecursion};
ghost use Rattle.interval_pool.specs.Links.{most_cells};
ghost use Rattle.interval_pool.specs.Intervals.{AreMerged, IsBefore};
ghost use Rattle.interval_pool.specs.Pools.{AreWhole};
ghost use Rattle.interval_pool.specs.Changes.{Added, Spends, spans_of};
ghost use Rattle.interval_pool.specs.declared.fault.PoolFault.TheVariants.{Full};

use crate::cells::{Cell, Head};
use crate::fault::PoolFault;
use crate::interval::Interval;
use crate::link::Link;
use crate::seek::last;
use crate::store::put_last;

/// Appends an interval to a list; returns the list's last cell before that. Any guess of that cell serves.
#[inline(always)]
pub fn append(
    cells: &mut Vec<Cell>,
    heads: &mut [Head],
    list: u32,
    numbers: Interval,
    guess: Link,
) -> Result<Link, PoolFault>
    requires whole { AreWhole cells.old.items heads.old }
    requires small { length cells.old.items ≤ most_cells }
    requires is_list { list ≢ 0 }
    requires there { list < length heads.old }
    requires merged { AreMerged (spans_of cells.old.items heads.old list) }
    requires filled { numbers.lo ≤ numbers.hi }
    requires behind { AllByRecursion (λ t. IsBefore t numbers) (spans_of cells.old.items heads.old list) }
    ensures ok { OnOk result (Added cells.old.items heads.old list numbers cells.new.items heads.new) }
    ensures spans { OnOk result (spans_of cells.new.items heads.new list ≡ spans_of cells.old.items heads.old list ++ numbers ∷ []) }
    ensures capacity { vec_capacity cells.old ≤ vec_capacity cells.new }
    ensures cells { OnErr result (cells.new.items ≡ cells.old.items) }
    ensures heads { OnErr result (heads.new ≡ heads.old) }
    ensures kept { OnErr result (vec_capacity cells.new ≡ vec_capacity cells.old) }
    ensures spent { OnErr result (Spends cells.old.items heads.old (vec_capacity cells.old)) }
    ensures full { IfErr result (λ fault. fault ≡ Full ↔ (most_cells ≤ length cells.old.items)) }
{
    let before = last(cells, heads, list, numbers.lo, guess);
    put_last(cells, heads, list, before, numbers)?;
    Ok(before)
}
