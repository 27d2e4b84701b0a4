//! How lists begin and end.
ghost use Rattle.std.specs.Prelude.{◌≡◌, ◌↔◌, ℕ, true, ◌<◌, ◌≤◌, IsTrue, IsFalse, IfOk, IfErr, IfSome, IfNone, OnErr, length};
ghost use Rattle.interval_pool.specs.Cells.{head_at, with_list};
ghost use Rattle.interval_pool.specs.Links.{most_cells};
ghost use Rattle.interval_pool.specs.Changes.{Claimed, AreAllClaimed, IsUnused, Drops};
ghost use Rattle.interval_pool.specs.declared.fault.PoolFault.TheVariants.{Full, Memory};

use crate::cells::{Cell, Head, count};
use crate::fault::PoolFault;
use crate::link::{Link, MOST_CELLS};
use crate::store::free_some;

/// Whether a chain other than that of the free cells is no list.
fn is_unused(heads: &[Head], list: u32) -> bool
    ensures unused { IsTrue result → IsUnused heads.now list }
    ensures used { IsFalse result → 1 ≤ list → list < length heads.now → (head_at heads.now list).is_list ≡ true }
{
    list > 0 && (list as usize) < heads.len() && !heads[list as usize].is_list
}

/// Lets a chain be a list, or none.
fn put_list(heads: &mut [Head], list: u32, is_list: bool)
    ensures { heads.new ≡ with_list heads.old list is_list }
{
    let at = list as usize;
    if at < heads.len() {
        let head = heads[at];
        heads[at] = Head { is_list, ..head };
    }
}

/// The first chain that is no list, if there is one.
fn first_unused(heads: &[Head]) -> Option<u32>
    ensures found { IfSome result (λ k. IsUnused heads.now k) }
    ensures none { IfNone result ((k : ℕ) → 1 ≤ k → k ≤ most_cells → k < length heads.now → (head_at heads.now k).is_list ≡ true) }
{
    'chains: for list in 1..=MOST_CELLS {
        if is_unused(heads, list) {
            return Some(list);
        }
    }
    None
}

/// Makes a new chain, which is a list.
fn push_list(heads: &mut Vec<Head>) -> Result<u32, PoolFault>
    requires { length heads.old.items ≤ most_cells }
    ensures ok { IfOk result (λ k. Claimed heads.old.items k heads.new.items) }
    ensures err { OnErr result (heads.new.items ≡ heads.old.items) }
    ensures memory { IfErr result (λ fault. fault ≡ Memory) }
{
    heads.reserve(2)?;
    if heads.as_slice().is_empty() {
        let _ = heads.push(Head {
            first: Link::none(),
            len: 0,
            is_list: false,
        });
    }
    let list = heads.as_slice().len() as u32;
    let _ = heads.push(Head {
        first: Link::none(),
        len: 0,
        is_list: true,
    });
    Ok(list)
}

/// Makes a list and returns its chain. `guess` is a hint: the number of a chain that is no list, or any other number.
pub fn claim(heads: &mut Vec<Head>, guess: u32) -> Result<u32, PoolFault>
    ensures ok { IfOk result (λ k. Claimed heads.old.items k heads.new.items) }
    ensures err { OnErr result (heads.new.items ≡ heads.old.items) }
    ensures full { IfErr result (λ fault. fault ≡ Full ↔ AreAllClaimed heads.old.items) }
{
    if is_unused(heads, guess) {
        put_list(heads, guess, true);
        return Ok(guess);
    }
    if heads.as_slice().len() <= MOST_CELLS as usize {
        return push_list(heads);
    }
    let Some(list) = first_unused(heads) else {
        return Err(PoolFault::Full);
    };
    put_list(heads, list, true);
    Ok(list)
}

/// Frees the cells of a list, which ends.
pub fn drop_list(cells: &mut [Cell], heads: &mut [Head], list: u32)
    ensures { Drops cells.old heads.old list cells.new heads.new }
{
    let len = count(heads, list as usize);
    free_some(cells, heads, list, Link::none(), len);
    put_list(heads, list, false);
}
