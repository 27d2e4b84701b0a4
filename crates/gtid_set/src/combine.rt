//! Sets combined and compared source by source.
ghost use Rattle.std.specs.Prelude.{◌≡◌, ◌≤◌, true, OnOk, IfOk, MatchBool};
ghost use Rattle.gtid_set.specs.Sets.{source_count, most_sources};
ghost use Rattle.gtid_set.specs.Spans.{set_of, is_merged, has};
ghost use Rattle.gtid_set.specs.Sweep.{IsListOf, IsWithin, IsNotWithin, AreApart, HaveCommon};
ghost use Rattle.gtid_set.specs.Full.{IsCrowdedExactly};
ghost use Rattle.gtid_set.specs.Numbers.{all_numbered};
ghost use Rattle.gtid_set.specs.BySource.{combines, combination};

use crate::by_source::{SourceLists, next_source};
use crate::fault::SetFault;
use crate::kept::Kept;
use crate::numbers;
use interval_pool::{Interval, Walk};
use std::alloc::{AllocError, Global};

/// An operation on two sets.
#[derive(Clone, Copy, Drop)]
pub enum Operation {
    Union,
    Difference,
    Intersection,
}

/// Overwrites `run` with the result of an operation on two lists of one source.
#[inline(always)]
fn sweep(
    operation: Operation,
    run: &mut Vec<Interval>,
    left: Walk<'_>,
    right: Walk<'_>,
) -> Result<(), AllocError>
    requires left { is_merged (all_numbered left) ≡ true }
    requires right { is_merged (all_numbered right) ≡ true }
    ensures { OnOk result (IsListOf (λ q. combines operation (has (all_numbered left.entry) q) (has (all_numbered right.entry) q)) (all_numbered run.new.items)) }
{
    match operation {
        Operation::Union => numbers::unite(run, left, right),
        Operation::Difference => numbers::reduce(run, left, right),
        Operation::Intersection => numbers::overlay(run, left, right),
    }
}

/// The spans of the result of an operation on two sets.
pub fn combine(
    alloc: Global,
    operation: Operation,
    left: SourceLists<'_>,
    right: SourceLists<'_>,
) -> Result<Kept, SetFault>
    requires left { is_merged left ≡ true }
    requires right { is_merged right ≡ true }
    requires fits { source_count (combination operation (set_of left) (set_of right)) ≤ most_sources }
    ensures ok { IfOk result (λ k. set_of k ≡ combination operation (set_of left.entry) (set_of right.entry)) }
    ensures full { IsCrowdedExactly result (combination operation (set_of left.entry) (set_of right.entry)) }
{
    let mut kept = Kept::open(alloc);
    let mut run = Vec::new(alloc);
    let mut left = left;
    let mut right = right;
    while let Some(id) = next_source(&left, &right) {
        let mine = left.take(id);
        let theirs = right.take(id);
        let Ok(()) = sweep(operation, &mut run, mine, theirs) else {
            return Err(SetFault::Memory);
        };
        match kept.put(id, &run) {
            Ok(()) => {}
            Err(fault) => return Err(fault),
        }
    }
    kept.is_kept();
    Ok(kept)
}

/// Whether the second set has all that the first has.
pub fn is_within(left: SourceLists<'_>, right: SourceLists<'_>) -> bool
    requires left { is_merged left ≡ true }
    requires right { is_merged right ≡ true }
    ensures { MatchBool result (IsWithin (has left.entry) (has right.entry)) (IsNotWithin (has left.entry) (has right.entry)) }
{
    let mut left = left;
    let mut right = right;
    while let Some(id) = next_source(&left, &right) {
        let mine = left.take(id);
        let theirs = right.take(id);
        if !numbers::is_within(mine, theirs) {
            return false;
        }
    }
    true
}

/// Whether two sets have nothing in common.
pub fn are_apart(left: SourceLists<'_>, right: SourceLists<'_>) -> bool
    requires left { is_merged left ≡ true }
    requires right { is_merged right ≡ true }
    ensures { MatchBool result (AreApart (has left.entry) (has right.entry)) (HaveCommon (has left.entry) (has right.entry)) }
{
    let mut left = left;
    let mut right = right;
    while let Some(id) = next_source(&left, &right) {
        let mine = left.take(id);
        let theirs = right.take(id);
        if !numbers::are_apart(mine, theirs) {
            return false;
        }
    }
    true
}
