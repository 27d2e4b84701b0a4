//! One pass over merged intervals of one source.
ghost use Rattle.std.specs.Prelude.{◌≡◌, true, false, ◌&&◌, ◌||◌, not, OnOk, MatchBool, IfSome, ◌+◌, ◌-◌, ◌++◌, drop, [], ◌≤◌, ◌<◌};
ghost use Rattle.gtid_text.specs.declared.Gtid.{Gtid};
ghost use Rattle.gtid_set.specs.Numbers.{numbered, all_numbered};
ghost use Rattle.gtid_set.specs.Spans.{ends_before, is_before, is_merged, has};
ghost use Rattle.gtid_set.specs.Sweep.{IsRest, Joins, AddsFront, Cuts, Overlaps, Meets, TakesFirst, IsListOf, IsWithin, IsNotWithin, AreApart, HaveCommon, all_start_by, all_before, all_reach, is_sorted, is_met, is_inside, start_of, within, is_from};

use interval_pool::{Interval, Walk};
use std::alloc::AllocError;

/// Whether an interval ends before another starts.
#[inline(always)]
fn ends_before(numbers: Interval, next: Interval) -> bool
    ensures { result ≡ ends_before (start_of (numbered next)) (numbered numbers) }
{
    numbers.hi < next.lo
}

/// Whether an interval ends before another with a number missing between them.
#[inline(always)]
fn is_before(numbers: Interval, next: Interval) -> bool
    ensures { result ≡ is_before (numbered numbers) (numbered next) }
{
    numbers.hi < next.lo && next.lo - numbers.hi > 1
}

/// Whether an interval starts no later than another.
#[inline(always)]
fn starts_by(numbers: Interval, next: Interval) -> bool
    ensures { result ≡ is_from (start_of (numbered numbers)) (start_of (numbered next)) }
{
    numbers.lo <= next.lo
}

/// Skips the intervals that end before `numbers` starts.
#[inline(always)]
fn skip(walk: &mut Walk<'_>, numbers: Interval)
    requires { is_merged (all_numbered walk.old) ≡ true }
    ensures { IsRest (numbered numbers) (all_numbered walk.old) (all_numbered walk.new) }
{
    while let Some(first) = walk.peek() {
        if !ends_before(first, numbers) {
            return;
        }
        walk.advance();
    }
}

/// Appends an interval, joined to the last if no number is missing between them. A reversed interval has no number.
#[inline(always)]
pub fn join(out: &mut Vec<Interval>, numbers: Interval) -> Result<(), AllocError>
    requires merged { is_merged (all_numbered out.old.items) ≡ true }
    requires order { all_start_by (all_numbered out.old.items) (numbered numbers) ≡ true }
    ensures { OnOk result (Joins (all_numbered out.old.items) (numbered numbers) (all_numbered out.new.items)) }
{
    if numbers.hi < numbers.lo {
        return Ok(());
    }
    match out.last() {
        None => {
            out.push(numbers)?;
            Ok(())
        }
        Some(last) if is_before(*last, numbers) => {
            out.push(numbers)?;
            Ok(())
        }
        Some(last) => {
            let hi = last.hi.max(numbers.hi);
            let end = out.len() - 1;
            out[end].hi = hi;
            Ok(())
        }
    }
}

/// Whether an interval that doesn't end before another has a number of it.
#[inline(always)]
fn is_met(first: Interval, numbers: Interval) -> bool
    ensures { result ≡ is_met (numbered first) (numbered numbers) }
{
    first.lo <= numbers.hi
}

/// The first of the intervals, if it has a number of `numbers`, which it reaches.
#[inline(always)]
fn first_overlapping(walk: &Walk<'_>, numbers: Interval) -> Option<Interval>
    requires merged { is_merged (all_numbered walk.now) ≡ true }
    requires reach { all_reach (numbered numbers) (all_numbered walk.now) ≡ true }
    ensures apart { result ≡ None → (q : Gtid) → within (numbered numbers) q ≡ true → has (all_numbered walk.now) q ≡ false }
    ensures found { IfSome result (λ first. Meets (all_numbered walk.now) (numbered numbers) (numbered first) (all_numbered (drop 1 walk.now))) }
{
    match walk.peek() {
        None => None,
        Some(first) if is_met(first, numbers) => Some(first),
        Some(_) => None,
    }
}

/// Takes the interval that starts first from two lists.
#[inline(always)]
fn take_first(left: &mut Walk<'_>, right: &mut Walk<'_>) -> Option<Interval>
    requires left { is_sorted (all_numbered left.old) ≡ true }
    requires right { is_sorted (all_numbered right.old) ≡ true }
    ensures none { result ≡ None → (left.old ≡ []) × (right.old ≡ []) }
    ensures some { IfSome result (λ first. TakesFirst (all_numbered left.old) (all_numbered right.old) (numbered first) (all_numbered left.new) (all_numbered right.new)) }
{
    let Some(numbers) = left.peek() else {
        let first = right.peek();
        right.advance();
        return first;
    };
    let Some(other) = right.peek() else {
        left.advance();
        return Some(numbers);
    };
    if starts_by(numbers, other) {
        left.advance();
        return Some(numbers);
    }
    right.advance();
    Some(other)
}

/// Overwrites `out` with the merged intervals of the numbers in either list.
pub fn unite(out: &mut Vec<Interval>, left: Walk<'_>, right: Walk<'_>) -> Result<(), AllocError>
    requires left { is_sorted (all_numbered left) ≡ true }
    requires right { is_sorted (all_numbered right) ≡ true }
    ensures { OnOk result (IsListOf (λ q. has (all_numbered left.entry) q || has (all_numbered right.entry) q) (all_numbered out.new.items)) }
{
    out.clear();
    let mut left = left;
    let mut right = right;
    while let Some(numbers) = take_first(&mut left, &mut right) {
        join(out, numbers)?;
    }
    Ok(())
}

/// Adds the part of an interval that comes before a hole.
#[inline(always)]
fn push_front(out: &mut Vec<Interval>, numbers: Interval, hole: Interval) -> Result<(), AllocError>
    requires merged { is_merged (all_numbered out.old.items) ≡ true }
    requires before { all_before (all_numbered out.old.items) (numbered numbers) ≡ true }
    requires met { is_met (numbered hole) (numbered numbers) ≡ true }
    ensures { OnOk result (AddsFront (all_numbered out.old.items) (numbered numbers) (numbered hole) (all_numbered out.new.items)) }
{
    if numbers.lo < hole.lo {
        out.push(Interval {
            lo: numbers.lo,
            hi: hole.lo - 1,
        })?;
        return Ok(());
    }
    Ok(())
}

/// Adds the parts of an interval that no hole covers.
#[inline(always)]
fn cut(out: &mut Vec<Interval>, numbers: Interval, holes: &Walk<'_>) -> Result<(), AllocError>
    requires merged { is_merged (all_numbered out.old.items) ≡ true }
    requires before { all_before (all_numbered out.old.items) (numbered numbers) ≡ true }
    requires filled { numbers.lo ≤ numbers.hi }
    requires holes { is_merged (all_numbered holes.now) ≡ true }
    requires reach { all_reach (numbered numbers) (all_numbered holes.now) ≡ true }
    ensures { OnOk result (Cuts (all_numbered out.old.items) (numbered numbers) (all_numbered holes.now) (all_numbered out.new.items)) }
{
    let mut left = numbers;
    let mut rest = holes.again();
    while let Some(hole) = first_overlapping(&rest, left) {
        push_front(out, left, hole)?;
        if numbers.hi <= hole.hi {
            return Ok(());
        }
        left.lo = hole.hi + 1;
        rest.advance();
    }
    out.push(left)?;
    Ok(())
}

/// Appends the intervals of a walk.
fn push_all(out: &mut Vec<Interval>, walk: Walk<'_>) -> Result<(), AllocError>
    ensures { OnOk result (all_numbered out.new.items ≡ all_numbered out.old.items ++ all_numbered walk.entry) }
{
    let mut rest = walk;
    while let Some(numbers) = rest.peek() {
        out.push(numbers)?;
        rest.advance();
    }
    Ok(())
}

/// Overwrites `out` with the merged intervals of the numbers in the first list but not in the second.
pub fn reduce(out: &mut Vec<Interval>, left: Walk<'_>, right: Walk<'_>) -> Result<(), AllocError>
    requires left { is_merged (all_numbered left) ≡ true }
    requires right { is_merged (all_numbered right) ≡ true }
    ensures { OnOk result (IsListOf (λ q. has (all_numbered left.entry) q && not (has (all_numbered right.entry) q)) (all_numbered out.new.items)) }
{
    out.clear();
    let mut left = left;
    let mut right = right;
    while let Some(numbers) = left.peek() {
        skip(&mut right, numbers);
        let Some(_hole) = right.peek() else {
            return push_all(out, left);
        };
        cut(out, numbers, &right)?;
        left.advance();
    }
    Ok(())
}

/// Adds the parts of an interval that others cover.
#[inline(always)]
fn overlap(out: &mut Vec<Interval>, numbers: Interval, others: &Walk<'_>) -> Result<(), AllocError>
    requires merged { is_merged (all_numbered out.old.items) ≡ true }
    requires before { all_before (all_numbered out.old.items) (numbered numbers) ≡ true }
    requires filled { numbers.lo ≤ numbers.hi }
    requires others { is_merged (all_numbered others.now) ≡ true }
    requires reach { all_reach (numbered numbers) (all_numbered others.now) ≡ true }
    ensures { OnOk result (Overlaps (all_numbered out.old.items) (numbered numbers) (all_numbered others.now) (all_numbered out.new.items)) }
{
    let mut rest = others.again();
    while let Some(other) = first_overlapping(&rest, numbers) {
        out.push(Interval {
            lo: numbers.lo.max(other.lo),
            hi: numbers.hi.min(other.hi),
        })?;
        rest.advance();
    }
    Ok(())
}

/// Overwrites `out` with the merged intervals of the numbers in both lists.
pub fn overlay(out: &mut Vec<Interval>, left: Walk<'_>, right: Walk<'_>) -> Result<(), AllocError>
    requires left { is_merged (all_numbered left) ≡ true }
    requires right { is_merged (all_numbered right) ≡ true }
    ensures { OnOk result (IsListOf (λ q. has (all_numbered left.entry) q && has (all_numbered right.entry) q) (all_numbered out.new.items)) }
{
    out.clear();
    let mut left = left;
    let mut right = right;
    while let Some(numbers) = left.peek() {
        skip(&mut right, numbers);
        overlap(out, numbers, &right)?;
        left.advance();
    }
    Ok(())
}

/// Whether an interval has all of another.
#[inline(always)]
fn is_inside(numbers: Interval, other: Interval) -> bool
    ensures { result ≡ is_inside (numbered numbers) (numbered other) }
{
    other.lo <= numbers.lo && numbers.hi <= other.hi
}

/// Whether the first of the intervals covers all of one that it reaches.
#[inline(always)]
fn is_covered(numbers: Interval, walk: &Walk<'_>) -> bool
    requires filled { numbers.lo ≤ numbers.hi }
    requires merged { is_merged (all_numbered walk.now) ≡ true }
    requires reach { all_reach (numbered numbers) (all_numbered walk.now) ≡ true }
    ensures { MatchBool result (IsWithin (within (numbered numbers)) (has (all_numbered walk.now))) (IsNotWithin (within (numbered numbers)) (has (all_numbered walk.now))) }
{
    match walk.peek() {
        None => false,
        Some(first) if is_inside(numbers, first) => true,
        Some(_) => false,
    }
}

/// Whether the second list has all that the first has.
pub fn is_within(left: Walk<'_>, right: Walk<'_>) -> bool
    requires left { is_merged (all_numbered left) ≡ true }
    requires right { is_merged (all_numbered right) ≡ true }
    ensures { MatchBool result (IsWithin (has (all_numbered left.entry)) (has (all_numbered right.entry))) (IsNotWithin (has (all_numbered left.entry)) (has (all_numbered right.entry))) }
{
    let mut left = left;
    let mut right = right;
    while let Some(numbers) = left.peek() {
        skip(&mut right, numbers);
        if !is_covered(numbers, &right) {
            return false;
        }
        left.advance();
    }
    true
}

/// Whether the two lists have nothing in common.
pub fn are_apart(left: Walk<'_>, right: Walk<'_>) -> bool
    requires left { is_merged (all_numbered left) ≡ true }
    requires right { is_merged (all_numbered right) ≡ true }
    ensures { MatchBool result (AreApart (has (all_numbered left.entry)) (has (all_numbered right.entry))) (HaveCommon (has (all_numbered left.entry)) (has (all_numbered right.entry))) }
{
    let mut left = left;
    let mut right = right;
    while let Some(numbers) = left.peek() {
        skip(&mut right, numbers);
        if let Some(_other) = first_overlapping(&right, numbers) {
            return false;
        }
        left.advance();
    }
    true
}
