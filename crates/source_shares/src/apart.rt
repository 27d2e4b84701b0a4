//! Whether sources share a key: a search by several threads.
ghost use Rattle.std.specs.Prelude.{◌≡◌, ◌<◌, IfOk, None, map, true};
ghost use Rattle.std.specs.FinMap as finmap;
ghost use Rattle.std.specs.Thread.{IsSync};
ghost use Rattle.world.specs.Folds.{shared_from};
ghost use Rattle.audit.specs.Contents.{as_pair};
ghost use Rattle.audit.specs.Owned.{AreOwn, touches_in_lists, touches_of_all};
ghost use Rattle.source_shares.specs.Apart.{AreAllFound};

use audit::{MarkTouch, PARTS, are_own, parts_are_apart, share_no_key, touches_in};
use journal::Entry;
use rows::Schema;
use std::alloc::{AllocError, Global};
use std::thread;
use std::thread::{Threads, join};

/// Fewer entries are examined by one thread.
const LEAST_ENTRIES: usize = 4_096;

/// Entries with more changes on average are examined by one thread: lists of all that they touch would take as much memory as the bundle.
const MOST_CHANGES: usize = 4;

/// How many entries are sampled for that average.
const SAMPLE: usize = 1_024;

/// How often the entries are halved: four threads list what they touch.
const HALVINGS: u8 = 2;

/// What entries touch, in one list.
fn list_touches(
    alloc: Global,
    schema: &Schema,
    entries: &[&Entry],
) -> Result<Vec<Vec<MarkTouch>>, AllocError>
    ensures { IfOk result (λ lists. touches_in_lists lists.items ≡ touches_of_all schema.now (map (λ e. e.now) entries.now)) }
{
    let list = touches_in(alloc, schema, entries)?;
    let mut lists = Vec::new(alloc);
    lists.push(list)?;
    Ok(lists)
}

/// What entries touch. The entries are split in two `halvings` times; each half is listed on a thread of its own if one can be started.
fn list_beside<R: Threads + Sync>(
    rt: &R,
    alloc: Global,
    schema: &Schema,
    entries: &[&Entry],
    halvings: u8,
) -> Result<Vec<Vec<MarkTouch>>, AllocError>
    ensures { IfOk result (λ lists. touches_in_lists lists.items ≡ touches_of_all schema.now (map (λ e. e.now) entries.now)) }
{
    if halvings == 0 {
        return list_touches(alloc, schema, entries);
    }
    let left = halvings - 1;
    let (front, back) = entries.split_at(entries.len() / 2);
    let (first, second) = join(
        rt,
        || -> Result<Vec<Vec<MarkTouch>>, AllocError>
            requires { IsSync R.row }
            ensures { IfOk result (λ lists. touches_in_lists lists.items ≡ touches_of_all schema.entry.now (map (λ e. e.now) front.entry.now)) }
        { list_beside(rt, alloc, schema, front, left) },
        || -> Result<Vec<Vec<MarkTouch>>, AllocError>
            requires { IsSync R.row }
            ensures { IfOk result (λ lists. touches_in_lists lists.items ≡ touches_of_all schema.entry.now (map (λ e. e.now) back.entry.now)) }
        { list_beside(rt, alloc, schema, back, left) },
    );
    let mut lists = first?;
    let mut others = second?;
    lists.append(&mut others)?;
    Ok(lists)
}

/// Whether each of these found that it holds.
fn are_all_found(found: &[Result<bool, AllocError>]) -> bool
    ensures { result ≡ true → AreAllFound found.now }
{
    for answer in found {
        let Ok(true) = answer else {
            return false;
        };
    }
    true
}

/// Whether in each part of the marks no mark has two sources: each part is examined on a thread of its own if one can be started.
fn are_parts_own<R: Threads + Sync>(
    rt: &R,
    alloc: Global,
    lists: &[Vec<MarkTouch>],
) -> Result<bool, AllocError>
    ensures { IfOk result (λ yes. yes ≡ true → (part : _) → part < 4 → AreOwn part (touches_in_lists lists.now)) }
{
    let found = thread::map_indices(
        rt,
        alloc,
        PARTS,
        &|part: usize| -> Result<bool, AllocError>
            ensures { IfOk result (λ yes. yes ≡ true → AreOwn part (touches_in_lists lists.entry.now)) }
        { are_own(alloc, lists, part) },
    )?;
    let yes = are_all_found(&found);
    Ok(yes)
}

/// Whether the first of these entries have few changes each. (A guess.)
fn are_narrow(entries: &[&Entry]) -> bool {
    let (sample, _others) = entries.split_at(entries.len().min(SAMPLE));
    let mut changes: usize = 0;
    for entry in sample {
        changes = changes.saturating_add(entry.txn.changes.as_slice().len());
    }
    changes / MOST_CHANGES <= sample.len()
}

/// What `share_no_key` finds, by several threads if there are many entries of few changes: if true, no two sources touch a key.
pub(crate) fn share_no_key_beside<R: Threads + Sync>(
    rt: &R,
    alloc: Global,
    schema: &Schema,
    entries: &[&Entry],
) -> Result<bool, AllocError>
    ensures { IfOk result (λ yes. yes ≡ true → shared_from schema.now finmap.empty (map as_pair (map (λ e. e.now) entries.now)) ≡ None) }
{
    if entries.len() < LEAST_ENTRIES || !are_narrow(entries) {
        return share_no_key(alloc, schema, entries);
    }
    parts_are_apart();
    let lists = list_beside(rt, alloc, schema, entries, HALVINGS)?;
    are_parts_own(rt, alloc, &lists)
}
