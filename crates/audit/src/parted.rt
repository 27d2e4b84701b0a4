//! Marks with their sources, in parts that are examined apart: if in each part no mark has two sources, no two sources touch a key.
ghost use Rattle.std.specs.Prelude.{◌≡◌, ◌++◌, IfOk, OnOk, map, true};
ghost use Rattle.audit.specs.Marks.{owner_of};
ghost use Rattle.audit.specs.Owned.{AreOwn, OwnsMore, part_of, touches_in_lists, touches_of_all, touched_by_one};

use crate::gathering::usual_keys_of;
use crate::marks::push_marks;
use crate::owners::{MarkOwners, is_none};
use gtid_text::SourceId;
use journal::Entry;
use rows::Schema;
use std::alloc::{AllocError, Global};

/// In how many parts marks are: each mark is in one of them, by its high bits.
pub const PARTS: usize = 4;

/// The mark of a key, and the source that touches it.
#[derive(Clone, Copy)]
pub struct MarkTouch {
    pub mark: u64,
    pub source: SourceId,
}

/// Adds what a source touches.
fn push_touches(
    touches: &mut Vec<MarkTouch>,
    marks: &[u64],
    source: SourceId,
) -> Result<(), AllocError>
    ensures { OnOk result (touches.new.items ≡ touches.old.items ++ touched_by_one source marks.now) }
{
    for mark in marks {
        touches.push(MarkTouch {
            mark: *mark,
            source,
        })?;
    }
    Ok(())
}

/// What these entries touch, in their order; a mark may occur more than once. The error is out of memory.
pub fn touches_in(
    alloc: Global,
    schema: &Schema,
    entries: &[&Entry],
) -> Result<Vec<MarkTouch>, AllocError>
    ensures { IfOk result (λ touches. touches.items ≡ touches_of_all schema.now (map (λ e. e.now) entries.now)) }
{
    let usual = usual_keys_of(entries).min(entries.len().saturating_mul(16));
    let mut touches = Vec::with_capacity(alloc, usual)?;
    // (one list for the marks of each transaction)
    let mut marks = Vec::new(alloc);
    for entry in entries {
        marks.clear();
        push_marks(&mut marks, schema, &entry.txn)?;
        push_touches(&mut touches, &marks, entry.gtid.source)?;
    }
    Ok(touches)
}

/// The part of a mark.
fn part_of(mark: u64) -> u64
    ensures { result ≡ part_of mark }
{
    (mark >> 48) % PARTS as u64
}

/// Adds the touches whose marks are in a part to what was touched before; returns whether each such mark is of one source.
fn touch_part(owners: &mut MarkOwners, touches: &[MarkTouch], part: u64) -> Result<bool, AllocError>
    ensures { IfOk result (λ own. own ≡ true → OwnsMore part (owner_of owners.old) touches.now (owner_of owners.new)) }
{
    for touch in touches {
        if part_of(touch.mark) != part {
            continue;
        }
        if is_none(touch.source) {
            return Ok(false);
        }
        if !owners.touch(touch.mark, touch.source)? {
            return Ok(false);
        }
    }
    Ok(true)
}

/// About how many of these touches are in a part. (A guess.)
fn usual_count(lists: &[Vec<MarkTouch>]) -> usize {
    let mut count: usize = 0;
    for list in lists {
        count = count.saturating_add(list.as_slice().len());
    }
    count / PARTS
}

/// Whether each mark that is in this part is found to be of one source in all these lists. The error is out of memory.
pub fn are_own(alloc: Global, lists: &[Vec<MarkTouch>], part: usize) -> Result<bool, AllocError>
    ensures { IfOk result (λ yes. yes ≡ true → AreOwn part (touches_in_lists lists.now)) }
{
    let mut owners = MarkOwners::for_marks(alloc, usual_count(lists))?;
    for list in lists {
        if !touch_part(&mut owners, list, part as u64)? {
            return Ok(false);
        }
    }
    Ok(true)
}
