//! The rows of all parts together, in order.
ghost use Rattle.std.specs.Prelude.{◌≡◌, IfOk, Some};
ghost use Rattle.std.specs.FinMap as map;
ghost use Rattle.std.specs.List.{list_all};
ghost use Rattle.rows.specs.Listing.{all_shown};
ghost use Rattle.rows.specs.Patch.{same_row};
ghost use Rattle.row_parts.specs.Listing.{changed_entries, entries_at, kept_entries, rows_in_each, ListsWhole};

use crate::ranges::{all_made, merge_beside};
use rows::{Key, Row, Rows};
use std::alloc::{AllocError, Global};
use std::thread;
use std::thread::Threads;

/// Rows lent with their keys.
#[derive(Drop)]
pub(crate) struct Listed<'a> {
    pub(crate) entries: Vec<(&'a Key, &'a Row)>,
}

/// Whether rows have this row under this key.
fn has_row(rows: &Rows, key: &Key, row: &Row) -> bool
    ensures { result ≡ same_row (map.get rows.now.rows key.now) (Some row.now) }
{
    match rows.carrier(key) {
        Some(found) => *found == *row,
        None => false,
    }
}

/// Whether each of the parts has this row under this key.
fn have_row(parts: &[Rows], key: &Key, row: &Row) -> bool
    ensures { result ≡ list_all (λ rows. same_row (map.get rows key.now) (Some row.now)) (rows_in_each parts.now) }
{
    for part in parts {
        if !has_row(part, key, row) {
            return false;
        }
    }
    true
}

/// The rows of a part that the opening rows don't have, in the order of their keys.
fn list_changed<'a>(
    alloc: Global,
    opening: &Rows,
    part: &'a Rows,
) -> Result<Vec<(&'a Key, &'a Row)>, AllocError>
    ensures { IfOk result (λ list. all_shown list.items ≡ changed_entries opening.now.rows part.now.rows) }
{
    let all = part.list_lent(alloc)?;
    let mut list = Vec::with_capacity(alloc, all.len())?;
    for (key, row) in &all {
        if !has_row(opening, key, row) {
            list.push((*key, *row))?;
        }
    }
    Ok(list)
}

/// The opening rows that each part still has, in the order of their keys.
fn list_kept<'a>(
    alloc: Global,
    opening: &'a Rows,
    parts: &[Rows],
) -> Result<Vec<(&'a Key, &'a Row)>, AllocError>
    ensures { IfOk result (λ list. all_shown list.items ≡ kept_entries opening.now.rows (rows_in_each parts.now)) }
{
    let all = opening.list_lent(alloc)?;
    let mut list = Vec::new(alloc);
    for (key, row) in &all {
        if have_row(parts, key, row) {
            list.push((*key, *row))?;
        }
    }
    Ok(list)
}

/// What the part at a place changed, and after all parts what is left of the opening rows.
fn list_at<'a>(
    alloc: Global,
    opening: &'a Rows,
    parts: &'a [Rows],
    place: usize,
) -> Result<Listed<'a>, AllocError>
    ensures { IfOk result (λ list. all_shown list.entries.items ≡ entries_at opening.now.rows (rows_in_each parts.now) place) }
{
    let entries = match parts.get(place) {
        Some(part) => list_changed(alloc, opening, part)?,
        None => list_kept(alloc, opening, parts)?,
    };
    Ok(Listed { entries })
}

/// The rows of a whole, of which the opening rows and these parts are known, lent with their primary keys: by table name, and then by the
/// values of the key. Each part is listed on a thread of its own if one can be started.
pub fn list_whole<'a, R: Threads + Sync>(
    rt: &R,
    alloc: Global,
    opening: &'a Rows,
    parts: &'a [Rows],
) -> Result<Vec<(&'a Key, &'a Row)>, AllocError>
    ensures { IfOk result (λ list. ListsWhole opening.now.rows (rows_in_each parts.now) (all_shown list.items)) }
{
    let lists = thread::map_indices(
        rt,
        alloc,
        parts.len() + 1,
        &|place: usize| -> Result<Listed<'_>, AllocError>
            ensures { IfOk result (λ list. all_shown list.entries.items ≡ entries_at opening.entry.now.rows (rows_in_each parts.entry.now) place) }
        { list_at(alloc, opening, parts, place) },
    )?;
    let lists = all_made(alloc, lists)?;
    merge_beside(rt, alloc, &lists)
}
