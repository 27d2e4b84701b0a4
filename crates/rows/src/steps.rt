//! Changes that are made in place, with a way back by places, which does not allocate. No key is kept for what is added or written over,
//! and each key is looked up once.
ghost use Rattle.std.specs.Prelude.{◌≡◌, ◌≤◌, ◌<◌, ◌+◌, ◌++◌, ◌∷◌, [], ℕ, true, length, None, Some, Ok, OnOk};
ghost use Rattle.std.specs.FinMap as map;
ghost use Rattle.std.specs.Vec.{vec_capacity};
ghost use Rattle.indexmap.specs.IndexMap.{index_map_len, insert_entry, insert_index, set_value_at, spare};
ghost use Rattle.rows.specs.Steps.{IsExpected, all_undone, moved_last, rows_in, step_of, undone};

use crate::change::Key;
use key_table::KeyTable;
use row_images::Row;
use std::alloc::AllocError;

/// What was done to the entries of a table.
#[derive(Drop)]
pub(crate) enum EntryStep {
    /// An entry came after all others.
    Added,
    /// At this place another row took the place of this one.
    Wrote(usize, Row),
    /// This entry was removed from this place: the last took it.
    Removed(usize, Key, Row),
}

/// Which row has to be under a key.
#[derive(Clone, Copy, Drop)]
pub(crate) enum Expected<'a> {
    /// None.
    Nothing,
    /// An equal one.
    This(&'a Row),
    /// Any or none.
    Anything,
}

// ---- the way back

/// Writes a row at a place.
fn write_at(carriers: &mut KeyTable<Key, Row>, place: usize, row: Row)
    ensures entries { carriers.new.entries ≡ set_value_at carriers.old.entries place row }
    ensures spare { spare carriers.new ≡ spare carriers.old }
{
    if place < carriers.len() {
        carriers.replace_at(place, row);
    }
}

/// Moves the last entry to a place, whose entry becomes the last.
fn move_last(carriers: &mut KeyTable<Key, Row>, place: usize)
    ensures entries { carriers.new.entries ≡ moved_last place carriers.old.entries }
    ensures spare { spare carriers.old ≤ spare carriers.new }
{
    let count = carriers.len();
    if place < count {
        carriers.swap_indices(place, count - 1);
    }
}

/// Puts a removed entry back.
fn put_entry(carriers: &mut KeyTable<Key, Row>, place: usize, key: Key, row: Row)
    requires { 0 < spare carriers.old }
    ensures entries { carriers.new.entries ≡ undone (EntryStep.Removed place key row) carriers.old.entries }
    ensures spare { spare carriers.old ≤ spare carriers.new + 1 }
{
    let Ok(_over) = carriers.insert(key, row) else {
        unreachable!()
    };
    move_last(carriers, place);
}

/// Takes a step back.
fn take_back(carriers: &mut KeyTable<Key, Row>, step: EntryStep)
    requires { 0 < spare carriers.old }
    ensures entries { carriers.new.entries ≡ undone step carriers.old.entries }
    ensures spare { spare carriers.old ≤ spare carriers.new + 1 }
{
    match step {
        EntryStep::Added => {
            carriers.pop();
        }
        EntryStep::Wrote(place, row) => write_at(carriers, place, row),
        EntryStep::Removed(place, key, row) => put_entry(carriers, place, key, row),
    }
}

/// Takes all steps back, the last first.
#[cold]
#[inline(never)]
pub(crate) fn take_all_back(carriers: &mut KeyTable<Key, Row>, log: Vec<EntryStep>)
    requires { length log.items ≤ spare carriers.old }
    ensures { carriers.new.entries ≡ all_undone log.items carriers.old.entries }
{
    let mut log = log;
    while let Some(step) = log.pop() {
        take_back(carriers, step);
    }
}

// ---- steps

/// Whether a row that was under a key is an expected one.
fn is_expected(over: &Option<Row>, expected: Expected<'_>) -> bool
    ensures { result ≡ true → IsExpected expected.entry over.now }
{
    match expected {
        Expected::Nothing => over.is_none(),
        Expected::This(row) => match over {
            Some(found) => *found == *row,
            None => false,
        },
        Expected::Anything => true,
    }
}

/// Room for one more step, and for what takes it back.
#[inline(always)]
fn make_room(carriers: &mut KeyTable<Key, Row>, log: &mut Vec<EntryStep>) -> Result<(), AllocError>
    ensures entries { carriers.new.entries ≡ carriers.old.entries }
    ensures log { log.new.items ≡ log.old.items }
    ensures spare { spare carriers.old ≤ spare carriers.new }
    ensures write { OnOk result (length log.new.items + 2 ≤ spare carriers.new) }
    ensures note { OnOk result (length log.new.items < vec_capacity log.new) }
{
    log.reserve(1)?;
    carriers.reserve(log.as_slice().len() + 2)
}

/// What an insert did that found this place, and a row there or none.
fn step_of(place: usize, over: Option<Row>) -> EntryStep
    ensures { result ≡ step_of place over }
{
    match over {
        Some(row) => EntryStep::Wrote(place, row),
        None => EntryStep::Added,
    }
}

/// Notes a step.
fn note(log: &mut Vec<EntryStep>, step: EntryStep)
    requires { length log.old.items < vec_capacity log.old }
    ensures { log.new.items ≡ log.old.items ++ step ∷ [] }
{
    let _ = log.push(step);
}

/// Puts a row under a key. The result is whether an expected row was there, and there was memory.
pub(crate) fn put(
    carriers: &mut KeyTable<Key, Row>,
    log: &mut Vec<EntryStep>,
    key: Key,
    row: Row,
    expected: Expected<'_>,
) -> bool
    ensures put { result ≡ true → rows_in carriers.new.entries ≡ map.insert (rows_in carriers.old.entries) key row }
    ensures over { result ≡ true → IsExpected expected.entry (map.get (rows_in carriers.old.entries) key) }
    ensures back { all_undone log.new.items carriers.new.entries ≡ all_undone log.old.items carriers.old.entries }
    ensures room { length log.old.items ≤ spare carriers.old → length log.new.items ≤ spare carriers.new }
{
    let Ok(()) = make_room(carriers, log) else {
        return false;
    };
    let Ok((place, over)) = carriers.insert_full(key, row) else {
        return false;
    };
    let is_found = is_expected(&over, expected);
    note(log, step_of(place, over));
    is_found
}

/// Removes what is under a key. The result is whether an expected row was there, and there was memory.
pub(crate) fn remove(
    carriers: &mut KeyTable<Key, Row>,
    log: &mut Vec<EntryStep>,
    key: &Key,
    expected: Expected<'_>,
) -> bool
    ensures removed { result ≡ true → rows_in carriers.new.entries ≡ map.remove (rows_in carriers.old.entries) key.now }
    ensures over { result ≡ true → IsExpected expected.entry (map.get (rows_in carriers.old.entries) key.now) }
    ensures back { all_undone log.new.items carriers.new.entries ≡ all_undone log.old.items carriers.old.entries }
    ensures room { length log.old.items ≤ spare carriers.old → length log.new.items ≤ spare carriers.new }
{
    let Ok(()) = make_room(carriers, log) else {
        return false;
    };
    let Some((place, key, row)) = carriers.swap_remove_full(key) else {
        return is_expected(&None, expected);
    };
    let is_found = matches_row(&row, expected);
    note(log, EntryStep::Removed(place, key, row));
    is_found
}

/// Whether a row is an expected one.
fn matches_row(row: &Row, expected: Expected<'_>) -> bool
    ensures { result ≡ true → IsExpected expected.entry (Some row.now) }
{
    match expected {
        Expected::Nothing => false,
        Expected::This(other) => *row == *other,
        Expected::Anything => true,
    }
}
