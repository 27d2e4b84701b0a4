//! A row in the place of another that carries the same keys.
ghost use Rattle.std.specs.Prelude.{◌≡◌, ◌≤◌, ◌+◌, length, Ok, OnOk, OnErr};
ghost use Rattle.std.specs.FinMap as map;
ghost use Rattle.indexmap.specs.IndexMap.{spare};
ghost use Rattle.rows.specs.Apply.{with_row};
ghost use Rattle.rows.specs.Order.{key_cmp};

use crate::change::Key;
use crate::making::put_in_room;
use key_table::KeyTable;
use row_images::Row;
use std::alloc::AllocError;

/// Puts a row under each of these keys. Its handles come before the first write.
fn put_in_turn(
    carriers: &mut KeyTable<Key, Row>,
    keys: &mut Vec<Key>,
    row: &Row,
) -> Result<(), AllocError>
    requires { length keys.old.items ≤ spare carriers.old }
    ensures ok { OnOk result (map.from_entries {R = key_cmp} carriers.new.entries ≡ with_row keys.old.items row.now (map.from_entries carriers.old.entries)) }
    ensures err { OnErr result (carriers.new.entries ≡ carriers.old.entries) }
    ensures spare { spare carriers.old ≤ spare carriers.new + length keys.old.items }
{
    let Some(key) = keys.pop() else {
        return Ok(());
    };
    let own = row.clone()?;
    put_in_turn(carriers, keys, row)?;
    put_in_room(carriers, key, own);
    Ok(())
}

/// Puts a row under each of these keys, or under none.
pub(crate) fn put_under_all(
    carriers: &mut KeyTable<Key, Row>,
    mut keys: Vec<Key>,
    row: &Row,
) -> Result<(), AllocError>
    ensures ok { OnOk result (map.from_entries {R = key_cmp} carriers.new.entries ≡ with_row keys.items row.now (map.from_entries carriers.old.entries)) }
    ensures err { OnErr result (carriers.new.entries ≡ carriers.old.entries) }
{
    carriers.reserve(keys.as_slice().len())?;
    put_in_turn(carriers, &mut keys, row)
}
