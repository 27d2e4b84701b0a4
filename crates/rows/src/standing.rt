//! What is stored under keys.
ghost use Rattle.std.specs.Prelude.{◌≡◌, Ok, Err, OnOk, IfErr};
ghost use Rattle.std.specs.Option.{option_copied};
ghost use Rattle.std.specs.FinMap as map;
ghost use Rattle.rows.specs.Apply.{first_taken, first_row, without_keys, delete_row};
ghost use Rattle.rows.specs.Order.{key_cmp};

use crate::change::{Key, RowFault};
use key_table::KeyTable;

/// The row that carries a key.
pub(crate) fn carrier<'a>(carriers: &'a KeyTable<Key, Row>, key: &Key) -> Option<&'a Row>
    ensures { option_copied result ≡ map.get (map.from_entries {R = key_cmp} carriers.now.entries) key.now }
{
    carriers.get(key)
}

/// The number of the first of these keys that a row carries.
pub(crate) fn first_taken(carriers: &KeyTable<Key, Row>, keys: &[Key]) -> Option<u32>
    ensures { result ≡ first_taken keys.now (map.from_entries carriers.now.entries) }
{
    for key in keys {
        if carrier(carriers, key).is_some() {
            return Some(key.index);
        }
    }
    None
}

/// The row under the first of these keys.
fn first_row<'a>(carriers: &'a KeyTable<Key, Row>, keys: &[Key]) -> Option<&'a Row>
    ensures { option_copied result ≡ first_row keys.now (map.from_entries carriers.now.entries) }
{
    match keys.first() {
        Some(key) => carrier(carriers, key),
        None => None,
    }
}

/// Whether a row is stored under the first of its keys.
pub(crate) fn holds(
    carriers: &KeyTable<Key, Row>,
    keys: &[Key],
    row: &Row,
    change: u32,
) -> Result<(), RowFault>
    ensures ok { OnOk result (delete_row change keys.now row.now (map.from_entries carriers.now.entries) ≡ Ok (without_keys keys.now (map.from_entries carriers.now.entries))) }
    ensures refused { IfErr result (λ fault. delete_row change keys.now row.now (map.from_entries carriers.now.entries) ≡ Err fault) }
{
    match first_row(carriers, keys) {
        None => Err(RowFault::RowMissing { change, key: 0 }),
        Some(found) => {
            if *found == *row {
                Ok(())
            } else {
                Err(RowFault::RowDiffers { change, key: 0 })
            }
        }
    }
}

use row_images::Row;
