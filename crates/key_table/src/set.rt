//! A set of keys.
ghost use Rattle.std.specs.Prelude.{◌≡◌, ◌<◌, ◌≤◌, ◌+◌, [], false, IsOk, OnOk, OnErr, IfOk, length, slice_get};
ghost use Rattle.std.specs.Option.{option_copied};
ghost use Rattle.indexmap.specs.IndexSet.{IsUnchanged, contains, index_set_len, insert_key, spare};

use crate::key::TableKey;
use crate::table::KeyTable;
use std::alloc::{AllocError, Global};
use std::marker::Model;

/// A set of keys, in the order in which they came.
#[derive(Drop)]
pub struct KeySet<K: TableKey> {
    table: KeyTable<K, ()>,
}

impl<K: TableKey> Model for KeySet<K> {
    ghost use Rattle.std.specs.Prelude.{ℕ};
    ghost use Rattle.std.specs.Coded.{coded_ℕ};
    ghost use Rattle.indexmap.specs.IndexSet.{IndexSet as Keys};
    ghost use Rattle.indexmap.specs.Layout.{hash_set_code, key_set};

    ghost Value = { Keys K ℕ };

    ghost coded = { hash_set_code K.code coded_ℕ };

    ghost view = { λ s. key_set s.table };
}

impl<K: TableKey> KeySet<K> {
    /// No key.
    pub fn new(alloc: Global) -> Self
        ensures { result.keys ≡ [] }
    {
        KeySet {
            table: KeyTable::new(alloc),
        }
    }

    /// How many keys there are.
    pub fn len(&self) -> usize
        ensures { result ≡ index_set_len self.now }
    {
        self.table.len()
    }

    /// The key at a place.
    pub fn get_index(&self, place: usize) -> Option<&K>
        ensures { option_copied result ≡ slice_get self.now.keys place }
    {
        let entry = self.table.as_slice().get(place)?;
        Some(&entry.0)
    }

    /// Whether a key is there.
    pub fn contains(&self, key: &K) -> bool
        ensures { result ≡ contains K.eq self.now key.now }
    {
        self.table.contains_key(key)
    }

    /// Puts a key after all others, if it isn't there.
    pub fn insert(&mut self, key: K) -> Result<(), AllocError>
        ensures ok { OnOk result (self.new.keys ≡ insert_key K.eq self.old.keys key) }
        ensures err { OnErr result (IsUnchanged self.old self.new) }
        ensures absent { OnErr result (contains K.eq self.old key ≡ false) }
        ensures succeeds { 0 < spare self.old → IsOk result }
        ensures spare { spare self.old ≤ spare self.new + 1 }
    {
        self.table.open(key, ())?;
        Ok(())
    }

    /// The keys, in their order.
    pub fn into_keys(self) -> Result<Vec<K>, AllocError>
        ensures { IfOk result (λ list. list.items ≡ self.keys) }
    {
        self.table.into_keys()
    }
}
