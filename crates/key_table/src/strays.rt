//! Places of keys for which no slot was free, in the order of the keys.
ghost use Rattle.std.specs.Prelude.{◌≡◌, ◌<◌, ◌≤◌, ℕ, true, false, length, Some, None, IfSome, OnOk, slice_get};
ghost use Rattle.key_table.specs.Slots.{is_under};
ghost use Rattle.key_table.specs.Strays.{IsStray, KeepsStrays};

use crate::key::TableKey;
use crate::slots::is_under;
use std::alloc::{AllocError, Global};
use std::collections::BTreeMap;

/// Places of keys, in the order of the keys.
#[derive(Drop)]
pub(crate) struct Strays<K: TableKey> {
    pub(crate) places: BTreeMap<K, usize>,
    /// Memory for a place was refused: a key that is not here may still be in the table.
    pub(crate) are_incomplete: bool,
}

/// Looks for a key among entries one by one.
#[cold]
#[inline(never)]
fn scan<K: Eq, V>(entries: &[(K, V)], key: &K) -> Option<usize>
    ensures at { IfSome result (λ place. is_under K.eq entries.now key.now place ≡ true) }
    ensures absent { result ≡ None → (place : ℕ) → is_under K.eq entries.now key.now place ≡ false }
{
    for place in 0..entries.len() {
        if is_under(entries, place, key) {
            return Some(place);
        }
    }
    None
}

impl<K: TableKey> Strays<K> {
    /// No key has a place.
    pub(crate) fn new(alloc: Global) -> Strays<K> {
        Strays {
            places: BTreeMap::new(alloc),
            are_incomplete: false,
        }
    }

    fn insert(&mut self, key: &K, place: usize) -> Result<(), AllocError>
        ensures put { OnOk result (IsStray K.cmp self.new key.now place) }
        ensures keeps { KeepsStrays K.eq K.cmp key.now self.old self.new }
        ensures complete { self.new.are_incomplete ≡ self.old.are_incomplete }
    {
        let own = key.again()?;
        match self.places.insert(own, place) {
            Ok(_) => Ok(()),
            Err(_) => Err(AllocError),
        }
    }

    /// A key has a place.
    pub(crate) fn put(&mut self, key: &K, place: usize)
        ensures put { IsStray K.cmp self.new key.now place }
        ensures keeps { KeepsStrays K.eq K.cmp key.now self.old self.new }
    {
        if self.insert(key, place).is_err() {
            self.are_incomplete = true;
        }
    }

    /// A key that has a place has another.
    pub(crate) fn move_to(&mut self, key: &K, place: usize)
        ensures moved { (from : ℕ) → IsStray K.cmp self.old key.now from → IsStray K.cmp self.new key.now place }
        ensures keeps { KeepsStrays K.eq K.cmp key.now self.old self.new }
    {
        if self.places.is_empty() {
            return;
        }
        if let Some(found) = self.places.get_mut(key) {
            *found = place;
        }
    }

    /// A key that may have a place has none.
    pub(crate) fn remove(&mut self, key: &K)
        ensures keeps { KeepsStrays K.eq K.cmp key.now self.old self.new }
    {
        if self.places.is_empty() {
            return;
        }
        self.places.remove(key);
    }

    /// Looks for the place of a key among entries.
    #[cold]
    #[inline(never)]
    pub(crate) fn find<V>(&self, entries: &[(K, V)], key: &K) -> Option<usize>
        ensures at { IfSome result (λ place. is_under K.eq entries.now key.now place ≡ true) }
        ensures absent { result ≡ None → (place : ℕ) (own : K) → K.eq key.now own ≡ true → IsStray K.cmp self.now own place → is_under K.eq entries.now key.now place ≡ false }
    {
        if self.are_incomplete {
            return scan(entries, key);
        }
        let place = *self.places.get(key)?;
        if is_under(entries, place, key) {
            Some(place)
        } else {
            None
        }
    }
}
