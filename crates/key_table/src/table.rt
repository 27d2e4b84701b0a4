//! The table: its entries in a list, and the index of their keys.
ghost use Rattle.std.specs.Prelude.{◌≡◌, ◌<◌, ◌≤◌, ◌+◌, ◌-◌, ◌++◌, ◌∷◌, [], ℕ, true, false, cond, length, take, swap, is_some, None, Some, IfSome, IfNone, IfOk, IfErr, IsOk, OnOk, OnErr, if◌then◌else◌, slice_get, vec_capacity};
ghost use Rattle.std.specs.List.{swap_remove};
ghost use Rattle.std.specs.Option.{option_map, option_copied, option_to_list, unwrap_or};
ghost use Rattle.std.specs.HashMap.Eq.{hash_map_eq_symm, hash_map_eq_trans};
ghost use Rattle.indexmap.specs.IndexMap.{IsClone, IsEmpty, IsUnchanged, IsUnique, KeepsRoom, Updates, get, get_key, index_map_eq, index_map_len, index_of, insert_entry, insert_index, keys, set_value_at, spare, swap_remove_entry, values};
ghost use Rattle.key_table.specs.Opened.{IsOpened, open_entry};
ghost use Rattle.key_table.specs.Reached.{key_hash};

use crate::index::{Noting, exchange, find, find_or_note, hash_of, index, index_all, leave_place};
use crate::key::TableKey;
use crate::lists::{copy_all, push_entry, reserve_both};
use crate::slots::{Slot, empty_slots};
use crate::strays::Strays;
use std::alloc::{AllocError, AllocFailed, Global};
use std::marker::Model;
use std::mem;

/// A table from keys to values, whose entries keep a consistent order.
#[derive(Drop)]
pub struct KeyTable<K: TableKey, V> {
    entries: Vec<(K, V)>,
    /// The hash of each entry's key.
    hashes: Vec<u32>,
    slots: Vec<Slot>,
    strays: Strays<K>,
    /// How many slots are not empty. Nothing rests on it but the time that a call takes.
    used: usize,
}

impl<K: TableKey, V> Model for KeyTable<K, V> {
    ghost use Rattle.std.specs.Prelude.{ℕ, length, vec_capacity};
    ghost use Rattle.std.specs.Coded.{coded_ℕ};
    ghost use Rattle.indexmap.specs.IndexMap.{IndexMap as Entries};
    ghost use Rattle.indexmap.specs.Layout.{hash_map, hash_map_code};
    ghost use Rattle.key_table.specs.Reached.{key_hash};
    ghost use Rattle.key_table.specs.Tables.{IsTable, room};

    ghost Value = { Entries K V ℕ };

    ghost coded = { hash_map_code K.code V.code coded_ℕ };

    ghost view = { λ t. hash_map t.entries.items 0 (room (vec_capacity t.entries) (vec_capacity t.hashes) (length t.entries.items)) };

    ghost invariant = { λ t. IsTable K.eq K.cmp (λ k. key_hash (K.hash_input k)) t.entries.items t.hashes.items t.slots.items t.strays };
}

impl<K: TableKey, V> KeyTable<K, V> {
    /// An empty table, which allocates nothing until the first insert.
    pub fn new(alloc: Global) -> Self
        ensures empty { IsEmpty result }
        ensures len { index_map_len result ≡ 0 }
        ensures unique { IsUnique K.eq result }
    {
        KeyTable {
            entries: Vec::new(alloc),
            hashes: Vec::new(alloc),
            slots: Vec::new(alloc),
            strays: Strays::new(alloc),
            used: 0,
        }
    }

    /// How many entries there are.
    pub fn len(&self) -> usize
        ensures len { result ≡ index_map_len self.now }
        ensures small { result < 4294967295 }
        ensures unique { IsUnique K.eq self.now }
    {
        self.entries.len()
    }

    /// All entries, in their order.
    pub fn as_slice(&self) -> &[(K, V)]
        ensures entries { result.now ≡ self.now.entries }
        ensures unique { IsUnique K.eq self.now }
    {
        self.entries.as_slice()
    }

    /// The place of a key with this hash.
    fn find(&self, hash: u32, key: &K) -> Option<usize>
        requires { hash ≡ key_hash (K.hash_input key.now) }
        ensures index { result ≡ index_of K.eq self.now key.now }
        ensures unique { IsUnique K.eq self.now }
    {
        find(&self.slots, &self.strays, &self.entries, hash, key)
    }

    /// The place of a key.
    pub fn get_index_of(&self, key: &K) -> Option<usize>
        ensures index { result ≡ index_of K.eq self.now key.now }
        ensures within { IfSome result (λ place. place < index_map_len self.now) }
        ensures value { IfSome result (λ place. slice_get (values self.now) place ≡ get K.eq self.now key.now) }
        ensures absent { result ≡ None → get K.eq self.now key.now ≡ None }
        ensures unique { IsUnique K.eq self.now }
    {
        self.find(hash_of(key), key)
    }

    /// The value at a place.
    pub fn value_at(&self, place: usize) -> &V
        requires { place < index_map_len self.now }
        ensures { slice_get (values self.now) place ≡ Some result.now }
    {
        &self.entries[place].1
    }

    /// The value at a key.
    pub fn get(&self, key: &K) -> Option<&V>
        ensures value { option_copied result ≡ get K.eq self.now key.now }
    {
        let place = self.get_index_of(key)?;
        let entry = self.entries.get(place)?;
        Some(&entry.1)
    }

    /// Whether there is a key.
    pub fn contains_key(&self, key: &K) -> bool
        ensures { result ≡ is_some (get K.eq self.now key.now) }
    {
        self.get_index_of(key).is_some()
    }

    // ---- room

    /// Whether `additional` more entries find enough empty slots.
    fn has_slots(&self, additional: usize) -> bool {
        self.used.saturating_add(additional) <= self.slots.len() / 2
    }

    /// Makes enough slots for `additional` more entries. If out of memory, the table stays as it is, and calls take longer.
    #[cold]
    #[inline(never)]
    fn make_slots(&mut self, additional: usize)
        ensures { self.new ≡ self.old }
    {
        let alloc = *self.entries.allocator();
        let count = self
            .entries
            .len()
            .saturating_mul(6)
            .saturating_add(additional.saturating_mul(2));
        let Ok(mut slots) = empty_slots(alloc, count.saturating_add(16)) else {
            return;
        };
        let mut strays = Strays::new(alloc);
        self.used = index_all(&mut slots, &mut strays, &self.entries, &self.hashes);
        self.slots = slots;
        self.strays = strays;
    }

    /// Makes room in the lists for `additional` more entries.
    fn grow(&mut self, additional: usize) -> Result<(), AllocError>
        ensures entries { IsUnchanged self.old self.new }
        ensures ok { OnOk result (additional ≤ spare self.new) }
        ensures succeeds { additional ≤ spare self.old → IsOk result }
        ensures room { KeepsRoom self.old self.new }
        ensures unique { IsUnique K.eq self.new }
    {
        reserve_both(&mut self.entries, &mut self.hashes, additional)
    }

    /// Makes room for `additional` more entries, so that as many inserts need no memory.
    pub fn reserve(&mut self, additional: usize) -> Result<(), AllocError>
        ensures entries { IsUnchanged self.old self.new }
        ensures ok { OnOk result (additional ≤ spare self.new) }
        ensures succeeds { additional ≤ spare self.old → IsOk result }
        ensures room { KeepsRoom self.old self.new }
        ensures unique { IsUnique K.eq self.new }
    {
        self.grow(additional)?;
        if !self.has_slots(additional) {
            self.make_slots(additional);
        }
        Ok(())
    }

    // ---- entries

    /// A value takes the place of the one at a place.
    pub fn replace_at(&mut self, place: usize, value: V) -> V
        requires { place < index_map_len self.old }
        ensures took { slice_get (values self.old) place ≡ Some result }
        ensures entries { self.new.entries ≡ set_value_at self.old.entries place value }
        ensures keys { keys self.new ≡ keys self.old }
        ensures updates { (key : K) → index_of K.eq self.old key ≡ Some place → Updates K.eq self.old self.new key (Some value) }
        ensures spare { spare self.new ≡ spare self.old }
    {
        mem::replace(&mut self.entries[place].1, value)
    }

    /// A new key comes after all others.
    fn push(&mut self, hash: u32, key: K, value: V)
        requires hash { hash ≡ key_hash (K.hash_input key) }
        requires absent { get K.eq self.old key ≡ None }
        requires spare { 0 < spare self.old }
        ensures entries { self.new.entries ≡ self.old.entries ++ (key, value) ∷ [] }
        ensures spare { spare self.old ≡ spare self.new + 1 }
    {
        let place = self.entries.len();
        let is_new = index(&mut self.slots, &mut self.strays, place, hash, &key);
        self.used = self.used.saturating_add(is_new as usize);
        self.entries.push_reserved((key, value));
        self.hashes.push_reserved(hash);
    }

    /// A new key comes after all others, though no slot notes it: there are enough slots then, or it is a stray.
    #[cold]
    #[inline(never)]
    fn push_beyond(&mut self, hash: u32, key: K, value: V) -> Result<(), AllocFailed<(K, V)>>
        requires hash { hash ≡ key_hash (K.hash_input key) }
        requires absent { get K.eq self.old key ≡ None }
        ensures entries { OnOk result (self.new.entries ≡ self.old.entries ++ (key, value) ∷ []) }
        ensures value_returned { IfErr result (λ y. y.value ≡ (key, value)) }
        ensures err { OnErr result (IsUnchanged self.old self.new) }
        ensures succeeds { 0 < spare self.old → IsOk result }
        ensures spare { spare self.old ≤ spare self.new + 1 }
    {
        if self.reserve(1).is_err() {
            return Err(AllocFailed {
                value: (key, value),
            });
        }
        self.push(hash, key, value);
        Ok(())
    }

    /// One more slot is not empty.
    fn count_slot(&mut self)
        ensures { self.new ≡ self.old }
    {
        self.used = self.used.saturating_add(1);
        if !self.has_slots(0) {
            self.make_slots(0);
        }
    }

    /// The place of a key. One that has none comes after all others, with a value; else the value comes back.
    fn place_or_push(&mut self, key: K, value: V) -> Result<(usize, Option<V>), AllocFailed<(K, V)>>
        ensures there { IfOk result (λ r. IfSome r.1 (λ v. (v ≡ value) × (index_of K.eq self.old key ≡ Some r.0) × (self.new.entries ≡ self.old.entries))) }
        ensures new { IfOk result (λ r. IfNone r.1 ((r.0 ≡ index_map_len self.old) × (index_of K.eq self.old key ≡ None) × (self.new.entries ≡ self.old.entries ++ (key, value) ∷ []))) }
        ensures value_returned { IfErr result (λ y. y.value ≡ (key, value)) }
        ensures err { OnErr result (IsUnchanged self.old self.new) }
        ensures absent { OnErr result (get K.eq self.old key ≡ None) }
        ensures succeeds { 0 < spare self.old → IsOk result }
        ensures spare { spare self.old ≤ spare self.new + 1 }
        ensures unique { IsUnique K.eq self.old }
    {
        let (hash, place) = (hash_of(&key), self.entries.len());
        match find_or_note(&mut self.slots, &self.strays, &self.entries, hash, &key) {
            Noting::At(found) => Ok((found, Some(value))),
            Noting::Noted => {
                push_entry(&mut self.entries, &mut self.hashes, hash, (key, value))?;
                self.count_slot();
                Ok((place, None))
            }
            Noting::Nowhere => {
                self.push_beyond(hash, key, value)?;
                Ok((place, None))
            }
        }
    }

    /// Inserts an entry. A key that is there keeps its place, and the value that it had is returned with that place. A new key goes last.
    pub fn insert_full(
        &mut self,
        key: K,
        value: V,
    ) -> Result<(usize, Option<V>), AllocFailed<(K, V)>>
        ensures index { IfOk result (λ r. r.0 ≡ insert_index K.eq self.old key) }
        ensures within { IfOk result (λ r. r.0 < index_map_len self.new) }
        ensures old { IfOk result (λ r. r.1 ≡ get K.eq self.old key) }
        ensures updates { OnOk result (Updates K.eq self.old self.new key (Some value)) }
        ensures entries { OnOk result (self.new.entries ≡ insert_entry K.eq self.old.entries key value) }
        ensures len { IfOk result (λ r. index_map_len self.new ≡ index_map_len self.old + (if is_some r.1 then 0 else 1)) }

        // Only a new key can fail. Then the entry comes back, and those of the table stay.
        ensures value_returned { IfErr result (λ y. y.value ≡ (key, value)) }
        ensures err { OnErr result (IsUnchanged self.old self.new) }
        ensures absent { OnErr result (get K.eq self.old key ≡ None) }

        // With room to spare it succeeds, and it uses up at most one place.
        ensures succeeds { 0 < spare self.old → IsOk result }
        ensures spare { spare self.old ≤ spare self.new + 1 }
        ensures unique { IsUnique K.eq self.new }
    {
        let (place, back) = self.place_or_push(key, value)?;
        let Some(value) = back else {
            return Ok((place, None));
        };
        Ok((place, Some(self.replace_at(place, value))))
    }

    /// Inserts an entry as `insert_full` does, and returns the value that the key had.
    pub fn insert(&mut self, key: K, value: V) -> Result<Option<V>, AllocFailed<(K, V)>>
        ensures old { IfOk result (λ old. old ≡ get K.eq self.old key) }
        ensures updates { OnOk result (Updates K.eq self.old self.new key (Some value)) }
        ensures entries { OnOk result (self.new.entries ≡ insert_entry K.eq self.old.entries key value) }
        ensures len { IfOk result (λ old. index_map_len self.new ≡ index_map_len self.old + (if is_some old then 0 else 1)) }
        ensures value_returned { IfErr result (λ y. y.value ≡ (key, value)) }
        ensures err { OnErr result (IsUnchanged self.old self.new) }
        ensures absent { OnErr result (get K.eq self.old key ≡ None) }
        ensures succeeds { 0 < spare self.old → IsOk result }
        ensures spare { spare self.old ≤ spare self.new + 1 }
        ensures unique { IsUnique K.eq self.new }
    {
        let (_, old) = self.insert_full(key, value)?;
        Ok(old)
    }

    /// Gives a key a value, if it has none. The result is its place.
    pub fn open(&mut self, key: K, value: V) -> Result<usize, AllocError>
    where
        V: Drop,
        ensures ok { OnOk result (IsOpened K.eq self.old self.new key value) }
        ensures at { IfOk result (λ place. slice_get (values self.new) place ≡ get K.eq self.new key) }
        ensures entries { OnOk result (self.new.entries ≡ open_entry K.eq self.old.entries key value) }
        ensures err { OnErr result (IsUnchanged self.old self.new) }
        ensures absent { OnErr result (get K.eq self.old key ≡ None) }
        ensures succeeds { 0 < spare self.old → IsOk result }
        ensures spare { spare self.old ≤ spare self.new + 1 }
        ensures unique { IsUnique K.eq self.new }
    {
        match self.place_or_push(key, value) {
            Ok((place, _back)) => Ok(place),
            Err(_) => Err(AllocError),
        }
    }

    /// Takes an entry away: the last takes its place.
    fn take(&mut self, hash: u32, key: &K, place: usize) -> (K, V)
        requires { index_of K.eq self.old key.now ≡ Some place }
        ensures took { slice_get self.old.entries place ≡ Some result }
        ensures entries { self.new.entries ≡ swap_remove self.old.entries place result }
        ensures room { KeepsRoom self.old self.new }
        ensures unique { IsUnique K.eq self.old }
    {
        leave_place(
            &mut self.slots,
            &mut self.strays,
            &self.entries,
            &self.hashes,
            hash,
            key,
            place,
        );
        self.hashes.swap_remove(place);
        self.entries.swap_remove(place)
    }

    /// Removes a key, and returns its place, the key that was there and its value. The last entry takes its place.
    pub fn swap_remove_full(&mut self, key: &K) -> Option<(usize, K, V)>
        ensures index { option_map (λ p. p.0) result ≡ index_of K.eq self.old key.now }
        ensures key { option_map (λ p. p.1) result ≡ get_key K.eq self.old key.now }
        ensures value { option_map (λ p. p.2) result ≡ get K.eq self.old key.now }
        ensures updates { Updates K.eq self.old self.new key.now None }
        ensures entries { self.new.entries ≡ swap_remove_entry (K.eq key.now) self.old.entries }
        ensures unchanged { IfNone result (IsUnchanged self.old self.new) }
        ensures len { index_map_len self.new + (if is_some result then 1 else 0) ≡ index_map_len self.old }
        ensures room { KeepsRoom self.old self.new }
        ensures unique { IsUnique K.eq self.new }
    {
        let hash = hash_of(key);
        let place = self.find(hash, key)?;
        let (key, value) = self.take(hash, key, place);
        Some((place, key, value))
    }

    /// Removes a key as `swap_remove_full` does, and returns its value.
    pub fn swap_remove(&mut self, key: &K) -> Option<V>
        ensures value { result ≡ get K.eq self.old key.now }
        ensures updates { Updates K.eq self.old self.new key.now None }
        ensures entries { self.new.entries ≡ swap_remove_entry (K.eq key.now) self.old.entries }
        ensures unchanged { IfNone result (IsUnchanged self.old self.new) }
        ensures len { index_map_len self.new + (if is_some result then 1 else 0) ≡ index_map_len self.old }
        ensures room { KeepsRoom self.old self.new }
        ensures unique { IsUnique K.eq self.new }
    {
        let (_, _, value) = self.swap_remove_full(key)?;
        Some(value)
    }

    /// Removes the last entry.
    pub fn pop(&mut self) -> Option<(K, V)>
        ensures entries { self.old.entries ≡ self.new.entries ++ option_to_list result }
        ensures rest { self.new.entries ≡ take (index_map_len self.old - 1) self.old.entries }
        ensures room { KeepsRoom self.old self.new }
        ensures unique { IsUnique K.eq self.new }
    {
        self.hashes.pop();
        self.entries.pop()
    }

    /// Keeps the first `len` entries.
    pub fn truncate(&mut self, len: usize)
    where
        V: Drop,
        ensures entries { self.new.entries ≡ take len self.old.entries }
        ensures room { KeepsRoom self.old self.new }
        ensures unique { IsUnique K.eq self.new }
    {
        self.hashes.truncate(len);
        self.entries.truncate(len);
    }

    /// Two entries are in each other's place.
    pub fn swap_indices(&mut self, a: usize, b: usize)
        requires a_in_bounds { a < index_map_len self.old }
        requires b_in_bounds { b < index_map_len self.old }
        ensures entries { self.new.entries ≡ swap self.old.entries a b }
        ensures room { KeepsRoom self.old self.new }
    {
        exchange(
            &mut self.slots,
            &mut self.strays,
            &self.entries,
            &self.hashes,
            a,
            b,
        );
        self.hashes.swap(a, b);
        self.entries.swap(a, b);
    }

    /// A value takes the place of the one at a key, if there is one.
    pub fn replace(&mut self, key: &K, value: V) -> Option<V>
    where
        V: Drop,
        ensures old { result ≡ get K.eq self.old key.now }
        ensures updates { IfSome result (λ _. Updates K.eq self.old self.new key.now (Some value)) }
        ensures unchanged { IfNone result (self.new ≡ self.old) }
        ensures spare { spare self.new ≡ spare self.old }
    {
        let place = self.get_index_of(key)?;
        Some(self.replace_at(place, value))
    }

    /// The keys, in their order.
    pub fn into_keys(self) -> Result<Vec<K>, AllocError>
    where
        V: Drop,
        ensures { IfOk result (λ list. list.items ≡ keys self) }
    {
        let KeyTable { entries, .. } = self;
        let mut list = Vec::with_capacity(*entries.allocator(), entries.len())?;
        for (key, _value) in entries {
            list.push(key)?;
        }
        Ok(list)
    }

    /// The same entries in a table of its own.
    pub fn copy(&self) -> Result<Self, AllocError>
    where
        V: Clone + Drop,
        ensures { IfOk result (IsClone (λ a b. b ≡ a) V.is_clone self.now) }
    {
        let alloc = *self.entries.allocator();
        let (entries, hashes) = copy_all(alloc, &self.entries, &self.hashes)?;
        let mut slots = empty_slots(alloc, self.slots.len())?;
        let mut strays = Strays::new(alloc);
        let used = index_all(&mut slots, &mut strays, &entries, &hashes);
        Ok(KeyTable {
            entries,
            hashes,
            slots,
            strays,
            used,
        })
    }
}

impl<K: TableKey, V: PartialEq> PartialEq for KeyTable<K, V> {
    ghost eq = { index_map_eq K.eq V.eq };

    ghost laws = { let v = V.laws in record { symm = hash_map_eq_symm K.eq V.eq v.symm; trans = hash_map_eq_trans K.eq V.eq K.Eq.laws v.trans } };

    fn eq(&self, other: &KeyTable<K, V>) -> bool {
        let entries = self.as_slice();
        if entries.len() != other.len() {
            return false;
        }
        for place in 0..entries.len() {
            let (key, value) = &entries[place];
            match other.get(key) {
                Some(found) => {
                    if !value.eq(found) {
                        return false;
                    }
                }
                None => return false,
            }
        }
        true
    }
}
