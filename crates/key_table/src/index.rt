//! The way from keys to places: slots, and strays for what has no slot.
ghost use Rattle.std.specs.Prelude.{◌≡◌, ◌<◌, ◌≤◌, ◌⊎◌, ℕ, true, false, length, swap, position, Some, None, IfSome};
ghost use Rattle.std.specs.Map.{keys_of};
ghost use Rattle.indexmap.specs.Layout.{IsHashed};
ghost use Rattle.key_table.specs.Reached.{AreReached, Fills, IsReached, KeepsReached, Leaves, key_hash};
ghost use Rattle.key_table.specs.Slots.{is_under};
ghost use Rattle.key_table.specs.declared.index.Noting.{Noting};
ghost use Rattle.key_table.specs.declared.index.Noting.TheVariants.{At, Noted, Nowhere};

use crate::key::TableKey;
use crate::slots::{Looked, Slot, fill, look, move_note, note};
use crate::strays::Strays;
use std::hash::{FoldHasher, Hash, Hasher};

/// A place that no entry has.
pub(crate) const GONE: usize = 4_294_967_294;

/// The hash of a key.
pub(crate) fn hash_of<K: Hash>(key: &K) -> u32
    ensures { result ≡ key_hash (K.hash_input key.now) }
{
    let mut state = FoldHasher::default();
    key.hash(&mut state);
    let hash = state.finish();
    ((hash ^ (hash >> 32)) & 0xFFFF_FFFF) as u32
}

/// The place of a key among entries.
pub(crate) fn find<K: TableKey, V>(
    slots: &[Slot],
    strays: &Strays<K>,
    entries: &[(K, V)],
    hash: u32,
    key: &K,
) -> Option<usize>
    requires len { length entries.now < 4294967295 }
    requires hash { hash ≡ key_hash (K.hash_input key.now) }
    requires reached { AreReached K.cmp (λ k. key_hash (K.hash_input k)) entries.now slots.now strays.now }
    ensures at { IfSome result (λ place. is_under K.eq entries.now key.now place ≡ true) }
    ensures absent { result ≡ None → (place : ℕ) → is_under K.eq entries.now key.now place ≡ false }
{
    match look(slots, entries, hash, key) {
        Looked::At(place) => Some(place),
        Looked::Free(_slot) => None,
        Looked::Beyond => strays.find(entries, key),
    }
}

/// Where a key is, and what was done if it is nowhere.
#[derive(Clone, Copy, Drop)]
pub(crate) enum Noting {
    /// It is at this place.
    At(usize),
    /// It was nowhere. An empty slot notes the place past all entries for it now.
    Noted,
    /// It is nowhere, and no slot that a search for it reaches is empty.
    Nowhere,
}

/// Searches entries for a key. If the search ends at an empty slot, the slot notes a place for it past all entries.
pub(crate) fn find_or_note<K: TableKey, V>(
    slots: &mut [Slot],
    strays: &Strays<K>,
    entries: &[(K, V)],
    hash: u32,
    key: &K,
) -> Noting
    requires len { length entries.now < 4294967295 }
    requires hash { hash ≡ key_hash (K.hash_input key.now) }
    requires reached { AreReached K.cmp (λ k. key_hash (K.hash_input k)) entries.now slots.old strays.now }
    ensures len { length slots.new ≡ length slots.old }
    ensures at { (place : ℕ) → result ≡ At place → is_under K.eq entries.now key.now place ≡ true }
    ensures noted { result ≡ Noted → (place : ℕ) → is_under K.eq entries.now key.now place ≡ false }
    ensures nowhere { result ≡ Nowhere → (place : ℕ) → is_under K.eq entries.now key.now place ≡ false }
    ensures reached { result ≡ Noted → IsReached K.cmp slots.new strays.now key.now hash (length entries.now) }
    ensures keeps { KeepsReached K.cmp K.eq (λ i. i < length entries.now) key.now slots.old strays.now slots.new strays.now }
    ensures same { AreReached K.cmp (λ k. key_hash (K.hash_input k)) entries.now slots.new strays.now }
{
    match look(slots, entries, hash, key) {
        Looked::At(place) => Noting::At(place),
        Looked::Free(slot) => {
            fill(slots, slot, hash, entries.len());
            Noting::Noted
        }
        Looked::Beyond => match strays.find(entries, key) {
            Some(place) => Noting::At(place),
            None => Noting::Nowhere,
        },
    }
}

/// A key has a place past the places of all others. The result is whether an empty slot notes it now.
#[inline(always)]
pub(crate) fn index<K: TableKey>(
    slots: &mut [Slot],
    strays: &mut Strays<K>,
    place: usize,
    hash: u32,
    key: &K,
) -> bool
    requires { place < 4294967295 }
    ensures len { length slots.new ≡ length slots.old }
    ensures reached { IsReached K.cmp slots.new strays.new key.now hash place }
    ensures keeps { KeepsReached K.cmp K.eq (λ i. i < place) key.now slots.old strays.old slots.new strays.new }
{
    match note(slots, place, hash, place) {
        Some(was_empty) => was_empty,
        None => {
            strays.put(key, place);
            false
        }
    }
}

/// A key has another place.
pub(crate) fn move_place<K: TableKey>(
    slots: &mut [Slot],
    strays: &mut Strays<K>,
    hash: u32,
    key: &K,
    from: usize,
    to: usize,
)
    requires from { from < 4294967295 }
    requires to { to < 4294967295 }
    ensures len { length slots.new ≡ length slots.old }
    ensures reached { IsReached K.cmp slots.old strays.old key.now hash from → IsReached K.cmp slots.new strays.new key.now hash to }
    ensures keeps { KeepsReached K.cmp K.eq (λ i. i < from ⊎ from < i) key.now slots.old strays.old slots.new strays.new }
{
    move_note(slots, hash, from, to);
    strays.move_to(key, to);
}

/// All entries are reached by slots that are empty, and no strays. The result is how many slots are not empty then.
pub(crate) fn index_all<K: TableKey, V>(
    slots: &mut [Slot],
    strays: &mut Strays<K>,
    entries: &[(K, V)],
    hashes: &[u32],
) -> usize
    requires len { length entries.now < 4294967295 }
    requires hashes { IsHashed K.eq (λ k. key_hash (K.hash_input k)) hashes.now entries.now }
    ensures len { length slots.new ≡ length slots.old }
    ensures reached { AreReached K.cmp (λ k. key_hash (K.hash_input k)) entries.now slots.new strays.new }
{
    let mut used: usize = 0;
    for place in 0..entries.len() {
        let is_new = index(slots, strays, place, hashes[place], &entries[place].0);
        used = used.saturating_add(is_new as usize);
    }
    used
}

/// The last entry has the place of another, which is reached no more.
fn fill_place<K: TableKey, V>(
    slots: &mut [Slot],
    strays: &mut Strays<K>,
    entries: &[(K, V)],
    hashes: &[u32],
    place: usize,
)
    requires place { place < length entries.now }
    requires len { length entries.now < 4294967295 }
    requires hashes { IsHashed K.eq (λ k. key_hash (K.hash_input k)) hashes.now entries.now }
    ensures len { length slots.new ≡ length slots.old }
    ensures fills { Fills K.cmp (λ k. key_hash (K.hash_input k)) entries.now place slots.old strays.old slots.new strays.new }
{
    let last = entries.len() - 1;
    if place < last {
        move_place(slots, strays, hashes[last], &entries[last].0, last, place);
    }
}

/// A key leaves its place, which the last entry takes.
pub(crate) fn leave_place<K: TableKey, V>(
    slots: &mut [Slot],
    strays: &mut Strays<K>,
    entries: &[(K, V)],
    hashes: &[u32],
    hash: u32,
    key: &K,
    place: usize,
)
    requires index { position (K.eq key.now) (keys_of entries.now) ≡ Some place }
    requires place { place < length entries.now }
    requires len { length entries.now < 4294967295 }
    requires hashes { IsHashed K.eq (λ k. key_hash (K.hash_input k)) hashes.now entries.now }
    ensures len { length slots.new ≡ length slots.old }
    ensures leaves { Leaves K.cmp (λ k. key_hash (K.hash_input k)) entries.now place slots.old strays.old slots.new strays.new }
{
    move_note(slots, hash, place, GONE);
    strays.remove(key);
    fill_place(slots, strays, entries, hashes, place);
}

/// Two entries have each other's place.
pub(crate) fn exchange<K: TableKey, V>(
    slots: &mut [Slot],
    strays: &mut Strays<K>,
    entries: &[(K, V)],
    hashes: &[u32],
    a: usize,
    b: usize,
)
    requires a { a < length entries.now }
    requires b { b < length entries.now }
    requires len { length entries.now < 4294967294 }
    requires hashes { IsHashed K.eq (λ k. key_hash (K.hash_input k)) hashes.now entries.now }
    ensures len { length slots.new ≡ length slots.old }
    ensures reached { AreReached K.cmp (λ k. key_hash (K.hash_input k)) entries.now slots.old strays.old → AreReached K.cmp (λ k. key_hash (K.hash_input k)) (swap entries.now a b) slots.new strays.new }
{
    if a == b {
        return;
    }
    let (first, hash) = (&entries[a].0, hashes[a]);
    move_place(slots, strays, hash, first, a, GONE);
    move_place(slots, strays, hashes[b], &entries[b].0, b, a);
    move_place(slots, strays, hash, first, GONE, b);
}
