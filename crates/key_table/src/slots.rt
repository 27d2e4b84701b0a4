//! Slots, which note places of entries by the hashes of their keys. A slot that is free once is never empty again.
ghost use Rattle.std.specs.Prelude.{◌≡◌, ◌<◌, ◌≤◌, ◌⊎◌, ℕ, true, false, length, Some, None};
ghost use Rattle.key_table.specs.Slots.{Keeps, home, is_free, is_full, is_noted, is_under, steps};
ghost use Rattle.key_table.specs.declared.slots.Looked.{Looked};
ghost use Rattle.key_table.specs.declared.slots.Looked.TheVariants.{At, Free, Beyond};

use std::alloc::{AllocError, Global};

/// A note that the entry whose key has this hash is at this place.
#[derive(Clone, Copy, Drop)]
pub(crate) struct Slot {
    pub(crate) hash: u32,
    pub(crate) place: u32,
}

/// The place in a slot that is empty.
const NO_PLACE: u32 = u32::MAX;

/// How many slots are searched for a hash.
const STEPS: usize = 16;

/// Where the search for a key ended, and whether it was found.
#[derive(Clone, Copy, Drop)]
pub(crate) enum Looked {
    /// It is at this place.
    At(usize),
    /// It is nowhere. This slot is empty, and a note of the key can stand there.
    Free(usize),
    /// It is at no place that a slot notes. None of the slots is empty.
    Beyond,
}

/// A list of `count` slots, all empty.
pub(crate) fn empty_slots(alloc: Global, count: usize) -> Result<Vec<Slot>, AllocError> {
    let mut slots = Vec::new(alloc);
    let empty = Slot {
        hash: 0,
        place: NO_PLACE,
    };
    slots.resize(count, empty)?;
    Ok(slots)
}

/// The first slot for a hash.
fn home(count: usize, hash: u32) -> usize
    ensures { result ≡ home count hash }
{
    ((hash as u64).wrapping_mul(count as u64) >> 32) as usize
}

/// Whether the entry at a place has this key.
pub(crate) fn is_under<K: Eq, V>(entries: &[(K, V)], place: usize, key: &K) -> bool
    ensures { result ≡ is_under K.eq entries.now key.now place }
{
    match entries.get(place) {
        Some(entry) => *key == entry.0,
        None => false,
    }
}

/// Looks for a key with this hash among the entries at the places that are noted for it.
pub(crate) fn look<K: Eq, V>(slots: &[Slot], entries: &[(K, V)], hash: u32, key: &K) -> Looked
    requires { length entries.now < 4294967295 }
    ensures at { (place : ℕ) → result ≡ At place → is_under K.eq entries.now key.now place ≡ true }
    ensures free { (slot : ℕ) → result ≡ Free slot → is_free slots.now (home (length slots.now) hash) steps slot ≡ true }
    ensures nowhere { (place slot : ℕ) → is_under K.eq entries.now key.now place ≡ true → result ≡ Free slot → is_noted slots.now (home (length slots.now) hash) steps hash place ≡ false }
    ensures beyond { (place : ℕ) → is_under K.eq entries.now key.now place ≡ true → result ≡ Beyond → is_noted slots.now (home (length slots.now) hash) steps hash place ≡ false }
{
    let mut at = home(slots.len(), hash);
    let mut left = STEPS;
    while left > 0 {
        let Some(slot) = slots.get(at) else {
            return Looked::Beyond;
        };
        if slot.place == NO_PLACE {
            return Looked::Free(at);
        }
        if slot.hash == hash && is_under(entries, slot.place as usize, key) {
            return Looked::At(slot.place as usize);
        }
        at += 1;
        left -= 1;
    }
    Looked::Beyond
}

/// Notes a place for a hash in a slot that is empty, and that a look for the hash comes to.
pub(crate) fn fill(slots: &mut [Slot], at: usize, hash: u32, place: usize)
    requires place { place < 4294967295 }
    requires free { is_free slots.old (home (length slots.old) hash) steps at ≡ true }
    ensures len { length slots.new ≡ length slots.old }
    ensures keeps { Keeps (λ i. i < 4294967295) slots.old slots.new }
    ensures noted { is_noted slots.new (home (length slots.old) hash) steps hash place ≡ true }
{
    slots[at] = Slot {
        hash,
        place: place as u32,
    };
}

/// Notes a place for a hash in the first slot that is free. The result is whether one was: then it was empty, or not.
pub(crate) fn note(slots: &mut [Slot], len: usize, hash: u32, place: usize) -> Option<bool>
    requires place { place < 4294967295 }
    requires len { len ≤ 4294967295 }
    ensures len { length slots.new ≡ length slots.old }
    ensures keeps { Keeps (λ i. i < len) slots.old slots.new }
    ensures noted { (found : _) → result ≡ Some found → is_noted slots.new (home (length slots.old) hash) steps hash place ≡ true }
    ensures full { result ≡ None → is_full slots.new (home (length slots.old) hash) steps ≡ true }
{
    let mut at = home(slots.len(), hash);
    let mut left = STEPS;
    while left > 0 {
        let Some(slot) = slots.get(at) else {
            return None;
        };
        if slot.place as usize >= len {
            let was_empty = slot.place == NO_PLACE;
            slots[at] = Slot {
                hash,
                place: place as u32,
            };
            return Some(was_empty);
        }
        at += 1;
        left -= 1;
    }
    None
}

/// What was noted at one place for a hash is noted at another.
pub(crate) fn move_note(slots: &mut [Slot], hash: u32, from: usize, to: usize)
    requires to { to < 4294967295 }
    requires from { from < 4294967295 }
    ensures len { length slots.new ≡ length slots.old }
    ensures keeps { Keeps (λ i. i < from ⊎ from < i) slots.old slots.new }
    ensures moved { is_noted slots.old (home (length slots.old) hash) steps hash from ≡ true → is_noted slots.new (home (length slots.old) hash) steps hash to ≡ true }
{
    let mut at = home(slots.len(), hash);
    let mut left = STEPS;
    while left > 0 {
        let Some(slot) = slots.get(at) else {
            return;
        };
        if slot.hash == hash && slot.place as usize == from {
            slots[at] = Slot {
                hash,
                place: to as u32,
            };
            return;
        }
        at += 1;
        left -= 1;
    }
}
