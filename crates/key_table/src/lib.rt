//! A table from keys to values, and a set of keys, whose worst case does not depend on how keys hash: strangers choose the keys.
//!
//! What a contract sees: the entries of a `KeyTable` in their order, and how many more fit; the keys of a `KeySet` in their order. The
//! words are those of the kit's `IndexMap` and `IndexSet`, and so are the clauses. A new key comes last; a key that is removed has its
//! place taken by the last entry. After an error the entries are as before; if there is room, nothing fails.
//!
//! How it is kept (`IsTable`): the entries in a list, the hash of each key beside it, and an index from keys to places. A slot notes the
//! hash and the place of an entry, in one of the 16 slots from that which the hash names, before the first empty one (`slots`); if none of
//! the 16 is free, the key and the place are in a tree by the order of the keys (`strays`). So a look-up compares at most 16 keys of equal
//! hash, and then as many as a tree of all strays is high. A place in a slot or among strays is tested when it is found: no more is known
//! of the index than that every entry is reached (`AreReached`).
//!
//! Not proved: speed. At most half of the slots are in use before there are more, unless there is no memory for more. Without memory for a
//! stray or for more slots, every answer is right and takes longer.
#![tactic(auto)]

mod index;
mod key;
mod lists;
mod set;
mod slots;
mod strays;
mod table;

pub use key::TableKey;
pub use set::KeySet;
pub use table::KeyTable;
