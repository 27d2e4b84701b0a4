//! The write set of a transaction: the keys that it touches, as MySQL's `binlog_transaction_dependency_tracking=WRITESET` has it, with
//! the values themselves in place of hashes.
//!
//! `keys_of` gives each key once, in the order of first touch: for each change the keys of the before image, then those of the after
//! image, by number of the key. A unique key with a null is no key (our own rule). `list_keys` gives the same as a list, and `share_key`
//! the first key of one set that another has.
//!
//! What a contract sees: the list of a `KeySet`'s keys in order, and the definitions of crate `rows` (`write_set`, `touches`).
//!
//! `footprint` and `install` are those of `rows` over such a set of keys: what a transaction needs to be prepared without the lock.
//!
//! Not proved: speed. Up to 8 keys are compared with one another, more are hashed; which keys hash alike is no matter (crate `key_table`).
#![tactic(auto)]

ghost use Rattle.std.specs.Prelude.{◌≡◌, ◌≢◌, IfOk, OnOk, AllPairs};
ghost use Rattle.std.specs.List.{find};
ghost use Rattle.std.specs.Option.{option_copied};
ghost use Rattle.rows.specs.declared.change.Key.{Key as KeyValue};
ghost use Rattle.rows.specs.WriteSet.{is_among, touches, write_set};
ghost use Rattle.write_set.specs.FirstTouch.{add_key, each_once};

mod prepared;

use key_table::KeySet;
pub use prepared::{footprint, install};
pub use rows::{Footprint, InstallOutcome, Patch, prepare};
use rows::{Key, Schema, Transaction, keys_touched};
use std::alloc::{AllocError, Global};

/// Up to this many keys are compared with one another; more are hashed. Our own rule.
const FEW: usize = 8;

/// All keys that a before image or an after image carries, each once, in the order of first touch: for each change the
/// keys of the before image, then those of the after image, by number. A unique key with a null is no key (our own rule).
pub fn keys_of(alloc: Global, schema: &Schema, txn: &Transaction) -> Result<KeySet<Key>, AllocError>
    ensures order { IfOk result (λ set. set.keys ≡ each_once (write_set schema.now txn.now)) }
    ensures members { IfOk result (λ set. (key : KeyValue) → is_among set.keys key ≡ touches schema.now txn.now key) }
    ensures once { IfOk result (λ set. AllPairs (λ a b. a ≢ b) set.keys) }
{
    unique_by_hash(alloc, keys_touched(alloc, schema, txn)?)
}

/// The keys of `keys_of`, in the same order, as a list. A few keys are compared with one another and not hashed.
pub fn list_keys(alloc: Global, schema: &Schema, txn: &Transaction) -> Result<Vec<Key>, AllocError>
    ensures order { IfOk result (λ keys. keys.items ≡ each_once (write_set schema.now txn.now)) }
    ensures members { IfOk result (λ keys. (key : KeyValue) → is_among keys.items key ≡ touches schema.now txn.now key) }
    ensures once { IfOk result (λ keys. AllPairs (λ a b. a ≢ b) keys.items) }
{
    let touched = keys_touched(alloc, schema, txn)?;
    if touched.len() <= FEW {
        unique_by_comparison(alloc, touched)
    } else {
        unique_by_hash(alloc, touched)?.into_keys()
    }
}

/// The members of a list, each once, in the order of their first places.
fn unique_by_hash(alloc: Global, keys: Vec<Key>) -> Result<KeySet<Key>, AllocError>
    ensures { IfOk result (λ set. set.keys ≡ each_once keys.items) }
{
    let mut set = KeySet::new(alloc);
    for key in keys {
        set.insert(key)?;
    }
    Ok(set)
}

fn is_among(keys: &[Key], key: &Key) -> bool
    ensures { result ≡ is_among keys.now key.now }
{
    keys.iter().any(|other| *key == *other)
}

/// Appends a key to a list, unless it is there.
fn add(list: &mut Vec<Key>, key: Key) -> Result<(), AllocError>
    ensures { OnOk result (list.new.items ≡ add_key list.old.items key) }
{
    if !is_among(list, &key) {
        list.push(key)?;
    }
    Ok(())
}

/// The members of a list, each once, in the order of their first places. Each is compared with those before it.
fn unique_by_comparison(alloc: Global, keys: Vec<Key>) -> Result<Vec<Key>, AllocError>
    ensures { IfOk result (λ list. list.items ≡ each_once keys.items) }
{
    let mut list = Vec::with_capacity(alloc, keys.len())?;
    for key in keys {
        add(&mut list, key)?;
    }
    Ok(list)
}

/// The first key of `a` that is in `b`.
pub fn share_key<'a>(a: &'a KeySet<Key>, b: &KeySet<Key>) -> Option<&'a Key>
    ensures { option_copied result ≡ find (is_among b.now.keys) a.now.keys }
{
    for place in 0..a.len() {
        let key = a.get_index(place)?;
        if b.contains(key) {
            return Some(key);
        }
    }
    None
}
