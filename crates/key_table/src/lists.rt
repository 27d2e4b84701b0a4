//! The lists of a table: its entries, and the hashes of their keys.
ghost use Rattle.std.specs.Prelude.{◌≡◌, ◌<◌, ◌≤◌, ◌+◌, ◌++◌, ◌∷◌, [], length, vec_capacity, IfErr, IfOk, IsOk, OnOk, OnErr};
ghost use Rattle.std.specs.List.{AllZip};
ghost use Rattle.key_table.specs.Tables.{most, room};

use crate::key::TableKey;
use std::alloc::{AllocError, AllocFailed, Global};

/// The most entries that there may be.
const MOST: usize = 4_294_967_290;

/// Makes room in both lists for `additional` entries.
pub(crate) fn reserve_both<K, V>(
    entries: &mut Vec<(K, V)>,
    hashes: &mut Vec<u32>,
    additional: usize,
) -> Result<(), AllocError>
    requires { length hashes.old.items ≡ length entries.old.items }
    ensures entries { entries.new.items ≡ entries.old.items }
    ensures hashes { hashes.new.items ≡ hashes.old.items }
    ensures ok { OnOk result (additional ≤ room (vec_capacity entries.new) (vec_capacity hashes.new) (length entries.old.items)) }
    ensures succeeds { additional ≤ room (vec_capacity entries.old) (vec_capacity hashes.old) (length entries.old.items) → IsOk result }
    ensures keeps { room (vec_capacity entries.old) (vec_capacity hashes.old) (length entries.old.items) ≤ room (vec_capacity entries.new) (vec_capacity hashes.new) (length entries.old.items) }
{
    let fits = entries.capacity().min(hashes.capacity()).min(MOST);
    if additional <= fits.saturating_sub(entries.len()) {
        return Ok(());
    }
    if additional > MOST.saturating_sub(entries.len()) {
        return Err(AllocError);
    }
    entries.reserve(additional)?;
    hashes.reserve(additional)
}

/// An entry comes last, and its hash.
pub(crate) fn push_entry<K, V>(
    entries: &mut Vec<(K, V)>,
    hashes: &mut Vec<u32>,
    hash: u32,
    entry: (K, V),
) -> Result<(), AllocFailed<(K, V)>>
    requires { length hashes.old.items ≡ length entries.old.items }
    ensures entries { OnOk result (entries.new.items ≡ entries.old.items ++ entry ∷ []) }
    ensures hashes { OnOk result (hashes.new.items ≡ hashes.old.items ++ hash ∷ []) }
    ensures small { OnOk result (length entries.old.items < most) }
    ensures value_returned { IfErr result (λ y. y.value ≡ entry) }
    ensures err { OnErr result ((entries.new.items ≡ entries.old.items) × (hashes.new.items ≡ hashes.old.items)) }
    ensures succeeds { 0 < room (vec_capacity entries.old) (vec_capacity hashes.old) (length entries.old.items) → IsOk result }
    ensures keeps { room (vec_capacity entries.old) (vec_capacity hashes.old) (length entries.old.items) ≤ room (vec_capacity entries.new) (vec_capacity hashes.new) (length entries.new.items) + 1 }
{
    if reserve_both(entries, hashes, 1).is_err() {
        return Err(AllocFailed { value: entry });
    }
    entries.push_reserved(entry);
    hashes.push_reserved(hash);
    Ok(())
}

/// The same entries, and their hashes.
pub(crate) fn copy_all<K: TableKey, V: Clone + Drop>(
    alloc: Global,
    entries: &[(K, V)],
    hashes: &[u32],
) -> Result<(Vec<(K, V)>, Vec<u32>), AllocError>
    requires { length hashes.now ≡ length entries.now }
    ensures entries { IfOk result (λ copies. AllZip (λ p q. (q.0 ≡ p.0) × V.is_clone p.1 q.1) entries.now copies.0.items) }
    ensures hashes { IfOk result (λ copies. copies.1.items ≡ hashes.now) }
{
    let mut copies = Vec::with_capacity(alloc, entries.len())?;
    let mut list = Vec::with_capacity(alloc, hashes.len())?;
    for place in 0..entries.len() {
        let (key, value) = &entries[place];
        let own = (key.again()?, value.clone()?);
        copies.push(own)?;
        list.push(hashes[place])?;
    }
    Ok((copies, list))
}
