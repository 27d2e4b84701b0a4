//! Entries of a journal that are out of turn.
ghost use Rattle.std.specs.Prelude.{◌≡◌, IfOk, OnOk, None};
ghost use Rattle.std.specs.Map.{lookup};
ghost use Rattle.rows.specs.WriteSet.{write_set};
ghost use Rattle.world.specs.Bundles.{beyond_opening};
ghost use Rattle.audit.specs.Chains.{IsVisitedAt, same_key, chains_of, visit_key, visit_keys, out_at, out_of_keys, visit_entries, out_of_entries, expected};

use crate::chain::Chain;
use gtid_set::GtidSet;
use gtid_text::Gtid;
use journal::Entry;
use key_table::KeyTable;
use rows::{Key, Schema, keys_touched};
use std::alloc::{AllocError, Global};

/// An entry that is not the next of a key in the journal that is read: another has to come before it.
#[derive(Drop)]
pub(crate) struct OutOfTurn {
    pub(crate) next: Gtid,
    pub(crate) entry: Gtid,
    pub(crate) key: Key,
}

/// The first visit of a key makes its chain.
fn open_chain(
    alloc: Global,
    chains: &mut KeyTable<Key, Chain>,
    key: &Key,
    reader: usize,
    gtid: &Gtid,
) -> Result<Option<Gtid>, AllocError>
    requires { lookup (same_key key.now) chains.old.entries ≡ None }
    ensures chains { OnOk result (IsVisitedAt reader gtid.now key.now chains.old.entries chains.new.entries) }
    ensures found { IfOk result (λ next. next ≡ expected reader gtid.now (chains_of chains.old.entries key.now)) }
{
    let mut chain = Chain::new(alloc);
    let next = chain.visit(reader, gtid)?;
    let key = key.copy()?;
    let Ok(_) = chains.insert(key, chain) else {
        return Err(AllocError);
    };
    Ok(next)
}

/// A journal has a GTID next at a key. The result is what has to come before it, if anything.
fn visit_entry(
    alloc: Global,
    chains: &mut KeyTable<Key, Chain>,
    key: &Key,
    reader: usize,
    gtid: &Gtid,
) -> Result<Option<Gtid>, AllocError>
    ensures chains { OnOk result (IsVisitedAt reader gtid.now key.now chains.old.entries chains.new.entries) }
    ensures found { IfOk result (λ next. next ≡ expected reader gtid.now (chains_of chains.old.entries key.now)) }
{
    let Some(place) = chains.get_index_of(key) else {
        return open_chain(alloc, chains, key, reader, gtid);
    };
    let mut chain = chains.replace_at(place, Chain::new(alloc));
    let next = chain.visit(reader, gtid)?;
    let _emptied = chains.replace_at(place, chain);
    Ok(next)
}

/// The same, of all chains.
#[tactic(auto, using(crate::proofs::Visits::all_visited))]
fn visit_key(
    alloc: Global,
    chains: &mut KeyTable<Key, Chain>,
    key: &Key,
    reader: usize,
    gtid: &Gtid,
) -> Result<Option<Gtid>, AllocError>
    ensures chains { OnOk result (chains_of chains.new.entries ≡ visit_key reader gtid.now key.now (chains_of chains.old.entries)) }
    ensures found { IfOk result (λ next. next ≡ expected reader gtid.now (chains_of chains.old.entries key.now)) }
{
    visit_entry(alloc, chains, key, reader, gtid)
}

/// The first of these keys at which a GTID is out of turn.
fn out_of_keys(
    alloc: Global,
    chains: &mut KeyTable<Key, Chain>,
    keys: &[Key],
    reader: usize,
    gtid: &Gtid,
) -> Result<Option<OutOfTurn>, AllocError>
    ensures chains { IfOk result (λ found. found ≡ None → chains_of chains.new.entries ≡ visit_keys reader gtid.now keys.now (chains_of chains.old.entries)) }
    ensures found { IfOk result (λ found. found ≡ out_of_keys reader gtid.now keys.now (chains_of chains.old.entries)) }
{
    for key in keys {
        if let Some(next) = visit_key(alloc, chains, key, reader, gtid)? {
            let key = key.copy()?;
            let entry = *gtid;
            return Ok(Some(OutOfTurn { next, entry, key }));
        }
    }
    Ok(None)
}

/// The first entry beyond the opening set that is out of turn.
pub(crate) fn out_of_entries(
    alloc: Global,
    chains: &mut KeyTable<Key, Chain>,
    opened: &GtidSet,
    schema: &Schema,
    reader: usize,
    entries: &[Entry],
) -> Result<Option<OutOfTurn>, AllocError>
    ensures chains { IfOk result (λ found. found ≡ None → chains_of chains.new.entries ≡ visit_entries schema.now reader (beyond_opening opened.now entries.now) (chains_of chains.old.entries)) }
    ensures found { IfOk result (λ found. found ≡ out_of_entries schema.now reader (beyond_opening opened.now entries.now) (chains_of chains.old.entries)) }
{
    for entry in entries {
        if opened.contains(&entry.gtid) {
            continue;
        }
        let keys = keys_touched(alloc, schema, &entry.txn)?;
        if let Some(out) = out_of_keys(alloc, chains, &keys, reader, &entry.gtid)? {
            return Ok(Some(out));
        }
    }
    Ok(None)
}
