//! Which GTID touched a key.
ghost use Rattle.std.specs.Prelude.{◌≡◌, ◌++◌, IfOk, OnOk, is_some};
ghost use Rattle.std.specs.List.{list_all, list_any, flat_map};
ghost use Rattle.std.specs.Option.{option_copied};
ghost use Rattle.std.specs.FinMap as finmap;
ghost use Rattle.rows.specs.WriteSet.{write_set};
ghost use Rattle.world.specs.Search.{first};
ghost use Rattle.world.specs.Folds.{touched_by, shares_with};
ghost use Rattle.audit.specs.Gaps.{touch_last, last_of_keys, is_own};

use gtid_text::Gtid;
use key_table::KeyTable;
use rows::{Key, Schema, Transaction, keys_touched};
use std::alloc::{AllocError, Global};
use std::marker::Model;
use world::Verdict;

/// A GTID that touched each key.
#[derive(Drop)]
pub(crate) struct Touches {
    last: KeyTable<Key, Gtid>,
}

impl Model for Touches {
    ghost use Rattle.std.specs.FinMap as finmap;
    ghost use Rattle.world.specs.Folds.{FirstTouch};
    ghost use Rattle.audit.specs.Contents.{touch_code};

    ghost Value = { FirstTouch };

    ghost coded = { touch_code };

    ghost view = { λ a. finmap.from_entries a.last.entries };
}

impl Touches {
    pub(crate) fn new(alloc: Global) -> Self
        ensures { result ≡ finmap.empty }
    {
        Touches {
            last: KeyTable::new(alloc),
        }
    }

    pub(crate) fn get(&self, key: &Key) -> Option<&Gtid>
        ensures { option_copied result ≡ finmap.get self.now key.now }
    {
        self.last.get(key)
    }

    pub(crate) fn put(&mut self, key: Key, gtid: &Gtid) -> Result<(), AllocError>
        ensures { OnOk result (self.new ≡ finmap.insert self.old key gtid.now) }
    {
        let Ok(_) = self.last.insert(key, *gtid) else {
            return Err(AllocError);
        };
        Ok(())
    }

    /// A GTID touches keys; what touched them before stays.
    pub(crate) fn touch_first(&mut self, gtid: &Gtid, keys: Vec<Key>) -> Result<(), AllocError>
        ensures { OnOk result (self.new ≡ touched_by gtid.now keys.items self.old) }
    {
        for key in keys {
            if self.get(&key).is_none() {
                self.put(key, gtid)?;
            }
        }
        Ok(())
    }

    /// A GTID touches keys, in the place of what touched them before.
    pub(crate) fn touch_last(&mut self, gtid: &Gtid, keys: Vec<Key>) -> Result<(), AllocError>
        ensures { OnOk result (self.new ≡ touch_last gtid.now keys.items self.old) }
    {
        for key in keys {
            self.put(key, gtid)?;
        }
        Ok(())
    }

    /// The first of these keys that a smaller source touched, with both GTIDs.
    pub(crate) fn shared_key(&self, gtid: Gtid, keys: &[Key]) -> Result<Option<Verdict>, AllocError>
        ensures { IfOk result (λ found. found ≡ first (λ key. shares_with gtid key (finmap.get self.now key)) keys.now) }
    {
        for key in keys {
            if let Some(before) = self.get(key) {
                if before.source < gtid.source {
                    let key = key.clone()?;
                    return Ok(Some(Verdict::Shared(*before, gtid, key)));
                }
            }
        }
        Ok(None)
    }

    /// What touched each of these keys, if it is of the same source; and whether all that touched them is.
    pub(crate) fn last_of_keys(
        &self,
        alloc: Global,
        gtid: &Gtid,
        keys: &[Key],
    ) -> Result<(Vec<Gtid>, bool), AllocError>
        ensures list { IfOk result (λ found. found.0.items ≡ last_of_keys gtid.now keys.now self.now) }
        ensures own { IfOk result (λ found. found.1 ≡ list_all (is_own gtid.now self.now) keys.now) }
    {
        let mut list = Vec::new(alloc);
        let mut own = true;
        for key in keys {
            if let Some(before) = self.get(key) {
                if before.source == gtid.source {
                    list.push(*before)?;
                } else {
                    own = false;
                }
            }
        }
        Ok((list, own))
    }

    pub(crate) fn has(&self, key: &Key) -> bool
        ensures { result ≡ is_some (finmap.get self.now key.now) }
    {
        self.get(key).is_some()
    }

    fn has_any(&self, keys: &[Key]) -> bool
        ensures { result ≡ list_any (λ key. is_some (finmap.get self.now key)) keys.now }
    {
        keys.iter().any(|key| self.has(key))
    }

    /// Whether a transaction touches one of the keys.
    pub(crate) fn shares(
        &self,
        alloc: Global,
        schema: &Schema,
        txn: &Transaction,
    ) -> Result<bool, AllocError>
        ensures { IfOk result (λ yes. yes ≡ list_any (λ key. is_some (finmap.get self.now key)) (write_set schema.now txn.now)) }
    {
        let keys = keys_touched(alloc, schema, txn)?;
        Ok(self.has_any(&keys))
    }
}
