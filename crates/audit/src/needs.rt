//! The transactions that must come before each transaction.
ghost use Rattle.std.specs.Prelude.{◌≡◌, IfOk, OnOk, map, true, None};
ghost use Rattle.std.specs.Option.{option_copied};
ghost use Rattle.std.specs.FinMap as finmap;
ghost use Rattle.audit.specs.Contents.{as_pair};
ghost use Rattle.world.specs.Folds.{shared_from};
ghost use Rattle.audit.specs.Gaps.{needs_over};

use crate::touches::Touches;
use gtid_text::Gtid;
use journal::Entry;
use key_table::KeyTable;
use rows::{Schema, keys_touched};
use std::alloc::{AllocError, Global};
use std::marker::Model;

/// Some GTIDs.
#[derive(Drop)]
pub(crate) struct GtidList {
    gtids: Vec<Gtid>,
}

impl Model for GtidList {
    ghost use Rattle.std.specs.Prelude.{List};
    ghost use Rattle.gtid_text.specs.declared.Gtid.{Gtid};

    ghost Value = { List Gtid };

    ghost view = { λ a. a.gtids.items };
}

impl GtidList {
    /// The GTIDs, in order.
    pub(crate) fn as_slice(&self) -> &[Gtid]
        ensures { result.now ≡ self.now }
    {
        &self.gtids
    }
}

/// For each GTID the earlier ones of its source that touched its keys last.
#[derive(Drop)]
pub(crate) struct Needs {
    table: KeyTable<Gtid, GtidList>,
}

impl Model for Needs {
    ghost use Rattle.std.specs.FinMap as finmap;
    ghost use Rattle.audit.specs.Gaps.{Needs, needs_code};

    ghost Value = { Needs };

    ghost coded = { needs_code };

    ghost view = { λ a. finmap.from_entries a.table.entries };
}

impl Needs {
    fn new(alloc: Global) -> Self
        ensures { result ≡ finmap.empty }
    {
        Needs {
            table: KeyTable::new(alloc),
        }
    }

    /// What a GTID needs.
    pub(crate) fn get(&self, gtid: &Gtid) -> Option<&GtidList>
        ensures { option_copied result ≡ finmap.get self.now gtid.now }
    {
        self.table.get(gtid)
    }

    fn put(&mut self, gtid: Gtid, gtids: Vec<Gtid>) -> Result<(), AllocError>
        ensures { OnOk result (self.new ≡ finmap.insert self.old gtid gtids.items) }
    {
        match self.table.insert(gtid, GtidList { gtids }) {
            Ok(_) => Ok(()),
            Err(_) => Err(AllocError),
        }
    }
}

/// What entries need, and whether no key of theirs is touched by two sources.
#[derive(Drop)]
pub(crate) struct Needed {
    pub(crate) needs: Needs,
    pub(crate) apart: bool,
}

/// What each of these entries needs, and whether their sources are found to touch no key in common.
pub(crate) fn needs_of(
    alloc: Global,
    schema: &Schema,
    entries: &[Entry],
) -> Result<Needed, AllocError>
    ensures needs { IfOk result (λ found. found.needs ≡ needs_over schema.now finmap.empty finmap.empty (map as_pair entries.now)) }
    ensures apart { IfOk result (λ found. found.apart ≡ true → shared_from schema.now finmap.empty (map as_pair entries.now) ≡ None) }
{
    let mut last = Touches::new(alloc);
    let mut needs = Needs::new(alloc);
    let mut apart = true;
    for entry in entries {
        let keys = keys_touched(alloc, schema, &entry.txn)?;
        let (earlier, own) = last.last_of_keys(alloc, &entry.gtid, &keys)?;
        apart = apart && own;
        needs.put(entry.gtid, earlier)?;
        last.touch_last(&entry.gtid, keys)?;
    }
    Ok(Needed { needs, apart })
}
