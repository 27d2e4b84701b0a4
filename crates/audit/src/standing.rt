//! GTIDs that are in a journal.
ghost use Rattle.std.specs.Prelude.{◌≡◌, OnOk};
ghost use Rattle.std.specs.FinSet as set;

use gtid_text::Gtid;
use key_table::KeySet;
use std::alloc::{AllocError, Global};
use std::marker::Model;

/// A set of single GTIDs, of any number of sources.
#[derive(Drop)]
pub(crate) struct GtidTable {
    table: KeySet<Gtid>,
}

impl Model for GtidTable {
    ghost use Rattle.std.specs.FinSet as set;
    ghost use Rattle.gtid_set.specs.Sets.{Gtids, gtids_code};

    ghost Value = { Gtids };

    ghost coded = { gtids_code };

    ghost view = { λ a. set.from_list a.table.keys };
}

impl GtidTable {
    pub(crate) fn new(alloc: Global) -> Self
        ensures { result ≡ set.empty }
    {
        GtidTable {
            table: KeySet::new(alloc),
        }
    }

    pub(crate) fn has(&self, gtid: &Gtid) -> bool
        ensures { result ≡ set.contains self.now gtid.now }
    {
        self.table.contains(gtid)
    }

    pub(crate) fn put(&mut self, gtid: Gtid) -> Result<(), AllocError>
        ensures { OnOk result (self.new ≡ set.insert self.old gtid) }
    {
        self.table.insert(gtid)?;
        Ok(())
    }
}
