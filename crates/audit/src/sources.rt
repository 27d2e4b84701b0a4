//! What sources committed, as their journals bring it.
ghost use Rattle.std.specs.Prelude.{◌≡◌, IfOk, IfErr, OnOk};
ghost use Rattle.world.specs.Audit.{all_entries, first_contents, world_of};
ghost use Rattle.audit.specs.Contents.{in_order};
ghost use Rattle.audit.specs.Worlds.{AllFit, IsKept, IsMisfit, IsWorldFault, IsWorldOf, LieBeyond};

use crate::contents::Contents;
use crate::finding::keep_rules;
use gtid_set::GtidSet;
use gtid_text::Gtid;
use journal::{Entry, Journal};
use rows::{NotInSchema, Rows, Schema, fits};
use std::alloc::{AllocError, Global};
use std::marker::Model;

/// The opening set and rows of a replica, and for each GTID beyond that set the first transaction
/// that some journals bring. Each transaction fits the schema of the rows, and each number is 1 or greater.
pub struct World {
    opened: GtidSet,
    rows: Rows,
    contents: Contents,
}

impl Drop for World {
    // (by hand: for a caller the end of a World is one call)
    fn drop(self) {
        let World {
            opened: _opened,
            rows: _rows,
            contents: _contents,
        } = self;
    }
}

impl Model for World {
    ghost use Rattle.history.specs.Sources.{World};
    ghost use Rattle.audit.specs.Contents.{in_order, world_code};
    ghost use Rattle.audit.specs.Worlds.{AllFit, LieBeyond};

    ghost Value = { World };

    ghost coded = { world_code };

    ghost view = { λ a. record { schema = a.rows.schema; opening_set = a.opened; opening_rows = a.rows.rows; contents = a.contents } };

    ghost invariant = { λ a. AllFit a.rows.schema (in_order a.contents) × LieBeyond a.opened a.contents };
}

impl World {
    /// The set that was executed from the start.
    pub fn opening_set(&self) -> &GtidSet
        ensures { result.now ≡ self.now.opening_set }
    {
        &self.opened
    }

    /// The opening rows.
    pub fn rows(&self) -> &Rows
        ensures schema { result.now.schema ≡ self.now.schema }
        ensures rows { result.now.rows ≡ self.now.opening_rows }
    {
        &self.rows
    }

    /// The transactions.
    pub(crate) fn contents(&self) -> &Contents
        ensures { result.now ≡ self.now.contents }
    {
        &self.contents
    }

    /// The transactions, in the order of GTIDs; each fits the schema of the rows.
    pub fn in_order(&self) -> &[Entry]
        ensures { IsKept self.now.schema self.now.contents result.now }
    {
        self.contents.in_order()
    }

    /// The opening set has none of the transactions' GTIDs, and their numbers begin with 1. (The type keeps it;
    /// for the proofs of callers.)
    pub fn lie_beyond(&self)
        ensures { LieBeyond self.now.opening_set self.now.contents }
    {
        let _ = &self.opened;
    }
}

/// Why journals have no world.
#[derive(Clone, Copy, Debug, Drop, PartialEq, Eq)]
pub enum WorldFault {
    /// Out of memory.
    Memory,
    /// The schema does not take the transaction of this GTID.
    NotInSchema(Gtid, NotInSchema),
}

/// The world of an opening set, rows, and transactions that journals bring beyond that set.
fn enclose(
    alloc: Global,
    opened: &GtidSet,
    rows: &Rows,
    contents: Contents,
    journals: &[Journal],
) -> Result<World, AllocError>
    requires brought { contents ≡ first_contents opened.now (all_entries journals.now) }
    requires fitting { AllFit rows.now.schema (in_order contents) }
    ensures ok { IfOk result (λ world. world ≡ world_of rows.now.schema opened.now rows.now.rows journals.now) }
    ensures of_journals { IfOk result (λ world. IsWorldOf world journals.now) }
{
    keep_rules(journals);
    let Ok(opened) = opened.copy(alloc) else {
        return Err(AllocError);
    };
    let rows = rows.copy()?;
    Ok(World {
        opened,
        rows,
        contents,
    })
}

/// The world of journals over an opening set and rows: for each GTID beyond that set the first
/// transaction, in order of journals and entries.
pub fn world_of(
    alloc: Global,
    opened: &GtidSet,
    rows: &Rows,
    journals: &[Journal],
) -> Result<World, WorldFault>
    ensures ok { IfOk result (λ world. world ≡ world_of rows.now.schema opened.now rows.now.rows journals.now) }
    ensures of_journals { IfOk result (λ world. IsWorldOf world journals.now) }
    ensures unfit { IfErr result (IsWorldFault rows.now.schema opened.now journals.now) }
{
    let Ok(contents) = Contents::of_journals(alloc, opened, journals) else {
        return Err(WorldFault::Memory);
    };
    if let Err((gtid, fault)) = all_fit(rows.schema(), contents.in_order()) {
        return Err(WorldFault::NotInSchema(gtid, fault));
    }
    match enclose(alloc, opened, rows, contents, journals) {
        Ok(world) => Ok(world),
        Err(_) => Err(WorldFault::Memory),
    }
}

/// The world of journals over an opening set and rows whose schema takes each transaction beyond that set. Whether it does is not tested
/// again.
pub fn world_of_fitting(
    alloc: Global,
    opened: &GtidSet,
    rows: &Rows,
    journals: &[Journal],
) -> Result<World, AllocError>
    requires { AllFit rows.now.schema (in_order (first_contents opened.now (all_entries journals.now))) }
    ensures ok { IfOk result (λ world. world ≡ world_of rows.now.schema opened.now rows.now.rows journals.now) }
    ensures of_journals { IfOk result (λ world. IsWorldOf world journals.now) }
{
    let contents = Contents::of_journals(alloc, opened, journals)?;
    enclose(alloc, opened, rows, contents, journals)
}

/// Whether a schema takes each transaction; else the first that it does not take, and why.
fn all_fit(schema: &Schema, entries: &[Entry]) -> Result<(), (Gtid, NotInSchema)>
    ensures ok { OnOk result (AllFit schema.now entries.now) }
    ensures unfit { (g : Gtid) (fault : NotInSchema) → result ≡ Err (g, fault) → IsMisfit schema.now entries.now g fault }
{
    for entry in entries {
        if let Err(fault) = fits(schema, &entry.txn) {
            return Err((entry.gtid, fault));
        }
    }
    Ok(())
}
