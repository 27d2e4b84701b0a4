//! Transactions that are prepared without a lock on the rows, and installed if the rows that they saw are unchanged.

ghost use Rattle.std.specs.Prelude.{◌≡◌, IfOk};
ghost use Rattle.rows.specs.Apply.{apply};
ghost use Rattle.rows.specs.Fits.{Fits, table_of};
ghost use Rattle.rows.specs.Keys.{find_table};
ghost use Rattle.rows.specs.Patch.{SeesAll, IsRefused};
ghost use Rattle.rows.specs.Prepared.{Applies, same_table, same_tables};
ghost use Rattle.rows.specs.declared.change.RowFault.{RowFault};

use crate::change::{Change, PrepareFault, Transaction};
use crate::name::Name;
use crate::patch::{Seen, Touch};
use crate::preparing::prepare as prepare_touches;
use crate::schema::Schema;
use std::alloc::Global;
use std::marker::Model;

/// Keys, each with the row that carried it, and the schema of these rows.
#[derive(Drop)]
pub struct Footprint {
    pub(crate) schema: Schema,
    pub(crate) seen: Vec<Seen>,
}

impl Model for Footprint {
    ghost use Rattle.rows.specs.Prepared.{Sight};

    ghost Value = { Sight };

    ghost view = { λ f. record { schema = f.schema; seen = f.seen.items } };
}

/// A transaction, the rows that it saw, and those that it leaves.
#[derive(Drop)]
pub struct Patch {
    pub(crate) schema: Schema,
    pub(crate) txn: Transaction,
    pub(crate) touches: Vec<Touch>,
}

impl Model for Patch {
    ghost use Rattle.rows.specs.Patch.{footprint_of};
    ghost use Rattle.rows.specs.Prepared.{Plan, IsPrepared};

    ghost Value = { Plan };

    ghost view = { λ p. record { schema = p.schema; txn = p.txn; seen = footprint_of p.touches.items } };

    ghost invariant = { λ p. IsPrepared p.schema p.txn p.touches.items };
}

impl Patch {
    /// The transaction that was prepared.
    pub fn transaction(&self) -> &Transaction
        ensures { result.now ≡ self.now.txn }
    {
        &self.txn
    }
}

/// What a transaction does to rows that are as they were seen. It takes no lock.
pub fn prepare(alloc: Global, txn: Transaction, footprint: Footprint) -> Result<Patch, PrepareFault>
    requires fits { Fits footprint.schema txn }
    requires all { SeesAll footprint.schema txn footprint.seen }
    ensures ok { IfOk result (λ patch. patch ≡ record { schema = footprint.schema; txn = txn; seen = footprint.seen }) }
    ensures applies { IfOk result (λ _. Applies footprint txn) }
    ensures refused { (fault : RowFault) → result ≡ Err (PrepareFault.Row fault) → IsRefused footprint.schema txn footprint.seen fault }
{
    let Footprint { schema, seen } = footprint;
    match prepare_touches(alloc, &schema, &txn, seen) {
        Ok(touches) => Ok(Patch {
            schema,
            txn,
            touches,
        }),
        Err(refusal) => Err(refusal),
    }
}

/// Whether both schemas have the same table of a name, or none.
fn is_same_table(a: &Schema, b: &Schema, name: &Name) -> bool
    ensures { result ≡ same_table (find_table name.now a.now) (find_table name.now b.now) }
{
    match (a.find(name), b.find(name)) {
        (None, None) => true,
        (Some(x), Some(y)) => *x == *y,
        _ => false,
    }
}

/// Whether both schemas have the same tables under the names of these changes.
pub(crate) fn are_same_tables(a: &Schema, b: &Schema, changes: &[Change]) -> bool
    ensures { result ≡ same_tables a.now b.now changes.now }
{
    for change in changes {
        if !is_same_table(a, b, change.table()) {
            return false;
        }
    }
    true
}
