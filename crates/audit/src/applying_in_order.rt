//! The order applied as a whole.
ghost use Rattle.std.specs.Prelude.{◌≡◌, IfOk, None, Ok};
ghost use Rattle.std.specs.Option.{option_map};
ghost use Rattle.rows.specs.Apply.{apply};
ghost use Rattle.rows.specs.Fits.{Fits};
ghost use Rattle.world.specs.declared.verdict.Verdict.TheVariants.{DoesNotApply};
ghost use Rattle.world.specs.Audit.{first_fault};
ghost use Rattle.audit.specs.Applying.{AllTaken, refusal};

use gtid_text::Gtid;
use key_table::KeyTable;
use rows::{PrepareFault, Rows, Transaction};
use std::alloc::{AllocError, Global};
use world::Verdict;

/// Applies a transaction; the verdict if it is refused.
fn apply_one(
    alloc: Global,
    rows: &mut Rows,
    gtid: &Gtid,
    txn: &Transaction,
) -> Result<Option<Verdict>, AllocError>
    requires { Fits rows.old.schema txn.now }
    ensures found { IfOk result (λ found. found ≡ refusal gtid.now (apply rows.old.schema txn.now rows.old.rows)) }
    ensures rows { IfOk result (λ found. found ≡ None → apply rows.old.schema txn.now rows.old.rows ≡ Ok rows.new.rows) }
    ensures schema { rows.new.schema ≡ rows.old.schema }
{
    match rows.apply_fitting(alloc, txn) {
        Ok(()) => Ok(None),
        Err(PrepareFault::Row(fault)) => Ok(Some(Verdict::DoesNotApply(*gtid, fault))),
        Err(PrepareFault::Memory) => Err(AllocError),
    }
}

/// The first transaction of an order that does not apply when all are applied in that order.
pub(crate) fn first_refusal(
    alloc: Global,
    rows: &mut Rows,
    order: &KeyTable<Gtid, Transaction>,
) -> Result<Option<Verdict>, AllocError>
    requires { AllTaken rows.old.schema order.now.entries }
    ensures { IfOk result (λ found. found ≡ option_map (λ fault. DoesNotApply fault.0 fault.1) (first_fault rows.old.schema order.now.entries rows.old.rows)) }
{
    for place in 0..order.len() {
        let (gtid, txn) = &order.as_slice()[place];
        if let Some(verdict) = apply_one(alloc, rows, gtid, txn)? {
            return Ok(Some(verdict));
        }
    }
    Ok(None)
}
