//! Transactions that do not apply.
ghost use Rattle.std.specs.Prelude.{◌≡◌, IfOk, None, map};
ghost use Rattle.std.specs.Option.{option_map};
ghost use Rattle.world.specs.declared.verdict.Verdict.TheVariants.{DoesNotApply};
ghost use Rattle.world.specs.Audit.{does_not_apply, first_fault, shared};
ghost use Rattle.audit.specs.Contents.{as_pair};
ghost use Rattle.audit.specs.Worlds.{AllFit};

use crate::sources::World;
use journal::Entry;
use rows::{PrepareFault, Rows};
use std::alloc::{AllocError, Global};
use world::Verdict;

/// The first of these that does not apply when they are applied in order.
fn first_fault(
    alloc: Global,
    rows: &mut Rows,
    entries: &[Entry],
) -> Result<Option<Verdict>, AllocError>
    requires { AllFit rows.old.schema entries.now }
    ensures { IfOk result (λ found. found ≡ option_map (λ fault. DoesNotApply fault.0 fault.1) (first_fault rows.old.schema (map as_pair entries.now) rows.old.rows)) }
{
    for entry in entries {
        match rows.apply_fitting(alloc, &entry.txn) {
            Ok(()) => {}
            Err(PrepareFault::Row(fault)) => {
                return Ok(Some(Verdict::DoesNotApply(entry.gtid, fault)));
            }
            Err(PrepareFault::Memory) => return Err(AllocError),
        }
    }
    Ok(None)
}

impl World {
    /// The first transaction, sources ascending, that fails in its own source's list taken alone.
    pub(crate) fn does_not_apply(&self, alloc: Global) -> Result<Option<Verdict>, AllocError>
        requires { shared self.now ≡ None }
        ensures { IfOk result (λ found. found ≡ does_not_apply self.now) }
    {
        self.lie_beyond();
        let mut rows = self.rows().copy()?;
        first_fault(alloc, &mut rows, self.in_order())
    }
}
