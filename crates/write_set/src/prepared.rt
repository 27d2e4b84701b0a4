//! Footprints of write sets, and patches that are installed if they are still valid.

ghost use Rattle.std.specs.Prelude.{◌≡◌, IfOk, Ok, OnErr};
ghost use Rattle.rows.specs.Apply.{apply};
ghost use Rattle.rows.specs.Patch.{seen_of_keys};
ghost use Rattle.rows.specs.Prepared.{IsStillTrue};
ghost use Rattle.write_set.specs.Seeing.{SeesAllOf};

use key_table::KeySet;
use rows::{Footprint, InstallOutcome, Key, Patch, Rows};
use std::alloc::{AllocError, Global};

/// Each of these keys with the row that carries it, or none, and the tables. For the keys of a transaction it is all
/// that `prepare` needs. The images are shared.
pub fn footprint(alloc: Global, rows: &Rows, keys: KeySet<Key>) -> Result<Footprint, AllocError>
    ensures schema { IfOk result (λ footprint. footprint.schema ≡ rows.now.schema) }
    ensures seen { IfOk result (λ footprint. footprint.seen ≡ seen_of_keys rows.now.rows keys.keys) }
    ensures all { IfOk result (λ footprint. SeesAllOf rows.now.schema keys.keys footprint.seen) }
{
    rows.footprint(alloc, keys.into_keys()?)
}

/// Does what a patch's transaction does, unless a row or a table of its footprint is not as it was: then it is
/// stale, and the rows are unchanged. After a failed allocation they are unchanged too.
pub fn install(rows: &mut Rows, patch: Patch) -> Result<InstallOutcome, AllocError>
    ensures installed { result ≡ Ok InstallOutcome.Installed → IsStillTrue patch rows.old }
    ensures applied { result ≡ Ok InstallOutcome.Installed → apply rows.old.schema patch.txn rows.old.rows ≡ Ok rows.new.rows }
    ensures same { rows.new.schema ≡ rows.old.schema }
    ensures stale { result ≡ Ok InstallOutcome.Stale → (IsStillTrue patch rows.old → ⊥) × (rows.new ≡ rows.old) }
    ensures err { OnErr result (rows.new ≡ rows.old) }
{
    rows.install(patch)
}
