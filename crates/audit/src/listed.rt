//! What journals bring first, as references in the order of GTIDs.
ghost use Rattle.std.specs.Prelude.{◌≡◌, IfOk, map, true};
ghost use Rattle.std.specs.Option.{option_map, unwrap_or};
ghost use Rattle.world.specs.declared.verdict.Verdict.TheVariants.{DoesNotApply, Sound};
ghost use Rattle.world.specs.Audit.{first_fault};
ghost use Rattle.audit.specs.Contents.{IsAscending, as_pair};
ghost use Rattle.audit.specs.Worlds.{AllFit};

use journal::Entry;
use rows::{PrepareFault, Rows};
use std::alloc::{AllocError, Global};
use world::Verdict;

/// Whether the GTIDs of entries are ascending, none of them twice.
pub(crate) fn are_ascending(entries: &[&Entry]) -> bool
    ensures { result ≡ true → IsAscending (map (λ e. e.now) entries.now) }
{
    entries.is_sorted_by(|a, b| a.gtid < b.gtid)
}

/// The first of these that does not apply when they are applied in order.
fn first_listed_fault(
    alloc: Global,
    rows: &mut Rows,
    entries: &[&Entry],
) -> Result<Option<Verdict>, AllocError>
    requires { AllFit rows.old.schema (map (λ e. e.now) entries.now) }
    ensures { IfOk result (λ found. found ≡ option_map (λ fault. DoesNotApply fault.0 fault.1) (first_fault rows.old.schema (map as_pair (map (λ e. e.now) entries.now)) rows.old.rows)) }
{
    for entry in entries {
        match rows.apply_fitting(alloc, &entry.txn) {
            Ok(()) => {}
            Err(PrepareFault::Row(fault)) => {
                return Ok(Some(Verdict::DoesNotApply(entry.gtid, fault)));
            }
            Err(PrepareFault::Memory) => return Err(AllocError),
        }
    }
    Ok(None)
}

/// The verdict on entries whose keys are sound: they are applied to a copy of rows, one after another.
pub(crate) fn verdict_applied(
    alloc: Global,
    rows: &Rows,
    entries: &[&Entry],
) -> Result<Verdict, AllocError>
    requires { AllFit rows.now.schema (map (λ e. e.now) entries.now) }
    ensures { IfOk result (λ found. found ≡ unwrap_or (option_map (λ fault. DoesNotApply fault.0 fault.1) (first_fault rows.now.schema (map as_pair (map (λ e. e.now) entries.now)) rows.now.rows)) Sound) }
{
    let mut rows = rows.copy()?;
    let found = first_listed_fault(alloc, &mut rows, entries)?;
    Ok(found.unwrap_or(Verdict::Sound))
}
