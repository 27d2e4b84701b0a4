//! The audit in one order.
ghost use Rattle.std.specs.Prelude.{◌≡◌, IfOk, IfErr, None};
ghost use Rattle.world.specs.Audit.{unequal};
ghost use Rattle.world.specs.Meaning.{AreJournals};
ghost use Rattle.audit.specs.Faults.{IsAuditFault};
ghost use Rattle.world.specs.AuditInOrder.{fails_in_order, found_in_keys_in_order, verdict_of_keys_in_order, verdict_in_order};

use crate::applying_in_order::first_refusal;
use crate::conflict::first_conflict;
use crate::finding::{audit_gtids, keep_rules};
use crate::joined::join_journals;
use crate::sources::World;
use gtid_set::SetFault;
use journal::Journal;
use std::alloc::{AllocError, Global};
use world::Verdict;

/// What is found without applying a transaction.
fn find_in_keys(
    alloc: Global,
    world: &World,
    journals: &[Journal],
) -> Result<Option<Verdict>, SetFault>
    ensures found { IfOk result (λ found. found ≡ found_in_keys_in_order world.now journals.now) }
    ensures fault { IfErr result (IsAuditFault world.now.opening_set journals.now) }
{
    keep_rules(journals);
    if let Some(verdict) = audit_gtids(alloc, world, journals)? {
        return Ok(Some(verdict));
    }
    Ok(first_conflict(alloc, world, journals)?)
}

/// The first transaction of the journals' joined order that does not apply, from the opening rows on.
fn fails_in_order(
    alloc: Global,
    world: &World,
    journals: &[Journal],
) -> Result<Option<Verdict>, AllocError>
    requires { unequal world.now journals.now ≡ None }
    ensures { IfOk result (λ found. found ≡ fails_in_order world.now journals.now) }
{
    keep_rules(journals);
    let _fitting = world.in_order();
    let order = join_journals(alloc, world.opening_set(), journals)?;
    let mut rows = world.rows().copy()?;
    first_refusal(alloc, &mut rows, &order)
}

/// What an audit of the keys of journals in one order finds first: Unequal, Purged, Missing, or else Reordered, NotClosed or Concurrent. It
/// applies no transaction. `PoolFull` comes only if the set that the verdict would name has more than 4,294,967,294 intervals. (Our own
/// rule.)
pub fn audit_keys_in_order(
    alloc: Global,
    world: &World,
    journals: &[Journal],
) -> Result<Verdict, SetFault>
    ensures found { IfOk result (λ found. found ≡ verdict_of_keys_in_order world.now journals.now) }
    ensures fault { IfErr result (IsAuditFault world.now.opening_set journals.now) }
{
    let found = find_in_keys(alloc, world, journals)?;
    Ok(found.unwrap_or(Verdict::Sound))
}

/// What an audit of journals in one order finds first: what `audit_keys_in_order` finds, or else
/// DoesNotApply. The faults are those of `audit_keys_in_order`. (Our own rule.)
pub fn audit_in_order(
    alloc: Global,
    world: &World,
    journals: &[Journal],
) -> Result<Verdict, SetFault>
    ensures found { IfOk result (λ found. found ≡ verdict_in_order world.now journals.now) }
    ensures fault { IfErr result (IsAuditFault world.now.opening_set journals.now) }
{
    match find_in_keys(alloc, world, journals)? {
        Some(found) => Ok(found),
        None => {
            let fault = fails_in_order(alloc, world, journals)?;
            Ok(fault.unwrap_or(Verdict::Sound))
        }
    }
}
