//! The audit.
ghost use Rattle.std.specs.Prelude.{◌≡◌, IfOk, IfErr, None, true};
ghost use Rattle.world.specs.Search.{or_next};
ghost use Rattle.world.specs.Audit.{unequal, purged, shared, not_closed, found_in_gtids, found_in_keys, verdict, verdict_of_keys};
ghost use Rattle.world.specs.Meaning.{AreJournals};
ghost use Rattle.audit.specs.Ordered.{AreInOrder};
ghost use Rattle.audit.specs.Faults.{IsAuditFault};

use crate::sources::World;
use gtid_set::SetFault;
use journal::Journal;
use std::alloc::{AllocError, Global};
use world::Verdict;

/// What the type `Journal` keeps holds of each journal. (For the proofs of callers.)
pub fn keep_rules(journals: &[Journal])
    ensures { AreJournals journals.now }
{
    for journal in journals {
        journal.keeps_rules();
    }
}

/// A key that two sources touch, or else what is left out of a journal. If journals are in order, nothing is left out of them, and no table
/// of what each transaction needs is made.
fn find_shared_or_left_out(
    alloc: Global,
    world: &World,
    journals: &[Journal],
    ordered: bool,
) -> Result<Option<Verdict>, AllocError>
    requires ordered { ordered ≡ true → AreInOrder world.now.opening_set journals.now }
    requires equal { unequal world.now journals.now ≡ None }
    requires within { purged world.now journals.now ≡ None }
    ensures { IfOk result (λ found. found ≡ or_next (shared world.now) (not_closed world.now journals.now)) }
{
    world.lie_beyond();
    if ordered {
        return world.shared_unless_apart(alloc);
    }
    let needed = world.needs(alloc)?;
    if !needed.apart {
        if let Some(verdict) = world.find_shared(alloc)? {
            return Ok(Some(verdict));
        }
    }
    world.find_not_closed(alloc, &needed.needs, journals)
}

/// What is found without examining a key. If journals are in order, nothing is missing, and there is no search.
fn find_in_gtids(
    alloc: Global,
    world: &World,
    journals: &[Journal],
    ordered: bool,
) -> Result<Option<Verdict>, SetFault>
    requires { ordered ≡ true → AreInOrder world.now.opening_set journals.now }
    ensures found { IfOk result (λ found. found ≡ found_in_gtids world.now journals.now) }
    ensures fault { IfErr result (IsAuditFault world.now.opening_set journals.now) }
{
    if let Some(verdict) = world.find_unequal(journals) {
        return Ok(Some(verdict));
    }
    if let Some(verdict) = world.find_purged(alloc, journals)? {
        return Ok(Some(verdict));
    }
    if ordered {
        return Ok(None);
    }
    Ok(world.find_missing(alloc, journals)?)
}

/// What an audit finds first without examining a key: Unequal, Purged or Missing. The faults are those of `audit_keys`.
pub fn audit_gtids(
    alloc: Global,
    world: &World,
    journals: &[Journal],
) -> Result<Option<Verdict>, SetFault>
    ensures found { IfOk result (λ found. found ≡ found_in_gtids world.now journals.now) }
    ensures fault { IfErr result (IsAuditFault world.now.opening_set journals.now) }
{
    let ordered = world.are_in_order(alloc, journals)?;
    find_in_gtids(alloc, world, journals, ordered)
}

/// What is found without applying a transaction.
fn find_in_keys(
    alloc: Global,
    world: &World,
    journals: &[Journal],
) -> Result<Option<Verdict>, SetFault>
    ensures found { IfOk result (λ found. found ≡ found_in_keys world.now journals.now) }
    ensures fault { IfErr result (IsAuditFault world.now.opening_set journals.now) }
{
    let ordered = world.are_in_order(alloc, journals)?;
    if let Some(verdict) = find_in_gtids(alloc, world, journals, ordered)? {
        return Ok(Some(verdict));
    }
    Ok(find_shared_or_left_out(alloc, world, journals, ordered)?)
}

/// What an audit of the keys of journals finds first. It applies no transaction. `PoolFull` comes only if the set that the verdict would
/// name has more than 4,294,967,294 intervals.
pub fn audit_keys(alloc: Global, world: &World, journals: &[Journal]) -> Result<Verdict, SetFault>
    ensures found { IfOk result (λ found. found ≡ verdict_of_keys world.now journals.now) }
    ensures fault { IfErr result (IsAuditFault world.now.opening_set journals.now) }
{
    let found = find_in_keys(alloc, world, journals)?;
    Ok(found.unwrap_or(Verdict::Sound))
}

/// What an audit of journals finds first. The faults are those of `audit_keys`.
pub fn audit(alloc: Global, world: &World, journals: &[Journal]) -> Result<Verdict, SetFault>
    ensures found { IfOk result (λ found. found ≡ verdict world.now journals.now) }
    ensures fault { IfErr result (IsAuditFault world.now.opening_set journals.now) }
{
    match find_in_keys(alloc, world, journals)? {
        Some(found) => Ok(found),
        None => {
            let fault = world.does_not_apply(alloc)?;
            Ok(fault.unwrap_or(Verdict::Sound))
        }
    }
}
