//! What an audit of a bundle lists.
ghost use Rattle.std.specs.Prelude.{IfOk, IfErr};
ghost use Rattle.audit.specs.Others.{HoldsFaults};
ghost use Rattle.serving.specs.Listing.{IsFaultsFault, faults_over, faults_known};

use crate::order::Order;
use crate::outcome::{keys_verdict, world_of};
use audit::{AllFaults, audit_all};
use gtid_set::SetFault;
use std::alloc::Global;
use txn_journal::Bundle;

/// The verdict of `verdict_over`, and after it each other GTID under which journals differ, each other journal that begins after the
/// opening set, each other missing GTID, each other shared key, each other GTID that is in a journal without what it needs and, if by the
/// verdict a transaction does not apply, each other source of which one does not (`audit::faults_are_all`). The faults are those of
/// `audit::audit_all`.
pub fn faults_over(alloc: Global, bundle: &Bundle) -> Result<AllFaults, SetFault>
    ensures found { IfOk result (λ all. HoldsFaults all (faults_over bundle.now)) }
    ensures fault { IfErr result (IsFaultsFault bundle.now) }
{
    let world = world_of(alloc, bundle)?;
    let found = audit_all(alloc, &world, bundle.journals());
    drop(world);
    found
}

/// What `faults_over` lists, without what the application of transactions finds where the opening rows aren't known. The faults are those of
/// `faults_over`.
pub fn faults_known(alloc: Global, bundle: &Bundle) -> Result<AllFaults, SetFault>
    ensures found { IfOk result (λ all. HoldsFaults all (faults_known bundle.now)) }
    ensures fault { IfErr result (IsFaultsFault bundle.now) }
{
    let mut all = faults_over(alloc, bundle)?;
    if bundle.lacks_rows() {
        all.verdict = keys_verdict(alloc, bundle, Order::BySource)?;
        all.does_not_apply = Vec::new(alloc);
    }
    Ok(all)
}
