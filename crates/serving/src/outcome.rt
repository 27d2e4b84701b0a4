//! The result of a bundle's journals.
ghost use Rattle.std.specs.Prelude.{◌≡◌, true, IfOk, IfErr, IsOkUnless};
ghost use Rattle.std.specs.List.{list_all};
ghost use Rattle.std.specs.FinSet as set;
ghost use Rattle.gtid_set.specs.declared.fault.SetFault.TheVariants.{Memory};
ghost use Rattle.world.specs.Meaning.{AreJournals};
ghost use Rattle.replica_core.specs.Draining.{AreStoppedOrDone};
ghost use Rattle.serving.specs.Faults.{IsFaultWhere, KnowsToo, IsBundleFault, IsVerdictFault};
ghost use Rattle.serving.specs.Servable.{IsServable, can_be_sent, CanServeEach};
ghost use Rattle.serving.specs.Serving.{opening, ServesEach, IsServed, IsReady, IsRun, IsApplied};
ghost use Rattle.serving.specs.declared.receiving.Apply.TheVariants.{Later};
ghost use Rattle.world.specs.declared.verdict.Verdict.TheVariants.{Sound};
ghost use Rattle.serving.specs.declared.order.Order.TheVariants.{BySource, ByConflict};
ghost use Rattle.serving.specs.Verdicts.{is_sound, world_over, keys_over, verdict_over, audited_over, IsFoundInKeys, IsOfKeys, IsStateOrVerdict, IsVerdictOfKeys, HasMerged, IsConcluded};

use crate::order::Order;
use crate::receiving::{Apply, serve_journals};
use crate::working::finish;
use audit::{
    World, audit_in_order, audit_keys_in_order, audit_keys_of, audit_of, world_of_fitting,
};
use convergence::{
    served_holds_all, served_holds_all_in_order, workers_decide, workers_decide_in_order,
};
use gtid_set::{GtidSet, SetFault};
use journal::Journal;
use replica_core::Core;
use std::alloc::{AllocError, Global};
use txn_journal::Bundle;
use world::Verdict;

/// A state, or why there is none.
#[derive(Drop)]
pub enum StateOrVerdict<S> {
    /// The journals can be merged, by the audit that was made: a replica, or what holds one.
    State(S),
    /// The journals cannot be merged: the verdict of their audit, which is not Sound.
    Verdict(Verdict),
}

/// A bundle can be served, for its type keeps the rules of its format. It does nothing; a proof calls it for its contract.
pub fn keeps_servable(bundle: &Bundle)
    ensures { IsServable bundle.now }
{
    bundle.keeps_rules();
}

fn is_sound(verdict: &Verdict) -> bool
    ensures { result ≡ is_sound verdict.now }
{
    match verdict {
        Verdict::Sound => true,
        _ => false,
    }
}

/// What the type `Journal` keeps holds of each journal.
fn keep_rules(journals: &[Journal])
    ensures { AreJournals journals.now }
{
    for journal in journals {
        journal.keeps_rules();
    }
}

/// The world of a bundle: its opening rows and opening set, and for each GTID of its journals the first content, in order of channels and
/// entries.
pub fn world_of(alloc: Global, bundle: &Bundle) -> Result<World, AllocError>
    ensures { IfOk result (λ world. world ≡ world_over bundle.now) }
{
    keeps_servable(bundle);
    world_of_fitting(
        alloc,
        bundle.opening_set(),
        bundle.rows(),
        bundle.journals(),
    )
}

/// What the audit of the journals' keys finds first over the opening rows, if sources may share no key. If it finds nothing, no world is
/// made.
fn source_keys_verdict(alloc: Global, bundle: &Bundle) -> Result<Verdict, SetFault>
    ensures found { IfOk result (λ found. found ≡ keys_over BySource bundle.now) }
    ensures fault { IfErr result (IsVerdictFault bundle.now) }
{
    keeps_servable(bundle);
    let opened = bundle.opening_set();
    audit_keys_of(alloc, opened, bundle.rows(), bundle.journals())
}

/// What the audit of the journals' keys finds first over the opening rows, if transactions that share a key must be in one order.
fn conflict_keys_verdict(alloc: Global, bundle: &Bundle) -> Result<Verdict, SetFault>
    ensures found { IfOk result (λ found. found ≡ keys_over ByConflict bundle.now) }
    ensures fault { IfErr result (IsVerdictFault bundle.now) }
{
    let world = world_of(alloc, bundle)?;
    let found = audit_keys_in_order(alloc, &world, bundle.journals());
    drop(world);
    found
}

/// What an audit of the journals' keys over the opening rows finds first.
pub(crate) fn keys_verdict(
    alloc: Global,
    bundle: &Bundle,
    order: Order,
) -> Result<Verdict, SetFault>
    ensures found { IfOk result (λ found. found ≡ keys_over order bundle.now) }
    ensures fault { IfErr result (IsVerdictFault bundle.now) }
{
    match order {
        Order::BySource => source_keys_verdict(alloc, bundle),
        Order::ByConflict => conflict_keys_verdict(alloc, bundle),
    }
}

/// What the audit finds first in a bundle's journals, if sources may share no key. If one pass shows that the keys are sound, no world is
/// made.
fn source_verdict(alloc: Global, bundle: &Bundle) -> Result<Verdict, SetFault>
    ensures found { IfOk result (λ found. found ≡ verdict_over BySource bundle.now) }
    ensures fault { IfErr result (IsVerdictFault bundle.now) }
{
    keeps_servable(bundle);
    let opened = bundle.opening_set();
    audit_of(alloc, opened, bundle.rows(), bundle.journals())
}

/// What the audit finds first in a bundle's journals, if transactions that share a key must be in one order.
fn conflict_verdict(alloc: Global, bundle: &Bundle) -> Result<Verdict, SetFault>
    ensures found { IfOk result (λ found. found ≡ verdict_over ByConflict bundle.now) }
    ensures fault { IfErr result (IsVerdictFault bundle.now) }
{
    let world = world_of(alloc, bundle)?;
    let found = audit_in_order(alloc, &world, bundle.journals());
    drop(world);
    found
}

/// What the audit that asks for an order finds first in a bundle's journals over its opening rows and opening set. The error is a failed
/// allocation, or `PoolFull` if the set that the verdict would name has too many intervals.
pub fn verdict_over(alloc: Global, bundle: &Bundle, order: Order) -> Result<Verdict, SetFault>
    ensures found { IfOk result (λ found. found ≡ verdict_over order bundle.now) }
    ensures fault { IfErr result (IsVerdictFault bundle.now) }
{
    match order {
        Order::BySource => source_verdict(alloc, bundle),
        Order::ByConflict => conflict_verdict(alloc, bundle),
    }
}

/// What the audit that asks for an order finds first in a bundle: of its journals' keys alone, where its opening rows aren't known. The
/// error is that of `verdict_over`.
pub fn audited_over(alloc: Global, bundle: &Bundle, order: Order) -> Result<Verdict, SetFault>
    ensures found { IfOk result (λ found. found ≡ audited_over order bundle.now) }
    ensures fault { IfErr result (IsVerdictFault bundle.now) }
{
    if bundle.lacks_rows() {
        keys_verdict(alloc, bundle, order)
    } else {
        verdict_over(alloc, bundle, order)
    }
}

/// What an audit of the journals' keys finds by an order, if that isn't Sound: the whole audit finds it too. It needs nothing of a replica,
/// so that it may run at the same time as `receive_all` or `apply_all`. The faults are those of `begin`.
#[tactic(auto, using(crate::proofs::Runs::keys_found, crate::proofs::Runs::keys_sound))]
pub fn audit_of_keys(
    alloc: Global,
    bundle: &Bundle,
    order: Order,
) -> Result<Option<Verdict>, SetFault>
    ensures found { IfOk result (IsFoundInKeys order bundle.now) }
    ensures keys { IfOk result (IsOfKeys order bundle.now) }
    ensures fault { IfErr result (IsBundleFault bundle.now) }
{
    let keys = keys_verdict(alloc, bundle, order)?;
    if is_sound(&keys) {
        Ok(None)
    } else {
        Ok(Some(keys))
    }
}

/// Whether the previous set of each journal is in a set.
fn have_previous(opened: &GtidSet, journals: &[Journal]) -> bool
    ensures { result ≡ list_all (λ j. set.is_subset j.previous opened.now) journals.now }
{
    journals
        .iter()
        .all(|journal| journal.previous().is_subset(opened))
}

/// Whether each source sends its journal to the replica: what was purged of it is in the opening set. If the audit of keys is Sound, it is.
/// (MySQL 8.0 Reference Manual, "GTID Auto-Positioning".)
pub fn can_be_sent(bundle: &Bundle) -> bool
    ensures { result ≡ can_be_sent bundle.now }
{
    have_previous(bundle.opening_set(), bundle.journals())
}

/// The replica of a bundle, with its opening rows and opening set and no channel yet.
#[tactic(auto, using(txn_journal::proofs::GtidLaws::written_numbers, crate::proofs::Written::opened_written))]
fn open_replica(alloc: Global, bundle: &Bundle) -> Result<Core, SetFault>
    ensures ok { IfOk result (λ core. core ≡ opening bundle.now) }
    ensures fault { IsOkUnless result Memory }
{
    bundle.keeps_rules();
    let rows = bundle.rows().copy()?;
    let executed = bundle.opening_set().copy(alloc)?;
    Core::open_snapshot(alloc, bundle.replica(), rows, executed)
}

/// The replica of a bundle, once it was served all journals.
fn serve_each(alloc: Global, bundle: &Bundle, apply: Apply) -> Result<Core, SetFault>
    requires { CanServeEach 0 bundle.now.channels bundle.now.journals (opening bundle.now) }
    ensures served { IfOk result (ServesEach apply (opening bundle.now) 0 bundle.now.channels bundle.now.journals) }
    ensures fault { IfErr result (IsFaultWhere (KnowsToo (opening bundle.now).state bundle.now.journals)) }
{
    let mut core = open_replica(alloc, bundle)?;
    serve_journals(
        alloc,
        &mut core,
        0,
        bundle.channels(),
        bundle.journals(),
        apply,
    )?;
    Ok(core)
}

/// The replica of a bundle whose sources send their journals, once it was served all of them.
#[tactic(auto, using(crate::proofs::Conditions::can_serve_all))]
fn serve_all(alloc: Global, bundle: &Bundle, apply: Apply) -> Result<Core, SetFault>
    requires { can_be_sent bundle.now ≡ true }
    ensures served { IfOk result (IsServed apply bundle.now) }
    ensures fault { IfErr result (IsBundleFault bundle.now) }
{
    keeps_servable(bundle);
    keep_rules(bundle.journals());
    serve_each(alloc, bundle, apply)
}

/// The replica of a bundle, once each channel was opened and positioned and has received what its journal sends.
/// Nothing is applied, and the keys are not audited. The faults are those of `begin`.
pub fn receive_all(alloc: Global, bundle: &Bundle) -> Result<Core, SetFault>
    requires { can_be_sent bundle.now ≡ true }
    ensures received { IfOk result (IsServed Later bundle.now) }
    ensures fault { IfErr result (IsBundleFault bundle.now) }
{
    serve_all(alloc, bundle, Apply::Later)
}

/// The replica of a bundle, once it was served all journals. Channel by channel, one seat applies each entry on receipt, and at the end
/// what is left: then each channel is stopped, or has executed all that it received. The keys are not audited. The faults are those of
/// `begin`.
#[tactic(auto, using(crate::proofs::Runs::is_applied))]
pub fn apply_all(alloc: Global, bundle: &Bundle) -> Result<Core, SetFault>
    requires { can_be_sent bundle.now ≡ true }
    ensures applied { IfOk result (IsApplied bundle.now) }
    ensures fault { IfErr result (IsBundleFault bundle.now) }
{
    let mut core = serve_all(alloc, bundle, Apply::AtOnce)?;
    finish(alloc, &mut core)?;
    Ok(core)
}

/// Audits the keys of a bundle's journals by an order, opens its replica over the opening rows and set, opens and positions each channel,
/// and lets it receive what its journal sends. If the audit of keys isn't Sound, the result is its verdict, which is that of the whole
/// audit.
///
/// `Memory` is a failed allocation, `SourcesFull` comes only if the GTIDs of all journals together are of more than 65,536 sources, and
/// `PoolFull` only if the intervals of the opening set and of the previous sets and the entries are together more than 4,294,967,294.
#[tactic(auto, using(crate::proofs::Conditions::sound_is_sent))]
pub fn begin(alloc: Global, bundle: &Bundle, order: Order) -> Result<StateOrVerdict<Core>, SetFault>
    ensures begun { IfOk result (IsStateOrVerdict (IsReady order bundle.now) order bundle.now) }
    ensures keys { IfOk result (IsVerdictOfKeys order bundle.now) }
    ensures fault { IfErr result (IsBundleFault bundle.now) }
{
    if let Some(verdict) = audit_of_keys(alloc, bundle, order)? {
        return Ok(StateOrVerdict::Verdict(verdict));
    }
    let core = receive_all(alloc, bundle)?;
    Ok(StateOrVerdict::State(core))
}

/// The result of a replica that was served all journals, once each of its channels is stopped or has executed all that it received: nothing
/// if all is executed, or else the verdict of the audit, which isn't Sound then. The faults are those of `verdict_over`.
pub fn conclude(
    alloc: Global,
    bundle: &Bundle,
    order: Order,
    core: &Core,
) -> Result<Option<Verdict>, SetFault>
    requires run { IsRun order bundle.now core.now }
    requires ends { AreStoppedOrDone core.now.state }
    ensures found { IfOk result (IsConcluded order bundle.now core.now) }
    ensures fault { IfErr result (IsVerdictFault bundle.now) }
{
    workers_decide();
    served_holds_all();
    workers_decide_in_order();
    served_holds_all_in_order();
    keep_rules(bundle.journals());
    if core.is_drained() {
        return Ok(None);
    }
    let verdict = verdict_over(alloc, bundle, order)?;
    Ok(Some(verdict))
}

/// The result of a replica to which all journals were applied (`apply_all`), if the audit of their keys is Sound (`audit_of_keys`): the
/// replica if all is executed, or else the verdict of the audit. The faults are those of `verdict_over`.
#[tactic(auto, using(crate::proofs::Runs::applied_is_run))]
pub fn conclude_applied(
    alloc: Global,
    bundle: &Bundle,
    order: Order,
    core: Core,
) -> Result<StateOrVerdict<Core>, SetFault>
    requires sound { keys_over order bundle.now ≡ Sound }
    requires applied { IsApplied bundle.now core }
    ensures found { IfOk result (IsStateOrVerdict (HasMerged order bundle.now) order bundle.now) }
    ensures fault { IfErr result (IsVerdictFault bundle.now) }
{
    let concluded = conclude(alloc, bundle, order, &core);
    match concluded {
        Ok(None) => Ok(StateOrVerdict::State(core)),
        Ok(Some(verdict)) => {
            drop(core);
            Ok(StateOrVerdict::Verdict(verdict))
        }
        Err(fault) => {
            drop(core);
            Err(fault)
        }
    }
}

/// The result of a bundle's journals over its opening rows and set: all of them executed together, or the verdict of their audit, if that
/// is not Sound. It is made of `audit_of_keys`, `apply_all` and `conclude_applied`: if not everything was executed, the audit gives the
/// reason. The faults are those of `begin`.
#[tactic(auto, using(crate::proofs::Conditions::sound_is_sent))]
pub fn serve(alloc: Global, bundle: &Bundle, order: Order) -> Result<StateOrVerdict<Core>, SetFault>
    ensures served { IfOk result (IsStateOrVerdict (HasMerged order bundle.now) order bundle.now) }
    ensures fault { IfErr result (IsBundleFault bundle.now) }
{
    if let Some(verdict) = audit_of_keys(alloc, bundle, order)? {
        return Ok(StateOrVerdict::Verdict(verdict));
    }
    let core = apply_all(alloc, bundle)?;
    Ok(conclude_applied(alloc, bundle, order, core)?)
}
