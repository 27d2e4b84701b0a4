//! Channels that receive what sources send.
ghost use Rattle.std.specs.Prelude.{◌≡◌, [], ◌∷◌, IfOk, IfErr, OnOk, IsOkUnless, nat_lt, true, length, Ok, None};
ghost use Rattle.std.specs.List.{list_all};
ghost use Rattle.std.specs.FinSet as set;
ghost use Rattle.gtid_set.specs.declared.fault.SetFault.TheVariants.{Memory};
ghost use Rattle.auto_position.specs.Sending.{IsRefusal, IsPlanFault, sent};
ghost use Rattle.serving.specs.Faults.{IsFaultWhere, KnowsWith, KnowsToo};
ghost use Rattle.serving.specs.Servable.{CanReceive, CanServe, CanServeEach};
ghost use Rattle.serving.specs.Serving.{pick_entries, Receives, Asks, ServesEach};

use crate::event::{open_channel, position, receive};
use auto_position::{PositionFault, plan};
use gtid_set::{GtidSet, SetFault};
use gtid_text::SourceId;
use journal::{Entry, Journal};
use replica_core::Core;
use std::alloc::Global;
use txn_journal::BundleChannel;

/// The entries at these places.
#[tactic(auto, using(crate::proofs::Sending::picked_more))]
fn entries_at(alloc: Global, entries: &[Entry], places: &[u64]) -> Result<Vec<Entry>, SetFault>
    requires { list_all (λ p. nat_lt p (length entries.now)) places.now ≡ true }
    ensures found { IfOk result (λ found. found.items ≡ pick_entries entries.now places.now) }
    ensures fault { IsOkUnless result Memory }
{
    let mut found = Vec::new(alloc);
    for place in places {
        let Some(entry) = entries.get(*place as usize) else {
            unreachable!()
        };
        let entry = entry.clone()?;
        let Ok(()) = found.push(entry) else {
            return Err(SetFault::Memory);
        };
    }
    Ok(found)
}

/// The entries that a journal sends to a replica that asks with a set, in journal order, or why its source refuses. `own` is the source's
/// own UUID, if it has one. (MySQL 8.0 Reference Manual, "GTID Auto-Positioning".)
#[tactic(auto, using(crate::proofs::Sending::places_below))]
pub fn entries_sent(
    alloc: Global,
    own: Option<SourceId>,
    journal: &Journal,
    asked: &GtidSet,
) -> Result<Vec<Entry>, PositionFault>
    ensures ok { IfOk result (λ entries. sent journal.now asked.now own ≡ Ok entries.items) }
    ensures refusal { IfErr result (λ fault. IsRefusal fault journal.now asked.now own) }
{
    match plan(alloc, own, journal, asked) {
        Ok(places) => match entries_at(alloc, journal.entries(), &places) {
            Ok(entries) => Ok(entries),
            Err(fault) => Err(PositionFault::Set(fault)),
        },
        Err(fault) => Err(fault),
    }
}

/// The places of what a journal sends to a replica that asks with this set, if the source's own UUID is not known.
#[tactic(auto, using(crate::proofs::Sending::never_refuses, crate::proofs::Sending::places_below))]
fn places_sent(alloc: Global, journal: &Journal, asked: &GtidSet) -> Result<Vec<u64>, SetFault>
    requires { set.is_subset journal.now.previous asked.now ≡ true }
    ensures ok { IfOk result (λ places. sent journal.now asked.now None ≡ Ok (pick_entries journal.now.entries places.items)) }
    ensures below { IfOk result (λ places. list_all (λ p. nat_lt p (length journal.now.entries)) places.items ≡ true) }
    ensures fault { IfErr result (IsPlanFault journal.now asked.now) }
{
    match plan(alloc, None, journal, asked) {
        Ok(places) => Ok(places),
        Err(PositionFault::Set(fault)) => Err(fault),
        Err(PositionFault::PurgedRequired(_)) => unreachable!(),
        Err(PositionFault::ReplicaHasMore(_)) => unreachable!(),
    }
}

/// When what a channel receives is applied.
#[derive(Clone, Copy, Drop)]
pub(crate) enum Apply {
    /// Later, by any seat that takes it.
    Later,
    /// By seat 1, before the next entry is received.
    AtOnce,
}

/// A channel receives the entries at these places. If each is applied before the next is received, only one waits, whatever their number.
#[tactic(auto, using(crate::proofs::Runs::receives_none, crate::proofs::Sending::below_at))]
fn feed(
    alloc: Global,
    core: &mut Core,
    channel: usize,
    entries: &[Entry],
    places: &[u64],
    apply: Apply,
) -> Result<(), SetFault>
    requires below { list_all (λ p. nat_lt p (length entries.now)) places.now ≡ true }
    requires can { CanReceive channel (pick_entries entries.now places.now) core.old }
    ensures received { OnOk result (Receives apply core.old channel (pick_entries entries.now places.now) core.new) }
    ensures fault { IfErr result (IsFaultWhere (KnowsWith core.old.state (pick_entries entries.now places.now))) }
{
    for (place, at) in places.iter().enumerate() {
        let Some(entry) = entries.get(*at as usize) else {
            unreachable!()
        };
        receive(alloc, core, channel, place, entry, apply)?;
    }
    Ok(())
}

/// A channel is opened and positioned: the places of what its journal sends to one that asks so.
#[tactic(auto, using(crate::proofs::Conditions::asked_has, crate::proofs::Conditions::asks))]
fn ask_for(
    alloc: Global,
    core: &mut Core,
    number: usize,
    channel: &BundleChannel,
    journal: &Journal,
) -> Result<Vec<u64>, SetFault>
    requires { CanServe number channel.now.name journal.now core.old }
    ensures asks { IfOk result (λ places. Asks core.old number channel.now journal.now (pick_entries journal.now.entries places.items) core.new) }
    ensures below { IfOk result (λ places. list_all (λ p. nat_lt p (length journal.now.entries)) places.items ≡ true) }
    ensures fault { IfErr result (IsFaultWhere (KnowsToo core.old.state (journal.now ∷ []))) }
{
    open_channel(alloc, core, channel)?;
    let asked = position(alloc, core, number)?;
    places_sent(alloc, journal, &asked)
}

/// Of up to this many channels each receives before the next is positioned. Our own rule.
const FEW: usize = 16;

/// Each journal on a channel of its own; the first has this number. The last few channels receive as soon as they are positioned, so that none
/// is sent what another one brought. The others are all positioned before one of them receives: they ask with one set, which is kept once.
#[tactic(auto, using(crate::proofs::Knowing::first_fault))]
pub(crate) fn serve_journals(
    alloc: Global,
    core: &mut Core,
    number: usize,
    channels: &[BundleChannel],
    journals: &[Journal],
    apply: Apply,
) -> Result<(), SetFault>
    requires { CanServeEach number channels.now journals.now core.old }
    ensures served { OnOk result (ServesEach apply core.old number channels.now journals.now core.new) }
    ensures fault { IfErr result (IsFaultWhere (KnowsToo core.old.state journals.now)) }
{
    let Some((journal, others)) = journals.split_first() else {
        return Ok(());
    };
    let Some((channel, rest)) = channels.split_first() else {
        unreachable!()
    };
    let places = ask_for(alloc, core, number, channel, journal)?;
    if others.len() < FEW {
        feed(alloc, core, number, journal.entries(), &places, apply)?;
        return serve_journals(alloc, core, number + 1, rest, others, apply);
    }
    serve_journals(alloc, core, number + 1, rest, others, apply)?;
    feed(alloc, core, number, journal.entries(), &places, apply)
}
