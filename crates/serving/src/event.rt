//! One event at a time.
ghost use Rattle.std.specs.Prelude.{◌≡◌, true, [], ◌∷◌, IfOk, IfErr, OnOk, IsOkUnless};
ghost use Rattle.gtid_set.specs.declared.fault.SetFault.TheVariants.{Memory};
ghost use Rattle.journal.specs.Writing.{is_number};
ghost use Rattle.replica_core.specs.Machine.{step};
ghost use Rattle.replica_core.specs.declared.event.Event.TheVariants as events;
ghost use Rattle.replica_core.specs.declared.event.Reply.TheVariants as replies;
ghost use Rattle.serving.specs.Faults.{IsFaultWhere, Knows, KnowsWith};
ghost use Rattle.serving.specs.Servable.{IsOpen, IsTaken};
ghost use Rattle.serving.specs.Serving.{run, with_opened, apply_events_at};
ghost use Rattle.serving.specs.declared.receiving.Apply.TheVariants.{AtOnce};

use crate::receiving::Apply;
use gtid_set::{GtidSet, SetFault};
use journal::Entry;
use replica_core::{Core, Event, Reply};
use std::alloc::Global;
use txn_journal::BundleChannel;

/// Opens a channel, if none has its name and there is room for one more.
pub(crate) fn open_channel(
    alloc: Global,
    core: &mut Core,
    channel: &BundleChannel,
) -> Result<(), SetFault>
    ensures now { OnOk result (core.new ≡ with_opened core.old channel.now) }
    ensures fault { IsOkUnless result Memory }
{
    let name = channel.name.clone()?;
    core.step(alloc, &Event::OpenChannel(name, channel.preserve))?;
    Ok(())
}

/// Positions a channel: the set that it asks with.
#[tactic(auto, using(crate::proofs::Knowing::position_fault))]
pub(crate) fn position(alloc: Global, core: &mut Core, channel: usize) -> Result<GtidSet, SetFault>
    requires { IsOpen channel core.old.state }
    ensures now { OnOk result (core.new ≡ run core.old (events.Position channel ∷ [])) }
    ensures asked { IfOk result (λ asked. (step core.old.site core.old.state (events.Position channel)).0 ≡ replies.Ask asked) }
    ensures fault { IfErr result (IsFaultWhere (Knows core.old.state)) }
{
    match core.step(alloc, &Event::Position(channel))? {
        Reply::Ask(asked) => Ok(asked),
        _ => unreachable!(),
    }
}

/// A channel receives an entry.
#[tactic(auto, using(crate::proofs::Knowing::receive_fault, crate::proofs::Runs::ran))]
#[inline(never)]
fn receive_only(
    alloc: Global,
    core: &mut Core,
    channel: usize,
    entry: &Entry,
) -> Result<(), SetFault>
    requires { is_number entry.now.gtid.number ≡ true }
    ensures now { OnOk result (core.new ≡ run core.old (events.Receive channel entry.now ∷ [])) }
    ensures fault { IfErr result (IsFaultWhere (KnowsWith core.old.state (entry.now ∷ []))) }
{
    let event = Event::Receive(channel, entry.clone()?);
    core.step(alloc, &event)?;
    Ok(())
}

/// A channel receives an entry that the tables take, and seat 1 takes it at this place and commits it, if the place is its own.
#[tactic(auto, using(crate::proofs::Knowing::fault_at_once))]
fn receive_and_apply(
    alloc: Global,
    core: &mut Core,
    channel: usize,
    place: usize,
    entry: &Entry,
) -> Result<(), SetFault>
    requires { IsTaken core.old.site.schema entry.now }
    ensures now { OnOk result (core.new ≡ run core.old (events.Receive channel entry.now ∷ apply_events_at AtOnce channel place)) }
    ensures fault { IfErr result (IsFaultWhere (KnowsWith core.old.state (entry.now ∷ []))) }
{
    match core.receive_and_commit(alloc, 1, channel, place, entry) {
        Ok(_) => Ok(()),
        Err(fault) => Err(fault),
    }
}

/// A channel receives an entry that the tables take at this place, which is applied at once or later.
pub(crate) fn receive(
    alloc: Global,
    core: &mut Core,
    channel: usize,
    place: usize,
    entry: &Entry,
    apply: Apply,
) -> Result<(), SetFault>
    requires { IsTaken core.old.site.schema entry.now }
    ensures now { OnOk result (core.new ≡ run core.old (events.Receive channel entry.now ∷ apply_events_at apply channel place)) }
    ensures fault { IfErr result (IsFaultWhere (KnowsWith core.old.state (entry.now ∷ []))) }
{
    match apply {
        Apply::AtOnce => receive_and_apply(alloc, core, channel, place, entry),
        Apply::Later => receive_only(alloc, core, channel, entry),
    }
}
