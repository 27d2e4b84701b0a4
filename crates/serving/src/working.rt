//! One seat applies what is left.
ghost use Rattle.std.specs.Prelude.{◌≡◌, true, false, IfErr, OnOk, IsOkUnless};
ghost use Rattle.gtid_set.specs.declared.fault.SetFault.TheVariants.{Memory};
ghost use Rattle.replica_core.specs.Draining.{NothingIsOwned, IsWaiting, IsSettledAt, AreStoppedOrDone};
ghost use Rattle.serving.specs.Faults.{IsFaultWhere, Knows};
ghost use Rattle.serving.specs.Serving.{Applies};
ghost use Rattle.serving.specs.Working.{Settles, Finishes};
ghost use Rattle.serving.specs.declared.receiving.Apply.TheVariants.{AtOnce};

use gtid_set::SetFault;
use replica_core::{Core, Event};
use std::alloc::Global;

/// Whether the GTID at a place is not executed, and its channel not stopped.
fn is_waiting(core: &Core, channel: usize, place: usize) -> bool
    ensures open { result ≡ true → IsWaiting place channel core.now.state }
    ensures shut { result ≡ false → IsSettledAt place channel core.now.state }
{
    let Some(one) = core.channel(channel) else {
        return false;
    };
    if one.is_stopped() {
        return false;
    }
    match one.entry(place) {
        Some((gtid, _)) => !core.executed().contains(&gtid),
        None => false,
    }
}

/// Seat 1 takes a place and commits it, if that is left to do.
#[tactic(auto, using(crate::proofs::Runs::applies_none, crate::proofs::Settling::settles_none))]
fn work_at(alloc: Global, core: &mut Core, channel: usize, place: usize) -> Result<(), SetFault>
    ensures applies { OnOk result (Applies AtOnce core.old core.new) }
    ensures settles { OnOk result (Settles channel place core.old.state core.new.state) }
    ensures fault { IfErr result (IsFaultWhere (Knows core.old.state)) }
{
    if !is_waiting(core, channel, place) {
        return Ok(());
    }
    core.entries_are_kept();
    core.step(alloc, &Event::Take(1, channel, place))?;
    core.step(alloc, &Event::Commit(1))?;
    Ok(())
}

/// The places of a channel, in order.
#[tactic(auto, using(crate::proofs::Runs::applies_none, crate::proofs::Runs::applies_more, crate::proofs::Settling::finishes_none, crate::proofs::Settling::finishes_more))]
fn work_on(alloc: Global, core: &mut Core, channel: usize, places: usize) -> Result<(), SetFault>
    ensures applies { OnOk result (Applies AtOnce core.old core.new) }
    ensures finishes { OnOk result (Finishes channel places core.old.state core.new.state) }
    ensures fault { IfErr result (IsFaultWhere (Knows core.old.state)) }
{
    for place in 0..places {
        work_at(alloc, core, channel, place)?;
    }
    Ok(())
}

/// All channels, in order.
#[tactic(auto, using(crate::proofs::Runs::applies_none))]
fn work_on_all(alloc: Global, core: &mut Core) -> Result<(), SetFault>
    ensures applies { OnOk result (Applies AtOnce core.old core.new) }
    ensures ends { OnOk result (NothingIsOwned core.old.state → AreStoppedOrDone core.new.state) }
    ensures fault { IfErr result (IsFaultWhere (Knows core.old.state)) }
{
    for channel in 0..usize::MAX {
        let Some(count) = core.places(channel) else {
            return Ok(());
        };
        work_on(alloc, core, channel, count)?;
    }
    // (no memory holds as many channels)
    Err(SetFault::Memory)
}

/// Each seat rolls back what it has taken.
fn free_all(alloc: Global, core: &mut Core) -> Result<(), SetFault>
    ensures applies { OnOk result (Applies AtOnce core.old core.new) }
    ensures rests { OnOk result (NothingIsOwned core.new.state) }
    ensures fault { IsOkUnless result Memory }
{
    for seat in 1..65u8 {
        core.one_seat_each();
        core.step(alloc, &Event::Rollback(seat))?;
    }
    core.one_seat_each();
    Ok(())
}

/// One seat applies what is left, if anything is: then each channel is stopped, or all that it received is executed.
#[tactic(auto, using(crate::proofs::Runs::applies_none, crate::proofs::Runs::drained_done, crate::proofs::Runs::applies_more, crate::proofs::Knowing::later_fault))]
pub(crate) fn finish(alloc: Global, core: &mut Core) -> Result<(), SetFault>
    ensures applies { OnOk result (Applies AtOnce core.old core.new) }
    ensures ends { OnOk result (AreStoppedOrDone core.new.state) }
    ensures fault { IfErr result (IsFaultWhere (Knows core.old.state)) }
{
    if core.is_drained() {
        return Ok(());
    }
    free_all(alloc, core)?;
    work_on_all(alloc, core)
}
