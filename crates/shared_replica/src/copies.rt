//! Copies of events and replies.
ghost use Rattle.std.specs.Prelude.{◌≡◌, IfOk, IfErr, IsSome, Some};
ghost use Rattle.shared_replica.specs.History.{is_commit};
ghost use Rattle.shared_replica.specs.Spare.{IsSpare};
ghost use Rattle.replica_core.specs.Machine.{step, purge};
ghost use Rattle.journal.specs.Faults.{IsPurgedFault};
ghost use Rattle.replica_core.specs.Faults.{IsCause};

use gtid_set::{GtidSet, SetFault};
use replica_core::{Core, Event, Reply};
use std::alloc::{AllocError, Global};

/// A copy of an event. It shares names and transactions.
pub(crate) fn copy_of(event: &Event) -> Result<Event, AllocError>
    ensures { IfOk result (λ copy. copy ≡ event.now) }
{
    let copy = match event {
        Event::OpenChannel(name, preserve) => Event::OpenChannel(name.clone()?, *preserve),
        Event::Position(channel) => Event::Position(*channel),
        Event::Receive(channel, entry) => Event::Receive(*channel, entry.clone()?),
        Event::Take(seat, channel, place) => Event::Take(*seat, *channel, *place),
        Event::Commit(seat) => Event::Commit(*seat),
        Event::Rollback(seat) => Event::Rollback(*seat),
        Event::Restart(channel) => Event::Restart(*channel),
        Event::Local(changes) => Event::Local(changes.clone()?),
        Event::Purge(count) => Event::Purge(*count),
        Event::Look => Event::Look,
    };
    Ok(copy)
}

/// Whether a reply is Committed.
pub(crate) fn is_commit(reply: &Reply) -> bool
    ensures { result ≡ is_commit reply.now }
{
    matches!(reply, Reply::Committed(_))
}

/// The set that the reply to an event will show, if it shows one.
#[tactic(auto, using(crate::proofs::Spares::position_asks, crate::proofs::Spares::plain_step, crate::proofs::Faulty::memory_anywhere))]
pub(crate) fn set_of_reply(
    core: &Core,
    alloc: Global,
    event: &Event,
) -> Result<Option<GtidSet>, SetFault>
    ensures spare { IfOk result (λ spare. IsSpare (step core.now.site core.now.state event.now).0 spare) }
    ensures fault { IfErr result (λ f. IsCause f core.now.site core.now.state event.now) }
{
    match event {
        Event::Position(channel) => core.ask(alloc, *channel),
        Event::Purge(count) => purged_by(core, alloc, *count),
        Event::Look => Ok(Some(core.executed().copy(alloc)?)),
        _ => Ok(None),
    }
}

/// The purged set that a Purge would answer.
fn purged_by(core: &Core, alloc: Global, count: usize) -> Result<Option<GtidSet>, SetFault>
    ensures spare { IfOk result (λ spare. IsSpare (purge count core.now.state).0 spare) }
    ensures fault { IfErr result (λ f. IsPurgedFault f count core.now.state.journal) }
{
    let journal = core.journal().as_journal();
    if journal.len() < count {
        return Ok(None);
    }
    Ok(Some(journal.previous_after_purge(alloc, count)?))
}

/// A copy of a reply, which does not allocate, since its set was made beforehand.
pub(crate) fn twin(reply: &Reply, spare: Option<GtidSet>) -> Reply
    requires { IsSpare reply.now spare }
    ensures { result ≡ reply.now }
{
    match reply {
        Reply::NameTaken => Reply::NameTaken,
        Reply::ChannelsFull => Reply::ChannelsFull,
        Reply::Opened(number) => Reply::Opened(*number),
        Reply::NoChannel => Reply::NoChannel,
        Reply::Ask(_) => Reply::Ask(made_set(spare)),
        Reply::NotPositioned => Reply::NotPositioned,
        Reply::NotInSchema(misfit) => Reply::NotInSchema(*misfit),
        Reply::ChannelFull => Reply::ChannelFull,
        Reply::Received(number) => Reply::Received(*number),
        Reply::NoSeat => Reply::NoSeat,
        Reply::SeatBusy(gtid) => Reply::SeatBusy(*gtid),
        Reply::NoPlace => Reply::NoPlace,
        Reply::Stopped => Reply::Stopped,
        Reply::Done(gtid) => Reply::Done(*gtid),
        Reply::OwnedBy(seat) => Reply::OwnedBy(*seat),
        Reply::Blocked(number) => Reply::Blocked(*number),
        Reply::Taken(gtid) => Reply::Taken(*gtid),
        Reply::SeatIdle => Reply::SeatIdle,
        Reply::Early(number) => Reply::Early(*number),
        Reply::RowRefused(gtid, fault) => Reply::RowRefused(*gtid, *fault),
        Reply::Committed(gtid) => Reply::Committed(*gtid),
        Reply::RolledBack(gtid) => Reply::RolledBack(*gtid),
        Reply::Restarted => Reply::Restarted,
        Reply::NumbersUsedUp => Reply::NumbersUsedUp,
        Reply::LocalRefused(fault) => Reply::LocalRefused(*fault),
        Reply::TooMany(number) => Reply::TooMany(*number),
        Reply::Purged(_) => Reply::Purged(made_set(spare)),
        Reply::Shown(_) => Reply::Shown(made_set(spare)),
    }
}

/// The set that was made.
fn made_set(spare: Option<GtidSet>) -> GtidSet
    requires { IsSome spare }
    ensures { Some result ≡ spare }
{
    match spare {
        Some(set) => set,
        None => unreachable!(),
    }
}
