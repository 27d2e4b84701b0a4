//! What a worker does.
ghost use Rattle.std.specs.Prelude.{◌≡◌, IfOk, IfSome};
ghost use Rattle.shared_replica.specs.Preparing.{MayPrepare};
ghost use Rattle.applier.specs.Applies.{GoesOn};

use crate::gate::Gate;
use crate::hand::{Hand, Ticket};
use crate::round::Round;
use crossbeam_utils::Backoff;
use gtid_set::SetFault;
use gtid_text::Gtid;
use replica_core::Reply;
use rows::{Footprint, Patch, PrepareFault, Transaction, prepare};
use shared_replica::{Naming, Pass, SharedReplica, Taking};
use std::alloc::Global;
use std::sync::Wait;

/// How often an early commit is tried.
const TRIES: u32 = 1000;

/// How many places of a channel are put at once.
const MOST: usize = 8;

/// The fewest changes for which it pays to prepare a transaction without the lock. Applying fewer under the lock takes less time there than
/// finding their rows and installing what was prepared.
const LEAST: usize = 8;

/// What became of a place.
#[derive(Drop)]
enum Tried {
    /// It is committed.
    Committed,
    /// Another seat has it, or it is not ready, or refused.
    Passed,
    /// The worker leaves its channel.
    Left,
}

/// Applies what is ready until nothing is, or a step can't be made.
pub(crate) fn work<N: Naming, G: Gate, R: Wait>(
    rt: &R,
    alloc: Global,
    replica: &SharedReplica<N>,
    gate: &G,
    pass: &mut Pass<N>,
    hand: &mut Hand,
    me: usize,
) -> Result<(), SetFault>
    ensures { GoesOn pass.old pass.new }
{
    let mut round = Round::new();
    release_owned(rt, alloc, replica, pass)?;
    for _ in rt.forever() {
        let seat = pass.seat();
        let Some(ticket) = next_place(rt, replica, gate, seat, hand, me, &mut round) else {
            return Ok(());
        };
        match try_place(rt, alloc, replica, gate, pass, &round, ticket) {
            Ok(Tried::Committed) => {
                round.restart();
                put_ready(rt, replica, hand, &round);
            }
            Ok(Tried::Passed) => {}
            Ok(Tried::Left) => round.leave(ticket.channel),
            Err(fault) => return Err(fault),
        }
    }
    unreachable!()
}

/// A ticket of its own, or else one of another worker, or else a place that is ready.
fn next_place<N: Naming, G: Gate, R: Wait>(
    rt: &R,
    replica: &SharedReplica<N>,
    gate: &G,
    seat: u8,
    hand: &mut Hand,
    me: usize,
    round: &mut Round,
) -> Option<Ticket> {
    let own = hand.pop();
    round.note_pop(own.is_some());
    let ticket = match own {
        Some(ticket) => ticket,
        None => match steal_ticket(hand, me) {
            Some(ticket) => {
                gate.after_steal(seat);
                ticket
            }
            None => round.look(rt, replica)?,
        },
    };
    round.meet(ticket.channel);
    Some(ticket)
}

/// A ticket of another worker; each of them is asked once.
fn steal_ticket(hand: &mut Hand, me: usize) -> Option<Ticket> {
    for other in 0..hand.count() {
        if other != me {
            if let Some(ticket) = hand.steal(other) {
                return Some(ticket);
            }
        }
    }
    None
}

/// Puts what is ready into its own deque, if that had no ticket: else the same places would be put again after each commit.
fn put_ready<N: Naming, R: Wait>(
    rt: &R,
    replica: &SharedReplica<N>,
    hand: &mut Hand,
    round: &Round,
) {
    if !round.found_no_ticket() {
        return;
    }
    for channel in 0..round.known_channels() {
        if !round.is_left(channel) {
            put_channel(rt, replica, hand, channel);
        }
    }
}

/// Puts the first places of a channel that are ready. A ticket that finds no room is dropped.
fn put_channel<N: Naming, R: Wait>(
    rt: &R,
    replica: &SharedReplica<N>,
    hand: &mut Hand,
    channel: usize,
) {
    let mut places = [0; MOST];
    let count = replica.ready_places(rt, channel, 0, &mut places);
    for place in places.iter().take(count) {
        let _refused = hand.push(Ticket {
            channel,
            place: *place,
        });
    }
}

/// Rolls back what the seat owns before the work begins.
#[tactic(auto, using(crate::proofs::GoingOn::goes_self))]
fn release_owned<N: Naming, R: Wait>(
    rt: &R,
    alloc: Global,
    replica: &SharedReplica<N>,
    pass: &mut Pass<N>,
) -> Result<(), SetFault>
    ensures { GoesOn pass.old pass.new }
{
    if !replica.holds(rt, pass) {
        return Ok(());
    }
    match roll_back(rt, alloc, replica, pass) {
        Ok(_) => Ok(()),
        Err(fault) => Err(fault),
    }
}

/// Takes a place and commits it, unless its channel was left.
fn try_place<N: Naming, G: Gate, R: Wait>(
    rt: &R,
    alloc: Global,
    replica: &SharedReplica<N>,
    gate: &G,
    pass: &mut Pass<N>,
    round: &Round,
    ticket: Ticket,
) -> Result<Tried, SetFault>
    ensures { GoesOn pass.old pass.new }
{
    if round.is_left(ticket.channel) {
        return Ok(Tried::Passed);
    }
    let Taking { reply, footprint } = take(rt, alloc, replica, pass, ticket)?;
    match reply {
        Reply::Taken(gtid) => {
            return commit_taken(rt, alloc, replica, gate, pass, gtid, footprint);
        }
        Reply::Stopped => return Ok(Tried::Left),
        _ => return Ok(Tried::Passed),
    }
}

/// Prepares what was taken without the lock, if there is what that needs, and commits it. An early commit is tried again; if it stays
/// early, it is rolled back, and the worker leaves its channel.
fn commit_taken<N: Naming, G: Gate, R: Wait>(
    rt: &R,
    alloc: Global,
    replica: &SharedReplica<N>,
    gate: &G,
    pass: &mut Pass<N>,
    gtid: Gtid,
    footprint: Option<(Transaction, Footprint)>,
) -> Result<Tried, SetFault>
    requires { IfSome footprint (λ p. MayPrepare p.1.schema p.0 p.1) }
    ensures { GoesOn pass.old pass.new }
{
    gate.before_prepare(pass.seat(), gtid);
    let mut patch = patch_of(alloc, footprint)?;
    if patch.is_some() {
        gate.after_prepare(pass.seat());
    }
    let backoff = Backoff::new();
    for _ in 0..TRIES {
        match commit(rt, alloc, replica, pass, patch)? {
            Reply::Committed(gtid) => {
                gate.after_commit(pass.seat(), gtid);
                return Ok(Tried::Committed);
            }
            Reply::Early(_) => backoff.snooze(),
            _ => return Ok(Tried::Passed),
        }
        patch = None;
    }
    roll_back(rt, alloc, replica, pass)?;
    Ok(Tried::Left)
}

/// A patch for what the seat has taken, if there is what it needs and its changes apply. It is prepared
/// without the lock.
fn patch_of(
    alloc: Global,
    footprint: Option<(Transaction, Footprint)>,
) -> Result<Option<Patch>, SetFault>
    requires { IfSome footprint (λ p. MayPrepare p.1.schema p.0 p.1) }
{
    let Some((txn, footprint)) = footprint else {
        return Ok(None);
    };
    match prepare(alloc, txn, footprint) {
        Ok(patch) => Ok(Some(patch)),
        Err(PrepareFault::Memory) => Err(SetFault::Memory),
        Err(PrepareFault::Row(_)) => Ok(None),
    }
}

fn take<N: Naming, R: Wait>(
    rt: &R,
    alloc: Global,
    replica: &SharedReplica<N>,
    pass: &mut Pass<N>,
    ticket: Ticket,
) -> Result<Taking, SetFault>
    ensures work { GoesOn pass.old pass.new }
    ensures seen { IfOk result (λ taking. IfSome taking.footprint (λ p. MayPrepare p.1.schema p.0 p.1)) }
{
    replica.take_to_prepare(rt, alloc, pass, ticket.channel, ticket.place, LEAST)
}

fn commit<N: Naming, R: Wait>(
    rt: &R,
    alloc: Global,
    replica: &SharedReplica<N>,
    pass: &mut Pass<N>,
    patch: Option<Patch>,
) -> Result<Reply, SetFault>
    ensures { GoesOn pass.old pass.new }
{
    match patch {
        Some(patch) => return replica.commit_prepared(rt, alloc, pass, patch),
        None => return replica.commit(rt, alloc, pass),
    }
}

fn roll_back<N: Naming, R: Wait>(
    rt: &R,
    alloc: Global,
    replica: &SharedReplica<N>,
    pass: &mut Pass<N>,
) -> Result<Reply, SetFault>
    ensures { GoesOn pass.old pass.new }
{
    replica.rollback(rt, alloc, pass)
}
