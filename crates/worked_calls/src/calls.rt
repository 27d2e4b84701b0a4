//! Calls of the seats of a shared replica in turn, and the lines of their replies and of the history.

use journal::{Entry, is_number};
use replica_core::Reply;
use replica_lines::{push_history_line, push_reply};
use rows::{Changes, Name, Transaction};
use shared_replica::{ClosedBook, Naming, Pass, SharedReplica, Step};
use std::alloc::{AllocError, Global};
use std::sync::Wait;

/// A call of a seat. There is one channel, and its places count from 0.
#[derive(Clone, Copy)]
pub(crate) enum SeatCall {
    /// The channel is opened.
    Open,
    /// The channel is positioned.
    Position,
    /// The channel receives the entry that is to have this place.
    Receive(usize),
    /// The seat takes this place.
    Take(usize),
    /// The seat commits what it took.
    Commit,
    /// The seat rolls back what it took.
    Rollback,
    /// The channel runs again.
    Restart,
    /// A transaction of the server's own, which changes nothing.
    Own,
    /// The first entry of the own journal is purged.
    Purge,
    /// The executed set is asked for.
    Look,
}

/// The name of the one channel.
pub(crate) fn channel_name(alloc: Global) -> Option<Name> {
    let text = String::from_str(alloc, "x").ok()?;
    Name::new(text).ok()
}

/// A transaction that changes nothing.
pub(crate) fn no_changes(alloc: Global) -> Option<Transaction> {
    let changes = Changes::new(Vec::new(alloc)).ok()?;
    Some(Transaction { changes })
}

fn receive<N: Naming, R: Wait>(
    rt: &R,
    alloc: Global,
    replica: &SharedReplica<N>,
    pass: &mut Pass<N>,
    entry: &Entry,
) -> Option<Reply> {
    if !is_number(entry.gtid.number) {
        return None;
    }
    let entry = entry.clone().ok()?;
    replica.receive(rt, alloc, pass, 0, entry).ok()
}

/// Makes a call; None where it is refused, or where there is no entry for it.
fn make<N: Naming, R: Wait>(
    rt: &R,
    alloc: Global,
    replica: &SharedReplica<N>,
    pass: &mut Pass<N>,
    entries: &[Entry],
    call: SeatCall,
) -> Option<Reply> {
    match call {
        SeatCall::Open => {
            let name = channel_name(alloc)?;
            replica.open_channel(rt, alloc, pass, name, false).ok()
        }
        SeatCall::Position => replica.position(rt, alloc, pass, 0).ok(),
        SeatCall::Receive(place) => receive(rt, alloc, replica, pass, entries.get(place)?),
        SeatCall::Take(place) => replica.take(rt, alloc, pass, 0, place).ok(),
        SeatCall::Commit => replica.commit(rt, alloc, pass).ok(),
        SeatCall::Rollback => replica.rollback(rt, alloc, pass).ok(),
        SeatCall::Restart => replica.restart(rt, alloc, pass, 0).ok(),
        SeatCall::Own => {
            let changes = no_changes(alloc)?;
            replica.local(rt, alloc, pass, changes).ok()
        }
        SeatCall::Purge => replica.purge(rt, alloc, pass, 1).ok(),
        SeatCall::Look => replica.look(rt, alloc, pass).ok(),
    }
}

/// Appends the line of a reply.
pub(crate) fn push_line(
    alloc: Global,
    lines: &mut String,
    reply: &Reply,
) -> Result<(), AllocError> {
    push_reply(alloc, lines, reply)?;
    lines.push_str("\n")
}

/// The replies to calls of seats in turn, a line each; None where one of them is refused. The seats are those of the passes, counted from 0.
pub(crate) fn replies<N: Naming, R: Wait>(
    rt: &R,
    alloc: Global,
    replica: &SharedReplica<N>,
    passes: &mut [Pass<N>],
    entries: &[Entry],
    calls: &[(usize, SeatCall)],
) -> Option<String> {
    let mut lines = String::new(alloc);
    for (seat, call) in calls {
        let pass = passes.get_mut(*seat)?;
        let reply = make(rt, alloc, replica, pass, entries, *call)?;
        push_line(alloc, &mut lines, &reply).ok()?;
    }
    Some(lines)
}

/// Whether there is a text, and it is this one.
pub(crate) fn is_text(text: Option<String>, want: &str) -> bool {
    match text {
        Some(text) => text.as_str() == want,
        None => false,
    }
}

fn push_step(alloc: Global, lines: &mut String, place: u64, step: &Step) -> Result<(), AllocError> {
    push_history_line(alloc, lines, place, &step.event, &step.reply)?;
    lines.push_str("\n")
}

/// The lines of a book's history from this place on.
pub(crate) fn history(alloc: Global, book: &ClosedBook, from: usize) -> Option<String> {
    let mut lines = String::new(alloc);
    for (place, step) in book.steps().iter().enumerate() {
        if place >= from {
            push_step(alloc, &mut lines, place as u64, step).ok()?;
        }
    }
    Some(lines)
}
