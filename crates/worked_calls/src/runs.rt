//! Events that a replica makes in one run, and those that two replicas make that read one another's logs.
ghost use Rattle.std.specs.Prelude.{◌≡◌, true};
ghost use Rattle.replica_core.specs.Machine.{AreNumbered};

use crate::calls::{channel_name, is_text, push_line};
use crate::histories::core_without_rows;
use crate::sources::{bundle, first_entries};
use journal::Entry;
use replica_core::{Core, Event, Reply};
use std::alloc::Global;
use std::test::Fail;
use txn_journal::Bundle;

/// An event of a replica, whose entries are numbered from 0. There is one channel.
#[derive(Clone, Copy)]
pub(crate) enum Planned {
    /// The channel is opened, and preserves its order or not.
    Open(bool),
    /// The channel is positioned.
    Position,
    /// The channel receives this entry.
    Receive(usize),
    /// This seat takes this place.
    Take(u8, usize),
    /// This seat commits.
    Commit(u8),
    /// This seat rolls back.
    Rollback(u8),
    /// The changes of this entry, by the server itself.
    Local(usize),
    /// So many entries of the own journal are purged.
    Purge(usize),
    /// The executed set is asked for.
    Look,
}

/// The event that is planned; None where there is no entry for it, or no memory.
pub(crate) fn event_of(alloc: Global, entries: &[Entry], planned: Planned) -> Option<Event> {
    match planned {
        Planned::Open(preserve) => Some(Event::OpenChannel(channel_name(alloc)?, preserve)),
        Planned::Position => Some(Event::Position(0)),
        Planned::Receive(place) => {
            let entry = entries.get(place)?;
            Some(Event::Receive(0, entry.clone().ok()?))
        }
        Planned::Take(seat, place) => Some(Event::Take(seat, 0, place)),
        Planned::Commit(seat) => Some(Event::Commit(seat)),
        Planned::Rollback(seat) => Some(Event::Rollback(seat)),
        Planned::Local(place) => {
            let entry = entries.get(place)?;
            Some(Event::Local(entry.txn.clone().ok()?))
        }
        Planned::Purge(count) => Some(Event::Purge(count)),
        Planned::Look => Some(Event::Look),
    }
}

/// The events that are planned, in turn.
fn events_of(alloc: Global, entries: &[Entry], plan: &[Planned]) -> Option<Vec<Event>> {
    let mut events = Vec::new(alloc);
    for planned in plan {
        let event = event_of(alloc, entries, *planned)?;
        events.push(event).ok()?;
    }
    Some(events)
}

/// Whether a replica may be given each event.
fn are_numbered(events: &[Event]) -> bool
    ensures { result ≡ true → AreNumbered events.now }
{
    for event in events {
        if !event.is_numbered() {
            return false;
        }
    }
    true
}

/// The lines of replies.
fn lines_of(alloc: Global, replies: &[Reply]) -> Option<String> {
    let mut lines = String::new(alloc);
    for reply in replies {
        push_line(alloc, &mut lines, reply).ok()?;
    }
    Some(lines)
}

/// The replies to one run of events; None where it has a fault.
fn run_of(alloc: Global, core: &mut Core, events: &[Event]) -> Option<String> {
    if !are_numbered(events) {
        return None;
    }
    let (replies, fault) = core.run(alloc, events);
    match fault {
        None => lines_of(alloc, &replies),
        Some(_) => None,
    }
}

/// Whether the planned events have these replies, in one run of a replica without rows.
fn replies_with(alloc: Global, bundle: &Bundle, plan: &[Planned], want: &str) -> bool {
    let Some(events) = events_of(alloc, first_entries(bundle), plan) else {
        return false;
    };
    match core_without_rows(alloc, bundle) {
        Some(mut core) => is_text(run_of(alloc, &mut core, &events), want),
        None => false,
    }
}

/// Two inserts, and an update of the first row, which waits for it.
const WITHOUT_ORDER: [Planned; 12] = [
    Planned::Open(false),
    Planned::Position,
    Planned::Receive(0),
    Planned::Receive(1),
    Planned::Receive(2),
    Planned::Take(1, 0),
    Planned::Take(2, 2),
    Planned::Take(2, 1),
    Planned::Commit(2),
    Planned::Commit(1),
    Planned::Take(1, 2),
    Planned::Commit(1),
];

const WITHOUT_ORDER_REPLIES: &str = "Opened(0)
Ask(-)
Received(0)
Received(1)
Received(2)
Taken(aaaaaaaa-aaaa-aaaa-aaaa-aaaaaaaaaaaa:1)
Blocked(0)
Taken(aaaaaaaa-aaaa-aaaa-aaaa-aaaaaaaaaaaa:2)
Committed(aaaaaaaa-aaaa-aaaa-aaaa-aaaaaaaaaaaa:2)
Committed(aaaaaaaa-aaaa-aaaa-aaaa-aaaaaaaaaaaa:1)
Taken(aaaaaaaa-aaaa-aaaa-aaaa-aaaaaaaaaaaa:3)
Committed(aaaaaaaa-aaaa-aaaa-aaaa-aaaaaaaaaaaa:3)
";

/// The channel preserves its order: the second place is early until the first is executed, which is rolled back once.
const IN_ORDER: [Planned; 12] = [
    Planned::Open(true),
    Planned::Position,
    Planned::Receive(0),
    Planned::Receive(1),
    Planned::Take(1, 0),
    Planned::Take(2, 1),
    Planned::Commit(2),
    Planned::Rollback(1),
    Planned::Take(3, 0),
    Planned::Commit(3),
    Planned::Commit(2),
    Planned::Look,
];

const IN_ORDER_REPLIES: &str = "Opened(0)
Ask(-)
Received(0)
Received(1)
Taken(aaaaaaaa-aaaa-aaaa-aaaa-aaaaaaaaaaaa:1)
Taken(aaaaaaaa-aaaa-aaaa-aaaa-aaaaaaaaaaaa:2)
Early(0)
RolledBack(aaaaaaaa-aaaa-aaaa-aaaa-aaaaaaaaaaaa:1)
Taken(aaaaaaaa-aaaa-aaaa-aaaa-aaaaaaaaaaaa:1)
Committed(aaaaaaaa-aaaa-aaaa-aaaa-aaaaaaaaaaaa:1)
Committed(aaaaaaaa-aaaa-aaaa-aaaa-aaaaaaaaaaaa:2)
Shown(aaaaaaaa-aaaa-aaaa-aaaa-aaaaaaaaaaaa:1-2)
";

#[test]
fn runs_of_a_replica(rt: HostRuntime) -> Result<(), Fail> {
    let alloc = rt.alloc();
    let bundle = bundle(alloc)?;
    assert!(rt; replies_with(alloc, &bundle, &WITHOUT_ORDER, WITHOUT_ORDER_REPLIES));
    assert!(rt; replies_with(alloc, &bundle, &IN_ORDER, IN_ORDER_REPLIES));
    Ok(())
}
