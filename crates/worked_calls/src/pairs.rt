//! Two replicas, of which the second reads the log of the first, in one run of events.

use crate::calls::{is_text, push_line};
use crate::ring::are_numbered;
use crate::runs::{Planned, event_of};
use crate::sources::{A, B, bundle, first_entries};
use auto_position::PositionFault;
use gtid_report::{push_set, render_state};
use gtid_text::SourceId;
use journal::Entry;
use network::{Network, NetworkEvent, NetworkReply, ids_distinct};
use replica_core::Core;
use rows::Rows;
use std::alloc::{AllocError, Global};
use std::test::Fail;
use txn_journal::Bundle;

/// An event of one of the two nodes, 0 and 1.
#[derive(Clone, Copy)]
enum PlannedAt {
    /// The replica of this node makes an event.
    Act(usize, Planned),
    /// The second node's channel is positioned at the first node.
    Position,
    /// The second node's channel receives the next entry.
    Receive,
}

/// The event that is planned; None where there is no entry for it, or no memory.
fn network_event_of(alloc: Global, entries: &[Entry], planned: PlannedAt) -> Option<NetworkEvent> {
    let (node, channel, source) = (1, 0, 0);
    match planned {
        PlannedAt::Act(node, planned) => {
            let event = event_of(alloc, entries, planned)?;
            Some(NetworkEvent::Act { node, event })
        }
        PlannedAt::Position => Some(NetworkEvent::Position {
            node,
            channel,
            source,
        }),
        PlannedAt::Receive => Some(NetworkEvent::Receive { node, channel }),
    }
}

/// The events that are planned, in turn.
fn network_events_of(
    alloc: Global,
    entries: &[Entry],
    plan: &[PlannedAt],
) -> Option<Vec<NetworkEvent>> {
    let mut events = Vec::new(alloc);
    for planned in plan {
        let event = network_event_of(alloc, entries, *planned)?;
        events.push(event).ok()?;
    }
    Some(events)
}

/// Appends the line of a source's refusal.
fn push_refusal(
    alloc: Global,
    lines: &mut String,
    fault: &PositionFault,
) -> Result<(), AllocError> {
    match fault {
        PositionFault::PurgedRequired(set) => {
            lines.push_str("Refused(E19 purged ")?;
            push_set(alloc, lines, set)?;
            lines.push_str(")\n")
        }
        _ => lines.push_str("another refusal\n"),
    }
}

/// Appends the line of a reply.
fn push_network_line(
    alloc: Global,
    lines: &mut String,
    reply: &NetworkReply,
) -> Result<(), AllocError> {
    match reply {
        NetworkReply::NoNode => lines.push_str("NoNode\n"),
        NetworkReply::NotHere => lines.push_str("NotHere\n"),
        NetworkReply::Nothing => lines.push_str("Nothing\n"),
        NetworkReply::Refused(fault) => push_refusal(alloc, lines, fault),
        NetworkReply::Replied(reply) => push_line(alloc, lines, reply),
    }
}

/// The lines of replies.
fn network_lines_of(alloc: Global, replies: &[NetworkReply]) -> Option<String> {
    let mut lines = String::new(alloc);
    for reply in replies {
        push_network_line(alloc, &mut lines, reply).ok()?;
    }
    Some(lines)
}

/// The replies to one run of the planned events; None where it has a fault.
fn run_of(
    alloc: Global,
    network: &mut Network,
    entries: &[Entry],
    plan: &[PlannedAt],
) -> Option<String> {
    let events = network_events_of(alloc, entries, plan)?;
    if !are_numbered(&events) {
        return None;
    }
    let (replies, fault) = network.run(alloc, &events);
    match fault {
        None => network_lines_of(alloc, &replies),
        Some(_) => None,
    }
}

/// Two nodes with the tables of a bundle, without rows.
fn two_nodes(alloc: Global, bundle: &Bundle) -> Option<Network> {
    let schema = bundle.schema().clone().ok()?;
    let rows = Rows::open(alloc, schema);
    let ids = [SourceId::from_bits(A), SourceId::from_bits(B)];
    if !ids_distinct(&ids) {
        return None;
    }
    Network::open(alloc, &ids, &rows).ok()
}

/// The first node commits twice by itself; the second has received one entry when the first purges both.
const PURGED_TOO_SOON: [PlannedAt; 7] = [
    PlannedAt::Act(1, Planned::Open(false)),
    PlannedAt::Act(0, Planned::Local(0)),
    PlannedAt::Act(0, Planned::Local(1)),
    PlannedAt::Position,
    PlannedAt::Receive,
    PlannedAt::Act(0, Planned::Purge(2)),
    PlannedAt::Receive,
];

const PURGED_TOO_SOON_REPLIES: &str = "Opened(0)
Committed(aaaaaaaa-aaaa-aaaa-aaaa-aaaaaaaaaaaa:1)
Committed(aaaaaaaa-aaaa-aaaa-aaaa-aaaaaaaaaaaa:2)
Ask(-)
Received(0)
Purged(aaaaaaaa-aaaa-aaaa-aaaa-aaaaaaaaaaaa:1-2)
NotPositioned
";

/// The second node has received both entries before, and commits them.
const PURGED_IN_TIME: [PlannedAt; 12] = [
    PlannedAt::Act(1, Planned::Open(false)),
    PlannedAt::Act(0, Planned::Local(0)),
    PlannedAt::Act(0, Planned::Local(1)),
    PlannedAt::Position,
    PlannedAt::Receive,
    PlannedAt::Receive,
    PlannedAt::Act(0, Planned::Purge(2)),
    PlannedAt::Receive,
    PlannedAt::Act(1, Planned::Take(1, 0)),
    PlannedAt::Act(1, Planned::Commit(1)),
    PlannedAt::Act(1, Planned::Take(1, 1)),
    PlannedAt::Act(1, Planned::Commit(1)),
];

const PURGED_IN_TIME_REPLIES: &str = "Opened(0)
Committed(aaaaaaaa-aaaa-aaaa-aaaa-aaaaaaaaaaaa:1)
Committed(aaaaaaaa-aaaa-aaaa-aaaa-aaaaaaaaaaaa:2)
Ask(-)
Received(0)
Received(1)
Purged(aaaaaaaa-aaaa-aaaa-aaaa-aaaaaaaaaaaa:1-2)
Nothing
Taken(aaaaaaaa-aaaa-aaaa-aaaa-aaaaaaaaaaaa:1)
Committed(aaaaaaaa-aaaa-aaaa-aaaa-aaaaaaaaaaaa:1)
Taken(aaaaaaaa-aaaa-aaaa-aaaa-aaaaaaaaaaaa:2)
Committed(aaaaaaaa-aaaa-aaaa-aaaa-aaaaaaaaaaaa:2)
";

/// What both nodes show in the end.
const BOTH_ROWS: &str = "executed aaaaaaaa-aaaa-aaaa-aaaa-aaaaaaaaaaaa:1-2
row t 1 x61 null
row t 2 x62 null
";

/// Whether the planned events have these replies, in one run.
fn replies_with(
    alloc: Global,
    network: &mut Network,
    bundle: &Bundle,
    plan: &[PlannedAt],
    want: &str,
) -> bool {
    is_text(run_of(alloc, network, first_entries(bundle), plan), want)
}

/// A copy of a node's replica.
fn copy_of(alloc: Global, network: &Network, node: usize) -> Option<Core> {
    network.replica(node)?.copy(alloc).ok()
}

/// Whether a node's replica is this one.
fn is_unchanged(network: &Network, node: usize, before: Option<Core>) -> bool {
    match (network.replica(node), before) {
        (Some(core), Some(before)) => core.is_equal(&before),
        _ => false,
    }
}

/// Whether a node's state has these lines.
fn shows(alloc: Global, network: &Network, node: usize, lines: &str) -> bool {
    match network.replica(node) {
        Some(core) => is_text(
            render_state(alloc, core.executed(), core.rows()).ok(),
            lines,
        ),
        None => false,
    }
}

/// What the source has purged meanwhile is received no more, and a channel that lacks it is refused, which changes nothing.
fn is_refused(alloc: Global, network: &mut Network, bundle: &Bundle) -> bool {
    let is_cut = replies_with(
        alloc,
        network,
        bundle,
        &PURGED_TOO_SOON,
        PURGED_TOO_SOON_REPLIES,
    );
    let before = copy_of(alloc, network, 1);
    let refusal = "Refused(E19 purged aaaaaaaa-aaaa-aaaa-aaaa-aaaaaaaaaaaa:2)\n";
    let is_refused = replies_with(alloc, network, bundle, &[PlannedAt::Position], refusal);
    is_cut && is_refused && is_unchanged(network, 1, before)
}

#[test]
fn what_was_purged_is_refused(rt: HostRuntime) -> Result<(), Fail> {
    let alloc = rt.alloc();
    let bundle = bundle(alloc)?;
    let Some(mut network) = two_nodes(alloc, &bundle) else {
        return Err("two nodes".into());
    };
    assert!(rt; is_refused(alloc, &mut network, &bundle));
    Ok(())
}

/// A purge of what has been received takes nothing from the channel.
#[test]
fn what_was_received_is_committed(rt: HostRuntime) -> Result<(), Fail> {
    let alloc = rt.alloc();
    let bundle = bundle(alloc)?;
    let Some(mut network) = two_nodes(alloc, &bundle) else {
        return Err("two nodes".into());
    };
    let are_replies = replies_with(
        alloc,
        &mut network,
        &bundle,
        &PURGED_IN_TIME,
        PURGED_IN_TIME_REPLIES,
    );
    assert!(rt; are_replies);
    for node in 0..2usize {
        assert!(rt; shows(alloc, &network, node, BOTH_ROWS));
    }
    Ok(())
}

/// A Position of a network is no event of a node's own.
#[test]
fn a_node_does_not_position_itself(rt: HostRuntime) -> Result<(), Fail> {
    let alloc = rt.alloc();
    let bundle = bundle(alloc)?;
    let Some(mut network) = two_nodes(alloc, &bundle) else {
        return Err("two nodes".into());
    };
    let plan = [
        PlannedAt::Act(1, Planned::Open(false)),
        PlannedAt::Act(1, Planned::Position),
    ];
    let are_replies = replies_with(alloc, &mut network, &bundle, &plan, "Opened(0)\nNotHere\n");
    assert!(rt; are_replies);
    Ok(())
}
