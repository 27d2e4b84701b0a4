//! A ring of three replicas: a transaction goes round, and does not come back.
ghost use Rattle.std.specs.Prelude.{◌≡◌, true};
ghost use Rattle.network.specs.Machine.{AreNumbered};

use crate::sources::bundle;
use gtid_text::SourceId;
use network::{Network, NetworkEvent, NetworkReply, ids_distinct};
use replica_core::{Event, Reply};
use rows::{Name, Rows, Transaction};
use std::alloc::Global;
use std::test::Fail;

const IDS: [u128; 3] = [
    0xaaaaaaaa_aaaa_aaaa_aaaa_aaaaaaaaaaaa,
    0xbbbbbbbb_bbbb_bbbb_bbbb_bbbbbbbbbbbb,
    0xcccccccc_cccc_cccc_cccc_cccccccccccc,
];

/// Each node opens a channel; the first commits; each in turn reads the one before it.
const ANSWERS: [&str; 14] = [
    "opened",
    "opened",
    "opened",
    "committed",
    "ask",
    "received",
    "taken",
    "committed",
    "ask",
    "received",
    "taken",
    "committed",
    "ask",
    "nothing",
];

fn network(alloc: Global) -> Result<Network, Fail> {
    let mut ids = Vec::new(alloc);
    for id in IDS {
        ids.push(SourceId::from_bits(id))?;
    }
    let rows = Rows::open(alloc, bundle(alloc)?.schema().clone()?);
    if !ids_distinct(&ids) {
        return Err("UUIDs that differ".into());
    }
    Ok(Network::open(alloc, &ids, &rows)?)
}

/// The first transaction of the bundle.
fn transaction(alloc: Global) -> Result<Transaction, Fail> {
    let bundle = bundle(alloc)?;
    let journal = bundle.journals().first().ok_or("a journal")?;
    let entry = journal.entries().first().ok_or("an entry")?;
    Ok(entry.txn.clone()?)
}

fn act(node: usize, event: Event) -> NetworkEvent {
    NetworkEvent::Act { node, event }
}

/// A node is positioned at a source, receives one entry, and commits it.
fn read(events: &mut Vec<NetworkEvent>, node: usize, source: usize) -> Result<(), Fail> {
    let channel = 0;
    events.push(NetworkEvent::Position {
        node,
        channel,
        source,
    })?;
    events.push(NetworkEvent::Receive { node, channel })?;
    events.push(act(node, Event::Take(1, 0, 0)))?;
    events.push(act(node, Event::Commit(1)))?;
    Ok(())
}

fn ring(alloc: Global) -> Result<Vec<NetworkEvent>, Fail> {
    let mut events = Vec::new(alloc);
    for node in 0..3usize {
        let name = Name::new(String::from_str(alloc, "ring")?)?;
        events.push(act(node, Event::OpenChannel(name, false)))?;
    }
    events.push(act(0, Event::Local(transaction(alloc)?)))?;
    read(&mut events, 1, 0)?;
    read(&mut events, 2, 1)?;
    events.push(NetworkEvent::Position {
        node: 0,
        channel: 0,
        source: 2,
    })?;
    events.push(NetworkEvent::Receive {
        node: 0,
        channel: 0,
    })?;
    Ok(events)
}

fn word(reply: &NetworkReply) -> &'static str {
    match reply {
        NetworkReply::Nothing => "nothing",
        NetworkReply::Replied(Reply::Opened(_)) => "opened",
        NetworkReply::Replied(Reply::Ask(_)) => "ask",
        NetworkReply::Replied(Reply::Received(0)) => "received",
        NetworkReply::Replied(Reply::Taken(_)) => "taken",
        NetworkReply::Replied(Reply::Committed(_)) => "committed",
        _ => "another",
    }
}

/// Whether a network may be given each event.
pub(crate) fn are_numbered(events: &[NetworkEvent]) -> bool
    ensures { result ≡ true → AreNumbered events.now }
{
    for event in events {
        if !event.is_numbered() {
            return false;
        }
    }
    true
}

/// Whether the events have these replies.
fn goes_round(alloc: Global, network: &mut Network, events: &[NetworkEvent]) -> bool {
    if !are_numbered(events) {
        return false;
    }
    let (replies, fault) = network::run(network, alloc, events);
    let mut same = fault.is_none() && replies.len() == ANSWERS.len();
    for (reply, expected) in replies.iter().zip(ANSWERS.iter()) {
        same = same && word(reply) == *expected;
    }
    same
}

/// Whether a node has executed the transaction, and holds the rows of the first node.
fn has_it(alloc: Global, network: &Network, node: usize) -> Result<bool, Fail> {
    let first = network.replica(0).ok_or("a node")?;
    let one = network.replica(node).ok_or("a node")?;
    let executed = one.executed().to_text(alloc)?;
    Ok(
        executed.as_str() == "aaaaaaaa-aaaa-aaaa-aaaa-aaaaaaaaaaaa:1"
            && one.rows().is_equal(first.rows()),
    )
}

#[test]
fn a_ring_of_three(rt: HostRuntime) -> Result<(), Fail> {
    let alloc = rt.alloc();
    let events = ring(alloc)?;
    let mut network = network(alloc)?;
    assert!(rt; goes_round(alloc, &mut network, &events));
    for node in 0..3usize {
        assert!(rt; has_it(alloc, &network, node)?);
    }
    Ok(())
}
