//! What an event of one replica changes in a network.
ghost use Rattle.std.specs.Prelude.{◌≡◌, ◌<◌, length, true, false, Some, IfOk, IfErr, OnOk, OnErr, slice_set};
ghost use Rattle.std.specs.FinMap as finmap;
ghost use Rattle.replica_core.specs.Machine as machine;
ghost use Rattle.replica_core.specs.declared.event.Event.TheVariants as event;
ghost use Rattle.network.specs.Machine.{is_for_network};
ghost use Rattle.network.specs.Made.{MakesAt};
ghost use Rattle.network.specs.Faults.{IsCauseAt, HasRoomAt};
ghost use Rattle.network.specs.Reading.{AreRead, AreAllMoved, IsReadFrom, entries_at};

use crate::node::Node;
use crate::reader::NodeReader;
use gtid_set::SetFault;
use journal::Entry;
use replica_core::{Event, Reply};
use std::alloc::Global;

/// The node at a place makes an event.
fn make_at(
    nodes: &mut Vec<Node>,
    alloc: Global,
    node: usize,
    event: &Event,
) -> Result<Reply, SetFault>
    requires there { node < length nodes.old.items }
    requires numbered { machine.is_numbered event.now ≡ true }
    ensures ok { IfOk result (λ r. MakesAt nodes.old.items node event.now (λ n. n.sources) r nodes.new.items) }
    ensures err { OnErr result (nodes.new.items ≡ nodes.old.items) }
    ensures fault { IfErr result (λ f. IsCauseAt f nodes.old.items node event.now) }
    ensures room { IfErr result (λ f. HasRoomAt f nodes.old.items node event.now) }
{
    let one = &mut nodes[node];
    one.make(alloc, event)
}

/// The fault of an event of the node at a place if there is no memory before it.
pub(crate) fn refusal_at(nodes: &[Node], node: usize, event: &Event) -> SetFault
    ensures cause { IsCauseAt result nodes.now node event.now }
    ensures room { HasRoomAt result nodes.now node event.now }
{
    match nodes.get(node) {
        Some(one) => one.refusal(event),
        None => SetFault::Memory,
    }
}

/// How many entries the binary log of a node has.
fn entries_at(nodes: &[Node], node: usize) -> usize
    ensures { result ≡ entries_at nodes.now node }
{
    match nodes.get(node) {
        Some(one) => one.replica().journal().as_journal().entries().len(),
        None => 0,
    }
}

/// Moves the places of all channels that read a node, of which `count` entries were purged.
fn move_back(readers: &mut [NodeReader], nodes: &[Node], source: usize, count: usize)
    requires { length readers.old ≡ length nodes.now }
    ensures { AreAllMoved nodes.now source count readers.old readers.new }
{
    for (i, node) in nodes.iter().enumerate() {
        readers[i].move_back(node, source, count);
    }
}

/// The node at a place makes an event of its own. If that purges entries, the places of the channels that read it move.
pub(crate) fn act_at(
    nodes: &mut Vec<Node>,
    readers: &mut [NodeReader],
    alloc: Global,
    node: usize,
    event: &Event,
) -> Result<Reply, SetFault>
    requires there { node < length nodes.old.items }
    requires numbered { machine.is_numbered event.now ≡ true }
    requires own { is_for_network event.now ≡ false }
    requires read { AreRead nodes.old.items readers.old }
    ensures ok { IfOk result (λ r. MakesAt nodes.old.items node event.now (λ n. n.sources) r nodes.new.items) }
    ensures err { OnErr result (nodes.new.items ≡ nodes.old.items) }
    ensures fault { IfErr result (λ f. IsCauseAt f nodes.old.items node event.now) }
    ensures room { IfErr result (λ f. HasRoomAt f nodes.old.items node event.now) }
    ensures read { AreRead nodes.new.items readers.new }
{
    let before = entries_at(nodes, node);
    let reply = make_at(nodes, alloc, node, event)?;
    let purged = before.saturating_sub(entries_at(nodes, node));
    if purged > 0 {
        move_back(readers, nodes, node, purged);
    }
    Ok(reply)
}

/// The node at a place positions a channel at a source. How far the channel has read is then no longer known.
pub(crate) fn position_at(
    nodes: &mut Vec<Node>,
    readers: &mut [NodeReader],
    alloc: Global,
    node: usize,
    channel: usize,
    source: usize,
) -> Result<Reply, SetFault>
    requires there { node < length nodes.old.items }
    requires read { AreRead nodes.old.items readers.old }
    ensures ok { IfOk result (λ r. MakesAt nodes.old.items node (event.Position channel) (λ n. finmap.insert n.sources channel source) r nodes.new.items) }
    ensures err { OnErr result (nodes.new.items ≡ nodes.old.items) }
    ensures fault { IfErr result (λ f. IsCauseAt f nodes.old.items node (event.Position channel)) }
    ensures room { IfErr result (λ f. HasRoomAt f nodes.old.items node (event.Position channel)) }
    ensures read { AreRead nodes.new.items readers.new }
{
    readers[node].forget(channel);
    let one = &mut nodes[node];
    one.position(alloc, channel, source)
}

/// A channel of the node at a place receives an entry; it has those before this place.
pub(crate) fn receive_at(
    nodes: &mut Vec<Node>,
    readers: &mut [NodeReader],
    alloc: Global,
    node: usize,
    channel: usize,
    place: usize,
    entry: Entry,
) -> Result<Reply, SetFault>
    requires there { node < length nodes.old.items }
    requires numbered { machine.is_numbered (event.Receive channel entry) ≡ true }
    requires read { AreRead nodes.old.items readers.old }
    requires read_to { (k : _) → IsReadFrom nodes.old.items node channel k (Some place) }
    ensures ok { IfOk result (λ r. MakesAt nodes.old.items node (event.Receive channel entry) (λ n. n.sources) r nodes.new.items) }
    ensures err { OnErr result (nodes.new.items ≡ nodes.old.items) }
    ensures fault { IfErr result (λ f. IsCauseAt f nodes.old.items node (event.Receive channel entry)) }
    ensures room { IfErr result (λ f. HasRoomAt f nodes.old.items node (event.Receive channel entry)) }
    ensures read { AreRead nodes.new.items readers.new }
{
    let event = Event::Receive(channel, entry);
    let Ok(()) = readers[node].put(channel, place) else {
        return Err(refusal_at(nodes, node, &event));
    };
    make_at(nodes, alloc, node, &event)
}
