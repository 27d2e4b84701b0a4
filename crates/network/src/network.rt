//! Several replicas that read one another's binary logs.
ghost use Rattle.std.specs.Prelude.{◌≡◌, ◌<◌, ◌∷◌, [], ◌++◌, length, true, slice_get, IfOk, IfErr, IfSome, OnErr, IsOkUnless, None, vec_len, vec_capacity};
ghost use Rattle.std.specs.Option.{option_copied, option_map};
ghost use Rattle.gtid_set.specs.declared.fault.SetFault.TheVariants.{Memory};
ghost use Rattle.replica_core.specs.Machine as machine;
ghost use Rattle.network.specs.Nodes.{new_nodes, ids_distinct};
ghost use Rattle.network.specs.Machine.{step, is_numbered, AreNumbered, replies, after, answered_events};
ghost use Rattle.network.specs.Faults.{IsEventCause, IsFaultAt, HasRoomIn, HasRoomNext};
ghost use Rattle.network.specs.Next.{IsNext};
ghost use Rattle.network.specs.declared.event.NetworkEvent.TheVariants.{Act, Position, Receive};

use crate::event::{NetworkEvent, NetworkReply, is_for_network};
use crate::making::{act_at, position_at, receive_at, refusal_at};
use crate::node::Node;
use crate::reader::NodeReader;
use crate::reading::{next_place, refusal_to_receive, start};
use auto_position::{PositionFault, plan};
use gtid_set::SetFault;
use gtid_text::SourceId;
use journal::Entry;
use replica_core::{Core, Event, Reply};
use rows::Rows;
use std::alloc::{AllocError, Global};
use std::marker::Model;

/// Several replicas. A channel of one reads the binary log of another, or its own.
pub struct Network {
    nodes: Vec<Node>,
    // How far the channels of each node are known to have read.
    readers: Vec<NodeReader>,
}

impl Drop for Network {
    // (by hand: for a caller the end of a Network is one call)
    fn drop(self) {
        let Network {
            nodes: _nodes,
            readers: _readers,
        } = self;
    }
}

impl Model for Network {
    ghost use Rattle.std.specs.Prelude.{List};
    ghost use Rattle.std.specs.Coded.{codes};
    ghost use Rattle.gtid_set.specs.Sets.{gtids_code};
    ghost use Rattle.rows.specs.Coding.{rows_code};
    ghost use Rattle.replica_core.specs.Slots.{seats_code};
    ghost use Rattle.network.specs.Slots.{sources_code};
    ghost use Rattle.network.specs.Nodes.{Node};
    ghost use Rattle.network.specs.Reading.{AreRead};

    ghost Value = { List Node };

    ghost coded = { Prim.hlevel (codes, gtids_code, rows_code, seats_code, sources_code) };

    ghost view = { λ n. n.nodes.items };

    ghost invariant = { λ n. AreRead n.nodes.items n.readers.items };
}

/// What a channel has to receive.
#[derive(Drop)]
enum Next {
    /// No entry, and this is the reply.
    Reply(NetworkReply),
    /// No entry, since the channel has all: how many there are.
    End(usize),
    /// The first entry that the channel has not, and its place.
    Entry(usize, Entry),
}

/// Whether no UUID occurs twice.
pub fn ids_distinct(ids: &[SourceId]) -> bool
    ensures { result ≡ ids_distinct ids.now }
{
    for (i, own) in ids.iter().enumerate() {
        if ids[i + 1..].contains(own) {
            return false;
        }
    }
    true
}

impl Network {
    /// How many nodes there are.
    pub fn len(&self) -> usize
        ensures { result ≡ length self.now }
    {
        self.nodes.len()
    }

    /// The replica of a node.
    pub fn replica(&self, node: usize) -> Option<&Core>
        ensures { option_copied result ≡ option_map (λ n. n.replica) (slice_get self.now node) }
    {
        match self.nodes.get(node) {
            Some(one) => Some(one.replica()),
            None => None,
        }
    }

    /// A replica for each UUID, all with these rows and nothing else.
    pub fn open(alloc: Global, ids: &[SourceId], rows: &Rows) -> Result<Network, SetFault>
        requires { ids_distinct ids.now ≡ true }
        ensures ok { IfOk result (λ n. n ≡ new_nodes ids.now rows.now.schema rows.now.rows) }
        ensures fault { IsOkUnless result Memory }
    {
        let mut nodes = Vec::new(alloc);
        let mut readers = Vec::new(alloc);
        for own in ids {
            let copy = rows.copy()?;
            let node = Node::open(alloc, *own, copy)?;
            nodes.push(node)?;
            readers.push(NodeReader::new(alloc))?;
        }
        Ok(Network { nodes, readers })
    }

    /// A node's replica makes an event of its own.
    fn act(&mut self, alloc: Global, node: usize, event: &Event) -> Result<NetworkReply, SetFault>
        requires { machine.is_numbered event.now ≡ true }
        ensures ok { IfOk result (λ r. (r, self.new) ≡ step self.old (Act node event.now)) }
        ensures err { OnErr result (self.new ≡ self.old) }
        ensures fault { IfErr result (λ f. IsEventCause f self.old (Act node event.now)) }
        ensures room { IfErr result (λ f. HasRoomIn f self.old (Act node event.now)) }
    {
        if node >= self.nodes.len() {
            return Ok(NetworkReply::NoNode);
        }
        if is_for_network(event) {
            return Ok(NetworkReply::NotHere);
        }
        let reply = act_at(&mut self.nodes, &mut self.readers, alloc, node, event)?;
        Ok(NetworkReply::Replied(reply))
    }

    /// Positions a channel of a node at a source, if the source sends.
    fn position(
        &mut self,
        alloc: Global,
        node: usize,
        channel: usize,
        source: usize,
    ) -> Result<NetworkReply, SetFault>
        ensures ok { IfOk result (λ r. (r, self.new) ≡ step self.old (Position node channel source)) }
        ensures err { OnErr result (self.new ≡ self.old) }
        ensures fault { IfErr result (λ f. IsEventCause f self.old (Position node channel source)) }
        ensures room { IfErr result (λ f. HasRoomIn f self.old (Position node channel source)) }
    {
        let Some(one) = self.nodes.get(node) else {
            return Ok(NetworkReply::NoNode);
        };
        let Some(from) = self.nodes.get(source) else {
            return Ok(NetworkReply::NoNode);
        };
        let Some(ask) = one.replica().ask(alloc, channel)? else {
            return Ok(NetworkReply::Replied(Reply::NoChannel));
        };
        ask.keeps_limits();
        let own = from.replica().own();
        match plan(
            alloc,
            Some(own),
            from.replica().journal().as_journal(),
            &ask,
        ) {
            Ok(_) => {}
            Err(PositionFault::Set(fault)) => return Err(fault),
            Err(PositionFault::PurgedRequired(gtids)) => {
                return Ok(NetworkReply::Refused(PositionFault::PurgedRequired(gtids)));
            }
            Err(PositionFault::ReplicaHasMore(gtids)) => {
                return Ok(NetworkReply::Refused(PositionFault::ReplicaHasMore(gtids)));
            }
        }
        let reply = position_at(
            &mut self.nodes,
            &mut self.readers,
            alloc,
            node,
            channel,
            source,
        )?;
        Ok(NetworkReply::Replied(reply))
    }

    /// What a channel of a node has to receive.
    fn next(&self, alloc: Global, node: usize, channel: usize) -> Result<Next, SetFault>
        ensures ok { IfOk result (IsNext self.now node channel) }
        ensures fault { IfErr result (λ f. IsEventCause f self.now (Receive node channel)) }
        ensures room { IfErr result (λ f. HasRoomIn f self.now (Receive node channel)) }
    {
        let Some(one) = self.nodes.get(node) else {
            return Ok(Next::Reply(NetworkReply::NoNode));
        };
        let Some(into) = one.replica().channel(channel) else {
            return Ok(Next::Reply(NetworkReply::Replied(Reply::NoChannel)));
        };
        let Some(asked) = into.last_ask() else {
            return Ok(Next::Reply(NetworkReply::Replied(Reply::NotPositioned)));
        };
        let Some(source) = one.source(channel) else {
            return Ok(Next::Reply(NetworkReply::Replied(Reply::NotPositioned)));
        };
        let Some(from) = self.nodes.get(source) else {
            return Ok(Next::Reply(NetworkReply::NoNode));
        };
        let journal = from.replica().journal().as_journal();
        let known = self.readers[node].place(channel);
        let Some(place) = start(alloc, known, journal, asked, into.received())? else {
            return Ok(Next::Reply(NetworkReply::Replied(Reply::NotPositioned)));
        };
        journal.keeps_rules();
        let next = next_place(journal.entries(), place, asked, into.received());
        match journal.entries().get(next) {
            Some(entry) => match entry.clone() {
                Ok(copy) => Ok(Next::Entry(next, copy)),
                Err(_) => Err(refusal_to_receive(into, entry)),
            },
            None => Ok(Next::End(next)),
        }
    }

    /// A channel of a node receives the first entry of its source that it has not.
    fn receive(
        &mut self,
        alloc: Global,
        node: usize,
        channel: usize,
    ) -> Result<NetworkReply, SetFault>
        ensures ok { IfOk result (λ r. (r, self.new) ≡ step self.old (Receive node channel)) }
        ensures err { OnErr result (self.new ≡ self.old) }
        ensures fault { IfErr result (λ f. IsEventCause f self.old (Receive node channel)) }
        ensures room { IfErr result (λ f. HasRoomIn f self.old (Receive node channel)) }
    {
        match self.next(alloc, node, channel)? {
            Next::Reply(reply) => Ok(reply),
            Next::End(place) => {
                self.readers[node].put(channel, place)?;
                Ok(NetworkReply::Nothing)
            }
            Next::Entry(place, entry) => {
                let reply = receive_at(
                    &mut self.nodes,
                    &mut self.readers,
                    alloc,
                    node,
                    channel,
                    place,
                    entry,
                )?;
                Ok(NetworkReply::Replied(reply))
            }
        }
    }

    /// One event: its reply, and the nodes that it leaves. After an error nothing has changed. `SourcesFull` and `PoolFull` come only if a
    /// set that the event makes would have more than 65,536 sources, or its operands together more than 4,294,967,294 intervals. `Memory`
    /// comes only if that set has not too many sources (`room`), unless a Receive needs memory to find out what it receives.
    pub fn step(&mut self, alloc: Global, event: &NetworkEvent) -> Result<NetworkReply, SetFault>
        requires { is_numbered event.now ≡ true }
        ensures ok { IfOk result (λ r. (r, self.new) ≡ step self.old event.now) }
        ensures err { OnErr result (self.new ≡ self.old) }
        ensures fault { IfErr result (λ f. IsEventCause f self.old event.now) }
        ensures room { IfErr result (λ f. HasRoomIn f self.old event.now) }
    {
        match event {
            NetworkEvent::Act { node, event } => self.act(alloc, *node, event),
            NetworkEvent::Position {
                node,
                channel,
                source,
            } => self.position(alloc, *node, *channel, *source),
            NetworkEvent::Receive { node, channel } => self.receive(alloc, *node, *channel),
        }
    }

    /// The fault of a Receive if there is no memory before it.
    fn refusal_to_receive(&self, alloc: Global, node: usize, channel: usize) -> SetFault
        ensures fault { IsEventCause result self.now (Receive node channel) }
        ensures room { HasRoomIn result self.now (Receive node channel) }
    {
        match self.next(alloc, node, channel) {
            Ok(Next::Entry(_, entry)) => {
                refusal_at(&self.nodes, node, &Event::Receive(channel, entry))
            }
            Ok(Next::Reply(_)) => SetFault::Memory,
            Ok(Next::End(_)) => SetFault::Memory,
            Err(fault) => fault,
        }
    }

    /// The fault of an event if there is no memory before it.
    fn refusal(&self, alloc: Global, event: &NetworkEvent) -> SetFault
        ensures fault { IsEventCause result self.now event.now }
        ensures room { HasRoomIn result self.now event.now }
    {
        match event {
            NetworkEvent::Act { node, event } => {
                if is_for_network(event) {
                    return SetFault::Memory;
                }
                refusal_at(&self.nodes, *node, event)
            }
            NetworkEvent::Position {
                node,
                channel,
                source: _,
            } => refusal_at(&self.nodes, *node, &Event::Position(*channel)),
            NetworkEvent::Receive { node, channel } => {
                self.refusal_to_receive(alloc, *node, *channel)
            }
        }
    }
}

/// Appends a reply, if there is room.
fn put(so_far: &mut Vec<NetworkReply>, reply: NetworkReply)
    requires { vec_len so_far.old < vec_capacity so_far.old }
    ensures { so_far.new.items ≡ so_far.old.items ++ reply ∷ [] }
{
    if so_far.push(reply).is_err() {
        unreachable!()
    }
}

impl Network {
    /// Events in turn: the replies up to the first error, and that error. What was done before it is kept.
    /// Room for each reply is made before its step.
    pub fn run(
        &mut self,
        alloc: Global,
        events: &[NetworkEvent],
    ) -> (Vec<NetworkReply>, Option<SetFault>)
        requires { AreNumbered events.now }
        ensures replies { result.0.items ≡ replies self.old (answered_events result.0.items events.now) }
        ensures nodes { self.new ≡ after self.old (answered_events result.0.items events.now) }
        ensures whole { result.1 ≡ None → length result.0.items ≡ length events.now }
        ensures cut { IfSome result.1 (λ fault. length result.0.items < length events.now) }
        ensures fault { IfSome result.1 (λ f. IsFaultAt f self.new (slice_get events.now (length result.0.items))) }
        ensures room { IfSome result.1 (λ f. HasRoomNext f self.new (slice_get events.now (length result.0.items))) }
    {
        let mut so_far = Vec::new(alloc);
        for event in events {
            if so_far.reserve(1).is_err() {
                return (so_far, Some(self.refusal(alloc, event)));
            }
            match self.step(alloc, event) {
                Ok(reply) => put(&mut so_far, reply),
                Err(fault) => return (so_far, Some(fault)),
            }
        }
        (so_far, None)
    }
}
