//! One replica of a network, and the node that each of its channels reads.
ghost use Rattle.std.specs.Prelude.{◌≡◌, true, IfOk, IfErr, OnErr, IsOkUnless};
ghost use Rattle.std.specs.FinMap as finmap;
ghost use Rattle.gtid_set.specs.declared.fault.SetFault.TheVariants.{Memory};
ghost use Rattle.replica_core.specs.Machine.{is_numbered};
ghost use Rattle.replica_core.specs.declared.event.Event.TheVariants as event;
ghost use Rattle.replica_core.specs.Faults.{IsCause};
ghost use Rattle.network.specs.Nodes.{opened_node};
ghost use Rattle.network.specs.Made.{Makes};
ghost use Rattle.network.specs.Faults.{IsCauseBy, HasRoomBy};
ghost use Rattle.network.specs.Reading.{reads};

use crate::slots::{fill, make_slots, slot_at};
use gtid_set::SetFault;
use gtid_text::SourceId;
use replica_core::{Core, Event, Reply};
use rows::Rows;
use std::alloc::Global;
use std::marker::Model;

/// A replica, and the node that each of its channels reads.
#[derive(Drop)]
pub(crate) struct Node {
    core: Core,
    // The node that each channel was last positioned at, up to the last channel that was.
    sources: Vec<Option<usize>>,
}

impl Model for Node {
    ghost use Rattle.std.specs.Coded.{codes};
    ghost use Rattle.gtid_set.specs.Sets.{gtids_code};
    ghost use Rattle.rows.specs.Coding.{rows_code};
    ghost use Rattle.replica_core.specs.Slots.{seats_code};
    ghost use Rattle.network.specs.Slots.{sources_of, sources_code};
    ghost use Rattle.network.specs.Nodes as nodes;

    ghost Value = { nodes.Node };

    ghost coded = { Prim.hlevel (codes, gtids_code, rows_code, seats_code, sources_code) };

    ghost view = { λ n. record { replica = n.core; sources = sources_of n.sources.items } };
}

impl Node {
    /// A replica with these rows and nothing else, which reads nothing.
    pub(crate) fn open(alloc: Global, own: SourceId, rows: Rows) -> Result<Node, SetFault>
        ensures ok { IfOk result (λ n. n ≡ opened_node rows.schema rows.rows own) }
        ensures fault { IsOkUnless result Memory }
    {
        let core = Core::open(alloc, own, rows)?;
        Ok(Node {
            core,
            sources: Vec::new(alloc),
        })
    }

    /// The replica.
    pub(crate) fn replica(&self) -> &Core
        ensures { result.now ≡ self.now.replica }
    {
        &self.core
    }

    /// The node that a channel was last positioned at.
    pub(crate) fn source(&self, channel: usize) -> Option<usize>
        ensures { result ≡ finmap.get self.now.sources channel }
    {
        slot_at(&self.sources, channel)
    }

    /// Whether a channel was last positioned at this node.
    pub(crate) fn reads(&self, channel: usize, source: usize) -> bool
        ensures { result ≡ reads self.now.sources channel source }
    {
        match self.source(channel) {
            Some(read) => read == source,
            None => false,
        }
    }

    /// The fault of an event of the replica if there is no memory before it.
    pub(crate) fn refusal(&self, event: &Event) -> SetFault
        ensures cause { IsCauseBy result event.now self.now }
        ensures room { HasRoomBy result event.now self.now }
    {
        self.core.refusal(event)
    }

    /// The replica makes an event; its channels read the same nodes as before.
    pub(crate) fn make(&mut self, alloc: Global, event: &Event) -> Result<Reply, SetFault>
        requires { is_numbered event.now ≡ true }
        ensures ok { IfOk result (λ r. Makes self.old event.now self.old.sources r self.new) }
        ensures err { OnErr result (self.new ≡ self.old) }
        ensures fault { IfErr result (λ f. IsCause f self.old.replica.site self.old.replica.state event.now) }
        ensures room { IfErr result (λ f. HasRoomBy f event.now self.old) }
    {
        self.core.step(alloc, event)
    }

    /// A channel is positioned at a source.
    pub(crate) fn position(
        &mut self,
        alloc: Global,
        channel: usize,
        source: usize,
    ) -> Result<Reply, SetFault>
        ensures ok { IfOk result (λ r. Makes self.old (event.Position channel) (finmap.insert self.old.sources channel source) r self.new) }
        ensures err { OnErr result (self.new ≡ self.old) }
        ensures fault { IfErr result (λ f. IsCause f self.old.replica.site self.old.replica.state (event.Position channel)) }
        ensures room { IfErr result (λ f. HasRoomBy f (event.Position channel) self.old) }
    {
        let Ok(()) = make_slots(&mut self.sources, channel) else {
            return Err(self.refusal(&Event::Position(channel)));
        };
        let reply = self.core.step(alloc, &Event::Position(channel))?;
        fill(&mut self.sources, channel, source);
        Ok(reply)
    }
}
