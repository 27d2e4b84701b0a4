//! How far the channels of a node are known to have read the binary logs of their sources.
ghost use Rattle.std.specs.Prelude.{◌≡◌, OnOk, OnErr};
ghost use Rattle.std.specs.FinMap as finmap;
ghost use Rattle.network.specs.Slots.{sources_of};
ghost use Rattle.network.specs.Reading.{AreMoved, shift_place};

use crate::node::Node;
use crate::slots::{fill, free, make_slots, slot_at};
use std::alloc::{AllocError, Global};
use std::marker::Model;

/// For each channel of a node, how many entries at the start of its source's binary log it has, if that is known.
#[derive(Drop)]
pub(crate) struct NodeReader {
    places: Vec<Option<usize>>,
}

impl Model for NodeReader {
    ghost use Rattle.std.specs.Coded.{codes};
    ghost use Rattle.network.specs.Slots.{sources_of, sources_code};
    ghost use Rattle.network.specs.Reading.{Places};

    ghost Value = { Places };

    ghost coded = { Prim.hlevel (codes, sources_code) };

    ghost view = { λ r. sources_of r.places.items };
}

/// A place after a purge of this many entries.
fn shift_place(place: Option<usize>, count: usize) -> Option<usize>
    ensures { result ≡ shift_place count place }
{
    let place = place?;
    if count <= place {
        Some(place - count)
    } else {
        None
    }
}

/// Moves back the places of the channels that read a node after a purge of this many entries.
fn move_slots(places: &mut [Option<usize>], node: &Node, source: usize, count: usize)
    ensures { AreMoved node.now.sources source count (sources_of places.old) (sources_of places.new) }
{
    for channel in 0..places.len() {
        if node.reads(channel, source) {
            places[channel] = shift_place(places[channel], count);
        }
    }
}

impl NodeReader {
    /// No channel's place is known.
    pub(crate) fn new(alloc: Global) -> NodeReader
        ensures { result ≡ finmap.empty }
    {
        NodeReader {
            places: Vec::new(alloc),
        }
    }

    /// How many entries at the start a channel has, if that is known.
    pub(crate) fn place(&self, channel: usize) -> Option<usize>
        ensures { result ≡ finmap.get self.now channel }
    {
        slot_at(&self.places, channel)
    }

    /// Notes that a channel has this many entries at the start.
    pub(crate) fn put(&mut self, channel: usize, place: usize) -> Result<(), AllocError>
        ensures ok { OnOk result (self.new ≡ finmap.insert self.old channel place) }
        ensures err { OnErr result (self.new ≡ self.old) }
    {
        make_slots(&mut self.places, channel)?;
        fill(&mut self.places, channel, place);
        Ok(())
    }

    /// It is no longer known how far a channel has read.
    pub(crate) fn forget(&mut self, channel: usize)
        ensures { self.new ≡ finmap.remove self.old channel }
    {
        free(&mut self.places, channel);
    }

    /// Moves the places of the channels that read a node, of which `count` entries were purged.
    pub(crate) fn move_back(&mut self, node: &Node, source: usize, count: usize)
        ensures { AreMoved node.now.sources source count self.old self.new }
    {
        move_slots(&mut self.places, node, source, count);
    }
}
