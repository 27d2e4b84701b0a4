//! A channel.
ghost use Rattle.std.specs.Prelude.{◌≡◌, ◌≤◌, ◌<◌, ◌↔◌, suc, OnOk, OnErr, IfOk, IfErr, Some, None, length, MatchOption, true, false, ◌==◌};
ghost use Rattle.std.specs.Bool.{Decides};
ghost use Rattle.std.specs.Option.{option_copied, option_map_or};
ghost use Rattle.std.specs.FinSet as set;
ghost use Rattle.apply_channel.specs.Channels.{new_channel, blocker, next_ready, first_waiting, are_settled, executed_gtid, settle_channel, settle_at, received_gtids, IsPlace, IsNoPlace, is_full, with_stopped, with_asked, with_entry, with_received};
ghost use Rattle.apply_channel.specs.Kept.{IsLastOpen, received_of};
ghost use Rattle.apply_channel.specs.Full.{IsFull, gtids_with, IsReceiveFault};
ghost use Rattle.gtid_set.specs.Full.{IsFullExactly};

use crate::places::{last_place, open_unless, put_node, put_place, take_place};
use crate::slot::{ReceivedSlot, copy_unless, keys_unless, same_entries};
use dependency_graph::Graph;
use gtid_set::{GtidSet, SetFault};
use gtid_text::Gtid;
use journal::Entry;
use key_table::KeyTable;
use rows::{Changes, Name, Schema, Transaction};
use std::alloc::{AllocError, Global};
use std::marker::Model;
use thiserror::Error;

/// The greatest number of entries that a channel receives (our own limit).
const MOST: usize = 4_294_967_294;

/// Why an entry was not received.
#[derive(Clone, Copy, Debug, PartialEq, Eq, Error)]
pub enum ReceiveFault {
    /// The channel has 4,294,967,294 entries.
    #[error("the channel is full")]
    Full,
    /// The set of received GTIDs could not grow.
    #[error("{0}")]
    Set(SetFault),
}

/// What was received from one source, in places from 0.
/// (MySQL 8.0 Reference Manual, "MySQL Multi-Source Replication".)
pub struct Channel {
    schema: Schema,
    name: Name,
    preserve: bool,
    stopped: bool,
    asked: Option<GtidSet>,
    slots: Vec<ReceivedSlot>,
    places: KeyTable<Gtid, Option<usize>>,
    graph: Graph,
    received: GtidSet,
}

impl Drop for Channel {
    // (by hand: for a caller the end of a Channel is one call)
    fn drop(self) {
        let Channel {
            schema: _schema,
            name: _name,
            preserve: _preserve,
            stopped: _stopped,
            asked: _asked,
            slots: _slots,
            places: _places,
            graph: _graph,
            received: _received,
        } = self;
    }
}

impl Model for Channel {
    ghost use Rattle.apply_channel.specs.Channels.{Keyed};
    ghost use Rattle.std.specs.Coded.{codes};
    ghost use Rattle.gtid_set.specs.Sets.{gtids_code};

    ghost Value = { Keyed };

    ghost coded = { Prim.hlevel (codes, gtids_code) };

    ghost use Rattle.apply_channel.specs.Kept.{entries_of, IsKept};

    ghost view = { λ c. record {
      schema = c.schema;
      channel = record { name = c.name; preserve = c.preserve; stopped = c.stopped; asked = c.asked; received = entries_of c.slots.items };
    } };

    ghost invariant = { λ c. IsKept c.schema c.slots.items c.places.entries c.graph c.received };
}

impl Channel {
    /// A channel that has received nothing and is not stopped, for transactions of this schema.
    pub fn open(alloc: Global, schema: Schema, name: Name, preserve: bool) -> Channel
        ensures { result ≡ record { schema = schema; channel = new_channel name preserve } }
    {
        Channel {
            schema,
            name,
            preserve,
            stopped: false,
            asked: None,
            slots: Vec::new(alloc),
            places: KeyTable::new(alloc),
            graph: Graph::start(alloc),
            received: GtidSet::empty(alloc),
        }
    }

    /// The channel's name.
    pub fn name(&self) -> &Name
        ensures { result.now ≡ self.now.channel.name }
    {
        &self.name
    }

    /// Whether its transactions commit in the order of their places (our own rule, after
    /// "replica_preserve_commit_order").
    pub fn preserves(&self) -> bool
        ensures { result ≡ self.now.channel.preserve }
    {
        self.preserve
    }

    /// Whether it is stopped.
    pub fn is_stopped(&self) -> bool
        ensures { result ≡ self.now.channel.stopped }
    {
        self.stopped
    }

    /// Stops the channel, or lets it run.
    pub fn set_stopped(&mut self, flag: bool)
        ensures { self.new ≡ record self.old { channel = with_stopped flag self.old.channel } }
    {
        self.stopped = flag;
    }

    /// The set that it asked with last, if it has asked.
    pub fn last_ask(&self) -> Option<&GtidSet>
        ensures { option_copied result ≡ self.now.channel.asked }
    {
        self.asked.as_ref()
    }

    /// Stores the set that it asks with.
    pub fn set_ask(&mut self, asked: GtidSet)
        ensures { self.new ≡ record self.old { channel = with_asked asked self.old.channel } }
    {
        self.asked = Some(asked);
    }

    /// The set of all GTIDs that were received.
    pub fn received(&self) -> &GtidSet
        ensures { result.now ≡ received_gtids self.now.channel.received }
    {
        &self.received
    }

    /// How many entries were received.
    pub fn len(&self) -> usize
        ensures { result ≡ length self.now.channel.received }
    {
        self.slots.len()
    }

    /// Whether nothing was received.
    pub fn is_empty(&self) -> bool
        ensures { result ≡ (length self.now.channel.received == 0) }
    {
        self.slots.is_empty()
    }

    /// The GTID at a place, with its transaction if the GTID is not executed.
    pub fn entry(&self, place: usize) -> Option<(Gtid, Option<&Transaction>)>
        ensures { MatchOption result (IsNoPlace self.now place) (λ e. IsPlace self.now place e.0 (option_copied e.1)) }
    {
        let slot = self.slots.get(place)?;
        Some((slot.gtid(), slot.txn()))
    }
}

impl Channel {
    /// Whether it has received as many entries as it can.
    #[tactic(auto, unfolding(crate::specs::Channels::most_received))]
    pub fn is_full(&self) -> bool
        ensures { result ≡ is_full self.now.channel }
    {
        MOST <= self.slots.len()
    }

    /// Appends an entry and returns its place. The caller states whether its GTID is executed.
    pub fn receive(
        &mut self,
        alloc: Global,
        entry: &Entry,
        executed: bool,
    ) -> Result<usize, ReceiveFault>
        ensures place { IfOk result (λ place. place ≡ length self.old.channel.received) }
        ensures put { OnOk result (self.new ≡ with_entry executed entry.now self.old) }
        ensures full { IsFull result ↔ (is_full self.old.channel ≡ true) }
        ensures fault { IfErr result (λ f. IsReceiveFault f (gtids_with entry.now self.old.channel)) }
        ensures err { OnErr result (self.new ≡ self.old) }
    {
        let place = self.len();
        if self.is_full() {
            return Err(ReceiveFault::Full);
        }
        match self.put_entry(alloc, entry, executed) {
            Ok(()) => Ok(place),
            Err(fault) => Err(ReceiveFault::Set(fault)),
        }
    }

    /// Appends an entry.
    fn put_entry(&mut self, alloc: Global, entry: &Entry, executed: bool) -> Result<(), SetFault>
        requires { is_full self.old.channel ≡ false }
        ensures put { OnOk result (self.new ≡ with_entry executed entry.now self.old) }
        ensures fault { IsFullExactly result (gtids_with entry.now self.old.channel) }
        ensures err { OnErr result (self.new ≡ self.old) }
    {
        if executed && self.is_settled() {
            return self.put_settled(entry.gtid);
        }
        self.put(alloc, entry, executed)
    }

    /// Appends an entry, with its node's keys and its transaction unless it is executed.
    fn put(&mut self, alloc: Global, entry: &Entry, executed: bool) -> Result<(), SetFault>
        requires { is_full self.old.channel ≡ false }
        ensures put { OnOk result (self.new ≡ with_entry executed entry.now self.old) }
        ensures fault { IsFullExactly result (gtids_with entry.now self.old.channel) }
        ensures err { OnErr result (self.new ≡ self.old) }
    {
        if !self.received.has_room_for(&entry.gtid) {
            return Err(SetFault::SourcesFull);
        }
        let keys = keys_unless(alloc, executed, &self.schema, &entry.txn)?;
        let txn = copy_unless(executed, &entry.txn)?;
        let earlier = open_unless(executed, &mut self.places, &entry.gtid)?;
        let place = self.slots.len();
        self.slots
            .push(ReceivedSlot::new(entry.gtid, txn, earlier))?;
        match put_node(alloc, &mut self.graph, &mut self.received, keys, entry.gtid) {
            Ok(()) => {}
            Err(fault) => {
                self.slots.truncate(place);
                return Err(fault);
            }
        }
        if executed {
            self.graph.finish(place);
            return Ok(());
        }
        put_place(&mut self.places, &entry.gtid, place);
        Ok(())
    }

    /// Appends an executed GTID to a channel in which every GTID is executed.
    fn put_settled(&mut self, gtid: Gtid) -> Result<(), SetFault>
        requires room { is_full self.old.channel ≡ false }
        requires settled { are_settled self.old.channel.received ≡ true }
        ensures put { OnOk result (self.new ≡ record self.old { channel = with_received (executed_gtid gtid) self.old.channel }) }
        ensures fault { IsFullExactly result (set.insert (received_gtids self.old.channel.received) gtid) }
        ensures err { OnErr result (self.new ≡ self.old) }
    {
        if !self.received.has_room_for(&gtid) {
            return Err(SetFault::SourcesFull);
        }
        self.slots.reserve(1)?;
        self.received.add(gtid)?;
        let _ = self.slots.push(ReceivedSlot::new(gtid, None, None));
        self.graph.add_finished();
        Ok(())
    }
}

impl Channel {
    /// Drops the transaction at the last place of a GTID that is not executed; returns the GTID's place before that one.
    fn settle(&mut self, gtid: &Gtid, place: usize) -> Option<usize>
        requires { IsLastOpen self.old.channel.received gtid.now (length self.old.channel.received) (Some place) }
        ensures settled { self.new ≡ record self.old { channel = settle_at place self.old.channel } }
        ensures last { IsLastOpen self.new.channel.received gtid.now (length self.new.channel.received) result }
        ensures below { option_map_or suc result 0 ≤ place }
    {
        let earlier = self.slots[place].settle();
        take_place(&mut self.places, gtid, earlier);
        self.graph.finish(place);
        earlier
    }

    /// The last place of a GTID that is not executed.
    fn last_open(&self, gtid: &Gtid) -> Option<usize>
        ensures { IsLastOpen self.now.channel.received gtid.now (length self.now.channel.received) result }
    {
        // (if all is executed, no set is searched)
        if self.is_settled() {
            return None;
        }
        if !self.received.contains(gtid) {
            return None;
        }
        last_place(&self.places, gtid)
    }

    /// Marks a GTID as executed: its transactions are dropped at all its places. It does not allocate.
    pub fn mark_executed(&mut self, gtid: &Gtid)
        ensures { self.new ≡ record self.old { channel = settle_channel gtid.now self.old.channel } }
    {
        let mut next = self.last_open(gtid);
        'settling: while let Some(place) = next {
            next = self.settle(gtid, place);
        }
    }

    /// The least earlier place that is not executed and shares a key with this one.
    pub fn blocker(&self, place: usize) -> Option<usize>
        requires { place < length self.now.channel.received }
        ensures { result ≡ blocker self.now.schema self.now.channel.received place }
    {
        match self.slots[place].txn() {
            Some(_) => self.graph.blocker(place),
            None => None,
        }
    }

    /// The least place from this number on that is not executed and that no earlier place blocks.
    pub fn next_ready(&self, from: usize) -> Option<usize>
        ensures { result ≡ next_ready self.now.schema self.now.channel.received from }
    {
        self.graph.next_ready(from)
    }

    /// The least earlier place that is not executed.
    pub fn first_waiting(&self, place: usize) -> Option<usize>
        requires { place ≤ length self.now.channel.received }
        ensures { result ≡ first_waiting self.now.channel.received place }
    {
        let Some(first) = self.graph.next_ready(0) else {
            return None;
        };
        if first < place {
            return Some(first);
        }
        None
    }

    /// Whether every received GTID is executed.
    pub fn is_settled(&self) -> bool
        ensures { result ≡ are_settled self.now.channel.received }
    {
        self.graph.next_ready(0).is_none()
    }
}

/// A copy of the set that a channel asked with.
fn copy_asked(alloc: Global, asked: &Option<GtidSet>) -> Result<Option<GtidSet>, AllocError>
    ensures { IfOk result (λ copy. copy ≡ asked.now) }
{
    let Some(asked) = asked else {
        return Ok(None);
    };
    let Ok(copy) = asked.copy(alloc) else {
        return Err(AllocError);
    };
    Ok(Some(copy))
}

/// Whether two channels asked with the same set, or both have not asked.
fn same_asked(left: &Option<GtidSet>, right: &Option<GtidSet>) -> bool
    ensures { Decides result (left.now ≡ right.now) }
{
    match left {
        Some(asked) => match right {
            Some(other) => asked.is_equal(other),
            None => false,
        },
        None => right.is_none(),
    }
}

impl Channel {
    /// Appends the entry of a slot.
    fn put_slot(&mut self, alloc: Global, slot: &ReceivedSlot) -> Result<(), AllocError>
        ensures { OnOk result (self.new ≡ record self.old { channel = with_received (received_of slot.now) self.old.channel }) }
    {
        let gtid = slot.gtid();
        match slot.txn() {
            Some(txn) => {
                let txn = txn.clone()?;
                let Ok(_) = self.receive(alloc, &Entry { gtid, txn }, false) else {
                    return Err(AllocError);
                };
                Ok(())
            }
            None => {
                let changes = Changes::new(Vec::new(alloc))?;
                let txn = Transaction { changes };
                let Ok(_) = self.receive(alloc, &Entry { gtid, txn }, true) else {
                    return Err(AllocError);
                };
                Ok(())
            }
        }
    }

    /// The same channel. The changes of its transactions are shared, not copied. The one error is a failed allocation.
    pub fn copy(&self, alloc: Global) -> Result<Channel, AllocError>
        ensures { IfOk result (λ copy. copy ≡ self.now) }
    {
        let schema = self.schema.clone()?;
        let name = self.name.clone()?;
        let mut copy = Channel::open(alloc, schema, name, self.preserve);
        for slot in &self.slots {
            copy.put_slot(alloc, slot)?;
        }
        copy.asked = copy_asked(alloc, &self.asked)?;
        copy.stopped = self.stopped;
        Ok(copy)
    }

    /// Whether the channels are the same: schema, name, flags, the set asked with, and the entries received.
    pub fn is_equal(&self, other: &Channel) -> bool
        ensures { Decides result (self.now ≡ other.now) }
    {
        if self.preserve != other.preserve {
            return false;
        }
        if self.stopped != other.stopped {
            return false;
        }
        if self.name != other.name {
            return false;
        }
        if !self.schema.is_equal(&other.schema) {
            return false;
        }
        if !same_asked(&self.asked, &other.asked) {
            return false;
        }
        same_entries(&self.slots, &other.slots)
    }
}
