//! The channels of a replica, all with one schema.
ghost use Rattle.std.specs.Prelude.{◌≡◌, ◌<◌, ◌↔◌, ℕ, OnOk, OnErr, IfOk, IfErr, IsOkUnless, [], ◌∷◌, ◌++◌, true, length, map, MatchOption};
ghost use Rattle.std.specs.List.{list_all, list_any};
ghost use Rattle.apply_channel.specs.Channels.{are_settled, new_channel, settle_channel, same_name, with_stopped, with_asked, with_received, with_entry, received_as};
ghost use Rattle.replica_core.specs.Machine.{change_at};
ghost use Rattle.replica_core.specs.Keyed.{keyed_settled, keyed_stopped, keyed_asked, keyed_len_at, keyed_full_at, len_at, full_at, IsKeyedRefusedAt, IsRefusedAt, with_channels, IsAt, IsNotAt};
ghost use Rattle.apply_channel.specs.Full.{IsFull};
ghost use Rattle.gtid_set.specs.declared.fault.SetFault.TheVariants.{Memory};

use apply_channel::{Channel, ReceiveFault};
use gtid_set::{GtidSet, SetFault};
use gtid_text::Gtid;
use journal::Entry;
use rows::{Name, Schema};
use std::alloc::Global;
use std::marker::Model;

/// The channels of a replica, all with one schema.
#[derive(Drop)]
pub(crate) struct Channels {
    pub(crate) schema: Schema,
    pub(crate) list: Vec<Channel>,
}

impl Model for Channels {
    ghost use Rattle.std.specs.Prelude.{map};
    ghost use Rattle.std.specs.Coded.{codes};
    ghost use Rattle.gtid_set.specs.Sets.{gtids_code};
    ghost use Rattle.replica_core.specs.Kept.{ChannelsValue, AreOf};

    ghost Value = { ChannelsValue };

    ghost coded = { Prim.hlevel (codes, gtids_code) };

    ghost view = { λ c. record { schema = c.schema; list = map (λ k. k.channel) c.list.items } };

    ghost invariant = { λ c. AreOf c.schema c.list.items };
}

#[tactic(auto, using(crate::proofs::KeyedLemmas::settled_stay))]
fn settle_each(channels: &mut [Channel], gtid: &Gtid)
    ensures { channels.new ≡ map (keyed_settled gtid.now) channels.old }
{
    // (if all is executed, nothing changes)
    if all_settled(channels) {
        return;
    }
    for channel in channels.iter_mut() {
        channel.mark_executed(gtid);
    }
}

fn settle_list(channels: &mut Vec<Channel>, gtid: &Gtid)
    ensures { channels.new.items ≡ map (keyed_settled gtid.now) channels.old.items }
{
    settle_each(channels, gtid);
}

fn stop_one(channels: &mut Vec<Channel>, channel: usize, flag: bool)
    ensures { channels.new.items ≡ change_at channel (keyed_stopped flag) channels.old.items }
{
    if channel < channels.len() {
        let one = &mut channels[channel];
        one.set_stopped(flag);
    }
}

fn ask_one(channels: &mut Vec<Channel>, channel: usize, asked: GtidSet)
    ensures { channels.new.items ≡ change_at channel (keyed_asked asked) channels.old.items }
{
    if channel < channels.len() {
        let one = &mut channels[channel];
        one.set_ask(asked);
    }
}

fn receive_one(
    channels: &mut Vec<Channel>,
    alloc: Global,
    channel: usize,
    entry: &Entry,
    executed: bool,
) -> Result<usize, ReceiveFault>
    requires { channel < length channels.old.items }
    ensures place { IfOk result (λ place. place ≡ keyed_len_at channel channels.old.items) }
    ensures put { OnOk result (channels.new.items ≡ change_at channel (with_entry executed entry.now) channels.old.items) }
    ensures full { IsFull result ↔ (keyed_full_at channel channels.old.items ≡ true) }
    ensures fault { IfErr result (λ f. IsKeyedRefusedAt f entry.now channel channels.old.items) }
    ensures err { OnErr result (channels.new.items ≡ channels.old.items) }
{
    let one = &mut channels[channel];
    one.receive(alloc, entry, executed)
}

fn any_named(channels: &[Channel], name: &Name) -> bool
    ensures { result ≡ list_any (λ k. same_name k.channel.name name.now) channels.now }
{
    channels.iter().any(|channel| is_named(channel, name))
}

fn all_settled(channels: &[Channel]) -> bool
    ensures { result ≡ list_all (λ k. are_settled k.channel.received) channels.now }
{
    channels.iter().all(|channel| channel.is_settled())
}

fn is_named(channel: &Channel, name: &Name) -> bool
    ensures { result ≡ same_name channel.now.channel.name name.now }
{
    *channel.name() == *name
}

impl Channels {
    /// No channel.
    pub(crate) fn new(alloc: Global, schema: Schema) -> Channels
        ensures { result ≡ record { schema = schema; list = [] } }
    {
        Channels {
            schema,
            list: Vec::new(alloc),
        }
    }

    pub(crate) fn len(&self) -> usize
        ensures { result ≡ length self.now.list }
    {
        self.list.len()
    }

    /// The channel of a number.
    pub(crate) fn get(&self, channel: usize) -> Option<&Channel>
        ensures found { MatchOption result (IsNotAt self.now channel) (λ k. IsAt self.now channel k.now) }
    {
        self.list.get(channel)
    }

    /// Whether a channel has this name.
    pub(crate) fn has_name(&self, name: &Name) -> bool
        ensures { result ≡ list_any (λ c. same_name c.name name.now) self.now.list }
    {
        any_named(&self.list, name)
    }

    /// Appends a channel with nothing received.
    pub(crate) fn push(
        &mut self,
        alloc: Global,
        name: &Name,
        preserve: bool,
    ) -> Result<(), SetFault>
        ensures ok { OnOk result (self.new ≡ with_channels (self.old.list ++ new_channel name.now preserve ∷ []) self.old) }
        ensures err { OnErr result (self.new ≡ self.old) }
        ensures fault { IsOkUnless result Memory }
    {
        let name = name.clone()?;
        let schema = self.schema.clone()?;
        self.list
            .push(Channel::open(alloc, schema, name, preserve))?;
        Ok(())
    }

    /// Marks a GTID as executed on all channels.
    pub(crate) fn mark_executed(&mut self, gtid: &Gtid)
        ensures { self.new ≡ with_channels (map (settle_channel gtid.now) self.old.list) self.old }
    {
        settle_list(&mut self.list, gtid);
    }

    /// Stops a channel, or lets it run again.
    pub(crate) fn set_stopped(&mut self, channel: usize, flag: bool)
        ensures { self.new ≡ with_channels (change_at channel (with_stopped flag) self.old.list) self.old }
    {
        stop_one(&mut self.list, channel, flag);
    }

    /// Stores the set with which a channel asks.
    pub(crate) fn set_ask(&mut self, channel: usize, asked: GtidSet)
        ensures { self.new ≡ with_channels (change_at channel (with_asked asked) self.old.list) self.old }
    {
        ask_one(&mut self.list, channel, asked);
    }

    /// A channel receives an entry; the result is its place. The caller states whether its GTID is executed.
    pub(crate) fn receive(
        &mut self,
        alloc: Global,
        channel: usize,
        entry: &Entry,
        executed: bool,
    ) -> Result<usize, ReceiveFault>
        requires { channel < length self.old.list }
        ensures place { IfOk result (λ place. place ≡ len_at channel self.old.list) }
        ensures put { OnOk result (self.new ≡ with_channels (change_at channel (with_received (received_as executed entry.now)) self.old.list) self.old) }
        ensures full { IsFull result ↔ (full_at channel self.old.list ≡ true) }
        ensures fault { IfErr result (λ f. IsRefusedAt f entry.now channel self.old.list) }
        ensures err { OnErr result (self.new ≡ self.old) }
    {
        receive_one(&mut self.list, alloc, channel, entry, executed)
    }

    /// Whether every received GTID is executed.
    pub(crate) fn are_settled(&self) -> bool
        ensures { result ≡ list_all (λ c. are_settled c.received) self.now.list }
    {
        all_settled(&self.list)
    }
}
