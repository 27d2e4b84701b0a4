//! The events of channels: OpenChannel, Position, Receive and Restart.
ghost use Rattle.std.specs.Prelude.{◌≡◌, IfOk, IfErr, OnErr, true, None};
ghost use Rattle.std.specs.FinSet as set;
ghost use Rattle.apply_channel.specs.Channels.{received_gtids};
ghost use Rattle.gtid_set.specs.Full.{IsFullExactly};
ghost use Rattle.journal.specs.Writing.{is_number};
ghost use Rattle.rows.specs.Fits.{Fits};
ghost use Rattle.replica_core.specs.Machine.{open_channel, position_on, receive, restart};
ghost use Rattle.replica_core.specs.Faults.{IsFault, IsFaultIn, HasRoomFor, ask_set, received_set};

use crate::event::Reply;
use crate::machine::Core;
use apply_channel::{Channel, ReceiveFault};
use gtid_set::{GtidSet, SetFault};
use journal::Entry;
use rows::{Name, fits};
use std::alloc::Global;

/// The set with which a channel asks when these GTIDs are executed: their union with what it has received. If it has received nothing, the
/// set is copied, with no pass over the intervals.
pub(crate) fn asked_with(
    alloc: Global,
    executed: &GtidSet,
    channel: &Channel,
) -> Result<GtidSet, SetFault>
    ensures ok { IfOk result (λ asked. asked ≡ set.union executed.now (received_gtids channel.now.channel.received)) }
    ensures full { IsFullExactly result (set.union executed.now (received_gtids channel.now.channel.received)) }
{
    if channel.is_empty() {
        executed.keeps_limits();
        return executed.copy(alloc);
    }
    executed.union(alloc, channel.received())
}

impl Core {
    /// The event OpenChannel.
    pub(crate) fn open_channel(
        &mut self,
        alloc: Global,
        name: &Name,
        preserve: bool,
    ) -> Result<Reply, SetFault>
        ensures ok { IfOk result (λ r. (r, self.new.state) ≡ open_channel name.now preserve self.old.state) }
        ensures site { self.new.site ≡ self.old.site }
        ensures err { OnErr result (self.new ≡ self.old) }
        ensures fault { IfErr result (λ f. IsFault (IsFaultIn f None) (open_channel name.now preserve self.old.state)) }
    {
        if self.channels.has_name(name) {
            return Ok(Reply::NameTaken);
        }
        let opened = self.channels.len();
        if 256 <= opened {
            return Ok(Reply::ChannelsFull);
        }
        match self.channels.push(alloc, name, preserve) {
            Ok(()) => return Ok(Reply::Opened(opened)),
            Err(fault) => return Err(fault),
        }
    }

    /// The event Position: the executed set with what the channel itself has received.
    /// (MySQL 8.0 Reference Manual, "GTID Auto-Positioning".)
    pub(crate) fn position(&mut self, alloc: Global, channel: usize) -> Result<Reply, SetFault>
        ensures ok { IfOk result (λ r. (r, self.new.state) ≡ position_on channel self.old.state) }
        ensures site { self.new.site ≡ self.old.site }
        ensures err { OnErr result (self.new ≡ self.old) }
        ensures fault { IfErr result (λ f. IsFault (IsFaultIn f (ask_set channel self.old.state)) (position_on channel self.old.state)) }
        ensures room { IfErr result (λ f. HasRoomFor f (ask_set channel self.old.state)) }
    {
        let Some(one) = self.channels.get(channel) else {
            return Ok(Reply::NoChannel);
        };
        let asked = asked_with(alloc, self.journal.executed(), one)?;
        let shown = asked.copy(alloc)?;
        self.channels.set_ask(channel, asked);
        Ok(Reply::Ask(shown))
    }

    /// The event Receive.
    pub(crate) fn receive(
        &mut self,
        alloc: Global,
        channel: usize,
        entry: &Entry,
    ) -> Result<Reply, SetFault>
        requires { is_number entry.now.gtid.number ≡ true }
        ensures ok { IfOk result (λ r. (r, self.new.state) ≡ receive self.old.site channel entry.now self.old.state) }
        ensures site { self.new.site ≡ self.old.site }
        ensures err { OnErr result (self.new ≡ self.old) }
        ensures fault { IfErr result (λ f. IsFault (IsFaultIn f (received_set channel entry.now self.old.state)) (receive self.old.site channel entry.now self.old.state)) }
        ensures room { IfErr result (λ f. HasRoomFor f (received_set channel entry.now self.old.state)) }
    {
        let Some(one) = self.channels.get(channel) else {
            return Ok(Reply::NoChannel);
        };
        if one.last_ask().is_none() {
            return Ok(Reply::NotPositioned);
        }
        if let Err(fault) = fits(self.rows.schema(), &entry.txn) {
            return Ok(Reply::NotInSchema(fault));
        }
        self.receive_fitting(alloc, channel, entry)
    }

    /// The event Receive of an entry whose transaction the schema takes, which is not tested again.
    pub(crate) fn receive_fitting(
        &mut self,
        alloc: Global,
        channel: usize,
        entry: &Entry,
    ) -> Result<Reply, SetFault>
        requires number { is_number entry.now.gtid.number ≡ true }
        requires fits { Fits self.old.site.schema entry.now.txn }
        ensures ok { IfOk result (λ r. (r, self.new.state) ≡ receive self.old.site channel entry.now self.old.state) }
        ensures site { self.new.site ≡ self.old.site }
        ensures err { OnErr result (self.new ≡ self.old) }
        ensures fault { IfErr result (λ f. IsFault (IsFaultIn f (received_set channel entry.now self.old.state)) (receive self.old.site channel entry.now self.old.state)) }
        ensures room { IfErr result (λ f. HasRoomFor f (received_set channel entry.now self.old.state)) }
    {
        let Some(one) = self.channels.get(channel) else {
            return Ok(Reply::NoChannel);
        };
        if one.last_ask().is_none() {
            return Ok(Reply::NotPositioned);
        }
        let executed = self.journal.executed().contains(&entry.gtid);
        match self.channels.receive(alloc, channel, entry, executed) {
            Ok(place) => return Ok(Reply::Received(place)),
            Err(ReceiveFault::Full) => return Ok(Reply::ChannelFull),
            Err(ReceiveFault::Set(fault)) => return Err(fault),
        }
    }

    /// The event Restart. It does not allocate.
    pub(crate) fn restart(&mut self, channel: usize) -> Reply
        ensures made { (result, self.new.state) ≡ restart channel self.old.state }
        ensures site { self.new.site ≡ self.old.site }
    {
        if channel < self.channels.len() {
            self.channels.set_stopped(channel, false);
            return Reply::Restarted;
        }
        Reply::NoChannel
    }
}
