//! An entry that is received, taken and committed at once.
ghost use Rattle.std.specs.Prelude.{◌≡◌, true, is_none, Some, None, IfOk, OnOk, OnErr, IfErr, MatchBool};
ghost use Rattle.std.specs.List.{list_all};
ghost use Rattle.std.specs.FinSet as set;
ghost use Rattle.gtid_set.specs.Full.{IsFaultOf};
ghost use Rattle.journal.specs.Writing.{is_number};
ghost use Rattle.rows.specs.Fits.{Fits};
ghost use Rattle.replica_core.specs.Machine.{receive};
ghost use Rattle.replica_core.specs.AtOnce.{received_and_committed, IsLeft, IsFaultAtOnce, HasRoomAtOnce, IsAtOnce, IsNext, IsReadyAtOnce, IsReceiving};
ghost use Rattle.replica_core.specs.Committing.{IsCommittable, Executes};
ghost use Rattle.replica_core.specs.Draining.{NothingIsOwned};
ghost use Rattle.replica_core.specs.Faults.{IsFault, IsFaultIn, HasRoomFor, received_set, executed_with};
ghost use Rattle.replica_core.specs.declared.event.Reply.TheVariants.{Received};

use crate::event::{Reply, Spot};
use crate::machine::{Core, is_seat};
use apply_channel::{Channel, ReceiveFault};
use gtid_set::SetFault;
use journal::Entry;
use rows::{PrepareFault, Transaction};
use std::alloc::Global;

/// Up to this many channels are asked faster than 64 seats. Our own rule.
const FEW: usize = 16;

/// Whether no seat has a place.
fn are_idle(seats: &[Option<Spot>]) -> bool
    ensures { result ≡ list_all (λ spot. is_none spot) seats.now }
{
    seats.iter().all(|spot| spot.is_none())
}

/// Whether a channel that runs would receive its next entry at this place, and all that it received is
/// executed.
fn is_next(channel: &Channel, place: usize) -> bool
    ensures { result ≡ true → IsNext channel.now.channel place }
{
    channel.last_ask().is_some()
        && !channel.is_stopped()
        && !channel.is_full()
        && place == channel.len()
        && channel.is_settled()
}

impl Core {
    /// Whether no seat has a place. If the channels are few, they are asked first whether they have executed everything: then no seat has a
    /// place.
    fn is_idle(&self) -> bool
        ensures { result ≡ true → NothingIsOwned self.now.state }
    {
        if self.channels.len() <= FEW && self.channels.are_settled() {
            return true;
        }
        are_idle(&self.seats)
    }

    /// Whether an entry that a channel receives at this place needs to wait for nothing: then a seat can
    /// take and commit it at once, unless its transaction does not apply.
    fn is_ready_at_once(&self, seat: u8, channel: usize, place: usize, entry: &Entry) -> bool
        requires { Fits self.now.site.schema entry.now.txn }
        ensures { result ≡ true → IsReadyAtOnce self.now seat channel place entry.now }
    {
        if !is_seat(seat) {
            return false;
        }
        if !self.is_idle() {
            return false;
        }
        let Some(one) = self.kept_channel(channel) else {
            return false;
        };
        if !is_next(one, place) {
            return false;
        }
        if self.executed().contains(&entry.gtid) {
            return false;
        }
        self.executed().has_room_for(&entry.gtid)
    }

    /// Executes an entry and frees no seat. The result is false if its transaction does not apply, and then nothing has changed.
    fn execute_now(
        &mut self,
        alloc: Global,
        entry: Entry,
        txn: &Transaction,
    ) -> Result<bool, SetFault>
        requires may { IsCommittable self.old None entry }
        requires same { txn.now ≡ entry.txn }
        ensures ok { IfOk result (λ made. MatchBool made (Executes self.old None entry self.new) (self.new ≡ self.old)) }
        ensures err { OnErr result (self.new ≡ self.old) }
        ensures fault { IfErr result (λ f. IsFaultOf f (executed_with self.old.state entry.gtid)) }
        ensures room { IfErr result (λ f. HasRoomFor f (Some (executed_with self.old.state entry.gtid))) }
    {
        let gtid = entry.gtid;
        let _ = self.rows.schema().tables();
        self.journal.append(alloc, entry)?;
        match self.rows.apply_fitting(alloc, txn) {
            Ok(()) => {
                self.channels.mark_executed(&gtid);
                return Ok(true);
            }
            Err(PrepareFault::Row(_)) => {
                self.journal.take_back();
                return Ok(false);
            }
            Err(PrepareFault::Memory) => {
                self.journal.take_back();
                return Err(SetFault::Memory);
            }
        }
    }

    /// The event Receive of an entry that is executed, by a channel that has asked and has room: its place.
    fn receive_executed(
        &mut self,
        alloc: Global,
        channel: usize,
        entry: &Entry,
    ) -> Result<usize, SetFault>
        requires number { is_number entry.now.gtid.number ≡ true }
        requires fits { Fits self.old.site.schema entry.now.txn }
        requires executed { set.contains self.old.state.executed entry.now.gtid ≡ true }
        requires receives { IsReceiving self.old channel }
        ensures ok { IfOk result (λ place. (Received place, self.new.state) ≡ receive self.old.site channel entry.now self.old.state) }
        ensures site { self.new.site ≡ self.old.site }
        ensures err { OnErr result (self.new ≡ self.old) }
        ensures fault { IfErr result (λ f. IsFault (IsFaultIn f (received_set channel entry.now self.old.state)) (receive self.old.site channel entry.now self.old.state)) }
        ensures room { IfErr result (λ f. HasRoomFor f (received_set channel entry.now self.old.state)) }
    {
        match self.channels.receive(alloc, channel, entry, true) {
            Ok(place) => return Ok(place),
            Err(ReceiveFault::Full) => unreachable!(),
            Err(ReceiveFault::Set(fault)) => return Err(fault),
        }
    }

    /// Executes an entry that needs to wait for nothing and then lets its channel receive it at this place, which keeps neither its keys
    /// nor its transaction. The result is false if it has to wait or does not apply, and then nothing is done.
    fn commit_at_once(
        &mut self,
        alloc: Global,
        seat: u8,
        channel: usize,
        place: usize,
        entry: &Entry,
    ) -> Result<bool, SetFault>
        requires number { is_number entry.now.gtid.number ≡ true }
        requires fits { Fits self.old.site.schema entry.now.txn }
        ensures done { IfOk result (λ made. MatchBool made (IsAtOnce self.old seat channel place entry.now (Received place) self.new.state) (self.new ≡ self.old)) }
        ensures site { self.new.site ≡ self.old.site }
        ensures err { OnErr result (IsLeft self.old.site seat channel place entry.now self.old.state self.new.state) }
        ensures fault { IfErr result (λ f. IsFaultAtOnce f self.old.site seat channel place entry.now self.old.state) }
        ensures room { IfErr result (λ f. HasRoomAtOnce f self.old.site seat channel place entry.now self.old.state) }
    {
        self.entries_are_kept();
        if !self.is_ready_at_once(seat, channel, place, entry) {
            return Ok(false);
        }
        let copy = entry.clone()?;
        match self.execute_now(alloc, copy, &entry.txn) {
            Ok(true) => {}
            Ok(false) => return Ok(false),
            Err(fault) => return Err(fault),
        }
        let _place = self.receive_executed(alloc, channel, entry)?;
        Ok(true)
    }

    /// The events Receive, Take and Commit, one after another.
    #[inline(never)]
    fn commit_in_turn(
        &mut self,
        alloc: Global,
        seat: u8,
        channel: usize,
        place: usize,
        entry: &Entry,
    ) -> Result<Reply, SetFault>
        requires { is_number entry.now.gtid.number ≡ true }
        ensures done { IfOk result (λ reply. IsAtOnce self.old seat channel place entry.now reply self.new.state) }
        ensures site { self.new.site ≡ self.old.site }
        ensures err { OnErr result (IsLeft self.old.site seat channel place entry.now self.old.state self.new.state) }
        ensures fault { IfErr result (λ f. IsFaultAtOnce f self.old.site seat channel place entry.now self.old.state) }
        ensures room { IfErr result (λ f. HasRoomAtOnce f self.old.site seat channel place entry.now self.old.state) }
    {
        let reply = self.receive(alloc, channel, entry)?;
        let _ = self.take(seat, channel, place);
        let _ = self.commit(alloc, seat, None)?;
        Ok(reply)
    }

    /// The events Receive, Take and Commit in turn: a channel receives an entry, and a seat takes this place of it and commits what it has.
    /// The schema takes the transaction, which is not tested again. The result is the reply to the Receive. If the entry waits for nothing,
    /// neither its keys nor its transaction are kept in the channel.
    ///
    /// The error is one of the Receive or of the Commit. After it nothing has changed, or the first two
    /// events were made, or the entry is executed, and the channel has not received it.
    pub fn receive_and_commit(
        &mut self,
        alloc: Global,
        seat: u8,
        channel: usize,
        place: usize,
        entry: &Entry,
    ) -> Result<Reply, SetFault>
        requires number { is_number entry.now.gtid.number ≡ true }
        requires fits { Fits self.old.site.schema entry.now.txn }
        ensures reply { IfOk result (λ reply. reply ≡ (receive self.old.site channel entry.now self.old.state).0) }
        ensures state { OnOk result (self.new.state ≡ received_and_committed self.old.site seat channel place entry.now self.old.state) }
        ensures site { self.new.site ≡ self.old.site }
        ensures err { OnErr result (IsLeft self.old.site seat channel place entry.now self.old.state self.new.state) }
        ensures fault { IfErr result (λ f. IsFaultAtOnce f self.old.site seat channel place entry.now self.old.state) }
        ensures room { IfErr result (λ f. HasRoomAtOnce f self.old.site seat channel place entry.now self.old.state) }
    {
        if self.commit_at_once(alloc, seat, channel, place, entry)? {
            return Ok(Reply::Received(place));
        }
        self.commit_in_turn(alloc, seat, channel, place, entry)
    }
}
