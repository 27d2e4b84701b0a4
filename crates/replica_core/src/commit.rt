//! The events Commit, Rollback and Local.
ghost use Rattle.std.specs.Prelude.{◌≡◌, ◌≤◌, MatchResult, IfOk, OnErr, IfErr, option_map, if◌then◌else◌, Some, None, All, ◌<◌, length, true};
ghost use Rattle.replica_core.specs.Machine.{commit, rollback, open_before, held, commit_answer};
ghost use Rattle.replica_core.specs.Kept.{IsKept};
ghost use Rattle.replica_core.specs.Core.{Refuses};
ghost use Rattle.replica_core.specs.Committing.{IsCommittable, Executes, RefusedBy};
ghost use Rattle.gtid_set.specs.Full.{IsFaultOf};
ghost use Rattle.replica_core.specs.Faults.{IsFault, IsFaultIn, HasRoomFor, committed_set, executed_with};
ghost use Rattle.replica_core.specs.Ready.{IsReady};

use crate::event::{Reply, Spot};
use crate::machine::{Core, free, is_seat};
use crate::prepared::apply_with;
use apply_channel::Channel;
use gtid_set::SetFault;
use gtid_text::Gtid;
use journal::Entry;
use rows::{PrepareFault, RowFault, Transaction};
use std::alloc::Global;
use write_set::Patch;

/// What a Commit commits, made before anything changes.
#[derive(Drop)]
struct ReadyCommit {
    spot: Spot,
    entry: Entry,
    txn: Transaction,
}

impl Core {
    /// The least earlier place that is not executed, if the channel preserves its order.
    fn earlier_pending(&self, channel: &Channel, place: usize) -> Option<usize>
        requires kept { All (IsKept self.now.site.schema self.now.state.executed) channel.now.channel.received }
        requires there { place < length channel.now.channel.received }
        ensures { result ≡ (if channel.now.channel.preserve then open_before self.now.state channel.now.channel place else None) }
    {
        if channel.preserves() {
            channel.first_waiting(place)
        } else {
            None
        }
    }

    /// What a Commit commits, or the reply that refuses it.
    fn may_commit(&self, seat: u8) -> Result<Result<ReadyCommit, Reply>, SetFault>
        ensures ok { IfOk result (λ r. MatchResult r (IsReady self.now seat) (Refuses (commit self.now.site seat) self.now)) }
        ensures fault { IfErr result (λ f. IsFault (IsFaultIn f (committed_set seat self.now.state)) (commit self.now.site seat self.now.state)) }
        ensures room { IfErr result (λ f. HasRoomFor f (committed_set seat self.now.state)) }
    {
        if !is_seat(seat) {
            return Ok(Err(Reply::NoSeat));
        }
        let Some(spot) = self.spot(seat) else {
            return Ok(Err(Reply::SeatIdle));
        };
        let Some(channel) = self.kept_channel(spot.channel) else {
            return Ok(Err(Reply::SeatIdle));
        };
        let Some((gtid, held)) = channel.entry(spot.place) else {
            return Ok(Err(Reply::SeatIdle));
        };
        let Some(txn) = held else {
            return Ok(Err(Reply::SeatIdle));
        };
        if let Some(earlier) = self.earlier_pending(channel, spot.place) {
            return Ok(Err(Reply::Early(earlier)));
        }
        if !self.executed().has_room_for(&gtid) {
            return Err(SetFault::SourcesFull);
        }
        let entry = Entry {
            gtid,
            txn: txn.clone()?,
        };
        let txn = txn.clone()?;
        Ok(Ok(ReadyCommit { spot, entry, txn }))
    }

    /// Executes an entry and frees the seat that had it; or the result is the reason why its transaction does not
    /// apply, and nothing has changed.
    pub(crate) fn execute(
        &mut self,
        alloc: Global,
        freed: Option<u8>,
        entry: Entry,
        txn: &Transaction,
        patch: Option<Patch>,
    ) -> Result<Result<(), RowFault>, SetFault>
        requires may { IsCommittable self.old freed entry }
        requires same { txn.now ≡ entry.txn }
        ensures ok { IfOk result (λ r. MatchResult r (λ done. Executes self.old freed entry self.new) (RefusedBy self.old entry self.new)) }
        ensures err { OnErr result (self.new ≡ self.old) }
        ensures fault { IfErr result (λ f. IsFaultOf f (executed_with self.old.state entry.gtid)) }
        ensures room { IfErr result (λ f. HasRoomFor f (Some (executed_with self.old.state entry.gtid))) }
    {
        let gtid = entry.gtid;
        let _ = self.rows.schema().tables();
        self.journal.append(alloc, entry)?;
        match apply_with(&mut self.rows, alloc, txn, patch) {
            Ok(()) => {
                self.channels.mark_executed(&gtid);
                free(&mut self.seats, freed);
                return Ok(Ok(()));
            }
            Err(PrepareFault::Row(fault)) => {
                self.journal.take_back();
                return Ok(Err(fault));
            }
            Err(PrepareFault::Memory) => {
                self.journal.take_back();
                return Err(SetFault::Memory);
            }
        }
    }

    /// Makes the Commit for which all is ready.
    fn finish(
        &mut self,
        alloc: Global,
        seat: u8,
        ready: ReadyCommit,
        patch: Option<Patch>,
    ) -> Result<Reply, SetFault>
        requires { IsReady self.old seat ready }
        ensures ok { IfOk result (λ r. (r, self.new.state) ≡ commit self.old.site seat self.old.state) }
        ensures site { self.new.site ≡ self.old.site }
        ensures err { OnErr result (self.new ≡ self.old) }
        ensures fault { IfErr result (λ f. IsFault (IsFaultIn f (committed_set seat self.old.state)) (commit self.old.site seat self.old.state)) }
        ensures room { IfErr result (λ f. HasRoomFor f (committed_set seat self.old.state)) }
    {
        let ReadyCommit { spot, entry, txn } = ready;
        let gtid = entry.gtid;
        match self.execute(alloc, Some(seat), entry, &txn, patch) {
            Ok(Ok(())) => return Ok(Reply::Committed(gtid)),
            Ok(Err(fault)) => {
                self.clear_seat(seat);
                self.stop(spot.channel);
                return Ok(Reply::RowRefused(gtid, fault));
            }
            Err(fault) => return Err(fault),
        }
    }

    /// The event Commit, by a patch if there is one.
    pub(crate) fn commit(
        &mut self,
        alloc: Global,
        seat: u8,
        patch: Option<Patch>,
    ) -> Result<Reply, SetFault>
        ensures ok { IfOk result (λ r. (r, self.new.state) ≡ commit self.old.site seat self.old.state) }
        ensures site { self.new.site ≡ self.old.site }
        ensures err { OnErr result (self.new ≡ self.old) }
        ensures fault { IfErr result (λ f. IsFault (IsFaultIn f (committed_set seat self.old.state)) (commit self.old.site seat self.old.state)) }
        ensures room { IfErr result (λ f. HasRoomFor f (committed_set seat self.old.state)) }
    {
        match self.may_commit(seat) {
            Err(fault) => Err(fault),
            Ok(Err(reply)) => Ok(reply),
            Ok(Ok(ready)) => self.finish(alloc, seat, ready, patch),
        }
    }

    /// The GTID that a seat holds.
    pub(crate) fn held_gtid(&self, seat: u8) -> Option<Gtid>
        requires low { 1 ≤ seat }
        requires high { seat ≤ 64 }
        ensures { result ≡ option_map (λ h. h.gtid) (held self.now.state seat) }
    {
        let Some(spot) = self.spot(seat) else {
            return None;
        };
        let Some(channel) = self.kept_channel(spot.channel) else {
            return None;
        };
        let Some((gtid, txn)) = channel.entry(spot.place) else {
            return None;
        };
        if txn.is_some() { Some(gtid) } else { None }
    }

    /// The event Rollback. It does not allocate.
    pub(crate) fn rollback(&mut self, seat: u8) -> Reply
        ensures made { (result, self.new.state) ≡ rollback seat self.old.state }
        ensures site { self.new.site ≡ self.old.site }
    {
        if !is_seat(seat) {
            return Reply::NoSeat;
        }
        match self.held_gtid(seat) {
            Some(gtid) => {
                self.clear_seat(seat);
                Reply::RolledBack(gtid)
            }
            None => Reply::SeatIdle,
        }
    }
}
