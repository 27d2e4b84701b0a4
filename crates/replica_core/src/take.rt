//! The event Take.
ghost use Rattle.std.specs.Prelude.{◌≡◌, MatchResult, MatchOption, IfSome, All, true, slice_get, None};
ghost use Rattle.replica_core.specs.declared.event.Reply.TheVariants.{Taken};
ghost use Rattle.replica_core.specs.Machine.{is_seat, take_place, take_seat};
ghost use Rattle.replica_core.specs.Kept.{IsKept};
ghost use Rattle.replica_core.specs.Seated.{AreSeated};
ghost use Rattle.replica_core.specs.Core.{IsNotAtCore, IsAtCore, Takes, Refuses};

use crate::event::{Reply, Spot};
use crate::machine::{Core, is_seat};
use apply_channel::Channel;
use gtid_text::Gtid;

impl Core {
    /// The channel of a number, with what the replica keeps of it.
    pub(crate) fn kept_channel(&self, channel: usize) -> Option<&Channel>
        ensures found { MatchOption result (IsNotAtCore self.now channel) (λ k. IsAtCore self.now channel k.now) }
        ensures seated { AreSeated self.now.state.channels self.now.state.seats }
    {
        let _ = &self.own;
        self.channels.get(channel)
    }

    /// What a Take would do: take this GTID, or be refused with this reply.
    fn may_take(&self, seat: u8, channel: usize, place: usize) -> Result<Gtid, Reply>
        ensures { MatchResult result (Takes self.now seat channel place) (Refuses (take_place self.now.site seat channel place) self.now) }
    {
        if !is_seat(seat) {
            return Err(Reply::NoSeat);
        }
        if let Some(gtid) = self.owned_by(seat) {
            return Err(Reply::SeatBusy(gtid));
        }
        let Some(from) = self.kept_channel(channel) else {
            return Err(Reply::NoChannel);
        };
        let Some((gtid, _)) = from.entry(place) else {
            return Err(Reply::NoPlace);
        };
        if from.is_stopped() {
            return Err(Reply::Stopped);
        }
        if self.executed().contains(&gtid) {
            return Err(Reply::Done(gtid));
        }
        if let Some(other) = self.owner(&gtid) {
            return Err(Reply::OwnedBy(other));
        }
        if let Some(earlier) = from.blocker(place) {
            return Err(Reply::Blocked(earlier));
        }
        Ok(gtid)
    }

    /// The event Take.
    pub(crate) fn take(&mut self, seat: u8, channel: usize, place: usize) -> Reply
        ensures made { (result, self.new.state) ≡ take_place self.old.site seat channel place self.old.state }
        ensures site { self.new.site ≡ self.old.site }
    {
        match self.may_take(seat, channel, place) {
            Ok(taken) => {
                self.put_seat(seat, Spot { channel, place });
                Reply::Taken(taken)
            }
            Err(reply) => reply,
        }
    }
}
