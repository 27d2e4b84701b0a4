//! What a replica shows.
ghost use Rattle.std.specs.Prelude.{◌≡◌, IfOk, IfErr, MatchOption, All};
ghost use Rattle.std.specs.Option.{option_copied};
ghost use Rattle.journal.specs.Journals.{whole};
ghost use Rattle.replica_core.specs.State.{owned};
ghost use Rattle.replica_core.specs.Seated.{AreSeated};
ghost use Rattle.replica_core.specs.Draining.{places};
ghost use Rattle.replica_core.specs.Machine.{next_ready, ready_from};
ghost use Rattle.replica_core.specs.Faults.{ask_set, IsFaultIn, HasRoomFor};
ghost use Rattle.replica_core.specs.Kept.{IsKept, AreKept};
ghost use Rattle.replica_core.specs.Core.{IsAtCore, IsNotAtCore, IsEntryAt, IsNoEntry};

use crate::feed::asked_with;
use crate::machine::Core;
use apply_channel::Channel;
use gtid_set::{GtidSet, SetFault};
use gtid_text::Gtid;
use relay::OwnJournal;
use rows::Transaction;
use std::alloc::{AllocError, Global};

impl Core {
    /// The own journal has what is executed and nothing else: its previous set and its entries. It does
    /// nothing: its contract is the law.
    pub fn executed_is_recorded(&self)
        ensures { self.now.state.executed ≡ whole self.now.state.journal }
    {
        let _ = &self.journal;
    }

    /// The purged set: the executed GTIDs that are no longer in an entry of the own journal.
    pub fn purged(&self) -> &GtidSet
        ensures { result.now ≡ self.now.state.journal.previous }
    {
        self.journal.purged()
    }

    /// The own journal.
    pub fn journal(&self) -> &OwnJournal
        ensures { result.now.journal ≡ self.now.state.journal }
    {
        &self.journal
    }

    /// The channel of a number, with its name, flags, received set and last asked set.
    pub fn channel(&self, channel: usize) -> Option<&Channel>
        ensures { MatchOption result (IsNotAtCore self.now channel) (λ k. IsAtCore self.now channel k.now) }
    {
        self.kept_channel(channel)
    }

    /// How many places a channel has, or none if there is no such channel.
    pub fn places(&self, channel: usize) -> Option<usize>
        ensures { result ≡ places self.now.state channel }
    {
        match self.kept_channel(channel) {
            Some(one) => Some(one.len()),
            None => None,
        }
    }

    /// The set that a Position of a channel would answer now, or none if there is no such channel.
    pub fn ask(&self, alloc: Global, channel: usize) -> Result<Option<GtidSet>, SetFault>
        ensures ok { IfOk result (λ asked. asked ≡ ask_set channel self.now.state) }
        ensures fault { IfErr result (λ f. IsFaultIn f (ask_set channel self.now.state)) }
        ensures room { IfErr result (λ f. HasRoomFor f (ask_set channel self.now.state)) }
    {
        let Some(one) = self.channels.get(channel) else {
            return Ok(None);
        };
        let asked = asked_with(alloc, self.journal.executed(), one)?;
        Ok(Some(asked))
    }

    /// The GTID at a place of a channel, with its transaction if the GTID is not executed.
    pub fn entry(&self, channel: usize, place: usize) -> Option<(Gtid, Option<&Transaction>)>
        ensures { MatchOption result (IsNoEntry self.now channel place) (λ e. IsEntryAt self.now channel place e.0 (option_copied e.1)) }
    {
        let Some(one) = self.channels.get(channel) else {
            return None;
        };
        let Some((gtid, txn)) = one.entry(place) else {
            return None;
        };
        Some((gtid, txn))
    }

    /// The least place of a channel from this number on that a seat may take: its GTID is neither
    /// executed nor owned, and no earlier place that is not executed shares a key. Whether the
    /// channel is stopped makes no difference.
    pub fn next_ready(&self, channel: usize, from: usize) -> Option<usize>
        ensures { result ≡ next_ready self.now.site self.now.state channel from }
    {
        let Some(one) = self.kept_channel(channel) else {
            return None;
        };
        self.ready_of(one, from)
    }

    /// The least place of a channel from this number on that a seat may take.
    fn ready_of(&self, channel: &Channel, from: usize) -> Option<usize>
        requires schema { channel.now.schema ≡ self.now.site.schema }
        requires kept { All (IsKept self.now.site.schema self.now.state.executed) channel.now.channel.received }
        ensures { result ≡ ready_from self.now.site.schema self.now.state channel.now.channel from }
    {
        let end = channel.len();
        let mut from = from;
        'looking: while from < end {
            let Some(place) = channel.next_ready(from) else {
                return None;
            };
            let Some((gtid, _)) = channel.entry(place) else {
                return None;
            };
            if self.owner(&gtid).is_none() {
                return Some(place);
            }
            from = place + 1;
        }
        None
    }

    /// What the seats own: each busy seat with its GTID, seats ascending.
    pub fn owned(&self, alloc: Global) -> Result<Vec<(u8, Gtid)>, AllocError>
        ensures { IfOk result (λ pairs. pairs.items ≡ owned self.now.state) }
    {
        let mut owned = Vec::new(alloc);
        for seat in 1..65u8 {
            if let Some(gtid) = self.owned_by(seat) {
                owned.push((seat, gtid))?;
            }
        }
        Ok(owned)
    }

    /// A busy seat is one of the 64 and its place has its transaction, and no GTID is at two seats.
    pub fn one_seat_each(&self)
        ensures { AreSeated self.now.state.channels self.now.state.seats }
    {
        let _ = self.kept_channel(0);
    }

    /// A received entry has its transaction if and only if its GTID is not executed; the schema takes it, and its number is in range. It
    /// does nothing; a proof calls it for its contract.
    pub fn entries_are_kept(&self)
        ensures { AreKept self.now.site.schema self.now.state.executed self.now.state.channels }
    {
        let _ = &self.own;
    }
}
