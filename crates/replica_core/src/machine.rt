//! A replica.
ghost use Rattle.std.specs.Prelude.{◌≡◌, ◌≤◌, IfOk, IsOkUnless};
ghost use Rattle.gtid_set.specs.Laws.{HaveNumbers};
ghost use Rattle.gtid_set.specs.declared.fault.SetFault.TheVariants.{Memory};
ghost use Rattle.std.specs.FinMap as finmap;
ghost use Rattle.replica_core.specs.State.{gtid_at, owned_by, owner, owns};
ghost use Rattle.replica_core.specs.Slots.{seats_of};
ghost use Rattle.replica_core.specs.Core.{new_replica, new_replica_with};
ghost use Rattle.replica_core.specs.Seated.{MayHave, IsFreeable, freed_of};
ghost use Rattle.replica_core.specs.Machine.{drained, is_seat, take_seat, without_seat, stopping};

use crate::channels::Channels;
use crate::event::Spot;
use gtid_set::{GtidSet, SetFault};
use gtid_text::{Gtid, SourceId};
use relay::OwnJournal;
use rows::Rows;
use std::alloc::Global;
use std::marker::Model;

/// A replica: its own UUID and schema, which never change, and its state.
pub struct Core {
    pub(crate) own: SourceId,
    pub(crate) rows: Rows,
    pub(crate) seats: [Option<Spot>; 64],
    pub(crate) channels: Channels,
    pub(crate) journal: OwnJournal,
}

impl Drop for Core {
    // (by hand: for a caller the end of a Core is one call)
    fn drop(self) {
        let Core {
            own: _own,
            rows: _rows,
            seats: _seats,
            channels: _channels,
            journal: _journal,
        } = self;
    }
}

impl Model for Core {
    ghost use Rattle.std.specs.Coded.{codes};
    ghost use Rattle.gtid_set.specs.Sets.{gtids_code};
    ghost use Rattle.rows.specs.Coding.{rows_code};
    ghost use Rattle.replica_core.specs.Slots.{seats_of, seats_code};
    ghost use Rattle.replica_core.specs.State.{Replica};

    ghost Value = { Replica };

    ghost coded = { Prim.hlevel (codes, gtids_code, rows_code, seats_code) };

    ghost use Rattle.journal.specs.Journals.{whole};
    ghost use Rattle.replica_core.specs.Core.{IsCore};

    ghost view = { λ c. record {
      site = record { own = c.own; schema = c.rows.schema };
      state = record {
        executed = whole c.journal.journal;
        rows = c.rows.rows;
        seats = seats_of c.seats;
        channels = c.channels.list;
        journal = c.journal.journal;
      };
    } };

    ghost invariant = { λ c. IsCore c.rows.schema c.channels (whole c.journal.journal) (seats_of c.seats) };
}

/// Whether a seat is one of the 64.
pub(crate) fn is_seat(seat: u8) -> bool
    ensures { result ≡ is_seat seat }
{
    1 <= seat && seat <= 64
}

/// Frees a seat, if one is named.
pub(crate) fn free(seats: &mut [Option<Spot>; 64], freed: Option<u8>)
    requires { IsFreeable freed }
    ensures { seats_of seats.new ≡ freed_of freed (seats_of seats.old) }
{
    if let Some(seat) = freed {
        seats[seat as usize - 1] = None;
    }
}

/// No seat has taken a place.
fn no_seats() -> [Option<Spot>; 64]
    ensures { seats_of result ≡ finmap.empty }
{
    [None; 64]
}

impl Core {
    /// A replica with these rows, an empty executed set and no channel.
    #[tactic(auto, using(journal::proofs::EntryLemmas::no_numbers))]
    pub fn open(alloc: Global, own: SourceId, rows: Rows) -> Result<Core, SetFault>
        ensures ok { IfOk result (λ core. core ≡ new_replica own rows) }
        ensures fault { IsOkUnless result Memory }
    {
        Core::open_snapshot(alloc, own, rows, GtidSet::empty(alloc))
    }

    /// A replica that begins with a snapshot: these rows, and the set of the GTIDs whose transactions they hold, which are executed
    /// and purged; their numbers are 1 to 2^63 - 1 (`GtidSet::are_numbers_in_range`). It has no channel. (`gtid_purged` of a restored
    /// dump, MySQL 8.0 Reference Manual, "Replication Options and Variables": the GTIDs are in `gtid_executed`, and in no binary log.)
    pub fn open_snapshot(
        alloc: Global,
        own: SourceId,
        rows: Rows,
        executed: GtidSet,
    ) -> Result<Core, SetFault>
        requires { HaveNumbers executed }
        ensures ok { IfOk result (λ core. core ≡ new_replica_with own rows executed) }
        ensures fault { IsOkUnless result Memory }
    {
        let schema = rows.schema().clone()?;
        let journal = OwnJournal::start(alloc, executed)?;
        Ok(Core {
            own,
            rows,
            seats: no_seats(),
            channels: Channels::new(alloc, schema),
            journal,
        })
    }

    /// The UUID of the server. (`server_uuid`, MySQL 8.0 Reference Manual, "Replication and Binary Logging Options and Variables".)
    pub fn own(&self) -> SourceId
        ensures { result ≡ self.now.site.own }
    {
        self.own
    }

    /// The executed set. (MySQL 8.0 Reference Manual, "GTID Life Cycle".)
    pub fn executed(&self) -> &GtidSet
        ensures { result.now ≡ self.now.state.executed }
    {
        self.journal.executed()
    }

    /// The rows, with their schema.
    pub fn rows(&self) -> &Rows
        ensures rows { result.now.rows ≡ self.now.state.rows }
        ensures schema { result.now.schema ≡ self.now.site.schema }
    {
        &self.rows
    }

    /// Whether every received GTID is executed.
    pub fn is_drained(&self) -> bool
        ensures { result ≡ drained self.now.state }
    {
        let _ = &self.own;
        self.channels.are_settled()
    }

    /// The place that a seat took.
    pub(crate) fn spot(&self, seat: u8) -> Option<Spot>
        requires low { 1 ≤ seat }
        requires high { seat ≤ 64 }
        ensures { result ≡ finmap.get self.now.state.seats seat }
    {
        self.seats[seat as usize - 1]
    }

    /// A seat takes a place.
    pub(crate) fn put_seat(&mut self, seat: u8, spot: Spot)
        requires low { 1 ≤ seat }
        requires high { seat ≤ 64 }
        requires may { MayHave self.old.state.channels self.old.state.seats spot }
        ensures state { self.new.state ≡ take_seat seat spot.channel spot.place self.old.state }
        ensures site { self.new.site ≡ self.old.site }
    {
        self.seats[seat as usize - 1] = Some(spot);
    }

    /// A seat is freed.
    pub(crate) fn clear_seat(&mut self, seat: u8)
        requires low { 1 ≤ seat }
        requires high { seat ≤ 64 }
        ensures state { self.new.state ≡ without_seat self.old.state seat }
        ensures site { self.new.site ≡ self.old.site }
    {
        self.seats[seat as usize - 1] = None;
    }

    /// Stops a channel.
    pub(crate) fn stop(&mut self, channel: usize)
        ensures state { self.new.state ≡ stopping channel self.old.state }
        ensures site { self.new.site ≡ self.old.site }
    {
        self.channels.set_stopped(channel, true);
    }

    /// The GTID at a place.
    fn gtid_at(&self, spot: Spot) -> Option<Gtid>
        ensures { result ≡ gtid_at self.now.state spot }
    {
        let Some(channel) = self.channels.get(spot.channel) else {
            return None;
        };
        let Some((gtid, _)) = channel.entry(spot.place) else {
            return None;
        };
        Some(gtid)
    }

    /// The GTID that a seat owns.
    pub(crate) fn owned_by(&self, seat: u8) -> Option<Gtid>
        requires low { 1 ≤ seat }
        requires high { seat ≤ 64 }
        ensures { result ≡ owned_by self.now.state seat }
    {
        let Some(spot) = self.spot(seat) else {
            return None;
        };
        self.gtid_at(spot)
    }

    /// Whether a seat owns a GTID.
    fn owns(&self, seat: u8, gtid: &Gtid) -> bool
        requires low { 1 ≤ seat }
        requires high { seat ≤ 64 }
        ensures { result ≡ owns self.now.state gtid.now seat }
    {
        match self.owned_by(seat) {
            Some(owned) => owned.source == gtid.source && owned.number == gtid.number,
            None => false,
        }
    }

    /// The seat that owns a GTID.
    pub(crate) fn owner(&self, gtid: &Gtid) -> Option<u8>
        ensures { result ≡ owner self.now.state gtid.now }
    {
        for seat in 1..65u8 {
            if self.owns(seat, gtid) {
                return Some(seat);
            }
        }
        None
    }
}
