//! Which seat applies which GTID: a GTID has at most one seat, and a seat at most one GTID. (MySQL 8.0 Reference Manual, "GTID Life
//! Cycle": of several attempts at once only one executes a GTID.)
//!
//! What a contract sees: an `Owners` is a finite map from seats, 1 to 64, to GTIDs.
//!
//! `try_own` gives `SeatBusy` if the seat owns a GTID, else `OwnedBy` if another seat owns this one, else `Owned`; a second taker has its
//! reply at once and never waits (our own rule). `one_seat_each` is the law that no GTID has two seats.
//!
//! The replica's state machine (`replica_core`) does not hold an `Owners`: there a seat owns the GTID at the place that it took, so
//! ownership cannot differ from the places. It cites the lemmas on places in an array from here.
//!
//! How it is kept: a vector of 64 slots, made at `open`; after it only `list` allocates. The search for an owner looks at all 64.
#![tactic(auto)]

ghost use Rattle.std.specs.Prelude.{◌≡◌, ◌≢◌, ℕ, Some, IfSome, IfNone, IfOk};
ghost use Rattle.std.specs.FinMap as map;
ghost use Rattle.ownership.specs.Ownership.{owns, IsSeat, IsOwnedOnce, IsOfSeats, owned_by, owner, attempt};

use gtid_text::Gtid;
use std::alloc::{AllocError, Global};
use std::marker::Model;

/// How many seats there are, numbered from 1.
pub const SEATS: u8 = 64;

/// The reply to a seat that tries to own a GTID.
#[derive(Clone, Copy, Debug, PartialEq, Eq, Drop)]
pub enum Attempt {
    /// The seat owns it now.
    Owned,
    /// The seat owns this one already.
    SeatBusy(Gtid),
    /// This other seat owns it.
    OwnedBy(u8),
}

/// The GTIDs that are being applied, each with its seat: a map from seats to GTIDs.
#[derive(Drop)]
pub struct Owners {
    slots: Vec<Option<Gtid>>,
}

impl Model for Owners {
    ghost use Rattle.ownership.specs.Ownership.{Ownership, ownership_code};

    ghost Value = { Ownership };

    ghost coded = { ownership_code };

    ghost use Rattle.ownership.specs.Slots.{owned_of, AreSlots};

    ghost view = { λ o. owned_of o.slots.items };

    ghost invariant = { λ o. AreSlots o.slots.items };
}

impl Owners {
    /// No seat owns anything. The room for all seats is made here: no other call but `list` allocates.
    pub fn open(alloc: Global) -> Result<Self, AllocError>
        ensures { IfOk result (λ owners. owners ≡ map.empty) }
    {
        let mut slots = Vec::with_capacity(alloc, SEATS as usize)?;
        for _ in 0..SEATS {
            slots.push(None)?;
        }
        Ok(Owners { slots })
    }

    /// What a seat owns.
    pub fn owned_by(&self, seat: u8) -> Option<Gtid>
        requires { IsSeat seat }
        ensures { result ≡ owned_by self.now seat }
    {
        let slot = seat as usize - 1;
        self.slots[slot]
    }

    /// Whether a seat owns a GTID.
    fn owns(&self, seat: u8, gtid: &Gtid) -> bool
        requires { IsSeat seat }
        ensures { result ≡ owns self.now gtid.now seat }
    {
        match self.owned_by(seat) {
            Some(held) => held.source == gtid.source && held.number == gtid.number,
            None => false,
        }
    }

    /// The seat that owns a GTID.
    pub fn owner(&self, gtid: &Gtid) -> Option<u8>
        ensures found { IfSome result (λ seat. owned_by self.now seat ≡ Some gtid.now) }
        ensures none { IfNone result ((seat : ℕ) → owned_by self.now seat ≢ Some gtid.now) }
        ensures exact { result ≡ owner self.now gtid.now }
    {
        self.one_seat_each();
        for seat in 1..SEATS + 1 {
            if self.owns(seat, gtid) {
                return Some(seat);
            }
        }
        None
    }

    /// Lets a seat own a GTID, unless the seat owns one already or another seat owns this one.
    pub fn try_own(&mut self, gtid: Gtid, seat: u8) -> Attempt
        requires { IsSeat seat }
        ensures { (result, self.new) ≡ attempt self.old gtid seat }
    {
        if let Some(mine) = self.owned_by(seat) {
            return Attempt::SeatBusy(mine);
        }
        if let Some(other) = self.owner(&gtid) {
            return Attempt::OwnedBy(other);
        }
        self.slots[seat as usize - 1] = Some(gtid);
        Attempt::Owned
    }

    /// Makes a seat's GTID free again.
    pub fn release(&mut self, seat: u8)
        requires { IsSeat seat }
        ensures { self.new ≡ map.remove self.old seat }
    {
        self.slots[seat as usize - 1] = None;
    }

    /// What is owned, in order of seats.
    pub fn list(&self, alloc: Global) -> Result<Vec<(u8, Gtid)>, AllocError>
        ensures { IfOk result (λ owned. owned.items ≡ map.entries self.now) }
    {
        let mut owned = Vec::new(alloc);
        for (slot, held) in self.slots.iter().enumerate() {
            if let Some(gtid) = held {
                owned.push((slot as u8 + 1, *gtid))?;
            }
        }
        Ok(owned)
    }

    /// No GTID has two seats, and only the 64 seats own any.
    pub fn one_seat_each(&self)
        ensures once { IsOwnedOnce self.now }
        ensures of_seats { IsOfSeats self.now }
    {
        let _ = &self.slots;
    }
}
