//! Copies of replicas, and when two replicas are equal.
ghost use Rattle.std.specs.Prelude.{◌≡◌, IfOk, IsOkUnless};
ghost use Rattle.std.specs.Bool.{Decides};
ghost use Rattle.gtid_set.specs.declared.fault.SetFault.TheVariants.{Memory};

use crate::channels::Channels;
use crate::event::Spot;
use crate::machine::Core;
use apply_channel::Channel;
use gtid_set::SetFault;
use std::alloc::{AllocError, Global};

/// Whether both are the same place, or none.
fn is_same_spot(left: &Option<Spot>, right: &Option<Spot>) -> bool
    ensures { Decides result (left.now ≡ right.now) }
{
    match left {
        Some(spot) => match right {
            Some(other) => spot.channel == other.channel && spot.place == other.place,
            None => false,
        },
        None => right.is_none(),
    }
}

/// Whether two lists of seats have the same places.
fn are_same_seats(left: &[Option<Spot>], right: &[Option<Spot>]) -> bool
    ensures { Decides result (left.now ≡ right.now) }
{
    let mut left = left;
    let mut right = right;
    while let Some((spot, more)) = left.split_first() {
        let Some((other, rest)) = right.split_first() else {
            return false;
        };
        if !is_same_spot(spot, other) {
            return false;
        }
        left = more;
        right = rest;
    }
    right.is_empty()
}

/// The same channels, in the same order.
fn copy_each(alloc: Global, channels: &[Channel]) -> Result<Vec<Channel>, AllocError>
    ensures { IfOk result (λ copies. copies.items ≡ channels.now) }
{
    let mut copies = Vec::new(alloc);
    for channel in channels {
        let copy = channel.copy(alloc)?;
        copies.push(copy)?;
    }
    Ok(copies)
}

/// Whether two lists have the same channels in the same order.
fn are_same_channels(left: &[Channel], right: &[Channel]) -> bool
    ensures { Decides result (left.now ≡ right.now) }
{
    let mut left = left;
    let mut right = right;
    while let Some((channel, more)) = left.split_first() {
        let Some((other, rest)) = right.split_first() else {
            return false;
        };
        if !channel.is_equal(other) {
            return false;
        }
        left = more;
        right = rest;
    }
    right.is_empty()
}

impl Channels {
    /// The same channels, whose entries share their changes with these.
    pub(crate) fn copy(&self, alloc: Global) -> Result<Channels, AllocError>
        ensures { IfOk result (λ copy. copy ≡ self.now) }
    {
        let schema = self.schema.clone()?;
        let list = copy_each(alloc, &self.list)?;
        Ok(Channels { schema, list })
    }

    /// Whether both have the same schema and the same channels in the same order.
    pub(crate) fn is_equal(&self, other: &Channels) -> bool
        ensures { Decides result (self.now ≡ other.now) }
    {
        if !self.schema.is_equal(&other.schema) {
            return false;
        }
        are_same_channels(&self.list, &other.list)
    }
}

impl Core {
    /// The same replica. Its entries share their changes with these, and its rows their values. The
    /// one error is a failed allocation.
    pub fn copy(&self, alloc: Global) -> Result<Core, SetFault>
        ensures ok { IfOk result (λ copy. copy ≡ self.now) }
        ensures fault { IsOkUnless result Memory }
    {
        let rows = self.rows.copy()?;
        let channels = self.channels.copy(alloc)?;
        let journal = self.journal.copy(alloc)?;
        Ok(Core {
            own: self.own,
            rows,
            seats: self.seats,
            channels,
            journal,
        })
    }

    /// Whether both have the same own UUID, schema and state.
    pub fn is_equal(&self, other: &Core) -> bool
        ensures { Decides result (self.now ≡ other.now) }
    {
        if self.own != other.own {
            return false;
        }
        if !are_same_seats(&self.seats, &other.seats) {
            return false;
        }
        if !self.journal.is_same_journal(&other.journal) {
            return false;
        }
        if !self.rows.is_equal(&other.rows) {
            return false;
        }
        self.channels.is_equal(&other.channels)
    }
}
