//! When two replies, and two events, are the same.
ghost use Rattle.std.specs.Prelude.{◌≡◌, IsTrue};

use journal::Entry;
use replica_core::{Event, Reply};
use rows::Name;

/// Whether two replies are the same.
pub(crate) fn is_same_reply(a: &Reply, b: &Reply) -> bool
    ensures { IsTrue result → a.now ≡ b.now }
{
    match a {
        Reply::NameTaken => matches!(b, Reply::NameTaken),
        Reply::ChannelsFull => matches!(b, Reply::ChannelsFull),
        Reply::Opened(number) => matches!(b, Reply::Opened(other) if *number == *other),
        Reply::NoChannel => matches!(b, Reply::NoChannel),
        Reply::Ask(set) => matches!(b, Reply::Ask(other) if set.is_equal(other)),
        Reply::NotPositioned => matches!(b, Reply::NotPositioned),
        Reply::NotInSchema(misfit) => matches!(b, Reply::NotInSchema(other) if *misfit == *other),
        Reply::ChannelFull => matches!(b, Reply::ChannelFull),
        Reply::Received(number) => matches!(b, Reply::Received(other) if *number == *other),
        Reply::NoSeat => matches!(b, Reply::NoSeat),
        Reply::SeatBusy(gtid) => matches!(b, Reply::SeatBusy(other) if *gtid == *other),
        Reply::NoPlace => matches!(b, Reply::NoPlace),
        Reply::Stopped => matches!(b, Reply::Stopped),
        Reply::Done(gtid) => matches!(b, Reply::Done(other) if *gtid == *other),
        Reply::OwnedBy(seat) => matches!(b, Reply::OwnedBy(other) if *seat == *other),
        Reply::Blocked(number) => matches!(b, Reply::Blocked(other) if *number == *other),
        Reply::Taken(gtid) => matches!(b, Reply::Taken(other) if *gtid == *other),
        Reply::SeatIdle => matches!(b, Reply::SeatIdle),
        Reply::Early(number) => matches!(b, Reply::Early(other) if *number == *other),
        Reply::RowRefused(gtid, fault) => {
            matches!(b, Reply::RowRefused(other, same) if *gtid == *other && *fault == *same)
        }
        Reply::Committed(gtid) => matches!(b, Reply::Committed(other) if *gtid == *other),
        Reply::RolledBack(gtid) => matches!(b, Reply::RolledBack(other) if *gtid == *other),
        Reply::Restarted => matches!(b, Reply::Restarted),
        Reply::NumbersUsedUp => matches!(b, Reply::NumbersUsedUp),
        Reply::LocalRefused(fault) => matches!(b, Reply::LocalRefused(other) if *fault == *other),
        Reply::TooMany(number) => matches!(b, Reply::TooMany(other) if *number == *other),
        Reply::Purged(set) => matches!(b, Reply::Purged(other) if set.is_equal(other)),
        Reply::Shown(set) => matches!(b, Reply::Shown(other) if set.is_equal(other)),
    }
}

/// Whether two events are the same.
pub(crate) fn is_same_event(a: &Event, b: &Event) -> bool
    ensures { IsTrue result → a.now ≡ b.now }
{
    match a {
        Event::OpenChannel(name, preserve) => match b {
            Event::OpenChannel(other, same) => *preserve == *same && is_same_name(name, other),
            _ => false,
        },
        Event::Position(channel) => matches!(b, Event::Position(other) if *channel == *other),
        Event::Receive(channel, entry) => match b {
            Event::Receive(other, same) => *channel == *other && is_same_entry(entry, same),
            _ => false,
        },
        Event::Take(seat, channel, place) => match b {
            Event::Take(other, from, at) => *seat == *other && *channel == *from && *place == *at,
            _ => false,
        },
        Event::Commit(seat) => matches!(b, Event::Commit(other) if *seat == *other),
        Event::Rollback(seat) => matches!(b, Event::Rollback(other) if *seat == *other),
        Event::Restart(channel) => matches!(b, Event::Restart(other) if *channel == *other),
        Event::Local(changes) => matches!(b, Event::Local(other) if changes.is_equal(other)),
        Event::Purge(count) => matches!(b, Event::Purge(other) if *count == *other),
        Event::Look => matches!(b, Event::Look),
    }
}

fn is_same_name(a: &Name, b: &Name) -> bool
    ensures { IsTrue result → a.now ≡ b.now }
{
    a.as_str() == b.as_str()
}

fn is_same_entry(a: &Entry, b: &Entry) -> bool
    ensures { IsTrue result → a.now ≡ b.now }
{
    a.gtid == b.gtid && a.txn.is_equal(&b.txn)
}
