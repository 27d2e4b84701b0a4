//! Events and their replies as lines of a history: each kind of event in the words of docs/SCRIPTS.md.

use crate::sources::{A, bundle};
use gtid_set::GtidSet;
use gtid_text::{Gtid, SourceId};
use journal::Entry;
use replica_core::{Event, Reply};
use replica_lines::push_history_line;
use rows::{Name, RowFault};
use std::alloc::{AllocError, Global};
use std::test::Fail;

/// Whether an event and its reply have this line at this place.
fn has_line(
    alloc: Global,
    place: u64,
    event: Event,
    reply: Reply,
    line: &str,
) -> Result<bool, AllocError> {
    let mut text = String::new(alloc);
    let pushed = push_history_line(alloc, &mut text, place, &event, &reply);
    drop(event);
    drop(reply);
    pushed?;
    Ok(text.as_str() == line)
}

/// The first transaction of the first source.
fn first_gtid() -> Gtid {
    Gtid {
        source: SourceId::from_bits(A),
        number: 1,
    }
}

fn first_entry(alloc: Global) -> Result<Entry, Fail> {
    let bundle = bundle(alloc)?;
    let journal = bundle.journals().first().ok_or("a journal")?;
    let entry = journal.entries().first().ok_or("an entry")?;
    Ok(entry.clone()?)
}

fn opening(alloc: Global, preserve: bool) -> Result<Event, Fail> {
    let name = Name::new(String::from_str(alloc, "x")?)?;
    Ok(Event::OpenChannel(name, preserve))
}

#[test]
fn seats_are_shown(rt: HostRuntime) -> Result<(), Fail> {
    let alloc = rt.alloc();
    let taken = "0 1 take 1 0 0 -> Taken(aaaaaaaa-aaaa-aaaa-aaaa-aaaaaaaaaaaa:1)";
    let take = Event::Take(1, 0, 0);
    assert!(rt; has_line(alloc, 0, take, Reply::Taken(first_gtid()), taken)?);
    let blocked = "1 64 take 64 2 7 -> Blocked(5)";
    assert!(rt; has_line(alloc, 1, Event::Take(64, 2, 7), Reply::Blocked(5), blocked)?);
    let early = "10 2 commit 2 -> Early(0)";
    assert!(rt; has_line(alloc, 10, Event::Commit(2), Reply::Early(0), early)?);
    let idle = "18446744073709551615 3 rollback 3 -> SeatIdle";
    assert!(rt; has_line(alloc, u64::MAX, Event::Rollback(3), Reply::SeatIdle, idle)?);
    Ok(())
}

#[test]
fn a_refused_row_is_shown(rt: HostRuntime) -> Result<(), Fail> {
    let fault = RowFault::RowMissing { change: 2, key: 0 };
    let reply = Reply::RowRefused(first_gtid(), fault);
    let line =
        "4 1 commit 1 -> RowRefused(aaaaaaaa-aaaa-aaaa-aaaa-aaaaaaaaaaaa:1 E10 change 2 key 0)";
    assert!(rt; has_line(rt.alloc(), 4, Event::Commit(1), reply, line)?);
    Ok(())
}

#[test]
fn events_without_a_seat_are_shown(rt: HostRuntime) -> Result<(), Fail> {
    let alloc = rt.alloc();
    let position = "2 - position 1 -> NoChannel";
    assert!(rt; has_line(alloc, 2, Event::Position(1), Reply::NoChannel, position)?);
    let restart = "3 - restart 1 -> Restarted";
    assert!(rt; has_line(alloc, 3, Event::Restart(1), Reply::Restarted, restart)?);
    let purge = "4 - purge 9 -> TooMany(8)";
    assert!(rt; has_line(alloc, 4, Event::Purge(9), Reply::TooMany(8), purge)?);
    let shown = Reply::Shown(GtidSet::empty(alloc));
    assert!(rt; has_line(alloc, 5, Event::Look, shown, "5 - look -> Shown(-)")?);
    Ok(())
}

#[test]
fn openings_are_shown(rt: HostRuntime) -> Result<(), Fail> {
    let alloc = rt.alloc();
    let preserved = "0 - channel x preserve -> Opened(0)";
    assert!(rt; has_line(alloc, 0, opening(alloc, true)?, Reply::Opened(0), preserved)?);
    let plain = "1 - channel x -> NameTaken";
    assert!(rt; has_line(alloc, 1, opening(alloc, false)?, Reply::NameTaken, plain)?);
    Ok(())
}

/// The changes of a transaction have no place in the line.
#[test]
fn changes_are_not_shown(rt: HostRuntime) -> Result<(), Fail> {
    let alloc = rt.alloc();
    let received = "6 - receive 1 aaaaaaaa-aaaa-aaaa-aaaa-aaaaaaaaaaaa:1 -> Received(3)";
    let receive = Event::Receive(1, first_entry(alloc)?);
    assert!(rt; has_line(alloc, 6, receive, Reply::Received(3), received)?);
    let local = Event::Local(first_entry(alloc)?.txn);
    assert!(rt;
        has_line(
            alloc,
            7,
            local,
            Reply::NumbersUsedUp,
            "7 - local -> NumbersUsedUp"
        )?
    );
    Ok(())
}
