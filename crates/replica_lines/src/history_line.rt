//! Events and their replies as lines of a history.
ghost use Rattle.std.specs.Prelude.{◌≡◌, ◌++◌, OnOk, string_bytes};
ghost use Rattle.replica_lines.specs.Histories.{seat_of, seat_word, history_line};

use crate::event::push_event;
use crate::reply::push_reply;
use gtid_report::push_number;
use replica_core::{Event, Reply};
use std::alloc::{AllocError, Global};

/// The seat that takes, commits or rolls back, if the event is one of these.
fn seat_of(event: &Event) -> Option<u8>
    ensures { result ≡ seat_of event.now }
{
    match event {
        Event::Take(seat, _, _) => Some(*seat),
        Event::Commit(seat) => Some(*seat),
        Event::Rollback(seat) => Some(*seat),
        _ => None,
    }
}

/// A seat, or `-` if there is none.
fn push_seat(out: &mut String, seat: Option<u8>) -> Result<(), AllocError>
    ensures { OnOk result (string_bytes out.new ≡ string_bytes out.old ++ seat_word seat) }
{
    match seat {
        Some(seat) => push_number(out, u64::from(seat)),
        None => out.push_str("-"),
    }
}

/// Appends the line of an event and of the reply to it, without a line feed: `<place> <seat> <event> -> <reply>`. The place is that of the
/// event in its history, counted from 0. The seat is `-` if the event is not of a seat.
pub fn push_history_line(
    alloc: Global,
    out: &mut String,
    place: u64,
    event: &Event,
    reply: &Reply,
) -> Result<(), AllocError>
    ensures { OnOk result (string_bytes out.new ≡ string_bytes out.old ++ history_line place event.now reply.now) }
{
    push_number(out, place)?;
    out.push_str(" ")?;
    push_seat(out, seat_of(event))?;
    out.push_str(" ")?;
    push_event(out, event)?;
    out.push_str(" -> ")?;
    push_reply(alloc, out, reply)
}
