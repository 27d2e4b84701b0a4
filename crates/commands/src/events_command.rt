//! The command `events`.
ghost use Rattle.std.specs.Prelude.{◌≡◌, ◌≤◌, length, take, IfOk, IfErr, OnOk};
ghost use Rattle.binlog_events.specs.Listing.{refused_line};
ghost use Rattle.commands.specs.Printed.{to_all, IsDone};
ghost use Rattle.commands.specs.States.{HasWritten, HasBroken};
ghost use Rattle.commands.specs.Events.{IsEventsAnswer, ListsAll, BreaksOff, HasEndedEarly, ListsPiece, BreaksPiece};

use crate::edge::{Outcome, RunFault, Sink, Source};
use crate::reading::MOST_READS;
use crate::streams::Streams;
use binlog_events::{EventDetail, EventLister, put_refusal};
use binlog_frames::FrameFault;
use std::alloc::{AllocError, Global};

/// Takes a piece of a file, and writes the lines of the events that are whole now. `lines` is room for them.
fn list_piece<S: Source, W: Sink>(
    alloc: Global,
    lister: &mut EventLister,
    piece: &[u8],
    lines: &mut Vec<u8>,
    streams: &mut Streams<S, W>,
) -> Result<(), RunFault>
    ensures input { streams.new.input ≡ streams.old.input }
    ensures done { OnOk result (ListsPiece lister.old lister.new piece.now streams.old.output streams.new.output) }
    ensures fault { IfErr result (BreaksPiece lister.old piece.now streams.old.output streams.new.output) }
{
    lines.clear();
    let Ok(()) = lister.feed(alloc, piece, lines) else {
        return Err(RunFault::Memory);
    };
    streams.write_bytes(lines)
}

/// The first so many bytes.
fn first_of(bytes: &[u8], n: usize) -> &[u8]
    requires { n ≤ length bytes.now }
    ensures { result.now ≡ take n bytes.now }
{
    &bytes[..n]
}

/// Reads a file, and writes the lines of its events up to the first fault, which it gives.
fn list_all<S: Source, W: Sink>(
    alloc: Global,
    detail: EventDetail,
    streams: &mut Streams<S, W>,
) -> Result<Option<FrameFault>, RunFault>
    ensures done { IfOk result (ListsAll detail streams.old streams.new) }
    ensures fault { IfErr result (BreaksOff detail streams.old streams.new) }
{
    let mut lister = EventLister::new(alloc, detail);
    let mut lines = Vec::new(alloc);
    let mut piece = [0u8; 65_536];
    for _turn in 0..MOST_READS {
        let n = match streams.read_some(&mut piece) {
            Ok(n) => n,
            Err(_) => return Err(RunFault::Read),
        };
        if n == 0 {
            return Ok(lister.fault());
        }
        let more = first_of(&piece, n);
        match list_piece(alloc, &mut lister, more, &mut lines, streams) {
            Ok(()) => {}
            Err(fault) => return Err(fault),
        }
    }
    Err(RunFault::Read)
}

/// The line of a fault.
fn refusal_line(alloc: Global, fault: FrameFault) -> Result<Vec<u8>, AllocError>
    ensures { IfOk result (λ line. line.items ≡ refused_line fault) }
{
    let mut line = Vec::new(alloc);
    put_refusal(&mut line, fault)?;
    Ok(line)
}

/// Writes the line of a fault.
fn write_refusal<S: Source, W: Sink>(
    alloc: Global,
    fault: FrameFault,
    streams: &mut Streams<S, W>,
) -> Result<(), RunFault>
    ensures input { streams.new.input ≡ streams.old.input }
    ensures done { OnOk result (HasWritten streams.old.output streams.new.output (refused_line fault)) }
    ensures fault { IfErr result (HasBroken streams.old.output streams.new.output (refused_line fault)) }
{
    match refusal_line(alloc, fault) {
        Ok(line) => streams.write_bytes(&line),
        Err(_) => Err(RunFault::Memory),
    }
}

/// Reads the bytes of a binary log, and writes a line for each of its events, and one for each row if these are asked for, as soon as the
/// event is whole; at the first fault the line of the refusal, and nothing after it. Of the log one event is kept at a time.
pub fn run_events<S: Source, W: Sink>(
    alloc: Global,
    detail: EventDetail,
    streams: &mut Streams<S, W>,
) -> Result<Outcome, RunFault>
    ensures done { IfOk result (IsDone (to_all (IsEventsAnswer detail)) streams.old streams.new) }
    ensures failed { IfErr result (HasEndedEarly detail streams.old streams.new) }
{
    let found = match list_all(alloc, detail, streams) {
        Ok(found) => found,
        Err(fault) => return Err(fault),
    };
    match found {
        None => Ok(Outcome::Done),
        Some(fault) => match write_refusal(alloc, fault, streams) {
            Ok(()) => Ok(Outcome::Refused),
            Err(fault) => Err(fault),
        },
    }
}
