//! The command `states`.
ghost use Rattle.std.specs.Prelude.{◌≡◌, ℕ, List, Ok, IfOk, IfErr, OnOk};
ghost use Rattle.std.specs.Str.Lossy.{utf8_lossy};
ghost use Rattle.server_states.specs.States.{compared_lines, union_line, server_lines, states_in, Compares};
ghost use Rattle.commands.specs.Printed.{refused_with, to_all, IsDone, HasStopped};
ghost use Rattle.commands.specs.States.{IsStatesAnswer, states_answer, HasWritten, HasBroken, WritesLines, BreaksLines};

use crate::answer::refusal_answer;
use crate::edge::{Outcome, RunFault, Sink, Source};
use crate::streams::Streams;
use gtid_report::{Fault, Refusal};
use server_states::{Compared, Server, compare};
use std::alloc::Global;

/// Writes the lines of a server.
fn write_server<S: Source, W: Sink>(
    alloc: Global,
    compared: &Compared,
    server: &Server,
    streams: &mut Streams<S, W>,
) -> Result<(), RunFault>
    requires { (text : List ℕ) × (server_lines compared.now.together server.now ≡ Ok text) }
    ensures input { streams.new.input ≡ streams.old.input }
    ensures done { OnOk result (WritesLines (server_lines compared.now.together server.now) streams.old.output streams.new.output) }
    ensures fault { IfErr result (BreaksLines (server_lines compared.now.together server.now) streams.old.output streams.new.output) }
{
    match compared.server_lines(alloc, server) {
        Ok(text) => streams.write(&text),
        Err(_) => Err(RunFault::Memory),
    }
}

/// Writes the line of the union.
fn write_union<S: Source, W: Sink>(
    alloc: Global,
    compared: &Compared,
    streams: &mut Streams<S, W>,
) -> Result<(), RunFault>
    ensures input { streams.new.input ≡ streams.old.input }
    ensures done { OnOk result (HasWritten streams.old.output streams.new.output (union_line compared.now.together)) }
    ensures fault { IfErr result (HasBroken streams.old.output streams.new.output (union_line compared.now.together)) }
{
    match compared.union_line(alloc) {
        Ok(text) => streams.write(&text),
        Err(_) => Err(RunFault::Memory),
    }
}

/// Writes the lines of servers that were compared, one server after another.
fn write_compared<S: Source, W: Sink>(
    alloc: Global,
    compared: &Compared,
    streams: &mut Streams<S, W>,
) -> Result<(), RunFault>
    requires { (text : List ℕ) × (compared_lines compared.now ≡ Ok text) }
    ensures input { streams.new.input ≡ streams.old.input }
    ensures done { OnOk result (WritesLines (compared_lines compared.now) streams.old.output streams.new.output) }
    ensures fault { IfErr result (BreaksLines (compared_lines compared.now) streams.old.output streams.new.output) }
{
    match write_union(alloc, compared, streams) {
        Ok(()) => {}
        Err(fault) => return Err(fault),
    }
    for server in compared.servers() {
        match write_server(alloc, compared, server, streams) {
            Ok(()) => {}
            Err(fault) => return Err(fault),
        }
    }
    Ok(())
}

/// The servers of bytes, compared.
fn compare_bytes(alloc: Global, bytes: &[u8]) -> Result<Compared, Fault>
    ensures { Compares (states_in (utf8_lossy bytes.now)) result }
{
    let text = String::from_utf8_lossy(alloc, bytes)?;
    compare(alloc, &text)
}

/// Writes the line of a refusal.
fn write_refusal<S: Source, W: Sink>(
    alloc: Global,
    refusal: &Refusal,
    streams: &mut Streams<S, W>,
) -> Result<Outcome, RunFault>
    ensures input { streams.new.input ≡ streams.old.input }
    ensures done { OnOk result (HasWritten streams.old.output streams.new.output (refused_with refusal.now).text) }
    ensures ends { IfOk result (λ outcome. outcome ≡ (refused_with refusal.now).outcome) }
    ensures fault { IfErr result (HasBroken streams.old.output streams.new.output (refused_with refusal.now).text) }
{
    match refusal_answer(alloc, refusal) {
        Ok(answer) => streams.send(&answer),
        Err(_) => Err(RunFault::Memory),
    }
}

/// Writes the lines of servers that were compared, or the line of the refusal.
fn write_states<S: Source, W: Sink>(
    alloc: Global,
    bytes: &[u8],
    streams: &mut Streams<S, W>,
) -> Result<Outcome, RunFault>
    ensures input { streams.new.input ≡ streams.old.input }
    ensures done { OnOk result (HasWritten streams.old.output streams.new.output (states_answer bytes.now).text) }
    ensures ends { IfOk result (λ outcome. outcome ≡ (states_answer bytes.now).outcome) }
    ensures fault { IfErr result (HasBroken streams.old.output streams.new.output (states_answer bytes.now).text) }
{
    match compare_bytes(alloc, bytes) {
        Ok(compared) => match write_compared(alloc, &compared, streams) {
            Ok(()) => Ok(Outcome::Done),
            Err(fault) => Err(fault),
        },
        Err(Fault::Memory) => Err(RunFault::Memory),
        Err(Fault::Refused(refusal)) => write_refusal(alloc, &refusal, streams),
    }
}

/// Reads a line for each server, `<name> <uuid> <set>`, and writes the union of the sets, and for each server what it lacks of that, its
/// gaps, and what it alone has; or the line of the refusal. Nothing else is written. The lines are written server by server, once it is
/// known that each can be made, so memory may run out after some of them.
pub fn run_states<S: Source, W: Sink>(
    alloc: Global,
    streams: &mut Streams<S, W>,
) -> Result<Outcome, RunFault>
    ensures done { IfOk result (IsDone (to_all IsStatesAnswer) streams.old streams.new) }
    ensures failed { IfErr result (HasStopped (to_all IsStatesAnswer) streams.old streams.new) }
{
    let bytes = streams.read_all(alloc)?;
    write_states(alloc, &bytes, streams)
}
