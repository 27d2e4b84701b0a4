//! A script from a reader to a writer.
ghost use Rattle.std.specs.Prelude.{◌≡◌, ℕ, ◌≤◌, List, length, Result, IfSome, IfOk, IfErr, OnOk, option_map};
ghost use Rattle.std.specs.Io.BufRead.{strip_last};
ghost use Rattle.std.specs.Io.KnownBytes.{Appends, Keeps, WriteAppends};
ghost use Rattle.replica_script.specs.Scripts.{fault_at, fault_at_end};
ghost use Rattle.replica_script.specs.Answering.{Ends, IsCutShort, IsFaultAt, IsLineFault, IsNext, IsRead, IsReadFault, IsRun, IsWritten, ended};

use crate::answer::{Asking, Stop};
use crate::script::Script;
use std::alloc::Global;
use std::io::{BufRead, Error, ErrorKind, Write};

/// How often a write or a flush is tried that is interrupted each time (our own rule).
const TRIES: u32 = 1_000;

/// A line of a script.
#[derive(Drop)]
pub struct ScriptLine {
    /// Its number, from 1.
    pub number: u64,
    /// Its bytes, without the line feed.
    pub text: Vec<u8>,
}

/// Why a script was not answered to its end.
#[derive(Drop)]
pub enum ScriptFault {
    /// A line that is not in the language at its place.
    BadLine(ScriptLine),
    /// An end inside a transaction.
    CutShort,
    /// Out of memory.
    Memory,
    /// A call that was refused memory has changed the replica.
    Changed,
    /// Reading failed.
    Read,
    /// Writing failed.
    Write,
}

/// What a stop at this line means.
fn fault_at(line: ScriptLine, stop: Stop) -> ScriptFault
    ensures { result ≡ fault_at line stop }
{
    match stop {
        Stop::BadLine => ScriptFault::BadLine(line),
        Stop::Memory => ScriptFault::Memory,
        Stop::Changed => ScriptFault::Changed,
    }
}

/// What a stop means if no line follows.
fn fault_at_end(stop: Stop) -> ScriptFault
    ensures { result ≡ fault_at_end stop }
{
    match stop {
        Stop::BadLine => ScriptFault::CutShort,
        Stop::Memory => ScriptFault::Memory,
        Stop::Changed => ScriptFault::Changed,
    }
}

/// What a failed read means.
fn read_fault(error: Error) -> ScriptFault
    ensures { IsReadFault result }
{
    match error.kind() {
        ErrorKind::OutOfMemory => ScriptFault::Memory,
        _ => ScriptFault::Read,
    }
}

/// What answers lines, one after another.
pub trait Answerer {
    ghost use Rattle.std.specs.Prelude.{ℕ, List, Result};
    ghost use Rattle.replica_script.specs.declared.answer.Stop.{Stop};

    /// How a line is answered, and in what state that leaves it.
    ghost answers: { Self → List ℕ → List ℕ → Self → Type 0 };

    /// Why a line has no answer.
    ghost stops: { Self → List ℕ → Stop → Type 0 };

    /// How the lines have ended if none follows.
    ghost ends: { Self → Result (Unit {0}) Stop };

    /// Takes the next line, without its line feed, and answers it.
    fn take_line(&mut self, alloc: Global, line: &[u8]) -> Result<Vec<u8>, Stop>
        ensures answer { IfOk result (λ text. answers self.old line.now text.items self.new) }
        ensures stop { IfErr result (stops self.old line.now) };

    /// How the lines have ended, if none follows.
    fn end(&self) -> Result<(), Stop>
        ensures { result ≡ ends self.now };
}

/// Takes the line feed from a line. The last one may have none.
fn drop_feed(text: &mut Vec<u8>)
    ensures { text.new.items ≡ strip_last 10 text.old.items }
{
    if let [.., b'\n'] = text.as_slice() {
        let _feed = text.pop();
    }
}

/// Writes once, and again if the write was interrupted.
fn write_again<W: Write>(writer: &mut W, bytes: &[u8]) -> Result<usize, ScriptFault>
    ensures bound { IfOk result (λ n. n ≤ length bytes.now) }
    ensures bytes { WriteAppends (W.contents writer.old) (W.contents writer.new) result bytes.now }
    ensures fault { IfErr result (λ fault. fault ≡ ScriptFault.Write) }
{
    for _ in 0..TRIES {
        match writer.write(bytes) {
            Ok(n) => return Ok(n),
            Err(error) if error.kind() == ErrorKind::Interrupted => {}
            Err(_) => return Err(ScriptFault::Write),
        }
    }
    Err(ScriptFault::Write)
}

/// Flushes what was written, and once more if that was interrupted.
fn flush_again<W: Write>(writer: &mut W) -> Result<(), ScriptFault>
    ensures bytes { Keeps (W.contents writer.old) (W.contents writer.new) }
    ensures fault { IfErr result (λ fault. fault ≡ ScriptFault.Write) }
{
    for _ in 0..TRIES {
        match writer.flush() {
            Ok(()) => return Ok(()),
            Err(error) if error.kind() == ErrorKind::Interrupted => {}
            Err(_) => return Err(ScriptFault::Write),
        }
    }
    Err(ScriptFault::Write)
}

/// Writes an answer, or a prefix of it, and hands it on at once.
fn write_answer<W: Write>(text: &[u8], writer: &mut W) -> Result<(), ScriptFault>
    ensures ok { OnOk result (Appends (W.contents writer.old) (W.contents writer.new) text.now) }
    ensures begins { IsCutShort (W.contents writer.old) (W.contents writer.new) text.now }
    ensures fault { IfErr result (λ fault. fault ≡ ScriptFault.Write) }
{
    let mut done = 0usize;
    while done < text.len() {
        match write_again(writer, &text[done..]) {
            Ok(n) if n > 0 => done += n,
            _ => return Err(ScriptFault::Write),
        }
    }
    flush_again(writer)
}

/// Answers a line, and writes the answer before the next line is read.
fn answer_line<A: Answerer, W: Write>(
    alloc: Global,
    script: &mut A,
    line: ScriptLine,
    writer: &mut W,
) -> Result<(), ScriptFault>
    ensures ok { OnOk result (IsWritten A.answers script.old line.text.items script.new (W.contents writer.old) (W.contents writer.new)) }
    ensures fault { IfErr result (IsLineFault A.answers A.stops script.old line (W.contents writer.old) (W.contents writer.new)) }
{
    match script.take_line(alloc, &line.text) {
        Ok(text) => write_answer(&text, writer),
        Err(stop) => Err(fault_at(line, stop)),
    }
}

/// How a script has ended, if no line follows.
fn check_end<A: Answerer>(script: &A) -> Result<(), ScriptFault>
    ensures { result ≡ ended (A.ends script.now) }
{
    match script.end() {
        Ok(()) => Ok(()),
        Err(stop) => Err(fault_at_end(stop)),
    }
}

/// Reads the next line, if there is one, without its line feed.
fn read_line<R: BufRead>(alloc: Global, reader: &mut R) -> Result<Option<Vec<u8>>, ScriptFault>
    ensures read { IfSome (R.remaining reader.old) (λ input. IfOk result (λ line. IsRead input (R.remaining reader.new) (option_map (λ v. v.items) line))) }
    ensures fault { IfErr result IsReadFault }
{
    let mut text = Vec::new(alloc);
    match reader.read_until(b'\n', &mut text) {
        Ok(0) => Ok(None),
        Ok(_) => {
            drop_feed(&mut text);
            Ok(Some(text))
        }
        Err(error) => Err(read_fault(error)),
    }
}

/// Reads the line of this number and writes the answer to it. Whether there was a line.
fn answer_next<A: Answerer, R: BufRead, W: Write>(
    alloc: Global,
    number: u64,
    reader: &mut R,
    writer: &mut W,
    script: &mut A,
) -> Result<bool, ScriptFault>
    ensures next { IfSome (R.remaining reader.old) (λ input. IfOk result (IsNext A.answers script.old input script.new (R.remaining reader.new) (W.contents writer.old) (W.contents writer.new))) }
    ensures fault { IfSome (R.remaining reader.old) (λ input. IfErr result (IsFaultAt A.answers A.stops script.old number input (W.contents writer.old) (W.contents writer.new))) }
{
    match read_line(alloc, reader) {
        Ok(None) => Ok(false),
        Ok(Some(text)) => match answer_line(alloc, script, ScriptLine { number, text }, writer) {
            Ok(()) => Ok(true),
            Err(fault) => Err(fault),
        },
        Err(fault) => Err(fault),
    }
}

/// Reads the lines of a script that has been started, and writes the answers.
fn answer_lines<A: Answerer, R: BufRead, W: Write>(
    alloc: Global,
    reader: &mut R,
    writer: &mut W,
    script: &mut A,
) -> Result<(), ScriptFault>
    ensures { IfSome (R.remaining reader.old) (λ input. Ends A.answers A.stops A.ends script.old input (W.contents writer.old) (W.contents writer.new) result) }
{
    for before in 0..u64::MAX {
        match answer_next(alloc, before + 1, reader, writer, script) {
            Ok(true) => {}
            Ok(false) => return check_end(script),
            Err(fault) => return Err(fault),
        }
    }
    Err(ScriptFault::Read)
}

/// Reads a script line by line, and writes the answers, each before the next line is read.
pub fn run_script<R: BufRead, W: Write>(
    alloc: Global,
    asking: Asking,
    reader: &mut R,
    writer: &mut W,
) -> Result<(), ScriptFault>
    ensures { IfSome (R.remaining reader.old) (λ input. IsRun asking input (W.contents writer.old) (W.contents writer.new) result) }
{
    let mut script = Script::start(alloc, asking);
    let ended = answer_lines(alloc, reader, writer, &mut script);
    drop(script);
    ended
}
