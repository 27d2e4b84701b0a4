//! The reader and the writer of a command.
ghost use Rattle.std.specs.Prelude.{◌≡◌, ◌≤◌, length, IfOk, IfErr, OnOk, OnErr};
ghost use Rattle.std.specs.Io.KnownBytes.{Appends, ReadConsumes};
ghost use Rattle.commands.specs.Edge.{input_of, output_of, one_more, Begins, HasRead, ReadFault};
ghost use Rattle.commands.specs.States.{HasWritten, HasBroken};
ghost use Rattle.commands.specs.Texts.{HasAllCome, HasFound};

use crate::answer::Answer;
use crate::blocks::read_beside;
use crate::edge::{Outcome, RunFault, Sink, Source};
use crate::reading::read_text;
use crate::text::Text;
use crate::whole::read_all;
use std::alloc::Global;
use std::marker::Model;
use std::thread::Threads;
use txn_journal::{BundleReader, JournalFault};

/// A reader and a writer: what a command reads, and where it writes its answer.
#[derive(Drop)]
pub struct Streams<S: Source, W: Sink> {
    reader: S,
    writer: W,
}

impl<S: Source, W: Sink> Model for Streams<S, W> {
    ghost use Rattle.commands.specs.Edge.{StreamsValue, input_of, output_of};

    ghost Value = { StreamsValue S W };

    ghost view = { λ s. record { input = input_of S.left S.failed s.reader; output = output_of W.written W.failed s.writer } };
}

impl<S: Source, W: Sink> Streams<S, W> {
    /// Streams of this reader and this writer.
    pub fn new(reader: S, writer: W) -> Self
        ensures input { result.input ≡ input_of S.left S.failed reader }
        ensures output { result.output ≡ output_of W.written W.failed writer }
    {
        Streams { reader, writer }
    }

    /// The reader and the writer, as the commands left them.
    pub fn into_parts(self) -> (S, W)
        ensures input { self.input ≡ input_of S.left S.failed result.0 }
        ensures output { self.output ≡ output_of W.written W.failed result.1 }
    {
        let Streams { reader, writer } = self;
        (reader, writer)
    }

    /// All bytes that the reader has left.
    pub(crate) fn read_all(&mut self, alloc: Global) -> Result<Vec<u8>, RunFault>
        ensures output { self.new.output ≡ self.old.output }
        ensures read { IfOk result (λ bytes. HasRead self.old.input.left self.new.input.left bytes.items) }
        ensures fault { IfErr result (ReadFault self.old.input self.new.input) }
    {
        read_all(alloc, &mut self.reader)
    }

    /// A reader of bundles after all bytes that the reader has left. Their lines are parsed by threads, while what follows is read.
    pub(crate) fn read_beside<R: Threads + Sync>(
        &mut self,
        rt: &R,
        alloc: Global,
        workers: u8,
    ) -> Result<BundleReader, RunFault>
    where
        S: Send,
        ensures output { self.new.output ≡ self.old.output }
        ensures read { IfOk result (HasAllCome self.old.input.left self.new.input.left) }
        ensures fault { IfErr result (ReadFault self.old.input self.new.input) }
    {
        read_beside(rt, alloc, workers, &mut self.reader)
    }

    /// What all bytes that the reader has left parse as.
    pub(crate) fn read_text<T: Text>(
        &mut self,
        alloc: Global,
    ) -> Result<Result<T, JournalFault>, RunFault>
        ensures output { self.new.output ≡ self.old.output }
        ensures read { IfOk result (HasFound T.parses T.decoded self.old.input.left self.new.input.left) }
        ensures fault { IfErr result (ReadFault self.old.input self.new.input) }
    {
        read_text(alloc, &mut self.reader)
    }

    /// Some of the bytes that the reader has left; none at their end.
    pub(crate) fn read_some(&mut self, buffer: &mut [u8]) -> Result<usize, RunFault>
        ensures output { self.new.output ≡ self.old.output }
        ensures bound { IfOk result (λ n. n ≤ length buffer.new) }
        ensures bytes { ReadConsumes self.old.input.left self.new.input.left result buffer.new }
        ensures calm { OnOk result (self.new.input.failed ≡ self.old.input.failed) }
        ensures fault { IfErr result (λ f. f ≡ RunFault.Read) }
        ensures counted { OnErr result (self.new.input.failed ≡ one_more self.old.input.failed) }
    {
        match self.reader.read(buffer) {
            Ok(n) => Ok(n),
            Err(_) => Err(RunFault::Read),
        }
    }

    /// Writes a part of an answer.
    pub(crate) fn write_bytes(&mut self, bytes: &[u8]) -> Result<(), RunFault>
        ensures input { self.new.input ≡ self.old.input }
        ensures done { OnOk result (HasWritten self.old.output self.new.output bytes.now) }
        ensures fault { IfErr result (HasBroken self.old.output self.new.output bytes.now) }
        ensures write { IfErr result (λ f. f ≡ RunFault.Write) }
    {
        match self.writer.write(bytes) {
            Ok(()) => Ok(()),
            Err(_) => Err(RunFault::Write),
        }
    }

    /// Writes a part of an answer.
    pub(crate) fn write(&mut self, text: &str) -> Result<(), RunFault>
        ensures input { self.new.input ≡ self.old.input }
        ensures done { OnOk result (HasWritten self.old.output self.new.output text.now) }
        ensures fault { IfErr result (HasBroken self.old.output self.new.output text.now) }
    {
        self.write_bytes(text.as_bytes())
    }

    /// Writes an answer.
    pub(crate) fn send(&mut self, answer: &Answer) -> Result<Outcome, RunFault>
        ensures input { self.new.input ≡ self.old.input }
        ensures done { OnOk result (Appends self.old.output.written self.new.output.written answer.now.text) }
        ensures calm { OnOk result (self.new.output.failed ≡ self.old.output.failed) }
        ensures ends { IfOk result (λ outcome. outcome ≡ answer.now.outcome) }
        ensures write { IfErr result (λ f. f ≡ RunFault.Write) }
        ensures begins { OnErr result (Begins self.old.output.written self.new.output.written answer.now.text) }
        ensures counted { OnErr result (self.new.output.failed ≡ one_more self.old.output.failed) }
    {
        match answer.text.write_to(&mut self.writer) {
            Ok(()) => Ok(answer.outcome),
            Err(_) => Err(RunFault::Write),
        }
    }
}
