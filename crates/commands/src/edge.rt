//! Where the program ends: readers, writers, and how a command ends.
ghost use Rattle.std.specs.Prelude.{◌≡◌, ℕ, ◌≤◌, List, length, Option, IfOk, OnOk, OnErr};
ghost use Rattle.std.specs.Io.KnownBytes.{Appends, ReadConsumes};
ghost use Rattle.commands.specs.Edge.{one_more, Begins};

/// A call of a reader or a writer failed.
#[derive(Clone, Copy, Debug, PartialEq, Eq, Drop)]
pub struct Failed;

/// A reader, by the bytes that it has left, if these are known, and its failed calls.
pub trait Source {
    ghost left: { Self → Option (List ℕ) };

    ghost failed: { Self → ℕ };

    fn read(&mut self, buffer: &mut [u8]) -> Result<usize, Failed>
        ensures bound { IfOk result (λ n. n ≤ length buffer.new) }
        ensures bytes { ReadConsumes (left self.old) (left self.new) result buffer.new }
        ensures calm { OnOk result (failed self.new ≡ failed self.old) }
        ensures counted { OnErr result (failed self.new ≡ one_more (failed self.old)) };
}

/// A writer, by the bytes that it holds, if these are known, and its failed calls.
pub trait Sink {
    ghost written: { Self → Option (List ℕ) };

    ghost failed: { Self → ℕ };

    /// Writes all of the bytes, or a prefix of them.
    fn write(&mut self, bytes: &[u8]) -> Result<(), Failed>
        ensures ok { OnOk result (Appends (written self.old) (written self.new) bytes.now) }
        ensures begins { OnErr result (Begins (written self.old) (written self.new) bytes.now) }
        ensures calm { OnOk result (failed self.new ≡ failed self.old) }
        ensures counted { OnErr result (failed self.new ≡ one_more (failed self.old)) };
}

#[derive(Clone, Copy, Debug, PartialEq, Eq, Drop)]
pub enum Outcome {
    Done,
    /// The answer rests on something that the input doesn't show, which it names.
    Assumed,
    Refused,
    /// The command does not take its words, which standard output reports.
    Misused,
}

#[derive(Clone, Copy, Debug, PartialEq, Eq, Drop)]
pub enum RunFault {
    Memory,
    Read,
    Write,
}
