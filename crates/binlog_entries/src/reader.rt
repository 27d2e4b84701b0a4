//! A log's text that comes in pieces, cut anywhere.
ghost use Rattle.std.specs.Prelude.{◌≡◌, ◌<◌, ◌++◌, length, ◌∷◌, [], None, OnOk, IfOk, IfErr, IfSome, IfNone};
ghost use Rattle.txn_journal.specs.Words.{IsOneLine, BeginsWithLine};
ghost use Rattle.binlog_entries.specs.Stream.{Seen, answer, feed_bytes, start, IsPieceFault, IsEndFault, IsJoinedFault, IsAfter, TakesPiece, Ends, end_of, closing, IsLog, IsTextFault, Refuses};
ghost use Rattle.binlog_entries.specs.Machine.{TakesOr, judge};
ghost use Rattle.binlog_entries.specs.Drafts.{standing};
ghost use Rattle.binlog_entries.specs.Readers.{progress, log_seen};

use crate::draft::LogDraft;
use crate::fault::{EntryFault, ReadFault};
use gtid_set::GtidSet;
use log_transactions::LoggedTransactions;
use memchr::memchr;
use std::alloc::Global;

/// The first line of a text, and what follows its line feed.
pub fn cut_line(text: &[u8]) -> Option<(&[u8], &[u8])>
    ensures found { IfSome result (λ r. BeginsWithLine text.now r.0.now r.1.now) }
    ensures none { IfNone result (IsOneLine text.now) }
{
    let Some(at) = memchr(b'\n', text) else {
        return None;
    };
    let (line, rest) = text.split_at(at);
    match rest {
        [_, after @ ..] => Some((line, after)),
        [] => None,
    }
}

/// The text of a binary log, as far as it has come.
#[derive(Drop)]
pub struct LogReader {
    draft: LogDraft,
    /// How many whole lines have come.
    lines: u64,
    /// The bytes of the line that has not come whole.
    rest: Vec<u8>,
    stopped: Option<ReadFault>,
}

impl LogReader {
    ghost use Rattle.gtid_set.specs.declared.fault.SetFault.TheVariants.{Memory};
    ghost use Rattle.binlog_entries.specs.declared.fault.ReadFault.TheVariants.{Set};

    /// Before the first byte. What comes before the log is in the opening set.
    pub fn start(alloc: Global, opening: GtidSet) -> LogReader
        ensures { progress result ≡ start opening }
    {
        LogReader {
            draft: LogDraft::start(alloc, opening),
            lines: 0,
            rest: Vec::new(alloc),
            stopped: None,
        }
    }

    fn answer(&self) -> Result<(), ReadFault>
        ensures { result ≡ answer (progress self.now) }
    {
        match self.stopped {
            None => Ok(()),
            Some(fault) => Err(fault),
        }
    }

    /// Takes the next piece. After an error every later call returns that error.
    pub fn feed(&mut self, alloc: Global, piece: &[u8]) -> Result<(), ReadFault>
        ensures next { IsAfter (IsPieceFault (progress self.old) piece.now) (progress self.new) (feed_bytes (progress self.old) piece.now) }
        ensures answer { result ≡ answer (progress self.new) }
    {
        if let Err(fault) = self.answer() {
            return Err(fault);
        }
        if let Err(fault) = self.take_piece(alloc, piece) {
            self.stopped = Some(fault);
        }
        self.answer()
    }

    fn take_piece(&mut self, alloc: Global, piece: &[u8]) -> Result<(), ReadFault>
        requires { self.old.stopped ≡ None }
        ensures next { TakesPiece (IsPieceFault (progress self.old) piece.now) result (progress self.new) (feed_bytes (progress self.old) piece.now) }
        ensures goes { self.new.stopped ≡ None }
    {
        let mut left = piece;
        'lines: loop {
            match cut_line(left) {
                Some((line, after)) => match self.take_line(alloc, line) {
                    Ok(()) => left = after,
                    Err(fault) => return Err(fault),
                },
                None => return self.keep(left),
            }
        }
    }

    /// Keeps the bytes of a line that has not come whole.
    fn keep(&mut self, bytes: &[u8]) -> Result<(), ReadFault>
        ensures rest { OnOk result (self.new.rest.items ≡ self.old.rest.items ++ bytes.now) }
        ensures memory { IfErr result (λ fault. (fault ≡ Set Memory) × (0 < length bytes.now)) }
        ensures draft { self.new.draft ≡ self.old.draft }
        ensures lines { self.new.lines ≡ self.old.lines }
        ensures stopped { self.new.stopped ≡ self.old.stopped }
    {
        if bytes.is_empty() {
            return Ok(());
        }
        self.rest.extend_from_slice(bytes)?;
        Ok(())
    }

    /// Takes the line whose last bytes are these.
    fn take_line(&mut self, alloc: Global, bytes: &[u8]) -> Result<(), ReadFault>
        requires goes { self.old.stopped ≡ None }
        requires whole { IsOneLine bytes.now }
        ensures next { TakesPiece (IsEndFault (progress self.old) (bytes.now ++ 10 ∷ [])) result (progress self.new) (feed_bytes (progress self.old) (bytes.now ++ 10 ∷ [])) }
        ensures goes { self.new.stopped ≡ None }
    {
        self.lines = self.lines.saturating_add(1);
        match self.make(alloc, bytes) {
            Ok(()) => Ok(()),
            Err(EntryFault::Set(fault)) => Err(ReadFault::Set(fault)),
            Err(EntryFault::Refused(refusal)) => Err(ReadFault::Line {
                line: refusal.named_line(self.lines),
                refusal,
            }),
        }
    }

    fn make(&mut self, alloc: Global, bytes: &[u8]) -> Result<(), EntryFault>
        ensures made { TakesOr (IsJoinedFault (standing self.old.draft) self.old.rest.items bytes.now) result (judge (standing self.old.draft) (self.old.rest.items ++ bytes.now)) (standing self.new.draft) }
        ensures rest { OnOk result (self.new.rest.items ≡ []) }
        ensures lines { self.new.lines ≡ self.old.lines }
        ensures stopped { self.new.stopped ≡ self.old.stopped }
    {
        if self.rest.as_slice().is_empty() {
            return self.draft.take_line(alloc, bytes);
        }
        self.rest.extend_from_slice(bytes)?;
        self.draft.take_line(alloc, &self.rest)?;
        self.rest.clear();
        Ok(())
    }

    /// What is wrong with the text as a whole.
    fn end(&self) -> Result<(), ReadFault>
        ensures { result ≡ end_of (progress self.now) }
    {
        self.answer()?;
        if !self.draft.is_ended() || !self.rest.is_empty() {
            return Err(ReadFault::Unfinished {
                line: self.lines.saturating_add(1),
            });
        }
        Ok(())
    }

    /// What the log describes, if the last file has ended.
    pub fn finish(self) -> Result<LoggedTransactions, ReadFault>
        ensures { Seen log_seen result ≡ closing (progress self) }
    {
        match self.end() {
            Ok(()) => Ok(self.draft.into_log()),
            Err(fault) => Err(fault),
        }
    }
}

fn read(alloc: Global, opening: GtidSet, text: &[u8]) -> Result<LoggedTransactions, ReadFault>
    ensures { Ends (IsPieceFault (start opening) text.now) (Seen log_seen result) (closing (feed_bytes (start opening) text.now)) }
{
    let mut reader = LogReader::start(alloc, opening);
    match reader.feed(alloc, text) {
        Ok(()) => reader.finish(),
        Err(fault) => Err(fault),
    }
}

/// What the text of a binary log describes, the text of its files one after another. What comes before the log is in the opening set.
pub fn read_log(
    alloc: Global,
    opening: &GtidSet,
    text: &[u8],
) -> Result<LoggedTransactions, ReadFault>
    // What the lines of the text mean, the entries denote; no rows event lacks its rows, and between two files nothing lacks.
    ensures found { IfOk result (λ log. IsLog opening.now text.now log.previous log.entries.items log.varied.items) }
    // A refusal names the first line that is refused, and what is wrong with it.
    ensures refused { IfErr result (λ fault. Refuses opening.now fault text.now) }
    // The same, by the fold over the bytes.
    ensures exact { Ends (IsTextFault opening.now text.now) (Seen log_seen result) (closing (feed_bytes (start opening.now) text.now)) }
{
    match opening.copy(alloc) {
        Ok(opening) => read(alloc, opening, text),
        Err(fault) => Err(ReadFault::Set(fault)),
    }
}
