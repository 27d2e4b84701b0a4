//! The files of a log, which come in pieces.
ghost use Rattle.std.specs.Prelude.{◌≡◌, Ok, OnOk, IfOk, IfErr};
ghost use Rattle.binlog_frames.specs.Standing.{front_at};
ghost use Rattle.binlog_files.specs.Files.{TakesOn, StopsOn, NextTaken, NextStops, FrontTaken, AllTaken, AllStop};
ghost use Rattle.binlog_files.specs.Given.{sets};
ghost use Rattle.binlog_files.specs.Moved.{files_state};

use crate::fault::{FileFault, FileRefusal};
use crate::given::GivenSets;
use crate::taking::TakenEvents;
use binlog_frames::{FrameFault, FrameReader};
use gtid_set::{GtidSet, SetFault};
use log_transactions::{EventRefusal, LoggedTransactions, events_mean_entries};
use std::alloc::Global;

/// Why the files of a log are not taken.
#[derive(Clone, Copy, Debug, PartialEq, Eq)]
pub enum FilesFault {
    /// Out of memory, or a set is full.
    Set(SetFault),
    /// The bytes are not those of a binary log file.
    Damaged(FrameFault),
    /// The event that begins at this offset of its file is refused. The offset is a number of 64 bits.
    Refused(u64, FileRefusal),
}

/// A reader of the files of a log.
#[derive(Drop)]
pub struct LogFiles {
    frames: FrameReader,
    taken: TakenEvents,
}

/// Takes the event at the front, if it has come whole.
fn take_next(
    alloc: Global,
    given: GivenSets<'_>,
    frames: &FrameReader,
    taken: &mut TakenEvents,
) -> Result<bool, FilesFault>
    ensures taken { IfOk result (NextTaken (sets given.entry) frames.now (files_state taken.old) (files_state taken.new)) }
    ensures stops { IfErr result (NextStops (sets given.entry) frames.now (files_state taken.old)) }
{
    match frames.front() {
        Err(fault) => Err(FilesFault::Damaged(fault)),
        Ok(None) => Ok(false),
        Ok(Some(event)) => match taken.take(alloc, given, &event) {
            Ok(()) => Ok(true),
            Err(FileFault::Set(fault)) => Err(FilesFault::Set(fault)),
            Err(FileFault::Refused(refusal)) => Err(FilesFault::Refused(frames.offset(), refusal)),
        },
    }
}

/// Takes the event at the front, if it has come whole, and passes it.
fn take_front(
    alloc: Global,
    given: GivenSets<'_>,
    frames: &mut FrameReader,
    taken: &mut TakenEvents,
) -> Result<bool, FilesFault>
    ensures taken { IfOk result (FrontTaken (sets given.entry) frames.old frames.new (files_state taken.old) (files_state taken.new)) }
    ensures stops { IfErr result (AllStop (sets given.entry) frames.old (files_state taken.old)) }
{
    match take_next(alloc, given, frames, taken) {
        Ok(true) => {
            frames.pass();
            Ok(true)
        }
        Ok(false) => Ok(false),
        Err(fault) => Err(fault),
    }
}

/// Takes all events that have come whole.
fn drain(
    alloc: Global,
    given: GivenSets<'_>,
    frames: &mut FrameReader,
    taken: &mut TakenEvents,
) -> Result<(), FilesFault>
    ensures taken { OnOk result (AllTaken (sets given.entry) frames.old frames.new (files_state taken.old) (files_state taken.new)) }
    ensures stops { IfErr result (AllStop (sets given.entry) frames.old (files_state taken.old)) }
{
    'events: loop {
        match take_front(alloc, given, frames, taken) {
            Ok(true) => {}
            Ok(false) => return Ok(()),
            Err(fault) => return Err(fault),
        }
    }
}

impl LogFiles {
    ghost use Rattle.std.specs.Prelude.{[], ◌==◌};
    ghost use Rattle.binlog_frames.specs.Standing.{tail_of};
    ghost use Rattle.binlog_files.specs.Files.{HasCome};
    ghost use Rattle.binlog_files.specs.Given.{Given};
    ghost use Rattle.binlog_files.specs.Taking.{start};
    ghost use Rattle.binlog_files.specs.Whole.{EndsFile, StopsFile, IsLogOfFiles};

    /// Before the first file of a log, where these GTIDs are in the opening set.
    pub fn start(alloc: Global, opening: GtidSet) -> LogFiles
        ensures { (given : Given) → HasCome given (start opening) [] result }
    {
        LogFiles {
            frames: FrameReader::new(alloc),
            taken: TakenEvents::start(alloc, opening),
        }
    }

    /// These bytes of a file come. After an error no more are to come.
    pub fn feed(
        &mut self,
        alloc: Global,
        given: GivenSets<'_>,
        piece: &[u8],
    ) -> Result<(), FilesFault>
        ensures taken { OnOk result (TakesOn (sets given.entry) self.old self.new piece.now) }
        ensures stops { IfErr result (StopsOn (sets given.entry) self.old piece.now) }
    {
        let Ok(()) = self.frames.feed(alloc, piece) else {
            return Err(FilesFault::Set(SetFault::Memory));
        };
        drain(alloc, given, &mut self.frames, &mut self.taken)
    }

    /// The file ends here, and the next one begins. A file may not end within an event or within a transaction. After an error no more are to
    /// come.
    pub fn end_file(&mut self, alloc: Global) -> Result<(), FilesFault>
        ensures ended { OnOk result (EndsFile self.old self.new) }
        ensures stops { IfErr result (StopsFile self.old) }
    {
        if let Some(fault) = self.frames.unfinished() {
            return Err(FilesFault::Damaged(fault));
        }
        let Ok(()) = self.taken.log.end_file() else {
            let refusal = FileRefusal::Event(EventRefusal::Transaction);
            return Err(FilesFault::Refused(self.frames.offset(), refusal));
        };
        self.frames = FrameReader::new(alloc);
        Ok(())
    }

    /// Whether the events of this file have no checksums, by its FORMAT_DESCRIPTION, if that has come.
    pub(crate) fn is_unchecked(&self) -> bool
        ensures { result ≡ (tail_of self.now.frames == 0) }
    {
        self.frames.tail() == 0
    }

    /// What the files that were taken have: the set that was executed before, the entries in order, and the columns that are compared otherwise
    /// than by their bytes.
    pub fn into_log(self) -> LoggedTransactions
        ensures { IsLogOfFiles (files_state self.taken) result.previous result.entries.items result.varied.items }
    {
        let LogFiles {
            frames: _frames,
            taken,
        } = self;
        events_mean_entries();
        taken.into_log()
    }
}
