//! The lines of the events of a file that comes in pieces.
ghost use Rattle.std.specs.Prelude.{◌≡◌, ◌++◌, ℕ, List, [], OnOk, IfOk};
ghost use Rattle.binlog_frames.specs.Standing.{tail_of, begin_of};
ghost use Rattle.binlog_events.specs.declared.row_lines.EventDetail.{EventDetail};
ghost use Rattle.binlog_events.specs.Names.{names_in};
ghost use Rattle.binlog_events.specs.Listing.{HasCome, BeginsAsListed, Lists, ListsOn, PutsFront, TakesFront, Drains, fault_word, fault_text, refused_line};

use crate::lines::put_event;
use crate::names::TableNames;
use crate::row_lines::{EventDetail, put_beneath};
use crate::text::{put, put_number};
use binlog_frames::{FaultKind, FrameFault, FrameReader};
use std::alloc::{AllocError, Global};

/// What was at the front of a file.
#[derive(Clone, Copy, Drop)]
enum Front {
    Passed,
    NotYet,
    Fault(FrameFault),
}

/// A reader of a file, which lists its events.
pub struct EventLister {
    frames: FrameReader,
    names: TableNames,
    fault: Option<FrameFault>,
    detail: EventDetail,
}

impl Drop for EventLister {
    // (by hand: for a caller the end of an EventLister is one call)
    fn drop(self) {
        let EventLister {
            frames: _frames,
            names: _names,
            fault: _fault,
            detail: _detail,
        } = self;
    }
}

/// Appends the lines of the event at the front, and maps what it maps.
fn put_front(
    alloc: Global,
    detail: EventDetail,
    frames: &FrameReader,
    names: &mut TableNames,
    out: &mut Vec<u8>,
) -> Result<Front, AllocError>
    ensures { IfOk result (PutsFront detail frames.now (names_in names.old) (names_in names.new) out.old.items out.new.items) }
{
    match frames.front() {
        Err(fault) => Ok(Front::Fault(fault)),
        Ok(None) => Ok(Front::NotYet),
        Ok(Some(event)) => {
            let len = 19u64
                .wrapping_add(event.body.len() as u64)
                .wrapping_add(frames.tail());
            put_event(alloc, out, names, frames.offset(), len, &event)?;
            put_beneath(alloc, out, detail, names, event.kind, event.body)?;
            names.note(alloc, event.kind, event.body)?;
            Ok(Front::Passed)
        }
    }
}

/// Takes the event at the front, if it has come whole.
fn take_front(
    alloc: Global,
    detail: EventDetail,
    frames: &mut FrameReader,
    names: &mut TableNames,
    out: &mut Vec<u8>,
) -> Result<Front, AllocError>
    ensures { IfOk result (TakesFront detail frames.old frames.new (names_in names.old) (names_in names.new) out.old.items out.new.items) }
{
    let front = put_front(alloc, detail, frames, names, out)?;
    match front {
        Front::Passed => {
            frames.pass();
            Ok(Front::Passed)
        }
        Front::NotYet => Ok(Front::NotYet),
        Front::Fault(fault) => Ok(Front::Fault(fault)),
    }
}

/// Takes all events that have come whole, up to the first fault.
fn drain(
    alloc: Global,
    detail: EventDetail,
    frames: &mut FrameReader,
    names: &mut TableNames,
    out: &mut Vec<u8>,
) -> Result<Option<FrameFault>, AllocError>
    ensures { IfOk result (Drains detail frames.old frames.new (names_in names.old) (names_in names.new) out.old.items out.new.items) }
{
    'events: loop {
        let front = take_front(alloc, detail, frames, names, out)?;
        match front {
            Front::Passed => {}
            Front::NotYet => return Ok(None),
            Front::Fault(fault) => return Ok(Some(fault)),
        }
    }
}

impl EventLister {
    /// Before a file, of whose events so much is listed.
    #[tactic(auto, using(crate::proofs::Listed::begins_as_listed))]
    pub fn new(alloc: Global, detail: EventDetail) -> EventLister
        ensures come { HasCome detail result [] [] }
        ensures begins { BeginsAsListed result }
    {
        EventLister {
            frames: FrameReader::new(alloc),
            names: TableNames::new(alloc),
            fault: None,
            detail,
        }
    }

    /// These bytes come. Appends the lines of the events that are whole now. After a fault nothing is kept and nothing appended.
    #[tactic(auto, using(crate::proofs::Listed::begins_as_listed))]
    pub fn feed(&mut self, alloc: Global, piece: &[u8], out: &mut Vec<u8>) -> Result<(), AllocError>
        ensures lists { OnOk result (ListsOn self.old self.new piece.now out.old.items out.new.items) }
        ensures begins { BeginsAsListed self.new }
    {
        if self.fault.is_some() {
            return Ok(());
        }
        self.frames.feed(alloc, piece)?;
        self.fault = drain(alloc, self.detail, &mut self.frames, &mut self.names, out)?;
        Ok(())
    }

    /// The first fault of the file, if it ends here.
    pub fn fault(&self) -> Option<FrameFault>
        ensures { (d : EventDetail) (bytes text : List ℕ) → HasCome d self.now bytes text → Lists d bytes text result }
    {
        match self.fault {
            Some(fault) => Some(fault),
            None => self.frames.unfinished(),
        }
    }
}

/// The word of a fault.
pub fn fault_word(kind: FaultKind) -> &'static str
    ensures { result.now ≡ fault_word kind }
{
    match kind {
        FaultKind::Magic => "magic",
        FaultKind::Encrypted => "encrypted",
        FaultKind::Description => "description",
        FaultKind::Length => "length",
        FaultKind::Position => "position",
        FaultKind::Checksum => "checksum",
        FaultKind::Truncated => "truncated",
    }
}

/// Appends a fault's offset and word.
fn put_fault(out: &mut Vec<u8>, fault: FrameFault) -> Result<(), AllocError>
    ensures { OnOk result (out.new.items ≡ out.old.items ++ fault_text fault) }
{
    put_number(out, fault.offset)?;
    put(out, " ")?;
    put(out, fault_word(fault.kind))?;
    put(out, "\n")
}

/// Appends the line of a fault.
pub fn put_refusal(out: &mut Vec<u8>, fault: FrameFault) -> Result<(), AllocError>
    ensures { OnOk result (out.new.items ≡ out.old.items ++ refused_line fault) }
{
    put(out, "refused binlog ")?;
    put_fault(out, fault)
}
