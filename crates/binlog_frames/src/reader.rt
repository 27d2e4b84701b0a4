//! A reader to which a file is fed in pieces.
ghost use Rattle.std.specs.Prelude.{◌≡◌, ◌≤◌, ◌++◌, List, length, drop, OnOk, OnErr, IfOk, Ok, Some, None, true, ◌↔◌, IsOk, IfErr};
ghost use Rattle.binlog_frames.specs.Spelling.{Framed};
ghost use Rattle.binlog_frames.specs.Standing.{Standing, start, front_at, front_from, opening_at, has_magic, is_encrypted, no_magic, begin_of, tail_of, passed, passed_from, unfinished, unfinished_from, with_more, IsFront};
ghost use Rattle.binlog_frames.specs.Placed.{StaysRead, StaysWrong, ReadsOn};
ghost use Rattle.binlog_frames.specs.Steps.{IsStep};
ghost use Rattle.binlog_frames.specs.Reading.{later_at};
ghost use Rattle.binlog_frames.specs.declared.stage.FileStage.TheVariants.{First, Later};

use crate::event::LoggedEvent;
use crate::fault::{FaultKind, FrameFault};
use crate::front::{first_at, later_at, number_at, tail_len};
use crate::stage::FileStage;
use std::alloc::{AllocError, Global};
use std::marker::Model;

/// Where one is in a file, and the bytes that have come and are not passed.
#[derive(Drop)]
pub struct FrameReader {
    stage: FileStage,
    offset: u64,
    place: usize,
    bytes: Vec<u8>,
}

impl Model for FrameReader {
    ghost Value = { Standing };

    ghost view = { λ s. record { stage = s.stage; offset = s.offset; left = drop s.place s.bytes.items } };

    ghost invariant = { λ s. s.place ≤ length s.bytes.items };
}

/// Whether bytes begin with those of a binary log.
#[tactic(auto, unfolding(crate::specs::Standing::has_magic))]
fn has_magic(bytes: &[u8]) -> bool
    requires { 4 ≤ length bytes.now }
    ensures { result ≡ has_magic bytes.now }
{
    bytes[0] == 0xFE && (bytes[1] == 0x62 && (bytes[2] == 0x69 && bytes[3] == 0x6E))
}

/// Whether bytes begin with those of a binary log that is encrypted.
#[tactic(auto, unfolding(crate::specs::Standing::is_encrypted))]
fn is_encrypted(bytes: &[u8]) -> bool
    requires { 4 ≤ length bytes.now }
    ensures { result ≡ is_encrypted bytes.now }
{
    bytes[0] == 0xFD && (bytes[1] == 0x62 && (bytes[2] == 0x69 && bytes[3] == 0x6E))
}

/// What is wrong with bytes that don't begin with those of a binary log.
fn no_magic(bytes: &[u8]) -> FaultKind
    requires { 4 ≤ length bytes.now }
    ensures { result ≡ no_magic bytes.now }
{
    if is_encrypted(bytes) {
        FaultKind::Encrypted
    } else {
        FaultKind::Magic
    }
}

/// The first event, behind the file's four bytes.
#[tactic(auto, unfolding(crate::specs::Standing::opening_at))]
fn opening_at(left: &[u8]) -> Result<Option<LoggedEvent<'_>>, FrameFault>
    ensures { IsFront result (opening_at left.now) }
{
    if left.len() < 4 {
        return Ok(None);
    }
    if !has_magic(left) {
        return Err(FrameFault {
            kind: no_magic(left),
            offset: 0,
        });
    }
    match first_at(&left[4..]) {
        Ok(None) => Ok(None),
        Ok(Some(event)) => Ok(Some(event)),
        Err(kind) => Err(FrameFault { kind, offset: 4 }),
    }
}

/// What comes next.
fn front_from(
    stage: FileStage,
    offset: u64,
    left: &[u8],
) -> Result<Option<LoggedEvent<'_>>, FrameFault>
    ensures { IsFront result (front_from stage offset left.now) }
{
    match stage {
        FileStage::First => opening_at(left),
        FileStage::Later(checked) => match later_at(checked, offset, left) {
            Ok(None) => Ok(None),
            Ok(Some(event)) => Ok(Some(event)),
            Err(kind) => Err(FrameFault { kind, offset }),
        },
    }
}

/// Two slices, one behind the other.
fn joined(alloc: Global, left: &[u8], piece: &[u8]) -> Result<Vec<u8>, AllocError>
    ensures { IfOk result (λ bytes. bytes.items ≡ left.now ++ piece.now) }
{
    let mut bytes = Vec::from_slice(alloc, left)?;
    bytes.extend_from_slice(piece)?;
    Ok(bytes)
}

/// What is behind an event, and how many bytes it takes.
#[derive(Drop)]
struct Passing {
    stage: FileStage,
    offset: u64,
    len: usize,
}

/// The step over the first event, and the file's four bytes.
fn step_first(left: &[u8]) -> Passing
    requires { (d : Framed) × (opening_at left.now ≡ Ok (Some d)) }
    ensures { (d : Framed) → opening_at left.now ≡ Ok (Some d) → IsStep result left.now (passed_from First 0 left.now d) }
{
    let len = number_at(left, 13) as usize;
    Passing {
        stage: FileStage::Later(left[len - 1] == 1),
        offset: 4 + len as u64,
        len: 4 + len,
    }
}

/// The step over a later event.
fn step_later(checked: bool, offset: u64, left: &[u8]) -> Passing
    requires { (e : Framed) × (later_at checked offset left.now ≡ Ok (Some e)) }
    ensures { (e : Framed) → later_at checked offset left.now ≡ Ok (Some e) → IsStep result left.now (passed_from (Later checked) offset left.now e) }
{
    let len = number_at(left, 9) as usize;
    Passing {
        stage: FileStage::Later(checked),
        offset: offset.wrapping_add(len as u64),
        len,
    }
}

/// The step over the event at the front.
fn step_from(stage: FileStage, offset: u64, left: &[u8]) -> Passing
    requires { (e : Framed) × (front_from stage offset left.now ≡ Ok (Some e)) }
    ensures { (e : Framed) → front_from stage offset left.now ≡ Ok (Some e) → IsStep result left.now (passed_from stage offset left.now e) }
{
    match stage {
        FileStage::First => step_first(left),
        FileStage::Later(checked) => step_later(checked, offset, left),
    }
}

/// The bytes from a place on.
fn rest_of(bytes: &[u8], place: usize) -> &[u8]
    requires { place ≤ length bytes.now }
    ensures { result.now ≡ drop place bytes.now }
{
    &bytes[place..]
}

/// What is wrong, if the file ends here.
#[tactic(auto, unfolding(crate::specs::Standing::unfinished_from))]
fn unfinished_from(stage: FileStage, offset: u64, left: &[u8]) -> Option<FrameFault>
    ensures { result ≡ unfinished_from stage offset left.now }
{
    match stage {
        FileStage::First => Some(FrameFault {
            kind: FaultKind::Truncated,
            offset: if left.len() < 4 { 0 } else { 4 },
        }),
        FileStage::Later(_) => {
            if left.len() == 0 {
                None
            } else {
                Some(FrameFault {
                    kind: FaultKind::Truncated,
                    offset,
                })
            }
        }
    }
}

impl FrameReader {
    /// Before a file.
    pub fn new(alloc: Global) -> Self
        ensures { result ≡ start }
    {
        FrameReader {
            stage: FileStage::First,
            offset: 0,
            place: 0,
            bytes: Vec::new(alloc),
        }
    }

    /// Puts bytes behind those that have come.
    fn add(&mut self, alloc: Global, piece: &[u8]) -> Result<(), AllocError>
        ensures ok { OnOk result (self.new ≡ with_more self.old piece.now) }
        ensures err { OnErr result (self.new ≡ self.old) }
    {
        if self.place == 0 {
            self.bytes.extend_from_slice(piece)?;
            return Ok(());
        }
        let fresh = joined(alloc, &self.bytes[self.place..], piece)?;
        self.bytes = fresh;
        self.place = 0;
        Ok(())
    }

    /// These bytes come. An `Err` changes nothing.
    pub fn feed(&mut self, alloc: Global, piece: &[u8]) -> Result<(), AllocError>
        ensures ok { OnOk result (self.new ≡ with_more self.old piece.now) }
        ensures read { OnOk result (StaysRead self.old self.new piece.now) }
        ensures err { OnErr result (self.new ≡ self.old) }
    {
        self.add(alloc, piece)
    }

    /// What comes next of the bytes that are left.
    fn coming(&self) -> Result<Option<LoggedEvent<'_>>, FrameFault>
        ensures { IsFront result (front_at self.now) }
    {
        front_from(self.stage, self.offset, &self.bytes[self.place..])
    }

    /// The next event, once it has come whole, or what is wrong with it.
    pub fn front(&self) -> Result<Option<LoggedEvent<'_>>, FrameFault>
        ensures front { IsFront result (front_at self.now) }
        ensures stays { IfErr result (λ fault. StaysWrong self.now fault) }
    {
        self.coming()
    }

    /// The offset at which the next event begins, as a number of 64 bits.
    pub fn offset(&self) -> u64
        ensures { result ≡ begin_of self.now }
    {
        match self.stage {
            FileStage::First => 4,
            FileStage::Later(_) => self.offset,
        }
    }

    /// How many bytes the checksum of the next event takes.
    pub fn tail(&self) -> u64
        ensures value { result ≡ tail_of self.now }
        ensures bound { result ≤ 4 }
    {
        match self.stage {
            FileStage::First => 4,
            FileStage::Later(checked) => tail_len(checked) as u64,
        }
    }

    /// Passes the event that `front` gave.
    pub fn pass(&mut self)
        requires { (e : Framed) × (front_at self.old ≡ Ok (Some e)) }
        ensures passed { (e : Framed) → front_at self.old ≡ Ok (Some e) → self.new ≡ passed self.old e }
        ensures read { (e : Framed) → front_at self.old ≡ Ok (Some e) → ReadsOn self.old self.new e }
    {
        let left = rest_of(self.bytes.as_slice(), self.place);
        let step = step_from(self.stage, self.offset, left);
        let Passing { stage, offset, len } = step;
        self.stage = stage;
        self.offset = offset;
        self.place += len;
    }

    /// What is wrong, if the file ends here and `front` gives nothing.
    pub fn unfinished(&self) -> Option<FrameFault>
        ensures { result ≡ unfinished self.now }
    {
        unfinished_from(self.stage, self.offset, &self.bytes[self.place..])
    }
}
