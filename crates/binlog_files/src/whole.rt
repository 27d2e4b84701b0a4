//! The files of a log, which are all there.
ghost use Rattle.std.specs.Prelude.{◌≡◌, ◌||◌, [], false, map, IfOk, OnOk, IfErr};
ghost use Rattle.std.specs.List.{list_any};
ghost use Rattle.binlog_frames.specs.Standing.{front_at};
ghost use Rattle.binlog_files.specs.Files.{HasCome};
ghost use Rattle.binlog_files.specs.Given.{sets};
ghost use Rattle.binlog_files.specs.Taking.{start};
ghost use Rattle.binlog_files.specs.Whole.{is_previous, behind_front, unlisted_at, is_unlisted, IsUnlisted, TakesWhole, StopsWhole, HaveFiles, StopsAtFile, AreFilesOf, StopsInFiles, has_no_checksums};

use crate::fault::FileRefusal;
use crate::files::{FilesFault, LogFiles};
use crate::given::GivenSets;
use binlog_frames::FrameReader;
use gtid_set::{GtidSet, SetFault};
use log_transactions::LoggedTransactions;
use std::alloc::{AllocError, Global};

/// What the files of a log have.
#[derive(Drop)]
pub struct FiledTransactions {
    pub log: LoggedTransactions,
    /// Whether a file has no checksums, so that damage in it can't be seen.
    pub is_unchecked: bool,
}

/// Why the files of a log are not taken: the number of the file, counted from 1, and what is wrong with it.
#[derive(Clone, Copy, Debug, PartialEq, Eq)]
pub struct FiledFault {
    pub file: u64,
    pub fault: FilesFault,
}

/// Passes the first event, if it is there.
fn pass_front(frames: &mut FrameReader)
    ensures { frames.new ≡ behind_front frames.old (front_at frames.old) }
{
    let is_there = matches!(frames.front(), Ok(Some(_)));
    if is_there {
        frames.pass();
    }
}

fn is_previous(frames: &FrameReader) -> bool
    ensures { result ≡ is_previous (front_at frames.now) }
{
    match frames.front() {
        Ok(Some(event)) => event.kind == 35,
        _ => false,
    }
}

/// Where the second event of a file begins, if it is no PREVIOUS_GTIDS.
fn unlisted_at(alloc: Global, bytes: &[u8]) -> Result<Option<u64>, AllocError>
    ensures { IfOk result (λ offset. offset ≡ unlisted_at bytes.now) }
{
    let mut frames = FrameReader::new(alloc);
    frames.feed(alloc, bytes)?;
    pass_front(&mut frames);
    if is_previous(&frames) {
        return Ok(None);
    }
    Ok(Some(frames.offset()))
}

/// Refuses a file whose second event is no PREVIOUS_GTIDS.
fn check_listed(alloc: Global, bytes: &[u8]) -> Result<(), FilesFault>
    ensures listed { OnOk result (is_unlisted bytes.now ≡ false) }
    ensures refused { IfErr result (IsUnlisted bytes.now) }
{
    match unlisted_at(alloc, bytes) {
        Ok(None) => Ok(()),
        Ok(Some(offset)) => Err(FilesFault::Refused(offset, FileRefusal::Previous)),
        Err(_) => Err(FilesFault::Set(SetFault::Memory)),
    }
}

/// Takes a file whose bytes these are; whether its events have no checksums.
fn take_file(
    alloc: Global,
    given: GivenSets<'_>,
    log: &mut LogFiles,
    bytes: &[u8],
) -> Result<bool, FilesFault>
    ensures taken { IfOk result (TakesWhole (sets given.entry) log.old bytes.now log.new) }
    ensures stops { IfErr result (StopsWhole (sets given.entry) log.old bytes.now) }
{
    match log.feed(alloc, given, bytes) {
        Ok(()) => {}
        Err(fault) => return Err(fault),
    }
    let is_unchecked = log.is_unchecked();
    match log.end_file(alloc) {
        Ok(()) => {}
        Err(fault) => return Err(fault),
    }
    match check_listed(alloc, bytes) {
        Ok(()) => Ok(is_unchecked),
        Err(fault) => Err(fault),
    }
}

fn either(one: bool, other: bool) -> bool
    ensures { result ≡ (one || other) }
{
    one || other
}

/// Takes files, one after another; whether the events of one of them have no checksums.
fn take_files(
    alloc: Global,
    given: GivenSets<'_>,
    log: &mut LogFiles,
    files: &[Vec<u8>],
) -> Result<bool, FiledFault>
    requires { HasCome (sets given) (start given.opening.now) [] log.old }
    ensures taken { IfOk result (HaveFiles (sets given.entry) (map (λ v. v.items) files.now) log.new) }
    ensures stops { IfErr result (λ f. StopsAtFile (sets given.entry) (map (λ v. v.items) files.now) f.file f.fault) }
{
    let mut is_unchecked = false;
    for (place, bytes) in files.iter().enumerate() {
        match take_file(alloc, given, log, bytes) {
            Ok(unchecked) => is_unchecked = either(is_unchecked, unchecked),
            Err(fault) => {
                let file = place as u64 + 1;
                return Err(FiledFault { file, fault });
            }
        }
    }
    Ok(is_unchecked)
}

/// What files have, where this is the copy of their opening set.
fn read_behind(
    alloc: Global,
    given: GivenSets<'_>,
    come: GtidSet,
    files: &[Vec<u8>],
) -> Result<FiledTransactions, FiledFault>
    requires { come ≡ given.opening.now }
    ensures found { IfOk result (λ l. AreFilesOf (sets given.entry) (map (λ v. v.items) files.now)
        l.log.previous l.log.entries.items l.log.varied.items) }
    ensures unchecked { IfOk result (λ l. l.is_unchecked ≡ list_any has_no_checksums (map (λ v. v.items) files.now)) }
    ensures refused { IfErr result (λ f. StopsAtFile (sets given.entry) (map (λ v. v.items) files.now) f.file f.fault) }
{
    let mut log = LogFiles::start(alloc, come);
    match take_files(alloc, given, &mut log, files) {
        Ok(is_unchecked) => Ok(FiledTransactions {
            log: log.into_log(),
            is_unchecked,
        }),
        Err(fault) => Err(fault),
    }
}

/// What the files of a log have, each of which is there whole, in the order in which the server wrote them. What comes before the log is in
/// the opening set: its transactions are passed over. A statement that is refused otherwise is an entry without changes where an operator answers
/// for it and may do so. Without files there is no entry. The second event of each file is its previous set. A file may not end within an event
/// or within a transaction, and the GTIDs of its previous set lie in what came before it.
pub fn read_files(
    alloc: Global,
    given: GivenSets<'_>,
    files: &[Vec<u8>],
) -> Result<FiledTransactions, FiledFault>
    // The bytes are files of events, and what these tell of a log, the entries denote.
    ensures found { IfOk result (λ l. AreFilesOf (sets given.entry) (map (λ v. v.items) files.now)
        l.log.previous l.log.entries.items l.log.varied.items) }
    // The FORMAT_DESCRIPTION of a file says that it has no checksums.
    ensures unchecked { IfOk result (λ l. l.is_unchecked ≡ list_any has_no_checksums (map (λ v. v.items) files.now)) }
    // The files before this one were taken, and behind them it is damaged or refused there.
    ensures refused { IfErr result (StopsInFiles (sets given.entry) (map (λ v. v.items) files.now)) }
{
    match given.opening.copy(alloc) {
        Ok(come) => read_behind(alloc, given, come, files),
        Err(fault) => Err(FiledFault {
            file: 1,
            fault: FilesFault::Set(fault),
        }),
    }
}
