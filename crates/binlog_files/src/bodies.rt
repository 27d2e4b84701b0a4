//! What the bodies of events tell the log.
ghost use Rattle.std.specs.Prelude.{◌≡◌, Ok, [], ◌∷◌, length, IfOk};
ghost use Rattle.gtid_set.specs.declared.fault.SetFault.TheVariants.{Memory};
ghost use Rattle.binlog_events.specs.Bodies.{query_text, mapped, mapped_table};
ghost use Rattle.binlog_files.specs.Settled.{settled};
ghost use Rattle.binlog_files.specs.Taking.{Tells};
ghost use Rattle.binlog_files.specs.Told.{query_told, xid_told, kind_refusal, unknown_told, other_told, is_silent, is_ignorable, is_of_statement};
ghost use Rattle.log_transactions.specs.States.{state};

use crate::fault::{FileFault, FileRefusal};
use crate::statements::take_statement;
use binlog_events::query_text;
use log_transactions::{EventFault, LogTransactions};
use std::alloc::Global;

/// The fault of an event as that of a file.
pub(crate) fn settled(taken: Result<(), EventFault>) -> Result<(), FileFault>
    ensures { result ≡ settled taken }
{
    match taken {
        Ok(()) => Ok(()),
        Err(EventFault::Set(fault)) => Err(FileFault::Set(fault)),
        Err(EventFault::Refused(refusal)) => Err(FileFault::Refused(FileRefusal::Event(refusal))),
    }
}

/// Tells a log what a QUERY tells, for whose statement an operator answers or doesn't.
pub(crate) fn take_query(
    alloc: Global,
    log: &mut LogTransactions,
    is_accepted: bool,
    body: &[u8],
) -> Result<(), FileFault>
    ensures { Tells result (state log.old) (query_told is_accepted (query_text body.now)) (state log.new) }
{
    match query_text(body) {
        None => Err(FileFault::Refused(FileRefusal::Format)),
        Some(text) => take_statement(alloc, log, is_accepted, text),
    }
}

/// Tells a log what an XID tells.
pub(crate) fn take_xid(
    alloc: Global,
    log: &mut LogTransactions,
    body: &[u8],
) -> Result<(), FileFault>
    ensures { Tells result (state log.old) (xid_told body.now) (state log.new) }
{
    if body.len() != 8 {
        return Err(FileFault::Refused(FileRefusal::Format));
    }
    settled(log.commit(alloc))
}

fn is_silent(kind: u8) -> bool
    ensures { result ≡ is_silent kind }
{
    matches!(kind, 3 | 4 | 15 | 27 | 28 | 29 | 36 | 37 | 41)
}

fn is_ignorable(flags: u16) -> bool
    ensures { result ≡ is_ignorable flags }
{
    flags / 128 % 2 == 1
}

/// Why a kind is refused that has no place in what is read.
#[tactic(auto, unfolding(crate::specs::Told::kind_refusal))]
fn kind_refusal(kind: u8) -> Option<FileRefusal>
    ensures { result ≡ kind_refusal kind }
{
    match kind {
        26 => Some(FileRefusal::Incident),
        34 | 42 => Some(FileRefusal::Gtid),
        38 => Some(FileRefusal::Xa),
        39 => Some(FileRefusal::Partial),
        40 => Some(FileRefusal::Compressed),
        5 | 13 | 14 | 17 | 18 => Some(FileRefusal::Statement),
        _ => None,
    }
}

/// Takes an event of a kind that tells nothing, if it may be there.
#[tactic(auto, unfolding(crate::specs::Told::other_told))]
pub(crate) fn take_other(log: &LogTransactions, kind: u8, flags: u16) -> Result<(), FileFault>
    ensures { Tells result (state log.now) (other_told kind flags) (state log.now) }
{
    if is_silent(kind) {
        return Ok(());
    }
    match kind_refusal(kind) {
        Some(refusal) => Err(FileFault::Refused(refusal)),
        None if is_ignorable(flags) => Ok(()),
        None => Err(FileFault::Refused(FileRefusal::Kind)),
    }
}
