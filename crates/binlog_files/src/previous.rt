//! What the previous set of a file tells the log.
ghost use Rattle.std.specs.Prelude.{◌≡◌, Some, IfOk, IfErr};
ghost use Rattle.binlog_events.specs.Previous.{previous_text};
ghost use Rattle.binlog_files.specs.Taking.{TellsOr, IsSaidFault, IsTextFault};
ghost use Rattle.binlog_files.specs.Told.{set_said, set_told, previous_told};
ghost use Rattle.journal_words.specs.Gtids.{IsWordFault};
ghost use Rattle.log_transactions.specs.States.{state};

use crate::bodies::settled;
use crate::fault::{FileFault, FileRefusal};
use binlog_events::previous_text;
use gtid_set::{GtidSet, SetFault};
use journal_words::set_word;
use log_transactions::LogTransactions;
use std::alloc::Global;

/// The set that a text of PREVIOUS_GTIDS is, which has a blank before its first item.
fn set_said(alloc: Global, text: &[u8]) -> Result<Option<GtidSet>, SetFault>
    ensures found { IfOk result (λ found. found ≡ set_said text.now) }
    ensures fault { IfErr result (λ fault. IsWordFault fault (set_said text.now)) }
{
    match text.split_first() {
        None => Ok(Some(GtidSet::empty(alloc))),
        Some((_, word)) => set_word(alloc, word),
    }
}

/// Tells a log the set that a text of PREVIOUS_GTIDS is.
fn take_set(alloc: Global, log: &mut LogTransactions, text: &[u8]) -> Result<(), FileFault>
    ensures { TellsOr (IsTextFault (state log.old) (Some text.now)) result (state log.old) (set_told (set_said text.now)) (state log.new) }
{
    let Some(gtids) = set_said(alloc, text)? else {
        return Err(FileFault::Refused(FileRefusal::Gtid));
    };
    log.open_file();
    settled(log.precede(alloc, &gtids))
}

/// Tells a log what PREVIOUS_GTIDS tells.
pub(crate) fn take_previous(
    alloc: Global,
    log: &mut LogTransactions,
    body: &[u8],
) -> Result<(), FileFault>
    ensures { TellsOr (IsSaidFault (state log.old) (previous_text body.now)) result
        (state log.old) (previous_told (previous_text body.now)) (state log.new) }
{
    match previous_text(alloc, body)? {
        None => Err(FileFault::Refused(FileRefusal::Format)),
        Some(text) => take_set(alloc, log, &text),
    }
}
