//! What the statement of a QUERY tells the log.
ghost use Rattle.std.specs.Prelude.{◌≡◌, Err};
ghost use Rattle.binlog_files.specs.Statements.{statement_refusal, mark_told, statement_told};
ghost use Rattle.binlog_files.specs.Taking.{Tells};
ghost use Rattle.binlog_files.specs.Told.{one};
ghost use Rattle.log_transactions.specs.States.{state};

use crate::accepted::may_be_accepted;
use crate::bodies::settled;
use crate::fault::{FileFault, FileRefusal};
use binlog_text::{LogLine, Mark, read_line};
use log_transactions::LogTransactions;
use std::alloc::Global;

/// Why a statement is refused that tells nothing.
fn statement_refusal(text: &[u8]) -> FileRefusal
    ensures { result ≡ statement_refusal text.now }
{
    if text.starts_with(b"XA ") {
        FileRefusal::Xa
    } else {
        FileRefusal::Statement
    }
}

/// Tells a log the statement whose line this mark is.
fn take_mark(
    alloc: Global,
    log: &mut LogTransactions,
    mark: Mark,
    text: &[u8],
) -> Result<(), FileFault>
    ensures { Tells result (state log.old) (one (mark_told text.now mark)) (state log.new) }
{
    match mark {
        Mark::Begin => settled(log.begin()),
        Mark::Commit => settled(log.commit(alloc)),
        Mark::Savepoint => settled(log.take_savepoint()),
        Mark::Maintenance => settled(log.maintain(alloc)),
        _ => Err(FileFault::Refused(statement_refusal(text))),
    }
}

/// Tells a log a statement, for which an operator answers or doesn't.
#[tactic(auto, unfolding(crate::specs::Statements::statement_told))]
pub(crate) fn take_statement(
    alloc: Global,
    log: &mut LogTransactions,
    is_accepted: bool,
    text: &[u8],
) -> Result<(), FileFault>
    ensures { Tells result (state log.old) (one (statement_told is_accepted text.now)) (state log.new) }
{
    if is_accepted && may_be_accepted(text) {
        return settled(log.maintain(alloc));
    }
    match read_line(text) {
        Some(LogLine::Mark(mark)) => take_mark(alloc, log, mark, text),
        _ => Err(FileFault::Refused(statement_refusal(text))),
    }
}
