ghost use Rattle.std.specs.Prelude.{◌≡◌};
ghost use Rattle.gtid_report.specs.Faults.{journal_fault, line_refusal};

use crate::fault::Fault;
use crate::refusal::{LineCause, Refusal};
use gtid_set::SetFault;
use txn_journal::{Cause, JournalFault};

/// The refusal of a line.
fn line_refusal(line: u64, cause: Cause) -> Refusal
    ensures { result ≡ line_refusal line cause }
{
    match cause {
        Cause::Version => Refusal::Version(line),
        Cause::Keyword => Refusal::Line(line, LineCause::Keyword),
        Cause::Body => Refusal::Line(line, LineCause::Body),
        Cause::Limit => Refusal::Line(line, LineCause::Limit),
        Cause::Schema => Refusal::Line(line, LineCause::Schema),
        Cause::Stamp => Refusal::Line(line, LineCause::Stamp),
        Cause::Twice(gtid) => Refusal::Twice(gtid),
    }
}

impl From<JournalFault> for Fault {
    ghost from_gives = { λ fault e. e ≡ journal_fault fault };

    fn from(fault: JournalFault) -> Fault {
        match fault {
            JournalFault::Set(SetFault::Memory) => Fault::Memory,
            JournalFault::Set(SetFault::PoolFull) => Fault::Refused(Refusal::PoolFull),
            JournalFault::Set(SetFault::SourcesFull) => Fault::Refused(Refusal::SourcesFull),
            JournalFault::Line { line, cause } => Fault::Refused(line_refusal(line, cause)),
            JournalFault::Truncated { line } => Fault::Refused(Refusal::Truncated(line)),
        }
    }
}
