//! What `apply` answers where the opening rows of a bundle aren't known.
ghost use Rattle.std.specs.Prelude.{◌≡◌, ◌+◌, ◌-◌, ◌^◌, min, IfOk, IfErr};
ghost use Rattle.serving.specs.Faults.{IsBundleFault};
ghost use Rattle.commands.specs.Printed.{Holds, GivesUp};
ghost use Rattle.commands.specs.Unapplied.{entry_line_count, channel_line_count, rows_line, unapplied};

use crate::answer::{Answer, refusal_answer};
use crate::audit_command::verdict_answer;
use gtid_report::{Fault, Refusal};
use journal::{Entry, Journal};
use serving::{Order, audit_of_keys};
use std::alloc::Global;
use txn_journal::Bundle;

/// The number of lines with those of entries.
fn with_entries(lines: u64, entries: &[Entry]) -> u64
    ensures { result ≡ min (lines + entry_line_count entries.now) (2 ^ 64 - 1) }
{
    let mut count = lines;
    for entry in entries {
        let changes = entry.txn.changes.as_slice().len() as u64;
        count = count.saturating_add(2).saturating_add(changes);
    }
    count
}

/// The number of lines with those of channels.
fn with_channels(lines: u64, journals: &[Journal]) -> u64
    ensures { result ≡ min (lines + channel_line_count journals.now) (2 ^ 64 - 1) }
{
    let mut count = lines;
    for journal in journals {
        count = with_entries(count.saturating_add(4), journal.entries());
    }
    count
}

/// The line that says that the opening rows aren't known, which is the last before `done`, in the text that writing the bundle gives.
pub(crate) fn rows_line(bundle: &Bundle) -> u64
    ensures { result ≡ rows_line bundle.now }
{
    let head = 3u64
        .saturating_add(bundle.schema().tables().len() as u64)
        .saturating_add(bundle.references().len() as u64)
        .saturating_add(bundle.assumptions().len() as u64);
    with_channels(head, bundle.journals())
}

/// What applying answers: the verdict on the keys, if that is not Sound; else that there are no rows which changes could be applied to, by
/// the line that says so.
#[tactic(auto, using(crate::proofs::Unsound::keys_answered))]
pub(crate) fn unapplied_answer(
    alloc: Global,
    order: Order,
    bundle: &Bundle,
    line: u64,
) -> Result<Answer, Fault>
    ensures comes { IfOk result (λ answer. Holds answer (unapplied order line bundle.now)) }
    ensures fault { IfErr result (GivesUp (IsBundleFault bundle.now)) }
{
    match audit_of_keys(alloc, bundle, order)? {
        Some(verdict) => Ok(verdict_answer(alloc, bundle, &verdict)?),
        None => Ok(refusal_answer(alloc, &Refusal::NoRows(line))?),
    }
}
