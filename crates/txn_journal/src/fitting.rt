//! What the types of a journal's parts keep: its numbers and bytes are those of the grammar.
//!
//! The functions do nothing; a proof calls them for their contracts.
ghost use Rattle.std.specs.List.{AllByRecursion};
ghost use Rattle.rows.specs.declared.limits.Limits.{Limits};
ghost use Rattle.txn_journal.specs.Spelling.{HasValues, IsOfParts, FitsText, IsWritten};

use journal::{Entry, Journal};
use rows::Change;

/// The images of a change have numbers of 64 bits and bytes.
fn change_fits(change: &Change)
    ensures { HasValues change.now }
{
    match change {
        Change::Insert { table: _, after } => {
            after.keeps_rules();
        }
        Change::Delete { table: _, before } => {
            before.keeps_rules();
        }
        Change::Update {
            table: _,
            before,
            after,
        } => {
            before.keeps_rules();
            after.keeps_rules();
        }
    }
}

fn changes_fit(changes: &[Change])
    ensures { AllByRecursion HasValues changes.now }
{
    for change in changes {
        change_fits(change);
    }
}

/// An entry has a source of 128 bits, and such changes.
fn entry_fits(entry: &Entry)
    ensures { IsOfParts entry.now }
{
    let _bits = entry.gtid.source.bits();
    changes_fit(entry.txn.changes.as_slice());
}

fn entries_fit(entries: &[Entry])
    ensures { AllByRecursion IsOfParts entries.now }
{
    for entry in entries {
        entry_fits(entry);
    }
}

/// A journal's type keeps all that its text needs, but for how many entries there are, their limits and their names.
pub(crate) fn journal_fits(journal: &Journal)
    ensures { (limits : Limits) → FitsText limits journal.now → IsWritten limits journal.now }
{
    journal.keeps_rules();
    journal.previous().keeps_sources();
    entries_fit(journal.entries());
}
