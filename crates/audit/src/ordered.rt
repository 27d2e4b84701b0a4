//! Journals that bring the numbers of each source one after another: nothing is left out of them.
ghost use Rattle.std.specs.Prelude.{◌≡◌, ◌==◌, ◌+◌, ℕ, List, Some, IfOk, IfSome, OnOk, if◌then◌else◌, true};
ghost use Rattle.journal.specs.declared.Entry.{Entry};
ghost use Rattle.audit.specs.Ordered.{AreBelow, AreInOrder, AreTops, IsInOrder, IsTopOrNext, top_of};

use crate::sources::World;
use gtid_set::GtidSet;
use gtid_text::{Gtid, SourceId};
use journal::{Entry, Journal};
use key_table::KeyTable;
use std::alloc::{AllocError, Global};

/// Puts the number of a GTID into the table, under its source.
fn put_top(tops: &mut KeyTable<SourceId, u64>, top: Gtid) -> Result<(), AllocError>
    ensures { OnOk result ((source : ℕ) → top_of tops.new.entries source ≡ (if top.source == source then Some top.number else top_of tops.old.entries source)) }
{
    let Ok(_) = tops.insert(top.source, top.number) else {
        return Err(AllocError);
    };
    Ok(())
}

/// A number up to which all numbers of a source are there, by the table or else by the opening set.
fn top_number(tops: &KeyTable<SourceId, u64>, opened: &GtidSet, source: SourceId) -> u64
    ensures { (es : List Entry) → AreTops opened.now es tops.now.entries → AreBelow opened.now es source (result + 1) }
{
    match tops.get(&source) {
        Some(number) => *number,
        None => opened.run_end(source, 1).unwrap_or(0),
    }
}

/// Turns from the last number of one source to that of another. The table keeps the number of the source that is left.
fn turn_to(
    tops: &mut KeyTable<SourceId, u64>,
    opened: &GtidSet,
    top: Gtid,
    source: SourceId,
) -> Result<Gtid, AllocError>
    ensures source { IfOk result (λ g. g.source ≡ source) }
    ensures below { IfOk result (λ g. (es : List Entry) → AreTops opened.now es tops.old.entries → AreBelow opened.now es top.source (top.number + 1) → AreBelow opened.now es source (g.number + 1)) }
    ensures kept { OnOk result ((es : List Entry) → AreTops opened.now es tops.old.entries → AreBelow opened.now es top.source (top.number + 1) → AreTops opened.now es tops.new.entries) }
{
    if top.source == source {
        return Ok(top);
    }
    put_top(tops, top)?;
    let number = top_number(tops, opened, source);
    Ok(Gtid { source, number })
}

/// The last number of a source after a further one, unless that skips one.
fn next_top(top: Gtid, number: u64) -> Option<Gtid>
    ensures { IfSome result (λ g. IsTopOrNext top number g) }
{
    if number <= top.number {
        return Some(top);
    }
    if number - top.number > 1 {
        return None;
    }
    Some(Gtid {
        source: top.source,
        number,
    })
}

/// Whether a journal is found to bring the numbers of each source one after another.
fn is_in_order(alloc: Global, opened: &GtidSet, entries: &[Entry]) -> Result<bool, AllocError>
    ensures { IfOk result (λ yes. yes ≡ true → IsInOrder opened.now entries.now) }
{
    let mut tops = KeyTable::new(alloc);
    let mut top = Gtid {
        source: SourceId::from_bits(0),
        number: 0,
    };
    for entry in entries {
        let before = turn_to(&mut tops, opened, top, entry.gtid.source)?;
        match next_top(before, entry.gtid.number) {
            Some(next) => top = next,
            None => return Ok(false),
        }
    }
    Ok(true)
}

/// Whether each journal is found to bring the numbers of each source one after another.
pub(crate) fn are_in_order(
    alloc: Global,
    opened: &GtidSet,
    journals: &[Journal],
) -> Result<bool, AllocError>
    ensures { IfOk result (λ yes. yes ≡ true → AreInOrder opened.now journals.now) }
{
    for journal in journals {
        if !is_in_order(alloc, opened, journal.entries())? {
            return Ok(false);
        }
    }
    Ok(true)
}

impl World {
    /// Whether each journal is found to bring the numbers of each source one after another.
    pub(crate) fn are_in_order(
        &self,
        alloc: Global,
        journals: &[Journal],
    ) -> Result<bool, AllocError>
        ensures { IfOk result (λ yes. yes ≡ true → AreInOrder self.now.opening_set journals.now) }
    {
        are_in_order(alloc, self.opening_set(), journals)
    }
}
