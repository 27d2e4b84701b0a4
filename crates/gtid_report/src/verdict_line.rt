//! The printed line of each verdict.
ghost use Rattle.std.specs.Prelude.{◌≡◌, ◌++◌, IfOk, OnOk, string_bytes};
ghost use Rattle.gtid_report.specs.VerdictLines.{gtid_line, pair_line, key_line, key_text, purged_line, verdict_line};

use crate::refusal::push_number;
use crate::state::{push_set, push_values};
use crate::verdict::render_does_not_apply;
use gtid_set::GtidSet;
use gtid_text::{Gtid, write_gtid};
use rows::Key;
use std::alloc::{AllocError, Global};
use world::Verdict;

/// A word and a GTID.
fn gtid_line(alloc: Global, word: &str, gtid: &Gtid) -> Result<String, AllocError>
    ensures { IfOk result (λ line. string_bytes line ≡ gtid_line word.now gtid.now) }
{
    let mut line = String::from_str(alloc, word)?;
    write_gtid(&mut line, *gtid)?;
    Ok(line)
}

/// A word and two GTIDs with a blank between them.
fn pair_line(alloc: Global, word: &str, a: &Gtid, b: &Gtid) -> Result<String, AllocError>
    ensures { IfOk result (λ line. string_bytes line ≡ pair_line word.now a.now b.now) }
{
    let mut line = gtid_line(alloc, word, a)?;
    line.push_str(" ")?;
    write_gtid(&mut line, *b)?;
    Ok(line)
}

/// A key, each of its words after a blank.
fn push_key(alloc: Global, line: &mut String, key: &Key) -> Result<(), AllocError>
    ensures { OnOk result (string_bytes line.new ≡ string_bytes line.old ++ key_text key.now) }
{
    line.push_str(" ")?;
    line.push_str(key.table.as_str())?;
    line.push_str(" ")?;
    push_number(line, u64::from(key.index))?;
    let values = key.values.to_values(alloc)?;
    push_values(alloc, line, &values)
}

/// A word, two GTIDs and a key that both touch.
fn key_line(alloc: Global, word: &str, a: &Gtid, b: &Gtid, key: &Key) -> Result<String, AllocError>
    ensures { IfOk result (λ line. string_bytes line ≡ key_line word.now a.now b.now key.now) }
{
    let mut line = pair_line(alloc, word, a, b)?;
    push_key(alloc, &mut line, key)?;
    Ok(line)
}

/// What the previous set of a journal lacks in the opening set.
fn purged_line(alloc: Global, journal: usize, gtids: &GtidSet) -> Result<String, AllocError>
    ensures { IfOk result (λ line. string_bytes line ≡ purged_line journal gtids.now) }
{
    let mut line = String::from_str(alloc, "purged ")?;
    push_number(&mut line, journal as u64)?;
    line.push_str(" ")?;
    push_set(alloc, &mut line, gtids)?;
    Ok(line)
}

/// The printed line of a verdict, without the line feed. Journals count from 0. The words and their order are our own.
pub fn render_verdict(alloc: Global, verdict: &Verdict) -> Result<String, AllocError>
    ensures { IfOk result (λ line. string_bytes line ≡ verdict_line verdict.now) }
{
    match verdict {
        Verdict::Unequal(gtid) => gtid_line(alloc, "unequal ", gtid),
        Verdict::Purged(journal, gtids) => purged_line(alloc, *journal, gtids),
        Verdict::Missing(gtid) => gtid_line(alloc, "missing ", gtid),
        Verdict::Shared(a, b, key) => key_line(alloc, "shared ", a, b, key),
        Verdict::Reordered(a, b, key) => key_line(alloc, "reordered ", a, b, key),
        Verdict::NotClosed(a, b) => pair_line(alloc, "not-closed ", a, b),
        Verdict::Concurrent(a, b, key) => key_line(alloc, "concurrent ", a, b, key),
        Verdict::DoesNotApply(gtid, fault) => render_does_not_apply(alloc, *gtid, *fault),
        Verdict::Sound => String::from_str(alloc, "sound"),
    }
}
