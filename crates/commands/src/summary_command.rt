//! The command `audit --summary`.
ghost use Rattle.std.specs.Prelude.{◌≡◌, ◌++◌, ◌∷◌, [], ℕ, List, None, IfOk, IfErr, if◌then◌else◌, OnOk, option_map, string_bytes};
ghost use Rattle.std.specs.BTreeMap.{get_by_text};
ghost use Rattle.std.specs.Option.{unwrap_or};
ghost use Rattle.std.specs.Str.{bytes_eq};
ghost use Rattle.serving.specs.Listing.{IsFaultsFault};
ghost use Rattle.gtid_report.specs.Assumed.{assumed};
ghost use Rattle.commands.specs.Printed.{Holds, to_all, IsDone, HasFailed};
ghost use Rattle.commands.specs.Listings.{held_faults};
ghost use Rattle.commands.specs.Summaries.{place_text, place_of, summary_line, summary_behind, summary_answer, printed_summary, Summarizes};
ghost use Rattle.commands.specs.Tallies.{AreCounts, IsCountedWith, IsTold};

use crate::answer::{Answer, with_line_feed};
use crate::audit_command::verdict_ending;
use crate::edge::{Outcome, RunFault, Sink, Source};
use crate::list_command::push_last;
use crate::pieces::Text;
use crate::request::{Request, run};
use crate::streams::Streams;
use audit::AllFaults;
use gtid_report::{Fault, push_number, render_verdict, render_verdict_on};
use gtid_text::{Gtid, write_source};
use rows::Key;
use serving::faults_known;
use std::alloc::{AllocError, Global};
use std::collections::BTreeMap;
use txn_journal::Bundle;
use world::Verdict;

/// Where a key is shared.
fn place_text(alloc: Global, first: &Gtid, second: &Gtid, key: &Key) -> Result<String, AllocError>
    ensures { IfOk result (λ text. string_bytes text ≡ place_text first.now second.now key.now) }
{
    let mut text = String::new(alloc);
    write_source(&mut text, first.source)?;
    text.push_str(" ")?;
    write_source(&mut text, second.source)?;
    text.push_str(" ")?;
    text.push_str(key.table.as_str())?;
    Ok(text)
}

/// Where a fault is, if it is a shared key.
fn place_of(alloc: Global, fault: &Verdict) -> Result<Option<String>, AllocError>
    ensures { IfOk result (λ place. option_map string_bytes place ≡ place_of fault.now) }
{
    match fault {
        Verdict::Shared(first, second, key) => Ok(Some(place_text(alloc, first, second, key)?)),
        _ => Ok(None),
    }
}

/// How many faults a place has.
fn count_at(counts: &BTreeMap<String, u64>, place: &str) -> u64
    ensures { result ≡ unwrap_or (get_by_text counts.now place.now) 0 }
{
    counts.get(place).copied().unwrap_or(0)
}

/// How many faults a place has, if any. It has none then.
fn take_count(counts: &mut BTreeMap<String, u64>, place: &str) -> Option<u64>
    ensures count { result ≡ get_by_text counts.old place.now }
    ensures left { (p : List ℕ) → get_by_text counts.new p ≡ (if bytes_eq place.now p then None else get_by_text counts.old p) }
{
    counts.remove(place)
}

/// Counts a fault at its place. (Memory holds no list of more than 64 bits count.)
fn count_with(
    alloc: Global,
    counts: &mut BTreeMap<String, u64>,
    fault: &Verdict,
) -> Result<(), AllocError>
    ensures { OnOk result (IsCountedWith fault.now counts.old counts.new) }
{
    let Some(place) = place_of(alloc, fault)? else {
        return Ok(());
    };
    let Some(count) = count_at(counts, &place).checked_add(1) else {
        return Err(AllocError);
    };
    counts.insert(place, count)?;
    Ok(())
}

/// How many of the faults are at each place.
fn counts_of(alloc: Global, faults: &[Verdict]) -> Result<BTreeMap<String, u64>, AllocError>
    ensures { IfOk result (AreCounts faults.now) }
{
    let mut counts = BTreeMap::new(alloc);
    let mut left = faults.len();
    // (backwards, as a count is defined)
    while left > 0 {
        left -= 1;
        count_with(alloc, &mut counts, &faults[left])?;
    }
    Ok(counts)
}

/// The line of a place.
fn push_line(
    alloc: Global,
    text: &mut String,
    place: &str,
    count: u64,
    first: &Verdict,
) -> Result<(), AllocError>
    ensures { OnOk result (string_bytes text.new ≡ string_bytes text.old ++ summary_line place.now count first.now) }
{
    text.push_str("summary ")?;
    text.push_str(place)?;
    text.push_str(" ")?;
    push_number(text, count)?;
    text.push_str(" ")?;
    let line = render_verdict(alloc, first)?;
    text.push_str(&line)?;
    text.push_str("\n")
}

/// The line of a fault's place, if its count is there. It is taken out.
fn push_place(
    alloc: Global,
    text: &mut String,
    counts: &mut BTreeMap<String, u64>,
    fault: &Verdict,
) -> Result<(), AllocError>
    ensures { OnOk result (IsTold fault.now counts.old counts.new (string_bytes text.old) (string_bytes text.new)) }
{
    let Some(place) = place_of(alloc, fault)? else {
        return Ok(());
    };
    let Some(count) = take_count(counts, &place) else {
        return Ok(());
    };
    push_line(alloc, text, &place, count, fault)?;
    Ok(())
}

/// A line for each place, in the order in which the faults come to them.
fn push_summary(alloc: Global, text: &mut String, faults: &[Verdict]) -> Result<(), AllocError>
    ensures { OnOk result (string_bytes text.new ≡ string_bytes text.old ++ summary_behind [] faults.now) }
{
    let mut counts = counts_of(alloc, faults)?;
    for fault in faults {
        push_place(alloc, text, &mut counts, fault)?;
    }
    Ok(())
}

/// All shared keys, that of the verdict first.
fn shared_faults(alloc: Global, all: AllFaults) -> Result<Vec<Verdict>, AllocError>
    ensures { IfOk result (λ faults. faults.items ≡ all.verdict ∷ all.shared.items) }
{
    let AllFaults {
        verdict,
        shared,
        ..
    } = all;
    let mut faults = Vec::with_capacity(alloc, shared.len().saturating_add(1))?;
    faults.push(verdict)?;
    let mut shared = shared;
    faults.append(&mut shared)?;
    Ok(faults)
}

/// The lines of the shared keys of a bundle.
fn summary_answer(alloc: Global, bundle: &Bundle, all: AllFaults) -> Result<Answer, AllocError>
    ensures { IfOk result (λ answer. Holds answer (printed_summary (assumed bundle.now) (held_faults all))) }
{
    let line = render_verdict_on(alloc, bundle, &all.verdict)?;
    let mut text = with_line_feed(line)?;
    let outcome = verdict_ending(bundle, &all.verdict);
    let faults = shared_faults(alloc, all)?;
    push_summary(alloc, &mut text, faults.as_slice())?;
    push_last(&mut text, bundle, &faults[0])?;
    Ok(Answer {
        outcome,
        text: Text::of(alloc, text),
    })
}

/// The request to count the shared keys of a bundle.
struct Summarize;

impl Request for Summarize {
    type Value = Bundle;

    ghost answers = { λ _ b. summary_answer b };

    ghost may_fail = { λ _ b. IsFaultsFault b };

    fn answer(&self, alloc: Global, bundle: &Bundle) -> Result<Answer, Fault> {
        let all = faults_known(alloc, bundle)?;
        Ok(summary_answer(alloc, bundle, all)?)
    }
}

/// Reads a bundle, and writes the line of its audit's verdict and after it one for each pair of sources and table: how many keys they share
/// there, and the line of the first; and at last one for what that rests on, if the verdict doesn't say it; or the line of its refusal; and
/// nothing else.
pub fn run_summary<S: Source, W: Sink>(
    alloc: Global,
    streams: &mut Streams<S, W>,
) -> Result<Outcome, RunFault>
    ensures done { IfOk result (IsDone (to_all Summarizes) streams.old streams.new) }
    ensures failed { IfErr result (HasFailed (to_all Summarizes) streams.old streams.new) }
{
    run(alloc, &Summarize, streams)
}
