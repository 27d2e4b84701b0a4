//! What a verdict on a bundle rests on, as it is printed.
ghost use Rattle.std.specs.Prelude.{◌≡◌, ◌++◌, ◌∷◌, nat_lt, length, not, ◌&&◌, IfOk, OnOk, flat_map, string_bytes};
ghost use Rattle.std.specs.List.{list_any};
ghost use Rattle.gtid_report.specs.Assumed.{says_references, is_implied, with_references, assumed, next_condition, conditions, sound_line, verdict_line_under, assume_line, assume_lines};
ghost use Rattle.gtid_report.specs.Joined.{joined, implied};
ghost use Rattle.txn_journal.specs.declared.assumptions.Assumption.TheVariants.{References};

use crate::verdict_line::render_verdict;
use std::alloc::{AllocError, Global};
use txn_journal::{Assumption, Bundle};
use world::Verdict;

fn says_references(assumptions: &[Assumption]) -> bool
    ensures { result ≡ list_any says_references assumptions.now }
{
    assumptions
        .iter()
        .any(|it| matches!(it, Assumption::References))
}

/// Whether a bundle has foreign keys and no line says that nobody looks at them.
pub fn is_implied(bundle: &Bundle) -> bool
    ensures { result ≡ is_implied bundle.now }
{
    !bundle.references().is_empty() && !says_references(bundle.assumptions())
}

/// Whether a verdict on a bundle rests on something that the bundle doesn't show.
pub fn is_assuming(bundle: &Bundle) -> bool
    ensures { result ≡ nat_lt 0 (length (assumed bundle.now)) }
{
    !bundle.assumptions().is_empty() || is_implied(bundle)
}

/// The line of an assumption.
fn push_line(out: &mut String, assumption: &Assumption) -> Result<(), AllocError>
    ensures { OnOk result (string_bytes out.new ≡ string_bytes out.old ++ assume_line assumption.now) }
{
    out.push_str("assume ")?;
    assumption.write(out)?;
    out.push_str("\n")
}

/// The lines of assumptions.
fn push_lines(out: &mut String, assumptions: &[Assumption]) -> Result<(), AllocError>
    ensures { OnOk result (string_bytes out.new ≡ string_bytes out.old ++ assume_lines assumptions.now) }
{
    for assumption in assumptions {
        push_line(out, assumption)?;
    }
    Ok(())
}

/// The assumptions before `rows`, and those from it on.
fn cut_at_rows(assumptions: &[Assumption]) -> (&[Assumption], &[Assumption])
    ensures whole { result.0.now ++ result.1.now ≡ assumptions.now }
    ensures place { result.0.now ++ References ∷ result.1.now ≡ with_references assumptions.now }
{
    for (place, assumption) in assumptions.iter().enumerate() {
        if let Assumption::Rows = assumption {
            return assumptions.split_at(place);
        }
    }
    (assumptions, &[])
}

/// The line of what is implied.
fn push_implied(out: &mut String, is_implied: bool) -> Result<(), AllocError>
    ensures { OnOk result (string_bytes out.new ≡ string_bytes out.old ++ assume_lines (implied is_implied)) }
{
    if is_implied {
        out.push_str("assume references\n")
    } else {
        Ok(())
    }
}

/// A line for each assumption on which a verdict on a bundle rests.
#[tactic(auto, using(crate::proofs::AssumedLemmas::lines_joined))]
pub fn render_assumed(alloc: Global, bundle: &Bundle) -> Result<String, AllocError>
    ensures { IfOk result (λ text. string_bytes text ≡ assume_lines (assumed bundle.now)) }
{
    let mut text = String::new(alloc);
    let (before, after) = cut_at_rows(bundle.assumptions());
    push_lines(&mut text, before)?;
    push_implied(&mut text, is_implied(bundle))?;
    push_lines(&mut text, after)?;
    Ok(text)
}

/// An assumption after a comma.
fn push_next(out: &mut String, assumption: &Assumption) -> Result<(), AllocError>
    ensures { OnOk result (string_bytes out.new ≡ string_bytes out.old ++ next_condition assumption.now) }
{
    out.push_str(", ")?;
    assumption.write(out)
}

/// Assumptions, each after a comma.
fn push_others(out: &mut String, assumptions: &[Assumption]) -> Result<(), AllocError>
    ensures { OnOk result (string_bytes out.new ≡ string_bytes out.old ++ flat_map next_condition assumptions.now) }
{
    for assumption in assumptions {
        push_next(out, assumption)?;
    }
    Ok(())
}

/// Assumptions with commas between, and with one before if they aren't the first.
fn push_joined(
    out: &mut String,
    is_first: bool,
    assumptions: &[Assumption],
) -> Result<(), AllocError>
    ensures { OnOk result (string_bytes out.new ≡ string_bytes out.old ++ joined is_first assumptions.now) }
{
    if !is_first {
        return push_others(out, assumptions);
    }
    let [first, others @ ..] = assumptions else {
        return Ok(());
    };
    first.write(out)?;
    push_others(out, others)
}

/// What is implied, with a comma before if it isn't the first.
fn join_implied(out: &mut String, is_first: bool, is_implied: bool) -> Result<(), AllocError>
    ensures { OnOk result (string_bytes out.new ≡ string_bytes out.old ++ joined is_first (implied is_implied)) }
{
    if !is_implied {
        return Ok(());
    }
    if !is_first {
        out.push_str(", ")?;
    }
    out.push_str("references")
}

/// Whether what comes behind what is implied is the first.
fn is_still_first(is_first: bool, is_implied: bool) -> bool
    ensures { result ≡ (is_first && not is_implied) }
{
    is_first && !is_implied
}

/// The assumptions on which a verdict on a bundle rests, with commas between.
pub fn push_conditions(out: &mut String, bundle: &Bundle) -> Result<(), AllocError>
    ensures { OnOk result (string_bytes out.new ≡ string_bytes out.old ++ conditions (assumed bundle.now)) }
{
    let is_implied = is_implied(bundle);
    let (before, after) = cut_at_rows(bundle.assumptions());
    let is_first = before.is_empty();
    push_joined(out, true, before)?;
    join_implied(out, is_first, is_implied)?;
    push_joined(out, is_still_first(is_first, is_implied), after)?;
    Ok(())
}

/// `sound`, and what it rests on.
fn sound_line(alloc: Global, bundle: &Bundle) -> Result<String, AllocError>
    ensures { IfOk result (λ line. string_bytes line ≡ sound_line (assumed bundle.now)) }
{
    if !is_assuming(bundle) {
        return String::from_str(alloc, "sound");
    }
    let mut line = String::from_str(alloc, "sound if ")?;
    push_conditions(&mut line, bundle)?;
    Ok(line)
}

/// The printed line of a verdict on a bundle, without the line feed: Sound is said with what it rests on, the others as `render_verdict` does.
pub fn render_verdict_on(
    alloc: Global,
    bundle: &Bundle,
    verdict: &Verdict,
) -> Result<String, AllocError>
    ensures { IfOk result (λ line. string_bytes line ≡ verdict_line_under (assumed bundle.now) verdict.now) }
{
    match verdict {
        Verdict::Sound => sound_line(alloc, bundle),
        _ => render_verdict(alloc, verdict),
    }
}
