//! Whether receipts are the steps of a history.
ghost use Rattle.std.specs.Prelude.{◌≡◌, ℕ, ◌+◌, ◌<◌, ◌≤◌, ◌^◌, IsTrue, IfSome, length, get_or, slice_get, Some};
ghost use Rattle.shared_replica.specs.declared.step.Receipt.{Receipt};
ghost use Rattle.shared_replica.specs.Passes.{PassValue};
ghost use Rattle.shared_replica.specs.Closing.{At, IsMerge};

use crate::naming::Naming;
use crate::pass::Pass;
use crate::step::Step;

/// Whether the receipts of the passes are the steps, each at its place.
pub(crate) fn is_merge<N: Naming>(passes: &[Pass<N>], steps: &[Step]) -> bool
    requires { length passes.now ≤ 64 }
    ensures { IsTrue result → IsMerge passes.now steps.now }
{
    let mut cursors = [0usize; 64];
    for (place, step) in steps.iter().enumerate() {
        let Some(i) = next_of(passes, &cursors, place as u64, step) else {
            return false;
        };
        cursors[i] += 1;
    }
    are_ended(passes, &cursors)
}

/// The pass whose next receipt has this place and step.
fn next_of<N: Naming>(
    passes: &[Pass<N>],
    cursors: &[usize; 64],
    place: u64,
    step: &Step,
) -> Option<usize>
    requires { length passes.now ≤ 64 }
    ensures found { IfSome result (λ i. (i < length passes.now) × (get_or cursors.now i 0 + 1 < 2 ^ 64)) }
    ensures next { IfSome result (λ i. (r : Receipt) × At passes.now i (get_or cursors.now i 0) r × (r.place ≡ place) × (r.step ≡ step.now)) }
{
    for (i, pass) in passes.iter().enumerate() {
        if is_next(pass, cursors[i], place, step) {
            return Some(i);
        }
    }
    None
}

fn is_next<N: Naming>(pass: &Pass<N>, cursor: usize, place: u64, step: &Step) -> bool
    ensures { IsTrue result → (cursor + 1 < 2 ^ 64) × ((r : Receipt) × (slice_get pass.now.receipts cursor ≡ Some r) × (r.place ≡ place) × (r.step ≡ step.now)) }
{
    match pass.receipts().get(cursor) {
        Some(receipt) => receipt.place == place && receipt.step.is_same(step),
        None => false,
    }
}

/// Whether each cursor is at the end of its pass.
fn are_ended<N: Naming>(passes: &[Pass<N>], cursors: &[usize; 64]) -> bool
    requires { length passes.now ≤ 64 }
    ensures { IsTrue result → (i : ℕ) (p : PassValue) → slice_get passes.now i ≡ Some p → get_or cursors.now i 0 ≡ length p.receipts }
{
    for (i, pass) in passes.iter().enumerate() {
        if cursors[i] != pass.receipts().len() {
            return false;
        }
    }
    true
}
