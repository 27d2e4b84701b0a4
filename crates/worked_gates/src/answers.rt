//! What `apply_decoded` and `merge_decoded` answer, as it is printed.
ghost use Rattle.std.specs.Prelude.{◌≤◌};

use applier::Gate;
use commands::{Answer, Failed, Outcome, Sink, apply_decoded, merge_decoded};
use serving::Order;
use source_shares::{NoShareGate, ShareGate};
use std::alloc::Global;
use std::sync::Wait;
use std::thread::Threads;
use txn_journal::decode_bundle;

/// What was written, and how often memory for it was refused.
#[derive(Drop)]
struct Page {
    bytes: Vec<u8>,
    failures: u64,
}

impl Sink for Page {
    ghost use Rattle.std.specs.Prelude.{None};

    ghost written = { λ _. None };

    ghost failed = { λ page. page.failures };

    fn write(&mut self, bytes: &[u8]) -> Result<(), Failed> {
        match self.bytes.extend_from_slice(bytes) {
            Ok(()) => Ok(()),
            Err(_) => {
                self.failures = self.failures.saturating_add(1);
                Err(Failed)
            }
        }
    }
}

/// Whether an answer is a state of these lines.
fn has_lines(alloc: Global, answer: &Answer, lines: &str) -> bool {
    let mut page = Page {
        bytes: Vec::new(alloc),
        failures: 0,
    };
    answer.outcome == Outcome::Done
        && answer.text.write_to(&mut page).is_ok()
        && page.bytes.as_slice() == lines.as_bytes()
}

/// Whether so many workers with a gate answer a bundle by these lines.
pub(crate) fn answers<G: Gate + Sync, R: Threads + Wait + Sync>(
    rt: &R,
    alloc: Global,
    text: &str,
    order: Order,
    workers: u8,
    gate: &G,
    lines: &str,
) -> bool
    requires { (1 ≤ workers) × (workers ≤ 64) }
{
    let Ok(bundle) = decode_bundle(alloc, text.as_bytes()) else {
        return false;
    };
    match apply_decoded(rt, alloc, &bundle, order, workers, gate) {
        Ok(answer) => has_lines(alloc, &answer, lines),
        Err(_) => false,
    }
}

/// Whether the fast way, on so many threads with a gate, answers a bundle by these lines.
pub(crate) fn merges_by_gate<G: ShareGate + Sync, R: Threads + Sync>(
    rt: &R,
    alloc: Global,
    text: &str,
    order: Order,
    workers: u8,
    gate: &G,
    lines: &str,
) -> bool
    requires { (1 ≤ workers) × (workers ≤ 64) }
{
    let Ok(bundle) = decode_bundle(alloc, text.as_bytes()) else {
        return false;
    };
    match merge_decoded(rt, alloc, &bundle, order, workers, gate) {
        Ok(answer) => has_lines(alloc, &answer, lines),
        Err(_) => false,
    }
}

/// The same with the gate that does nothing.
pub(crate) fn merges_to<R: Threads + Sync>(
    rt: &R,
    alloc: Global,
    text: &str,
    order: Order,
    workers: u8,
    lines: &str,
) -> bool
    requires { (1 ≤ workers) × (workers ≤ 64) }
{
    merges_by_gate(rt, alloc, text, order, workers, &NoShareGate, lines)
}
