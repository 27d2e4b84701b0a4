//! The command `apply`.
ghost use Rattle.std.specs.Prelude.{◌≡◌, ◌≤◌, IfOk, IfErr};
ghost use Rattle.std.specs.Thread.{IsSync};
ghost use Rattle.serving.specs.Faults.{IsBundleFault};
ghost use Rattle.commands.specs.Printed.{to_all, IsDone, HasFailed};
ghost use Rattle.commands.specs.Bundles.{applied_text, Applies};

use crate::answer::Answer;
use crate::bundle_reading::read_bundle;
use crate::edge::{Outcome, RunFault, Sink, Source};
use crate::merge_way::merge_held;
use crate::replica_way::apply_decoded;
use crate::request::{Request, answer_decoded, run};
use crate::streams::Streams;
use crate::text::CountedBundle;
use crate::unapplied::unapplied_answer;
use applier::NoGate;
use gtid_report::Fault;
use serving::Order;
use source_shares::NoShareGate;
use std::alloc::Global;
use std::sync::Wait;
use std::thread::Threads;

/// How a bundle is applied. The answer is the same.
#[derive(Clone, Copy, Debug, PartialEq, Eq, Drop)]
pub enum Way {
    /// The fast way (`merge_decoded`).
    Merge,
    /// As a replica does it, with seats and workers that share it (`apply_decoded`).
    Replica,
}

/// The request to apply a bundle with this many workers, 1 to 64.
#[derive(Drop)]
struct ApplyRequest<'a, R: Threads + Wait + Sync> {
    threads: &'a R,
    way: Way,
    order: Order,
    workers: u8,
}

impl<'a, R: Threads + Wait + Sync> Request for ApplyRequest<'a, R> {
    type Value = CountedBundle;

    ghost ready = { λ asked. (1 ≤ asked.workers) × (asked.workers ≤ 64) × IsSync R.row };

    ghost answers = { λ asked it. applied_text asked.order it };

    ghost may_fail = { λ _ it. IsBundleFault it.bundle };

    fn answer(&self, alloc: Global, counted: &CountedBundle) -> Result<Answer, Fault> {
        let bundle = &counted.bundle;
        if bundle.lacks_rows() {
            return unapplied_answer(alloc, self.order, bundle, counted.lines.saturating_sub(1));
        }
        let rt = self.threads;
        match self.way {
            Way::Merge => {
                let held = merge_held(rt, alloc, bundle, self.order, self.workers, &NoShareGate)?;
                Ok(held.leave())
            }
            Way::Replica => apply_decoded(rt, alloc, bundle, self.order, self.workers, &NoGate),
        }
    }
}

/// Reads a bundle, and writes the state in which all its journals are executed, or the line of the verdict of the audit that asks for this
/// order, if that is not Sound, or the line of its refusal, and nothing else. With two or more workers, threads also parse the lines of the
/// bundle, while what follows is read.
pub fn apply_bundle<S: Source + Send, W: Sink, R: Threads + Wait + Sync>(
    rt: &R,
    alloc: Global,
    way: Way,
    order: Order,
    workers: u8,
    streams: &mut Streams<S, W>,
) -> Result<Outcome, RunFault>
    requires low { 1 ≤ workers }
    requires high { workers ≤ 64 }
    ensures done { IfOk result (IsDone (to_all (Applies order)) streams.old streams.new) }
    ensures failed { IfErr result (HasFailed (to_all (Applies order)) streams.old streams.new) }
{
    let request = ApplyRequest {
        threads: rt,
        way,
        order,
        workers,
    };
    if workers == 1 {
        return run(alloc, &request, streams);
    }
    let decoded = read_bundle(rt, alloc, workers, streams)?;
    let answer = answer_decoded(alloc, &request, decoded)?;
    streams.send(&answer)
}
