//! The history of workers over a replica.
ghost use Rattle.std.specs.Prelude.{◌≡◌, ◌≤◌, IfSome};
ghost use Rattle.applier.specs.Draining.{AllApply};

use applier::{Gate, WorkersEnd, run_workers};
use commit_ledger::Blanks;
use replica_core::Core;
use shared_replica::{ClosedBook, Naming, SharedReplica};
use std::alloc::Global;
use std::marker::Brand;
use std::sync::Wait;
use std::thread::Threads;

/// Workers on threads over a replica that they share, one for each seat: its history, of takes, commits and rollbacks alone, since each
/// step has a receipt. None if out of memory at the beginning, or if receipts and history differ.
fn run_shared<N: Naming + Send + Sync, G: Gate + Sync, R: Threads + Wait + Sync>(
    rt: &R,
    alloc: Global,
    blanks: Blanks,
    core: Core,
    seats: u8,
    gate: &G,
) -> Option<ClosedBook>
    requires steps { (blanks.steps.name ≡ N.steps_name) × (blanks.steps.parts ≡ N.seats) }
    requires commits { (blanks.commits.name ≡ N.commits_name) × (blanks.commits.parts ≡ N.seats) }
    requires opening { core ≡ N.opening }
    requires seats { (seats ≡ N.seats) × (1 ≤ seats) × (seats ≤ 64) }
    ensures opening { IfSome result (λ b. b.opening ≡ core) }
    ensures work { IfSome result (λ b. AllApply b.steps) }
{
    let Ok((replica, passes)) = SharedReplica::<N>::open(alloc, blanks, core, seats) else {
        return None;
    };
    let WorkersEnd { passes, fault: _ } = run_workers(rt, alloc, &replica, passes, gate);
    match replica.close(passes) {
        Ok(book) => Some(book),
        Err(_) => None,
    }
}

/// What workers did over a replica: a history of takes, commits and rollbacks alone. None if it is not known.
pub(crate) fn run_history<G: Gate + Sync, R: Threads + Wait + Sync>(
    rt: &R,
    alloc: Global,
    core: Core,
    seats: u8,
    gate: &G,
) -> Option<ClosedBook>
    requires { (1 ≤ seats) × (seats ≤ 64) }
    ensures opening { IfSome result (λ b. b.opening ≡ core) }
    ensures work { IfSome result (λ b. AllApply b.steps) }
{
    run_shared::<Brand, G, R>(rt, alloc, Blanks::new(seats as u64), core, seats, gate)
}
