//! Workers, one for each pass.
ghost use Rattle.std.specs.Prelude.{◌≡◌, ℕ, ◌<◌, ◌+◌, ◌++◌, ◌∷◌, ◌≤◌, [], IfOk, map, vec_len, slice_index_or, length};
ghost use Rattle.std.specs.Vec.{vec_capacity};
ghost use Rattle.applier.specs.Applies.{GoesOn, AllGoOn};

use crate::gate::Gate;
use crate::hand::{Hand, make_hands};
use crate::round::Round;
use crate::work::work;
use gtid_set::SetFault;
use shared_replica::room::add;
use shared_replica::{Naming, Pass, SharedReplica};
use std::alloc::{AllocError, Global};
use std::sync::Wait;
use std::thread;
use std::thread::Threads;

/// What the workers leave.
#[derive(Drop)]
pub struct WorkersEnd<N: Naming> {
    /// All passes, in order.
    pub passes: Vec<Pass<N>>,
    /// The first fault, in order of the passes.
    pub fault: Option<SetFault>,
}

/// A pass with its worker's tickets, and the number of the worker's deque.
#[derive(Drop)]
struct Worker<N: Naming> {
    pass: Pass<N>,
    hand: Hand,
    me: usize,
    fault: Option<SetFault>,
}

/// One worker for each pass, on a thread of its own if one can be started; else its part is done on another. The passes come back in order,
/// each of the same seat, with its earlier receipts as a prefix, and with further ones of Take, Commit and Rollback alone. What a worker
/// doesn't finish is left to `drain`.
pub fn run_workers<N: Naming + Send + Sync, G: Gate + Sync, R: Threads + Wait + Sync>(
    rt: &R,
    alloc: Global,
    replica: &SharedReplica<N>,
    passes: Vec<Pass<N>>,
    gate: &G,
) -> WorkersEnd<N>
    requires { length passes.items ≤ 64 }
    ensures count { length result.passes.items ≡ length passes.items }
    ensures each { AllGoOn passes.items result.passes.items }
{
    let count = passes.len();
    if count == 0 {
        return WorkersEnd {
            passes,
            fault: None,
        };
    }
    let Ok((room, back, hands)) = places(alloc, count) else {
        return WorkersEnd {
            passes,
            fault: Some(SetFault::Memory),
        };
    };
    let mut workers = make_workers(rt, replica, passes, hands, room);
    serve_all(rt, alloc, replica, gate, workers.as_mut_slice());
    into_passes(workers, back)
}

fn serve_all<N: Naming + Send + Sync, G: Gate + Sync, R: Threads + Wait + Sync>(
    rt: &R,
    alloc: Global,
    replica: &SharedReplica<N>,
    gate: &G,
    workers: &mut [Worker<N>],
)
    requires { 0 < length workers.old }
    ensures { (i : ℕ) (d : _) → i < length workers.old → GoesOn (slice_index_or workers.old i d).pass (slice_index_or workers.new i d).pass }
{
    let count = workers.len();
    thread::for_each_mut(
        rt,
        workers,
        count,
        &|_, worker: &mut Worker<N>| serve(rt, alloc, replica, gate, worker),
    );
}

fn serve<N: Naming, G: Gate, R: Wait>(
    rt: &R,
    alloc: Global,
    replica: &SharedReplica<N>,
    gate: &G,
    worker: &mut Worker<N>,
)
    ensures { GoesOn worker.old.pass worker.new.pass }
{
    let me = worker.me;
    let end = work(
        rt,
        alloc,
        replica,
        gate,
        &mut worker.pass,
        &mut worker.hand,
        me,
    );
    worker.fault = end.err();
}

/// Room for the workers and for the passes that come back, and the workers' hands.
fn places<N: Naming>(
    alloc: Global,
    count: usize,
) -> Result<(Vec<Worker<N>>, Vec<Pass<N>>, Vec<Hand>), AllocError>
    requires { (1 ≤ count) × (count ≤ 64) }
    ensures workers { IfOk result (λ r. (r.0.items ≡ []) × (count ≤ vec_capacity r.0)) }
    ensures passes { IfOk result (λ r. (r.1.items ≡ []) × (count ≤ vec_capacity r.1)) }
    ensures hands { IfOk result (λ r. length r.2.items ≡ count) }
{
    let workers = Vec::with_capacity(alloc, count)?;
    let passes = Vec::with_capacity(alloc, count)?;
    let hands = make_hands(alloc, count)?;
    Ok((workers, passes, hands))
}

/// The worker of each pass, with the first places that are ready, one for each. The hands are taken
/// from the end.
fn make_workers<N: Naming, R: Wait>(
    rt: &R,
    replica: &SharedReplica<N>,
    passes: Vec<Pass<N>>,
    mut hands: Vec<Hand>,
    mut workers: Vec<Worker<N>>,
) -> Vec<Worker<N>>
    requires none { workers.items ≡ [] }
    requires room { vec_len passes ≤ vec_capacity workers }
    requires hands { length hands.items ≡ length passes.items }
    ensures { map (λ w. w.pass) result.items ≡ passes.items }
{
    let mut round = Round::new();
    for pass in passes {
        let Some(mut hand) = hands.pop() else {
            unreachable!();
        };
        let me = hands.len();
        if let Some(ticket) = round.look(rt, replica) {
            let _refused = hand.push(ticket);
        }
        add(
            &mut workers,
            Worker {
                pass,
                hand,
                me,
                fault: None,
            },
        );
    }
    workers
}

/// The passes of the workers, in order, and the first fault.
fn into_passes<N: Naming>(workers: Vec<Worker<N>>, mut passes: Vec<Pass<N>>) -> WorkersEnd<N>
    requires none { passes.items ≡ [] }
    requires room { vec_len workers ≤ vec_capacity passes }
    ensures { result.passes.items ≡ map (λ w. w.pass) workers.items }
{
    let mut first = None;
    for worker in workers {
        let Worker {
            pass,
            hand: _,
            me: _,
            fault,
        } = worker;
        if first.is_none() {
            first = fault;
        }
        add(&mut passes, pass);
    }
    WorkersEnd {
        passes,
        fault: first,
    }
}
