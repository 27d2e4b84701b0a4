//! One seat holds a place by hand, the other's worker works alone, and the drain does what is left.
ghost use Rattle.std.specs.Prelude.{◌≡◌};

use crate::calls::{Call, retry};
use crate::ends::{drain_again, shows};
use crate::start::{NOTHING_BEGAN, THREE, bundle, core_of, entries, report};
use applier::{NoGate, WorkersEnd, run_workers};
use commit_ledger::{Blanks, Counts};
use gtid_set::SetFault;
use journal::Entry;
use replica_core::{Core, Reply};
use shared_replica::{ClosedBook, Naming, Pass, SharedReplica};
use std::alloc::Global;
use std::marker::Brand;
use std::process::Abort;
use std::sync::Wait;
use std::test::Fail;
use std::thread::Threads;

/// What the three entries leave.
const DONE: &str = "executed aaaaaaaa-aaaa-aaaa-aaaa-aaaaaaaaaaaa:1-3
row t 1 x61 5
row t 2 x62 null
";

/// What the seat does by hand: it receives the three entries and takes the first.
const BY_HAND: [Call; 6] = [
    Call::Open,
    Call::Position,
    Call::Receive(0),
    Call::Receive(1),
    Call::Receive(2),
    Call::Take(0),
];

/// The second seat makes its calls, each again where memory was refused, and has taken the first place.
fn take_by_hand<N: Naming, R: Abort + Wait>(
    rt: &R,
    alloc: Global,
    replica: &SharedReplica<N>,
    passes: &mut [Pass<N>],
    entries: &[Entry],
) {
    let Some(pass) = passes.last_mut() else {
        panic!(rt; "no second pass");
    };
    for call in BY_HAND {
        let _reply = retry(rt, alloc, replica, pass, entries, call);
    }
    match pass.receipts().last() {
        Some(receipt) => {
            assert!(rt;
                matches!(&receipt.step.reply, Reply::Taken(_)),
                "the first place is taken"
            )
        }
        None => panic!(rt; "no receipt"),
    }
}

/// The first seat's worker alone. All passes are there again, also where it was refused memory, which is
/// returned.
fn work_alone<N: Naming + Send + Sync, R: Threads + Wait + Abort + Sync>(
    rt: &R,
    alloc: Global,
    replica: &SharedReplica<N>,
    passes: &mut Vec<Pass<N>>,
    mut alone: Vec<Pass<N>>,
) -> bool {
    assert!(rt; passes.len() == 2, "two passes");
    let first = passes.remove(0);
    assert!(rt; alone.push(first).is_ok(), "there was room");
    assert!(rt; alone.len() == 1, "one worker");
    let WorkersEnd {
        passes: back,
        fault,
    } = run_workers(rt, alloc, replica, alone, &NoGate);
    assert!(rt;
        matches!(fault, None | Some(SetFault::Memory)),
        "memory was refused"
    );
    for pass in back {
        assert!(rt; passes.insert(0, pass).is_ok(), "there was room");
    }
    fault.is_some()
}

/// What the worker left, and the state after the drain; which case was met.
fn end<R: Abort>(rt: &R, alloc: Global, book: &mut ClosedBook, stopped: bool) -> &'static str {
    let counts = book.counts();
    if !stopped {
        let wanted = Counts {
            steps: 8,
            commits: 1,
        };
        assert_eq!(rt; counts, wanted, "six steps by hand, a take and a commit");
    }
    assert!(rt;
        counts.steps >= 6 && counts.commits <= 1,
        "what a worker may leave"
    );
    let refused = drain_again(rt, alloc, book);
    shows(rt, alloc, book, DONE, 3);
    match (stopped, refused) {
        (true, _) => "a worker refused",
        (false, true) => "a drain refused",
        (false, false) => "a worker and a drain not refused",
    }
}

fn one_works_alone<N: Naming + Send + Sync, R: Threads + Wait + Abort + Print + Sync>(
    rt: &R,
    alloc: Global,
    blanks: Blanks,
    core: Core,
    entries: &[Entry],
) -> Result<(), Fail>
    requires steps { (blanks.steps.name ≡ N.steps_name) × (blanks.steps.parts ≡ N.seats) }
    requires commits { (blanks.commits.name ≡ N.commits_name) × (blanks.commits.parts ≡ N.seats) }
    requires opening { core ≡ N.opening }
    requires two { N.seats ≡ 2 }
{
    let Ok((replica, mut passes)) = SharedReplica::<N>::open(alloc, blanks, core, 2) else {
        return report(rt, NOTHING_BEGAN);
    };
    let Ok(alone) = Vec::with_capacity(alloc, 1) else {
        return report(rt, NOTHING_BEGAN);
    };
    take_by_hand(rt, alloc, &replica, passes.as_mut_slice(), entries);
    let stopped = work_alone(rt, alloc, &replica, &mut passes, alone);
    let Ok(mut book) = replica.close(passes) else {
        panic!(rt; "the receipts are not the history");
    };
    let met = end(rt, alloc, &mut book, stopped);
    drop(book);
    report(rt, met)
}

/// Whatever is refused to the worker or to the drain, a further drain ends in the state in which the first
/// would have ended, and the counts stay.
#[test]
fn a_drain_goes_on(rt: HostRuntime) -> Result<(), Fail> {
    let alloc = rt.alloc();
    let Ok(bundle) = bundle(&rt, alloc, THREE) else {
        return report(&rt, NOTHING_BEGAN);
    };
    let Ok(core) = core_of(alloc, &bundle) else {
        return report(&rt, NOTHING_BEGAN);
    };
    one_works_alone::<Brand, _>(&rt, alloc, Blanks::new(2), core, entries(&bundle))
}
