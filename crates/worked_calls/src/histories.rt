//! Histories of one seat and of two: the replies to their calls, the places of their receipts, and what the closed book shows.
ghost use Rattle.std.specs.Prelude.{◌≡◌, ◌≤◌};

use crate::calls::{SeatCall, history, is_text, replies};
use crate::seats::{SeatEnding, ends, has_state};
use crate::sources::{bundle, first_entries};
use applier::{NoGate, WorkersEnd, drain, run_workers};
use commit_ledger::{Blanks, Counts};
use journal::Entry;
use replica_core::Core;
use rows::Rows;
use shared_replica::{ClosedBook, Naming, SharedReplica};
use std::alloc::Global;
use std::marker::Brand;
use std::sync::Wait;
use std::test::Fail;
use std::thread::Threads;
use txn_journal::Bundle;

/// Calls of so many seats in turn, and what they give.
#[derive(Clone, Copy)]
struct Scenario {
    seats: u8,
    calls: &'static [(usize, SeatCall)],
    /// The reply to each call, a line each.
    replies: &'static str,
    ending: SeatEnding,
}

/// The first seat receives two entries and commits the first; the second seat commits the second.
const BY_TURNS: Scenario = Scenario {
    seats: 2,
    calls: &[
        (0, SeatCall::Open),
        (0, SeatCall::Position),
        (0, SeatCall::Receive(0)),
        (0, SeatCall::Receive(1)),
        (0, SeatCall::Take(0)),
        (0, SeatCall::Commit),
        (1, SeatCall::Take(1)),
        (1, SeatCall::Commit),
    ],
    replies: "Opened(0)
Ask(-)
Received(0)
Received(1)
Taken(aaaaaaaa-aaaa-aaaa-aaaa-aaaaaaaaaaaa:1)
Committed(aaaaaaaa-aaaa-aaaa-aaaa-aaaaaaaaaaaa:1)
Taken(aaaaaaaa-aaaa-aaaa-aaaa-aaaaaaaaaaaa:2)
Committed(aaaaaaaa-aaaa-aaaa-aaaa-aaaaaaaaaaaa:2)
",
    ending: SeatEnding {
        counts: Counts {
            steps: 8,
            commits: 2,
        },
        first: Some(&[0, 1, 2, 3, 4, 5]),
        second: Some(&[6, 7]),
        state: TWO_ROWS,
    },
};

/// The second seat looks before it takes.
const WITH_A_LOOK: Scenario = Scenario {
    seats: 2,
    calls: &[
        (0, SeatCall::Open),
        (0, SeatCall::Position),
        (0, SeatCall::Receive(0)),
        (0, SeatCall::Receive(1)),
        (0, SeatCall::Take(0)),
        (0, SeatCall::Commit),
        (1, SeatCall::Look),
        (1, SeatCall::Take(1)),
        (1, SeatCall::Commit),
    ],
    replies: "Opened(0)
Ask(-)
Received(0)
Received(1)
Taken(aaaaaaaa-aaaa-aaaa-aaaa-aaaaaaaaaaaa:1)
Committed(aaaaaaaa-aaaa-aaaa-aaaa-aaaaaaaaaaaa:1)
Shown(aaaaaaaa-aaaa-aaaa-aaaa-aaaaaaaaaaaa:1)
Taken(aaaaaaaa-aaaa-aaaa-aaaa-aaaaaaaaaaaa:2)
Committed(aaaaaaaa-aaaa-aaaa-aaaa-aaaaaaaaaaaa:2)
",
    ending: SeatEnding {
        counts: Counts {
            steps: 9,
            commits: 2,
        },
        first: Some(&[0, 1, 2, 3, 4, 5]),
        second: Some(&[6, 7, 8]),
        state: TWO_ROWS,
    },
};

/// What the first two transactions leave.
const TWO_ROWS: &str = "executed aaaaaaaa-aaaa-aaaa-aaaa-aaaaaaaaaaaa:1-2
row t 1 x61 null
row t 2 x62 null
";

/// One seat writes on its own, and its entry is purged.
const OF_ITS_OWN: Scenario = Scenario {
    seats: 1,
    calls: &[
        (0, SeatCall::Open),
        (0, SeatCall::Restart),
        (0, SeatCall::Rollback),
        (0, SeatCall::Own),
        (0, SeatCall::Purge),
    ],
    replies: "Opened(0)
Restarted
SeatIdle
Committed(cccccccc-cccc-cccc-cccc-cccccccccccc:1)
Purged(cccccccc-cccc-cccc-cccc-cccccccccccc:1)
",
    ending: SeatEnding {
        counts: Counts {
            steps: 5,
            commits: 1,
        },
        first: Some(&[0, 1, 2, 3, 4]),
        second: Some(&[]),
        state: "executed cccccccc-cccc-cccc-cccc-cccccccccccc:1\n",
    },
};

/// A replica with the tables of a bundle, without a row.
pub(crate) fn core_without_rows(alloc: Global, bundle: &Bundle) -> Option<Core> {
    let schema = bundle.schema().clone().ok()?;
    Core::open(alloc, bundle.replica(), Rows::open(alloc, schema)).ok()
}

/// Whether the calls of a scenario have its replies, and end as it wants.
fn plays<N: Naming, R: Wait>(
    rt: &R,
    alloc: Global,
    blanks: Blanks,
    core: Core,
    entries: &[Entry],
    scenario: &Scenario,
) -> bool
    requires steps { (blanks.steps.name ≡ N.steps_name) × (blanks.steps.parts ≡ N.seats) }
    requires commits { (blanks.commits.name ≡ N.commits_name) × (blanks.commits.parts ≡ N.seats) }
    requires opening { core ≡ N.opening }
    requires seats { (scenario.now.seats ≡ N.seats) × (1 ≤ scenario.now.seats) × (scenario.now.seats ≤ 64) }
{
    let seats = scenario.seats;
    let Ok((replica, mut passes)) = SharedReplica::<N>::open(alloc, blanks, core, seats) else {
        return false;
    };
    let said = replies(
        rt,
        alloc,
        &replica,
        passes.as_mut_slice(),
        entries,
        scenario.calls,
    );
    let are_said = is_text(said, scenario.replies);
    ends(alloc, replica, passes, scenario.ending) && are_said
}

/// Whether a scenario over a replica without rows goes as it wants.
fn goes<R: Wait>(rt: &R, alloc: Global, bundle: &Bundle, scenario: &Scenario) -> bool {
    let seats = scenario.seats;
    if seats == 0 || seats > 64 {
        return false;
    }
    let Some(core) = core_without_rows(alloc, bundle) else {
        return false;
    };
    plays::<Brand, _>(
        rt,
        alloc,
        Blanks::new(u64::from(seats)),
        core,
        first_entries(bundle),
        scenario,
    )
}

/// With a pass too few all is handed back; with all passes the book shows the calls in order, and a copy of its state opens a book without
/// a line.
#[test]
fn seats_by_turns(rt: HostRuntime) -> Result<(), Fail> {
    let alloc = rt.alloc();
    let bundle = bundle(alloc)?;
    for scenario in [BY_TURNS, WITH_A_LOOK, OF_ITS_OWN] {
        assert!(rt; goes(&rt, alloc, &bundle, &scenario));
    }
    Ok(())
}

/// The first seat receives three entries and holds the first of them when a worker begins.
const RECEIVED_AND_HELD: [(usize, SeatCall); 6] = [
    (0, SeatCall::Open),
    (0, SeatCall::Position),
    (0, SeatCall::Receive(0)),
    (0, SeatCall::Receive(1)),
    (0, SeatCall::Receive(2)),
    (0, SeatCall::Take(0)),
];

/// What the worker leaves: the third entry waits for the first, which the other seat holds.
const SECOND_ROW: &str = "executed aaaaaaaa-aaaa-aaaa-aaaa-aaaaaaaaaaaa:2
row t 2 x62 null
";

/// What the drain adds.
const DRAINED: &str = "8 1 rollback 1 -> RolledBack(aaaaaaaa-aaaa-aaaa-aaaa-aaaaaaaaaaaa:1)
9 1 take 1 0 0 -> Taken(aaaaaaaa-aaaa-aaaa-aaaa-aaaaaaaaaaaa:1)
10 1 commit 1 -> Committed(aaaaaaaa-aaaa-aaaa-aaaa-aaaaaaaaaaaa:1)
11 1 take 1 0 2 -> Taken(aaaaaaaa-aaaa-aaaa-aaaa-aaaaaaaaaaaa:3)
12 1 commit 1 -> Committed(aaaaaaaa-aaaa-aaaa-aaaa-aaaaaaaaaaaa:3)
";

/// What it leaves.
const ALL_THREE: &str = "executed aaaaaaaa-aaaa-aaaa-aaaa-aaaaaaaaaaaa:1-3
row t 1 x61 5
row t 2 x62 null
";

/// The book of two seats, of which the first holds the first entry while the second one's worker applies what it can.
fn book_beside_a_holder<N: Naming + Send + Sync, R: Threads + Wait + Sync>(
    rt: &R,
    alloc: Global,
    blanks: Blanks,
    core: Core,
    entries: &[Entry],
) -> Option<ClosedBook>
    requires steps { (blanks.steps.name ≡ N.steps_name) × (blanks.steps.parts ≡ N.seats) }
    requires commits { (blanks.commits.name ≡ N.commits_name) × (blanks.commits.parts ≡ N.seats) }
    requires opening { core ≡ N.opening }
    requires two { N.seats ≡ 2 }
{
    let Ok((replica, mut passes)) = SharedReplica::<N>::open(alloc, blanks, core, 2) else {
        return None;
    };
    drop(replies(
        rt,
        alloc,
        &replica,
        passes.as_mut_slice(),
        entries,
        &RECEIVED_AND_HELD,
    ));
    let first = passes.remove(0);
    let WorkersEnd { mut passes, fault } = run_workers(rt, alloc, &replica, passes, &NoGate);
    let _full = passes.insert(0, first);
    match (replica.close(passes), fault) {
        (Ok(book), None) => Some(book),
        _ => None,
    }
}

/// Whether a book shows these lines of state, and so many steps and commits of its seats.
fn shows_after(alloc: Global, book: &ClosedBook, state: &str) -> bool {
    let counts = Counts {
        steps: 8,
        commits: 1,
    };
    book.counts() == counts && has_state(alloc, book, state)
}

/// Whether the worker has committed the second entry alone, and the drain does the rest, in its order.
fn is_drained(alloc: Global, book: Option<ClosedBook>) -> bool {
    match book {
        Some(mut book) => {
            shows_after(alloc, &book, SECOND_ROW)
                && drain(alloc, &mut book).is_ok()
                && is_text(history(alloc, &book, 8), DRAINED)
                && shows_after(alloc, &book, ALL_THREE)
        }
        None => false,
    }
}

/// What another seat holds is left by a worker, with what waits for it, and the drain rolls it back and commits it.
#[test]
fn the_drain_does_the_rest(rt: HostRuntime) -> Result<(), Fail> {
    let alloc = rt.alloc();
    let bundle = bundle(alloc)?;
    let Some(core) = core_without_rows(alloc, &bundle) else {
        return Err("a replica".into());
    };
    let book = book_beside_a_holder::<Brand, _>(
        &rt,
        alloc,
        Blanks::new(2),
        core,
        first_entries(&bundle),
    );
    assert!(rt; is_drained(alloc, book));
    Ok(())
}
