//! Two workers, of which one is refused memory.
ghost use Rattle.std.specs.Prelude.{◌≡◌};

use crate::ends::{drain_again, owned_gtids, shows};
use crate::start::{NOTHING_BEGAN, bundle, core_of, entries, report};
use applier::{Gate, WorkersEnd, run_workers};
use commit_ledger::Blanks;
use gtid_set::SetFault;
use gtid_text::Gtid;
use journal::Entry;
use replica_core::{Core, Event};
use rows::Name;
use shared_replica::{ClosedBook, Naming, SharedReplica};
use std::alloc::Global;
use std::marker::Brand;
use std::process::Abort;
use std::sync::Wait;
use std::sync::atomic::{AtomicU64, Ordering};
use std::test::Fail;
use std::thread::Threads;
use txn_journal::Bundle;

/// A table, and a journal of four inserts of different rows.
const FOUR: &str = "bundle 1
replica cccccccc-cccc-cccc-cccc-cccccccccccc
table t 3 pk 0 uk 1
channel x
journal 1
previous -
txn aaaaaaaa-aaaa-aaaa-aaaa-aaaaaaaaaaaa:1
ins t 1 x61 null
end
txn aaaaaaaa-aaaa-aaaa-aaaa-aaaaaaaaaaaa:2
ins t 2 x62 null
end
txn aaaaaaaa-aaaa-aaaa-aaaa-aaaaaaaaaaaa:3
ins t 3 x63 null
end
txn aaaaaaaa-aaaa-aaaa-aaaa-aaaaaaaaaaaa:4
ins t 4 x64 null
end
close
done
";

/// What the four entries leave.
const DONE: &str = "executed aaaaaaaa-aaaa-aaaa-aaaa-aaaaaaaaaaaa:1-4
row t 1 x61 null
row t 2 x62 null
row t 3 x63 null
row t 4 x64 null
";

/// How often a seat was about to prepare, and how often it has committed.
#[derive(Drop)]
struct Moments {
    prepared: AtomicU64,
    committed: AtomicU64,
}

impl Moments {
    fn new() -> Moments {
        Moments {
            prepared: AtomicU64::new(0),
            committed: AtomicU64::new(0),
        }
    }

    /// Whether the seat was about to prepare what it did not commit.
    fn is_between(&self) -> bool {
        self.prepared.load(Ordering::SeqCst) != self.committed.load(Ordering::SeqCst)
    }
}

/// The moments of the seats 1 and 2.
#[derive(Drop)]
struct Marks {
    first: Moments,
    second: Moments,
}

impl Marks {
    fn of(&self, seat: u8) -> &Moments {
        if seat == 1 { &self.first } else { &self.second }
    }
}

impl Gate for Marks {
    fn before_prepare(&self, seat: u8, _gtid: Gtid) {
        self.of(seat).prepared.fetch_add(1, Ordering::SeqCst);
    }

    fn after_commit(&self, seat: u8, _gtid: Gtid) {
        self.of(seat).committed.fetch_add(1, Ordering::SeqCst);
    }
}

/// A channel is opened and positioned, and receives entries.
fn receive_all<R: Abort>(
    rt: &R,
    alloc: Global,
    core: &mut Core,
    entries: &[Entry],
) -> Result<(), SetFault> {
    let Ok(name) = Name::new(String::from_str(alloc, "x")?) else {
        return Err(SetFault::Memory);
    };
    drop(core.step(alloc, &Event::OpenChannel(name, false))?);
    drop(core.step(alloc, &Event::Position(0))?);
    for entry in entries {
        let event = Event::Receive(0, entry.clone()?);
        assert!(rt; event.is_numbered(), "a number");
        drop(core.step(alloc, &event)?);
    }
    Ok(())
}

/// A replica that has received what a bundle brings.
fn received_core<R: Abort>(rt: &R, alloc: Global, bundle: &Bundle) -> Result<Core, SetFault> {
    let mut core = core_of(alloc, bundle)?;
    receive_all(rt, alloc, &mut core, entries(bundle))?;
    Ok(core)
}

/// What one worker that was refused memory leaves: at most its own GTID, and the other worker has done all
/// else. Which case it is.
fn left_by_one<R: Abort>(rt: &R, alloc: Global, book: &ClosedBook, marks: &Marks) -> &'static str {
    let executed = book.state().executed().count();
    let owned = owned_gtids(rt, alloc, book);
    match owned.as_slice() {
        [] if book.steps().is_empty() => "no worker began",
        [] => {
            assert_eq!(rt; executed, 4, "the other worker goes on");
            "a worker refused that owned nothing"
        }
        [(seat, _)] => {
            assert_eq!(rt; executed, 3, "the other worker goes on");
            if marks.of(*seat).is_between() {
                "seat left owning between its take and its commit"
            } else {
                "seat left owning before it prepared"
            }
        }
        _ => panic!(rt; "two seats own what one was refused"),
    }
}

/// What the workers left, and the state after the drain; which case was met.
fn end<R: Abort>(
    rt: &R,
    alloc: Global,
    book: &mut ClosedBook,
    fault: Option<SetFault>,
    marks: &Marks,
) -> &'static str {
    let met = match fault {
        None => {
            assert!(rt; book.state().is_drained(), "the workers have done all");
            "no worker refused"
        }
        Some(fault) => {
            assert_eq!(rt; fault, SetFault::Memory, "memory was refused");
            left_by_one(rt, alloc, book, marks)
        }
    };
    let _refused = drain_again(rt, alloc, book);
    shows(rt, alloc, book, DONE, 4);
    met
}

fn two_work<N: Naming + Send + Sync, R: Threads + Wait + Abort + Print + Sync>(
    rt: &R,
    alloc: Global,
    blanks: Blanks,
    core: Core,
    marks: &Marks,
) -> Result<(), Fail>
    requires steps { (blanks.steps.name ≡ N.steps_name) × (blanks.steps.parts ≡ N.seats) }
    requires commits { (blanks.commits.name ≡ N.commits_name) × (blanks.commits.parts ≡ N.seats) }
    requires opening { core ≡ N.opening }
    requires two { N.seats ≡ 2 }
{
    let Ok((replica, passes)) = SharedReplica::<N>::open(alloc, blanks, core, 2) else {
        return report(rt, NOTHING_BEGAN);
    };
    let WorkersEnd { passes, fault } = run_workers(rt, alloc, &replica, passes, marks);
    let Ok(mut book) = replica.close(passes) else {
        panic!(rt; "a pass is lost, or the receipts are not the history");
    };
    let met = end(rt, alloc, &mut book, fault, marks);
    drop(book);
    report(rt, met)
}

/// A worker that is refused memory leaves at most its own GTID: its pass comes back, the other worker goes
/// on, and the drain does the rest.
#[test]
fn the_other_worker_goes_on(rt: HostRuntime) -> Result<(), Fail> {
    let alloc = rt.alloc();
    let Ok(bundle) = bundle(&rt, alloc, FOUR) else {
        return report(&rt, NOTHING_BEGAN);
    };
    let Ok(core) = received_core(&rt, alloc, &bundle) else {
        return report(&rt, NOTHING_BEGAN);
    };
    let marks = Marks {
        first: Moments::new(),
        second: Moments::new(),
    };
    two_work::<Brand, _>(&rt, alloc, Blanks::new(2), core, &marks)
}
