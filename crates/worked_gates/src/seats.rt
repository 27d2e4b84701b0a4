//! What each of several workers does, by a gate that they pass together, and by the history that they leave.

ghost use Rattle.std.specs.Prelude.{◌≡◌};

use super::answers::answers;
use super::books::{book_of_bundle, book_of_workers, commits_to};
use super::marks::mark_of;
use super::twenty::{TWENTY, core_with_twenty};
use applier::{Gate, NoGate, WorkersEnd, run_workers};
use commit_ledger::Blanks;
use gtid_text::Gtid;
use replica_core::{Core, Event, Reply};
use serving::Order;
use shared_replica::{ClosedBook, Naming, Pass, SharedReplica, Step, Taking};
use std::alloc::Global;
use std::marker::Brand;
use std::process::Abort;
use std::sync::Wait;
use std::sync::atomic::{AtomicU64, Ordering};
use std::test::Fail;
use std::thread::Threads;

/// A bit for each of the seats 1 to 4.
const FOUR_SEATS: u64 = 0b1_1110;

/// A bit for each of the seats 1 to 8.
const EIGHT_SEATS: u64 = 0b1_1111_1110;

/// Each seat that is about to prepare for the first time waits until all have come so far.
#[derive(Drop)]
struct Assembly {
    all: u64,
    came: AtomicU64,
    /// The seats that have committed, a bit for each.
    seats: AtomicU64,
    /// How many transactions were committed.
    committed: AtomicU64,
}

impl Assembly {
    /// These seats are to come, a bit for each.
    fn of(all: u64) -> Assembly {
        Assembly {
            all,
            came: AtomicU64::new(0),
            seats: AtomicU64::new(0),
            committed: AtomicU64::new(0),
        }
    }

    /// Whether all seats have come, and all have committed.
    fn is_complete(&self) -> bool {
        self.came.load(Ordering::SeqCst) == self.all
            && self.seats.load(Ordering::SeqCst) == self.all
    }
}

impl Gate for Assembly {
    fn before_prepare(&self, seat: u8, _gtid: Gtid) {
        let mark = mark_of(seat);
        if self.came.fetch_or(mark, Ordering::SeqCst) & mark != 0 {
            return;
        }
        for _ in 0..1_000_000_000u64 {
            if self.came.load(Ordering::SeqCst) == self.all {
                return;
            }
        }
    }

    fn after_commit(&self, seat: u8, _gtid: Gtid) {
        self.seats.fetch_or(mark_of(seat), Ordering::SeqCst);
        self.committed.fetch_add(1, Ordering::SeqCst);
    }
}

/// Of four workers each takes a transaction before any has committed one, and each commits some.
#[test]
fn each_of_four_commits(rt: HostRuntime) -> Result<(), Fail> {
    let alloc = rt.alloc();
    let core = core_with_twenty(alloc)?;
    let gate = Assembly::of(FOUR_SEATS);
    let book = book_of_workers(&rt, alloc, core, 4, &gate);
    assert_eq!(rt; commits_to(alloc, book, TWENTY), Some(20));
    assert!(rt; gate.is_complete());
    Ok(())
}

/// A bundle of eight transactions without a common key.
const EIGHT_INSERTS: &str = "bundle 1
replica cccccccc-cccc-cccc-cccc-cccccccccccc
table t 1 pk 0
channel x
journal 1
previous -
txn aaaaaaaa-aaaa-aaaa-aaaa-aaaaaaaaaaaa:1
ins t 1
end
txn aaaaaaaa-aaaa-aaaa-aaaa-aaaaaaaaaaaa:2
ins t 2
end
txn aaaaaaaa-aaaa-aaaa-aaaa-aaaaaaaaaaaa:3
ins t 3
end
txn aaaaaaaa-aaaa-aaaa-aaaa-aaaaaaaaaaaa:4
ins t 4
end
txn aaaaaaaa-aaaa-aaaa-aaaa-aaaaaaaaaaaa:5
ins t 5
end
txn aaaaaaaa-aaaa-aaaa-aaaa-aaaaaaaaaaaa:6
ins t 6
end
txn aaaaaaaa-aaaa-aaaa-aaaa-aaaaaaaaaaaa:7
ins t 7
end
txn aaaaaaaa-aaaa-aaaa-aaaa-aaaaaaaaaaaa:8
ins t 8
end
close
done
";

/// What the eight transactions leave.
const EIGHT_ROWS: &str = "executed aaaaaaaa-aaaa-aaaa-aaaa-aaaaaaaaaaaa:1-8
row t 1
row t 2
row t 3
row t 4
row t 5
row t 6
row t 7
row t 8
";

/// Of eight workers each takes one of eight transactions before any is committed, and each commits one.
#[test]
fn each_of_eight_commits_one(rt: HostRuntime) -> Result<(), Fail> {
    let alloc = rt.alloc();
    let gate = Assembly::of(EIGHT_SEATS);
    let book = book_of_bundle(&rt, alloc, EIGHT_INSERTS, Order::BySource, 8, &gate);
    assert_eq!(rt; commits_to(alloc, book, EIGHT_ROWS), Some(8));
    assert_eq!(rt; gate.committed.load(Ordering::SeqCst), 8);
    assert!(rt; gate.is_complete());
    let gate = Assembly::of(EIGHT_SEATS);
    assert!(rt;
        answers(
            &rt,
            alloc,
            EIGHT_INSERTS,
            Order::BySource,
            8,
            &gate,
            EIGHT_ROWS
        )
    );
    assert_eq!(rt; gate.committed.load(Ordering::SeqCst), 8);
    assert!(rt; gate.is_complete());
    Ok(())
}

/// The seat takes the first transaction of the first channel.
fn take_first<N: Naming, R: Wait>(
    rt: &R,
    alloc: Global,
    replica: &SharedReplica<N>,
    pass: &mut Pass<N>,
) -> bool {
    matches!(replica.take(rt, alloc, pass, 0, 0), Ok(Reply::Taken(_)))
}

/// Whether it is a rollback of a seat's transaction.
fn is_rollback(step: &Step, seat: u8) -> bool {
    matches!(&step.event, Event::Rollback(who) if *who == seat)
        && matches!(&step.reply, Reply::RolledBack(_))
}

/// How often a seat rolled its transaction back.
fn count_rollbacks(book: &ClosedBook, seat: u8) -> usize {
    book.steps()
        .iter()
        .filter(|step| is_rollback(step, seat))
        .count()
}

/// How often the first seat, which owns a transaction when the workers begin, rolled it back; None where
/// the workers did not end with all twenty commits.
fn rollbacks_of_first<N: Naming + Send + Sync, R: Threads + Wait + Abort + Sync>(
    rt: &R,
    alloc: Global,
    blanks: Blanks,
    core: Core,
) -> Result<Option<usize>, Fail>
    requires steps { (blanks.steps.name ≡ N.steps_name) × (blanks.steps.parts ≡ N.seats) }
    requires commits { (blanks.commits.name ≡ N.commits_name) × (blanks.commits.parts ≡ N.seats) }
    requires opening { core ≡ N.opening }
    requires two { N.seats ≡ 2 }
{
    let Ok((replica, mut passes)) = SharedReplica::<N>::open(alloc, blanks, core, 2) else {
        return Err(Fail::from("no memory"));
    };
    let has_taken = match passes.as_mut_slice() {
        [first, ..] => take_first(rt, alloc, &replica, first),
        [] => false,
    };
    assert!(rt; has_taken);
    let WorkersEnd { passes, fault } = run_workers(rt, alloc, &replica, passes, &NoGate);
    assert!(rt; fault.is_none());
    let Ok(book) = replica.close(passes) else {
        return Ok(None);
    };
    let count = count_rollbacks(&book, 1);
    let commits = commits_to(alloc, Some(book), TWENTY);
    Ok((commits == Some(20)).then_some(count))
}

/// A seat that owns a transaction when the workers begin rolls it back, once, and it is committed all the
/// same.
#[test]
fn a_seat_that_owns_lets_go(rt: HostRuntime) -> Result<(), Fail> {
    let alloc = rt.alloc();
    let core = core_with_twenty(alloc)?;
    let count = rollbacks_of_first::<Brand, _>(&rt, alloc, Blanks::new(2), core)?;
    assert_eq!(rt; count, Some(1));
    Ok(())
}

/// Whether a take that prepares so many changes at least gives what it takes to prepare the first
/// transaction, which is then rolled back; None where it isn't taken.
fn is_prepared<N: Naming, R: Wait>(
    rt: &R,
    alloc: Global,
    replica: &SharedReplica<N>,
    pass: &mut Pass<N>,
    least: usize,
) -> Result<Option<bool>, Fail> {
    let Taking { reply, footprint } = replica.take_to_prepare(rt, alloc, pass, 0, 0, least)?;
    let is_taken = matches!(reply, Reply::Taken(_));
    drop(replica.rollback(rt, alloc, pass)?);
    Ok(is_taken.then_some(footprint.is_some()))
}

fn prepares_from<N: Naming, R: Wait>(
    rt: &R,
    alloc: Global,
    blanks: Blanks,
    core: Core,
) -> Result<(Option<bool>, Option<bool>), Fail>
    requires steps { (blanks.steps.name ≡ N.steps_name) × (blanks.steps.parts ≡ N.seats) }
    requires commits { (blanks.commits.name ≡ N.commits_name) × (blanks.commits.parts ≡ N.seats) }
    requires opening { core ≡ N.opening }
    requires one { N.seats ≡ 1 }
{
    let Ok((replica, mut passes)) = SharedReplica::<N>::open(alloc, blanks, core, 1) else {
        return Err(Fail::from("no memory"));
    };
    let [first, ..] = passes.as_mut_slice() else {
        return Err(Fail::from("no pass"));
    };
    let none = is_prepared(rt, alloc, &replica, first, 0)?;
    let one = is_prepared(rt, alloc, &replica, first, 1)?;
    Ok((none, one))
}

/// A transaction of no changes is prepared where none are asked for, and not where one is.
#[test]
fn few_changes_are_not_prepared(rt: HostRuntime) -> Result<(), Fail> {
    let alloc = rt.alloc();
    let core = core_with_twenty(alloc)?;
    let found = prepares_from::<Brand, _>(&rt, alloc, Blanks::new(1), core)?;
    assert_eq!(rt; found, (Some(true), Some(false)));
    Ok(())
}
