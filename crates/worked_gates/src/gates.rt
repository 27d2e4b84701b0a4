//! A worker that waits before it prepares doesn't keep the others from committing.
ghost use Rattle.std.specs.Prelude.{◌≤◌};

use super::answers::answers;
use super::books::{book_of_bundle, book_of_workers, commits_to, served_core};
use super::marks::mark_of;
use super::merges::{THREE_CHANNELS, THREE_IN_ORDER, UNION};
use super::twenty::{TWENTY, core_with_twenty};
use applier::Gate;
use gtid_text::Gtid;
use serving::Order;
use std::alloc::Global;
use std::sync::Wait;
use std::sync::atomic::{AtomicU64, Ordering};
use std::test::Fail;
use std::thread::Threads;

/// The first seat that is about to prepare waits until another has committed.
#[derive(Drop)]
struct Meeting {
    prepared: AtomicU64,
    /// How many transactions were committed.
    committed: AtomicU64,
    /// The seats that have committed, a bit for each.
    seats: AtomicU64,
    /// 1 where the seat that waited saw that another has committed.
    met: AtomicU64,
}

impl Meeting {
    fn new() -> Meeting {
        Meeting {
            prepared: AtomicU64::new(0),
            committed: AtomicU64::new(0),
            seats: AtomicU64::new(0),
            met: AtomicU64::new(0),
        }
    }

    /// Whether the seat that waited saw that another has committed, and at least two seats have committed.
    fn has_met(&self) -> bool {
        self.met.load(Ordering::SeqCst) == 1 && self.seats.load(Ordering::SeqCst).count_ones() >= 2
    }

    /// How many transactions were committed.
    fn count(&self) -> u64 {
        self.committed.load(Ordering::SeqCst)
    }
}

impl Gate for Meeting {
    fn before_prepare(&self, _seat: u8, _gtid: Gtid) {
        if self.prepared.fetch_add(1, Ordering::SeqCst) != 0 {
            return;
        }
        for _ in 0..1_000_000_000u64 {
            if self.committed.load(Ordering::SeqCst) != 0 {
                self.met.store(1, Ordering::SeqCst);
                return;
            }
        }
    }

    fn after_commit(&self, seat: u8, _gtid: Gtid) {
        self.seats.fetch_or(mark_of(seat), Ordering::SeqCst);
        self.committed.fetch_add(1, Ordering::SeqCst);
    }
}

/// Of twenty transactions of one channel.
#[test]
fn workers_run_at_once(rt: HostRuntime) -> Result<(), Fail> {
    let alloc = rt.alloc();
    let core = core_with_twenty(alloc)?;
    let gate = Meeting::new();
    let book = book_of_workers(&rt, alloc, core, 2, &gate);
    assert_eq!(rt; commits_to(alloc, book, TWENTY), Some(20));
    assert_eq!(rt; gate.count(), 20);
    assert!(rt; gate.has_met());
    Ok(())
}

/// A bundle of one channel that brings two transactions without a common key.
const TWO_INSERTS: &str = "bundle 1
replica cccccccc-cccc-cccc-cccc-cccccccccccc
table t 3 pk 0 uk 1
channel x
journal 1
previous -
txn aaaaaaaa-aaaa-aaaa-aaaa-aaaaaaaaaaaa:1
ins t 1 x61 null
end
txn aaaaaaaa-aaaa-aaaa-aaaa-aaaaaaaaaaaa:2
ins t 2 x62 null
end
close
done
";

/// What the two transactions leave.
const BOTH_ROWS: &str = "executed aaaaaaaa-aaaa-aaaa-aaaa-aaaaaaaaaaaa:1-2
row t 1 x61 null
row t 2 x62 null
";

/// Of a bundle of one channel: both apply, nothing is left for the drain, and what comes back is their history.
#[test]
fn two_workers_apply_at_once(rt: HostRuntime) -> Result<(), Fail> {
    let alloc = rt.alloc();
    let gate = Meeting::new();
    let book = book_of_bundle(&rt, alloc, TWO_INSERTS, Order::BySource, 2, &gate);
    assert_eq!(rt; commits_to(alloc, book, BOTH_ROWS), Some(2));
    assert_eq!(rt; gate.count(), 2);
    assert!(rt; gate.has_met());
    Ok(())
}

/// By which call workers apply a bundle.
#[derive(Clone, Copy)]
enum Route {
    /// `run_workers`, over a replica that was served the bundle.
    Served,
    /// `apply_journals`.
    Journals,
    /// `apply_decoded`.
    Decoded,
}

/// Whether so many workers with a gate leave what the three channels bring together. Where they leave a book, it counts the commits that
/// passed the gate.
fn leaves_union<R: Threads + Wait + Sync>(
    rt: &R,
    alloc: Global,
    route: Route,
    text: &str,
    workers: u8,
    gate: &Meeting,
) -> bool
    requires { (1 ≤ workers) × (workers ≤ 64) }
{
    let book = match route {
        Route::Served => match served_core(alloc, text) {
            Some(core) => book_of_workers(rt, alloc, core, workers, gate),
            None => None,
        },
        Route::Journals => book_of_bundle(rt, alloc, text, Order::BySource, workers, gate),
        Route::Decoded => return answers(rt, alloc, text, Order::BySource, workers, gate, UNION),
    };
    commits_to(alloc, book, UNION) == Some(gate.count())
}

/// How many commits of so many workers passed the gate; None where they don't leave what the three channels bring together, or where none
/// has committed while another was held.
fn commits_of<R: Threads + Wait + Sync>(
    rt: &R,
    alloc: Global,
    route: Route,
    text: &str,
    workers: u8,
) -> Option<u64>
    requires { (1 ≤ workers) × (workers ≤ 64) }
{
    let gate = Meeting::new();
    let is_whole = leaves_union(rt, alloc, route, text, workers, &gate);
    (is_whole && gate.has_met()).then_some(gate.count())
}

/// Of a bundle of three channels, which bring some GTIDs twice, each GTID is committed once, and nothing is left for the drain. Where the
/// channels preserve their order, a worker may leave one whose next place another has; the drain does the rest.
#[test]
fn workers_apply_three_channels(rt: HostRuntime) -> Result<(), Fail> {
    let alloc = rt.alloc();
    let routes = [
        ("run_workers", Route::Served),
        ("apply_journals", Route::Journals),
        ("apply_decoded", Route::Decoded),
    ];
    for (name, route) in routes {
        for workers in [2, 64] {
            let plain = commits_of(&rt, alloc, route, THREE_CHANNELS, workers);
            assert_eq!(rt; plain, Some(4), "{name}, {workers} workers");
            let in_order = commits_of(&rt, alloc, route, THREE_IN_ORDER, workers);
            assert!(rt; in_order.is_some(), "{name}, {workers} workers, in order");
        }
    }
    Ok(())
}
