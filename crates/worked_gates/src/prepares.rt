//! A worker prepares a transaction of many changes without the lock, and one of few under it.

use super::books::{book_of_bundle, commits_to};
use applier::Gate;
use gtid_text::Gtid;
use serving::Order;
use std::sync::Wait;
use std::sync::atomic::{AtomicU64, Ordering};
use std::test::Fail;
use std::thread::Threads;

/// How many transactions were prepared without the lock, and how many were committed.
#[derive(Drop)]
struct Count {
    prepared: AtomicU64,
    committed: AtomicU64,
}

impl Gate for Count {
    fn before_prepare(&self, _seat: u8, _gtid: Gtid) {}

    fn after_prepare(&self, _seat: u8) {
        self.prepared.fetch_add(1, Ordering::SeqCst);
    }

    fn after_commit(&self, _seat: u8, _gtid: Gtid) {
        self.committed.fetch_add(1, Ordering::SeqCst);
    }
}

/// A bundle of one channel with a transaction of eight changes, one of seven, and one of one.
const EIGHT_SEVEN_ONE: &str = "bundle 1
replica cccccccc-cccc-cccc-cccc-cccccccccccc
table t 2 pk 0
channel x
journal 1
previous -
txn aaaaaaaa-aaaa-aaaa-aaaa-aaaaaaaaaaaa:1
ins t 1 null
ins t 2 null
ins t 3 null
ins t 4 null
ins t 5 null
ins t 6 null
ins t 7 null
ins t 8 null
end
txn aaaaaaaa-aaaa-aaaa-aaaa-aaaaaaaaaaaa:2
ins t 11 null
ins t 12 null
ins t 13 null
ins t 14 null
ins t 15 null
ins t 16 null
ins t 17 null
end
txn aaaaaaaa-aaaa-aaaa-aaaa-aaaaaaaaaaaa:3
ins t 21 null
end
close
done
";

/// What the three transactions leave.
const SIXTEEN_ROWS: &str = "executed aaaaaaaa-aaaa-aaaa-aaaa-aaaaaaaaaaaa:1-3
row t 1 null
row t 2 null
row t 3 null
row t 4 null
row t 5 null
row t 6 null
row t 7 null
row t 8 null
row t 11 null
row t 12 null
row t 13 null
row t 14 null
row t 15 null
row t 16 null
row t 17 null
row t 21 null
";

/// Of transactions of eight, seven and one changes the first alone is prepared without the lock, and committed by its patch; all three
/// are committed.
#[test]
fn eight_changes_are_prepared(rt: HostRuntime) -> Result<(), Fail> {
    let alloc = rt.alloc();
    let gate = Count {
        prepared: AtomicU64::new(0),
        committed: AtomicU64::new(0),
    };
    let book = book_of_bundle(&rt, alloc, EIGHT_SEVEN_ONE, Order::BySource, 2, &gate);
    assert_eq!(rt; commits_to(alloc, book, SIXTEEN_ROWS), Some(3));
    assert_eq!(rt; gate.committed.load(Ordering::SeqCst), 3);
    assert_eq!(rt; gate.prepared.load(Ordering::SeqCst), 1);
    Ok(())
}
