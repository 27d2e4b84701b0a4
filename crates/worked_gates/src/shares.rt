//! Threads that apply shares of the sources.

use super::answers::merges_by_gate;
use serving::Order;
use source_shares::ShareGate;
use std::sync::atomic::{AtomicU64, Ordering};
use std::test::Fail;

/// The first share that begins waits until another was applied.
#[derive(Drop)]
struct Overlap {
    /// How many shares have begun.
    begun: AtomicU64,
    /// How many shares were applied.
    applied: AtomicU64,
    /// 1 where the share that waited saw that another was applied.
    met: AtomicU64,
}

impl ShareGate for Overlap {
    fn before_share(&self, _share: usize) {
        if self.begun.fetch_add(1, Ordering::SeqCst) != 0 {
            return;
        }
        for _ in 0..1_000_000_000u64 {
            if self.applied.load(Ordering::SeqCst) != 0 {
                self.met.store(1, Ordering::SeqCst);
                return;
            }
        }
    }

    fn after_share(&self, _share: usize) {
        self.applied.fetch_add(1, Ordering::SeqCst);
    }
}

/// A bundle of two channels. Each brings transactions of a source of its own, and the second also one that the first has brought.
const TWO_SOURCES: &str = "bundle 1
replica cccccccc-cccc-cccc-cccc-cccccccccccc
table t 3 pk 0 uk 1
channel x
journal 1
previous -
txn aaaaaaaa-aaaa-aaaa-aaaa-aaaaaaaaaaaa:1
ins t 1 x61 null
end
txn aaaaaaaa-aaaa-aaaa-aaaa-aaaaaaaaaaaa:2
del t 1 x61 null
ins t 3 x61 null
end
close
channel y
journal 1
previous -
txn bbbbbbbb-bbbb-bbbb-bbbb-bbbbbbbbbbbb:1
ins t 2 x62 null
end
txn aaaaaaaa-aaaa-aaaa-aaaa-aaaaaaaaaaaa:1
ins t 1 x61 null
end
close
done
";

/// What the two sources leave.
const BOTH_SOURCES: &str =
    "executed aaaaaaaa-aaaa-aaaa-aaaa-aaaaaaaaaaaa:1-2,bbbbbbbb-bbbb-bbbb-bbbb-bbbbbbbbbbbb:1
row t 2 x62 null
row t 3 x61 null
";

/// Two sources that share no key are two shares, one of which is applied while the other is under way; the answer is all of both.
#[test]
fn two_shares_are_applied_at_once(rt: HostRuntime) -> Result<(), Fail> {
    let alloc = rt.alloc();
    let gate = Overlap {
        begun: AtomicU64::new(0),
        applied: AtomicU64::new(0),
        met: AtomicU64::new(0),
    };
    assert!(rt;
        merges_by_gate(
            &rt,
            alloc,
            TWO_SOURCES,
            Order::BySource,
            2,
            &gate,
            BOTH_SOURCES
        )
    );
    assert_eq!(rt; gate.begun.load(Ordering::SeqCst), 2);
    assert_eq!(rt; gate.applied.load(Ordering::SeqCst), 2);
    assert_eq!(rt; gate.met.load(Ordering::SeqCst), 1);
    Ok(())
}
