//! What workers leave of several channels: the same for each number of workers, whether the channels preserve their order or not.
use super::answers::{answers, merges_to};
use super::books::{book_of_bundle, commits_to};
use applier::NoGate;
use serving::Order;
use std::test::Fail;

/// A bundle of three channels, which bring some GTIDs twice; the word after the names of the channels is given.
macro_rules! three_channels {
    ($preserve:literal) => {
        concat!(
            "bundle 1\n",
            "replica cccccccc-cccc-cccc-cccc-cccccccccccc\n",
            "table t 3 pk 0 uk 1\n",
            "channel x",
            $preserve,
            "\njournal 1\n",
            "previous -\n",
            "txn aaaaaaaa-aaaa-aaaa-aaaa-aaaaaaaaaaaa:1\n",
            "ins t 1 x61 null\n",
            "end\n",
            "txn aaaaaaaa-aaaa-aaaa-aaaa-aaaaaaaaaaaa:2\n",
            "ins t 2 x62 null\n",
            "end\n",
            "txn aaaaaaaa-aaaa-aaaa-aaaa-aaaaaaaaaaaa:3\n",
            "upd t 1 x61 null | 1 x61 5\n",
            "end\n",
            "txn bbbbbbbb-bbbb-bbbb-bbbb-bbbbbbbbbbbb:1\n",
            "ins t 3 x63 null\n",
            "end\n",
            "close\n",
            "channel y",
            $preserve,
            "\njournal 1\n",
            "previous -\n",
            "txn bbbbbbbb-bbbb-bbbb-bbbb-bbbbbbbbbbbb:1\n",
            "ins t 3 x63 null\n",
            "end\n",
            "txn aaaaaaaa-aaaa-aaaa-aaaa-aaaaaaaaaaaa:1\n",
            "ins t 1 x61 null\n",
            "end\n",
            "close\n",
            "channel z",
            $preserve,
            "\njournal 1\n",
            "previous -\n",
            "txn aaaaaaaa-aaaa-aaaa-aaaa-aaaaaaaaaaaa:2\n",
            "ins t 2 x62 null\n",
            "end\n",
            "close\n",
            "done\n",
        )
    };
}

/// The bundle whose channels don't preserve their order.
pub(crate) const THREE_CHANNELS: &str = three_channels!("");

/// The bundle whose channels preserve their order.
pub(crate) const THREE_IN_ORDER: &str = three_channels!(" preserve");

/// What the three channels bring together.
pub(crate) const UNION: &str =
    "executed aaaaaaaa-aaaa-aaaa-aaaa-aaaaaaaaaaaa:1-3,bbbbbbbb-bbbb-bbbb-bbbb-bbbbbbbbbbbb:1
row t 1 x61 5
row t 2 x62 null
row t 3 x63 null
";

/// By the fast way the answer is that state, whether the channels preserve their order or not.
#[test]
fn shares_answer_the_union(rt: HostRuntime) -> Result<(), Fail> {
    let alloc = rt.alloc();
    for workers in [2, 64] {
        for text in [THREE_CHANNELS, THREE_IN_ORDER] {
            let merges_so = merges_to(&rt, alloc, text, Order::BySource, workers, UNION);
            assert!(rt; merges_so, "{workers} workers");
        }
    }
    Ok(())
}

/// A bundle whose two sources write one row, in one order in both journals.
pub(crate) const ONE_ROW_IN_ORDER: &str = "bundle 1
replica cccccccc-cccc-cccc-cccc-cccccccccccc
table t 3 pk 0 uk 1
channel x
journal 1
previous -
txn aaaaaaaa-aaaa-aaaa-aaaa-aaaaaaaaaaaa:1
ins t 1 x61 null
end
txn bbbbbbbb-bbbb-bbbb-bbbb-bbbbbbbbbbbb:1
upd t 1 x61 null | 1 x61 5
end
txn aaaaaaaa-aaaa-aaaa-aaaa-aaaaaaaaaaaa:2
ins t 2 x62 null
end
close
channel y
journal 1
previous -
txn aaaaaaaa-aaaa-aaaa-aaaa-aaaaaaaaaaaa:1
ins t 1 x61 null
end
txn bbbbbbbb-bbbb-bbbb-bbbb-bbbbbbbbbbbb:1
upd t 1 x61 null | 1 x61 5
end
txn bbbbbbbb-bbbb-bbbb-bbbb-bbbbbbbbbbbb:2
ins t 3 x63 null
end
close
done
";

/// What the two sources leave.
const ONE_ROW_OF_BOTH: &str =
    "executed aaaaaaaa-aaaa-aaaa-aaaa-aaaaaaaaaaaa:1-2,bbbbbbbb-bbbb-bbbb-bbbb-bbbbbbbbbbbb:1-2
row t 1 x61 5
row t 2 x62 null
row t 3 x63 null
";

/// Sources that share a key are applied by workers where the audit asks for one order of what shares a key; else there is a verdict.
#[test]
fn workers_apply_by_conflict(rt: HostRuntime) -> Result<(), Fail> {
    let alloc = rt.alloc();
    for workers in [2, 64] {
        let book = book_of_bundle(
            &rt,
            alloc,
            ONE_ROW_IN_ORDER,
            Order::ByConflict,
            workers,
            &NoGate,
        );
        assert_eq!(rt;
            commits_to(alloc, book, ONE_ROW_OF_BOTH),
            Some(4),
            "{workers} workers"
        );
        let none = book_of_bundle(
            &rt,
            alloc,
            ONE_ROW_IN_ORDER,
            Order::BySource,
            workers,
            &NoGate,
        );
        assert!(rt; none.is_none(), "{workers} workers");
        let answers_so = answers(
            &rt,
            alloc,
            ONE_ROW_IN_ORDER,
            Order::ByConflict,
            workers,
            &NoGate,
            ONE_ROW_OF_BOTH,
        );
        assert!(rt; answers_so, "{workers} workers");
    }
    Ok(())
}
