//! Two bundles whose journals have the same transactions of two sources in two orders. Both sources change one row, and change it back.

use super::answers::{answers, merges_to};
use applier::NoGate;
use commands::equal_unions_equal_answers;
use serving::Order;
use std::test::Fail;
use txn_journal::decode_bundle;

/// A bundle with a journal of these entries, in this order.
macro_rules! journal_of {
    ($first:literal, $second:literal) => {
        concat!(
            "bundle 1\n",
            "replica cccccccc-cccc-cccc-cccc-cccccccccccc\n",
            "table account 2 pk 0\n",
            "row account 7 100\n",
            "channel x\n",
            "journal 1\n",
            "previous -\n",
            $first,
            $second,
            "close\n",
            "done\n",
        )
    };
}

/// The first source's change first.
const FORWARD: &str = journal_of!(
    "txn aaaaaaaa-aaaa-aaaa-aaaa-aaaaaaaaaaaa:1\nupd account 7 100 | 7 90\nupd account 7 90 | 7 100\nend\n",
    "txn bbbbbbbb-bbbb-bbbb-bbbb-bbbbbbbbbbbb:1\nupd account 7 100 | 7 120\nupd account 7 120 | 7 100\nend\n"
);

/// The second source's change first.
const BACKWARD: &str = journal_of!(
    "txn bbbbbbbb-bbbb-bbbb-bbbb-bbbbbbbbbbbb:1\nupd account 7 100 | 7 120\nupd account 7 120 | 7 100\nend\n",
    "txn aaaaaaaa-aaaa-aaaa-aaaa-aaaaaaaaaaaa:1\nupd account 7 100 | 7 90\nupd account 7 90 | 7 100\nend\n"
);

/// What both answer.
const STATE: &str = concat!(
    "executed aaaaaaaa-aaaa-aaaa-aaaa-aaaaaaaaaaaa:1,bbbbbbbb-bbbb-bbbb-bbbb-bbbbbbbbbbbb:1\n",
    "row account 7 100\n",
);

/// By either way the two bundles have one answer, as the law says.
#[test]
fn two_orders_have_one_answer(rt: HostRuntime) -> Result<(), Fail> {
    let alloc = rt.alloc();
    let forward = decode_bundle(alloc, FORWARD.as_bytes())?;
    let backward = decode_bundle(alloc, BACKWARD.as_bytes())?;
    equal_unions_equal_answers(&forward, &backward);
    for text in [FORWARD, BACKWARD] {
        assert!(rt; answers(&rt, alloc, text, Order::ByConflict, 2, &NoGate, STATE));
        assert!(rt; merges_to(&rt, alloc, text, Order::ByConflict, 1, STATE));
    }
    Ok(())
}
