//! What a source without a UUID sends to a replica that asks.

use crate::sources::bundle;
use auto_position::plan;
use gtid_set::GtidSet;
use journal::Journal;
use std::alloc::Global;
use std::test::Fail;

/// Whether a source without a UUID sends to the set of A:2 and A:9 the places of A:1 and A:3.
fn sends_the_rest(alloc: Global, journal: &Journal) -> bool {
    match GtidSet::from_text(alloc, "aaaaaaaa-aaaa-aaaa-aaaa-aaaaaaaaaaaa:2:9") {
        Ok(ask) => match plan(alloc, None, journal, &ask) {
            Ok(places) => places.as_slice() == [0u64, 2].as_slice(),
            Err(_) => false,
        },
        Err(_) => false,
    }
}

/// No GTID is the source's own, so the replica never has more of them.
#[test]
fn a_source_that_nobody_names_sends_what_is_asked(rt: HostRuntime) -> Result<(), Fail> {
    let alloc = rt.alloc();
    let bundle = bundle(alloc)?;
    let sends = bundle
        .journals()
        .iter()
        .take(1)
        .any(|journal| sends_the_rest(alloc, journal));
    assert!(rt; sends);
    Ok(())
}
