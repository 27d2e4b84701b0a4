//! The world of a bundle, by the audit of its journals in it.

use super::merges::{ONE_ROW_IN_ORDER, THREE_CHANNELS};
use audit::audit;
use gtid_report::render_verdict;
use serving::world_of;
use std::alloc::Global;
use std::test::Fail;
use txn_journal::{Bundle, decode_bundle};
use world::Verdict;

/// The verdict on a bundle's journals, where sources may share no key.
fn verdict_on(alloc: Global, bundle: &Bundle) -> Option<Verdict> {
    match world_of(alloc, bundle) {
        Ok(world) => audit(alloc, &world, bundle.journals()).ok(),
        Err(_) => None,
    }
}

/// Whether the line of the verdict on a bundle is this.
fn has_verdict(alloc: Global, text: &str, line: &str) -> bool {
    let Ok(bundle) = decode_bundle(alloc, text.as_bytes()) else {
        return false;
    };
    match verdict_on(alloc, &bundle) {
        Some(verdict) => {
            matches!(render_verdict(alloc, &verdict), Ok(found) if found.as_str() == line)
        }
        None => false,
    }
}

/// Journals that can be merged, and those of two sources that write one row.
#[test]
fn verdicts_in_the_world_of_a_bundle(rt: HostRuntime) -> Result<(), Fail> {
    let alloc = rt.alloc();
    let shared =
        "shared aaaaaaaa-aaaa-aaaa-aaaa-aaaaaaaaaaaa:1 bbbbbbbb-bbbb-bbbb-bbbb-bbbbbbbbbbbb:1 t 0 1";
    assert!(rt; has_verdict(alloc, THREE_CHANNELS, "sound"));
    assert!(rt; has_verdict(alloc, ONE_ROW_IN_ORDER, shared));
    Ok(())
}
