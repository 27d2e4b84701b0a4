//! The ends of runs of numbers, and sets that grow.

use crate::sources::{A, B};
use gtid_set::GtidSet;
use gtid_text::{Gtid, SourceId};
use std::test::Fail;

#[test]
fn end_of_a_run(rt: HostRuntime) -> Result<(), Fail> {
    let text =
        "aaaaaaaa-aaaa-aaaa-aaaa-aaaaaaaaaaaa:2-3:5:7-9,bbbbbbbb-bbbb-bbbb-bbbb-bbbbbbbbbbbb:4";
    let set = GtidSet::from_text(rt.alloc(), text)?;
    let cases = [
        (A, 1, None),
        (A, 2, Some(3)),
        (A, 3, Some(3)),
        (A, 4, None),
        (A, 5, Some(5)),
        (A, 8, Some(9)),
        (A, 10, None),
        (B, 4, Some(4)),
        (B, 8, None),
    ];
    for (source, number, want) in cases {
        let last = set.run_end(SourceId::from_bits(source), number);
        assert_eq!(rt; last, want, "from {number}");
    }
    Ok(())
}

/// Sets that grow at the ends of two sources by turns, over many gaps and then over one run, keep their numbers.
#[test]
fn two_sources_by_turns(rt: HostRuntime) -> Result<(), Fail> {
    let mut set = GtidSet::empty(rt.alloc());
    for number in (1..400u64).step_by(2).chain(400..800u64) {
        for source in [A, B] {
            let source = SourceId::from_bits(source);
            set.add(Gtid { source, number })?;
        }
    }
    assert_eq!(rt; set.count(), 1200);
    for source in [A, B] {
        let source = SourceId::from_bits(source);
        assert_eq!(rt; set.run_end(source, 397), Some(397));
        assert_eq!(rt; set.run_end(source, 399), Some(799));
        assert_eq!(rt; set.least_unused(source), Some(2));
    }
    Ok(())
}

/// The least unused number of a source: behind its first run, and none where it has all numbers.
#[test]
fn least_number_that_is_left(rt: HostRuntime) -> Result<(), Fail> {
    let source = SourceId::from_bits(A);
    let cases = [
        ("", Some(1)),
        ("aaaaaaaa-aaaa-aaaa-aaaa-aaaaaaaaaaaa:2-3", Some(1)),
        ("aaaaaaaa-aaaa-aaaa-aaaa-aaaaaaaaaaaa:1-3:7", Some(4)),
        (
            "aaaaaaaa-aaaa-aaaa-aaaa-aaaaaaaaaaaa:1-9223372036854775807",
            None,
        ),
    ];
    for (text, want) in cases {
        let set = GtidSet::from_text(rt.alloc(), text)?;
        assert_eq!(rt; set.least_unused(source), want, "{text}");
    }
    Ok(())
}
