//! Audits over an opening set, which a bundle of version 1 does not have, and over the world of other journals.

use audit::{audit, world_of};
use gtid_report::render_verdict;
use gtid_set::GtidSet;
use journal::Journal;
use std::alloc::{AllocError, Global};
use std::test::Fail;
use txn_journal::{Bundle, decode_bundle};
use world::Verdict;

const A1: &str = "txn aaaaaaaa-aaaa-aaaa-aaaa-aaaaaaaaaaaa:1\nins t 11\nend\n";

const A1_OTHERWISE: &str = "txn aaaaaaaa-aaaa-aaaa-aaaa-aaaaaaaaaaaa:1\nins t 12\nend\n";

const A3: &str = "txn aaaaaaaa-aaaa-aaaa-aaaa-aaaaaaaaaaaa:3\nins t 3\nend\n";

const A1_AND_A3: &str =
    "txn aaaaaaaa-aaaa-aaaa-aaaa-aaaaaaaaaaaa:1\nins t 11\nend\ntxn aaaaaaaa-aaaa-aaaa-aaaa-aaaaaaaaaaaa:3\nins t 3\nend\n";

/// A bundle whose one journal has these entries after this previous set.
fn text(alloc: Global, previous: &str, entries: &str) -> Result<String, AllocError> {
    let mut text = String::from_str(
        alloc,
        "bundle 1\nreplica cccccccc-cccc-cccc-cccc-cccccccccccc\ntable t 1 pk 0\nrow t 1\nchannel x\njournal 1\nprevious ",
    )?;
    text.push_str(previous)?;
    text.push_str("\n")?;
    text.push_str(entries)?;
    text.push_str("close\ndone\n")?;
    Ok(text)
}

/// What the audit of journals finds in the world of a bundle, where this set is executed from the start.
fn audit_verdict(
    alloc: Global,
    bundle: &Bundle,
    opened: &GtidSet,
    journals: &[Journal],
) -> Option<Verdict> {
    match world_of(alloc, opened, bundle.rows(), bundle.journals()) {
        Ok(world) => audit(alloc, &world, journals).ok(),
        Err(_) => None,
    }
}

/// Whether the printed line of a verdict is this.
fn is_printed(alloc: Global, verdict: &Verdict, want: &str) -> bool {
    match render_verdict(alloc, verdict) {
        Ok(line) => line.as_str() == want,
        Err(_) => false,
    }
}

/// Whether the printed verdict of the audit over this opening set is this.
fn has_verdict(alloc: Global, bundle: &Bundle, opened: &str, want: &str) -> bool {
    match GtidSet::from_text(alloc, opened) {
        Ok(opened) => match audit_verdict(alloc, bundle, &opened, bundle.journals()) {
            Some(verdict) => is_printed(alloc, &verdict, want),
            None => false,
        },
        Err(_) => false,
    }
}

/// Whether the printed verdict of the audit of these entries' journal, in the world of a bundle, is this.
fn has_verdict_of(alloc: Global, bundle: &Bundle, entries: &str, want: &str) -> bool {
    let Ok(text) = text(alloc, "-", entries) else {
        return false;
    };
    let Ok(other) = decode_bundle(alloc, text.as_bytes()) else {
        return false;
    };
    match audit_verdict(alloc, bundle, &GtidSet::empty(alloc), other.journals()) {
        Some(verdict) => is_printed(alloc, &verdict, want),
        None => false,
    }
}

/// A journal of A:3 after A:1 and A:2.
#[test]
fn what_was_purged_may_be_executed_from_the_start(rt: HostRuntime) -> Result<(), Fail> {
    let alloc = rt.alloc();
    let text = text(alloc, "aaaaaaaa-aaaa-aaaa-aaaa-aaaaaaaaaaaa:1-2", A3)?;
    let bundle = decode_bundle(alloc, text.as_bytes())?;
    let said = has_verdict(
        alloc,
        &bundle,
        "",
        "purged 0 aaaaaaaa-aaaa-aaaa-aaaa-aaaaaaaaaaaa:1-2",
    ) && has_verdict(
        alloc,
        &bundle,
        "aaaaaaaa-aaaa-aaaa-aaaa-aaaaaaaaaaaa:2",
        "purged 0 aaaaaaaa-aaaa-aaaa-aaaa-aaaaaaaaaaaa:1",
    ) && has_verdict(
        alloc,
        &bundle,
        "aaaaaaaa-aaaa-aaaa-aaaa-aaaaaaaaaaaa:1-2",
        "sound",
    ) && has_verdict(
        alloc,
        &bundle,
        "aaaaaaaa-aaaa-aaaa-aaaa-aaaaaaaaaaaa:1-3",
        "sound",
    );
    assert!(rt; said);
    Ok(())
}

/// A journal of A:3 after nothing.
#[test]
fn what_is_executed_from_the_start_is_not_missing(rt: HostRuntime) -> Result<(), Fail> {
    let alloc = rt.alloc();
    let text = text(alloc, "-", A3)?;
    let bundle = decode_bundle(alloc, text.as_bytes())?;
    let said = has_verdict(
        alloc,
        &bundle,
        "",
        "missing aaaaaaaa-aaaa-aaaa-aaaa-aaaaaaaaaaaa:1",
    ) && has_verdict(
        alloc,
        &bundle,
        "aaaaaaaa-aaaa-aaaa-aaaa-aaaaaaaaaaaa:1",
        "missing aaaaaaaa-aaaa-aaaa-aaaa-aaaaaaaaaaaa:2",
    ) && has_verdict(
        alloc,
        &bundle,
        "aaaaaaaa-aaaa-aaaa-aaaa-aaaaaaaaaaaa:1-2",
        "sound",
    );
    assert!(rt; said);
    Ok(())
}

/// In the world of A:1 and A:3 journals that have less, or another A:1.
#[test]
fn a_world_may_be_that_of_other_journals(rt: HostRuntime) -> Result<(), Fail> {
    let alloc = rt.alloc();
    let text = text(alloc, "-", A1_AND_A3)?;
    let bundle = decode_bundle(alloc, text.as_bytes())?;
    let said = has_verdict_of(alloc, &bundle, "", "sound")
        && has_verdict_of(alloc, &bundle, A1, "sound")
        && has_verdict_of(
            alloc,
            &bundle,
            A1_OTHERWISE,
            "unequal aaaaaaaa-aaaa-aaaa-aaaa-aaaaaaaaaaaa:1",
        )
        && has_verdict_of(
            alloc,
            &bundle,
            A3,
            "missing aaaaaaaa-aaaa-aaaa-aaaa-aaaaaaaaaaaa:1",
        )
        && has_verdict_of(
            alloc,
            &bundle,
            A1_AND_A3,
            "missing aaaaaaaa-aaaa-aaaa-aaaa-aaaaaaaaaaaa:2",
        );
    assert!(rt; said);
    Ok(())
}
