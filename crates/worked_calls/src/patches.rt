//! Patches of an insert that were prepared over rows without it: installed where no row has come under its keys, and stale elsewhere.
ghost use Rattle.std.specs.Prelude.{◌≡◌, IfOk};
ghost use Rattle.rows.specs.Patch.{SeesAll};

use crate::calls::{SeatCall, replies};
use crate::histories::core_without_rows;
use crate::seats::{is_installed, prepare_held};
use crate::sources::{bundle, first_entries};
use commit_ledger::Blanks;
use journal::Entry;
use replica_core::Core;
use rows::{Rows, Transaction, fits};
use shared_replica::{Naming, Pass, SharedReplica};
use std::alloc::{AllocError, Global};
use std::marker::Brand;
use std::sync::Wait;
use std::test::Fail;
use txn_journal::{Bundle, decode_bundle};
use write_set::{
    Footprint, InstallOutcome, Patch, footprint, install, keys_of, prepare, share_key,
};

/// A bundle of these lines.
macro_rules! bundle_of {
    ($lines:literal) => {
        concat!(
            "bundle 1\n",
            "replica cccccccc-cccc-cccc-cccc-cccccccccccc\n",
            $lines,
            "done\n",
        )
    };
}

/// No rows, and an insert.
const INSERT: &str = bundle_of!(
    "table t 3 pk 0 uk 1\nchannel x\njournal 1\nprevious -\ntxn aaaaaaaa-aaaa-aaaa-aaaa-aaaaaaaaaaaa:1\nins t 1 x61 null\nend\nclose\n"
);

/// Another row.
const OTHER: &str = bundle_of!("table t 3 pk 0 uk 1\nrow t 2 x62 null\n");

/// Another row, and what the insert leaves.
const BOTH: &str = bundle_of!("table t 3 pk 0 uk 1\nrow t 1 x61 null\nrow t 2 x62 null\n");

/// A row that has the insert's keys.
const TAKEN: &str = bundle_of!("table t 3 pk 0 uk 1\nrow t 1 x61 5\n");

/// No rows, in a table without the unique key.
const WITHOUT_KEY: &str = bundle_of!("table t 3 pk 0\n");

/// The rows of a bundle.
fn rows_of(alloc: Global, text: &str) -> Option<Rows> {
    let bundle = decode_bundle(alloc, text.as_bytes()).ok()?;
    bundle.rows().copy().ok()
}

/// The keys of a transaction with the rows that carry them.
fn see(alloc: Global, rows: &Rows, txn: &Transaction) -> Result<Footprint, AllocError>
    ensures schema { IfOk result (λ seen. seen.schema ≡ rows.now.schema) }
    ensures all { IfOk result (λ seen. SeesAll rows.now.schema txn.now seen.seen) }
{
    let keys = keys_of(alloc, rows.schema(), txn)?;
    footprint(alloc, rows, keys)
}

/// A transaction, prepared over rows; None where it does not apply to them.
fn prepare_over(alloc: Global, rows: &Rows, txn: &Transaction) -> Option<Patch> {
    let Ok(seen) = see(alloc, rows, txn) else {
        return None;
    };
    if fits(rows.schema(), txn).is_err() {
        return None;
    }
    let Ok(txn) = txn.clone() else {
        return None;
    };
    prepare(alloc, txn, seen).ok()
}

/// The insert, prepared over no rows.
fn patch_of_insert(alloc: Global) -> Option<Patch> {
    let bundle = decode_bundle(alloc, INSERT.as_bytes()).ok()?;
    let entry = first_entries(&bundle).first()?;
    prepare_over(alloc, bundle.rows(), &entry.txn)
}

/// Whether the insert's patch has this outcome on the rows of a bundle, which are then those of another.
fn has_outcome(alloc: Global, before: &str, want: InstallOutcome, after: &str) -> bool {
    let Some(patch) = patch_of_insert(alloc) else {
        return false;
    };
    match (rows_of(alloc, before), rows_of(alloc, after)) {
        (Some(mut rows), Some(after)) => {
            matches!(install(&mut rows, patch), Ok(found) if found == want) && rows.is_equal(&after)
        }
        _ => false,
    }
}

/// It is installed beside another row; it is stale, and changes nothing, where a row has its keys, and where the table has another key.
#[test]
fn a_patch_of_an_insert(rt: HostRuntime) -> Result<(), Fail> {
    let alloc = rt.alloc();
    assert!(rt; has_outcome(alloc, OTHER, InstallOutcome::Installed, BOTH));
    assert!(rt; has_outcome(alloc, TAKEN, InstallOutcome::Stale, TAKEN));
    assert!(rt; has_outcome(alloc, WITHOUT_KEY, InstallOutcome::Stale, WITHOUT_KEY));
    Ok(())
}

/// How many keys a transaction touches, and which is the first of them that another one touches too, by its number.
fn count_and_shared(
    alloc: Global,
    rows: &Rows,
    first: &Entry,
    second: &Entry,
) -> Option<(usize, Option<u32>)> {
    let ours = keys_of(alloc, rows.schema(), &first.txn).ok()?;
    let theirs = keys_of(alloc, rows.schema(), &second.txn).ok()?;
    let shared = share_key(&ours, &theirs).map(|key| key.index);
    Some((ours.len(), shared))
}

/// Whether an update of a row touches the keys of its insert, and the insert of another row none of them.
fn share_keys(alloc: Global, bundle: &Bundle) -> bool {
    match first_entries(bundle) {
        [first, second, third] => {
            count_and_shared(alloc, bundle.rows(), first, third) == Some((2, Some(0)))
                && count_and_shared(alloc, bundle.rows(), first, second) == Some((2, None))
        }
        _ => false,
    }
}

#[test]
fn keys_of_transactions(rt: HostRuntime) -> Result<(), Fail> {
    let alloc = rt.alloc();
    let bundle = bundle(alloc)?;
    assert!(rt; share_keys(alloc, &bundle));
    Ok(())
}

/// What a seat needs to prepare the entry that it is to take.
const HELD: [(usize, SeatCall); 4] = [
    (0, SeatCall::Open),
    (0, SeatCall::Position),
    (0, SeatCall::Receive(0)),
    (0, SeatCall::Take(0)),
];

/// Whether what the seat holds is the first entry's transaction, and its patch is committed.
fn commits_its_patch<N: Naming, R: Wait>(
    rt: &R,
    alloc: Global,
    replica: &SharedReplica<N>,
    pass: &mut Pass<N>,
    entries: &[Entry],
) -> bool {
    match (prepare_held(rt, alloc, replica, &*pass), entries.first()) {
        (Some(patch), Some(entry)) => {
            patch.transaction().is_equal(&entry.txn)
                && is_installed(rt, alloc, replica, pass, patch)
        }
        _ => false,
    }
}

/// Whether an idle seat has nothing to prepare, and one that has taken the first entry has that.
fn prepares_what_it_holds<N: Naming, R: Wait>(
    rt: &R,
    alloc: Global,
    blanks: Blanks,
    core: Core,
    entries: &[Entry],
) -> bool
    requires steps { (blanks.steps.name ≡ N.steps_name) × (blanks.steps.parts ≡ N.seats) }
    requires commits { (blanks.commits.name ≡ N.commits_name) × (blanks.commits.parts ≡ N.seats) }
    requires opening { core ≡ N.opening }
    requires one { N.seats ≡ 1 }
{
    let Ok((replica, mut passes)) = SharedReplica::<N>::open(alloc, blanks, core, 1) else {
        return false;
    };
    let is_idle = match passes.first() {
        Some(pass) => matches!(replica.footprint(rt, alloc, pass), Ok(None)),
        None => false,
    };
    drop(replies(rt, alloc, &replica, passes.as_mut_slice(), entries, &HELD));
    match passes.first_mut() {
        Some(pass) => is_idle && commits_its_patch(rt, alloc, &replica, pass, entries),
        None => false,
    }
}

#[test]
fn what_a_seat_prepares(rt: HostRuntime) -> Result<(), Fail> {
    let alloc = rt.alloc();
    let bundle = bundle(alloc)?;
    let Some(core) = core_without_rows(alloc, &bundle) else {
        return Err("a replica".into());
    };
    let prepares = prepares_what_it_holds::<Brand, _>(
        &rt,
        alloc,
        Blanks::new(1),
        core,
        first_entries(&bundle),
    );
    assert!(rt; prepares);
    Ok(())
}
