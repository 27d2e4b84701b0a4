//! Two seats of one replica, by turns and on threads of their own, and what the closed book shows.
ghost use Rattle.std.specs.Prelude.{◌≡◌};

use crate::sources::bundle;
use commit_ledger::{Blanks, Counts};
use gtid_report::render_state;
use journal::{Journal, is_number};
use replica_core::{Core, Reply};
use rows::{Patch, RowFault, prepare};
use shared_replica::{ClosedBook, Naming, Pass, Receipt, SharedReplica};
use std::alloc::Global;
use std::marker::Brand;
use std::process::Abort;
use std::sync::Wait;
use std::test::Fail;
use std::thread;
use std::thread::Threads;
use txn_journal::Bundle;

/// What is done with two seats.
#[derive(Clone, Copy)]
enum Task {
    /// The first seat's patch is late: before it commits, the second seat commits a row under the same key.
    Late,
    /// Each seat commits on a thread of its own.
    AtOnce,
}

/// What the closed book shows.
#[derive(Clone, Copy)]
pub(crate) struct SeatEnding {
    pub(crate) counts: Counts,
    /// The places of the first seat's receipts, where they are asked for.
    pub(crate) first: Option<&'static [u64]>,
    /// The places of the second seat's receipts, where they don't depend on threads.
    pub(crate) second: Option<&'static [u64]>,
    /// The lines of the state.
    pub(crate) state: &'static str,
}

/// A channel is opened and positioned, and receives the entries of its journal.
fn receive<N: Naming, R: Wait>(
    rt: &R,
    alloc: Global,
    replica: &SharedReplica<N>,
    pass: &mut Pass<N>,
    bundle: &Bundle,
    channel: usize,
) -> Result<(), Fail> {
    let opened = bundle.channels().get(channel).ok_or("a channel")?;
    let journal = bundle.journals().get(channel).ok_or("a journal")?;
    drop(replica.open_channel(rt, alloc, pass, opened.name.clone()?, false)?);
    drop(replica.position(rt, alloc, pass, channel)?);
    receive_entries(rt, alloc, replica, pass, journal, channel)
}

fn receive_entries<N: Naming, R: Wait>(
    rt: &R,
    alloc: Global,
    replica: &SharedReplica<N>,
    pass: &mut Pass<N>,
    journal: &Journal,
    channel: usize,
) -> Result<(), Fail> {
    for entry in journal.entries() {
        if is_number(entry.gtid.number) {
            drop(replica.receive(rt, alloc, pass, channel, entry.clone()?)?);
        }
    }
    Ok(())
}

/// Whether a seat takes a place.
fn takes<N: Naming, R: Wait>(
    rt: &R,
    alloc: Global,
    replica: &SharedReplica<N>,
    pass: &mut Pass<N>,
    channel: usize,
    place: usize,
) -> bool {
    matches!(
        replica.take(rt, alloc, pass, channel, place),
        Ok(Reply::Taken(_))
    )
}

/// Whether a seat takes and commits a place.
fn commits<N: Naming, R: Wait>(
    rt: &R,
    alloc: Global,
    replica: &SharedReplica<N>,
    pass: &mut Pass<N>,
    channel: usize,
    place: usize,
) -> bool {
    takes(rt, alloc, replica, pass, channel, place)
        && matches!(replica.commit(rt, alloc, pass), Ok(Reply::Committed(_)))
}

/// What the seat holds, prepared without the lock; None where it holds nothing.
pub(crate) fn prepare_held<N: Naming, R: Wait>(
    rt: &R,
    alloc: Global,
    replica: &SharedReplica<N>,
    pass: &Pass<N>,
) -> Option<Patch> {
    match replica.footprint(rt, alloc, pass) {
        Ok(Some((held, seen))) => prepare(alloc, held, seen).ok(),
        _ => None,
    }
}

/// Whether a patch is installed.
pub(crate) fn is_installed<N: Naming, R: Wait>(
    rt: &R,
    alloc: Global,
    replica: &SharedReplica<N>,
    pass: &mut Pass<N>,
    patch: Patch,
) -> bool {
    matches!(
        replica.commit_prepared(rt, alloc, pass, patch),
        Ok(Reply::Committed(_))
    )
}

/// Whether the patch of what the seat holds is installed.
fn commits_prepared<N: Naming, R: Wait>(
    rt: &R,
    alloc: Global,
    replica: &SharedReplica<N>,
    pass: &mut Pass<N>,
) -> bool {
    match prepare_held(rt, alloc, replica, &*pass) {
        Some(patch) => is_installed(rt, alloc, replica, pass, patch),
        None => false,
    }
}

/// Whether a patch is refused because a row is stored under its primary key.
fn is_late<N: Naming, R: Wait>(
    rt: &R,
    alloc: Global,
    replica: &SharedReplica<N>,
    pass: &mut Pass<N>,
    patch: Patch,
) -> bool {
    let fault = RowFault::DuplicateKey { change: 0, key: 0 };
    match replica.commit_prepared(rt, alloc, pass, patch) {
        Ok(Reply::RowRefused(_, why)) => why == fault,
        _ => false,
    }
}

/// Whether the second seat commits a patch of its own, and then B's row.
fn second_commits<N: Naming, R: Wait>(
    rt: &R,
    alloc: Global,
    replica: &SharedReplica<N>,
    second: &mut Pass<N>,
) -> bool {
    takes(rt, alloc, replica, second, 0, 1)
        && commits_prepared(rt, alloc, replica, second)
        && commits(rt, alloc, replica, second, 1, 0)
}

/// The first seat receives both journals, and has nothing to commit before it takes A's first entry.
fn begins_late<N: Naming, R: Wait>(
    rt: &R,
    alloc: Global,
    replica: &SharedReplica<N>,
    first: &mut Pass<N>,
    bundle: &Bundle,
) -> Result<bool, Fail> {
    receive(rt, alloc, replica, first, bundle, 0)?;
    receive(rt, alloc, replica, first, bundle, 1)?;
    Ok(!commits_prepared(rt, alloc, replica, first) && takes(rt, alloc, replica, first, 0, 0))
}

/// Whether what the first seat holds is refused where the second one commits before it.
fn ends_late<N: Naming, R: Wait>(
    rt: &R,
    alloc: Global,
    replica: &SharedReplica<N>,
    first: &mut Pass<N>,
    second: &mut Pass<N>,
) -> bool {
    let held = prepare_held(rt, alloc, replica, &*first);
    let commits = second_commits(rt, alloc, replica, second);
    match held {
        Some(patch) => commits && is_late(rt, alloc, replica, first, patch),
        None => false,
    }
}

fn late<N: Naming, R: Wait>(
    rt: &R,
    alloc: Global,
    replica: &SharedReplica<N>,
    passes: &mut [Pass<N>],
    bundle: &Bundle,
) -> Result<bool, Fail> {
    let (first, rest) = passes.split_first_mut().ok_or("a first pass")?;
    let second = rest.first_mut().ok_or("a second pass")?;
    Ok(
        begins_late(rt, alloc, replica, first, bundle)?
            && ends_late(rt, alloc, replica, first, second),
    )
}

/// A seat takes and commits a place; the book shows later whether it did.
fn go<N: Naming, R: Wait>(
    rt: &R,
    alloc: Global,
    replica: &SharedReplica<N>,
    pass: &mut Pass<N>,
    place: usize,
) {
    let _done = commits(rt, alloc, replica, pass, 0, place);
}

fn at_once<N: Naming + Send + Sync, R: Threads + Wait + Sync>(
    rt: &R,
    alloc: Global,
    replica: &SharedReplica<N>,
    passes: &mut [Pass<N>],
    bundle: &Bundle,
) -> Result<bool, Fail> {
    let first = passes.first_mut().ok_or("a first pass")?;
    receive(rt, alloc, replica, first, bundle, 0)?;
    commit_at_once(rt, alloc, replica, passes);
    Ok(true)
}

/// Each seat commits a place, the first seat place 0 and the next one place 1, on threads of their own.
fn commit_at_once<N: Naming + Send + Sync, R: Threads + Wait + Sync>(
    rt: &R,
    alloc: Global,
    replica: &SharedReplica<N>,
    passes: &mut [Pass<N>],
) {
    thread::for_each_mut(
        rt,
        passes,
        2,
        &|place, pass: &mut Pass<N>| go(rt, alloc, replica, pass, place),
    );
}

fn work<N: Naming + Send + Sync, R: Threads + Wait + Sync>(
    rt: &R,
    alloc: Global,
    replica: &SharedReplica<N>,
    passes: &mut [Pass<N>],
    bundle: &Bundle,
    wish: Task,
) -> Result<bool, Fail> {
    match wish {
        Task::Late => late(rt, alloc, replica, passes, bundle),
        Task::AtOnce => at_once(rt, alloc, replica, passes, bundle),
    }
}

/// What the book of a task shows.
fn wanted_ending(wish: Task) -> SeatEnding {
    match wish {
        Task::Late => SeatEnding {
            counts: Counts {
                steps: 14,
                commits: 2,
            },
            first: Some(&[0, 1, 2, 3, 4, 5, 6, 7, 8, 13]),
            second: Some(&[9, 10, 11, 12]),
            state: concat!(
                "executed aaaaaaaa-aaaa-aaaa-aaaa-aaaaaaaaaaaa:2,bbbbbbbb-bbbb-bbbb-bbbb-bbbbbbbbbbbb:1\n",
                "row t 1 x63 null\n",
                "row t 2 x62 null\n",
                "row t 9 x39 null\n",
            ),
        },
        Task::AtOnce => SeatEnding {
            counts: Counts {
                steps: 9,
                commits: 2,
            },
            first: None,
            second: None,
            state: concat!(
                "executed aaaaaaaa-aaaa-aaaa-aaaa-aaaaaaaaaaaa:1-2\n",
                "row t 1 x61 null\n",
                "row t 2 x62 null\n",
                "row t 9 x39 null\n",
            ),
        },
    }
}

/// Whether the places of receipts are ascending.
fn are_ascending(receipts: &[Receipt]) -> bool {
    receipts.windows(2).all(|two| two[0].place < two[1].place)
}

fn are_at(receipts: &[Receipt], places: &[u64]) -> bool {
    let found = receipts.iter().map(|receipt| &receipt.place);
    found.eq(places)
}

/// Whether a book's state has these lines.
pub(crate) fn has_state(alloc: Global, book: &ClosedBook, lines: &str) -> bool {
    match render_state(alloc, book.state().executed(), book.state().rows()) {
        Ok(state) => state.as_str() == lines,
        Err(_) => false,
    }
}

/// Whether the receipts of a seat are ascending, and at these places where they are given.
fn has_receipts(book: &ClosedBook, seat: u8, places: Option<&'static [u64]>) -> bool {
    let receipts = book.receipts(seat);
    match places {
        Some(places) => are_at(receipts, places),
        None => are_ascending(receipts),
    }
}

fn shows(alloc: Global, book: &ClosedBook, want: SeatEnding) -> bool {
    book.counts() == want.counts
        && book.steps().len() as u64 == want.counts.steps
        && has_receipts(book, 1, want.first)
        && has_receipts(book, 2, want.second)
        && has_state(alloc, book, want.state)
}

fn is_fresh(book: &ClosedBook) -> bool {
    book.steps().is_empty()
        && book.counts()
            == Counts {
                steps: 0,
                commits: 0,
            }
}

/// Whether a copy of what a book shows opens a book with that state and without a step.
fn starts_again(alloc: Global, book: &ClosedBook) -> bool {
    match book.state().copy(alloc) {
        Ok(copy) => {
            let other = ClosedBook::start(alloc, copy);
            is_fresh(&other) && other.state().is_equal(book.state())
        }
        Err(_) => false,
    }
}

/// Whether all passes close a book that shows the work.
fn closes<N: Naming>(
    alloc: Global,
    replica: SharedReplica<N>,
    passes: Vec<Pass<N>>,
    want: SeatEnding,
) -> bool {
    match replica.close(passes) {
        Ok(book) => shows(alloc, &book, want) && starts_again(alloc, &book),
        Err(_) => false,
    }
}

/// Whether one pass too few hands all back, and all passes close a book that shows the work.
pub(crate) fn ends<N: Naming>(
    alloc: Global,
    replica: SharedReplica<N>,
    passes: Vec<Pass<N>>,
    want: SeatEnding,
) -> bool {
    let mut passes = passes;
    let last = passes.pop();
    match replica.close(passes) {
        Ok(_) => false,
        Err((replica, mut passes)) => {
            if let Some(pass) = last {
                let _room = passes.push(pass);
            }
            closes(alloc, replica, passes, want)
        }
    }
}

fn two_seats<N: Naming + Send + Sync, R: Threads + Wait + Abort + Sync>(
    rt: &R,
    alloc: Global,
    blanks: Blanks,
    core: Core,
    bundle: &Bundle,
    wish: Task,
) -> Result<(), Fail>
    requires steps { (blanks.steps.name ≡ N.steps_name) × (blanks.steps.parts ≡ N.seats) }
    requires commits { (blanks.commits.name ≡ N.commits_name) × (blanks.commits.parts ≡ N.seats) }
    requires opening { core ≡ N.opening }
    requires two { N.seats ≡ 2 }
{
    let Ok((replica, mut passes)) = SharedReplica::<N>::open(alloc, blanks, core, 2) else {
        return Err("memory".into());
    };
    let worked = work(rt, alloc, &replica, passes.as_mut_slice(), bundle, wish);
    let ended = ends(alloc, replica, passes, wanted_ending(wish));
    assert!(rt; worked?);
    assert!(rt; ended);
    Ok(())
}

fn try_work<R: Threads + Wait + Abort + Sync>(
    rt: &R,
    alloc: Global,
    wish: Task,
) -> Result<(), Fail> {
    let bundle = bundle(alloc)?;
    let core = Core::open(alloc, bundle.replica(), bundle.rows().copy()?)?;
    two_seats::<Brand, _>(rt, alloc, Blanks::new(2), core, &bundle, wish)
}

#[test]
fn a_patch_that_is_late(rt: HostRuntime) -> Result<(), Fail> {
    try_work(&rt, rt.alloc(), Task::Late)
}

#[test]
fn two_seats_at_once(rt: HostRuntime) -> Result<(), Fail> {
    try_work(&rt, rt.alloc(), Task::AtOnce)
}
