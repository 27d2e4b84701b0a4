//! Replicas that are served a bundle, and the books that workers leave of them.
ghost use Rattle.std.specs.Prelude.{◌≡◌, ◌≤◌};

use applier::{Gate, WorkersEnd, drain, run_workers};
use commands::apply_journals;
use commit_ledger::Blanks;
use gtid_report::render_state;
use replica_core::Core;
use serving::{Order, StateOrVerdict, can_be_sent, receive_all};
use shared_replica::{ClosedBook, Naming, SharedReplica};
use std::alloc::Global;
use std::marker::Brand;
use std::sync::Wait;
use std::thread::Threads;
use txn_journal::{Bundle, decode_bundle};

/// What a replica has that was served a bundle; None where its sources don't send their journals.
fn receive(alloc: Global, bundle: &Bundle) -> Option<Core> {
    if !can_be_sent(bundle) {
        return None;
    }
    receive_all(alloc, bundle).ok()
}

/// A replica whose channels have received what the journals of a bundle send; None where the text is no such bundle.
pub(crate) fn served_core(alloc: Global, text: &str) -> Option<Core> {
    let Ok(bundle) = decode_bundle(alloc, text.as_bytes()) else {
        return None;
    };
    receive(alloc, &bundle)
}

/// What workers with a gate leave of a shared replica; None where one of them has a fault.
fn share<N: Naming + Send + Sync, G: Gate + Sync, R: Threads + Wait + Sync>(
    rt: &R,
    alloc: Global,
    blanks: Blanks,
    core: Core,
    seats: u8,
    gate: &G,
) -> Option<ClosedBook>
    requires steps { (blanks.steps.name ≡ N.steps_name) × (blanks.steps.parts ≡ N.seats) }
    requires commits { (blanks.commits.name ≡ N.commits_name) × (blanks.commits.parts ≡ N.seats) }
    requires opening { core ≡ N.opening }
    requires seats { (seats ≡ N.seats) × (1 ≤ seats) × (seats ≤ 64) }
{
    let Ok((replica, passes)) = SharedReplica::<N>::open(alloc, blanks, core, seats) else {
        return None;
    };
    let WorkersEnd { passes, fault } = run_workers(rt, alloc, &replica, passes, gate);
    match (replica.close(passes), fault) {
        (Ok(book), None) => Some(book),
        _ => None,
    }
}

/// The book that so many workers with a gate leave, undrained; None where one of them has a fault.
pub(crate) fn book_of_workers<G: Gate + Sync, R: Threads + Wait + Sync>(
    rt: &R,
    alloc: Global,
    core: Core,
    seats: u8,
    gate: &G,
) -> Option<ClosedBook>
    requires { (1 ≤ seats) × (seats ≤ 64) }
{
    share::<Brand, G, R>(rt, alloc, Blanks::new(seats as u64), core, seats, gate)
}

/// The book that `apply_journals` gives of a bundle; None where it gives a verdict or a fault, or where the text is no bundle.
pub(crate) fn book_of_bundle<G: Gate + Sync, R: Threads + Wait + Sync>(
    rt: &R,
    alloc: Global,
    text: &str,
    order: Order,
    workers: u8,
    gate: &G,
) -> Option<ClosedBook>
    requires { (1 ≤ workers) × (workers ≤ 64) }
{
    let Ok(bundle) = decode_bundle(alloc, text.as_bytes()) else {
        return None;
    };
    match apply_journals(rt, alloc, &bundle, order, workers, gate) {
        Ok(StateOrVerdict::State(book)) => Some(book),
        _ => None,
    }
}

/// Whether a book's state has these lines.
pub(crate) fn has_state(alloc: Global, book: &ClosedBook, lines: &str) -> bool {
    match render_state(alloc, book.state().executed(), book.state().rows()) {
        Ok(state) => state.as_str() == lines,
        Err(_) => false,
    }
}

/// How many commits the seats have counted of a book whose state has these lines once what is left was drained; None where it has others.
pub(crate) fn commits_to(alloc: Global, book: Option<ClosedBook>, lines: &str) -> Option<u64> {
    let mut book = book?;
    let is_whole = drain(alloc, &mut book).is_ok() && has_state(alloc, &book, lines);
    is_whole.then_some(book.counts().commits)
}
