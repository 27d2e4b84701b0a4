//! What is done once the workers have ended.
ghost use Rattle.std.specs.Prelude.{◌≡◌, ◌≢◌, ◌≤◌, ◌+◌, ◌==◌, ℕ, true, false, None, Some, IfOk, IfErr, OnOk, IsTrue, MatchOption, length, slice_get};
ghost use Rattle.std.specs.List.{list_any};
ghost use Rattle.std.specs.FinMap as finmap;
ghost use Rattle.apply_channel.specs.Channels.{ChannelValue};
ghost use Rattle.replica_core.specs.Draining.{NothingIsOwned, Follows, IsDoneBelow, IsDone, IsWaiting, IsSettledAt, AreStoppedOrDone};
ghost use Rattle.applier.specs.Draining.{Drains, IsCommitFault};

use gtid_set::SetFault;
use gtid_text::Gtid;
use replica_core::{Core, Event};
use shared_replica::ClosedBook;
use std::alloc::{AllocError, Global};

/// Rolls back what is owned, and then applies with seat 1 what is left, channels ascending and places ascending. Stopped channels are left
/// as they are. What was done before an error is kept, and it may be called again; another error than `Memory` comes only if a Commit from
/// the state that was left may have it.
pub fn drain(alloc: Global, book: &mut ClosedBook) -> Result<(), SetFault>
    ensures drains { Drains book.old book.new }
    ensures rests { OnOk result (NothingIsOwned book.new.now.state) }
    ensures ends { OnOk result (AreStoppedOrDone book.new.now.state) }
    ensures fault { IfErr result (λ f. IsCommitFault f book.new.now.state) }
{
    free_all(alloc, book)?;
    settle_all(alloc, book)
}

/// Rolls back what is owned.
fn free_all(alloc: Global, book: &mut ClosedBook) -> Result<(), SetFault>
    ensures drains { Drains book.old book.new }
    ensures rests { OnOk result (NothingIsOwned book.new.now.state) }
    ensures fault { IfErr result (λ f. IsCommitFault f book.new.now.state) }
{
    for seat in 1..65u8 {
        free(alloc, book, seat)?;
    }
    book.state().one_seat_each();
    Ok(())
}

/// Rolls back what a seat owns.
fn free(alloc: Global, book: &mut ClosedBook, seat: u8) -> Result<(), SetFault>
    requires low { 1 ≤ seat }
    requires high { seat ≤ 64 }
    ensures drains { Drains book.old book.new }
    ensures free { OnOk result (finmap.get book.new.now.state.seats seat ≡ None) }
    ensures others { OnOk result ((other : ℕ) → finmap.get book.old.now.state.seats other ≡ None → finmap.get book.new.now.state.seats other ≡ None) }
    ensures fault { IfErr result (λ f. IsCommitFault f book.new.now.state) }
{
    if !is_busy(alloc, book.state(), seat)? {
        return Ok(());
    }
    book.state().one_seat_each();
    let _reply = book.step(alloc, &Event::Rollback(seat))?;
    Ok(())
}

/// Whether a seat owns a GTID.
fn is_busy(alloc: Global, core: &Core, seat: u8) -> Result<bool, AllocError>
    requires low { 1 ≤ seat }
    requires high { seat ≤ 64 }
    ensures { IfOk result (λ busy. busy ≡ false → finmap.get core.now.state.seats seat ≡ None) }
{
    core.one_seat_each();
    let owned = core.owned(alloc)?;
    Ok(is_listed(owned.as_slice(), seat))
}

fn is_listed(owned: &[(u8, Gtid)], seat: u8) -> bool
    ensures { result ≡ list_any (λ pair. pair.0 == seat) owned.now }
{
    owned.iter().any(|pair| pair.0 == seat)
}

/// Applies what is left of all channels.
fn settle_all(alloc: Global, book: &mut ClosedBook) -> Result<(), SetFault>
    requires { NothingIsOwned book.old.now.state }
    ensures drains { Drains book.old book.new }
    ensures rests { OnOk result (NothingIsOwned book.new.now.state) }
    ensures ends { OnOk result (AreStoppedOrDone book.new.now.state) }
    ensures fault { IfErr result (λ f. IsCommitFault f book.new.now.state) }
{
    for channel in 0..usize::MAX {
        let Some(count) = book.state().places(channel) else {
            return Ok(());
        };
        settle_channel(alloc, book, channel, count)?;
    }
    // (no memory holds as many channels)
    Err(SetFault::Memory)
}

/// Applies what is left of a channel.
fn settle_channel(
    alloc: Global,
    book: &mut ClosedBook,
    channel: usize,
    count: usize,
) -> Result<(), SetFault>
    requires rests { NothingIsOwned book.old.now.state }
    requires count { (one : ChannelValue) → slice_get book.old.now.state.channels channel ≡ Some one → length one.received ≡ count }
    ensures drains { Drains book.old book.new }
    ensures rests { OnOk result (NothingIsOwned book.new.now.state) }
    ensures follows { OnOk result (Follows book.old.now.state book.new.now.state) }
    ensures done { OnOk result (IsDone channel book.new.now.state) }
    ensures fault { IfErr result (λ f. IsCommitFault f book.new.now.state) }
{
    for place in 0..count {
        settle(alloc, book, channel, place)?;
    }
    Ok(())
}

/// Takes and commits a place, if that is left to do.
fn settle(
    alloc: Global,
    book: &mut ClosedBook,
    channel: usize,
    place: usize,
) -> Result<(), SetFault>
    requires rests { NothingIsOwned book.old.now.state }
    requires done { IsDoneBelow place channel book.old.now.state }
    ensures drains { Drains book.old book.new }
    ensures rests { OnOk result (NothingIsOwned book.new.now.state) }
    ensures follows { OnOk result (Follows book.old.now.state book.new.now.state) }
    ensures done { OnOk result (IsDoneBelow (place + 1) channel book.new.now.state) }
    ensures fault { IfErr result (λ f. IsCommitFault f book.new.now.state) }
{
    if !is_waiting(book.state(), channel, place) {
        return Ok(());
    }
    book.state().entries_are_kept();
    let _taken = book.step(alloc, &Event::Take(1, channel, place))?;
    let _committed = book.step(alloc, &Event::Commit(1))?;
    Ok(())
}

/// Whether the GTID at a place is not executed, and its channel not stopped.
fn is_waiting(core: &Core, channel: usize, place: usize) -> bool
    ensures open { result ≡ true → IsWaiting place channel core.now.state }
    ensures shut { result ≡ false → IsSettledAt place channel core.now.state }
{
    let Some(one) = core.channel(channel) else {
        return false;
    };
    if one.is_stopped() {
        return false;
    }
    match one.entry(place) {
        Some((gtid, _)) => !core.executed().contains(&gtid),
        None => false,
    }
}
