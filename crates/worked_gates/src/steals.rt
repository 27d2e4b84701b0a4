//! The deques of tickets: first in, first out; and of two workers one is held with tickets in its deque, and the other steals one.

use super::books::{book_of_workers, commits_to};
use super::twenty::{TWENTY, core_with_twenty};
use applier::{Gate, Hand, Ticket, make_hands};
use gtid_text::Gtid;
use std::sync::Wait;
use std::sync::atomic::{AtomicU64, Ordering};
use std::test::Fail;
use std::thread::Threads;

/// The first seat that is about to prepare for the third time waits until a ticket was stolen. It has put places into its own
/// deque by then, after its first commit or its second; the other takes one when its own deque is empty.
#[derive(Drop)]
struct Bait {
    first: AtomicU64,
    second: AtomicU64,
    held: AtomicU64,
    stolen: AtomicU64,
}

impl Bait {
    fn new() -> Bait {
        Bait {
            first: AtomicU64::new(0),
            second: AtomicU64::new(0),
            held: AtomicU64::new(0),
            stolen: AtomicU64::new(0),
        }
    }

    /// How often the seat has prepared.
    fn of(&self, seat: u8) -> &AtomicU64 {
        if seat == 1 { &self.first } else { &self.second }
    }
}

impl Gate for Bait {
    fn before_prepare(&self, seat: u8, _gtid: Gtid) {
        if self.of(seat).fetch_add(1, Ordering::SeqCst) != 2 {
            return;
        }
        if self.held.fetch_add(1, Ordering::SeqCst) != 0 {
            return;
        }
        for _ in 0..1_000_000_000u64 {
            if self.stolen.load(Ordering::SeqCst) != 0 {
                return;
            }
        }
    }

    fn after_commit(&self, _seat: u8, _gtid: Gtid) {}

    fn after_steal(&self, _seat: u8) {
        self.stolen.fetch_add(1, Ordering::SeqCst);
    }
}

/// Of two workers one is held when it has tickets in its deque; the other steals, and all is committed.
#[test]
fn a_worker_steals(rt: HostRuntime) -> Result<(), Fail> {
    let alloc = rt.alloc();
    let core = core_with_twenty(alloc)?;
    let gate = Bait::new();
    let book = book_of_workers(&rt, alloc, core, 2, &gate);
    assert_eq!(rt; commits_to(alloc, book, TWENTY), Some(20));
    assert!(rt; gate.stolen.load(Ordering::SeqCst) != 0);
    Ok(())
}

/// Of three tickets the owner pops the first, the other steals the second, and the owner pops the
/// third.
#[test]
fn first_in_first_out(rt: HostRuntime) -> Result<(), Fail> {
    let mut all = make_hands(rt.alloc(), 2)?;
    let first = &mut all[0];
    for place in 0..3usize {
        assert!(rt; first.push(Ticket { channel: 0, place }).is_ok());
    }
    let one = first.pop().map(|ticket| ticket.place);
    let two = steal_first(&mut all[1]);
    let first = &mut all[0];
    let three = first.pop().map(|ticket| ticket.place);
    let four = first.pop().map(|ticket| ticket.place);
    let five = steal_first(&mut all[1]);
    assert_eq!(rt; (one, two, three), (Some(0), Some(1), Some(2)));
    assert_eq!(rt; (four, five), (None, None));
    Ok(())
}

fn steal_first(hand: &mut Hand) -> Option<usize> {
    if hand.count() == 0 {
        return None;
    }
    hand.steal(0).map(|ticket| ticket.place)
}
