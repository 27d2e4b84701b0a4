//! Tickets, and the deques through which they travel.
ghost use Rattle.std.specs.Prelude.{◌≡◌, ℕ, IfOk, replicate, ◌++◌, ◌∷◌, [], ◌<◌, ◌≤◌, length, MatchOption, slice_index_or, set};
ghost use Rattle.applier.specs.Tickets.{seen, take_ticket, reached, nowhere, fresh_on, passes_on, own_views, ReachAll, IsPush, IsPop, IsSteal};
ghost use Rattle.applier.specs.declared.hand.SeenTickets.{SeenTickets};

use crossbeam_deque::protocol::{Outcome, Protocol};
use crossbeam_deque::{Steal, Stealer, Worker};
use shared_replica::room::add;
use std::alloc::{AllocError, Global};
use std::collections::LinkedList;
use std::marker::Model;

/// A place of a channel that may be ready.
#[derive(Clone, Copy)]
pub struct Ticket {
    pub channel: usize,
    pub place: usize,
}

/// The tickets that were put into a deque and taken from it. Only contracts use it: no value of it is made.
pub struct SeenTickets {
    pub put: LinkedList<Ticket>,
    pub taken: LinkedList<Ticket>,
}

/// The tickets of a deque are put and taken once each.
pub struct Once;

impl Protocol<Ticket, SeenTickets> for Once {
    ghost use Rattle.std.specs.Prelude.{[]};
    ghost use Rattle.applier.specs.Tickets.{Balanced, seen};

    ghost holds = { Balanced };

    ghost first = { seen [] [] };

    ghost guest = { seen [] [] };
}

/// How a ticket is put.
pub struct Puts;

impl Outcome<Ticket, SeenTickets> for Puts {
    ghost use Rattle.std.specs.Prelude.{◌≡◌, ◌++◌};
    ghost use Rattle.applier.specs.Tickets.{seen};

    ghost then = { λ v xs w. w ≡ seen (v.put ++ xs) v.taken };
}

/// How a ticket is taken.
pub struct Takes;

impl Outcome<Ticket, SeenTickets> for Takes {
    ghost use Rattle.std.specs.Prelude.{◌≡◌, ◌++◌};
    ghost use Rattle.applier.specs.Tickets.{seen};

    ghost then = { λ v xs w. w ≡ seen v.put (v.taken ++ xs) };
}

type Own = Worker<Ticket, Global, SeenTickets, Once>;

type Theirs = Stealer<Ticket, Global, SeenTickets, Once>;

/// A pass on the deque of another worker. Contracts see what it took.
#[derive(Drop)]
pub struct Reach {
    stealer: Theirs,
    pass: crossbeam_deque::Pass<Ticket, SeenTickets>,
}

impl Model for Reach {
    ghost use Rattle.applier.specs.Tickets.{OnDeque};
    ghost use Rattle.crossbeam_deque.specs.Handles.{view as view_of, IsPassOf, stealer_deque};

    ghost Value = { OnDeque };

    ghost view = { λ r. record { deque = (stealer_deque r.stealer).0; seen = view_of r.pass } };

    ghost invariant = { λ r. IsPassOf (stealer_deque r.stealer) r.pass };
}

impl Reach {
    /// Takes the first ticket, in one step.
    pub fn steal(&mut self) -> Option<Ticket>
        ensures { MatchOption result (self.new ≡ self.old) (λ t. self.new ≡ take_ticket t self.old) }
    {
        match self.stealer.steal_as::<Takes>(&mut self.pass) {
            Steal::Success(ticket) => Some(ticket),
            _ => None,
        }
    }
}

/// A worker's deque of tickets, and a pass on each worker's.
#[derive(Drop)]
pub struct Hand {
    own: Own,
    others: Vec<Reach>,
}

impl Model for Hand {
    ghost use Rattle.std.specs.Prelude.{◌≡◌};
    ghost use Rattle.applier.specs.Tickets.{Reached};
    ghost use Rattle.crossbeam_deque.specs.Handles.{worker_deque, worker_view, worker_flavor};

    ghost Value = { Reached };

    ghost view = { λ h. record { own = record { deque = (worker_deque h.own).0; seen = worker_view h.own }; others = h.others.items } };

    ghost invariant = { λ h. worker_flavor h.own ≡ 0 };
}

impl Hand {
    /// Puts a ticket at the back of its own deque, in one step. A ticket that finds no room comes back.
    pub fn push(&mut self, ticket: Ticket) -> Result<(), Ticket>
        ensures { IsPush ticket self.old result self.new }
    {
        self.own.push_as::<Puts>(ticket)
    }

    /// Takes the first ticket of its own deque, in one step.
    pub fn pop(&mut self) -> Option<Ticket>
        ensures { IsPop self.old result self.new }
    {
        self.own.pop_as::<Takes>()
    }

    /// How many workers there are.
    pub fn count(&self) -> usize
        ensures { result ≡ length self.now.others }
    {
        self.others.len()
    }

    /// Takes the first ticket of the deque of worker `from`, in one step.
    pub fn steal(&mut self, from: usize) -> Option<Ticket>
        requires { from < length self.old.others }
        ensures { IsSteal from self.old result self.new }
    {
        let reach = &mut self.others[from];
        reach.steal()
    }

    /// A deque with no passes yet.
    fn without_passes(alloc: Global) -> Result<Hand, AllocError>
        ensures { IfOk result (λ h. h.own.seen ≡ seen [] []) }
    {
        let own = Own::fifo_as(alloc, 16)?;
        Ok(Hand {
            own,
            others: Vec::new(alloc),
        })
    }

    /// A new pass on its deque, for another worker.
    fn reach(&self) -> Result<Reach, AllocError>
        ensures { IfOk result (λ r. r ≡ fresh_on self.now.own.deque) }
    {
        let stealer = self.own.stealer()?;
        let pass = stealer.pass();
        Ok(Reach { stealer, pass })
    }

    /// The passes on all deques.
    fn meet(&mut self, others: Vec<Reach>)
        ensures { self.new ≡ reached self.old.own others.items }
    {
        self.others = others;
    }
}

/// A pass on each deque.
fn row_of(alloc: Global, hands: &[Hand]) -> Result<Vec<Reach>, AllocError>
    ensures { IfOk result (λ v. v.items ≡ passes_on hands.now) }
{
    let mut others = Vec::with_capacity(alloc, hands.len())?;
    for hand in hands {
        add(&mut others, hand.reach()?);
    }
    Ok(others)
}

/// The deques of n workers, each with a pass on the deque of each worker, in order.
pub fn make_hands(alloc: Global, n: usize) -> Result<Vec<Hand>, AllocError>
    requires { (1 ≤ n) × (n ≤ 64) }
    ensures fresh { IfOk result (λ v. own_views v.items ≡ replicate n (seen [] [])) }
    ensures reach { IfOk result (λ v. ReachAll v.items) }
    ensures count { IfOk result (λ v. length v.items ≡ n) }
{
    let mut hands = hands_without_passes(alloc, n)?;
    for me in 0..n {
        let others = row_of(alloc, hands.as_slice())?;
        meet_at(&mut hands, me, others);
    }
    Ok(hands)
}

fn meet_at(hands: &mut Vec<Hand>, me: usize, others: Vec<Reach>)
    requires { me < length hands.old.items }
    ensures { hands.new.items ≡ set hands.old.items me (reached (slice_index_or hands.old.items me (reached nowhere [])).own others.items) }
{
    hands[me].meet(others);
}

/// Deques with no passes yet.
fn hands_without_passes(alloc: Global, n: usize) -> Result<Vec<Hand>, AllocError>
    ensures { IfOk result (λ v. own_views v.items ≡ replicate n (seen [] [])) }
{
    let mut hands = Vec::with_capacity(alloc, n)?;
    for _i in 0..n {
        add(&mut hands, Hand::without_passes(alloc)?);
    }
    Ok(hands)
}
