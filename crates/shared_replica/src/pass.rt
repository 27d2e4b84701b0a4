//! What a thread needs to call a shared replica.
ghost use Rattle.std.specs.Prelude.{◌≡◌, ◌≤◌};
ghost use Rattle.commit_ledger.specs.Tallies.{empty_portion};
ghost use Rattle.shared_replica.specs.Passes.{fresh};

use crate::naming::{LedgersOf, Naming};
use crate::step::Receipt;
use commit_ledger::Share;
use std::alloc::Global;
use std::marker::Model;

/// A seat of a shared replica, with its share of the total, and a receipt for each of its steps. It
/// can't be copied: whoever has it makes the seat's calls.
#[derive(Drop)]
pub struct Pass<N: Naming> {
    pub(crate) seat: u8,
    pub(crate) share: Share<LedgersOf<N>>,
    pub(crate) receipts: Vec<Receipt>,
}

impl<N: Naming> Model for Pass<N> {
    ghost use Rattle.std.specs.Prelude.{◌≡◌, ◌≤◌, length};
    ghost use Rattle.std.specs.Coded.{codes};
    ghost use Rattle.gtid_set.specs.Sets.{gtids_code};
    ghost use Rattle.shared_replica.specs.Passes.{PassValue};

    ghost Value = { PassValue };

    ghost coded = { Prim.hlevel (codes, gtids_code) };

    ghost view = { λ p. record { seat = p.seat; steps = p.share.steps; commits = p.share.commits; receipts = p.receipts.items } };

    ghost invariant = { λ p. (1 ≤ p.seat) × (p.seat ≤ 64) × (p.share.seats ≡ 1) × (p.share.steps ≡ length p.receipts.items) };
}

impl<N: Naming> Pass<N> {
    pub(crate) fn new(alloc: Global, seat: u8, share: Share<LedgersOf<N>>) -> Pass<N>
        requires low { 1 ≤ seat }
        requires high { seat ≤ 64 }
        requires share { share ≡ empty_portion 1 }
        ensures { result ≡ fresh seat }
    {
        Pass {
            seat,
            share,
            receipts: Vec::new(alloc),
        }
    }

    /// The number of the seat, from 1 to 64.
    pub fn seat(&self) -> u8
        ensures seat { result ≡ self.now.seat }
        ensures low { 1 ≤ result }
        ensures high { result ≤ 64 }
    {
        self.seat
    }

    /// A receipt for each step that was made with this pass, in order.
    pub fn receipts(&self) -> &[Receipt]
        ensures { result.now ≡ self.now.receipts }
    {
        self.receipts.as_slice()
    }
}
