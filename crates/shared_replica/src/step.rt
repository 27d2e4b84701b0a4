//! One step of a history, and the receipts for steps.
ghost use Rattle.std.specs.Prelude.{◌≡◌, IsTrue};

use crate::same::{is_same_event, is_same_reply};
use replica_core::{Event, Reply};
use std::marker::Model;

/// One step of a history: an event and its reply.
#[derive(Drop)]
pub struct Step {
    pub event: Event,
    pub reply: Reply,
}

impl Step {
    /// Whether two steps have the same event and the same reply.
    pub(crate) fn is_same(&self, other: &Step) -> bool
        ensures { IsTrue result → self.now ≡ other.now }
    {
        is_same_event(&self.event, &other.event) && is_same_reply(&self.reply, &other.reply)
    }
}

/// A step with its place in the history, from 0.
#[derive(Drop)]
pub struct Receipt {
    pub place: u64,
    pub step: Step,
}

/// The receipts of one seat.
#[derive(Drop)]
pub struct Receipts {
    list: Vec<Receipt>,
}

impl Model for Receipts {
    ghost use Rattle.std.specs.Prelude.{List};
    ghost use Rattle.std.specs.Coded.{codes};
    ghost use Rattle.gtid_set.specs.Sets.{gtids_code};
    ghost use Rattle.shared_replica.specs.declared.step.Receipt.{Receipt};

    ghost Value = { List Receipt };

    ghost coded = { Prim.hlevel (codes, gtids_code) };

    ghost view = { λ r. r.list.items };
}

impl Receipts {
    pub(crate) fn of(list: Vec<Receipt>) -> Receipts
        ensures { result ≡ list.items }
    {
        Receipts { list }
    }

    pub(crate) fn as_slice(&self) -> &[Receipt]
        ensures { result.now ≡ self.now }
    {
        self.list.as_slice()
    }
}

/// The receipts of a seat, once the book is closed.
#[derive(Drop)]
pub struct Sheet {
    pub(crate) seat: u8,
    pub(crate) receipts: Receipts,
}
