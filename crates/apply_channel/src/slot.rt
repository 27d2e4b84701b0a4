//! Received entries in their slots, and the keys for which they wait.
ghost use Rattle.std.specs.Prelude.{◌≡◌, ◌≢◌, ◌<◌, suc, AllPairs, None, IfOk, Some, if◌then◌else◌};
ghost use Rattle.std.specs.Option.{option_copied, option_map_or};
ghost use Rattle.std.specs.Bool.{Decides};
ghost use Rattle.rows.specs.declared.change.Key.{Key as KeyValue};
ghost use Rattle.rows.specs.WriteSet.{is_among, touches};
ghost use Rattle.apply_channel.specs.Kept.{AreKeysOf, entries_of, received_of};
ghost use Rattle.apply_channel.specs.Slots.{last_of, placed};

use gtid_text::Gtid;
use rows::{Key, Schema, Transaction};
use std::alloc::{AllocError, Global};
use std::marker::Model;
use write_set::list_keys;

/// Whether a received entry is executed. Another has its transaction, and the number of places up to the last one before it
/// with the same GTID that is not executed (0: there is none). The number comes first, so that a state takes 16 bytes.
#[derive(Drop)]
enum State {
    Executed,
    Open(u32, Transaction),
}

/// A received entry.
pub(crate) struct ReceivedSlot {
    gtid: Gtid,
    state: State,
}

impl Drop for ReceivedSlot {
    // (by hand: for a caller the end of a Slot is one call)
    fn drop(self) {
        let ReceivedSlot {
            gtid: _gtid,
            state: _state,
        } = self;
    }
}

impl Model for ReceivedSlot {
    ghost use Rattle.std.specs.Coded.{codes};
    ghost use Rattle.apply_channel.specs.Slots.{Placed, placed_in};

    ghost Value = { Placed };

    ghost coded = { Prim.hlevel codes };

    ghost view = { λ s. placed_in s.gtid s.state };
}

/// How many places there are up to and with this one; 0 for none.
fn count_to(earlier: Option<usize>) -> u32
    requires { option_map_or suc earlier 0 < 4294967296 }
    ensures { last_of result ≡ earlier }
{
    match earlier {
        Some(place) => (place + 1) as u32,
        None => 0,
    }
}

/// `Some(places - 1)`, or `None` for 0.
fn last_of(places: u32) -> Option<usize>
    ensures { result ≡ last_of places }
{
    if places == 0 {
        return None;
    }
    Some(places as usize - 1)
}

impl ReceivedSlot {
    /// A slot with an entry. One that has no transaction is executed.
    pub(crate) fn new(gtid: Gtid, txn: Option<Transaction>, earlier: Option<usize>) -> ReceivedSlot
        requires { option_map_or suc earlier 0 < 4294967296 }
        ensures { result ≡ placed gtid txn earlier }
    {
        match txn {
            Some(txn) => ReceivedSlot {
                gtid,
                state: State::Open(count_to(earlier), txn),
            },
            None => ReceivedSlot {
                gtid,
                state: State::Executed,
            },
        }
    }

    pub(crate) fn gtid(&self) -> Gtid
        ensures { result ≡ self.now.gtid }
    {
        self.gtid
    }

    /// Its transaction, if it is not executed.
    pub(crate) fn txn(&self) -> Option<&Transaction>
        ensures { option_copied result ≡ self.now.txn }
    {
        match &self.state {
            State::Open(_, txn) => Some(txn),
            State::Executed => None,
        }
    }

    /// Drops its transaction: the place before it.
    pub(crate) fn settle(&mut self) -> Option<usize>
        ensures settled { self.new ≡ record { gtid = self.old.gtid; txn = None; earlier = None } }
        ensures earlier { result ≡ self.old.earlier }
    {
        let places = match &self.state {
            State::Open(places, _) => *places,
            State::Executed => 0,
        };
        self.state = State::Executed;
        last_of(places)
    }
}

/// The keys for which a transaction waits; an executed one waits for none.
pub(crate) fn keys_unless(
    alloc: Global,
    unless: bool,
    schema: &Schema,
    txn: &Transaction,
) -> Result<Vec<Key>, AllocError>
    ensures keys { IfOk result (λ keys. AreKeysOf schema.now keys.items (if unless then None else Some txn.now)) }
    ensures once { IfOk result (λ keys. AllPairs (λ a b. a ≢ b) keys.items) }
{
    if unless {
        return Ok(Vec::new(alloc));
    }
    list_keys(alloc, schema, txn)
}

/// A transaction that shares its changes, unless it is not wanted.
pub(crate) fn copy_unless(
    unless: bool,
    txn: &Transaction,
) -> Result<Option<Transaction>, AllocError>
    ensures { IfOk result (λ r. r ≡ (if unless then None else Some txn.now)) }
{
    if unless {
        return Ok(None);
    }
    let copied = txn.clone()?;
    Ok(Some(copied))
}

/// Whether the transactions of two slots are the same, or both are missing.
fn same_txn(left: &ReceivedSlot, right: &ReceivedSlot) -> bool
    ensures { Decides result (left.now.txn ≡ right.now.txn) }
{
    match left.txn() {
        Some(txn) => match right.txn() {
            Some(other) => txn.is_equal(other),
            None => false,
        },
        None => right.txn().is_none(),
    }
}

/// Whether two slots have the same entry.
fn same_entry(left: &ReceivedSlot, right: &ReceivedSlot) -> bool
    ensures { Decides result (received_of left.now ≡ received_of right.now) }
{
    if left.gtid() != right.gtid() {
        return false;
    }
    same_txn(left, right)
}

/// Whether two lists of slots have the same entries.
pub(crate) fn same_entries(left: &[ReceivedSlot], right: &[ReceivedSlot]) -> bool
    ensures { Decides result (entries_of left.now ≡ entries_of right.now) }
{
    let mut left = left;
    let mut right = right;
    while let Some((slot, more)) = left.split_first() {
        let Some((other, rest)) = right.split_first() else {
            return false;
        };
        if !same_entry(slot, other) {
            return false;
        }
        left = more;
        right = rest;
    }
    right.is_empty()
}
