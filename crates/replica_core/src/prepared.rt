//! Transactions that a worker prepares without the lock, and commits by their patches.
ghost use Rattle.std.specs.Prelude.{◌≡◌, ◌≤◌, None, Ok, true, false, IfOk, IfErr, OnOk, OnErr, IfSome, MatchOption, option_map};
ghost use Rattle.std.specs.Option.{option_copied};
ghost use Rattle.rows.specs.Apply.{apply};
ghost use Rattle.rows.specs.Fits.{Fits};
ghost use Rattle.rows.specs.Patch.{SeesAll, IsAsSeen};
ghost use Rattle.rows.specs.Refusal.{Refuses};
ghost use Rattle.replica_core.specs.Faults.{IsFault, IsFaultIn, HasRoomFor, committed_set};
ghost use Rattle.replica_core.specs.Machine.{commit};
ghost use Rattle.replica_core.specs.Prepared.{held_txn, changes_of, IsSightOf};

use crate::event::Reply;
use crate::machine::{Core, is_seat};
use gtid_set::SetFault;
use rows::{InstallOutcome, PrepareFault, Rows, Transaction};
use std::alloc::{AllocError, Global};
use write_set::{Footprint, Patch, install, list_keys};

/// Installs a patch if it is of this transaction and still valid; returns whether it did.
fn install_of(rows: &mut Rows, txn: &Transaction, patch: Patch) -> Result<bool, AllocError>
    ensures installed { result ≡ Ok true → apply rows.old.schema txn.now rows.old.rows ≡ Ok rows.new.rows }
    ensures same { rows.new.schema ≡ rows.old.schema }
    ensures left { result ≡ Ok false → rows.new ≡ rows.old }
    ensures err { OnErr result (rows.new ≡ rows.old) }
{
    if !patch.transaction().is_equal(txn) {
        return Ok(false);
    }
    match install(rows, patch) {
        Ok(InstallOutcome::Installed) => return Ok(true),
        Ok(InstallOutcome::Stale) => return Ok(false),
        Err(fault) => return Err(fault),
    }
}

/// Applies a transaction that the schema takes: by the patch, if there is one and it is of this transaction and still valid.
pub(crate) fn apply_with(
    rows: &mut Rows,
    alloc: Global,
    txn: &Transaction,
    patch: Option<Patch>,
) -> Result<(), PrepareFault>
    requires { Fits rows.old.schema txn.now }
    ensures ok { OnOk result (apply rows.old.schema txn.now rows.old.rows ≡ Ok rows.new.rows) }
    ensures same { rows.new.schema ≡ rows.old.schema }
    ensures refused { Refuses result (apply rows.old.schema txn.now rows.old.rows) }
    ensures err { OnErr result (rows.new ≡ rows.old) }
{
    let Some(patch) = patch else {
        return rows.apply_fitting(alloc, txn);
    };
    match install_of(rows, txn, patch) {
        Ok(true) => return Ok(()),
        Ok(false) => return rows.apply_fitting(alloc, txn),
        Err(_) => return Err(PrepareFault::Memory),
    }
}

/// All keys that a transaction touches, each with the row that carries it.
fn sight(alloc: Global, rows: &Rows, txn: &Transaction) -> Result<Footprint, AllocError>
    ensures schema { IfOk result (λ seen. seen.schema ≡ rows.now.schema) }
    ensures all { IfOk result (λ seen. SeesAll rows.now.schema txn.now seen.seen) }
    ensures seen { IfOk result (λ seen. IsAsSeen seen.seen rows.now.rows) }
{
    let keys = list_keys(alloc, rows.schema(), txn)?;
    rows.footprint(alloc, keys)
}

impl Core {
    /// The transaction that a seat holds.
    fn held_txn(&self, seat: u8) -> Option<&Transaction>
        ensures held { option_copied result ≡ held_txn self.now.state seat }
        ensures fits { IfSome result (λ txn. Fits self.now.site.schema txn.now) }
    {
        if !is_seat(seat) {
            return None;
        }
        let Some(spot) = self.spot(seat) else {
            return None;
        };
        let Some(channel) = self.kept_channel(spot.channel) else {
            return None;
        };
        let Some((_, txn)) = channel.entry(spot.place) else {
            return None;
        };
        txn
    }

    /// How many changes the transaction of a seat has. None for a seat that holds nothing.
    pub fn held_changes(&self, seat: u8) -> Option<usize>
        ensures { result ≡ option_map changes_of (held_txn self.now.state seat) }
    {
        let txn = self.held_txn(seat)?;
        Some(txn.changes.as_slice().len())
    }

    /// What a worker needs to prepare the transaction of a seat beside this replica: the transaction,
    /// and all keys that it touches with the rows that carry them now. None for a seat that holds
    /// nothing.
    pub fn footprint(
        &self,
        alloc: Global,
        seat: u8,
    ) -> Result<Option<(Transaction, Footprint)>, AllocError>
        ensures { IfOk result (λ r. MatchOption r (held_txn self.now.state seat ≡ None) (λ p. IsSightOf self.now seat p.0 p.1)) }
    {
        let Some(txn) = self.held_txn(seat) else {
            return Ok(None);
        };
        let txn = txn.clone()?;
        let seen = sight(alloc, &self.rows, &txn)?;
        Ok(Some((txn, seen)))
    }

    /// The event Commit, by a patch that was prepared without the lock. The patch is used up whatever the reply.
    /// One that is of another transaction, or no longer valid, is ignored, and the transaction is
    /// applied as in a Commit without it: reply, state and errors are those of a Commit.
    pub fn commit_prepared(
        &mut self,
        alloc: Global,
        seat: u8,
        patch: Patch,
    ) -> Result<Reply, SetFault>
        ensures ok { IfOk result (λ r. (r, self.new.state) ≡ commit self.old.site seat self.old.state) }
        ensures site { self.new.site ≡ self.old.site }
        ensures err { OnErr result (self.new ≡ self.old) }
        ensures fault { IfErr result (λ f. IsFault (IsFaultIn f (committed_set seat self.old.state)) (commit self.old.site seat self.old.state)) }
        ensures room { IfErr result (λ f. HasRoomFor f (committed_set seat self.old.state)) }
    {
        self.commit(alloc, seat, Some(patch))
    }
}
