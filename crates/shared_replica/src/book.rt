//! The history of a replica.
ghost use Rattle.std.specs.Prelude.{◌≡◌, true, [], ◌≤◌, IfOk, IfErr, OnErr, IfSome, IsTrue, length, map, vec_len};
ghost use Rattle.std.specs.Vec.{vec_capacity};
ghost use Rattle.commit_ledger.specs.Tallies.{no_tally, empty_portion, tally_of};
ghost use Rattle.replica_core.specs.Machine.{is_numbered, next_ready, step};
ghost use Rattle.replica_core.specs.Faults.{IsCause, HasRoomFor, set_made_by};
ghost use Rattle.shared_replica.specs.Faults.{IsFaultFor};
ghost use Rattle.shared_replica.specs.History.{IsStep, IsBook, with_step, book_at_start};
ghost use Rattle.replica_core.specs.declared.event.Event.TheVariants.{Take};
ghost use Rattle.shared_replica.specs.Passes.{pass_after_call, HasReceipt};
ghost use Rattle.shared_replica.specs.Preparing.{MayPrepare};
ghost use Rattle.shared_replica.specs.Closing.{sheet, IsMerge, tally_of_passes};

use crate::closed::ClosedBook;
use crate::closing::is_merge;
use crate::copies::is_commit;
use crate::draft::{Drafts, drafts_of};
use crate::naming::{LedgersOf, Naming};
use crate::pass::Pass;
use crate::room::add;
use crate::step::{Receipt, Receipts, Sheet, Step};
use crate::taking::Taking;
use commit_ledger::{Share, Total, count};
use gtid_set::SetFault;
use replica_core::{Core, Event, Reply};
use rows::{Footprint, Patch, Transaction};
use std::alloc::{AllocError, Global};
use std::marker::Model;
use std::snapshot::Snapshot;

/// What is under the lock: a core, and every step that was made since the opening that `N` names.
/// The steps are what one thread would have done with the opening, reply for reply, and the total
/// counts them.
#[derive(Drop)]
pub struct Book<N: Naming> {
    core: Core,
    steps: Vec<Step>,
    total: Total<LedgersOf<N>>,
}

impl<N: Naming> Model for Book<N> {
    ghost use Rattle.std.specs.Coded.{codes};
    ghost use Rattle.gtid_set.specs.Sets.{gtids_code};
    ghost use Rattle.rows.specs.Coding.{rows_code};
    ghost use Rattle.replica_core.specs.Slots.{seats_code};
    ghost use Rattle.shared_replica.specs.History.{BookValue, IsBook};

    ghost Value = { BookValue };

    ghost coded = { Prim.hlevel (codes, gtids_code, rows_code, seats_code) };

    ghost view = { λ b. record { opening = N.opening; steps = b.steps.items; now = b.core } };

    ghost invariant = { λ b. IsBook N.opening b.steps.items b.core b.total };
}

impl<N: Naming> Book<N> {
    /// A book before any step.
    pub(crate) fn new(alloc: Global, core: Core, total: Total<LedgersOf<N>>) -> Book<N>
        requires opening { core ≡ N.opening }
        requires total { total ≡ no_tally }
        ensures { result ≡ book_at_start core }
    {
        Book {
            core,
            steps: Vec::new(alloc),
            total,
        }
    }

    /// One step, with its line in the history and its receipt. A Commit uses a patch, if there is one. After an error nothing has changed.
    #[tactic(auto, using(crate::proofs::Faulty::fault_for))]
    pub(crate) fn make(
        &mut self,
        alloc: Global,
        event: &Event,
        patch: Option<Patch>,
        mine: &mut Pass<N>,
    ) -> Result<Reply, SetFault>
        requires { is_numbered event.now ≡ true }
        ensures step { IfOk result (λ r. IsStep self.old.now event.now r self.new.now) }
        ensures line { IfOk result (λ r. self.new ≡ with_step event.now r self.new.now self.old) }
        ensures pass { IfOk result (λ r. mine.new ≡ pass_after_call (length self.old.steps) event.now r mine.old) }
        ensures err { OnErr result ((self.new ≡ self.old) × (mine.new ≡ mine.old)) }
        ensures fault { IfErr result (λ f. IsCause f self.old.now.site self.old.now.state event.now) }
        ensures room { IfErr result (λ f. HasRoomFor f (set_made_by self.old.now.site self.old.now.state event.now)) }
        ensures kind { IfErr result (IsFaultFor event.now) }
    {
        let drafts = drafts_of(
            &self.core,
            alloc,
            event,
            &mut self.steps,
            &mut mine.receipts,
        )?;
        self.core.entries_are_kept();
        let reply = step_of(&mut self.core, alloc, event, patch)?;
        let Drafts { line, receipt } = drafts;
        let place = self.steps.len() as u64;
        let step = receipt.with_reply(&reply);
        count(&mut self.total, &mut mine.share, is_commit(&reply));
        add(&mut self.steps, line.with_reply(&reply));
        add(&mut mine.receipts, Receipt { place, step });
        Ok(reply)
    }
}

/// One event of a core: a Commit by a patch, if there is one.
fn step_of(
    core: &mut Core,
    alloc: Global,
    event: &Event,
    patch: Option<Patch>,
) -> Result<Reply, SetFault>
    requires { is_numbered event.now ≡ true }
    ensures ok { IfOk result (λ r. (r, core.new.state) ≡ step core.old.site core.old.state event.now) }
    ensures site { core.new.site ≡ core.old.site }
    ensures err { OnErr result (core.new ≡ core.old) }
    ensures fault { IfErr result (λ f. IsCause f core.old.site core.old.state event.now) }
    ensures room { IfErr result (λ f. HasRoomFor f (set_made_by core.old.site core.old.state event.now)) }
{
    let Some(patch) = patch else {
        return core.step(alloc, event);
    };
    match event {
        Event::Commit(seat) => core.commit_prepared(alloc, *seat, patch),
        _ => core.step(alloc, event),
    }
}

impl<N: Naming> Book<N> {
    /// What a seat's worker needs to prepare the transaction that the seat holds.
    pub(crate) fn footprint(
        &self,
        alloc: Global,
        seat: u8,
    ) -> Result<Option<(Transaction, Footprint)>, AllocError>
        ensures { IfOk result (λ r. IfSome r (λ p. MayPrepare N.opening.site.schema p.0 p.1)) }
    {
        self.core.footprint(alloc, seat)
    }

    /// Whether a seat holds a transaction.
    pub(crate) fn holds(&self, seat: u8) -> bool {
        self.core.held_changes(seat).is_some()
    }

    /// What a seat's worker needs to prepare the transaction that the seat holds, if that has at least `least` changes. Nothing if out of
    /// memory.
    fn footprint_of_many(
        &self,
        alloc: Global,
        seat: u8,
        least: usize,
    ) -> Option<(Transaction, Footprint)>
        ensures { IfSome result (λ p. MayPrepare N.opening.site.schema p.0 p.1) }
    {
        if self.core.held_changes(seat)? < least {
            return None;
        }
        self.footprint(alloc, seat).ok().flatten()
    }

    /// The seat takes a place, and is given what its worker needs to prepare a transaction of at least `least` changes.
    pub(crate) fn take(
        &mut self,
        alloc: Global,
        channel: usize,
        place: usize,
        least: usize,
        mine: &mut Pass<N>,
    ) -> Result<Taking, SetFault>
        ensures taken { IfOk result (λ taking. HasReceipt mine.old (Take mine.old.seat channel place) taking.reply mine.new) }
        ensures seen { IfOk result (λ taking. IfSome taking.footprint (λ p. MayPrepare N.opening.site.schema p.0 p.1)) }
        ensures err { OnErr result (mine.new ≡ mine.old) }
        ensures kind { IfErr result (IsFaultFor (Take mine.old.seat channel place)) }
    {
        let seat = mine.seat();
        let reply = self.make(alloc, &Event::Take(seat, channel, place), None, mine)?;
        let footprint = match reply {
            Reply::Taken(_) => self.footprint_of_many(alloc, seat, least),
            _ => None,
        };
        Ok(Taking { reply, footprint })
    }

    /// The least places of a channel from this number on that a seat might take, as many as there is room for; and how many they are.
    pub(crate) fn ready_places(&self, channel: usize, from: usize, places: &mut [usize]) -> usize {
        let mut from = from;
        let mut count = 0;
        for slot in places {
            let Some(place) = self.next_ready(channel, from) else {
                return count;
            };
            *slot = place;
            from = place.saturating_add(1);
            count += 1;
        }
        count
    }

    /// The least place of a channel from this number on that a seat might take.
    pub(crate) fn next_ready(&self, channel: usize, from: usize) -> Option<usize>
        ensures { result ≡ next_ready self.now.now.site self.now.now.state channel from }
    {
        self.core.next_ready(channel, from)
    }

    /// Whether the receipts are the steps of the book.
    pub(crate) fn is_of(&self, passes: &[Pass<N>]) -> bool
        requires { length passes.now ≤ 64 }
        ensures { IsTrue result → IsMerge passes.now self.now.steps }
    {
        is_merge(passes, self.steps.as_slice())
    }

    /// The book with the receipts of all seats, for which there is room.
    pub(crate) fn close(
        self,
        opening: Snapshot<Core>,
        sheets: Vec<Sheet>,
        passes: Vec<Pass<N>>,
    ) -> ClosedBook
        requires opening { opening.value ≡ N.opening }
        requires seats { vec_len passes ≡ N.seats }
        requires none { sheets.items ≡ [] }
        requires room { N.seats ≤ vec_capacity sheets }
        ensures book { (result.opening ≡ N.opening) × (result.steps ≡ self.steps) × (result.now ≡ self.now) }
        ensures kept { IsBook N.opening self.steps self.now result.counts }
        ensures shares { result.counts ≡ tally_of_passes passes.items }
        ensures sheets { result.sheets ≡ map sheet passes.items }
    {
        let Book {
            core,
            steps,
            mut total,
        } = self;
        let mut all = total.no_share();
        let sheets = sheets_of(&mut all, sheets, passes);
        let counts = total.audit(&mut all);
        ClosedBook {
            opening,
            core,
            steps,
            sheets,
            counts,
        }
    }
}

/// The receipts of the passes, whose shares are collected.
fn sheets_of<N: Naming>(
    all: &mut Share<LedgersOf<N>>,
    mut sheets: Vec<Sheet>,
    passes: Vec<Pass<N>>,
) -> Vec<Sheet>
    requires nothing { all.old ≡ empty_portion 0 }
    requires none { sheets.items ≡ [] }
    requires room { vec_len passes ≤ vec_capacity sheets }
    ensures sheets { result.items ≡ map sheet passes.items }
    ensures seats { all.new.seats ≡ vec_len passes }
    ensures tally { tally_of all.new ≡ tally_of_passes passes.items }
{
    for pass in passes {
        let Pass {
            seat,
            share,
            receipts,
        } = pass;
        all.join(share);
        let receipts = Receipts::of(receipts);
        add(&mut sheets, Sheet { seat, receipts });
    }
    sheets
}
