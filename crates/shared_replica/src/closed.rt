//! A history that no thread shares any more.
ghost use Rattle.std.specs.Prelude.{◌≡◌, true, ◌++◌, ◌∷◌, [], IfOk, IfErr, OnErr};
ghost use Rattle.replica_core.specs.Machine.{is_numbered};
ghost use Rattle.replica_core.specs.Faults.{IsCause, HasRoomFor, set_made_by};
ghost use Rattle.shared_replica.specs.History.{line, IsStep, IsReplay};
ghost use Rattle.shared_replica.specs.Closing.{closed_at_start, receipts_of};

use crate::draft::StepDraft;
use crate::room::add;
use crate::step::{Receipt, Sheet, Step};
use commit_ledger::Counts;
use gtid_set::SetFault;
use replica_core::{Core, Event, Reply};
use std::alloc::Global;
use std::marker::Model;
use std::snapshot::Snapshot;

/// The history of a replica: its opening, which contracts alone see, its steps and the core that
/// they leave, with the receipts of the seats and what their shares have counted. Further steps have
/// no receipt.
#[derive(Drop)]
pub struct ClosedBook {
    pub(crate) opening: Snapshot<Core>,
    pub(crate) core: Core,
    pub(crate) steps: Vec<Step>,
    pub(crate) sheets: Vec<Sheet>,
    pub(crate) counts: Counts,
}

impl Model for ClosedBook {
    ghost use Rattle.std.specs.Coded.{codes};
    ghost use Rattle.gtid_set.specs.Sets.{gtids_code};
    ghost use Rattle.rows.specs.Coding.{rows_code};
    ghost use Rattle.replica_core.specs.Slots.{seats_code};
    ghost use Rattle.shared_replica.specs.Closing.{ClosedValue};
    ghost use Rattle.shared_replica.specs.History.{IsReplay};

    ghost Value = { ClosedValue };

    ghost coded = { Prim.hlevel (codes, gtids_code, rows_code, seats_code) };

    ghost view = { λ b. record {
      opening = b.opening.value;
      steps = b.steps.items;
      now = b.core;
      sheets = b.sheets.items;
      counts = record { steps = b.counts.steps; commits = b.counts.commits };
    } };

    ghost invariant = { λ b. IsReplay b.opening.value b.steps.items b.core };
}

impl ClosedBook {
    /// A book with this opening and no step.
    pub fn start(alloc: Global, core: Core) -> ClosedBook
        ensures { result ≡ closed_at_start core }
    {
        ClosedBook {
            opening: Snapshot::of(&core),
            core,
            steps: Vec::new(alloc),
            sheets: Vec::new(alloc),
            counts: Counts {
                steps: 0,
                commits: 0,
            },
        }
    }

    /// The core that the steps leave.
    pub fn state(&self) -> &Core
        ensures state { result.now ≡ self.now.now }
        ensures legal { IsReplay self.now.opening self.now.steps self.now.now }
    {
        &self.core
    }

    /// All steps in order.
    pub fn steps(&self) -> &[Step]
        ensures { result.now ≡ self.now.steps }
    {
        self.steps.as_slice()
    }

    /// The receipts of a seat in order, none if it was not opened.
    pub fn receipts(&self, seat: u8) -> &[Receipt]
        ensures { result.now ≡ receipts_of seat self.now.sheets }
    {
        for sheet in &self.sheets {
            if sheet.seat == seat {
                return sheet.receipts.as_slice();
            }
        }
        &[]
    }

    /// What the shares of the seats have counted.
    pub fn counts(&self) -> Counts
        ensures steps { result.steps ≡ self.now.counts.steps }
        ensures commits { result.commits ≡ self.now.counts.commits }
    {
        self.counts
    }

    /// One step more, for which there is no receipt. After an error nothing has changed; another error than `Memory` comes only if the set
    /// that the event makes has no room, and `Memory` only if that set has not too many sources. The numbers of received GTIDs are 1 to
    /// 9223372036854775807.
    pub fn step(&mut self, alloc: Global, event: &Event) -> Result<Reply, SetFault>
        requires { is_numbered event.now ≡ true }
        ensures step { IfOk result (λ r. IsStep self.old.now event.now r self.new.now) }
        ensures line { IfOk result (λ r. self.new ≡ record self.old { steps = self.old.steps ++ line event.now r ∷ []; now = self.new.now }) }
        ensures err { OnErr result (self.new ≡ self.old) }
        ensures fault { IfErr result (λ f. IsCause f self.old.now.site self.old.now.state event.now) }
        ensures room { IfErr result (λ f. HasRoomFor f (set_made_by self.old.now.site self.old.now.state event.now)) }
    {
        if self.steps.reserve(1).is_err() {
            return Err(self.core.refusal(event));
        }
        let draft = StepDraft::of(&self.core, alloc, event)?;
        let reply = self.core.step(alloc, event)?;
        add(&mut self.steps, draft.with_reply(&reply));
        Ok(reply)
    }
}
