//! Steps whose reply is not known yet.
ghost use Rattle.std.specs.Prelude.{◌≡◌, ◌<◌, IfOk, IfErr, OnOk, vec_len};
ghost use Rattle.std.specs.Vec.{vec_capacity};
ghost use Rattle.replica_core.specs.Faults.{IsCause, HasRoomFor, set_made_by};
ghost use Rattle.shared_replica.specs.Drafts.{IsDraft};
ghost use Rattle.shared_replica.specs.History.{line};
ghost use Rattle.shared_replica.specs.Spare.{IsSpare};

use crate::copies::{copy_of, set_of_reply, twin};
use crate::step::{Receipt, Step};
use gtid_set::{GtidSet, SetFault};
use replica_core::{Core, Event, Reply};
use std::alloc::Global;

/// A step before its reply: a copy of its event, and the set that the reply will show, if it shows
/// one.
#[derive(Drop)]
pub(crate) struct StepDraft {
    event: Event,
    spare: Option<GtidSet>,
}

impl StepDraft {
    /// A draft of the step that an event will make of a core.
    pub(crate) fn of(core: &Core, alloc: Global, event: &Event) -> Result<StepDraft, SetFault>
        ensures ok { IfOk result (IsDraft core.now event.now) }
        ensures fault { IfErr result (λ f. IsCause f core.now.site core.now.state event.now) }
        ensures room { IfErr result (λ f. HasRoomFor f (set_made_by core.now.site core.now.state event.now)) }
    {
        match StepDraft::copy(core, alloc, event) {
            Ok(draft) => Ok(draft),
            Err(SetFault::Memory) => Err(core.refusal(event)),
            Err(fault) => Err(fault),
        }
    }

    /// The same; any fault may be a failed allocation.
    #[tactic(auto, using(crate::proofs::Faulty::memory_anywhere))]
    fn copy(core: &Core, alloc: Global, event: &Event) -> Result<StepDraft, SetFault>
        ensures ok { IfOk result (IsDraft core.now event.now) }
        ensures fault { IfErr result (λ f. IsCause f core.now.site core.now.state event.now) }
    {
        let spare = set_of_reply(core, alloc, event)?;
        let event = copy_of(event)?;
        Ok(StepDraft { event, spare })
    }

    /// The step with its reply. It does not allocate.
    pub(crate) fn with_reply(self, reply: &Reply) -> Step
        requires { IsSpare reply.now self.spare }
        ensures { result ≡ line self.event reply.now }
    {
        let StepDraft { event, spare } = self;
        Step {
            event,
            reply: twin(reply, spare),
        }
    }
}

/// The two drafts of a step: of its line in the history, and of its receipt.
#[derive(Drop)]
pub(crate) struct Drafts {
    pub(crate) line: StepDraft,
    pub(crate) receipt: StepDraft,
}

/// Room for a step's line and for its receipt, and a draft of both.
pub(crate) fn drafts_of(
    core: &Core,
    alloc: Global,
    event: &Event,
    steps: &mut Vec<Step>,
    receipts: &mut Vec<Receipt>,
) -> Result<Drafts, SetFault>
    ensures steps { steps.new.items ≡ steps.old.items }
    ensures receipts { receipts.new.items ≡ receipts.old.items }
    ensures room { OnOk result ((vec_len steps.new < vec_capacity steps.new) × (vec_len receipts.new < vec_capacity receipts.new)) }
    ensures line { IfOk result (λ d. IsDraft core.now event.now d.line) }
    ensures receipt { IfOk result (λ d. IsDraft core.now event.now d.receipt) }
    ensures fault { IfErr result (λ f. IsCause f core.now.site core.now.state event.now) }
    ensures memory { IfErr result (λ f. HasRoomFor f (set_made_by core.now.site core.now.state event.now)) }
{
    if steps.reserve(1).is_err() {
        return Err(core.refusal(event));
    }
    if receipts.reserve(1).is_err() {
        return Err(core.refusal(event));
    }
    let line = StepDraft::of(core, alloc, event)?;
    let receipt = StepDraft::of(core, alloc, event)?;
    Ok(Drafts { line, receipt })
}
