//! What a command reads and answers, and how it is run.
ghost use Rattle.std.specs.Prelude.{◌≡◌, ℕ, List, IfOk, IfErr};
ghost use Rattle.gtid_set.specs.declared.fault.SetFault.{SetFault};
ghost use Rattle.commands.specs.Texts.{IsTextOf};
ghost use Rattle.commands.specs.Printed.{Printed, Holds, HoldsOne, Finds, IsAnswerTo, GivesUp, to_all, IsDone, HasFailed};

use crate::answer::{Answer, settle};
use crate::edge::{Outcome, RunFault, Sink, Source};
use crate::streams::Streams;
use crate::text::Text;
use gtid_report::Fault;
use std::alloc::Global;
use std::mem;
use txn_journal::JournalFault;

/// What a command answers to the value that it reads.
pub(crate) trait Request {
    /// What is read.
    type Value: Text;

    /// What is required of the request.
    ghost ready: { Self → Type 0 } = { λ _. Unit {0} };

    /// What is printed for a value, and how the command ends.
    ghost answers: { Self → Self.Value → Printed };

    /// A set that the answer needs may fail to be made, by this fault.
    ghost may_fail: { Self → Self.Value → SetFault → Type 0 } = { λ _ _ _. ⊥ };

    /// The answer to a value that was read.
    fn answer(&self, alloc: Global, value: &Self::Value) -> Result<Answer, Fault>
        requires { ready self.now }
        ensures comes { IfOk result (λ answer. Holds answer (answers self.now value.now)) }
        ensures fault { IfErr result (GivesUp (may_fail self.now value.now)) };
}

/// The answer to what the bytes parse as. A value is leaked on purpose: the end of the process frees it at once and not piece by piece.
fn find<Q: Request>(
    alloc: Global,
    request: &Q,
    decoded: Result<Q::Value, JournalFault>,
) -> Result<Answer, Fault>
    requires { Q.ready request.now }
    ensures { (bytes : List ℕ) → IsTextOf Q.Value.parses Q.Value.decoded bytes decoded → Finds (IsAnswerTo Q.Value.parses Q.Value.decoded (Q.answers request.now) (Q.may_fail request.now)) bytes result }
{
    match decoded {
        Ok(value) => {
            let answer = request.answer(alloc, &value);
            mem::forget(value);
            answer
        }
        Err(fault) => Err(Fault::from(fault)),
    }
}

/// What is written for what the bytes parse as.
pub(crate) fn answer_decoded<Q: Request>(
    alloc: Global,
    request: &Q,
    decoded: Result<Q::Value, JournalFault>,
) -> Result<Answer, RunFault>
    requires { Q.ready request.now }
    ensures ok { (bytes : List ℕ) → IsTextOf Q.Value.parses Q.Value.decoded bytes decoded → IfOk result (HoldsOne (IsAnswerTo Q.Value.parses Q.Value.decoded (Q.answers request.now) (Q.may_fail request.now)) bytes) }
    ensures memory { IfErr result (λ f. f ≡ RunFault.Memory) }
{
    settle(alloc, find(alloc, request, decoded))
}

/// Reads all, and writes the answer to it and nothing else.
pub(crate) fn run<Q: Request, S: Source, W: Sink>(
    alloc: Global,
    request: &Q,
    streams: &mut Streams<S, W>,
) -> Result<Outcome, RunFault>
    requires { Q.ready request.now }
    ensures done { let answers = IsAnswerTo Q.Value.parses Q.Value.decoded (Q.answers request.now) (Q.may_fail request.now) in IfOk result (IsDone (to_all answers) streams.old streams.new) }
    ensures failed { let answers = IsAnswerTo Q.Value.parses Q.Value.decoded (Q.answers request.now) (Q.may_fail request.now) in IfErr result (HasFailed (to_all answers) streams.old streams.new) }
{
    let decoded: Result<Q::Value, JournalFault> = streams.read_text(alloc)?;
    let answer = answer_decoded(alloc, request, decoded)?;
    streams.send(&answer)
}
