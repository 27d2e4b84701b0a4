//! Answers of a replica, as lines.
ghost use Rattle.std.specs.Prelude.{◌≡◌, IfOk, IfErr, OnErr, true, codes};
ghost use Rattle.replica_core.specs.Machine.{is_numbered, step};
ghost use Rattle.replica_core.specs.Faults.{IsCause, IsFaultIn};
ghost use Rattle.replica_script.specs.declared.answer.Stop.{Stop};
ghost use Rattle.replica_script.specs.declared.answer.Stop.TheVariants.{Memory};
ghost use Rattle.replica_script.specs.declared.question.Question.TheVariants as asked;
ghost use Rattle.replica_script.specs.Scripts.{Answers, IsAnswer, IsLeft, IsLeftBy, IsShown, IsStopAt, IsUnanswered, made_for, unanswered};
ghost use Rattle.replica_script.specs.Texts.{query_text};

use crate::query::query_text;
use crate::question::{Query, Question};
use crate::reply::reply_text;
use gtid_set::SetFault;
use replica_core::{Core, Event, Reply};
use std::alloc::{AllocError, Global};

/// Why a script ends before its input does.
#[derive(Clone, Copy, Drop)]
pub enum Stop {
    /// A line that is not in the language at its place, or an end inside a transaction.
    BadLine,
    /// Out of memory.
    Memory,
    /// A call that was refused memory has changed the replica.
    Changed,
}

impl From<AllocError> for Stop {
    ghost from_gives = { λ _ e. e ≡ Memory };

    fn from(_e: AllocError) -> Stop {
        Stop::Memory
    }
}

/// How often a call is made that is refused memory.
#[derive(Clone, Copy, Drop)]
pub enum Asking {
    /// Once.
    Once,
    /// Once more, if it is still equal to a copy that was made before.
    Again,
}

/// Why a replica does not answer.
#[derive(Clone, Copy, Drop)]
enum Unanswered {
    /// The set that is made would have too many sources.
    SourcesFull,
    /// A set that is made would have too many intervals.
    PoolFull,
    /// Out of memory.
    Memory,
    /// A call that was refused memory has changed the replica.
    Changed,
}

impl From<SetFault> for Unanswered {
    ghost from_gives = { λ fault e. e ≡ unanswered fault };

    fn from(fault: SetFault) -> Unanswered {
        match fault {
            SetFault::SourcesFull => Unanswered::SourcesFull,
            SetFault::PoolFull => Unanswered::PoolFull,
            SetFault::Memory => Unanswered::Memory,
        }
    }
}

/// A copy of a replica; if out of memory, it is asked for once more.
fn copy_of(alloc: Global, core: &Core) -> Result<Core, SetFault>
    ensures ok { IfOk result (λ copy. copy ≡ core.now) }
{
    match core.copy(alloc) {
        Ok(copy) => Ok(copy),
        Err(_) => core.copy(alloc),
    }
}

/// One event. If it was refused memory, it is made once more, if the replica is still equal to the copy that was made before, as it always
/// is.
fn step_beside(
    alloc: Global,
    core: &mut Core,
    event: &Event,
    before: &Core,
) -> Result<Reply, Unanswered>
    requires numbered { is_numbered event.now ≡ true }
    requires copied { before.now ≡ core.old }
    ensures ok { IfOk result (λ r. (r, core.new.state) ≡ step core.old.site core.old.state event.now) }
    ensures site { core.new.site ≡ core.old.site }
    ensures err { OnErr result (core.new ≡ core.old) }
    ensures fault { IfErr result (IsUnanswered (λ f. IsCause f core.old.site core.old.state event.now)) }
{
    match core.step(alloc, event) {
        Ok(reply) => Ok(reply),
        Err(SetFault::SourcesFull) => Err(Unanswered::SourcesFull),
        Err(SetFault::PoolFull) => Err(Unanswered::PoolFull),
        Err(_) if core.is_equal(before) => Ok(core.step(alloc, event)?),
        Err(_) => Err(Unanswered::Changed),
    }
}

/// One event, with a copy of the replica beside it.
fn step_again(alloc: Global, core: &mut Core, event: &Event) -> Result<Reply, Unanswered>
    requires { is_numbered event.now ≡ true }
    ensures ok { IfOk result (λ r. (r, core.new.state) ≡ step core.old.site core.old.state event.now) }
    ensures site { core.new.site ≡ core.old.site }
    ensures err { OnErr result (core.new ≡ core.old) }
    ensures fault { IfErr result (IsUnanswered (λ f. IsCause f core.old.site core.old.state event.now)) }
{
    match copy_of(alloc, core) {
        Ok(before) => {
            let reply = step_beside(alloc, core, event, &before);
            drop(before);
            reply
        }
        Err(_) => Err(Unanswered::Memory),
    }
}

/// One event: its reply, and the state that it leaves. After an error nothing has changed.
fn step(alloc: Global, core: &mut Core, event: &Event, asking: Asking) -> Result<Reply, Unanswered>
    requires { is_numbered event.now ≡ true }
    ensures ok { IfOk result (λ r. (r, core.new.state) ≡ step core.old.site core.old.state event.now) }
    ensures site { core.new.site ≡ core.old.site }
    ensures err { OnErr result (core.new ≡ core.old) }
    ensures fault { IfErr result (IsUnanswered (λ f. IsCause f core.old.site core.old.state event.now)) }
{
    match asking {
        Asking::Once => Ok(core.step(alloc, event)?),
        Asking::Again => step_again(alloc, core, event),
    }
}

/// The lines that answer a query. If out of memory, it is made once more, if the replica is still equal to the copy that was made before,
/// as it always is.
fn show_beside(
    alloc: Global,
    core: &Core,
    query: Query,
    before: &Core,
) -> Result<Vec<u8>, Unanswered>
    requires { before.now ≡ core.now }
    ensures ok { IfOk result (λ text. text.items ≡ query_text core.now query) }
    ensures fault { IfErr result (IsUnanswered (λ f. IsFaultIn f (made_for query core.now.state))) }
{
    match query_text(alloc, core, query) {
        Ok(text) => Ok(text),
        Err(SetFault::SourcesFull) => Err(Unanswered::SourcesFull),
        Err(SetFault::PoolFull) => Err(Unanswered::PoolFull),
        Err(_) if core.is_equal(before) => Ok(query_text(alloc, core, query)?),
        Err(_) => Err(Unanswered::Changed),
    }
}

/// The lines that answer a query, with a copy of the replica beside it.
fn show_again(alloc: Global, core: &Core, query: Query) -> Result<Vec<u8>, Unanswered>
    ensures ok { IfOk result (λ text. text.items ≡ query_text core.now query) }
    ensures fault { IfErr result (IsUnanswered (λ f. IsFaultIn f (made_for query core.now.state))) }
{
    match copy_of(alloc, core) {
        Ok(before) => {
            let text = show_beside(alloc, core, query, &before);
            drop(before);
            text
        }
        Err(_) => Err(Unanswered::Memory),
    }
}

/// The lines that answer a query.
fn show(alloc: Global, core: &Core, query: Query, asking: Asking) -> Result<Vec<u8>, Unanswered>
    ensures ok { IfOk result (λ text. text.items ≡ query_text core.now query) }
    ensures fault { IfErr result (IsUnanswered (λ f. IsFaultIn f (made_for query core.now.state))) }
{
    match asking {
        Asking::Once => Ok(query_text(alloc, core, query)?),
        Asking::Again => show_again(alloc, core, query),
    }
}

/// The line of a set that would have too many sources.
pub fn full_line(alloc: Global) -> Result<Vec<u8>, AllocError>
    ensures { IfOk result (λ text. text.items ≡ codes "SourcesFull\n") }
{
    Vec::from_slice(alloc, b"SourcesFull\n")
}

/// The line of a set that would have too many intervals.
pub fn crowded_line(alloc: Global) -> Result<Vec<u8>, AllocError>
    ensures { IfOk result (λ text. text.items ≡ codes "PoolFull\n") }
{
    Vec::from_slice(alloc, b"PoolFull\n")
}

/// Makes an event of a replica. If the set that it makes would have too many sources or intervals, that is the answer, and nothing has
/// changed.
pub fn answer_event(
    alloc: Global,
    core: &mut Core,
    event: &Event,
    asking: Asking,
) -> Result<Vec<u8>, Stop>
    ensures answer { IfOk result (λ text. IsAnswer core.old event.now core.new text.items) }
    ensures stop { IfErr result (IsStopAt (asked.Event event.now)) }
    ensures left { IfErr result (λ stop. IsLeft core.old event.now core.new) }
{
    if !event.is_numbered() {
        return Err(Stop::BadLine);
    }
    match step(alloc, core, event, asking) {
        Ok(reply) => match reply_text(alloc, &reply) {
            Ok(text) => Ok(text.into_bytes()),
            Err(_) => Err(Stop::Memory),
        },
        Err(Unanswered::SourcesFull) => Ok(full_line(alloc)?),
        Err(Unanswered::PoolFull) => Ok(crowded_line(alloc)?),
        Err(Unanswered::Memory) => Err(Stop::Memory),
        Err(Unanswered::Changed) => Err(Stop::Changed),
    }
}

/// Shows what a query asks for.
pub fn answer_query(
    alloc: Global,
    core: &Core,
    query: Query,
    asking: Asking,
) -> Result<Vec<u8>, Stop>
    ensures shown { IfOk result (λ text. IsShown core.now query text.items) }
    ensures stop { IfErr result (IsStopAt (asked.Query query)) }
{
    match show(alloc, core, query, asking) {
        Ok(text) => Ok(text),
        Err(Unanswered::SourcesFull) => Ok(full_line(alloc)?),
        Err(Unanswered::PoolFull) => Ok(crowded_line(alloc)?),
        Err(Unanswered::Memory) => Err(Stop::Memory),
        Err(Unanswered::Changed) => Err(Stop::Changed),
    }
}

/// An answer to a question.
pub fn answer(
    alloc: Global,
    core: &mut Core,
    question: Question,
    asking: Asking,
) -> Result<Vec<u8>, Stop>
    ensures answer { IfOk result (λ text. Answers core.old question core.new text.items) }
    ensures stop { IfErr result (IsStopAt question) }
    ensures left { IfErr result (λ stop. IsLeftBy core.old question core.new) }
{
    match question {
        Question::Event(event) => answer_event(alloc, core, &event, asking),
        Question::Query(query) => answer_query(alloc, core, query, asking),
    }
}
