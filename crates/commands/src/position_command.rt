//! The command `position`.
ghost use Rattle.std.specs.Prelude.{◌≡◌, IfOk, IfErr, Ok, Err};
ghost use Rattle.auto_position.specs.Sending.{IsPlanFault};
ghost use Rattle.gtid_report.specs.SetAnswers as words;
ghost use Rattle.commands.specs.Printed.{Holds, refused_with, at_once, IsDone, HasFailed};
ghost use Rattle.commands.specs.Positions.{asking_in, printed_sending, position_answer, to_asking};

use crate::answer::{Answer, refusal_answer, with_line_feed};
use crate::edge::{Outcome, RunFault, Sink, Source};
use crate::pieces::Text;
use crate::request::{Request, run};
use crate::streams::Streams;
use auto_position::PositionFault;
use gtid_report::{
    Fault, Refusal, read_set, read_source, render_more, render_required, render_sending,
};
use gtid_set::GtidSet;
use gtid_text::SourceId;
use journal::{Entry, Journal};
use serving::entries_sent;
use std::alloc::{AllocError, Global};

/// The set with which a replica asks a source.
#[derive(Drop)]
struct ReplicaAsk {
    /// The source's own UUID.
    source: SourceId,
    /// The set with which the replica asks.
    gtids: GtidSet,
}

/// What the words name.
fn asked_of(alloc: Global, own: &str, ask: &str) -> Result<ReplicaAsk, Fault>
    ensures { words.Answers (λ x. (x.source, x.gtids)) result (asking_in own.now ask.now) }
{
    match read_source(own) {
        Ok(source) => match read_set(alloc, ask) {
            Ok(gtids) => Ok(ReplicaAsk { source, gtids }),
            Err(fault) => Err(fault),
        },
        Err(fault) => Err(fault),
    }
}

/// The lines of what is sent.
fn sent_answer(alloc: Global, entries: &[Entry]) -> Result<Answer, AllocError>
    ensures { IfOk result (λ answer. Holds answer (printed_sending (Ok entries.now))) }
{
    Ok(Answer {
        outcome: Outcome::Done,
        text: Text::of(alloc, render_sending(alloc, entries)?),
    })
}

/// The line of what was purged and is asked for.
fn purged_answer(alloc: Global, gtids: &GtidSet) -> Result<Answer, AllocError>
    ensures { IfOk result (λ answer. Holds answer (printed_sending (Err (PositionFault.PurgedRequired gtids.now)))) }
{
    let line = render_required(alloc, gtids)?;
    Ok(Answer {
        outcome: Outcome::Refused,
        text: Text::of(alloc, with_line_feed(line)?),
    })
}

/// The line of the source's own GTIDs that the replica has and the source has no record of.
fn more_answer(alloc: Global, gtids: &GtidSet) -> Result<Answer, AllocError>
    ensures { IfOk result (λ answer. Holds answer (printed_sending (Err (PositionFault.ReplicaHasMore gtids.now)))) }
{
    let line = render_more(alloc, gtids)?;
    Ok(Answer {
        outcome: Outcome::Refused,
        text: Text::of(alloc, with_line_feed(line)?),
    })
}

impl Request for ReplicaAsk {
    type Value = Journal;

    ghost answers = { λ asked j. position_answer (asked.source, asked.gtids) j };

    ghost may_fail = { λ asked j. IsPlanFault j asked.gtids };

    fn answer(&self, alloc: Global, journal: &Journal) -> Result<Answer, Fault> {
        match entries_sent(alloc, Some(self.source), journal, &self.gtids) {
            Ok(entries) => Ok(sent_answer(alloc, &entries)?),
            Err(PositionFault::PurgedRequired(gtids)) => Ok(purged_answer(alloc, &gtids)?),
            Err(PositionFault::ReplicaHasMore(gtids)) => Ok(more_answer(alloc, &gtids)?),
            Err(PositionFault::Set(fault)) => Err(Fault::from(fault)),
        }
    }
}

/// Writes the line of a refusal, and nothing else.
fn refuse<S: Source, W: Sink>(
    alloc: Global,
    refusal: &Refusal,
    streams: &mut Streams<S, W>,
) -> Result<Outcome, RunFault>
    ensures done { IfOk result (IsDone (at_once (refused_with refusal.now)) streams.old streams.new) }
    ensures failed { IfErr result (HasFailed (at_once (refused_with refusal.now)) streams.old streams.new) }
{
    let Ok(answer) = refusal_answer(alloc, refusal) else {
        return Err(RunFault::Memory);
    };
    streams.send(&answer)
}

/// Reads a journal, and writes what its source, with this UUID, sends to a replica that asks with this set: how many entries, and their
/// GTIDs in journal order; or the line of the refusal. Nothing else is written. If a word is bad, its refusal is written and nothing is
/// read; a bad UUID is named first.
pub fn run_position<S: Source, W: Sink>(
    alloc: Global,
    own: &str,
    ask: &str,
    streams: &mut Streams<S, W>,
) -> Result<Outcome, RunFault>
    ensures done { IfOk result (IsDone (to_asking (asking_in own.now ask.now)) streams.old streams.new) }
    ensures failed { IfErr result (HasFailed (to_asking (asking_in own.now ask.now)) streams.old streams.new) }
{
    match asked_of(alloc, own, ask) {
        Ok(asked) => run(alloc, &asked, streams),
        Err(Fault::Memory) => Err(RunFault::Memory),
        Err(Fault::Refused(refusal)) => refuse(alloc, &refusal, streams),
    }
}
