//! One event, and events in turn.
ghost use Rattle.std.specs.Prelude.{◌≡◌, ◌<◌, ◌∷◌, [], ◌++◌, IfOk, IfErr, IfSome, OnErr, Some, None, true, length, vec_len, vec_capacity, slice_get};
ghost use Rattle.replica_core.specs.Machine.{purge, look, step, is_numbered, AreNumbered, replies, after};
ghost use Rattle.replica_core.specs.Replies.{answered_events};
ghost use Rattle.journal.specs.Journals.{previous_after_purge};
ghost use Rattle.journal.specs.Faults.{IsPurgedFault};
ghost use Rattle.replica_core.specs.Faults.{IsFault, IsFaultIn, IsFaultAt, IsStepFault, HasRoomFor, HasRoomAt, set_made_by};

use crate::event::{Event, Reply};
use crate::machine::Core;
use gtid_set::SetFault;
use relay::PurgeFault;
use std::alloc::Global;

impl Core {
    /// The event Purge.
    fn purge(&mut self, alloc: Global, count: usize) -> Result<Reply, SetFault>
        ensures ok { IfOk result (λ r. (r, self.new.state) ≡ purge count self.old.state) }
        ensures site { self.new.site ≡ self.old.site }
        ensures err { OnErr result (self.new ≡ self.old) }
        ensures fault { IfErr result (λ f. IsFault (IsPurgedFault f count self.old.state.journal) (purge count self.old.state)) }
        ensures room { IfErr result (λ f. HasRoomFor f (Some (previous_after_purge count self.old.state.journal))) }
    {
        match self.journal.purge(alloc, count) {
            Ok(purged) => return Ok(Reply::Purged(purged)),
            Err(PurgeFault::TooMany(there)) => return Ok(Reply::TooMany(there)),
            Err(PurgeFault::Set(fault)) => return Err(fault),
        }
    }

    /// The event Look.
    fn look(&self, alloc: Global) -> Result<Reply, SetFault>
        ensures ok { IfOk result (λ r. (r, self.now.state) ≡ look self.now.state) }
        ensures fault { IfErr result (λ f. IsFault (IsFaultIn f None) (look self.now.state)) }
    {
        let shown = self.executed().copy(alloc)?;
        Ok(Reply::Shown(shown))
    }

    /// One event: its reply, and the state that it leaves. After an error nothing has changed. An error comes only in place of a reply that
    /// allocates: `Memory` if out of memory and the set that the event makes, if it makes one, has at most 65,536 sources (`room`), and
    /// `SourcesFull` or `PoolFull` only if the set that the event makes would have more than 65,536 sources, or more than 4,294,967,294
    /// intervals: the set to ask with, the received set with the entry's GTID, the executed set with the committed GTID, or the purged set.
    /// The purged set is made entry by entry, and has too many intervals also if it has them on the way. The numbers of received GTIDs are
    /// 1 to 9223372036854775807.
    pub fn step(&mut self, alloc: Global, event: &Event) -> Result<Reply, SetFault>
        requires { is_numbered event.now ≡ true }
        ensures ok { IfOk result (λ r. (r, self.new.state) ≡ step self.old.site self.old.state event.now) }
        ensures site { self.new.site ≡ self.old.site }
        ensures err { OnErr result (self.new ≡ self.old) }
        ensures fault { IfErr result (λ f. IsStepFault f self.old.site self.old.state event.now) }
        ensures room { IfErr result (λ f. HasRoomFor f (set_made_by self.old.site self.old.state event.now)) }
    {
        match event {
            Event::Take(seat, channel, place) => Ok(self.take(*seat, *channel, *place)),
            Event::Commit(seat) => self.commit(alloc, *seat, None),
            Event::Rollback(seat) => Ok(self.rollback(*seat)),
            Event::Restart(channel) => Ok(self.restart(*channel)),
            Event::Look => self.look(alloc),
            Event::OpenChannel(name, preserve) => self.open_channel(alloc, name, *preserve),
            Event::Position(channel) => self.position(alloc, *channel),
            Event::Receive(channel, entry) => self.receive(alloc, *channel, entry),
            Event::Local(changes) => self.local(alloc, changes),
            Event::Purge(count) => self.purge(alloc, *count),
        }
    }
}

/// Appends a reply, if there is room.
fn put(so_far: &mut Vec<Reply>, reply: Reply)
    requires { vec_len so_far.old < vec_capacity so_far.old }
    ensures { so_far.new.items ≡ so_far.old.items ++ reply ∷ [] }
{
    if so_far.push(reply).is_err() {
        unreachable!()
    }
}

impl Core {
    /// Events in turn: the replies up to the first error, and that error. What came before it stays. Room for each reply is made before its
    /// step. The error is that of the next event's step; or, if there was no room for its reply, `SourcesFull` if the set that it makes
    /// would have more than 65,536 sources, and else `Memory`.
    pub fn run(&mut self, alloc: Global, events: &[Event]) -> (Vec<Reply>, Option<SetFault>)
        requires { AreNumbered events.now }
        ensures replies { result.0.items ≡ replies self.old.site self.old.state (answered_events result.0.items events.now) }
        ensures state { self.new.state ≡ after self.old.site self.old.state (answered_events result.0.items events.now) }
        ensures whole { result.1 ≡ None → length result.0.items ≡ length events.now }
        ensures cut { IfSome result.1 (λ fault. length result.0.items < length events.now) }
        ensures site { self.new.site ≡ self.old.site }
        ensures fault { IfSome result.1 (λ f. IsFaultAt f self.old.site self.new.state (slice_get events.now (length result.0.items))) }
        ensures room { IfSome result.1 (λ f. HasRoomAt f self.old.site self.new.state (slice_get events.now (length result.0.items))) }
    {
        let mut so_far = Vec::new(alloc);
        for event in events {
            if so_far.reserve(1).is_err() {
                return (so_far, Some(self.refusal(event)));
            }
            match self.step(alloc, event) {
                Ok(reply) => put(&mut so_far, reply),
                Err(fault) => return (so_far, Some(fault)),
            }
        }
        (so_far, None)
    }
}
