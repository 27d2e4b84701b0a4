//! Whether there is room for the set that an event makes. Nothing here allocates.
ghost use Rattle.std.specs.Prelude.{◌≡◌, true, false, Some};
ghost use Rattle.gtid_set.specs.declared.fault.SetFault.TheVariants.{Memory, SourcesFull};
ghost use Rattle.journal.specs.Journals.{previous_after_purge};
ghost use Rattle.replica_core.specs.Faults.{IsCause, IsFaultIn, HasRoomFor, set_made_by, ask_set, received_set, committed_set, numbered_set};

use crate::event::Event;
use crate::machine::{Core, is_seat};
use gtid_set::SetFault;
use gtid_text::Gtid;
use journal::Entry;

impl Core {
    /// Whether the set with which a channel would ask, if there is that channel, has not too many sources.
    fn has_room_to_ask(&self, channel: usize) -> bool
        ensures room { result ≡ true → HasRoomFor Memory (ask_set channel self.now.state) }
        ensures full { result ≡ false → IsFaultIn SourcesFull (ask_set channel self.now.state) }
    {
        let Some(one) = self.channels.get(channel) else {
            return true;
        };
        self.journal.executed().has_room_for_all(one.received())
    }

    /// Whether what a channel has received, if there is that channel, has room for an entry.
    fn has_room_to_receive(&self, channel: usize, entry: &Entry) -> bool
        ensures room { result ≡ true → HasRoomFor Memory (received_set channel entry.now self.now.state) }
        ensures full { result ≡ false → IsFaultIn SourcesFull (received_set channel entry.now self.now.state) }
    {
        let Some(one) = self.channels.get(channel) else {
            return true;
        };
        one.received().has_room_for(&entry.gtid)
    }

    /// Whether the executed set has room for what a seat holds, if it holds anything.
    fn has_room_to_commit(&self, seat: u8) -> bool
        ensures room { result ≡ true → HasRoomFor Memory (committed_set seat self.now.state) }
        ensures full { result ≡ false → IsFaultIn SourcesFull (committed_set seat self.now.state) }
    {
        self.one_seat_each();
        if !is_seat(seat) {
            return true;
        }
        let Some(gtid) = self.held_gtid(seat) else {
            return true;
        };
        self.executed().has_room_for(&gtid)
    }

    /// Whether the executed set has room for the next number of the own UUID, if there is one.
    fn has_room_for_own(&self) -> bool
        ensures room { result ≡ true → HasRoomFor Memory (numbered_set self.now.site self.now.state) }
        ensures full { result ≡ false → IsFaultIn SourcesFull (numbered_set self.now.site self.now.state) }
    {
        let Some(number) = self.next_number() else {
            return true;
        };
        let gtid = Gtid {
            source: self.own(),
            number,
        };
        self.executed().has_room_for(&gtid)
    }

    /// A law, which does nothing: the purged set is a part of the executed set, and has not too many sources.
    fn purged_has_room(&self, count: usize)
        ensures { HasRoomFor Memory (Some (previous_after_purge count self.now.state.journal)) }
    {
        self.executed_is_recorded();
        self.executed().keeps_limits();
    }

    /// Whether the set that an event makes, if it makes one, has not too many sources.
    fn has_room_to(&self, event: &Event) -> bool
        ensures room { result ≡ true → HasRoomFor Memory (set_made_by self.now.site self.now.state event.now) }
        ensures full { result ≡ false → IsCause SourcesFull self.now.site self.now.state event.now }
    {
        match event {
            Event::Position(channel) => self.has_room_to_ask(*channel),
            Event::Receive(channel, entry) => self.has_room_to_receive(*channel, entry),
            Event::Commit(seat) => self.has_room_to_commit(*seat),
            Event::Local(_) => self.has_room_for_own(),
            Event::Purge(count) => {
                self.purged_has_room(*count);
                true
            }
            _ => true,
        }
    }

    /// The fault of an event if there is no memory before its step: `SourcesFull` if the set that it makes would have more than 65,536
    /// sources, and else `Memory`.
    pub fn refusal(&self, event: &Event) -> SetFault
        ensures cause { IsCause result self.now.site self.now.state event.now }
        ensures room { HasRoomFor result (set_made_by self.now.site self.now.state event.now) }
    {
        if self.has_room_to(event) {
            return SetFault::Memory;
        }
        SetFault::SourcesFull
    }
}
