//! Events, and the replies to them.
ghost use Rattle.std.specs.Prelude.{◌≡◌};
ghost use Rattle.replica_core.specs.Machine.{is_numbered};

use gtid_set::GtidSet;
use gtid_text::Gtid;
use journal::{Entry, is_number};
use rows::{Name, NotInSchema, RowFault, Transaction};

/// A place of a channel, both counted from 0.
#[derive(Clone, Copy, Debug, PartialEq, Eq, Drop)]
pub struct Spot {
    pub channel: usize,
    pub place: usize,
}

/// One atomic step. Channels and places count from 0, seats from 1 to 64.
#[derive(Drop)]
pub enum Event {
    /// Opens a channel of this name, which preserves the order of its places or not.
    OpenChannel(Name, bool),
    /// Asks for the set with which a channel goes to its source. ("GTID Auto-Positioning")
    Position(usize),
    /// A channel receives an entry.
    Receive(usize, Entry),
    /// A seat takes the transaction at a place of a channel: seat, channel, place.
    Take(u8, usize, usize),
    /// A seat commits what it took.
    Commit(u8),
    /// A seat rolls back what it took.
    Rollback(u8),
    /// A stopped channel runs again.
    Restart(usize),
    /// A transaction of the server's own.
    Local(Transaction),
    /// This many of the own journal's first entries are purged.
    Purge(usize),
    /// Asks for the executed set.
    Look,
}

impl Event {
    /// Whether a replica may be given the event: the number of an entry to be received is in range.
    pub fn is_numbered(&self) -> bool
        ensures { result ≡ is_numbered self.now }
    {
        match self {
            Event::OpenChannel(_, _) => true,
            Event::Position(_) => true,
            Event::Receive(_, entry) => is_number(entry.gtid.number),
            Event::Take(_, _, _) => true,
            Event::Commit(_) => true,
            Event::Rollback(_) => true,
            Event::Restart(_) => true,
            Event::Local(_) => true,
            Event::Purge(_) => true,
            Event::Look => true,
        }
    }
}

/// The reply to one atomic step.
#[derive(Drop)]
pub enum Reply {
    /// A channel has that name.
    NameTaken,
    /// There are 256 channels.
    ChannelsFull,
    /// The channel has this number.
    Opened(usize),
    /// There is no channel of that number.
    NoChannel,
    /// The set with which the channel goes to its source.
    Ask(GtidSet),
    /// The channel has never asked.
    NotPositioned,
    /// The schema does not take this change.
    NotInSchema(NotInSchema),
    /// The channel has 4,294,967,294 entries.
    ChannelFull,
    /// The entry has this place.
    Received(usize),
    /// The seat is 0 or above 64.
    NoSeat,
    /// The seat owns this GTID already.
    SeatBusy(Gtid),
    /// The channel has no such place.
    NoPlace,
    /// The channel is stopped.
    Stopped,
    /// This GTID is executed already: the entry is skipped.
    Done(Gtid),
    /// This seat owns the GTID.
    OwnedBy(u8),
    /// This earlier place shares a key and is not executed; the least such place.
    Blocked(usize),
    /// The seat owns this GTID now.
    Taken(Gtid),
    /// The seat holds nothing.
    SeatIdle,
    /// This earlier place of a channel that preserves its order is not executed; the least such
    /// place. The seat keeps its GTID.
    Early(usize),
    /// The transaction does not apply: the GTID is free again, and the channel is stopped.
    RowRefused(Gtid, RowFault),
    /// This GTID is executed now.
    Committed(Gtid),
    /// This GTID is free again.
    RolledBack(Gtid),
    /// The channel is not stopped any more.
    Restarted,
    /// Each number of the own UUID is executed or owned.
    NumbersUsedUp,
    /// The transaction of the server's own does not apply.
    LocalRefused(RowFault),
    /// The own journal has only this many entries.
    TooMany(usize),
    /// The purged set now.
    Purged(GtidSet),
    /// The executed set.
    Shown(GtidSet),
}
