//! The verdict of an audit.
use gtid_set::GtidSet;
use gtid_text::Gtid;
use rows::{Key, RowFault};

/// What an audit of journals finds first, in the order of these cases.
#[derive(Drop)]
pub enum Verdict {
    /// A GTID under which two journals have different transactions.
    Unequal(Gtid),
    /// A journal, counted from 0, whose previous set is not within the opening set; and what is
    /// missing.
    Purged(usize, GtidSet),
    /// The least GTID that is in no journal though a greater number of its source is.
    Missing(Gtid),
    /// Two GTIDs of different sources that share a key, the greater one second.
    Shared(Gtid, Gtid, Key),
    /// Two GTIDs that share a key, which two journals have in different orders. Only the audit in one
    /// order reports it.
    Reordered(Gtid, Gtid, Key),
    /// An entry that is in a journal without an earlier one of its source that shares a key; in the
    /// audit in one order, without one that shares a key and comes before it in another journal.
    NotClosed(Gtid, Gtid),
    /// Two GTIDs that share a key, each in a journal that lacks the other, if neither journal has both. Only the audit in one order reports
    /// it.
    Concurrent(Gtid, Gtid, Key),
    /// A transaction that does not apply after the earlier ones of its source.
    DoesNotApply(Gtid, RowFault),
    /// The journals can be merged.
    Sound,
}
