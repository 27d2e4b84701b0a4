//! What is said of a log before it is read.

use gtid_set::GtidSet;

/// What is said of a log before it is read.
#[derive(Clone, Copy)]
pub struct GivenSets<'a> {
    /// What comes before the log: its transactions are passed over.
    pub opening: &'a GtidSet,
    /// The GTIDs for whose statements an operator answers: they change no row of the tables, and stop no replica.
    pub accepted: &'a GtidSet,
}
