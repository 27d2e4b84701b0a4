//! Calls by which a worker reports its progress.
use gtid_text::Gtid;

/// What a worker calls at each step. No call is made with the lock held. A gate that leaves out `after_prepare` or `after_steal` does
/// nothing there.
pub trait Gate {
    /// The seat has taken this GTID; its transaction is prepared next, and then committed.
    fn before_prepare(&self, seat: u8, gtid: Gtid);

    /// The seat has prepared the transaction that it took last, without the lock, and commits it by its patch next.
    fn after_prepare(&self, _seat: u8) {}

    /// The seat has committed this GTID.
    fn after_commit(&self, seat: u8, gtid: Gtid);

    /// The seat has taken a ticket of another worker; it tries that place next.
    fn after_steal(&self, _seat: u8) {}
}

/// The gate that does nothing.
#[derive(Drop)]
pub struct NoGate;

impl Gate for NoGate {
    fn before_prepare(&self, _seat: u8, _gtid: Gtid) {}

    fn after_commit(&self, _seat: u8, _gtid: Gtid) {}
}
