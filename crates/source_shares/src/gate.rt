//! Calls by which a thread reports the share that it applies.

/// What a thread calls at the beginning and at the end of each share. A gate that leaves out a call does nothing there.
pub trait ShareGate {
    /// A thread applies this share next.
    fn before_share(&self, _share: usize) {}

    /// The thread has applied this share, or has given it up.
    fn after_share(&self, _share: usize) {}
}

/// The gate of shares that does nothing.
#[derive(Drop)]
pub struct NoShareGate;

impl ShareGate for NoShareGate {}
