//! Which order an audit asks for.

/// The order that transactions that share a key must have, so that journals can be merged. (Our own rule.)
#[derive(Clone, Copy, Drop)]
pub enum Order {
    /// That of their source, and two sources share no key: `audit`.
    BySource,
    /// One that all journals keep, whichever sources the transactions are of: `audit`.
    ByConflict,
}
