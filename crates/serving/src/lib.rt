//! The journals of a bundle served to its replica, each on a channel of its own, and the result.
//!
//! An audit asks for an `Order`: of sources that share no key (`audit`), or of what shares a key, whichever sources wrote it (`audit`).
//! `begin` audits the keys by it (`audit_of_keys`), opens a replica and its channels, and lets each receive what `plan` of `auto_position`
//! sends (`receive_all`). `conclude` decides the result of a replica on which seats have worked since. `serve` lets seat 1 commit each
//! entry as it is received (`apply_all`). `begin` and `serve` give a `StateOrVerdict`: a replica, or the verdict of the audit, which is not
//! Sound. Their parts only read the bundle and need nothing of one another, so that they may run at the same time: the audit decides
//! whether what was served counts. Serving asks only that no source has purged what the opening set lacks (`can_be_sent`).
//!
//! Where the opening rows of a bundle aren't known (`Bundle::lacks_rows`), `audited_over` and `faults_known` audit the keys alone (`keys_settle`).
//!
//! What a contract sees: the bundle as its value, and the replica. Each bundle can be served, for its type keeps the rules of its format
//! (`keeps_servable`; `IsServable`: at most 256 journals, each with a channel of its own name and transactions that the tables take).
//!
//! The contract of `conclude` holds for every replica that was served so and whose seats took, committed and rolled back in any order,
//! until each channel is stopped or done: None only if the audit reports Sound, all journals are executed, and the rows are those that
//! their union denotes (`HasMerged`); else exactly the verdict. The proof shows that the run serves all journals, and cites `convergence`.
//!
//! Errors are out of memory, or a full set for the bundle as a whole (`IsBundleFault`): all GTIDs together have more than 65,536 sources,
//! or the intervals of its sets and its entries together are more than 4,294,967,294.
//!
//! Not proved: speed. Measured: 2.5 s for 1,000,000 transactions, the audit apart.
#![tactic(auto)]

mod event;
mod laws;
mod listing;
mod order;
mod outcome;
mod receiving;
mod working;

pub use laws::keys_settle;
pub use listing::{faults_known, faults_over};
pub use order::Order;
pub use outcome::{
    StateOrVerdict, apply_all, audit_of_keys, audited_over, begin, can_be_sent, conclude,
    conclude_applied, keeps_servable, receive_all, serve, verdict_over, world_of,
};
pub use receiving::entries_sent;
