//! Whether journals can be merged at all, and if not, which transactions are at fault: the verdicts of an audit, as definitions, and what
//! they mean, as laws. The code that finds them is crate `audit`. (A server neither detects nor resolves conflicts between sources: MySQL
//! 8.0 Reference Manual, "MySQL Multi-Source Replication".)
//!
//! The verdicts in the order in which they are tested: two journals differ under one GTID (Unequal); a previous set goes beyond the opening
//! set (Purged); a number is missing (Missing); two sources share a key (Shared); a journal has an entry without an earlier one that it
//! depends on (NotClosed); a transaction does not apply after the earlier ones of its source (DoesNotApply).
//!
//! `sound_means_sound`: if the verdict is Sound, the world of the journals is sound and each journal is faithful (`history`).
//! `verdicts_name_faults`: every other verdict names a fault that is there. `missing_is_least`, `shared_is_least`, `first_source_fails`:
//! the one that is named is the least. The converse of the first law needs previous sets within the opening set (`faithful_is_sound`).
//!
//! The one-pass laws (`one_pass_shares`, `one_pass_closes`, `one_pass_applies`) state by which single pass an audit finds the same in n log
//! n steps.
//!
//! In one order (`order`): what follows for journals from their histories, whichever sources wrote them, and what an audit of them finds.
#![tactic(auto)]

mod laws;
mod order;
mod verdict;

pub use laws::{
    faithful_is_sound, first_source_fails, keys_sound_mean, missing_is_least, one_pass_applies,
    one_pass_closes, one_pass_shares, shared_is_least, sound_means_sound, verdicts_name_faults,
};
pub use order::{
    chains_are_enough, equal_unions_equal_rows, journals_are_faithful, keys_in_order_mean,
    sound_in_order_means, verdicts_name_faults_in_order,
};
pub use verdict::Verdict;
