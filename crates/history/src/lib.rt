//! Histories: transactions that were committed in one order or by several sources, the rows that a set of them denotes, and which journals
//! are faithful to them.
//!
//! Definitions and laws, and no code: a law is the contract of a public function with an empty body, so that other crates can cite it and
//! the prover has checked it. Of which transactions conflict the theory knows two things alone (`rows`, `Conflicts`): it goes both ways, and
//! those that share a key do.
//!
//! - A world is the schema, the opening set with its rows, and the transactions beyond it in the order of their commits (`OrderedWorld`).
//!   Those that don't conflict may be committed in either order. A set is closed if it has with a transaction each earlier one that
//!   conflicts with it. `rows_of` a set applies its transactions in the world's order; no channel or worker is in it.
//! - The laws (`order`): in whatever order transactions are committed, each after those that it depends on, none is refused and the rows are
//!   those of the set (`commit_order_is_free`, `commit_orders_agree`); each key has what its last writer left (`row_is_of_last_writer`);
//!   closed sets are a lattice, with the union as join. `sound_worlds_exist` shows that the premises can be met.
//! - A journal is faithful if each of its prefixes is closed and each entry is what was committed under its GTID (`journals`).
//! - Several servers' histories that agree on the order of what conflicts have one order that they all extend (`histories`).
//! - What several sources committed (`sources`) is such a world too, sources ascending and within a source numbers ascending (`in_order`).
//!   `sources_are_an_order` says what it means in the words of sources and numbers, if transactions of two sources don't conflict.
#![tactic(auto)]

mod histories;
mod journals;
mod order;
mod sources;

pub use histories::{
    chains_are_exact, chains_decide, consistent_have_an_order, extended_are_consistent,
    extensions_are_commit_orders, extensions_merge, fault_is_real, faultless_are_consistent,
    orders_agree,
};
pub use journals::{faithful_goes_on, purged_is_faithful, whole_applies, whole_is_closed};
pub use order::{
    closed_sets_apply, closed_sets_are_a_lattice, closed_under_intersection, closed_under_union,
    commit_order_is_free, commit_orders_agree, early_commit, late_commit, opening_is_closed,
    row_is_of_last_writer, rows_are_carriers, sound_worlds_exist,
};
pub use sources::{
    alone_or_together, apart_commute, closed_by_source_are_a_lattice, join_laws, shares_are_parts,
    sound_sources_exist, sources_are_an_order, touched_decides, untouched_stays,
};
