//! The merge theorem: replicas that were served faithful journals and show the same executed set hold the same rows, whatever happened in
//! between.
//!
//! Laws (public functions with empty bodies) over runs of the state machine, for a world in which all was committed in one order
//! (`history`): sources may touch the same keys, as long as transactions that share a key are in one order everywhere.
//! A run is any list of events; what it leaves is `after`, by the definition `step` of `replica_core`, which `Core::step` and `Core::run`
//! refine. So the laws hold of compiled code up to the first event that is refused memory.
//!
//! A run is faithful (`IsFaithfulRun`) if what each channel received since its last Position is a prefix of what some faithful journal
//! sends to the set that it asked with, and if each Local commits what the world has under that GTID, on a server that has executed what
//! comes before it in the world's order and shares a key with it. Nothing else is required: channels are opened, positioned, left and
//! positioned again, seats take, commit and roll back as they like, and the own journal is purged at will.
//!
//! `faithful_runs_merge`: after such a run of a sound world the rows are those that the executed set denotes, each key has its last
//! writer's row, no channel is stopped, no commit was refused, and the own journal is faithful. `equal_sets_equal_rows`: two such runs with
//! equal executed sets have equal rows. `fronts_are_faithful`: a prefix of such a run is one. `runs_go_on`: from where the prefix ends,
//! what comes after the rest is merged too, and no commit of the rest was refused. `served_is_joined` and `served_are_joined`: a journal
//! that is served whole joins the executed set. `served_runs_decide` and `served_runs_hold_all`: a run that serves all journals, each on
//! some channel or on several, executes all of them if and only if the world's list applies, and then holds the rows of all.
//!
//! With no world and no premise on keys, order or journals: what a replica holds is what its own log makes of the opening rows
//! (`runs_are_of_logs`), and two replicas opened alike, whose logs have equal transactions under equal GTIDs and whose executed sets are
//! equal, hold equal rows (`logs_decide_rows`). The log of a run is what was appended to the own journal, in order, whatever was purged
//! since. If an order matters, a commit is refused, and its channel stops.
//!
//! For sources (`sources`): a world of sources that share no key is such a world (`history::sources_are_an_order`), and a run that is
//! faithful by source and number is faithful in the order (`faithful_in_order`), so it merges in these words too (`runs_of_sources_merge`,
//! `equal_sets_of_sources`). `workers_decide` and `served_holds_all` relate runs to the audit (`audited`): a run that serves all journals,
//! each on some channel or on several, executes all of them if and only if the audit reports Sound. `workers_decide_in_order` and
//! `served_holds_all_in_order` state the same for the audit in one order.
//!
//! Not stated: that a run goes on, that is, that some seat takes what is ready.
#![tactic(auto)]

mod audited;
mod order;
mod sources;

pub use audited::{
    served_holds_all, served_holds_all_in_order, workers_decide, workers_decide_in_order,
};
pub use order::{
    equal_sets_equal_rows, faithful_runs_merge, fronts_are_faithful, logs_decide_rows,
    runs_are_of_logs, runs_go_on, served_are_joined, served_is_faithful, served_is_joined,
    served_runs_decide, served_runs_hold_all,
};
pub use sources::{equal_sets_of_sources, faithful_in_order, runs_of_sources_merge};
