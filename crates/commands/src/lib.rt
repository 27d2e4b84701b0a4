//! The commands as a library, over any reader and writer: `run_set`, `run_position`, `run_audit`, `run_list`, `run_explain`, `run_upgrade`,
//! `run_states`, `run_events`, `run_import`, `apply_bundle`, `apply_and_tell`, `run_version`; and over a bundle that was read `apply_decoded`,
//! `merge_decoded` and `apply_journals`, by threads.
//!
//! What a contract sees: of `Streams` the reader with the bytes that it has left and its failed calls (`Input`), and the writer with the
//! bytes that it holds and its failed calls (`Output`), each if known.
//!
//! Each command has two clauses. `done`: the output is exactly the answer to the bytes that were read. `failed`: if out of memory, or if a
//! read failed, nothing was written; if a write failed, a prefix of the answer. `run_states`, which writes its answer server by server, may
//! have written a prefix of it if out of memory (`HasStopped`).
//!
//! `run_explain`, `run_import` and `apply_and_tell` take a second writer, for notes: after the answer has been written, `run_explain`
//! writes what explains it, `apply_and_tell` the lines of the history, and `run_import` what a verdict on the bundle won't see, or, if the
//! answer is empty, the line of the refusal (`HasReported`, `HasNotReported`). What is known at a refused line of a log is a fold over the
//! lines before it (`place_at`).
//!
//! The answer of `apply` and `audit` is a function of the bytes: if they are no bundle, the refusal that `decode_bundle` is proved to give;
//! if they are one, the verdict, or, for `apply`, if that is Sound, the union of all journals with the rows that it denotes (`rows_of`); or
//! E8 or E9, if a set that they need is full. So the merge theorem is about a call that the program makes.
//!
//! Two bundles with equal tables, opening rows, opening sets and unions, whose transactions are equal under equal GTIDs, have one answer of
//! `apply`, by whichever order, if that has rows (`equal_unions_equal_answers`).
//!
//! `apply` has two ways with one answer (`comes` of both). `apply_decoded` is what a replica does: it opens, positions and serves a
//! replica, and then the workers share it, with a history that `apply_and_tell` shows; what they leave is drained. The proof uses the
//! history alone: it is a run of takes, commits and rollbacks, and `conclude` of `serving` does the rest. If the history cannot be closed,
//! a replica is served anew on one thread. `apply_journals` gives back the history itself.
//!
//! `merge_decoded` is the fast way to that answer. It chooses by the number of workers and the order: one thread; threads that apply shares
//! of the sources, or one thread if these share a key; or, if sources may share keys, one thread that serves and a second one that audits
//! the keys, both of which only read the bundle.
//!
//! `apply_bundle`, `apply_and_tell` and the functions `run_` are a program's last call: what they read may be leaked on purpose, since the
//! end of the process frees it at once. `apply_decoded`, `merge_decoded` and `apply_journals` free what they made and don't give back.
//!
//! Not proved: that workers do anything (what they leave is drained), and speed. A call that a signal interrupts is made again, up to
//! 1,000 times.
#![tactic(auto)]

mod answer;
mod applied_answer;
mod apply_command;
mod audit_command;
mod blocks;
mod bundle_reading;
mod edge;
mod events_command;
mod explain_command;
mod history_command;
mod import_command;
mod import_fault;
mod import_files;
mod import_refusal;
mod laws;
mod list_command;
mod log_places;
mod merge_way;
mod parallel;
mod pieces;
mod position_command;
mod printing;
mod reading;
mod replica_way;
mod report;
mod request;
mod set_command;
mod side_by_side;
mod states_command;
mod streams;
mod summary_command;
mod text;
mod unapplied;
mod upgrade_command;
mod version_command;
mod whole;
mod worker_history;
mod wrap;

pub use answer::Answer;
pub use apply_command::{Way, apply_bundle};
pub use audit_command::run_audit;
pub use edge::{Failed, Outcome, RunFault, Sink, Source};
pub use events_command::run_events;
pub use explain_command::run_explain;
pub use history_command::apply_and_tell;
pub use import_command::run_import;
pub use import_files::run_import_files;
pub use laws::equal_unions_equal_answers;
pub use list_command::run_list;
pub use merge_way::merge_decoded;
pub use parallel::apply_journals;
pub use pieces::Text;
pub use position_command::run_position;
pub use replica_way::apply_decoded;
pub use set_command::run_set;
pub use states_command::run_states;
pub use streams::Streams;
pub use summary_command::run_summary;
pub use upgrade_command::{Target, run_upgrade};
pub use version_command::run_version;
pub use whole::read_all;
pub use wrap::{StdSink, StdSource};
