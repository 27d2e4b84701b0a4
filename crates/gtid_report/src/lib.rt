//! The lines that the programs print: refusals, verdicts, states, what a source sends, and the answers of set functions.
//!
//! What a contract sees: each line as a definition over the value that it prints, and the text as the list of its bytes: `render_fault`
//! gives exactly `refusal_line`, `render_verdict` exactly `verdict_line`, `render_state` exactly `state_text`. The lines are those of
//! docs/FORMATS.md, section 7, and docs/SCRIPTS.md. The line of a row leaves out the values of its table's hidden columns (`row_line`); a
//! verdict shows all values of a key. Where a verdict on a bundle rests on something that the bundle doesn't show, `sound` is said with it
//! (`verdict_line_under`, `assumed`).
//!
//! `set_function` answers a function by its name and words: E30 for an unknown name or a wrong number of words; else the refusal of the
//! first bad word; else the canonical text, the number, or 1 or 0; else E9 or E8 if a set is full (`function_line`). The names beside
//! GTID_SUBSET and GTID_SUBTRACT are ours (MySQL 8.0 Reference Manual, "Functions Used with Global Transaction Identifiers (GTIDs)").
//!
//! Not proved: what is left of a text when an allocation fails within `push_row_fault` or `render_rows`; each caller drops the text then.
#![tactic(auto)]

mod assumed;
mod fault;
mod from_journal;
mod functions;
mod position;
mod refusal;
mod state;
mod verdict;
mod verdict_line;

pub use assumed::{is_assuming, is_implied, push_conditions, render_assumed, render_verdict_on};
pub use fault::Fault;
pub use functions::{Function, OfSource, OneSet, TwoSets, read_set, read_source, set_function};
pub use position::{render_more, render_required, render_sending};
pub use refusal::{LineCause, Refusal, push_number, render_fault};
pub use state::{push_set, render_executed, render_lent_rows, render_rows, render_state};
pub use verdict::{push_row_fault, render_does_not_apply};
pub use verdict_line::render_verdict;
