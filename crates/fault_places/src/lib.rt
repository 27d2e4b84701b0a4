//! Where in its text a bundle has what a verdict or a refusal names, how the transactions that two journals have under one GTID differ,
//! and which channels of a sound bundle preserve commit order but bring transactions in opposite orders (`two_orders_are_found`). Of a
//! change's line the values of hidden columns are left out (`hidden_values_are_left_out`). Where a server's log has a transaction is shown by
//! the line before its own, with the time as a date and a time of day in UTC (`days_have_their_dates`). Of a text that is refused nothing is
//! shown of the lines after the refused one.
//!
//! Each text is one definition (`explain_verdict`, `explain_refusal`). A call fails only if out of memory.
//!
//! Cost: one pass over the lines for each GTID that is shown, and at most four passes over the entries to compare transactions. For each
//! channel that preserves commit order there is one table of its entries' indexes, in which the entries of each later channel are looked up.
//! If any table has hidden columns, that of a change is looked up by its name; of a line with hidden values no more is looked at than is
//! shown, but for the place of an update's after image. Where a GTID comes twice, the previous sets before its second place are read again.
//!
//! `put`, `put_number`, `put_shown` and `put_line` append to a text, for commands that show lines of their input in the same form. After
//! a failed allocation a part may have been appended.
#![tactic(auto)]

mod assumed_places;
mod channels;
mod differences;
mod due;
mod hidden_values;
mod inverted_text;
mod laws;
mod lines;
mod log_places;
mod next_there;
mod orders;
mod places;
mod refusal_text;
mod standing;
mod times;
mod twice;
mod unequal;
mod values;
mod verdict_text;
mod wanted;

pub use laws::{days_have_their_dates, hidden_values_are_left_out, two_orders_are_found};
pub use lines::{put, put_number, put_shown};
pub use places::put_line;
pub use refusal_text::explain_refusal;
pub use verdict_text::explain_verdict;
