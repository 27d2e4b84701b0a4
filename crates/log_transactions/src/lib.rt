//! The transactions of MySQL's binary logs: a state machine over the events of a log, whatever they are read from.
//!
//! What a contract sees: `Event` lists what a log tells, `step` what each event adds to a `LogState`, and where it is refused.
//! `LogTransactions` has a method for each event; an event that is refused changes nothing. `AreOfLog` says of the events of a whole log what
//! `LoggedTransactions` has: what the events mean is what the entries denote (GTIDs, changes and commits: nothing is dropped, doubled or
//! moved), the set that was executed before the first GTID, and the columns that the server compares otherwise than their bytes, with the
//! collations that the log says. `has_other` tells whether it says another collation of a column than a given one.
//! `events_mean_entries` is the law that events which are taken, up to the end of their last transaction, are so.
//!
//! Each transaction has a GTID, begins and ends once (or is a statement of maintenance, without changes), and no statement of rows is open where it ends
//! (`StatementsEnd`). A row comes behind a rows event of its transaction; its table is one that the statement maps, and it has a value for each
//! column. The previous set of each file but the first lies within the opening set, the previous set of the first file and the GTIDs that
//! came (`NoGap`): else a file was left out. A log has tables of any number of databases: a table's name is that of its database and its own,
//! with a dot between them and escapes (`table_name`).
//!
//! What stays with whoever reads the events: where they are in their text or file, the types and the values of columns, and what has no
//! place here, as statements and distributed transactions.
#![tactic(auto)]

mod fault;
mod joined;
mod laws;
mod machine;
mod mapped;
mod stages;
mod varied;

pub use fault::{EventFault, EventRefusal};
pub use laws::events_mean_entries;
pub use machine::{LogTransactions, LoggedTransactions};
pub use mapped::table_name;
pub use varied::{Varied, VariedColumns};
