//! The collations of MySQL whose weights are known (`collation_weights`), by the names and numbers that a server gives them.
//!
//! What a contract sees: `name_of` and `number_of` of a `Collation` (`specs/Names`). `collation_named` finds the collation of a name, also of
//! one by which servers before 8.0.30 call a collation of utf8mb3, and `collation_numbered` the collation of a number. A name or a number that
//! belongs to none of them finds none. Each is found by its own name and by its own number (`found_by_name`, `found_by_number`).
//!
//! Not proved: that these are a server's. A server 9.7.4 was asked (`information_schema.collations`).
#![tactic(auto)]

mod collation;
mod laws;

pub use collation::{Collation, collation_named, collation_numbered};
pub use laws::{found_by_name, found_by_number};
