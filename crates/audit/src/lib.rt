//! The audits of journals: the first verdict that holds, as crate `world` defines it, of sources and in one order.
//!
//! What a contract sees: a `World` is the record of its schema, opening set, opening rows and a finite map from GTIDs to transactions.
//! `world_of` gathers it from journals; the first transaction of a GTID counts. `audit` gives exactly the definition `verdict` (`found`),
//! and `audit_keys` all of it but the application. So the laws of `world` hold of their results. The journals that are audited may be
//! others than those that the world was made of: Unequal then means that one differs from what the world has.
//!
//! `audit_of` gives what `audit` finds in the world of the same journals, and `audit_keys_of` what `audit_keys` finds. If nothing is wrong
//! with keys, mostly neither of them makes a world.
//!
//! `audit_all` gives the verdict and, after it, the other GTIDs under which journals differ from the world, the other journals that begin
//! after the opening set, the other missing GTIDs, the other shared keys, the other GTIDs that are in a journal without the nearest earlier
//! one at a key, and, if the verdict is that a transaction does not apply, the first that does not of each other source: `faults_are_all`
//! states that these are all there are, and each but once.
//!
//! An error is out of memory, or a full set (E8) if the set that a Purged verdict would name has too many intervals (`fault`).
//!
//! How it is kept: transactions are in one list in the order of GTIDs, sorted only if journals do not bring them so. One pass each finds
//! Missing, Shared and DoesNotApply, and one over each journal Unequal and NotClosed. If journals are found to be in order, nothing can be
//! missing or left out, and no table is made for either. Else Missing marks the world's transactions that it finds in journals; it walks
//! over the world's list if all of them are marked, and else over a list of what the journals bring. That no key is shared is found by
//! marks (`marks`): a hash of the words of a key's values, which equal keys share, kept with its source (`owners`), in slots of the marks'
//! lowest bits. Only if two sources touch one mark are keys made and compared. `list_agreeing` lists the first entry of each GTID and
//! examines no key, `begin_in_order` tells whether the list is all that the journals' world has, and `share_no_key` whether no two sources
//! touch a key: `source_shares` calls them on several threads at the same time. Several threads answer the last question together: each
//! lists what some of the entries touch (`touches_in`), and then each tests whether the marks of one part have one source each (`are_own`).
//! The law is `parts_are_apart`.
//!
//! `audit_of` and `audit_keys_of` make one pass over journals that are in order (`gathering`): each first entry of a GTID touches its
//! marks, and each further one is compared with the first, which is found in the run of its source by its number. `audit_of` then puts the
//! runs one after another into a list of references, sources ascending (`listed`). A list that is not in the order of GTIDs is not used. If
//! the pass does not find all that it has to, or if there are more than 64 sources, they make a world. DoesNotApply is one application of
//! all sources together, which by `one_pass_applies` names the same transaction. Between two numbers of a source the end of a run of the
//! opening set is looked up, so that the set's size costs nothing.
//!
//! `audit_in_order` gives exactly the definition `verdict_in_order` (`found`), and `audit_keys_in_order` all of it but the application. For
//! each key there is the chain of those that touched it, in the joined order, and how far the journal at hand has it, with that journal's
//! number, so that nothing is cleared between journals. A transaction is in its turn at a key if it is the next of the chain, or if all of
//! the chain was read and it is new. One pass over the journals does all of it. If one is not in its turn, what the verdict names is looked
//! up then, and the order itself is made only when it is to be applied. Each key of each entry is looked up once, and once more when it is
//! new; a chain has a GTID for each transaction that touches its key.
//!
//! Cost, from the code and not proved: n log n in entries at most; the mark of each key is looked up once. Of a key of up to 16 columns each
//! word is looked for from the start of its row; where a table has a key of more, the words of a row are listed once (`row_words`). Measured:
//! 570,000 transactions a second of 1,000,000. Whoever writes a journal may choose keys whose hashes or marks collide: the tables' worst
//! case does not depend on hashes (`key_table`), and if marks collide the keys themselves are compared.
#![tactic(auto)]

mod applying;
mod applying_in_order;
mod brought;
mod chain;
mod conflict;
mod contents;
mod direct;
mod equal;
mod finding;
mod finding_in_order;
mod gaps;
mod gathering;
mod joined;
mod laws;
mod listed;
mod listing;
mod marks;
mod missing;
mod naming;
mod needs;
mod ordered;
mod other_gaps;
mod other_refusals;
mod other_unequal;
mod owners;
mod pairs;
mod parted;
mod purged;
mod row_words;
mod shared;
mod skipped;
mod sources;
mod standing;
mod touches;
mod turns;
mod unequal;

pub use direct::{audit_keys_of, audit_of, begin_in_order, list_agreeing};
pub use finding::{audit, audit_gtids, audit_keys, keep_rules};
pub use finding_in_order::{audit_in_order, audit_keys_in_order};
pub use laws::{faults_are_all, parts_are_apart};
pub use listing::{AllFaults, audit_all};
pub use parted::{MarkTouch, PARTS, are_own, touches_in};
pub use shared::share_no_key;
pub use sources::{World, WorldFault, world_of, world_of_fitting};
