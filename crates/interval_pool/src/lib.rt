//! Sets of numbers, each as a list of merged intervals, in one pool of cells. `gtid_set` keeps its intervals in one.
//!
//! What a contract sees (`specs/Values`): of each list its cells with their intervals, in ascending order, none empty, a number missing
//! between two; the free cells; how many cells there are; and for how many more there is room. After an error the pool is as before. A pool
//! is full if 4,294,967,294 intervals are in lists (`full`). After `reserve` for some number of cells, as many calls of `add` and `cut` do
//! not fail (`reserved_lasts`).
//!
//! How it is kept (`IsPool`): a cell has the number of its list and the place of the next cell, so that a chain is what a walk finds, and
//! no two lists share a cell; the free cells are the chain of number 0. Two laws carry all changes: a cell leaves a chain, a cell joins
//! one. A cell that leaves its list is free at once, and a free one is taken before the vector grows.
//!
//! From below: `link` is a place among cells, or none; `cells` takes a cell out of a chain and puts it into one; `store` makes room and
//! puts intervals in the place of others; `seek` finds a number, `meet` what an interval meets; `add`, `cut`, `append` and `extend` are
//! these one after another; `claim` begins and ends lists; `pool` has the calls.
//!
//! Cost, from the code and not proved: the walk from a guessed place (`hints`: the last cell, the last change, a binary search, or an index
//! of long lists that are scattered) to the right one. A guess is tested when it is used, so nothing is proved of it; without memory for
//! the index the answers are the same and take longer. Measured: 400,000 calls of `append` take 3 ms, of `add` in mixed order 170 ms.
#![tactic(auto)]

mod add;
mod append;
mod cells;
mod claim;
mod cut;
mod extend;
mod fault;
mod hints;
mod interval;
mod laws;
mod link;
mod meet;
mod pool;
mod seek;
mod store;
mod walk;

pub use fault::PoolFault;
pub use interval::Interval;
pub use laws::{cells_are_within_lists, distinct_lists_fit, reserved_lasts};
pub use pool::{ListId, Pool};
pub use walk::Walk;
