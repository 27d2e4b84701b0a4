//! Tests whose allocations are refused, one in each run (sweep/refused_memory); with nothing refused they pass as well. Whatever is
//! refused, each ends well: what must hold after a refusal is asserted, and a line on standard output that begins with `met: ` names
//! the case.
//!
//! Two seats by turns make all calls of a shared replica: a refused call leaves no receipt and executes nothing, and made again it has
//! its reply. A worker that is refused memory leaves at most its own GTID, and the drain does the rest. A drain that was refused memory
//! ends at its second call where the first would have ended. A reader of a bundle that was refused memory at one of its pieces is refused
//! it from then on, and gives no part of the bundle; so is a reader of a journal, which gives no entry either. A journal that ends too
//! early gives the entries before, and then the line that has not come whole.
#![tactic(auto)]

#[cfg(test)]
mod calls;
#[cfg(test)]
mod ends;
#[cfg(test)]
mod hands;
#[cfg(test)]
mod readers;
#[cfg(test)]
mod seats;
#[cfg(test)]
mod start;
#[cfg(test)]
mod workers;
