//! Tests of workers with a gate between their steps, and of the deques from which they steal, by public calls alone (`applier`,
//! `commands`).
//!
//! One worker commits while another is held before it prepares, so workers do run side by side: of two over one channel, and of two and
//! of 64 over three channels, whether these preserve their order or not, by each call that runs workers. Of four each commits something,
//! and of eight over eight transactions each commits one. What `apply_journals` gives back is the history of its workers, and
//! `apply_decoded` prints what it results in: the same for each number of workers, and by each order that an audit asks for. A seat that
//! owns a transaction when the workers begin rolls it back. A worker gives up a commit that stays early, and leaves a channel that is
//! stopped, which runs again once it is restarted. Of three tickets the owner pops the first and the third, and the other worker steals
//! the second. Of two workers one is held with tickets in its deque, until the other has stolen one of them. Of transactions of eight,
//! seven and one changes the first alone is prepared without the lock, and committed by its patch. Two sources that share no key are two
//! shares, one of which is applied while the thread of the other is held. Two bundles that have the same transactions in two orders have
//! one answer.
#![tactic(auto)]

#[cfg(test)]
mod answers;
#[cfg(test)]
mod books;
#[cfg(test)]
mod gates;
#[cfg(test)]
mod left;
#[cfg(test)]
mod marks;
#[cfg(test)]
mod merges;
#[cfg(test)]
mod prepares;
#[cfg(test)]
mod seats;
#[cfg(test)]
mod shares;
#[cfg(test)]
mod steals;
#[cfg(test)]
mod twenty;
#[cfg(test)]
mod unions;
#[cfg(test)]
mod worlds;
