//! Which shared replica a book and its passes belong to.
use commit_ledger::Ledgers;
use std::marker::{Brand, PhantomData};

/// Names one shared replica: the two ledgers of its total, the number of its seats, and the core that
/// it was opened with. A type denotes it, so that the lock and the passes agree on them, and no
/// copy of the opening need be kept. The call that opens it picks (`Brand`).
pub trait Naming {
    ghost use Rattle.std.specs.Prelude.{ℕ};
    ghost use Rattle.replica_core.specs.State.{Replica};

    ghost steps_name: { ℕ };

    ghost commits_name: { ℕ };

    ghost seats: { ℕ };

    ghost opening: { Replica };
}

impl Naming for Brand {
    ghost use Rattle.shared_replica.specs.Naming.{unnamed};

    ghost steps_name = { 0 };

    ghost commits_name = { 0 };

    ghost seats = { 0 };

    ghost opening = { unnamed };
}

/// The two ledgers of a shared replica.
pub struct LedgersOf<N: Naming> {
    of: PhantomData<N>,
}

impl<N: Naming> Ledgers for LedgersOf<N> {
    ghost steps_name = { N.steps_name };

    ghost commits_name = { N.commits_name };

    ghost seats = { N.seats };
}
