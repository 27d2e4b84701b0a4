//! Which ledgers a total and its shares belong to.
ghost use Rattle.std.specs.Prelude.{◌≡◌};

use std::marker::{Brand, PhantomData};
use std::sync::ledger::{Blank, Ledger};

/// Names the two ledgers of one total, one of steps and one of commits, and the number of their
/// seats. A type denotes them, so that shares of two totals can't be mixed up. The call that
/// opens them picks the names (`Brand`).
pub trait Ledgers {
    ghost use Rattle.std.specs.Prelude.{ℕ};

    ghost steps_name: { ℕ };

    ghost commits_name: { ℕ };

    ghost seats: { ℕ };
}

impl Ledgers for Brand {
    ghost steps_name = { 0 };

    ghost commits_name = { 0 };

    ghost seats = { 0 };
}

/// The ledger of the steps.
pub struct StepsOf<L: Ledgers> {
    of: PhantomData<L>,
}

impl<L: Ledgers> Ledger for StepsOf<L> {
    ghost name = { L.steps_name };

    ghost parts = { L.seats };
}

/// The ledger of the commits.
pub struct CommitsOf<L: Ledgers> {
    of: PhantomData<L>,
}

impl<L: Ledgers> Ledger for CommitsOf<L> {
    ghost name = { L.commits_name };

    ghost parts = { L.seats };
}

/// Two ledgers of this many seats, which no type names yet.
#[derive(Drop)]
pub struct Blanks {
    pub steps: Blank,
    pub commits: Blank,
}

impl Blanks {
    /// Two new ledgers.
    pub fn new(seats: u64) -> Blanks
        ensures steps { result.steps.parts ≡ seats }
        ensures commits { result.commits.parts ≡ seats }
    {
        Blanks {
            steps: Blank::new(seats),
            commits: Blank::new(seats),
        }
    }
}
