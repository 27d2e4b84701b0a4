//! Counts of steps and commits that several threads make, each in a share of its own: the shares add up to the total. (Our own rule.)
//!
//! It is built on std's ledgers. A type parameter (`Ledgers`) names the two ledgers of one total, so that shares of two totals cannot be
//! mixed up; the call that opens them picks it (`Brand`). A `Share` takes no bytes and cannot be copied.
//!
//! What a contract sees: a `Total` is the number of steps and of commits; a `Share` is a number of seats with what was counted for them.
//!
//! `count` adds one step to the total and to the share, and a commit to both if and only if it was one. What a share of all seats has
//! counted, or the shares of all seats together, is the total (`Total::audit`, `gather`).
//!
//! Not proved: that a share is not lost; a total whose shares are not all there cannot be gathered.
#![tactic(auto)]

ghost use Rattle.std.specs.Prelude.{◌≡◌, ◌<◌, ◌≤◌, IfOk, length, replicate, true, false};
ghost use Rattle.commit_ledger.specs.Tallies.{Tally, no_tally, empty_portion, one_more, count_step, add_portions, total_portion, tally_of};

mod naming;

pub use naming::{Blanks, CommitsOf, Ledgers, StepsOf};
use std::alloc::{AllocError, Global};
use std::marker::Model;
use std::sync::ledger;

/// How many steps were made, and how many of them were commits.
#[derive(Clone, Copy, Debug, PartialEq, Eq, Drop)]
pub struct Counts {
    pub steps: u64,
    pub commits: u64,
}

/// What all shares have counted.
#[derive(Drop)]
pub struct Total<L: Ledgers> {
    counts: Counts,
    steps: ledger::Book<StepsOf<L>>,
    commits: ledger::Book<CommitsOf<L>>,
    no_steps: ledger::Share<StepsOf<L>>,
    no_commits: ledger::Share<CommitsOf<L>>,
}

impl<L: Ledgers> Model for Total<L> {
    ghost use Rattle.std.specs.Prelude.{◌≡◌, ◌≤◌};
    ghost use Rattle.commit_ledger.specs.Tallies.{Tally};

    ghost Value = { Tally };

    ghost view = { λ t. record { steps = t.counts.steps; commits = t.counts.commits } };

    ghost invariant = { λ t. (t.steps.total ≡ t.counts.steps) × (t.commits.total ≡ t.counts.commits) × (t.counts.commits ≤ t.counts.steps) };
}

/// What some of the seats have counted. It takes no bytes, and can't be copied.
#[derive(Drop)]
pub struct Share<L: Ledgers> {
    steps: ledger::Share<StepsOf<L>>,
    commits: ledger::Share<CommitsOf<L>>,
}

impl<L: Ledgers> Model for Share<L> {
    ghost use Rattle.std.specs.Prelude.{◌≡◌};
    ghost use Rattle.commit_ledger.specs.Tallies.{Portion};

    ghost Value = { Portion };

    ghost view = { λ s. record { seats = s.steps.parts; steps = s.steps.amount; commits = s.commits.amount } };

    ghost invariant = { λ s. s.commits.parts ≡ s.steps.parts };
}

/// A total of nothing, and a share for each seat. The only error is a failed allocation.
pub fn open_shares<L: Ledgers>(
    alloc: Global,
    blanks: Blanks,
    seats: u64,
) -> Result<(Total<L>, Vec<Share<L>>), AllocError>
    requires steps { (blanks.steps.name ≡ L.steps_name) × (blanks.steps.parts ≡ L.seats) }
    requires commits { (blanks.commits.name ≡ L.commits_name) × (blanks.commits.parts ≡ L.seats) }
    requires seats { seats ≡ L.seats }
    ensures total { IfOk result (λ r. r.0 ≡ no_tally) }
    ensures shares { IfOk result (λ r. r.1.items ≡ replicate seats (empty_portion 1)) }
{
    let Blanks { steps, commits } = blanks;
    let (step_book, mut step_rest) = steps.open::<StepsOf<L>>();
    let (commit_book, mut commit_rest) = commits.open::<CommitsOf<L>>();
    let mut shares = Vec::new(alloc);
    for _seat in 0..seats {
        let share = Share {
            steps: step_rest.split_off(1, 0),
            commits: commit_rest.split_off(1, 0),
        };
        if shares.push(share).is_err() {
            return Err(AllocError);
        }
    }
    let total = Total {
        counts: Counts {
            steps: 0,
            commits: 0,
        },
        steps: step_book,
        commits: commit_book,
        no_steps: step_rest.empty(),
        no_commits: commit_rest.empty(),
    };
    Ok((total, shares))
}

/// Counts one step in the total and in a seat's share, and one commit if it was one.
pub fn count<L: Ledgers>(total: &mut Total<L>, share: &mut Share<L>, committed: bool)
    requires room { total.old.steps < 18446744073709551615 }
    requires seat { 0 < share.old.seats }
    ensures total { total.new ≡ one_more committed total.old }
    ensures share { share.new ≡ count_step committed share.old }
{
    total.steps.add(&mut share.steps, 1);
    total.counts.steps += 1;
    if committed {
        total.commits.add(&mut share.commits, 1);
        total.counts.commits += 1;
    }
}

impl<L: Ledgers> Share<L> {
    /// Adds what another share has counted, with its seats.
    pub fn join(&mut self, other: Share<L>)
        ensures sum { self.new ≡ add_portions self.old other }
        ensures seats { self.new.seats ≤ L.seats }
    {
        let Share { steps, commits } = other;
        self.steps.merge(steps);
        self.commits.merge(commits);
    }
}

impl<L: Ledgers> Total<L> {
    /// The numbers.
    pub fn counts(&self) -> Counts
        ensures steps { result.steps ≡ self.now.steps }
        ensures commits { result.commits ≡ self.now.commits }
        ensures within { result.commits ≤ result.steps }
    {
        self.counts
    }

    /// A share of no seat. It has counted nothing.
    pub fn no_share(&mut self) -> Share<L>
        ensures none { result ≡ empty_portion 0 }
        ensures same { self.new ≡ self.old }
    {
        Share {
            steps: self.no_steps.empty(),
            commits: self.no_commits.empty(),
        }
    }

    /// A share of all seats has counted the total.
    pub fn audit(&mut self, all: &mut Share<L>) -> Counts
        requires { all.old.seats ≡ L.seats }
        ensures counts { (result.steps ≡ all.old.steps) × (result.commits ≡ all.old.commits) }
        ensures total { self.old ≡ tally_of all.old }
        ensures same { (self.new ≡ self.old) × (all.new ≡ all.old) }
    {
        self.steps.audit(&mut all.steps);
        self.commits.audit(&mut all.commits);
        self.counts
    }
}

/// The shares of all seats add up to the total. They are used up.
pub fn gather<L: Ledgers>(total: &mut Total<L>, shares: Vec<Share<L>>) -> Counts
    requires { (total_portion shares.items).seats ≡ L.seats }
    ensures same { total.new ≡ total.old }
    ensures sum { total.old ≡ tally_of (total_portion shares.items) }
    ensures counts { (result.steps ≡ total.old.steps) × (result.commits ≡ total.old.commits) }
{
    let mut all = total.no_share();
    for share in shares {
        all.join(share);
    }
    total.audit(&mut all)
}
