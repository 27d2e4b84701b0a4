//! Several sets together.
ghost use Rattle.std.specs.Prelude.{◌≡◌};
ghost use Rattle.std.specs.FinSet as set;
ghost use Rattle.gtid_report.specs.SetAnswers.{Answers, small};
ghost use Rattle.server_states.specs.States.{whole, none, with_set, with_servers};

use crate::server::Server;
use gtid_report::Fault;
use gtid_set::GtidSet;
use std::alloc::Global;
use std::marker::Model;

/// What one at least of several sets has, and what two at least have.
#[derive(Drop)]
pub struct Together {
    all: GtidSet,
    shared: GtidSet,
}

impl Model for Together {
    ghost use Rattle.std.specs.Coded.{codes};
    ghost use Rattle.gtid_set.specs.Sets.{gtids_code};
    ghost use Rattle.server_states.specs.States.{TogetherValue};

    ghost Value = { TogetherValue };

    ghost coded = { Prim.hlevel (codes, gtids_code) };

    ghost view = { λ t. record { all = t.all; shared = t.shared } };
}

impl Together {
    /// What one at least has.
    pub fn all(&self) -> &GtidSet
        ensures { result.now ≡ self.now.all }
    {
        &self.all
    }

    /// What two at least have.
    pub fn shared(&self) -> &GtidSet
        ensures { result.now ≡ self.now.shared }
    {
        &self.shared
    }
}

/// The GTIDs of both sets.
pub(crate) fn union(alloc: Global, left: &GtidSet, right: &GtidSet) -> Result<GtidSet, Fault>
    ensures { Answers (λ s. s) result (whole (set.union left.now right.now)) }
{
    match left.union(alloc, right) {
        Ok(set) => Ok(set),
        Err(fault) => Err(Fault::from(fault)),
    }
}

/// The GTIDs that both sets have.
fn intersection(alloc: Global, left: &GtidSet, right: &GtidSet) -> Result<GtidSet, Fault>
    ensures { Answers (λ s. s) result (small (set.intersection left.now right.now)) }
{
    match left.intersect(alloc, right) {
        Ok(set) => Ok(set),
        Err(fault) => Err(Fault::from(fault)),
    }
}

/// The GTIDs of the first set that the second has not.
pub(crate) fn difference(alloc: Global, left: &GtidSet, right: &GtidSet) -> Result<GtidSet, Fault>
    ensures { Answers (λ s. s) result (small (set.difference left.now right.now)) }
{
    match left.subtract(alloc, right) {
        Ok(set) => Ok(set),
        Err(fault) => Err(Fault::from(fault)),
    }
}

/// With one set more.
fn with_set(alloc: Global, together: &Together, set: &GtidSet) -> Result<Together, Fault>
    ensures { Answers (λ t. t) result (with_set together.now set.now) }
{
    let again = intersection(alloc, &together.all, set)?;
    let shared = union(alloc, &together.shared, &again)?;
    let all = union(alloc, &together.all, set)?;
    Ok(Together { all, shared })
}

/// These sets with one more in place of them.
fn grow(alloc: Global, together: Together, set: &GtidSet) -> Result<Together, Fault>
    ensures { Answers (λ t. t) result (with_set together set.now) }
{
    with_set(alloc, &together, set)
}

/// The sets of servers together.
pub fn all_together(alloc: Global, servers: &[Server]) -> Result<Together, Fault>
    ensures { Answers (λ t. t) result (with_servers none servers.now) }
{
    let mut together = Together {
        all: GtidSet::empty(alloc),
        shared: GtidSet::empty(alloc),
    };
    for server in servers {
        match grow(alloc, together, server.executed()) {
            Ok(more) => together = more,
            Err(fault) => return Err(fault),
        }
    }
    Ok(together)
}
