//! What follows from the definitions. Each law is the contract of a function with an empty body.
ghost use Rattle.std.specs.Prelude.{◌≡◌, true, Ok};
ghost use Rattle.std.specs.FinSet as set;
ghost use Rattle.gtid_text.specs.declared.Gtid.{Gtid};
ghost use Rattle.gtid_set.specs.Sets.{Gtids};
ghost use Rattle.server_states.specs.States.{UnionCountsOne, SharedCountsTwo, gaps, IsGap};

/// A GTID is in the union if and only if at least one server has executed it, and is shared if and only if at least two have.
pub fn shared_by_two()
    ensures all { UnionCountsOne }
    ensures shared { SharedCountsTwo }
{}

/// The gaps of a set are the GTIDs that it lacks below one that it has of the same source, their numbers from 1.
pub fn gaps_lie_below()
    ensures only { (s r : Gtids) (g : Gtid) → gaps s ≡ Ok r → set.contains r g ≡ true → IsGap s g }
    ensures all { (s r : Gtids) (g : Gtid) → gaps s ≡ Ok r → IsGap s g → set.contains r g ≡ true }
{}
