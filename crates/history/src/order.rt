//! The laws of what was committed in one order. Each function's contract is a law, and its body is
//! empty.
ghost use Rattle.history.specs.SmallWorld.{SoundWorldsExist};
ghost use Rattle.history.specs.Laws.{CommitOrderIsFree, CommitOrdersAgree, LateCommit, EarlyCommit, OpeningIsClosed, ClosedSetsApply, RowIsOfLastWriter, RowsAreCarriers, ClosedUnderUnion, ClosedUnderIntersection, ClosedSetsAreALattice};

/// Whatever order transactions are committed in, each after those before it in the world's order
/// that share a key with it, none is refused, and the rows are those of the set.
pub fn commit_order_is_free()
    ensures { CommitOrderIsFree }
{}

/// Two commit orders of one set end in equal rows.
pub fn commit_orders_agree()
    ensures { CommitOrdersAgree }
{}

/// A transaction that comes late is not refused, and the rows are those of the set with it in its
/// place.
pub fn late_commit()
    ensures { LateCommit }
{}

/// A transaction that applies after a closed set applies in its place, and leaves the same rows.
/// Only the GTIDs need be sound.
pub fn early_commit()
    ensures { EarlyCommit }
{}

/// The opening set is closed, and denotes the opening rows. Only the GTIDs need be sound.
pub fn opening_is_closed()
    ensures { OpeningIsClosed }
{}

/// The rows of a closed set are defined.
pub fn closed_sets_apply()
    ensures { ClosedSetsApply }
{}

/// Under each key is the row that its last writer left. No soundness is needed.
pub fn row_is_of_last_writer()
    ensures { RowIsOfLastWriter }
{}

/// Each row is stored under every key that it carries, and under no other, so no key has a second row.
pub fn rows_are_carriers()
    ensures { RowsAreCarriers }
{}

/// The union of two closed sets is closed.
pub fn closed_under_union()
    ensures { ClosedUnderUnion }
{}

/// What two closed sets have in common is closed.
pub fn closed_under_intersection()
    ensures { ClosedUnderIntersection }
{}

/// Finite closed sets are closed under union and intersection.
pub fn closed_sets_are_a_lattice()
    ensures { ClosedSetsAreALattice }
{}

/// There is a sound world in which one source inserts a row and another updates it, with a closed
/// set, a set that is not closed, and two commit orders of all.
pub fn sound_worlds_exist()
    ensures { SoundWorldsExist }
{}
