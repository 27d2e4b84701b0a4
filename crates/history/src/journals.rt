//! The laws of faithful journals. Each function's contract is a law, and its body is empty.
ghost use Rattle.history.specs.JournalLaws.{WholeIsClosed, WholeApplies, FaithfulGoesOn, PurgedIsFaithful};

/// What a faithful journal has a record of is closed.
pub fn whole_is_closed()
    ensures { WholeIsClosed }
{}

/// The rows of what a faithful journal has a record of are defined, if the world is sound.
pub fn whole_applies()
    ensures { WholeApplies }
{}

/// A faithful journal stays faithful with a new transaction of the world that leaves what it has a record
/// of closed.
pub fn faithful_goes_on()
    ensures { FaithfulGoesOn }
{}

/// A faithful journal whose first entries are purged is faithful.
pub fn purged_is_faithful()
    ensures { PurgedIsFaithful }
{}
