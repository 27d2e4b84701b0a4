//! The laws of what several sources committed. Each function's contract is a law, and its body is
//! empty.
ghost use Rattle.history.specs.JoinLaws.{JoinLaws};
ghost use Rattle.history.specs.SmallSources.{SoundSourcesExist};
ghost use Rattle.history.specs.InOrder.{ContentsInOrder, GtidsInOrder, SoundBySource, ClosedBySource, FaithfulBySource, LastWriterByNumber};
ghost use Rattle.history.specs.Shares.{SharesAreParts};
ghost use Rattle.history.specs.SourceLaws.{UntouchedStays, TouchedDecides, ApartCommute, AloneOrTogether, ClosedBySourceAreALattice};

/// A transaction leaves what is stored under the keys that it does not touch.
pub fn untouched_stays()
    ensures { UntouchedStays }
{}

/// On rows that agree under the keys that it touches, a transaction is refused for the same reason,
/// or leaves the same there.
pub fn touched_decides()
    ensures { TouchedDecides }
{}

/// Two transactions without a common key commute: either both orders are refused, or both leave the
/// same rows.
pub fn apart_commute()
    ensures { ApartCommute }
{}

/// What all sources committed applies together if and only if what each of them committed applies alone. Only the keys need be sound.
pub fn alone_or_together()
    ensures { AloneOrTogether }
{}

/// If the keys are sound, shares of the sources that are applied each to the opening rows, without the others, change different keys, and
/// their rows are the parts of the rows of all.
pub fn shares_are_parts()
    ensures { SharesAreParts }
{}

/// Sets that are closed by source are closed under union and intersection.
pub fn closed_by_source_are_a_lattice()
    ensures { ClosedBySourceAreALattice }
{}

/// The union of two sets is the least above both, and it is commutative, associative and
/// idempotent.
pub fn join_laws()
    ensures { JoinLaws }
{}

/// There is a sound world with two sources, with a closed set, a set that is not closed, and two
/// commit orders of all.
pub fn sound_sources_exist()
    ensures { SoundSourcesExist }
{}

/// If the keys are sound, a world of sources is a world in one order, sources ascending and within a source numbers ascending: it has the
/// same soundness, closed sets, last writers and faithful journals.
pub fn sources_are_an_order()
    ensures contents { ContentsInOrder }
    ensures gtids { GtidsInOrder }
    ensures sound { SoundBySource }
    ensures closed { ClosedBySource }
    ensures faithful { FaithfulBySource }
    ensures writers { LastWriterByNumber }
{}
