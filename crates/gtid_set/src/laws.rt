//! Laws of sets of GTIDs and of their text.
//!
//! Each law is the contract of a function that does nothing.
ghost use Rattle.gtid_set.specs.Laws.{UnionCommutes, UnionAssociates, UnionRepeats, UnionIsUpper, UnionIsLeast, UnionLess, LessUnion, LessBoth, BothOfUnion, BothOfLess, ParsesAsOneSet, CanonicalParses, CanonicalParsesAgain, SpelledInRange, CanonicalIsInjective, FoundIsSetText, SetTextIsFound, SetTextIsFull, SetTextIsCrowded};
ghost use Rattle.gtid_set.specs.Edges.{EdgesAreChanges, EdgesAreTwice, EdgesOfUnion, EdgesOfDifference, EdgesOfIntersection, IntervalsOfUnion, IntervalsOfDifference, IntervalsOfIntersection, IntervalsOfInsert};

/// Union depends neither on the order of the sets nor on how often one is named.
pub fn union_is_free()
    ensures commutes { UnionCommutes }
    ensures associates { UnionAssociates }
    ensures repeats { UnionRepeats }
{}

/// The union is the least set that has both sets as parts.
pub fn union_is_least()
    ensures upper { UnionIsUpper }
    ensures least { UnionIsLeast }
{}

/// How difference goes with union and intersection.
pub fn subtract_distributes()
    ensures of_union { UnionLess }
    ensures by_union { LessUnion }
    ensures by_intersection { LessBoth }
{}

/// How intersection goes with union and difference.
pub fn intersect_distributes()
    ensures of_union { BothOfUnion }
    ensures of_difference { BothOfLess }
{}

/// A text parses as one set at most, whose numbers are in range. The canonical text of a set parses as it, and no two sets have the same.
pub fn text_reads_back()
    ensures one { ParsesAsOneSet }
    ensures parses { CanonicalParses }
    ensures again { CanonicalParsesAgain }
    ensures numbers { SpelledInRange }
    ensures injective { CanonicalIsInjective }
{}

/// The one answer to a text is the set that it parses as, unless that has too many sources or intervals; no other text is answered with a
/// set.
pub fn text_parses_exactly()
    ensures found { FoundIsSetText }
    ensures only { SetTextIsFound }
    ensures full { SetTextIsFull }
    ensures crowded { SetTextIsCrowded }
{}

/// A set has two edges for each interval, and no edge of what is made of two sets is new: so it has no more intervals than these two
/// together.
pub fn intervals_add_up()
    ensures edges { EdgesAreChanges }
    ensures twice { EdgesAreTwice }
    ensures of_union { EdgesOfUnion }
    ensures of_difference { EdgesOfDifference }
    ensures of_intersection { EdgesOfIntersection }
    ensures union { IntervalsOfUnion }
    ensures difference { IntervalsOfDifference }
    ensures intersection { IntervalsOfIntersection }
    ensures insert { IntervalsOfInsert }
{}
