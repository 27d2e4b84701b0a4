//! Names and numbers are distinct.
ghost use Rattle.collations.specs.Laws.{FoundByName, FoundByNumber};

/// A collation is found by its own name.
pub fn found_by_name()
    ensures { FoundByName }
{}

/// A collation is found by its own number.
pub fn found_by_number()
    ensures { FoundByNumber }
{}
