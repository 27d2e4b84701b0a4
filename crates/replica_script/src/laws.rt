//! Laws of the language. The functions do nothing: their contracts are the laws.
ghost use Rattle.replica_script.specs.Laws.{SeatsAreReadBack};

/// What is written of a seat that takes, commits or rolls back is read back as that event.
pub fn seats_are_read_back()
    ensures { SeatsAreReadBack }
{}
