//! What events mean is what their entries denote. The law is the contract of a function that does nothing.
ghost use Rattle.log_transactions.specs.Meaning.{EventsMeanEntries};

/// If the events of a whole log are taken, they mean what the entries denote, in order: nothing is dropped, doubled or moved.
pub fn events_mean_entries()
    ensures { EventsMeanEntries }
{}
