//! Laws of runs. The functions do nothing: their contracts are the laws.
ghost use Rattle.replica_core.specs.Laws.{OrderIsPreserved};

/// On a channel that preserves the order of its places, every Committed finds all earlier places
/// of that channel executed, in every run from every state. (Our own rule, after
/// "replica_preserve_commit_order".)
pub fn order_is_preserved()
    ensures { OrderIsPreserved }
{}
