//! What follows for journals from their histories. Each function's contract is a law, and its
//! body is empty.
ghost use Rattle.world.specs.Bundles.{JournalsAreFaithful, ChainsAreEnough};
ghost use Rattle.world.specs.CasesInOrder.{VerdictsNameFaultsInOrder};
ghost use Rattle.world.specs.Exact.{EqualUnionsEqualRows};
ghost use Rattle.world.specs.MeaningInOrder.{KeysInOrderMean, SoundInOrderMeans};

/// A journal whose history is a linear extension is faithful.
pub fn journals_are_faithful()
    ensures { JournalsAreFaithful }
{}

/// If an audit by chains finds nothing in the histories of some journals, each of the journals is faithful to the world that it joins them
/// to.
pub fn chains_are_enough()
    ensures { ChainsAreEnough }
{}

/// If the audit in one order reports Sound, the world that the journals are joined to is sound and each journal is faithful to it.
pub fn sound_in_order_means()
    ensures { SoundInOrderMeans }
{}

/// If the audit of keys in one order reports Sound, the GTIDs of that world are sound and each journal is faithful to it.
pub fn keys_in_order_mean()
    ensures { KeysInOrderMean }
{}

/// Each verdict of the audit in one order but Sound names a fault that is there; for a pair two of the journals
/// have it so.
pub fn verdicts_name_faults_in_order()
    ensures { VerdictsNameFaultsInOrder }
{}

/// Journals over one opening that agree in contents and whose unions are equal result in equal rows: by the audit
/// of sources or by that in one order, and in whatever orders the journals have the transactions.
pub fn equal_unions_equal_rows()
    ensures { EqualUnionsEqualRows }
{}
