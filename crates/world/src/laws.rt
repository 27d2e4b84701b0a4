//! What the verdicts mean. Each function's contract is a law, and its body is empty.
ghost use Rattle.world.specs.Cases.{VerdictsNameFaults};
ghost use Rattle.world.specs.Folds.{OnePassApplies, OnePassShares, OnePassCloses};
ghost use Rattle.world.specs.Least.{MissingIsLeast, SharedIsLeast, FirstSourceFails};
ghost use Rattle.world.specs.Meaning.{SoundMeansSound, FaithfulIsSound, KeysSoundMeans};

/// If the audit of journals reports Sound, their world is sound and each journal is faithful.
pub fn sound_means_sound()
    ensures { SoundMeansSound }
{}

/// The other way, if each journal's previous set lies within the opening set. Without that the converse is false: a journal that begins
/// where another ends is faithful, and is reported as Purged.
pub fn faithful_is_sound()
    ensures { FaithfulIsSound }
{}

/// If the audit of keys reports Sound, the keys of the journals' world are sound, and each journal is faithful.
pub fn keys_sound_mean()
    ensures { KeysSoundMeans }
{}

/// Each verdict but Sound names a fault that is there.
pub fn verdicts_name_faults()
    ensures { VerdictsNameFaults }
{}

/// If the keys are sound, one pass over all transactions, in the order of GTIDs, finds the first that fails in its own source's list taken
/// alone.
pub fn one_pass_applies()
    ensures { OnePassApplies }
{}

/// One pass over all transactions, in the order of GTIDs, finds the first pair that shares a key.
pub fn one_pass_shares()
    ensures { OnePassShares }
{}

/// If the world is that of the journals and nothing was purged, the last toucher of each key is enough to find that something is left out
/// of a journal.
pub fn one_pass_closes()
    ensures { OnePassCloses }
{}

/// No GTID less than the one that is reported as Missing is missing.
pub fn missing_is_least()
    ensures { MissingIsLeast }
{}

/// Of what is reported as Shared the greater GTID is the least that shares a key with a smaller source, the
/// key is its first that is so shared, and the lesser GTID is the least that touches it.
pub fn shared_is_least()
    ensures { SharedIsLeast }
{}

/// If a GTID is reported as DoesNotApply, what each source smaller than its own committed applies alone.
pub fn first_source_fails()
    ensures { FirstSourceFails }
{}
