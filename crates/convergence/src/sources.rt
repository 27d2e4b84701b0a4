//! The merge theorem over runs, for sources. Each function's contract is a law, and its body is empty.
ghost use Rattle.convergence.specs.FaithfulToSources.{FaithfulInOrder, RunsOfSourcesMerge, EqualSetsOfSources};

/// If the keys are sound, a run that is faithful by source and number is faithful in the order. So the laws of `convergence` hold of it.
pub fn faithful_in_order()
    ensures { FaithfulInOrder }
{}

/// After a faithful run of a sound world of sources the executed set is closed by source, the rows are those
/// that it denotes, under each key is what the writer with the greatest number left, no channel is stopped,
/// no commit was refused, and the own journal is faithful by source.
pub fn runs_of_sources_merge()
    ensures { RunsOfSourcesMerge }
{}

/// Two such runs with equal executed sets hold equal rows.
pub fn equal_sets_of_sources()
    ensures { EqualSetsOfSources }
{}
