//! The merge theorem over runs. Each function's contract is a law, and its body is empty.
ghost use Rattle.convergence.specs.Faithful.{FaithfulRunsMerge, EqualSetsEqualRows, FrontsAreFaithful, RunsGoOn};
ghost use Rattle.convergence.specs.Whole.{ServedIsFaithful};
ghost use Rattle.convergence.specs.Served.{ServedIsJoined, ServedAreJoined};
ghost use Rattle.convergence.specs.Deciding.{ServedRunsDecide, ServedRunsHoldAll};
ghost use Rattle.convergence.specs.Exact.{RunsAreOfLogs, LogsDecideRows};

/// After every faithful run of a sound world the executed set is closed, the rows held are those
/// that it denotes, under each key is the row of its last writer, no channel is stopped, no
/// commit was refused for its rows, and the own journal is faithful.
pub fn faithful_runs_merge()
    ensures { FaithfulRunsMerge }
{}

/// Two faithful runs of a sound world with equal executed sets hold equal rows.
pub fn equal_sets_equal_rows()
    ensures { EqualSetsEqualRows }
{}

/// A prefix of a faithful run is faithful.
pub fn fronts_are_faithful()
    ensures { FrontsAreFaithful }
{}

/// From the state of a faithful run on, by further events that are faithful too: the state then is merged,
/// and no commit of these events was refused for its rows.
pub fn runs_go_on()
    ensures { RunsGoOn }
{}

/// A replica that applied all that a journal sent it has executed the join of what it had and the
/// whole journal.
pub fn served_is_joined()
    ensures { ServedIsJoined }
{}

/// The same for several channels, each served a journal whole, with local commits beside them.
pub fn served_are_joined()
    ensures { ServedAreJoined }
{}

/// A run without local commits in which each channel is served a faithful journal whole, or receives
/// nothing, is faithful.
pub fn served_is_faithful()
    ensures { ServedIsFaithful }
{}

/// A run that was served all journals of a world, and whose every channel is stopped or done, has executed all that it received if and only
/// if all that was committed applies.
pub fn served_runs_decide()
    ensures { ServedRunsDecide }
{}

/// If it has executed all that it received, it has executed the opening set with all journals, and holds the rows that these denote.
pub fn served_runs_hold_all()
    ensures { ServedRunsHoldAll }
{}

/// After every run from an opening, with no premise: the log applies to the opening rows and leaves the rows, the
/// executed set is the opening set with the log's GTIDs, each of them new, and the own journal is an end of the log.
pub fn runs_are_of_logs()
    ensures { RunsAreOfLogs }
{}

/// Two replicas opened alike, with equal executed sets, whose logs have equal transactions under equal GTIDs,
/// hold equal rows.
pub fn logs_decide_rows()
    ensures { LogsDecideRows }
{}
