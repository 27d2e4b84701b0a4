//! The laws of networks. Each function's contract is a law, and its body is empty.
ghost use Rattle.network.specs.Sending.{NextIsSent};
ghost use Rattle.network.specs.Rings.{RingsMerge, RingsGoOn, ApartIsInTurn};
ghost use Rattle.network.specs.RingsBySource.{RingsMergeBySource};
ghost use Rattle.network.specs.Exact.{NetworksAreExact, ExactGoesOn};
ghost use Rattle.network.specs.SmallRun.{ApartRunsExist};
ghost use Rattle.network.specs.SharedRun.{SharedRunsExist};

/// The first entry of a journal that a channel has not is the next one of what the source sends.
pub fn next_is_sent()
    ensures { NextIsSent }
{}

/// After every run of a network in which a node commits by Local only if it has executed what was committed before, at any node, and shares
/// a key with it: what was committed by Local applies in the order of time, the run of each node is faithful to it, and so is each own
/// journal; any two nodes with equal executed sets hold equal rows; and no Position is refused because the replica has more GTIDs of the
/// source than the source itself.
pub fn rings_merge()
    ensures { RingsMerge }
{}

/// The same of further events after a run: of the nodes that they leave, and of their replies.
pub fn rings_go_on()
    ensures { RingsGoOn }
{}

/// If what is committed by Local at different nodes shares no key, each node has executed all that shares a key with what it commits.
pub fn apart_is_in_turn()
    ensures { ApartIsInTurn }
{}

/// If no two transactions that different nodes commit by Local conflict, in the words of sources and numbers: what each node committed,
/// taken alone, applies to the opening rows, its numbers are from 1 on without a gap; the run of each node is faithful to these sources;
/// what it has executed is closed by source, its rows are those that this set denotes, and its own journal is faithful by source.
pub fn rings_merge_by_source()
    ensures { RingsMergeBySource }
{}

/// There is such a run: two nodes each commit a transaction of their own.
pub fn apart_runs_exist()
    ensures { ApartRunsExist }
{}

/// After every run of a network, with no premise on keys: what each node holds is what its own log makes of the
/// opening rows; what is in a log was committed by Local, and no GTID was made twice; and any two nodes with equal
/// executed sets hold equal rows.
pub fn networks_are_exact()
    ensures { NetworksAreExact }
{}

/// The same of the nodes that further events leave after a run.
pub fn exact_goes_on()
    ensures { ExactGoesOn }
{}

/// There is a run in which two nodes write one key, and neither has executed what the other wrote. Each node commits
/// both transactions, its own first, and both end with equal executed sets.
pub fn shared_runs_exist()
    ensures { SharedRunsExist }
{}
