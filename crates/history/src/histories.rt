//! The laws of histories that several servers committed. Each function's contract is a law, and its
//! body is empty.
ghost use Rattle.history.specs.HistoryLaws.{ExtensionsAreCommitOrders, OrdersAgree, ExtensionsMerge, ConsistentHaveAnOrder, ExtendedAreConsistent, FaultlessAreConsistent, FaultIsReal};
ghost use Rattle.history.specs.Chains.{ChainsDecide, ChainsAreExact};

/// A commit order is a linear extension of the conflict order on a set that is closed.
pub fn extensions_are_commit_orders()
    ensures { ExtensionsAreCommitOrders }
{}

/// Two orders of the same transactions that agree where keys are shared have the same closed sets,
/// and these denote the same rows.
pub fn orders_agree()
    ensures { OrdersAgree }
{}

/// A history that is a linear extension applies, and ends in the rows that its set denotes.
pub fn extensions_merge()
    ensures { ExtensionsMerge }
{}

/// Histories that agree on the order of what conflicts have one order that they all extend:
/// there is no cycle.
pub fn consistent_have_an_order()
    ensures { ConsistentHaveAnOrder }
{}

/// Histories that all extend one order, whichever it is, agree on the order of what conflicts.
pub fn extended_are_consistent()
    ensures { ExtendedAreConsistent }
{}

/// Two histories are consistent unless they order a pair differently, or one lacks what the other
/// has before, or each has one of a pair and neither has both.
pub fn faultless_are_consistent()
    ensures { FaultlessAreConsistent }
{}

/// A history extends an order if each of its chains, the transactions that touch one key, is a prefix of the order's.
pub fn chains_decide()
    ensures { ChainsDecide }
{}

/// The comparison of the chains of each history with those of the joined list is exact: it finds nothing if and only if there is any order
/// that all of the histories extend.
pub fn chains_are_exact()
    ensures { ChainsAreExact }
{}

/// The pair that the audit names is at fault between the history at hand and the first one that has
/// the expected transaction.
pub fn fault_is_real()
    ensures { FaultIsReal }
{}
