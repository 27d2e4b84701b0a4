//! What an audit's verdict means for runs. Each function's contract is a law, and its body is empty.
ghost use Rattle.convergence.specs.Auditing.{WorkersDecide, ServedHoldsAll};
ghost use Rattle.convergence.specs.AuditingInOrder.{WorkersDecideInOrder, ServedHoldsAllInOrder};

/// If the audit of keys reports Sound, a run that was served all journals, each on some channel or on several, and whose every channel is
/// stopped or done has executed all that it received if and only if the audit reports Sound.
pub fn workers_decide()
    ensures { WorkersDecide }
{}

/// If it has executed all that it received, it has executed the opening set with all journals, and holds the rows that these denote.
pub fn served_holds_all()
    ensures { ServedHoldsAll }
{}

/// The same of the audit in one order.
pub fn workers_decide_in_order()
    ensures { WorkersDecideInOrder }
{}

/// The same of the rows that the journals denote in the order that they are joined to.
pub fn served_holds_all_in_order()
    ensures { ServedHoldsAllInOrder }
{}
