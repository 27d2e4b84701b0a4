//! The audit of the keys and the serving of the journals, at the same time.
ghost use Rattle.std.specs.Prelude.{IfOk, IfErr};
ghost use Rattle.serving.specs.Faults.{IsBundleFault};
ghost use Rattle.serving.specs.Serving.{IsReady};
ghost use Rattle.serving.specs.Verdicts.{HasMerged, IsStateOrVerdict, IsVerdictOfKeys};

use gtid_set::SetFault;
use replica_core::Core;
use serving::{
    Order, StateOrVerdict, apply_all, audit_of_keys, begin, can_be_sent, conclude_applied,
    receive_all, serve,
};
use std::alloc::Global;
use std::thread::{Threads, join};
use txn_journal::Bundle;

/// What `begin` gives. A second thread, if one can be started, audits the keys while this one lets the channels receive: both only read the
/// bundle. If what was purged of a journal is missing in the opening set, its source sends nothing, and only the audit is made.
pub(crate) fn begin_beside<R: Threads>(
    rt: &R,
    alloc: Global,
    bundle: &Bundle,
    order: Order,
) -> Result<StateOrVerdict<Core>, SetFault>
    ensures begun { IfOk result (IsStateOrVerdict (IsReady order bundle.now) order bundle.now) }
    ensures keys { IfOk result (IsVerdictOfKeys order bundle.now) }
    ensures fault { IfErr result (IsBundleFault bundle.now) }
{
    if !can_be_sent(bundle) {
        return begin(alloc, bundle, order);
    }
    let (keys, core) = join(
        rt,
        || audit_of_keys(alloc, bundle, order),
        || receive_all(alloc, bundle),
    );
    match keys {
        Ok(None) => Ok(StateOrVerdict::State(core?)),
        Ok(Some(verdict)) => {
            drop(core);
            Ok(StateOrVerdict::Verdict(verdict))
        }
        Err(fault) => {
            drop(core);
            Err(fault)
        }
    }
}

/// What `serve` gives. A second thread, if one can be started, audits the keys while this one serves the journals and applies each entry on
/// receipt. If the keys of the journals are not sound, what was applied is dropped, and the result is the verdict.
pub(crate) fn serve_beside<R: Threads>(
    rt: &R,
    alloc: Global,
    bundle: &Bundle,
    order: Order,
) -> Result<StateOrVerdict<Core>, SetFault>
    ensures served { IfOk result (IsStateOrVerdict (HasMerged order bundle.now) order bundle.now) }
    ensures fault { IfErr result (IsBundleFault bundle.now) }
{
    if !can_be_sent(bundle) {
        return serve(alloc, bundle, order);
    }
    let (keys, core) = join(
        rt,
        || audit_of_keys(alloc, bundle, order),
        || apply_all(alloc, bundle),
    );
    match keys {
        Ok(None) => Ok(conclude_applied(alloc, bundle, order, core?)?),
        Ok(Some(verdict)) => {
            drop(core);
            Ok(StateOrVerdict::Verdict(verdict))
        }
        Err(fault) => {
            drop(core);
            Err(fault)
        }
    }
}
