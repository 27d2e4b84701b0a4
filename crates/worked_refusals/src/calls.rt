//! Calls of a seat, each of which can be made again.
use gtid_set::SetFault;
use journal::{Entry, is_number};
use replica_core::Reply;
use rows::{Changes, Name, PrepareFault, Transaction, prepare};
use shared_replica::{Naming, Pass, SharedReplica};
use std::alloc::{AllocError, Global};
use std::process::Abort;
use std::sync::Wait;

/// A call of a seat. There is one channel, and its places count from 0.
#[derive(Clone, Copy)]
pub(crate) enum Call {
    /// The channel is opened.
    Open,
    /// The channel is positioned.
    Position,
    /// The channel receives the entry that is to have this place.
    Receive(usize),
    /// The seat takes this place.
    Take(usize),
    /// The seat commits what it took.
    Commit,
    /// The seat commits what it took by a patch that is prepared without the lock.
    CommitPrepared,
    /// The seat rolls back what it took.
    Rollback,
    /// The channel runs again.
    Restart,
    /// A transaction of the server's own, which changes nothing.
    Own,
    /// The first entry of the own journal is purged.
    Purge,
    /// The executed set is asked for.
    Look,
}

fn name(alloc: Global) -> Result<Name, AllocError> {
    let text = String::from_str(alloc, "x")?;
    match Name::new(text) {
        Ok(name) => Ok(name),
        Err(_) => Err(AllocError),
    }
}

fn no_changes(alloc: Global) -> Result<Transaction, AllocError> {
    let changes = Changes::new(Vec::new(alloc))?;
    Ok(Transaction { changes })
}

fn open<N: Naming, R: Wait>(
    rt: &R,
    alloc: Global,
    replica: &SharedReplica<N>,
    pass: &mut Pass<N>,
) -> Result<Reply, SetFault> {
    let name = name(alloc)?;
    replica.open_channel(rt, alloc, pass, name, false)
}

fn receive<N: Naming, R: Abort + Wait>(
    rt: &R,
    alloc: Global,
    replica: &SharedReplica<N>,
    pass: &mut Pass<N>,
    entry: &Entry,
) -> Result<Reply, SetFault> {
    assert!(rt; is_number(entry.gtid.number), "a number");
    let txn = entry.txn.clone()?;
    let gtid = entry.gtid;
    replica.receive(rt, alloc, pass, 0, Entry { gtid, txn })
}

fn own<N: Naming, R: Wait>(
    rt: &R,
    alloc: Global,
    replica: &SharedReplica<N>,
    pass: &mut Pass<N>,
) -> Result<Reply, SetFault> {
    let txn = no_changes(alloc)?;
    replica.local(rt, alloc, pass, txn)
}

fn commit_prepared<N: Naming, R: Wait>(
    rt: &R,
    alloc: Global,
    replica: &SharedReplica<N>,
    pass: &mut Pass<N>,
) -> Result<Reply, SetFault> {
    let Some((txn, seen)) = replica.footprint(rt, alloc, pass)? else {
        return replica.commit(rt, alloc, pass);
    };
    match prepare(alloc, txn, seen) {
        Ok(patch) => replica.commit_prepared(rt, alloc, pass, patch),
        Err(PrepareFault::Memory) => Err(SetFault::Memory),
        Err(PrepareFault::Row(_)) => replica.commit(rt, alloc, pass),
    }
}

/// Makes a call, with arguments that are made for it.
fn make<N: Naming, R: Abort + Wait>(
    rt: &R,
    alloc: Global,
    replica: &SharedReplica<N>,
    pass: &mut Pass<N>,
    entries: &[Entry],
    call: Call,
) -> Result<Reply, SetFault> {
    match call {
        Call::Open => open(rt, alloc, replica, pass),
        Call::Position => replica.position(rt, alloc, pass, 0),
        Call::Receive(place) => match entries.get(place) {
            Some(entry) => receive(rt, alloc, replica, pass, entry),
            None => panic!(rt; "no entry of that place"),
        },
        Call::Take(place) => replica.take(rt, alloc, pass, 0, place),
        Call::Commit => replica.commit(rt, alloc, pass),
        Call::CommitPrepared => commit_prepared(rt, alloc, replica, pass),
        Call::Rollback => replica.rollback(rt, alloc, pass),
        Call::Restart => replica.restart(rt, alloc, pass, 0),
        Call::Own => own(rt, alloc, replica, pass),
        Call::Purge => replica.purge(rt, alloc, pass, 1),
        Call::Look => replica.look(rt, alloc, pass),
    }
}

/// The reply to a call, whose receipt the pass then has; or none where memory was refused, and then the
/// pass has as many receipts as before.
pub(crate) fn answer<N: Naming, R: Abort + Wait>(
    rt: &R,
    alloc: Global,
    replica: &SharedReplica<N>,
    pass: &mut Pass<N>,
    entries: &[Entry],
    call: Call,
) -> Option<Reply> {
    let before = pass.receipts().len();
    match make(rt, alloc, replica, pass, entries, call) {
        Ok(reply) => {
            let receipts = before.saturating_add(1);
            assert_eq!(rt; pass.receipts().len(), receipts, "a receipt for a step");
            Some(reply)
        }
        Err(fault) => {
            assert_eq!(rt; fault, SetFault::Memory, "memory was refused");
            assert_eq!(rt;
                pass.receipts().len(),
                before,
                "no receipt for a refused call"
            );
            None
        }
    }
}

/// The reply to a call that is made again where memory was refused.
pub(crate) fn retry<N: Naming, R: Abort + Wait>(
    rt: &R,
    alloc: Global,
    replica: &SharedReplica<N>,
    pass: &mut Pass<N>,
    entries: &[Entry],
    call: Call,
) -> Reply {
    if let Some(reply) = answer(rt, alloc, replica, pass, entries, call) {
        return reply;
    }
    match answer(rt, alloc, replica, pass, entries, call) {
        Some(reply) => reply,
        None => panic!(rt; "one call was refused memory twice"),
    }
}
