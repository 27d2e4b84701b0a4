//! Two seats of one replica by turns on one thread.
ghost use Rattle.std.specs.Prelude.{◌≡◌};

use crate::calls::{Call, answer, retry};
use crate::start::{NOTHING_BEGAN, THREE, bundle, core_of, entries, report};
use commit_ledger::{Blanks, Counts};
use gtid_text::{Gtid, SourceId};
use journal::Entry;
use replica_core::{Core, Event, Reply};
use shared_replica::{ClosedBook, Naming, Pass, SharedReplica, Step};
use std::alloc::Global;
use std::marker::Brand;
use std::process::Abort;
use std::sync::Wait;
use std::test::Fail;

/// The bits of the source's UUID.
pub(crate) const A: u128 = 0xaaaa_aaaa_aaaa_aaaa_aaaa_aaaa_aaaa_aaaa;

/// The bits of the replica's own UUID.
const C: u128 = 0xcccc_cccc_cccc_cccc_cccc_cccc_cccc_cccc;

/// The reply to a call. Numbers of GTIDs are those of A.
#[derive(Clone, Copy)]
enum Said {
    Opened,
    Asked,
    Received(usize),
    Taken(u64),
    OwnedBy(u8),
    Blocked(usize),
    Done(u64),
    Committed(u64),
    RolledBack(u64),
    Restarted,
    /// The first number of the replica's own source is committed.
    CommittedOwn,
    /// So many GTIDs are purged.
    Purged(u128),
    /// So many GTIDs are executed.
    Shown(u128),
}

/// A call of one of two seats, its reply, and how many GTIDs are executed then.
type AnsweredCall = (u8, Call, Said, u128);

/// The turns, with the replies that the rules of seats and places give.
const TURNS: [AnsweredCall; 20] = [
    (1, Call::Open, Said::Opened, 0),
    (2, Call::Position, Said::Asked, 0),
    (1, Call::Receive(0), Said::Received(0), 0),
    (2, Call::Receive(1), Said::Received(1), 0),
    (1, Call::Receive(2), Said::Received(2), 0),
    (1, Call::Take(0), Said::Taken(1), 0),
    (2, Call::Take(0), Said::OwnedBy(1), 0),
    (2, Call::Take(2), Said::Blocked(0), 0),
    (1, Call::Commit, Said::Committed(1), 1),
    (2, Call::Take(1), Said::Taken(2), 1),
    (2, Call::CommitPrepared, Said::Committed(2), 2),
    (1, Call::Take(2), Said::Taken(3), 2),
    (1, Call::Rollback, Said::RolledBack(3), 2),
    (2, Call::Restart, Said::Restarted, 2),
    (2, Call::Take(2), Said::Taken(3), 2),
    (2, Call::Commit, Said::Committed(3), 3),
    (1, Call::Own, Said::CommittedOwn, 4),
    (1, Call::Take(0), Said::Done(1), 4),
    (2, Call::Purge, Said::Purged(1), 4),
    (1, Call::Look, Said::Shown(4), 4),
];

/// Whether a GTID is of this source and has this number.
pub(crate) fn is_gtid(gtid: &Gtid, source: u128, number: u64) -> bool {
    gtid.source == SourceId::from_bits(source) && gtid.number == number
}

/// Whether a reply is this one.
fn is_reply(reply: &Reply, said: Said) -> bool {
    match said {
        Said::Opened => matches!(reply, Reply::Opened(0)),
        Said::Asked => matches!(reply, Reply::Ask(set) if set.count() == 0),
        Said::Received(place) => matches!(reply, Reply::Received(at) if *at == place),
        Said::Taken(number) => matches!(reply, Reply::Taken(gtid) if is_gtid(gtid, A, number)),
        Said::OwnedBy(seat) => matches!(reply, Reply::OwnedBy(owner) if *owner == seat),
        Said::Blocked(place) => matches!(reply, Reply::Blocked(at) if *at == place),
        Said::Done(number) => matches!(reply, Reply::Done(gtid) if is_gtid(gtid, A, number)),
        Said::Committed(number) => {
            matches!(reply, Reply::Committed(gtid) if is_gtid(gtid, A, number))
        }
        Said::RolledBack(number) => {
            matches!(reply, Reply::RolledBack(gtid) if is_gtid(gtid, A, number))
        }
        Said::Restarted => matches!(reply, Reply::Restarted),
        Said::CommittedOwn => matches!(reply, Reply::Committed(gtid) if is_gtid(gtid, C, 1)),
        Said::Purged(count) => matches!(reply, Reply::Purged(set) if set.count() == count),
        Said::Shown(count) => matches!(reply, Reply::Shown(set) if set.count() == count),
    }
}

/// Whether an event is that of a call of a seat.
fn is_event(event: &Event, seat: u8, call: Call) -> bool {
    match call {
        Call::Open => matches!(event, Event::OpenChannel(name, false) if name.as_str() == "x"),
        Call::Position => matches!(event, Event::Position(0)),
        Call::Receive(place) => {
            let number = (place as u64).saturating_add(1);
            matches!(event, Event::Receive(0, entry) if is_gtid(&entry.gtid, A, number))
        }
        Call::Take(place) => {
            matches!(event, Event::Take(who, 0, at) if *who == seat && *at == place)
        }
        Call::Commit | Call::CommitPrepared => {
            matches!(event, Event::Commit(who) if *who == seat)
        }
        Call::Rollback => matches!(event, Event::Rollback(who) if *who == seat),
        Call::Restart => matches!(event, Event::Restart(0)),
        Call::Own => matches!(event, Event::Local(_)),
        Call::Purge => matches!(event, Event::Purge(1)),
        Call::Look => matches!(event, Event::Look),
    }
}

/// Whether a step is that of a turn.
fn is_turn(turn: &AnsweredCall, step: &Step) -> bool {
    let (seat, call, said, _) = *turn;
    is_event(&step.event, seat, call) && is_reply(&step.reply, said)
}

/// Whether a step is a look that shows so many GTIDs.
fn is_look(step: &Step, executed: u128) -> bool {
    matches!(&step.event, Event::Look) && is_reply(&step.reply, Said::Shown(executed))
}

/// Whether the steps are the turns in order, with nothing between them but looks at what was executed.
fn are_turns(steps: &[Step]) -> bool {
    let mut next = 0usize;
    let mut executed = 0u128;
    for step in steps {
        match TURNS.get(next) {
            Some(turn) if is_turn(turn, step) => {
                executed = turn.3;
                next = next.saturating_add(1);
            }
            _ => {
                if !is_look(step, executed) {
                    return false;
                }
            }
        }
    }
    next == TURNS.len()
}

/// Makes a call until it has a reply, and returns whether it was refused memory. Then a look shows, before it
/// is made again, that no more and no less is executed than before.
fn take_turn<N: Naming, R: Abort + Wait>(
    rt: &R,
    alloc: Global,
    replica: &SharedReplica<N>,
    pass: &mut Pass<N>,
    entries: &[Entry],
    turn: &AnsweredCall,
    executed: u128,
) -> bool {
    let (_, call, said, _) = *turn;
    if let Some(reply) = answer(rt, alloc, replica, pass, entries, call) {
        assert!(rt; is_reply(&reply, said), "the answer to a call");
        return false;
    }
    let shown = retry(rt, alloc, replica, pass, entries, Call::Look);
    assert!(rt;
        is_reply(&shown, Said::Shown(executed)),
        "a refused call executes nothing"
    );
    let reply = retry(rt, alloc, replica, pass, entries, call);
    assert!(rt;
        is_reply(&reply, said),
        "the answer to a call that was refused before"
    );
    true
}

/// All turns; how many calls were refused memory.
fn take_turns<N: Naming, R: Abort + Wait>(
    rt: &R,
    alloc: Global,
    replica: &SharedReplica<N>,
    passes: &mut [Pass<N>],
    entries: &[Entry],
) -> usize {
    let mut refused = 0usize;
    let mut executed = 0u128;
    for turn in &TURNS {
        let Some(pass) = passes.get_mut((turn.0 as usize).saturating_sub(1)) else {
            panic!(rt; "no pass of that seat");
        };
        if take_turn(rt, alloc, replica, pass, entries, turn, executed) {
            refused = refused.saturating_add(1);
        }
        executed = turn.3;
    }
    refused
}

/// The history is the turns, with a look for each refused call, and there is a receipt for each step.
fn shows_turns<R: Abort>(rt: &R, book: &ClosedBook, refused: usize) {
    let steps = book.steps();
    assert!(rt; are_turns(steps), "the history is the answered calls");
    assert_eq!(rt;
        steps.len(),
        refused.saturating_add(20),
        "a look for a refused call"
    );
    let first = book.receipts(1).len();
    let second = book.receipts(2).len();
    assert_eq!(rt;
        first.saturating_add(second),
        steps.len(),
        "a receipt for each step"
    );
    assert!(rt; first >= 10 && second >= 10, "the receipts of each seat");
    let counts = Counts {
        steps: steps.len() as u64,
        commits: 4,
    };
    assert_eq!(rt; book.counts(), counts, "what the shares count");
}

/// Two seats of a replica go by turns.
fn two_seats<N: Naming, R: Abort + Wait + Print>(
    rt: &R,
    alloc: Global,
    blanks: Blanks,
    core: Core,
    entries: &[Entry],
) -> Result<(), Fail>
    requires steps { (blanks.steps.name ≡ N.steps_name) × (blanks.steps.parts ≡ N.seats) }
    requires commits { (blanks.commits.name ≡ N.commits_name) × (blanks.commits.parts ≡ N.seats) }
    requires opening { core ≡ N.opening }
    requires two { N.seats ≡ 2 }
{
    let Ok((replica, mut passes)) = SharedReplica::<N>::open(alloc, blanks, core, 2) else {
        return report(rt, NOTHING_BEGAN);
    };
    let refused = take_turns(rt, alloc, &replica, passes.as_mut_slice(), entries);
    let Ok(book) = replica.close(passes) else {
        panic!(rt; "the receipts are not the history");
    };
    shows_turns(rt, &book, refused);
    drop(book);
    let met = if refused == 0 {
        "no call refused"
    } else {
        "a call refused"
    };
    report(rt, met)
}

/// A call that was refused memory has changed nothing, and has its reply when it is made again.
#[test]
fn two_seats_by_turns(rt: HostRuntime) -> Result<(), Fail> {
    let alloc = rt.alloc();
    let Ok(bundle) = bundle(&rt, alloc, THREE) else {
        return report(&rt, NOTHING_BEGAN);
    };
    let Ok(core) = core_of(alloc, &bundle) else {
        return report(&rt, NOTHING_BEGAN);
    };
    two_seats::<Brand, _>(&rt, alloc, Blanks::new(2), core, entries(&bundle))
}
