//! Channels that a worker leaves: one whose order keeps its commit back, and those that are stopped.
ghost use Rattle.std.specs.Prelude.{◌≡◌, true};
ghost use Rattle.replica_core.specs.Machine.{is_numbered};

use super::books::{book_of_workers, has_state, served_core};
use applier::{NoGate, WorkersEnd, run_workers};
use commit_ledger::Blanks;
use replica_core::{Core, Event, Reply};
use replica_lines::{push_history_line, status};
use shared_replica::{ClosedBook, Naming, SharedReplica, Step};
use std::alloc::{AllocError, Global};
use std::marker::Brand;
use std::sync::Wait;
use std::test::Fail;
use std::thread::Threads;

/// A channel that preserves its order, with three transactions without a common key, and one that doesn't.
const IN_ORDER: &str = "bundle 1
replica cccccccc-cccc-cccc-cccc-cccccccccccc
table t 3 pk 0 uk 1
channel x preserve
journal 1
previous -
txn aaaaaaaa-aaaa-aaaa-aaaa-aaaaaaaaaaaa:1
ins t 1 x61 null
end
txn aaaaaaaa-aaaa-aaaa-aaaa-aaaaaaaaaaaa:2
ins t 2 x62 null
end
txn aaaaaaaa-aaaa-aaaa-aaaa-aaaaaaaaaaaa:3
ins t 3 x63 null
end
close
channel y
journal 1
previous -
txn bbbbbbbb-bbbb-bbbb-bbbb-bbbbbbbbbbbb:1
ins t 4 x64 null
end
close
done
";

/// What is executed where the first channel's first place is held.
const OTHER_CHANNEL: &str = "executed bbbbbbbb-bbbb-bbbb-bbbb-bbbbbbbbbbbb:1
row t 4 x64 null
";

/// What a seat's step is, by a word; None where it is another seat's, or has another reply.
fn word_of(step: &Step, seat: u8) -> Option<&'static str> {
    match (&step.event, &step.reply) {
        (Event::Take(who, _, _), Reply::Taken(_)) if *who == seat => Some("taken"),
        (Event::Commit(who), Reply::Early(0)) if *who == seat => Some("early"),
        (Event::Rollback(who), Reply::RolledBack(_)) if *who == seat => Some("rolled back"),
        _ => None,
    }
}

/// How many of a seat's steps are those of a word.
fn count_of(book: &ClosedBook, seat: u8, word: &str) -> usize {
    book.steps()
        .iter()
        .filter(|step| word_of(step, seat) == Some(word))
        .count()
}

/// The book of three seats, of which the first takes the first place of the first channel and keeps it, and the others are workers'.
fn book_beside_an_owner<N: Naming + Send + Sync, R: Threads + Wait + Sync>(
    rt: &R,
    alloc: Global,
    blanks: Blanks,
    core: Core,
) -> Option<ClosedBook>
    requires steps { (blanks.steps.name ≡ N.steps_name) × (blanks.steps.parts ≡ N.seats) }
    requires commits { (blanks.commits.name ≡ N.commits_name) × (blanks.commits.parts ≡ N.seats) }
    requires opening { core ≡ N.opening }
    requires three { N.seats ≡ 3 }
{
    let Ok((replica, mut passes)) = SharedReplica::<N>::open(alloc, blanks, core, 3) else {
        return None;
    };
    let mut first = passes.remove(0);
    drop(replica.take(rt, alloc, &mut first, 0, 0));
    let WorkersEnd { mut passes, fault } = run_workers(rt, alloc, &replica, passes, &NoGate);
    let _full = passes.insert(0, first);
    match (replica.close(passes), fault) {
        (Ok(book), None) => Some(book),
        _ => None,
    }
}

/// Whether a worker's commit was early 1,000 times, and was rolled back once.
fn gave_up(book: &ClosedBook, seat: u8) -> bool {
    count_of(book, seat, "early") == 1000 && count_of(book, seat, "rolled back") == 1
}

/// Whether two workers have given up on the first channel once each, and one of them has committed what the other channel brings.
fn left_in_order(alloc: Global, book: Option<ClosedBook>) -> bool {
    let Some(book) = book else {
        return false;
    };
    let taken = count_of(&book, 2, "taken").saturating_add(count_of(&book, 3, "taken"));
    gave_up(&book, 2)
        && gave_up(&book, 3)
        && taken == 3
        && count_of(&book, 1, "taken") == 1
        && has_state(alloc, &book, OTHER_CHANNEL)
}

/// The first place of a channel that preserves its order is held by a seat that is no worker's: each of two workers tries 1,000 times to
/// commit a later place, rolls back, serves that channel no more, and ends; all passes come back.
#[test]
fn an_early_commit_is_given_up(rt: HostRuntime) -> Result<(), Fail> {
    let alloc = rt.alloc();
    let Some(core) = served_core(alloc, IN_ORDER) else {
        return Err(Fail::from("no replica"));
    };
    let book = book_beside_an_owner::<Brand, _>(&rt, alloc, Blanks::new(3), core);
    assert!(rt; left_in_order(alloc, book));
    Ok(())
}

/// A channel whose second transaction deletes a row that isn't there, and another channel.
const NO_SUCH_ROW: &str = "bundle 1
replica cccccccc-cccc-cccc-cccc-cccccccccccc
table t 3 pk 0 uk 1
channel x
journal 1
previous -
txn aaaaaaaa-aaaa-aaaa-aaaa-aaaaaaaaaaaa:1
ins t 1 x61 null
end
txn aaaaaaaa-aaaa-aaaa-aaaa-aaaaaaaaaaaa:2
del t 9 x39 null
end
txn aaaaaaaa-aaaa-aaaa-aaaa-aaaaaaaaaaaa:3
ins t 3 x63 null
end
close
channel y
journal 1
previous -
txn bbbbbbbb-bbbb-bbbb-bbbb-bbbbbbbbbbbb:1
ins t 4 x64 null
end
close
done
";

/// A channel that a worker leaves stopped, and what is seen of it.
#[derive(Clone, Copy)]
struct Stopping {
    channel: usize,
    /// The place at which it stopped.
    place: usize,
    /// The lines of the state, which the calls after the worker's end leave as it is.
    state: &'static str,
    /// The status where it is stopped.
    stopped: &'static str,
    /// The status where it was restarted.
    restarted: &'static str,
    /// The status where its place was taken again.
    taken: &'static str,
    /// The lines of the worker's steps and of those calls.
    history: &'static str,
}

/// The first channel is stopped by its second commit, and the worker's third take finds it so.
const NO_ROW_STOPS: Stopping = Stopping {
    channel: 0,
    place: 1,
    state: "executed aaaaaaaa-aaaa-aaaa-aaaa-aaaaaaaaaaaa:1,bbbbbbbb-bbbb-bbbb-bbbb-bbbbbbbbbbbb:1
row t 1 x61 null
row t 4 x64 null
",
    stopped: "gtid_executed aaaaaaaa-aaaa-aaaa-aaaa-aaaaaaaaaaaa:1,bbbbbbbb-bbbb-bbbb-bbbb-bbbbbbbbbbbb:1
gtid_purged -
gtid_owned -
channel x stopped aaaaaaaa-aaaa-aaaa-aaaa-aaaaaaaaaaaa:1-3
channel y running bbbbbbbb-bbbb-bbbb-bbbb-bbbbbbbbbbbb:1
",
    restarted: "gtid_executed aaaaaaaa-aaaa-aaaa-aaaa-aaaaaaaaaaaa:1,bbbbbbbb-bbbb-bbbb-bbbb-bbbbbbbbbbbb:1
gtid_purged -
gtid_owned -
channel x running aaaaaaaa-aaaa-aaaa-aaaa-aaaaaaaaaaaa:1-3
channel y running bbbbbbbb-bbbb-bbbb-bbbb-bbbbbbbbbbbb:1
",
    taken: "gtid_executed aaaaaaaa-aaaa-aaaa-aaaa-aaaaaaaaaaaa:1,bbbbbbbb-bbbb-bbbb-bbbb-bbbbbbbbbbbb:1
gtid_purged -
gtid_owned aaaaaaaa-aaaa-aaaa-aaaa-aaaaaaaaaaaa:2#1
channel x running aaaaaaaa-aaaa-aaaa-aaaa-aaaaaaaaaaaa:1-3
channel y running bbbbbbbb-bbbb-bbbb-bbbb-bbbbbbbbbbbb:1
",
    history: "0 1 take 1 0 0 -> Taken(aaaaaaaa-aaaa-aaaa-aaaa-aaaaaaaaaaaa:1)
1 1 commit 1 -> Committed(aaaaaaaa-aaaa-aaaa-aaaa-aaaaaaaaaaaa:1)
2 1 take 1 0 1 -> Taken(aaaaaaaa-aaaa-aaaa-aaaa-aaaaaaaaaaaa:2)
3 1 commit 1 -> RowRefused(aaaaaaaa-aaaa-aaaa-aaaa-aaaaaaaaaaaa:2 E10 change 0 key 0)
4 1 take 1 0 2 -> Stopped
5 1 take 1 1 0 -> Taken(bbbbbbbb-bbbb-bbbb-bbbb-bbbbbbbbbbbb:1)
6 1 commit 1 -> Committed(bbbbbbbb-bbbb-bbbb-bbbb-bbbbbbbbbbbb:1)
7 1 take 1 0 1 -> Stopped
8 - restart 0 -> Restarted
9 1 take 1 0 1 -> Taken(aaaaaaaa-aaaa-aaaa-aaaa-aaaaaaaaaaaa:2)
",
};

/// Whether the core of a book has this status and this state.
fn shows(alloc: Global, book: &ClosedBook, lines: &str, state: &str) -> bool {
    match status(alloc, book.state()) {
        Ok(text) => text.as_str() == lines && has_state(alloc, book, state),
        Err(_) => false,
    }
}

/// Whether the core of a book has this status and this state after one event more.
fn shows_after(
    alloc: Global,
    book: &mut ClosedBook,
    event: &Event,
    lines: &str,
    state: &str,
) -> bool
    requires { is_numbered event.now ≡ true }
{
    drop(book.step(alloc, event));
    shows(alloc, book, lines, state)
}

/// The lines of steps, each with its place.
fn history_text(alloc: Global, steps: &[Step]) -> Result<String, AllocError> {
    let mut text = String::new(alloc);
    for (place, step) in steps.iter().enumerate() {
        push_history_line(alloc, &mut text, place as u64, &step.event, &step.reply)?;
        text.push_str("\n")?;
    }
    Ok(text)
}

/// Whether steps have these lines.
fn has_history(alloc: Global, steps: &[Step], lines: &str) -> bool {
    match history_text(alloc, steps) {
        Ok(text) => text.as_str() == lines,
        Err(_) => false,
    }
}

/// Whether a worker has left a channel stopped: its place can't be taken before it was restarted, and then it can.
fn is_stopped(alloc: Global, book: Option<ClosedBook>, stopping: &Stopping) -> bool {
    let Some(mut book) = book else {
        return false;
    };
    let state = stopping.state;
    let take = Event::Take(1, stopping.channel, stopping.place);
    let restart = Event::Restart(stopping.channel);
    let is_left = shows(alloc, &book, stopping.stopped, state);
    let is_kept = shows_after(alloc, &mut book, &take, stopping.stopped, state);
    let runs = shows_after(alloc, &mut book, &restart, stopping.restarted, state);
    let is_taken = shows_after(alloc, &mut book, &take, stopping.taken, state);
    is_left && is_kept && runs && is_taken && has_history(alloc, book.steps(), stopping.history)
}

/// A transaction that does not apply stops its channel. The worker serves that channel no more and goes on with the other one; once the
/// channel is restarted, the place can be taken again.
#[test]
fn a_stopped_channel_is_left(rt: HostRuntime) -> Result<(), Fail> {
    let alloc = rt.alloc();
    let Some(core) = served_core(alloc, NO_SUCH_ROW) else {
        return Err(Fail::from("no replica"));
    };
    let book = book_of_workers(&rt, alloc, core, 1, &NoGate);
    assert!(rt; is_stopped(alloc, book, &NO_ROW_STOPS));
    Ok(())
}

/// Two channels, of which each inserts a row under one primary key.
const ONE_KEY: &str = "bundle 1
replica cccccccc-cccc-cccc-cccc-cccccccccccc
table t 3 pk 0 uk 1
channel x
journal 1
previous -
txn aaaaaaaa-aaaa-aaaa-aaaa-aaaaaaaaaaaa:1
ins t 1 x61 null
end
close
channel y
journal 1
previous -
txn bbbbbbbb-bbbb-bbbb-bbbb-bbbbbbbbbbbb:1
ins t 1 x62 null
end
close
done
";

/// The second channel is stopped by its only commit.
const ONE_KEY_STOPS: Stopping = Stopping {
    channel: 1,
    place: 0,
    state: "executed aaaaaaaa-aaaa-aaaa-aaaa-aaaaaaaaaaaa:1
row t 1 x61 null
",
    stopped: "gtid_executed aaaaaaaa-aaaa-aaaa-aaaa-aaaaaaaaaaaa:1
gtid_purged -
gtid_owned -
channel x running aaaaaaaa-aaaa-aaaa-aaaa-aaaaaaaaaaaa:1
channel y stopped bbbbbbbb-bbbb-bbbb-bbbb-bbbbbbbbbbbb:1
",
    restarted: "gtid_executed aaaaaaaa-aaaa-aaaa-aaaa-aaaaaaaaaaaa:1
gtid_purged -
gtid_owned -
channel x running aaaaaaaa-aaaa-aaaa-aaaa-aaaaaaaaaaaa:1
channel y running bbbbbbbb-bbbb-bbbb-bbbb-bbbbbbbbbbbb:1
",
    taken: "gtid_executed aaaaaaaa-aaaa-aaaa-aaaa-aaaaaaaaaaaa:1
gtid_purged -
gtid_owned bbbbbbbb-bbbb-bbbb-bbbb-bbbbbbbbbbbb:1#1
channel x running aaaaaaaa-aaaa-aaaa-aaaa-aaaaaaaaaaaa:1
channel y running bbbbbbbb-bbbb-bbbb-bbbb-bbbbbbbbbbbb:1
",
    history: "0 1 take 1 0 0 -> Taken(aaaaaaaa-aaaa-aaaa-aaaa-aaaaaaaaaaaa:1)
1 1 commit 1 -> Committed(aaaaaaaa-aaaa-aaaa-aaaa-aaaaaaaaaaaa:1)
2 1 take 1 1 0 -> Taken(bbbbbbbb-bbbb-bbbb-bbbb-bbbbbbbbbbbb:1)
3 1 commit 1 -> RowRefused(bbbbbbbb-bbbb-bbbb-bbbb-bbbbbbbbbbbb:1 E12 change 0 key 0)
4 1 take 1 1 0 -> Stopped
5 - restart 1 -> Restarted
6 1 take 1 1 0 -> Taken(bbbbbbbb-bbbb-bbbb-bbbb-bbbbbbbbbbbb:1)
",
};

/// An insert under a key that another channel's row has stops its channel, and leaves the rows as they are. The transaction can be taken
/// again once the channel is restarted.
#[test]
fn a_second_row_of_one_key_is_refused(rt: HostRuntime) -> Result<(), Fail> {
    let alloc = rt.alloc();
    let Some(core) = served_core(alloc, ONE_KEY) else {
        return Err(Fail::from("no replica"));
    };
    let book = book_of_workers(&rt, alloc, core, 1, &NoGate);
    assert!(rt; is_stopped(alloc, book, &ONE_KEY_STOPS));
    Ok(())
}
