//! The drain, and the state after it.
use applier::drain;
use gtid_report::render_state;
use gtid_set::SetFault;
use gtid_text::Gtid;
use replica_core::Reply;
use shared_replica::{ClosedBook, Step};
use std::alloc::Global;
use std::process::Abort;

/// Drains, and once more where memory was refused; whether it was. What the shares have counted stays.
pub(crate) fn drain_again<R: Abort>(rt: &R, alloc: Global, book: &mut ClosedBook) -> bool {
    let counts = book.counts();
    let first = drain(alloc, book);
    assert!(rt;
        matches!(first, Ok(()) | Err(SetFault::Memory)),
        "memory was refused"
    );
    if first.is_err() {
        assert!(rt; drain(alloc, book).is_ok(), "drained at the second call");
    }
    assert_eq!(rt; book.counts(), counts, "a drain leaves no receipts");
    first.is_err()
}

/// What the seats own. Memory may be refused once.
pub(crate) fn owned_gtids<R: Abort>(rt: &R, alloc: Global, book: &ClosedBook) -> Vec<(u8, Gtid)> {
    match book.state().owned(alloc) {
        Ok(owned) => owned,
        Err(_) => book.state().owned(alloc).expect(rt, "what is owned"),
    }
}

/// The lines of the state. Memory may be refused once.
fn state<R: Abort>(rt: &R, alloc: Global, book: &ClosedBook) -> String {
    let core = book.state();
    match render_state(alloc, core.executed(), core.rows()) {
        Ok(text) => text,
        Err(_) => render_state(alloc, core.executed(), core.rows()).expect(rt, "a state"),
    }
}

fn commits(steps: &[Step]) -> usize {
    steps
        .iter()
        .filter(|step| matches!(&step.reply, Reply::Committed(_)))
        .count()
}

/// The state is the expected one, nothing is owned, and each of so many GTIDs was committed once.
pub(crate) fn shows<R: Abort>(
    rt: &R,
    alloc: Global,
    book: &ClosedBook,
    wanted: &str,
    count: usize,
) {
    assert_eq!(rt;
        state(rt, alloc, book).as_str(),
        wanted,
        "the state at the end"
    );
    assert!(rt;
        owned_gtids(rt, alloc, book).is_empty(),
        "nothing is owned at the end"
    );
    assert!(rt; book.state().is_drained(), "all is executed at the end");
    assert_eq!(rt; commits(book.steps()), count, "a commit for each entry");
}
