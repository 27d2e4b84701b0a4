//! A reader between its pieces: a refusal stays, and the entries so far can be taken.

use std::alloc::Global;
use std::test::Fail;
use txn_journal::{JournalFault, Reader, encode};

const HEAD: &str = "journal 1\nprevious -\n";

const FIRST: &str = "txn aaaaaaaa-aaaa-aaaa-aaaa-aaaaaaaaaaaa:1\nins t 1 x61 null\nend\n";

const REST: &str =
    "txn aaaaaaaa-aaaa-aaaa-aaaa-aaaaaaaaaaaa:2\nupd t 1 x61 null | 1 x62 null\nend\nclose\n";

/// Whether a piece is taken.
fn takes(alloc: Global, reader: &mut Reader, piece: &str) -> bool {
    reader.feed(alloc, piece.as_bytes()).is_ok()
}

/// Whether each call after a line that is no journal's first one is refused.
fn refuses_all(alloc: Global, reader: &mut Reader) -> bool {
    takes(alloc, reader, "journals")
        && !takes(alloc, reader, "\n")
        && !takes(alloc, reader, "j")
        && !takes(alloc, reader, HEAD)
        && reader.take_entries(alloc).is_err()
}

/// Whether the first line is refused at the end.
fn is_refused(reader: Reader) -> bool {
    matches!(reader.finish(), Err(JournalFault::Line { line: 1, .. }))
}

/// After a refusal every later call returns it again.
#[test]
fn a_refusal_stays(rt: HostRuntime) -> Result<(), Fail> {
    let alloc = rt.alloc();
    let mut reader = Reader::start(alloc);
    let refuses = refuses_all(alloc, &mut reader);
    let refused = is_refused(reader);
    assert!(rt; refuses && refused);
    Ok(())
}

/// How many entries there are so far, and the number of the last one.
fn last_taken(alloc: Global, reader: &mut Reader) -> Option<(usize, u64)> {
    let entries = reader.take_entries(alloc).ok()?;
    let mut last = 0;
    for entry in &entries {
        last = entry.gtid.number;
    }
    Some((entries.len(), last))
}

/// Whether the entries so far are taken once.
fn are_taken_once(alloc: Global, reader: &mut Reader) -> bool {
    takes(alloc, reader, HEAD)
        && takes(alloc, reader, FIRST)
        && last_taken(alloc, reader) == Some((1, 1))
        && last_taken(alloc, reader) == Some((0, 0))
        && takes(alloc, reader, REST)
}

/// Whether the journal that was read has the head and the rest.
fn is_rest(alloc: Global, reader: Reader) -> bool {
    match reader.finish() {
        Ok(journal) => match encode(alloc, &journal) {
            Ok(text) => text.as_slice().strip_prefix(HEAD.as_bytes()) == Some(REST.as_bytes()),
            Err(_) => false,
        },
        Err(_) => false,
    }
}

/// The entries so far are taken once, and what comes later ends with the rest.
#[test]
fn entries_are_taken_in_front(rt: HostRuntime) -> Result<(), Fail> {
    let alloc = rt.alloc();
    let mut reader = Reader::start(alloc);
    let taken = are_taken_once(alloc, &mut reader);
    let rest = is_rest(alloc, reader);
    assert!(rt; taken && rest);
    Ok(())
}
