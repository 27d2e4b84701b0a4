//! A bundle, and a journal that is cut off, which come in pieces, of which one is refused memory.
use crate::seats::{A, is_gtid};
use crate::start::report;
use gtid_set::SetFault;
use std::alloc::Global;
use std::process::Abort;
use std::test::Fail;
use txn_journal::{Bundle, BundleReader, JournalFault, Reader};

/// What a reader answers that was refused memory.
const MEMORY: JournalFault = JournalFault::Set(SetFault::Memory);

/// Memory for a piece was refused.
const PIECE_REFUSED: &str = "a piece was refused";

/// A bundle of two channels, in version 2.
const TWO_CHANNELS: &str = "bundle 2
replica cccccccc-cccc-cccc-cccc-cccccccccccc
opening bbbbbbbb-bbbb-bbbb-bbbb-bbbbbbbbbbbb:1
table t 3 pk 0 uk 1
row t 9 x39 null
channel x
journal 2
previous -
txn aaaaaaaa-aaaa-aaaa-aaaa-aaaaaaaaaaaa:1 0 1
ins t 1 x61 null
end
txn aaaaaaaa-aaaa-aaaa-aaaa-aaaaaaaaaaaa:2 0 2
ins t 2 x62 null
end
txn aaaaaaaa-aaaa-aaaa-aaaa-aaaaaaaaaaaa:3 1 3
upd t 1 x61 null | 1 x61 5
end
close
channel y preserve
journal 2
previous bbbbbbbb-bbbb-bbbb-bbbb-bbbbbbbbbbbb:1
txn bbbbbbbb-bbbb-bbbb-bbbb-bbbbbbbbbbbb:2 0 1
ins t 3 x63 null
end
close
done
";

/// Whether a piece is refused memory. It is where an earlier one was.
fn is_refused_too<R: Abort>(rt: &R, fed: &Result<(), JournalFault>, was_refused: bool) -> bool {
    match fed {
        Ok(()) => assert!(rt; !was_refused, "a refusal stays"),
        Err(fault) => assert_eq!(rt; *fault, MEMORY, "no line is faulty"),
    }
    fed.is_err()
}

/// Feeds the bundle in pieces of seven bytes. Whether one of them was refused memory; then each later one is refused it too.
fn feed_bundle<R: Abort>(rt: &R, alloc: Global, reader: &mut BundleReader) -> bool {
    let mut is_refused = false;
    for piece in TWO_CHANNELS.as_bytes().chunks(7) {
        is_refused = is_refused_too(rt, &reader.feed(alloc, piece), is_refused);
    }
    is_refused
}

/// How many entries the journals of a bundle have.
fn count_entries(bundle: &Bundle) -> usize {
    let mut count = 0usize;
    for journal in bundle.journals() {
        count = count.saturating_add(journal.len());
    }
    count
}

/// Which case it is: all was read, or nothing.
fn end<R: Abort>(rt: &R, reader: BundleReader, is_refused: bool) -> &'static str {
    match reader.finish() {
        Ok(bundle) => {
            assert!(rt; !is_refused, "a refusal stays");
            assert_eq!(rt; count_entries(&bundle), 4, "all entries");
            "all pieces were read"
        }
        Err(fault) => {
            assert_eq!(rt; fault, MEMORY, "the text is a bundle");
            PIECE_REFUSED
        }
    }
}

/// A reader that was refused memory is refused it from then on, and gives no part of a bundle.
#[test]
fn a_bundle_comes_in_pieces(rt: HostRuntime) -> Result<(), Fail> {
    let alloc = rt.alloc();
    let mut reader = BundleReader::start(alloc);
    let is_refused = feed_bundle(&rt, alloc, &mut reader);
    let met = end(&rt, reader, is_refused);
    report(&rt, met)
}

/// A journal that ends behind the first line of its second entry's changes.
const CUT_OFF: &str = "journal 1
previous -
txn aaaaaaaa-aaaa-aaaa-aaaa-aaaaaaaaaaaa:1
ins t 1 x61 null
end
txn aaaaaaaa-aaaa-aaaa-aaaa-aaaaaaaaaaaa:2
upd t 1 x61 null | 1 x62 null
";

/// Feeds a journal's beginning in pieces of seven bytes. Whether one of them was refused memory; then each later one is refused it too.
fn feed_journal<R: Abort>(rt: &R, alloc: Global, reader: &mut Reader, text: &str) -> bool {
    let mut is_refused = false;
    for piece in text.as_bytes().chunks(7) {
        is_refused = is_refused_too(rt, &reader.feed(alloc, piece), is_refused);
    }
    is_refused
}

/// Whether a reader gives the first entry alone.
fn gives_first(alloc: Global, reader: &mut Reader) -> bool {
    match reader.take_entries(alloc) {
        Ok(entries) => matches!(entries.as_slice(), [only] if is_gtid(&only.gtid, A, 1)),
        Err(_) => false,
    }
}

/// A text gives its first entry, and then ends within this line; or a piece of it is refused memory, and so is what is asked for later.
/// Whether one was.
fn is_refused_before<R: Abort>(rt: &R, alloc: Global, text: &str, line: u64) -> bool {
    let mut reader = Reader::start(alloc);
    let is_refused = feed_journal(rt, alloc, &mut reader, text);
    let has_first = gives_first(alloc, &mut reader);
    let fault = reader.finish().err();
    let wanted = if is_refused {
        MEMORY
    } else {
        JournalFault::Truncated { line }
    };
    assert_eq!(rt; fault, Some(wanted), "how the text ends");
    assert_eq!(rt; has_first, !is_refused, "the first entry");
    is_refused
}

/// A journal that is cut off behind a line, or within it, gives the entry before, and no journal.
#[test]
fn a_journal_is_cut_off(rt: HostRuntime) -> Result<(), Fail> {
    let alloc = rt.alloc();
    let behind = is_refused_before(&rt, alloc, CUT_OFF, 8);
    let within = is_refused_before(&rt, alloc, CUT_OFF.trim_end(), 7);
    let met = if behind || within {
        PIECE_REFUSED
    } else {
        "the journal ends too early"
    };
    report(&rt, met)
}
