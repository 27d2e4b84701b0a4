//! A bundle and a journal of version 1, written by version 2: each entry gets its last_committed and its sequence number. The numbers of
//! a journal are read as they are written.

use crate::sources::bundle;
use std::test::Fail;
use txn_journal::{Version, decode_v2, encode_bundle, encode_v2, stamps};

pub(crate) const BUNDLE: &str = concat!(
    "bundle 2\n",
    "replica cccccccc-cccc-cccc-cccc-cccccccccccc\n",
    "opening -\n",
    "table t 3 pk 0 uk 1\n",
    "row t 9 x39 null\n",
    "channel x\n",
    "journal 2\n",
    "previous -\n",
    "txn aaaaaaaa-aaaa-aaaa-aaaa-aaaaaaaaaaaa:1 0 1\n",
    "ins t 1 x61 null\n",
    "end\n",
    "txn aaaaaaaa-aaaa-aaaa-aaaa-aaaaaaaaaaaa:2 0 2\n",
    "ins t 2 x62 null\n",
    "end\n",
    "txn aaaaaaaa-aaaa-aaaa-aaaa-aaaaaaaaaaaa:3 1 3\n",
    "upd t 1 x61 null | 1 x61 5\n",
    "end\n",
    "close\n",
    "channel y\n",
    "journal 2\n",
    "previous -\n",
    "txn bbbbbbbb-bbbb-bbbb-bbbb-bbbbbbbbbbbb:1 0 1\n",
    "ins t 1 x63 null\n",
    "end\n",
    "close\n",
    "done\n",
);

const JOURNAL: &str = concat!(
    "journal 2\n",
    "previous -\n",
    "txn bbbbbbbb-bbbb-bbbb-bbbb-bbbbbbbbbbbb:1 0 1\n",
    "ins t 1 x63 null\n",
    "end\n",
    "close\n",
);

const NUMBERED: &str = concat!(
    "journal 2\n",
    "previous -\n",
    "txn aaaaaaaa-aaaa-aaaa-aaaa-aaaaaaaaaaaa:1 0 1\n",
    "end\n",
    "txn aaaaaaaa-aaaa-aaaa-aaaa-aaaaaaaaaaaa:2 0 2\n",
    "end\n",
    "txn aaaaaaaa-aaaa-aaaa-aaaa-aaaaaaaaaaaa:3 1 3\n",
    "end\n",
    "close\n",
);

#[test]
fn a_bundle_is_written(rt: HostRuntime) -> Result<(), Fail> {
    let alloc = rt.alloc();
    let bytes = encode_bundle(alloc, Version::Two, &bundle(alloc)?)?;
    assert!(rt; bytes.as_slice() == BUNDLE.as_bytes());
    Ok(())
}

#[test]
fn a_journal_is_written(rt: HostRuntime) -> Result<(), Fail> {
    let alloc = rt.alloc();
    let bundle = bundle(alloc)?;
    assert!(rt; bundle.journals().len() == 2);
    if let Some(journal) = bundle.journals().last() {
        let bytes = encode_v2(alloc, bundle.schema(), journal)?;
        assert!(rt; bytes.as_slice() == JOURNAL.as_bytes());
    }
    Ok(())
}

#[test]
fn numbers_are_read(rt: HostRuntime) -> Result<(), Fail> {
    let read = decode_v2(rt.alloc(), NUMBERED.as_bytes())?;
    assert!(rt; read.last_committed() == [0, 0, 1].as_slice());
    Ok(())
}

/// The update of row 1 touches what the first entry wrote; the first two touch nothing that was written before.
#[test]
fn stamps_of_a_journal(rt: HostRuntime) -> Result<(), Fail> {
    let alloc = rt.alloc();
    let bundle = bundle(alloc)?;
    assert!(rt; bundle.journals().len() == 2);
    if let Some(journal) = bundle.journals().first() {
        let numbers = stamps(alloc, bundle.schema(), journal)?;
        assert!(rt; numbers.as_slice() == [0, 0, 1].as_slice());
    }
    Ok(())
}
