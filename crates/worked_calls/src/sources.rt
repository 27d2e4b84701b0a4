//! A bundle of an opening row and two sources: A inserts two rows and updates the first, B inserts a row under the first one's key.

use journal::Entry;
use std::alloc::Global;
use std::test::Fail;
use txn_journal::{Bundle, decode_bundle};

pub(crate) const A: u128 = 0xaaaaaaaa_aaaa_aaaa_aaaa_aaaaaaaaaaaa;

pub(crate) const B: u128 = 0xbbbbbbbb_bbbb_bbbb_bbbb_bbbbbbbbbbbb;

pub(crate) const TEXT: &str = concat!(
    "bundle 1\n",
    "replica cccccccc-cccc-cccc-cccc-cccccccccccc\n",
    "table t 3 pk 0 uk 1\n",
    "row t 9 x39 null\n",
    "channel x\n",
    "journal 1\n",
    "previous -\n",
    "txn aaaaaaaa-aaaa-aaaa-aaaa-aaaaaaaaaaaa:1\n",
    "ins t 1 x61 null\n",
    "end\n",
    "txn aaaaaaaa-aaaa-aaaa-aaaa-aaaaaaaaaaaa:2\n",
    "ins t 2 x62 null\n",
    "end\n",
    "txn aaaaaaaa-aaaa-aaaa-aaaa-aaaaaaaaaaaa:3\n",
    "upd t 1 x61 null | 1 x61 5\n",
    "end\n",
    "close\n",
    "channel y\n",
    "journal 1\n",
    "previous -\n",
    "txn bbbbbbbb-bbbb-bbbb-bbbb-bbbbbbbbbbbb:1\n",
    "ins t 1 x63 null\n",
    "end\n",
    "close\n",
    "done\n",
);

pub(crate) fn bundle(alloc: Global) -> Result<Bundle, Fail> {
    Ok(decode_bundle(alloc, TEXT.as_bytes())?)
}

/// The entries of a bundle's first journal.
pub(crate) fn first_entries(bundle: &Bundle) -> &[Entry] {
    match bundle.journals().first() {
        Some(journal) => journal.entries(),
        None => &[],
    }
}
