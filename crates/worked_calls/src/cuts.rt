//! A bundle that comes in two pieces, cut at every byte, and byte by byte, is the bundle that comes at once.

use crate::sources::TEXT;
use crate::written::BUNDLE;
use std::alloc::Global;
use std::test::Fail;
use txn_journal::{Bundle, BundleReader, Version, encode_bundle};

/// Whether a bundle is written by version 2 with these bytes.
fn is_written(alloc: Global, bundle: &Bundle, want: &[u8]) -> bool {
    match encode_bundle(alloc, Version::Two, bundle) {
        Ok(bytes) => bytes.as_slice() == want,
        Err(_) => false,
    }
}

/// Whether what a reader has read is the bundle of version 2.
fn is_whole(alloc: Global, reader: BundleReader) -> bool {
    match reader.finish() {
        Ok(bundle) => is_written(alloc, &bundle, BUNDLE.as_bytes()),
        Err(_) => false,
    }
}

/// Whether a text is the bundle, cut in two behind so many bytes.
fn reads_in_two(alloc: Global, text: &str, cut: usize) -> bool {
    let (front, back) = text.as_bytes().split_at(cut.min(text.len()));
    let mut reader = BundleReader::start(alloc);
    let are_fed = reader.feed(alloc, front).is_ok() && reader.feed(alloc, back).is_ok();
    is_whole(alloc, reader) && are_fed
}

/// Whether a text is the bundle, byte by byte.
fn reads_by_bytes(alloc: Global, text: &str) -> bool {
    let mut reader = BundleReader::start(alloc);
    let mut are_fed = true;
    for piece in text.as_bytes().chunks(1) {
        are_fed = reader.feed(alloc, piece).is_ok() && are_fed;
    }
    is_whole(alloc, reader) && are_fed
}

/// Whether a text is the bundle, cut in two at every byte, and byte by byte.
fn reads_in_all_cuts(alloc: Global, text: &str) -> bool {
    (0..=text.len()).all(|cut| reads_in_two(alloc, text, cut)) && reads_by_bytes(alloc, text)
}

/// The bundle of version 1 and that of version 2.
#[test]
fn a_bundle_in_pieces(rt: HostRuntime) -> Result<(), Fail> {
    let alloc = rt.alloc();
    for text in [TEXT, BUNDLE] {
        assert!(rt; reads_in_all_cuts(alloc, text));
    }
    Ok(())
}
