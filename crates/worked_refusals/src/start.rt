//! What a test begins with, and how it reports the case that it met.
use gtid_set::SetFault;
use journal::Entry;
use replica_core::Core;
use rows::Rows;
use std::alloc::Global;
use std::process::Abort;
use std::test::Fail;
use txn_journal::{Bundle, JournalFault, decode_bundle};

/// Memory was refused before the first call.
pub(crate) const NOTHING_BEGAN: &str = "nothing began";

/// A table, and a journal of two inserts and of an update of the first row.
pub(crate) const THREE: &str = "bundle 1
replica cccccccc-cccc-cccc-cccc-cccccccccccc
table t 3 pk 0 uk 1
channel x
journal 1
previous -
txn aaaaaaaa-aaaa-aaaa-aaaa-aaaaaaaaaaaa:1
ins t 1 x61 null
end
txn aaaaaaaa-aaaa-aaaa-aaaa-aaaaaaaaaaaa:2
ins t 2 x62 null
end
txn aaaaaaaa-aaaa-aaaa-aaaa-aaaaaaaaaaaa:3
upd t 1 x61 null | 1 x61 5
end
close
done
";

/// The bundle of a text, or memory for it was refused.
pub(crate) fn bundle<R: Abort>(rt: &R, alloc: Global, text: &str) -> Result<Bundle, SetFault> {
    match decode_bundle(alloc, text.as_bytes()) {
        Ok(bundle) => Ok(bundle),
        Err(JournalFault::Set(fault)) => Err(fault),
        Err(_) => panic!(rt; "the text is no bundle"),
    }
}

/// A replica with the tables of a bundle and no row.
pub(crate) fn core_of(alloc: Global, bundle: &Bundle) -> Result<Core, SetFault> {
    let rows = Rows::open(alloc, bundle.schema().clone()?);
    Core::open(alloc, bundle.replica(), rows)
}

/// The entries of a bundle's first journal.
pub(crate) fn entries(bundle: &Bundle) -> &[Entry] {
    match bundle.journals().first() {
        Some(journal) => journal.entries(),
        None => &[],
    }
}

/// Reports which case a test met.
pub(crate) fn report<R: Print>(rt: &R, met: &str) -> Result<(), Fail> {
    println!(rt; "met: {met}")?;
    Ok(())
}
