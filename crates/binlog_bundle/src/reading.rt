//! The bundle that is read, as far as its text has come.
ghost use Rattle.std.specs.Prelude.{◌≡◌, ◌++◌, IfOk, IfErr, OnOk};
ghost use Rattle.txn_journal.specs.BundleText.{WritesBundleBy};
ghost use Rattle.txn_journal.specs.declared.lines.Due.TheVariants.{Only};
ghost use Rattle.txn_journal.specs.declared.lines.Version.TheVariants.{Three};
ghost use Rattle.txn_journal.specs.BundleReaders.{bundle_reading};
ghost use Rattle.binlog_bundle.specs.Lines.{with_line_feed};
ghost use Rattle.binlog_bundle.specs.Refused.{TakesMore, StopsIn, EndsBundle, EndsRefused, IsHeadRefused};

use gtid_set::SetFault;
use std::alloc::Global;
use txn_journal::{Bundle, BundleReader, Due, JournalFault, Version, decode_bundle_by};

/// Takes the next piece of the bundle's text.
pub fn add(alloc: Global, reader: &mut BundleReader, piece: &[u8]) -> Result<(), JournalFault>
    ensures fed { TakesMore result (bundle_reading reader.old) (bundle_reading reader.new) piece.now }
    ensures refused { StopsIn result (bundle_reading reader.old) piece.now }
{
    reader.feed(alloc, piece)
}

/// Takes two pieces, one after the other.
pub fn add_both(
    alloc: Global,
    reader: &mut BundleReader,
    front: &[u8],
    back: &[u8],
) -> Result<(), JournalFault>
    ensures fed { TakesMore result (bundle_reading reader.old) (bundle_reading reader.new) (front.now ++ back.now) }
    ensures refused { StopsIn result (bundle_reading reader.old) (front.now ++ back.now) }
{
    match add(alloc, reader, front) {
        Ok(()) => add(alloc, reader, back),
        Err(fault) => Err(fault),
    }
}

/// Takes the next line of the bundle's text, which is given without its line feed.
pub fn add_line(alloc: Global, reader: &mut BundleReader, line: &[u8]) -> Result<(), JournalFault>
    ensures fed { TakesMore result (bundle_reading reader.old) (bundle_reading reader.new) (with_line_feed line.now) }
    ensures refused { StopsIn result (bundle_reading reader.old) (with_line_feed line.now) }
{
    add_both(alloc, reader, line, b"\n")
}

/// Takes the last piece of the bundle's text.
pub fn close(alloc: Global, reader: BundleReader, piece: &[u8]) -> Result<Bundle, JournalFault>
    ensures found { EndsBundle result (bundle_reading reader) piece.now }
    ensures refused { EndsRefused result (bundle_reading reader) piece.now }
{
    let mut reader = reader;
    match add(alloc, &mut reader, piece) {
        Ok(()) => reader.finish(),
        Err(fault) => Err(fault),
    }
}

/// The bundle of version 3 that a head begins, with this end. The head is as it was.
pub fn read_head(alloc: Global, head: &mut Vec<u8>, end: &[u8]) -> Result<Bundle, JournalFault>
    ensures found { IfOk result (λ b. WritesBundleBy (Only Three) (head.old.items ++ end.now) b) }
    ensures refused { IfErr result (λ fault. IsHeadRefused fault (head.old.items ++ end.now)) }
    ensures same { OnOk result (head.new.items ≡ head.old.items) }
{
    let length = head.len();
    let Ok(()) = head.extend_from_slice(end) else {
        return Err(JournalFault::Set(SetFault::Memory));
    };
    let read = decode_bundle_by(alloc, Due::Only(Version::Three), head);
    head.truncate(length);
    read
}
