//! What commands read: bundles and journals.
ghost use Rattle.std.specs.Prelude.{◌≡◌, ◌++◌, [], List, ℕ, Result, Err, OnOk};
ghost use Rattle.gtid_set.specs.Full.{IsMemoryOr};
ghost use Rattle.gtid_set.specs.declared.fault.SetFault.{SetFault};
ghost use Rattle.gtid_set.specs.declared.fault.SetFault.TheVariants as sets;
ghost use Rattle.txn_journal.specs.declared.fault.JournalFault.{JournalFault};
ghost use Rattle.txn_journal.specs.declared.fault.JournalFault.TheVariants as journals;
ghost use Rattle.txn_journal.specs.BundleReaders.{bundle_reading};
ghost use Rattle.txn_journal.specs.BundleReading.{closing_bundle};
ghost use Rattle.txn_journal.specs.declared.lines.Due.TheVariants.{Only, BeforeThree};
ghost use Rattle.txn_journal.specs.declared.lines.Version.TheVariants.{One};
ghost use Rattle.commands.specs.Parsing.{ParsesAsBundle, ParsesBy, bundle_in, bundle_by};
ghost use Rattle.commands.specs.Counted.{ParsesAsCounted, counted_in};
ghost use Rattle.commands.specs.Positions.{ParsesAsJournal, journal_in};
ghost use Rattle.commands.specs.Texts.{IsTextOf};
ghost use Rattle.parallel_reading.specs.Coming.{HasCome};

use journal::Journal;
use std::alloc::{AllocError, Global};
use std::marker::Model;
use std::mem;
use txn_journal::{Bundle, BundleReader, Due, JournalFault, Version, decode, decode_bundle_by};

/// What bytes parse as: a bundle or a journal.
pub(crate) trait Text: Drop {
    /// The grammar: these bytes are the text of this value, or have this first fault.
    ghost parses: { List ℕ → Result Self JournalFault → Type 0 };

    /// The fold over the bytes: the value, or the first fault.
    ghost decoded: { List ℕ → Result Self JournalFault };

    /// What takes the bytes, piece by piece.
    type Reader: Drop;

    /// These bytes have come.
    ghost has_come: { Self.Reader → List ℕ → Type 0 };

    /// Before the first byte.
    fn start(alloc: Global) -> Self::Reader
        ensures { has_come result [] };

    /// Takes the next piece.
    fn feed(alloc: Global, reader: &mut Self::Reader, piece: &[u8]) -> Result<(), AllocError>
        ensures { OnOk result ((bytes : List ℕ) → has_come reader.old bytes → has_come reader.new (bytes ++ piece.now)) };

    /// What all pieces together parse as.
    fn finish(alloc: Global, reader: Self::Reader) -> Result<Self, JournalFault>
        ensures { (bytes : List ℕ) → has_come reader bytes → IsTextOf parses decoded bytes result };

    /// A set is not made because an allocation failed, or because by the grammar it has too many sources or intervals.
    ghost full: { (bytes : List ℕ) (f : SetFault) → parses bytes (Err (journals.Set f)) → IsMemoryOr (parses bytes (Err (journals.Set sets.SourcesFull))) (parses bytes (Err (journals.Set sets.PoolFull))) f };
}

impl Text for Bundle {
    ghost parses = { ParsesAsBundle };

    ghost decoded = { bundle_in };

    ghost full = { λ bytes f h. h };

    type Reader = BundleReader;

    ghost has_come = { HasCome };

    fn start(alloc: Global) -> BundleReader {
        BundleReader::start(alloc)
    }

    fn feed(alloc: Global, reader: &mut BundleReader, piece: &[u8]) -> Result<(), AllocError> {
        let _ = reader.feed(alloc, piece);
        Ok(())
    }

    fn finish(_: Global, reader: BundleReader) -> Result<Bundle, JournalFault> {
        finish_or_leave(reader)
    }
}

/// A bundle, and how many lines its text has.
#[derive(Drop)]
pub(crate) struct CountedBundle {
    pub(crate) bundle: Bundle,
    pub(crate) lines: u64,
}

impl Text for CountedBundle {
    ghost parses = { ParsesAsCounted };

    ghost decoded = { counted_in };

    ghost full = { λ bytes f h. h };

    type Reader = BundleReader;

    ghost has_come = { HasCome };

    fn start(alloc: Global) -> BundleReader {
        BundleReader::start(alloc)
    }

    fn feed(alloc: Global, reader: &mut BundleReader, piece: &[u8]) -> Result<(), AllocError> {
        <Bundle as Text>::feed(alloc, reader, piece)
    }

    fn finish(_: Global, reader: BundleReader) -> Result<CountedBundle, JournalFault> {
        let lines = reader.lines();
        match finish_or_leave(reader) {
            Ok(bundle) => Ok(CountedBundle { bundle, lines }),
            Err(fault) => Err(fault),
        }
    }
}

/// The bundle that was read, or what is wrong with its text: then what was read is leaked, and the end of the process frees it.
fn finish_or_leave(reader: BundleReader) -> Result<Bundle, JournalFault>
    ensures { result ≡ closing_bundle (bundle_reading reader) }
{
    match reader.fault() {
        None => reader.finish(),
        Some(fault) => {
            mem::forget(reader);
            Err(fault)
        }
    }
}

/// A bundle that was read by version 1 of the format alone.
#[derive(Drop)]
pub(crate) struct FirstBundle {
    pub(crate) bundle: Bundle,
}

impl Model for FirstBundle {
    ghost use Rattle.std.specs.Coded.{codes};
    ghost use Rattle.gtid_set.specs.Sets.{gtids_code};
    ghost use Rattle.rows.specs.Coding.{rows_code};
    ghost use Rattle.txn_journal.specs.BundleStates.{BundleValue};

    ghost Value = { BundleValue };

    ghost coded = { Prim.hlevel (codes, gtids_code, rows_code) };

    ghost view = { λ old. old.bundle };
}

impl Text for FirstBundle {
    ghost parses = { ParsesBy (Only One) };

    ghost decoded = { bundle_by (Only One) };

    ghost full = { λ bytes f h. h };

    type Reader = Vec<u8>;

    ghost has_come = { λ reader bytes. reader.items ≡ bytes };

    fn start(alloc: Global) -> Vec<u8> {
        Vec::new(alloc)
    }

    fn feed(_: Global, reader: &mut Vec<u8>, piece: &[u8]) -> Result<(), AllocError> {
        reader.extend_from_slice(piece)
    }

    fn finish(alloc: Global, reader: Vec<u8>) -> Result<FirstBundle, JournalFault> {
        match decode_bundle_by(alloc, Due::Only(Version::One), &reader) {
            Ok(bundle) => Ok(FirstBundle { bundle }),
            Err(fault) => Err(fault),
        }
    }
}

/// A bundle that was read by the versions before version 3.
#[derive(Drop)]
pub(crate) struct EarlierBundle {
    pub(crate) bundle: Bundle,
}

impl Model for EarlierBundle {
    ghost use Rattle.std.specs.Coded.{codes};
    ghost use Rattle.gtid_set.specs.Sets.{gtids_code};
    ghost use Rattle.rows.specs.Coding.{rows_code};
    ghost use Rattle.txn_journal.specs.BundleStates.{BundleValue};

    ghost Value = { BundleValue };

    ghost coded = { Prim.hlevel (codes, gtids_code, rows_code) };

    ghost view = { λ old. old.bundle };
}

impl Text for EarlierBundle {
    ghost parses = { ParsesBy BeforeThree };

    ghost decoded = { bundle_by BeforeThree };

    ghost full = { λ bytes f h. h };

    type Reader = Vec<u8>;

    ghost has_come = { λ reader bytes. reader.items ≡ bytes };

    fn start(alloc: Global) -> Vec<u8> {
        Vec::new(alloc)
    }

    fn feed(_: Global, reader: &mut Vec<u8>, piece: &[u8]) -> Result<(), AllocError> {
        reader.extend_from_slice(piece)
    }

    fn finish(alloc: Global, reader: Vec<u8>) -> Result<EarlierBundle, JournalFault> {
        match decode_bundle_by(alloc, Due::BeforeThree, &reader) {
            Ok(bundle) => Ok(EarlierBundle { bundle }),
            Err(fault) => Err(fault),
        }
    }
}

impl Text for Journal {
    ghost parses = { ParsesAsJournal };

    ghost decoded = { journal_in };

    ghost full = { λ bytes f h. h };

    type Reader = Vec<u8>;

    ghost has_come = { λ reader bytes. reader.items ≡ bytes };

    fn start(alloc: Global) -> Vec<u8> {
        Vec::new(alloc)
    }

    fn feed(_: Global, reader: &mut Vec<u8>, piece: &[u8]) -> Result<(), AllocError> {
        reader.extend_from_slice(piece)
    }

    fn finish(alloc: Global, reader: Vec<u8>) -> Result<Journal, JournalFault> {
        decode(alloc, &reader)
    }
}
