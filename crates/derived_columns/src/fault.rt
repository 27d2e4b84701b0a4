//! Why nothing is derived.
ghost use Rattle.std.specs.Prelude.{◌≡◌};
ghost use Rattle.derived_columns.specs.Entries.{fault_of};
ghost use Rattle.derived_columns.specs.declared.fault.ImageFault.TheVariants as image;
ghost use Rattle.derived_columns.specs.declared.fault.DerivationFault.TheVariants as entries;

use crate::column::KeyPart;
use gtid_text::Gtid;
use rows::Name;
use std::alloc::{AllocError, AllocFailed};

/// Why an image has no hidden values.
#[derive(Drop)]
pub(crate) enum ImageFault {
    /// Out of memory.
    Memory,
    /// It has no hidden value of this part of a key.
    NoHiddenValue(KeyPart),
}

/// Why nothing is derived from entries.
#[derive(Drop)]
pub enum DerivationFault {
    /// Out of memory.
    Memory,
    /// An image of a transaction lacks the column of a part of a key, or the value there has no hidden value.
    NoHiddenValue {
        gtid: Gtid,
        table: Name,
        column: u32,
    },
}

impl ImageFault {
    /// That of an entry with the GTID.
    pub(crate) fn in_entry(self, gtid: Gtid) -> DerivationFault
        ensures { result ≡ fault_of gtid self }
    {
        match self {
            ImageFault::Memory => DerivationFault::Memory,
            ImageFault::NoHiddenValue(part) => DerivationFault::NoHiddenValue {
                gtid,
                table: part.table,
                column: part.column,
            },
        }
    }
}

impl From<AllocError> for ImageFault {
    ghost from_gives = { λ _ e. e ≡ image.Memory };

    fn from(_e: AllocError) -> ImageFault {
        ImageFault::Memory
    }
}

impl<T: Drop> From<AllocFailed<T>> for ImageFault {
    ghost from_gives = { λ _ e. e ≡ image.Memory };

    fn from(_e: AllocFailed<T>) -> ImageFault {
        ImageFault::Memory
    }
}

impl From<AllocError> for DerivationFault {
    ghost from_gives = { λ _ e. e ≡ entries.Memory };

    fn from(_e: AllocError) -> DerivationFault {
        DerivationFault::Memory
    }
}

impl<T: Drop> From<AllocFailed<T>> for DerivationFault {
    ghost from_gives = { λ _ e. e ≡ entries.Memory };

    fn from(_e: AllocFailed<T>) -> DerivationFault {
        DerivationFault::Memory
    }
}
