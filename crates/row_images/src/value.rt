//! Values.

ghost use Rattle.std.specs.Prelude.{◌≡◌, IfOk};
ghost use Rattle.row_images.specs.Held.{held_bytes};

use crate::packed::pack;
use crate::short_bytes::ShortBytes;
use std::alloc::{AllocError, Global};
use std::cmp::Ordering;
use std::hash::{Hash, Hasher};
use std::marker::Model;
use std::sync::ArcSlice;

/// The bytes of a value. A clone of many shares them; few are held in place.
pub struct ByteString {
    held: Held,
}

impl Drop for ByteString {
    // (by hand: for a caller the end of a ByteString is one call)
    fn drop(self) {
        let ByteString { held: _held } = self;
    }
}

/// Where the bytes are held.
#[derive(Drop)]
pub(crate) enum Held {
    Short(ShortBytes),
    Shared(ArcSlice<u8>),
}

impl Model for ByteString {
    ghost use Rattle.std.specs.Prelude.{ℕ, List};

    ghost Value = { List ℕ };

    ghost use Rattle.row_images.specs.Held.{held_bytes};

    ghost view = { λ a. held_bytes a.held };
}

impl PartialEq for ByteString {
    ghost use Rattle.std.specs.Ordering.{nat_cmp, eq_by_cmp};
    ghost use Rattle.std.specs.Cmp.{eq_by_cmp_equiv, partial_equiv_from_equiv};
    ghost use Rattle.std.specs.Cmp.Lexicographic.{slice_cmp, nat_list_cmp_total};

    ghost eq = { eq_by_cmp (slice_cmp nat_cmp) };

    ghost laws = { partial_equiv_from_equiv (eq_by_cmp_equiv nat_list_cmp_total) };

    fn eq(&self, other: &ByteString) -> bool {
        self.as_slice() == other.as_slice()
    }
}

impl Eq for ByteString {
    ghost use Rattle.std.specs.Cmp.{eq_by_cmp_equiv};
    ghost use Rattle.std.specs.Cmp.Lexicographic.{nat_list_cmp_total};

    ghost laws = { eq_by_cmp_equiv nat_list_cmp_total };
}

impl PartialOrd for ByteString {
    ghost use Rattle.std.specs.Prelude.{Some, refl};
    ghost use Rattle.std.specs.Ordering.{nat_cmp};
    ghost use Rattle.std.specs.Cmp.{po};
    ghost use Rattle.std.specs.Cmp.Lexicographic.{slice_cmp, nat_list_cmp_total};

    ghost partial_cmp = { λ a b. Some (slice_cmp nat_cmp a b) };

    ghost laws = { po nat_list_cmp_total (λ a b. refl) };

    fn partial_cmp(&self, other: &ByteString) -> Option<Ordering> {
        Some(self.cmp(other))
    }
}

impl Ord for ByteString {
    ghost use Rattle.std.specs.Prelude.{refl};
    ghost use Rattle.std.specs.Ordering.{nat_cmp};
    ghost use Rattle.std.specs.Cmp.Lexicographic.{slice_cmp, nat_list_cmp_total};

    ghost cmp = { slice_cmp nat_cmp };

    ghost total = { nat_list_cmp_total };

    ghost matches_partial_cmp = { λ a b. refl };

    ghost matches_eq = { λ a b. refl };

    fn cmp(&self, other: &ByteString) -> Ordering {
        self.as_slice().cmp(other.as_slice())
    }
}

impl Hash for ByteString {
    ghost use Rattle.std.specs.FinMap.{nat_cmp-IsAntisymmetric, slice_cmp-IsAntisymmetric};
    ghost use Rattle.row_images.specs.Hashing.{alike_by, bytes_writes};

    ghost hash_input = { bytes_writes };

    ghost respects_eq = { alike_by bytes_writes (slice_cmp-IsAntisymmetric nat_cmp-IsAntisymmetric) };

    fn hash<H: Hasher>(&self, state: &mut H) {
        state.write(self.as_slice());
    }
}

/// A value of a row. Null comes first, then the numbers, then the byte strings, byte by byte (our own order).
#[derive(Clone, Drop)]
pub enum Value {
    /// No value.
    Null,
    /// A whole number.
    Int(i64),
    /// A string of bytes.
    Bytes(ByteString),
}

impl PartialEq for Value {
    ghost use Rattle.std.specs.Ordering.{eq_by_cmp};
    ghost use Rattle.std.specs.Cmp.{eq_by_cmp_equiv, partial_equiv_from_equiv};
    ghost use Rattle.row_images.specs.Order.{value_cmp};
    ghost use Rattle.row_images.specs.Total.{value_total};

    ghost eq = { eq_by_cmp value_cmp };

    ghost laws = { partial_equiv_from_equiv (eq_by_cmp_equiv value_total) };

    fn eq(&self, other: &Value) -> bool {
        match (self, other) {
            (Value::Null, Value::Null) => true,
            (Value::Int(a), Value::Int(b)) => *a == *b,
            (Value::Bytes(a), Value::Bytes(b)) => *a == *b,
            _ => false,
        }
    }
}

impl Eq for Value {
    ghost use Rattle.std.specs.Cmp.{eq_by_cmp_equiv};
    ghost use Rattle.row_images.specs.Total.{value_total};

    ghost laws = { eq_by_cmp_equiv value_total };
}

impl PartialOrd for Value {
    ghost use Rattle.std.specs.Prelude.{Some, refl};
    ghost use Rattle.std.specs.Cmp.{po};
    ghost use Rattle.row_images.specs.Order.{value_cmp};
    ghost use Rattle.row_images.specs.Total.{value_total};

    ghost partial_cmp = { λ a b. Some (value_cmp a b) };

    ghost laws = { po value_total (λ a b. refl) };

    fn partial_cmp(&self, other: &Value) -> Option<Ordering> {
        Some(self.cmp(other))
    }
}

impl Ord for Value {
    ghost use Rattle.std.specs.Prelude.{refl};
    ghost use Rattle.row_images.specs.Order.{value_cmp};
    ghost use Rattle.row_images.specs.Total.{value_total};

    ghost cmp = { value_cmp };

    ghost total = { value_total };

    ghost matches_partial_cmp = { λ a b. refl };

    ghost matches_eq = { λ a b. refl };

    fn cmp(&self, other: &Value) -> Ordering {
        match (self, other) {
            (Value::Null, Value::Null) => Ordering::Equal,
            (Value::Null, _) => Ordering::Less,
            (_, Value::Null) => Ordering::Greater,
            (Value::Int(a), Value::Int(b)) => a.cmp(b),
            (Value::Int(_), Value::Bytes(_)) => Ordering::Less,
            (Value::Bytes(_), Value::Int(_)) => Ordering::Greater,
            (Value::Bytes(a), Value::Bytes(b)) => a.cmp(b),
        }
    }
}

impl Hash for Value {
    ghost use Rattle.std.specs.Hash as fed;
    ghost use Rattle.row_images.specs.Total.{value_exact};
    ghost use Rattle.row_images.specs.Hashing.{alike_by, value_writes};

    ghost hash_input = { value_writes };

    ghost respects_eq = { alike_by (value_writes) (value_exact) };

    fn hash<H: Hasher>(&self, state: &mut H) {
        match self {
            Value::Null => state.write_u8(0),
            Value::Int(number) => number.hash(state),
            Value::Bytes(bytes) => bytes.hash(state),
        }
    }
}

impl ByteString {
    /// These bytes. Few bytes need no allocation.
    pub fn new(bytes: Vec<u8>) -> Result<ByteString, AllocError>
        ensures { IfOk result (λ it. it ≡ bytes.items) }
    {
        let held = match ShortBytes::from_slice(bytes.as_slice()) {
            Some(short) => Held::Short(short),
            None => Held::Shared(pack(bytes)?),
        };
        Ok(ByteString { held })
    }

    /// A copy of these bytes. Few bytes need no allocation.
    pub fn from_slice(alloc: Global, bytes: &[u8]) -> Result<ByteString, AllocError>
        ensures { IfOk result (λ it. it ≡ bytes.now) }
    {
        let held = match ShortBytes::from_slice(bytes) {
            Some(short) => Held::Short(short),
            None => Held::Shared(ArcSlice::from_slice(alloc, bytes)?),
        };
        Ok(ByteString { held })
    }

    /// The bytes, as they are held.
    pub(crate) fn into_held(self) -> Held
        ensures { held_bytes result ≡ self }
    {
        let ByteString { held } = self;
        held
    }

    /// The bytes.
    pub fn as_slice(&self) -> &[u8]
        ensures { result.now ≡ self.now }
    {
        match &self.held {
            Held::Short(short) => short.as_slice(),
            Held::Shared(items) => items.as_slice(),
        }
    }
}

impl Clone for ByteString {
    ghost use Rattle.std.specs.Prelude.{◌≡◌};

    ghost is_clone = { λ a b. b ≡ a };

    fn clone(&self) -> Result<ByteString, AllocError> {
        let held = match &self.held {
            Held::Short(short) => Held::Short(short.copy()),
            Held::Shared(items) => Held::Shared(items.clone()?),
        };
        Ok(ByteString { held })
    }
}
