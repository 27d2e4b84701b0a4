//! The values of keys.

ghost use Rattle.std.specs.Prelude.{◌≡◌, [], ◌∷◌, IfOk, IfSome, IfNone, drop};
ghost use Rattle.std.specs.List.{list_any};
ghost use Rattle.std.specs.Cmp.Lexicographic.{slice_cmp};
ghost use Rattle.row_images.specs.declared.value.Value.{Value as Cell};
ghost use Rattle.row_images.specs.declared.value.Value.TheVariants.{Null, Int, Bytes};
ghost use Rattle.row_images.specs.Held.{held_values};
ghost use Rattle.row_images.specs.Order.{value_cmp, row_eq, IsRankOf, IsFirstRank};
ghost use Rattle.row_images.specs.Values.{is_null};

use crate::packed::pack;
use crate::short_bytes::ShortBytes;
use crate::value::{ByteString, Held, Value};
use std::alloc::{AllocError, Global};
use std::cmp::Ordering;
use std::hash::{Hash, Hasher};
use std::marker::Model;
use std::sync::ArcSlice;

/// The values of a key's columns, in the key's order. One value is held in place; a clone shares many bytes, and several values.
pub struct KeyValues {
    held: HeldValues,
}

impl Drop for KeyValues {
    // (by hand: for a caller the end of a KeyValues is one call)
    fn drop(self) {
        let KeyValues { held: _held } = self;
    }
}

/// How the values are held: a single one in place, or shared if it has many bytes. (Small: each row has one for each key.)
#[derive(Drop)]
enum HeldValues {
    Null,
    Int(i64),
    Short(ShortBytes),
    Shared(ArcSlice<u8>),
    Several(ArcSlice<Value>),
}

impl Model for KeyValues {
    ghost use Rattle.std.specs.Prelude.{List};
    ghost use Rattle.row_images.specs.declared.value.Value.{Value as Cell};
    ghost use Rattle.row_images.specs.Held.{held_values};

    ghost Value = { List Cell };

    ghost view = { λ a. held_values a.held };
}

impl HeldValues {
    /// A value in its place.
    fn one(value: Value) -> HeldValues
        ensures { held_values result ≡ value ∷ [] }
    {
        match value {
            Value::Null => HeldValues::Null,
            Value::Int(number) => HeldValues::Int(number),
            Value::Bytes(bytes) => match bytes.into_held() {
                Held::Short(short) => HeldValues::Short(short),
                Held::Shared(items) => HeldValues::Shared(items),
            },
        }
    }
}

impl KeyValues {
    /// One value. It does not allocate.
    pub fn one(value: Value) -> KeyValues
        ensures { result ≡ value ∷ [] }
    {
        KeyValues {
            held: HeldValues::one(value),
        }
    }

    /// These values, in the order of the key's columns.
    pub fn new(values: Vec<Value>) -> Result<KeyValues, AllocError>
        ensures { IfOk result (λ it. it ≡ values.items) }
    {
        let items = pack(values)?;
        Ok(KeyValues {
            held: HeldValues::Several(items),
        })
    }

    /// The values, in the order of the key's columns.
    pub fn to_values(&self, alloc: Global) -> Result<Vec<Value>, AllocError>
        ensures { IfOk result (λ values. values.items ≡ self.now) }
    {
        match &self.held {
            HeldValues::Null => Ok(vec![in alloc; Value::Null]?),
            HeldValues::Int(number) => Ok(vec![in alloc; Value::Int(*number)]?),
            HeldValues::Short(short) => {
                let bytes = ByteString::from_slice(alloc, short.as_slice())?;
                Ok(vec![in alloc; Value::Bytes(bytes)]?)
            }
            HeldValues::Shared(items) => {
                let bytes = ByteString::from_slice(alloc, items.as_slice())?;
                Ok(vec![in alloc; Value::Bytes(bytes)]?)
            }
            HeldValues::Several(items) => copy_values(alloc, items.as_slice()),
        }
    }

    /// Whether one of the values is null.
    pub fn has_null(&self) -> bool
        ensures { result ≡ list_any is_null self.now }
    {
        match &self.held {
            HeldValues::Null => true,
            HeldValues::Int(_) => false,
            HeldValues::Short(_) => false,
            HeldValues::Shared(_) => false,
            HeldValues::Several(items) => items
                .as_slice()
                .iter()
                .any(|value| matches!(value, Value::Null)),
        }
    }
}

/// Copies of values, which share what is shared.
fn copy_values(alloc: Global, values: &[Value]) -> Result<Vec<Value>, AllocError>
    ensures { IfOk result (λ copies. copies.items ≡ values.now) }
{
    let mut copies = Vec::with_capacity(alloc, values.len())?;
    for value in values {
        copies.push(value.clone()?)?;
    }
    Ok(copies)
}

/// What a value is ordered by: its kind, and then its number or its bytes.
#[derive(Clone, Copy, Drop)]
struct Rank<'a> {
    kind: u8,
    number: i64,
    bytes: &'a [u8],
}

impl<'a> Rank<'a> {
    /// The rank of null.
    fn of_null() -> Rank<'a>
        ensures { IsRankOf Null result.kind result.number result.bytes.now }
    {
        Rank {
            kind: 0,
            number: 0,
            bytes: &[],
        }
    }

    /// The rank of a number.
    fn of_int(number: i64) -> Rank<'a>
        ensures { IsRankOf (Int number) result.kind result.number result.bytes.now }
    {
        Rank {
            kind: 1,
            number,
            bytes: &[],
        }
    }

    /// The rank of bytes.
    fn of_bytes(bytes: &'a [u8]) -> Rank<'a>
        ensures { IsRankOf (Bytes bytes.now) result.kind result.number result.bytes.now }
    {
        Rank {
            kind: 2,
            number: 0,
            bytes,
        }
    }

    /// The order of two values by their ranks.
    fn compare(&self, other: &Rank<'_>) -> Ordering
        ensures { (a b : Cell) → IsRankOf a self.now.kind self.now.number self.now.bytes.now → IsRankOf b other.now.kind other.now.number other.now.bytes.now → result ≡ value_cmp a b }
    {
        let by_number = self.number.cmp(&other.number);
        let by_bytes = self.bytes.cmp(other.bytes);
        self.kind.cmp(&other.kind).then(by_number.then(by_bytes))
    }
}

/// The rank of a value.
fn rank_of(value: &Value) -> Rank<'_>
    ensures { IsRankOf value.now result.kind result.number result.bytes.now }
{
    match value {
        Value::Null => Rank::of_null(),
        Value::Int(number) => Rank::of_int(*number),
        Value::Bytes(bytes) => Rank::of_bytes(bytes.as_slice()),
    }
}

/// The rank of the first value, if there is one.
fn first_rank(held: &HeldValues) -> Option<Rank<'_>>
    ensures some { IfSome result (λ rank. IsFirstRank (held_values held.now) rank.kind rank.number rank.bytes.now) }
    ensures none { IfNone result (held_values held.now ≡ []) }
{
    match held {
        HeldValues::Null => Some(Rank::of_null()),
        HeldValues::Int(number) => Some(Rank::of_int(*number)),
        HeldValues::Short(short) => Some(Rank::of_bytes(short.as_slice())),
        HeldValues::Shared(items) => Some(Rank::of_bytes(items.as_slice())),
        HeldValues::Several(items) => match items.as_slice() {
            [first, ..] => Some(rank_of(first)),
            [] => None,
        },
    }
}

/// The values after the first.
fn others(held: &HeldValues) -> &[Value]
    ensures { result.now ≡ drop 1 (held_values held.now) }
{
    match held {
        HeldValues::Several(items) => match items.as_slice() {
            [_, others @ ..] => others,
            [] => &[],
        },
        _ => &[],
    }
}

/// The order of no values beside some.
fn compare_none(held: &HeldValues) -> Ordering
    ensures { result ≡ slice_cmp value_cmp [] (held_values held.now) }
{
    match first_rank(held) {
        Some(_) => Ordering::Less,
        None => Ordering::Equal,
    }
}

/// The order of values, however they are held.
fn compare_held(a: &HeldValues, b: &HeldValues) -> Ordering
    ensures { result ≡ slice_cmp value_cmp (held_values a.now) (held_values b.now) }
{
    match first_rank(a) {
        Some(first) => match first_rank(b) {
            Some(other) => first.compare(&other).then(others(a).cmp(others(b))),
            None => Ordering::Greater,
        },
        None => compare_none(b),
    }
}

/// Whether both are the same byte string.
fn are_same(a: &ShortBytes, b: &ShortBytes) -> bool
    ensures { result ≡ row_eq (Bytes a.now ∷ []) (Bytes b.now ∷ []) }
{
    a.as_slice() == b.as_slice()
}

impl PartialEq for KeyValues {
    ghost use Rattle.std.specs.Ordering.{eq_by_cmp};
    ghost use Rattle.std.specs.Cmp.{eq_by_cmp_equiv, partial_equiv_from_equiv};
    ghost use Rattle.std.specs.Cmp.Lexicographic.{slice_cmp, lists_total};
    ghost use Rattle.row_images.specs.Order.{value_cmp};
    ghost use Rattle.row_images.specs.Total.{value_total};

    ghost eq = { eq_by_cmp (slice_cmp value_cmp) };

    ghost laws = { partial_equiv_from_equiv (eq_by_cmp_equiv (lists_total value_total)) };

    fn eq(&self, other: &KeyValues) -> bool {
        match (&self.held, &other.held) {
            (HeldValues::Int(a), HeldValues::Int(b)) => a == b,
            (HeldValues::Short(a), HeldValues::Short(b)) => are_same(a, b),
            (a, b) => compare_held(a, b).is_eq(),
        }
    }
}

impl Eq for KeyValues {
    ghost use Rattle.std.specs.Cmp.{eq_by_cmp_equiv};
    ghost use Rattle.std.specs.Cmp.Lexicographic.{lists_total};
    ghost use Rattle.row_images.specs.Total.{value_total};

    ghost laws = { eq_by_cmp_equiv (lists_total value_total) };
}

impl PartialOrd for KeyValues {
    ghost use Rattle.std.specs.Prelude.{Some, refl};
    ghost use Rattle.std.specs.Cmp.{po};
    ghost use Rattle.std.specs.Cmp.Lexicographic.{slice_cmp, lists_total};
    ghost use Rattle.row_images.specs.Order.{value_cmp};
    ghost use Rattle.row_images.specs.Total.{value_total};

    ghost partial_cmp = { λ a b. Some (slice_cmp value_cmp a b) };

    ghost laws = { po (lists_total value_total) (λ a b. refl) };

    fn partial_cmp(&self, other: &KeyValues) -> Option<Ordering> {
        Some(self.cmp(other))
    }
}

impl Ord for KeyValues {
    ghost use Rattle.std.specs.Prelude.{refl};
    ghost use Rattle.std.specs.Cmp.Lexicographic.{slice_cmp, lists_total};
    ghost use Rattle.row_images.specs.Order.{value_cmp};
    ghost use Rattle.row_images.specs.Total.{value_total};

    ghost cmp = { slice_cmp value_cmp };

    ghost total = { lists_total value_total };

    ghost matches_partial_cmp = { λ a b. refl };

    ghost matches_eq = { λ a b. refl };

    fn cmp(&self, other: &KeyValues) -> Ordering {
        match (&self.held, &other.held) {
            (HeldValues::Int(a), HeldValues::Int(b)) => a.cmp(b),
            (HeldValues::Short(a), HeldValues::Short(b)) => a.as_slice().cmp(b.as_slice()),
            (a, b) => compare_held(a, b),
        }
    }
}

impl Hash for KeyValues {
    ghost use Rattle.std.specs.FinMap.{slice_cmp-IsAntisymmetric};
    ghost use Rattle.row_images.specs.Total.{value_exact};
    ghost use Rattle.row_images.specs.Hashing.{alike_by, key_writes};

    ghost hash_input = { key_writes };

    ghost respects_eq = { alike_by key_writes (slice_cmp-IsAntisymmetric value_exact) };

    fn hash<H: Hasher>(&self, state: &mut H) {
        match &self.held {
            HeldValues::Null => state.write_u8(0),
            HeldValues::Int(number) => number.hash(state),
            HeldValues::Short(short) => state.write(short.as_slice()),
            HeldValues::Shared(items) => state.write(items.as_slice()),
            HeldValues::Several(items) => match items.as_slice() {
                [value] => value.hash(state),
                values => values.hash(state),
            },
        }
    }
}

impl Clone for KeyValues {
    ghost use Rattle.std.specs.Prelude.{◌≡◌};

    ghost is_clone = { λ a b. b ≡ a };

    fn clone(&self) -> Result<KeyValues, AllocError> {
        let held = match &self.held {
            HeldValues::Null => HeldValues::Null,
            HeldValues::Int(number) => HeldValues::Int(*number),
            HeldValues::Short(short) => HeldValues::Short(short.copy()),
            HeldValues::Shared(items) => HeldValues::Shared(items.clone()?),
            HeldValues::Several(items) => HeldValues::Several(items.clone()?),
        };
        Ok(KeyValues { held })
    }
}
