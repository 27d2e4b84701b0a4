//! The names of tables.

ghost use Rattle.std.specs.Prelude.{◌≡◌, ◌≤◌, ◌==◌, true, false, nat_le, length, Ok, Err, OnOk, IfOk};
ghost use Rattle.std.specs.String.{string_bytes};
ghost use Rattle.std.specs.List.{list_all};
ghost use Rattle.std.specs.List.{count_by, slice_split};
ghost use Rattle.rows.specs.Names.{is_short_name_byte, begins_with_digit, has_short_length, is_short_name, is_plain, is_low_digit, low_digit, is_escape, are_characters, is_name_part, is_name};

use key_table::TableKey;
use std::alloc::{AllocError, Global};
use std::cmp::Ordering;
use std::hash::{Hash, Hasher};
use std::marker::Model;
use std::sync::ArcStr;

/// The name of a table or a channel: parts with a dot between them, each of one or more of `a` to `z`, `A` to `Z`, `0` to `9`, `_`, `$`, `-`
/// and escapes, `%` with two lower-case hexadecimal digits that stand for another byte; at most 512 characters, of which an escape is one
/// (our own rule; versions 1 and 2 of the formats have `short` names alone). A clone shares it.
#[derive(Drop)]
pub struct Name {
    text: ArcStr,
}

impl Model for Name {
    ghost use Rattle.std.specs.Prelude.{◌≡◌, ℕ, true, List};
    ghost use Rattle.std.specs.Arc.{arc_str_bytes};
    ghost use Rattle.rows.specs.Names.{is_name};

    ghost Value = { List ℕ };

    ghost view = { λ a. arc_str_bytes a.text };

    ghost invariant = { λ a. is_name (arc_str_bytes a.text) ≡ true };
}

impl PartialEq for Name {
    ghost use Rattle.std.specs.Ordering.{nat_cmp, eq_by_cmp};
    ghost use Rattle.std.specs.Cmp.{eq_by_cmp_equiv, partial_equiv_from_equiv};
    ghost use Rattle.std.specs.Cmp.Lexicographic.{slice_cmp, nat_list_cmp_total};

    ghost eq = { eq_by_cmp (slice_cmp nat_cmp) };

    ghost laws = { partial_equiv_from_equiv (eq_by_cmp_equiv nat_list_cmp_total) };

    fn eq(&self, other: &Name) -> bool {
        let text = self.text.as_str();
        text.as_bytes() == other.text.as_str().as_bytes()
    }
}

impl Eq for Name {
    ghost use Rattle.std.specs.Cmp.{eq_by_cmp_equiv};
    ghost use Rattle.std.specs.Cmp.Lexicographic.{nat_list_cmp_total};

    ghost laws = { eq_by_cmp_equiv nat_list_cmp_total };
}

impl PartialOrd for Name {
    ghost use Rattle.std.specs.Prelude.{Some, refl};
    ghost use Rattle.std.specs.Ordering.{nat_cmp};
    ghost use Rattle.std.specs.Cmp.{po};
    ghost use Rattle.std.specs.Cmp.Lexicographic.{slice_cmp, nat_list_cmp_total};

    ghost partial_cmp = { λ a b. Some (slice_cmp nat_cmp a b) };

    ghost laws = { po nat_list_cmp_total (λ a b. refl) };

    fn partial_cmp(&self, other: &Name) -> Option<Ordering> {
        Some(self.cmp(other))
    }
}

impl Ord for Name {
    ghost use Rattle.std.specs.Prelude.{refl};
    ghost use Rattle.std.specs.Ordering.{nat_cmp};
    ghost use Rattle.std.specs.Cmp.Lexicographic.{slice_cmp, nat_list_cmp_total};

    ghost cmp = { slice_cmp nat_cmp };

    ghost total = { nat_list_cmp_total };

    ghost matches_partial_cmp = { λ a b. refl };

    ghost matches_eq = { λ a b. refl };

    fn cmp(&self, other: &Name) -> Ordering {
        self.text.cmp(&other.text)
    }
}

impl Hash for Name {
    ghost use Rattle.std.specs.FinMap.{nat_cmp-IsAntisymmetric, slice_cmp-IsAntisymmetric};
    ghost use Rattle.row_images.specs.Hashing.{alike_by, bytes_writes};

    ghost hash_input = { bytes_writes };

    ghost respects_eq = { alike_by bytes_writes (slice_cmp-IsAntisymmetric nat_cmp-IsAntisymmetric) };

    fn hash<H: Hasher>(&self, state: &mut H) {
        state.write(self.text.as_str().as_bytes());
    }
}

impl Clone for Name {
    ghost use Rattle.std.specs.Prelude.{◌≡◌};

    ghost is_clone = { λ a b. b ≡ a };

    fn clone(&self) -> Result<Name, AllocError> {
        let text = self.text.clone()?;
        Ok(Name { text })
    }
}

impl TableKey for Name {
    fn again(&self) -> Result<Name, AllocError> {
        self.clone()
    }
}

impl Name {
    /// The name that a text parses as.
    pub fn new(text: String) -> Result<Name, NameFault>
        ensures ok { IfOk result (λ name. name ≡ string_bytes text) }
        ensures named { OnOk result (is_name (string_bytes text) ≡ true) }
        ensures refused { result ≡ Err NameFault.NotAName → is_name (string_bytes text) ≡ false }
    {
        if !is_name(text.as_bytes()) {
            return Err(NameFault::NotAName);
        }
        match ArcStr::from_string(text) {
            Ok(text) => Ok(Name { text }),
            Err(_) => Err(NameFault::Memory),
        }
    }

    /// The same name, in memory of its own.
    pub(crate) fn renewed(&self, alloc: Global) -> Result<Name, AllocError>
        ensures { IfOk result (λ name. name ≡ self.now) }
    {
        let text = String::from_str(alloc, self.text.as_str())?;
        let text = ArcStr::from_string(text)?;
        Ok(Name { text })
    }

    /// The name that a text parses as by versions 1 and 2: 1 to 64 of `a` to `z`, `0` to `9` and `_`, the first no digit.
    #[tactic(auto, using(crate::proofs::ShortNames::short_is_name))]
    pub fn short(text: String) -> Result<Name, NameFault>
        ensures ok { IfOk result (λ name. name ≡ string_bytes text) }
        ensures named { OnOk result (is_short_name (string_bytes text) ≡ true) }
        ensures refused { result ≡ Err NameFault.NotAName → is_short_name (string_bytes text) ≡ false }
    {
        if !is_short_name(text.as_bytes()) {
            return Err(NameFault::NotAName);
        }
        match ArcStr::from_string(text) {
            Ok(text) => Ok(Name { text }),
            Err(_) => Err(NameFault::Memory),
        }
    }

    /// The text of this name.
    pub fn as_str(&self) -> &str
        ensures value { result.now ≡ self.now }
        ensures named { is_name self.now ≡ true }
    {
        self.text.as_str()
    }
}

/// Why a text gave no name.
#[derive(Clone, Copy, Debug, Drop, PartialEq, Eq, thiserror::Error)]
pub enum NameFault {
    /// Out of memory.
    #[error("out of memory")]
    Memory,
    /// The text is no name.
    #[error("not a name")]
    NotAName,
}

fn is_short_name_byte(byte: u8) -> bool
    ensures { result ≡ is_short_name_byte byte }
{
    byte.is_ascii_lowercase() || byte.is_ascii_digit() || byte == b'_'
}

fn begins_with_digit(text: &[u8]) -> bool
    ensures { result ≡ begins_with_digit text.now }
{
    match text.first() {
        Some(byte) => byte.is_ascii_digit(),
        None => false,
    }
}

fn has_short_length(text: &[u8]) -> bool
    ensures { result ≡ has_short_length text.now }
{
    1 <= text.len() && text.len() <= 64
}

fn are_short_name_bytes(text: &[u8]) -> bool
    ensures { result ≡ list_all is_short_name_byte text.now }
{
    text.iter().all(|byte| is_short_name_byte(*byte))
}

fn is_short_name(text: &[u8]) -> bool
    ensures { result ≡ is_short_name text.now }
{
    has_short_length(text) && are_short_name_bytes(text) && !begins_with_digit(text)
}

fn is_plain(byte: u8) -> bool
    ensures { result ≡ is_plain byte }
{
    byte.is_ascii_lowercase()
        || byte.is_ascii_uppercase()
        || byte.is_ascii_digit()
        || byte == b'_'
        || byte == b'$'
        || byte == b'-'
}

fn is_low_digit(byte: u8) -> bool
    ensures { result ≡ is_low_digit byte }
{
    byte.is_ascii_digit() || b'a' <= byte && byte <= b'f'
}

/// The value of a digit.
fn low_digit(byte: u8) -> u8
    requires { is_low_digit byte ≡ true }
    ensures { result ≡ low_digit byte }
{
    if b'a' <= byte { byte - 87 } else { byte - b'0' }
}

/// Whether these are the digits of a byte that is not plain.
fn is_escape(high: u8, low: u8) -> bool
    ensures { result ≡ is_escape high low }
{
    is_low_digit(high) && is_low_digit(low) && !is_plain(16 * low_digit(high) + low_digit(low))
}

fn are_characters(part: &[u8]) -> bool
    ensures { result ≡ are_characters part.now }
{
    let mut left = part;
    'characters: loop {
        match left {
            [] => return true,
            [b'%', high, low, after @ ..] => {
                if !is_escape(*high, *low) {
                    return false;
                }
                left = after;
            }
            [byte, after @ ..] => {
                if !is_plain(*byte) {
                    return false;
                }
                left = after;
            }
        }
    }
}

fn is_name_part(part: &[u8]) -> bool
    ensures { result ≡ is_name_part part.now }
{
    !part.is_empty() && are_characters(part)
}

fn are_name_parts(text: &[u8]) -> bool
    ensures { result ≡ list_all is_name_part (slice_split (λ c. c == 46) text.now) }
{
    text.split(|byte| *byte == b'.')
        .all(|part| is_name_part(part))
}

/// How many escapes there are, at most.
fn escapes_in(text: &[u8]) -> usize
    ensures count { result ≡ count_by (λ c. c == 37) text.now }
    ensures few { result ≤ length text.now }
{
    text.iter().filter(|byte| **byte == b'%').count()
}

fn is_name(text: &[u8]) -> bool
    ensures { result ≡ is_name text.now }
{
    let escapes = escapes_in(text);
    are_name_parts(text) && text.len() - escapes <= 512 + escapes
}
