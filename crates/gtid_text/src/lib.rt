//! GTIDs, and the text of GTID sets: the identifiers, their parsers and their writers. The base of all crates.
//!
//! The grammar is that of the MySQL 8.0 Reference Manual, "GTID Format and Storage"; docs/FORMATS.md, section 1, has what is our own in
//! it. Tagged GTIDs and other forms of a UUID than 8-4-4-4-12 are not read.
//!
//! What a contract sees: a `SourceId` is a number below 2^128 (the 16 bytes of a server's UUID), a `Gtid` and a `Span` (an interval of
//! one source) are records, a text is the list of its bytes. Three definitions are tied by proof: the grammar (`specs/Grammar`), the
//! table of states (`specs/Reading`) and the refusal (`specs/Refused`). So a parser accepts exactly what the grammar has (`found`,
//! `only`), and a refusal names the first token at which no continuation of the text before it is such a text (`refused`, `exact`).
//!
//! What a writer prints is the one text of its value, and is parsed back as it, in either case and with blanks (`laws`).
//!
//! `count_sources` counts the sources of set text without an allocation, if it is the one text of its intervals.
//!
//! Not proved: that parsing is linear (by the code it is one pass). The printed text of `TextFault` is neither proved nor tested.
//!
//! How it is kept: a writer makes room for the longest text first and appends then, so that after a refused allocation the string is as
//! before.
#![tactic(auto)]

mod counting;
mod fault;
pub mod laws;
mod scan;
mod set_text;
mod write;

ghost use Rattle.std.specs.Prelude.{◌≡◌, ◌==◌, ℕ};
ghost use Rattle.std.specs.Ordering.{nat_cmp, as_partial_cmp};
ghost use Rattle.std.specs.Cmp.{partial_order_from_own_ties};
ghost use Rattle.std.specs.Cmp.Rules.{comparing, hashing};
ghost use Rattle.std.specs.Hash as fed;
ghost use Rattle.std.proofs.Common.{rules};

pub use counting::count_sources;
pub use fault::TextFault;
pub use set_text::{parse_gtid, parse_source, parse_spans};
use std::cmp::Ordering;
use std::hash::{Hash, Hasher};
use std::marker::Model;
pub use write::{write_gtid, write_next_span, write_source, write_span};

/// The number of values of a half of a UUID.
const HALF: u128 = 18_446_744_073_709_551_616;

/// The UUID of a server, which contracts see as a number below 2^128.
///
/// It is kept in halves, so that what holds it needs the alignment of a word alone: a `Gtid` takes three words.
#[derive(Clone, Copy, Debug, Drop)]
pub struct SourceId {
    high: u64,
    low: u64,
}

impl Model for SourceId {
    ghost use Rattle.std.specs.Prelude.{ℕ, ◌+◌, ◌*◌, ◌/◌, ◌%◌, ◌<◌};
    ghost use Rattle.std.proofs.lemmas.Nat.{div-mul-add, mod-mul-add};

    ghost Value = { ℕ };

    ghost view = { λ s. s.high * 18446744073709551616 + s.low };

    ghost invariant = { λ s. s.low < 18446744073709551616 };

    ghost inverse = { λ n. record { high = n / 18446744073709551616; low = n % 18446744073709551616 } };

    ghost inverse_ok = { λ s small i. record {
      high = div-mul-add s.high 18446744073709551616 s.low small i;
      low = mod-mul-add s.high 18446744073709551616 s.low small i;
    } };
}

impl SourceId {
    /// The UUID whose 16 bytes are this number, high byte first.
    pub fn from_bits(bits: u128) -> Self
        ensures { result ≡ bits }
    {
        SourceId {
            high: (bits / HALF) as u64,
            low: (bits % HALF) as u64,
        }
    }

    /// The 16 bytes of the UUID as one number, high byte first.
    pub fn bits(self) -> u128
        ensures { result ≡ self }
    {
        self.high as u128 * HALF + self.low as u128
    }
}

impl PartialEq for SourceId {
    ghost eq = { ◌==◌ };

    ghost laws = { Prim.search (comparing, rules) };

    fn eq(&self, other: &SourceId) -> bool {
        self.bits() == other.bits()
    }
}

impl Eq for SourceId {
    ghost laws = { Prim.search (comparing, rules) };
}

impl PartialOrd for SourceId {
    ghost partial_cmp = { as_partial_cmp nat_cmp };

    ghost laws = { partial_order_from_own_ties (Prim.search (comparing, rules)) (Prim.search (comparing, rules)) };

    fn partial_cmp(&self, other: &SourceId) -> Option<Ordering> {
        Some(self.cmp(other))
    }
}

impl Ord for SourceId {
    ghost cmp = { nat_cmp };

    ghost total = { Prim.search (comparing, rules) };

    ghost matches_partial_cmp = { Prim.search (comparing, rules) };

    ghost matches_eq = { Prim.search (comparing, rules) };

    fn cmp(&self, other: &SourceId) -> Ordering {
        self.bits().cmp(&other.bits())
    }
}

impl Hash for SourceId {
    ghost hash_input = { fed.u128 };

    ghost respects_eq = { Prim.search (hashing, rules) };

    fn hash<H: Hasher>(&self, state: &mut H) {
        self.bits().hash(state);
    }
}

/// The identifier of a transaction: the server that first committed it, and its number there, from 1 on.
///
/// The order is by source and then by number. From the MySQL 8.0 Reference Manual, "GTID Format and Storage".
#[derive(Clone, Copy, Debug, PartialEq, Eq, PartialOrd, Ord, Hash, Drop)]
pub struct Gtid {
    pub source: SourceId,
    pub number: u64,
}

/// The transactions of a source from one number to another, both among them.
#[derive(Clone, Copy, Debug, PartialEq, Eq, Drop)]
pub struct Span {
    pub source: SourceId,
    pub lo: u64,
    pub hi: u64,
}
