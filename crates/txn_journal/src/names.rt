//! Names, each allocated once.
ghost use Rattle.std.specs.Prelude.{◌≡◌, ◌<◌, ◌≤◌, true, false, Some, Err, OnOk, IfOk, IfErr, IfSome, length};
ghost use Rattle.std.specs.String.{string_bytes};
ghost use Rattle.txn_journal.specs.Versions.{is_named};
ghost use Rattle.txn_journal.specs.Words.{name_of};

use rows::{Limits, Name, NameFault};
use std::alloc::{AllocError, Global};

/// How many names are kept. One more is put into its place among the others, so that all of them together cost half the square of this
/// number in moves of a few bytes. Our own rule.
const KEPT: usize = 4_096;

/// A name of texts with these limits.
#[derive(Drop)]
struct KeptName {
    name: Name,
    limits: Limits,
    ghost named: { is_named limits name ≡ true },
}

/// Names that were read, in order. A name that is kept is shared, and not allocated again.
#[derive(Drop)]
pub struct Names {
    kept: Vec<KeptName>,
    /// The place of the name that was read last: a guess.
    last: usize,
}

/// The name that a text is, by these limits.
fn named(limits: Limits, text: String) -> Result<Name, NameFault>
    ensures ok { IfOk result (λ name. name ≡ string_bytes text) }
    ensures named { OnOk result (is_named limits (string_bytes text) ≡ true) }
    ensures refused { result ≡ Err NameFault.NotAName → is_named limits (string_bytes text) ≡ false }
{
    match limits {
        Limits::Narrow => Name::short(text),
        Limits::Wide => Name::new(text),
    }
}

/// The name that a word is, by these limits.
pub fn new_name(alloc: Global, limits: Limits, word: &[u8]) -> Result<Option<Name>, AllocError>
    ensures { IfOk result (λ found. found ≡ name_of limits word.now) }
{
    let Ok(text) = std::str::from_utf8(word) else {
        return Ok(None);
    };
    match named(limits, String::from_str(alloc, text)?) {
        Ok(name) => Ok(Some(name)),
        Err(NameFault::NotAName) => Ok(None),
        Err(NameFault::Memory) => Err(AllocError),
    }
}

fn place_of(names: &[KeptName], word: &[u8]) -> Result<usize, usize>
    ensures found { IfOk result (λ i. i < length names.now) }
    ensures place { IfErr result (λ i. i ≤ length names.now) }
{
    names.binary_search_by(|kept| kept.name.as_str().as_bytes().cmp(word))
}

/// The name at a place, if the word is that name.
fn name_at<'a>(names: &'a [KeptName], place: usize, limits: Limits, word: &[u8]) -> Option<&'a Name>
    ensures { IfSome result (λ name. name_of limits word.now ≡ Some name.now) }
{
    let kept = names.get(place)?;
    if kept.limits == limits && kept.name.as_str().as_bytes() == word {
        Some(&kept.name)
    } else {
        None
    }
}

impl Names {
    /// No names.
    pub fn start(alloc: Global) -> Names {
        Names {
            kept: Vec::new(alloc),
            last: 0,
        }
    }

    /// The name that the word is by these limits, shared with the one that was read before.
    pub fn read(
        &mut self,
        alloc: Global,
        limits: Limits,
        word: &[u8],
    ) -> Result<Option<Name>, AllocError>
        ensures { IfOk result (λ found. found ≡ name_of limits word.now) }
    {
        if let Some(name) = name_at(&self.kept, self.last, limits, word) {
            return Ok(Some(name.clone()?));
        }
        match place_of(&self.kept, word) {
            Ok(place) => {
                self.last = place;
                if let Some(name) = name_at(&self.kept, place, limits, word) {
                    return Ok(Some(name.clone()?));
                }
                new_name(alloc, limits, word)
            }
            Err(place) => {
                let found = new_name(alloc, limits, word)?;
                if let Some(name) = &found {
                    self.keep(place, limits, name.clone()?)?;
                }
                Ok(found)
            }
        }
    }

    fn keep(&mut self, place: usize, limits: Limits, name: Name) -> Result<(), AllocError>
        requires { is_named limits name ≡ true }
    {
        if self.kept.len() < KEPT && place <= self.kept.len() {
            self.kept.insert(place, KeptName { name, limits })?;
        }
        Ok(())
    }
}
