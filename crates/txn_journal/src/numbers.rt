//! The line that begins an entry: its GTID, and in version 2 its numbers.
ghost use Rattle.std.specs.Prelude.{◌≡◌, true, Some, IfSome, option_map};
ghost use Rattle.gtid_text.specs.Canonical.{source_text};
ghost use Rattle.gtid_text.specs.Written.{IsSource};
ghost use Rattle.journal_words.specs.Gtids.{gtid_of_word};
ghost use Rattle.txn_journal.specs.Stream.{Finds};
ghost use Rattle.txn_journal.specs.Lines.{some_or_body, numbers_in, stamp_in, beginning_at};
ghost use Rattle.txn_journal.specs.Numbered.{numbers_value, beginning_value};

use crate::fault::{Cause, LineFault};
use crate::lines::Version;
use gtid_text::{Gtid, SourceId};
use journal_words::gtid_word;
use row_images::{count, cut, is_count};
use std::alloc::{AllocError, Global};

/// The bytes of a source's text.
const SOURCE_LEN: usize = 36;

/// The greatest number of a transaction.
const MAX_NUMBER: u64 = 9_223_372_036_854_775_807;

/// The numbers of an entry as they are written.
#[derive(Clone, Copy, Debug)]
struct Numbers<'a> {
    last_committed: &'a [u8],
    sequence_number: &'a [u8],
}

/// The content of the line that begins an entry.
#[derive(Clone, Copy, Debug)]
pub struct Beginning {
    pub gtid: Gtid,
    /// The last_committed, if its numbers are allowed there; 0 in version 1, which writes none.
    pub stamp: Option<u64>,
}

impl Numbers<'_> {
    /// The last_committed, if these numbers may be at a place, counted from 1.
    fn stamp(&self, place: u64) -> Option<u64>
        ensures { result ≡ stamp_in place (Some (numbers_value self.now)) }
    {
        if count(self.sequence_number) != Some(place) {
            return None;
        }
        match count(self.last_committed) {
            Some(last_committed) if last_committed < place => Some(last_committed),
            _ => None,
        }
    }
}

/// A source, and its text.
#[derive(Drop)]
struct SourceText {
    source: SourceId,
    text: [u8; SOURCE_LEN],
    ghost small: { IsSource source },
    ghost spelled: { text ≡ source_text source },
}

impl SourceText {
    /// The source of a GTID, with its text in the word of the GTID.
    fn of_word(gtid: &Gtid, word: &[u8]) -> Option<SourceText>
        requires { gtid_of_word word.now ≡ Some gtid.now }
    {
        if word.len() <= SOURCE_LEN {
            return None;
        }
        let (front, _back) = word.split_at(SOURCE_LEN);
        let mut text = [0; SOURCE_LEN];
        text.copy_from_slice(front);
        Some(SourceText {
            source: gtid.source,
            text,
        })
    }

    /// The GTID of this source that the word parses as, if it does.
    fn gtid_in(&self, word: &[u8]) -> Option<Gtid>
        ensures { IfSome result (λ gtid. gtid_of_word word.now ≡ Some gtid) }
    {
        if word.len() <= SOURCE_LEN {
            return None;
        }
        let (front, back) = word.split_at(SOURCE_LEN);
        if back[0] != b':' {
            return None;
        }
        if front != self.text.as_slice() {
            return None;
        }
        let number = count(&back[1..])?;
        if number < 1 || number > MAX_NUMBER {
            return None;
        }
        Some(Gtid {
            source: self.source,
            number,
        })
    }
}

/// How many sources are kept.
const KEPT: usize = 16;

/// Sources of the last GTIDs, with their texts. GTIDs of few sources often follow one another, as in the relay log of a replica.
pub struct NearSources {
    kept: Vec<SourceText>,
    /// The place of the last one: a guess.
    last: usize,
}

/// The GTID of the first of these sources that the word parses as, and the place of the source.
fn find_gtid(sources: &[SourceText], word: &[u8]) -> Option<(usize, Gtid)>
    ensures { IfSome result (λ found. gtid_of_word word.now ≡ Some found.1) }
{
    for (place, source) in sources.iter().enumerate() {
        if let Some(gtid) = source.gtid_in(word) {
            return Some((place, gtid));
        }
    }
    None
}

impl Drop for NearSources {
    // (by hand: for a caller the end of a NearSources is one call)
    fn drop(self) {
        let NearSources {
            kept: _kept,
            last: _last,
        } = self;
    }
}

impl NearSources {
    /// No sources.
    pub fn start(alloc: Global) -> NearSources {
        NearSources {
            kept: Vec::new(alloc),
            last: 0,
        }
    }

    /// The GTID of the last source that the word parses as, if it does.
    fn last_gtid_in(&self, word: &[u8]) -> Option<Gtid>
        ensures { IfSome result (λ gtid. gtid_of_word word.now ≡ Some gtid) }
    {
        let source = self.kept.get(self.last)?;
        source.gtid_in(word)
    }

    /// The GTID that the word parses as, if its source is one of these.
    pub fn find(&mut self, word: &[u8]) -> Option<Gtid>
        ensures { IfSome result (λ gtid. gtid_of_word word.now ≡ Some gtid) }
    {
        match self.last_gtid_in(word) {
            Some(gtid) => Some(gtid),
            None => self.gtid_in(word),
        }
    }

    /// The GTID of one of the sources that the word parses as, if it does.
    fn gtid_in(&mut self, word: &[u8]) -> Option<Gtid>
        ensures { IfSome result (λ gtid. gtid_of_word word.now ≡ Some gtid) }
    {
        let (place, gtid) = find_gtid(&self.kept, word)?;
        self.last = place;
        Some(gtid)
    }

    /// Keeps a source; if many are kept, it replaces one of them.
    fn keep(&mut self, source: SourceText) -> Result<(), AllocError> {
        let count = self.kept.len();
        if count < KEPT {
            self.kept.push(source)?;
            self.last = count;
            return Ok(());
        }
        let next = self.last.saturating_add(1);
        self.last = if next < count { next } else { 0 };
        if let Some(kept) = self.kept.get_mut(self.last) {
            *kept = source;
        }
        Ok(())
    }
}

/// The GTID that the word parses as. The sources that are near are tried first; the GTID's own source is near afterwards.
pub fn gtid_in(alloc: Global, near: &mut NearSources, word: &[u8]) -> Result<Gtid, LineFault>
    ensures { Finds (λ g. g) result (some_or_body (gtid_of_word word.now)) }
{
    if let Some(gtid) = near.find(word) {
        return Ok(gtid);
    }
    let Some(gtid) = gtid_word(alloc, word)? else {
        return Err(LineFault::Wrong(Cause::Body));
    };
    if let Some(source) = SourceText::of_word(&gtid, word) {
        near.keep(source)?;
    }
    Ok(gtid)
}

fn numbers_in(rest: Option<&[u8]>) -> Result<Numbers<'_>, LineFault>
    ensures { Finds numbers_value result (numbers_in (option_map (λ r. r.now) rest.entry)) }
{
    let Some(text) = rest else {
        return Err(LineFault::Wrong(Cause::Body));
    };
    let (last_committed, more) = cut(text);
    let Some(sequence_number) = more else {
        return Err(LineFault::Wrong(Cause::Body));
    };
    if !is_count(last_committed) || !is_count(sequence_number) {
        return Err(LineFault::Wrong(Cause::Body));
    }
    Ok(Numbers {
        last_committed,
        sequence_number,
    })
}

fn beginning_text(
    alloc: Global,
    near: &mut NearSources,
    version: Version,
    place: u64,
    text: &[u8],
) -> Result<Beginning, LineFault>
    ensures { Finds beginning_value result (beginning_at version place (Some text.now)) }
{
    match version {
        Version::One => {
            let gtid = gtid_in(alloc, near, text)?;
            Ok(Beginning {
                gtid,
                stamp: Some(0),
            })
        }
        Version::Two | Version::Three => {
            let (word, rest) = cut(text);
            let gtid = gtid_in(alloc, near, word)?;
            let numbers = numbers_in(rest)?;
            let stamp = numbers.stamp(place);
            Ok(Beginning { gtid, stamp })
        }
    }
}

/// The content of the line that begins the entry at a place, counted from 1, from the rest of the line. Any sources may be near.
pub fn beginning_at(
    alloc: Global,
    near: &mut NearSources,
    version: Version,
    place: u64,
    rest: Option<&[u8]>,
) -> Result<Beginning, LineFault>
    ensures { Finds beginning_value result (beginning_at version place (option_map (λ r. r.now) rest.entry)) }
{
    match rest {
        Some(text) => beginning_text(alloc, near, version, place, text),
        None => Err(LineFault::Wrong(Cause::Body)),
    }
}
