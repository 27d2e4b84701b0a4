//! Sources, GTIDs and sets of them as words.
ghost use Rattle.std.specs.Prelude.{◌≡◌, ◌++◌, true, false, Err, IfOk, IfErr, OnOk, IfSome, IfNone, Some, None, option_map};
ghost use Rattle.std.specs.String.{string_bytes};
ghost use Rattle.std.specs.List.{list_all};
ghost use Rattle.gtid_text.specs.Canonical.{source_text, gtid_text, spans_text};
ghost use Rattle.gtid_text.specs.Counting.{are_tidy_behind};
ghost use Rattle.row_images.specs.Values.{where_same};
ghost use Rattle.std.specs.Str.{bytes_eq};
ghost use Rattle.std.specs.FinSet as set;
ghost use Rattle.gtid_set.specs.Spans.{is_merged};
ghost use Rattle.journal_words.specs.Gtids.{is_ascii_byte, source_of_word, gtid_of_word, some_tidy, spans_of_word, set_with, set_of_word, OfParsed, IsWordFault};
ghost use Rattle.gtid_set.specs.Full.{HasManySources};
ghost use Rattle.gtid_set.specs.declared.fault.SetFault.TheVariants.{SourcesFull};

use crate::one_pass::set_in_one_pass;
use gtid_set::{GtidSet, SetFault};
use gtid_text::{
    Gtid, SourceId, Span, TextFault, count_sources, parse_gtid, parse_source, parse_spans,
    write_gtid, write_next_span, write_source,
};
use std::alloc::{AllocError, Global};

fn is_ascii(word: &[u8]) -> bool
    ensures { result ≡ list_all is_ascii_byte word.now }
{
    word.iter().all(|b| *b < 128)
}

/// The word as text, if it is ASCII.
fn ascii_text(word: &[u8]) -> Option<&str>
    ensures found { IfSome result (λ text. text.now ≡ word.now) }
    ensures ascii { IfSome result (λ text. list_all is_ascii_byte word.now ≡ true) }
    ensures none { IfNone result (list_all is_ascii_byte word.now ≡ false) }
{
    if !is_ascii(word) {
        return None;
    }
    match std::str::from_utf8(word) {
        Ok(text) => Some(text),
        Err(_) => unreachable!(),
    }
}

/// The source, if the word is its one spelling.
fn as_source(alloc: Global, word: &[u8], source: SourceId) -> Result<Option<SourceId>, AllocError>
    ensures { IfOk result (λ found. found ≡ where_same source_text word.now source) }
{
    let mut text = String::new(alloc);
    write_source(&mut text, source)?;
    if text.as_bytes() == word {
        Ok(Some(source))
    } else {
        Ok(None)
    }
}

/// The GTID, if the word is its one spelling.
fn as_gtid(alloc: Global, word: &[u8], gtid: Gtid) -> Result<Option<Gtid>, AllocError>
    ensures { IfOk result (λ found. found ≡ where_same gtid_text word.now gtid) }
{
    let Gtid { source, number } = gtid;
    let mut text = String::new(alloc);
    write_gtid(&mut text, Gtid { source, number })?;
    if text.as_bytes() == word {
        Ok(Some(Gtid { source, number }))
    } else {
        Ok(None)
    }
}

/// The source that the word parses as.
pub fn source_word(alloc: Global, word: &[u8]) -> Result<Option<SourceId>, AllocError>
    ensures { IfOk result (λ found. found ≡ source_of_word word.now) }
{
    let Some(text) = ascii_text(word) else {
        return Ok(None);
    };
    match parse_source(text) {
        Ok(source) => as_source(alloc, word, source),
        Err(_) => Ok(None),
    }
}

/// The GTID that the word parses as.
pub fn gtid_word(alloc: Global, word: &[u8]) -> Result<Option<Gtid>, AllocError>
    ensures { IfOk result (λ found. found ≡ gtid_of_word word.now) }
{
    let Some(text) = ascii_text(word) else {
        return Ok(None);
    };
    match parse_gtid(text) {
        Ok(gtid) => as_gtid(alloc, word, gtid),
        Err(_) => Ok(None),
    }
}

/// Whether each span comes after the one before it.
fn are_tidy(spans: &[Span]) -> bool
    ensures { result ≡ are_tidy_behind None spans.now }
{
    let mut before: Option<&Span> = None;
    for span in spans {
        if let Some(earlier) = before
            && !span.is_behind(earlier)
        {
            return false;
        }
        before = Some(span);
    }
    true
}

/// Appends the one text of spans.
pub fn write_spans(out: &mut String, spans: &[Span]) -> Result<(), AllocError>
    ensures { OnOk result (string_bytes out.new ≡ string_bytes out.old ++ spans_text spans.now) }
{
    let mut before = None;
    for span in spans {
        write_next_span(out, before, *span)?;
        before = Some(span.source);
    }
    Ok(())
}

fn is_text_of(alloc: Global, spans: &[Span], word: &[u8]) -> Result<bool, AllocError>
    ensures { IfOk result (λ same. same ≡ bytes_eq (spans_text spans.now) word.now) }
{
    let mut text = String::with_capacity(alloc, word.len())?;
    write_spans(&mut text, spans)?;
    Ok(text.as_bytes() == word)
}

/// The spans, if they are in order and merged, and the word is their one text.
fn as_spans(alloc: Global, word: &[u8], spans: Vec<Span>) -> Result<Option<Vec<Span>>, AllocError>
    ensures { IfOk result (λ found. option_map (λ v. v.items) found ≡ some_tidy word.now spans.items) }
{
    if spans.is_empty() || !are_tidy(&spans) {
        return Ok(None);
    }
    if !is_text_of(alloc, &spans, word)? {
        return Ok(None);
    }
    Ok(Some(spans))
}

/// The spans that the word parses as, each after the one before it. `-` parses as none.
pub fn spans_word(alloc: Global, word: &[u8]) -> Result<Option<Vec<Span>>, AllocError>
    ensures { IfOk result (λ found. option_map (λ v. v.items) found ≡ spans_of_word word.now) }
{
    if word == b"-".as_slice() {
        return Ok(Some(Vec::new(alloc)));
    }
    let Some(text) = ascii_text(word) else {
        return Ok(None);
    };
    match parse_spans(alloc, text) {
        Ok(spans) => as_spans(alloc, word, spans),
        Err(TextFault::Memory) => Err(AllocError),
        Err(_) => Ok(None),
    }
}

/// The set with the GTIDs of these spans.
fn set_of(alloc: Global, spans: &[Span]) -> Result<GtidSet, SetFault>
    requires { is_merged spans.now ≡ true }
    ensures found { IfOk result (λ s. s ≡ set_with set.empty spans.now) }
    ensures fault { IfErr result (λ f. IsWordFault f (Some (set_with set.empty spans.now))) }
{
    let mut set = GtidSet::empty(alloc);
    for span in spans {
        match set.add_span(*span) {
            Ok(()) => {}
            Err(fault) => return Err(fault),
        }
    }
    Ok(set)
}

/// The most sources that a set may have.
const MOST_SOURCES: usize = 65_536;

/// Whether the set that the word parses as has too many sources. It does not allocate.
#[tactic(auto, using(crate::proofs::SourceCount::empty_set, crate::proofs::SourceCount::no_set, crate::proofs::SourceCount::many_counted, crate::proofs::SourceCount::few_counted, crate::proofs::SourceCount::none_counted))]
#[cold]
#[inline(never)]
fn has_many_sources(word: &[u8]) -> bool
    ensures many { result ≡ true → OfParsed HasManySources (set_of_word word.now) }
    ensures few { result ≡ false → OfParsed HasManySources (set_of_word word.now) → ⊥ }
{
    if word == b"-".as_slice() {
        return false;
    }
    if !is_ascii(word) {
        return false;
    }
    match count_sources(word) {
        Some(sources) => sources > MOST_SOURCES,
        None => false,
    }
}

/// The set that the word parses as, in passes over it. A fault is the first one met.
#[cold]
#[inline(never)]
fn parse_in_passes(alloc: Global, word: &[u8]) -> Result<Option<GtidSet>, SetFault>
    ensures found { IfOk result (λ found. found ≡ set_of_word word.now) }
    ensures fault { IfErr result (λ f. IsWordFault f (set_of_word word.now)) }
{
    match spans_word(alloc, word)? {
        Some(spans) => Ok(Some(set_of(alloc, &spans)?)),
        None => Ok(None),
    }
}

/// The set that the word parses as. A fault is the first one met.
fn parse_set(alloc: Global, word: &[u8]) -> Result<Option<GtidSet>, SetFault>
    ensures found { IfOk result (λ found. found ≡ set_of_word word.now) }
    ensures fault { IfErr result (λ f. IsWordFault f (set_of_word word.now)) }
{
    match set_in_one_pass(alloc, word) {
        Some(set) => Ok(Some(set)),
        None => parse_in_passes(alloc, word),
    }
}

/// The set that the word parses as: canonical set text, or `-` for the empty set. One with too many sources is refused for them, whatever
/// memory there is.
pub fn set_word(alloc: Global, word: &[u8]) -> Result<Option<GtidSet>, SetFault>
    ensures found { IfOk result (λ found. found ≡ set_of_word word.now) }
    ensures fault { IfErr result (λ f. IsWordFault f (set_of_word word.now)) }
    ensures room { OfParsed HasManySources (set_of_word word.now) → result ≡ Err SourcesFull }
{
    match parse_set(alloc, word) {
        Ok(Some(set)) => {
            set.keeps_limits();
            Ok(Some(set))
        }
        Ok(None) => Ok(None),
        Err(fault) => {
            if has_many_sources(word) {
                return Err(SetFault::SourcesFull);
            }
            Err(fault)
        }
    }
}
