ghost use Rattle.std.specs.Prelude.{◌≡◌, ℕ, ◌++◌, option_map, option_to_list, length, List, Ok, OnOk, IfOk, IfErr};
ghost use Rattle.gtid_text.specs.Scan.{Sees};
ghost use Rattle.gtid_text.specs.Grammar.{ParsesAs, IsSetText, ParsesAsSource, IsSourceText, ParsesAsGtid, IsGtidText};
ghost use Rattle.gtid_text.specs.Refused.{Refuses, FailsText};
ghost use Rattle.gtid_text.specs.declared.Gtid.{Gtid};
ghost use Rattle.gtid_text.specs.declared.Span.{Span};
ghost use Rattle.gtid_text.specs.declared.set_text.ScanError.TheVariants.{Memory, Refused};
ghost use Rattle.gtid_text.specs.Reading.{fault_in, source_in, gtid_in, upper_at, interval_at, separator_at, element_at, turn_at, spans_in, Gives, answer, GivesText};

use crate::fault::TextFault;
use crate::scan::{Kind, ScanFault, colon, end, number, skip, source};
use crate::{Gtid, SourceId, Span};
use std::alloc::{AllocFailed, Global};

impl ScanFault {
    /// The fault in a text of this length.
    fn in_text(self, len: usize) -> TextFault
        ensures { result ≡ fault_in len self }
    {
        let at = len.saturating_sub(self.left);
        match self.kind {
            Kind::BadUuid => TextFault::BadUuid(at),
            Kind::NoInterval => TextFault::NoInterval(at),
            Kind::BadNumber => TextFault::BadNumber(at),
            Kind::NumberRange => TextFault::NumberRange(at),
            Kind::Reversed => TextFault::Reversed(at),
            Kind::Stray => TextFault::Stray(at),
        }
    }
}

#[tactic(auto, unfolding(crate::specs::Reading::source_in))]
fn whole_source(bytes: &[u8]) -> Result<SourceId, ScanFault>
    ensures { Sees (λ x. x) result (source_in bytes.now) }
{
    let (id, rest) = match source(skip(bytes)) {
        Ok(read) => read,
        Err(refusal) => return Err(refusal),
    };
    end(skip(rest))?;
    Ok(id)
}

#[tactic(auto, unfolding(crate::specs::Reading::gtid_in))]
fn whole_gtid(bytes: &[u8]) -> Result<Gtid, ScanFault>
    ensures { Sees (λ x. x) result (gtid_in bytes.now) }
{
    let (id, rest) = match source(skip(bytes)) {
        Ok(read) => read,
        Err(refusal) => return Err(refusal),
    };
    let rest = colon(skip(rest))?;
    let (number, rest) = number(skip(rest))?;
    end(skip(rest))?;
    Ok(Gtid { source: id, number })
}

/// Why a set was not read.
#[derive(Clone, Copy, Debug, PartialEq, Eq)]
pub enum ScanError {
    Memory,
    Refused(ScanFault),
}

impl<T: Drop> From<AllocFailed<T>> for ScanError {
    ghost from_gives = { λ _ e. e ≡ Memory };

    fn from(_e: AllocFailed<T>) -> ScanError {
        ScanError::Memory
    }
}

impl From<ScanFault> for ScanError {
    ghost from_gives = { λ r e. e ≡ Refused r };

    fn from(refusal: ScanFault) -> ScanError {
        ScanError::Refused(refusal)
    }
}

fn upper(id: SourceId, lo: u64, rest: &[u8]) -> Result<(Span, &[u8]), ScanFault>
    ensures { Sees (λ x. (x.0, x.1.now)) result (upper_at id lo rest.now) }
{
    let [b'-', after @ ..] = rest else {
        return Ok((
            Span {
                source: id,
                lo,
                hi: lo,
            },
            rest,
        ));
    };
    let digits = skip(after);
    let (hi, after) = number(digits)?;
    if hi < lo {
        return Err(ScanFault {
            kind: Kind::Reversed,
            left: digits.len(),
        });
    }
    Ok((Span { source: id, lo, hi }, skip(after)))
}

#[tactic(auto, unfolding(crate::specs::Reading::interval_at))]
fn interval(id: SourceId, rest: &[u8]) -> Result<(Span, &[u8]), ScanFault>
    ensures { Sees (λ x. (x.0, x.1.now)) result (interval_at id rest.now) }
{
    let (lo, rest) = number(skip(rest))?;
    upper(id, lo, skip(rest))
}

#[tactic(auto, unfolding(crate::specs::Reading::separator_at))]
fn separator(id: SourceId, rest: &[u8]) -> Result<(Option<SourceId>, &[u8]), ScanFault>
    ensures { Sees (λ x. (x.0, x.1.now)) result (separator_at id rest.now) }
{
    match rest {
        [] => Ok((None, rest)),
        [b':', after @ ..] => Ok((Some(id), after)),
        [b',', after @ ..] => Ok((None, after)),
        [_, ..] => Err(ScanFault {
            kind: Kind::Stray,
            left: rest.len(),
        }),
    }
}

#[tactic(auto, unfolding(crate::specs::Reading::element_at))]
fn element(rest: &[u8]) -> Result<(Option<SourceId>, &[u8]), ScanFault>
    ensures { Sees (λ x. (x.0, x.1.now)) result (element_at rest.now) }
{
    match rest {
        [] => Ok((None, rest)),
        [b',', after @ ..] => Ok((None, after)),
        [_, ..] => {
            let (id, rest) = match source(rest) {
                Ok(read) => read,
                Err(refusal) => return Err(refusal),
            };
            let rest = colon(skip(rest))?;
            Ok((Some(id), rest))
        }
    }
}

#[tactic(auto, unfolding(crate::specs::Reading::turn_at))]
pub(crate) fn turn(
    inside: Option<SourceId>,
    rest: &[u8],
) -> Result<Option<(Option<Span>, Option<SourceId>, &[u8])>, ScanFault>
    ensures { Sees (option_map (λ x. (x.0, x.1, x.2.now))) result (turn_at inside rest.now) }
{
    match inside {
        Some(id) => {
            let (span, rest) = match interval(id, rest) {
                Ok(read) => read,
                Err(refusal) => return Err(refusal),
            };
            let (next, rest) = match separator(id, rest) {
                Ok(read) => read,
                Err(refusal) => return Err(refusal),
            };
            Ok(Some((Some(span), next, rest)))
        }
        None => {
            let rest = skip(rest);
            if rest.is_empty() {
                return Ok(None);
            }
            let (next, rest) = match element(rest) {
                Ok(read) => read,
                Err(refusal) => return Err(refusal),
            };
            Ok(Some((None, next, rest)))
        }
    }
}

fn put(spans: &mut Vec<Span>, span: Option<Span>) -> Result<(), ScanError>
    ensures items { OnOk result (spans.new.items ≡ spans.old.items ++ option_to_list span) }
    ensures err { IfErr result (λ e. e ≡ Memory) }
{
    if let Some(span) = span {
        spans.push(span)?;
    }
    Ok(())
}

fn whole_spans(alloc: Global, bytes: &[u8]) -> Result<Vec<Span>, ScanError>
    ensures { Gives (λ v. v.items) result (spans_in bytes.now) }
{
    let mut spans = Vec::new(alloc);
    // Once out of memory, the rest is read only for its refusal.
    let mut lost = false;
    let mut inside = None;
    let mut rest = bytes;
    'turns: loop {
        let read = match turn(inside, rest) {
            Ok(read) => read,
            Err(refusal) => return Err(ScanError::Refused(refusal)),
        };
        match read {
            None if lost => return Err(ScanError::Memory),
            None => return Ok(spans),
            Some((span, next, left)) => {
                lost = lost || put(&mut spans, span).is_err();
                inside = next;
                rest = left;
            }
        }
    }
}

fn source_of_text(text: &str) -> Result<SourceId, TextFault>
    ensures { result ≡ answer (length text.now) (source_in text.now) }
{
    match whole_source(text.as_bytes()) {
        Ok(id) => Ok(id),
        Err(refusal) => Err(refusal.in_text(text.len())),
    }
}

fn gtid_of_text(text: &str) -> Result<Gtid, TextFault>
    ensures { result ≡ answer (length text.now) (gtid_in text.now) }
{
    match whole_gtid(text.as_bytes()) {
        Ok(gtid) => Ok(gtid),
        Err(refusal) => Err(refusal.in_text(text.len())),
    }
}

/// The source that a text names, with blanks around it.
pub fn parse_source(text: &str) -> Result<SourceId, TextFault>
    // An accepted text is a text of this value by the grammar.
    ensures found { IfOk result (λ id. ParsesAsSource text.now id) }
    // A text of a value by the grammar is accepted as this value.
    ensures only { (id : ℕ) → ParsesAsSource text.now id → result ≡ Ok id }
    // It is refused at the first token at which no continuation parses as a source.
    ensures refused { IfErr result (λ fault. Refuses IsSourceText fault text.now) }
    // The result is that of the table of states, also which refusal it is.
    ensures exact { result ≡ answer (length text.now) (source_in text.now) }
{
    source_of_text(text)
}

/// The GTID that a text names, with blanks between its tokens.
pub fn parse_gtid(text: &str) -> Result<Gtid, TextFault>
    // An accepted text is a text of this value by the grammar.
    ensures found { IfOk result (λ gtid. ParsesAsGtid text.now gtid) }
    // A text of a value by the grammar is accepted as this value.
    ensures only { (gtid : Gtid) → ParsesAsGtid text.now gtid → result ≡ Ok gtid }
    // It is refused at the first token at which no continuation parses as a GTID.
    ensures refused { IfErr result (λ fault. Refuses IsGtidText fault text.now) }
    // The result is that of the table of states, also which refusal it is.
    ensures exact { result ≡ answer (length text.now) (gtid_in text.now) }
{
    gtid_of_text(text)
}

fn spans_of(alloc: Global, text: &str) -> Result<Vec<Span>, TextFault>
    ensures { GivesText (λ v. v.items) result (length text.now) (spans_in text.now) }
{
    match whole_spans(alloc, text.as_bytes()) {
        Ok(spans) => Ok(spans),
        Err(ScanError::Memory) => Err(TextFault::Memory),
        Err(ScanError::Refused(refusal)) => Err(refusal.in_text(text.len())),
    }
}

/// The intervals of a set, as they are written.
pub fn parse_spans(alloc: Global, text: &str) -> Result<Vec<Span>, TextFault>
    // An accepted text is a text of this value by the grammar.
    ensures found { IfOk result (λ v. ParsesAs text.now v.items) }
    // A text of these intervals by the grammar is accepted as them, unless out of memory.
    ensures only { (spans : List Span) → ParsesAs text.now spans → GivesText (λ v. v.items) result (length text.now) (Ok spans) }
    // It is refused at the first token at which no continuation parses as a set. Out of memory is answered to a set's text alone.
    ensures refused { IfErr result (λ fault. FailsText IsSetText fault text.now) }
    // The result is that of the table of states, also which refusal it is.
    ensures exact { GivesText (λ v. v.items) result (length text.now) (spans_in text.now) }
{
    spans_of(alloc, text)
}
