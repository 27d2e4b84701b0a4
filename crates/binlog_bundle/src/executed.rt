//! What the servers of channels had executed.
ghost use Rattle.std.specs.Prelude.{◌≡◌, Some, IsSome, slice_get, option_map, MatchOption, IfSome, IfNone, IfOk, IfErr};
ghost use Rattle.gtid_set.specs.declared.fault.SetFault.TheVariants.{Memory};
ghost use Rattle.journal_words.specs.Gtids.{set_of_word};
ghost use Rattle.binlog_bundle.specs.Executed.{NoName, IsBehindName, NoExecuted, IsExecuted, IsCutLine, IsNoSet, IsLack, IsLackFault, SaysNone, IsLackAt, HasFullLack, IsNameAt, IsFirstLack};

use crate::lines::{item_at, split_before, strip};
use gtid_set::{GtidSet, SetFault};
use journal::Journal;
use journal_words::set_word;
use memchr::memchr;
use rows::Name;
use std::alloc::Global;
use txn_journal::{Bundle, Cause, JournalFault};

/// What follows the name of a channel in its line, from a blank on.
fn behind_name(line: &[u8]) -> Option<&[u8]>
    ensures { MatchOption result (NoName line.now) (λ behind. IsBehindName line.now behind.now) }
{
    let Some(rest) = strip(line, b"channel ") else {
        return None;
    };
    let Some(at) = memchr(b' ', rest) else {
        return None;
    };
    let (_, behind) = rest.split_at(at);
    Some(behind)
}

/// Of what follows the name of a channel, the end that says what was executed, and the word in it.
fn executed_part(behind: &[u8]) -> Option<(&[u8], &[u8])>
    ensures { MatchOption result (NoExecuted behind.now) (λ r. IsExecuted behind.now r.0.now r.1.now) }
{
    if let Some(word) = strip(behind, b" executed ") {
        return Some((behind, word));
    }
    let Some(rest) = strip(behind, b" preserve") else {
        return None;
    };
    match strip(rest, b" executed ") {
        Some(word) => Some((rest, word)),
        None => None,
    }
}

/// The line of a channel as it is in a bundle, and the word that says what its server had executed.
pub fn cut_executed(line: &[u8]) -> (&[u8], Option<&[u8]>)
    ensures { IsCutLine line.now result.0.now (option_map (λ word. word.now) result.1) }
{
    let Some(behind) = behind_name(line) else {
        return (line, None);
    };
    match executed_part(behind) {
        Some((part, word)) => {
            let (own, _) = split_before(line, part.len());
            (own, Some(word))
        }
        None => (line, None),
    }
}

/// The set that was executed, by the word of a channel's line.
pub fn executed_set(alloc: Global, word: &[u8]) -> Result<GtidSet, JournalFault>
    ensures found { IfOk result (λ executed. set_of_word word.now ≡ Some executed) }
    ensures refused { IfErr result (λ fault. IsNoSet word.now fault) }
{
    match set_word(alloc, word) {
        Ok(Some(executed)) => Ok(executed),
        Ok(None) => Err(JournalFault::Line {
            line: 1,
            cause: Cause::Body,
        }),
        Err(fault) => Err(JournalFault::Set(fault)),
    }
}

/// What was executed and is in neither the opening set nor a journal, if anything is.
fn lack_of(
    alloc: Global,
    opened: &GtidSet,
    executed: &GtidSet,
    journal: &Journal,
) -> Result<Option<GtidSet>, SetFault>
    ensures found { IfOk result (IsLack opened.now executed.now journal.now) }
    ensures fault { IfErr result (λ fault. IsLackFault fault opened.now executed.now journal.now) }
{
    let left = match executed.subtract(alloc, opened) {
        Ok(left) => left,
        Err(fault) => return Err(fault),
    };
    let whole = match journal.previous_after_purge(alloc, journal.len()) {
        Ok(whole) => whole,
        Err(fault) => return Err(fault),
    };
    if left.is_subset(&whole) {
        return Ok(None);
    }
    match left.subtract(alloc, &whole) {
        Ok(lack) => Ok(Some(lack)),
        Err(fault) => Err(fault),
    }
}

/// What the channel at a place says was executed.
fn executed_at(said: &[Option<GtidSet>], place: usize) -> Option<&GtidSet>
    ensures some { IfSome result (λ executed. slice_get said.now place ≡ Some (Some executed.now)) }
    ensures none { IfNone result (SaysNone said.now place) }
{
    match item_at(said, place) {
        Some(Some(executed)) => Some(executed),
        _ => None,
    }
}

/// What the channel at a place lacks of what its server had executed, if anything.
fn lack_at(
    alloc: Global,
    bundle: &Bundle,
    said: &[Option<GtidSet>],
    place: usize,
) -> Result<Option<GtidSet>, SetFault>
    ensures found { IfOk result (IsLackAt bundle.now said.now place) }
    ensures fault { IfErr result (λ fault. HasFullLack fault bundle.now said.now) }
{
    let Some(executed) = executed_at(said, place) else {
        return Ok(None);
    };
    let Some(journal) = item_at(bundle.journals(), place) else {
        return Ok(None);
    };
    lack_of(alloc, bundle.opening_set(), executed, journal)
}

/// A channel that lacks something of what its server had executed.
#[derive(Drop)]
pub struct Lack {
    pub channel: Name,
    pub missing: GtidSet,
}

/// The name of the channel at the place of a journal.
fn name_at(bundle: &Bundle, place: usize) -> Result<Name, SetFault>
    requires { IsSome (slice_get bundle.now.journals place) }
    ensures found { IfOk result (IsNameAt bundle.now place) }
    ensures fault { IfErr result (λ fault. fault ≡ Memory) }
{
    bundle.keeps_rules();
    match item_at(bundle.channels(), place) {
        Some(channel) => Ok(channel.name.clone()?),
        None => unreachable!(),
    }
}

/// The first channel that lacks something of what its server had executed.
pub fn first_lack(
    alloc: Global,
    bundle: &Bundle,
    said: &[Option<GtidSet>],
) -> Result<Option<Lack>, SetFault>
    ensures found { IfOk result (IsFirstLack bundle.now said.now) }
    ensures fault { IfErr result (λ fault. HasFullLack fault bundle.now said.now) }
{
    for place in 0..said.len() {
        match lack_at(alloc, bundle, said, place) {
            Ok(None) => {}
            Ok(Some(missing)) => match name_at(bundle, place) {
                Ok(channel) => return Ok(Some(Lack { channel, missing })),
                Err(fault) => return Err(fault),
            },
            Err(fault) => return Err(fault),
        }
    }
    Ok(None)
}
