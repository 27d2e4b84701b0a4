//! Assumptions: what a verdict rests on that the bundle doesn't show.
ghost use Rattle.std.specs.Prelude.{◌≡◌, ◌==◌, ◌∷◌, ◌++◌, length, option_map, OnOk, IfOk};
ghost use Rattle.rows.specs.Listing.{rows_listed};
ghost use Rattle.std.specs.String.{string_bytes};
ghost use Rattle.txn_journal.specs.Stream.{Finds};
ghost use Rattle.txn_journal.specs.WrittenSets.{spans_word};
ghost use Rattle.txn_journal.specs.Assumptions.{named, rank, assumption_text, comes_before, last_of, may_follow, has_channel, may_assume, name_behind, part_behind, assumption_of, assumption_in};

use crate::bundle::BundleChannel;
use crate::fault::{Cause, LineFault};
use crate::names::Names;
use crate::spans::{SpanList, spans_in, write_spans_word};
use crate::statements::has_entries;
use gtid_set::GtidSet;
use journal::Journal;
use row_images::cut;
use rows::{Limits, Name, Rows};
use std::alloc::{AllocError, Global};

/// The greatest number of assumptions. Our own limit.
pub const MAX_ASSUMPTIONS: usize = 65_536;

/// Something that a verdict rests on and that the bundle doesn't show.
#[derive(Drop)]
pub enum Assumption {
    /// Nobody said what the server of this channel had executed: its log may end early.
    Executed(Name),
    /// The log of this channel has no checksums: damage in it can't be seen.
    Checksums(Name),
    /// The server of this channel hasn't executed this part of the opening set: whether that part conflicts with its transactions can't be
    /// seen where the rows aren't known.
    Opening(Name, SpanList),
    /// The statements of these transactions of the channel change no row of the tables, and stop no replica.
    Statements(Name, SpanList),
    /// Changes of this table, or of all of this database, were left out.
    Ignored(Name),
    /// Foreign keys aren't looked at.
    References,
    /// The opening rows aren't known: there is none, and changes are not applied.
    Rows,
}

impl Assumption {
    /// Its place among the words, which is the order of the lines.
    fn rank(&self) -> u8
        ensures { result ≡ rank self.now }
    {
        match self {
            Assumption::Executed(_) => 0,
            Assumption::Checksums(_) => 1,
            Assumption::Opening(_, _) => 2,
            Assumption::Statements(_, _) => 3,
            Assumption::Ignored(_) => 4,
            Assumption::References => 5,
            Assumption::Rows => 6,
        }
    }

    /// The name that follows its word.
    fn named(&self) -> &[u8]
        ensures { result.now ≡ named self.now }
    {
        match self {
            Assumption::Executed(name)
            | Assumption::Checksums(name)
            | Assumption::Opening(name, _)
            | Assumption::Statements(name, _)
            | Assumption::Ignored(name) => name.as_str().as_bytes(),
            Assumption::References | Assumption::Rows => &[],
        }
    }

    /// Whether its line comes before that of another.
    fn comes_before(&self, other: &Assumption) -> bool
        ensures { result ≡ comes_before self.now other.now }
    {
        self.rank() < other.rank()
            || self.rank() == other.rank() && self.named().cmp(other.named()).is_lt()
    }

    /// Appends the words that say it.
    pub fn write(&self, out: &mut String) -> Result<(), AllocError>
        ensures { OnOk result (string_bytes out.new ≡ string_bytes out.old ++ assumption_text self.now) }
    {
        match self {
            Assumption::Executed(channel) => write_named(out, "executed ", channel),
            Assumption::Checksums(channel) => write_named(out, "checksums ", channel),
            Assumption::Opening(channel, spans) => write_part(out, "opening ", channel, spans),
            Assumption::Statements(channel, spans) => write_part(
                out,
                "statements ",
                channel,
                spans,
            ),
            Assumption::Ignored(table) => write_named(out, "ignored ", table),
            Assumption::References => out.push_str("references"),
            Assumption::Rows => out.push_str("rows"),
        }
    }
}

/// Appends a word and a name.
#[tactic(auto, using(crate::proofs::BundleWriting::named_appended))]
fn write_named(out: &mut String, word: &str, name: &Name) -> Result<(), AllocError>
    ensures { OnOk result (string_bytes out.new ≡ string_bytes out.old ++ (word.now ++ name.now)) }
{
    out.push_str(word)?;
    out.push_str(name.as_str())
}

/// Appends a word, a name and spans.
#[tactic(auto, using(crate::proofs::BundleWriting::part_appended))]
fn write_part(out: &mut String, word: &str, name: &Name, spans: &SpanList) -> Result<(), AllocError>
    ensures { OnOk result (string_bytes out.new ≡ string_bytes out.old ++ (word.now ++ (name.now ++ 32 ∷ spans_word spans.now))) }
{
    write_named(out, word, name)?;
    out.push_str(" ")?;
    write_spans_word(out, spans.as_slice())
}

/// Whether an assumption may follow these.
pub fn may_follow(before: &[Assumption], assumption: &Assumption) -> bool
    ensures { result ≡ may_follow (last_of before.now) assumption.now }
{
    match before {
        [] => true,
        [.., last] => last.comes_before(assumption),
    }
}

/// Whether a channel has this name.
pub fn has_channel(channels: &[BundleChannel], name: &Name) -> bool
    ensures { result ≡ has_channel channels.now name.now }
{
    channels.iter().any(|channel| channel.name == *name)
}

/// Whether there is no row.
fn is_without_rows(alloc: Global, rows: &Rows) -> Result<bool, AllocError>
    ensures { IfOk result (λ none. none ≡ (length (rows_listed rows.now.rows) == 0)) }
{
    let list = rows.list_sorted(alloc)?;
    Ok(list.is_empty())
}

/// Whether what an assumption names is there: a channel, a part of the opening set, or entries of a channel; or whether it isn't: a table,
/// or, of rows that aren't known, a row. GTIDs of entries take as many steps as the channel has entries, times its binary digits.
pub fn may_assume(
    alloc: Global,
    opened: &GtidSet,
    rows: &Rows,
    channels: &[BundleChannel],
    journals: &[Journal],
    assumption: &Assumption,
) -> Result<bool, AllocError>
    ensures { IfOk result (λ may. may ≡ may_assume opened.now rows.now channels.now journals.now assumption.now) }
{
    match assumption {
        Assumption::Executed(channel) | Assumption::Checksums(channel) => Ok(has_channel(
            channels, channel,
        )),
        Assumption::Opening(channel, spans) => Ok(
            has_channel(channels, channel) && spans.are_in(opened),
        ),
        Assumption::Statements(channel, spans) => {
            has_entries(alloc, channels, journals, channel, spans.as_slice())
        }
        Assumption::Ignored(table) => Ok(rows.schema().find(table).is_none()),
        Assumption::References => Ok(true),
        Assumption::Rows => is_without_rows(alloc, rows),
    }
}

/// The name that is the whole rest of a line.
fn name_in(
    alloc: Global,
    limits: Limits,
    names: &mut Names,
    rest: Option<&[u8]>,
) -> Result<Name, LineFault>
    ensures { Finds (λ n. n) result (name_behind limits (option_map (λ r. r.now) rest.entry)) }
{
    let Some(word) = rest else {
        return Err(LineFault::Wrong(Cause::Body));
    };
    match names.read(alloc, limits, word)? {
        Some(name) => Ok(name),
        None => Err(LineFault::Wrong(Cause::Body)),
    }
}

/// A name, and spans, one or more.
fn part_in(
    alloc: Global,
    limits: Limits,
    names: &mut Names,
    rest: Option<&[u8]>,
) -> Result<(Name, SpanList), LineFault>
    ensures { Finds (λ part. part) result (part_behind limits (option_map (λ r. r.now) rest.entry)) }
{
    let Some(text) = rest else {
        return Err(LineFault::Wrong(Cause::Body));
    };
    let (word, more) = cut(text);
    let channel = name_in(alloc, limits, names, Some(word))?;
    let spans = spans_in(alloc, more)?;
    Ok((channel, spans))
}

/// The assumption of a word and what follows it.
#[tactic(auto, unfolding(crate::specs::Assumptions::assumption_of))]
fn assumption_of(
    alloc: Global,
    limits: Limits,
    names: &mut Names,
    word: &[u8],
    rest: Option<&[u8]>,
) -> Result<Assumption, LineFault>
    ensures { Finds (λ a. a) result (assumption_of limits word.now (option_map (λ r. r.now) rest.entry)) }
{
    if word == b"executed".as_slice() {
        Ok(Assumption::Executed(name_in(alloc, limits, names, rest)?))
    } else if word == b"checksums".as_slice() {
        Ok(Assumption::Checksums(name_in(alloc, limits, names, rest)?))
    } else if word == b"opening".as_slice() {
        let (channel, spans) = part_in(alloc, limits, names, rest)?;
        Ok(Assumption::Opening(channel, spans))
    } else if word == b"statements".as_slice() {
        let (channel, spans) = part_in(alloc, limits, names, rest)?;
        Ok(Assumption::Statements(channel, spans))
    } else if word == b"ignored".as_slice() {
        Ok(Assumption::Ignored(name_in(alloc, limits, names, rest)?))
    } else if word == b"references".as_slice() && rest.is_none() {
        Ok(Assumption::References)
    } else if word == b"rows".as_slice() && rest.is_none() {
        Ok(Assumption::Rows)
    } else {
        Err(LineFault::Wrong(Cause::Body))
    }
}

/// The assumption of a line.
pub fn assumption_in(
    alloc: Global,
    limits: Limits,
    names: &mut Names,
    rest: Option<&[u8]>,
) -> Result<Assumption, LineFault>
    ensures { Finds (λ a. a) result (assumption_in limits (option_map (λ r. r.now) rest.entry)) }
{
    let Some(text) = rest else {
        return Err(LineFault::Wrong(Cause::Body));
    };
    let (word, more) = cut(text);
    assumption_of(alloc, limits, names, word, more)
}
