//! Lines and entries that are read before they are taken.
ghost use Rattle.std.specs.Prelude.{◌≡◌, ◌++◌, ◌+◌, ℕ, List, length, Some, Ok, IfOk, IfSome};
ghost use Rattle.txn_journal.specs.Words.{IsOneLine, BeginsWithLine};
ghost use Rattle.txn_journal.specs.ChangeLines.{change_at, change_in, HasChange};
ghost use Rattle.txn_journal.specs.EntryLines.{BeginsWithGtid, BeginsWithChanges, IsEntryText};
ghost use Rattle.txn_journal.specs.Stream.{Finds};
ghost use Rattle.txn_journal.specs.declared.lines.Keyword.TheVariants as keywords;

use crate::draft::take_changes;
use crate::fault::{Cause, LineFault};
use crate::feed::cut_line;
use crate::images::{image, table_at, two_images};
use crate::names::Names;
use crate::numbers::{NearSources, gtid_in};
use gtid_text::Gtid;
use journal::is_change_writable;
use rows::{Change, Changes, Limits};
use std::alloc::{AllocError, Global};
use std::collections::VecDeque;
use std::marker::Model;

/// A line, and the change that it writes in texts with these limits if that was read.
#[derive(Drop)]
pub struct ParsedLine<'a> {
    pub line: &'a [u8],
    pub change: Option<Change>,
    pub limits: Limits,
    pub ghost whole: { IsOneLine line.now },
    pub ghost written: { HasChange limits line.now change },
}

/// The lines of a whole entry of version 1, and what they write.
#[derive(Drop)]
pub struct ParsedEntry<'a> {
    text: &'a [u8],
    gtid: Gtid,
    changes: Changes,
}

impl<'a> Model for ParsedEntry<'a> {
    ghost use Rattle.txn_journal.specs.EntryLines.{EntryText, IsEntryText};

    ghost Value = { EntryText };

    ghost view = { λ e. record { text = e.text.now; gtid = e.gtid; changes = e.changes } };

    ghost invariant = { λ e. IsEntryText e.text.now e.gtid e.changes };
}

/// What was parsed together.
#[derive(Drop)]
pub enum ParsedItem<'a> {
    Line(ParsedLine<'a>),
    Entry(ParsedEntry<'a>),
}

/// A piece of text that was cut into whole entries and other lines, each with what it writes if that was read. It is made on any thread,
/// and fed to a `BundleReader` in its turn.
#[derive(Drop)]
pub struct ParsedLines<'a> {
    items: VecDeque<ParsedItem<'a>>,
    /// What follows them.
    rest: &'a [u8],
}

impl<'a> Model for ParsedLines<'a> {
    ghost use Rattle.std.specs.Prelude.{ℕ, List, ◌++◌};
    ghost use Rattle.txn_journal.specs.ParsedTexts.{text_in};

    ghost Value = { List ℕ };

    ghost view = { λ p. text_in p.items.items ++ p.rest.now };
}

#[tactic(auto, unfolding(crate::specs::ChangeLines::change_at))]
fn insert_in(
    alloc: Global,
    limits: Limits,
    names: &mut Names,
    rest: &[u8],
) -> Result<Change, LineFault>
    ensures { Finds (λ c. c) result (change_at limits keywords.Ins (Some rest.now)) }
{
    let (table, text) = table_at(names, alloc, limits, Some(rest))?;
    let after = image(alloc, text)?;
    Ok(Change::Insert { table, after })
}

#[tactic(auto, unfolding(crate::specs::ChangeLines::change_at))]
fn delete_in(
    alloc: Global,
    limits: Limits,
    names: &mut Names,
    rest: &[u8],
) -> Result<Change, LineFault>
    ensures { Finds (λ c. c) result (change_at limits keywords.Del (Some rest.now)) }
{
    let (table, text) = table_at(names, alloc, limits, Some(rest))?;
    let before = image(alloc, text)?;
    Ok(Change::Delete { table, before })
}

#[tactic(auto, unfolding(crate::specs::ChangeLines::change_at))]
fn update_in(
    alloc: Global,
    limits: Limits,
    names: &mut Names,
    rest: &[u8],
) -> Result<Change, LineFault>
    ensures { Finds (λ c. c) result (change_at limits keywords.Upd (Some rest.now)) }
{
    let (table, text) = table_at(names, alloc, limits, Some(rest))?;
    let (before, after) = two_images(alloc, text)?;
    Ok(Change::Update {
        table,
        before,
        after,
    })
}

/// The change that a line writes by these limits, or a fault if it writes none.
#[tactic(auto, unfolding(crate::specs::ChangeLines::change_in))]
fn read_change(
    alloc: Global,
    limits: Limits,
    names: &mut Names,
    line: &[u8],
) -> Result<Change, LineFault>
    ensures { IfOk result (λ change. change_in limits line.now ≡ Ok change) }
{
    match line {
        [b'i', b'n', b's', b' ', rest @ ..] => insert_in(alloc, limits, names, rest),
        [b'u', b'p', b'd', b' ', rest @ ..] => update_in(alloc, limits, names, rest),
        [b'd', b'e', b'l', b' ', rest @ ..] => delete_in(alloc, limits, names, rest),
        _ => Err(LineFault::Wrong(Cause::Keyword)),
    }
}

/// The change that a line writes by these limits, if it writes one.
fn change_of(
    alloc: Global,
    limits: Limits,
    names: &mut Names,
    line: &[u8],
) -> Result<Option<Change>, AllocError>
    ensures { IfOk result (HasChange limits line.now) }
{
    match read_change(alloc, limits, names, line) {
        Ok(change) => Ok(Some(change)),
        Err(LineFault::Wrong(_)) => Ok(None),
        Err(LineFault::Set(_)) => Err(AllocError),
    }
}

/// The GTID of the line that begins an entry of version 1 and a text, and what follows that line.
fn gtid_at<'a>(alloc: Global, near: &mut NearSources, text: &'a [u8]) -> Option<(Gtid, &'a [u8])>
    ensures { IfSome result (λ r. BeginsWithGtid text.now r.0 r.1.now) }
{
    let (line, after) = cut_line(text)?;
    let [b't', b'x', b'n', b' ', word @ ..] = line else {
        return None;
    };
    let Ok(gtid) = gtid_in(alloc, near, word) else {
        return None;
    };
    Some((gtid, after))
}

/// Reads the changes of the lines with which a text begins, up to the line that ends their entry. It returns what follows that line, if all
/// lines have come and nothing is wrong with them.
fn changes_at<'a>(
    alloc: Global,
    names: &mut Names,
    changes: &mut Vec<Change>,
    text: &'a [u8],
) -> Option<&'a [u8]>
    ensures { IfSome result (λ after. BeginsWithChanges text.now changes.new.items after.now) }
{
    changes.clear();
    let mut left = text;
    'lines: loop {
        let (line, after) = cut_line(left)?;
        if line == b"end".as_slice() {
            return Some(after);
        }
        let Ok(change) = read_change(alloc, Limits::Narrow, names, line) else {
            return None;
        };
        if changes.len() >= Limits::Narrow.changes()
            || !is_change_writable(&change, Limits::Narrow)
        {
            return None;
        }
        let Ok(()) = changes.push(change) else {
            return None;
        };
        left = after;
    }
}

/// The entry of version 1 with which a text begins, and what follows it, if all its lines have come, nothing is wrong with them and there
/// is memory. `changes` is a scratch buffer, reused between calls.
fn entry_at<'a>(
    alloc: Global,
    names: &mut Names,
    near: &mut NearSources,
    changes: &mut Vec<Change>,
    text: &'a [u8],
) -> Option<(ParsedEntry<'a>, &'a [u8])>
    ensures { IfSome result (λ r. text.now ≡ r.0.text ++ r.1.now) }
{
    let Some((gtid, lines)) = gtid_at(alloc, near, text) else {
        return None;
    };
    let Some(after) = changes_at(alloc, names, changes, lines) else {
        return None;
    };
    let Ok(changes) = take_changes(alloc, changes) else {
        return None;
    };
    let text = front_of(text, after);
    Some((
        ParsedEntry {
            text,
            gtid,
            changes,
        },
        after,
    ))
}

/// The line with which a text begins, and what follows it. A line with a fault has no change.
fn line_at<'a>(
    alloc: Global,
    limits: Limits,
    names: &mut Names,
    text: &'a [u8],
) -> Option<(ParsedLine<'a>, &'a [u8])>
    ensures { IfSome result (λ r. BeginsWithLine text.now r.0.line.now r.1.now) }
{
    let (line, after) = cut_line(text)?;
    let Ok(change) = change_of(alloc, limits, names, line) else {
        return None;
    };
    Some((
        ParsedLine {
            line,
            change,
            limits,
        },
        after,
    ))
}

/// What comes before the end of a text.
fn front_of<'a>(text: &'a [u8], after: &[u8]) -> &'a [u8]
    ensures { (front : List ℕ) → text.now ≡ front ++ after.now → result.now ≡ front }
{
    let size = text.len().saturating_sub(after.len());
    let (front, _after) = text.split_at(size);
    front
}

impl<'a> ParsedItem<'a> {
    ghost use Rattle.txn_journal.specs.ParsedTexts.{item_text};

    /// The entry or line with which a text begins, by these limits, and what follows it. There is none if its line has not come whole, or
    /// if out of memory.
    fn at(
        alloc: Global,
        limits: Limits,
        names: &mut Names,
        near: &mut NearSources,
        changes: &mut Vec<Change>,
        text: &'a [u8],
    ) -> Option<(ParsedItem<'a>, &'a [u8])>
        ensures { IfSome result (λ r. text.now ≡ item_text r.0 ++ r.1.now) }
    {
        if limits == Limits::Narrow {
            if let Some((entry, after)) = entry_at(alloc, names, near, changes, text) {
                return Some((ParsedItem::Entry(entry), after));
            }
        }
        let (line, after) = line_at(alloc, limits, names, text)?;
        Some((ParsedItem::Line(line), after))
    }
}

impl<'a> ParsedEntry<'a> {
    /// Its lines.
    pub fn text(&self) -> &'a [u8]
        ensures { result.now ≡ self.now.text }
    {
        self.text
    }

    /// How many lines it has.
    pub fn lines(&self) -> u64
        ensures { result ≡ length self.now.changes + 2 }
    {
        self.changes.as_slice().len() as u64 + 2
    }

    /// Its GTID and changes.
    pub fn into_parts(self) -> (Gtid, Changes)
        ensures gtid { result.0 ≡ self.entry.gtid }
        ensures changes { result.1 ≡ self.entry.changes }
        ensures spelled { IsEntryText self.entry.text self.entry.gtid self.entry.changes }
    {
        let ParsedEntry {
            text: _text,
            gtid,
            changes,
        } = self;
        (gtid, changes)
    }
}

impl<'a> ParsedLines<'a> {
    ghost use Rattle.txn_journal.specs.ParsedTexts.{text_in};

    /// Cuts a text into entries and lines, and reads what they write in a text with these limits. In a text with others the lines are read
    /// again as they are taken. If out of memory, what follows is left as it is.
    pub fn parse(alloc: Global, limits: Limits, text: &'a [u8]) -> ParsedLines<'a>
        ensures { result ≡ text.now }
    {
        let mut names = Names::start(alloc);
        let mut near = NearSources::start(alloc);
        let mut changes = Vec::new(alloc);
        let mut items = VecDeque::new(alloc);
        let mut rest = text;
        'items: loop {
            let Some((item, after)) = ParsedItem::at(
                alloc,
                limits,
                &mut names,
                &mut near,
                &mut changes,
                rest,
            ) else {
                break;
            };
            let Ok(()) = items.push_back(item) else {
                break;
            };
            rest = after;
        }
        ParsedLines { items, rest }
    }

    /// The entries and lines, and what follows them.
    pub fn into_parts(self) -> (VecDeque<ParsedItem<'a>>, &'a [u8])
        ensures { self.entry ≡ text_in result.0.items ++ result.1.now }
    {
        let ParsedLines { items, rest } = self;
        (items, rest)
    }
}
