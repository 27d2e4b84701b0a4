//! Images of rows as words.
ghost use Rattle.std.specs.Prelude.{◌≡◌, Some, Ok, IfSome, IfNone, ℕ, List, option_map};
ghost use Rattle.txn_journal.specs.Stream.{Finds};
ghost use Rattle.txn_journal.specs.Lines.{IsAroundBar, image_in, images_in, table_in};

use crate::fault::{Cause, LineFault};
use crate::names::Names;
use memchr::memchr;
use row_images::cut;
use rows::{Limits, Name, Row};
use std::alloc::Global;

/// The image that a text has.
#[inline(never)]
pub fn image(alloc: Global, text: &[u8]) -> Result<Row, LineFault>
    ensures { Finds (λ r. r) result (image_in text.now) }
{
    match Row::from_text(alloc, text)? {
        Some(row) => Ok(row),
        None => Err(LineFault::Wrong(Cause::Body)),
    }
}

/// The image that a text has, if it has one and there is memory for it.
#[inline(always)]
pub fn find_image(alloc: Global, text: &[u8]) -> Option<Row>
    ensures { IfSome result (λ row. image_in text.now ≡ Ok row) }
{
    let Ok(found) = Row::from_text(alloc, text) else {
        return None;
    };
    found
}

/// The two images that a text has, with a bar between, if it has them and there is memory for them.
pub fn find_images(alloc: Global, text: &[u8]) -> Option<(Row, Row)>
    ensures { IfSome result (λ rows. images_in text.now ≡ Ok (rows.0, rows.1)) }
{
    let Some((before, after)) = around_bar(text) else {
        return None;
    };
    let Some(before) = find_image(alloc, before) else {
        return None;
    };
    let Some(after) = find_image(alloc, after) else {
        return None;
    };
    Some((before, after))
}

/// The table's name at the start of a line's rest, and what follows it, if both are there and there is memory.
pub fn find_table<'a>(
    names: &mut Names,
    alloc: Global,
    limits: Limits,
    rest: &'a [u8],
) -> Option<(Name, &'a [u8])>
    ensures { IfSome result (λ found. table_in limits (Some rest.now) ≡ Ok (found.0, found.1.now)) }
{
    let (word, more) = cut(rest);
    let Some(text) = more else {
        return None;
    };
    match names.read(alloc, limits, word) {
        Ok(Some(name)) => Some((name, text)),
        _ => None,
    }
}

/// What comes before and after the first bar, if there is a blank on either side of it.
fn around_bar(text: &[u8]) -> Option<(&[u8], &[u8])>
    ensures some { IfSome result (λ r. IsAroundBar text.now r.0.now r.1.now) }
    ensures none { IfNone result ((before after : List ℕ) → IsAroundBar text.now before after → ⊥) }
{
    let Some(at) = memchr(b'|', text) else {
        return None;
    };
    if at < 1 || at + 1 >= text.len() || text[at - 1] != b' ' || text[at + 1] != b' ' {
        return None;
    }
    Some((&text[..at - 1], &text[at + 2..]))
}

/// The two images that a text has, with a bar between.
#[inline(never)]
pub fn two_images(alloc: Global, text: &[u8]) -> Result<(Row, Row), LineFault>
    ensures { Finds (λ r. r) result (images_in text.now) }
{
    let Some((before, after)) = around_bar(text) else {
        return Err(LineFault::Wrong(Cause::Body));
    };
    let before = image(alloc, before)?;
    let after = image(alloc, after)?;
    Ok((before, after))
}

/// The table's name at the start of a line's rest, and what follows it.
#[inline(never)]
pub fn table_at<'a>(
    names: &mut Names,
    alloc: Global,
    limits: Limits,
    rest: Option<&'a [u8]>,
) -> Result<(Name, &'a [u8]), LineFault>
    ensures { Finds (λ r. (r.0, r.1.now)) result (table_in limits (option_map (λ r. r.now) rest.entry)) }
{
    let Some(text) = rest else {
        return Err(LineFault::Wrong(Cause::Body));
    };
    let (word, more) = cut(text);
    let Some(text) = more else {
        return Err(LineFault::Wrong(Cause::Body));
    };
    match names.read(alloc, limits, word)? {
        Some(name) => Ok((name, text)),
        None => Err(LineFault::Wrong(Cause::Body)),
    }
}
