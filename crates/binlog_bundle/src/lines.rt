//! Lines of a bundle among those of logs.
ghost use Rattle.std.specs.Prelude.{◌≡◌, ◌≢◌, ◌++◌, ℕ, List, MatchOption, option_copied, slice_get};
ghost use Rattle.txn_journal.specs.Stream.{next_number};
ghost use Rattle.binlog_bundle.specs.Lines.{is_channel, is_own, lines_in, IsCut, IsSplit, IsFirstLine};

use binlog_entries::cut_line;

/// Whether a line begins a channel.
pub fn is_channel(line: &[u8]) -> bool
    ensures { result ≡ is_channel line.now }
{
    line.starts_with(b"channel ")
}

/// Whether a line begins a channel, or is the last one of a bundle. No line of a log is either.
fn is_own(line: &[u8]) -> bool
    ensures { result ≡ is_own line.now }
{
    is_channel(line) || line == b"done".as_slice()
}

/// What follows the front of a text that begins with it.
pub fn strip<'a>(text: &'a [u8], front: &[u8]) -> Option<&'a [u8]>
    ensures { MatchOption result ((rest : List ℕ) → text.now ≢ front.now ++ rest) (λ rest. text.now ≡ front.now ++ rest.now) }
{
    text.strip_prefix(front)
}

/// An item of a list, if there is one at this place.
pub fn item_at<T>(list: &[T], place: usize) -> Option<&T>
    ensures { option_copied result ≡ slice_get list.now place }
{
    list.get(place)
}

/// A text before and after the place where `left` bytes are left.
pub fn split_before(text: &[u8], left: usize) -> (&[u8], &[u8])
    ensures { IsSplit text.now left result.0.now result.1.now }
{
    text.split_at(text.len().saturating_sub(left))
}

/// The lines before the first that is a bundle's own, and the text from there on.
pub fn cut_own(text: &[u8]) -> (&[u8], &[u8])
    ensures { IsCut text.now result.0.now result.1.now }
{
    let mut left = text;
    while let Some((line, after)) = cut_line(left) {
        if is_own(line) {
            return split_before(text, left.len());
        }
        left = after;
    }
    split_before(text, 0)
}

/// The first line of a text, with its line feed if it has one, and what follows it.
pub fn split_line(text: &[u8]) -> (&[u8], &[u8])
    ensures parts { text.now ≡ result.0.now ++ result.1.now }
    ensures first { IsFirstLine text.now result.0.now result.1.now }
{
    match cut_line(text) {
        Some((_, after)) => split_before(text, after.len()),
        None => split_before(text, 0),
    }
}

fn lines_in(bytes: &[u8]) -> u64
    ensures { result ≡ lines_in bytes.now }
{
    bytes.iter().filter(|b| **b == b'\n').count() as u64
}

/// The number, from 1, of the line with which what is left of a text begins.
pub fn line_at(text: &[u8], left: &[u8]) -> u64
    ensures { (front : List ℕ) → text.now ≡ front ++ left.now → result ≡ next_number (lines_in front) }
{
    let (front, _) = split_before(text, left.len());
    lines_in(front).saturating_add(1)
}
