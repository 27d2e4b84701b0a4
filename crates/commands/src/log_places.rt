//! What is known of a log at one of its lines, by the lines before it.
ghost use Rattle.std.specs.Prelude.{◌≡◌, ◌++◌, ◌+◌, ◌≤◌, ◌<◌, ◌^◌, ◌-◌, OnOk, option_map};
ghost use Rattle.binlog_text.specs.Reading.{line_of};
ghost use Rattle.binlog_text.specs.Lines.{begins, begins_with_digit};
ghost use Rattle.binlog_text.specs.Tokens.{after_prefix};
ghost use Rattle.commands.specs.LogPlaces.{place_of, before_text, after_text, is_head, gtid_in, end_log_pos_in, file_in, at_start, at_line, after_columns, after_line, first_line, place_at, known_text, place_text};

use binlog_text::{LogLine, cut_at, read_line};
use fault_places::{put, put_line, put_shown};
use std::alloc::AllocError;

/// A line of a log, and what is known at it.
#[derive(Clone, Copy, Drop)]
pub(crate) struct LogPlace<'a> {
    pub(crate) line: &'a [u8],
    /// The table that was mapped last, by its database's name and its own.
    pub(crate) table: Option<(&'a [u8], &'a [u8])>,
    /// How many columns of that table came before the line.
    pub(crate) columns: u64,
    /// The GTID of the last transaction.
    pub(crate) gtid: Option<&'a [u8]>,
    /// The end of the last event in its file.
    pub(crate) end_log_pos: Option<&'a [u8]>,
    /// The name of the file, if a rotation leads to it.
    pub(crate) file: Option<&'a [u8]>,
}

/// What follows a prefix.
fn after_prefix<'a>(text: &'a [u8], front: &[u8]) -> Option<&'a [u8]>
    ensures { option_map (λ r. r.now) result ≡ after_prefix front.now text.now }
{
    text.strip_prefix(front)
}

fn begins(text: &[u8], front: &[u8]) -> bool
    ensures { result ≡ begins front.now text.now }
{
    after_prefix(text, front).is_some()
}

/// What comes before the first place of a text, or all.
fn before_text<'a>(line: &'a [u8], text: &[u8]) -> &'a [u8]
    ensures { result.now ≡ before_text text.now line.now }
{
    for (i, _byte) in line.iter().enumerate() {
        let (front, left) = line.split_at(i);
        if begins(left, text) {
            return front;
        }
    }
    line
}

/// What follows the first place of a text.
fn after_text<'a>(line: &'a [u8], text: &[u8]) -> Option<&'a [u8]>
    ensures { option_map (λ x. x.now) result ≡ after_text text.now line.now }
{
    for (i, _byte) in line.iter().enumerate() {
        let (_, left) = line.split_at(i);
        if let Some(rest) = after_prefix(left, text) {
            return Some(rest);
        }
    }
    None
}

fn begins_with_digit(text: &[u8]) -> bool
    ensures { result ≡ begins_with_digit text.now }
{
    match text {
        [] => false,
        [first, ..] => first.is_ascii_digit(),
    }
}

/// Whether a line is the head of an event.
fn is_head(line: &[u8]) -> bool
    ensures { result ≡ is_head line.now }
{
    match line {
        [] => false,
        [first, rest @ ..] => *first == b'#' && begins_with_digit(rest),
    }
}

/// The GTID that a line gives the transaction after it.
fn gtid_in(line: &[u8]) -> Option<&[u8]>
    ensures { option_map (λ x. x.now) result ≡ gtid_in (line_of line.now) }
{
    match read_line(line) {
        Some(LogLine::Gtid(gtid)) => Some(gtid),
        _ => None,
    }
}

/// Where the event ends in its file whose head a line is.
fn end_log_pos_in(line: &[u8]) -> Option<&[u8]>
    ensures { option_map (λ x. x.now) result ≡ end_log_pos_in line.now }
{
    if !is_head(line) {
        return None;
    }
    let Some(rest) = after_text(line, b" end_log_pos ") else {
        return None;
    };
    let Some((number, _)) = cut_at(rest, b' ') else {
        return None;
    };
    Some(number)
}

/// The file to which a rotation leads whose head a line is.
fn file_in(line: &[u8]) -> Option<&[u8]>
    ensures { option_map (λ x. x.now) result ≡ file_in line.now }
{
    if !is_head(line) {
        return None;
    }
    let Some((_, event)) = cut_at(line, b'\t') else {
        return None;
    };
    let Some(rest) = after_prefix(event, b"Rotate to ") else {
        return None;
    };
    Some(before_text(rest, b"  pos: "))
}

fn first_line(text: &[u8]) -> &[u8]
    ensures { result.now ≡ first_line text.now }
{
    match cut_at(text, b'\n') {
        Some((line, _)) => line,
        None => text,
    }
}

impl<'a> LogPlace<'a> {
    /// At the start of a log.
    fn at_start(line: &'a [u8]) -> LogPlace<'a>
        ensures { place_of result ≡ at_start line.now }
    {
        LogPlace {
            line,
            table: None,
            columns: 0,
            gtid: None,
            end_log_pos: None,
            file: None,
        }
    }

    /// At the next line.
    fn at_line(&self, line: &'a [u8]) -> LogPlace<'a>
        ensures place { place_of result ≡ at_line (place_of self.now) line.now }
        ensures columns { result.columns ≤ self.now.columns }
    {
        if line.starts_with(b"channel ") {
            return LogPlace::at_start(line);
        }
        LogPlace {
            line,
            gtid: gtid_in(line).or(self.gtid),
            end_log_pos: end_log_pos_in(line).or(self.end_log_pos),
            ..*self
        }
    }

    /// After the line, but for the file.
    fn after_columns(&self) -> LogPlace<'a>
        requires { self.now.columns < 2 ^ 64 - 1 }
        ensures place { place_of result ≡ after_columns (place_of self.now) (line_of self.now.line.now) }
        ensures columns { result.columns ≤ self.now.columns + 1 }
    {
        match read_line(self.line) {
            Some(LogLine::TableMap(database, table)) => LogPlace {
                table: Some((database, table)),
                columns: 0,
                ..*self
            },
            Some(LogLine::Column(_)) => LogPlace {
                columns: self.columns + 1,
                ..*self
            },
            _ => *self,
        }
    }

    /// After the line.
    fn after_line(&self) -> LogPlace<'a>
        requires { self.now.columns < 2 ^ 64 - 1 }
        ensures place { place_of result ≡ after_line (place_of self.now) }
        ensures columns { result.columns ≤ self.now.columns + 1 }
    {
        LogPlace {
            file: file_in(self.line).or(self.file),
            ..self.after_columns()
        }
    }
}

/// What is known at a line of a text, counted from 1.
pub(crate) fn place_at(text: &[u8], number: u64) -> LogPlace<'_>
    ensures { place_of result ≡ place_at number text.now }
{
    let mut place = LogPlace::at_start(&[]);
    let mut before = number.saturating_sub(1);
    let mut left = text;
    while before > 0 {
        let Some((line, rest)) = cut_at(left, b'\n') else {
            return place.at_line(left);
        };
        place = place.at_line(line).after_line();
        left = rest;
        before -= 1;
    }
    place.at_line(first_line(left))
}

/// Appends what is known, in a line of its own.
fn put_known(out: &mut Vec<u8>, name: &str, known: &Option<&[u8]>) -> Result<(), AllocError>
    ensures { OnOk result (out.new.items ≡ out.old.items ++ known_text name.now (option_map (λ x. x.now) known.now)) }
{
    let Some(text) = known else {
        return Ok(());
    };
    put(out, "  ")?;
    put(out, name)?;
    put(out, " ")?;
    put_shown(out, text)?;
    put(out, "\n")
}

/// Appends a line with its number, and what is known at it.
pub(crate) fn put_place(
    out: &mut Vec<u8>,
    number: u64,
    place: &LogPlace<'_>,
) -> Result<(), AllocError>
    ensures { OnOk result (out.new.items ≡ out.old.items ++ place_text number (place_of place.now)) }
{
    put(out, "  ")?;
    put_line(out, number as usize, place.line)?;
    put_known(out, "transaction", &place.gtid)?;
    put_known(out, "end_log_pos", &place.end_log_pos)?;
    put_known(out, "file", &place.file)
}
