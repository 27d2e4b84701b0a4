//! What is due in a bundle after a line.
ghost use Rattle.std.specs.Prelude.{◌≡◌, map};
ghost use Rattle.fault_places.specs.Due.{line_at, word_before, version_of, tables_due, rows_due, channels_due, opening_due, journal_due, entries_due, due_behind, due_at};

use crate::lines::first_word;
use txn_journal::Version;

/// A line by its number, from 1.
pub(crate) fn line_at<'a>(lines: &[&'a [u8]], number: usize) -> &'a [u8]
    ensures { result.now ≡ line_at (map (λ x. x.now) lines.now) number }
{
    match lines.get(number.saturating_sub(1)) {
        Some(line) => line,
        None => &[],
    }
}

/// The first word of the line before one.
fn word_before<'a>(lines: &[&'a [u8]], number: usize) -> &'a [u8]
    ensures { result.now ≡ word_before (map (λ x. x.now) lines.now) number }
{
    if number < 2 {
        return &[];
    }
    first_word(line_at(lines, number - 1))
}

/// The version of a bundle, by its first line.
fn version_of(lines: &[&[u8]]) -> Version
    ensures { result ≡ version_of (map (λ x. x.now) lines.now) }
{
    let first = line_at(lines, 1);
    if first == b"bundle 3".as_slice() {
        Version::Three
    } else if first == b"bundle 2".as_slice() {
        Version::Two
    } else {
        Version::One
    }
}

/// The lines that may come among the tables.
fn tables_due(version: Version) -> &'static str
    ensures { result.now ≡ tables_due version }
{
    match version {
        Version::One | Version::Two =>
            "table <name> <count> pk <columns> [uk <columns>].., row <table> <values>, channel <name> [preserve], or done",
        Version::Three =>
            "table <name> <count> pk <columns> [uk <columns>].. [hidden <count>], fk <name> <columns> <name> <key> [cascade], row <table> <values>, channel <name> [preserve], assume <assumption>, or done",
    }
}

/// The lines that may come behind a reference.
const REFERENCES_DUE: &str =
    "fk <name> <columns> <name> <key> [cascade], row <table> <values>, channel <name> [preserve], assume <assumption>, or done";

/// The lines that may come behind a row.
fn rows_due(version: Version) -> &'static str
    ensures { result.now ≡ rows_due version }
{
    match version {
        Version::One | Version::Two => "row <table> <values>, channel <name> [preserve], or done",
        Version::Three =>
            "row <table> <values>, channel <name> [preserve], assume <assumption>, or done",
    }
}

/// The lines that may come behind a journal.
fn channels_due(version: Version) -> &'static str
    ensures { result.now ≡ channels_due version }
{
    match version {
        Version::One | Version::Two => "channel <name> [preserve], or done",
        Version::Three => "channel <name> [preserve], assume <assumption>, or done",
    }
}

/// The line that may come behind that of the replica.
fn opening_due(version: Version) -> &'static str
    ensures { result.now ≡ opening_due version }
{
    match version {
        Version::One => tables_due(Version::One),
        Version::Two | Version::Three => "opening <set>",
    }
}

/// The line that may come behind that of a channel.
fn journal_due(version: Version) -> &'static str
    ensures { result.now ≡ journal_due version }
{
    match version {
        Version::One => "journal 1",
        Version::Two => "journal 2",
        Version::Three => "journal 3",
    }
}

/// The lines that may come between entries.
fn entries_due(version: Version) -> &'static str
    ensures { result.now ≡ entries_due version }
{
    match version {
        Version::One => "txn <gtid>, or close",
        Version::Two => "txn <gtid> <last_committed> <sequence_number>, or close",
        Version::Three =>
            "place <file> <position> <time> <server>, txn <gtid> <last_committed> <sequence_number>, or close",
    }
}

/// The lines that may come after a line that begins with this word.
#[tactic(auto, unfolding(crate::specs::Due::due_behind))]
fn due_behind(version: Version, word: &[u8]) -> &'static str
    ensures { result.now ≡ due_behind version word.now }
{
    if word == b"bundle".as_slice() {
        "replica <uuid>"
    } else if word == b"replica".as_slice() {
        opening_due(version)
    } else if word == b"opening".as_slice() || word == b"table".as_slice() {
        tables_due(version)
    } else if word == b"fk".as_slice() {
        REFERENCES_DUE
    } else if word == b"row".as_slice() {
        rows_due(version)
    } else if word == b"channel".as_slice() {
        journal_due(version)
    } else if word == b"journal".as_slice() {
        "previous <set>"
    } else if word == b"previous".as_slice() || word == b"end".as_slice() {
        entries_due(version)
    } else if word == b"place".as_slice() {
        "txn <gtid> <last_committed> <sequence_number>"
    } else if word == b"txn".as_slice()
        || word == b"ins".as_slice()
        || word == b"upd".as_slice()
        || word == b"del".as_slice()
    {
        "ins <table> <values>, upd <table> <values> | <values>, del <table> <values>, or end"
    } else if word == b"close".as_slice() {
        channels_due(version)
    } else if word == b"assume".as_slice() {
        "assume <assumption>, or done"
    } else if word == b"done".as_slice() {
        "nothing, for the bundle has ended"
    } else {
        "bundle 1, bundle 2, or bundle 3"
    }
}

/// The lines that are allowed in the place of this one.
pub(crate) fn due_at(lines: &[&[u8]], number: usize) -> &'static str
    ensures { result.now ≡ due_at (map (λ x. x.now) lines.now) number }
{
    due_behind(version_of(lines), word_before(lines, number))
}
