//! The faults of lines without content.
ghost use Rattle.std.specs.Prelude.{◌≡◌};
ghost use Rattle.binlog_text.specs.Tokens.{cut_at};
ghost use Rattle.binlog_entries.specs.Unread.{is_mariadb_head, is_mariadb_line, refusal_of_head, refusal_in, refusal_of, refusal_at};

use crate::bodies::Body;
use crate::fault::EntryRefusal;
use binlog_text::cut_at;

/// Whether the head of an event is one of MariaDB's own.
fn is_mariadb_head(text: &[u8]) -> bool
    ensures { result ≡ is_mariadb_head text.now }
{
    text.starts_with(b"GTID ")
        || text.starts_with(b"Gtid list ")
        || text.starts_with(b"Binlog checkpoint ")
}

/// Whether a line for the session is one of MariaDB's own.
fn is_mariadb_line(text: &[u8]) -> bool
    ensures { result ≡ is_mariadb_line text.now }
{
    text.starts_with(b"/*!100")
        || text.starts_with(b"/*M!")
        || text.starts_with(b"/*!40019 SET @@session.max_delayed_threads=")
}

fn refusal_of_head(text: &[u8]) -> EntryRefusal
    ensures { result ≡ refusal_of_head (cut_at 9 text.now) }
{
    let Some((_, rest)) = cut_at(text, b'\t') else {
        return EntryRefusal::Format;
    };
    if rest.starts_with(b"XA PREPARE ") {
        EntryRefusal::Xa
    } else if rest.starts_with(b"Anonymous_GTID") {
        EntryRefusal::Gtid
    } else if rest.starts_with(b"Table_map: ") {
        EntryRefusal::Table
    } else if is_mariadb_head(rest) {
        EntryRefusal::Mariadb
    } else {
        EntryRefusal::Format
    }
}

fn refusal_in(body: Body, text: &[u8]) -> EntryRefusal
    ensures { result ≡ refusal_in body text.now }
{
    match body {
        Body::Query if text.starts_with(b"XA ") => EntryRefusal::Xa,
        Body::Query | Body::Statement => EntryRefusal::Statement,
        Body::Between => refusal_of_head(text),
        Body::Rows if text.starts_with(b"### ") => EntryRefusal::Table,
        Body::Rows
        | Body::RowsDue
        | Body::Preamble
        | Body::Start
        | Body::PreviousGtids
        | Body::Gtid
        | Body::TableMap
        | Body::Xid
        | Body::Payload
        | Body::Done
        | Body::FileEnd
        | Body::Closed => EntryRefusal::Format,
    }
}

/// The fault of a line without content, in the body where it is.
pub fn refusal_of(body: Body, text: &[u8]) -> EntryRefusal
    ensures { result ≡ refusal_of body text.now }
{
    if body.is_row_due() {
        return EntryRefusal::Rows;
    }
    if is_mariadb_line(text) {
        return EntryRefusal::Mariadb;
    }
    refusal_in(body, text)
}

/// The fault of a line with content, of a kind that may not be in this body.
pub fn refusal_at(body: Body) -> EntryRefusal
    ensures { result ≡ refusal_at body }
{
    if body.is_row_due() {
        EntryRefusal::Rows
    } else {
        EntryRefusal::Format
    }
}
