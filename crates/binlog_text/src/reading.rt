//! Lines out of bytes.
ghost use Rattle.std.specs.Prelude.{◌≡◌, ℕ, List, Some, IfSome, option_map};
ghost use Rattle.std.specs.List.{list_all};
ghost use Rattle.row_images.specs.Values.{is_lower_digit};
ghost use Rattle.binlog_text.specs.Tokens.{last_cut};
ghost use Rattle.binlog_text.specs.Lines.{Content, IsLine, is_comment, is_source, is_setting, is_savepoint, is_frame, ends_statement, begins_setting, quotes_then, event_text, begins_with_digit, begins};
ghost use Rattle.binlog_text.specs.Reading.{table_at, row_at, assignment_at, row_line, is_last_at, name_at, column_at, sources, sources_in, comment_line, table_map_at, rows_event, other_event, event_of, content_at, head_line, gtid_at, plain_line, line_of};
ghost use Rattle.binlog_text.specs.Contents.{content_of};

use crate::lines::{Column, LogEvent, LogLine, Mark, RowOperation};
use crate::maintenance::is_maintenance;
use crate::tokens::{after_prefix, cut_at};
use row_images::count;

/// A table by the names of its database and its own, and what follows it.
fn table(text: &[u8]) -> Option<(&[u8], &[u8], &[u8])>
    ensures { option_map (λ r. (r.0.now, r.1.now, r.2.now)) result ≡ table_at text.now }
{
    let Some(rest) = after_prefix(text, b"`") else {
        return None;
    };
    let Some((database, rest)) = cut_at(rest, b'`') else {
        return None;
    };
    let Some(rest) = after_prefix(rest, b".`") else {
        return None;
    };
    let Some((table, rest)) = cut_at(rest, b'`') else {
        return None;
    };
    Some((database, table, rest))
}

fn row(operation: RowOperation, text: &[u8]) -> Option<LogLine<'_>>
    ensures { option_map content_of result ≡ row_at operation text.now }
{
    let Some((database, table, rest)) = table(text) else {
        return None;
    };
    if !rest.is_empty() {
        return None;
    }
    Some(LogLine::Row(operation, database, table))
}

fn assignment_line(text: &[u8]) -> Option<LogLine<'_>>
    ensures { option_map content_of result ≡ assignment_at text.now }
{
    let Some((column, value)) = cut_at(text, b'=') else {
        return None;
    };
    let Some(column) = count(column) else {
        return None;
    };
    Some(LogLine::Value(column, value))
}

/// The line after `### `.
fn row_line(text: &[u8]) -> Option<LogLine<'_>>
    ensures { option_map content_of result ≡ row_line text.now }
{
    if let Some(rest) = after_prefix(text, b"  @") {
        return assignment_line(rest);
    }
    if let Some(rest) = after_prefix(text, b"INSERT INTO ") {
        return row(RowOperation::Insert, rest);
    }
    if let Some(rest) = after_prefix(text, b"UPDATE ") {
        return row(RowOperation::Update, rest);
    }
    if let Some(rest) = after_prefix(text, b"DELETE FROM ") {
        return row(RowOperation::Delete, rest);
    }
    if text == b"WHERE".as_slice() {
        return Some(LogLine::Mark(Mark::Where));
    }
    if text == b"SET".as_slice() {
        return Some(LogLine::Mark(Mark::Set));
    }
    if begins(text, b"Extra row info for partitioning: ") {
        return Some(LogLine::Mark(Mark::Extra));
    }
    None
}

fn is_last(byte: u8) -> Option<bool>
    ensures { result ≡ is_last_at byte }
{
    match byte {
        b')' => Some(true),
        b',' => Some(false),
        _ => None,
    }
}

/// The last byte, and what comes before it.
fn last_cut(text: &[u8]) -> Option<(&[u8], u8)>
    ensures { option_map (λ r. (r.0.now, r.1)) result ≡ last_cut text.now }
{
    match text.split_last() {
        Some((last, front)) => Some((front, *last)),
        None => None,
    }
}

/// A name up to its backquote, and the type after it.
fn name(text: &[u8]) -> Option<(&[u8], &[u8])>
    ensures { option_map (λ r. (r.0.now, r.1.now)) result ≡ name_at text.now }
{
    let Some((name, rest)) = cut_at(text, b'`') else {
        return None;
    };
    let Some(rest) = after_prefix(rest, b" ") else {
        return None;
    };
    Some((name, rest))
}

fn column(is_first: bool, text: &[u8]) -> Option<LogLine<'_>>
    ensures { option_map content_of result ≡ column_at is_first text.now }
{
    let Some((front, end)) = last_cut(text) else {
        return None;
    };
    let Some(is_last) = is_last(end) else {
        return None;
    };
    let Some(rest) = after_prefix(front, b"`") else {
        return Some(LogLine::Column(Column {
            is_first,
            name: None,
            column_type: front,
            is_last,
        }));
    };
    let Some((name, column_type)) = name(rest) else {
        return None;
    };
    Some(LogLine::Column(Column {
        is_first,
        name: Some(name),
        column_type,
        is_last,
    }))
}

fn are_lower_digits(text: &[u8]) -> bool
    ensures { result ≡ list_all is_lower_digit text.now }
{
    text.iter().all(|b| (b'0' <= *b && *b <= b'9') || (b'a' <= *b && *b <= b'f'))
}

fn is_source(text: &[u8]) -> bool
    ensures { result ≡ is_source text.now }
{
    match cut_at(text, b'-') {
        Some((digits, _)) => digits.len() == 8 && are_lower_digits(digits),
        None => false,
    }
}

fn sources(text: &[u8], more: bool) -> Option<LogLine<'_>>
    ensures { option_map content_of result ≡ sources text.now more }
{
    if is_source(text) {
        Some(LogLine::Sources(text, more))
    } else {
        None
    }
}

fn sources_in(text: &[u8]) -> Option<LogLine<'_>>
    ensures { option_map content_of result ≡ sources_in text.now (last_cut text.now) }
{
    match last_cut(text) {
        Some((front, b',')) => sources(front, true),
        Some(_) => sources(text, false),
        None => None,
    }
}

pub fn begins(text: &[u8], front: &[u8]) -> bool
    ensures { result ≡ begins front.now text.now }
{
    after_prefix(text, front).is_some()
}

fn is_comment(text: &[u8]) -> bool
    ensures { result ≡ is_comment text.now }
{
    begins(text, b"original_commit_timestamp=")
        || begins(text, b"immediate_commit_timestamp=")
        || begins(text, b"has_generated_invisible_primary_key=")
        || begins(text, b"Primary Key(")
        || begins(text, b"Start of compressed events.")
        || begins(text, b"End of compressed events.")
        || begins(
            text,
            b"Warning: this binlog is either in use or was not closed properly.",
        )
        || begins(text, b"The proper term is pseudo_replica_mode")
        || begins(text, b"to make the statement usable on server versions")
}

/// The line after `# `.
fn comment_line(text: &[u8]) -> Option<LogLine<'_>>
    ensures { option_map content_of result ≡ comment_line text.now }
{
    if begins(text, b"at ") {
        return Some(LogLine::Mark(Mark::Place));
    }
    if let Some(rest) = after_prefix(text, b"Columns(") {
        return column(true, rest);
    }
    if let Some(rest) = after_prefix(text, b"        ") {
        return column(false, rest);
    }
    if is_comment(text) {
        return Some(LogLine::Mark(Mark::Comment));
    }
    if text == b"[empty]".as_slice() {
        return Some(LogLine::Mark(Mark::Empty));
    }
    if text == b"End of log file".as_slice() {
        return Some(LogLine::Mark(Mark::Closed));
    }
    sources_in(text)
}

fn table_map(text: &[u8]) -> Option<LogLine<'_>>
    ensures { option_map content_of result ≡ table_map_at text.now }
{
    let Some((database, table, rest)) = table(text) else {
        return None;
    };
    let Some(digits) = after_prefix(rest, b" mapped to number ") else {
        return None;
    };
    if count(digits).is_none() {
        return None;
    }
    Some(LogLine::TableMap(database, table))
}

/// Whether the flags after a table's number say that the event ends its statement.
fn ends_statement(text: &[u8]) -> bool
    ensures { result ≡ ends_statement text.now }
{
    match cut_at(text, b' ') {
        Some((_, flags)) => begins(flags, b"flags: STMT_END_F"),
        None => false,
    }
}

/// A rows event, by what its head has after `table id `.
fn rows_event(operation: RowOperation, text: &[u8]) -> Option<LogEvent>
    ensures { result ≡ rows_event operation text.now }
{
    Some(LogEvent::Rows(operation, ends_statement(text)))
}

/// The kind of an event that holds no rows, by its head.
fn other_event(text: &[u8]) -> Option<LogEvent>
    ensures { result ≡ other_event text.now }
{
    if begins(text, b"Xid = ") {
        Some(LogEvent::Xid)
    } else if begins(text, b"Transaction_Payload\t") {
        Some(LogEvent::Payload)
    } else if begins(text, b"Previous-GTIDs") {
        Some(LogEvent::PreviousGtids)
    } else if begins(text, b"Start: binlog v 4, ") {
        Some(LogEvent::Start)
    } else if begins(text, b"Rotate to ") {
        Some(LogEvent::Rotate)
    } else if begins(text, b"Stop") {
        Some(LogEvent::Stop)
    } else {
        None
    }
}

/// The kind of an event, by its head.
fn event(text: &[u8]) -> Option<LogEvent>
    ensures { result ≡ event_of text.now }
{
    if begins(text, b"Query\t") {
        return Some(LogEvent::Query);
    }
    if begins(text, b"GTID\t") {
        return Some(LogEvent::Gtid);
    }
    if let Some(rest) = after_prefix(text, b"Write_rows: table id ") {
        return rows_event(RowOperation::Insert, rest);
    }
    if let Some(rest) = after_prefix(text, b"Update_rows: table id ") {
        return rows_event(RowOperation::Update, rest);
    }
    if let Some(rest) = after_prefix(text, b"Delete_rows: table id ") {
        return rows_event(RowOperation::Delete, rest);
    }
    other_event(text)
}

fn content_line(text: &[u8]) -> Option<LogLine<'_>>
    ensures { option_map content_of result ≡ content_at text.now }
{
    if let Some(rest) = after_prefix(text, b"Table_map: ") {
        return table_map(rest);
    }
    match event(text) {
        Some(event) => Some(LogLine::Head(event)),
        None => None,
    }
}

fn begins_with_digit(text: &[u8]) -> bool
    ensures { result ≡ begins_with_digit text.now }
{
    match text {
        [first, ..] => first.is_ascii_digit(),
        [] => false,
    }
}

/// The head of an event, after `#`.
fn head_line(text: &[u8]) -> Option<LogLine<'_>>
    ensures { option_map content_of result ≡ head_line text.now }
{
    let Some((stamp, rest)) = cut_at(text, b'\t') else {
        return None;
    };
    if !begins_with_digit(stamp) {
        return None;
    }
    content_line(rest)
}

fn quotes_then(text: Option<&[u8]>, rest: &[u8]) -> bool
    ensures { result ≡ quotes_then rest.now (option_map (λ t. t.now) text.entry) }
{
    let Some(text) = text else {
        return false;
    };
    match cut_at(text, b'`') {
        Some((_, behind)) => behind == rest,
        None => false,
    }
}

fn begins_setting(text: &[u8]) -> bool
    ensures { result ≡ begins_setting text.now }
{
    begins(text, b"SET TIMESTAMP=")
        || begins(text, b"SET @@session.")
        || begins(text, b"/*!80001 SET @@session.")
        || begins(text, b"/*!80011 SET @@session.")
        || begins(text, b"/*!80013 SET @@session.")
        || begins(text, b"/*!80014 SET @@session.")
        || begins(text, b"/*!80016 SET @@session.")
        || begins(
            text,
            b"/*!50718 SET TRANSACTION ISOLATION LEVEL READ COMMITTED",
        )
        || begins(text, b"/*!\\C ")
}

fn is_setting(text: &[u8]) -> bool
    ensures { result ≡ is_setting text.now }
{
    (begins_setting(text) && text.ends_with(b"/*!*/;"))
        || quotes_then(after_prefix(text, b"use `"), b"/*!*/;")
}

fn is_savepoint(text: &[u8]) -> bool
    ensures { result ≡ is_savepoint text.now }
{
    quotes_then(after_prefix(text, b"SAVEPOINT `"), b"")
}

fn is_frame(text: &[u8]) -> bool
    ensures { result ≡ is_frame text.now }
{
    text == b"DELIMITER /*!*/;".as_slice()
        || text == b"DELIMITER ;".as_slice()
        || text == b"ROLLBACK/*!*/;".as_slice()
        || text == b"/*!50530 SET @@SESSION.PSEUDO_SLAVE_MODE=1*/;".as_slice()
        || text == b"/*!50530 SET @@SESSION.PSEUDO_SLAVE_MODE=0*/;".as_slice()
        || text
            == b"/*!50003 SET @OLD_COMPLETION_TYPE=@@COMPLETION_TYPE,COMPLETION_TYPE=0*/;".as_slice()
        || text == b"/*!50003 SET COMPLETION_TYPE=@OLD_COMPLETION_TYPE*/;".as_slice()
}

fn gtid(text: &[u8]) -> Option<LogLine<'_>>
    ensures { option_map content_of result ≡ gtid_at text.now }
{
    let Some((gtid, rest)) = cut_at(text, b'\'') else {
        return None;
    };
    if rest == b"/*!*/;".as_slice() {
        return Some(LogLine::Gtid(gtid));
    }
    if gtid == b"AUTOMATIC".as_slice() && rest == b" /* added by mysqlbinlog */ /*!*/;".as_slice() {
        return Some(LogLine::Mark(Mark::Automatic));
    }
    None
}

/// A line that no `#` begins.
fn plain_line(text: &[u8]) -> Option<LogLine<'_>>
    ensures { option_map content_of result ≡ plain_line text.now }
{
    if let Some(rest) = after_prefix(text, b"SET @@SESSION.GTID_NEXT= '") {
        return gtid(rest);
    }
    if text == b"BEGIN".as_slice() {
        return Some(LogLine::Mark(Mark::Begin));
    }
    if text == b"COMMIT".as_slice() {
        return Some(LogLine::Mark(Mark::Commit));
    }
    if text == b"/*!*/;".as_slice() {
        return Some(LogLine::Mark(Mark::Ended));
    }
    if text == b"COMMIT/*!*/;".as_slice() {
        return Some(LogLine::Mark(Mark::Committed));
    }
    if is_setting(text) {
        return Some(LogLine::Mark(Mark::Setting));
    }
    if is_savepoint(text) {
        return Some(LogLine::Mark(Mark::Savepoint));
    }
    if is_frame(text) {
        return Some(LogLine::Mark(Mark::Frame));
    }
    if is_maintenance(text) {
        return Some(LogLine::Mark(Mark::Maintenance));
    }
    None
}

fn line_of(text: &[u8]) -> Option<LogLine<'_>>
    ensures { option_map content_of result ≡ line_of text.now }
{
    if let Some(rest) = after_prefix(text, b"### ") {
        return row_line(rest);
    }
    if let Some(rest) = after_prefix(text, b"# ") {
        return comment_line(rest);
    }
    if let Some(rest) = after_prefix(text, b"#") {
        return head_line(rest);
    }
    plain_line(text)
}

/// The content of a line. A line that is none of mysqlbinlog's, or that is not known here, has none.
pub fn read_line(text: &[u8]) -> Option<LogLine<'_>>
    ensures exact { option_map content_of result ≡ line_of text.now }
    // The result is the content that the grammar gives the line.
    ensures found { IfSome result (λ l. IsLine (content_of l) text.now) }
    // The content that the grammar gives a line is the result.
    ensures only { (l : Content) → IsLine l text.now → option_map content_of result ≡ Some l }
{
    line_of(text)
}
