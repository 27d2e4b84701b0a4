//! Which lines are allowed where.
ghost use Rattle.std.specs.Prelude.{◌≡◌};
ghost use Rattle.binlog_text.specs.Contents.{content_of};
ghost use Rattle.binlog_entries.specs.Bodies.{kind_of_mark, kind_of, rows_body, body_of, is_row_due, row_behind, may_end, has_comments, takes, behind, next_body};

use binlog_text::{LogEvent, LogLine, Mark};

/// What the next line is a part of.
#[derive(Clone, Copy, Debug, PartialEq, Eq)]
pub enum Body {
    /// The lines before the first event.
    Preamble,
    /// An event begins.
    Between,
    Start,
    PreviousGtids,
    Gtid,
    /// A statement, before its text.
    Query,
    /// A statement, after its text.
    Statement,
    TableMap,
    Rows,
    /// A rows event that owes a row.
    RowsDue,
    Xid,
    Payload,
    /// An event that has no more lines, but for comments.
    Done,
    /// The lines after the last event of a file.
    FileEnd,
    /// The lines after the last file.
    Closed,
}

/// The kinds of lines, as far as they determine where a line is allowed.
#[derive(Clone, Copy, Debug, PartialEq, Eq)]
pub enum BodyKind {
    Place,
    Comment,
    Setting,
    Frame,
    Head,
    TableMap,
    Column,
    Gtid,
    Sources,
    Row,
    Statement,
    Ended,
    Committed,
    Automatic,
    Closed,
    Extra,
}

fn kind_of_mark(mark: Mark) -> BodyKind
    ensures { result ≡ kind_of_mark mark }
{
    match mark {
        Mark::Place => BodyKind::Place,
        Mark::Where => BodyKind::Row,
        Mark::Set => BodyKind::Row,
        Mark::Begin => BodyKind::Statement,
        Mark::Commit => BodyKind::Statement,
        Mark::Ended => BodyKind::Ended,
        Mark::Committed => BodyKind::Committed,
        Mark::Savepoint => BodyKind::Statement,
        Mark::Automatic => BodyKind::Automatic,
        Mark::Empty => BodyKind::Sources,
        Mark::Closed => BodyKind::Closed,
        Mark::Comment => BodyKind::Comment,
        Mark::Setting => BodyKind::Setting,
        Mark::Frame => BodyKind::Frame,
        Mark::Extra => BodyKind::Extra,
        Mark::Maintenance => BodyKind::Statement,
    }
}

/// The kind of a line.
pub fn kind_of(line: &LogLine<'_>) -> BodyKind
    ensures { result ≡ kind_of (content_of line.now) }
{
    match line {
        LogLine::Mark(mark) => kind_of_mark(*mark),
        LogLine::Head(_) => BodyKind::Head,
        LogLine::TableMap(_, _) => BodyKind::TableMap,
        LogLine::Column(_) => BodyKind::Column,
        LogLine::Gtid(_) => BodyKind::Gtid,
        LogLine::Sources(_, _) => BodyKind::Sources,
        LogLine::Row(_, _, _) => BodyKind::Row,
        LogLine::Value(_, _) => BodyKind::Row,
    }
}

/// The body of a rows event that ends its statement, or doesn't.
fn rows_body(ends: bool) -> Body
    ensures { result ≡ rows_body ends }
{
    if ends { Body::RowsDue } else { Body::Done }
}

/// The body of an event.
fn body_of(event: LogEvent) -> Body
    ensures { result ≡ body_of event }
{
    match event {
        LogEvent::Start => Body::Start,
        LogEvent::PreviousGtids => Body::PreviousGtids,
        LogEvent::Gtid => Body::Gtid,
        LogEvent::Query => Body::Query,
        LogEvent::Rows(_, ends) => rows_body(ends),
        LogEvent::Xid => Body::Xid,
        LogEvent::Payload => Body::Payload,
        LogEvent::Rotate => Body::Done,
        LogEvent::Stop => Body::Done,
    }
}

impl Body {
    /// Whether a row is owed.
    pub fn is_row_due(self) -> bool
        ensures { result ≡ is_row_due self }
    {
        matches!(self, Body::RowsDue)
    }

    /// Whether the lines of a body may end here.
    fn may_end(self) -> bool
        ensures { result ≡ may_end self }
    {
        match self {
            Body::Query | Body::Statement | Body::RowsDue | Body::Xid | Body::Closed => false,
            Body::Preamble
            | Body::Between
            | Body::Start
            | Body::PreviousGtids
            | Body::Gtid
            | Body::TableMap
            | Body::Rows
            | Body::Payload
            | Body::Done
            | Body::FileEnd => true,
        }
    }

    /// Whether a comment is allowed here.
    fn has_comments(self) -> bool
        ensures { result ≡ has_comments self }
    {
        matches!(
            self,
            Body::Preamble | Body::Start | Body::Gtid | Body::TableMap | Body::Payload | Body::Done
        )
    }

    /// Whether a line of this kind is allowed here.
    pub fn takes(self, kind: BodyKind) -> bool
        ensures { result ≡ takes self kind }
    {
        match kind {
            BodyKind::Place => self.may_end(),
            BodyKind::Comment => self.has_comments(),
            BodyKind::Setting => matches!(self, Body::Gtid | Body::Query),
            BodyKind::Frame => matches!(
                self,
                Body::Preamble | Body::Start | Body::FileEnd | Body::Closed
            ),
            BodyKind::Head => matches!(self, Body::Between),
            BodyKind::TableMap => matches!(self, Body::Between),
            BodyKind::Column => matches!(self, Body::TableMap),
            BodyKind::Gtid => matches!(self, Body::Gtid),
            BodyKind::Sources => matches!(self, Body::PreviousGtids),
            BodyKind::Row => matches!(self, Body::Rows | Body::RowsDue),
            BodyKind::Extra => matches!(self, Body::Rows | Body::RowsDue),
            BodyKind::Statement => matches!(self, Body::Query),
            BodyKind::Ended => matches!(self, Body::Statement),
            BodyKind::Committed => matches!(self, Body::Xid),
            BodyKind::Automatic => self.may_end(),
            BodyKind::Closed => matches!(self, Body::FileEnd),
        }
    }

    /// What the line after a row's is a part of.
    fn row_behind(self) -> Body
        ensures { result ≡ row_behind self }
    {
        match self {
            Body::RowsDue => Body::Rows,
            _ => self,
        }
    }

    /// What the line after one of this kind is a part of, if that is no head.
    fn behind(self, kind: BodyKind) -> Body
        ensures { result ≡ behind self kind }
    {
        match kind {
            BodyKind::Place => Body::Between,
            BodyKind::TableMap => Body::TableMap,
            BodyKind::Statement => Body::Statement,
            BodyKind::Ended => Body::Done,
            BodyKind::Committed => Body::Done,
            BodyKind::Automatic => Body::FileEnd,
            BodyKind::Closed => Body::Closed,
            BodyKind::Row => self.row_behind(),
            BodyKind::Comment
            | BodyKind::Setting
            | BodyKind::Frame
            | BodyKind::Head
            | BodyKind::Column
            | BodyKind::Gtid
            | BodyKind::Sources
            | BodyKind::Extra => self,
        }
    }
}

/// What the line after one is a part of.
pub fn next_body(body: Body, line: &LogLine<'_>) -> Body
    ensures { result ≡ next_body body (content_of line.now) }
{
    let kind = kind_of(line);
    match line {
        LogLine::Head(event) => body_of(*event),
        LogLine::Mark(_)
        | LogLine::TableMap(_, _)
        | LogLine::Column(_)
        | LogLine::Gtid(_)
        | LogLine::Sources(_, _)
        | LogLine::Row(_, _, _)
        | LogLine::Value(_, _) => body.behind(kind),
    }
}
