//! The content of a line.

/// What a row event does to its rows.
#[derive(Clone, Copy, Debug, PartialEq, Eq)]
pub enum RowOperation {
    Insert,
    Update,
    Delete,
}

/// The kinds of events whose head is a line by itself.
#[derive(Clone, Copy, Debug, PartialEq, Eq)]
pub enum LogEvent {
    Start,
    PreviousGtids,
    Gtid,
    Query,
    /// The rows of a table, and whether the event ends its statement.
    Rows(RowOperation, bool),
    Xid,
    Payload,
    Rotate,
    Stop,
}

/// The lines that hold no name, number or value.
#[derive(Clone, Copy, Debug, PartialEq, Eq)]
pub enum Mark {
    /// `# at P`: an event begins here.
    Place,
    /// `### WHERE`: the row before the change follows.
    Where,
    /// `### SET`: the row after the change follows.
    Set,
    /// `BEGIN`, as a statement.
    Begin,
    /// `COMMIT`, as a statement.
    Commit,
    /// The end of a statement.
    Ended,
    /// The `COMMIT` of an Xid event.
    Committed,
    /// A savepoint.
    Savepoint,
    /// The GTIDs of a file have ended.
    Automatic,
    /// The previous set is empty.
    Empty,
    /// The log has ended.
    Closed,
    /// A comment on an event.
    Comment,
    /// What a session is set to.
    Setting,
    /// A line round the events of a file.
    Frame,
    /// `### Extra row info for partitioning: ..`: the partitions of a rows event.
    Extra,
    /// A statement of maintenance (FLUSH, ANALYZE, OPTIMIZE): it has no effect on rows.
    Maintenance,
}

/// A line of mysqlbinlog's text, with the bytes that it holds.
#[derive(Clone, Copy, Debug)]
pub enum LogLine<'a> {
    Mark(Mark),
    /// The head of an event.
    Head(LogEvent),
    /// The head of the event that maps a table, by the names of its database and its own.
    TableMap(&'a [u8], &'a [u8]),
    /// A column of the table that is mapped.
    Column(Column<'a>),
    /// The GTID of the transaction that follows.
    Gtid(&'a [u8]),
    /// GTIDs of the previous set, and whether more follow.
    Sources(&'a [u8], bool),
    /// A row of a table, by the names of its database and its own.
    Row(RowOperation, &'a [u8], &'a [u8]),
    /// The value of a column, counted from 1.
    Value(u64, &'a [u8]),
}

/// A column of a table that is mapped.
#[derive(Clone, Copy, Debug)]
pub struct Column<'a> {
    pub is_first: bool,
    /// Its name, if the log has it.
    pub name: Option<&'a [u8]>,
    /// Its type, with all that the line has of it.
    pub column_type: &'a [u8],
    pub is_last: bool,
}
