//! Entries as far as the lines have come.
ghost use Rattle.std.specs.Prelude.{◌≡◌, true, length, IfOk, option_map};
ghost use Rattle.binlog_entries.specs.Machine.{Finds};

use crate::bodies::{Body, kind_of, next_body};
use crate::fault::{EntryFault, EntryRefusal};
use crate::parts::{after_due, before_due, change_of, is_whole, parse_value, type_at};
use crate::tables::{Mapped, Tables};
use crate::unread::{refusal_at, refusal_of};
use binlog_text::{
    Column, ColumnType, LogEvent, LogLine, Mark, RowOperation, collation_in, compares_bytes,
    parse_type, read_line,
};
use gtid_set::GtidSet;
use journal_words::{gtid_word, set_word};
use log_transactions::{LogTransactions, LoggedTransactions, table_name};
use rows::{Name, Value};
use std::alloc::{AllocError, Global};
use std::mem;

/// How much of a row has come.
#[derive(Clone, Copy, Debug, PartialEq, Eq)]
pub enum RowPart {
    Head,
    /// Values of the row before the change.
    Before,
    /// Values of the row after it.
    After,
}

/// The entries of a binary log, as far as its lines have come.
#[derive(Drop)]
pub struct LogDraft {
    body: Body,
    /// Rows of the statement have come: the next table is another statement's.
    is_over: bool,
    /// The table whose columns come.
    mapping: Option<Mapped>,
    /// Those that the statement has mapped before.
    tables: Tables,
    /// The table of the row that is open.
    row: Option<Name>,
    operation: RowOperation,
    part: RowPart,
    before: Vec<Value>,
    after: Vec<Value>,
    /// What the lines told so far.
    log: LogTransactions,
}

impl LogDraft {
    ghost use Rattle.std.specs.Prelude.{[], None, Ok, Err, OnOk};
    ghost use Rattle.binlog_text.specs.Contents.{content_of, column_content};
    ghost use Rattle.binlog_entries.specs.Machine.{Takes, TakesOr, TakesOrMemory, IsGtidFault, IsSourcesFault, IsMarkFault, IsContentFault, IsStepFault, IsLineFault, finish_row, begin_row, row_line, where_line, set_line, next_value, value_line, place_line, table_line, add_column, note_varied, column_line, gtid_line, sources_line, head_line, mark_line, take_content, step, judge, start, is_closed};
    ghost use Rattle.binlog_entries.specs.Drafts.{standing};

    /// Before the first line. What comes before the log is in the opening set.
    pub fn start(alloc: Global, opening: GtidSet) -> LogDraft
        ensures { standing result ≡ start opening }
    {
        LogDraft {
            body: Body::Preamble,
            is_over: false,
            mapping: None,
            tables: Tables::new(alloc),
            row: None,
            operation: RowOperation::Insert,
            part: RowPart::Head,
            before: Vec::new(alloc),
            after: Vec::new(alloc),
            log: LogTransactions::start(alloc, opening),
        }
    }

    /// Tells the row that is open, if it is whole.
    #[tactic(auto, unfolding(crate::specs::Machine::finish_row))]
    fn finish(&mut self, alloc: Global) -> Result<(), EntryFault>
        ensures { TakesOrMemory result (finish_row (standing self.old)) (standing self.new) }
    {
        let Some(table) = self.row.take() else {
            return Ok(());
        };
        let Some(mapped) = self.tables.find(&table) else {
            return Err(EntryFault::Refused(EntryRefusal::Table));
        };
        if !is_whole(
            self.operation,
            self.part,
            self.before.len(),
            self.after.len(),
            mapped.len(),
        ) {
            return Err(EntryFault::Refused(EntryRefusal::Columns));
        }
        let before = mem::replace(&mut self.before, Vec::new(alloc));
        let after = mem::replace(&mut self.after, Vec::new(alloc));
        let change = change_of(self.operation, table, before, after)?;
        self.log.take_row(change)?;
        Ok(())
    }

    #[tactic(auto, unfolding(crate::specs::Machine::where_line))]
    fn where_line(&mut self) -> Result<(), EntryFault>
        ensures { Takes result (where_line (standing self.old)) (standing self.new) }
    {
        if self.row.is_none() || !before_due(self.operation, self.part) {
            return Err(EntryFault::Refused(EntryRefusal::Columns));
        }
        self.part = RowPart::Before;
        Ok(())
    }

    #[tactic(auto, unfolding(crate::specs::Machine::set_line))]
    fn set_line(&mut self) -> Result<(), EntryFault>
        ensures { Takes result (set_line (standing self.old)) (standing self.new) }
    {
        if self.row.is_none() || !after_due(self.operation, self.part) {
            return Err(EntryFault::Refused(EntryRefusal::Columns));
        }
        self.part = RowPart::After;
        Ok(())
    }

    /// The value of the next column of an image that has this many.
    fn next_value(
        &self,
        alloc: Global,
        place: usize,
        n: u64,
        text: &[u8],
    ) -> Result<Value, EntryFault>
        ensures { Finds (λ v. v) result (next_value (standing self.now) place n text.now) }
    {
        if n == 0 || n - 1 != place as u64 {
            return Err(EntryFault::Refused(EntryRefusal::Columns));
        }
        parse_value(alloc, type_at(&self.row, &self.tables, place), text)
    }

    #[tactic(auto, unfolding(crate::specs::Machine::value_line))]
    fn value_line(&mut self, alloc: Global, n: u64, text: &[u8]) -> Result<(), EntryFault>
        ensures { TakesOrMemory result (value_line (standing self.old) n text.now) (standing self.new) }
    {
        match self.part {
            RowPart::Head => Err(EntryFault::Refused(EntryRefusal::Columns)),
            RowPart::Before => {
                let value = self.next_value(alloc, self.before.len(), n, text)?;
                self.before.push(value)?;
                Ok(())
            }
            RowPart::After => {
                let value = self.next_value(alloc, self.after.len(), n, text)?;
                self.after.push(value)?;
                Ok(())
            }
        }
    }

    #[tactic(auto, unfolding(crate::specs::Machine::place_line))]
    fn place_line(&mut self, alloc: Global) -> Result<(), EntryFault>
        ensures { TakesOrMemory result (place_line (standing self.old)) (standing self.new) }
    {
        self.finish(alloc)?;
        let Some(table) = self.mapping.take() else {
            return Ok(());
        };
        self.log.take_columns(table.len())?;
        self.tables.push(table)?;
        Ok(())
    }

    #[tactic(auto, unfolding(crate::specs::Machine::gtid_line))]
    fn gtid_line(&mut self, alloc: Global, word: &[u8]) -> Result<(), EntryFault>
        ensures { TakesOr (IsGtidFault (standing self.old) word.now) result (gtid_line (standing self.old) word.now) (standing self.new) }
    {
        let Some(gtid) = gtid_word(alloc, word)? else {
            return Err(EntryFault::Refused(EntryRefusal::Gtid));
        };
        self.log.name(&gtid)?;
        Ok(())
    }

    #[tactic(auto, unfolding(crate::specs::Machine::sources_line))]
    fn sources_line(&mut self, alloc: Global, word: &[u8]) -> Result<(), EntryFault>
        ensures { TakesOr (IsSourcesFault (standing self.old) word.now) result (sources_line (standing self.old) word.now) (standing self.new) }
    {
        let Some(gtids) = set_word(alloc, word)? else {
            return Err(EntryFault::Refused(EntryRefusal::Gtid));
        };
        self.log.precede(alloc, &gtids)?;
        Ok(())
    }

    #[tactic(auto, unfolding(crate::specs::Machine::head_line))]
    fn head_line(&mut self, event: LogEvent) -> Result<(), EntryFault>
        ensures { Takes result (head_line (standing self.old) event) (standing self.new) }
    {
        match event {
            LogEvent::Rows(_, ends) => {
                self.log.take_rows(ends)?;
                self.is_over = true;
                Ok(())
            }
            LogEvent::PreviousGtids => {
                self.log.open_file();
                Ok(())
            }
            LogEvent::Start
            | LogEvent::Gtid
            | LogEvent::Query
            | LogEvent::Xid
            | LogEvent::Payload
            | LogEvent::Rotate
            | LogEvent::Stop => Ok(()),
        }
    }

    fn begin_row(
        &mut self,
        alloc: Global,
        operation: RowOperation,
        database: &[u8],
        table: &[u8],
    ) -> Result<(), EntryFault>
        ensures { TakesOrMemory result (begin_row (standing self.old) operation database.now table.now) (standing self.new) }
    {
        let Some(name) = table_name(alloc, database, table)? else {
            return Err(EntryFault::Refused(EntryRefusal::Table));
        };
        if !self.log.has_table(&name) {
            return Err(EntryFault::Refused(EntryRefusal::Table));
        }
        self.row = Some(name);
        self.operation = operation;
        self.part = RowPart::Head;
        Ok(())
    }

    #[tactic(auto, unfolding(crate::specs::Machine::row_line))]
    fn row_line(
        &mut self,
        alloc: Global,
        operation: RowOperation,
        database: &[u8],
        table: &[u8],
    ) -> Result<(), EntryFault>
        ensures { TakesOrMemory result (row_line (standing self.old) operation database.now table.now) (standing self.new) }
    {
        self.finish(alloc)?;
        self.begin_row(alloc, operation, database, table)
    }

    #[tactic(auto, unfolding(crate::specs::Machine::table_line))]
    fn table_line(&mut self, alloc: Global, database: &[u8], table: &[u8]) -> Result<(), EntryFault>
        ensures { TakesOrMemory result (table_line (standing self.old) database.now table.now) (standing self.new) }
    {
        self.log.map_table(alloc, database, table)?;
        let Some(name) = self.log.mapped() else {
            return Err(EntryFault::Refused(EntryRefusal::Table));
        };
        let name = name.clone()?;
        self.mapping = Some(Mapped::new(alloc, name));
        if self.is_over {
            self.tables = Tables::new(alloc);
        }
        self.is_over = false;
        Ok(())
    }

    fn add_column(&mut self, is_first: bool, column: ColumnType) -> Result<(), EntryFault>
        ensures { TakesOrMemory result (add_column (standing self.old) (standing self.old).mapping is_first column) (standing self.new) }
    {
        match &mut self.mapping {
            None => Err(EntryFault::Refused(EntryRefusal::Format)),
            Some(table) => {
                if is_first != (table.len() == 0) {
                    return Err(EntryFault::Refused(EntryRefusal::Format));
                }
                table.add(column)?;
                Ok(())
            }
        }
    }

    /// Tells the next column of the mapped table, with its collation, unless the server compares its values by their bytes.
    fn note(&mut self, alloc: Global, text: &[u8]) -> Result<(), AllocError>
        ensures { OnOk result (standing self.new ≡ note_varied (standing self.old) text.now) }
    {
        let Some(table) = &self.mapping else {
            return Ok(());
        };
        if compares_bytes(text) {
            return Ok(());
        }
        let name = table.name().clone()?;
        self.log.vary(alloc, name, table.len(), collation_in(text))
    }

    #[tactic(auto, unfolding(crate::specs::Machine::column_line))]
    fn column_line(&mut self, alloc: Global, column: &Column<'_>) -> Result<(), EntryFault>
        ensures { TakesOrMemory result (column_line (standing self.old) (column_content column.now)) (standing self.new) }
    {
        let Some(named) = parse_type(column.column_type) else {
            return Err(EntryFault::Refused(EntryRefusal::Type));
        };
        self.note(alloc, column.column_type)?;
        self.add_column(column.is_first, named)
    }

    fn mark_line(&mut self, alloc: Global, mark: Mark) -> Result<(), EntryFault>
        ensures { TakesOr (IsMarkFault mark) result (mark_line (standing self.old) mark) (standing self.new) }
    {
        match mark {
            Mark::Place | Mark::Automatic => self.place_line(alloc),
            Mark::Where => self.where_line(),
            Mark::Set => self.set_line(),
            Mark::Begin => Ok(self.log.begin()?),
            Mark::Commit | Mark::Committed => Ok(self.log.commit(alloc)?),
            Mark::Maintenance => Ok(self.log.maintain(alloc)?),
            Mark::Savepoint => Ok(self.log.take_savepoint()?),
            Mark::Closed => Ok(self.log.end_file()?),
            Mark::Ended | Mark::Empty | Mark::Comment | Mark::Setting | Mark::Frame | Mark::Extra =>
                Ok(()),
        }
    }

    /// Takes the content of a line.
    fn take_content(&mut self, alloc: Global, line: &LogLine<'_>) -> Result<(), EntryFault>
        ensures { TakesOr (IsContentFault (standing self.old) (content_of line.now)) result (take_content (standing self.old) (content_of line.now)) (standing self.new) }
    {
        match line {
            LogLine::Mark(mark) => self.mark_line(alloc, *mark),
            LogLine::Head(event) => self.head_line(*event),
            LogLine::TableMap(database, table) => self.table_line(alloc, database, table),
            LogLine::Column(column) => self.column_line(alloc, column),
            LogLine::Gtid(gtid) => self.gtid_line(alloc, gtid),
            LogLine::Sources(sources, _) => self.sources_line(alloc, sources),
            LogLine::Row(operation, database, table) => {
                self.row_line(alloc, *operation, database, table)
            }
            LogLine::Value(n, text) => self.value_line(alloc, *n, text),
        }
    }

    #[tactic(auto, unfolding(crate::specs::Machine::step))]
    fn step(&mut self, alloc: Global, line: &LogLine<'_>) -> Result<(), EntryFault>
        ensures { TakesOr (IsStepFault (standing self.old) (content_of line.now)) result (step (standing self.old) (content_of line.now)) (standing self.new) }
    {
        if !self.body.takes(kind_of(line)) {
            return Err(EntryFault::Refused(refusal_at(self.body)));
        }
        self.take_content(alloc, line)?;
        self.body = next_body(self.body, line);
        Ok(())
    }

    /// Takes the next line, or returns its fault. After an error no more lines are to come.
    #[tactic(auto, unfolding(crate::specs::Machine::judge))]
    pub fn take_line(&mut self, alloc: Global, text: &[u8]) -> Result<(), EntryFault>
        ensures { TakesOr (IsLineFault (standing self.old) text.now) result (judge (standing self.old) text.now) (standing self.new) }
    {
        match read_line(text) {
            Some(line) => self.step(alloc, &line),
            None => Err(EntryFault::Refused(refusal_of(self.body, text))),
        }
    }

    /// Whether the last file has ended.
    pub fn is_ended(&self) -> bool
        ensures { result ≡ is_closed (standing self.now).body }
    {
        self.body == Body::Closed
    }

    /// The set that was executed before, by the files, and the entries in order.
    pub fn into_log(self) -> LoggedTransactions
        ensures previous { result.previous ≡ (standing self).log.previous }
        ensures entries { result.entries.items ≡ (standing self).log.entries }
        ensures varied { result.varied.items ≡ (standing self).log.varied }
    {
        self.log.into_log()
    }
}
