//! Transactions as far as the events of a log have come.
ghost use Rattle.std.specs.List.{list_all};
ghost use Rattle.std.specs.Prelude.{◌≡◌, ℕ, List, true, false, [], None, Ok, Err, OnOk, IfOk, IfErr, length, option_map, if◌then◌else◌};
ghost use Rattle.std.specs.FinSet as set;
ghost use Rattle.gtid_set.specs.Full.{IsFaultOf};
ghost use Rattle.gtid_set.specs.Laws.{HaveNumbers};
ghost use Rattle.gtid_set.specs.declared.fault.SetFault.TheVariants.{Memory};
ghost use Rattle.log_transactions.specs.Machine.{are_images};
ghost use Rattle.journal.specs.Writing.{is_number};
ghost use Rattle.log_transactions.specs.Files.{is_later, has_come, come_behind};

use crate::fault::{EventFault, EventRefusal};
use crate::joined::{has_all, join};
use crate::mapped::{StatementTable, StatementTables, table_name};
use crate::stages::{FileOrder, TransactionStage};
use crate::varied::{Varied, VariedColumns};
use collations::Collation;
use gtid_set::{GtidSet, SetFault};
use gtid_text::{Gtid, SourceId};
use journal::Entry;
use rows::{Change, Changes, Name, Transaction};
use std::alloc::{AllocError, Global};
use std::mem;

/// What a binary log describes.
#[derive(Drop)]
pub struct LoggedTransactions {
    /// The set that was executed before, by its first file. Its numbers are 1 to 2^63 - 1.
    pub previous: GtidSet,
    /// Its entries, in order.
    pub entries: Vec<Entry>,
    /// The columns whose values the server compares otherwise than their bytes.
    pub varied: Vec<Varied>,
    ghost numbers: { HaveNumbers previous },
    ghost numbered: { list_all (λ e. is_number e.gtid.number) entries.items ≡ true },
}

/// The transactions of a binary log, as far as its events have come. An event that is refused changes nothing; after a fault that is no
/// refusal no more are to come.
#[derive(Drop)]
pub struct LogTransactions {
    stage: TransactionStage,
    /// Of the transaction that is open, or was the last one.
    gtid: Gtid,
    /// No GTID has come.
    is_fresh: bool,
    /// The set that was executed before, by the files.
    previous: GtidSet,
    file: FileOrder,
    /// The opening set, the previous set of the first file, and the GTIDs that came.
    come: GtidSet,
    /// Rows events of the statement have come: the next table is another statement's.
    is_over: bool,
    /// Rows events of the statement have come, and none of them has ended it.
    is_open: bool,
    /// The table whose columns come.
    mapping: Option<Name>,
    /// Those that the statement has mapped before.
    tables: StatementTables,
    /// Of the transaction that is open.
    changes: Vec<Change>,
    /// Those of the transactions before it.
    entries: Vec<Entry>,
    /// Columns whose values the server compares otherwise than their bytes.
    varied: VariedColumns,
    ghost numbers: { HaveNumbers previous },
    ghost number: { is_number gtid.number ≡ true },
    ghost numbered: { list_all (λ e. is_number e.gtid.number) entries.items ≡ true },
}

/// Whether a previous set of a later file lies within what came before it.
fn has_come(
    alloc: Global,
    file: FileOrder,
    come: &GtidSet,
    gtids: &GtidSet,
) -> Result<bool, AllocError>
    ensures { IfOk result (λ has. has ≡ has_come file come.now gtids.now) }
{
    if file != FileOrder::Later {
        return Ok(true);
    }
    has_all(alloc, come, gtids)
}

/// Whether each image of a change has so many values.
fn are_images(change: &Change, columns: usize) -> bool
    ensures { result ≡ are_images change.now columns }
{
    match change {
        Change::Insert { after, .. } => after.len() == columns,
        Change::Delete { before, .. } => before.len() == columns,
        Change::Update { before, after, .. } => before.len() == columns && after.len() == columns,
    }
}

impl LogTransactions {
    ghost use Rattle.log_transactions.specs.Events.{Opens, Precedes, Names, Begins, Maps, Columns, Varies, Rows, Row, Savepoint, Commits, Maintains, Ends};
    ghost use Rattle.log_transactions.specs.Machine.{is_idle, is_begun, named, has_table, previous_behind, with_entry, row_refusal, behind, start, TakesOr, Takes, TakesOrMemory, Finds, IsPreviousFault, IsNameFault};
    ghost use Rattle.log_transactions.specs.States.{state};
    ghost use Rattle.log_transactions.specs.Tables.{joined_name};

    /// Before the first event. What comes before the log is in the opening set.
    #[tactic(auto, using(journal::proofs::EntryLemmas::no_numbers), unfolding(gtid_set::specs::Sets::greatest))]
    pub fn start(alloc: Global, opening: GtidSet) -> LogTransactions
        ensures { state result ≡ start opening }
    {
        LogTransactions {
            stage: TransactionStage::Idle,
            gtid: Gtid {
                source: SourceId::from_bits(0),
                number: 1,
            },
            is_fresh: true,
            previous: GtidSet::empty(alloc),
            file: FileOrder::Unread,
            come: opening,
            is_over: false,
            is_open: false,
            mapping: None,
            tables: StatementTables::new(alloc),
            changes: Vec::new(alloc),
            entries: Vec::new(alloc),
            varied: VariedColumns::new(alloc),
        }
    }

    /// Takes the beginning of a file's previous set.
    pub fn open_file(&mut self)
        ensures { state self.new ≡ behind (state self.old) Opens }
    {
        self.file = self.file.next();
    }

    /// Takes GTIDs of a file's previous set; in a later file they are among those that came, else it is a `Gap`.
    pub fn precede(&mut self, alloc: Global, gtids: &GtidSet) -> Result<(), EventFault>
        requires { HaveNumbers gtids.now }
        ensures { TakesOr (IsPreviousFault (state self.old) gtids.now) result (state self.old) (Precedes gtids.now) (state self.new) }
    {
        if !has_come(alloc, self.file, &self.come, gtids)? {
            return Err(EventFault::Refused(EventRefusal::Gap));
        }
        self.join_come(alloc, gtids)?;
        self.join_previous(alloc, gtids)?;
        Ok(())
    }

    /// What came, with GTIDs of the previous set of the first file.
    fn join_come(&mut self, alloc: Global, gtids: &GtidSet) -> Result<(), SetFault>
        ensures come { OnOk result (state self.new ≡ record (state self.old) { come = come_behind self.old.file self.old.come gtids.now }) }
        ensures fault { IfErr result (λ fault. (is_later self.old.file ≡ false) × IsFaultOf fault (set.union self.old.come gtids.now)) }
        ensures fresh { self.new.is_fresh ≡ self.old.is_fresh }
        ensures previous { self.new.previous ≡ self.old.previous }
    {
        if self.file == FileOrder::Later {
            return Ok(());
        }
        join(alloc, &mut self.come, gtids)
    }

    /// The set that was executed before, with GTIDs of a previous set.
    fn join_previous(&mut self, alloc: Global, gtids: &GtidSet) -> Result<(), SetFault>
        requires { HaveNumbers gtids.now }
        ensures previous { OnOk result (state self.new ≡ record (state self.old) { previous = previous_behind self.old.is_fresh self.old.previous gtids.now }) }
        ensures fault { IfErr result (λ fault. (self.old.is_fresh ≡ true) × IsFaultOf fault (set.union self.old.previous gtids.now)) }
    {
        if !self.is_fresh {
            return Ok(());
        }
        join(alloc, &mut self.previous, gtids)
    }

    /// Takes the GTID of a transaction. (`Gtid`: another is open.)
    pub fn name(&mut self, gtid: &Gtid) -> Result<(), EventFault>
        requires { is_number gtid.now.number ≡ true }
        ensures { TakesOr (IsNameFault (state self.old) gtid.now) result (state self.old) (Names gtid.now) (state self.new) }
    {
        if self.stage != TransactionStage::Idle {
            return Err(EventFault::Refused(EventRefusal::Gtid));
        }
        self.come.add(*gtid)?;
        self.gtid = *gtid;
        self.is_fresh = false;
        self.file = FileOrder::Later;
        self.stage = TransactionStage::Named;
        Ok(())
    }

    /// Whether a transaction has begun.
    fn is_begun(&self) -> bool
        ensures { result ≡ is_begun self.now.stage }
    {
        self.stage == TransactionStage::Begun
    }

    /// Takes the beginning of a transaction. (`Transaction`: it has begun, or has no GTID.)
    pub fn begin(&mut self) -> Result<(), EventFault>
        ensures { Takes result (state self.old) Begins (state self.new) }
    {
        if self.stage != TransactionStage::Named {
            return Err(EventFault::Refused(EventRefusal::Transaction));
        }
        self.stage = TransactionStage::Begun;
        Ok(())
    }

    /// Maps a table of this name.
    fn map_named(&mut self, alloc: Global, name: Name)
        ensures { (database table : List ℕ) → name ≡ joined_name database table
            → state self.new ≡ behind (state self.old) (Maps database table) }
    {
        self.mapping = Some(name);
        if self.is_over {
            self.tables = StatementTables::new(alloc);
        }
        self.is_over = false;
    }

    /// Takes a table that is mapped, by its database's name and its own. The number of its columns comes next. (`Transaction`: none has
    /// begun; `Table`: the two are no name, or a longer one than may be.)
    #[tactic(auto, using(crate::proofs::NameLaws::named_table))]
    pub fn map_table(
        &mut self,
        alloc: Global,
        database: &[u8],
        table: &[u8],
    ) -> Result<(), EventFault>
        ensures { TakesOrMemory result (state self.old) (Maps database.now table.now) (state self.new) }
    {
        if !self.is_begun() {
            return Err(EventFault::Refused(EventRefusal::Transaction));
        }
        let Some(name) = table_name(alloc, database, table)? else {
            return Err(EventFault::Refused(EventRefusal::Table));
        };
        self.map_named(alloc, name);
        Ok(())
    }

    /// Takes the number of columns of the table that is mapped. (`Table`: none is.)
    pub fn take_columns(&mut self, columns: usize) -> Result<(), EventFault>
        ensures { TakesOrMemory result (state self.old) (Columns columns) (state self.new) }
    {
        let Some(name) = self.mapping.take() else {
            return Err(EventFault::Refused(EventRefusal::Table));
        };
        self.tables.push(StatementTable { name, columns })?;
        Ok(())
    }

    /// Takes a column of a table, counted from 0, whose values the server compares otherwise than their bytes, with its collation.
    pub fn vary(
        &mut self,
        alloc: Global,
        table: Name,
        column: usize,
        collation: Option<Collation>,
    ) -> Result<(), AllocError>
        ensures { OnOk result (state self.new ≡ behind (state self.old) (Varies table column collation)) }
    {
        self.varied.add(alloc, table, column, collation)
    }

    /// Takes a rows event, which ends its statement or doesn't. (`Transaction`: none has begun.)
    pub fn take_rows(&mut self, ends: bool) -> Result<(), EventFault>
        ensures { Takes result (state self.old) (Rows ends) (state self.new) }
    {
        if !self.is_begun() {
            return Err(EventFault::Refused(EventRefusal::Transaction));
        }
        self.is_over = true;
        self.is_open = !ends;
        Ok(())
    }

    /// Whether the statement maps a table of this name.
    pub fn has_table(&self, name: &Name) -> bool
        ensures { result ≡ has_table (state self.now) name.now }
    {
        self.tables.find(name).is_some()
    }

    /// The name of the table whose columns come.
    pub fn mapped(&self) -> Option<&Name>
        ensures { option_map (λ n. n.now) result ≡ (state self.now).mapping }
    {
        self.mapping.as_ref()
    }

    /// Why a row is refused, if it is.
    fn may_take_row(&self, change: &Change) -> Result<(), EventFault>
        ensures { Finds result (row_refusal (state self.now) change.now) }
    {
        if !self.is_begun() || !self.is_over {
            return Err(EventFault::Refused(EventRefusal::Transaction));
        }
        let Some(table) = self.tables.find(change.table()) else {
            return Err(EventFault::Refused(EventRefusal::Table));
        };
        if !are_images(change, table.columns) {
            return Err(EventFault::Refused(EventRefusal::Columns));
        }
        Ok(())
    }

    /// Takes a row that is changed. (`Transaction`: no rows event has come; `Table`: the statement doesn't map its table; `Columns`: an image has
    /// more or fewer values than the table has columns.)
    pub fn take_row(&mut self, change: Change) -> Result<(), EventFault>
        ensures { TakesOrMemory result (state self.old) (Row change) (state self.new) }
    {
        self.may_take_row(&change)?;
        self.changes.push(change)?;
        Ok(())
    }

    /// Takes a savepoint. (`Transaction`: none has begun.)
    pub fn take_savepoint(&self) -> Result<(), EventFault>
        ensures { Takes result (state self.now) Savepoint (state self.now) }
    {
        if !self.is_begun() {
            return Err(EventFault::Refused(EventRefusal::Transaction));
        }
        Ok(())
    }

    /// The transaction that is open ends, and these are its changes.
    fn end_entry(&mut self, changes: Changes) -> Result<(), AllocError>
        ensures { OnOk result (state self.new ≡ with_entry (state self.old) changes) }
    {
        let entry = Entry {
            gtid: self.gtid,
            txn: Transaction { changes },
        };
        self.entries.push(entry)?;
        self.stage = TransactionStage::Idle;
        Ok(())
    }

    /// Takes the commit of a transaction. (`Transaction`: none has begun, or a statement of rows is open.)
    pub fn commit(&mut self, alloc: Global) -> Result<(), EventFault>
        ensures { TakesOrMemory result (state self.old) Commits (state self.new) }
    {
        if self.is_open || !self.is_begun() {
            return Err(EventFault::Refused(EventRefusal::Transaction));
        }
        let changes = mem::replace(&mut self.changes, Vec::new(alloc));
        self.end_entry(Changes::new(changes)?)?;
        Ok(())
    }

    /// Takes a statement of maintenance: a transaction without changes. (`Transaction`: none has its GTID, or it has begun.)
    pub fn maintain(&mut self, alloc: Global) -> Result<(), EventFault>
        ensures { TakesOrMemory result (state self.old) Maintains (state self.new) }
    {
        if self.stage != TransactionStage::Named {
            return Err(EventFault::Refused(EventRefusal::Transaction));
        }
        self.end_entry(Changes::new(Vec::new(alloc))?)?;
        Ok(())
    }

    /// Takes the end of a file, or of the log. (`Transaction`: one is open.)
    pub fn end_file(&self) -> Result<(), EventFault>
        ensures { Takes result (state self.now) Ends (state self.now) }
    {
        if !self.is_idle() {
            return Err(EventFault::Refused(EventRefusal::Transaction));
        }
        Ok(())
    }

    /// Whether no transaction is open.
    pub fn is_idle(&self) -> bool
        ensures { result ≡ is_idle (state self.now).stage }
    {
        self.stage == TransactionStage::Idle
    }

    /// The GTID of a transaction of which nothing else has come, if there is one.
    pub fn named(&self) -> Option<Gtid>
        ensures { result ≡ named (state self.now) }
    {
        match self.stage {
            TransactionStage::Named => Some(self.gtid),
            _ => None,
        }
    }

    /// The set that was executed before, by the files, the entries in order, and the columns that are compared otherwise than by their bytes.
    pub fn into_log(self) -> LoggedTransactions
        ensures previous { result.previous ≡ (state self).previous }
        ensures entries { result.entries.items ≡ (state self).entries }
        ensures varied { result.varied.items ≡ (state self).varied }
    {
        LoggedTransactions {
            previous: self.previous,
            entries: self.entries,
            varied: self.varied.into_list(),
        }
    }
}
