//! Events of files, one after another.
ghost use Rattle.std.specs.Prelude.{◌≡◌, true, Ok, Some, None, OnOk, option_map};
ghost use Rattle.std.specs.FinSet as set;
ghost use Rattle.journal.specs.Writing.{is_number};
ghost use Rattle.binlog_events.specs.Gtids.{gtid_of};
ghost use Rattle.binlog_files.specs.Given.{sets};
ghost use Rattle.binlog_files.specs.Moved.{files_state};
ghost use Rattle.binlog_files.specs.Tables.{tables_in, HasTables, tables_after};
ghost use Rattle.binlog_files.specs.Taking.{TellsOr, NamesOr, BeginsOr, TakesEvent, is_outside, is_accepted, start, begin_transaction, IsTellFault};
ghost use Rattle.binlog_files.specs.Told.{told};
ghost use Rattle.binlog_frames.specs.Views.{view};
ghost use Rattle.log_transactions.specs.Machine.{IsNameFault};
ghost use Rattle.log_transactions.specs.States.{state};

use crate::bodies::{settled, take_other, take_query, take_xid};
use crate::fault::{FileFault, FileRefusal};
use crate::given::GivenSets;
use crate::mapping::take_map;
use crate::previous::take_previous;
use crate::row_events::take_rows_event;
use crate::tables::FileTables;
use binlog_events::gtid_of;
use binlog_frames::LoggedEvent;
use gtid_set::GtidSet;
use gtid_text::Gtid;
use log_transactions::{LogTransactions, LoggedTransactions};
use std::alloc::Global;

/// What was taken of events.
#[derive(Drop)]
pub(crate) struct TakenEvents {
    tables: FileTables,
    /// The transaction is one of the opening set.
    is_passed: bool,
    pub(crate) log: LogTransactions,
}

/// Whether a kind is of no transaction, or begins one.
fn is_outside(kind: u8) -> bool
    ensures { result ≡ is_outside kind }
{
    matches!(kind, 3 | 4 | 15 | 26 | 34 | 35 | 42)
}

impl TakenEvents {
    /// Before the first event, where these GTIDs are in the opening set.
    pub(crate) fn start(alloc: Global, opening: GtidSet) -> TakenEvents
        ensures { files_state result ≡ start opening }
    {
        TakenEvents {
            tables: FileTables::new(alloc),
            is_passed: false,
            log: LogTransactions::start(alloc, opening),
        }
    }

    /// A transaction of the log begins.
    fn name(&mut self, gtid: &Gtid) -> Result<(), FileFault>
        requires { is_number gtid.now.number ≡ true }
        ensures { NamesOr (IsNameFault (state self.old.log) gtid.now) result (files_state self.old) gtid.now (files_state self.new) }
    {
        match settled(self.log.name(gtid)) {
            Ok(()) => {
                self.is_passed = false;
                Ok(())
            }
            Err(fault) => Err(fault),
        }
    }

    /// A transaction begins: it is one of the opening set, or the log's.
    fn begin_transaction(&mut self, given: GivenSets<'_>, body: &[u8]) -> Result<(), FileFault>
        ensures { BeginsOr (sets given.entry) result (files_state self.old) (gtid_of body.now) (files_state self.new) }
    {
        let Some(gtid) = gtid_of(body) else {
            return Err(FileFault::Refused(FileRefusal::Format));
        };
        if given.opening.contains(&gtid) {
            self.is_passed = true;
            return Ok(());
        }
        self.name(&gtid)
    }

    /// Whether an operator answers for a statement that comes now.
    fn is_accepted(&self, given: GivenSets<'_>) -> bool
        ensures { result ≡ is_accepted (sets given.entry) (files_state self.now) }
    {
        match self.log.named() {
            Some(gtid) => given.accepted.contains(&gtid),
            None => false,
        }
    }

    /// Tells the log what an event tells but a GTID, and keeps the table that it maps.
    #[tactic(auto, unfolding(crate::specs::Told::told))]
    fn tell(
        &mut self,
        alloc: Global,
        is_accepted: bool,
        event: &LoggedEvent<'_>,
    ) -> Result<(), FileFault>
        ensures told { TellsOr (IsTellFault (state self.old.log) (view event.now)) result
            (state self.old.log) (told (tables_in self.old.tables) is_accepted (view event.now)) (state self.new.log) }
        ensures kept { OnOk result (HasTables self.new.tables (tables_after event.now.kind event.now.body.now (tables_in self.old.tables))) }
        ensures passed { self.new.is_passed ≡ self.old.is_passed }
    {
        match event.kind {
            2 => take_query(alloc, &mut self.log, is_accepted, event.body),
            16 => take_xid(alloc, &mut self.log, event.body),
            19 => take_map(alloc, &mut self.log, &mut self.tables, event.body),
            23..=25 | 30..=32 => take_rows_event(
                alloc,
                &mut self.log,
                &self.tables,
                event.kind,
                event.body,
            ),
            35 => take_previous(alloc, &mut self.log, event.body),
            _ => take_other(&self.log, event.kind, event.flags),
        }
    }

    /// Takes an event. After an error no more are to come.
    #[tactic(auto, unfolding(crate::specs::Taking::take_event))]
    pub(crate) fn take(
        &mut self,
        alloc: Global,
        given: GivenSets<'_>,
        event: &LoggedEvent<'_>,
    ) -> Result<(), FileFault>
        ensures { TakesEvent (sets given.entry) result (files_state self.old) (view event.now) (files_state self.new) }
    {
        if event.kind == 33 {
            return self.begin_transaction(given, event.body);
        }
        if self.is_passed && !is_outside(event.kind) {
            return Ok(());
        }
        let is_accepted = self.is_accepted(given);
        self.tell(alloc, is_accepted, event)
    }

    /// What was taken: the set that was executed before, the entries in order, and the columns that are compared otherwise than by their bytes.
    pub(crate) fn into_log(self) -> LoggedTransactions
        ensures previous { result.previous ≡ (state self.log).previous }
        ensures entries { result.entries.items ≡ (state self.log).entries }
        ensures varied { result.varied.items ≡ (state self.log).varied }
    {
        let TakenEvents {
            tables: _tables,
            is_passed: _is_passed,
            log,
        } = self;
        log.into_log()
    }
}
