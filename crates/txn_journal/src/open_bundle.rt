//! A bundle whose lines have not all come.
ghost use Rattle.std.specs.Prelude.{◌≡◌, ◌∷◌, ◌++◌, [], OnOk};
ghost use Rattle.txn_journal.specs.Stream.{TakesPart};
ghost use Rattle.txn_journal.specs.BundleStates.{bare, with_opening};

use crate::assumptions::Assumption;
use crate::bundle::BundleChannel;
use crate::fault::{Cause, LineFault};
use crate::references::Reference;
use gtid_set::{GtidSet, SetFault};
use gtid_text::SourceId;
use journal::Journal;
use rows::{ApplyFault, Name, Row, Rows, Schema};
use std::alloc::{AllocError, Global};
use std::marker::Model;

/// A replica, the set of GTIDs with which it begins, its opening rows and references, the channels that have come, each with its journal, and
/// what is assumed.
pub struct OpenBundle {
    replica: SourceId,
    opened: GtidSet,
    rows: Rows,
    references: Vec<Reference>,
    channels: Vec<BundleChannel>,
    journals: Vec<Journal>,
    assumptions: Vec<Assumption>,
}

impl Drop for OpenBundle {
    // (by hand: for a caller the end of an OpenBundle is one call)
    fn drop(self) {
        let OpenBundle {
            replica: _replica,
            opened: _opened,
            rows: _rows,
            references: _references,
            channels: _channels,
            journals: _journals,
            assumptions: _assumptions,
        } = self;
    }
}

impl Model for OpenBundle {
    ghost use Rattle.std.specs.Coded.{codes};
    ghost use Rattle.gtid_set.specs.Sets.{gtids_code};
    ghost use Rattle.rows.specs.Coding.{rows_code};
    ghost use Rattle.txn_journal.specs.BundleStates.{BundleValue};

    ghost Value = { BundleValue };

    ghost coded = { Prim.hlevel (codes, gtids_code, rows_code) };

    ghost view = { λ b. record { replica = b.replica; opened = b.opened; start = b.rows; references = b.references.items; channels = b.channels.items; journals = b.journals.items; assumptions = b.assumptions.items } };
}

impl OpenBundle {
    /// A bundle without channels.
    pub fn open(alloc: Global, replica: SourceId, opened: GtidSet, rows: Rows) -> OpenBundle
        ensures { result ≡ record (bare replica opened []) { start = rows } }
    {
        OpenBundle {
            replica,
            opened,
            rows,
            references: Vec::new(alloc),
            channels: Vec::new(alloc),
            journals: Vec::new(alloc),
            assumptions: Vec::new(alloc),
        }
    }

    /// Empties the bundle, and gives it these tables.
    pub fn open_rows(&mut self, alloc: Global, schema: Schema)
        ensures { self.new ≡ bare self.old.replica self.old.opened schema }
    {
        self.rows = Rows::open(alloc, schema);
        self.references = Vec::new(alloc);
        self.channels = Vec::new(alloc);
        self.journals = Vec::new(alloc);
        self.assumptions = Vec::new(alloc);
    }

    /// Appends a channel.
    pub fn add(&mut self, channel: BundleChannel, journal: Journal) -> Result<(), AllocError>
        ensures ok { OnOk result (self.new ≡ record self.old { channels = self.old.channels ++ channel ∷ []; journals = self.old.journals ++ journal ∷ [] }) }
    {
        self.journals.reserve(1)?;
        self.channels.push(channel)?;
        self.journals.push(journal)?;
        Ok(())
    }

    /// Appends a reference.
    pub fn refer(&mut self, reference: Reference) -> Result<(), AllocError>
        ensures ok { OnOk result (self.new ≡ record self.old { references = self.old.references ++ reference ∷ [] }) }
    {
        self.references.push(reference)?;
        Ok(())
    }

    /// Appends an assumption.
    pub fn assume(&mut self, assumption: Assumption) -> Result<(), AllocError>
        ensures ok { OnOk result (self.new ≡ record self.old { assumptions = self.old.assumptions ++ assumption ∷ [] }) }
    {
        self.assumptions.push(assumption)?;
        Ok(())
    }

    /// Puts an opening row, as a transaction of one insert would.
    pub fn put(&mut self, alloc: Global, table: &Name, row: &Row) -> Result<(), LineFault>
        ensures rows { TakesPart result (with_opening self.old.start (record { table = table.now; row = row.now })) self.new.start.rows }
        ensures same { OnOk result (self.new ≡ record self.old { start = record self.old.start { rows = self.new.start.rows } }) }
    {
        match self.rows.put(alloc, table, row) {
            Ok(()) => Ok(()),
            Err(ApplyFault::Memory) => Err(LineFault::Set(SetFault::Memory)),
            Err(ApplyFault::NotInSchema(_)) => Err(LineFault::Wrong(Cause::Schema)),
            Err(ApplyFault::Row(_)) => Err(LineFault::Wrong(Cause::Schema)),
        }
    }

    /// The UUID of the replica.
    pub fn replica(&self) -> SourceId
        ensures { result ≡ self.now.replica }
    {
        self.replica
    }

    /// The opening set.
    pub fn opening_set(&self) -> &GtidSet
        ensures { result.now ≡ self.now.opened }
    {
        &self.opened
    }

    /// The tables.
    pub fn schema(&self) -> &Schema
        ensures { result.now ≡ self.now.start.schema }
    {
        self.rows.schema()
    }

    /// The opening rows.
    pub fn rows(&self) -> &Rows
        ensures { result.now ≡ self.now.start }
    {
        &self.rows
    }

    /// The references, in order.
    pub fn references(&self) -> &[Reference]
        ensures { result.now ≡ self.now.references }
    {
        &self.references
    }

    /// The channels, in order.
    pub fn channels(&self) -> &[BundleChannel]
        ensures { result.now ≡ self.now.channels }
    {
        &self.channels
    }

    /// The journal of each channel, in order.
    pub fn journals(&self) -> &[Journal]
        ensures { result.now ≡ self.now.journals }
    {
        &self.journals
    }
    /// The assumptions, in order.
    pub fn assumptions(&self) -> &[Assumption]
        ensures { result.now ≡ self.now.assumptions }
    {
        &self.assumptions
    }
}
