//! What is derived from the entries of a journal.
ghost use Rattle.std.specs.Prelude.{◌≡◌, Ok, IfOk, IfErr};
ghost use Rattle.rows.specs.declared.change.Change.TheVariants.{Update};
ghost use Rattle.derived_columns.specs.Entries.{derived_change, derived_changes, derived_entry, derived_entries, IsDerivationFault};
ghost use Rattle.derived_columns.specs.Faults.{IsImageFault};

use crate::derivation::Derivation;
use crate::fault::{DerivationFault, ImageFault};
use journal::Entry;
use rows::{Change, Changes, Name, Row, Transaction};
use std::alloc::Global;

impl Derivation {
    /// An update with the hidden values of its images, of the before image first.
    fn derive_update(
        &self,
        alloc: Global,
        table: &Name,
        before: &Row,
        after: &Row,
    ) -> Result<Change, ImageFault>
        ensures found { IfOk result (λ derived. derived_change self.now (Update table.now before.now after.now) ≡ Ok derived) }
        ensures fault { IfErr result (IsImageFault (derived_change self.now (Update table.now before.now after.now))) }
    {
        let before = self.derive_image(alloc, table, before)?;
        let after = self.derive_image(alloc, table, after)?;
        Ok(Change::Update {
            table: table.clone()?,
            before,
            after,
        })
    }

    /// A change with the hidden values of its images.
    fn derive_change(&self, alloc: Global, change: &Change) -> Result<Change, ImageFault>
        ensures found { IfOk result (λ derived. derived_change self.now change.now ≡ Ok derived) }
        ensures fault { IfErr result (IsImageFault (derived_change self.now change.now)) }
    {
        match change {
            Change::Insert { table, after } => Ok(Change::Insert {
                after: self.derive_image(alloc, table, after)?,
                table: table.clone()?,
            }),
            Change::Delete { table, before } => Ok(Change::Delete {
                before: self.derive_image(alloc, table, before)?,
                table: table.clone()?,
            }),
            Change::Update {
                table,
                before,
                after,
            } => self.derive_update(alloc, table, before, after),
        }
    }

    /// Changes with the hidden values of their images.
    fn derive_changes(&self, alloc: Global, changes: &[Change]) -> Result<Vec<Change>, ImageFault>
        ensures found { IfOk result (λ derived. derived_changes self.now changes.now ≡ Ok derived.items) }
        ensures fault { IfErr result (IsImageFault (derived_changes self.now changes.now)) }
    {
        let mut derived = Vec::with_capacity(alloc, changes.len())?;
        for change in changes {
            derived.push(self.derive_change(alloc, change)?)?;
        }
        Ok(derived)
    }

    /// An entry with the hidden values of its images. If no table of its changes has hidden columns, they are shared.
    fn derive_entry(&self, alloc: Global, entry: &Entry) -> Result<Entry, DerivationFault>
        ensures found { IfOk result (λ derived. derived_entry self.now entry.now ≡ Ok derived) }
        ensures fault { IfErr result (IsDerivationFault (derived_entry self.now entry.now)) }
    {
        let changes = entry.txn.changes.as_slice();
        if !self.touches(changes) {
            return Ok(entry.clone()?);
        }
        match self.derive_changes(alloc, changes) {
            Ok(changes) => Ok(Entry {
                gtid: entry.gtid,
                txn: Transaction {
                    changes: Changes::new(changes)?,
                },
            }),
            Err(fault) => Err(fault.in_entry(entry.gtid)),
        }
    }

    /// Entries with the hidden values of their images, in their order. If there are no hidden columns, they come back as they are.
    pub fn derive_entries(
        &self,
        alloc: Global,
        entries: Vec<Entry>,
    ) -> Result<Vec<Entry>, DerivationFault>
        ensures found { IfOk result (λ derived. derived_entries self.now entries.items ≡ Ok derived.items) }
        ensures refused { IfErr result (IsDerivationFault (derived_entries self.now entries.items)) }
    {
        if self.columns().is_empty() {
            return Ok(entries);
        }
        let mut derived = Vec::with_capacity(alloc, entries.len())?;
        for entry in entries {
            derived.push(self.derive_entry(alloc, &entry)?)?;
        }
        Ok(derived)
    }
}
