//! The rows of tables.

ghost use Rattle.std.specs.Prelude.{◌≡◌, OnOk, OnErr, IfOk, Ok};
ghost use Rattle.std.specs.Bool.{Decides};
ghost use Rattle.std.specs.Option.{option_copied};
ghost use Rattle.std.specs.FinMap as map;
ghost use Rattle.rows.specs.Apply.{apply};
ghost use Rattle.rows.specs.Fits.{misfit, Fits};
ghost use Rattle.rows.specs.Listing.{all_shown, entries_listed, rows_of, rows_listed};
ghost use Rattle.rows.specs.Patch.{seen_of_keys};
ghost use Rattle.rows.specs.Prepared.{IsStillTrue};
ghost use Rattle.rows.specs.Database.{opening, AreRowsOf, LeavesImages, NoTwoCarry};
ghost use Rattle.rows.specs.Refusal.{Refuses, NamesMisfit, GivesMisfit, NamesRowFault};

use crate::change::{ApplyFault, Key, PrepareFault, TableRow, Transaction};
use crate::fitting::{fits, fits_row};
use crate::key_map::KeyMap;
use crate::name::Name;
use crate::patch::InstallOutcome;
use crate::prepared::{Footprint, Patch, are_same_tables};
use crate::schema::Schema;
use row_images::{KeyValues, Row};
use std::alloc::{AllocError, Global};
use std::marker::Model;

/// The rows of a schema's tables. Each row is stored under every key that it carries, and under no other.
pub struct Rows {
    schema: Schema,
    carriers: KeyMap,
}

impl Drop for Rows {
    // (by hand: for a caller the end of a Rows is one call)
    fn drop(self) {
        let Rows {
            schema: _schema,
            carriers: _carriers,
        } = self;
    }
}

impl Model for Rows {
    ghost use Rattle.rows.specs.Database.{Database, database_code, AreRowsOf};

    ghost Value = { Database };

    ghost coded = { database_code };

    ghost view = { λ a. record { schema = a.schema; rows = a.carriers } };

    ghost invariant = { λ a. AreRowsOf a.schema a.carriers };
}

impl Rows {
    /// No rows, in tables of this schema.
    pub fn open(alloc: Global, schema: Schema) -> Rows
        ensures { result ≡ record { schema = schema; rows = map.empty } }
    {
        Rows {
            schema,
            carriers: KeyMap::new(alloc),
        }
    }

    /// The schema of these rows.
    pub fn schema(&self) -> &Schema
        ensures value { result.now ≡ self.now.schema }
        ensures kept { AreRowsOf self.now.schema self.now.rows }
    {
        &self.schema
    }

    /// The row that carries a key.
    pub fn carrier(&self, key: &Key) -> Option<&Row>
        ensures { option_copied result ≡ map.get self.now.rows key.now }
    {
        self.carriers.carrier(key)
    }

    /// The row of a table under these values of its primary key.
    pub fn get(&self, table: Name, key_values: KeyValues) -> Option<&Row>
        ensures { option_copied result ≡ map.get self.now.rows (record { table = table; index = 0; values = key_values }) }
    {
        let key = Key {
            table,
            index: 0,
            values: key_values,
        };
        self.carrier(&key)
    }

    /// Puts a row that is there from the start, as a transaction of one insert would. After a refusal nothing has changed.
    pub fn put(&mut self, alloc: Global, table: &Name, row: &Row) -> Result<(), ApplyFault>
        ensures ok { OnOk result (apply self.old.schema (opening table.now row.now) self.old.rows ≡ Ok self.new.rows) }
        ensures fits { OnOk result (Fits self.old.schema (opening table.now row.now)) }
        ensures same { self.new.schema ≡ self.old.schema }
        ensures not_in_schema { NamesMisfit result (misfit self.old.schema (opening table.now row.now)) }
        ensures refused { NamesRowFault result (apply self.old.schema (opening table.now row.now) self.old.rows) }
        ensures err { OnErr result (self.new ≡ self.old) }
    {
        if let Err(fault) = fits_row(&self.schema, table, row) {
            return Err(ApplyFault::NotInSchema(fault));
        }
        match self
            .carriers
            .insert_image(alloc, &self.schema, 0, table, row)
        {
            Ok(()) => Ok(()),
            Err(PrepareFault::Row(fault)) => Err(ApplyFault::Row(fault)),
            Err(PrepareFault::Memory) => Err(ApplyFault::Memory),
        }
    }

    /// Each row once, by table name, and then by the values of its primary key.
    pub fn list_sorted(&self, alloc: Global) -> Result<Vec<TableRow>, AllocError>
        ensures { IfOk result (λ list. list.items ≡ rows_listed self.now.rows) }
    {
        self.carriers.list_primary(alloc)
    }

    /// The same rows in the same order, each lent with its primary key, which names its table.
    pub fn list_lent(&self, alloc: Global) -> Result<Vec<(&Key, &Row)>, AllocError>
        ensures rows { IfOk result (λ list. rows_of (all_shown list.items) ≡ rows_listed self.now.rows) }
        ensures keys { IfOk result (λ list. all_shown list.items ≡ entries_listed self.now.rows) }
    {
        self.carriers.lent_primary(alloc)
    }

    /// The same rows, whose values both share.
    pub fn copy(&self) -> Result<Rows, AllocError>
        ensures { IfOk result (λ copy. copy ≡ self.now) }
    {
        let schema = self.schema.clone()?;
        let carriers = self.carriers.copy()?;
        Ok(Rows { schema, carriers })
    }

    /// The same rows, whose values both share, in tables whose names are in memory of their own. If two threads changed copies that share
    /// names, both would write the reference counts of the names.
    pub fn copy_apart(&self, alloc: Global) -> Result<Rows, AllocError>
        ensures { IfOk result (λ copy. copy ≡ self.now) }
    {
        let schema = self.schema.renewed(alloc)?;
        let carriers = self.carriers.copy()?;
        Ok(Rows { schema, carriers })
    }

    /// How many keys the rows have: how long a copy of them takes. (For guesses: no clause says more.)
    pub fn count_keys(&self) -> usize {
        self.carriers.count()
    }

    /// Whether both have the same schema and the same rows.
    pub fn is_equal(&self, other: &Rows) -> bool
        ensures { Decides result (self.now ≡ other.now) }
    {
        self.schema.is_equal(&other.schema) && self.carriers.is_equal(&other.carriers)
    }

    /// Applies a transaction that the schema takes, wholly or not at all. Whether the schema takes it is not tested again.
    pub fn apply_fitting(&mut self, alloc: Global, txn: &Transaction) -> Result<(), PrepareFault>
        requires { Fits self.old.schema txn.now }
        ensures ok { OnOk result (apply self.old.schema txn.now self.old.rows ≡ Ok self.new.rows) }
        ensures left { OnOk result (LeavesImages self.old.schema txn.now self.old.rows self.new.rows) }
        ensures no_two { NoTwoCarry self.new.schema self.new.rows }
        ensures same { self.new.schema ≡ self.old.schema }
        ensures refused { Refuses result (apply self.old.schema txn.now self.old.rows) }
        ensures err { OnErr result (self.new ≡ self.old) }
    {
        self.carriers.apply(alloc, &self.schema, txn)
    }

    /// Applies a transaction wholly, or not at all.
    pub fn apply(&mut self, alloc: Global, txn: &Transaction) -> Result<(), ApplyFault>
        ensures ok { OnOk result (apply self.old.schema txn.now self.old.rows ≡ Ok self.new.rows) }
        ensures fits { OnOk result (Fits self.old.schema txn.now) }
        ensures left { OnOk result (LeavesImages self.old.schema txn.now self.old.rows self.new.rows) }
        ensures no_two { NoTwoCarry self.new.schema self.new.rows }
        ensures same { self.new.schema ≡ self.old.schema }
        ensures not_in_schema { NamesMisfit result (misfit self.old.schema txn.now) }
        ensures cause { GivesMisfit result (misfit self.old.schema txn.now) }
        ensures refused { NamesRowFault result (apply self.old.schema txn.now self.old.rows) }
        ensures err { OnErr result (self.new ≡ self.old) }
    {
        if let Err(fault) = fits(&self.schema, txn) {
            return Err(ApplyFault::NotInSchema(fault));
        }
        match self.apply_fitting(alloc, txn) {
            Ok(()) => Ok(()),
            Err(PrepareFault::Row(fault)) => Err(ApplyFault::Row(fault)),
            Err(PrepareFault::Memory) => Err(ApplyFault::Memory),
        }
    }

    /// Each of these keys with the row that carries it, or none, and the tables.
    pub fn footprint(&self, alloc: Global, keys: Vec<Key>) -> Result<Footprint, AllocError>
        ensures schema { IfOk result (λ footprint. footprint.schema ≡ self.now.schema) }
        ensures seen { IfOk result (λ footprint. footprint.seen ≡ seen_of_keys self.now.rows keys.items) }
    {
        let schema = self.schema.clone()?;
        let seen = self.carriers.footprint(alloc, keys)?;
        Ok(Footprint { schema, seen })
    }

    /// Does what a patch's transaction does, unless a table or a row is not as it was seen.
    pub fn install(&mut self, patch: Patch) -> Result<InstallOutcome, AllocError>
        ensures installed { result ≡ Ok InstallOutcome.Installed → IsStillTrue patch self.old }
        ensures applied { result ≡ Ok InstallOutcome.Installed → apply self.old.schema patch.txn self.old.rows ≡ Ok self.new.rows }
        ensures same { self.new.schema ≡ self.old.schema }
        ensures stale { result ≡ Ok InstallOutcome.Stale → (IsStillTrue patch self.old → ⊥) × (self.new ≡ self.old) }
        ensures err { OnErr result (self.new ≡ self.old) }
    {
        if !are_same_tables(&patch.schema, &self.schema, patch.txn.changes.as_slice()) {
            return Ok(InstallOutcome::Stale);
        }
        let Patch { touches, .. } = patch;
        self.carriers.install(touches)
    }
}
