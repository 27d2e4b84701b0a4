//! From each key to the row that carries it.
ghost use Rattle.std.specs.Prelude.{◌≡◌, ◌≤◌, ◌<◌, ◌+◌, ◌^◌, ℕ, ◌∷◌, [], true, false, OnOk, OnErr, IfOk, IfErr, Ok, Err, None, length};
ghost use Rattle.std.specs.Bool.{Decides};
ghost use Rattle.std.specs.Option.{option_copied};
ghost use Rattle.std.specs.FinMap as map;
ghost use Rattle.rows.specs.Apply.{first_taken, first_row, with_row, without_keys, insert_row, delete_row, apply_change, apply_from};
ghost use Rattle.rows.specs.declared.change.Change.TheVariants.{Update};
ghost use Rattle.rows.specs.Keys.{carried_keys};
ghost use Rattle.rows.specs.Listing.{all_shown, entries_listed, rows_listed};
ghost use Rattle.rows.specs.Making.{IsPut, update_row};
ghost use Rattle.rows.specs.Patch.{put_over};
ghost use Rattle.rows.specs.Refusal.{Refuses};

use crate::change::{Change, Key, PrepareFault, RowFault, TableRow};
use crate::in_place::make_all_in_place;
use crate::keys::{carried_keys, keeps_keys};
use crate::listing::{list_primary, sort_primary};
use crate::making::Making;
use crate::name::Name;
use crate::placing::put_if_free;
use crate::replacement::put_under_all;
use crate::schema::Schema;
use crate::standing::{carrier, first_taken, holds};
use key_table::KeyTable;
use row_images::Row;
use std::alloc::{AllocError, Global};
use std::marker::Model;
use std::mem;

/// From each key to the row that carries it.
#[derive(Drop)]
pub(crate) struct KeyMap {
    carriers: KeyTable<Key, Row>,
}

impl Model for KeyMap {
    ghost use Rattle.std.specs.FinMap as map;
    ghost use Rattle.rows.specs.Apply.{Rows};
    ghost use Rattle.rows.specs.Coding.{rows_code};

    ghost Value = { Rows };

    ghost coded = { rows_code };

    ghost view = { λ a. map.from_entries a.carriers.entries };
}

impl KeyMap {
    pub(crate) fn new(alloc: Global) -> Self
        ensures { result ≡ map.empty }
    {
        KeyMap {
            carriers: KeyTable::new(alloc),
        }
    }

    /// A map of its own with the same rows, which it shares.
    pub(crate) fn copy(&self) -> Result<KeyMap, AllocError>
        ensures { IfOk result (λ copy. copy ≡ self.now) }
    {
        let carriers = self.carriers.copy()?;
        Ok(KeyMap { carriers })
    }

    /// How many keys there are.
    pub(crate) fn count(&self) -> usize {
        self.carriers.len()
    }

    /// Whether both have the same row under each key.
    pub(crate) fn is_equal(&self, other: &KeyMap) -> bool
        ensures { Decides result (self.now ≡ other.now) }
    {
        self.carriers == other.carriers
    }

    /// The rows under primary keys, by table name, and then by the values of the key.
    pub(crate) fn list_primary(&self, alloc: Global) -> Result<Vec<TableRow>, AllocError>
        ensures { IfOk result (λ list. list.items ≡ rows_listed self.now) }
    {
        list_primary(alloc, &self.carriers)
    }

    /// The same rows in the same order, lent.
    pub(crate) fn lent_primary(&self, alloc: Global) -> Result<Vec<(&Key, &Row)>, AllocError>
        ensures { IfOk result (λ list. all_shown list.items ≡ entries_listed self.now) }
    {
        sort_primary(alloc, &self.carriers)
    }

    /// The row that carries a key.
    pub(crate) fn carrier(&self, key: &Key) -> Option<&Row>
        ensures { option_copied result ≡ map.get self.now key.now }
    {
        carrier(&self.carriers, key)
    }

    /// Puts a row under one key.
    pub(crate) fn put_at(&mut self, key: Key, row: Row) -> Result<(), AllocError>
        ensures ok { OnOk result (self.new ≡ map.insert self.old key row) }
        ensures err { OnErr result (self.new ≡ self.old) }
        ensures absent { OnErr result (map.get self.old key ≡ None) }
    {
        match self.carriers.insert(key, row) {
            Ok(_) => Ok(()),
            Err(_) => Err(AllocError),
        }
    }

    /// Replaces the row under a key, if there is one. It does not allocate.
    pub(crate) fn put_over(&mut self, key: &Key, row: Row)
        ensures { self.new ≡ put_over key.now row self.old }
    {
        let Some(_before) = self.carriers.replace(key, row) else {
            return;
        };
    }

    /// Puts a copy of a row under a copy of a key.
    pub(crate) fn put_copy(&mut self, key: &Key, row: &Row) -> Result<(), AllocError>
        ensures ok { OnOk result (self.new ≡ map.insert self.old key.now row.now) }
        ensures err { OnErr result (self.new ≡ self.old) }
    {
        let key = key.copy()?;
        let row = row.clone()?;
        self.put_at(key, row)
    }

    /// Removes what is stored under a key.
    pub(crate) fn take_at(&mut self, key: &Key)
        ensures { self.new ≡ map.remove self.old key.now }
    {
        self.carriers.swap_remove(key);
    }

    /// Puts a row under each of these keys, or under none.
    fn place(&mut self, keys: Vec<Key>, row: &Row) -> Result<(), AllocError>
        ensures ok { OnOk result (self.new ≡ with_row keys.items row.now self.old) }
        ensures err { OnErr result (self.new ≡ self.old) }
    {
        put_under_all(&mut self.carriers, keys, row)
    }

    /// Removes what is stored under each of these keys.
    fn clear(&mut self, keys: &[Key])
        ensures { self.new ≡ without_keys keys.now self.old }
    {
        let mut left = keys.len();
        while left > 0 {
            left -= 1;
            self.take_at(&keys[left]);
        }
    }

    /// Puts a row under its keys, if each of them is free.
    fn insert_row(&mut self, keys: Vec<Key>, row: &Row, change: u32) -> Result<(), PrepareFault>
        ensures ok { OnOk result (insert_row change keys.items row.now self.old ≡ Ok self.new) }
        ensures refused { Refuses result (insert_row change keys.items row.now self.old) }
        ensures err { OnErr result (self.new ≡ self.old) }
    {
        if let Some(key) = first_taken(&self.carriers, &keys) {
            return Err(PrepareFault::Row(RowFault::DuplicateKey { change, key }));
        }
        match self.place(keys, row) {
            Ok(()) => Ok(()),
            Err(_) => Err(PrepareFault::Memory),
        }
    }

    /// Puts a row in the place of another that carries the same keys, if that is there.
    fn replace_row(&mut self, keys: Vec<Key>, before: &Row, after: &Row) -> Result<(), PrepareFault>
        ensures ok { OnOk result (update_row 0 keys.items before.now keys.items after.now self.old ≡ Ok self.new) }
        ensures refused { Refuses result (update_row 0 keys.items before.now keys.items after.now self.old) }
        ensures err { OnErr result (self.new ≡ self.old) }
    {
        if let Err(fault) = holds(&self.carriers, &keys, before, 0) {
            return Err(PrepareFault::Row(fault));
        }
        match self.place(keys, after) {
            Ok(()) => Ok(()),
            Err(_) => Err(PrepareFault::Memory),
        }
    }

    fn delete_row(&mut self, keys: &[Key], row: &Row, change: u32) -> Result<(), RowFault>
        ensures ok { OnOk result (delete_row change keys.now row.now self.old ≡ Ok self.new) }
        ensures refused { IfErr result (λ fault. delete_row change keys.now row.now self.old ≡ Err fault) }
        ensures err { OnErr result (self.new ≡ self.old) }
    {
        holds(&self.carriers, keys, row, change)?;
        self.clear(keys);
        Ok(())
    }

    /// Puts a row of a table under its keys, if each of them is free; all keys are made first.
    #[cold]
    #[inline(never)]
    fn insert_by_list(
        &mut self,
        alloc: Global,
        schema: &Schema,
        change: u32,
        table: &Name,
        row: &Row,
    ) -> Result<(), PrepareFault>
        ensures ok { OnOk result (insert_row change (carried_keys schema.now table.now row.now) row.now self.old ≡ Ok self.new) }
        ensures refused { Refuses result (insert_row change (carried_keys schema.now table.now row.now) row.now self.old) }
        ensures err { OnErr result (self.new ≡ self.old) }
    {
        match carried_keys(alloc, schema, table, row) {
            Ok(keys) => self.insert_row(keys, row, change),
            Err(_) => Err(PrepareFault::Memory),
        }
    }

    /// Puts a row under the keys that it carries, if each of them is free; else nothing changes.
    fn put_if_free(&mut self, alloc: Global, schema: &Schema, table: &Name, row: &Row) -> bool
        ensures put { result ≡ true → IsPut (carried_keys schema.now table.now row.now) row.now self.old self.new }
        ensures kept { result ≡ false → self.new ≡ self.old }
    {
        put_if_free(alloc, &mut self.carriers, schema, table, row)
    }

    /// Puts a row of a table under its keys, if each of them is free. Which key is taken is searched for only if one is.
    pub(crate) fn insert_image(
        &mut self,
        alloc: Global,
        schema: &Schema,
        change: u32,
        table: &Name,
        row: &Row,
    ) -> Result<(), PrepareFault>
        ensures ok { OnOk result (insert_row change (carried_keys schema.now table.now row.now) row.now self.old ≡ Ok self.new) }
        ensures refused { Refuses result (insert_row change (carried_keys schema.now table.now row.now) row.now self.old) }
        ensures err { OnErr result (self.new ≡ self.old) }
    {
        if self.put_if_free(alloc, schema, table, row) {
            return Ok(());
        }
        self.insert_by_list(alloc, schema, change, table, row)
    }

    /// Removes the row of a table under its keys, if it is there.
    pub(crate) fn delete_image(
        &mut self,
        alloc: Global,
        schema: &Schema,
        change: u32,
        table: &Name,
        row: &Row,
    ) -> Result<(), PrepareFault>
        ensures ok { OnOk result (delete_row change (carried_keys schema.now table.now row.now) row.now self.old ≡ Ok self.new) }
        ensures refused { Refuses result (delete_row change (carried_keys schema.now table.now row.now) row.now self.old) }
        ensures err { OnErr result (self.new ≡ self.old) }
    {
        match carried_keys(alloc, schema, table, row) {
            Ok(keys) => match self.delete_row(&keys, row, change) {
                Ok(()) => Ok(()),
                Err(fault) => Err(PrepareFault::Row(fault)),
            },
            Err(_) => Err(PrepareFault::Memory),
        }
    }

    /// Puts a row of a table in the place of another that carries the same keys, if that is there.
    fn replace_image(
        &mut self,
        alloc: Global,
        schema: &Schema,
        table: &Name,
        before: &Row,
        after: &Row,
    ) -> Result<(), PrepareFault>
        ensures ok { OnOk result (update_row 0 (carried_keys schema.now table.now before.now) before.now (carried_keys schema.now table.now before.now) after.now self.old ≡ Ok self.new) }
        ensures refused { Refuses result (update_row 0 (carried_keys schema.now table.now before.now) before.now (carried_keys schema.now table.now before.now) after.now self.old) }
        ensures err { OnErr result (self.new ≡ self.old) }
    {
        match carried_keys(alloc, schema, table, before) {
            Ok(keys) => self.replace_row(keys, before, after),
            Err(_) => Err(PrepareFault::Memory),
        }
    }

    /// Makes a single update, wholly or not at all. If its keys stay, the after image is written over the row.
    pub(crate) fn update_image(
        &mut self,
        alloc: Global,
        schema: &Schema,
        table: &Name,
        before: &Row,
        after: &Row,
        alone: &[Change],
    ) -> Result<(), PrepareFault>
        requires { alone.now ≡ Update table.now before.now after.now ∷ [] }
        ensures ok { OnOk result (apply_from schema.now 0 alone.now self.old ≡ Ok self.new) }
        ensures refused { Refuses result (apply_from schema.now 0 alone.now self.old) }
        ensures err { OnErr result (self.new ≡ self.old) }
    {
        if keeps_keys(schema, table, before, after) {
            self.replace_image(alloc, schema, table, before, after)
        } else {
            self.make_all(alloc, schema, alone)
        }
    }

    /// Makes changes in order with a list of the keys of each, wholly or not at all.
    #[cold]
    #[inline(never)]
    fn make_by_lists(
        &mut self,
        alloc: Global,
        schema: &Schema,
        changes: &[Change],
    ) -> Result<(), PrepareFault>
        requires { length changes.now ≤ 4294967294 }
        ensures ok { OnOk result (apply_from schema.now 0 changes.now self.old ≡ Ok self.new) }
        ensures refused { Refuses result (apply_from schema.now 0 changes.now self.old) }
        ensures err { OnErr result (self.new ≡ self.old) }
    {
        let Ok(log) = Vec::with_capacity(alloc, 2 * changes.len()) else {
            return Err(PrepareFault::Memory);
        };
        let carriers = mem::replace(&mut self.carriers, KeyTable::new(alloc));
        let mut making = Making::start(carriers, log);
        match making.make_all(alloc, schema, changes) {
            Ok(()) => {
                self.carriers = making.finish();
                Ok(())
            }
            Err(refusal) => {
                self.carriers = making.undo();
                Err(refusal)
            }
        }
    }

    /// Makes changes in order, if all can be made and there is memory; else nothing changes.
    fn make_in_place(&mut self, alloc: Global, schema: &Schema, changes: &[Change]) -> bool
        ensures made { result ≡ true → apply_from schema.now 0 changes.now self.old ≡ Ok self.new }
        ensures kept { result ≡ false → self.new ≡ self.old }
    {
        make_all_in_place(alloc, &mut self.carriers, schema, changes)
    }

    /// Makes changes in order, wholly or not at all. The cause is searched for only if one can't be made.
    pub(crate) fn make_all(
        &mut self,
        alloc: Global,
        schema: &Schema,
        changes: &[Change],
    ) -> Result<(), PrepareFault>
        requires { length changes.now ≤ 4294967294 }
        ensures ok { OnOk result (apply_from schema.now 0 changes.now self.old ≡ Ok self.new) }
        ensures refused { Refuses result (apply_from schema.now 0 changes.now self.old) }
        ensures err { OnErr result (self.new ≡ self.old) }
    {
        if self.make_in_place(alloc, schema, changes) {
            return Ok(());
        }
        self.make_by_lists(alloc, schema, changes)
    }
}
