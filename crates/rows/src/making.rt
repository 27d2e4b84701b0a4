//! Changes are made in place, with a way back that does not allocate.
ghost use Rattle.std.specs.Prelude.{◌≡◌, ◌≤◌, ◌<◌, ◌+◌, ◌++◌, ◌∷◌, [], length, Ok, OnOk, IfOk};
ghost use Rattle.std.specs.Bool.{Decides};
ghost use Rattle.std.specs.FinMap as map;
ghost use Rattle.std.specs.Vec.{vec_capacity};
ghost use Rattle.indexmap.specs.IndexMap.{spare};
ghost use Rattle.rows.specs.declared.change.Change.TheVariants.{Update};
ghost use Rattle.rows.specs.Apply.{with_row, without_keys, insert_row, delete_row, apply_change, apply_from};
ghost use Rattle.rows.specs.Keys.{carried_keys};
ghost use Rattle.rows.specs.Making.{put_back, update_row};
ghost use Rattle.rows.specs.Order.{key_cmp};
ghost use Rattle.rows.specs.Patch.{put};
ghost use Rattle.rows.specs.Refusal.{Refuses};

use crate::change::{Change, Key, PrepareFault, RowFault};
use crate::keys::{carried_keys, keeps_keys, push_carried};
use crate::name::Name;
use crate::patch::Seen;
use crate::schema::Schema;
use crate::standing::{first_taken, holds};
use key_table::KeyTable;
use row_images::Row;
use std::alloc::{AllocError, Global};
use std::marker::Model;

/// Rows that are being changed, with what was written over.
#[derive(Drop)]
pub(crate) struct Making {
    carriers: KeyTable<Key, Row>,
    /// Each key that was written, in order, with what was there.
    log: Vec<Seen>,
}

impl Model for Making {
    ghost use Rattle.std.specs.Prelude.{◌≤◌, length};
    ghost use Rattle.std.specs.FinMap as map;
    ghost use Rattle.indexmap.specs.IndexMap.{spare};
    ghost use Rattle.rows.specs.Making.{Course, course_code, put_back};

    ghost Value = { Course };

    ghost coded = { course_code };

    ghost view = { λ a. record { made = map.from_entries a.carriers.entries; before = put_back a.log.items (map.from_entries a.carriers.entries) } };

    // Putting all back does not allocate.
    ghost invariant = { λ a. length a.log.items ≤ spare a.carriers };
}

/// Room for one more write, and for what puts it back.
fn make_room(carriers: &mut KeyTable<Key, Row>, log: &mut Vec<Seen>) -> Result<(), AllocError>
    ensures entries { carriers.new.entries ≡ carriers.old.entries }
    ensures log { log.new.items ≡ log.old.items }
    ensures spare { spare carriers.old ≤ spare carriers.new }
    ensures write { OnOk result (length log.new.items + 2 ≤ spare carriers.new) }
    ensures note { OnOk result (length log.new.items < vec_capacity log.new) }
{
    log.reserve(1)?;
    carriers.reserve(log.as_slice().len() + 2)
}

/// Puts a row under a key. The result is what was there.
pub(crate) fn put_in_room(carriers: &mut KeyTable<Key, Row>, key: Key, row: Row) -> Option<Row>
    requires { 0 < spare carriers.old }
    ensures rows { map.from_entries {R = key_cmp} carriers.new.entries ≡ map.insert (map.from_entries carriers.old.entries) key row }
    ensures over { result ≡ map.get (map.from_entries {R = key_cmp} carriers.old.entries) key }
    ensures spare { spare carriers.old ≤ spare carriers.new + 1 }
{
    let Ok(over) = carriers.insert(key, row) else {
        unreachable!()
    };
    over
}

/// Removes what is stored under a key, and returns it.
fn take_out(carriers: &mut KeyTable<Key, Row>, key: &Key) -> Option<Row>
    ensures rows { map.from_entries {R = key_cmp} carriers.new.entries ≡ map.remove (map.from_entries carriers.old.entries) key.now }
    ensures over { result ≡ map.get (map.from_entries {R = key_cmp} carriers.old.entries) key.now }
    ensures spare { spare carriers.old ≤ spare carriers.new }
{
    carriers.swap_remove(key)
}

/// Puts back what was under a key.
fn restore(carriers: &mut KeyTable<Key, Row>, seen: Seen)
    requires { 0 < spare carriers.old }
    ensures rows { map.from_entries {R = key_cmp} carriers.new.entries ≡ put seen.key seen.row (map.from_entries carriers.old.entries) }
    ensures spare { spare carriers.old ≤ spare carriers.new + 1 }
{
    let Seen { key, row } = seen;
    match row {
        Some(row) => {
            put_in_room(carriers, key, row);
        }
        None => {
            take_out(carriers, &key);
        }
    }
}

/// Puts back what was under each of these keys, the last first.
fn restore_all(carriers: &mut KeyTable<Key, Row>, log: Vec<Seen>)
    requires { length log.items ≤ spare carriers.old }
    ensures { map.from_entries {R = key_cmp} carriers.new.entries ≡ put_back log.items (map.from_entries carriers.old.entries) }
{
    let mut log = log;
    while let Some(seen) = log.pop() {
        restore(carriers, seen);
    }
}

/// Notes what was under a key.
fn note(log: &mut Vec<Seen>, seen: Seen)
    requires { length log.old.items < vec_capacity log.old }
    ensures { log.new.items ≡ log.old.items ++ seen ∷ [] }
{
    let _ = log.push(seen);
}

/// Whether both lists have the same keys in the same order.
fn are_same_keys(a: &[Key], b: &[Key]) -> bool
    ensures { Decides result (a.now ≡ b.now) }
{
    a == b
}

/// The keys of both images of an update.
fn keys_of_both(
    alloc: Global,
    schema: &Schema,
    table: &Name,
    before: &Row,
    after: &Row,
) -> Result<(Vec<Key>, Vec<Key>), AllocError>
    ensures before { IfOk result (λ keys. keys.0.items ≡ carried_keys schema.now table.now before.now) }
    ensures after { IfOk result (λ keys. keys.1.items ≡ carried_keys schema.now table.now after.now) }
{
    let keys = carried_keys(alloc, schema, table, before)?;
    let keys_after = carried_keys(alloc, schema, table, after)?;
    Ok((keys, keys_after))
}

impl Making {
    /// Nothing is made yet.
    pub(crate) fn start(carriers: KeyTable<Key, Row>, log: Vec<Seen>) -> Making
        requires { length log.items ≡ 0 }
        ensures made { result.made ≡ map.from_entries carriers.entries }
        ensures before { result.before ≡ map.from_entries carriers.entries }
    {
        Making { carriers, log }
    }

    /// The rows that were made.
    pub(crate) fn finish(self) -> KeyTable<Key, Row>
        ensures { map.from_entries {R = key_cmp} result.entries ≡ self.made }
    {
        let Making { carriers, .. } = self;
        carriers
    }

    /// The rows as they were before.
    pub(crate) fn undo(self) -> KeyTable<Key, Row>
        ensures { map.from_entries {R = key_cmp} result.entries ≡ self.before }
    {
        let Making { carriers, log } = self;
        let mut carriers = carriers;
        restore_all(&mut carriers, log);
        carriers
    }

    /// Puts a row under a key.
    fn put(&mut self, key: Key, row: Row) -> Result<(), AllocError>
        ensures ok { OnOk result (self.new.made ≡ map.insert self.old.made key row) }
        ensures before { self.new.before ≡ self.old.before }
    {
        let own = key.copy()?;
        make_room(&mut self.carriers, &mut self.log)?;
        let row = put_in_room(&mut self.carriers, own, row);
        note(&mut self.log, Seen { key, row });
        Ok(())
    }

    /// Removes what is stored under a key.
    fn take(&mut self, key: Key) -> Result<(), AllocError>
        ensures ok { OnOk result (self.new.made ≡ map.remove self.old.made key) }
        ensures before { self.new.before ≡ self.old.before }
    {
        make_room(&mut self.carriers, &mut self.log)?;
        let row = take_out(&mut self.carriers, &key);
        note(&mut self.log, Seen { key, row });
        Ok(())
    }

    /// Puts a row under each of these keys, the last first.
    fn place(&mut self, keys: &mut Vec<Key>, row: &Row) -> Result<(), AllocError>
        ensures ok { OnOk result (self.new.made ≡ with_row keys.old.items row.now self.old.made) }
        ensures none { OnOk result (keys.new.items ≡ []) }
        ensures before { self.new.before ≡ self.old.before }
    {
        while let Some(key) = keys.pop() {
            let row = row.clone()?;
            self.put(key, row)?;
        }
        Ok(())
    }

    /// Removes what is stored under each of these keys, the last first.
    fn clear(&mut self, keys: &mut Vec<Key>) -> Result<(), AllocError>
        ensures ok { OnOk result (self.new.made ≡ without_keys keys.old.items self.old.made) }
        ensures none { OnOk result (keys.new.items ≡ []) }
        ensures before { self.new.before ≡ self.old.before }
    {
        while let Some(key) = keys.pop() {
            self.take(key)?;
        }
        Ok(())
    }

    /// Puts a row under its keys, if each of them is free.
    fn insert_row(
        &mut self,
        keys: &mut Vec<Key>,
        row: &Row,
        change: u32,
    ) -> Result<(), PrepareFault>
        ensures ok { OnOk result (insert_row change keys.old.items row.now self.old.made ≡ Ok self.new.made) }
        ensures none { OnOk result (keys.new.items ≡ []) }
        ensures refused { Refuses result (insert_row change keys.old.items row.now self.old.made) }
        ensures before { self.new.before ≡ self.old.before }
    {
        if let Some(key) = first_taken(&self.carriers, keys.as_slice()) {
            return Err(PrepareFault::Row(RowFault::DuplicateKey { change, key }));
        }
        match self.place(keys, row) {
            Ok(()) => Ok(()),
            Err(_) => Err(PrepareFault::Memory),
        }
    }

    /// Removes a row under its keys, if it is there.
    fn delete_row(
        &mut self,
        keys: &mut Vec<Key>,
        row: &Row,
        change: u32,
    ) -> Result<(), PrepareFault>
        ensures ok { OnOk result (delete_row change keys.old.items row.now self.old.made ≡ Ok self.new.made) }
        ensures none { OnOk result (keys.new.items ≡ []) }
        ensures refused { Refuses result (delete_row change keys.old.items row.now self.old.made) }
        ensures before { self.new.before ≡ self.old.before }
    {
        if let Err(fault) = holds(&self.carriers, keys.as_slice(), row, change) {
            return Err(PrepareFault::Row(fault));
        }
        match self.clear(keys) {
            Ok(()) => Ok(()),
            Err(_) => Err(PrepareFault::Memory),
        }
    }

    /// Puts a row in the place of another that carries the same keys, if that is there.
    fn replace_row(
        &mut self,
        keys: &mut Vec<Key>,
        before: &Row,
        after: &Row,
        change: u32,
    ) -> Result<(), PrepareFault>
        ensures ok { OnOk result (update_row change keys.old.items before.now keys.old.items after.now self.old.made ≡ Ok self.new.made) }
        ensures none { OnOk result (keys.new.items ≡ []) }
        ensures refused { Refuses result (update_row change keys.old.items before.now keys.old.items after.now self.old.made) }
        ensures before { self.new.before ≡ self.old.before }
    {
        if let Err(fault) = holds(&self.carriers, keys.as_slice(), before, change) {
            return Err(PrepareFault::Row(fault));
        }
        match self.place(keys, after) {
            Ok(()) => Ok(()),
            Err(_) => Err(PrepareFault::Memory),
        }
    }

    /// Puts a row in the place of another.
    fn update_row(
        &mut self,
        mut keys: Vec<Key>,
        before: &Row,
        mut keys_after: Vec<Key>,
        after: &Row,
        change: u32,
    ) -> Result<(), PrepareFault>
        ensures ok { OnOk result (update_row change keys.items before.now keys_after.items after.now self.old.made ≡ Ok self.new.made) }
        ensures refused { Refuses result (update_row change keys.items before.now keys_after.items after.now self.old.made) }
        ensures before { self.new.before ≡ self.old.before }
    {
        if are_same_keys(&keys, &keys_after) {
            return self.replace_row(&mut keys, before, after, change);
        }
        match self.delete_row(&mut keys, before, change) {
            Ok(()) => self.insert_row(&mut keys_after, after, change),
            Err(fault) => Err(fault),
        }
    }

    /// Puts a row of a table in the place of another that carries the same keys, if that is there.
    fn replace_image(
        &mut self,
        alloc: Global,
        schema: &Schema,
        keys: &mut Vec<Key>,
        n: u32,
        table: &Name,
        before: &Row,
        after: &Row,
    ) -> Result<(), PrepareFault>
        requires { keys.old.items ≡ [] }
        ensures none { OnOk result (keys.new.items ≡ []) }
        ensures ok { OnOk result (update_row n (carried_keys schema.now table.now before.now) before.now (carried_keys schema.now table.now before.now) after.now self.old.made ≡ Ok self.new.made) }
        ensures refused { Refuses result (update_row n (carried_keys schema.now table.now before.now) before.now (carried_keys schema.now table.now before.now) after.now self.old.made) }
        ensures before { self.new.before ≡ self.old.before }
    {
        match push_carried(alloc, schema, keys, table, before) {
            Ok(()) => self.replace_row(keys, before, after, n),
            Err(_) => Err(PrepareFault::Memory),
        }
    }

    /// Puts a row of a table in the place of another. If the keys stay, they are made once.
    fn update_image(
        &mut self,
        alloc: Global,
        schema: &Schema,
        keys: &mut Vec<Key>,
        n: u32,
        table: &Name,
        before: &Row,
        after: &Row,
    ) -> Result<(), PrepareFault>
        requires { keys.old.items ≡ [] }
        ensures none { OnOk result (keys.new.items ≡ []) }
        ensures ok { OnOk result (apply_change schema.now n (Update table.now before.now after.now) self.old.made ≡ Ok self.new.made) }
        ensures refused { Refuses result (apply_change schema.now n (Update table.now before.now after.now) self.old.made) }
        ensures before { self.new.before ≡ self.old.before }
    {
        if keeps_keys(schema, table, before, after) {
            return self.replace_image(alloc, schema, keys, n, table, before, after);
        }
        match keys_of_both(alloc, schema, table, before, after) {
            Ok((keys_before, keys_after)) => {
                self.update_row(keys_before, before, keys_after, after, n)
            }
            Err(_) => Err(PrepareFault::Memory),
        }
    }

    /// Makes one change. The list of keys is empty before it, and after it if the change was made.
    fn make(
        &mut self,
        alloc: Global,
        schema: &Schema,
        keys: &mut Vec<Key>,
        n: u32,
        change: &Change,
    ) -> Result<(), PrepareFault>
        requires { keys.old.items ≡ [] }
        ensures none { OnOk result (keys.new.items ≡ []) }
        ensures ok { OnOk result (apply_change schema.now n change.now self.old.made ≡ Ok self.new.made) }
        ensures refused { Refuses result (apply_change schema.now n change.now self.old.made) }
        ensures before { self.new.before ≡ self.old.before }
    {
        match change {
            Change::Insert { table, after } => {
                match push_carried(alloc, schema, keys, table, after) {
                    Ok(()) => self.insert_row(keys, after, n),
                    Err(_) => Err(PrepareFault::Memory),
                }
            }
            Change::Delete { table, before } => {
                match push_carried(alloc, schema, keys, table, before) {
                    Ok(()) => self.delete_row(keys, before, n),
                    Err(_) => Err(PrepareFault::Memory),
                }
            }
            Change::Update {
                table,
                before,
                after,
            } => self.update_image(alloc, schema, keys, n, table, before, after),
        }
    }

    /// Makes changes in order. After a refusal some of them are made.
    pub(crate) fn make_all(
        &mut self,
        alloc: Global,
        schema: &Schema,
        changes: &[Change],
    ) -> Result<(), PrepareFault>
        requires { length changes.now ≤ 4294967294 }
        ensures ok { OnOk result (apply_from schema.now 0 changes.now self.old.made ≡ Ok self.new.made) }
        ensures refused { Refuses result (apply_from schema.now 0 changes.now self.old.made) }
        ensures before { self.new.before ≡ self.old.before }
    {
        // (one list for the keys of each change)
        let mut keys = Vec::new(alloc);
        for (n, change) in changes.iter().enumerate() {
            self.make(alloc, schema, &mut keys, n as u32, change)?;
        }
        Ok(())
    }
}
