//! Tables that a statement maps.
ghost use Rattle.std.specs.Prelude.{◌≡◌, ◌∷◌, ◌++◌, [], OnOk, OnErr, option_map, slice_get, length};
ghost use Rattle.binlog_entries.specs.Tables.{find_table};
ghost use Rattle.binlog_entries.specs.Places.{ArePlaces};

use binlog_text::ColumnType;
use rows::Name;
use std::alloc::{AllocError, Global};
use std::collections::BTreeMap;
use std::marker::Model;

/// A table by its name, with the types of its columns in order.
#[derive(Drop)]
pub struct Mapped {
    name: Name,
    columns: Vec<ColumnType>,
}

impl Model for Mapped {
    ghost use Rattle.binlog_entries.specs.Tables.{Table};

    ghost Value = { Table };

    ghost view = { λ m. record { name = m.name; columns = m.columns.items } };
}

impl Mapped {
    /// A table of which no column has come.
    pub fn new(alloc: Global, name: Name) -> Mapped
        ensures { result ≡ record { name = name; columns = [] } }
    {
        Mapped {
            name,
            columns: Vec::new(alloc),
        }
    }

    /// Its name.
    pub fn name(&self) -> &Name
        ensures { result.now ≡ self.now.name }
    {
        &self.name
    }

    /// Adds a column after the others.
    pub fn add(&mut self, column: ColumnType) -> Result<(), AllocError>
        ensures { OnOk result (self.new ≡ record { name = self.old.name; columns = self.old.columns ++ column ∷ [] }) }
    {
        self.columns.push(column)?;
        Ok(())
    }

    /// How many columns there are.
    pub fn len(&self) -> usize
        ensures { result ≡ length self.now.columns }
    {
        self.columns.len()
    }

    /// The type of a column, counted from 0.
    pub fn column(&self, place: usize) -> Option<ColumnType>
        ensures { result ≡ slice_get self.now.columns place }
    {
        match self.columns.get(place) {
            Some(column) => Some(*column),
            None => None,
        }
    }
}

/// The tables that a statement has mapped, in order. A table is found in as many steps as their number has binary digits.
pub struct Tables {
    list: Vec<Mapped>,
    /// The place of the first table of each name.
    places: BTreeMap<Name, usize>,
}

impl Drop for Tables {
    // (by hand: for a caller the end of Tables is one call)
    fn drop(self) {
        let Tables {
            list: _list,
            places: _places,
        } = self;
    }
}

impl Model for Tables {
    ghost use Rattle.std.specs.Prelude.{List};
    ghost use Rattle.binlog_entries.specs.Tables.{Table};
    ghost use Rattle.binlog_entries.specs.Places.{ArePlaces};

    ghost Value = { List Table };

    ghost view = { λ t. t.list.items };

    ghost invariant = { λ t. ArePlaces t.list.items t.places };
}

/// Appends a table, if there is room for it. An error changes nothing.
fn put(
    list: &mut Vec<Mapped>,
    places: &mut BTreeMap<Name, usize>,
    table: Mapped,
) -> Result<(), AllocError>
    requires { ArePlaces list.old.items places.old }
    ensures put { OnOk result (list.new.items ≡ list.old.items ++ table ∷ []) }
    ensures err { OnErr result (list.new.items ≡ list.old.items) }
    ensures places { ArePlaces list.new.items places.new }
{
    list.reserve(1)?;
    if places.get(&table.name).is_none() {
        let name = table.name.clone()?;
        places.insert(name, list.as_slice().len())?;
    }
    list.push_reserved(table);
    Ok(())
}

impl Tables {
    /// No table.
    pub fn new(alloc: Global) -> Tables
        ensures { result ≡ [] }
    {
        Tables {
            list: Vec::new(alloc),
            places: BTreeMap::new(alloc),
        }
    }

    /// Adds a table after the others.
    pub fn push(&mut self, table: Mapped) -> Result<(), AllocError>
        ensures { OnOk result (self.new ≡ self.old ++ table ∷ []) }
    {
        put(&mut self.list, &mut self.places, table)
    }

    /// The first table of this name.
    pub fn find(&self, name: &Name) -> Option<&Mapped>
        ensures { option_map (λ t. t.now) result ≡ find_table name.now self.now }
    {
        match self.places.get(name) {
            Some(place) => self.list.get(*place),
            None => None,
        }
    }
}
