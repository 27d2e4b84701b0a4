//! The names of the tables that events have mapped, and their columns.
ghost use Rattle.std.specs.Prelude.{◌≡◌, OnOk, IfOk, option_map};
ghost use Rattle.binlog_events.specs.Texts.{table_name};
ghost use Rattle.binlog_events.specs.Bodies.{mapped_table};
ghost use Rattle.binlog_events.specs.Names.{described_by, described, names_in, HasNames, no_names, with_name, names_after};

use crate::bodies::{NamedTable, mapped};
use crate::text::put_table_name;
use binlog_rows::{MappedColumn, read_columns};
use std::alloc::{AllocError, Global};
use std::collections::BTreeMap;

/// A table that an event has mapped.
pub(crate) struct DescribedTable {
    pub(crate) name: Vec<u8>,
    /// The columns, if they could be read.
    pub(crate) columns: Option<Vec<MappedColumn>>,
}

impl Drop for DescribedTable {
    // (by hand: for a caller the end of a DescribedTable is one call)
    fn drop(self) {
        let DescribedTable {
            name: _name,
            columns: _columns,
        } = self;
    }
}

/// The tables that events have mapped, each by the id that it was mapped to last.
pub(crate) struct TableNames {
    names: BTreeMap<u64, DescribedTable>,
}

impl Drop for TableNames {
    // (by hand: for a caller the end of TableNames is one call)
    fn drop(self) {
        let TableNames { names: _names } = self;
    }
}

/// The name of a table of a database.
fn table_name(alloc: Global, database: &[u8], table: &[u8]) -> Result<Vec<u8>, AllocError>
    ensures { IfOk result (λ name. name.items ≡ table_name database.now table.now) }
{
    let mut name = Vec::new(alloc);
    put_table_name(&mut name, database, table)?;
    Ok(name)
}

/// What an event says of the table that it maps.
fn described_by(
    alloc: Global,
    found: &NamedTable<'_>,
    body: &[u8],
) -> Result<DescribedTable, AllocError>
    ensures { IfOk result (λ table. described table ≡ described_by (mapped_table found.now) body.now) }
{
    let columns = read_columns(alloc, body)?;
    let name = table_name(alloc, found.database, found.table)?;
    Ok(DescribedTable { name, columns })
}

impl TableNames {
    /// No table is mapped.
    pub(crate) fn new(alloc: Global) -> TableNames
        ensures { HasNames result no_names }
    {
        TableNames {
            names: BTreeMap::new(alloc),
        }
    }

    /// The table that an id was mapped to last.
    pub(crate) fn get(&self, id: u64) -> Option<&DescribedTable>
        ensures { option_map (λ t. described t.now) result ≡ names_in self.now id }
    {
        self.names.get(&id)
    }

    /// Maps an id to a table.
    fn insert(&mut self, id: u64, table: DescribedTable) -> Result<(), AllocError>
        ensures { OnOk result (HasNames self.new (with_name id (described table) (names_in self.old))) }
    {
        self.names.insert(id, table)?;
        Ok(())
    }

    /// Maps what an event maps.
    pub(crate) fn note(&mut self, alloc: Global, kind: u8, body: &[u8]) -> Result<(), AllocError>
        ensures { OnOk result (HasNames self.new (names_after kind body.now (names_in self.old))) }
    {
        if kind != 19 {
            return Ok(());
        }
        let Some(found) = mapped(body) else {
            return Ok(());
        };
        let table = described_by(alloc, &found, body)?;
        self.insert(found.id, table)
    }
}
