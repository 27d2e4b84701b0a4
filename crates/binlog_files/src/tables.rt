//! The tables that events have mapped, each by the id that it was mapped to last.
ghost use Rattle.std.specs.Prelude.{◌≡◌, OnOk, option_map};
ghost use Rattle.binlog_files.specs.Tables.{HasTables, no_tables, table_view, tables_in, with_table};

use binlog_rows::MappedColumn;
use std::alloc::{AllocError, Global};
use std::collections::BTreeMap;

/// A table of a database, and its columns.
pub(crate) struct FileTable {
    pub(crate) database: Vec<u8>,
    pub(crate) table: Vec<u8>,
    pub(crate) columns: Vec<MappedColumn>,
}

impl Drop for FileTable {
    // (by hand: for a caller the end of a FileTable is one call)
    fn drop(self) {
        let FileTable {
            database: _database,
            table: _table,
            columns: _columns,
        } = self;
    }
}

/// The tables that events have mapped.
pub(crate) struct FileTables {
    tables: BTreeMap<u64, FileTable>,
}

impl Drop for FileTables {
    // (by hand: for a caller the end of FileTables is one call)
    fn drop(self) {
        let FileTables { tables: _tables } = self;
    }
}

impl FileTables {
    /// No table is mapped.
    pub(crate) fn new(alloc: Global) -> FileTables
        ensures { HasTables result no_tables }
    {
        FileTables {
            tables: BTreeMap::new(alloc),
        }
    }

    /// The table that an id was mapped to last.
    pub(crate) fn get(&self, id: u64) -> Option<&FileTable>
        ensures { option_map (λ t. table_view t.now) result ≡ tables_in self.now id }
    {
        self.tables.get(&id)
    }

    /// Maps an id to a table.
    pub(crate) fn insert(&mut self, id: u64, table: FileTable) -> Result<(), AllocError>
        ensures { OnOk result (HasTables self.new (with_table id (table_view table) (tables_in self.old))) }
    {
        self.tables.insert(id, table)?;
        Ok(())
    }
}
