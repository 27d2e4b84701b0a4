//! What is derived from images.
ghost use Rattle.std.specs.Prelude.{◌≡◌, false, Ok, IfOk, IfErr};
ghost use Rattle.std.specs.Result.{result_ok};
ghost use Rattle.derived_columns.specs.Columns.{table_columns};
ghost use Rattle.derived_columns.specs.Images.{derived_image};
ghost use Rattle.derived_columns.specs.Entries.{derived_changes};
ghost use Rattle.derived_columns.specs.Faults.{IsImageFault};

use crate::column::DerivedColumn;
use crate::fault::ImageFault;
use crate::images::with_hidden;
use crate::tables::{by_table, touches};
use key_table::KeyTable;
use rows::{Change, Name, Row};
use std::alloc::{AllocError, Global};
use std::marker::Model;

/// What hidden columns hold, in their order.
pub struct Derivation {
    columns: Vec<DerivedColumn>,
    tables: KeyTable<Name, Vec<DerivedColumn>>,
}

impl Drop for Derivation {
    // (by hand: for a caller the end of a Derivation is one call)
    fn drop(self) {
        let Derivation {
            columns: _columns,
            tables: _tables,
        } = self;
    }
}

impl Model for Derivation {
    ghost use Rattle.std.specs.Prelude.{List};
    ghost use Rattle.derived_columns.specs.declared.column.DerivedColumn.{DerivedColumn};
    ghost use Rattle.derived_columns.specs.Tables.{AreByTable};

    ghost Value = { List DerivedColumn };

    ghost view = { λ a. a.columns.items };

    ghost invariant = { λ a. AreByTable a.columns.items a.tables };
}

impl Derivation {
    /// With these columns.
    pub fn of(alloc: Global, columns: Vec<DerivedColumn>) -> Result<Derivation, AllocError>
        ensures { IfOk result (λ derivation. derivation ≡ columns.items) }
    {
        let tables = by_table(alloc, columns.as_slice())?;
        Ok(Derivation { columns, tables })
    }

    /// The columns, in their order.
    pub fn columns(&self) -> &[DerivedColumn]
        ensures { result.now ≡ self.now }
    {
        self.columns.as_slice()
    }

    /// Those of a table, in their order: the nth of them is what its nth hidden column holds.
    pub fn table_columns(&self, table: &Name) -> &[DerivedColumn]
        ensures { result.now ≡ table_columns self.now table.now }
    {
        let none: &[DerivedColumn] = &[];
        match self.tables.get(table) {
            Some(columns) => columns.as_slice(),
            None => none,
        }
    }

    /// Whether one of the changes is of a table with hidden columns. (Else they are derived as they are.)
    pub(crate) fn touches(&self, changes: &[Change]) -> bool
        ensures { result ≡ false → derived_changes self.now changes.now ≡ Ok changes.now }
    {
        touches(&self.tables, changes)
    }

    /// An image of a table with its hidden values behind, or the first part of a key that has none.
    pub(crate) fn derive_image(
        &self,
        alloc: Global,
        table: &Name,
        image: &Row,
    ) -> Result<Row, ImageFault>
        ensures found { IfOk result (λ row. derived_image self.now table.now image.now ≡ Ok row) }
        ensures fault { IfErr result (IsImageFault (derived_image self.now table.now image.now)) }
    {
        with_hidden(alloc, self.table_columns(table), image)
    }

    /// An image of a table with its hidden values behind: none, if it lacks the column of a part of a key, or if the value there has no
    /// hidden value. If the table has no hidden columns, the image is shared.
    pub fn derive_row(
        &self,
        alloc: Global,
        table: &Name,
        image: &Row,
    ) -> Result<Option<Row>, AllocError>
        ensures { IfOk result (λ found. found ≡ result_ok (derived_image self.now table.now image.now)) }
    {
        match self.derive_image(alloc, table, image) {
            Ok(row) => Ok(Some(row)),
            Err(ImageFault::NoHiddenValue(_part)) => Ok(None),
            Err(ImageFault::Memory) => Err(AllocError),
        }
    }
}
