//! What hidden columns hold.
ghost use Rattle.std.specs.Prelude.{◌≡◌};
ghost use Rattle.derived_columns.specs.Columns.{table_with};

use collations::Collation;
use rows::Name;
use std::alloc::AllocError;

/// What a server compares of a column's values in a key.
#[derive(Clone, Copy, Debug, Drop)]
pub enum KeyComparison {
    /// What texts weigh by a collation.
    Text(Collation),
    /// What the first characters of texts weigh by a collation, so many or all of them.
    FirstCharacters(Collation, u32),
    /// The first bytes, so many or all of them.
    FirstBytes(u32),
    /// What the first characters of CHAR weigh by a collation. Blanks at their end don't count.
    FixedCharacters(Collation, u32),
    /// The first bytes of BINARY. Zeros at their end don't count.
    FixedBytes(u32),
    /// The numbers of FLOAT or DOUBLE, in 4 or 8 bytes, the sign first. 0 and -0 are equal.
    Float,
}

/// A column, counted from 0, of a table, and how a server compares its values in a key.
#[derive(Drop)]
pub struct KeyPart {
    pub table: Name,
    pub column: u32,
    pub comparison: KeyComparison,
}

/// What a hidden column of a table holds.
#[derive(Drop)]
pub enum DerivedColumn {
    /// What a server compares of a column's values.
    Part(KeyPart),
    /// The texts of whole images, of the table of this name.
    Row(Name),
}

impl DerivedColumn {
    /// The table that has the hidden column.
    pub fn table(&self) -> &Name
        ensures { result.now ≡ table_with self.now }
    {
        match self {
            DerivedColumn::Part(part) => &part.table,
            DerivedColumn::Row(table) => table,
        }
    }
}

impl Clone for KeyPart {
    ghost use Rattle.std.specs.Prelude.{◌≡◌};

    ghost is_clone = { λ a b. b ≡ a };

    fn clone(&self) -> Result<KeyPart, AllocError> {
        let table = self.table.clone()?;
        Ok(KeyPart {
            table,
            column: self.column,
            comparison: self.comparison,
        })
    }
}

impl Clone for DerivedColumn {
    ghost use Rattle.std.specs.Prelude.{◌≡◌};

    ghost is_clone = { λ a b. b ≡ a };

    fn clone(&self) -> Result<DerivedColumn, AllocError> {
        match self {
            DerivedColumn::Part(part) => Ok(DerivedColumn::Part(part.clone()?)),
            DerivedColumn::Row(table) => Ok(DerivedColumn::Row(table.clone()?)),
        }
    }
}
