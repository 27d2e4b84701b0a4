//! The limits of tables.

ghost use Rattle.std.specs.Prelude.{◌≡◌};
ghost use Rattle.rows.specs.Limits.{most_tables, most_columns, most_uniques, most_changes, most_bytes};

/// What a table, and what changes it, may have at most (our own rule; docs/FORMATS.md has those of each version).
#[derive(Clone, Copy, Debug, Drop, PartialEq, Eq)]
pub enum Limits {
    /// Those of versions 1 and 2 of the formats.
    Narrow,
    /// The widest.
    Wide,
}

impl Limits {
    /// Tables of a schema.
    pub fn tables(self) -> usize
        ensures { result ≡ most_tables self }
    {
        match self {
            Limits::Narrow => 256,
            Limits::Wide => 65_536,
        }
    }

    /// Columns of a table, hidden ones too.
    pub fn columns(self) -> u32
        ensures { result ≡ most_columns self }
    {
        match self {
            Limits::Narrow => 64,
            Limits::Wide => 4_096,
        }
    }

    /// Unique keys of a table.
    pub fn uniques(self) -> usize
        ensures { result ≡ most_uniques self }
    {
        match self {
            Limits::Narrow => 8,
            Limits::Wide => 64,
        }
    }

    /// Changes of a transaction.
    pub fn changes(self) -> usize
        ensures { result ≡ most_changes self }
    {
        match self {
            Limits::Narrow => 65_536,
            Limits::Wide => 4_294_967_294,
        }
    }

    /// Bytes of a value.
    pub fn bytes(self) -> u32
        ensures { result ≡ most_bytes self }
    {
        match self {
            Limits::Narrow => 65_535,
            Limits::Wide => 4_294_967_295,
        }
    }
}
