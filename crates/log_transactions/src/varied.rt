//! Columns whose values the server compares otherwise than their bytes.
ghost use Rattle.std.specs.Prelude.{◌≡◌, ◌∷◌, ◌++◌, [], not, IfOk, OnOk, OnErr};
ghost use Rattle.std.specs.List.{list_any};
ghost use Rattle.std.specs.BTreeMap.{get};
ghost use Rattle.log_transactions.specs.Varied.{has_varied, collations_of, is_same, is_said, has_other, with_varied};
ghost use Rattle.log_transactions.specs.Known.{place_cmp, or_none, AreKnown};

use collations::Collation;
use rows::Name;
use std::alloc::{AllocError, Global};
use std::collections::BTreeMap;
use std::marker::Model;

/// A column, counted from 0, of a table whose values the server compares otherwise than their bytes.
#[derive(Drop)]
pub struct Varied {
    pub table: Name,
    pub column: usize,
    /// The collation by which they are compared, where it is one whose weights are known. FLOAT and DOUBLE have none.
    pub collation: Option<Collation>,
}

/// Such columns, in the order in which they came. A search takes as many steps as their number has binary digits.
pub struct VariedColumns {
    list: Vec<Varied>,
    /// The collations of the same columns, in the order of their tables.
    known: BTreeMap<(Name, usize), Vec<Option<Collation>>>,
}

impl Drop for VariedColumns {
    // (by hand: for a caller the end of VariedColumns is one call)
    fn drop(self) {
        let VariedColumns {
            list: _list,
            known: _known,
        } = self;
    }
}

impl Model for VariedColumns {
    ghost use Rattle.std.specs.Prelude.{List};
    ghost use Rattle.log_transactions.specs.declared.varied.Varied.{Varied};
    ghost use Rattle.log_transactions.specs.Known.{AreKnown};

    ghost Value = { List Varied };

    ghost view = { λ v. v.list.items };

    ghost invariant = { λ v. AreKnown v.list.items v.known };
}

/// The collations of a column.
fn find_collations<'a>(
    known: &'a BTreeMap<(Name, usize), Vec<Option<Collation>>>,
    table: &Name,
    column: usize,
) -> Result<&'a [Option<Collation>], AllocError>
    ensures { IfOk result (λ found. found.now ≡ or_none (get place_cmp known.now (table.now, column))) }
{
    let key = (table.clone()?, column);
    match known.get(&key) {
        Some(collations) => Ok(collations.as_slice()),
        None => Ok(&[]),
    }
}

/// Whether one of these collations is another than this one.
fn is_any_other(collations: &[Option<Collation>], collation: Option<Collation>) -> bool
    ensures { result ≡ list_any (λ said. not (is_same said collation)) collations.now }
{
    collations.iter().any(|said| *said != collation)
}

/// Collations, and one behind them.
fn with_collation(
    alloc: Global,
    collations: &[Option<Collation>],
    collation: Option<Collation>,
) -> Result<Vec<Option<Collation>>, AllocError>
    ensures { IfOk result (λ more. more.items ≡ collations.now ++ collation ∷ []) }
{
    let mut more = Vec::new(alloc);
    more.extend_from_slice(collations)?;
    more.push(collation)?;
    Ok(more)
}

/// Puts a column after the others. An error leaves all as it was.
fn put(
    alloc: Global,
    list: &mut Vec<Varied>,
    known: &mut BTreeMap<(Name, usize), Vec<Option<Collation>>>,
    one: Varied,
) -> Result<(), AllocError>
    requires { AreKnown list.old.items known.old }
    ensures put { OnOk result (list.new.items ≡ list.old.items ++ one ∷ []) }
    ensures err { OnErr result (list.new.items ≡ list.old.items) }
    ensures known { AreKnown list.new.items known.new }
{
    list.reserve(1)?;
    let collations = find_collations(known, &one.table, one.column)?;
    let more = with_collation(alloc, collations, one.collation)?;
    let name = one.table.clone()?;
    known.insert((name, one.column), more)?;
    list.push_reserved(one);
    Ok(())
}

impl VariedColumns {
    /// No column.
    pub fn new(alloc: Global) -> VariedColumns
        ensures { result ≡ [] }
    {
        VariedColumns {
            list: Vec::new(alloc),
            known: BTreeMap::new(alloc),
        }
    }

    /// These columns, in their order.
    pub fn of(alloc: Global, varied: &[Varied]) -> Result<VariedColumns, AllocError>
        ensures { IfOk result (λ columns. columns ≡ varied.now) }
    {
        let mut columns = VariedColumns::new(alloc);
        for one in varied {
            let table = one.table.clone()?;
            columns.push(alloc, table, one.column, one.collation)?;
        }
        Ok(columns)
    }

    fn push(
        &mut self,
        alloc: Global,
        table: Name,
        column: usize,
        collation: Option<Collation>,
    ) -> Result<(), AllocError>
        ensures { OnOk result (self.new ≡ self.old ++ record { table = table; column = column; collation = collation } ∷ []) }
    {
        let one = Varied {
            table,
            column,
            collation,
        };
        put(alloc, &mut self.list, &mut self.known, one)
    }

    /// The collations by which a column, counted from 0, of this table is compared, in the order in which they came.
    fn collations(&self, table: &Name, column: usize) -> Result<&[Option<Collation>], AllocError>
        ensures { IfOk result (λ found. found.now ≡ collations_of table.now column self.now) }
    {
        find_collations(&self.known, table, column)
    }

    /// Whether a column, counted from 0, of this table is among them.
    pub fn has(&self, table: &Name, column: usize) -> Result<bool, AllocError>
        ensures { IfOk result (λ has. has ≡ has_varied table.now column self.now) }
    {
        let collations = self.collations(table, column)?;
        Ok(!collations.is_empty())
    }

    /// Whether they say that a column, counted from 0, of this table is compared by another collation, or by none whose weights are known.
    pub fn has_other(
        &self,
        table: &Name,
        column: usize,
        collation: Collation,
    ) -> Result<bool, AllocError>
        ensures { IfOk result (λ has. has ≡ has_other table.now column collation self.now) }
    {
        let collations = self.collations(table, column)?;
        Ok(is_any_other(collations, Some(collation)))
    }

    /// Whether a column is among them with this collation.
    fn is_said(
        &self,
        table: &Name,
        column: usize,
        collation: Option<Collation>,
    ) -> Result<bool, AllocError>
        ensures { IfOk result (λ said. said ≡ is_said table.now column collation self.now) }
    {
        let collations = self.collations(table, column)?;
        Ok(collations.contains(&collation))
    }

    /// Adds a column of a table after the others, if it is not among them with the same collation.
    pub fn add(
        &mut self,
        alloc: Global,
        table: Name,
        column: usize,
        collation: Option<Collation>,
    ) -> Result<(), AllocError>
        ensures { OnOk result (self.new ≡ with_varied self.old table column collation) }
    {
        if self.is_said(&table, column, collation)? {
            return Ok(());
        }
        self.push(alloc, table, column, collation)
    }

    /// The columns, in their order.
    pub fn into_list(self) -> Vec<Varied>
        ensures { result.items ≡ self }
    {
        let VariedColumns {
            list,
            known: _known,
        } = self;
        list
    }
}
