//! Tables that a statement maps, and their names.
ghost use Rattle.std.specs.Prelude.{◌≡◌, ◌<◌, ◌∷◌, ◌++◌, [], IfOk, OnOk, OnErr, option_map};
ghost use Rattle.log_transactions.specs.Tables.{hex_digit, escaped_byte, escaped, joined_name, find_table, table_name};
ghost use Rattle.log_transactions.specs.Places.{ArePlaces};
ghost use Rattle.rows.specs.Names.{is_plain};

use rows::{Name, NameFault};
use std::alloc::{AllocError, Global};
use std::collections::BTreeMap;
use std::marker::Model;

/// A table by its name, with the number of its columns.
#[derive(Drop)]
pub struct StatementTable {
    pub name: Name,
    pub columns: usize,
}

/// The tables that a statement has mapped, in order. A table is found in as many steps as their number has binary digits.
pub struct StatementTables {
    list: Vec<StatementTable>,
    /// The place of the first table of each name.
    places: BTreeMap<Name, usize>,
}

impl Drop for StatementTables {
    // (by hand: for a caller the end of StatementTables is one call)
    fn drop(self) {
        let StatementTables {
            list: _list,
            places: _places,
        } = self;
    }
}

impl Model for StatementTables {
    ghost use Rattle.std.specs.Prelude.{List};
    ghost use Rattle.log_transactions.specs.Places.{ArePlaces};
    ghost use Rattle.log_transactions.specs.declared.mapped.StatementTable.{StatementTable};

    ghost Value = { List StatementTable };

    ghost view = { λ t. t.list.items };

    ghost invariant = { λ t. ArePlaces t.list.items t.places };
}

/// Appends a table, if there is room for it. An error changes nothing.
fn put(
    list: &mut Vec<StatementTable>,
    places: &mut BTreeMap<Name, usize>,
    table: StatementTable,
) -> Result<(), AllocError>
    requires { ArePlaces list.old.items places.old }
    ensures put { OnOk result (list.new.items ≡ list.old.items ++ table ∷ []) }
    ensures err { OnErr result (list.new.items ≡ list.old.items) }
    ensures places { ArePlaces list.new.items places.new }
{
    list.reserve(1)?;
    if places.get(&table.name).is_none() {
        let name = table.name.clone()?;
        places.insert(name, list.as_slice().len())?;
    }
    list.push_reserved(table);
    Ok(())
}

impl StatementTables {
    /// No table.
    pub fn new(alloc: Global) -> StatementTables
        ensures { result ≡ [] }
    {
        StatementTables {
            list: Vec::new(alloc),
            places: BTreeMap::new(alloc),
        }
    }

    /// Adds a table after the others.
    pub fn push(&mut self, table: StatementTable) -> Result<(), AllocError>
        ensures { OnOk result (self.new ≡ self.old ++ table ∷ []) }
    {
        put(&mut self.list, &mut self.places, table)
    }

    /// The first table of this name.
    pub fn find(&self, name: &Name) -> Option<&StatementTable>
        ensures { option_map (λ t. t.now) result ≡ find_table name.now self.now }
    {
        match self.places.get(name) {
            Some(place) => self.list.get(*place),
            None => None,
        }
    }
}

/// Whether a byte of a name stands for itself.
fn is_plain(byte: u8) -> bool
    ensures { result ≡ is_plain byte }
{
    byte.is_ascii_lowercase()
        || byte.is_ascii_uppercase()
        || byte.is_ascii_digit()
        || byte == b'_'
        || byte == b'$'
        || byte == b'-'
}

/// The hexadecimal digit of a number below 16.
fn hex_digit(number: u8) -> u8
    requires { number < 16 }
    ensures { result ≡ hex_digit number }
{
    if number < 10 {
        b'0' + number
    } else {
        b'a' - 10 + number
    }
}

/// Appends a byte of a name, or its escape.
fn put_escaped_byte(name: &mut Vec<u8>, byte: u8) -> Result<(), AllocError>
    ensures { OnOk result (name.new.items ≡ name.old.items ++ escaped_byte byte) }
{
    if is_plain(byte) {
        name.push(byte)?;
        return Ok(());
    }
    let escape = [b'%', hex_digit(byte / 16), hex_digit(byte % 16)];
    name.extend_from_slice(&escape)
}

/// Appends a part of a name, with escapes for the bytes that don't stand for themselves.
fn put_escaped(name: &mut Vec<u8>, part: &[u8]) -> Result<(), AllocError>
    ensures { OnOk result (name.new.items ≡ name.old.items ++ escaped part.now) }
{
    for byte in part {
        put_escaped_byte(name, *byte)?;
    }
    Ok(())
}

/// The names of a table's database and of the table, with a dot between them.
fn joined_name(alloc: Global, database: &[u8], table: &[u8]) -> Result<Vec<u8>, AllocError>
    ensures { IfOk result (λ name. name.items ≡ joined_name database.now table.now) }
{
    let mut name = Vec::new(alloc);
    put_escaped(&mut name, database)?;
    name.push(b'.')?;
    put_escaped(&mut name, table)?;
    Ok(name)
}

/// The name of a table of a database, by its database's name and its own. There is none where one of the two is empty, and where theirs is
/// longer than a name may be.
pub fn table_name(alloc: Global, database: &[u8], table: &[u8]) -> Result<Option<Name>, AllocError>
    ensures { IfOk result (λ found. found ≡ table_name database.now table.now) }
{
    let name = joined_name(alloc, database, table)?;
    let Ok(text) = String::from_utf8(name) else {
        return Ok(None);
    };
    match Name::new(text) {
        Ok(name) => Ok(Some(name)),
        Err(NameFault::NotAName) => Ok(None),
        Err(NameFault::Memory) => Err(AllocError),
    }
}
