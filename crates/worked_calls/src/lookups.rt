//! Rows by their keys.

use crate::sources::bundle;
use rows::{KeyValues, Name, Rows, Value};
use std::alloc::{AllocError, Global};
use std::test::Fail;

fn table(alloc: Global) -> Option<Name> {
    let name = String::from_str(alloc, "t").ok()?;
    Name::new(name).ok()
}

/// Whether a row of `t` is stored under this primary key.
fn has_row(alloc: Global, rows: &Rows, key: KeyValues) -> bool {
    match table(alloc) {
        Some(table) => rows.get(table, key).is_some(),
        None => false,
    }
}

/// The key 9 as a list of one value.
fn key_of_nine(alloc: Global) -> Result<KeyValues, AllocError> {
    KeyValues::new(vec![in alloc; Value::Int(9)]?)
}

/// Whether the row 9 is stored under its primary key, be that one value or a list of one, and no row 1.
fn are_found(alloc: Global, rows: &Rows) -> bool {
    let is_found = match key_of_nine(alloc) {
        Ok(key) => has_row(alloc, rows, key),
        Err(_) => false,
    };
    is_found
        && has_row(alloc, rows, KeyValues::one(Value::Int(9)))
        && !has_row(alloc, rows, KeyValues::one(Value::Int(1)))
}

#[test]
fn a_row_is_found_by_its_key(rt: HostRuntime) -> Result<(), Fail> {
    let alloc = rt.alloc();
    let bundle = bundle(alloc)?;
    let found = are_found(alloc, bundle.rows());
    assert!(rt; found);
    Ok(())
}
