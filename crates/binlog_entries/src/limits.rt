//! Which limit of a journal, by version 3 of its format, an entry passes.
ghost use Rattle.std.specs.Prelude.{◌≡◌, ◌≤◌, length, IfOk};
ghost use Rattle.journal.specs.Writing.{is_value_writable};
ghost use Rattle.binlog_entries.specs.Limits.{first_long, image_limit, change_limit, changes_limit, limit_of};
ghost use Rattle.rows.specs.declared.limits.Limits.TheVariants.{Wide};

use journal::Entry;
use rows::{Change, Limits, Name, Row, Value};
use std::alloc::{AllocError, Global};

/// What of an entry passes a limit of a journal, by version 3 of its format.
#[derive(Drop)]
pub enum Limit {
    /// It has more than 4,294,967,294 changes.
    Changes,
    /// An image of this table has more than 4,096 columns, or none.
    Columns(Name),
    /// A value of this column, counted from 0, of this table has more than 4,294,967,295 bytes.
    Bytes(Name, usize),
}

fn is_value_writable(value: &Value) -> bool
    ensures { result ≡ is_value_writable Wide value.now }
{
    match value {
        Value::Null | Value::Int(_) => true,
        Value::Bytes(bytes) => bytes.as_slice().len() <= 4_294_967_295,
    }
}

/// The column of the first value that has too many bytes.
fn first_long(alloc: Global, image: &Row) -> Result<Option<usize>, AllocError>
    requires { length image.now ≤ 4096 }
    ensures { IfOk result (λ column. column ≡ first_long 0 image.now) }
{
    for column in 0..image.len() {
        let value = image.value_at(alloc, column as u32)?;
        if !is_value_writable(&value) {
            return Ok(Some(column));
        }
    }
    Ok(None)
}

fn image_limit(alloc: Global, table: &Name, image: &Row) -> Result<Option<Limit>, AllocError>
    ensures { IfOk result (λ limit. limit ≡ image_limit table.now image.now) }
{
    if image.len() < 1 || image.len() > 4_096 {
        let table = table.clone()?;
        return Ok(Some(Limit::Columns(table)));
    }
    if !image.has_longer_value(Limits::Wide.bytes()) {
        return Ok(None);
    }
    let Some(column) = first_long(alloc, image)? else {
        return Ok(None);
    };
    let table = table.clone()?;
    Ok(Some(Limit::Bytes(table, column)))
}

fn change_limit(alloc: Global, change: &Change) -> Result<Option<Limit>, AllocError>
    ensures { IfOk result (λ limit. limit ≡ change_limit change.now) }
{
    match change {
        Change::Insert { table, after } => image_limit(alloc, table, after),
        Change::Delete { table, before } => image_limit(alloc, table, before),
        Change::Update {
            table,
            before,
            after,
        } => {
            if let Some(limit) = image_limit(alloc, table, before)? {
                return Ok(Some(limit));
            }
            image_limit(alloc, table, after)
        }
    }
}

fn changes_limit(alloc: Global, changes: &[Change]) -> Result<Option<Limit>, AllocError>
    ensures { IfOk result (λ limit. limit ≡ changes_limit changes.now) }
{
    for change in changes {
        if let Some(limit) = change_limit(alloc, change)? {
            return Ok(Some(limit));
        }
    }
    Ok(None)
}

/// The limit that an entry passes: the number of its changes, or the first that one of them does.
pub fn limit_of(alloc: Global, entry: &Entry) -> Result<Option<Limit>, AllocError>
    ensures { IfOk result (λ limit. limit ≡ limit_of entry.now) }
{
    let changes = entry.txn.changes.as_slice();
    if changes.len() > 4_294_967_294 {
        return Ok(Some(Limit::Changes));
    }
    changes_limit(alloc, changes)
}
