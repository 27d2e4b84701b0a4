//! When two transactions are equal.
ghost use Rattle.std.specs.Prelude.{◌≡◌};
ghost use Rattle.world.specs.Equal.{change_eq, changes_eq, txn_eq};

use rows::{Change, Transaction};

/// Whether two changes are of one kind, table and rows.
fn is_same_change(a: &Change, b: &Change) -> bool
    ensures { result ≡ change_eq a.now b.now }
{
    match a {
        Change::Insert { table, after } => match b {
            Change::Insert {
                table: other,
                after: row,
            } => *table == *other && *after == *row,
            _ => false,
        },
        Change::Delete { table, before } => match b {
            Change::Delete {
                table: other,
                before: row,
            } => *table == *other && *before == *row,
            _ => false,
        },
        Change::Update {
            table,
            before,
            after,
        } => match b {
            Change::Update {
                table: other,
                before: old,
                after: new,
            } => *table == *other && *before == *old && *after == *new,
            _ => false,
        },
    }
}

fn are_same_changes(a: &[Change], b: &[Change]) -> bool
    ensures { result ≡ changes_eq a.now b.now }
{
    if a.len() != b.len() {
        return false;
    }
    for (i, change) in a.iter().enumerate() {
        if !is_same_change(change, &b[i]) {
            return false;
        }
    }
    true
}

/// Whether two transactions make the same changes in the same order.
pub(crate) fn is_equal(a: &Transaction, b: &Transaction) -> bool
    ensures { result ≡ txn_eq a.now b.now }
{
    are_same_changes(a.changes.as_slice(), b.changes.as_slice())
}
