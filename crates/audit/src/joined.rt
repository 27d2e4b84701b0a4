//! Journals joined to one order.
ghost use Rattle.std.specs.Prelude.{◌≡◌, [], IfOk, OnOk};
ghost use Rattle.world.specs.Bundles.{beyond_opening, histories_of};
ghost use Rattle.audit.specs.Joined.{with_entry, append_new, append_all_new};

use gtid_set::GtidSet;
use gtid_text::Gtid;
use journal::{Entry, Journal};
use key_table::KeyTable;
use rows::Transaction;
use std::alloc::{AllocError, Global};

/// Appends an entry to an order, unless its GTID is there.
fn join_entry(order: &mut KeyTable<Gtid, Transaction>, entry: &Entry) -> Result<(), AllocError>
    ensures { OnOk result (order.new.entries ≡ with_entry order.old.entries (entry.now.gtid, entry.now.txn)) }
{
    if order.contains_key(&entry.gtid) {
        return Ok(());
    }
    let txn = entry.txn.clone()?;
    let Ok(_) = order.insert(entry.gtid, txn) else {
        return Err(AllocError);
    };
    Ok(())
}

/// Appends the entries beyond the opening set to an order, except those whose GTID is there.
fn join_entries(
    order: &mut KeyTable<Gtid, Transaction>,
    opened: &GtidSet,
    entries: &[Entry],
) -> Result<(), AllocError>
    ensures { OnOk result (order.new.entries ≡ append_new order.old.entries (beyond_opening opened.now entries.now)) }
{
    for entry in entries {
        if opened.contains(&entry.gtid) {
            continue;
        }
        join_entry(order, entry)?;
    }
    Ok(())
}

/// The journals' transactions beyond the opening set in one order: each journal in turn, what it has
/// beyond the earlier ones. The images are shared with the journals.
pub(crate) fn join_journals(
    alloc: Global,
    opened: &GtidSet,
    journals: &[Journal],
) -> Result<KeyTable<Gtid, Transaction>, AllocError>
    ensures { IfOk result (λ order. order.entries ≡ append_all_new [] (histories_of opened.now journals.now)) }
{
    let mut order = KeyTable::new(alloc);
    for journal in journals {
        join_entries(&mut order, opened, journal.entries())?;
    }
    Ok(order)
}
