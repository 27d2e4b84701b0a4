//! Transactions that share a key and are not in one order.
ghost use Rattle.std.specs.Prelude.{◌≡◌, IfOk, None};
ghost use Rattle.world.specs.Audit.{unequal};
ghost use Rattle.world.specs.Meaning.{AreJournals};
ghost use Rattle.world.specs.AuditInOrder.{conflict};
ghost use Rattle.world.specs.Bundles.{histories_of};
ghost use Rattle.audit.specs.Chains.{no_chain, conflict_from};

use crate::naming::name_verdict;
use crate::sources::World;
use crate::turns::out_of_entries;
use gtid_set::GtidSet;
use journal::Journal;
use key_table::KeyTable;
use rows::Schema;
use std::alloc::{AllocError, Global};
use world::Verdict;

/// The first entry that is out of turn, by one pass over the journals.
fn first_out_of_turn(
    alloc: Global,
    opened: &GtidSet,
    schema: &Schema,
    journals: &[Journal],
) -> Result<Option<Verdict>, AllocError>
    ensures { IfOk result (λ found. found ≡ conflict_from schema.now (histories_of opened.now journals.now) 0 (histories_of opened.now journals.now) (λ k. no_chain)) }
{
    let mut chains = KeyTable::new(alloc);
    for (number, journal) in journals.iter().enumerate() {
        let entries = journal.entries();
        if let Some(out) = out_of_entries(alloc, &mut chains, opened, schema, number, entries)? {
            return Ok(name_verdict(opened, journals, journal, out));
        }
    }
    Ok(None)
}

/// The first entry, in order of journals, entries and keys, that is not the next of its key in the
/// journals' joined order.
pub(crate) fn first_conflict(
    alloc: Global,
    world: &World,
    journals: &[Journal],
) -> Result<Option<Verdict>, AllocError>
    requires equal { unequal world.now journals.now ≡ None }
    requires journals { AreJournals journals.now }
    ensures { IfOk result (λ found. found ≡ conflict world.now.schema (histories_of world.now.opening_set journals.now)) }
{
    first_out_of_turn(alloc, world.opening_set(), world.rows().schema(), journals)
}
