//! Keys that transactions of two sources touch.
ghost use Rattle.std.specs.Prelude.{◌≡◌, IfOk, map, true, None};
ghost use Rattle.std.specs.FinMap as finmap;
ghost use Rattle.world.specs.Audit.{shared};
ghost use Rattle.world.specs.Folds.{shared_from};
ghost use Rattle.audit.specs.Contents.{as_pair};
ghost use Rattle.audit.specs.Firsts.{HaveNoShared};

use crate::gathering::{usual_keys, usual_keys_of};
use crate::marks::push_marks;
use crate::owners::MarkOwners;
use crate::sources::World;
use crate::touches::Touches;
use journal::Entry;
use rows::{Schema, keys_touched};
use std::alloc::{AllocError, Global};
use world::Verdict;

/// The first of these entries that has a key which a smaller source touched.
fn first_shared(
    alloc: Global,
    schema: &Schema,
    entries: &[Entry],
) -> Result<Option<Verdict>, AllocError>
    ensures { IfOk result (λ found. found ≡ shared_from schema.now finmap.empty (map as_pair entries.now)) }
{
    let mut seen = Touches::new(alloc);
    for entry in entries {
        let keys = keys_touched(alloc, schema, &entry.txn)?;
        let found = seen.shared_key(entry.gtid, &keys)?;
        if found.is_some() {
            return Ok(found);
        }
        seen.touch_first(&entry.gtid, keys)?;
    }
    Ok(None)
}

/// Whether these entries, in turn, are found to touch no key that another source touched before. No key is made: the search is for marks,
/// which equal keys share.
fn are_apart(alloc: Global, schema: &Schema, entries: &[Entry]) -> Result<bool, AllocError>
    ensures { IfOk result (λ yes. yes ≡ true → shared_from schema.now finmap.empty (map as_pair entries.now) ≡ None) }
{
    let mut owners = MarkOwners::for_marks(alloc, usual_keys(entries))?;
    // (one list for the marks of each transaction)
    let mut marks = Vec::new(alloc);
    for entry in entries {
        marks.clear();
        push_marks(&mut marks, schema, &entry.txn)?;
        if !owners.touch_all(&marks, entry.gtid.source)? {
            return Ok(false);
        }
    }
    Ok(true)
}

/// What `are_apart` finds of borrowed entries: if true, no two sources touch a key.
pub fn share_no_key(alloc: Global, schema: &Schema, entries: &[&Entry]) -> Result<bool, AllocError>
    ensures { IfOk result (λ yes. yes ≡ true → HaveNoShared schema.now (map (λ e. e.now) entries.now)) }
{
    let mut owners = MarkOwners::for_marks(alloc, usual_keys_of(entries))?;
    let mut marks = Vec::new(alloc);
    for entry in entries {
        marks.clear();
        push_marks(&mut marks, schema, &entry.txn)?;
        if !owners.touch_all(&marks, entry.gtid.source)? {
            return Ok(false);
        }
    }
    Ok(true)
}

impl World {
    /// Whether sources are found to touch no key in common. The mark of each key is looked up once.
    fn are_apart(&self, alloc: Global) -> Result<bool, AllocError>
        ensures { IfOk result (λ yes. yes ≡ true → shared self.now ≡ None) }
    {
        are_apart(alloc, self.rows().schema(), self.in_order())
    }

    /// What `find_shared` finds; it is fastest if that is nothing.
    pub(crate) fn shared_unless_apart(&self, alloc: Global) -> Result<Option<Verdict>, AllocError>
        ensures { IfOk result (λ found. found ≡ shared self.now) }
    {
        if self.are_apart(alloc)? {
            return Ok(None);
        }
        self.find_shared(alloc)
    }

    /// The least GTID that shares a key with a smaller source, with the least GTID that touches that key.
    pub(crate) fn find_shared(&self, alloc: Global) -> Result<Option<Verdict>, AllocError>
        ensures { IfOk result (λ found. found ≡ shared self.now) }
    {
        first_shared(alloc, self.rows().schema(), self.in_order())
    }
}
