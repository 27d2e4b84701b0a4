//! Entries that are in a journal without an earlier one of their source that shares a key.
ghost use Rattle.std.specs.Prelude.{◌≡◌, ◌&&◌, ◌==◌, nat_lt, not, IfOk, is_some, map, None, true, false};
ghost use Rattle.std.specs.List.{list_any};
ghost use Rattle.std.specs.FinMap as finmap;
ghost use Rattle.std.specs.FinSet as set;
ghost use Rattle.rows.specs.WriteSet.{write_set};
ghost use Rattle.world.specs.Audit.{unequal, purged, shared, not_closed};
ghost use Rattle.audit.specs.Gaps.{is_recorded, lacks, gap_at, gap_among, first_gap, is_left_by, least_left_by, needs_in};
ghost use Rattle.audit.specs.Contents.{as_pair};
ghost use Rattle.world.specs.Folds.{touched_by};

use crate::needs::{Needed, Needs, needs_of};
use crate::sources::World;
use crate::standing::GtidTable;
use crate::touches::Touches;
use gtid_set::GtidSet;
use gtid_text::Gtid;
use journal::{Entry, Journal};
use rows::keys_touched;
use std::alloc::{AllocError, Global};
use world::Verdict;

pub(crate) fn is_recorded(previous: &GtidSet, standing: &GtidTable, gtid: &Gtid) -> bool
    ensures { result ≡ is_recorded previous.now standing.now gtid.now }
{
    previous.contains(gtid) || standing.has(gtid)
}

/// Whether one of these is absent.
fn lacks_any(previous: &GtidSet, standing: &GtidTable, gtids: &[Gtid]) -> bool
    ensures { result ≡ list_any (λ g. not (is_recorded previous.now standing.now g)) gtids.now }
{
    gtids
        .iter()
        .any(|gtid| !is_recorded(previous, standing, gtid))
}

/// Whether something that an entry needs is absent.
fn lacks(needs: &Needs, previous: &GtidSet, standing: &GtidTable, gtid: &Gtid) -> bool
    ensures { result ≡ lacks needs.now (is_recorded previous.now standing.now) gtid.now }
{
    match needs.get(gtid) {
        Some(gtids) => lacks_any(previous, standing, gtids.as_slice()),
        None => false,
    }
}

/// Whether one GTID comes before another in their source.
fn comes_before(a: &Gtid, b: &Gtid) -> bool
    ensures { result ≡ ((a.now.source == b.now.source) && nat_lt a.now.number b.now.number) }
{
    a.source == b.source && a.number < b.number
}

impl World {
    /// Whether an earlier entry, which comes before another in its source and shares a key with it,
    /// is absent. The keys are those that the other touches.
    fn is_left(
        &self,
        alloc: Global,
        keys: &Touches,
        previous: &GtidSet,
        standing: &GtidTable,
        earlier: &Entry,
        entry: &Entry,
    ) -> Result<bool, AllocError>
        requires new { set.contains self.now.opening_set entry.now.gtid ≡ false }
        requires keys { keys.now ≡ touched_by entry.now.gtid (write_set self.now.schema entry.now.txn) finmap.empty }
        ensures { IfOk result (λ left. left ≡ is_left_by self.now (is_recorded previous.now standing.now) entry.now (as_pair earlier.now)) }
    {
        if !comes_before(&earlier.gtid, &entry.gtid) {
            return Ok(false);
        }
        let shares = keys.shares(alloc, self.rows().schema(), &earlier.txn)?;
        Ok(shares && !is_recorded(previous, standing, &earlier.gtid))
    }

    /// The least GTID that shares a key with an entry, comes before it in its source and is absent.
    fn least_left(
        &self,
        alloc: Global,
        previous: &GtidSet,
        standing: &GtidTable,
        entry: &Entry,
    ) -> Result<Option<Verdict>, AllocError>
        requires { set.contains self.now.opening_set entry.now.gtid ≡ false }
        ensures { IfOk result (λ found. found ≡ least_left_by self.now (is_recorded previous.now standing.now) entry.now) }
    {
        let mut keys = Touches::new(alloc);
        let touched = keys_touched(alloc, self.rows().schema(), &entry.txn)?;
        keys.touch_first(&entry.gtid, touched)?;
        for earlier in self.in_order() {
            if self.is_left(alloc, &keys, previous, standing, earlier, entry)? {
                return Ok(Some(Verdict::NotClosed(entry.gtid, earlier.gtid)));
            }
        }
        Ok(None)
    }

    fn gap_at(
        &self,
        alloc: Global,
        needs: &Needs,
        previous: &GtidSet,
        standing: &GtidTable,
        entry: &Entry,
    ) -> Result<Option<Verdict>, AllocError>
        ensures { IfOk result (λ found. found ≡ gap_at self.now needs.now (is_recorded previous.now standing.now) entry.now) }
    {
        if self.opening_set().contains(&entry.gtid) {
            return Ok(None);
        }
        if lacks(needs, previous, standing, &entry.gtid) {
            self.least_left(alloc, previous, standing, entry)
        } else {
            Ok(None)
        }
    }

    /// The first entry of a journal for which something is left out.
    fn gap_among(
        &self,
        alloc: Global,
        needs: &Needs,
        previous: &GtidSet,
        entries: &[Entry],
    ) -> Result<Option<Verdict>, AllocError>
        ensures { IfOk result (λ found. found ≡ gap_among self.now needs.now previous.now set.empty entries.now) }
    {
        let mut standing = GtidTable::new(alloc);
        for entry in entries {
            let found = self.gap_at(alloc, needs, previous, &standing, entry)?;
            if found.is_some() {
                return Ok(found);
            }
            standing.put(entry.gtid)?;
        }
        Ok(None)
    }

    fn first_gap(
        &self,
        alloc: Global,
        needs: &Needs,
        journals: &[Journal],
    ) -> Result<Option<Verdict>, AllocError>
        ensures { IfOk result (λ found. found ≡ first_gap self.now needs.now journals.now) }
    {
        for journal in journals {
            let found = self.gap_among(alloc, needs, journal.previous(), journal.entries())?;
            if found.is_some() {
                return Ok(found);
            }
        }
        Ok(None)
    }

    /// The first entry for which something is left out, and the least GTID that is.
    pub(crate) fn find_not_closed(
        &self,
        alloc: Global,
        needs: &Needs,
        journals: &[Journal],
    ) -> Result<Option<Verdict>, AllocError>
        requires equal { unequal self.now journals.now ≡ None }
        requires within { purged self.now journals.now ≡ None }
        requires needs { needs.now ≡ needs_in self.now }
        ensures { IfOk result (λ found. found ≡ not_closed self.now journals.now) }
    {
        self.lie_beyond();
        self.first_gap(alloc, needs, journals)
    }

    /// What each transaction needs, and whether sources are found to touch no key in common.
    pub(crate) fn needs(&self, alloc: Global) -> Result<Needed, AllocError>
        ensures needs { IfOk result (λ found. found.needs ≡ needs_in self.now) }
        ensures apart { IfOk result (λ found. found.apart ≡ true → shared self.now ≡ None) }
    {
        needs_of(alloc, self.rows().schema(), self.in_order())
    }
}
