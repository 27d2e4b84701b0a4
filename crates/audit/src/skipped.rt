//! The GTIDs that are missing, as a set.
ghost use Rattle.std.specs.Prelude.{◌≡◌, ◌+◌, ◌-◌, IfOk, IfErr, OnOk, None, map, length, true, false};
ghost use Rattle.std.specs.FinSet as set;
ghost use Rattle.gtid_text.specs.declared.Gtid.{Gtid};
ghost use Rattle.gtid_set.specs.Edges.{has_before};
ghost use Rattle.gtid_set.specs.Full.{IsFaultOf};
ghost use Rattle.gtid_set.specs.Sets.{interval};
ghost use Rattle.world.specs.Audit.{verdict};
ghost use Rattle.world.specs.declared.verdict.Verdict.TheVariants.{Missing};
ghost use Rattle.audit.specs.Contents.{as_pair};
ghost use Rattle.audit.specs.Faults.{IsFaultWithin};
ghost use Rattle.audit.specs.Ordered.{AreInOrder};
ghost use Rattle.audit.specs.Others.{IsListFault, but_missing, missing_in, skipped_in, skips_from};

use crate::missing::number_before;
use crate::sources::World;
use gtid_set::{GtidSet, SetFault};
use gtid_text::{Gtid, SourceId, Span};
use journal::{Entry, Journal};
use std::alloc::Global;
use world::Verdict;

/// The numbers between two others.
fn add_between(
    skipped: &mut GtidSet,
    source: SourceId,
    after: u64,
    below: u64,
) -> Result<(), SetFault>
    ensures ok { OnOk result (skipped.new ≡ set.union skipped.old (interval source (after + 1) (below - 1))) }
    ensures fault { IfErr result (λ f. IsFaultOf f (set.union skipped.old (interval source (after + 1) (below - 1)))) }
{
    if after >= below || below - after == 1 {
        return Ok(());
    }
    skipped.add_span(Span {
        source,
        lo: after + 1,
        hi: below - 1,
    })
}

/// The numbers that are passed over before these entries.
fn skipped_before(alloc: Global, entries: &[Entry]) -> Result<GtidSet, SetFault>
    ensures ok { IfOk result (λ skipped. skipped ≡ skips_from set.empty None (map as_pair entries.now)) }
    ensures fault { IfErr result (IsFaultWithin (skips_from set.empty None (map as_pair entries.now)) (length entries.now)) }
{
    let mut skipped = GtidSet::empty(alloc);
    let mut last = None;
    for entry in entries {
        let after = number_before(last, entry.gtid.source);
        add_between(&mut skipped, entry.gtid.source, after, entry.gtid.number)?;
        last = Some(entry.gtid);
    }
    Ok(skipped)
}

/// The set of one GTID.
fn only(alloc: Global, gtid: Gtid) -> Result<GtidSet, SetFault>
    ensures ok { IfOk result (λ one. one ≡ set.insert set.empty gtid) }
    ensures fault { IfErr result (λ f. IsFaultOf f (set.insert set.empty gtid)) }
{
    let mut one = GtidSet::empty(alloc);
    one.add(gtid)?;
    Ok(one)
}

/// A set without one of its GTIDs, which begins a run of them: so it gets no more runs.
fn take_out(alloc: Global, missing: &GtidSet, gtid: Gtid) -> Result<GtidSet, SetFault>
    requires there { set.contains missing.now gtid ≡ true }
    requires begins { has_before missing.now gtid ≡ false }
    ensures ok { IfOk result (λ rest. rest ≡ set.difference missing.now (set.insert set.empty gtid)) }
    ensures fault { IfErr result (λ f. IsFaultOf f missing.now) }
{
    let one = only(alloc, gtid)?;
    missing.subtract(alloc, &one)
}

/// Missing GTIDs but for that of the verdict, which begins a run of them.
fn without_verdict(alloc: Global, missing: GtidSet, verdict: &Verdict) -> Result<GtidSet, SetFault>
    requires begins { (g : Gtid) → verdict.now ≡ Missing g → has_before missing g ≡ false }
    ensures ok { IfOk result (λ rest. rest ≡ but_missing verdict.now missing) }
    ensures fault { IfErr result (λ f. IsFaultOf f missing) }
{
    if let Verdict::Missing(gtid) = verdict {
        if missing.contains(gtid) {
            return take_out(alloc, &missing, *gtid);
        }
    }
    Ok(missing)
}

impl World {
    /// The numbers that are passed over before what is in the journals.
    fn skipped_numbers(&self, alloc: Global, journals: &[Journal]) -> Result<GtidSet, SetFault>
        ensures ok { IfOk result (λ skipped. skipped ≡ skipped_in self.now journals.now) }
        ensures fault { IfErr result (IsListFault self.now journals.now) }
    {
        let equal = self.find_unequal(journals).is_none();
        match self.first_contents(alloc, journals, equal)? {
            Some(contents) => skipped_before(alloc, contents.in_order()),
            None => skipped_before(alloc, self.in_order()),
        }
    }

    /// The missing GTIDs. If journals are in order, there is none, and there is no search.
    fn missing_set(
        &self,
        alloc: Global,
        journals: &[Journal],
        ordered: bool,
    ) -> Result<GtidSet, SetFault>
        requires { ordered ≡ true → AreInOrder self.now.opening_set journals.now }
        ensures ok { IfOk result (λ missing. missing ≡ missing_in self.now journals.now) }
        ensures fault { IfErr result (IsListFault self.now journals.now) }
    {
        if ordered {
            return Ok(GtidSet::empty(alloc));
        }
        let skipped = self.skipped_numbers(alloc, journals)?;
        skipped.subtract(alloc, self.opening_set())
    }

    /// The missing GTIDs but for that of the verdict.
    pub(crate) fn other_missing(
        &self,
        alloc: Global,
        journals: &[Journal],
        ordered: bool,
        first: &Verdict,
    ) -> Result<GtidSet, SetFault>
        requires ordered { ordered ≡ true → AreInOrder self.now.opening_set journals.now }
        requires first { first.now ≡ verdict self.now journals.now }
        ensures ok { IfOk result (λ rest. rest ≡ but_missing first.now (missing_in self.now journals.now)) }
        ensures fault { IfErr result (IsListFault self.now journals.now) }
    {
        let missing = self.missing_set(alloc, journals, ordered)?;
        without_verdict(alloc, missing, first)
    }
}
