//! Each GTID that is in a journal without the nearest earlier one at some key of it.
ghost use Rattle.std.specs.Prelude.{◌≡◌, List, ◌∷◌, ◌++◌, IfOk, OnOk, find, not, true};
ghost use Rattle.std.specs.FinSet as set;
ghost use Rattle.audit.specs.Gaps.{needs_in, is_recorded};
ghost use Rattle.audit.specs.OtherGaps.{Gap, first_absent, gap_of_verdict, gaps_among, gaps_in, other_gaps, unreported, with_gap};
ghost use Rattle.audit.specs.Ordered.{AreInOrder};

use crate::gaps::is_recorded;
use crate::needs::Needs;
use crate::sources::World;
use crate::standing::GtidTable;
use gtid_set::GtidSet;
use gtid_text::Gtid;
use journal::Journal;
use std::alloc::{AllocError, Global};
use world::Verdict;

/// The first of these that is absent.
fn first_of(previous: &GtidSet, standing: &GtidTable, gtids: &[Gtid]) -> Option<Gtid>
    ensures { result ≡ find (λ h. not (is_recorded previous.now standing.now h)) gtids.now }
{
    for gtid in gtids {
        if !is_recorded(previous, standing, gtid) {
            return Some(*gtid);
        }
    }
    None
}

/// The first of the GTIDs that `gtid` needs that is absent.
fn first_absent(
    needs: &Needs,
    previous: &GtidSet,
    standing: &GtidTable,
    gtid: &Gtid,
) -> Option<Gtid>
    ensures { result ≡ first_absent needs.now (is_recorded previous.now standing.now) gtid.now }
{
    match needs.get(gtid) {
        Some(gtids) => first_of(previous, standing, gtids.as_slice()),
        None => None,
    }
}

/// Reports that a GTID is present without another, unless that GTID was reported already.
fn report_gap(
    found: &mut Vec<Verdict>,
    reported: &mut GtidTable,
    gtid: Gtid,
    absent: Option<Gtid>,
) -> Result<(), AllocError>
    ensures { OnOk result ((rest : List Gap) → found.new.items ++ unreported reported.new rest ≡ found.old.items ++ unreported reported.old (with_gap gtid absent rest)) }
{
    if let Some(absent) = absent {
        if !reported.has(&gtid) {
            found.push(Verdict::NotClosed(gtid, absent))?;
            reported.put(gtid)?;
        }
    }
    Ok(())
}

/// Reports each entry of a journal that is present without another, by the first of these.
fn report_gaps_among(
    alloc: Global,
    needs: &Needs,
    found: &mut Vec<Verdict>,
    reported: &mut GtidTable,
    journal: &Journal,
) -> Result<(), AllocError>
    ensures { OnOk result ((rest : List Gap) → found.new.items ++ unreported reported.new rest ≡ found.old.items ++ unreported reported.old (gaps_among needs.now journal.now.previous set.empty journal.now.entries rest)) }
{
    let previous = journal.previous();
    let mut standing = GtidTable::new(alloc);
    for entry in journal.entries() {
        let absent = first_absent(needs, previous, &standing, &entry.gtid);
        report_gap(found, reported, entry.gtid, absent)?;
        standing.put(entry.gtid)?;
    }
    Ok(())
}

/// The GTID of the verdict, which is not reported again.
fn gap_of_verdict(alloc: Global, verdict: &Verdict) -> Result<GtidTable, AllocError>
    ensures { IfOk result (λ reported. reported ≡ gap_of_verdict verdict.now) }
{
    let mut reported = GtidTable::new(alloc);
    if let Verdict::NotClosed(gtid, _) = verdict {
        reported.put(*gtid)?;
    }
    Ok(reported)
}

/// Each GTID that is present without something it needs, but for that of the verdict.
fn gaps_beside(
    alloc: Global,
    needs: &Needs,
    journals: &[Journal],
    verdict: &Verdict,
) -> Result<Vec<Verdict>, AllocError>
    ensures { IfOk result (λ found. found.items ≡ unreported (gap_of_verdict verdict.now) (gaps_in needs.now journals.now)) }
{
    let mut reported = gap_of_verdict(alloc, verdict)?;
    let mut found = Vec::new(alloc);
    for journal in journals {
        report_gaps_among(alloc, needs, &mut found, &mut reported, journal)?;
    }
    Ok(found)
}

impl World {
    /// Each GTID that is in a journal without the nearest earlier one at some key of it, but for that of the verdict. If journals are in
    /// order, there is none, and no table of what each needs is made.
    pub(crate) fn other_gaps(
        &self,
        alloc: Global,
        journals: &[Journal],
        ordered: bool,
        verdict: &Verdict,
    ) -> Result<Vec<Verdict>, AllocError>
        requires { ordered ≡ true → AreInOrder self.now.opening_set journals.now }
        ensures { IfOk result (λ found. found.items ≡ other_gaps self.now journals.now verdict.now) }
    {
        self.lie_beyond();
        if ordered {
            return Ok(Vec::new(alloc));
        }
        let needed = self.needs(alloc)?;
        gaps_beside(alloc, &needed.needs, journals, verdict)
    }
}
