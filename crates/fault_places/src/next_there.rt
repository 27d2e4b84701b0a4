//! The next number that is there.
ghost use Rattle.std.specs.Prelude.{◌≡◌, None};
ghost use Rattle.fault_places.specs.Next.{is_before, nearer, nearest, next_there};

use gtid_set::GtidSet;
use gtid_text::Gtid;
use journal::{Entry, Journal};

fn is_before(gtid: &Gtid, best: &Option<Gtid>) -> bool
    ensures { result ≡ is_before gtid.now best.now }
{
    match best {
        Some(best) => gtid.number < best.number,
        None => true,
    }
}

fn nearer(opened: &GtidSet, after: &Gtid, best: Option<Gtid>, gtid: &Gtid) -> Option<Gtid>
    ensures { result ≡ nearer opened.now after.now best gtid.now }
{
    if gtid.source == after.source
        && after.number < gtid.number
        && is_before(gtid, &best)
        && !opened.contains(gtid)
    {
        Some(*gtid)
    } else {
        best
    }
}

fn nearest(opened: &GtidSet, after: &Gtid, best: Option<Gtid>, entries: &[Entry]) -> Option<Gtid>
    ensures { result ≡ nearest opened.now after.now best entries.now }
{
    let mut found = best;
    for entry in entries {
        found = nearer(opened, after, found, &entry.gtid);
    }
    found
}

/// The least number after a GTID, in its source, that is not in the opening set, and under which some journal has an entry.
pub(crate) fn next_there(opened: &GtidSet, after: &Gtid, journals: &[Journal]) -> Option<Gtid>
    ensures { result ≡ next_there opened.now after.now None journals.now }
{
    let mut found = None;
    for journal in journals {
        found = nearest(opened, after, found, journal.entries());
    }
    found
}
