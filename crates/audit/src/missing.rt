//! Numbers that no journal brings.
ghost use Rattle.std.specs.Prelude.{◌≡◌, ◌+◌, ◌-◌, not, find, map, None, IfOk};
ghost use Rattle.std.specs.List.{range_with_len};
ghost use Rattle.std.specs.FinSet as set;
ghost use Rattle.gtid_set.specs.Sets.{gtid};
ghost use Rattle.world.specs.Audit.{missing, unequal};
ghost use Rattle.audit.specs.Contents.{as_pair};
ghost use Rattle.audit.specs.Missing.{number_before, next_absent, missing_between, missing_from};

use crate::sources::World;
use gtid_set::GtidSet;
use gtid_text::{Gtid, SourceId};
use journal::{Entry, Journal};
use std::alloc::{AllocError, Global};
use world::Verdict;

/// The number of the last GTID, if it is of this source, else 0.
pub(crate) fn number_before(last: Option<Gtid>, source: SourceId) -> u64
    ensures { result ≡ number_before last source }
{
    match last {
        Some(gtid) => {
            if gtid.source == source {
                gtid.number
            } else {
                0
            }
        }
        None => 0,
    }
}

/// The least number of a source between two others that a set lacks. However many numbers lie between them, it takes as many steps as the
/// number of the set's intervals has binary digits.
fn next_absent(opened: &GtidSet, source: SourceId, after: u64, below: u64) -> Option<u64>
    ensures { result ≡ next_absent opened.now source after below }
{
    if after >= below {
        return None;
    }
    let first = after + 1;
    if first == below {
        return None;
    }
    match opened.run_end(source, first) {
        None => Some(first),
        Some(last) => {
            if last < below - 1 {
                Some(last + 1)
            } else {
                None
            }
        }
    }
}

/// The least GTID that is missing between two.
fn missing_between(opened: &GtidSet, last: Option<Gtid>, gtid: Gtid) -> Option<Verdict>
    ensures { result ≡ missing_between opened.now last gtid }
{
    let after = number_before(last, gtid.source);
    match next_absent(opened, gtid.source, after, gtid.number) {
        Some(number) => Some(Verdict::Missing(Gtid {
            source: gtid.source,
            number,
        })),
        None => None,
    }
}

/// The least GTID that is missing before some entries.
fn first_missing(opened: &GtidSet, entries: &[Entry]) -> Option<Verdict>
    ensures { result ≡ missing_from opened.now None (map as_pair entries.now) }
{
    let mut last = None;
    for entry in entries {
        let found = missing_between(opened, last, entry.gtid);
        if found.is_some() {
            return found;
        }
        last = Some(entry.gtid);
    }
    None
}

impl World {
    /// The least GTID that is in no journal though a greater number of its source is.
    pub(crate) fn find_missing(
        &self,
        alloc: Global,
        journals: &[Journal],
    ) -> Result<Option<Verdict>, AllocError>
        requires { unequal self.now journals.now ≡ None }
        ensures { IfOk result (λ found. found ≡ missing self.now journals.now) }
    {
        match self.first_contents(alloc, journals, true)? {
            Some(contents) => Ok(first_missing(self.opening_set(), contents.in_order())),
            None => Ok(first_missing(self.opening_set(), self.in_order())),
        }
    }
}
