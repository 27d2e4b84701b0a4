//! The first transaction of each source that does not apply.
ghost use Rattle.std.specs.Prelude.{◌≡◌, IfOk, map};
ghost use Rattle.std.specs.FinMap as finmap;
ghost use Rattle.audit.specs.Contents.{as_pair};
ghost use Rattle.audit.specs.OtherRefusals.{other_refusals, refused_from};
ghost use Rattle.audit.specs.Worlds.{AllFit};

use crate::sources::World;
use gtid_text::SourceId;
use journal::Entry;
use rows::{ApplyFault, Rows};
use std::alloc::{AllocError, Global};
use world::Verdict;

/// For each source greater than a given one the first of these that does not apply when they are applied in order. After one that does not,
/// the others of its source are skipped.
fn refusals_among(
    alloc: Global,
    rows: &mut Rows,
    after: SourceId,
    entries: &[Entry],
) -> Result<Vec<Verdict>, AllocError>
    requires { AllFit rows.old.schema entries.now }
    ensures { IfOk result (λ found. found.items ≡ refused_from rows.old.schema after (map as_pair entries.now) rows.old.rows) }
{
    let mut found = Vec::new(alloc);
    let mut passed = after;
    for entry in entries {
        if entry.gtid.source <= passed {
            continue;
        }
        match rows.apply(alloc, &entry.txn) {
            Ok(()) => {}
            Err(ApplyFault::Row(fault)) => {
                found.push(Verdict::DoesNotApply(entry.gtid, fault))?;
                passed = entry.gtid.source;
            }
            Err(ApplyFault::Memory) => return Err(AllocError),
            Err(ApplyFault::NotInSchema(_)) => unreachable!(),
        }
    }
    Ok(found)
}

impl World {
    /// For each source greater than a given one the first transaction that does not apply.
    fn refusals_after(&self, alloc: Global, source: SourceId) -> Result<Vec<Verdict>, AllocError>
        ensures { IfOk result (λ found. found.items ≡ refused_from self.now.schema source (finmap.entries self.now.contents) self.now.opening_rows) }
    {
        let mut rows = self.rows().copy()?;
        refusals_among(alloc, &mut rows, source, self.in_order())
    }

    /// If by the verdict a transaction does not apply, the first of each other source that does not in its source's list taken alone:
    /// smaller sources apply, and sources share no key.
    pub(crate) fn other_refusals(
        &self,
        alloc: Global,
        verdict: &Verdict,
    ) -> Result<Vec<Verdict>, AllocError>
        ensures { IfOk result (λ found. found.items ≡ other_refusals self.now verdict.now) }
    {
        match verdict {
            Verdict::DoesNotApply(gtid, _) => self.refusals_after(alloc, gtid.source),
            _ => Ok(Vec::new(alloc)),
        }
    }
}
