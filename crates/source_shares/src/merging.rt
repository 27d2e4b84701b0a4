//! Journals merged by several threads.
ghost use Rattle.std.specs.Prelude.{◌≡◌, ◌<◌, [], IfOk, IfSome, None, length, map, true};
ghost use Rattle.std.specs.Thread.{IsSync};
ghost use Rattle.std.specs.FinMap as finmap;
ghost use Rattle.world.specs.Audit.{all_entries, first_contents};
ghost use Rattle.world.specs.Folds.{shared_from};
ghost use Rattle.audit.specs.Contents.{as_pair, in_order};
ghost use Rattle.audit.specs.Firsts.{AreFirsts, AreFirstsIf, BeginInOrder};
ghost use Rattle.audit.specs.Worlds.{AllFit};
ghost use Rattle.convergence.specs.Deciding.{all_of};
ghost use Rattle.source_shares.specs.Merging.{AreMerged};
ghost use Rattle.source_shares.specs.Shares.{AreApplied, IsApplied};

use crate::apart::share_no_key_beside;
use crate::applying::apply_share;
use crate::executing::union_of;
use crate::gate::ShareGate;
use crate::gathering::all_parts;
use crate::sharing::{count_changes, put_into_shares};
use audit::{begin_in_order, keep_rules, list_agreeing};
use gtid_set::GtidSet;
use gtid_text::SourceId;
use journal::{Entry, Journal};
use rows::Rows;
use std::alloc::{AllocError, Global};
use std::thread;
use std::thread::{Threads, join_mut};

/// The result of all journals together: the executed set, and parts of the rows.
#[derive(Drop)]
pub struct Merged {
    pub executed: GtidSet,
    pub parts: Vec<Rows>,
}

/// The rows of each share, which is applied on a thread of its own if one can be started. The thread tells the gate.
fn apply_shares<G: ShareGate + Sync, R: Threads + Sync>(
    rt: &R,
    alloc: Global,
    opening: &Rows,
    entries: &[&Entry],
    shares: &[(SourceId, usize)],
    count: usize,
    gate: &G,
) -> Result<Vec<Option<Rows>>, AllocError>
    requires { AllFit opening.now.schema (map (λ e. e.now) entries.now) }
    ensures count { IfOk result (λ parts. length parts.items ≡ count) }
    ensures applied { IfOk result (λ parts. AreApplied opening.now shares.now (map (λ e. e.now) entries.now) parts.items) }
{
    thread::map_indices(
        rt,
        alloc,
        count,
        &|share: usize| -> Option<Rows>
            requires { AllFit opening.now.schema (map (λ e. e.now) entries.now) }
            ensures { IsApplied opening.entry.now shares.entry.now (map (λ e. e.now) entries.entry.now) share result }
        {
            gate.before_share(share);
            let part = apply_share(alloc, opening, entries, shares, share);
            gate.after_share(share);
            part
        },
    )
}

/// The rows of each share, if no two sources touch a key: threads find both at the same time.
fn apply_apart<G: ShareGate + Sync, R: Threads + Sync>(
    rt: &R,
    alloc: Global,
    opening: &Rows,
    entries: &[&Entry],
    shares: &[(SourceId, usize)],
    count: usize,
    gate: &G,
) -> Option<Vec<Option<Rows>>>
    requires { AllFit opening.now.schema (map (λ e. e.now) entries.now) }
    ensures count { IfSome result (λ parts. length parts.items ≡ count) }
    ensures applied { IfSome result (λ parts. AreApplied opening.now shares.now (map (λ e. e.now) entries.now) parts.items) }
    ensures apart { IfSome result (λ parts. shared_from opening.now.schema finmap.empty (map as_pair (map (λ e. e.now) entries.now)) ≡ None) }
{
    let (apart, parts) = thread::join(
        rt,
        || -> Result<bool, AllocError>
            requires { IsSync R.row }
            ensures { IfOk result (λ yes. yes ≡ true → shared_from opening.entry.now.schema finmap.empty (map as_pair (map (λ e. e.now) entries.entry.now)) ≡ None) }
        { share_no_key_beside(rt, alloc, opening.schema(), entries) },
        ||
            requires { AllFit opening.now.schema (map (λ e. e.now) entries.now) }
        { apply_shares(rt, alloc, opening, entries, shares, count, gate) },
    );
    let Ok(true) = apart else {
        return None;
    };
    match parts {
        Ok(parts) => Some(parts),
        Err(_) => None,
    }
}

/// Whether there is enough to apply that copies of the opening rows pay. (A guess.)
fn is_worth_copies(rows: &Rows, counts: &[(SourceId, usize)]) -> bool {
    let mut changes: usize = 0;
    for it in counts {
        changes = changes.saturating_add(it.1);
    }
    changes / 4 >= rows.count_keys()
}

/// Whether journals agree with one another and begin in order: threads find both at the same time. If they do, the first entry of each GTID
/// beyond the opening set is put into a list that is empty at first.
fn list_firsts<'a, R: Threads + Sync>(
    rt: &R,
    alloc: Global,
    list: &mut Vec<&'a Entry>,
    opened: &GtidSet,
    journals: &'a [Journal],
) -> bool
    requires { list.old.items ≡ [] }
    ensures { result ≡ true → AreFirsts opened.now journals.now (map (λ e. e.now) list.new.items) }
{
    let (ordered, listed) = join_mut(
        rt,
        &mut || -> Result<bool, AllocError>
            ensures { IfOk result (λ yes. yes ≡ true → BeginInOrder opened.entry.now journals.entry.now) }
        { begin_in_order(alloc, opened, journals) },
        &mut || -> Result<bool, AllocError>
            requires { list.now.items ≡ [] }
            ensures { IfOk result (λ yes. yes ≡ true → AreFirstsIf opened.entry.now journals.entry.now (map (λ e. e.now) list.exit.now.items)) }
        { list_agreeing(alloc, list, opened, journals) },
    );
    matches!(ordered, Ok(true)) && matches!(listed, Ok(true))
}

/// The executed set of all journals, and the rows of each share, if no two sources touch a key: threads find both at the same time.
fn apply_beside<G: ShareGate + Sync, R: Threads + Sync>(
    rt: &R,
    alloc: Global,
    opened: &GtidSet,
    journals: &[Journal],
    opening: &Rows,
    entries: &[&Entry],
    shares: &[(SourceId, usize)],
    count: usize,
    gate: &G,
) -> (Option<GtidSet>, Option<Vec<Option<Rows>>>)
    requires { AllFit opening.now.schema (map (λ e. e.now) entries.now) }
    ensures executed { IfSome result.0 (λ known. known ≡ all_of opened.now journals.now) }
    ensures count { IfSome result.1 (λ parts. length parts.items ≡ count) }
    ensures applied { IfSome result.1 (λ parts. AreApplied opening.now shares.now (map (λ e. e.now) entries.now) parts.items) }
    ensures apart { IfSome result.1 (λ parts. shared_from opening.now.schema finmap.empty (map as_pair (map (λ e. e.now) entries.now)) ≡ None) }
{
    thread::join(
        rt,
        || union_of(alloc, opened, journals),
        ||
            requires { AllFit opening.now.schema (map (λ e. e.now) entries.now) }
        { apply_apart(rt, alloc, opening, entries, shares, count, gate) },
    )
}

/// What `merge_by_shares` gives, if a pass over the journals lists what they bring: the list is empty at first.
fn merge_listed<'a, G: ShareGate + Sync, R: Threads + Sync>(
    rt: &R,
    alloc: Global,
    list: &mut Vec<&'a Entry>,
    opened: &GtidSet,
    rows: &Rows,
    journals: &'a [Journal],
    most: usize,
    gate: &G,
) -> Option<Merged>
    requires empty { list.old.items ≡ [] }
    requires some { 0 < most }
    requires fitting { AllFit rows.now.schema (in_order (first_contents opened.now (all_entries journals.now))) }
    ensures { IfSome result (λ merged. AreMerged opened.now rows.now journals.now merged.executed merged.parts.items) }
{
    keep_rules(journals);
    if !list_firsts(rt, alloc, list, opened, journals) {
        return None;
    }
    let Ok(mut counts) = count_changes(alloc, list) else {
        return None;
    };
    if !is_worth_copies(rows, &counts) {
        return None;
    }
    let count = counts.len().clamp(1, most);
    let Ok(shares) = put_into_shares(alloc, &mut counts, count) else {
        return None;
    };
    let (executed, found) = apply_beside(
        rt, alloc, opened, journals, rows, list, &shares, count, gate,
    );
    let executed = executed?;
    let found = found?;
    let parts = all_parts(alloc, found)?;
    Some(Merged { executed, parts })
}

/// The result of all journals together, if the audit of them is Sound and one pass over them shows that their keys are: the executed set of
/// all of them, and the parts of its rows that shares of the sources have. At most `most` threads apply them. The schema takes each
/// transaction beyond the opening set.
pub fn merge_by_shares<G: ShareGate + Sync, R: Threads + Sync>(
    rt: &R,
    alloc: Global,
    opened: &GtidSet,
    rows: &Rows,
    journals: &[Journal],
    most: usize,
    gate: &G,
) -> Option<Merged>
    requires some { 0 < most }
    requires fitting { AllFit rows.now.schema (in_order (first_contents opened.now (all_entries journals.now))) }
    ensures { IfSome result (λ merged. AreMerged opened.now rows.now journals.now merged.executed merged.parts.items) }
{
    let mut list = Vec::new(alloc);
    merge_listed(rt, alloc, &mut list, opened, rows, journals, most, gate)
}
