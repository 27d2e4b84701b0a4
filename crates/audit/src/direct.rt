//! The audit without a world, if one pass finds that nothing is wrong with keys.
ghost use Rattle.std.specs.Prelude.{◌≡◌, IfOk, IfErr, IfSome, [], map, true};
ghost use Rattle.std.specs.List.{list_all};
ghost use Rattle.std.specs.FinSet as set;
ghost use Rattle.rows.specs.Apply as apply;
ghost use Rattle.world.specs.declared.verdict.Verdict.TheVariants.{Sound};
ghost use Rattle.world.specs.Audit.{all_entries, first_contents, verdict, verdict_of_keys, world_of};
ghost use Rattle.audit.specs.Contents.{in_order};
ghost use Rattle.audit.specs.Faults.{IsAuditFault};
ghost use Rattle.audit.specs.Firsts.{AreFirstsIf, BeginInOrder};
ghost use Rattle.audit.specs.Worlds.{AllFit, verdict_over, keys_verdict_over};

use crate::finding::{audit, audit_keys, keep_rules};
use crate::gathering::{agree_apart, list_apart, list_equal};
use crate::listed::{are_ascending, verdict_applied};
use crate::ordered::are_in_order;
use crate::sources::world_of_fitting;
use gtid_set::{GtidSet, SetFault};
use journal::{Entry, Journal};
use rows::{Rows, Schema};
use std::alloc::{AllocError, Global};
use world::Verdict;

/// Whether the previous set of each journal is in the opening set.
fn have_previous(opened: &GtidSet, journals: &[Journal]) -> bool
    ensures { result ≡ list_all (λ j. set.is_subset j.previous opened.now) journals.now }
{
    journals
        .iter()
        .all(|journal| journal.previous().is_subset(opened))
}

/// Whether journals begin within the opening set and are found to bring the numbers of each source one after another.
pub fn begin_in_order(
    alloc: Global,
    opened: &GtidSet,
    journals: &[Journal],
) -> Result<bool, AllocError>
    ensures { IfOk result (λ yes. yes ≡ true → BeginInOrder opened.now journals.now) }
{
    if !have_previous(opened, journals) {
        return Ok(false);
    }
    are_in_order(alloc, opened, journals)
}

/// Whether the keys of journals are found to be sound by one pass over them.
fn are_keys_sound(
    alloc: Global,
    opened: &GtidSet,
    schema: &Schema,
    journals: &[Journal],
) -> Result<bool, AllocError>
    ensures { IfOk result (λ yes. yes ≡ true → (rows : apply.Rows) → verdict_of_keys (world_of schema.now opened.now rows journals.now) journals.now ≡ Sound) }
{
    keep_rules(journals);
    if !begin_in_order(alloc, opened, journals)? {
        return Ok(false);
    }
    agree_apart(alloc, opened, schema, journals)
}

/// The audit of keys by a world that is made for it.
#[cold]
#[inline(never)]
fn audit_keys_with_world(
    alloc: Global,
    opened: &GtidSet,
    rows: &Rows,
    journals: &[Journal],
) -> Result<Verdict, SetFault>
    requires { AllFit rows.now.schema (in_order (first_contents opened.now (all_entries journals.now))) }
    ensures found { IfOk result (λ found. found ≡ verdict_of_keys (world_of rows.now.schema opened.now rows.now.rows journals.now) journals.now) }
    ensures fault { IfErr result (IsAuditFault opened.now journals.now) }
{
    let world = world_of_fitting(alloc, opened, rows, journals)?;
    let found = audit_keys(alloc, &world, journals);
    drop(world);
    found
}

/// What an audit of the keys of journals finds first in their own world over an opening set and rows, whose schema takes each transaction
/// beyond that set: what `audit_keys` finds in the world that `world_of_fitting` makes. If one pass over the journals shows that the keys
/// are sound, no world is made. The faults are those of `audit_keys`.
pub fn audit_keys_of(
    alloc: Global,
    opened: &GtidSet,
    rows: &Rows,
    journals: &[Journal],
) -> Result<Verdict, SetFault>
    requires { AllFit rows.now.schema (in_order (first_contents opened.now (all_entries journals.now))) }
    ensures found { IfOk result (λ found. found ≡ keys_verdict_over rows.now opened.now journals.now) }
    ensures fault { IfErr result (IsAuditFault opened.now journals.now) }
{
    if are_keys_sound(alloc, opened, rows.schema(), journals)? {
        return Ok(Verdict::Sound);
    }
    audit_keys_with_world(alloc, opened, rows, journals)
}

/// Whether journals are found to agree with one another. If they do, the first entry of each GTID beyond the opening set is put into
/// `list`, which is empty at first, in the order of GTIDs. If the journals begin in order too (`begin_in_order`), that is all that their
/// world has, and their keys are sound unless two sources touch one (`share_no_key`).
pub fn list_agreeing<'a>(
    alloc: Global,
    list: &mut Vec<&'a Entry>,
    opened: &GtidSet,
    journals: &'a [Journal],
) -> Result<bool, AllocError>
    requires { list.old.items ≡ [] }
    ensures { IfOk result (λ yes. yes ≡ true → AreFirstsIf opened.now journals.now (map (λ e. e.now) list.new.items)) }
{
    keep_rules(journals);
    if !list_equal(alloc, list, opened, journals)? {
        return Ok(false);
    }
    let ascending = are_ascending(list);
    Ok(ascending)
}

/// The verdict on journals that begin within the opening set and are in order, if one pass over them finds their keys to be sound: what the
/// pass listed is applied once. The list is empty at first.
fn verdict_listed<'a>(
    alloc: Global,
    list: &mut Vec<&'a Entry>,
    opened: &GtidSet,
    rows: &Rows,
    journals: &'a [Journal],
) -> Result<Option<Verdict>, AllocError>
    requires empty { list.old.items ≡ [] }
    requires fitting { AllFit rows.now.schema (in_order (first_contents opened.now (all_entries journals.now))) }
    requires begun { BeginInOrder opened.now journals.now }
    ensures { IfOk result (λ found. IfSome found (λ v. v ≡ verdict (world_of rows.now.schema opened.now rows.now.rows journals.now) journals.now)) }
{
    keep_rules(journals);
    if !list_apart(alloc, list, opened, rows.schema(), journals)? {
        return Ok(None);
    }
    if !are_ascending(list) {
        return Ok(None);
    }
    let found = verdict_applied(alloc, rows, list)?;
    Ok(Some(found))
}

/// The verdict on journals, if one pass over them finds their keys to be sound.
fn verdict_in_one_pass(
    alloc: Global,
    opened: &GtidSet,
    rows: &Rows,
    journals: &[Journal],
) -> Result<Option<Verdict>, AllocError>
    requires { AllFit rows.now.schema (in_order (first_contents opened.now (all_entries journals.now))) }
    ensures { IfOk result (λ found. IfSome found (λ v. v ≡ verdict (world_of rows.now.schema opened.now rows.now.rows journals.now) journals.now)) }
{
    if !begin_in_order(alloc, opened, journals)? {
        return Ok(None);
    }
    let mut list = Vec::new(alloc);
    verdict_listed(alloc, &mut list, opened, rows, journals)
}

/// The audit by a world that is made for it.
#[cold]
#[inline(never)]
fn audit_with_world(
    alloc: Global,
    opened: &GtidSet,
    rows: &Rows,
    journals: &[Journal],
) -> Result<Verdict, SetFault>
    requires { AllFit rows.now.schema (in_order (first_contents opened.now (all_entries journals.now))) }
    ensures found { IfOk result (λ found. found ≡ verdict (world_of rows.now.schema opened.now rows.now.rows journals.now) journals.now) }
    ensures fault { IfErr result (IsAuditFault opened.now journals.now) }
{
    let world = world_of_fitting(alloc, opened, rows, journals)?;
    let found = audit(alloc, &world, journals);
    drop(world);
    found
}

/// What an audit of journals finds first in their own world over an opening set and rows, whose schema takes each transaction beyond that
/// set: what `audit` finds in the world that `world_of_fitting` makes. If one pass over the journals shows that their keys are sound, no
/// world is made, and what the pass lists is applied once. The faults are those of `audit_keys`.
pub fn audit_of(
    alloc: Global,
    opened: &GtidSet,
    rows: &Rows,
    journals: &[Journal],
) -> Result<Verdict, SetFault>
    requires { AllFit rows.now.schema (in_order (first_contents opened.now (all_entries journals.now))) }
    ensures found { IfOk result (λ found. found ≡ verdict_over rows.now opened.now journals.now) }
    ensures fault { IfErr result (IsAuditFault opened.now journals.now) }
{
    if let Some(found) = verdict_in_one_pass(alloc, opened, rows, journals)? {
        return Ok(found);
    }
    audit_with_world(alloc, opened, rows, journals)
}
