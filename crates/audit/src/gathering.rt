//! One pass over journals: no two of their transactions under one GTID differ, and no key is touched by two sources.
ghost use Rattle.std.specs.Prelude.{◌≡◌, ◌<◌, ◌++◌, true, false, List, ◌∷◌, [], map, length, IfOk, IfSome, OnOk, None};
ghost use Rattle.std.specs.List.Sorted.{IsPermutation};
ghost use Rattle.std.specs.FinSet as set;
ghost use Rattle.gtid_text.specs.Gtids.{same_gtid};
ghost use Rattle.gtid_set.specs.Sets.{Gtids};
ghost use Rattle.rows.specs.declared.schema.Table.{Table};
ghost use Rattle.rows.specs.WriteSet.{write_set};
ghost use Rattle.journal.specs.declared.Entry.{Entry};
ghost use Rattle.world.specs.Audit.{all_entries, first_contents};
ghost use Rattle.audit.specs.Contents.{Contents};
ghost use Rattle.audit.specs.Gathering.{AgreeApart, AreListed, AreRuns, HasNoRun, IsGathered, IsListed, IsPut, IsRunAt, begun, entries_of, longer};
ghost use Rattle.audit.specs.Marks.{TouchesMarks, key_mark, owner_of};

use crate::equal::is_equal;
use crate::marks::push_marks;
use crate::owners::MarkOwners;
use gtid_set::GtidSet;
use gtid_text::{Gtid, SourceId};
use journal::{Entry, Journal};
use rows::Schema;
use std::alloc::{AllocError, Global};
use std::marker::Model;

/// The most sources that one pass takes (our own limit): a source's run is searched for among as many.
const MOST_RUNS: usize = 64;

/// What journals brought of one source: the last number, and the first entry of each GTID.
#[derive(Drop)]
struct Run<'a> {
    source: SourceId,
    last: u64,
    entries: Vec<&'a Entry>,
}

impl<'a> Model for Run<'a> {
    ghost use Rattle.std.specs.Prelude.{map};
    ghost use Rattle.audit.specs.Gathering.{Run};

    ghost Value = { Run };

    ghost view = { λ a. record { source = a.source; last = a.last; entries = map (λ e. e.now) a.entries.items } };
}

fn is_same(a: &Gtid, b: &Gtid) -> bool
    ensures { result ≡ same_gtid a.now b.now }
{
    a.source == b.source && a.number == b.number
}

impl<'a> Run<'a> {
    /// Nothing came yet.
    fn begin(alloc: Global, source: SourceId) -> Run<'a>
        ensures { result ≡ begun source }
    {
        Run {
            source,
            last: 0,
            entries: Vec::new(alloc),
        }
    }

    fn source(&self) -> SourceId
        ensures { result ≡ self.now.source }
    {
        self.source
    }

    fn last(&self) -> u64
        ensures { result ≡ self.now.last }
    {
        self.last
    }

    /// Appends the first entry of a further GTID.
    fn put(&mut self, entry: &'a Entry) -> Result<(), AllocError>
        ensures { OnOk result (self.new ≡ longer self.old entry.now) }
    {
        self.entries.push(entry)?;
        self.last = entry.gtid.number;
        Ok(())
    }

    /// The candidate for the entry with this number: the one at the index that it has if the run has no gap.
    fn entry_near(&self, number: u64) -> Option<&Entry>
        ensures { IfSome result (λ e. IsListed self.now.entries e.now) }
    {
        let Some(first) = self.entries.first() else {
            return None;
        };
        let Some(behind) = number.checked_sub(first.gtid.number) else {
            return None;
        };
        match self.entries.get(behind as usize) {
            Some(entry) => Some(*entry),
            None => None,
        }
    }

    /// Whether an equal entry is found.
    fn has(&self, entry: &Entry) -> bool
        ensures { result ≡ true → IsListed self.now.entries entry.now }
    {
        match self.entry_near(entry.gtid.number) {
            Some(first) => is_same(&first.gtid, &entry.gtid) && is_equal(&first.txn, &entry.txn),
            None => false,
        }
    }

    /// Appends the entries to a list.
    fn push_to(&self, list: &mut Vec<&'a Entry>) -> Result<(), AllocError>
        ensures { OnOk result (map (λ e. e.now) list.new.items ≡ map (λ e. e.now) list.old.items ++ self.now.entries) }
    {
        list.extend_from_slice(&self.entries)
    }
}

/// The place of a source's run.
fn place_of(runs: &[Run<'_>], source: SourceId) -> Option<usize>
    ensures found { IfSome result (IsRunAt runs.now source) }
    ensures none { result ≡ None → HasNoRun runs.now source }
{
    for (place, run) in runs.iter().enumerate() {
        if run.source() == source {
            return Some(place);
        }
    }
    None
}

/// The place of a source's run. The search begins at a guess.
fn place_near(runs: &[Run<'_>], guess: usize, source: SourceId) -> Option<usize>
    ensures found { IfSome result (IsRunAt runs.now source) }
    ensures none { result ≡ None → HasNoRun runs.now source }
{
    if let Some(run) = runs.get(guess) {
        if run.source() == source {
            return Some(guess);
        }
    }
    place_of(runs, source)
}

/// The place of a source's run, which is begun if there is none and there are not too many.
fn run_of<'a>(
    alloc: Global,
    runs: &mut Vec<Run<'a>>,
    guess: usize,
    source: SourceId,
) -> Result<Option<usize>, AllocError>
    ensures place { IfOk result (λ found. IfSome found (IsRunAt runs.new.items source)) }
    ensures kept { OnOk result ((contents : Contents) → AreRuns contents runs.old.items → AreRuns contents runs.new.items) }
{
    if let Some(place) = place_near(runs, guess, source) {
        return Ok(Some(place));
    }
    let place = runs.len();
    if place >= MOST_RUNS {
        return Ok(None);
    }
    runs.push(Run::begin(alloc, source))?;
    Ok(Some(place))
}

/// Appends an entry to a run.
fn put<'a>(runs: &mut Vec<Run<'a>>, place: usize, entry: &'a Entry) -> Result<(), AllocError>
    requires { place < length runs.old.items }
    ensures { OnOk result (IsPut runs.old.items runs.new.items place entry.now) }
{
    runs[place].put(entry)
}

/// Lets the source of an entry touch the marks of its keys; returns whether no other source touched one of them before. Without tables
/// there are no keys, and no change is read.
fn touch_keys(
    owners: &mut MarkOwners,
    marks: &mut Vec<u64>,
    schema: &Schema,
    entry: &Entry,
) -> Result<bool, AllocError>
    ensures { IfOk result (λ own. own ≡ true → TouchesMarks (owner_of owners.old) (map key_mark (write_set schema.now entry.now.txn)) entry.now.gtid.source (owner_of owners.new)) }
{
    if schema.tables().is_empty() {
        return Ok(true);
    }
    marks.clear();
    push_marks(marks, schema, &entry.txn)?;
    owners.touch_all(marks, entry.gtid.source)
}

/// How many changes a transaction has, by the first ones. (A guess.)
fn usual_changes(entries: &[Entry]) -> usize {
    let mut count: usize = 63;
    for place in 0..64 {
        if let Some(entry) = entries.get(place) {
            count = count.saturating_add(entry.txn.changes.as_slice().len());
        }
    }
    count / 64
}

/// About how many keys entries touch. (A guess.)
pub(crate) fn usual_keys(entries: &[Entry]) -> usize {
    let count = entries.len().saturating_mul(usual_changes(entries));
    count.saturating_mul(2)
}

/// The same of entries that are lent.
pub(crate) fn usual_keys_of(entries: &[&Entry]) -> usize {
    let mut count: usize = 63;
    for place in 0..64 {
        if let Some(entry) = entries.get(place) {
            count = count.saturating_add(entry.txn.changes.as_slice().len());
        }
    }
    entries.len().saturating_mul(count / 64).saturating_mul(2)
}

/// About how many keys journals touch. (A guess.)
fn usual_keys_of_all(journals: &[Journal]) -> usize {
    let mut count: usize = 0;
    for journal in journals {
        count = count.saturating_add(usual_keys(journal.entries()));
    }
    count
}

/// What a pass gathers: runs, the place of the last one, and the source that touched each mark.
#[derive(Drop)]
struct Gathering<'a> {
    runs: Vec<Run<'a>>,
    place: usize,
    owners: MarkOwners,
    /// (one list for the marks of each transaction)
    marks: Vec<u64>,
}

/// Gathers an entry that was not executed from the start, of the source of this run; returns whether it is the first of its GTID and
/// touches no key of another source, or is found to be equal to the first.
fn gather_new<'a>(
    state: &mut Gathering<'a>,
    schema: &Schema,
    place: usize,
    entry: &'a Entry,
) -> Result<bool, AllocError>
    requires { IsRunAt state.old.runs.items entry.now.gtid.source place }
    ensures { IfOk result (λ yes. yes ≡ true → (opened : Gtids) (es : List Entry) → set.contains opened entry.now.gtid ≡ false → IsGathered opened schema.now es state.old.runs.items (owner_of state.old.owners) → IsGathered opened schema.now (es ++ entry.now ∷ []) state.new.runs.items (owner_of state.new.owners)) }
{
    if entry.gtid.number <= state.runs[place].last() {
        return Ok(state.runs[place].has(entry));
    }
    put(&mut state.runs, place, entry)?;
    touch_keys(&mut state.owners, &mut state.marks, schema, entry)
}

/// Gathers an entry; returns whether it was executed from the start, is found to be equal to the first of its GTID, or is that first one
/// and touches no key of another source.
fn gather<'a>(
    alloc: Global,
    state: &mut Gathering<'a>,
    opened: &GtidSet,
    schema: &Schema,
    entry: &'a Entry,
) -> Result<bool, AllocError>
    ensures { IfOk result (λ yes. yes ≡ true → (es : List Entry) → IsGathered opened.now schema.now es state.old.runs.items (owner_of state.old.owners) → IsGathered opened.now schema.now (es ++ entry.now ∷ []) state.new.runs.items (owner_of state.new.owners)) }
{
    if opened.contains(&entry.gtid) {
        return Ok(true);
    }
    match run_of(alloc, &mut state.runs, state.place, entry.gtid.source)? {
        Some(place) => {
            state.place = place;
            gather_new(state, schema, place, entry)
        }
        None => Ok(false),
    }
}

/// Gathers entries in order, up to one for which `gather` is false; returns whether there was none.
fn gather_each<'a>(
    alloc: Global,
    state: &mut Gathering<'a>,
    opened: &GtidSet,
    schema: &Schema,
    entries: &'a [Entry],
) -> Result<bool, AllocError>
    ensures { IfOk result (λ yes. yes ≡ true → (es : List Entry) → IsGathered opened.now schema.now es state.old.runs.items (owner_of state.old.owners) → IsGathered opened.now schema.now (es ++ entries.now) state.new.runs.items (owner_of state.new.owners)) }
{
    for entry in entries {
        if !gather(alloc, state, opened, schema, entry)? {
            return Ok(false);
        }
    }
    Ok(true)
}

/// Gathers all entries of all journals, in order; returns whether `gather` was true of each.
fn gather_all<'a>(
    alloc: Global,
    state: &mut Gathering<'a>,
    opened: &GtidSet,
    schema: &Schema,
    journals: &'a [Journal],
) -> Result<bool, AllocError>
    ensures { IfOk result (λ yes. yes ≡ true → IsGathered opened.now schema.now [] state.old.runs.items (owner_of state.old.owners) → IsGathered opened.now schema.now (all_entries journals.now) state.new.runs.items (owner_of state.new.owners)) }
{
    for journal in journals {
        if !gather_each(alloc, state, opened, schema, journal.entries())? {
            return Ok(false);
        }
    }
    Ok(true)
}

/// Nothing came yet.
fn begin<'a>(alloc: Global, owners: MarkOwners) -> Gathering<'a>
    ensures { (opened : Gtids) (schema : List Table) → IsGathered opened schema [] result.runs.items (owner_of result.owners) }
{
    Gathering {
        runs: Vec::new(alloc),
        place: 0,
        owners,
        marks: Vec::new(alloc),
    }
}

/// Whether one pass finds that no two transactions of journals under one GTID differ, and that no two sources touch one key. The pass gives
/// up if there are more than 64 sources.
pub(crate) fn agree_apart(
    alloc: Global,
    opened: &GtidSet,
    schema: &Schema,
    journals: &[Journal],
) -> Result<bool, AllocError>
    ensures { IfOk result (λ yes. yes ≡ true → AgreeApart opened.now schema.now journals.now) }
{
    let owners = MarkOwners::for_marks(alloc, usual_keys_of_all(journals))?;
    let mut state = begin(alloc, owners);
    gather_all(alloc, &mut state, opened, schema, journals)
}

/// Appends the entries of runs to a list, run after run.
fn push_runs<'a>(list: &mut Vec<&'a Entry>, runs: &[Run<'a>]) -> Result<(), AllocError>
    ensures { OnOk result (map (λ e. e.now) list.new.items ≡ map (λ e. e.now) list.old.items ++ entries_of runs.now) }
{
    for run in runs {
        run.push_to(list)?;
    }
    Ok(())
}

/// Sorts runs by their sources.
fn sort_runs(runs: &mut Vec<Run<'_>>) -> Result<(), AllocError>
    ensures { IsPermutation runs.old.items runs.new.items }
{
    runs.sort_by_key(|run| run.source)
}

/// What `list_apart` does, over a state to which nothing came yet.
fn gather_list<'a>(
    alloc: Global,
    state: &mut Gathering<'a>,
    list: &mut Vec<&'a Entry>,
    opened: &GtidSet,
    schema: &Schema,
    journals: &'a [Journal],
) -> Result<bool, AllocError>
    requires begun { IsGathered opened.now schema.now [] state.old.runs.items (owner_of state.old.owners) }
    requires empty { list.old.items ≡ [] }
    ensures agree { IfOk result (λ yes. yes ≡ true → AgreeApart opened.now schema.now journals.now) }
    ensures listed { IfOk result (λ yes. yes ≡ true → AreListed (first_contents opened.now (all_entries journals.now)) (map (λ e. e.now) list.new.items)) }
{
    if !gather_all(alloc, state, opened, schema, journals)? {
        return Ok(false);
    }
    sort_runs(&mut state.runs)?;
    push_runs(list, &state.runs)?;
    Ok(true)
}

/// What `agree_apart` finds. If it is true, the first entry of each GTID beyond the opening set is put into `list`, which is empty at
/// first: sources are ascending in it, and the numbers of each are too.
pub(crate) fn list_apart<'a>(
    alloc: Global,
    list: &mut Vec<&'a Entry>,
    opened: &GtidSet,
    schema: &Schema,
    journals: &'a [Journal],
) -> Result<bool, AllocError>
    requires { list.old.items ≡ [] }
    ensures agree { IfOk result (λ yes. yes ≡ true → AgreeApart opened.now schema.now journals.now) }
    ensures listed { IfOk result (λ yes. yes ≡ true → AreListed (first_contents opened.now (all_entries journals.now)) (map (λ e. e.now) list.new.items)) }
{
    let owners = MarkOwners::for_marks(alloc, usual_keys_of_all(journals))?;
    let mut state = begin(alloc, owners);
    gather_list(alloc, &mut state, list, opened, schema, journals)
}

/// Puts the first entry of each GTID beyond the opening set into `list`, which is empty at first, unless two transactions of journals under
/// one GTID differ: sources are ascending in it, and the numbers of each are too. No key is examined.
pub(crate) fn list_equal<'a>(
    alloc: Global,
    list: &mut Vec<&'a Entry>,
    opened: &GtidSet,
    journals: &'a [Journal],
) -> Result<bool, AllocError>
    requires { list.old.items ≡ [] }
    ensures agree { IfOk result (λ yes. yes ≡ true → AgreeApart opened.now [] journals.now) }
    ensures listed { IfOk result (λ yes. yes ≡ true → AreListed (first_contents opened.now (all_entries journals.now)) (map (λ e. e.now) list.new.items)) }
{
    let owners = MarkOwners::for_marks(alloc, 0)?;
    let mut state = begin(alloc, owners);
    let tables = Schema::empty(alloc);
    gather_list(alloc, &mut state, list, opened, &tables, journals)
}
