//! From each GTID to its transaction.
ghost use Rattle.std.specs.Prelude.{◌≡◌, ◌<◌, ◌++◌, IfOk, OnOk, length, true};
ghost use Rattle.std.specs.List.Sorted.{IsBinarySearchResult, IsSearchInRange};
ghost use Rattle.std.specs.Option.{option_copied};
ghost use Rattle.std.specs.FinMap as finmap;
ghost use Rattle.gtid_text.specs.Gtids.{gtid_cmp};
ghost use Rattle.world.specs.Audit.{all_entries, first_contents};
ghost use Rattle.audit.specs.Contents.{IsAscending, beyond, contents_of, in_order};
ghost use Rattle.audit.specs.Worlds.{IsPlaceIn};

use gtid_set::GtidSet;
use gtid_text::{Gtid, SourceId};
use journal::{Entry, Journal};
use rows::Transaction;
use std::alloc::{AllocError, Global};
use std::marker::Model;

/// For each source the place where the search for its next transaction begins. Some sources share one: it is a guess, and the entry there
/// is tested.
pub(crate) type Guesses = [usize; 16];

/// From each GTID to its transaction: the entries in the order of GTIDs, no GTID twice. The images
/// are shared with the journals.
#[derive(Drop)]
pub(crate) struct Contents {
    entries: Vec<Entry>,
}

impl Model for Contents {
    ghost use Rattle.audit.specs.Contents.{Contents, IsAscending, contents_code, contents_of};

    ghost Value = { Contents };

    ghost coded = { contents_code };

    ghost view = { λ a. contents_of a.entries.items };

    ghost invariant = { λ a. IsAscending a.entries.items };
}

impl Contents {
    /// The first transaction that journals bring under each GTID beyond a set. If they bring the GTIDs in order, nothing is sorted.
    pub(crate) fn of_journals(
        alloc: Global,
        opened: &GtidSet,
        journals: &[Journal],
    ) -> Result<Contents, AllocError>
        ensures { IfOk result (λ contents. contents ≡ first_contents opened.now (all_entries journals.now)) }
    {
        let mut entries = entries_beyond(alloc, opened, journals)?;
        keep_firsts(&mut entries)?;
        Ok(Contents { entries })
    }

    /// The transaction of a GTID. The search begins at the guess of its source.
    pub(crate) fn get_near(&self, guesses: &mut Guesses, gtid: &Gtid) -> Option<&Transaction>
        ensures { option_copied result ≡ finmap.get self.now gtid.now }
    {
        match seek(&self.entries, guesses, gtid) {
            Ok(place) => Some(&self.entries[place].txn),
            Err(_) => None,
        }
    }

    /// The place of a GTID in the order of GTIDs, if it has a transaction. The search begins at the guess of its source.
    pub(crate) fn place_near(&self, guesses: &mut Guesses, gtid: &Gtid) -> Option<usize>
        ensures { IsPlaceIn self.now gtid.now result }
    {
        match seek(&self.entries, guesses, gtid) {
            Ok(place) => Some(place),
            Err(_) => None,
        }
    }

    /// The entries, in the order of GTIDs.
    pub(crate) fn in_order(&self) -> &[Entry]
        ensures { result.now ≡ in_order self.now }
    {
        &self.entries
    }
}

/// The entries that were not executed from the start, in the order of journals.
fn entries_beyond(
    alloc: Global,
    opened: &GtidSet,
    journals: &[Journal],
) -> Result<Vec<Entry>, AllocError>
    ensures { IfOk result (λ list. list.items ≡ beyond opened.now (all_entries journals.now)) }
{
    let mut list = Vec::new(alloc);
    for journal in journals {
        push_entries(&mut list, opened, journal.entries())?;
    }
    Ok(list)
}

/// Appends the entries that were not executed from the start.
fn push_entries(
    list: &mut Vec<Entry>,
    opened: &GtidSet,
    entries: &[Entry],
) -> Result<(), AllocError>
    ensures { OnOk result (list.new.items ≡ list.old.items ++ beyond opened.now entries.now) }
{
    list.reserve(entries.len())?;
    for entry in entries {
        if opened.contains(&entry.gtid) {
            continue;
        }
        let entry = entry.clone()?;
        list.push(entry)?;
    }
    Ok(())
}

/// Sorts entries by their GTIDs and keeps the first of each. If they are ascending already, they are only compared; else the sort allocates
/// room for as many entries.
fn keep_firsts(list: &mut Vec<Entry>) -> Result<(), AllocError>
    ensures rising { OnOk result (IsAscending list.new.items) }
    ensures firsts { OnOk result (contents_of list.new.items ≡ contents_of list.old.items) }
{
    if is_ascending(list) {
        return Ok(());
    }
    list.sort_by_key(|entry| entry.gtid)?;
    list.dedup_by_key(|entry| entry.gtid);
    Ok(())
}

/// Whether the GTIDs of entries are ascending, none of them twice.
fn is_ascending(entries: &[Entry]) -> bool
    ensures { result ≡ true → IsAscending entries.now }
{
    entries.is_sorted_by(|a, b| a.gtid < b.gtid)
}

/// The guess of a source.
fn guess_of(source: SourceId) -> usize
    ensures { result < 16 }
{
    (source.bits() % 16) as usize
}

/// Searches entries for a GTID, first at the guess of its source: `Ok` is its place, `Err` where it would be inserted. The next guess is
/// the place after it.
fn seek(entries: &[Entry], guesses: &mut Guesses, gtid: &Gtid) -> Result<usize, usize>
    ensures within { IsSearchInRange result (length entries.now) }
    ensures place { IsBinarySearchResult (λ e. gtid_cmp e.gtid gtid.now) entries.now result }
{
    let guess = guess_of(gtid.source);
    let found = place_near(entries, guesses[guess], gtid);
    if let Ok(place) = found {
        guesses[guess] = place + 1;
    }
    found
}

/// Searches entries for a GTID, first at a guess: `Ok` is its place, `Err` where it would be inserted.
fn place_near(entries: &[Entry], guess: usize, gtid: &Gtid) -> Result<usize, usize>
    ensures within { IsSearchInRange result (length entries.now) }
    ensures place { IsBinarySearchResult (λ e. gtid_cmp e.gtid gtid.now) entries.now result }
{
    if let Some(entry) = entries.get(guess) {
        if entry.gtid == *gtid {
            return Ok(guess);
        }
    }
    place_of(entries, gtid)
}

/// Searches entries for a GTID: `Ok` is its place, `Err` where it would be inserted.
fn place_of(entries: &[Entry], gtid: &Gtid) -> Result<usize, usize>
    ensures within { IsSearchInRange result (length entries.now) }
    ensures place { IsBinarySearchResult (λ e. gtid_cmp e.gtid gtid.now) entries.now result }
{
    entries.binary_search_by_key(gtid, |entry| entry.gtid)
}
