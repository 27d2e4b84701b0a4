//! Sources put into shares of about one size.
ghost use Rattle.std.specs.Prelude.{◌≡◌, ◌<◌, ◌≤◌, IfOk, length};
ghost use Rattle.source_shares.specs.Shares.{AreBelow, share_in};

use gtid_text::SourceId;
use journal::Entry;
use std::alloc::{AllocError, Global};

/// The share of a source: that of the first pair that names it, or else the first.
pub(crate) fn share_of(shares: &[(SourceId, usize)], source: SourceId) -> usize
    ensures { result ≡ share_in shares.now source }
{
    match shares.split_first() {
        None => 0,
        Some((first, others)) => if first.0 == source {
            first.1
        } else {
            share_of(others, source)
        },
    }
}

/// How many entries of a source are sampled for how many changes they have.
const SAMPLE: usize = 64;

/// About how many changes entries have, by the first of them.
fn usual_changes(entries: &[&Entry]) -> usize {
    let (sample, _others) = entries.split_at(entries.len().min(SAMPLE));
    let mut changes: usize = 0;
    for entry in sample {
        changes = changes.saturating_add(entry.txn.changes.as_slice().len());
    }
    (changes / sample.len().max(1)).saturating_mul(entries.len())
}

/// The place after the last entry of the source that the entry at a place has; sources are ascending.
fn place_behind(entries: &[&Entry], place: usize) -> usize
    requires { place < length entries.now }
    ensures behind { place < result }
    ensures within { result ≤ length entries.now }
{
    let source = entries[place].gtid.source;
    let behind = entries.partition_point(|entry| entry.gtid.source <= source);
    behind.clamp(place + 1, entries.len())
}

/// About how many changes each source has; sources are ascending. (A guess.)
pub(crate) fn count_changes(
    alloc: Global,
    entries: &[&Entry],
) -> Result<Vec<(SourceId, usize)>, AllocError> {
    let mut counts = Vec::new(alloc);
    let mut place = 0;
    'sources: while place < entries.len() {
        let behind = place_behind(entries, place);
        let source = entries[place].gtid.source;
        counts.push((source, usual_changes(&entries[place..behind])))?;
        place = behind;
    }
    Ok(counts)
}

/// The place of the least number.
fn least_place(loads: &[usize]) -> usize
    requires { 0 < length loads.now }
    ensures { result < length loads.now }
{
    let mut least = 0;
    for place in 1..loads.len() {
        if loads[place] < loads[least] {
            least = place;
        }
    }
    least
}

/// Adds a source with `changes` changes to the share that has the fewest; returns that share.
fn load(loads: &mut [usize], changes: usize) -> usize
    requires { 0 < length loads.old }
    ensures same { length loads.new ≡ length loads.old }
    ensures within { result < length loads.old }
{
    let share = least_place(loads);
    loads[share] = loads[share].saturating_add(changes);
    share
}

/// Puts each source, with its number of changes, into one of the shares. Those with the most changes come first, each into the share that
/// has the fewest.
pub(crate) fn put_into_shares(
    alloc: Global,
    counts: &mut Vec<(SourceId, usize)>,
    count: usize,
) -> Result<Vec<(SourceId, usize)>, AllocError>
    requires { 0 < count }
    ensures { IfOk result (λ shares. AreBelow count shares.items) }
{
    counts.sort_by_key(|it| usize::MAX - it.1)?;
    let mut loads = vec![in alloc; 0; count]?;
    let mut shares = Vec::new(alloc);
    for it in counts.iter() {
        let share = load(&mut loads, it.1);
        shares.push((it.0, share))?;
    }
    Ok(shares)
}
