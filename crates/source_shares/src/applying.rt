//! One share of the sources, applied.
ghost use Rattle.std.specs.Prelude.{◌≡◌, Ok, map, true};
ghost use Rattle.history.specs.Sources.{apply_all};
ghost use Rattle.audit.specs.Worlds.{AllFit};
ghost use Rattle.source_shares.specs.Shares.{IsApplied, is_in_share, of_share};

use crate::sharing::share_of;
use gtid_text::SourceId;
use journal::Entry;
use rows::Rows;
use std::alloc::Global;

/// A source, and whether it is in the share.
#[derive(Clone, Copy)]
struct SourceTurn {
    source: SourceId,
    own: bool,
}

/// Turns from the source of an entry to that of the next.
fn turn_to(
    turn: SourceTurn,
    shares: &[(SourceId, usize)],
    share: usize,
    source: SourceId,
) -> SourceTurn
    requires { turn.own ≡ is_in_share shares.now share turn.source }
    ensures source { result.source ≡ source }
    ensures own { result.own ≡ is_in_share shares.now share source }
{
    if turn.source == source {
        return turn;
    }
    SourceTurn {
        source,
        own: share_of(shares, source) == share,
    }
}

/// Applies the entries of one share in order; true if all of them applied. False tells nothing: out of memory gives it too.
fn apply_each(
    alloc: Global,
    rows: &mut Rows,
    entries: &[&Entry],
    shares: &[(SourceId, usize)],
    share: usize,
) -> bool
    requires { AllFit rows.old.schema (map (λ e. e.now) entries.now) }
    ensures schema { rows.new.schema ≡ rows.old.schema }
    ensures applied { result ≡ true → apply_all rows.old.schema (of_share shares.now share (map (λ e. e.now) entries.now)) rows.old.rows ≡ Ok rows.new.rows }
{
    let first = SourceId::from_bits(0);
    let mut turn = SourceTurn {
        source: first,
        own: share_of(shares, first) == share,
    };
    for entry in entries {
        turn = turn_to(turn, shares, share, entry.gtid.source);
        if !turn.own {
            continue;
        }
        match rows.apply_fitting(alloc, &entry.txn) {
            Ok(()) => {}
            Err(_) => return false,
        }
    }
    true
}

/// The rows after the entries of a share, from the opening rows, if all of them apply.
pub(crate) fn apply_share(
    alloc: Global,
    opening: &Rows,
    entries: &[&Entry],
    shares: &[(SourceId, usize)],
    share: usize,
) -> Option<Rows>
    requires { AllFit opening.now.schema (map (λ e. e.now) entries.now) }
    ensures { IsApplied opening.now shares.now (map (λ e. e.now) entries.now) share result }
{
    let Ok(mut rows) = opening.copy_apart(alloc) else {
        return None;
    };
    if !apply_each(alloc, &mut rows, entries, shares, share) {
        return None;
    }
    Some(rows)
}
