//! Channels by their numbers.
ghost use Rattle.std.specs.Prelude.{◌≡◌, ◌++◌, OnOk, slice_get};
ghost use Rattle.fault_places.specs.Channels.{label, name_of, label_at, entries_of};

use crate::lines::{put, put_number, put_shown};
use journal::{Entry, Journal};
use std::alloc::AllocError;
use txn_journal::BundleChannel;

/// Appends the number and the name of a channel.
pub(crate) fn put_label(out: &mut Vec<u8>, place: usize, name: &[u8]) -> Result<(), AllocError>
    ensures { OnOk result (out.new.items ≡ out.old.items ++ label place name.now) }
{
    put(out, "channel ")?;
    put_number(out, place)?;
    put(out, " ")?;
    put_shown(out, name)
}

/// The name of a channel; empty past the last.
fn name_at(channels: &[BundleChannel], place: usize) -> &[u8]
    ensures { result.now ≡ name_of (slice_get channels.now place) }
{
    match channels.get(place) {
        Some(channel) => channel.name.as_str().as_bytes(),
        None => &[],
    }
}

/// Appends the number and the name of the channel with a number.
pub(crate) fn put_label_at(
    out: &mut Vec<u8>,
    channels: &[BundleChannel],
    place: usize,
) -> Result<(), AllocError>
    ensures { OnOk result (out.new.items ≡ out.old.items ++ label_at channels.now place) }
{
    put_label(out, place, name_at(channels, place))
}

/// The entries of a channel's journal; none past the last.
pub(crate) fn entries_of(journals: &[Journal], place: usize) -> &[Entry]
    ensures { result.now ≡ entries_of journals.now place }
{
    match journals.get(place) {
        Some(journal) => journal.entries(),
        None => &[],
    }
}
