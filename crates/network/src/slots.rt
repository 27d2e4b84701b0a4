//! A number for some channels: a slot for each channel, up to the last that has had one.
ghost use Rattle.std.specs.Prelude.{◌≡◌, ◌<◌, length, OnOk};
ghost use Rattle.std.specs.FinMap as finmap;
ghost use Rattle.network.specs.Slots.{sources_of};

use std::alloc::AllocError;

/// What a slot holds, if there is the slot.
pub(crate) fn slot_at(slots: &[Option<usize>], channel: usize) -> Option<usize>
    ensures { result ≡ finmap.get (sources_of slots.now) channel }
{
    if channel < slots.len() {
        slots[channel]
    } else {
        None
    }
}

/// Adds free slots up to a channel's; the map that they denote is the same.
pub(crate) fn make_slots(slots: &mut Vec<Option<usize>>, channel: usize) -> Result<(), AllocError>
    ensures there { OnOk result (channel < length slots.new.items) }
    ensures same { sources_of slots.new.items ≡ sources_of slots.old.items }
{
    'slots: while slots.len() <= channel {
        slots.push(None)?;
    }
    Ok(())
}

/// Fills a slot.
pub(crate) fn fill(slots: &mut [Option<usize>], channel: usize, number: usize)
    requires { channel < length slots.old }
    ensures { sources_of slots.new ≡ finmap.insert (sources_of slots.old) channel number }
{
    slots[channel] = Some(number);
}

/// Frees a slot, if there is the slot.
pub(crate) fn free(slots: &mut [Option<usize>], channel: usize)
    ensures { sources_of slots.new ≡ finmap.remove (sources_of slots.old) channel }
{
    if channel < slots.len() {
        slots[channel] = None;
    }
}
