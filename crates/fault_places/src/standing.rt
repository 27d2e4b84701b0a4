//! The channel, entry and change to which each line of a bundle belongs.
ghost use Rattle.std.specs.Prelude.{◌≡◌, ℕ, ◌+◌, ◌^◌, ◌<◌};
ghost use Rattle.fault_places.specs.Places.{at_start, is_named, after, channel_after};

use crate::lines::{is_change, is_channel, is_transaction, second_word};

/// What has come before a line.
#[derive(Clone, Copy, Drop)]
pub(crate) struct Standing {
    /// The channels that have begun.
    pub(crate) channels: usize,
    /// The entries of the last channel.
    pub(crate) entries: usize,
    /// The changes of the last entry.
    pub(crate) changes: usize,
    /// Whether the last entry has the GTID that is looked for.
    pub(crate) inside: bool,
}

/// Whether a line is that of a transaction with this GTID.
pub(crate) fn is_named(gtid: &[u8], line: &[u8]) -> bool
    ensures { result ≡ is_named gtid.now line.now }
{
    is_transaction(line) && second_word(line) == gtid
}

/// The name of the channel that has begun last, after a line.
pub(crate) fn channel_after<'a>(name: &'a [u8], line: &'a [u8]) -> &'a [u8]
    ensures { result.now ≡ channel_after name.now line.now }
{
    if is_channel(line) {
        second_word(line)
    } else {
        name
    }
}

impl Standing {
    /// Before the first line.
    pub(crate) fn at_start() -> Standing
        ensures { result ≡ at_start }
    {
        Standing {
            channels: 0,
            entries: 0,
            changes: 0,
            inside: false,
        }
    }

    /// After a line.
    #[tactic(auto, unfolding(crate::specs::Places::after))]
    pub(crate) fn after(self, gtid: &[u8], line: &[u8]) -> Standing
        requires { (self.channels < 2 ^ 63) × (self.entries < 2 ^ 63) × (self.changes < 2 ^ 63) }
        ensures { result ≡ after gtid.now self line.now }
    {
        if is_channel(line) {
            return Standing {
                channels: self.channels + 1,
                entries: 0,
                changes: 0,
                inside: false,
            };
        }
        if is_transaction(line) {
            return Standing {
                entries: self.entries + 1,
                changes: 0,
                inside: is_named(gtid, line),
                ..self
            };
        }
        if is_change(line) {
            return Standing {
                changes: self.changes + 1,
                ..self
            };
        }
        self
    }
}
