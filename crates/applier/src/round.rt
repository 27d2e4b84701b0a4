//! A worker's search for places that are ready.
use crate::hand::Ticket;
use shared_replica::{Naming, SharedReplica};
use std::sync::Wait;

/// The greatest number of channels.
const CHANNELS: usize = 256;

/// Which channels a worker has left, how many it knows to be there, whether its own deque had no
/// ticket when it last asked, and the place from which it looks.
#[derive(Drop)]
pub(crate) struct Round {
    left: [bool; 256],
    known: usize,
    dry: bool,
    channel: usize,
    place: usize,
}

impl Round {
    /// A round over all channels.
    pub(crate) fn new() -> Round {
        Round {
            left: [false; 256],
            known: 0,
            dry: true,
            channel: 0,
            place: 0,
        }
    }

    /// Whether the worker has left a channel.
    pub(crate) fn is_left(&self, channel: usize) -> bool {
        channel < CHANNELS && self.left[channel]
    }

    /// The worker leaves a channel.
    pub(crate) fn leave(&mut self, channel: usize) {
        if channel < CHANNELS {
            self.left[channel] = true;
        }
    }

    /// The worker knows of the channel of this number.
    pub(crate) fn meet(&mut self, channel: usize) {
        if self.known <= channel {
            self.known = channel.saturating_add(1);
        }
    }

    /// How many channels the worker knows to be there.
    pub(crate) fn known_channels(&self) -> usize {
        self.known
    }

    /// Notes whether its own deque had a ticket.
    pub(crate) fn note_pop(&mut self, some: bool) {
        self.dry = !some;
    }

    /// Whether its own deque had no ticket when it last asked.
    pub(crate) fn found_no_ticket(&self) -> bool {
        self.dry
    }

    /// Starts the search again at the first place of the first channel.
    pub(crate) fn restart(&mut self) {
        self.channel = 0;
        self.place = 0;
    }

    /// The next ready place of a channel that was not left, channels ascending and places ascending.
    pub(crate) fn look<N: Naming, R: Wait>(
        &mut self,
        rt: &R,
        replica: &SharedReplica<N>,
    ) -> Option<Ticket> {
        for channel in self.channel..CHANNELS {
            if !self.is_left(channel) {
                if let Some(place) = replica.next_ready(rt, channel, self.place) {
                    self.channel = channel;
                    self.place = place.saturating_add(1);
                    return Some(Ticket { channel, place });
                }
            }
            self.place = 0;
        }
        None
    }
}
