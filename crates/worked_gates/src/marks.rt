//! The bits of seats.

/// The bit of a seat.
pub(crate) fn mark_of(seat: u8) -> u64 {
    1 << (seat % 64)
}
