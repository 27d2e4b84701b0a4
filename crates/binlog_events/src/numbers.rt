//! Numbers in the bodies of events.
ghost use Rattle.std.specs.Prelude.{◌≡◌, ◌+◌, ◌≤◌, length, slice_index, drop, option_map};
ghost use Rattle.binlog_events.specs.Numbers.{part, low_number, varied_number, varied_behind, varied};

/// The bytes from a place on.
pub(crate) fn rest_of(bytes: &[u8], place: usize) -> &[u8]
    requires { place ≤ length bytes.now }
    ensures { result.now ≡ drop place bytes.now }
{
    &bytes[place..]
}

/// So many bytes from a place on.
pub(crate) fn part(from: usize, len: usize, bytes: &[u8]) -> &[u8]
    requires { from + len ≤ length bytes.now }
    ensures { result.now ≡ part from len bytes.now }
{
    let rest = rest_of(bytes, from);
    &rest[..len]
}

/// The byte at a place, 0 where there is none.
fn cell(bytes: &[u8], place: usize) -> u8
    ensures { result ≡ slice_index bytes.now place }
{
    if place < bytes.len() { bytes[place] } else { 0 }
}

/// The number that up to eight bytes are, lowest first.
pub(crate) fn low_number(bytes: &[u8]) -> u64
    ensures { result ≡ low_number bytes.now }
{
    u64::from_le_bytes([
        cell(bytes, 0),
        cell(bytes, 1),
        cell(bytes, 2),
        cell(bytes, 3),
        cell(bytes, 4),
        cell(bytes, 5),
        cell(bytes, 6),
        cell(bytes, 7),
    ])
}

/// The number of varying length whose first byte has so many ones at its low end.
#[tactic(auto, unfolding(crate::specs::Numbers::varied_number))]
fn varied_number(ones: usize, byte: u8, more: &[u8]) -> u64
    requires { ones ≤ 8 }
    ensures { result ≡ varied_number ones byte more.now }
{
    let low = byte as u64 / 2u64.pow(ones as u32 + 1);
    let high = low_number(more).wrapping_mul(2u64.pow(7 - ones.min(7) as u32));
    low.wrapping_add(high)
}

#[tactic(auto, unfolding(crate::specs::Numbers::varied_behind))]
fn varied_behind(ones: usize, byte: u8, rest: &[u8]) -> Option<(u64, &[u8])>
    requires { ones ≤ 8 }
    ensures { option_map (λ p. (p.0, p.1.now)) result ≡ varied_behind ones byte rest.now }
{
    if rest.len() < ones {
        return None;
    }
    Some((
        varied_number(ones, byte, part(0, ones, rest)),
        rest_of(rest, ones),
    ))
}

/// The number of varying length at the front of bytes, and what is behind it.
pub(crate) fn varied(bytes: &[u8]) -> Option<(u64, &[u8])>
    ensures { option_map (λ p. (p.0, p.1.now)) result ≡ varied bytes.now }
{
    let Some((byte, rest)) = bytes.split_first() else {
        return None;
    };
    varied_behind(byte.trailing_ones() as usize, *byte, rest)
}
