//! Numbers and bits in the bodies of events.
ghost use Rattle.std.specs.Prelude.{◌≡◌, slice_index, option_map};
ghost use Rattle.binlog_rows.specs.Numbers.{split, behind, low_number, from_end, high_number, number_of, packed_by, packed, bits_width, is_set};

/// The first so many bytes, and what is behind them.
#[tactic(auto, unfolding(crate::specs::Numbers::split))]
pub(crate) fn split(len: u64, bytes: &[u8]) -> Option<(&[u8], &[u8])>
    ensures { option_map (λ p. (p.0.now, p.1.now)) result ≡ split len bytes.now }
{
    if (bytes.len() as u64) < len {
        return None;
    }
    Some((&bytes[..len as usize], &bytes[len as usize..]))
}

/// What is behind so many bytes.
pub(crate) fn behind(len: u64, bytes: &[u8]) -> Option<&[u8]>
    ensures { option_map (λ t. t.now) result ≡ behind len bytes.now }
{
    let Some((_, rest)) = split(len, bytes) else {
        return None;
    };
    Some(rest)
}

/// The byte at a place, 0 where there is none.
fn cell(bytes: &[u8], place: usize) -> u8
    ensures { result ≡ slice_index bytes.now place }
{
    if place < bytes.len() { bytes[place] } else { 0 }
}

/// The number that up to eight bytes are, lowest first.
pub(crate) fn low_number(bytes: &[u8]) -> u64
    ensures { result ≡ low_number bytes.now }
{
    u64::from_le_bytes([
        cell(bytes, 0),
        cell(bytes, 1),
        cell(bytes, 2),
        cell(bytes, 3),
        cell(bytes, 4),
        cell(bytes, 5),
        cell(bytes, 6),
        cell(bytes, 7),
    ])
}

/// The byte at a place counted from the last one, 0 where there is none.
fn from_end(bytes: &[u8], place: usize) -> u8
    ensures { result ≡ from_end bytes.now place }
{
    if place < bytes.len() {
        bytes[bytes.len() - 1 - place]
    } else {
        0
    }
}

/// The number that up to eight bytes are, highest first.
#[tactic(auto, unfolding(crate::specs::Numbers::high_number))]
pub(crate) fn high_number(bytes: &[u8]) -> u64
    ensures { result ≡ high_number bytes.now }
{
    u64::from_le_bytes([
        from_end(bytes, 0),
        from_end(bytes, 1),
        from_end(bytes, 2),
        from_end(bytes, 3),
        from_end(bytes, 4),
        from_end(bytes, 5),
        from_end(bytes, 6),
        from_end(bytes, 7),
    ])
}

/// The number of so many bytes at the front, and what is behind it.
#[tactic(auto, unfolding(crate::specs::Numbers::number_of))]
pub(crate) fn number_of(len: u64, bytes: &[u8]) -> Option<(u64, &[u8])>
    ensures { option_map (λ p. (p.0, p.1.now)) result ≡ number_of len bytes.now }
{
    let Some((number, rest)) = split(len, bytes) else {
        return None;
    };
    Some((low_number(number), rest))
}

/// The packed number whose first byte this is, and what is behind it.
#[tactic(auto, unfolding(crate::specs::Numbers::packed_by))]
fn packed_by(byte: u8, rest: &[u8]) -> Option<(u64, &[u8])>
    ensures { option_map (λ p. (p.0, p.1.now)) result ≡ packed_by byte rest.now }
{
    match byte {
        0..=250 => Some((byte as u64, rest)),
        252 => number_of(2, rest),
        253 => number_of(3, rest),
        254 => number_of(8, rest),
        _ => None,
    }
}

/// The packed number at the front of bytes, and what is behind it.
pub(crate) fn packed(bytes: &[u8]) -> Option<(u64, &[u8])>
    ensures { option_map (λ p. (p.0, p.1.now)) result ≡ packed bytes.now }
{
    let Some((byte, rest)) = bytes.split_first() else {
        return None;
    };
    packed_by(*byte, rest)
}

/// How many bytes so many bits take.
#[tactic(auto, unfolding(crate::specs::Numbers::bits_width))]
pub(crate) fn bits_width(len: u64) -> u64
    ensures { result ≡ bits_width len }
{
    len / 8 + (len % 8 + 7) / 8
}

/// Whether a bit is set; the first one is the lowest of the first byte.
#[tactic(auto, unfolding(crate::specs::Numbers::is_set))]
pub(crate) fn is_set(bits: &[u8], place: usize) -> bool
    ensures { result ≡ is_set bits.now place }
{
    (cell(bits, place / 8) >> (place % 8)) % 2 == 1
}
