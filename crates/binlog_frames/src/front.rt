//! The event at the front of bytes.
ghost use Rattle.std.specs.Prelude.{◌≡◌, ◌+◌, ◌≤◌, length, IfOk, IfSome};
ghost use Rattle.binlog_frames.specs.Reading.{number_at, short_at, length_at, fields_of, has_sum, has_open_sum, later_of, first_of, has_form, later_at, first_at};
ghost use Rattle.binlog_frames.specs.Spelling.{tail_len};
ghost use Rattle.binlog_frames.specs.Views.{view, IsEvent, IsFound};

use crate::event::LoggedEvent;
use crate::fault::FaultKind;
use crc32::{Crc32, crc32_of};

/// The number that four bytes are, lowest first.
pub(crate) fn number_at(bytes: &[u8], i: usize) -> u32
    requires { i + 4 ≤ length bytes.now }
    ensures { result ≡ number_at bytes.now i }
{
    u32::from_le_bytes([bytes[i], bytes[i + 1], bytes[i + 2], bytes[i + 3]])
}

/// The number that two bytes are, lowest first.
fn short_at(bytes: &[u8], i: usize) -> u16
    requires { i + 2 ≤ length bytes.now }
    ensures { result ≡ short_at bytes.now i }
{
    u16::from_le_bytes([bytes[i], bytes[i + 1]])
}

/// How many bytes the event takes that begins here, once all have come; `tail` of them are for a checksum.
#[tactic(auto, unfolding(crate::specs::Reading::length_from))]
pub(crate) fn length_at(tail: usize, offset: u64, bytes: &[u8]) -> Result<Option<usize>, FaultKind>
    requires { tail ≤ 4 }
    ensures value { result ≡ length_at tail offset bytes.now }
    ensures bound { IfOk result (λ found. IfSome found (λ len. (19 + tail ≤ len) × (len ≤ length bytes.now))) }
{
    if bytes.len() < 19 {
        return Ok(None);
    }
    let len = number_at(bytes, 9);
    if (len as usize) < 19 + tail {
        return Err(FaultKind::Length);
    }
    if number_at(bytes, 13) as u64 != (offset % 0x1_0000_0000 + len as u64) % 0x1_0000_0000 {
        return Err(FaultKind::Position);
    }
    if bytes.len() < len as usize {
        return Ok(None);
    }
    Ok(Some(len as usize))
}

/// The fields of the event that these bytes are.
#[tactic(auto, unfolding(crate::specs::Reading::fields_of))]
fn fields_of(tail: usize, bytes: &[u8]) -> LoggedEvent<'_>
    requires fits { tail ≤ 4 }
    requires long { 19 + tail ≤ length bytes.now }
    ensures value { view result ≡ fields_of tail bytes.now }
    ensures body { length result.body.now + 19 + tail ≡ length bytes.now }
{
    let end = bytes.len() - tail;
    LoggedEvent {
        time: number_at(bytes, 0),
        kind: bytes[4],
        server: number_at(bytes, 5),
        flags: short_at(bytes, 17),
        body: &bytes[19..end],
    }
}

/// Whether the last four bytes are the CRC of those before them.
#[tactic(auto, unfolding(crate::specs::Reading::has_sum))]
fn has_sum(bytes: &[u8]) -> bool
    requires { 4 ≤ length bytes.now }
    ensures { result ≡ has_sum bytes.now }
{
    let end = bytes.len() - 4;
    crc32_of(&bytes[..end]) == number_at(bytes, end)
}

/// The same of a FORMAT_DESCRIPTION, whose flag of a file in use is not covered.
#[tactic(auto, unfolding(crate::specs::Reading::has_open_sum))]
fn has_open_sum(bytes: &[u8]) -> bool
    requires { 22 ≤ length bytes.now }
    ensures { result ≡ has_open_sum bytes.now }
{
    let end = bytes.len() - 4;
    let flag = [bytes[17] / 2 * 2];
    let mut crc = Crc32::new();
    crc.update(&bytes[..17]);
    crc.update(&flag);
    crc.update(&bytes[18..end]);
    crc.finish() == number_at(bytes, end)
}

/// The event that these bytes are.
#[tactic(auto, unfolding(crate::specs::Reading::later_of))]
fn later_of(checked: bool, bytes: &[u8]) -> Result<LoggedEvent<'_>, FaultKind>
    requires { 19 + tail_len checked ≤ length bytes.now }
    ensures { IsEvent result (later_of checked bytes.now) }
{
    if bytes[4] == 15 {
        return Err(FaultKind::Description);
    }
    if checked && !has_sum(bytes) {
        return Err(FaultKind::Checksum);
    }
    Ok(fields_of(tail_len(checked), bytes))
}

/// How many bytes a checksum takes, where there is one.
pub(crate) fn tail_len(checked: bool) -> usize
    ensures { result ≡ tail_len checked }
{
    if checked { 4 } else { 0 }
}

/// Whether a body is that of a FORMAT_DESCRIPTION.
#[tactic(auto, unfolding(crate::specs::Reading::has_form))]
fn has_form(body: &[u8]) -> bool
    requires { 58 ≤ length body.now }
    ensures { result ≡ has_form body.now }
{
    body[0] == 4 && (body[1] == 0 && (body[56] == 19 && body[body.len() - 1] < 2))
}

/// The FORMAT_DESCRIPTION that these bytes are.
#[tactic(auto, unfolding(crate::specs::Reading::first_of))]
fn first_of(bytes: &[u8]) -> Result<LoggedEvent<'_>, FaultKind>
    requires { 23 ≤ length bytes.now }
    ensures { IsEvent result (first_of bytes.now) }
{
    if bytes[4] != 15 {
        return Err(FaultKind::Description);
    }
    if bytes.len() < 81 {
        return Err(FaultKind::Description);
    }
    let first = fields_of(4, bytes);
    if !has_form(first.body) {
        return Err(FaultKind::Description);
    }
    if !has_open_sum(bytes) {
        return Err(FaultKind::Checksum);
    }
    Ok(first)
}

/// The event at the front of bytes that begin at this offset.
#[tactic(auto, unfolding(crate::specs::Reading::later_at))]
pub(crate) fn later_at(
    checked: bool,
    offset: u64,
    bytes: &[u8],
) -> Result<Option<LoggedEvent<'_>>, FaultKind>
    ensures { IsFound result (later_at checked offset bytes.now) }
{
    match length_at(tail_len(checked), offset, bytes) {
        Err(fault) => Err(fault),
        Ok(None) => Ok(None),
        Ok(Some(len)) => match later_of(checked, &bytes[..len]) {
            Err(fault) => Err(fault),
            Ok(event) => Ok(Some(event)),
        },
    }
}

/// The FORMAT_DESCRIPTION at the front of bytes that begin at offset 4.
#[tactic(auto, unfolding(crate::specs::Reading::first_at))]
pub(crate) fn first_at(bytes: &[u8]) -> Result<Option<LoggedEvent<'_>>, FaultKind>
    ensures { IsFound result (first_at bytes.now) }
{
    match length_at(4, 4, bytes) {
        Err(fault) => Err(fault),
        Ok(None) => Ok(None),
        Ok(Some(len)) => match first_of(&bytes[..len]) {
            Err(fault) => Err(fault),
            Ok(event) => Ok(Some(event)),
        },
    }
}
