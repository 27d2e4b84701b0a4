//! How bytes are printed.
ghost use Rattle.std.specs.Prelude.{◌≡◌, ◌==◌, ◌<◌, ◌≤◌, ◌++◌, length, OnOk, IfOk, option_map, string_bytes, take, decimal};
ghost use Rattle.std.specs.List.{flat_map, position_or_len, before_first};
ghost use Rattle.gtid_text.specs.Canonical.{source_text};
ghost use Rattle.binlog_events.specs.Texts.{hex_digit, shown_byte, shown, is_letter, is_plain, escaped_byte, escaped, table_name, text_said};

use gtid_text::{SourceId, write_source};
use itoa::Buffer;
use std::alloc::{AllocError, Global};

/// The most bytes of a text that are shown (our own rule).
const MOST_SHOWN: usize = 120;

/// The place of the first such byte, or the length.
fn place_of(wanted: u8, text: &[u8]) -> usize
    ensures place { result ≡ position_or_len (λ b. b == wanted) text.now }
    ensures within { result ≤ length text.now }
{
    for (i, byte) in text.iter().enumerate() {
        if *byte == wanted {
            return i;
        }
    }
    text.len()
}

/// What comes before the first byte 0.
pub(crate) fn before_zero(text: &[u8]) -> &[u8]
    ensures { result.now ≡ before_first (λ b. b == 0) text.now }
{
    &text[..place_of(0, text)]
}

/// Appends a text.
pub(crate) fn put(out: &mut Vec<u8>, text: &str) -> Result<(), AllocError>
    ensures { OnOk result (out.new.items ≡ out.old.items ++ text.now) }
{
    out.extend_from_slice(text.as_bytes())
}

/// Appends a number in decimal digits.
pub(crate) fn put_number(out: &mut Vec<u8>, number: u64) -> Result<(), AllocError>
    ensures { OnOk result (out.new.items ≡ out.old.items ++ decimal number) }
{
    let mut buffer = Buffer::new();
    put(out, buffer.format(number))
}

/// The hexadecimal digit of a number below 16.
fn hex_digit(number: u8) -> u8
    requires { number < 16 }
    ensures { result ≡ hex_digit number }
{
    if number < 10 {
        48 + number
    } else {
        87 + number
    }
}

fn put_shown_byte(out: &mut Vec<u8>, byte: u8) -> Result<(), AllocError>
    ensures { OnOk result (out.new.items ≡ out.old.items ++ shown_byte byte) }
{
    if 32 <= byte && byte < 127 {
        out.push(byte)?;
        return Ok(());
    }
    let escape = [92, 120, hex_digit(byte / 16), hex_digit(byte % 16)];
    out.extend_from_slice(&escape)
}

/// Appends bytes, those that are no printed characters by their hexadecimal digits.
pub(crate) fn put_bytes(out: &mut Vec<u8>, bytes: &[u8]) -> Result<(), AllocError>
    ensures { OnOk result (out.new.items ≡ out.old.items ++ flat_map shown_byte bytes.now) }
{
    for byte in bytes {
        put_shown_byte(out, *byte)?;
    }
    Ok(())
}

/// Appends the first bytes of a text.
fn put_shown(out: &mut Vec<u8>, text: &[u8]) -> Result<(), AllocError>
    ensures { OnOk result (out.new.items ≡ out.old.items ++ shown text.now) }
{
    if text.len() < MOST_SHOWN {
        put_bytes(out, text)
    } else {
        put_bytes(out, &text[..MOST_SHOWN])
    }
}

/// Appends what a text says, or that there is none.
pub(crate) fn put_text(out: &mut Vec<u8>, text: Option<&[u8]>) -> Result<(), AllocError>
    ensures { OnOk result (out.new.items ≡ out.old.items ++ text_said (option_map (λ t. t.now) text.entry)) }
{
    match text {
        None => put(out, " malformed"),
        Some(text) => {
            if text.is_empty() {
                return Ok(());
            }
            put(out, " ")?;
            put_shown(out, text)
        }
    }
}

fn is_letter(byte: u8) -> bool
    ensures { result ≡ is_letter byte }
{
    (65 <= byte && byte <= 90) || (97 <= byte && byte <= 122)
}

/// Whether a byte of a name is printed as it is.
fn is_plain(byte: u8) -> bool
    ensures { result ≡ is_plain byte }
{
    is_letter(byte) || ((48 <= byte && byte <= 57) || (byte == 95 || (byte == 36 || byte == 45)))
}

fn put_escaped_byte(out: &mut Vec<u8>, byte: u8) -> Result<(), AllocError>
    ensures { OnOk result (out.new.items ≡ out.old.items ++ escaped_byte byte) }
{
    if is_plain(byte) {
        out.push(byte)?;
        return Ok(());
    }
    let escape = [37, hex_digit(byte / 16), hex_digit(byte % 16)];
    out.extend_from_slice(&escape)
}

/// Appends a name, the bytes that no name has as they are by their hexadecimal digits.
pub(crate) fn put_escaped(out: &mut Vec<u8>, name: &[u8]) -> Result<(), AllocError>
    ensures { OnOk result (out.new.items ≡ out.old.items ++ escaped name.now) }
{
    for byte in name {
        put_escaped_byte(out, *byte)?;
    }
    Ok(())
}

/// The text of a UUID.
fn source_text(alloc: Global, source: SourceId) -> Result<String, AllocError>
    ensures { IfOk result (λ text. string_bytes text ≡ source_text source) }
{
    let mut text = String::new(alloc);
    write_source(&mut text, source)?;
    Ok(text)
}

/// Appends a UUID.
pub(crate) fn put_source(
    alloc: Global,
    out: &mut Vec<u8>,
    source: SourceId,
) -> Result<(), AllocError>
    ensures { OnOk result (out.new.items ≡ out.old.items ++ source_text source) }
{
    let text = source_text(alloc, source)?;
    put(out, &text)
}

/// Appends the name of a table of a database.
pub(crate) fn put_table_name(
    out: &mut Vec<u8>,
    database: &[u8],
    table: &[u8],
) -> Result<(), AllocError>
    ensures { OnOk result (out.new.items ≡ out.old.items ++ table_name database.now table.now) }
{
    put_escaped(out, database)?;
    put(out, ".")?;
    put_escaped(out, table)
}
