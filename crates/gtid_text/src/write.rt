ghost use Rattle.std.specs.Prelude.{◌≡◌, ◌+◌, ◌≤◌, ◌++◌, OnOk, OnErr, length, string_bytes, decimal};
ghost use Rattle.std.specs.String.{string_len, string_capacity};
ghost use Rattle.gtid_text.specs.Canonical.{source_text, gtid_text, numbers_text, span_text, next_text};

use crate::{Gtid, SourceId, Span};
use itoa::Buffer;
use std::alloc::AllocError;
use uuid::Uuid;

/// The bytes of a source's text.
const SOURCE_LEN: usize = 36;

/// The most bytes that the text of a number takes.
const NUMBER_LEN: usize = 20;

/// The most bytes that the text of an interval takes, after its colon.
const NUMBERS_LEN: usize = 41;

/// Appends a text for which there is room.
fn put(out: &mut String, text: &str)
    requires { string_len out.old + length text.now ≤ string_capacity out.old }
    ensures bytes { string_bytes out.new ≡ string_bytes out.old ++ text.now }
    ensures len { string_len out.new ≡ string_len out.old + length text.now }
    ensures capacity { string_capacity out.old ≤ string_capacity out.new }
{
    let _ = out.push_str(text);
}

#[tactic(auto, unfolding(crate::specs::Canonical::source_text))]
fn put_source(out: &mut String, id: SourceId)
    requires { string_len out.old + SOURCE_LEN ≤ string_capacity out.old }
    ensures bytes { string_bytes out.new ≡ string_bytes out.old ++ source_text id }
    ensures len { string_len out.new ≤ string_len out.old + SOURCE_LEN }
    ensures capacity { string_capacity out.old ≤ string_capacity out.new }
{
    let mut buffer = Uuid::encode_buffer();
    put(
        out,
        Uuid::from_u128(id.bits())
            .hyphenated()
            .encode_lower(&mut buffer),
    );
}

fn put_number(out: &mut String, number: u64)
    requires { string_len out.old + NUMBER_LEN ≤ string_capacity out.old }
    ensures bytes { string_bytes out.new ≡ string_bytes out.old ++ decimal number }
    ensures len { string_len out.new ≤ string_len out.old + NUMBER_LEN }
    ensures capacity { string_capacity out.old ≤ string_capacity out.new }
{
    let mut buffer = Buffer::new();
    put(out, buffer.format(number));
}

fn put_numbers(out: &mut String, lo: u64, hi: u64)
    requires { string_len out.old + NUMBERS_LEN ≤ string_capacity out.old }
    ensures { string_bytes out.new ≡ string_bytes out.old ++ numbers_text lo hi }
{
    put_number(out, lo);
    if lo != hi {
        put(out, "-");
        put_number(out, hi);
    }
}

/// Appends the UUID of a source, in lower case.
pub fn write_source(out: &mut String, id: SourceId) -> Result<(), AllocError>
    ensures ok { OnOk result (string_bytes out.new ≡ string_bytes out.old ++ source_text id) }
    ensures err { OnErr result (string_bytes out.new ≡ string_bytes out.old) }
{
    out.reserve(SOURCE_LEN)?;
    put_source(out, id);
    Ok(())
}

/// Appends a GTID.
pub fn write_gtid(out: &mut String, gtid: Gtid) -> Result<(), AllocError>
    ensures ok { OnOk result (string_bytes out.new ≡ string_bytes out.old ++ gtid_text gtid) }
    ensures err { OnErr result (string_bytes out.new ≡ string_bytes out.old) }
{
    out.reserve(SOURCE_LEN + 1 + NUMBER_LEN)?;
    put_source(out, gtid.source);
    put(out, ":");
    put_number(out, gtid.number);
    Ok(())
}

/// Appends an interval after its source: `lo` if it is one number, else `lo-hi`.
pub fn write_span(out: &mut String, span: Span) -> Result<(), AllocError>
    ensures ok { OnOk result (string_bytes out.new ≡ string_bytes out.old ++ span_text span) }
    ensures err { OnErr result (string_bytes out.new ≡ string_bytes out.old) }
{
    out.reserve(SOURCE_LEN + 1 + NUMBERS_LEN)?;
    put_source(out, span.source);
    put(out, ":");
    put_numbers(out, span.lo, span.hi);
    Ok(())
}

/// Appends an interval after the one before it, which is of the source `before`, if there is one:
/// after its own source a colon is enough, after another one it needs a comma and its source.
pub fn write_next_span(
    out: &mut String,
    before: Option<SourceId>,
    span: Span,
) -> Result<(), AllocError>
    ensures ok { OnOk result (string_bytes out.new ≡ string_bytes out.old ++ next_text before span) }
    ensures err { OnErr result (string_bytes out.new ≡ string_bytes out.old) }
{
    let Some(id) = before else {
        return write_span(out, span);
    };
    out.reserve(1 + SOURCE_LEN + 1 + NUMBERS_LEN)?;
    if id != span.source {
        put(out, ",");
        put_source(out, span.source);
    }
    put(out, ":");
    put_numbers(out, span.lo, span.hi);
    Ok(())
}
