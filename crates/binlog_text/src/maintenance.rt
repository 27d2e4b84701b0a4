//! Statements of maintenance.
ghost use Rattle.std.specs.Prelude.{◌≡◌};
ghost use Rattle.std.specs.List.{list_all};
ghost use Rattle.binlog_text.specs.Tokens.{cut_at};
ghost use Rattle.binlog_text.specs.Lines.{is_plain, is_flush, is_of_names, analyzes_or_optimizes, is_of_tables, is_maintenance};

use crate::reading::begins;
use crate::tokens::cut_at;

fn are_plain(text: &[u8]) -> bool
    ensures { result ≡ list_all is_plain text.now }
{
    text.iter()
        .all(|b| b.is_ascii_alphabetic() || *b == b' ' || *b == b'_')
}

fn is_flush(text: &[u8]) -> bool
    ensures { result ≡ is_flush text.now }
{
    (begins(text, b"FLUSH ") || begins(text, b"flush ")) && are_plain(text)
}

fn is_of_names(byte: u8) -> bool
    ensures { result ≡ is_of_names byte }
{
    byte.is_ascii_alphanumeric() || matches!(byte, b'_' | b'$' | b'-' | b'.' | b',' | b' ' | b'`')
}

fn are_of_names(text: &[u8]) -> bool
    ensures { result ≡ list_all is_of_names text.now }
{
    text.iter().all(|b| is_of_names(*b))
}

/// Whether the first word is ANALYZE or OPTIMIZE, in any letter case.
fn analyzes_or_optimizes(text: &[u8]) -> bool
    ensures { result ≡ analyzes_or_optimizes (cut_at 32 text.now) }
{
    match cut_at(text, b' ') {
        Some((word, _)) => {
            word.eq_ignore_ascii_case(b"ANALYZE") || word.eq_ignore_ascii_case(b"OPTIMIZE")
        }
        None => false,
    }
}

fn is_of_tables(text: &[u8]) -> bool
    ensures { result ≡ is_of_tables text.now }
{
    analyzes_or_optimizes(text) && are_of_names(text)
}

/// Whether it is a statement of maintenance, which has no effect on rows.
pub(crate) fn is_maintenance(text: &[u8]) -> bool
    ensures { result ≡ is_maintenance text.now }
{
    is_flush(text) || is_of_tables(text)
}
