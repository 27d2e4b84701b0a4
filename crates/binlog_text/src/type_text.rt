//! Types of columns out of text.
ghost use Rattle.std.specs.Prelude.{◌≡◌, option_map};
ghost use Rattle.gtid_text.specs.Scan.{run, skip_while};
ghost use Rattle.binlog_text.specs.Types.{is_upper, integer_named, is_varied_text, is_binary, is_time, is_quoted, other_named, parse_type, compares_bytes, collation_name, collation_in};

use crate::reading::begins;
use crate::tokens::after_prefix;
use crate::types::{ColumnType, IntegerType};
use collations::{Collation, collation_named};

/// The first word, of capitals, and what follows it.
fn word(text: &[u8]) -> (&[u8], &[u8])
    ensures word { result.0.now ≡ run is_upper text.now }
    ensures rest { result.1.now ≡ skip_while is_upper text.now }
{
    for (i, b) in text.iter().enumerate() {
        if *b < b'A' || b'Z' < *b {
            return text.split_at(i);
        }
    }
    text.split_at(text.len())
}

fn integer_named(word: &[u8]) -> Option<IntegerType>
    ensures { result ≡ integer_named word.now }
{
    if word == b"TINYINT".as_slice() {
        Some(IntegerType::TinyInt)
    } else if word == b"SMALLINT".as_slice() {
        Some(IntegerType::SmallInt)
    } else if word == b"MEDIUMINT".as_slice() {
        Some(IntegerType::MediumInt)
    } else if word == b"INT".as_slice() {
        Some(IntegerType::Int)
    } else if word == b"BIGINT".as_slice() {
        Some(IntegerType::BigInt)
    } else {
        None
    }
}

fn is_varied_text(word: &[u8]) -> bool
    ensures { result ≡ is_varied_text word.now }
{
    word == b"VARCHAR".as_slice()
        || word == b"TINYTEXT".as_slice()
        || word == b"TEXT".as_slice()
        || word == b"MEDIUMTEXT".as_slice()
        || word == b"LONGTEXT".as_slice()
}

fn is_binary(word: &[u8]) -> bool
    ensures { result ≡ is_binary word.now }
{
    word == b"BINARY".as_slice()
        || word == b"VARBINARY".as_slice()
        || word == b"TINYBLOB".as_slice()
        || word == b"BLOB".as_slice()
        || word == b"MEDIUMBLOB".as_slice()
        || word == b"LONGBLOB".as_slice()
}

fn is_time(word: &[u8]) -> bool
    ensures { result ≡ is_time word.now }
{
    word == b"DATE".as_slice() || word == b"TIME".as_slice() || word == b"DATETIME".as_slice()
}

fn is_quoted(word: &[u8]) -> bool
    ensures { result ≡ is_quoted word.now }
{
    word == b"CHAR".as_slice() || is_varied_text(word) || is_binary(word) || is_time(word)
}

fn other_named(word: &[u8], rest: &[u8]) -> Option<ColumnType>
    ensures { result ≡ other_named word.now rest.now }
{
    if is_quoted(word) {
        Some(ColumnType::Quoted)
    } else if word == b"DECIMAL".as_slice() {
        Some(ColumnType::Decimal)
    } else if word == b"TIMESTAMP".as_slice() {
        if begins(rest, b"(") {
            Some(ColumnType::Seconds)
        } else {
            Some(ColumnType::Number)
        }
    } else if word == b"YEAR".as_slice() || word == b"ENUM".as_slice() {
        Some(ColumnType::Number)
    } else if word == b"BIT".as_slice() || word == b"SET".as_slice() {
        Some(ColumnType::Bits)
    } else {
        None
    }
}

/// The type that a text names. FLOAT, DOUBLE, JSON, GEOMETRY and VECTOR name none: their values are not printed whole.
pub fn parse_type(text: &[u8]) -> Option<ColumnType>
    ensures { result ≡ parse_type text.now }
{
    let (word, rest) = word(text);
    match integer_named(word) {
        Some(integer) if begins(rest, b" UNSIGNED") => Some(ColumnType::Unsigned(integer)),
        Some(integer) => Some(ColumnType::Signed(integer)),
        None => other_named(word, rest),
    }
}

/// Whether two values of a column are equal for the server if and only if their bytes are.
pub fn compares_bytes(text: &[u8]) -> bool
    ensures { result ≡ compares_bytes text.now }
{
    let (word, _) = word(text);
    if is_varied_text(word) {
        text.ends_with(b" COLLATE utf8mb4_0900_bin")
    } else if word == b"CHAR".as_slice() {
        text.ends_with(b"_bin")
    } else {
        true
    }
}

/// What is behind COLLATE.
fn collation_name(text: &[u8]) -> Option<&[u8]>
    ensures { option_map (λ t. t.now) result ≡ collation_name text.now }
{
    for i in 0..text.len() {
        if let Some(name) = after_prefix(&text[i..], b" COLLATE ") {
            return Some(name);
        }
    }
    None
}

/// The collation that the text of a type names, where it is one whose weights are known.
pub fn collation_in(text: &[u8]) -> Option<Collation>
    ensures { result ≡ collation_in text.now }
{
    match collation_name(text) {
        Some(name) => collation_named(name),
        None => None,
    }
}
