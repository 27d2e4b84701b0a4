//! The columns that a TABLE_MAP describes.
ghost use Rattle.std.specs.Prelude.{◌≡◌, option_map, IfOk};
ghost use Rattle.binlog_rows.specs.Columns.{plain_column, column_by_byte, string_column, bit_column, decimal_column, column_by_bytes, metadata_width, column_by, column_at, columns_from, bytes_view, metadata_at, kinds_at, behind_name, described, columns_of};

use crate::numbers::{behind, bits_width, number_of, packed, split};
use crate::signs::{signed, signedness_in};
use std::alloc::{AllocError, Global};

/// Whether the numbers of a column have a sign.
#[derive(Clone, Copy, Drop)]
pub enum Signedness {
    /// The TABLE_MAP doesn't say; servers before 8.0.1 wrote it so.
    Unknown,
    Signed,
    Unsigned,
}

/// The type of a column, with what a TABLE_MAP says of its values.
#[derive(Clone, Copy, Drop)]
pub enum MappedColumn {
    /// TINYINT, SMALLINT, MEDIUMINT, INT or BIGINT, of so many bytes.
    Integer(u8, Signedness),
    Float,
    Double,
    /// DECIMAL of so many digits, and so many of these behind the point.
    Decimal(u8, u8),
    /// BIT of so many bits.
    Bit(u8),
    Year,
    Date,
    /// TIME with so many digits of a second's fraction.
    Time(u8),
    /// DATETIME with so many digits of a second's fraction.
    Datetime(u8),
    /// TIMESTAMP with so many digits of a second's fraction.
    Timestamp(u8),
    /// CHAR or BINARY of at most so many bytes.
    Char(u16),
    /// VARCHAR or VARBINARY of at most so many bytes.
    Varchar(u16),
    /// TEXT or BLOB of any size, whose length takes so many bytes.
    Blob(u8),
    /// JSON whose length takes so many bytes.
    Json(u8),
    /// GEOMETRY whose length takes so many bytes.
    Geometry(u8),
    /// VECTOR whose length takes so many bytes.
    Vector(u8),
    /// ENUM of so many bytes.
    Enum(u8),
    /// SET of so many bytes.
    Set(u8),
}

/// A column whose type has no metadata.
#[tactic(auto, unfolding(crate::specs::Columns::plain_column))]
fn plain_column(kind: u8) -> Option<MappedColumn>
    ensures { result ≡ plain_column kind }
{
    match kind {
        1 => Some(MappedColumn::Integer(1, Signedness::Unknown)),
        2 => Some(MappedColumn::Integer(2, Signedness::Unknown)),
        3 => Some(MappedColumn::Integer(4, Signedness::Unknown)),
        8 => Some(MappedColumn::Integer(8, Signedness::Unknown)),
        9 => Some(MappedColumn::Integer(3, Signedness::Unknown)),
        10 => Some(MappedColumn::Date),
        13 => Some(MappedColumn::Year),
        _ => None,
    }
}

/// A column whose type has a byte of metadata.
#[tactic(auto, unfolding(crate::specs::Columns::column_by_byte))]
fn column_by_byte(kind: u8, byte: u8) -> Option<MappedColumn>
    ensures { result ≡ column_by_byte kind byte }
{
    match kind {
        4 if byte == 4 => Some(MappedColumn::Float),
        5 if byte == 8 => Some(MappedColumn::Double),
        17 if byte <= 6 => Some(MappedColumn::Timestamp(byte)),
        18 if byte <= 6 => Some(MappedColumn::Datetime(byte)),
        19 if byte <= 6 => Some(MappedColumn::Time(byte)),
        242 if 1 <= byte && byte <= 4 => Some(MappedColumn::Vector(byte)),
        245 if 1 <= byte && byte <= 4 => Some(MappedColumn::Json(byte)),
        252 if 1 <= byte && byte <= 4 => Some(MappedColumn::Blob(byte)),
        255 if 1 <= byte && byte <= 4 => Some(MappedColumn::Geometry(byte)),
        _ => None,
    }
}

/// The column of type 254 with its two bytes.
#[tactic(auto, unfolding(crate::specs::Columns::string_column))]
fn string_column(a: u8, b: u8) -> Option<MappedColumn>
    ensures { result ≡ string_column a b }
{
    match a {
        254 => Some(MappedColumn::Char(b as u16)),
        238 => Some(MappedColumn::Char(b as u16 + 256)),
        222 => Some(MappedColumn::Char(b as u16 + 512)),
        206 => Some(MappedColumn::Char(b as u16 + 768)),
        247 if 1 <= b && b <= 2 => Some(MappedColumn::Enum(b)),
        248 if 1 <= b && (b <= 4 || b == 8) => Some(MappedColumn::Set(b)),
        _ => None,
    }
}

/// A column of so many bits beyond whole bytes, and whole bytes.
fn bit_column(bits: u8, bytes: u8) -> Option<MappedColumn>
    ensures { result ≡ bit_column bits bytes }
{
    let count = bits as u16 + bytes as u16 * 8;
    if bits < 8 && (1 <= count && count <= 64) {
        Some(MappedColumn::Bit(count as u8))
    } else {
        None
    }
}

/// A column of so many digits, and so many of these behind the point.
fn decimal_column(precision: u8, scale: u8) -> Option<MappedColumn>
    ensures { result ≡ decimal_column precision scale }
{
    if 1 <= precision && (precision <= 65 && (scale <= 30 && scale <= precision)) {
        Some(MappedColumn::Decimal(precision, scale))
    } else {
        None
    }
}

/// A column whose type has two bytes of metadata.
#[tactic(auto, unfolding(crate::specs::Columns::column_by_bytes))]
fn column_by_bytes(kind: u8, a: u8, b: u8) -> Option<MappedColumn>
    ensures { result ≡ column_by_bytes kind a b }
{
    match kind {
        15 => Some(MappedColumn::Varchar(a as u16 + b as u16 * 256)),
        16 => bit_column(a, b),
        246 => decimal_column(a, b),
        254 => string_column(a, b),
        _ => None,
    }
}

/// How many bytes of metadata a type has.
#[tactic(auto, unfolding(crate::specs::Columns::metadata_width))]
fn metadata_width(kind: u8) -> u64
    ensures { result ≡ metadata_width kind }
{
    match kind {
        15 | 16 | 246 | 254 => 2,
        4 | 5 | 17..=19 | 242 | 245 | 252 | 255 => 1,
        _ => 0,
    }
}

/// The column of a type with its metadata.
#[tactic(auto, unfolding(crate::specs::Columns::column_by))]
fn column_by(kind: u8, metadata: &[u8]) -> Option<MappedColumn>
    ensures { result ≡ column_by kind metadata.now }
{
    match metadata {
        [] => plain_column(kind),
        [a] => column_by_byte(kind, *a),
        [a, b, ..] => column_by_bytes(kind, *a, *b),
    }
}

/// The column of a type whose metadata is at the front, and what is behind that.
#[tactic(auto, unfolding(crate::specs::Columns::column_at))]
fn column_at(kind: u8, metadata: &[u8]) -> Option<(MappedColumn, &[u8])>
    ensures { option_map (λ p. (p.0, p.1.now)) result ≡ column_at kind metadata.now }
{
    let Some((own, rest)) = split(metadata_width(kind), metadata) else {
        return None;
    };
    match column_by(kind, own) {
        Some(column) => Some((column, rest)),
        None => None,
    }
}

/// The columns of these types, whose metadata this is.
pub(crate) fn columns_from(
    alloc: Global,
    kinds: &[u8],
    metadata: &[u8],
) -> Result<Option<Vec<MappedColumn>>, AllocError>
    ensures { IfOk result (λ found. option_map (λ v. v.items) found ≡ columns_from kinds.now metadata.now) }
{
    let mut columns = Vec::new(alloc);
    let mut rest = metadata;
    for kind in kinds {
        let Some((column, behind)) = column_at(*kind, rest) else {
            return Ok(None);
        };
        columns.push(column)?;
        rest = behind;
    }
    if rest.is_empty() {
        Ok(Some(columns))
    } else {
        Ok(None)
    }
}

/// The types of columns, and their metadata.
#[derive(Drop)]
pub(crate) struct ColumnBytes<'a> {
    pub(crate) kinds: &'a [u8],
    pub(crate) metadata: &'a [u8],
    /// The optional metadata.
    pub(crate) options: &'a [u8],
}

/// The metadata of columns of these types, from its length on.
#[tactic(auto, unfolding(crate::specs::Columns::metadata_at))]
fn metadata_at<'a>(kinds: &'a [u8], bytes: &'a [u8]) -> Option<ColumnBytes<'a>>
    ensures { option_map bytes_view result ≡ metadata_at kinds.now bytes.now }
{
    let Some((len, rest)) = packed(bytes) else {
        return None;
    };
    let Some((metadata, nulls)) = split(len, rest) else {
        return None;
    };
    let Some(options) = behind(bits_width(kinds.len() as u64), nulls) else {
        return None;
    };
    Some(ColumnBytes {
        kinds,
        metadata,
        options,
    })
}

/// The types of columns and their metadata, from the number of columns on.
#[tactic(auto, unfolding(crate::specs::Columns::kinds_at))]
fn kinds_at(bytes: &[u8]) -> Option<ColumnBytes<'_>>
    ensures { option_map bytes_view result ≡ kinds_at bytes.now }
{
    let Some((count, rest)) = packed(bytes) else {
        return None;
    };
    let Some((kinds, metadata)) = split(count, rest) else {
        return None;
    };
    metadata_at(kinds, metadata)
}

/// What is behind the name at the front.
#[tactic(auto, unfolding(crate::specs::Columns::behind_name))]
fn behind_name(bytes: &[u8]) -> Option<&[u8]>
    ensures { option_map (λ t. t.now) result ≡ behind_name bytes.now }
{
    let Some((len, name)) = number_of(1, bytes) else {
        return None;
    };
    let Some(behind) = behind(len, name) else {
        return None;
    };
    let Some((last, rest)) = number_of(1, behind) else {
        return None;
    };
    if last == 0 { Some(rest) } else { None }
}

/// What the body of a TABLE_MAP says of columns.
#[tactic(auto, unfolding(crate::specs::Columns::described))]
pub(crate) fn described(body: &[u8]) -> Option<ColumnBytes<'_>>
    ensures { option_map bytes_view result ≡ described body.now }
{
    let Some(database) = behind(8, body) else {
        return None;
    };
    let Some(table) = behind_name(database) else {
        return None;
    };
    let Some(columns) = behind_name(table) else {
        return None;
    };
    kinds_at(columns)
}

/// The columns that the body of a TABLE_MAP describes, and whether their numbers have a sign, if its optional metadata says so. `None` where
/// it is not in that form, and where a type is none that servers since 5.6 write.
#[tactic(auto, unfolding(crate::specs::Columns::columns_of))]
pub fn read_columns(alloc: Global, body: &[u8]) -> Result<Option<Vec<MappedColumn>>, AllocError>
    ensures { IfOk result (λ found. option_map (λ v. v.items) found ≡ columns_of body.now) }
{
    let Some(parts) = described(body) else {
        return Ok(None);
    };
    let Some(columns) = columns_from(alloc, parts.kinds, parts.metadata)? else {
        return Ok(None);
    };
    Ok(Some(signed(alloc, signedness_in(parts.options), &columns)?))
}
