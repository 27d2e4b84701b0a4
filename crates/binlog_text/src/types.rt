//! The types of columns, as far as they determine how values are printed.

/// A type of whole numbers.
#[derive(Clone, Copy, Debug, PartialEq, Eq)]
pub enum IntegerType {
    TinyInt,
    SmallInt,
    MediumInt,
    Int,
    BigInt,
}

/// How the values of a column are printed, and so what they are read as.
#[derive(Clone, Copy, Debug, PartialEq, Eq)]
pub enum ColumnType {
    /// A whole number.
    Signed(IntegerType),
    /// A whole number from 0 on.
    Unsigned(IntegerType),
    /// YEAR, ENUM by its place, and TIMESTAMP in whole seconds: a number from 0 on.
    Number,
    /// DECIMAL: the bytes of its digits.
    Decimal,
    /// TIMESTAMP with parts of a second: the bytes of its digits.
    Seconds,
    /// BIT and SET: the bytes `0` and `1`.
    Bits,
    /// Text, binary strings, DATE, TIME and DATETIME: the bytes between the quotes.
    Quoted,
}
