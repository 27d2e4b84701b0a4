//! Images and entries, and what is derived from them.

use collations::Collation;
use derived_columns::{Derivation, DerivationFault, DerivedColumn, KeyComparison, KeyPart};
use gtid_text::{Gtid, SourceId};
use journal::Entry;
use rows::{Change, Changes, Name, Row, Transaction};
use std::alloc::Global;
use std::test::Fail;

/// An image of a table whose second column is compared so in a key, and what is derived from it.
type Case = (KeyComparison, &'static str, Option<&'static str>);

const TEXTS: &[Case] = &[
    (
        KeyComparison::Text(Collation::Utf8mb4_0900AiCi),
        "1 x486174",
        Some("1 x486174 x1d181c471e95"),
    ),
    (
        KeyComparison::Text(Collation::Utf8mb4_0900AiCi),
        "2 x686174 7",
        Some("2 x686174 7 x1d181c471e95"),
    ),
    (
        KeyComparison::Text(Collation::Utf8mb4_0900AiCi),
        "1 x68617420",
        Some("1 x68617420 x1d181c471e950209"),
    ),
    (
        KeyComparison::Text(Collation::Utf8mb4GeneralCi),
        "1 x48617420",
        Some("1 x48617420 x004800410054"),
    ),
    (
        KeyComparison::Text(Collation::Utf8mb4Bin),
        "1 x6861742020",
        Some("1 x6861742020 x000068000061000074"),
    ),
    (
        KeyComparison::Text(Collation::Latin1SwedishCi),
        "1 x48617420",
        Some("1 x48617420 x484154"),
    ),
    (
        KeyComparison::Text(Collation::Utf8mb4_0900AsCs),
        "1 xc3a9",
        Some("1 xc3a9 x1caa000000200024000000020002"),
    ),
    (
        KeyComparison::Text(Collation::Utf8mb4_0900AsCs),
        "1 x65cc81",
        Some("1 x65cc81 x1caa000000200024000000020002"),
    ),
    (
        KeyComparison::Text(Collation::Utf8mb4GeneralCi),
        "1 x",
        Some("1 x x"),
    ),
    (
        KeyComparison::Text(Collation::Utf8mb4GeneralCi),
        "1 null",
        Some("1 null null"),
    ),
    (
        KeyComparison::Text(Collation::Utf8mb4GeneralCi),
        "1 2",
        None,
    ),
    (KeyComparison::Text(Collation::Utf8mb4GeneralCi), "1", None),
    (
        KeyComparison::Text(Collation::Utf8mb4GeneralCi),
        "1 xff",
        None,
    ),
    (
        KeyComparison::Text(Collation::Utf8mb3GeneralCi),
        "1 xf09f9880",
        None,
    ),
    (
        KeyComparison::Text(Collation::AsciiGeneralCi),
        "1 x80",
        None,
    ),
];

/// The first characters of texts: 'Hat', 'éa', 'Café', and 'a  b', whose blanks are the last ones after the cut.
const FIRST_CHARACTERS: &[Case] = &[
    (
        KeyComparison::FirstCharacters(Collation::Utf8mb4_0900AiCi, 2),
        "1 x486174",
        Some("1 x486174 x1d181c47"),
    ),
    (
        KeyComparison::FirstCharacters(Collation::Utf8mb4_0900AiCi, 1),
        "1 xc3a961",
        Some("1 xc3a961 x1caa"),
    ),
    (
        KeyComparison::FirstCharacters(Collation::Utf8mb4_0900AiCi, 3),
        "1 x436166c3a9",
        Some("1 x436166c3a9 x1c7a1c471ce5"),
    ),
    (
        KeyComparison::FirstCharacters(Collation::Utf8mb4_0900AiCi, 4),
        "1 x436166c3a9",
        Some("1 x436166c3a9 x1c7a1c471ce51caa"),
    ),
    (
        KeyComparison::FirstCharacters(Collation::Utf8mb4GeneralCi, 2),
        "1 x61202062",
        Some("1 x61202062 x0041"),
    ),
    (
        KeyComparison::FirstCharacters(Collation::Utf8mb4GeneralCi, 4),
        "1 x61202062",
        Some("1 x61202062 x0041002000200042"),
    ),
    (
        KeyComparison::FirstCharacters(Collation::Utf8mb4_0900AiCi, 2),
        "1 x61202062",
        Some("1 x61202062 x1c470209"),
    ),
    (
        KeyComparison::FirstCharacters(Collation::Utf8mb4GeneralCi, 10),
        "1 x6162",
        Some("1 x6162 x00410042"),
    ),
    (
        KeyComparison::FirstCharacters(Collation::Utf8mb4GeneralCi, 1),
        "1 x",
        Some("1 x x"),
    ),
    (
        KeyComparison::FirstCharacters(Collation::Latin1SwedishCi, 1),
        "1 x61e9",
        Some("1 x61e9 x41"),
    ),
    (
        KeyComparison::FirstCharacters(Collation::Utf8mb4GeneralCi, 1),
        "1 null",
        Some("1 null null"),
    ),
    (
        KeyComparison::FirstCharacters(Collation::Utf8mb4GeneralCi, 1),
        "1 2",
        None,
    ),
    (
        KeyComparison::FirstCharacters(Collation::Utf8mb4GeneralCi, 1),
        "1",
        None,
    ),
    (
        KeyComparison::FirstCharacters(Collation::Utf8mb4GeneralCi, 1),
        "1 x61ff",
        None,
    ),
];

const FIRST_BYTES: &[Case] = &[
    (
        KeyComparison::FirstBytes(2),
        "1 x616263",
        Some("1 x616263 x6162"),
    ),
    (
        KeyComparison::FirstBytes(2),
        "1 xff00ff",
        Some("1 xff00ff xff00"),
    ),
    (KeyComparison::FirstBytes(2), "1 x61", Some("1 x61 x61")),
    (KeyComparison::FirstBytes(1), "1 x", Some("1 x x")),
    (KeyComparison::FirstBytes(3), "1 null", Some("1 null null")),
    (KeyComparison::FirstBytes(2), "1 7", None),
    (KeyComparison::FirstBytes(2), "1", None),
];

/// Of CHAR and BINARY: as a server of MySQL 9.7.4 had it, 'a' and 'a b' are one key, and so are the bytes 61 and 61 00 62.
const FIXED: &[Case] = &[
    (
        KeyComparison::FixedCharacters(Collation::Utf8mb4_0900AiCi, 2),
        "1 x61",
        Some("1 x61 x1c47"),
    ),
    (
        KeyComparison::FixedCharacters(Collation::Utf8mb4_0900AiCi, 2),
        "1 x612062",
        Some("1 x612062 x1c47"),
    ),
    (
        KeyComparison::FixedCharacters(Collation::Utf8mb4_0900AiCi, 3),
        "1 x612063",
        Some("1 x612063 x1c4702091c7a"),
    ),
    (
        KeyComparison::FixedCharacters(Collation::Utf8mb4GeneralCi, 2),
        "1 x202020",
        Some("1 x202020 x"),
    ),
    (
        KeyComparison::FixedCharacters(Collation::Utf8mb4GeneralCi, 2),
        "1 x61ff",
        None,
    ),
    (KeyComparison::FixedBytes(2), "1 x61", Some("1 x61 x61")),
    (
        KeyComparison::FixedBytes(2),
        "1 x610062",
        Some("1 x610062 x61"),
    ),
    (
        KeyComparison::FixedBytes(3),
        "1 x610062",
        Some("1 x610062 x610062"),
    ),
    (
        KeyComparison::FixedBytes(2),
        "1 x00000062",
        Some("1 x00000062 x"),
    ),
    (
        KeyComparison::FixedBytes(2),
        "1 x6120",
        Some("1 x6120 x6120"),
    ),
    (KeyComparison::FixedBytes(2), "1 null", Some("1 null null")),
    (KeyComparison::FixedBytes(2), "1 7", None),
];

/// -0, 0, 1, -1, -1.5 and the numbers next to -0, in 4 and 8 bytes.
const FLOATS: &[Case] = &[
    (
        KeyComparison::Float,
        "1 x80000000",
        Some("1 x80000000 x00000000"),
    ),
    (
        KeyComparison::Float,
        "1 x00000000",
        Some("1 x00000000 x00000000"),
    ),
    (
        KeyComparison::Float,
        "1 x8000000000000000",
        Some("1 x8000000000000000 x0000000000000000"),
    ),
    (
        KeyComparison::Float,
        "1 x0000000000000000",
        Some("1 x0000000000000000 x0000000000000000"),
    ),
    (
        KeyComparison::Float,
        "1 x3f800000",
        Some("1 x3f800000 x3f800000"),
    ),
    (
        KeyComparison::Float,
        "1 xbf800000",
        Some("1 xbf800000 xbf800000"),
    ),
    (
        KeyComparison::Float,
        "1 x80000001",
        Some("1 x80000001 x80000001"),
    ),
    (
        KeyComparison::Float,
        "1 xbff8000000000000",
        Some("1 xbff8000000000000 xbff8000000000000"),
    ),
    (KeyComparison::Float, "1 null", Some("1 null null")),
    (
        KeyComparison::Float,
        "1 x8000000000000080",
        Some("1 x8000000000000080 x8000000000000080"),
    ),
    (KeyComparison::Float, "1 x80000000000000", None),
    (KeyComparison::Float, "1 x", None),
    (KeyComparison::Float, "1 0", None),
    (KeyComparison::Float, "1", None),
];

/// An image, and what is derived from it where the hidden column holds the text of the row.
const ROWS: &[(&str, &str)] = &[
    ("1 x6162 null", "1 x6162 null x31207836313632206e756c6c"),
    ("-5", "-5 x2d35"),
    ("null x", "null x x6e756c6c2078"),
];

fn name(alloc: Global, text: &str) -> Option<Name> {
    let name = String::from_str(alloc, text).ok()?;
    Name::new(name).ok()
}

fn part(
    alloc: Global,
    table: &str,
    column: u32,
    comparison: KeyComparison,
) -> Option<DerivedColumn> {
    let table = name(alloc, table)?;
    Some(DerivedColumn::Part(KeyPart {
        table,
        column,
        comparison,
    }))
}

fn image(alloc: Global, text: &str) -> Option<Row> {
    Row::from_text(alloc, text.as_bytes()).ok()?
}

fn is_text(row: &Option<Row>, want: Option<&str>) -> bool {
    match (row, want) {
        (Some(row), Some(want)) => row.as_str() == want,
        (None, None) => true,
        _ => false,
    }
}

/// Whether this is derived from an image of the table `t` with the hidden column, and the image itself from one of another table.
fn is_derived(
    alloc: Global,
    column: DerivedColumn,
    text: &str,
    want: Option<&str>,
) -> Option<bool> {
    let derivation = Derivation::of(alloc, vec![in alloc; column].ok()?).ok()?;
    let image = image(alloc, text)?;
    let (table, other) = (name(alloc, "t")?, name(alloc, "u")?);
    let derived = derivation.derive_row(alloc, &table, &image).ok()?;
    let left = derivation.derive_row(alloc, &other, &image).ok()?;
    Some(is_text(&derived, want) && is_text(&left, Some(text)))
}

fn is_case(alloc: Global, case: &Case) -> Option<bool> {
    let (comparison, text, want) = case;
    let column = part(alloc, "t", 1, *comparison)?;
    is_derived(alloc, column, text, *want)
}

#[test]
fn images_have_the_weights_of_a_server(rt: HostRuntime) -> Result<(), Fail> {
    for case in TEXTS {
        assert!(rt; is_case(rt.alloc(), case) == Some(true), "{}", case.1);
    }
    Ok(())
}

#[test]
fn images_have_parts_of_keys(rt: HostRuntime) -> Result<(), Fail> {
    for cases in [FIRST_CHARACTERS, FIRST_BYTES, FIXED, FLOATS] {
        for case in cases {
            assert!(rt; is_case(rt.alloc(), case) == Some(true), "{}", case.1);
        }
    }
    Ok(())
}

fn is_row(alloc: Global, text: &str, want: &str) -> Option<bool> {
    let column = DerivedColumn::Row(name(alloc, "t")?);
    is_derived(alloc, column, text, Some(want))
}

#[test]
fn images_have_their_texts(rt: HostRuntime) -> Result<(), Fail> {
    for (text, want) in ROWS {
        assert!(rt; is_row(rt.alloc(), text, want) == Some(true), "{}", text);
    }
    Ok(())
}

/// A table of so many hidden columns that images are read in one pass: 16 times the first byte of the first column, and the row.
fn many(alloc: Global) -> Option<Derivation> {
    let mut columns = Vec::new(alloc);
    for _ in 0..16 {
        columns
            .push(part(alloc, "t", 0, KeyComparison::FirstBytes(1))?)
            .ok()?;
    }
    columns.push(DerivedColumn::Row(name(alloc, "t")?)).ok()?;
    Derivation::of(alloc, columns).ok()
}

fn has_many(alloc: Global) -> Option<bool> {
    let derivation = many(alloc)?;
    let image = image(alloc, "x6162")?;
    let derived = derivation.derive_row(alloc, &name(alloc, "t")?, &image);
    let want = "x6162 x61 x61 x61 x61 x61 x61 x61 x61 x61 x61 x61 x61 x61 x61 x61 x61 x7836313632";
    Some(is_text(&derived.ok()?, Some(want)))
}

#[test]
fn many_hidden_columns(rt: HostRuntime) -> Result<(), Fail> {
    assert!(rt; has_many(rt.alloc()) == Some(true));
    Ok(())
}

/// The third column and then the second of the table `t`, so their hidden columns are in this order.
fn derivation(alloc: Global) -> Option<Derivation> {
    let third = part(
        alloc,
        "t",
        2,
        KeyComparison::Text(Collation::Utf8mb4GeneralCi),
    )?;
    let second = part(
        alloc,
        "t",
        1,
        KeyComparison::Text(Collation::Utf8mb4GeneralCi),
    )?;
    Derivation::of(alloc, vec![in alloc; third, second].ok()?).ok()
}

/// An entry with the number, whose one change updates a row of `t`.
fn entry(alloc: Global, number: u64, before: &str, after: &str) -> Option<Entry> {
    let table = name(alloc, "t")?;
    let before = image(alloc, before)?;
    let after = image(alloc, after)?;
    let update = Change::Update {
        table,
        before,
        after,
    };
    let changes = Changes::single(alloc, update).ok()?;
    let gtid = Gtid {
        source: SourceId::from_bits(1),
        number,
    };
    Some(Entry {
        gtid,
        txn: Transaction { changes },
    })
}

/// Whether the one change of an entry has these images.
fn has_images(entry: &Entry, wanted_before: &str, wanted_after: &str) -> bool {
    match entry.txn.changes.as_slice() {
        [
            Change::Update {
                table: _,
                before,
                after,
            },
        ] => before.as_str() == wanted_before && after.as_str() == wanted_after,
        _ => false,
    }
}

fn has_both_images(alloc: Global) -> Option<bool> {
    let derivation = derivation(alloc)?;
    let entry = entry(alloc, 1, "1 x61 x62", "1 x43 x62")?;
    let entries = vec![in alloc; entry].ok()?;
    let derived = derivation.derive_entries(alloc, entries).ok()?;
    match derived.as_slice() {
        [entry] => Some(has_images(entry, "1 x61 x62 x0042 x0041", "1 x43 x62 x0042 x0043")),
        _ => None,
    }
}

/// Of the second entry the before image has no text in the third column, and the after image none in the second.
fn names_the_first(alloc: Global) -> Option<bool> {
    let first = entry(alloc, 1, "1 x61 x62", "1 x43 x62")?;
    let second = entry(alloc, 2, "1 x61 7", "1 7 x62")?;
    let entries = vec![in alloc; first, second].ok()?;
    let derivation = derivation(alloc)?;
    match derivation.derive_entries(alloc, entries) {
        Err(
            DerivationFault::NoHiddenValue {
                gtid,
                table,
                column,
            },
        ) => Some(gtid.number == 2 && table.as_str() == "t" && column == 2),
        _ => None,
    }
}

#[test]
fn entries_have_hidden_columns(rt: HostRuntime) -> Result<(), Fail> {
    assert!(rt; has_both_images(rt.alloc()) == Some(true));
    assert!(rt; names_the_first(rt.alloc()) == Some(true));
    Ok(())
}
