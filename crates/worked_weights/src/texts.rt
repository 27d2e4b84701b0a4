//! Weights that a server prints, and bytes that are no text.

use collation_weights::{first_characters, weigh};
use collations::Collation;
use std::alloc::Global;
use std::test::Fail;

/// Whether a text weighs this, as `hex(weight_string(..))` prints it, without blanks at the end where the server pads.
fn weighs(alloc: Global, collation: Collation, text: &[u8], want: &[u8]) -> bool {
    match weigh(alloc, collation, text) {
        Ok(Some(bytes)) => bytes.as_slice() == want,
        _ => false,
    }
}

fn is_no_text(alloc: Global, collation: Collation, text: &[u8]) -> bool {
    match weigh(alloc, collation, text) {
        Ok(None) => true,
        _ => false,
    }
}

#[test]
fn weights_are_those_of_the_server(rt: HostRuntime) -> Result<(), Fail> {
    let alloc = rt.alloc();
    assert!(rt;
        weighs(
            alloc,
            Collation::Utf8mb4_0900AiCi,
            b"a ",
            &[0x1C, 0x47, 0x02, 0x09]
        )
    );
    assert!(rt;
        weighs(
            alloc,
            Collation::Utf8mb4_0900AsCs,
            b"A",
            &[0x1C, 0x47, 0, 0, 0, 0x20, 0, 0, 0, 0x08]
        )
    );
    assert!(rt; weighs(alloc, Collation::Utf8mb4_0900AsCs, b"", &[0, 0, 0, 0]));
    assert!(rt; weighs(alloc, Collation::Utf8mb4_0900Bin, b"a ", b"a "));
    assert!(rt; weighs(alloc, Collation::Utf8mb4Bin, b"a ", &[0, 0, 0x61]));
    assert!(rt;
        weighs(
            alloc,
            Collation::Utf8mb3GeneralCi,
            b" a",
            &[0, 0x20, 0, 0x41]
        )
    );
    assert!(rt; weighs(alloc, Collation::Latin1SwedishCi, &[0xE4, 0x20], &[0x5C]));
    assert!(rt; weighs(alloc, Collation::AsciiBin, b"aA ", b"aA"));
    Ok(())
}

/// Whether two texts weigh the same.
fn weigh_the_same(alloc: Global, collation: Collation, first: &str, second: &str) -> bool {
    match weigh(alloc, collation, first.as_bytes()) {
        Ok(Some(bytes)) => weighs(alloc, collation, second.as_bytes(), bytes.as_slice()),
        _ => false,
    }
}

/// A Hangul syllable weighs what its letters do, and a Chinese character what its code point says.
#[test]
fn rules_of_rows(rt: HostRuntime) -> Result<(), Fail> {
    let alloc = rt.alloc();
    let ai_ci = Collation::Utf8mb4_0900AiCi;
    assert!(rt;
        weigh_the_same(
            alloc,
            ai_ci,
            "\u{AC00}\u{AC01}",
            "\u{1100}\u{1161}\u{1100}\u{1161}\u{11A8}"
        )
    );
    assert!(rt; !weigh_the_same(alloc, ai_ci, "\u{AC00}", "\u{AC01}"));
    assert!(rt;
        weighs(
            alloc,
            ai_ci,
            "\u{4E00}".as_bytes(),
            &[0xFB, 0x40, 0xCE, 0x00]
        )
    );
    Ok(())
}

#[test]
fn bytes_that_are_no_text_weigh_nothing(rt: HostRuntime) -> Result<(), Fail> {
    let alloc = rt.alloc();
    for collation in [
        Collation::Utf8mb4_0900AiCi,
        Collation::Utf8mb4_0900Bin,
        Collation::Utf8mb4Bin,
    ] {
        assert!(rt; is_no_text(alloc, collation, &[0xFF]));
        assert!(rt; is_no_text(alloc, collation, &[0xED, 0xA0, 0x80]));
        assert!(rt; is_no_text(alloc, collation, &[0xC0, 0x80]));
        assert!(rt; is_no_text(alloc, collation, &[0xF4, 0x90, 0x80, 0x80]));
        assert!(rt; !is_no_text(alloc, collation, &[0xF4, 0x8F, 0xBF, 0xBF]));
    }
    assert!(rt;
        is_no_text(
            alloc,
            Collation::Utf8mb3GeneralCi,
            &[0xF0, 0x90, 0x80, 0x80]
        )
    );
    assert!(rt; !is_no_text(alloc, Collation::Utf8mb3GeneralCi, &[0xEF, 0xBF, 0xBF]));
    assert!(rt; is_no_text(alloc, Collation::AsciiGeneralCi, &[0x80]));
    assert!(rt; !is_no_text(alloc, Collation::AsciiGeneralCi, &[0x7F]));
    assert!(rt; !is_no_text(alloc, Collation::Latin1Bin, &[0x81, 0xFF]));
    Ok(())
}

/// A key on the first two characters of a column takes two that are one letter to a reader.
#[test]
fn first_characters_of_texts(rt: HostRuntime) -> Result<(), Fail> {
    let ai_ci = Collation::Utf8mb4_0900AiCi;
    assert!(rt; first_characters(ai_ci, 2, "e\u{301}x".as_bytes()) == Some("e\u{301}".as_bytes()));
    assert!(rt; first_characters(ai_ci, 4, "e\u{301}x".as_bytes()) == Some("e\u{301}x".as_bytes()));
    assert!(rt; first_characters(ai_ci, 0, b"x") == Some(b"".as_slice()));
    assert!(rt;
        first_characters(Collation::Latin1Bin, 1, &[0xC3, 0xA9]) == Some([0xC3].as_slice())
    );
    assert!(rt; first_characters(ai_ci, 1, &[0x61, 0xC3]).is_none());
    Ok(())
}
