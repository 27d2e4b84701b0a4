//! Names and numbers, as `information_schema.collations` has them.

use collations::{Collation, collation_named, collation_numbered};
use std::test::Fail;

#[test]
fn names_of_older_servers(rt: HostRuntime) -> Result<(), Fail> {
    assert!(rt; collation_named(b"utf8_general_ci") == Some(Collation::Utf8mb3GeneralCi));
    assert!(rt; collation_named(b"utf8mb3_bin") == Some(Collation::Utf8mb3Bin));
    assert!(rt; collation_named(b"utf8_bin") == Some(Collation::Utf8mb3Bin));
    assert!(rt; collation_named(b"utf8mb4_de_pb_0900_ai_ci").is_none());
    assert!(rt; collation_named(b"binary").is_none());
    Ok(())
}

#[test]
fn numbers(rt: HostRuntime) -> Result<(), Fail> {
    assert!(rt; collation_numbered(255) == Some(Collation::Utf8mb4_0900AiCi));
    assert!(rt; collation_numbered(8) == Some(Collation::Latin1SwedishCi));
    assert!(rt; collation_numbered(309) == Some(Collation::Utf8mb4_0900Bin));
    assert!(rt; collation_numbered(63).is_none());
    assert!(rt; Collation::Utf8mb4Unicode520Ci.name() == "utf8mb4_unicode_520_ci");
    assert!(rt; Collation::Utf8mb4Unicode520Ci.number() == 246);
    Ok(())
}
