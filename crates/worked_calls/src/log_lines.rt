//! Lines, types and values of MySQL 9.7's mysqlbinlog.

use binlog_text::{
    ColumnType, IntegerType, LogLine, collation_in, parse_type, read_line, read_value, unquote,
};
use collations::Collation;
use row_images::write_value;
use std::test::Fail;

/// Lines of MySQL 9.7's mysqlbinlog, each with the kind of its content; `-` for those without content.
const LINES: &[(&[u8], u8)] = &[
    (b"# at 1461", b'm'),
    (
        b"#261125 14:23:43 server id 7  end_log_pos 1721 CRC32 0x0658761e \tWrite_rows: table id 106 flags: STMT_END_F USE_SQL_FOREIGN_KEY_F",
        b'h',
    ),
    (
        b"#261125 14:23:43 server id 7  end_log_pos 8236 CRC32 0x5a1cbf6c \tUpdate_rows: table id 106 flags: USE_SQL_FOREIGN_KEY_F",
        b'h',
    ),
    (
        b"#261124  4:32:19 server id 1  end_log_pos 127 CRC32 0x6e9dd121 \tStart: binlog v 4, server v 9.7.4-2 created 261124  4:32:19 at startup",
        b'h',
    ),
    (
        b"#261125 14:23:43 server id 7  end_log_pos 1461 CRC32 0xb88ae17d \tTable_map: `shop`.`allt` mapped to number 106",
        b't',
    ),
    (
        b"#261125 14:23:43 server id 8  end_log_pos 9375 CRC32 0xc73b931e \tXA PREPARE X'7831',X'',1",
        b'-',
    ),
    (b"# Columns(TINYINT,", b'c'),
    (
        b"#         `l` ENUM('a', 'b') CHARSET utf8mb4 COLLATE utf8mb4_0900_ai_ci)",
        b'c',
    ),
    (b"# Primary Key(d)", b'm'),
    (b"# [empty]", b'm'),
    (b"# c0df3372-e8db-11f1-a586-02fc00000001:1-18,", b's'),
    (b"### INSERT INTO `shop`.`allt`", b'r'),
    (b"### INSERT INTO `shop`.`odd``name`", b'-'),
    (b"### WHERE", b'm'),
    (b"### Extra row info for partitioning: partition: 1", b'm'),
    (b"###   @3=-8388608 (8388608)", b'v'),
    (
        b"SET @@SESSION.GTID_NEXT= 'bdf17cb1-e8db-11f1-b994-02fc00000001:3'/*!*/;",
        b'g',
    ),
    (
        b"SET @@SESSION.GTID_NEXT= 'AUTOMATIC' /* added by mysqlbinlog */ /*!*/;",
        b'm',
    ),
    (b"SET TIMESTAMP=1795616623/*!*/;", b'm'),
    (b"/*!99999 SET @@session.x=1 /* *//*!*/;", b'-'),
    (b"use `shop`/*!*/;", b'm'),
    (b"BEGIN", b'm'),
    (b"SAVEPOINT `s2`", b'm'),
    (b"FLUSH RELAY LOGS", b'm'),
    (b"FLUSH TABLES `t1`", b'-'),
    (b"analyze table s.t1, `mysql`.`user`", b'm'),
    (b"OPTIMIZE TABLE t", b'm'),
    (b"ANALYZE", b'-'),
    (b"ANALYZED TABLE t", b'-'),
    (
        b"ANALYZE TABLE t UPDATE HISTOGRAM ON a USING DATA '{}'",
        b'-',
    ),
    (b"CHECK TABLE t", b'-'),
    (b"CREATE DATABASE shop", b'-'),
    (b"XA START X'7831',X'',1", b'-'),
    (b"", b'-'),
];

fn kind(text: &[u8]) -> u8 {
    match read_line(text) {
        None => b'-',
        Some(LogLine::Mark(_)) => b'm',
        Some(LogLine::Head(_)) => b'h',
        Some(LogLine::TableMap(_, _)) => b't',
        Some(LogLine::Column(_)) => b'c',
        Some(LogLine::Gtid(_)) => b'g',
        Some(LogLine::Sources(_, _)) => b's',
        Some(LogLine::Row(_, _, _)) => b'r',
        Some(LogLine::Value(_, _)) => b'v',
    }
}

#[test]
fn lines_of_a_server(rt: HostRuntime) {
    for (text, want) in LINES {
        assert_eq!(rt; kind(text), *want);
    }
}

/// Types and values of the same text, and what each is read as, written as a word; `-` where it is none.
const VALUES: &[(&[u8], &[u8], &str)] = &[
    (b"TINYINT", b"-1 (255)", "-1"),
    (b"SMALLINT UNSIGNED", b"-1 (65535)", "65535"),
    (b"MEDIUMINT", b"-8388608 (8388608)", "-8388608"),
    (
        b"INT UNSIGNED NOT NULL",
        b"-294967296 (4000000000)",
        "4000000000",
    ),
    (b"INT", b"-1 (255)", "-"),
    (
        b"BIGINT UNSIGNED",
        b"-1 (18446744073709551615)",
        "x3138343436373434303733373039353531363135",
    ),
    (
        b"BIGINT",
        b"-9223372036854775808 (9223372036854775808)",
        "-9223372036854775808",
    ),
    (b"DECIMAL(10,2)", b"-1.50", "x2d312e3530"),
    (b"DATE", b"'2024:01:02'", "x323032343a30313a3032"),
    (b"TIMESTAMP", b"1704164645", "1704164645"),
    (
        b"TIMESTAMP(3)",
        b"1704164645.500",
        "x313730343136343634352e353030",
    ),
    (b"YEAR", b"2024", "2024"),
    (b"ENUM('x\\'y', 'z')", b"2", "2"),
    (b"SET('x', 'y')", b"b'00000011'", "x3030303030303131"),
    (
        b"VARCHAR(10) CHARSET latin1",
        b"'te\\'xt\\n\\\\'",
        "x74652778740a5c",
    ),
    (b"BINARY(4)", b"'\\x01\\x02'", "x0102"),
    (b"TEXT", b"NULL", "null"),
    (b"BLOB", b"'\\x08'", "-"),
];

#[test]
fn values_of_a_server(rt: HostRuntime) -> Result<(), Fail> {
    for (named, text, want) in VALUES {
        let column = parse_type(named).ok_or("no type")?;
        let mut word = String::new(rt.alloc());
        match read_value(rt.alloc(), column, text)? {
            Some(value) => write_value(rt.alloc(), &mut word, &value)?,
            None => word.push_str("-")?,
        }
        assert_eq!(rt; word.as_str(), *want);
    }
    Ok(())
}

#[test]
fn types_that_are_refused(rt: HostRuntime) {
    for named in [
        b"FLOAT".as_slice(),
        b"DOUBLE".as_slice(),
        b"JSON".as_slice(),
        b"GEOMETRY".as_slice(),
        b"VECTOR(2)".as_slice(),
    ] {
        assert_eq!(rt; parse_type(named), None);
    }
    assert_eq!(rt; parse_type(b"YEAR"), Some(ColumnType::Number));
    assert_eq!(rt;
        parse_type(b"INT"),
        Some(ColumnType::Signed(IntegerType::Int))
    );
}

/// Types of columns, as mysqlbinlog prints them, and their collations.
const COLLATED: &[(&[u8], Option<Collation>)] = &[
    (
        b"VARCHAR(300) CHARSET latin1 COLLATE latin1_swedish_ci",
        Some(Collation::Latin1SwedishCi),
    ),
    (
        b"TEXT CHARSET utf8mb4 COLLATE utf8mb4_0900_ai_ci",
        Some(Collation::Utf8mb4_0900AiCi),
    ),
    (
        b"VARCHAR(20) NOT NULL CHARSET utf8mb4 COLLATE utf8mb4_bin",
        Some(Collation::Utf8mb4Bin),
    ),
    (b"CHAR(5) CHARSET cp1251 COLLATE cp1251_general_ci", None),
    (b"INT UNSIGNED NOT NULL", None),
    (b"VARCHAR(20) CHARSET utf8mb4_bin", None),
];

#[test]
fn collations_of_types(rt: HostRuntime) {
    for (named, want) in COLLATED {
        assert_eq!(rt; collation_in(named), *want);
    }
}

/// The bytes below the blank, as mysqlbinlog prints them.
const LOW: &[u8] =
    b"'\\x00\\x01\\x02\\x03\\x04\\x05\\x06\\x07\\b\\t\\n\\x0b\\f\\r\\x0e\\x0f\\x10\\x11\\x12\\x13\\x14\\x15\\x16\\x17\\x18\\x19\\x1a\\x1b\\x1c\\x1d\\x1e\\x1f'";

#[test]
fn low_bytes(rt: HostRuntime) -> Result<(), Fail> {
    let bytes = unquote(rt.alloc(), LOW)?.ok_or("not read")?;
    assert_eq!(rt; bytes.len(), 32);
    for (i, byte) in bytes.iter().enumerate() {
        assert_eq!(rt; *byte as usize, i);
    }
    Ok(())
}
