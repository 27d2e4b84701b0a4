//! Logs of MySQL 9.7, shortened.
use binlog_entries::{EntryRefusal, ImportFault, LogReader, ReadFault, import_journal, read_log};
use collations::Collation;
use gtid_set::GtidSet;
use journal_words::set_word;
use log_transactions::{Varied, VariedColumns};
use rows::Name;
use std::alloc::{AllocError, Global};
use std::test::Fail;
use txn_journal::decode_bundle;

/// The lines before the first transaction.
const HEAD: &[&[u8]] = &[
    b"# The proper term is pseudo_replica_mode, but we use this compatibility alias",
    b"# to make the statement usable on server versions 8.0.24 and older.",
    b"/*!50530 SET @@SESSION.PSEUDO_SLAVE_MODE=1*/;",
    b"/*!50003 SET @OLD_COMPLETION_TYPE=@@COMPLETION_TYPE,COMPLETION_TYPE=0*/;",
    b"DELIMITER /*!*/;",
    b"# at 4",
    b"#261125 15:26:35 server id 8  end_log_pos 127 CRC32 0xc38c478e \tStart: binlog v 4, server v 9.7.4-2 created 261125 15:26:35 at startup",
    b"ROLLBACK/*!*/;",
    b"# at 127",
    b"#261125 15:26:35 server id 8  end_log_pos 158 CRC32 0xb8bc79cb \tPrevious-GTIDs",
    b"# c0df3372-e8db-11f1-a586-02fc00000001:1-33",
    b"# at 158",
    b"#261125 15:26:35 server id 8  end_log_pos 363 CRC32 0xacebca77 \tGTID\tlast_committed=0\tsequence_number=1\trbr_only=yes",
    b"/*!50718 SET TRANSACTION ISOLATION LEVEL READ COMMITTED*//*!*/;",
    b"# original_commit_timestamp=1795620395722805 (2026-11-25 15:26:35.722805 UTC)",
    b"/*!80014 SET @@session.immediate_server_version=90704*//*!*/;",
    b"SET @@SESSION.GTID_NEXT= 'c0df3372-e8db-11f1-a586-02fc00000001:40'/*!*/;",
    b"# at 363",
    b"#261125 15:26:35 server id 8  end_log_pos 438 CRC32 0x6ea8cada \tQuery\tthread_id=14\texec_time=0\terror_code=0",
    b"SET TIMESTAMP=1795620395/*!*/;",
];

/// A transaction after its GTID.
const REST: &[&[u8]] = &[
    b"BEGIN",
    b"/*!*/;",
    b"# at 438",
    b"# at 495",
    b"#261125 15:26:35 server id 8  end_log_pos 564 CRC32 0x8329da6c \tTable_map: `fine`.`two` mapped to number 113",
    b"# has_generated_invisible_primary_key=0",
    b"# Columns(`k` INT UNSIGNED NOT NULL,",
    b"#         `v` VARCHAR(20) CHARSET utf8mb4 COLLATE utf8mb4_0900_ai_ci)",
    b"# Primary Key(k)",
    b"# at 564",
    b"#261125 15:26:35 server id 8  end_log_pos 609 CRC32 0xebfca6dd \tUpdate_rows: table id 113 flags: STMT_END_F USE_SQL_FOREIGN_KEY_F",
    b"### UPDATE `fine`.`two`",
    b"### WHERE",
    b"###   @1=-1 (4294967295)",
    b"###   @2='last'",
    b"### SET",
    b"###   @1=9",
    b"###   @2=NULL",
    b"# at 609",
    b"#261125 15:26:35 server id 8  end_log_pos 640 CRC32 0x45d0391c \tXid = 123",
    b"COMMIT/*!*/;",
];

/// The same up to the head of the rows event.
const MAPPED: &[&[u8]] = &[
    b"BEGIN",
    b"/*!*/;",
    b"# at 438",
    b"# at 495",
    b"#261125 15:26:35 server id 8  end_log_pos 564 CRC32 0x8329da6c \tTable_map: `fine`.`two` mapped to number 113",
    b"# has_generated_invisible_primary_key=0",
    b"# Columns(`k` INT UNSIGNED NOT NULL,",
    b"#         `v` VARCHAR(20) CHARSET utf8mb4 COLLATE utf8mb4_0900_ai_ci)",
    b"# Primary Key(k)",
    b"# at 564",
];

/// A statement of two rows events: the rows of both, of partitions, are behind the head of the second. And the end of the transaction.
const TWO_EVENTS: &[&[u8]] = &[
    b"#261125 15:26:35 server id 8  end_log_pos 609 CRC32 0xebfca6dd \tUpdate_rows: table id 113 flags: USE_SQL_FOREIGN_KEY_F",
    b"# at 609",
    b"#261125 15:26:35 server id 8  end_log_pos 640 CRC32 0x2fa1c03b \tDelete_rows: table id 113 flags: STMT_END_F USE_SQL_FOREIGN_KEY_F",
    b"### Extra row info for partitioning: source_partition: 1 target_partition: 0",
    b"### UPDATE `fine`.`two`",
    b"### WHERE",
    b"###   @1=9",
    b"###   @2=NULL",
    b"### SET",
    b"###   @1=8",
    b"###   @2=NULL",
    b"### Extra row info for partitioning: partition: 0",
    b"### DELETE FROM `fine`.`two`",
    b"### WHERE",
    b"###   @1=8",
    b"###   @2=NULL",
    b"# at 640",
    b"#261125 15:26:35 server id 8  end_log_pos 671 CRC32 0x45d0391c \tXid = 123",
    b"COMMIT/*!*/;",
];

/// A statement that never ends, and the end of its transaction.
const OPEN: &[&[u8]] = &[
    b"#261125 15:26:35 server id 8  end_log_pos 609 CRC32 0xebfca6dd \tUpdate_rows: table id 113 flags: USE_SQL_FOREIGN_KEY_F",
    b"# at 609",
    b"#261125 15:26:35 server id 8  end_log_pos 640 CRC32 0x45d0391c \tXid = 123",
    b"COMMIT/*!*/;",
];

/// What a replica logs of `FLUSH RELAY LOGS`.
const FLUSHED: &[&[u8]] = &[
    b"# at 671",
    b"#261125 15:26:36 server id 8  end_log_pos 748 CRC32 0x1be0eb3b \tGTID\tlast_committed=1\tsequence_number=2\trbr_only=no",
    b"SET @@SESSION.GTID_NEXT= 'c0df3372-e8db-11f1-a586-02fc00000001:41'/*!*/;",
    b"# at 748",
    b"#261125 15:26:36 server id 8  end_log_pos 832 CRC32 0x6ea8cada \tQuery\tthread_id=14\texec_time=0\terror_code=0",
    b"SET TIMESTAMP=1795620396/*!*/;",
    b"FLUSH RELAY LOGS",
    b"/*!*/;",
];

/// The first lines of a second file.
const SECOND: &[&[u8]] = &[
    b"SET @@SESSION.GTID_NEXT= 'AUTOMATIC' /* added by mysqlbinlog */ /*!*/;",
    b"# at 4",
    b"#261125 15:27:35 server id 8  end_log_pos 127 CRC32 0xc38c478e \tStart: binlog v 4, server v 9.7.4-2 created 261125 15:27:35",
    b"# at 127",
    b"#261125 15:27:35 server id 8  end_log_pos 158 CRC32 0xb8bc79cb \tPrevious-GTIDs",
];

/// The end of the log.
const END: &[&[u8]] = &[
    b"SET @@SESSION.GTID_NEXT= 'AUTOMATIC' /* added by mysqlbinlog */ /*!*/;",
    b"DELIMITER ;",
    b"# End of log file",
    b"/*!50003 SET COMPLETION_TYPE=@OLD_COMPLETION_TYPE*/;",
    b"/*!50530 SET @@SESSION.PSEUDO_SLAVE_MODE=0*/;",
];

/// The text of these lines.
fn text_of(alloc: Global, parts: &[&[&[u8]]]) -> Result<Vec<u8>, AllocError> {
    let mut text = Vec::new(alloc);
    for part in parts {
        for line in *part {
            text.extend_from_slice(line)?;
            text.push(b'\n')?;
        }
    }
    Ok(text)
}

/// How many entries a text has, or the line that is refused.
fn count_of(alloc: Global, opening: &GtidSet, text: &[u8]) -> Result<usize, ReadFault> {
    match read_log(alloc, opening, text) {
        Ok(log) => Ok(log.entries.len()),
        Err(fault) => Err(fault),
    }
}

fn refused(line: u64, refusal: EntryRefusal) -> Result<usize, ReadFault> {
    Err(ReadFault::Line { line, refusal })
}

fn feed(alloc: Global, reader: &mut LogReader, lines: &[&[u8]]) -> Result<(), ReadFault> {
    for line in lines {
        reader.feed(alloc, line)?;
        reader.feed(alloc, b"\n")?;
    }
    Ok(())
}

#[test]
fn a_log_in_pieces(rt: HostRuntime) -> Result<(), Fail> {
    let mut reader = LogReader::start(rt.alloc(), GtidSet::empty(rt.alloc()));
    feed(rt.alloc(), &mut reader, HEAD)?;
    feed(rt.alloc(), &mut reader, REST)?;
    feed(rt.alloc(), &mut reader, END)?;
    let log = reader.finish()?;
    assert_eq!(rt; log.entries.len(), 1);
    assert_eq!(rt; log.entries[0].gtid.number, 40);
    assert_eq!(rt; log.entries[0].txn.changes.as_slice().len(), 1);
    Ok(())
}

#[test]
fn no_log(rt: HostRuntime) {
    let opening = GtidSet::empty(rt.alloc());
    assert_eq!(rt;
        count_of(rt.alloc(), &opening, b"BEGIN\n"),
        refused(1, EntryRefusal::Format)
    );
    assert_eq!(rt;
        count_of(rt.alloc(), &opening, b""),
        Err(ReadFault::Unfinished { line: 1 })
    );
}

/// Lines after the head, the line that is refused, and why.
const REFUSALS: &[(&[&[u8]], u64, EntryRefusal)] = &[
    (
        &[
            b"CREATE TABLE t (k INT) COMMENT 'line one",
            b"### INSERT INTO `shop`.`fake`",
        ],
        21,
        EntryRefusal::Statement,
    ),
    (&[b"XA START X'7831',X'',1"], 21, EntryRefusal::Xa),
    (
        &[b"### INSERT INTO `shop`.`fake`"],
        21,
        EntryRefusal::Format,
    ),
    (
        &[b"/*!100001 SET @@session.gtid_seq_no=5*//*!*/;"],
        21,
        EntryRefusal::Mariadb,
    ),
    (
        &[b"/*!40019 SET @@session.max_delayed_threads=0*/;"],
        21,
        EntryRefusal::Mariadb,
    ),
    (&[b"COMMIT"], 21, EntryRefusal::Transaction),
    (
        &[b"BEGIN", b"/*!*/;", b"# at 438", b"FLUSH RELAY LOGS"],
        24,
        EntryRefusal::Format,
    ),
];

#[test]
fn refusals(rt: HostRuntime) -> Result<(), Fail> {
    let opening = GtidSet::empty(rt.alloc());
    for (lines, line, refusal) in REFUSALS {
        let text = text_of(rt.alloc(), &[HEAD, *lines])?;
        assert_eq!(rt;
            count_of(rt.alloc(), &opening, &text),
            refused(*line, *refusal)
        );
    }
    Ok(())
}

/// The head of a rows event, and the next one, as `mysqlbinlog` without `-v` prints them.
const WITHOUT_ROWS: &[&[u8]] = &[
    b"#261125 15:26:35 server id 8  end_log_pos 609 CRC32 0xebfca6dd \tUpdate_rows: table id 113 flags: STMT_END_F USE_SQL_FOREIGN_KEY_F",
    b"# at 609",
];

#[test]
fn rows_are_owed(rt: HostRuntime) -> Result<(), Fail> {
    let opening = GtidSet::empty(rt.alloc());
    let text = text_of(rt.alloc(), &[HEAD, MAPPED, WITHOUT_ROWS])?;
    assert_eq!(rt;
        count_of(rt.alloc(), &opening, &text),
        refused(31, EntryRefusal::Rows)
    );
    let text = text_of(rt.alloc(), &[HEAD, MAPPED, OPEN])?;
    assert_eq!(rt;
        count_of(rt.alloc(), &opening, &text),
        refused(34, EntryRefusal::Transaction)
    );
    let text = text_of(rt.alloc(), &[HEAD, MAPPED, TWO_EVENTS, FLUSHED, END])?;
    assert_eq!(rt; count_of(rt.alloc(), &opening, &text), Ok(2));
    Ok(())
}

#[test]
fn gaps(rt: HostRuntime) -> Result<(), Fail> {
    let opening = GtidSet::empty(rt.alloc());
    let come: &[&[u8]] = &[b"# c0df3372-e8db-11f1-a586-02fc00000001:1-33:40"];
    let gap: &[&[u8]] = &[b"# c0df3372-e8db-11f1-a586-02fc00000001:1-40"];
    let text = text_of(rt.alloc(), &[HEAD, REST, SECOND, come, END])?;
    assert_eq!(rt; count_of(rt.alloc(), &opening, &text), Ok(1));
    let text = text_of(rt.alloc(), &[HEAD, REST, SECOND, gap, END])?;
    assert_eq!(rt;
        count_of(rt.alloc(), &opening, &text),
        refused(47, EntryRefusal::Gap)
    );
    let left_out = set_word(rt.alloc(), b"c0df3372-e8db-11f1-a586-02fc00000001:34-39")?;
    let left_out = left_out.ok_or("no set")?;
    assert_eq!(rt; count_of(rt.alloc(), &left_out, &text), Ok(1));
    Ok(())
}

/// A table whose primary key is the column of text.
const TEXT_KEY: &[u8] =
    b"bundle 3\nreplica cccccccc-cccc-cccc-cccc-cccccccccccc\nopening -\ntable fine.two 2 pk 1\ndone\n";

#[test]
fn a_key_of_text(rt: HostRuntime) -> Result<(), Fail> {
    let opening = GtidSet::empty(rt.alloc());
    let text = text_of(rt.alloc(), &[HEAD, REST, END])?;
    let bundle = decode_bundle(rt.alloc(), TEXT_KEY)?;
    match import_journal(rt.alloc(), bundle.schema(), &opening, false, &text) {
        Err(ImportFault::Key(table, column)) => {
            assert!(rt; table.as_str() == "fine.two" && column == 1);
        }
        _ => panic!(rt; "the key is taken"),
    }
    match import_journal(rt.alloc(), bundle.schema(), &opening, true, &text) {
        Ok(imported) => {
            assert!(rt; imported.varied.as_slice() == [0].as_slice());
            assert!(rt;
                imported.text.starts_with(
                    b"journal 3\nprevious c0df3372-e8db-11f1-a586-02fc00000001:1-33\ntxn c0df3372-e8db-11f1-a586-02fc00000001:40 0 1\nupd fine.two 4294967295 x6c617374 | 9 null\nend\nclose\n"
                )
            );
        }
        Err(_) => panic!(rt; "the log is not imported"),
    }
    Ok(())
}

/// What a log says of the columns of its table: whether the server compares one by another collation than this one.
fn others(
    varied: &VariedColumns,
    table: &Name,
    collation: Collation,
) -> Result<[bool; 2], AllocError> {
    let first = varied.has_other(table, 0, collation)?;
    let second = varied.has_other(table, 1, collation)?;
    Ok([first, second])
}

#[test]
fn a_column_with_its_collation(rt: HostRuntime) -> Result<(), Fail> {
    let opening = GtidSet::empty(rt.alloc());
    let text = text_of(rt.alloc(), &[HEAD, REST, END])?;
    let log = read_log(rt.alloc(), &opening, &text)?;
    let [
        Varied {
            table,
            column,
            collation,
        },
    ] = log.varied.as_slice()
    else {
        panic!(rt; "not one column");
    };
    assert!(rt; table.as_str() == "fine.two" && *column == 1);
    assert_eq!(rt; *collation, Some(Collation::Utf8mb4_0900AiCi));
    let varied = VariedColumns::of(rt.alloc(), &log.varied)?;
    assert_eq!(rt;
        others(&varied, table, Collation::Utf8mb4_0900AiCi)?,
        [false, false]
    );
    assert_eq!(rt;
        others(&varied, table, Collation::Utf8mb4Bin)?,
        [false, true]
    );
    Ok(())
}

#[test]
fn a_column_with_two_collations(rt: HostRuntime) -> Result<(), Fail> {
    let table = Name::new(String::from_str(rt.alloc(), "fine.two")?)?;
    let mut varied = VariedColumns::new(rt.alloc());
    for collation in [
        Some(Collation::Utf8mb4Bin),
        None,
        Some(Collation::Utf8mb4Bin),
    ] {
        varied.add(rt.alloc(), table.clone()?, 1, collation)?;
        assert!(rt; varied.has(&table, 1)? && !varied.has(&table, 0)?);
    }
    assert_eq!(rt;
        others(&varied, &table, Collation::Utf8mb4Bin)?,
        [false, true]
    );
    let list = varied.into_list();
    assert_eq!(rt; list.len(), 2);
    assert_eq!(rt; list[0].collation, Some(Collation::Utf8mb4Bin));
    assert_eq!(rt; list[1].collation, None);
    Ok(())
}
