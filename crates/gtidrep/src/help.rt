//! The texts of the help, and those that a fault of the command line is told by.

/// The functions of `set`, and then this text.
macro_rules! functions_and {
    ($rest:literal) => {
        concat!(
            "Functions of one set: normalize, count. Of two sets: union, intersect, subtract, symmetric,
subset, equal, disjoint. Of a set and a UUID: only, without.
",
            $rest
        )
    };
}

/// The functions of `set`, by the words that they take, in whole lines.
pub(crate) const FUNCTIONS: &str = functions_and!("");

pub(crate) const SET_EXAMPLE: &str = functions_and!(
    "A set that is given as `-` is all of standard input, where it may be longer than a command line.

Example:
  gtidrep set subtract aaaaaaaa-aaaa-aaaa-aaaa-aaaaaaaaaaaa:1-10 aaaaaaaa-aaaa-aaaa-aaaa-aaaaaaaaaaaa:3:5-6

Status: 0 the answer is printed, 1 an argument is refused, 2 the command line, 3 memory, 4 writing failed."
);

pub(crate) const POSITION_EXAMPLE: &str =
    "Prints how many entries of the journal the source with this UUID sends to a replica that asks with this set, and
their GTIDs, one a line; or the line that answers why it sends nothing.

Example:
  gtidrep position --own aaaaaaaa-aaaa-aaaa-aaaa-aaaaaaaaaaaa --ask aaaaaaaa-aaaa-aaaa-aaaa-aaaaaaaaaaaa:1-3 < examples/first.journal

Status: 0 printed, 1 refused, 2 the command line, 3 memory, 4 reading or writing failed.";

pub(crate) const AUDIT_EXAMPLE: &str =
    "Prints `sound`, or the first reason why the journals cannot be merged: `shared` and `not-closed` name the pair of
transactions at fault, `missing`, `unequal` and `does-not-apply` one of them, `purged` a journal. With --explain standard
error shows where these stand: channels, entries, lines and changes; of a line that is refused, the line and what is due.
With --ordered two sources may write one row, as after a failover: `reordered` and `concurrent` then name two transactions
that share a key and stand in two orders, or in none. Where a bundle of version 3 assumes something, `sound if` names it.
With --summary a line for each pair of sources and table says how many keys they share, and which is the first.

Example:
  gtidrep audit < examples/ring.bundle

Status: 0 sound, 5 sound if, 1 refused, 2 the command line, 3 memory, 4 reading or writing failed.";

pub(crate) const UPGRADE_EXAMPLE: &str =
    "Prints the bundle by version 2 of the format, or by version 3: with an empty opening set where it was of version 1, its rows
in the order in which `apply` prints them, and the last_committed and sequence number of each entry.

Example:
  gtidrep upgrade < examples/first.bundle
  gtidrep upgrade --to 3 < examples/first.bundle

Status: 0 printed, 1 refused, 2 the command line, 3 memory, 4 reading or writing failed.";

pub(crate) const STATES_EXAMPLE: &str =
    "Reads a line for each server: a name, its UUID, and its gtid_executed (`-` where it is empty), a blank between. Prints the
union of the sets, and for each server what it lacks of that; its gaps, which it lacks below a number that it has of the same source; and
what it alone has, which is errant where the others replicate from it or it from them. `-` stands for an empty set.

Example:
  gtidrep states < examples/three.servers

Status: 0 printed, 1 refused, 2 the command line, 3 memory, 4 reading or writing failed.";

pub(crate) const IMPORT_EXAMPLE: &str =
    "Reads the head of a bundle of version 3 and binary logs of MySQL, and prints the bundle with their journals. With --binlogs the
logs are the files that it names; else the input has in the place of each journal what mysqlbinlog prints of them, and
transactions of the opening set are left out by mysqlbinlog itself. The line of a channel ends with the gtid_executed of its
server, so that a log that ends early is refused. What an option grants, for whose statements --accept answers, and that a log
has no checksums, the bundle says in its lines `assume ..`. Standard error has the refusal, which names the line of the input, or the file of a channel and the
offset of the event; or else a line for each table whose keys --bytes takes.

Examples:
  (cat head && echo channel east executed EXECUTED && echo done) |
    gtidrep import --binlogs east=east-bin.000001 east=east-bin.000002 > shop.bundle

  set -o pipefail
  (cat head && echo channel east executed EXECUTED &&
   mysqlbinlog --verify-binlog-checksum -v --base64-output=decode-rows --print-table-metadata \\
     --exclude-gtids=OPENING east-bin.0* &&
   echo done) | gtidrep import > shop.bundle

Status: 0 printed, 1 refused, 2 the command line, 3 memory, 4 reading or writing failed.";

pub(crate) const EVENTS_EXAMPLE: &str =
    "Reads the bytes of a binary log file of MySQL, or those of standard input where no file is named, and prints a line for each
event: the offset at which it begins, its kind, its length, and what it says: a GTID, the set of those in earlier files, a
table and the number of its rows, the text of a statement. All checksums and positions are tested; the line of the first
fault, with its offset and a word, is the last one. With --rows the rows of a rows event are listed below it, in the words of a
journal, `upd` with the values before and after.

Example:
  gtidrep events east-bin.000001 | grep -A 9 aaaaaaaa-aaaa-aaaa-aaaa-aaaaaaaaaaaa:17

Status: 0 all are listed, 1 refused, 2 the command line, 3 memory, 4 reading or writing failed.";

pub(crate) const APPLY_EXAMPLE: &str =
    "Prints the executed set and the rows, or the line that answers why the bundle does not apply. `--by replica` does what a
server does: workers share one replica, and --history shows on standard error what each of them did. `--by merge`, which is
meant unless it is given, is the fast way to the same answer, by either order and any number of workers: that they agree is
proved. --ordered is as for `audit`. What a bundle assumes is printed first.

Example:
  gtidrep apply --workers 4 < examples/first.bundle
  gtidrep apply --by replica --history --workers 2 < examples/first.bundle

Status: 0 applied, 5 where something is assumed, 1 refused, 2 the command line, 3 memory, 4 reading or writing failed.";

pub(crate) const NO_HISTORY: &str = "error: --history goes with --by replica: a merge has no history

For more information, try '--help'.
";

pub(crate) const NO_CHANNEL: &str = "error: --binlogs names each file as <channel>=<file>

For more information, try '--help'.
";

pub(crate) const NO_SET: &str = "error: --accept takes a set of GTIDs

For more information, try '--help'.
";
