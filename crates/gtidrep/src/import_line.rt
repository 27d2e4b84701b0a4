//! The words of `import`.

use crate::help::{IMPORT_EXAMPLE, NO_CHANNEL, NO_SET};
use crate::line::{CommandFault, flag, progress_flag, told};
use binlog_bundle::Grants;
use clap::{Arg, ArgAction, ArgMatches};
use gtid_set::{GtidSet, SetFault, SetTextFault};
use gtid_text::TextFault;
use std::alloc::{AllocError, Global};

/// A binary log file of a channel, as a word `<channel>=<file>` names it.
#[derive(Clone, Copy, Drop)]
pub struct LogWord<'a> {
    pub channel: &'a str,
    pub file: &'a str,
}

fn bytes_flag<'a>(alloc: Global) -> Arg<'a> {
    flag(
        alloc,
        "bytes",
        "takes keys that the server compares otherwise than by their bytes; then two values that it calls equal may be two keys",
    )
}

fn foreign_keys_flag<'a>(alloc: Global) -> Arg<'a> {
    flag(
        alloc,
        "without-foreign-keys",
        "takes tables with foreign keys; then a reference to a row that is missing can't be seen",
    )
}

fn executed_flag<'a>(alloc: Global) -> Arg<'a> {
    flag(
        alloc,
        "executed-unknown",
        "takes channels whose line doesn't say what their server had executed; then a log that ends early can't be seen",
    )
}

fn no_rows_flag<'a>(alloc: Global) -> Arg<'a> {
    flag(
        alloc,
        "no-rows",
        "the opening rows aren't known, and the head has none; then no verdict says that the changes apply to them",
    )
}

fn accept_option<'a>(alloc: Global) -> Arg<'a> {
    Arg::new(alloc, "accept")
        .long("accept")
        .value_name("SET")
        .help(
            "takes the statements of these GTIDs in binary log files, where they may be accepted: they change no row of the tables, and stop no replica",
        )
}

fn binlogs_option<'a>(alloc: Global) -> Arg<'a> {
    Arg::new(alloc, "binlogs")
        .long("binlogs")
        .action(ArgAction::Append)
        .num_args(1..)
        .value_name("CHANNEL=FILE")
        .help(
            "reads the binary log files of each channel, in their order, in place of the text of logs",
        )
}

/// The command `import`, with its words.
pub(crate) fn import_command<'a>(alloc: Global) -> Result<clap::Command<'a>, AllocError> {
    clap::Command::new(alloc, "import")
        .about(
            "Writes a bundle whose journals are the texts of binary logs: import < examples/ring.logs",
        )
        .after_help(IMPORT_EXAMPLE)
        .arg(bytes_flag(alloc))?
        .arg(foreign_keys_flag(alloc))?
        .arg(executed_flag(alloc))?
        .arg(no_rows_flag(alloc))?
        .arg(accept_option(alloc))?
        .arg(binlogs_option(alloc))?
        .arg(progress_flag(alloc))?
        .arg(flag(
            alloc,
            "explain",
            "shows on standard error the line that is refused, with its transaction, its end_log_pos and its file",
        ))
}

/// What the words grant.
pub(crate) fn grants_of(matches: &ArgMatches) -> Grants {
    Grants {
        bytes: matches.get_flag("bytes"),
        without_foreign_keys: matches.get_flag("without-foreign-keys"),
        executed_unknown: matches.get_flag("executed-unknown"),
        no_rows: matches.get_flag("no-rows"),
    }
}

/// The set that a word is; without a word it is empty.
pub(crate) fn accepted_of(alloc: Global, matches: &ArgMatches) -> Result<GtidSet, CommandFault> {
    let Some(word) = matches.get_str("accept") else {
        return Ok(GtidSet::empty(alloc));
    };
    match GtidSet::from_text(alloc, word) {
        Ok(accepted) => Ok(accepted),
        Err(SetTextFault::Text(TextFault::Memory) | SetTextFault::Set(SetFault::Memory)) => {
            Err(CommandFault::Memory)
        }
        Err(_) => Err(told(alloc, NO_SET)),
    }
}

/// What a word names, by its first `=`.
fn log_word<'a>(word: &'a str) -> Option<LogWord<'a>> {
    let (channel, file) = word.split_once('=')?;
    Some(LogWord { channel, file })
}

/// What words name, in order.
pub(crate) fn log_words<'a>(
    alloc: Global,
    words: &[&'a str],
) -> Result<Vec<LogWord<'a>>, CommandFault> {
    let mut files = Vec::new(alloc);
    for word in words {
        let Some(file) = log_word(word) else {
            return Err(told(alloc, NO_CHANNEL));
        };
        let Ok(()) = files.push(file) else {
            return Err(CommandFault::Memory);
        };
    }
    Ok(files)
}
