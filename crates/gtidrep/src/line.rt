ghost use Rattle.std.specs.Prelude.{◌≡◌, ℕ, ◌≤◌, IfOk, MatchOption, option_map};
ghost use Rattle.gtidrep.specs.Line.{IsForOneToMost, file_of};

use crate::audit_line::{Listing, audit_command, listing_of};
use crate::help::{
    APPLY_EXAMPLE, EVENTS_EXAMPLE, NO_HISTORY, POSITION_EXAMPLE, SET_EXAMPLE, STATES_EXAMPLE,
    UPGRADE_EXAMPLE,
};
use crate::import_line::{LogWord, accepted_of, grants_of, import_command, log_words};
use binlog_bundle::Grants;
use binlog_events::EventDetail;
use clap::builder::ValueParser;
use clap::error::ErrorKind;
use clap::{Arg, ArgAction, ArgMatches, Error};
use commands::{Target, Way};
use gtid_set::GtidSet;
use serving::Order;
use std::alloc::{AllocError, Global};

/// One line of the program's commands, with its values.
#[derive(Drop)]
pub enum Command<'a> {
    /// A set function with one set or two words.
    Set {
        function: &'a str,
        first: &'a str,
        second: Option<&'a str>,
    },
    /// What the source of a journal from standard input sends.
    Position {
        own: &'a str,
        ask: &'a str,
    },
    /// A bundle from standard input is audited by an order.
    Audit {
        order: Order,
        listing: Listing,
    },
    /// A bundle of a version below from standard input is written by this one.
    Upgrade {
        target: Target,
    },
    /// Servers from standard input are compared.
    States,
    /// A bundle from standard input whose journals are the texts of binary logs is written by version 3, or its refusal is explained.
    Import {
        grants: Grants,
        accepted: GtidSet,
        is_explained: bool,
    },
    /// A head from standard input is made a bundle with the journals of binary log files, or their refusal is explained.
    ImportFiles {
        grants: Grants,
        accepted: GtidSet,
        is_explained: bool,
        files: Vec<LogWord<'a>>,
    },
    /// The events of a binary log are listed, of this file or from standard input.
    Events {
        file: Option<&'a str>,
        detail: EventDetail,
    },
    /// The version of the program is asked for.
    Version,
    /// A bundle from standard input is applied by 1 to 64 workers, if the audit that asks for an order allows it.
    Apply {
        way: Way,
        order: Order,
        workers: u8,
    },
    /// The same, by workers that share a replica, whose history is told.
    Tell {
        order: Order,
        workers: u8,
    },
}

/// A command, and whether its progress is told where standard error is a terminal.
#[derive(Drop)]
pub struct Wish<'a> {
    pub command: Command<'a>,
    pub shows_progress: bool,
}

/// Why the words are no command.
#[derive(Drop)]
pub enum CommandFault {
    Memory,
    /// A word is not UTF-8.
    NotUtf8,
    /// The text of `clap` that describes the fault, in whole lines.
    Line(String),
}

fn value<'a>(alloc: Global, id: &'a str, help: &'a str) -> Arg<'a> {
    Arg::new(alloc, id)
        .required(true)
        .action(ArgAction::Set)
        .help(help)
}

fn set_command<'a>(alloc: Global) -> Result<clap::Command<'a>, AllocError> {
    clap::Command::new(alloc, "set")
        .about("Computes with GTID sets: set union <a> <b>")
        .after_help(SET_EXAMPLE)
        .arg(value(alloc, "function", "what is computed"))?
        .arg(value(alloc, "a", "the first set, or -"))?
        .arg(
            Arg::new(alloc, "b")
                .action(ArgAction::Set)
                .help("the second set, or -, or a UUID"),
        )
}

fn option<'a>(alloc: Global, id: &'a str, help: &'a str) -> Arg<'a> {
    Arg::new(alloc, id)
        .long(id)
        .required(true)
        .action(ArgAction::Set)
        .help(help)
}

fn position_command<'a>(alloc: Global) -> Result<clap::Command<'a>, AllocError> {
    clap::Command::new(alloc, "position")
        .about(
            "Says what a source sends: position --own <uuid> --ask <set> < examples/first.journal",
        )
        .after_help(POSITION_EXAMPLE)
        .arg(option(alloc, "own", "the source's own UUID"))?
        .arg(option(alloc, "ask", "the set that the replica asks with"))
}

/// The flag that asks for one order in place of sources that share no key.
pub(crate) fn ordered_flag<'a>(alloc: Global) -> Arg<'a> {
    Arg::new(alloc, "ordered")
        .long("ordered")
        .action(ArgAction::SetTrue)
        .help(
            "lets sources share keys, where transactions that do stand in one order in all journals",
        )
}

/// The flag of a command that may read long.
pub(crate) fn progress_flag<'a>(alloc: Global) -> Arg<'a> {
    flag(
        alloc,
        "no-progress",
        "tells nothing of how much was read; else a terminal on standard error shows it, once a second",
    )
}

/// The command with one flag more, if there was memory for that flag.
pub(crate) fn with_flag<'a>(
    command: clap::Command<'a>,
    flag: Result<Arg<'a>, AllocError>,
) -> Result<clap::Command<'a>, AllocError> {
    command.arg(flag?)
}

/// The versions by which a bundle is written, by the words that name them.
const TARGETS: [&str; 2] = ["2", "3"];

fn to_option<'a>(alloc: Global) -> Arg<'a> {
    Arg::new(alloc, "to")
        .long("to")
        .action(ArgAction::Set)
        .value_parser(ValueParser::Names(&TARGETS))
        .help("the version by which the bundle is written: 2 unless it is 3")
}

fn upgrade_command<'a>(alloc: Global) -> Result<clap::Command<'a>, AllocError> {
    clap::Command::new(alloc, "upgrade")
        .about(
            "Writes a bundle of an earlier version by a later one: upgrade < examples/first.bundle",
        )
        .after_help(UPGRADE_EXAMPLE)
        .arg(to_option(alloc))
}

fn states_command<'a>(alloc: Global) -> clap::Command<'a> {
    clap::Command::new(alloc, "states")
        .about(
            "Sets what servers have executed beside one another: states < examples/three.servers",
        )
        .after_help(STATES_EXAMPLE)
}

/// A flag of this name.
pub(crate) fn flag<'a>(alloc: Global, id: &'a str, help: &'a str) -> Arg<'a> {
    Arg::new(alloc, id)
        .long(id)
        .action(ArgAction::SetTrue)
        .help(help)
}

fn events_command<'a>(alloc: Global) -> Result<clap::Command<'a>, AllocError> {
    clap::Command::new(alloc, "events")
        .about("Lists the events of a binary log: events east-bin.000001")
        .after_help(EVENTS_EXAMPLE)
        .arg(
            Arg::new(alloc, "file")
                .action(ArgAction::Set)
                .help("the binary log file; standard input where none is given"),
        )?
        .arg(flag(
            alloc,
            "rows",
            "lists the rows of each rows event below it, with their values",
        ))
}

fn detail_of(matches: &ArgMatches) -> EventDetail {
    if matches.get_flag("rows") {
        EventDetail::Rows
    } else {
        EventDetail::Line
    }
}

/// The ways to apply a bundle, by the words that name them.
const WAYS: [&str; 2] = ["merge", "replica"];

fn by_option<'a>(alloc: Global) -> Arg<'a> {
    Arg::new(alloc, "by")
        .long("by")
        .action(ArgAction::Set)
        .value_parser(ValueParser::Names(&WAYS))
        .help("the way: a fast merge, or a replica that workers share; the answer is the same")
}

fn history_flag<'a>(alloc: Global) -> Result<Arg<'a>, AllocError> {
    Arg::new(alloc, "history")
        .long("history")
        .action(ArgAction::SetTrue)
        .help(
            "shows on standard error each step of the replica's seats, with its reply; goes with --by replica",
        )
        .requires_arg("by")
}

fn apply_command<'a>(alloc: Global) -> Result<clap::Command<'a>, AllocError> {
    let workers = Arg::new(alloc, "workers")
        .long("workers")
        .action(ArgAction::Set)
        .value_parser(ValueParser::unsigned(1, 64))
        .default_value("1")
        .help("how many workers share the work, from 1 to 64; the answer is the same");
    let command = clap::Command::new(alloc, "apply")
        .about("Applies a bundle from standard input: apply < examples/first.bundle")
        .after_help(APPLY_EXAMPLE)
        .arg(by_option(alloc))?
        .arg(workers)?
        .arg(ordered_flag(alloc))?
        .arg(progress_flag(alloc))?;
    with_flag(command, history_flag(alloc))
}

/// The program with one command more, if there was memory for that command.
fn with_command<'a>(
    program: clap::Command<'a>,
    command: Result<clap::Command<'a>, AllocError>,
) -> Result<clap::Command<'a>, AllocError> {
    program.subcommand(command?)
}

fn all_commands<'a>(alloc: Global) -> Result<clap::Command<'a>, AllocError> {
    let program = clap::Command::new(alloc, "gtidrep")
        .bin_name("gtidrep")?
        .version("0.9.0")
        .about("The replica side of GTID replication, over files of journals.")
        .subcommand_required(true);
    let program = with_command(program, set_command(alloc))?;
    let program = with_command(program, position_command(alloc))?;
    let program = with_command(program, audit_command(alloc))?;
    let program = with_command(program, upgrade_command(alloc))?;
    let program = program.subcommand(states_command(alloc))?;
    let program = with_command(program, import_command(alloc))?;
    let program = with_command(program, events_command(alloc))?;
    with_command(program, apply_command(alloc))
}

fn workers_of(matches: &ArgMatches) -> Option<u8>
    ensures { MatchOption result (Unit {0}) (λ n. (1 ≤ n) × (n ≤ 64)) }
{
    let workers = matches.get_one::<u8>("workers")?;
    if 1 <= workers && workers <= 64 {
        Some(workers)
    } else {
        None
    }
}

fn order_of(matches: &ArgMatches) -> Order {
    if matches.get_flag("ordered") {
        Order::ByConflict
    } else {
        Order::BySource
    }
}

/// The way that is asked for: the merge unless it is the replica.
fn way_of(matches: &ArgMatches) -> Way {
    match matches.get_str("by") {
        Some("replica") => Way::Replica,
        _ => Way::Merge,
    }
}

/// How a bundle is applied. A merge has no history.
fn applying_of<'a>(matches: &ArgMatches<'a>) -> Option<Command<'a>>
    ensures { MatchOption result (Unit {0}) IsForOneToMost }
{
    let order = order_of(matches);
    let workers = workers_of(matches)?;
    match (way_of(matches), matches.get_flag("history")) {
        (Way::Merge, true) => None,
        (Way::Replica, true) => Some(Command::Tell { order, workers }),
        (way, false) => Some(Command::Apply {
            way,
            order,
            workers,
        }),
    }
}

/// The version that is asked for: 2 unless it is 3.
fn target_of(matches: &ArgMatches) -> Target {
    match matches.get_str("to") {
        Some("3") => Target::Three,
        _ => Target::Two,
    }
}

fn command_of<'a>(name: &str, matches: &ArgMatches<'a>) -> Option<Command<'a>>
    ensures { MatchOption result (Unit {0}) IsForOneToMost }
{
    if name == "set" {
        return Some(Command::Set {
            function: matches.get_str("function")?,
            first: matches.get_str("a")?,
            second: matches.get_str("b"),
        });
    }
    if name == "position" {
        return Some(Command::Position {
            own: matches.get_str("own")?,
            ask: matches.get_str("ask")?,
        });
    }
    if name == "audit" {
        return Some(Command::Audit {
            order: order_of(matches),
            listing: listing_of(matches),
        });
    }
    if name == "upgrade" {
        return Some(Command::Upgrade {
            target: target_of(matches),
        });
    }
    if name == "states" {
        return Some(Command::States);
    }
    if name == "events" {
        return Some(Command::Events {
            file: matches.get_str("file"),
            detail: detail_of(matches),
        });
    }
    applying_of(matches)
}

/// The file that a command reads in the place of standard input, if its words name one.
pub fn file_of<'a>(command: &Command<'a>) -> Option<&'a str>
    ensures { option_map (λ f. f.now) result ≡ file_of command.now }
{
    match command {
        Command::Events { file, detail: _ } => *file,
        _ => None,
    }
}

/// The binary log files that the words of a command name.
pub(crate) fn logs_of<'a, 'c>(command: &'c Command<'a>) -> &'c [LogWord<'a>] {
    match command {
        Command::ImportFiles { files, .. } => files.as_slice(),
        _ => &[],
    }
}

/// How bundles of logs are imported: from text, or from the files that are named.
fn import_of<'a>(alloc: Global, matches: &ArgMatches<'a>) -> Result<Command<'a>, CommandFault>
    ensures { IfOk result IsForOneToMost }
{
    let grants = grants_of(matches);
    let accepted = accepted_of(alloc, matches)?;
    let is_explained = matches.get_flag("explain");
    match matches.get_strs("binlogs") {
        None => Ok(Command::Import {
            grants,
            accepted,
            is_explained,
        }),
        Some(words) => Ok(Command::ImportFiles {
            grants,
            accepted,
            is_explained,
            files: log_words(alloc, words)?,
        }),
    }
}

/// The commands that may read long.
const LONG_COMMANDS: [&str; 3] = ["audit", "apply", "import"];

/// Whether the progress of this command is told: unless its words say that it isn't.
fn shows_progress(name: &str, matches: &ArgMatches) -> bool {
    LONG_COMMANDS.contains(&name) && !matches.get_flag("no-progress")
}

/// The command of this name with these words. (A merge that is asked for its history alone is none.)
fn command_named<'a>(
    alloc: Global,
    name: &str,
    matches: &ArgMatches<'a>,
) -> Result<Command<'a>, CommandFault>
    ensures { IfOk result IsForOneToMost }
{
    if name == "import" {
        return import_of(alloc, matches);
    }
    match command_of(name, matches) {
        Some(command) => Ok(command),
        None => Err(told(alloc, NO_HISTORY)),
    }
}

/// The command that words are which `clap` takes.
fn wish_of<'a>(alloc: Global, matches: &ArgMatches<'a>) -> Result<Wish<'a>, CommandFault>
    ensures { IfOk result (λ wish. IsForOneToMost wish.command) }
{
    let Some((name, inner)) = matches.subcommand() else {
        return Err(told(alloc, NO_HISTORY));
    };
    match command_named(alloc, name, inner) {
        Ok(command) => Ok(Wish {
            command,
            shows_progress: shows_progress(name, inner),
        }),
        Err(fault) => Err(fault),
    }
}

/// The fault of words that is told by this text.
pub(crate) fn told(alloc: Global, text: &str) -> CommandFault {
    match String::from_str(alloc, text) {
        Ok(text) => CommandFault::Line(text),
        Err(_) => CommandFault::Memory,
    }
}

fn fault_of(alloc: Global, error: Error) -> CommandFault {
    if error.kind() == ErrorKind::OutOfMemory {
        return CommandFault::Memory;
    }
    match error.to_string(alloc) {
        Ok(text) => CommandFault::Line(text),
        Err(_) => CommandFault::Memory,
    }
}

/// Reads the words after the program's name.
pub fn parse_line<'a>(alloc: Global, words: &'a [String]) -> Result<Wish<'a>, CommandFault>
    ensures { IfOk result (λ wish. IsForOneToMost wish.command) }
{
    let Ok(commands) = all_commands(alloc) else {
        return Err(CommandFault::Memory);
    };
    match commands.no_binary_name(true).try_get_matches_from(words) {
        Ok(matches) => wish_of(alloc, &matches),
        Err(error) if error.kind() == ErrorKind::DisplayVersion => Ok(Wish {
            command: Command::Version,
            shows_progress: false,
        }),
        Err(error) => Err(fault_of(alloc, error)),
    }
}
