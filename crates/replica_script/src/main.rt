//! The program `replica_script`: it runs a replica, or a network of replicas, by the events and queries of a script, line by line, and
//! prints each answer before it reads the next line. docs/SCRIPTS.md has the language.
//!
//! What a contract sees: a question (an event or a query), the state before it, the printed text and the state after it. The line of an
//! event is that of the reply of the machine's `step`, and the state after it is `step`'s; a query's lines are those of the state, which it
//! leaves (`answer`). If a set is full, that is the line, and nothing has changed. If out of memory, the replica is as before, or in the
//! state after the event whose reply could not be printed (`left`). A network likewise (`answer_network`). A bad line ends the script
//! (`stop`, `stops`).
//!
//! From the input to the output (`run_script`, where a reader's bytes are known): the lines are taken in order from the first on, each by
//! the state that the line before it left, and what was written is their answers; if a write fails, it is these answers and a prefix of the
//! next. It ends when nothing is left, or at the first line that has no answer, and the fault is that line's with its number (`Ends`). The
//! proof knows nothing of what answers the lines (`Answerer`), and so it can neither skip, repeat nor make up an answer. Of `Script`'s own
//! answers it is proved that a line which is passed over is answered by nothing and changes nothing, that `---` begins anew, and that none
//! comes after a stop (`IsTold`). What is written of a seat's event is read back as that event (`laws`).
//!
//! Tables, rows and changes are read by the readers of `txn_journal`, by version 1 of the formats, or by version 3 where `version 3` is the
//! first declaration. The version is part of a script's state: each line leaves the one that `next_version` states, and version 3 begins
//! only where nothing else is declared (`BeginsThree`). It decides which words are names of channels (`question_of`) and which text the own
//! journal has (`journal_text`).
//!
//! With `--again` an event or query that is refused memory is asked once more, if the replica equals a copy that was made before it. It
//! always does, by proof; the comparison is there for the compilers below the proof (`sweep/refused_memory`).
//!
//! Exit status: 0 the whole script was answered, 2 a bad line or another command line, 3 out of memory, 4 reading or writing failed, 5 a
//! refused call has changed the replica.
//!
//! Not proved: that lines of tables, rows and changes are read as what they denote; `receive` and `local`, and the node after `at`, are
//! read without a contract of their own.
#![tactic(auto)]

ghost use Rattle.std.specs.Prelude.{◌≡◌};
ghost use Rattle.replica_script.specs.Scripts.{command_named, command_of, status_of};

mod answer;
mod declaration;
mod edge;
mod laws;
mod message;
mod network_answer;
mod preamble;
mod query;
mod question;
mod replicas;
mod reply;
mod script;
mod transaction;

use crate::answer::Asking;
use crate::edge::{ScriptFault, run_script};
use crate::message::{bad_line_text, fault_word};
use std::env;
use std::io::{self, BufReader, ErrorKind};
use std::process::ExitCode;

/// What the command line asks for.
#[derive(Clone, Copy, Drop)]
pub enum ScriptCommand {
    /// The answers to the script on standard input.
    Run(Asking),
    /// How the program is called.
    Help,
}

const USAGE: &str = "usage: replica_script [--again] < script";

const HELP: &str = "\
usage: replica_script [--again] < script
       replica_script --help

Reads a script of events and queries, asks a replica, or a network of replicas, line by line, and prints the answers.
With --again each event and query that is refused memory is asked once more; of a network, each query.
The language of scripts stands in docs/SCRIPTS.md.
";

/// The status that the program ends with.
pub fn exit_status(ended: &Result<(), ScriptFault>) -> u8
    ensures { result ≡ status_of ended.now }
{
    match ended {
        Ok(()) => 0,
        Err(ScriptFault::BadLine(_)) => 2,
        Err(ScriptFault::CutShort) => 2,
        Err(ScriptFault::Memory) => 3,
        Err(ScriptFault::Changed) => 5,
        Err(ScriptFault::Read) => 4,
        Err(ScriptFault::Write) => 4,
    }
}

/// What one word asks for, if anything.
fn command_named(word: &[u8]) -> Option<ScriptCommand>
    ensures { result ≡ command_named word.now }
{
    if word == b"--again".as_slice() {
        Some(ScriptCommand::Run(Asking::Again))
    } else if word == b"--help".as_slice() {
        Some(ScriptCommand::Help)
    } else {
        None
    }
}

/// What the words of the command line ask for, if anything.
fn command_of(words: &[String]) -> Option<ScriptCommand>
    ensures { result ≡ command_of words.now }
{
    match words {
        [] => Some(ScriptCommand::Run(Asking::Once)),
        [word] => command_named(word.as_bytes()),
        _ => None,
    }
}

/// Writes a line on standard error.
fn write_error(rt: &HostRuntime, line: &str) {
    let _ = eprintln!(rt; "replica_script: {line}");
}

/// Reports on standard error why a script was not answered to its end.
fn report(rt: &HostRuntime, fault: &ScriptFault) {
    if let ScriptFault::BadLine(line) = fault {
        if let Ok(text) = bad_line_text(rt.alloc(), line) {
            write_error(rt, text.as_str());
            return;
        }
    }
    write_error(rt, fault_word(fault));
}

/// Answers the script on standard input.
fn answer_input(rt: &HostRuntime, asking: Asking) -> Result<(), ScriptFault> {
    let alloc = rt.alloc();
    let Ok(mut reader) = BufReader::new(alloc, rt.reader()) else {
        return Err(ScriptFault::Memory);
    };
    let mut writer = io::writer(rt);
    run_script(alloc, asking, &mut reader, &mut writer)
}

/// Prints how the program is called.
fn print_help(rt: &HostRuntime) -> Result<(), ScriptFault> {
    match print!(rt; "{HELP}") {
        Ok(()) => Ok(()),
        Err(_) => Err(ScriptFault::Write),
    }
}

fn run(rt: &HostRuntime, words: &[String]) -> u8 {
    let ended = match command_of(words) {
        Some(ScriptCommand::Run(asking)) => answer_input(rt, asking),
        Some(ScriptCommand::Help) => print_help(rt),
        None => {
            let _ = eprintln!(rt; "{USAGE}");
            return 2;
        }
    };
    if let Err(fault) = &ended {
        report(rt, fault);
    }
    exit_status(&ended)
}

/// Reports out of memory, with the status for it.
fn out_of_memory(rt: &HostRuntime) -> ExitCode {
    write_error(rt, fault_word(&ScriptFault::Memory));
    ExitCode::from(3)
}

fn main(rt: HostRuntime) -> ExitCode {
    let args = match env::args(&rt) {
        Ok(args) => args,
        Err(error) if error.kind() == ErrorKind::OutOfMemory => return out_of_memory(&rt),
        Err(_) => {
            write_error(&rt, "reading the command line failed");
            return ExitCode::from(4);
        }
    };
    let words: Vec<String> = match args.skip(1).collect(rt.alloc()) {
        Ok(words) => words,
        Err(_) => return out_of_memory(&rt),
    };
    ExitCode::from(run(&rt, words.as_slice()))
}
