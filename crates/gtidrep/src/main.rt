//! The program `gtidrep`: the command line, and a command of crate `commands` over standard input, or a file, and standard output.
//!
//!     set <function> <a> [<b>]               position --own <uuid> --ask <set> < journal
//!     audit [--all | --summary | --explain | --ordered] < bundle
//!     apply [--by merge|replica] [--history] [--ordered] [--workers N] < bundle
//!     import [--bytes] [--without-foreign-keys] [--executed-unknown] [--no-rows] [--accept <set>] [--explain] < bundle of logs
//!     import --binlogs <channel>=<file>.. [the same] < head of a bundle
//!     upgrade < bundle                       states < servers          events [<file>] < binary log
//!     --version                              audit, apply and import also: --no-progress
//!
//! Exit status: 0 done, 1 refused, 2 the command line, 3 out of memory, 4 reading or writing failed (`exit_status`). With 3 and 4 one
//! line on standard error reports what failed; with 2 standard error has what is wrong with the words; with 0 and 1 it is empty
//! (`message`, which allocates nothing), but for what `--explain` and `--history` show there and what `import` reports there: its refusal,
//! or what a verdict on the bundle can't see. A terminal on standard error is told how much was read (`progress`).
//!
//! What is written is proved in `commands`. Proved here: that each command's answer is written (`run_over`), the status and message for each
//! end, and that a number of workers is 1 to 64 (`parse_line`).
//!
//! Not proved: which command the words name, for the kit's `clap` has no contract from which it would follow, and that the bytes which came
//! are those of the file that the words name (what a file gives is in no contract). That is tested by `tests/cases`, and what is told of
//! progress by `tests/progress`.
#![tactic(auto)]

ghost use Rattle.gtidrep.specs.Line.{IsForOneToMost};

mod audit_line;
mod ending;
mod help;
mod import_line;
mod line;
mod log_files;
mod progress;
mod running;

use crate::ending::{Ending, exit_status, message, ran_over_file};
use crate::line::{Command, CommandFault, Wish, file_of, logs_of, parse_line};
use crate::log_files::{open_file, read_logs};
use crate::progress::{Progress, ToldSource};
use crate::running::run_over;
use binlog_bundle::ChannelFiles;
use commands::{Outcome, RunFault, StdSink, StdSource, Streams};
use std::env;
use std::io::{self, ErrorKind, Read};
use std::process::ExitCode;
use std::sync::Wait;
use std::thread::Threads;

/// The words after the program's name. What `env::args` refuses but for memory is a word that is not
/// UTF-8.
fn read_words(rt: &HostRuntime) -> Result<Vec<String>, CommandFault> {
    let args = match env::args(rt) {
        Ok(args) => args,
        Err(error) if error.kind() == ErrorKind::OutOfMemory => return Err(CommandFault::Memory),
        Err(_) => return Err(CommandFault::NotUtf8),
    };
    match args.skip(1).collect(rt.alloc()) {
        Ok(words) => Ok(words),
        Err(_) => Err(CommandFault::Memory),
    }
}

/// Runs a command over this reader and standard output, and tells its progress.
fn run_over_reader<R: Read + Send + Drop, T: Threads + Wait + Sync>(
    rt: &HostRuntime,
    threads: &T,
    command: Command,
    logs: &[ChannelFiles],
    progress: Progress<'_>,
    reader: R,
) -> Result<Outcome, RunFault>
    requires { IsForOneToMost command }
{
    let source = ToldSource {
        source: StdSource::new(reader),
        progress,
    };
    let mut streams = Streams::new(source, StdSink::new(io::writer(rt)));
    let mut errors = StdSink::new(rt.stderr());
    run_over(
        threads,
        rt.alloc(),
        command,
        logs,
        &mut streams,
        &mut errors,
    )
}

/// Runs a command over standard input, and the binary log files that its words name.
fn run_over_input<T: Threads + Wait + Sync>(
    rt: &HostRuntime,
    threads: &T,
    command: Command,
    progress: Progress<'_>,
) -> Ending
    requires { IsForOneToMost command }
{
    let mut progress = progress;
    match read_logs(rt, &mut progress, logs_of(&command)) {
        Ok(logs) => Ending::Ran(run_over_reader(
            rt,
            threads,
            command,
            &logs,
            progress,
            rt.reader(),
        )),
        Err(ending) => ending,
    }
}

/// Runs a command over the file that its words name, or else over standard input.
fn run_command<T: Threads + Wait + Sync>(rt: &HostRuntime, threads: &T, wish: Wish) -> Ending
    requires { IsForOneToMost wish.command }
{
    let progress = Progress::new(rt, wish.shows_progress);
    let Some(name) = file_of(&wish.command) else {
        return run_over_input(rt, threads, wish.command, progress);
    };
    match open_file(rt, name) {
        Ok(file) => ran_over_file(run_over_reader(rt, threads, wish.command, &[], progress, file)),
        Err(ending) => ending,
    }
}

/// Runs the command that the words name.
fn run<T: Threads + Wait + Sync>(rt: &HostRuntime, threads: &T, words: &[String]) -> Ending {
    match parse_line(rt.alloc(), words) {
        Ok(wish) => run_command(rt, threads, wish),
        Err(fault) => Ending::NoCommand(fault),
    }
}

fn main(rt: HostRuntime) -> ExitCode {
    let ending = match read_words(&rt) {
        Ok(words) => run(&rt, &rt, words.as_slice()),
        Err(fault) => Ending::NoCommand(fault),
    };
    let _ = eprint!(rt; "{}", message(&ending));
    ExitCode::from(exit_status(&ending))
}
