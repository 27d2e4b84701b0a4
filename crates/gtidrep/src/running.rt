//! Which call of crate `commands` each command is.
ghost use Rattle.std.specs.Prelude.{◌≡◌, [], IfOk, IfErr};
ghost use Rattle.gtidrep.specs.Line.{IsForOneToMost};
ghost use Rattle.gtidrep.specs.Running.{doing_of, HasRun, HasNotRun};

use crate::audit_line::Listing;
use crate::line::Command;
use binlog_bundle::ChannelFiles;
use commands::{
    Outcome, RunFault, Sink, Source, Streams, apply_and_tell, apply_bundle, run_audit, run_events,
    run_explain, run_import, run_import_files, run_list, run_position, run_set, run_states,
    run_summary, run_upgrade, run_version,
};
use serving::Order;
use std::alloc::Global;
use std::sync::Wait;
use std::thread::Threads;

/// Audits over these streams, and lists or explains what is asked for.
fn run_listing<S: Source, W: Sink, E: Sink>(
    alloc: Global,
    order: Order,
    listing: Listing,
    streams: &mut Streams<S, W>,
    errors: &mut E,
) -> Result<Outcome, RunFault>
    ensures done { IfOk result (HasRun E.written E.failed errors.old errors.new streams.old streams.new (doing_of [] (Command.Audit order listing))) }
    ensures failed { IfErr result (HasNotRun E.written E.failed errors.old errors.new streams.old streams.new (doing_of [] (Command.Audit order listing))) }
{
    match listing {
        Listing::Verdict => run_audit(alloc, order, streams),
        Listing::All => run_list(alloc, streams),
        Listing::Summary => run_summary(alloc, streams),
        Listing::Explained => run_explain(alloc, order, streams, errors),
    }
}

/// Runs a command over these streams, and these files of channels. What a command notes beside its answer goes to `errors`.
pub fn run_over<T: Threads + Wait + Sync, S: Source + Send, W: Sink, E: Sink>(
    threads: &T,
    alloc: Global,
    command: Command,
    logs: &[ChannelFiles],
    streams: &mut Streams<S, W>,
    errors: &mut E,
) -> Result<Outcome, RunFault>
    requires { IsForOneToMost command }
    ensures done { IfOk result
        (HasRun E.written E.failed errors.old errors.new streams.old streams.new (doing_of logs.now command.entry)) }
    ensures failed { IfErr result
        (HasNotRun E.written E.failed errors.old errors.new streams.old streams.new (doing_of logs.now command.entry)) }
{
    match command {
        Command::Set {
            function,
            first,
            second,
        } => run_set(alloc, function, first, second, streams),
        Command::Position { own, ask } => run_position(alloc, own, ask, streams),
        Command::Audit { order, listing } => run_listing(alloc, order, listing, streams, errors),
        Command::Upgrade { target } => run_upgrade(alloc, target, streams),
        Command::States => run_states(alloc, streams),
        Command::Import {
            grants,
            accepted,
            is_explained,
        } => run_import(alloc, grants, &accepted, is_explained, streams, errors),
        Command::ImportFiles {
            grants,
            accepted,
            is_explained,
            files: _files,
        } => run_import_files(
            alloc,
            grants,
            &accepted,
            is_explained,
            logs,
            streams,
            errors,
        ),
        Command::Events { file: _, detail } => run_events(alloc, detail, streams),
        Command::Version => run_version(alloc, streams),
        Command::Apply {
            way,
            order,
            workers,
        } => apply_bundle(threads, alloc, way, order, workers, streams),
        Command::Tell { order, workers } => {
            apply_and_tell(threads, alloc, order, workers, streams, errors)
        }
    }
}
