//! Files that words of the command line name.

use crate::ending::{Ending, ran_over_file};
use crate::import_line::LogWord;
use crate::progress::{Progress, ToldSource};
use binlog_bundle::ChannelFiles;
use commands::{RunFault, StdSource, read_all};
use std::alloc::{AllocError, Global};
use std::fs::File;
use std::io::ErrorKind;

/// The file of this name, or how the program ends without it: what opens a file may be refused memory.
pub(crate) fn open_file(rt: &HostRuntime, name: &str) -> Result<File, Ending> {
    match File::open(rt, name) {
        Ok(file) => Ok(file),
        Err(error) if error.kind() == ErrorKind::OutOfMemory => {
            Err(Ending::Ran(Err(RunFault::Memory)))
        }
        Err(_) => Err(Ending::FileUnread),
    }
}

/// All bytes of the file of this name, or how the program ends without them. Its progress is told.
fn read_log(rt: &HostRuntime, progress: &mut Progress<'_>, name: &str) -> Result<Vec<u8>, Ending> {
    let file = match open_file(rt, name) {
        Ok(file) => file,
        Err(ending) => return Err(ending),
    };
    let mut source = ToldSource {
        source: StdSource::new(file),
        progress: *progress,
    };
    let read = read_all(rt.alloc(), &mut source);
    *progress = source.progress;
    match read {
        Ok(bytes) => Ok(bytes),
        Err(fault) => Err(ran_over_file(Err(fault))),
    }
}

/// A channel with its first file.
fn channel_of(alloc: Global, channel: &str, file: Vec<u8>) -> Result<ChannelFiles, AllocError> {
    let name = Vec::from_slice(alloc, channel.as_bytes())?;
    let mut files = Vec::new(alloc);
    files.push(file)?;
    Ok(ChannelFiles { name, files })
}

/// Adds a file to those of its channel.
fn add_file(
    alloc: Global,
    logs: &mut Vec<ChannelFiles>,
    channel: &str,
    file: Vec<u8>,
) -> Result<(), AllocError> {
    for log in logs.iter_mut() {
        if log.name.as_slice() == channel.as_bytes() {
            log.files.push(file)?;
            return Ok(());
        }
    }
    logs.push(channel_of(alloc, channel, file)?)?;
    Ok(())
}

/// The files that words name, by their channels, or how the program ends without them. Its progress is told.
pub(crate) fn read_logs(
    rt: &HostRuntime,
    progress: &mut Progress<'_>,
    words: &[LogWord<'_>],
) -> Result<Vec<ChannelFiles>, Ending> {
    let mut logs = Vec::new(rt.alloc());
    for word in words {
        let file = match read_log(rt, progress, word.file) {
            Ok(file) => file,
            Err(ending) => return Err(ending),
        };
        let Ok(()) = add_file(rt.alloc(), &mut logs, word.channel, file) else {
            return Err(Ending::Ran(Err(RunFault::Memory)));
        };
    }
    Ok(logs)
}
