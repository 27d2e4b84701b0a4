//! Logs that are read from binary log files.
ghost use Rattle.std.specs.Prelude.{◌≡◌, map, option_map};
ghost use Rattle.binlog_bundle.specs.Files.{files_of, files};

use crate::fault::{Logless, SourceFault};
use crate::logs::{Logs, ReadChannel};
use binlog_files::{GivenSets, read_files};
use gtid_set::GtidSet;
use std::alloc::Global;

/// The binary log files of a channel.
#[derive(Drop)]
pub struct ChannelFiles {
    /// The name of the channel.
    pub name: Vec<u8>,
    /// The bytes of each file, in the order in which the server wrote them.
    pub files: Vec<Vec<u8>>,
}

/// The log of a channel is in the files whose name it is, those of the first if there are several, and nothing is behind its line.
#[derive(Drop)]
pub struct FileLogs<'a> {
    pub channels: &'a [ChannelFiles],
    /// The GTIDs for whose statements an operator answers.
    pub accepted: &'a GtidSet,
}

/// The files of the first channel of this name.
fn files_of<'a>(channels: &'a [ChannelFiles], name: &[u8]) -> Option<&'a [Vec<u8>]>
    ensures { option_map (λ files. map (λ bytes. bytes.items) files.now) result ≡ files_of name.now channels.now }
{
    for channel in channels {
        if channel.name.as_slice() == name {
            return Some(channel.files.as_slice());
        }
    }
    None
}

impl<'a> Logs for FileLogs<'a> {
    ghost origin = { λ logs. files logs.accepted.now logs.channels.now };

    fn accepted(&self) -> &GtidSet {
        self.accepted
    }

    fn read(
        &self,
        alloc: Global,
        name: &[u8],
        opening: &GtidSet,
        text: &[u8],
    ) -> Result<ReadChannel, SourceFault> {
        if !text.is_empty() {
            return Err(SourceFault::Logless(Logless::Surplus));
        }
        let Some(files) = files_of(self.channels, name) else {
            return Err(SourceFault::Logless(Logless::Missing));
        };
        let given = GivenSets {
            opening,
            accepted: self.accepted,
        };
        match read_files(alloc, given, files) {
            Ok(read) => Ok(ReadChannel {
                log: read.log,
                is_unchecked: read.is_unchecked,
            }),
            Err(fault) => Err(SourceFault::File(fault)),
        }
    }
}
