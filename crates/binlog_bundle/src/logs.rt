//! Where the logs of channels come from.
ghost use Rattle.std.specs.Prelude.{◌≡◌, IfOk, IfErr};
ghost use Rattle.binlog_bundle.specs.Logs.{Origin, texts};

use crate::fault::SourceFault;
use binlog_entries::{LoggedTransactions, read_log};
use gtid_set::GtidSet;
use std::alloc::Global;

/// The log of a channel.
#[derive(Drop)]
pub struct ReadChannel {
    pub log: LoggedTransactions,
    /// Whether damage in it couldn't be seen.
    pub is_unchecked: bool,
}

/// Where the logs of channels come from.
pub trait Logs {
    /// Which log a channel has, by its name and the text behind its line, or why it has none.
    ghost origin: { Self → Origin };

    /// The GTIDs for whose statements an operator answers.
    fn accepted(&self) -> &GtidSet
        ensures { result.now ≡ (origin self.now).accepted };

    /// The log of the channel of this name, with this text behind its line. What comes before the log is in the opening set.
    fn read(
        &self,
        alloc: Global,
        name: &[u8],
        opening: &GtidSet,
        text: &[u8],
    ) -> Result<ReadChannel, SourceFault>
        ensures found { IfOk result (λ r.
            (origin self.now).is_log name.now text.now opening.now r.log.previous r.log.entries.items r.log.varied.items) }
        ensures unchecked { IfOk result (λ r. r.is_unchecked ≡ (origin self.now).is_unchecked name.now) }
        ensures refused { IfErr result ((origin self.now).refuses name.now text.now opening.now) };
}

/// The text behind the line of a channel is that of its log, as mysqlbinlog prints it.
#[derive(Drop)]
pub struct TextLogs<'a> {
    /// The GTIDs for whose statements an operator answers. In a text they are refused all the same: only the bundle's assumptions go by the set.
    pub accepted: &'a GtidSet,
}

impl<'a> Logs for TextLogs<'a> {
    ghost origin = { λ logs. texts logs.accepted.now };

    fn accepted(&self) -> &GtidSet {
        self.accepted
    }

    fn read(
        &self,
        alloc: Global,
        _name: &[u8],
        opening: &GtidSet,
        text: &[u8],
    ) -> Result<ReadChannel, SourceFault> {
        match read_log(alloc, opening, text) {
            Ok(log) => Ok(ReadChannel {
                log,
                is_unchecked: false,
            }),
            Err(fault) => Err(SourceFault::Text(fault)),
        }
    }
}
