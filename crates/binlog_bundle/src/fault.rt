//! Why a bundle of logs is not read.
ghost use Rattle.std.specs.Prelude.{◌≡◌};
ghost use Rattle.binlog_bundle.specs.Refused.{fault_at_line, channel_fault_at};

use binlog_entries::{ImportFault, ReadFault};
use binlog_files::FiledFault;
use gtid_set::GtidSet;
use gtid_text::Gtid;
use rows::Name;
use txn_journal::JournalFault;

/// Why a channel has no log with hidden columns, whatever its text or its files are.
#[derive(Drop)]
pub enum Logless {
    /// There are no files of a channel of this name.
    Missing,
    /// There is text, though logs are read from files.
    Surplus,
    /// The log says that the server compares this column of this table, counted from 0, otherwise than the head says.
    Collation(Name, u32),
    /// In the entry of this GTID a value of this column of this table has no hidden value, as bytes that are no text of its character set, or is
    /// missing.
    Weights(Gtid, Name, u32),
}

/// Why a channel has no log.
#[derive(Drop)]
pub enum SourceFault {
    /// The text behind its line, which is that of its log, isn't read.
    Text(ReadFault),
    /// There are no files, or there is text.
    Logless(Logless),
    /// One of its files isn't read.
    File(FiledFault),
}

/// Why a bundle of logs is not read. Lines count from 1 over the whole text.
#[derive(Drop)]
pub enum BundleFault {
    /// A line of the bundle's own is faulty, or the text ends before its last line; or out of memory, or a set is full.
    Own(JournalFault),
    /// The log of the channel at this line is not imported. Where it is the text behind that line, its own lines count from the next one.
    Log { line: u64, fault: ImportFault },
    /// A line of the log after the line of a channel maps a table that the bundle has not; it counts from the next one.
    Table { line: u64, at: u64 },
    /// The bundle's tables or the limits of its format do not allow what the log after the line of a channel describes. The fault names
    /// that line.
    Journal(JournalFault),
    /// A line `unsupported ..` of the head isn't granted: what follows that word in the first such line.
    Unsupported(Vec<u8>),
    /// The line of a channel doesn't say what its server had executed.
    Unknown { line: u64 },
    /// There is no log of the channel at this line.
    Logless { line: u64, why: Logless },
    /// One of the files of the channel of this name isn't read.
    Binlog { channel: Vec<u8>, fault: FiledFault },
    /// The server of the channel had executed more than its log describes: the missing GTIDs are in neither the opening set, nor the set
    /// that was executed before the log, nor its entries. Of such channels it is the first.
    Executed { channel: Name, missing: GtidSet },
}

/// The same fault at another line.
pub fn fault_at_line(fault: JournalFault, line: u64) -> JournalFault
    ensures { result ≡ fault_at_line fault line }
{
    match fault {
        JournalFault::Set(fault) => JournalFault::Set(fault),
        JournalFault::Line { line: _, cause } => JournalFault::Line { line, cause },
        JournalFault::Truncated { line: _ } => JournalFault::Truncated { line },
    }
}

/// Why a channel is not read, without its line.
#[derive(Drop)]
pub enum ChannelFault {
    Own(JournalFault),
    Unknown,
    Log(ImportFault),
    Table(u64),
    Journal(JournalFault),
    Logless(Logless),
    /// The channel's name, and what is wrong with its files.
    Binlog(Vec<u8>, FiledFault),
}

impl ChannelFault {
    /// The fault of a bundle whose channel is at this line.
    pub fn at(self, line: u64) -> BundleFault
        ensures { result ≡ channel_fault_at self line }
    {
        match self {
            ChannelFault::Own(fault) => BundleFault::Own(fault_at_line(fault, line)),
            ChannelFault::Unknown => BundleFault::Unknown { line },
            ChannelFault::Log(fault) => BundleFault::Log { line, fault },
            ChannelFault::Table(at) => BundleFault::Table { line, at },
            ChannelFault::Journal(fault) => BundleFault::Journal(fault_at_line(fault, line)),
            ChannelFault::Logless(why) => BundleFault::Logless { line, why },
            ChannelFault::Binlog(channel, fault) => BundleFault::Binlog { channel, fault },
        }
    }
}
