//! Transactions, whose change lines follow their first line.

use crate::answer::Stop;
use crate::preamble::{first_numbers, journal_preamble};
use crate::question::{Asked, Question, asked_of, number};
use gtid_set::SetFault;
use journal::Entry;
use replica_core::Event;
use row_images::cut;
use std::alloc::Global;
use txn_journal::{JournalFault, Reader, Version};

/// What a fault of a reader means: its text is made of the script's lines.
pub fn stop_of(fault: JournalFault) -> Stop {
    match fault {
        JournalFault::Set(SetFault::Memory) => Stop::Memory,
        _ => Stop::BadLine,
    }
}

fn feed_reader(alloc: Global, reader: &mut Reader, line: &[u8]) -> Result<(), Stop> {
    if let Err(fault) = reader.feed(alloc, line) {
        return Err(stop_of(fault));
    }
    match reader.feed(alloc, b"\n") {
        Ok(()) => Ok(()),
        Err(fault) => Err(stop_of(fault)),
    }
}

/// Takes the lines of a journal before the change lines of its one entry.
fn begin_entry(
    alloc: Global,
    version: Version,
    reader: &mut Reader,
    gtid: &[u8],
) -> Result<(), Stop> {
    feed_reader(alloc, reader, journal_preamble(version).as_bytes())?;
    let mut line = Vec::from_slice(alloc, b"txn ")?;
    line.extend_from_slice(gtid)?;
    line.extend_from_slice(first_numbers(version).as_bytes())?;
    feed_reader(alloc, reader, &line)
}

/// A line that begins a transaction.
#[derive(Drop)]
pub struct Heading<'a> {
    /// The channel that receives it; none for one of the replica's own.
    channel: Option<usize>,
    /// The text of its GTID.
    gtid: &'a [u8],
}

/// The receiving of a transaction, from what comes after its first word.
fn receive_heading(rest: &[u8]) -> Option<Heading<'_>> {
    let (word, gtid) = cut(rest);
    Some(Heading {
        channel: Some(number(word)?),
        gtid: gtid?,
    })
}

/// A line as the beginning of a transaction, if it is one. The GTID of one of the replica's own is a placeholder: the replica assigns it.
pub fn heading_in(line: &[u8]) -> Result<Option<Heading<'_>>, Stop> {
    if line == b"local".as_slice() {
        return Ok(Some(Heading {
            channel: None,
            gtid: b"00000000-0000-0000-0000-000000000000:1",
        }));
    }
    let (word, rest) = cut(line);
    if word != b"receive".as_slice() {
        return Ok(None);
    }
    let Some(rest) = rest else {
        return Err(Stop::BadLine);
    };
    match receive_heading(rest) {
        Some(heading) => Ok(Some(heading)),
        None => Err(Stop::BadLine),
    }
}

/// The entry whose last line has come.
fn last_entry(alloc: Global, reader: &mut Reader) -> Result<Entry, Stop> {
    match reader.take_entries(alloc) {
        Ok(mut entries) => match entries.pop() {
            Some(entry) => Ok(entry),
            None => Err(Stop::BadLine),
        },
        Err(fault) => Err(stop_of(fault)),
    }
}

/// The event that receives an entry on a channel, or makes its transaction the replica's own.
fn event_with(channel: Option<usize>, entry: Entry) -> Event {
    match channel {
        Some(channel) => Event::Receive(channel, entry),
        None => Event::Local(entry.txn),
    }
}

/// A transaction whose change lines are due.
#[derive(Drop)]
pub struct Pending {
    /// The node whose replica is asked; none if the script has one replica.
    node: Option<usize>,
    /// The channel that receives it; none for one of the replica's own.
    channel: Option<usize>,
    /// A journal of this one entry, as far as its lines have come.
    reader: Reader,
}

impl Pending {
    /// Before the first change line, of a journal of this version.
    pub fn start(
        alloc: Global,
        version: Version,
        node: Option<usize>,
        heading: Heading<'_>,
    ) -> Result<Pending, Stop> {
        let mut reader = Reader::start(alloc);
        match begin_entry(alloc, version, &mut reader, heading.gtid) {
            Ok(()) => Ok(Pending {
                node,
                channel: heading.channel,
                reader,
            }),
            Err(stop) => Err(stop),
        }
    }

    /// Takes a line; returns what is asked, if that was the last line.
    pub fn take_line(&mut self, alloc: Global, line: &[u8]) -> Result<Option<Asked>, Stop> {
        feed_reader(alloc, &mut self.reader, line)?;
        if line != b"end".as_slice() {
            return Ok(None);
        }
        let entry = last_entry(alloc, &mut self.reader)?;
        let event = event_with(self.channel, entry);
        Ok(Some(asked_of(self.node, Question::Event(event))))
    }
}
