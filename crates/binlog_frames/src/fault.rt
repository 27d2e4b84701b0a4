//! What is wrong with a file.

/// What is wrong.
#[derive(Clone, Copy, Debug, PartialEq, Eq, Drop)]
pub enum FaultKind {
    /// The file doesn't begin as a binary log.
    Magic,
    /// The file begins as a binary log that is encrypted.
    Encrypted,
    /// The first event is no FORMAT_DESCRIPTION of this form, or a later one is a FORMAT_DESCRIPTION.
    Description,
    /// An event's length is less than its header and checksum take.
    Length,
    /// An event doesn't end where it says.
    Position,
    /// An event's checksum is not that of its bytes.
    Checksum,
    /// The file ends within an event.
    Truncated,
}

/// What is wrong, and where the event begins that has it.
#[derive(Clone, Copy, Debug, PartialEq, Eq, Drop)]
pub struct FrameFault {
    pub kind: FaultKind,
    /// In bytes from the beginning of the file, as a number of 64 bits.
    pub offset: u64,
}
