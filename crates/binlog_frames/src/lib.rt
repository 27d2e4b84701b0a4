//! The events of a binary log of MySQL, by the bytes of its file, which come in pieces: the file's four bytes, a FORMAT_DESCRIPTION, and
//! further events up to the end.
//!
//! What a contract sees: the grammar of files is `specs/Spelling`: `IsFile` gives the bytes of a file for its events, with the length, the
//! offset and the checksum that each has. A `FrameReader` is where one stands in a file (`Standing`). It is fed the bytes in any pieces,
//! and `front` gives the next event as soon as it is whole, or what is wrong with it and the offset at which it begins. A length or a
//! position that is wrong is told before the event's body has come, so it costs no memory.
//!
//! Reading and the grammar are one (`found_is_file`, `file_is_found`). Bytes are the file of one list of events at most (`one_reading`), and
//! have one first fault, behind the events that the grammar has there (`one_end`, `fault_place`). A fault is one whatever comes behind it,
//! except that a file may go on that ended within an event (`fault_stays`, `fault_is_no_file`). With checksums, an event in which up to 32
//! bits in a row are changed, those of its checksum too, is no event in its place (`damage_shows`).
//!
//! Not read: files of servers before 5.6.1, whose FORMAT_DESCRIPTION names no algorithm of checksums; encrypted files; relay logs, whose
//! events don't end where they say. What is in the bodies is for the crates above. Not proved: that these are the files of a server. That
//! is tested with a file of MySQL 9.7.
#![tactic(auto)]

mod event;
mod fault;
mod front;
mod laws;
mod reader;
mod stage;

pub use event::LoggedEvent;
pub use fault::{FaultKind, FrameFault};
pub use laws::{
    damage_shows, fault_is_no_file, fault_place, fault_stays, file_is_found, found_is_file,
    one_end, one_reading,
};
pub use reader::FrameReader;
pub use stage::FileStage;
