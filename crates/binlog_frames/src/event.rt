//! An event.

/// An event of a file, without its length, its end's offset and its checksum, which follow from these and its place.
#[derive(Drop)]
pub struct LoggedEvent<'a> {
    /// In seconds since 1970.
    pub time: u32,
    /// The number of its type, as MySQL counts them.
    pub kind: u8,
    /// The id of the server that wrote it.
    pub server: u32,
    pub flags: u16,
    /// What is between the header and the checksum.
    pub body: &'a [u8],
}
