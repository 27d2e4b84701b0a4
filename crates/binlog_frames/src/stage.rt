//! What is known of a file.

/// What comes next.
#[derive(Clone, Copy, Drop)]
pub enum FileStage {
    /// The file's four bytes, and a FORMAT_DESCRIPTION.
    First,
    /// Further events, with checksums or without.
    Later(bool),
}
