//! What an operator grants.

/// What an operator grants. Of what a verdict then doesn't see, the bundle's assumptions speak, and of keys the notes (`ImportedBundle`).
#[derive(Clone, Copy, Debug, PartialEq, Eq)]
pub struct Grants {
    /// Keys that the server compares otherwise than by their bytes are taken.
    pub bytes: bool,
    /// Lines `unsupported foreign-key ..` of the head are passed over.
    pub without_foreign_keys: bool,
    /// The line of a channel needn't say what its server had executed.
    pub executed_unknown: bool,
    /// The opening rows aren't known, and the head has none.
    pub no_rows: bool,
}
