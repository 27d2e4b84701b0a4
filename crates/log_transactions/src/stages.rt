//! Where a log stands: in a transaction, and in its files.
ghost use Rattle.std.specs.Prelude.{◌≡◌};
ghost use Rattle.log_transactions.specs.Files.{next_file};

/// How much of a transaction has come.
#[derive(Clone, Copy, Debug, PartialEq, Eq)]
pub enum TransactionStage {
    /// None is open.
    Idle,
    /// Its GTID has come.
    Named,
    /// It has begun.
    Begun,
}

/// The file whose previous set is read.
#[derive(Clone, Copy, Debug, PartialEq, Eq)]
pub enum FileOrder {
    /// No previous set has come.
    Unread,
    First,
    /// One after a file whose set or GTIDs have come.
    Later,
}

impl FileOrder {
    /// The file whose previous set comes next.
    pub fn next(self) -> FileOrder
        ensures { result ≡ next_file self }
    {
        match self {
            FileOrder::Unread => FileOrder::First,
            FileOrder::First | FileOrder::Later => FileOrder::Later,
        }
    }
}
