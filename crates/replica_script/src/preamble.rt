//! What comes before the lines of a script in the texts as a part of which they are read.
ghost use Rattle.std.specs.Prelude.{◌≡◌, ◌++◌, codes};
ghost use Rattle.replica_script.specs.Preambles.{bundle_preamble, first_numbers, journal_preamble};

use txn_journal::Version;

/// The lines of a bundle before its tables, without the last line feed. The UUID is a placeholder: the script declares it later.
pub fn bundle_preamble(version: Version) -> &'static str
    ensures { result.now ++ codes "\n" ≡ bundle_preamble version }
{
    match version {
        Version::One => "bundle 1\nreplica 00000000-0000-0000-0000-000000000000",
        Version::Two => "bundle 2\nreplica 00000000-0000-0000-0000-000000000000\nopening -",
        Version::Three => "bundle 3\nreplica 00000000-0000-0000-0000-000000000000\nopening -",
    }
}

/// The lines of a journal before its entries, without the last line feed.
pub fn journal_preamble(version: Version) -> &'static str
    ensures { result.now ++ codes "\n" ≡ journal_preamble version }
{
    match version {
        Version::One => "journal 1\nprevious -",
        Version::Two => "journal 2\nprevious -",
        Version::Three => "journal 3\nprevious -",
    }
}

/// What is behind the GTID of the first entry of a journal.
pub fn first_numbers(version: Version) -> &'static str
    ensures { result.now ≡ first_numbers version }
{
    match version {
        Version::One => "",
        Version::Two => " 0 1",
        Version::Three => " 0 1",
    }
}
