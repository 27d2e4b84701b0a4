//! The words of `audit`.

use crate::help::AUDIT_EXAMPLE;
use crate::line::{flag, ordered_flag, progress_flag, with_flag};
use clap::{Arg, ArgAction, ArgMatches};
use std::alloc::{AllocError, Global};

/// What an audit prints beside its verdict.
#[derive(Clone, Copy, Debug, PartialEq, Eq, Drop)]
pub enum Listing {
    /// The verdict alone.
    Verdict,
    /// All faults of all kinds.
    All,
    /// How many keys two sources share in a table, and the first of them.
    Summary,
    /// On standard error the places in the input of what the verdict names.
    Explained,
}

fn all_flag<'a>(alloc: Global) -> Arg<'a> {
    Arg::new(alloc, "all")
        .long("all")
        .action(ArgAction::SetTrue)
        .help(
            "lists behind the verdict every other unequal GTID, purged journal, run of missing GTIDs, shared key, GTID that is not closed and source that does not apply",
        )
}

fn summary_flag<'a>(alloc: Global) -> Result<Arg<'a>, AllocError> {
    flag(
        alloc,
        "summary",
        "counts behind the verdict the shared keys of each pair of sources and table, and names the first",
    )
    .conflicts_with("all")?
    .conflicts_with("explain")
}

fn explain_flag<'a>(alloc: Global) -> Result<Arg<'a>, AllocError> {
    Arg::new(alloc, "explain")
        .long("explain")
        .action(ArgAction::SetTrue)
        .help("shows on standard error where the input has what the verdict names")
        .conflicts_with("all")
}

/// The flag that asks for one order: what is listed goes by sources.
fn unlisted_flag<'a>(alloc: Global) -> Result<Arg<'a>, AllocError> {
    ordered_flag(alloc)
        .conflicts_with("all")?
        .conflicts_with("summary")
}

/// The command `audit`, with its words.
pub(crate) fn audit_command<'a>(alloc: Global) -> Result<clap::Command<'a>, AllocError> {
    let command = clap::Command::new(alloc, "audit")
        .about("Says whether the journals of a bundle can be merged: audit < examples/ring.bundle")
        .after_help(AUDIT_EXAMPLE)
        .arg(all_flag(alloc))?
        .arg(progress_flag(alloc))?;
    let command = with_flag(command, explain_flag(alloc))?;
    let command = with_flag(command, summary_flag(alloc))?;
    with_flag(command, unlisted_flag(alloc))
}

/// What is listed beside the verdict.
pub(crate) fn listing_of(matches: &ArgMatches) -> Listing {
    if matches.get_flag("explain") {
        return Listing::Explained;
    }
    if matches.get_flag("summary") {
        return Listing::Summary;
    }
    if matches.get_flag("all") {
        Listing::All
    } else {
        Listing::Verdict
    }
}
