//! The command `upgrade`.
ghost use Rattle.std.specs.Prelude.{◌≡◌, IfOk, IfErr};
ghost use Rattle.commands.specs.Printed.{to_all, Holds, IsDone, HasFailed};
ghost use Rattle.commands.specs.Bundles.{Upgrades, text_answer};
ghost use Rattle.txn_journal.specs.declared.lines.Version.TheVariants.{Two, Three};

use crate::answer::Answer;
use crate::edge::{Outcome, RunFault, Sink, Source};
use crate::pieces::Text;
use crate::request::{Request, run};
use crate::streams::Streams;
use crate::text::{EarlierBundle, FirstBundle};
use gtid_report::Fault;
use std::alloc::{AllocError, Global};
use txn_journal::{Bundle, Version, bundle_text};

/// The version by which a bundle of a version below is written.
#[derive(Clone, Copy, Debug, PartialEq, Eq)]
pub enum Target {
    Two,
    Three,
}

/// The text of a bundle by a version.
fn written(alloc: Global, version: Version, bundle: &Bundle) -> Result<Answer, AllocError>
    ensures { IfOk result (λ answer. Holds answer (text_answer version bundle.now)) }
{
    Ok(Answer {
        outcome: Outcome::Done,
        text: Text::of(alloc, bundle_text(alloc, version, bundle)?),
    })
}

/// The request to write a bundle of version 1 by version 2.
struct ToVersionTwo;

impl Request for ToVersionTwo {
    type Value = FirstBundle;

    ghost answers = { λ _ b. text_answer Two b };

    fn answer(&self, alloc: Global, old: &FirstBundle) -> Result<Answer, Fault> {
        Ok(written(alloc, Version::Two, &old.bundle)?)
    }
}

/// The request to write a bundle of version 1 or 2 by version 3.
struct ToVersionThree;

impl Request for ToVersionThree {
    type Value = EarlierBundle;

    ghost answers = { λ _ b. text_answer Three b };

    fn answer(&self, alloc: Global, old: &EarlierBundle) -> Result<Answer, Fault> {
        Ok(written(alloc, Version::Three, &old.bundle)?)
    }
}

/// Reads a bundle of a version below the one that is asked for, and writes its text by that one, or the line of its refusal, and nothing
/// else. Its rows come in the order of `apply`, and each entry has its last_committed and its sequence number.
pub fn run_upgrade<S: Source, W: Sink>(
    alloc: Global,
    target: Target,
    streams: &mut Streams<S, W>,
) -> Result<Outcome, RunFault>
    ensures done { IfOk result (IsDone (to_all (Upgrades target)) streams.old streams.new) }
    ensures failed { IfErr result (HasFailed (to_all (Upgrades target)) streams.old streams.new) }
{
    match target {
        Target::Two => run(alloc, &ToVersionTwo, streams),
        Target::Three => run(alloc, &ToVersionThree, streams),
    }
}
