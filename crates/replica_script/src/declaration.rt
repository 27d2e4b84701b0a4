//! Declarations: tables, rows, and the replica or the network that has them.
ghost use Rattle.std.specs.Prelude.{◌≡◌, false, not, Some, IfOk, IfErr, option_map};
ghost use Rattle.gtid_set.specs.Laws.{HaveNumbers};
ghost use Rattle.row_images.specs.Images.{words_of};
ghost use Rattle.network.specs.Nodes.{ids_distinct, new_nodes};
ghost use Rattle.replica_script.specs.Declarations.{sources_of, executed_of, IsStopOfIds};
ghost use Rattle.replica_script.specs.declared.answer.Stop.{Stop};
ghost use Rattle.replica_script.specs.declared.answer.Stop.TheVariants.{Memory};

use crate::answer::Stop;
use crate::preamble::bundle_preamble;
use crate::transaction::stop_of;
use gtid_set::{GtidSet, SetFault};
use gtid_text::SourceId;
use journal_words::{set_word, source_word};
use network::Network;
use replica_core::Core;
use row_images::cut;
use std::alloc::{AllocError, Global};
use std::collections::BTreeSet;
use txn_journal::{Bundle, BundleReader, Version};

fn feed_bundle(alloc: Global, bundle: &mut BundleReader, line: &[u8]) -> Result<(), Stop> {
    if let Err(fault) = bundle.feed(alloc, line) {
        return Err(stop_of(fault));
    }
    match bundle.feed(alloc, b"\n") {
        Ok(()) => Ok(()),
        Err(fault) => Err(stop_of(fault)),
    }
}

/// The tables, references and rows that are declared.
#[derive(Drop)]
pub struct Declared {
    /// A bundle, as far as its lines have come.
    bundle: BundleReader,
    /// Whether the lines before its first table have come.
    is_begun: bool,
}

impl Declared {
    /// Before the first line.
    pub fn start(alloc: Global) -> Declared
        ensures { result.is_begun ≡ false }
    {
        Declared {
            bundle: BundleReader::start(alloc),
            is_begun: false,
        }
    }

    /// Whether no line has come.
    pub fn is_empty(&self) -> bool
        ensures { result ≡ not self.now.is_begun }
    {
        !self.is_begun
    }

    /// Takes the lines before the first table. They are of the language, so that an allocation alone can fail.
    fn begin(&mut self, alloc: Global, version: Version) -> Result<(), Stop>
        ensures { IfErr result (λ stop. stop ≡ Memory) }
    {
        match feed_bundle(alloc, &mut self.bundle, bundle_preamble(version).as_bytes()) {
            Ok(()) => {
                self.is_begun = true;
                Ok(())
            }
            Err(_) => Err(Stop::Memory),
        }
    }

    /// Takes the next line, of a bundle of this version.
    pub fn take_line(&mut self, alloc: Global, version: Version, line: &[u8]) -> Result<(), Stop> {
        if !self.is_begun {
            self.begin(alloc, version)?;
        }
        feed_bundle(alloc, &mut self.bundle, line)
    }

    /// The bundle, whose last line has come.
    pub fn finish(self) -> Result<Bundle, Stop> {
        match self.bundle.finish() {
            Ok(bundle) => Ok(bundle),
            Err(fault) => Err(stop_of(fault)),
        }
    }
}

/// The executed set of a replica that is declared: empty if no word denotes it. Its numbers are 1 to 2^63 - 1.
#[tactic(auto, using(journal::proofs::EntryLemmas::no_numbers))]
pub fn executed_word(alloc: Global, word: Option<&[u8]>) -> Result<GtidSet, Stop>
    ensures numbers { IfOk result HaveNumbers }
    ensures denotes { IfOk result (λ executed. executed_of (option_map (λ w. w.now) word.entry) ≡ Some executed) }
{
    let Some(word) = word else {
        return Ok(GtidSet::empty(alloc));
    };
    match set_word(alloc, word) {
        Ok(Some(executed)) => Ok(executed),
        Err(SetFault::Memory) => Err(Stop::Memory),
        Ok(None) | Err(_) => Err(Stop::BadLine),
    }
}

/// The UUIDs that the words of a text are, if each word is one.
pub fn source_words(alloc: Global, text: &[u8]) -> Result<Option<Vec<SourceId>>, AllocError>
    ensures { IfOk result (λ found. option_map (λ v. v.items) found ≡ sources_of (words_of text.now)) }
{
    let mut ids = Vec::new(alloc);
    let mut left = text;
    'words: loop {
        let (word, more) = cut(left);
        match source_word(alloc, word)? {
            Some(own) => ids.push(own)?,
            None => return Ok(None),
        }
        match more {
            Some(after) => left = after,
            None => return Ok(Some(ids)),
        }
    }
}

/// A replica on the rows of a bundle.
pub fn core_on(
    alloc: Global,
    bundle: &Bundle,
    own: SourceId,
    executed: GtidSet,
) -> Result<Core, Stop>
    requires { HaveNumbers executed }
{
    match Core::open_snapshot(alloc, own, bundle.rows().copy()?, executed) {
        Ok(core) => Ok(core),
        Err(_) => Err(Stop::Memory),
    }
}

/// Whether no UUID occurs twice: each is new, and not one that came earlier.
fn are_distinct(alloc: Global, ids: &[SourceId]) -> Result<bool, AllocError>
    ensures { IfOk result (λ are. are ≡ ids_distinct ids.now) }
{
    let mut seen = BTreeSet::new(alloc);
    let mut left = ids;
    while let Some((own, more)) = left.split_first() {
        if !seen.insert(*own)? {
            return Ok(false);
        }
        left = more;
    }
    Ok(true)
}

/// A network on the rows of a bundle. If a UUID occurs twice, it is a bad line.
pub fn network_on(alloc: Global, bundle: &Bundle, ids: &[SourceId]) -> Result<Network, Stop>
    ensures opened { IfOk result (λ n. n ≡ new_nodes ids.now bundle.now.start.schema bundle.now.start.rows) }
    ensures stop { IfErr result (IsStopOfIds ids.now) }
{
    if !are_distinct(alloc, ids)? {
        return Err(Stop::BadLine);
    }
    match Network::open(alloc, ids, bundle.rows()) {
        Ok(network) => Ok(network),
        Err(_) => Err(Stop::Memory),
    }
}
