//! A script, line by line.
ghost use Rattle.std.specs.Prelude.{◌≡◌, None, Some, IfOk, IfErr, OnOk, [], is_some, not, codes};
ghost use Rattle.replica_script.specs.Declarations.{IsOpenedAs};
ghost use Rattle.replica_script.specs.Told.{BeginsThree, IsFresh, IsStart, IsStoppedBy, IsTaken, IsTold, is_passed_over, version_after, version_declared};
ghost use Rattle.txn_journal.specs.declared.lines.Version.TheVariants.{Three};

use crate::answer::{Asking, Stop};
use crate::declaration::{Declared, core_on, executed_word, network_on, source_words};
use crate::edge::Answerer;
use crate::question::{Asked, NetworkQuestion, asked_of, network_event_in, number, question_in};
use crate::replicas::{Replicas, answer_asked};
use crate::transaction::{Pending, heading_in};
use journal_words::source_word;
use network::Network;
use replica_core::Core;
use row_images::cut;
use std::alloc::Global;
use std::mem;
use txn_journal::{Bundle, Version};

/// Whether a line is passed over: an empty one, or a comment.
fn is_passed_over(line: &[u8]) -> bool
    ensures { result ≡ is_passed_over line.now }
{
    match line {
        [] => true,
        [first, ..] => *first == b'#',
    }
}

/// Whether a line is one of a table, a reference or a row, by its first word.
fn is_of_bundle(line: &[u8]) -> bool {
    let (word, _) = cut(line);
    word == b"table".as_slice() || word == b"fk".as_slice() || word == b"row".as_slice()
}

/// The replica that a line declares after its first word, with the tables and rows of a bundle.
fn core_in(alloc: Global, rest: &[u8], bundle: &Bundle) -> Result<Core, Stop> {
    let (source, set) = cut(rest);
    let Some(own) = source_word(alloc, source)? else {
        return Err(Stop::BadLine);
    };
    let executed = executed_word(alloc, set)?;
    core_on(alloc, bundle, own, executed)
}

/// The network that a line declares after its first word, with the tables and rows of a bundle.
fn network_in(alloc: Global, rest: &[u8], bundle: &Bundle) -> Result<Network, Stop>
    ensures { IfOk result (IsOpenedAs rest.now bundle.now.start) }
{
    match source_words(alloc, rest)? {
        Some(ids) => network_on(alloc, bundle, &ids),
        None => Err(Stop::BadLine),
    }
}

/// What a line declares after its first word, with the tables and rows of a bundle.
fn replicas_in(
    alloc: Global,
    is_network: bool,
    rest: &[u8],
    bundle: &Bundle,
) -> Result<Replicas, Stop> {
    if is_network {
        return match network_in(alloc, rest, bundle) {
            Ok(network) => Ok(Replicas::Network(network)),
            Err(stop) => Err(stop),
        };
    }
    match core_in(alloc, rest, bundle) {
        Ok(core) => Ok(Replicas::One(core)),
        Err(stop) => Err(stop),
    }
}

/// Puts a value in the place of another, which is dropped.
fn put<T: Drop>(place: &mut T, value: T)
    ensures { place.new ≡ value }
{
    *place = value;
}

/// How far a script is.
#[derive(Drop)]
struct Stage {
    /// How often a call is made that is refused memory.
    asking: Asking,
    /// The version of the formats by which tables, changes and names are read, and a journal is shown.
    version: Version,
    /// What is declared, until the replicas are.
    declared: Declared,
    /// The replica or the network, once it is declared.
    replicas: Option<Replicas>,
    /// The transaction whose change lines are due.
    pending: Option<Pending>,
}

impl Stage {
    /// Before the first line.
    fn start(alloc: Global, asking: Asking) -> Stage
        ensures { IsFresh asking result }
    {
        Stage {
            asking,
            version: Version::One,
            declared: Declared::start(alloc),
            replicas: None,
            pending: None,
        }
    }

    /// The bundle of the tables and rows that are declared.
    fn end_declared(&mut self, alloc: Global) -> Result<Bundle, Stop>
        ensures { self.new.version ≡ self.old.version }
    {
        self.declared.take_line(alloc, self.version, b"done")?;
        let declared = mem::replace(&mut self.declared, Declared::start(alloc));
        declared.finish()
    }

    /// Opens what a line declares, with the tables and rows that are declared.
    fn open(&mut self, alloc: Global, word: &[u8], rest: &[u8]) -> Result<Replicas, Stop>
        ensures { self.new.version ≡ self.old.version }
    {
        let is_network = word == b"network".as_slice();
        if !is_network && word != b"core".as_slice() {
            return Err(Stop::BadLine);
        }
        match self.end_declared(alloc) {
            Ok(bundle) => replicas_in(alloc, is_network, rest, &bundle),
            Err(stop) => Err(stop),
        }
    }

    /// Begins version 3. It is a bad line behind a table, a reference or a row, and where it has begun.
    fn begin_three(&mut self) -> Result<(), Stop>
        ensures { OnOk result (BeginsThree self.old self.new) }
    {
        match self.version {
            Version::One if self.declared.is_empty() => {
                self.version = Version::Three;
                Ok(())
            }
            _ => Err(Stop::BadLine),
        }
    }

    /// Declares one replica, or a network.
    fn declare_replicas(&mut self, alloc: Global, line: &[u8]) -> Result<(), Stop>
        ensures { self.new.version ≡ self.old.version }
    {
        let (word, rest) = cut(line);
        let Some(rest) = rest else {
            return Err(Stop::BadLine);
        };
        match self.open(alloc, word, rest) {
            Ok(replicas) => {
                put(&mut self.replicas, Some(replicas));
                Ok(())
            }
            Err(stop) => Err(stop),
        }
    }

    /// Takes a line of a declaration.
    fn declare(&mut self, alloc: Global, line: &[u8]) -> Result<(), Stop>
        ensures begun { line.now ≡ codes "version 3" → OnOk result (BeginsThree self.old self.new) }
        ensures version { OnOk result (self.new.version ≡ version_declared self.old.version line.now) }
    {
        if line == b"version 3".as_slice() {
            return self.begin_three();
        }
        if is_of_bundle(line) {
            return self.declared.take_line(alloc, self.version, line);
        }
        self.declare_replicas(alloc, line)
    }

    /// Asks the replica or the network.
    fn ask(&mut self, alloc: Global, asked: Asked) -> Result<Vec<u8>, Stop>
        ensures { self.new.version ≡ self.old.version }
    {
        match &mut self.replicas {
            Some(replicas) => answer_asked(alloc, replicas, asked, self.asking),
            None => Err(Stop::BadLine),
        }
    }

    /// Takes a line that asks the replica, or that of a node.
    fn take_question(
        &mut self,
        alloc: Global,
        node: Option<usize>,
        line: &[u8],
    ) -> Result<Vec<u8>, Stop>
        ensures { self.new.version ≡ self.old.version }
    {
        if let Some(heading) = heading_in(line)? {
            put(
                &mut self.pending,
                Some(Pending::start(alloc, self.version, node, heading)?),
            );
            return Ok(Vec::new(alloc));
        }
        match question_in(alloc, self.version, line)? {
            Some(question) => self.ask(alloc, asked_of(node, question)),
            None => Err(Stop::BadLine),
        }
    }

    /// Takes a line that asks the replica of a node, from what comes after its first word.
    fn take_at_node(&mut self, alloc: Global, rest: &[u8]) -> Result<Vec<u8>, Stop>
        ensures { self.new.version ≡ self.old.version }
    {
        let (word, line) = cut(rest);
        let Some(line) = line else {
            return Err(Stop::BadLine);
        };
        match number(word) {
            Some(node) => self.take_question(alloc, Some(node), line),
            None => Err(Stop::BadLine),
        }
    }

    /// Takes a line that asks a network.
    fn take_network_question(&mut self, alloc: Global, line: &[u8]) -> Result<Vec<u8>, Stop>
        ensures { self.new.version ≡ self.old.version }
    {
        let (word, rest) = cut(line);
        let Some(rest) = rest else {
            return Err(Stop::BadLine);
        };
        if word == b"at".as_slice() {
            return self.take_at_node(alloc, rest);
        }
        match network_event_in(word, rest) {
            Some(event) => self.ask(alloc, Asked::Network(NetworkQuestion::Event(event))),
            None => Err(Stop::BadLine),
        }
    }

    /// Begins again, without tables, rows and replicas.
    fn restart(&mut self, alloc: Global)
        ensures { IsFresh self.old.asking self.new }
    {
        let fresh = Stage::start(alloc, self.asking);
        put(self, fresh);
    }

    /// Takes a line outside a transaction.
    fn take_whole(&mut self, alloc: Global, line: &[u8]) -> Result<Vec<u8>, Stop>
        ensures afresh { line.now ≡ codes "---" → IfOk result (λ text. (text.items ≡ codes "---\n") × IsFresh self.old.asking self.new) }
        ensures begun { self.old.replicas ≡ None → line.now ≡ codes "version 3" → IfOk result (λ text. (text.items ≡ []) × BeginsThree self.old self.new) }
        ensures version { OnOk result (self.new.version ≡ version_after self.old.version (not (is_some self.old.replicas)) line.now) }
    {
        if line == b"---".as_slice() {
            self.restart(alloc);
            return Ok(Vec::from_slice(alloc, b"---\n")?);
        }
        match &self.replicas {
            Some(Replicas::One(_)) => self.take_question(alloc, None, line),
            Some(Replicas::Network(_)) => self.take_network_question(alloc, line),
            None => {
                self.declare(alloc, line)?;
                Ok(Vec::new(alloc))
            }
        }
    }

    /// Asks for the event of a transaction whose last line has come.
    fn end_transaction(&mut self, alloc: Global, asked: Asked) -> Result<Vec<u8>, Stop>
        ensures { self.new.version ≡ self.old.version }
    {
        put(&mut self.pending, None);
        self.ask(alloc, asked)
    }

    /// Takes the next line, and answers it.
    fn take(&mut self, alloc: Global, line: &[u8]) -> Result<Vec<u8>, Stop>
        ensures { IfOk result (λ text. IsTaken self.old line.now text.items self.new) }
    {
        if is_passed_over(line) {
            return Ok(Vec::new(alloc));
        }
        let Some(pending) = &mut self.pending else {
            return self.take_whole(alloc, line);
        };
        match pending.take_line(alloc, line)? {
            Some(asked) => self.end_transaction(alloc, asked),
            None => Ok(Vec::new(alloc)),
        }
    }
}

/// A script, as far as its lines have come.
#[derive(Drop)]
pub struct Script {
    stage: Stage,
    stopped: Option<Stop>,
}

impl Script {
    /// Before the first line.
    pub fn start(alloc: Global, asking: Asking) -> Script
        ensures { IsStart asking result }
    {
        Script {
            stage: Stage::start(alloc, asking),
            stopped: None,
        }
    }
}

impl Answerer for Script {
    ghost use Rattle.replica_script.specs.Told.{IsTold, IsStoppedBy, script_end};

    ghost answers = { IsTold };

    ghost stops = { IsStoppedBy };

    ghost ends = { script_end };

    /// Takes the next line, and answers it: no line, one or several. After a stop every later call answers that stop.
    fn take_line(&mut self, alloc: Global, line: &[u8]) -> Result<Vec<u8>, Stop>
        ensures answer { IfOk result (λ text. IsTold self.old line.now text.items self.new) }
        ensures stop { IfErr result (IsStoppedBy self.old line.now) }
        ensures stops { IfErr result (λ stop. self.new.stopped ≡ Some stop) }
    {
        if let Some(stop) = self.stopped {
            return Err(stop);
        }
        match self.stage.take(alloc, line) {
            Ok(text) => Ok(text),
            Err(stop) => {
                self.stopped = Some(stop);
                Err(stop)
            }
        }
    }

    /// How the script has ended, if no line follows. An end inside a transaction is a bad line.
    fn end(&self) -> Result<(), Stop> {
        if let Some(stop) = self.stopped {
            return Err(stop);
        }
        if self.stage.pending.is_some() {
            return Err(Stop::BadLine);
        }
        Ok(())
    }
}
