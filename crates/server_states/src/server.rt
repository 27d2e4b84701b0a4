//! The servers in a text.
ghost use Rattle.std.specs.Prelude.{◌≡◌, ◌++◌, ◌∷◌, [], IfOk, OnOk, map, option_map};
ghost use Rattle.std.specs.Str.Lines.{lines};
ghost use Rattle.gtid_report.specs.SetAnswers.{Answers};
ghost use Rattle.server_states.specs.Servers.{words_of, source_of_word, set_of_word, server_of, fault_at_line, at_line, servers_behind, servers_in};

use gtid_report::{Fault, LineCause, Refusal, read_set, read_source};
use gtid_set::GtidSet;
use gtid_text::SourceId;
use std::alloc::{AllocError, Global};
use std::marker::Model;

/// The characters of a UUID (RFC 9562).
const UUID_LENGTH: usize = 36;

/// A server, and what it has executed.
#[derive(Drop)]
pub struct Server {
    name: String,
    source: SourceId,
    executed: GtidSet,
}

impl Model for Server {
    ghost use Rattle.std.specs.String.{string_bytes};
    ghost use Rattle.std.specs.Coded.{codes};
    ghost use Rattle.gtid_set.specs.Sets.{gtids_code};
    ghost use Rattle.server_states.specs.Servers.{ServerValue};

    ghost Value = { ServerValue };

    ghost coded = { Prim.hlevel (codes, gtids_code) };

    ghost view = { λ s. record { name = string_bytes s.name; source = s.source; executed = s.executed } };
}

impl Server {
    /// Its name.
    pub fn name(&self) -> &str
        ensures { result.now ≡ self.now.name }
    {
        self.name.as_str()
    }

    /// Its UUID.
    pub fn source(&self) -> SourceId
        ensures { result ≡ self.now.source }
    {
        self.source
    }

    /// The set that it has executed.
    pub fn executed(&self) -> &GtidSet
        ensures { result.now ≡ self.now.executed }
    {
        &self.executed
    }
}

/// The three words of a line: a name, a UUID and a set.
fn words_of(line: &str) -> Option<(&str, &str, &str)>
    ensures { option_map (λ w. (w.0.now, w.1.now, w.2.now)) result ≡ words_of line.now }
{
    let (name, more) = line.split_once(' ')?;
    let (source, set) = more.split_once(' ')?;
    if name.is_empty() {
        return None;
    }
    Some((name, source, set))
}

/// The source of a word; blanks round its UUID are no part of it.
fn source_of_word(word: &str) -> Result<SourceId, Fault>
    ensures { Answers (λ s. s) result (source_of_word word.now) }
{
    if word.len() == UUID_LENGTH {
        read_source(word)
    } else {
        Err(Fault::Refused(Refusal::Usage))
    }
}

/// The set of a word; a hyphen is the empty set.
fn set_of_word(alloc: Global, word: &str) -> Result<GtidSet, Fault>
    ensures { Answers (λ s. s) result (set_of_word word.now) }
{
    if word == "-" {
        return Ok(GtidSet::empty(alloc));
    }
    read_set(alloc, word)
}

/// The server that a line names.
fn server_of(alloc: Global, line: &str) -> Result<Server, Fault>
    ensures { Answers (λ s. s) result (server_of line.now) }
{
    let Some((name, source, set)) = words_of(line) else {
        return Err(Fault::Refused(Refusal::Usage));
    };
    let source = source_of_word(source)?;
    let executed = set_of_word(alloc, set)?;
    let name = String::from_str(alloc, name)?;
    Ok(Server {
        name,
        source,
        executed,
    })
}

/// A fault of a line, with its number.
fn fault_at_line(number: u64, fault: Fault) -> Fault
    ensures { result ≡ fault_at_line number fault }
{
    match fault {
        Fault::Memory => Fault::Memory,
        Fault::Refused(Refusal::PoolFull) => Fault::Refused(Refusal::PoolFull),
        Fault::Refused(Refusal::SourcesFull) => Fault::Refused(Refusal::SourcesFull),
        Fault::Refused(_) => Fault::Refused(Refusal::Line(number, LineCause::Body)),
    }
}

/// The lines of a text.
fn lines_of(alloc: Global, text: &str) -> Result<Vec<&str>, AllocError>
    ensures { IfOk result (λ found. map (λ l. l.now) found.items ≡ lines text.now) }
{
    text.lines().collect(alloc)
}

/// The servers that the lines of a text name, in order. A line has a name, a UUID and a set, one space between; a hyphen is the empty set.
/// The first line that is none is refused by its number, from 1; a set with too many sources or intervals is refused for that.
pub fn read_servers(alloc: Global, text: &str) -> Result<Vec<Server>, Fault>
    ensures { Answers (λ servers. servers.items) result (servers_in text.now) }
{
    let lines = lines_of(alloc, text)?;
    servers_of(alloc, &lines)
}

/// The server that the line of this number names.
fn server_at(alloc: Global, number: u64, line: &str) -> Result<Server, Fault>
    ensures { Answers (λ s. s) result (at_line number (server_of line.now)) }
{
    match server_of(alloc, line) {
        Ok(server) => Ok(server),
        Err(fault) => Err(fault_at_line(number, fault)),
    }
}

fn push(servers: &mut Vec<Server>, server: Server) -> Result<(), AllocError>
    ensures { OnOk result (servers.new.items ≡ servers.old.items ++ server ∷ []) }
{
    match servers.push(server) {
        Ok(()) => Ok(()),
        Err(error) => Err(AllocError::from(error)),
    }
}

/// The servers that lines name, in order.
fn servers_of(alloc: Global, lines: &[&str]) -> Result<Vec<Server>, Fault>
    ensures { Answers (λ servers. servers.items) result (servers_behind [] (map (λ l. l.now) lines.now)) }
{
    let mut servers = Vec::new(alloc);
    for line in lines {
        match server_at(alloc, servers.len() as u64 + 1, line) {
            Ok(server) => push(&mut servers, server)?,
            Err(fault) => return Err(fault),
        }
    }
    Ok(servers)
}
