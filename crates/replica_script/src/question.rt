//! What a line asks of a replica, or of a network.
ghost use Rattle.std.specs.Prelude.{◌≡◌, true, false, Err, IfOk, OnOk, option_map};
ghost use Rattle.std.specs.String.{string_bytes};
ghost use Rattle.row_images.specs.Words.{count_of};
ghost use Rattle.txn_journal.specs.Versions.{is_named};
ghost use Rattle.txn_journal.specs.Words.{name_of};
ghost use Rattle.replica_script.specs.Questions.{channel_of, preserves, question_alone, question_of, seat, with_one, with_two, with_three, with_numbers};
ghost use Rattle.replica_script.specs.NetworkQuestions.{asked_of, at_node, network_event_of, network_with_two, network_with_three};

use network::NetworkEvent;
use replica_core::Event;
use row_images::{count, cut};
use rows::{Limits, Name, NameFault};
use std::alloc::{AllocError, Global};
use txn_journal::Version;

/// What a replica shows without changing.
#[derive(Clone, Copy, Drop)]
pub enum Query {
    /// The rows, in order.
    Rows,
    /// The executed set.
    Executed,
    /// The purged set.
    Purged,
    /// The own journal, by this version of the format.
    Journal(Version),
    /// Whether every received GTID is executed.
    Drained,
    /// The status: the sets, what is owned, and the channels.
    Status,
    /// The set with which this channel would ask now.
    Ask(usize),
    /// The least place of this channel from this number on that a seat may take: channel, number.
    Next(usize, usize),
    /// The entry at this place of this channel: channel, place.
    Entry(usize, usize),
}

/// What a replica is asked.
#[derive(Drop)]
pub enum Question {
    Event(Event),
    Query(Query),
}

/// What a network is asked.
#[derive(Drop)]
pub enum NetworkQuestion {
    /// An event of a node's replica, or of the network itself.
    Event(NetworkEvent),
    /// A query to a node's replica: node, query.
    Query(usize, Query),
}

/// A question to one replica, or to a network.
#[derive(Drop)]
pub enum Asked {
    /// A question to the one replica.
    Replica(Question),
    /// A question to the network.
    Network(NetworkQuestion),
}

/// The question that is one word. A journal is shown by this version.
fn question_alone(version: Version, word: &[u8]) -> Option<Question>
    ensures { result ≡ question_alone version word.now }
{
    if word == b"look".as_slice() {
        Some(Question::Event(Event::Look))
    } else if word == b"rows".as_slice() {
        Some(Question::Query(Query::Rows))
    } else if word == b"executed".as_slice() {
        Some(Question::Query(Query::Executed))
    } else if word == b"purged".as_slice() {
        Some(Question::Query(Query::Purged))
    } else if word == b"journal".as_slice() {
        Some(Question::Query(Query::Journal(version)))
    } else if word == b"drained".as_slice() {
        Some(Question::Query(Query::Drained))
    } else if word == b"status".as_slice() {
        Some(Question::Query(Query::Status))
    } else {
        None
    }
}

/// A seat's number: one above 64 is no seat, so 255 denotes each number above it.
fn seat(number: usize) -> u8
    ensures { result ≡ seat number }
{
    number.min(255) as u8
}

/// The question that is a word and a number.
fn with_one(word: &[u8], number: usize) -> Option<Question>
    ensures { result ≡ with_one word.now number }
{
    if word == b"position".as_slice() {
        Some(Question::Event(Event::Position(number)))
    } else if word == b"commit".as_slice() {
        Some(Question::Event(Event::Commit(seat(number))))
    } else if word == b"rollback".as_slice() {
        Some(Question::Event(Event::Rollback(seat(number))))
    } else if word == b"restart".as_slice() {
        Some(Question::Event(Event::Restart(number)))
    } else if word == b"purge".as_slice() {
        Some(Question::Event(Event::Purge(number)))
    } else if word == b"ask".as_slice() {
        Some(Question::Query(Query::Ask(number)))
    } else {
        None
    }
}

/// The question that is a word and two numbers.
fn with_two(word: &[u8], channel: usize, place: usize) -> Option<Question>
    ensures { result ≡ with_two word.now channel place }
{
    if word == b"entry".as_slice() {
        Some(Question::Query(Query::Entry(channel, place)))
    } else if word == b"next".as_slice() {
        Some(Question::Query(Query::Next(channel, place)))
    } else {
        None
    }
}

/// The question that is a word and three numbers.
fn with_three(word: &[u8], number: usize, channel: usize, place: usize) -> Option<Question>
    ensures { result ≡ with_three word.now number channel place }
{
    if word == b"take".as_slice() {
        Some(Question::Event(Event::Take(seat(number), channel, place)))
    } else {
        None
    }
}

/// The number that a word is.
pub fn number(word: &[u8]) -> Option<usize>
    ensures { result ≡ count_of word.now }
{
    match count(word) {
        Some(number) => Some(number as usize),
        None => None,
    }
}

/// The question that is a word and numbers.
fn with_numbers(word: &[u8], rest: &[u8]) -> Option<Question>
    ensures { result ≡ with_numbers word.now rest.now }
{
    let (first, more) = cut(rest);
    let first = number(first)?;
    let Some(rest) = more else {
        return with_one(word, first);
    };
    let (second, more) = cut(rest);
    let second = number(second)?;
    let Some(rest) = more else {
        return with_two(word, first, second);
    };
    let third = number(rest)?;
    with_three(word, first, second, third)
}

/// The name that a text is, by these limits.
fn named(limits: Limits, text: String) -> Result<Name, NameFault>
    ensures ok { IfOk result (λ name. name ≡ string_bytes text) }
    ensures named { OnOk result (is_named limits (string_bytes text) ≡ true) }
    ensures refused { result ≡ Err NameFault.NotAName → is_named limits (string_bytes text) ≡ false }
{
    match limits {
        Limits::Narrow => Name::short(text),
        Limits::Wide => Name::new(text),
    }
}

/// The name that a word is, by these limits.
#[tactic(auto, using(txn_journal::proofs::NameLemmas::not_text))]
fn name_in(alloc: Global, limits: Limits, word: &[u8]) -> Result<Option<Name>, AllocError>
    ensures { IfOk result (λ found. found ≡ name_of limits word.now) }
{
    let Ok(text) = std::str::from_utf8(word) else {
        return Ok(None);
    };
    match named(limits, String::from_str(alloc, text)?) {
        Ok(name) => Ok(Some(name)),
        Err(NameFault::NotAName) => Ok(None),
        Err(NameFault::Memory) => Err(AllocError),
    }
}

/// Whether a channel preserves order, by the words after its name; none if they are not in the language.
fn preserves(more: Option<&[u8]>) -> Option<bool>
    ensures { result ≡ preserves (option_map (λ word. word.now) more.entry) }
{
    match more {
        None => Some(false),
        Some(word) if word == b"preserve".as_slice() => Some(true),
        Some(_) => None,
    }
}

/// The opening of a channel, whose name is one of this version.
fn channel(alloc: Global, version: Version, rest: &[u8]) -> Result<Option<Question>, AllocError>
    ensures { IfOk result (λ found. found ≡ channel_of version rest.now) }
{
    let (word, more) = cut(rest);
    let Some(preserve) = preserves(more) else {
        return Ok(None);
    };
    match name_in(alloc, version.limits(), word)? {
        Some(name) => Ok(Some(Question::Event(Event::OpenChannel(name, preserve)))),
        None => Ok(None),
    }
}

/// What a line asks by this version, if it is a question.
pub fn question_in(
    alloc: Global,
    version: Version,
    line: &[u8],
) -> Result<Option<Question>, AllocError>
    ensures { IfOk result (λ found. found ≡ question_of version line.now) }
{
    let (word, rest) = cut(line);
    let Some(rest) = rest else {
        return Ok(question_alone(version, word));
    };
    if word == b"channel".as_slice() {
        return channel(alloc, version, rest);
    }
    Ok(with_numbers(word, rest))
}

/// The question of a node's replica.
fn at_node(node: usize, question: Question) -> NetworkQuestion
    ensures { result ≡ at_node node question }
{
    match question {
        Question::Event(event) => NetworkQuestion::Event(NetworkEvent::Act { node, event }),
        Question::Query(query) => NetworkQuestion::Query(node, query),
    }
}

/// A question of the replica of this node, or of the one replica if there is no network.
pub fn asked_of(node: Option<usize>, question: Question) -> Asked
    ensures { result ≡ asked_of node question }
{
    match node {
        Some(node) => Asked::Network(at_node(node, question)),
        None => Asked::Replica(question),
    }
}

/// The event of a network that is a word and two numbers.
fn network_with_two(word: &[u8], node: usize, channel: usize) -> Option<NetworkEvent>
    ensures { result ≡ network_with_two word.now node channel }
{
    if word == b"receive".as_slice() {
        Some(NetworkEvent::Receive { node, channel })
    } else {
        None
    }
}

/// The event of a network that is a word and three numbers.
fn network_with_three(
    word: &[u8],
    node: usize,
    channel: usize,
    source: usize,
) -> Option<NetworkEvent>
    ensures { result ≡ network_with_three word.now node channel source }
{
    if word == b"position".as_slice() {
        Some(NetworkEvent::Position {
            node,
            channel,
            source,
        })
    } else {
        None
    }
}

/// The event of a network that is a word and numbers.
pub fn network_event_in(word: &[u8], rest: &[u8]) -> Option<NetworkEvent>
    ensures { result ≡ network_event_of word.now rest.now }
{
    let (first, more) = cut(rest);
    let node = number(first)?;
    let Some(rest) = more else {
        return None;
    };
    let (second, more) = cut(rest);
    let channel = number(second)?;
    let Some(rest) = more else {
        return network_with_two(word, node, channel);
    };
    let source = number(rest)?;
    network_with_three(word, node, channel, source)
}
