//! The transactions that touch one key, in one order, and how far a journal has them.
ghost use Rattle.std.specs.Prelude.{◌≡◌, IfOk, OnOk};
ghost use Rattle.std.specs.Option.{option_copied};
ghost use Rattle.audit.specs.Chains.{no_chain, read_by, was_read, turn_of, turn_at, visit, expected};

use gtid_text::Gtid;
use std::alloc::{AllocError, Global};
use std::marker::Model;

/// Those that touch a key, in one order. For the journal that was read last it is known how many of
/// them are in it; a journal that is read for the first time has none.
#[derive(Drop)]
pub(crate) struct Chain {
    members: Vec<Gtid>,
    read: usize,
    reader: usize,
}

impl Model for Chain {
    ghost use Rattle.audit.specs.Chains.{KeyChain};

    ghost Value = { KeyChain };

    ghost view = { λ a. record { members = a.members.items; read = a.read; reader = a.reader } };
}

/// The place in a key's chain of the transaction that a journal has next at this key.
#[derive(Drop)]
pub(crate) enum Turn {
    /// It was read just now: it touches the key twice.
    Again,
    /// All of the chain was read. It is new, and comes after them.
    AtEnd,
    /// It is the next of the chain.
    Next,
    /// Another is the next.
    Behind(Gtid),
}

/// Whether the last of the first `read` members is this GTID.
fn was_read(read: usize, members: &[Gtid], gtid: &Gtid) -> bool
    ensures { result ≡ was_read read members.now gtid.now }
{
    if read == 0 {
        return false;
    }
    match members.get(read - 1) {
        Some(last) => *last == *gtid,
        None => false,
    }
}

fn turn_at(gtid: &Gtid, next: Option<&Gtid>) -> Turn
    ensures { result ≡ turn_at gtid.now (option_copied next.entry) }
{
    match next {
        None => Turn::AtEnd,
        Some(next) => {
            if *next == *gtid {
                Turn::Next
            } else {
                Turn::Behind(*next)
            }
        }
    }
}

impl Chain {
    pub(crate) fn new(alloc: Global) -> Chain
        ensures { result ≡ no_chain }
    {
        Chain {
            members: Vec::new(alloc),
            read: 0,
            reader: 0,
        }
    }

    /// How many of them are in this journal.
    fn read_by(&self, reader: usize) -> usize
        ensures { result ≡ read_by reader self.now }
    {
        if self.reader == reader { self.read } else { 0 }
    }

    fn turn_of(&self, reader: usize, gtid: &Gtid) -> Turn
        ensures { result ≡ turn_of reader gtid.now self.now }
    {
        let read = self.read_by(reader);
        if was_read(read, &self.members, gtid) {
            return Turn::Again;
        }
        turn_at(gtid, self.members.get(read))
    }

    /// A journal has this GTID next at the key of the chain. The result is the GTID that has to come before it, if there is one.
    pub(crate) fn visit(&mut self, reader: usize, gtid: &Gtid) -> Result<Option<Gtid>, AllocError>
        ensures chain { OnOk result (self.new ≡ visit reader gtid.now self.old) }
        ensures found { IfOk result (λ next. next ≡ expected reader gtid.now self.old) }
    {
        match self.turn_of(reader, gtid) {
            Turn::Again => Ok(None),
            Turn::AtEnd => {
                self.members.push(*gtid)?;
                self.read = self.members.len();
                self.reader = reader;
                Ok(None)
            }
            Turn::Next => {
                self.read = self.read_by(reader) + 1;
                self.reader = reader;
                Ok(None)
            }
            Turn::Behind(next) => Ok(Some(next)),
        }
    }
}
