//! The event Local.
ghost use Rattle.std.specs.Prelude.{◌≡◌, MatchResult, IfOk, IfErr, OnErr, Some, None};
ghost use Rattle.rows.specs.Fits.{misfit};
ghost use Rattle.replica_core.specs.Machine.{is_free, next_number, local};
ghost use Rattle.replica_core.specs.Faults.{IsFault, IsFaultIn, HasRoomFor, numbered_set};

use crate::event::Reply;
use crate::machine::Core;
use gtid_set::SetFault;
use gtid_text::Gtid;
use journal::Entry;
use rows::{Transaction, fits};
use std::alloc::Global;

impl Core {
    /// Whether a number of the own UUID is neither executed nor owned now.
    fn is_free(&self, number: u64) -> bool
        ensures { result ≡ is_free self.now.site self.now.state number }
    {
        let gtid = Gtid {
            source: self.own,
            number,
        };
        !self.executed().contains(&gtid) && self.owner(&gtid).is_none()
    }

    /// The least such number: the least one that is not executed, or else the next that is free.
    pub(crate) fn next_number(&self) -> Option<u64>
        ensures { result ≡ next_number self.now.site self.now.state }
    {
        let Some(first) = self.executed().least_unused(self.own) else {
            return None;
        };
        for number in first..9_223_372_036_854_775_808u64 {
            if self.is_free(number) {
                return Some(number);
            }
        }
        None
    }

    /// The event Local: the least free number of the own UUID is taken.
    /// (MySQL 8.0 Reference Manual, "GTID Life Cycle"; the least one is our own rule.)
    pub(crate) fn local(&mut self, alloc: Global, txn: &Transaction) -> Result<Reply, SetFault>
        ensures ok { IfOk result (λ r. (r, self.new.state) ≡ local self.old.site txn.now self.old.state) }
        ensures site { self.new.site ≡ self.old.site }
        ensures err { OnErr result (self.new ≡ self.old) }
        ensures fault { IfErr result (λ f. IsFault (IsFaultIn f (numbered_set self.old.site self.old.state)) (local self.old.site txn.now self.old.state)) }
        ensures room { IfErr result (λ f. HasRoomFor f (numbered_set self.old.site self.old.state)) }
    {
        if let Err(fault) = fits(self.rows().schema(), txn) {
            return Ok(Reply::NotInSchema(fault));
        }
        let Some(number) = self.next_number() else {
            return Ok(Reply::NumbersUsedUp);
        };
        self.local_as(alloc, number, txn)
    }

    /// Commits a transaction of the server's own under a number.
    fn local_as(&mut self, alloc: Global, number: u64, txn: &Transaction) -> Result<Reply, SetFault>
        requires may { next_number self.old.site self.old.state ≡ Some number }
        requires fits { misfit self.old.site.schema txn.now ≡ None }
        ensures ok { IfOk result (λ r. (r, self.new.state) ≡ local self.old.site txn.now self.old.state) }
        ensures site { self.new.site ≡ self.old.site }
        ensures err { OnErr result (self.new ≡ self.old) }
        ensures fault { IfErr result (λ f. IsFault (IsFaultIn f (numbered_set self.old.site self.old.state)) (local self.old.site txn.now self.old.state)) }
        ensures room { IfErr result (λ f. HasRoomFor f (numbered_set self.old.site self.old.state)) }
    {
        let gtid = Gtid {
            source: self.own,
            number,
        };
        if !self.executed().has_room_for(&gtid) {
            return Err(SetFault::SourcesFull);
        }
        let entry = Entry {
            gtid,
            txn: txn.clone()?,
        };
        match self.execute(alloc, None, entry, txn, None) {
            Ok(Ok(())) => return Ok(Reply::Committed(gtid)),
            Ok(Err(fault)) => return Ok(Reply::LocalRefused(fault)),
            Err(fault) => return Err(fault),
        }
    }
}
