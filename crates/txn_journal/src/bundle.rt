//! Bundles: a replica's tables and opening rows, and the journals that its channels bring.
ghost use Rattle.std.specs.Prelude.{◌≡◌};
ghost use Rattle.txn_journal.specs.BundleText.{IsBundle};
ghost use Rattle.txn_journal.specs.Assumptions.{lacks_rows};

use crate::assumptions::Assumption;
use crate::open_bundle::OpenBundle;
use crate::references::Reference;
use gtid_set::GtidSet;
use gtid_text::SourceId;
use journal::Journal;
use rows::{Name, Rows, Schema};
use std::marker::Model;

/// A channel of a replica.
#[derive(Drop)]
pub struct BundleChannel {
    /// Names it within its replica.
    pub name: Name,
    /// Whether its transactions commit in the order of their places.
    pub preserve: bool,
}

/// A replica, the set of GTIDs with which it begins, its opening rows and references, its channels, each with the journal that it brings, and
/// what is assumed. Its type keeps that it has a text by version 2 or version 3 of the format (`keeps_rules`).
pub struct Bundle {
    parts: OpenBundle,
}

impl Drop for Bundle {
    // (by hand: for a caller the end of a Bundle is one call)
    fn drop(self) {
        let Bundle { parts: _parts } = self;
    }
}

impl Model for Bundle {
    ghost use Rattle.std.specs.Coded.{codes};
    ghost use Rattle.gtid_set.specs.Sets.{gtids_code};
    ghost use Rattle.rows.specs.Coding.{rows_code};
    ghost use Rattle.txn_journal.specs.BundleStates.{BundleValue};

    ghost Value = { BundleValue };

    ghost coded = { Prim.hlevel (codes, gtids_code, rows_code) };

    ghost use Rattle.txn_journal.specs.BundleText.{IsBundle};

    ghost view = { λ b. b.parts };

    ghost invariant = { λ b. IsBundle b.parts };
}

impl Bundle {
    /// The bundle of these parts.
    pub(crate) fn of(parts: OpenBundle) -> Bundle
        requires { IsBundle parts }
        ensures { result ≡ parts }
    {
        Bundle { parts }
    }

    /// The UUID of the replica.
    pub fn replica(&self) -> SourceId
        ensures { result ≡ self.now.replica }
    {
        self.parts.replica()
    }

    /// The opening set: the GTIDs that are executed from the start, and purged. Version 1 of the format has no other than the empty one.
    pub fn opening_set(&self) -> &GtidSet
        ensures { result.now ≡ self.now.opened }
    {
        self.parts.opening_set()
    }

    /// The tables.
    pub fn schema(&self) -> &Schema
        ensures { result.now ≡ self.now.start.schema }
    {
        self.parts.schema()
    }

    /// The opening rows.
    pub fn rows(&self) -> &Rows
        ensures { result.now ≡ self.now.start }
    {
        self.parts.rows()
    }

    /// The references between tables, in order. Versions 1 and 2 of the format have none.
    pub fn references(&self) -> &[Reference]
        ensures { result.now ≡ self.now.references }
    {
        self.parts.references()
    }

    /// The channels, in order.
    pub fn channels(&self) -> &[BundleChannel]
        ensures { result.now ≡ self.now.channels }
    {
        self.parts.channels()
    }

    /// The journal of each channel, in order.
    pub fn journals(&self) -> &[Journal]
        ensures { result.now ≡ self.now.journals }
    {
        self.parts.journals()
    }

    /// What is assumed, in the order of the lines. Versions 1 and 2 of the format assume nothing.
    pub fn assumptions(&self) -> &[Assumption]
        ensures { result.now ≡ self.now.assumptions }
    {
        self.parts.assumptions()
    }

    /// Whether the opening rows aren't known: there is none, and changes are not applied.
    pub fn lacks_rows(&self) -> bool
        ensures { result ≡ lacks_rows self.now.assumptions }
    {
        self.assumptions()
            .iter()
            .any(|it| matches!(it, Assumption::Rows))
    }

    /// The type keeps the rules of the format: tables, rows and channels fit together, the tables take what each journal has, and all of
    /// it has a text. It does nothing; a proof calls it for its contract.
    pub fn keeps_rules(&self)
        ensures { IsBundle self.now }
    {
        let _ = &self.parts;
    }
}
