//! Logs with hidden values.
ghost use Rattle.std.specs.Prelude.{◌≡◌, option_map, IfOk, IfErr};
ghost use Rattle.std.specs.List.{list_any};
ghost use Rattle.binlog_bundle.specs.Others.{is_collation, is_against, is_other, other_part, first_other};
ghost use Rattle.binlog_bundle.specs.Weighed.{weighed, unweighed, IsOtherCollation, IsWeighedLog, IsUnweighedLog};

use crate::fault::{Logless, SourceFault};
use crate::logs::{Logs, ReadChannel};
use binlog_entries::ReadFault;
use collations::Collation;
use derived_columns::{
    Derivation, DerivationFault, DerivedColumn, KeyComparison, KeyPart, gtids_stay,
};
use gtid_set::{GtidSet, SetFault};
use log_transactions::{LoggedTransactions, Varied};
use std::alloc::Global;

/// Logs whose entries get the hidden values of these columns.
#[derive(Drop)]
pub struct WeighedLogs<'a, L: Logs> {
    pub logs: &'a L,
    pub derivation: &'a Derivation,
}

fn is_collation(collation: Collation, other: Option<Collation>) -> bool
    ensures { result ≡ is_collation collation other }
{
    match other {
        Some(other) => other.number() == collation.number(),
        None => false,
    }
}

/// Whether what a log says of a column, that it is compared otherwise than by its bytes, isn't what the head says.
fn is_against(comparison: KeyComparison, said: Option<Collation>) -> bool
    ensures { result ≡ is_against comparison said }
{
    match comparison {
        KeyComparison::Text(collation) => !is_collation(collation, said),
        KeyComparison::FirstCharacters(collation, _) => !is_collation(collation, said),
        KeyComparison::FirstBytes(_) => true,
        KeyComparison::FixedCharacters(collation, _) => !is_collation(collation, said),
        KeyComparison::FixedBytes(_) => true,
        KeyComparison::Float => said.is_some(),
    }
}

/// Whether a log says so of the column of a part of a key.
fn is_other(part: &KeyPart, varied: &Varied) -> bool
    ensures { result ≡ is_other part.now varied.now }
{
    varied.table.as_str().as_bytes() == part.table.as_str().as_bytes()
        && varied.column == part.column as usize
        && is_against(part.comparison, varied.collation)
}

/// Whether a log says so at one of these.
fn says_other(part: &KeyPart, varied: &[Varied]) -> bool
    ensures { result ≡ list_any (is_other part.now) varied.now }
{
    varied.iter().any(|it| is_other(part, it))
}

/// The part of a key that a hidden column is of, if a log says so.
fn other_part<'a>(column: &'a DerivedColumn, varied: &[Varied]) -> Option<&'a KeyPart>
    ensures { option_map (λ p. p.now) result ≡ other_part column.now varied.now }
{
    match column {
        DerivedColumn::Part(part) if says_other(part, varied) => Some(part),
        _ => None,
    }
}

/// The first of them.
fn first_other<'a>(columns: &'a [DerivedColumn], varied: &[Varied]) -> Option<&'a KeyPart>
    ensures { option_map (λ p. p.now) result ≡ first_other columns.now varied.now }
{
    for column in columns {
        if let Some(part) = other_part(column, varied) {
            return Some(part);
        }
    }
    None
}

/// Why a log isn't taken that says of a column that the server compares it otherwise than the head says.
fn other_collation(part: &KeyPart) -> SourceFault
    ensures { IsOtherCollation part.now result }
{
    match part.table.clone() {
        Ok(table) => SourceFault::Logless(Logless::Collation(table, part.column)),
        Err(_) => SourceFault::Text(ReadFault::Set(SetFault::Memory)),
    }
}

/// Why nothing is derived from a log's entries.
fn unweighed(fault: DerivationFault) -> SourceFault
    ensures { result ≡ unweighed fault }
{
    match fault {
        DerivationFault::Memory => SourceFault::Text(ReadFault::Set(SetFault::Memory)),
        DerivationFault::NoHiddenValue {
            gtid,
            table,
            column,
        } => SourceFault::Logless(Logless::Weights(gtid, table, column)),
    }
}

/// A log with the hidden values of these columns.
fn weigh(
    alloc: Global,
    derivation: &Derivation,
    log: LoggedTransactions,
) -> Result<LoggedTransactions, SourceFault>
    ensures found { IfOk result (IsWeighedLog derivation.now log) }
    ensures refused { IfErr result (IsUnweighedLog derivation.now log) }
{
    if let Some(part) = first_other(derivation.columns(), &log.varied) {
        return Err(other_collation(part));
    }
    let LoggedTransactions {
        previous,
        entries,
        varied,
    } = log;
    gtids_stay();
    match derivation.derive_entries(alloc, entries) {
        Ok(entries) => Ok(LoggedTransactions {
            previous,
            entries,
            varied,
        }),
        Err(fault) => Err(unweighed(fault)),
    }
}

impl<'a, L: Logs> Logs for WeighedLogs<'a, L> {
    ghost origin = { λ w. weighed w.derivation.now (L.origin w.logs.now) };

    fn accepted(&self) -> &GtidSet {
        self.logs.accepted()
    }

    fn read(
        &self,
        alloc: Global,
        name: &[u8],
        opening: &GtidSet,
        text: &[u8],
    ) -> Result<ReadChannel, SourceFault> {
        let ReadChannel { log, is_unchecked } = match self.logs.read(alloc, name, opening, text) {
            Ok(read) => read,
            Err(fault) => return Err(fault),
        };
        match weigh(alloc, self.derivation, log) {
            Ok(log) => Ok(ReadChannel { log, is_unchecked }),
            Err(fault) => Err(fault),
        }
    }
}
