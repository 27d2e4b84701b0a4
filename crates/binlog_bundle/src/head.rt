//! The head of a bundle of logs: lines of the bundle, lines that name what it can't hold, and lines that say what hidden columns hold.
ghost use Rattle.std.specs.Prelude.{◌≡◌, ◌++◌, ◌||◌, ℕ, Bool, List, IsTrue, IfOk, IfErr, OnOk, true, false};
ghost use Rattle.binlog_bundle.specs.Lines.{with_line_feed, AreLines};
ghost use Rattle.binlog_bundle.specs.Collated.{collated, weighed_line, columns_of};
ghost use Rattle.binlog_bundle.specs.Heads.{is_unsupported, is_collate, is_passed, is_taken, is_granted, is_granted_key, plain_text, place_of, IsPlainHead, IsNoPlainHead, IsNotGranted, IsNoGrantedKey, IsNoCollate};
ghost use Rattle.binlog_bundle.specs.Refused.{fault_in_head};
ghost use Rattle.binlog_bundle.specs.declared.head.HeadFault.TheVariants as heads;

use crate::collate_lines::{collated, collated_columns, put_weighed};
use crate::grants::Grants;
use crate::lines::strip;
use binlog_entries::cut_line;
use derived_columns::{Derivation, DerivedColumn};
use std::alloc::{AllocError, Global};
use txn_journal::JournalFault;

/// A head as that of a bundle.
#[derive(Drop)]
pub struct PlainHead {
    pub text: Vec<u8>,
    /// Whether there was a line `unsupported ..`: each was passed over.
    pub passed_over: bool,
}

/// A head as that of a bundle, and what its hidden columns hold.
#[derive(Drop)]
pub struct WeighedHead {
    pub plain: PlainHead,
    pub derivation: Derivation,
}

/// Why a head is not taken.
#[derive(Drop)]
pub enum HeadFault {
    Memory,
    /// What the first line that isn't granted says is unsupported.
    Unsupported(Vec<u8>),
}

impl From<AllocError> for HeadFault {
    ghost from_gives = { λ _ e. e ≡ heads.Memory };

    fn from(_e: AllocError) -> HeadFault {
        HeadFault::Memory
    }
}

/// Whether a line names what a bundle can't hold.
fn is_unsupported(line: &[u8]) -> bool
    ensures { result ≡ is_unsupported line.now }
{
    line.starts_with(b"unsupported ")
}

/// Whether a line says what a hidden column holds.
fn is_collate(line: &[u8]) -> bool
    ensures { result ≡ is_collate line.now }
{
    line.starts_with(b"collate ")
}

/// Whether a line is no line of the bundle.
fn is_passed(line: &[u8]) -> bool
    ensures { result ≡ is_passed line.now }
{
    is_unsupported(line) || is_collate(line)
}

/// Whether what is unsupported is a foreign key, and that is granted.
fn is_granted_key(grants: Grants, what: &[u8]) -> bool
    ensures { result ≡ is_granted_key grants what.now }
{
    grants.without_foreign_keys && what.starts_with(b"foreign-key ")
}

/// Whether what a line `collate ..` says is taken: whole rows only where the opening rows aren't known.
fn is_taken(grants: Grants, column: Option<DerivedColumn>) -> bool
    ensures { result ≡ is_taken grants column }
{
    match column {
        Some(DerivedColumn::Part(_part)) => true,
        Some(DerivedColumn::Row(_table)) => grants.no_rows,
        None => false,
    }
}

/// Looks whether what a line `collate ..` says is taken.
fn take_collate(alloc: Global, grants: Grants, line: &[u8]) -> Result<(), HeadFault>
    ensures granted { OnOk result (is_taken grants (collated line.now) ≡ true) }
    ensures refused { IfErr result (IsNoCollate grants line.now) }
{
    let column = collated(alloc, line)?;
    if !is_taken(grants, column) {
        return Err(HeadFault::Unsupported(line.to_vec(alloc)?));
    }
    Ok(())
}

impl PlainHead {
    /// Takes a line of the bundle; a row with its hidden values behind.
    fn take_plain(
        &mut self,
        alloc: Global,
        derivation: &Derivation,
        line: &[u8],
    ) -> Result<(), AllocError>
        ensures text { OnOk result (self.new.text.items ≡ self.old.text.items ++ with_line_feed (weighed_line derivation.now line.now)) }
        ensures passed { self.new.passed_over ≡ self.old.passed_over }
    {
        put_weighed(alloc, &mut self.text, derivation, line)?;
        self.text.push(b'\n')?;
        Ok(())
    }

    /// Passes over a line that names what a bundle can't hold, behind the word `unsupported`.
    fn pass_over(&mut self, alloc: Global, grants: Grants, what: &[u8]) -> Result<(), HeadFault>
        ensures granted { OnOk result (is_granted_key grants what.now ≡ true) }
        ensures text { self.new.text.items ≡ self.old.text.items }
        ensures passed { OnOk result (self.new.passed_over ≡ true) }
        ensures refused { IfErr result (λ fault. IsNoGrantedKey grants what.now fault) }
    {
        if !is_granted_key(grants, what) {
            return Err(HeadFault::Unsupported(what.to_vec(alloc)?));
        }
        self.passed_over = true;
        Ok(())
    }

    /// Takes a line of the head that is none `unsupported ..`.
    fn take_other(
        &mut self,
        alloc: Global,
        grants: Grants,
        derivation: &Derivation,
        line: &[u8],
    ) -> Result<(), HeadFault>
        requires { is_unsupported line.now ≡ false }
        ensures granted { OnOk result (is_granted grants line.now ≡ true) }
        ensures text { OnOk result (self.new.text.items ≡ self.old.text.items ++ plain_text derivation.now line.now) }
        ensures passed { self.new.passed_over ≡ self.old.passed_over }
        ensures refused { IfErr result (IsNotGranted grants line.now) }
    {
        if is_collate(line) {
            return take_collate(alloc, grants, line);
        }
        Ok(self.take_plain(alloc, derivation, line)?)
    }

    /// Takes a line of the head.
    fn take_line(
        &mut self,
        alloc: Global,
        grants: Grants,
        derivation: &Derivation,
        line: &[u8],
    ) -> Result<(), HeadFault>
        ensures granted { OnOk result (is_granted grants line.now ≡ true) }
        ensures text { OnOk result (self.new.text.items ≡ self.old.text.items ++ plain_text derivation.now line.now) }
        ensures passed { OnOk result (self.new.passed_over ≡ (self.old.passed_over || is_unsupported line.now)) }
        ensures refused { IfErr result (IsNotGranted grants line.now) }
    {
        match strip(line, b"unsupported ") {
            Some(what) => self.pass_over(alloc, grants, what),
            None => self.take_other(alloc, grants, derivation, line),
        }
    }
}

/// The head as that of a bundle, each line of which has to be the bundle's or granted.
fn plain_head(
    alloc: Global,
    grants: Grants,
    derivation: &Derivation,
    head: &[u8],
) -> Result<PlainHead, HeadFault>
    requires { (lines : List (List ℕ)) → AreLines lines head.now → derivation.now ≡ columns_of lines }
    ensures found { IfOk result (λ plain. IsPlainHead grants derivation.now head.now plain.text.items plain.passed_over) }
    ensures refused { IfErr result (λ fault. IsNoPlainHead grants head.now fault) }
{
    let mut plain = PlainHead {
        text: Vec::new(alloc),
        passed_over: false,
    };
    let mut left = head;
    while let Some((line, after)) = cut_line(left) {
        match plain.take_line(alloc, grants, derivation, line) {
            Ok(()) => left = after,
            Err(fault) => return Err(fault),
        }
    }
    plain.text.extend_from_slice(left)?;
    Ok(plain)
}

/// The head as that of a bundle, and what its lines `collate ..` say.
pub fn weighed_head(alloc: Global, grants: Grants, head: &[u8]) -> Result<WeighedHead, HeadFault>
    ensures found { IfOk result (λ h. IsPlainHead grants h.derivation head.now h.plain.text.items h.plain.passed_over) }
    ensures refused { IfErr result (λ fault. IsNoPlainHead grants head.now fault) }
{
    let columns = collated_columns(alloc, head)?;
    let derivation = Derivation::of(alloc, columns)?;
    match plain_head(alloc, grants, &derivation, head) {
        Ok(plain) => Ok(WeighedHead { plain, derivation }),
        Err(fault) => Err(fault),
    }
}

/// The number, among all lines of a head, of the line that is the nth of the bundle's.
fn place_of(head: &[u8], n: u64) -> u64
    ensures { (lines : List (List ℕ)) → AreLines lines head.now → result ≡ place_of lines n }
{
    let mut left = head;
    let mut due = n;
    let mut skipped = 0;
    while let Some((line, after)) = cut_line(left) {
        if is_passed(line) {
            skipped += 1;
        } else if due <= 1 {
            return n.saturating_add(skipped);
        } else {
            due -= 1;
        }
        left = after;
    }
    n.saturating_add(skipped)
}

/// The fault of the plain head, with the number that its line has in the head.
pub fn fault_in_head(head: &[u8], fault: JournalFault) -> JournalFault
    ensures { (lines : List (List ℕ)) → AreLines lines head.now → result ≡ fault_in_head lines fault }
{
    match fault {
        JournalFault::Set(fault) => JournalFault::Set(fault),
        JournalFault::Line { line, cause } => JournalFault::Line {
            line: place_of(head, line),
            cause,
        },
        JournalFault::Truncated { line } => JournalFault::Truncated {
            line: place_of(head, line),
        },
    }
}
