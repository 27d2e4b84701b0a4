//! Sets of GTIDs, and their text.
//!
//! What a contract sees: a `GtidSet` is the finite set of its pairs (source, number), and two sets with the same members are equal. Each
//! operation is that of finite sets. No interval, list or cell is named above this crate.
//!
//! A set has at most 65,536 sources and 4,294,967,294 intervals; a call is refused for that if and only if its result would have more
//! (`full`), and because an allocation failed only if the sources are not too many: `has_room_for` and `has_room_for_all` test that without
//! an allocation. Intervals are bounded by the edges of a set, the places where membership changes: what is made of two sets has no edge
//! that neither of them has (`laws::intervals_add_up`), so the crates above state by edges when a set may be full.
//!
//! How it is kept: the intervals are in one pool (`interval_pool`), a list of merged intervals for each source; the sources are kept as
//! they came, and their places in order in blocks (`order`). A pass over two sets goes source by source, compares numbers alone, and writes
//! the numbers of each source at once; its proof is about merged lists of spans. The search for a source begins at a guessed place, one for
//! each of 16 slots by the source's bits; a guess is tested, and if it is wrong the source is searched for. A text is parsed, its spans are
//! sorted once, and the set is built once.
//!
//! A set shares its intervals with its copies (`copy`) until one of them is changed.
//!
//! Cost, from the code and not proved: `copy` none; `add`, `contains` and `run_end` take as many steps as the number of intervals has binary digits, a
//! source's next number a few; union, difference, intersection and the tests are one pass over both; a new source moves some hundred
//! places of its block, two bytes each.
#![tactic(auto)]

ghost use Rattle.std.specs.Prelude.{◌≡◌, ◌≤◌, ◌<◌, ◌↔◌, IsTrue, true, false, IfOk, IfErr, IfSome, IfNone, OnOk, OnErr, IsOkUnless, string_bytes, nat_le, nat_lt};
ghost use Rattle.std.specs.List.{list_all};
ghost use Rattle.std.specs.FinSet as set;
ghost use Rattle.gtid_set.specs.declared.fault.SetFault.TheVariants.{Memory, SourcesFull};
ghost use Rattle.gtid_set.specs.Sets.{Gtids, IsRunEnd, gtid, interval, only, without, kept_sources, least_unused, most_sources, source_count};
ghost use Rattle.gtid_set.specs.Spans.{set_of, is_merged, has};
ghost use Rattle.gtid_set.specs.Runs.{runs, canonical};
ghost use Rattle.gtid_set.specs.Laws.{HaveSources, HaveNumbers};
ghost use Rattle.gtid_set.specs.Texts.{ParsesAsSet, RefusesSet, IsReadAs, GivesSet, set_in};
ghost use Rattle.gtid_set.specs.Sweep.{is_sorted};
ghost use Rattle.gtid_set.specs.BySource.{combination};
ghost use Rattle.gtid_set.specs.Full.{IsFullExactly, IsCrowdedExactly, IsKept, HasManySources, interval_count, most_intervals};

mod by_source;
mod combine;
mod cursor;
mod fault;
mod gather;
mod kept;
pub mod laws;
mod numbers;
mod order;
mod shared;
mod single;
mod sources;
mod sweep;
mod text;

use combine::{Operation, are_apart, combine, is_within};
pub use fault::{SetFault, SetTextFault};
use gather::gather;
use gtid_text::{Gtid, SourceId, Span, parse_spans};
use kept::{Kept, MOST_SOURCES};
use shared::Shared;
use std::alloc::{AllocError, Global};
use std::marker::Model;

/// The greatest number that a transaction may have. Our own rule.
const GREATEST: u64 = 9_223_372_036_854_775_807;

/// A set of GTIDs, as the MySQL 8.0 Reference Manual has it in "GTID Format and Storage". It has at most 65,536 sources and 4,294,967,294 intervals.
pub struct GtidSet {
    spans: Shared,
}

impl Drop for GtidSet {
    // (by hand: for a caller the end of a GtidSet is one call)
    fn drop(self) {
        let GtidSet { spans: _spans } = self;
    }
}

impl Model for GtidSet {
    ghost use Rattle.gtid_set.specs.Sets.{Gtids, gtids_code};

    ghost Value = { Gtids };

    ghost coded = { gtids_code };

    ghost use Rattle.gtid_set.specs.Spans.{set_of};
    ghost use Rattle.gtid_set.specs.Full.{IsKept};

    ghost view = { λ s. set_of s.spans };

    ghost invariant = { λ s. IsKept s.spans };
}

/// The set of spans that were made for it.
fn made(alloc: Global, spans: Kept) -> Result<GtidSet, SetFault>
    ensures ok { IfOk result (λ s. s ≡ set_of spans) }
    ensures fault { IsOkUnless result Memory }
{
    spans.is_kept();
    let spans = Shared::new(alloc, spans)?;
    Ok(GtidSet { spans })
}

/// Whether two sets have too many sources together.
fn have_many_sources(left: &Shared, right: &Shared) -> bool
    ensures { result ≡ nat_lt most_sources (source_count (set.union (set_of left.now) (set_of right.now))) }
{
    left.is_kept();
    right.is_kept();
    left.sources() + right.sources() > MOST_SOURCES
        && sweep::count_sources(left.cursor(), right.cursor()) > MOST_SOURCES as u64
}

/// The result of an operation on two sets, unless it has too many sources.
fn combination(
    alloc: Global,
    operation: Operation,
    left: &Shared,
    right: &Shared,
) -> Result<GtidSet, SetFault>
    requires left { is_merged left.now ≡ true }
    requires right { is_merged right.now ≡ true }
    requires fits { source_count (combination operation (set_of left.now) (set_of right.now)) ≤ most_sources }
    ensures ok { IfOk result (λ s. s ≡ combination operation (set_of left.now) (set_of right.now)) }
    ensures full { IsCrowdedExactly result (combination operation (set_of left.now) (set_of right.now)) }
{
    match combine(alloc, operation, left.by_source(), right.by_source()) {
        Ok(spans) => made(alloc, spans),
        Err(fault) => Err(fault),
    }
}

/// The union of two sets.
fn union(alloc: Global, left: &Shared, right: &Shared) -> Result<GtidSet, SetFault>
    requires left { is_merged left.now ≡ true }
    requires right { is_merged right.now ≡ true }
    ensures ok { IfOk result (λ s. s ≡ set.union (set_of left.now) (set_of right.now)) }
    ensures full { IsFullExactly result (set.union (set_of left.now) (set_of right.now)) }
{
    if have_many_sources(left, right) {
        return Err(SetFault::SourcesFull);
    }
    combination(alloc, Operation::Union, left, right)
}

/// The difference of two sets.
fn difference(alloc: Global, left: &Shared, right: &Shared) -> Result<GtidSet, SetFault>
    requires left { is_merged left.now ≡ true }
    requires right { is_merged right.now ≡ true }
    requires fits { source_count (set_of left.now) ≤ most_sources }
    ensures ok { IfOk result (λ s. s ≡ set.difference (set_of left.now) (set_of right.now)) }
    ensures full { IsCrowdedExactly result (set.difference (set_of left.now) (set_of right.now)) }
{
    combination(alloc, Operation::Difference, left, right)
}

/// The intersection of two sets.
fn intersection(alloc: Global, left: &Shared, right: &Shared) -> Result<GtidSet, SetFault>
    requires left { is_merged left.now ≡ true }
    requires right { is_merged right.now ≡ true }
    requires fits { source_count (set_of left.now) ≤ most_sources }
    ensures ok { IfOk result (λ s. s ≡ set.intersection (set_of left.now) (set_of right.now)) }
    ensures full { IsCrowdedExactly result (set.intersection (set_of left.now) (set_of right.now)) }
{
    combination(alloc, Operation::Intersection, left, right)
}

/// The set of spans that are sorted by their starts, of not too many sources.
fn from_fitting_spans(alloc: Global, spans: &[Span]) -> Result<GtidSet, SetFault>
    requires rises { is_sorted spans.now ≡ true }
    requires fits { source_count (set_of spans.now) ≤ most_sources }
    ensures ok { IfOk result (λ s. s ≡ set_of spans.now) }
    ensures full { IsCrowdedExactly result (set_of spans.now) }
{
    match gather(alloc, spans) {
        Ok(spans) => made(alloc, spans),
        Err(fault) => Err(fault),
    }
}

/// The set of spans that are sorted by their starts, none of them reversed.
fn from_spans(alloc: Global, spans: &[Span]) -> Result<GtidSet, SetFault>
    requires rises { is_sorted spans.now ≡ true }
    requires filled { list_all (λ s. nat_le s.lo s.hi) spans.now ≡ true }
    ensures ok { IfOk result (λ s. s ≡ set_of spans.now) }
    ensures full { IsFullExactly result (set_of spans.now) }
{
    if sweep::count_sources_of(spans) > MOST_SOURCES as u64 {
        return Err(SetFault::SourcesFull);
    }
    from_fitting_spans(alloc, spans)
}

/// Whether two sets are the same.
fn are_equal(left: &Shared, right: &Shared) -> bool
    requires left { is_merged left.now ≡ true }
    requires right { is_merged right.now ≡ true }
    ensures { IsTrue result ↔ (set_of left.now ≡ set_of right.now) }
{
    if !is_within(left.by_source(), right.by_source()) {
        return false;
    }
    is_within(right.by_source(), left.by_source())
}

/// The set of one source's GTIDs, or of the others.
fn of_source(
    alloc: Global,
    spans: &Shared,
    source: SourceId,
    wanted: bool,
) -> Result<GtidSet, SetFault>
    requires kept { IsKept spans.now }
    ensures ok { IfOk result (λ s. s ≡ kept_sources (set_of spans.now) source wanted) }
    ensures fault { IsOkUnless result Memory }
{
    let Ok(spans) = single::of_source(alloc, spans.cursor(), source, wanted) else {
        return Err(SetFault::Memory);
    };
    from_fitting_spans(alloc, &spans)
}

impl GtidSet {
    /// The set without members.
    pub fn empty(alloc: Global) -> Self
        ensures { result ≡ set.empty }
    {
        let spans = Shared::open(alloc);
        spans.is_kept();
        GtidSet { spans }
    }

    /// Whether the set has a GTID. It takes as many steps as the number of intervals has binary digits.
    pub fn contains(&self, gtid: &Gtid) -> bool
        ensures { result ≡ set.contains self.now gtid.now }
    {
        self.spans.span_with(gtid).is_some()
    }

    /// A law, which does nothing: a set has at most 65,536 sources and 4,294,967,294 intervals.
    pub fn keeps_limits(&self)
        ensures sources { source_count self.now ≤ most_sources }
        ensures intervals { interval_count self.now ≤ most_intervals }
    {
        self.spans.is_kept();
    }

    /// A law, which changes nothing: the sources have 128 bits. One pass over the intervals.
    pub fn keeps_sources(&self)
        ensures { HaveSources self.now }
    {
        single::sources_fit(self.spans.cursor());
    }

    /// Whether transactions may have the numbers of all GTIDs: 1 to 2^63 - 1. It does not allocate: one pass over the intervals.
    pub fn are_numbers_in_range(&self) -> bool
        ensures { IsTrue result ↔ HaveNumbers self.now }
    {
        self.spans.is_kept();
        single::are_in_range(self.spans.cursor())
    }

    /// Whether the set with one more GTID would not have too many sources. It costs no more than the search for a source, and does not
    /// allocate.
    pub fn has_room_for(&self, gtid: &Gtid) -> bool
        ensures room { result ≡ true → source_count (set.insert self.now gtid.now) ≤ most_sources }
        ensures full { result ≡ false → HasManySources (set.insert self.now gtid.now) }
    {
        let Gtid { source, number } = *gtid;
        self.spans.has_room_for(&Span {
            source,
            lo: number,
            hi: number,
        })
    }

    /// Whether the set and another have not too many sources together. It does not allocate: it compares the two counts, and passes over
    /// both sets only if their sum is too many.
    pub fn has_room_for_all(&self, other: &GtidSet) -> bool
        ensures room { result ≡ true → source_count (set.union self.now other.now) ≤ most_sources }
        ensures full { result ≡ false → HasManySources (set.union self.now other.now) }
    {
        !have_many_sources(&self.spans, &other.spans)
    }

    /// Adds a GTID. After an error the set is as it was. The number after a source's last is added without a search among the intervals, unless
    /// intervals were put before them since. A set that shares its intervals with a copy takes a copy of its own first.
    pub fn add(&mut self, gtid: Gtid) -> Result<(), SetFault>
        ensures ok { OnOk result (self.new ≡ set.insert self.old gtid) }
        ensures err { OnErr result (self.new ≡ self.old) }
        ensures full { IsFullExactly result (set.insert self.old gtid) }
    {
        self.add_span(Span {
            source: gtid.source,
            lo: gtid.number,
            hi: gtid.number,
        })
    }

    /// Adds the GTIDs of an interval; one whose end is below its start has none. After an error the set is as it was.
    pub fn add_span(&mut self, span: Span) -> Result<(), SetFault>
        ensures ok { OnOk result (self.new ≡ set.union self.old (interval span.source span.lo span.hi)) }
        ensures err { OnErr result (self.new ≡ self.old) }
        ensures full { IsFullExactly result (set.union self.old (interval span.source span.lo span.hi)) }
    {
        self.spans.is_kept();
        if span.hi < span.lo {
            return Ok(());
        }
        self.spans.add(span)?;
        self.spans.is_kept();
        Ok(())
    }

    /// The same set. The two share their intervals until one of them is changed, which then takes a copy of its own.
    pub fn copy(&self, alloc: Global) -> Result<GtidSet, SetFault>
        ensures ok { IfOk result (λ s. s ≡ self.now) }
        ensures fault { IsOkUnless result Memory }
    {
        Ok(GtidSet {
            spans: self.spans.copy(alloc)?,
        })
    }

    /// The GTIDs of both sets.
    pub fn union(&self, alloc: Global, other: &GtidSet) -> Result<GtidSet, SetFault>
        ensures ok { IfOk result (λ s. s ≡ set.union self.now other.now) }
        ensures full { IsFullExactly result (set.union self.now other.now) }
    {
        union(alloc, &self.spans, &other.spans)
    }

    /// The GTIDs of this set that the other has not.
    pub fn subtract(&self, alloc: Global, other: &GtidSet) -> Result<GtidSet, SetFault>
        ensures ok { IfOk result (λ s. s ≡ set.difference self.now other.now) }
        ensures full { IsCrowdedExactly result (set.difference self.now other.now) }
    {
        difference(alloc, &self.spans, &other.spans)
    }

    /// The GTIDs that both sets have.
    pub fn intersect(&self, alloc: Global, other: &GtidSet) -> Result<GtidSet, SetFault>
        ensures ok { IfOk result (λ s. s ≡ set.intersection self.now other.now) }
        ensures full { IsCrowdedExactly result (set.intersection self.now other.now) }
    {
        intersection(alloc, &self.spans, &other.spans)
    }

    /// Whether the other set has all GTIDs of this one.
    pub fn is_subset(&self, other: &GtidSet) -> bool
        ensures { result ≡ set.is_subset self.now other.now }
    {
        is_within(self.spans.by_source(), other.spans.by_source())
    }

    /// Whether no GTID is in both sets.
    pub fn is_disjoint(&self, other: &GtidSet) -> bool
        ensures { IsTrue result ↔ (set.intersection self.now other.now ≡ set.empty) }
    {
        are_apart(self.spans.by_source(), other.spans.by_source())
    }

    /// The least number from 1 that the set lacks of a source, or none if it has all that a transaction may have.
    pub fn least_unused(&self, source: SourceId) -> Option<u64>
        ensures { result ≡ least_unused self.now source }
    {
        match self.spans.span_with(&Gtid { source, number: 1 }) {
            None => Some(1),
            Some(span) if span.hi < GREATEST => Some(span.hi + 1),
            Some(_) => None,
        }
    }

    /// The last number up to which the set has all numbers of a source from a number on, or none if it lacks that number. It takes as many
    /// steps as the number of intervals has binary digits.
    pub fn run_end(&self, source: SourceId, number: u64) -> Option<u64>
        ensures some { IfSome result (λ last. IsRunEnd self.now source number last) }
        ensures none { IfNone result (set.contains self.now (gtid source number) ≡ false) }
    {
        match self.spans.span_with(&Gtid { source, number }) {
            Some(span) => Some(span.hi),
            None => None,
        }
    }

    /// The longest runs of numbers of the set, by source and number.
    pub fn spans(&self, alloc: Global) -> Result<Vec<Span>, AllocError>
        ensures runs { IfOk result (λ v. v.items ≡ runs self.now) }
        ensures merged { IfOk result (λ v. is_merged v.items ≡ true) }
        ensures stand { IfOk result (λ v. set_of v.items ≡ self.now) }
    {
        single::collect_spans(alloc, self.spans.cursor())
    }

    /// Reads the text of a set, whatever the order of its intervals.
    pub fn from_text(alloc: Global, text: &str) -> Result<GtidSet, SetTextFault>
        // An accepted text is a text of the resulting set by the grammar.
        ensures found { IfOk result (λ s. ParsesAsSet text.now s) }
        // A text of a set by the grammar is accepted as it, if memory and its sources allow.
        ensures only { (s : Gtids) → ParsesAsSet text.now s → IsReadAs result s }
        // It is refused if the text parses as no set, or one with too many sources. Out of memory is the answer to a set's text alone.
        ensures refused { IfErr result (λ fault. RefusesSet fault text.now) }
        // The result is the defined one, also which refusal it is.
        ensures exact { GivesSet result (set_in text.now) }
    {
        let mut spans = match parse_spans(alloc, text) {
            Ok(spans) => spans,
            Err(fault) => return Err(SetTextFault::Text(fault)),
        };
        text::sort_by_start(&mut spans);
        match from_spans(alloc, &spans) {
            Ok(set) => Ok(set),
            Err(fault) => Err(SetTextFault::Set(fault)),
        }
    }

    /// The canonical text: sources in lower case and ascending, the longest runs ascending, one comma and nothing else between sources. Our own rule.
    pub fn to_text(&self, alloc: Global) -> Result<String, AllocError>
        ensures { IfOk result (λ t. string_bytes t ≡ canonical self.now) }
    {
        text::format_spans(alloc, self.spans.cursor())
    }

    /// Whether the sets have the same GTIDs.
    pub fn is_equal(&self, other: &GtidSet) -> bool
        ensures { IsTrue result ↔ (self.now ≡ other.now) }
    {
        are_equal(&self.spans, &other.spans)
    }

    /// The GTIDs of one source.
    pub fn only(&self, alloc: Global, source: SourceId) -> Result<GtidSet, SetFault>
        ensures ok { IfOk result (λ s. s ≡ only self.now source) }
        ensures fault { IsOkUnless result Memory }
    {
        of_source(alloc, &self.spans, source, true)
    }

    /// The GTIDs of all sources but one.
    pub fn without(&self, alloc: Global, source: SourceId) -> Result<GtidSet, SetFault>
        ensures ok { IfOk result (λ s. s ≡ without self.now source) }
        ensures fault { IsOkUnless result Memory }
    {
        of_source(alloc, &self.spans, source, false)
    }

    /// How many GTIDs the set has.
    pub fn count(&self) -> u128
        ensures { result ≡ set.len self.now }
    {
        single::count_numbers(self.spans.cursor())
    }
}
