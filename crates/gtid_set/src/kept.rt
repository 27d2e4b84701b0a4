//! Merged spans in a pool, by source and number.
ghost use Rattle.std.specs.Prelude.{◌≡◌, ◌≤◌, ◌<◌, ◌+◌, ◌++◌, ◌||◌, [], true, false, IfOk, IfErr, OnOk, OnErr, IfSome, IfNone, IsOkUnless};
ghost use Rattle.std.specs.List.{concat};
ghost use Rattle.std.specs.FinSet as set;
ghost use Rattle.gtid_set.specs.declared.fault.SetFault.TheVariants.{Memory};
ghost use Rattle.gtid_set.specs.Sets.{interval, most_sources, source_count};
ghost use Rattle.gtid_set.specs.Spans.{set_of, is_merged, has};
ghost use Rattle.gtid_set.specs.Sweep.{IsListOf, HasSpan, KnowsSource, all_before, within};
ghost use Rattle.gtid_set.specs.Full.{IsFullExactly, IsKept};
ghost use Rattle.gtid_set.specs.BySource.{IsTooLong};
ghost use Rattle.gtid_set.specs.Kept.{IsKeptIn, IsSourceOf, IsSourcePlace, IsListFault, Lists, HasSameLists, Grown, IsRun, Stays, spans_as, are_others, sources_at, flat, interval_of};
ghost use Rattle.gtid_set.specs.Order.{IsSeat, index_of};

use crate::by_source::SourceLists;
use crate::cursor::Cursor;
use crate::fault::SetFault;
use crate::order::{Block, Seat, copy_order, place_at, put};
use crate::sources::{SourceList, find, find_in_place, find_last, find_near, seat_of};
use gtid_text::{Gtid, SourceId, Span};
use interval_pool::{Interval, ListId, Pool};
use std::alloc::{AllocError, Global};
use std::marker::Model;

/// The most sources that a set may have. Our own rule.
pub const MOST_SOURCES: usize = 65_536;

/// Merged spans in a pool, in one list for each source.
#[derive(Drop)]
pub struct Kept {
    pool: Pool,
    // the sources as they came
    sources: Vec<SourceList>,
    // their places in blocks, by source
    order: Vec<Block>,
    // the place where the search for a source begins: guesses, by `slot_of`
    guesses: [u16; 16],
}

/// The slot with the guess of a source. Some sources share one. (The UUIDs of one server's instances differ in their first bits.)
#[inline(always)]
fn slot_of(id: SourceId) -> usize
    ensures { result < 16 }
{
    let bits = id.bits();
    ((bits ^ (bits >> 95)) % 16) as usize
}

/// The last place of a source.
fn last_of(sources: &[SourceList]) -> u16 {
    (sources.len().saturating_sub(1) % 65_536) as u16
}

impl Model for Kept {
    ghost use Rattle.std.specs.Prelude.{List};
    ghost use Rattle.gtid_text.specs.declared.Span.{Span};
    ghost use Rattle.std.specs.List.{concat};
    ghost use Rattle.gtid_set.specs.Kept.{flat, IsKeptIn};

    ghost Value = { List Span };

    ghost view = { λ k. flat k.pool k.sources.items (concat k.order.items) };

    ghost invariant = { λ k. IsKeptIn k.pool k.sources.items (concat k.order.items) };
}

/// The numbers of a span.
fn numbers(span: &Span) -> Interval
    ensures { result ≡ interval_of span.now }
{
    Interval {
        lo: span.lo,
        hi: span.hi,
    }
}

/// Adds the numbers of a span to the list of its source.
fn add_to(
    pool: &mut Pool,
    sources: &[SourceList],
    order: &[Block],
    source: SourceList,
    span: &Span,
) -> Result<(), SetFault>
    requires kept { IsKeptIn pool.old sources.now (concat order.now) }
    requires source { IsSourceOf (sources_at sources.now (concat order.now)) source span.now.source }
    requires filled { span.now.lo ≤ span.now.hi }
    ensures ok { OnOk result (Grown pool.old sources.now (concat order.now) span.now pool.new sources.now (concat order.now)) }
    ensures err { OnErr result (pool.new ≡ pool.old) }
    ensures full { IsFullExactly result (set.union (set_of (flat pool.old sources.now (concat order.now))) (interval span.now.source span.now.lo span.now.hi)) }
{
    pool.partition();
    match pool.add(source.list, numbers(span)) {
        Ok(()) => {
            pool.partition();
            Ok(())
        }
        Err(fault) => Err(SetFault::from(fault)),
    }
}

/// Appends the numbers of a span to those of its source.
fn append_to(
    pool: &mut Pool,
    sources: &[SourceList],
    order: &[Block],
    source: SourceList,
    span: &Span,
) -> Result<(), SetFault>
    requires kept { IsKeptIn pool.old sources.now (concat order.now) }
    requires source { IsSourceOf (sources_at sources.now (concat order.now)) source span.now.source }
    requires filled { span.now.lo ≤ span.now.hi }
    requires before { all_before (flat pool.old sources.now (concat order.now)) span.now ≡ true }
    ensures ok { OnOk result (Grown pool.old sources.now (concat order.now) span.now pool.new sources.now (concat order.now)) }
    ensures err { OnErr result (pool.new ≡ pool.old) }
    ensures full { IsFullExactly result (set.union (set_of (flat pool.old sources.now (concat order.now))) (interval span.now.source span.now.lo span.now.hi)) }
{
    pool.partition();
    match pool.append(source.list, numbers(span)) {
        Ok(()) => {
            pool.partition();
            Ok(())
        }
        Err(fault) => Err(SetFault::from(fault)),
    }
}

/// A list of these numbers. An error leaves the others as they were.
fn open_list(pool: &mut Pool, numbers: Interval) -> Result<ListId, SetFault>
    requires { numbers.lo ≤ numbers.hi }
    ensures ok { IfOk result (λ l. Lists pool.old l numbers pool.new) }
    ensures err { OnErr result (HasSameLists pool.old pool.new) }
    ensures full { IfErr result (λ f. IsListFault f pool.old) }
{
    let list = match pool.new_list() {
        Ok(list) => list,
        Err(fault) => return Err(SetFault::from(fault)),
    };
    match pool.add(list, numbers) {
        Ok(()) => Ok(list),
        Err(fault) => {
            pool.release(list);
            Err(SetFault::from(fault))
        }
    }
}

/// Adds a span of a source that has none, whose place this is. An error leaves the others as they were.
fn insert(
    pool: &mut Pool,
    sources: &mut Vec<SourceList>,
    order: &mut Vec<Block>,
    at: Seat,
    span: &Span,
) -> Result<(), SetFault>
    requires kept { IsKeptIn pool.old sources.old.items (concat order.old.items) }
    requires place { IsSourcePlace (sources_at sources.old.items (concat order.old.items)) span.now.source (index_of order.old.items at) }
    requires seat { IsSeat order.old.items at }
    requires new { are_others span.now.source (sources_at sources.old.items (concat order.old.items)) ≡ true }
    requires filled { span.now.lo ≤ span.now.hi }
    ensures ok { OnOk result (Grown pool.old sources.old.items (concat order.old.items) span.now pool.new sources.new.items (concat order.new.items)) }
    ensures err { OnErr result (Stays pool.old sources.old.items (concat order.old.items) pool.new sources.new.items (concat order.new.items)) }
    ensures full { IsFullExactly result (set.union (set_of (flat pool.old sources.old.items (concat order.old.items))) (interval span.now.source span.now.lo span.now.hi)) }
{
    let count = sources.as_slice().len();
    if count == MOST_SOURCES {
        return Err(SetFault::SourcesFull);
    }
    let Ok(()) = sources.reserve(1) else {
        return Err(SetFault::Memory);
    };
    let opened = match open_list(pool, numbers(span)) {
        Ok(list) => list,
        Err(fault) => return Err(fault),
    };
    match put(order, at, count as u16) {
        Ok(()) => {
            let id = span.source;
            sources.push_reserved(SourceList { id, list: opened });
            pool.partition();
            Ok(())
        }
        Err(_) => {
            pool.release(opened);
            Err(SetFault::Memory)
        }
    }
}

/// Appends a span.
fn push(
    pool: &mut Pool,
    sources: &mut Vec<SourceList>,
    order: &mut Vec<Block>,
    span: &Span,
) -> Result<(), SetFault>
    requires kept { IsKeptIn pool.old sources.old.items (concat order.old.items) }
    requires filled { span.now.lo ≤ span.now.hi }
    requires before { all_before (flat pool.old sources.old.items (concat order.old.items)) span.now ≡ true }
    ensures ok { OnOk result (Grown pool.old sources.old.items (concat order.old.items) span.now pool.new sources.new.items (concat order.new.items)) }
    ensures err { OnErr result (Stays pool.old sources.old.items (concat order.old.items) pool.new sources.new.items (concat order.new.items)) }
    ensures full { IsFullExactly result (set.union (set_of (flat pool.old sources.old.items (concat order.old.items))) (interval span.now.source span.now.lo span.now.hi)) }
{
    match find_last(sources, order, span.source) {
        Some(source) => append_to(pool, sources, order, source, span),
        None => {
            let end = Seat {
                block: order.as_slice().len(),
                offset: 0,
            };
            insert(pool, sources, order, end, span)
        }
    }
}

/// Appends a source's intervals to the spans.
fn extend_to(
    pool: &mut Pool,
    sources: &[SourceList],
    order: &[Block],
    source: SourceList,
    run: &[Interval],
) -> Result<(), SetFault>
    requires kept { IsKeptIn pool.old sources.now (concat order.now) }
    requires source { IsSourceOf (sources_at sources.now (concat order.now)) source source.id }
    requires merged { is_merged (flat pool.old sources.now (concat order.now) ++ spans_as source.id run.now) ≡ true }
    ensures ok { OnOk result (IsRun pool.old sources.now (concat order.now) source.id run.now pool.new) }
    ensures err { OnErr result (pool.new ≡ pool.old) }
    ensures full { IfErr result (IsTooLong (flat pool.old sources.now (concat order.now) ++ spans_as source.id run.now)) }
{
    pool.partition();
    match pool.extend(source.list, run) {
        Ok(()) => {
            pool.partition();
            Ok(())
        }
        Err(fault) => Err(SetFault::from(fault)),
    }
}

/// Appends a source's intervals to the spans.
fn put_run(
    pool: &mut Pool,
    sources: &mut Vec<SourceList>,
    order: &mut Vec<Block>,
    id: SourceId,
    run: &[Interval],
) -> Result<(), SetFault>
    requires kept { IsKeptIn pool.old sources.old.items (concat order.old.items) }
    requires merged { is_merged (flat pool.old sources.old.items (concat order.old.items) ++ spans_as id run.now) ≡ true }
    requires fits { source_count (set_of (flat pool.old sources.old.items (concat order.old.items) ++ spans_as id run.now)) ≤ most_sources }
    ensures kept { IsKeptIn pool.new sources.new.items (concat order.new.items) }
    ensures parts { OnOk result (flat pool.new sources.new.items (concat order.new.items) ≡ flat pool.old sources.old.items (concat order.old.items) ++ spans_as id run.now) }
    ensures full { IfErr result (IsTooLong (flat pool.old sources.old.items (concat order.old.items) ++ spans_as id run.now)) }
{
    let mut rest = run;
    while let Some((first, more)) = rest.split_first() {
        let Interval { lo, hi } = *first;
        let span = Span { source: id, lo, hi };
        match push(pool, sources, order, &span) {
            Ok(()) => rest = more,
            Err(fault) => return Err(fault),
        }
        let Some(source) = find_last(sources, order, id) else {
            continue;
        };
        return extend_to(pool, sources, order, source, more);
    }
    Ok(())
}

impl Kept {
    /// A list without spans. It does not allocate.
    pub fn open(alloc: Global) -> Kept
        ensures { result ≡ [] }
    {
        Kept {
            pool: Pool::open(alloc),
            sources: Vec::new(alloc),
            order: Vec::new(alloc),
            guesses: [0; 16],
        }
    }

    /// The spans from the first on.
    pub fn cursor(&self) -> Cursor<'_>
        ensures { result ≡ self.now }
    {
        Cursor::over(&self.pool, &self.sources, &self.order)
    }

    /// The sources from the first on, with their numbers.
    pub fn by_source(&self) -> SourceLists<'_>
        ensures { result ≡ self.now }
    {
        SourceLists::of(&self.pool, &self.sources, &self.order)
    }

    /// Appends a source's intervals to the spans. An error leaves some of them there.
    pub fn put(&mut self, id: SourceId, run: &[Interval]) -> Result<(), SetFault>
        requires merged { is_merged (self.old ++ spans_as id run.now) ≡ true }
        requires fits { source_count (set_of (self.old ++ spans_as id run.now)) ≤ most_sources }
        ensures ok { OnOk result (self.new ≡ self.old ++ spans_as id run.now) }
        ensures full { IfErr result (IsTooLong (self.old ++ spans_as id run.now)) }
    {
        put_run(&mut self.pool, &mut self.sources, &mut self.order, id, run)?;
        self.guesses[slot_of(id)] = last_of(&self.sources);
        Ok(())
    }

    /// A law, which does nothing: spans are merged, and neither they nor their sources are too many.
    pub fn is_kept(&self)
        ensures { IsKept self.now }
    {
        let _ = &self.pool;
    }

    /// How many sources the spans have.
    pub fn sources(&self) -> usize
        ensures { result ≡ source_count (set_of self.now) }
    {
        self.sources.len()
    }

    /// The span that has a GTID, if there is one.
    pub fn span_with(&self, gtid: &Gtid) -> Option<Span>
        ensures none { IfNone result (has self.now gtid.now ≡ false) }
        ensures some { IfSome result (HasSpan self.now gtid.now) }
    {
        let guess = self.guesses[slot_of(gtid.source)];
        let Some(source) = find_near(&self.sources, &self.order, guess, gtid.source) else {
            return None;
        };
        self.pool.partition();
        let Some(Interval { lo, hi }) = self.pool.interval_with(source.list, gtid.number) else {
            return None;
        };
        Some(Span {
            source: gtid.source,
            lo,
            hi,
        })
    }

    /// Whether one of the spans is of a source.
    pub fn has_source(&self, id: SourceId) -> bool
        ensures { KnowsSource result self.now id }
    {
        self.pool.partition();
        let guess = self.guesses[slot_of(id)];
        match find_near(&self.sources, &self.order, guess, id) {
            Some(_source) => true,
            None => false,
        }
    }

    /// Joins a span to the others. An error leaves them as they were.
    pub fn add(&mut self, span: Span) -> Result<(), SetFault>
        requires filled { span.lo ≤ span.hi }
        ensures ok { OnOk result (IsListOf (λ q. within span q || has self.old q) self.new) }
        ensures err { OnErr result (self.new ≡ self.old) }
        ensures full { IsFullExactly result (set.union (set_of self.old) (interval span.source span.lo span.hi)) }
    {
        let guess = self.guesses[slot_of(span.source)];
        match find_in_place(&self.sources, &self.order, guess, span.source) {
            Some(source) => add_to(&mut self.pool, &self.sources, &self.order, source, &span),
            None => self.add_by_search(span),
        }
    }

    /// Joins a span to the others by a search for the seat of its source. An error leaves them as they were.
    #[inline(never)]
    fn add_by_search(&mut self, span: Span) -> Result<(), SetFault>
        requires filled { span.lo ≤ span.hi }
        ensures ok { OnOk result (IsListOf (λ q. within span q || has self.old q) self.new) }
        ensures err { OnErr result (self.new ≡ self.old) }
        ensures full { IsFullExactly result (set.union (set_of self.old) (interval span.source span.lo span.hi)) }
    {
        let at = seat_of(&self.sources, &self.order, span.source);
        match find(&self.sources, &self.order, at, span.source) {
            Some(source) => add_to(&mut self.pool, &self.sources, &self.order, source, &span)?,
            None => insert(
                &mut self.pool,
                &mut self.sources,
                &mut self.order,
                at,
                &span,
            )?,
        }
        self.note(span.source, at);
        Ok(())
    }

    /// Remembers the place at a seat as the guess of a source; past all seats it is the last place.
    fn note(&mut self, id: SourceId, at: Seat)
        ensures { self.new ≡ self.old }
    {
        self.guesses[slot_of(id)] = match place_at(&self.order, at) {
            Some(place) => place,
            None => last_of(&self.sources),
        };
    }

    /// The same spans.
    pub fn copy(&self, alloc: Global) -> Result<Kept, SetFault>
        ensures ok { IfOk result (λ k. k ≡ self.now) }
        ensures fault { IsOkUnless result Memory }
    {
        let pool = self.pool.copy(alloc)?;
        let sources = Vec::from_slice(alloc, &self.sources)?;
        let order = copy_order(alloc, &self.order)?;
        Ok(Kept {
            pool,
            sources,
            order,
            guesses: self.guesses,
        })
    }
}
