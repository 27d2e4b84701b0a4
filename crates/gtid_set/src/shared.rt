//! Merged spans that a set shares with its copies.
ghost use Rattle.std.specs.Prelude.{◌≡◌, ◌≤◌, ◌||◌, [], true, false, IfOk, IfSome, IfNone, OnOk, OnErr, IsOkUnless};
ghost use Rattle.gtid_set.specs.declared.fault.SetFault.TheVariants.{Memory};
ghost use Rattle.gtid_set.specs.Sets.{most_sources, source_count};
ghost use Rattle.gtid_set.specs.Spans.{set_of, has};
ghost use Rattle.gtid_set.specs.Sweep.{IsListOf, HasSpan, KnowsSource, within};
ghost use Rattle.gtid_set.specs.Full.{IsFullExactly, IsKept, HasManySources};
ghost use Rattle.gtid_set.specs.Shared.{with_span};

use crate::by_source::SourceLists;
use crate::cursor::Cursor;
use crate::fault::SetFault;
use crate::kept::{Kept, MOST_SOURCES};
use gtid_text::{Gtid, SourceId, Span};
use std::alloc::Global;
use std::marker::Model;
use std::sync::Arc;

/// Merged spans. A copy shares them, until spans are added to one of the two.
#[derive(Drop)]
pub struct Shared {
    alloc: Global,
    owned: Owning,
}

/// Who owns spans.
#[derive(Drop)]
enum Owning {
    /// This set alone, which is empty: nothing was allocated for it.
    Alone(Kept),
    /// As many sets as share them.
    Together(Arc<Kept>),
}

impl Model for Shared {
    ghost use Rattle.std.specs.Prelude.{List};
    ghost use Rattle.gtid_text.specs.declared.Span.{Span};
    ghost use Rattle.gtid_set.specs.Shared.{owned_spans};

    ghost Value = { List Span };

    ghost view = { λ s. owned_spans s.owned };
}

impl Shared {
    /// No spans. It does not allocate.
    pub fn open(alloc: Global) -> Shared
        ensures { result ≡ [] }
    {
        Shared {
            alloc,
            owned: Owning::Alone(Kept::open(alloc)),
        }
    }

    /// These spans.
    pub fn new(alloc: Global, kept: Kept) -> Result<Shared, SetFault>
        ensures ok { IfOk result (λ s. s ≡ kept) }
        ensures fault { IsOkUnless result Memory }
    {
        let owned = Owning::Together(Arc::new(alloc, kept)?);
        Ok(Shared { alloc, owned })
    }

    /// The spans, whether they are shared or not.
    fn kept(&self) -> &Kept
        ensures { result.now ≡ self.now }
    {
        match &self.owned {
            Owning::Alone(kept) => kept,
            Owning::Together(kept) => kept,
        }
    }

    /// The spans from the first on.
    pub fn cursor(&self) -> Cursor<'_>
        ensures { result ≡ self.now }
    {
        self.kept().cursor()
    }

    /// The sources from the first on, with their numbers.
    pub fn by_source(&self) -> SourceLists<'_>
        ensures { result ≡ self.now }
    {
        self.kept().by_source()
    }

    /// A law, which does nothing: spans are merged, and neither they nor their sources are too many.
    pub fn is_kept(&self)
        ensures { IsKept self.now }
    {
        self.kept().is_kept();
    }

    /// How many sources the spans have.
    pub fn sources(&self) -> usize
        ensures { result ≡ source_count (set_of self.now) }
    {
        self.kept().sources()
    }

    /// The span that has a GTID, if there is one.
    pub fn span_with(&self, gtid: &Gtid) -> Option<Span>
        ensures none { IfNone result (has self.now gtid.now ≡ false) }
        ensures some { IfSome result (HasSpan self.now gtid.now) }
    {
        self.kept().span_with(gtid)
    }

    /// Whether one of the spans is of a source.
    pub fn has_source(&self, id: SourceId) -> bool
        ensures { KnowsSource result self.now id }
    {
        self.kept().has_source(id)
    }

    /// Whether the spans have not too many sources with another. It costs no more than the search for a source, and does not allocate.
    pub fn has_room_for(&self, span: &Span) -> bool
        requires filled { span.now.lo ≤ span.now.hi }
        ensures room { result ≡ true → source_count (with_span (set_of self.now) span.now) ≤ most_sources }
        ensures full { result ≡ false → HasManySources (with_span (set_of self.now) span.now) }
    {
        self.is_kept();
        if self.sources() < MOST_SOURCES {
            return true;
        }
        self.has_source(span.source)
    }

    /// Joins a span to the others, of which this takes a copy of its own. An error leaves them as they were.
    #[inline(never)]
    fn add_to_copy(&mut self, span: Span) -> Result<(), SetFault>
        requires filled { span.lo ≤ span.hi }
        ensures ok { OnOk result (IsListOf (λ q. within span q || has self.old q) self.new) }
        ensures err { OnErr result (self.new ≡ self.old) }
        ensures full { IsFullExactly result (with_span (set_of self.old) span) }
    {
        if !self.has_room_for(&span) {
            return Err(SetFault::SourcesFull);
        }
        let mut kept = self.kept().copy(self.alloc)?;
        kept.add(span)?;
        self.owned = Owning::Together(Arc::new(self.alloc, kept)?);
        Ok(())
    }

    /// Joins a span to the others. An error leaves them as they were.
    pub fn add(&mut self, span: Span) -> Result<(), SetFault>
        requires filled { span.lo ≤ span.hi }
        ensures ok { OnOk result (IsListOf (λ q. within span q || has self.old q) self.new) }
        ensures err { OnErr result (self.new ≡ self.old) }
        ensures full { IsFullExactly result (with_span (set_of self.old) span) }
    {
        if let Owning::Together(shared) = &mut self.owned {
            if let Some(kept) = Arc::get_mut(shared) {
                return kept.add(span);
            }
        }
        self.add_to_copy(span)
    }

    /// The same spans.
    pub fn copy(&self, alloc: Global) -> Result<Shared, SetFault>
        ensures ok { IfOk result (λ s. s ≡ self.now) }
        ensures fault { IsOkUnless result Memory }
    {
        let owned = match &self.owned {
            Owning::Alone(kept) => Owning::Alone(kept.copy(alloc)?),
            Owning::Together(kept) => Owning::Together(kept.clone()?),
        };
        Ok(Shared { alloc, owned })
    }
}
