//! Which source touched each mark of a key.
ghost use Rattle.std.specs.Prelude.{◌≡◌, ◌≤◌, ◌==◌, ℕ, [], ◌∷◌, true, false, cond, nat_eq, Some, IfOk, OnOk};
ghost use Rattle.indexmap.specs.IndexMap.{get};
ghost use Rattle.audit.specs.Marks.{TouchesMarks, owner_of};

use gtid_text::SourceId;
use key_table::KeyTable;
use std::alloc::{AllocError, Global};

/// A mark, and the source that touched it: 0 if the slot is free.
#[derive(Clone, Copy)]
struct MarkSlot {
    mark: u64,
    owner: SourceId,
}

/// Which source touched each mark: in the slot of its lowest bits, or among the rest if another mark is in that slot.
#[derive(Drop)]
pub(crate) struct MarkOwners {
    mask: u64,
    slots: Vec<MarkSlot>,
    rest: KeyTable<u64, SourceId>,
}

/// How many bits of a mark name its slot, for `count` slots or more; at most 22.
fn slot_bits(count: usize) -> u32
    ensures { result ≤ 22 }
{
    for bits in 6..22 {
        if 1_usize << bits >= count {
            return bits;
        }
    }
    22
}

/// Lets a source touch a mark of the rest; returns whether no other source touched it before.
fn touch_rest(
    rest: &mut KeyTable<u64, SourceId>,
    mark: u64,
    source: SourceId,
) -> Result<bool, AllocError>
    ensures own { IfOk result (λ own. own ≡ true → (owner : ℕ) → get nat_eq rest.old mark ≡ Some owner → owner ≡ source) }
    ensures touched { OnOk result ((m : ℕ) → get nat_eq rest.new m ≡ cond (nat_eq mark m) (Some source) (get nat_eq rest.old m)) }
{
    match rest.insert(mark, source) {
        Ok(Some(before)) => Ok(before == source),
        Ok(None) => Ok(true),
        Err(_) => Err(AllocError),
    }
}

pub(crate) fn is_none(source: SourceId) -> bool
    ensures { result ≡ (source == 0) }
{
    source.bits() == 0
}

fn are_same(a: u64, b: u64) -> bool
    ensures { result ≡ (a == b) }
{
    a == b
}

impl MarkOwners {
    /// No mark was touched yet; about `count` marks are expected.
    pub(crate) fn for_marks(alloc: Global, count: usize) -> Result<MarkOwners, AllocError> {
        let bits = slot_bits(count);
        let free = MarkSlot {
            mark: 0,
            owner: SourceId::from_bits(0),
        };
        let slots = vec![in alloc; free; 1_usize << bits]?;
        Ok(MarkOwners {
            mask: (1_u64 << bits).wrapping_sub(1),
            slots,
            rest: KeyTable::new(alloc),
        })
    }

    /// Lets a source touch a mark; returns whether no other source touched it before.
    pub(crate) fn touch(&mut self, mark: u64, source: SourceId) -> Result<bool, AllocError>
        requires { (source == 0) ≡ false }
        ensures { IfOk result (λ own. own ≡ true → TouchesMarks (owner_of self.old) (mark ∷ []) source (owner_of self.new)) }
    {
        let at = (mark & self.mask) as usize;
        if at >= self.slots.len() {
            return touch_rest(&mut self.rest, mark, source);
        }
        let slot = self.slots[at];
        if is_none(slot.owner) {
            self.slots[at] = MarkSlot {
                mark,
                owner: source,
            };
            return Ok(true);
        }
        if are_same(slot.mark, mark) {
            return Ok(slot.owner == source);
        }
        touch_rest(&mut self.rest, mark, source)
    }

    /// Lets a source touch marks; returns whether no other source touched one of them before. Nothing is found of source 0.
    pub(crate) fn touch_all(&mut self, marks: &[u64], source: SourceId) -> Result<bool, AllocError>
        ensures { IfOk result (λ own. own ≡ true → TouchesMarks (owner_of self.old) marks.now source (owner_of self.new)) }
    {
        if is_none(source) {
            return Ok(false);
        }
        for mark in marks {
            if !self.touch(*mark, source)? {
                return Ok(false);
            }
        }
        Ok(true)
    }
}
