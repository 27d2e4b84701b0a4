//! Places of sources in order, kept in blocks, so that an insertion moves few of them.
ghost use Rattle.std.specs.Prelude.{◌≡◌, ◌≤◌, ◌<◌, ◌-◌, ◌++◌, ◌∷◌, [], drop, length, Some, None, IsSome, OnOk, OnErr, IfOk, IfSome, MatchOption, insert};
ghost use Rattle.std.specs.List.{concat, slice_get};
ghost use Rattle.gtid_set.specs.Order.{IsSeat, IsSettled, index_of};

use std::alloc::{AllocError, Global};
use std::marker::Model;

/// A block of more places is split in two when one is inserted.
const LONG: usize = 512;

/// Some places, one after another in the order.
#[derive(Drop)]
pub struct Block {
    places: Vec<u16>,
}

impl Model for Block {
    ghost use Rattle.std.specs.Prelude.{List, ℕ};

    ghost Value = { List ℕ };

    ghost view = { λ b. b.places.items };
}

/// A seat in the order: a block, and how many come before it there.
#[derive(Clone, Copy, Drop)]
pub struct Seat {
    pub block: usize,
    pub offset: usize,
}

impl Block {
    /// The places of the block.
    #[inline(always)]
    pub fn places(&self) -> &[u16]
        ensures { result.now ≡ self.now }
    {
        &self.places
    }

    /// Inserts a place into the block. An error leaves it as it was.
    fn put(&mut self, offset: usize, place: u16) -> Result<(), AllocError>
        requires { offset ≤ length self.old }
        ensures ok { OnOk result (self.new ≡ insert self.old offset place) }
        ensures err { OnErr result (self.new ≡ self.old) }
    {
        match self.places.insert(offset, place) {
            Ok(()) => Ok(()),
            Err(_) => Err(AllocError),
        }
    }

    /// Takes the upper half out of the block. An error leaves all as it was.
    fn split(&mut self) -> Result<Block, AllocError>
        ensures ok { IfOk result (λ upper. self.old ≡ self.new ++ upper) }
        ensures err { OnErr result (self.new ≡ self.old) }
    {
        let half = self.places.as_slice().len() / 2;
        let places = Vec::from_slice(*self.places.allocator(), &self.places[half..])?;
        self.places.truncate(half);
        Ok(Block { places })
    }
}

/// The place at a seat, if there is one.
#[inline(always)]
pub fn place_at(order: &[Block], seat: Seat) -> Option<u16>
    ensures some { IfSome result (λ place. slice_get (concat order.now) (index_of order.now seat) ≡ Some place) }
    ensures seat { IsSome result → IsSeat order.now seat }
    ensures none { result ≡ None → IsSeat order.now seat → slice_get (concat order.now) (index_of order.now seat) ≡ None }
{
    if seat.block >= order.len() {
        return None;
    }
    let places = order[seat.block].places();
    if seat.offset >= places.len() {
        return None;
    }
    Some(places[seat.offset])
}

/// The last place, if there is one.
pub fn last_place(order: &[Block]) -> Option<u16>
    ensures { result ≡ slice_get (concat order.now) (length (concat order.now) - 1) }
{
    let mut rest = order;
    while let Some((block, before)) = rest.split_last() {
        let places = block.places();
        let count = places.len();
        if count > 0 {
            return Some(places[count - 1]);
        }
        rest = before;
    }
    None
}

/// Splits a block in two, if there is memory.
fn split_block(order: &mut Vec<Block>, at: usize)
    requires { at < length order.old.items }
    ensures { concat order.new.items ≡ concat order.old.items }
{
    let Ok(()) = order.reserve(1) else {
        return;
    };
    let Ok(upper) = order[at].split() else {
        return;
    };
    let _ = order.insert(at + 1, upper);
}

/// Appends a place. An error leaves the others as they were.
fn put_last(order: &mut Vec<Block>, place: u16) -> Result<(), AllocError>
    ensures ok { OnOk result (concat order.new.items ≡ concat order.old.items ++ place ∷ []) }
    ensures err { OnErr result (concat order.new.items ≡ concat order.old.items) }
{
    let count = order.as_slice().len();
    if count == 0 {
        let alloc = *order.allocator();
        let mut places = Vec::new(alloc);
        places.push(place)?;
        order.push(Block { places })?;
        return Ok(());
    }
    let last = count - 1;
    let end = order[last].places().len();
    order[last].put(end, place)
}

/// Inserts a place at a seat. An error leaves the others as they were.
pub fn put(order: &mut Vec<Block>, seat: Seat, place: u16) -> Result<(), AllocError>
    requires seat { IsSeat order.old.items seat }
    requires bound { index_of order.old.items seat ≤ length (concat order.old.items) }
    ensures ok { OnOk result (concat order.new.items ≡ insert (concat order.old.items) (index_of order.old.items seat) place) }
    ensures err { OnErr result (concat order.new.items ≡ concat order.old.items) }
{
    let Seat { block, offset } = seat;
    if block >= order.as_slice().len() {
        return put_last(order, place);
    }
    order[block].put(offset, place)?;
    if order[block].places().len() > LONG {
        split_block(order, block);
    }
    Ok(())
}

/// The same places, in one block.
pub fn copy_order(alloc: Global, order: &[Block]) -> Result<Vec<Block>, AllocError>
    ensures { IfOk result (λ blocks. concat blocks.items ≡ concat order.now) }
{
    if order.is_empty() {
        return Ok(Vec::new(alloc));
    }
    let mut places = Vec::new(alloc);
    let mut rest = order;
    while let Some((block, behind)) = rest.split_first() {
        places.extend_from_slice(block.places())?;
        rest = behind;
    }
    let mut blocks = Vec::new(alloc);
    blocks.push(Block { places })?;
    Ok(blocks)
}

/// Places from one on, block by block.
#[derive(Drop)]
pub struct Places<'a> {
    // those of a block that are left
    here: &'a [u16],
    behind: &'a [Block],
}

impl<'a> Model for Places<'a> {
    ghost use Rattle.std.specs.Prelude.{List, ℕ, ◌++◌};
    ghost use Rattle.std.specs.List.{concat};
    ghost use Rattle.gtid_set.specs.Order.{IsSettled};

    ghost Value = { List ℕ };

    ghost view = { λ p. p.here.now ++ concat p.behind.now };

    ghost invariant = { λ p. IsSettled p.here.now p.behind.now };
}

/// Places of a block and of those after it, from the first block on that has some.
fn skip_empty<'a>(places: &'a [u16], behind: &'a [Block]) -> Places<'a>
    ensures { result ≡ places.now ++ concat behind.now }
{
    let mut here = places;
    let mut rest = behind;
    while let Some((block, more)) = rest.split_first() {
        if !here.is_empty() {
            return Places { here, behind: rest };
        }
        here = block.places();
        rest = more;
    }
    Places { here, behind: rest }
}

impl<'a> Places<'a> {
    /// All places.
    pub fn of(order: &'a [Block]) -> Places<'a>
        ensures { result ≡ concat order.now }
    {
        skip_empty(&[], order)
    }

    /// The same places.
    #[inline(always)]
    pub fn again(&self) -> Places<'a>
        ensures { result ≡ self.now }
    {
        Places {
            here: self.here,
            behind: self.behind,
        }
    }

    /// The first place.
    #[inline(always)]
    pub fn first(&self) -> Option<u16>
        ensures cases { MatchOption result (self.now ≡ []) (λ place. self.now ≡ place ∷ drop 1 self.now) }
    {
        match self.here.split_first() {
            None => None,
            Some((place, _more)) => Some(*place),
        }
    }

    /// Moves past the first place, if there is one.
    #[inline(always)]
    pub fn advance(&mut self)
        ensures { self.new ≡ drop 1 self.old }
    {
        let Some((_place, more)) = self.here.split_first() else {
            return;
        };
        *self = skip_empty(more, self.behind);
    }
}
