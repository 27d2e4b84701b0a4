//! Intervals of numbers.
ghost use Rattle.std.specs.Prelude.{◌≡◌, ◌∷◌, [], IfSome, length};
ghost use Rattle.interval_pool.specs.Intervals.{hull, list_of_pieces, part_below, part_above};

/// The numbers from one to another, both among them.
#[derive(Clone, Copy, Debug, Drop)]
pub struct Interval {
    /// The least number.
    pub lo: u64,
    /// The greatest number.
    pub hi: u64,
}

/// An interval, and how many others are in it.
#[derive(Clone, Copy, Drop)]
pub struct Joined {
    pub numbers: Interval,
    pub count: u32,
}

/// Up to two intervals, one before the other.
#[derive(Clone, Copy, Drop)]
pub struct Pieces {
    pub first: Option<Interval>,
    pub second: Option<Interval>,
}

/// The least interval with all numbers of two.
pub fn hull(numbers: Interval, other: Interval) -> Interval
    ensures { result ≡ hull numbers other }
{
    Interval {
        lo: numbers.lo.min(other.lo),
        hi: numbers.hi.max(other.hi),
    }
}

/// What an interval has below the numbers of another.
fn part_below(whole: Interval, numbers: Interval) -> Option<Interval>
    ensures { result ≡ part_below whole numbers }
{
    if whole.lo < numbers.lo {
        Some(Interval {
            lo: whole.lo,
            hi: numbers.lo - 1,
        })
    } else {
        None
    }
}

/// What an interval has above the numbers of another.
fn part_above(whole: Interval, numbers: Interval) -> Option<Interval>
    ensures { result ≡ part_above whole numbers }
{
    if numbers.hi < whole.hi {
        Some(Interval {
            lo: numbers.hi + 1,
            hi: whole.hi,
        })
    } else {
        None
    }
}

/// What an interval has besides the numbers of another.
pub fn parts_outside(whole: Interval, numbers: Interval) -> Pieces
    ensures first { result.first ≡ part_below whole numbers }
    ensures second { result.second ≡ part_above whole numbers }
{
    Pieces {
        first: part_below(whole, numbers),
        second: part_above(whole, numbers),
    }
}

/// How many intervals these are.
pub fn count_pieces(pieces: Pieces) -> u32
    ensures { result ≡ length (list_of_pieces pieces) }
{
    match (pieces.first, pieces.second) {
        (Some(_), Some(_)) => 2,
        (None, None) => 0,
        _ => 1,
    }
}

/// The only interval of these, if there is one.
pub fn only_piece(pieces: Pieces) -> Option<Interval>
    ensures { IfSome result (λ s. list_of_pieces pieces ≡ s ∷ []) }
{
    match (pieces.first, pieces.second) {
        (Some(piece), None) | (None, Some(piece)) => Some(piece),
        _ => None,
    }
}
