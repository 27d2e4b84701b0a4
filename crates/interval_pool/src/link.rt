//! A place among cells, or none, in 32 bits.
ghost use Rattle.std.specs.Prelude.{◌≡◌, ◌≤◌, ◌<◌, ◌+◌, ℕ, Some, None, IsTrue};
ghost use Rattle.interval_pool.specs.Links.{most_cells};

use std::marker::Model;

/// The most cells that a pool may have. Our own rule.
pub const MOST_CELLS: u32 = 4_294_967_294;

/// A place among cells, or none.
#[derive(Clone, Copy, Drop)]
pub struct Link {
    // one more than the place, or 0
    code: u32,
}

impl Model for Link {
    ghost use Rattle.std.specs.Prelude.{ℕ, Option};

    ghost Value = { Option ℕ };

    ghost use Rattle.interval_pool.specs.Links.{place_of, code_of, code_of_place};

    ghost view = { λ l. place_of l.code };

    ghost inverse = { λ p. record { code = code_of p } };

    ghost use Rattle.std.proofs.Common.{ap};

    ghost inverse_ok = { λ l h. ap (λ n. record { code = n }) (code_of_place l.code) };
}

impl Link {
    /// No place.
    pub fn none() -> Link
        ensures { result ≡ None }
    {
        Link { code: 0 }
    }

    /// A link to the cell at this place, if that is below `u32::MAX`.
    pub fn to(place: usize) -> Link
        ensures { place ≤ most_cells → result ≡ Some place }
    {
        if place > MOST_CELLS as usize {
            return Link { code: 0 };
        }
        Link {
            code: place as u32 + 1,
        }
    }

    /// The place, if there is one.
    pub fn place(self) -> Option<usize>
        ensures { result ≡ self }
    {
        if self.code == 0 {
            None
        } else {
            Some(self.code as usize - 1)
        }
    }

    /// Whether there is no place.
    pub fn is_none(self) -> bool
        ensures { IsTrue result → self ≡ None }
    {
        self.code == 0
    }

    /// The next place.
    pub fn behind(self) -> Link
        ensures { (place : ℕ) → self ≡ Some place → place < most_cells → result ≡ Some (place + 1) }
    {
        Link {
            code: self.code.wrapping_add(1),
        }
    }

    /// Whether it is this place.
    pub fn is_to(self, place: usize) -> bool
        ensures { IsTrue result → place ≤ most_cells → self ≡ Some place }
    {
        self.code as usize == place.wrapping_add(1)
    }

    /// Whether a place comes right after this one.
    pub fn is_before(self, at: usize) -> bool {
        self.code as usize == at
    }

    /// The last of `count` places in a row, of which this is the first.
    pub fn last_of(self, count: u32) -> Link {
        Link {
            code: self.code.wrapping_add(count).saturating_sub(1),
        }
    }

    /// The place as a number of 32 bits, if there is one.
    pub fn number(self) -> Option<u32>
        ensures { result ≡ self }
    {
        if self.code == 0 {
            None
        } else {
            Some(self.code - 1)
        }
    }
}
