//! Which changes of a transaction are shown.
ghost use Rattle.std.specs.Prelude.{◌≡◌};
ghost use Rattle.fault_places.specs.Places.{is_wanted};

use crate::lines::second_word;
use rows::Name;

/// Which changes of a transaction are shown.
#[derive(Drop)]
pub(crate) enum Wanted {
    Every,
    /// Those of rows of this table.
    OfTable(Name),
    /// The one with this place, counted from 0.
    Numbered(u32),
    Nothing,
}

impl Wanted {
    /// Whether the change on a line is shown, whose place in its transaction is this.
    pub(crate) fn takes(&self, place: usize, line: &[u8]) -> bool
        ensures { result ≡ is_wanted self.now place line.now }
    {
        match self {
            Wanted::Every => true,
            Wanted::OfTable(table) => second_word(line) == table.as_str().as_bytes(),
            Wanted::Numbered(number) => place as u64 == u64::from(*number),
            Wanted::Nothing => false,
        }
    }
}
