//! Shared lists without spare room.
ghost use Rattle.std.specs.Arc.{arc_slice_items};
ghost use Rattle.std.specs.Prelude.{◌≡◌, IfOk};

use std::alloc::AllocError;
use std::sync::ArcSlice;

/// These items, to be shared. Spare room is given back first, for it would stay as long as they do.
pub(crate) fn pack<T: Drop>(mut items: Vec<T>) -> Result<ArcSlice<T>, AllocError>
    ensures { IfOk result (λ it. arc_slice_items it ≡ items.items) }
{
    items.shrink_to_fit();
    ArcSlice::from_vec(items)
}
