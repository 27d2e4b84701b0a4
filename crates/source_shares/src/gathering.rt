//! The rows of all shares.
ghost use Rattle.std.specs.Prelude.{◌≡◌, IfSome, Some, map};

use rows::Rows;
use std::alloc::Global;

/// The rows of each share, unless one of them has none or out of memory.
pub(crate) fn all_parts(alloc: Global, found: Vec<Option<Rows>>) -> Option<Vec<Rows>>
    ensures { IfSome result (λ parts. map Some parts.items ≡ found.items) }
{
    let mut parts = Vec::new(alloc);
    for part in found {
        let part = part?;
        match parts.push(part) {
            Ok(()) => {}
            Err(_) => return None,
        }
    }
    Some(parts)
}
