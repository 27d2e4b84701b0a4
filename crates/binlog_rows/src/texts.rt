//! Texts that are put one behind another.
ghost use Rattle.std.specs.Prelude.{◌≡◌, Some, IfOk};
ghost use Rattle.binlog_rows.specs.Texts.{Puts};

use crate::digits::put;
use std::alloc::AllocError;

/// Appends a text, if there are no more than so many bytes then; whether it did.
pub(crate) fn put_text(out: &mut Vec<u8>, most: u128, text: &[u8]) -> Result<bool, AllocError>
    ensures { IfOk result (λ done. Puts most out.old.items out.new.items done (Some text.now)) }
{
    if most < out.len() as u128 + text.len() as u128 {
        return Ok(false);
    }
    put(out, text)?;
    Ok(true)
}
