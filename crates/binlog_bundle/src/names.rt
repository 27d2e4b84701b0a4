//! The names of tables, as the lines of a head have them.
ghost use Rattle.std.specs.Prelude.{◌≡◌, IfOk};
ghost use Rattle.binlog_bundle.specs.Names.{table_name};

use rows::{Name, NameFault};
use std::alloc::{AllocError, Global};

/// The name of a table that a word is.
pub fn table_name(alloc: Global, word: &[u8]) -> Result<Option<Name>, AllocError>
    ensures { IfOk result (λ found. found ≡ table_name word.now) }
{
    let Ok(text) = std::str::from_utf8(word) else {
        return Ok(None);
    };
    match Name::new(String::from_str(alloc, text)?) {
        Ok(name) => Ok(Some(name)),
        Err(NameFault::NotAName) => Ok(None),
        Err(NameFault::Memory) => Err(AllocError),
    }
}
