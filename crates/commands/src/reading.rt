//! All that a reader gives.
ghost use Rattle.std.specs.Prelude.{◌≡◌, IfOk, IfErr, OnOk};
ghost use Rattle.commands.specs.Edge.{input_of, ReadFault};
ghost use Rattle.commands.specs.Texts.{HasFound};

use crate::edge::{RunFault, Source};
use crate::text::Text;
use std::alloc::Global;
use txn_journal::JournalFault;

/// A reader that has not ended after this many calls has failed (our own rule). If blocks are read (`read_beside`), it has failed after
/// this many blocks, each of up to 64 calls.
pub(crate) const MOST_READS: u64 = 1_099_511_627_776;

/// What all bytes that a reader gives parse as. They are read in pieces of at most 65,536.
pub(crate) fn read_text<T: Text, S: Source>(
    alloc: Global,
    reader: &mut S,
) -> Result<Result<T, JournalFault>, RunFault>
    ensures read { IfOk result (HasFound T.parses T.decoded (S.left reader.old) (S.left reader.new)) }
    ensures calm { OnOk result (S.failed reader.new ≡ S.failed reader.old) }
    ensures fault { IfErr result (ReadFault (input_of S.left S.failed reader.old) (input_of S.left S.failed reader.new)) }
{
    let mut text = T::start(alloc);
    let mut piece = [0u8; 65_536];
    for _turn in 0..MOST_READS {
        let Ok(n) = reader.read(&mut piece) else {
            return Err(RunFault::Read);
        };
        if n == 0 {
            return Ok(T::finish(alloc, text));
        }
        let Ok(()) = T::feed(alloc, &mut text, &piece[..n]) else {
            return Err(RunFault::Memory);
        };
    }
    Err(RunFault::Read)
}
