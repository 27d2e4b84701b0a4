//! All bytes that a reader gives, for what is read as a whole.
ghost use Rattle.std.specs.Prelude.{◌≡◌, IfOk, IfErr, OnOk};
ghost use Rattle.commands.specs.Edge.{input_of, HasRead, ReadFault};

use crate::edge::{RunFault, Source};
use crate::reading::MOST_READS;
use std::alloc::Global;

/// All bytes that a reader gives, in pieces of at most 65,536.
pub fn read_all<S: Source>(alloc: Global, reader: &mut S) -> Result<Vec<u8>, RunFault>
    ensures read { IfOk result (λ bytes. HasRead (S.left reader.old) (S.left reader.new) bytes.items) }
    ensures calm { OnOk result (S.failed reader.new ≡ S.failed reader.old) }
    ensures fault { IfErr result (ReadFault (input_of S.left S.failed reader.old) (input_of S.left S.failed reader.new)) }
{
    let mut bytes = Vec::new(alloc);
    let mut piece = [0u8; 65_536];
    for _turn in 0..MOST_READS {
        let Ok(n) = reader.read(&mut piece) else {
            return Err(RunFault::Read);
        };
        if n == 0 {
            return Ok(bytes);
        }
        let Ok(()) = bytes.extend_from_slice(&piece[..n]) else {
            return Err(RunFault::Memory);
        };
    }
    Err(RunFault::Read)
}
