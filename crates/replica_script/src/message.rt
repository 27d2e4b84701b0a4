//! What is written on standard error.
ghost use Rattle.std.specs.Prelude.{◌≡◌, IfOk, string_bytes};
ghost use Rattle.replica_script.specs.Messages.{bad_line_text, fault_word};

use crate::edge::{ScriptFault, ScriptLine};
use gtid_report::push_number;
use std::alloc::{AllocError, Global};

/// The message on a line that is not in the language: its number and its text, in which each sequence of bytes that is not
/// UTF-8 is U+FFFD. Without a line feed.
pub fn bad_line_text(alloc: Global, line: &ScriptLine) -> Result<String, AllocError>
    ensures { IfOk result (λ text. string_bytes text ≡ bad_line_text line.now) }
{
    let text = String::from_utf8_lossy(alloc, &line.text)?;
    let mut said = String::from_str(alloc, "line ")?;
    push_number(&mut said, line.number)?;
    said.push_str(" is not in the language: ")?;
    said.push_str(text.as_str())?;
    Ok(said)
}

/// The message on a fault, without an allocation and without a line feed.
pub fn fault_word(fault: &ScriptFault) -> &'static str
    ensures { result.now ≡ fault_word fault.now }
{
    match fault {
        ScriptFault::BadLine(_) => "a line is not in the language",
        ScriptFault::CutShort => "the input ends inside a transaction",
        ScriptFault::Memory => "out of memory",
        ScriptFault::Changed => "a call that was refused memory has changed the replica",
        ScriptFault::Read => "reading standard input failed",
        ScriptFault::Write => "writing failed",
    }
}
