//! What `position` prints.
ghost use Rattle.std.specs.Prelude.{◌≡◌, ◌++◌, IfOk, OnOk, flat_map, string_bytes};
ghost use Rattle.txn_journal.specs.WrittenSets.{set_text};
ghost use Rattle.gtid_report.specs.Positions.{entry_line, sending_text, required_line, more_line};

use crate::refusal::push_number;
use crate::state::push_set;
use gtid_set::GtidSet;
use gtid_text::write_gtid;
use journal::Entry;
use std::alloc::{AllocError, Global};

/// The GTID of each entry on a line of its own.
fn push_gtids(out: &mut String, entries: &[Entry]) -> Result<(), AllocError>
    ensures { OnOk result (string_bytes out.new ≡ string_bytes out.old ++ flat_map entry_line entries.now) }
{
    for entry in entries {
        write_gtid(out, entry.gtid)?;
        out.push_str("\n")?;
    }
    Ok(())
}

/// How many entries are sent, and then their GTIDs in order, one on a line. The words are our own.
pub fn render_sending(alloc: Global, entries: &[Entry]) -> Result<String, AllocError>
    ensures { IfOk result (λ text. string_bytes text ≡ sending_text entries.now) }
{
    let mut text = String::from_str(alloc, "send ")?;
    push_number(&mut text, entries.len() as u64)?;
    text.push_str("\n")?;
    push_gtids(&mut text, entries)?;
    Ok(text)
}

/// A word and a set.
fn set_line(alloc: Global, word: &str, gtids: &GtidSet) -> Result<String, AllocError>
    ensures { IfOk result (λ line. string_bytes line ≡ word.now ++ set_text gtids.now) }
{
    let mut line = String::from_str(alloc, word)?;
    push_set(alloc, &mut line, gtids)?;
    Ok(line)
}

/// The printed line of GTIDs that a source has purged and a replica asks for, without the line feed.
pub fn render_required(alloc: Global, gtids: &GtidSet) -> Result<String, AllocError>
    ensures { IfOk result (λ line. string_bytes line ≡ required_line gtids.now) }
{
    set_line(alloc, "refused E19 purged ", gtids)
}

/// The printed line of GTIDs of a source that a replica has and the source has no record of, without the line feed.
pub fn render_more(alloc: Global, gtids: &GtidSet) -> Result<String, AllocError>
    ensures { IfOk result (λ line. string_bytes line ≡ more_line gtids.now) }
{
    set_line(alloc, "refused E20 has-more ", gtids)
}
