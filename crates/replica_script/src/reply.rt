//! Replies as lines, each with its line feed.
ghost use Rattle.std.specs.Prelude.{◌≡◌, ◌++◌, IfOk, OnOk, codes, string_bytes};
ghost use Rattle.txn_journal.specs.WrittenSets.{set_text};
ghost use Rattle.replica_lines.specs.Replies.{within, reply_line};
ghost use Rattle.replica_script.specs.Replies.{with_line_feed, withheld_text, network_reply_line};

use auto_position::PositionFault;
use gtid_report::push_set;
use gtid_set::GtidSet;
use network::NetworkReply;
use replica_core::Reply;
use replica_lines::push_reply;
use std::alloc::{AllocError, Global};

/// The line of a reply.
pub fn reply_text(alloc: Global, reply: &Reply) -> Result<String, AllocError>
    ensures { IfOk result (λ text. string_bytes text ≡ with_line_feed (reply_line reply.now)) }
{
    let mut text = String::new(alloc);
    push_reply(alloc, &mut text, reply)?;
    text.push_str("\n")?;
    Ok(text)
}

fn push_worded_set(
    alloc: Global,
    out: &mut String,
    word: &str,
    set: &GtidSet,
) -> Result<(), AllocError>
    ensures { OnOk result (string_bytes out.new ≡ string_bytes out.old ++ (word.now ++ set_text set.now)) }
{
    out.push_str(word)?;
    push_set(alloc, out, set)
}

/// Appends the GTIDs for which a source refuses to send: those that it purged, or those of its own that it has no record of.
fn push_withheld(alloc: Global, out: &mut String, fault: &PositionFault) -> Result<(), AllocError>
    ensures { OnOk result (string_bytes out.new ≡ string_bytes out.old ++ withheld_text fault.now) }
{
    match fault {
        PositionFault::PurgedRequired(gtids) => push_worded_set(alloc, out, "E19 purged ", gtids),
        PositionFault::ReplicaHasMore(gtids) => push_worded_set(alloc, out, "E20 has-more ", gtids),
        PositionFault::Set(_) => Err(AllocError),
    }
}

/// Appends that a source refuses to send, and why.
fn push_position_fault(
    alloc: Global,
    out: &mut String,
    fault: &PositionFault,
) -> Result<(), AllocError>
    ensures { OnOk result (string_bytes out.new ≡ string_bytes out.old ++ within (codes "Refused") (withheld_text fault.now)) }
{
    out.push_str("Refused(")?;
    push_withheld(alloc, out, fault)?;
    out.push_str(")")
}

/// Appends the line of a network's reply, without its line feed.
fn push_network_reply(
    alloc: Global,
    out: &mut String,
    reply: &NetworkReply,
) -> Result<(), AllocError>
    ensures { OnOk result (string_bytes out.new ≡ string_bytes out.old ++ network_reply_line reply.now) }
{
    match reply {
        NetworkReply::NoNode => out.push_str("NoNode"),
        NetworkReply::NotHere => out.push_str("NotHere"),
        NetworkReply::Refused(fault) => push_position_fault(alloc, out, fault),
        NetworkReply::Nothing => out.push_str("Nothing"),
        NetworkReply::Replied(reply) => push_reply(alloc, out, reply),
    }
}

/// The line of a network's reply.
pub fn network_reply_text(alloc: Global, reply: &NetworkReply) -> Result<String, AllocError>
    ensures { IfOk result (λ text. string_bytes text ≡ with_line_feed (network_reply_line reply.now)) }
{
    let mut text = String::new(alloc);
    push_network_reply(alloc, &mut text, reply)?;
    text.push_str("\n")?;
    Ok(text)
}
