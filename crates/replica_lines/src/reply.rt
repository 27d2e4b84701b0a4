//! Replies as lines.
ghost use Rattle.std.specs.Prelude.{◌≡◌, ◌++◌, OnOk, string_bytes, decimal};
ghost use Rattle.gtid_text.specs.Canonical.{gtid_text};
ghost use Rattle.txn_journal.specs.WrittenSets.{set_text};
ghost use Rattle.replica_lines.specs.Replies.{within, misfit_word, not_in_schema_text, refusal_text, refused_text, reply_line};

use gtid_report::{push_number, push_row_fault, push_set};
use gtid_set::GtidSet;
use gtid_text::{Gtid, write_gtid};
use replica_core::Reply;
use rows::{Misfit, NotInSchema, RowFault};
use std::alloc::{AllocError, Global};

fn misfit_word(cause: Misfit) -> &'static str
    ensures { result.now ≡ misfit_word cause }
{
    match cause {
        Misfit::NoTable => "NoTable",
        Misfit::Columns => "Columns",
        Misfit::NullInPrimary => "NullInPrimary",
        Misfit::TooLong => "TooLong",
        Misfit::TooMany => "TooMany",
    }
}

fn push_numbered(out: &mut String, name: &str, number: u64) -> Result<(), AllocError>
    ensures { OnOk result (string_bytes out.new ≡ string_bytes out.old ++ within name.now (decimal number)) }
{
    out.push_str(name)?;
    out.push_str("(")?;
    push_number(out, number)?;
    out.push_str(")")
}

fn with_gtid(out: &mut String, name: &str, gtid: Gtid) -> Result<(), AllocError>
    ensures { OnOk result (string_bytes out.new ≡ string_bytes out.old ++ within name.now (gtid_text gtid)) }
{
    out.push_str(name)?;
    out.push_str("(")?;
    write_gtid(out, gtid)?;
    out.push_str(")")
}

fn with_set(alloc: Global, out: &mut String, name: &str, set: &GtidSet) -> Result<(), AllocError>
    ensures { OnOk result (string_bytes out.new ≡ string_bytes out.old ++ within name.now (set_text set.now)) }
{
    out.push_str(name)?;
    out.push_str("(")?;
    push_set(alloc, out, set)?;
    out.push_str(")")
}

fn not_in_schema(out: &mut String, fault: NotInSchema) -> Result<(), AllocError>
    ensures { OnOk result (string_bytes out.new ≡ string_bytes out.old ++ not_in_schema_text fault) }
{
    out.push_str("NotInSchema(")?;
    push_number(out, u64::from(fault.change))?;
    out.push_str(" ")?;
    out.push_str(misfit_word(fault.cause))?;
    out.push_str(")")
}

#[tactic(auto, unfolding(crate::specs::Replies::refusal_text))]
fn push_refusal(out: &mut String, gtid: Gtid, fault: RowFault) -> Result<(), AllocError>
    ensures { OnOk result (string_bytes out.new ≡ string_bytes out.old ++ refusal_text gtid fault) }
{
    write_gtid(out, gtid)?;
    out.push_str(" ")?;
    push_row_fault(out, fault)
}

fn with_refusal(out: &mut String, name: &str, gtid: Gtid, fault: RowFault) -> Result<(), AllocError>
    ensures { OnOk result (string_bytes out.new ≡ string_bytes out.old ++ within name.now (refusal_text gtid fault)) }
{
    out.push_str(name)?;
    out.push_str("(")?;
    push_refusal(out, gtid, fault)?;
    out.push_str(")")
}

fn push_local_refusal(out: &mut String, fault: RowFault) -> Result<(), AllocError>
    ensures { OnOk result (string_bytes out.new ≡ string_bytes out.old ++ refused_text fault) }
{
    out.push_str("Refused(")?;
    push_row_fault(out, fault)?;
    out.push_str(")")
}

/// Appends the line of a reply, without its line feed.
pub fn push_reply(alloc: Global, out: &mut String, reply: &Reply) -> Result<(), AllocError>
    ensures { OnOk result (string_bytes out.new ≡ string_bytes out.old ++ reply_line reply.now) }
{
    match reply {
        Reply::NameTaken => out.push_str("NameTaken"),
        Reply::ChannelsFull => out.push_str("ChannelsFull"),
        Reply::Opened(channel) => push_numbered(out, "Opened", *channel as u64),
        Reply::NoChannel => out.push_str("NoChannel"),
        Reply::Ask(set) => with_set(alloc, out, "Ask", set),
        Reply::NotPositioned => out.push_str("NotPositioned"),
        Reply::NotInSchema(fault) => not_in_schema(out, *fault),
        Reply::ChannelFull => out.push_str("ChannelFull"),
        Reply::Received(place) => push_numbered(out, "Received", *place as u64),
        Reply::NoSeat => out.push_str("NoSeat"),
        Reply::SeatBusy(gtid) => with_gtid(out, "SeatBusy", *gtid),
        Reply::NoPlace => out.push_str("NoPlace"),
        Reply::Stopped => out.push_str("Stopped"),
        Reply::Done(gtid) => with_gtid(out, "Done", *gtid),
        Reply::OwnedBy(seat) => push_numbered(out, "OwnedBy", u64::from(*seat)),
        Reply::Blocked(place) => push_numbered(out, "Blocked", *place as u64),
        Reply::Taken(gtid) => with_gtid(out, "Taken", *gtid),
        Reply::SeatIdle => out.push_str("SeatIdle"),
        Reply::Early(place) => push_numbered(out, "Early", *place as u64),
        Reply::RowRefused(gtid, fault) => with_refusal(out, "RowRefused", *gtid, *fault),
        Reply::Committed(gtid) => with_gtid(out, "Committed", *gtid),
        Reply::RolledBack(gtid) => with_gtid(out, "RolledBack", *gtid),
        Reply::Restarted => out.push_str("Restarted"),
        Reply::NumbersUsedUp => out.push_str("NumbersUsedUp"),
        Reply::LocalRefused(fault) => push_local_refusal(out, *fault),
        Reply::TooMany(len) => push_numbered(out, "TooMany", *len as u64),
        Reply::Purged(set) => with_set(alloc, out, "Purged", set),
        Reply::Shown(set) => with_set(alloc, out, "Shown", set),
    }
}
