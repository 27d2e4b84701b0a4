//! What a replica shows of itself.
ghost use Rattle.std.specs.Prelude.{◌≡◌, ◌++◌, ◌∷◌, IfOk, OnOk, flat_map, string_bytes};
ghost use Rattle.std.specs.FinMap.{entries};
ghost use Rattle.replica_lines.specs.Status.{named_set, owners_of, owner_word, owned_word, owned_line, run_word, channel_line, status_text, EachOwnerIsListed};

use apply_channel::Channel;
use gtid_report::{push_number, push_set};
use gtid_set::GtidSet;
use gtid_text::{Gtid, write_gtid};
use replica_core::Core;
use std::alloc::{AllocError, Global};
use std::collections::BTreeMap;

/// The line of a name and a set.
fn push_named(alloc: Global, out: &mut String, name: &str, set: &GtidSet) -> Result<(), AllocError>
    ensures { OnOk result (string_bytes out.new ≡ string_bytes out.old ++ named_set name.now set.now) }
{
    out.push_str(name)?;
    out.push_str(" ")?;
    push_set(alloc, out, set)?;
    out.push_str("\n")
}

/// The GTIDs that seats own, each with its seat.
fn owners(alloc: Global, owned: &[(u8, Gtid)]) -> Result<BTreeMap<Gtid, u8>, AllocError>
    ensures { IfOk result (λ owners. owners.entries ≡ entries (owners_of owned.now)) }
{
    let mut owners = BTreeMap::new(alloc);
    let mut left = owned;
    while let [more @ .., (seat, gtid)] = left {
        owners.insert(*gtid, *seat)?;
        left = more;
    }
    Ok(owners)
}

/// A GTID and the number of its seat.
fn push_owner(out: &mut String, gtid: Gtid, seat: u8) -> Result<(), AllocError>
    ensures { OnOk result (string_bytes out.new ≡ string_bytes out.old ++ owner_word (gtid, seat)) }
{
    write_gtid(out, gtid)?;
    out.push_str("#")?;
    push_number(out, u64::from(seat))
}

/// GTIDs with their seats, joined by commas, or `-` if there is none.
fn push_owners(out: &mut String, owners: &BTreeMap<Gtid, u8>) -> Result<(), AllocError>
    ensures { OnOk result (string_bytes out.new ≡ string_bytes out.old ++ owned_word owners.now.entries) }
{
    let mut pairs = owners.iter();
    let Some((gtid, seat)) = pairs.next() else {
        return out.push_str("-");
    };
    push_owner(out, *gtid, *seat)?;
    for (gtid, seat) in pairs {
        out.push_str(",")?;
        push_owner(out, *gtid, *seat)?;
    }
    Ok(())
}

/// The line of GTIDs with their seats.
fn push_owners_line(out: &mut String, owners: &BTreeMap<Gtid, u8>) -> Result<(), AllocError>
    ensures { OnOk result (string_bytes out.new ≡ string_bytes out.old ++ owned_line owners.now.entries) }
{
    out.push_str("gtid_owned ")?;
    push_owners(out, owners)?;
    out.push_str("\n")
}

/// The line of what the seats own.
fn push_owned(alloc: Global, out: &mut String, owned: &[(u8, Gtid)]) -> Result<(), AllocError>
    ensures { OnOk result (string_bytes out.new ≡ string_bytes out.old ++ owned_line (entries (owners_of owned.now))) }
{
    let owners = owners(alloc, owned)?;
    push_owners_line(out, &owners)
}

fn run_word(stopped: bool) -> &'static str
    ensures { result.now ≡ run_word stopped }
{
    if stopped { "stopped" } else { "running" }
}

fn push_channel(alloc: Global, out: &mut String, channel: &Channel) -> Result<(), AllocError>
    ensures { OnOk result (string_bytes out.new ≡ string_bytes out.old ++ channel_line channel.now.channel) }
{
    out.push_str("channel ")?;
    out.push_str(channel.name().as_str())?;
    out.push_str(" ")?;
    out.push_str(run_word(channel.is_stopped()))?;
    out.push_str(" ")?;
    push_set(alloc, out, channel.received())?;
    out.push_str("\n")
}

/// The line of each channel, in the order of their numbers.
fn push_channels(alloc: Global, out: &mut String, core: &Core) -> Result<(), AllocError>
    ensures { OnOk result (string_bytes out.new ≡ string_bytes out.old ++ flat_map channel_line core.now.state.channels) }
{
    for number in 0..usize::MAX {
        let Some(channel) = core.channel(number) else {
            return Ok(());
        };
        push_channel(alloc, out, channel)?;
    }
    // No memory holds so many channels.
    Err(AllocError)
}

/// The printed lines of a replica: the executed set, the purged set, what its seats own, and each channel in the order of their numbers,
/// with what it has received. A set is its canonical text, or `-` if it is empty. An owned GTID has the number of its seat after a `#`;
/// they are in the order of GTIDs and joined by commas, or `-` if there is none.
///
/// The three names are those of MySQL's variables (MySQL 8.0 Reference Manual, "Global Transaction ID System Variables"); the lines
/// are our own.
pub fn status(alloc: Global, core: &Core) -> Result<String, AllocError>
    ensures { IfOk result (λ text. string_bytes text ≡ status_text core.now.state) }
{
    let owned = core.owned(alloc)?;
    let mut text = String::new(alloc);
    push_named(alloc, &mut text, "gtid_executed", core.executed())?;
    push_named(alloc, &mut text, "gtid_purged", core.purged())?;
    push_owned(alloc, &mut text, &owned)?;
    push_channels(alloc, &mut text, core)?;
    Ok(text)
}

/// Each GTID that a seat owns is in the list of what is owned, with that seat. It does nothing; its contract is the law.
pub fn each_owner_is_listed(core: &Core)
    ensures { EachOwnerIsListed core.now.state }
{
    core.one_seat_each();
}
