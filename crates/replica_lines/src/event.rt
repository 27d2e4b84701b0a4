//! Events as lines.
ghost use Rattle.std.specs.Prelude.{◌≡◌, ◌++◌, OnOk, string_bytes};
ghost use Rattle.replica_core.specs.declared.event.Event.TheVariants as shown;
ghost use Rattle.replica_lines.specs.Events.{behind_blank, preserve_word, event_line};

use gtid_report::push_number;
use gtid_text::write_gtid;
use journal::Entry;
use replica_core::Event;
use rows::Name;
use std::alloc::AllocError;

fn push_behind_blank(out: &mut String, number: u64) -> Result<(), AllocError>
    ensures { OnOk result (string_bytes out.new ≡ string_bytes out.old ++ behind_blank number) }
{
    out.push_str(" ")?;
    push_number(out, number)
}

fn push_word_and_number(out: &mut String, word: &str, number: u64) -> Result<(), AllocError>
    ensures { OnOk result (string_bytes out.new ≡ string_bytes out.old ++ (word.now ++ behind_blank number)) }
{
    out.push_str(word)?;
    push_behind_blank(out, number)
}

fn preserve_word(preserve: bool) -> &'static str
    ensures { result.now ≡ preserve_word preserve }
{
    if preserve { " preserve" } else { "" }
}

fn push_opening(out: &mut String, name: &Name, preserve: bool) -> Result<(), AllocError>
    ensures { OnOk result (string_bytes out.new ≡ string_bytes out.old ++ event_line (shown.OpenChannel name.now preserve)) }
{
    out.push_str("channel ")?;
    out.push_str(name.as_str())?;
    out.push_str(preserve_word(preserve))
}

fn push_receiving(out: &mut String, channel: usize, entry: &Entry) -> Result<(), AllocError>
    ensures { OnOk result (string_bytes out.new ≡ string_bytes out.old ++ event_line (shown.Receive channel entry.now)) }
{
    push_word_and_number(out, "receive", channel as u64)?;
    out.push_str(" ")?;
    write_gtid(out, entry.gtid)
}

fn push_taking(out: &mut String, seat: u8, channel: usize, place: usize) -> Result<(), AllocError>
    ensures { OnOk result (string_bytes out.new ≡ string_bytes out.old ++ event_line (shown.Take seat channel place)) }
{
    push_word_and_number(out, "take", u64::from(seat))?;
    push_behind_blank(out, channel as u64)?;
    push_behind_blank(out, place as u64)
}

/// Appends the line of an event as a script has it, without its line feed. Of a received entry and of a transaction of the server's own
/// it is the first line alone, without the lines of their changes.
pub fn push_event(out: &mut String, event: &Event) -> Result<(), AllocError>
    ensures { OnOk result (string_bytes out.new ≡ string_bytes out.old ++ event_line event.now) }
{
    match event {
        Event::OpenChannel(name, preserve) => push_opening(out, name, *preserve),
        Event::Position(channel) => push_word_and_number(out, "position", *channel as u64),
        Event::Receive(channel, entry) => push_receiving(out, *channel, entry),
        Event::Take(seat, channel, place) => push_taking(out, *seat, *channel, *place),
        Event::Commit(seat) => push_word_and_number(out, "commit", u64::from(*seat)),
        Event::Rollback(seat) => push_word_and_number(out, "rollback", u64::from(*seat)),
        Event::Restart(channel) => push_word_and_number(out, "restart", *channel as u64),
        Event::Local(_) => out.push_str("local"),
        Event::Purge(len) => push_word_and_number(out, "purge", *len as u64),
        Event::Look => out.push_str("look"),
    }
}
