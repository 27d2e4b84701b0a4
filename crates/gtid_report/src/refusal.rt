ghost use Rattle.std.specs.Prelude.{◌≡◌, ◌++◌, IfOk, OnOk, OnErr, string_bytes, decimal};
ghost use Rattle.gtid_report.specs.Refusals.{cause_word, refusal_name, refusal_place, refusal_line};

use gtid_text::{Gtid, write_gtid};
use itoa::Buffer;
use std::alloc::{AllocError, Global};

/// What is wrong with a line of a journal or a bundle.
#[derive(Clone, Copy, Debug, PartialEq, Eq, Drop)]
pub enum LineCause {
    Keyword,
    Body,
    Limit,
    Schema,
    Stamp,
}

/// Why content is refused. Offsets are in bytes from 0, and lines count from 1.
#[derive(Clone, Copy, Debug, PartialEq, Eq, Drop)]
pub enum Refusal {
    BadUuid(usize),
    NoInterval(usize),
    BadNumber(usize),
    NumberRange(usize),
    Reversed(usize),
    Stray(usize),
    PoolFull,
    SourcesFull,
    Line(u64, LineCause),
    Truncated(u64),
    Twice(Gtid),
    Version(u64),
    Usage,
    /// Changes can't be applied, for this line says that the opening rows aren't known.
    NoRows(u64),
}

fn cause_word(cause: LineCause) -> &'static str
    ensures { result.now ≡ cause_word cause }
{
    match cause {
        LineCause::Keyword => "keyword",
        LineCause::Body => "body",
        LineCause::Limit => "limit",
        LineCause::Schema => "schema",
        LineCause::Stamp => "stamp",
    }
}

fn refusal_name(refusal: &Refusal) -> &'static str
    ensures { result.now ≡ refusal_name refusal.now }
{
    match refusal {
        Refusal::BadUuid(_) => "E2 bad-uuid at ",
        Refusal::NoInterval(_) => "E3 no-interval at ",
        Refusal::BadNumber(_) => "E4 bad-number at ",
        Refusal::NumberRange(_) => "E5 number-range at ",
        Refusal::Reversed(_) => "E6 reversed at ",
        Refusal::Stray(_) => "E7 stray at ",
        Refusal::PoolFull => "E8 pool-full",
        Refusal::SourcesFull => "E9 sources-full",
        Refusal::Line(_, _) => "E14 line ",
        Refusal::Truncated(_) => "E15 truncated at line ",
        Refusal::Twice(_) => "E16 twice ",
        Refusal::Version(_) => "E17 version at line ",
        Refusal::Usage => "E30 usage",
        Refusal::NoRows(_) => "E31 no-rows at line ",
    }
}

/// Appends a number in decimal digits. After a failed allocation the text is as it was.
pub fn push_number(out: &mut String, number: u64) -> Result<(), AllocError>
    ensures ok { OnOk result (string_bytes out.new ≡ string_bytes out.old ++ decimal number) }
    ensures err { OnErr result (string_bytes out.new ≡ string_bytes out.old) }
{
    let mut buffer = Buffer::new();
    out.push_str(buffer.format(number))
}

fn push_place(out: &mut String, refusal: &Refusal) -> Result<(), AllocError>
    ensures { OnOk result (string_bytes out.new ≡ string_bytes out.old ++ refusal_place refusal.now) }
{
    match refusal {
        Refusal::BadUuid(at) => push_number(out, *at as u64),
        Refusal::NoInterval(at) => push_number(out, *at as u64),
        Refusal::BadNumber(at) => push_number(out, *at as u64),
        Refusal::NumberRange(at) => push_number(out, *at as u64),
        Refusal::Reversed(at) => push_number(out, *at as u64),
        Refusal::Stray(at) => push_number(out, *at as u64),
        Refusal::PoolFull => Ok(()),
        Refusal::SourcesFull => Ok(()),
        Refusal::Line(line, cause) => {
            push_number(out, *line)?;
            out.push_str(" ")?;
            out.push_str(cause_word(*cause))
        }
        Refusal::Truncated(line) => push_number(out, *line),
        Refusal::Twice(gtid) => write_gtid(out, *gtid),
        Refusal::Version(line) => push_number(out, *line),
        Refusal::Usage => Ok(()),
        Refusal::NoRows(line) => push_number(out, *line),
    }
}

/// The printed line of a refusal, without the line feed.
pub fn render_fault(alloc: Global, refusal: &Refusal) -> Result<String, AllocError>
    ensures { IfOk result (λ line. string_bytes line ≡ refusal_line refusal.now) }
{
    let mut line = String::new(alloc);
    line.push_str("refused ")?;
    line.push_str(refusal_name(refusal))?;
    push_place(&mut line, refusal)?;
    Ok(line)
}
