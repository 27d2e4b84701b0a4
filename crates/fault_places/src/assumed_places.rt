//! Where the text has what a verdict on a bundle rests on.
ghost use Rattle.std.specs.Prelude.{◌≡◌, ◌++◌, ◌<◌, ◌^◌, OnOk, map, length};
ghost use Rattle.fault_places.specs.AssumedPlaces.{is_assumption, is_reference, shown_line, report_assumed, assumed_places};

use crate::lines::put;
use crate::places::put_line;
use std::alloc::AllocError;

fn is_assumption(line: &[u8]) -> bool
    ensures { result ≡ is_assumption line.now }
{
    line.starts_with(b"assume ")
}

fn is_reference(line: &[u8]) -> bool
    ensures { result ≡ is_reference line.now }
{
    line.starts_with(b"fk ")
}

/// A line with its number.
fn show(out: &mut Vec<u8>, number: usize, line: &[u8]) -> Result<(), AllocError>
    ensures { OnOk result (out.new.items ≡ out.old.items ++ shown_line number line.now) }
{
    put(out, "  ")?;
    put_line(out, number, line)
}

/// An assumption, or a reference if what it implies is not said yet.
fn report(out: &mut Vec<u8>, implied: bool, number: usize, line: &[u8]) -> Result<(), AllocError>
    ensures { OnOk result (out.new.items ≡ out.old.items ++ report_assumed implied number line.now) }
{
    if is_assumption(line) || implied && is_reference(line) {
        return show(out, number, line);
    }
    Ok(())
}

/// Each line of an assumption, and the first line of a reference if it implies an assumption that no line says.
pub(crate) fn put_assumed(
    out: &mut Vec<u8>,
    is_implied: bool,
    lines: &[&[u8]],
) -> Result<(), AllocError>
    requires { length lines.now < 2 ^ 63 }
    ensures { OnOk result (out.new.items ≡ out.old.items ++ assumed_places is_implied (map (λ x. x.now) lines.now)) }
{
    let mut implied = is_implied;
    for (i, line) in lines.iter().enumerate() {
        report(out, implied, i + 1, line)?;
        implied = implied && !is_reference(line);
    }
    Ok(())
}
