//! The text of an instant.
ghost use Rattle.std.specs.Prelude.{◌≡◌, ◌++◌, ◌<◌, ◌≤◌, OnOk};
ghost use Rattle.fault_places.specs.Times.{two_digits, four_digits, six_digits, civil_day, date_text, clock_text, time_text, instant_text};

use crate::lines::put;
use jiff_core::civil::Date;
use std::alloc::AllocError;

/// A date: the year, the month and the day of the month.
#[derive(Clone, Copy, Drop)]
pub(crate) struct CivilDay {
    pub(crate) year: u16,
    pub(crate) month: u8,
    pub(crate) day: u8,
}

fn put_two(out: &mut Vec<u8>, number: u64) -> Result<(), AllocError>
    ensures { OnOk result (out.new.items ≡ out.old.items ++ two_digits number) }
{
    let digits = [48 + (number / 10 % 10) as u8, 48 + (number % 10) as u8];
    out.extend_from_slice(&digits)
}

fn put_four(out: &mut Vec<u8>, number: u64) -> Result<(), AllocError>
    ensures { OnOk result (out.new.items ≡ out.old.items ++ four_digits number) }
{
    put_two(out, number / 100)?;
    put_two(out, number)
}

fn put_six(out: &mut Vec<u8>, number: u64) -> Result<(), AllocError>
    ensures { OnOk result (out.new.items ≡ out.old.items ++ six_digits number) }
{
    put_two(out, number / 10_000)?;
    put_four(out, number)
}

/// The date of a day, which is counted from 1 January 1970.
fn civil_day(number: u32) -> CivilDay
    requires { number ≤ 2_932_896 }
    ensures { result ≡ civil_day number }
{
    let date = Date::from_days_since_min(number + 4_371_587);
    CivilDay {
        year: date.year.unsigned_abs(),
        month: date.month,
        day: date.day,
    }
}

fn put_date(out: &mut Vec<u8>, date: CivilDay) -> Result<(), AllocError>
    ensures { OnOk result (out.new.items ≡ out.old.items ++ date_text date) }
{
    put_four(out, u64::from(date.year))?;
    put(out, "-")?;
    put_two(out, u64::from(date.month))?;
    put(out, "-")?;
    put_two(out, u64::from(date.day))
}

fn put_clock(out: &mut Vec<u8>, seconds: u64) -> Result<(), AllocError>
    ensures { OnOk result (out.new.items ≡ out.old.items ++ clock_text seconds) }
{
    put_two(out, seconds / 3600)?;
    put(out, ":")?;
    put_two(out, seconds / 60 % 60)?;
    put(out, ":")?;
    put_two(out, seconds % 60)
}

fn put_time(out: &mut Vec<u8>, micros: u64) -> Result<(), AllocError>
    ensures { OnOk result (out.new.items ≡ out.old.items ++ time_text micros) }
{
    put_clock(out, micros / 1_000_000 % 86_400)?;
    put(out, ".")?;
    put_six(out, micros)?;
    put(out, "Z")
}

/// Appends an instant, given in microseconds since 1970: its date and its time of day in UTC.
pub(crate) fn put_instant(out: &mut Vec<u8>, micros: u64) -> Result<(), AllocError>
    requires { micros < 253_402_300_800_000_000 }
    ensures { OnOk result (out.new.items ≡ out.old.items ++ instant_text micros) }
{
    put_date(out, civil_day((micros / 86_400_000_000) as u32))?;
    put(out, "T")?;
    put_time(out, micros)
}
