//! The laws of `inverted_pair`, of `without_hidden` and of `civil_day`. A function's contract is the law, and its body is empty.
ghost use Rattle.fault_places.specs.LeftOut.{HiddenValuesAreLeftOut};
ghost use Rattle.fault_places.specs.Times.{DaysHaveTheirDates};
ghost use Rattle.fault_places.specs.TwoOrders.{TwoOrdersAreFound};

/// Of the line of a change that the tables take, `explain_verdict` shows the first 120 bytes of what is the line of the change without the
/// values that its table hides, which the lines of rows leave out too (`gtid_report`, `row_line`).
pub fn hidden_values_are_left_out()
    ensures { HiddenValuesAreLeftOut }
{}

/// For a sound bundle `explain_verdict` shows two channels and two transactions if and only if two channels that preserve commit order
/// bring two transactions in opposite orders, and those that it shows are such. (No journal has a GTID twice: `Journal` keeps that.)
pub fn two_orders_are_found()
    ensures { TwoOrdersAreFound }
{}

/// The date that is shown of an instant is that of its day in `jiff_core`'s calendar, which extends the Gregorian one to all years.
pub fn days_have_their_dates()
    ensures { DaysHaveTheirDates }
{}
