//! The months without a report.
ghost use Rattle.std.specs.Prelude.{◌≡◌, ◌≤◌, ◌+◌, ◌++◌, ◌∷◌, [], IfOk, OnOk, filter, min};
ghost use Rattle.std.specs.Option.{option_map_or};
ghost use Rattle.clear_money.specs.Calendar.{IsDay, month_of};
ghost use Rattle.clear_book.specs.Accounts.{is_overdue, months};
ghost use Rattle.clear_records.specs.Records.{ChargesRise};
ghost use Rattle.clear_records.specs.Told.{is_missing_in};

use crate::versions::has_charge;
use clear_book::rows::EmployerRow;
use clear_kept::rows::WeighedCharge;
use clear_money::days::{Day, report_day};
use clear_money::months::Month;
use clear_money::rates::RateTable;
use std::alloc::{AllocError, Global};

/// The months of a membership without a charge, which are those without a report, whose report was
/// to be in before the day, rising. It takes a step and a search among the rates for each month from
/// the first member month to the one before the day's, or to the last member month where that comes
/// first, and for each that is overdue a search among the charges.
pub fn missing_months(
    alloc: Global,
    member: &EmployerRow,
    rates: &RateTable,
    charges: &[WeighedCharge],
    day: Day,
) -> Result<Vec<Month>, AllocError>
    ensures { ChargesRise charges.now → IfOk result (λ found. found.items
        ≡ filter (is_missing_in member.now rates.now charges.now day) months) }
{
    let first = member.start.number();
    let end = end_of(member, day);
    let mut missing = Vec::new(alloc);
    for number in first..end {
        let month = month_of(number);
        add_missing(&mut missing, member, rates, charges, day, month)?;
    }
    Ok(missing)
}

// The number behind the last month that can be missing on the day: a report is to be in within the
// month behind its own, so that none of the day's month or of a later one is overdue.
fn end_of(member: &EmployerRow, day: Day) -> u16
    ensures value { result
        ≡ min (month_of day) (option_map_or (λ last. last + 1) member.now.last 26_400) }
    ensures range { result ≤ 26_400 }
    ensures day { IsDay day }
{
    let last = match member.last {
        Some(last) => last.number(),
        None => Month::LAST_NUMBER,
    };
    day.month_number().min(last + 1)
}

// The month of a number, from 24,000 for 2000-01.
fn month_of(number: u16) -> Month
    requires { (24_000 ≤ number) × (number ≤ 26_399) }
    ensures { result ≡ number }
{
    match Month::from_number(number) {
        Some(month) => month,
        None => unreachable!(),
    }
}

// Adds a month, if it is missing on the day.
fn add_missing(
    missing: &mut Vec<Month>,
    member: &EmployerRow,
    rates: &RateTable,
    charges: &[WeighedCharge],
    day: Day,
    month: Month,
) -> Result<(), AllocError>
    ensures { ChargesRise charges.now → OnOk result (missing.new.items ≡ missing.old.items
        ++ filter (is_missing_in member.now rates.now charges.now day) (month ∷ [])) }
{
    if is_missing(member, rates, charges, day, month) {
        missing.push(month)?;
    }
    Ok(())
}

// Whether a month is missing on the day.
fn is_missing(
    member: &EmployerRow,
    rates: &RateTable,
    charges: &[WeighedCharge],
    day: Day,
    month: Month,
) -> bool
    ensures { ChargesRise charges.now
        → result ≡ is_missing_in member.now rates.now charges.now day month }
{
    member.is_member_in(month) && is_overdue(rates, day, month) && !has_charge(charges, month)
}

// Whether the report of a month was to be in before the day.
fn is_overdue(rates: &RateTable, day: Day, month: Month) -> bool
    ensures { result ≡ is_overdue rates.now day month }
{
    match rates.in_force(month) {
        Some(row) => report_day(month, row) < day,
        None => false,
    }
}
