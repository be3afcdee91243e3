//! The rates of the sample.
ghost use Rattle.std.specs.Prelude.{◌≡◌, ◌+◌, ◌*◌, ◌≤◌, IfOk};
ghost use Rattle.clear_sample.specs.Samples.{sample_rates};

use clear_money::months::Month;
use clear_money::rates::{PushFault, RateRow, RateTable};
use std::alloc::{AllocError, Global};

/// The rates: 20 per cent from 2024-01 on, and 19 per cent from 2025-01 on.
pub fn sample_rates(alloc: Global) -> Result<RateTable, AllocError>
    ensures { IfOk result (λ table. table ≡ sample_rates) }
{
    let mut table = RateTable::first(alloc, rate(month(2024, 1), 2_000, 100))?;
    match table.push(rate(month(2025, 1), 1_900, 90)) {
        Ok(()) => Ok(table),
        Err(PushFault::Memory) => Err(AllocError),
        Err(PushFault::RateOrder) => unreachable!(),
    }
}

// A month of a year.
fn month(year: u16, month: u16) -> Month
    requires year { (2000 ≤ year) × (year ≤ 2199) }
    requires month { (1 ≤ month) × (month ≤ 12) }
    ensures { result + 1 ≡ 12 * year + month }
{
    match Month::new(year, month) {
        Some(month) => month,
        None => unreachable!(),
    }
}

// A row of the sample: reports by the 15th, payments by the 20th, and an entitlement of 14.25 per
// cent.
fn rate(first: Month, contribution: u16, interest: u16) -> RateRow
    requires contribution { contribution ≤ 10_000 }
    requires interest { interest ≤ 1_000 }
    ensures { result ≡ record {
      first = first;
      contribution_rate = contribution;
      report_day = 15;
      due_day = 20;
      interest_rate = interest;
      entitlement_rate = 1425;
    } }
{
    // No effect at run time: the proof reads the month's range from this call.
    let _number = first.number();
    match RateRow::new(first, contribution, 15, 20, interest, 1_425) {
        Some(row) => row,
        None => unreachable!(),
    }
}
