//! What a worker has earned, and what is claimed for it.
ghost use Rattle.std.specs.Prelude.{◌≡◌, ◌≤◌, ◌<◌, ◌^◌, if◌then◌else◌, IfSome, IsSome, sum_by};
ghost use Rattle.std.specs.List.{AllByRecursion};
ghost use Rattle.clear_money.specs.Rates.{rate_in_force};
ghost use Rattle.clear_book.specs.Limits.{most_gross};
ghost use Rattle.clear_book.specs.RowRanges.{IsWageRow};
ghost use Rattle.clear_book.specs.Workers.{entitlement_for, is_withdrawn};

use clear_book::rows::{ClaimRow, WageRow};
use clear_money::rates::RateTable;

/// What is earned with these lines, in cents. None where the sum is 2^64 or more, or the gross
/// amount of a line times its entitlement rate, in hundredths of a percent.
pub fn earned_cents(rates: &RateTable, rows: &[WageRow]) -> Option<u64>
    ensures value { IfSome result (λ sum. sum
        ≡ sum_by (λ row. entitlement_for (rate_in_force rates.now row.month) row.gross) rows.now) }
    ensures some { AllByRecursion IsWageRow rows.now
        → sum_by (λ row. entitlement_for (rate_in_force rates.now row.month) row.gross) rows.now
        < 2 ^ 64 → IsSome result }
{
    let mut sum: u64 = 0;
    for row in rows {
        sum = sum.checked_add(entitlement(rates, row)?)?;
    }
    Some(sum)
}

/// What is earned with a line, in cents. None where its gross amount times its entitlement rate, in
/// hundredths of a percent, is 2^64 or more.
pub(crate) fn entitlement(rates: &RateTable, row: &WageRow) -> Option<u64>
    ensures value { IfSome result (λ cents. cents
        ≡ entitlement_for (rate_in_force rates.now row.now.month) row.now.gross) }
    ensures some { row.now.gross ≤ most_gross → IsSome result }
{
    let Some(rate) = rates.in_force(row.month) else {
        return Some(0);
    };
    let scaled = row.gross.checked_mul(u64::from(rate.entitlement_rate()))?;
    Some(scaled / 10_000)
}

/// The claims that aren't withdrawn, in cents. None of a sum from 2^64 on.
pub fn claimed_cents(rows: &[ClaimRow]) -> Option<u64>
    ensures value { IfSome result (λ sum. sum
        ≡ sum_by (λ row. if is_withdrawn row.state then 0 else row.cents) rows.now) }
    ensures some { sum_by (λ row. if is_withdrawn row.state then 0 else row.cents) rows.now
        < 2 ^ 64 → IsSome result }
{
    let mut sum: u64 = 0;
    for row in rows {
        sum = sum.checked_add(standing_cents(row))?;
    }
    Some(sum)
}

// What a claim counts, in cents: 0 once it is withdrawn.
fn standing_cents(row: &ClaimRow) -> u64
    ensures { result ≡ if is_withdrawn row.now.state then 0 else row.now.cents }
{
    if row.state.is_withdrawn() {
        return 0;
    }
    row.cents.cents()
}
