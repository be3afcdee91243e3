//! Values lie in their ranges, since each is of a type that holds no others. These functions have no
//! effect: a proof reads from them what the types say.
ghost use Rattle.std.specs.List.{AllByRecursion};
ghost use Rattle.clear_money.specs.Rates.{IsRate};
ghost use Rattle.clear_values.specs.Ranges.{AreRates, IsCaller};

use crate::callers::Caller;
use clear_money::rates::{RateRow, RateTable};

/// The values of the caller lie in their ranges.
pub fn caller_in_range(caller: &Caller)
    ensures { IsCaller caller.now }
{
    if let Caller::Firm(employer) = caller {
        let _employer = employer.number();
    }
}

/// The rates are a table that a book may begin with: one row at least, the first months rising, and
/// each row in its ranges.
pub fn rates_in_range(rates: &RateTable)
    ensures { AreRates rates.now }
{
    let rows = rates.as_slice();
    rows_in_range(rows);
}

// The values of rate rows lie in their ranges.
fn rows_in_range(rows: &[RateRow])
    ensures { AllByRecursion IsRate rows.now }
{
    for row in rows {
        rate_in_range(row);
    }
}

/// The values of a row of rates lie in their ranges.
pub fn rate_in_range(row: &RateRow)
    ensures { IsRate row.now }
{
    let _first = row.first().number();
    let _contribution = row.contribution_rate();
    let _report_day = row.report_day();
    let _due_day = row.due_day();
    let _interest = row.interest_rate();
    let _entitlement = row.entitlement_rate();
}
