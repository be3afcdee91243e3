//! A firm's charges, each as it stands on a day.
ghost use Rattle.std.specs.Prelude.{◌≡◌, IfOk, map};
ghost use Rattle.std.specs.Option.{option_map_or};
ghost use Rattle.clear_kept.specs.Owing.{IsWeighedInRange};
ghost use Rattle.clear_records.specs.Records.{MonthsRise, version_in};
ghost use Rattle.clear_records.specs.Told.{state_told};

use crate::statement::StatementRecords;
use crate::versions::find_version;
use clear_book::documents::ChargeState;
use clear_kept::owing::interest_of;
use clear_kept::rows::WeighedCharge;
use clear_money::days::Day;
use clear_money::months::Month;
use std::alloc::{AllocError, Global};

/// The charges of a firm as they stand on a day that no payment comes after. For each charge it takes
/// a search among the reports and one among the rates.
pub(crate) fn charge_states(
    alloc: Global,
    records: &StatementRecords,
    day: Day,
) -> Result<Vec<ChargeState>, AllocError>
    ensures { MonthsRise records.now.reports.items → IfOk result (λ states. states.items
        ≡ map (state_told records.now day) records.now.charges) }
{
    let mut states = Vec::new(alloc);
    for charge in records.charges.rows() {
        let state = charge_state(records, charge, day);
        states.push(state)?;
    }
    Ok(states)
}

// A charge as it stands.
fn charge_state(records: &StatementRecords, charge: &WeighedCharge, day: Day) -> ChargeState
    requires { IsWeighedInRange charge.now }
    ensures { MonthsRise records.now.reports.items
        → result ≡ state_told records.now day charge.now }
{
    ChargeState {
        month: charge.month,
        due: charge.due,
        version: version_of(records, charge.month),
        contribution: charge.cents,
        left: charge.left,
        interest: interest_of(charge, &records.rates, day),
    }
}

// The version of a month's report, and 0 where there is none.
fn version_of(records: &StatementRecords, month: Month) -> u32
    ensures { MonthsRise records.now.reports.items
        → result ≡ option_map_or (λ v. v) (version_in records.now.reports.items month) 0 }
{
    match find_version(records.reports.as_slice(), month) {
        Some(version) => version,
        None => 0,
    }
}
