//! How a claim stands, as the columns of its row tell it.
ghost use Rattle.std.specs.Prelude.{◌≡◌, ◌≤◌, ◌↔◌, Some, true, IfSome};
ghost use Rattle.clear_values.specs.Numbers.{IsListNo};
ghost use Rattle.clear_values.specs.RowRanges.{IsClaimRow, IsClaimState};
ghost use Rattle.clear_values.specs.declared.rows.ClaimState.{ClaimState};
ghost use Rattle.clear_schema.specs.Values.{columns_of, unsettled};

use clear_columns::ranges::settled_cents;
use clear_money::numbers::Amount;
use clear_schema::columns::StateColumns;
use clear_values::numbers::ListNo;
use clear_values::replies::Settlement;
use clear_values::rows::{ClaimRow, ClaimState, ReleasedClaim};

/// The columns that tell of a state.
pub fn state_columns(state: ClaimState) -> StateColumns
    ensures columns { result ≡ columns_of state }
    ensures code { result.code ≤ 2 }
{
    match state {
        ClaimState::Open => unsettled_columns(0),
        ClaimState::Withdrawn => unsettled_columns(1),
        ClaimState::Released(release) => StateColumns {
            code: 2,
            released: Some(release.day),
            settlement: release.settlement,
            list: release.list,
        },
    }
}

// The columns of a claim that is not released.
fn unsettled_columns(code: u64) -> StateColumns
    ensures { result ≡ unsettled code }
{
    StateColumns {
        code,
        released: None,
        settlement: Settlement {
            to_contributions: 0,
            to_interest: 0,
            paid: 0,
        },
        list: None,
    }
}

/// The state of a claim of these cents that these columns tell of. None where they tell of none, as
/// a day of release at an open claim, or where the state is out of its range.
pub fn state_of(cents: Amount, columns: &StateColumns) -> Option<ClaimState>
    ensures some { IfSome result (λ state.
        (columns_of state ≡ columns.now) × IsClaimState cents state) }
    ensures only { (state : ClaimState) → columns_of state ≡ columns.now
        → IsClaimState cents state → result ≡ Some state }
{
    let state = match told_state(columns) {
        Some(state) => state,
        None => return None,
    };
    if is_state(cents, &state) {
        Some(state)
    } else {
        None
    }
}

// The state that columns tell of.
fn told_state(columns: &StateColumns) -> Option<ClaimState>
    ensures some { IfSome result (λ state. columns_of state ≡ columns.now) }
    ensures only { (state : ClaimState) → columns_of state ≡ columns.now → result ≡ Some state }
{
    if columns.code == 2 {
        return match columns.released {
            Some(day) => Some(ClaimState::Released(ReleasedClaim {
                day,
                settlement: columns.settlement,
                list: columns.list,
            })),
            None => None,
        };
    }
    if !is_unsettled(columns) {
        return None;
    }
    if columns.code == 0 {
        Some(ClaimState::Open)
    } else if columns.code == 1 {
        Some(ClaimState::Withdrawn)
    } else {
        None
    }
}

// Whether columns tell of no release.
fn is_unsettled(columns: &StateColumns) -> bool
    ensures { (result ≡ true) ↔ (columns.now ≡ unsettled columns.now.code) }
{
    columns.released.is_none()
        && columns.settlement.to_contributions == 0
        && columns.settlement.to_interest == 0
        && columns.settlement.paid == 0
        && columns.list.is_none()
}

/// Whether the values of a claim lie in their ranges: what a release settled is its amount, and the
/// rest lies in its type's range.
pub fn is_claim_row(row: &ClaimRow) -> bool
    ensures { (result ≡ true) ↔ IsClaimRow row.now }
{
    // A proof reads the ranges of these from their types.
    let _claim = row.claim.number();
    let _employer = row.employer.number();
    let _worker = row.worker.number();
    let _cents = row.cents.cents();
    let _made = row.made.number();
    is_state(row.cents, &row.state)
}

// Whether a claim of these cents can stand so.
fn is_state(cents: Amount, state: &ClaimState) -> bool
    ensures { (result ≡ true) ↔ IsClaimState cents state.now }
{
    match state {
        ClaimState::Open => true,
        ClaimState::Withdrawn => true,
        ClaimState::Released(release) => is_released(cents, release),
    }
}

// Whether a claim of these cents can be released so.
fn is_released(cents: Amount, release: &ReleasedClaim) -> bool
    ensures { (result ≡ true) ↔ IsClaimState cents (ClaimState.Released release.now) }
{
    let _day = release.day.number();
    let _list = list_number(release.list);
    match settled_cents(release.settlement) {
        Some(sum) => sum == cents.cents(),
        None => false,
    }
}

// The number of a payout list that may be there.
fn list_number(list: Option<ListNo>) -> Option<u32>
    ensures { IfSome list IsListNo }
{
    match list {
        Some(list) => Some(list.number()),
        None => None,
    }
}
