//! What a firm owes on a day, by its account.
ghost use Rattle.std.specs.Prelude.{◌≡◌, ◌≤◌, ◌<◌, ◌↔◌, IsTrue, length};
ghost use Rattle.clear_money.specs.Limits.{most_charge_interest};
ghost use Rattle.clear_account.specs.Account.{IsAccount, last_day};
ghost use Rattle.clear_account.specs.Arrears.{arrears_on};
ghost use Rattle.clear_account.specs.Interest.{HasRates, all_interest_on, interest_on};

use crate::keeper::Keeper;
use clear_money::days::Day;
use clear_money::rates::RateTable;

/// The contributions due before a day, less all payments, at least 0, in cents.
pub fn arrears<K: Keeper>(keeper: &K, day: Day) -> u64
    ensures { result ≡ arrears_on (K.charges keeper.now) (K.credits keeper.now) day }
{
    keeper.charged_before(day).saturating_sub(keeper.credited())
}

/// Whether each charge has a rate row in force.
pub fn has_rates<K: Keeper>(keeper: &K, rates: &RateTable) -> bool
    ensures { IsTrue result ↔ HasRates rates.now (K.charges keeper.now) }
{
    for index in 0..keeper.charge_count() {
        let Some(charge) = keeper.charge_at(index) else {
            unreachable!()
        };
        if rates.in_force(charge.month).is_none() {
            return false;
        }
    }
    true
}

/// The interest of all contributions on a day, in cents, that of each rounded down once at the
/// rate of its own month.
pub fn interest<K: Keeper>(keeper: &K, rates: &RateTable, day: Day) -> u64
    requires rates { HasRates rates.now (K.charges keeper.now) }
    requires day { last_day (K.credits keeper.now) ≤ day }
    ensures { result
        ≡ all_interest_on rates.now (K.charges keeper.now) (K.credits keeper.now) day }
{
    let mut total = 0;
    for index in 0..keeper.charge_count() {
        total += interest_of_charge(keeper, rates, index, day);
    }
    total
}

// The interest of charge `index` on a day, in cents.
fn interest_of_charge<K: Keeper>(keeper: &K, rates: &RateTable, index: usize, day: Day) -> u64
    requires account { IsAccount (K.charges keeper.now) (K.credits keeper.now) }
    requires index { index < length (K.charges keeper.now) }
    requires rates { HasRates rates.now (K.charges keeper.now) }
    requires day { last_day (K.credits keeper.now) ≤ day }
    ensures value { result
        ≡ interest_on rates.now (K.charges keeper.now) (K.credits keeper.now) index day }
    ensures range { result ≤ most_charge_interest }
{
    let Some(charge) = keeper.charge_at(index) else {
        unreachable!()
    };
    let Some(weight) = keeper.weight_of(charge.month, day) else {
        unreachable!()
    };
    let Some(row) = rates.in_force(charge.month) else {
        unreachable!()
    };
    weight * u64::from(row.interest_rate()) / 10_000
}
