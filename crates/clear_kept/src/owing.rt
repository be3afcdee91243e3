//! What a firm owes, told from the rows of its charges alone.
ghost use Rattle.std.specs.Prelude.{◌≡◌, ◌↔◌, ◌*◌, ◌^◌, ◌<◌, ◌≤◌, All, IsTrue};
ghost use Rattle.clear_money.specs.Limits.{most_charge_interest};
ghost use Rattle.clear_kept.specs.Owing.{AreWeighedInRange, IsWeighedInRange, arrears_in, charged_in};
ghost use Rattle.clear_kept.specs.Owing.{interest_in, open_in, row_interest};
ghost use Rattle.clear_account.specs.Interest.{interest_rate};

use crate::rows::WeighedCharge;
use clear_account::entries::Charge;
use clear_money::days::{Day, begun_months};
use clear_money::months::Month;
use clear_money::rates::{RateRow, RateTable};
use std::marker::Model;

/// The rows of a firm's charges, each in its ranges: what they sum to stays below 2^64.
#[derive(Drop)]
pub struct WeighedCharges {
    rows: Vec<WeighedCharge>,
}

impl Model for WeighedCharges {
    ghost use Rattle.std.specs.Prelude.{List};
    ghost use Rattle.clear_kept.specs.declared.rows.WeighedCharge.{WeighedCharge};
    ghost use Rattle.clear_money.specs.Limits.{most_charge_interest};
    ghost use Rattle.clear_kept.specs.Owing.{AreWeighedInRange};

    ghost Value = { List WeighedCharge };

    ghost view = { λ a. a.rows.items };

    ghost invariant = { λ a. AreWeighedInRange a.rows.items };
}

impl WeighedCharges {
    ghost use Rattle.std.specs.Prelude.{◌≡◌, All, IfSome, IsSome};
    ghost use Rattle.clear_money.specs.Limits.{most_charge_interest};
    ghost use Rattle.clear_kept.specs.Owing.{AreWeighedInRange, IsWeighedInRange, arrears_in};
    ghost use Rattle.clear_kept.specs.Owing.{charged_in, interest_in, open_in};

    /// These rows. None where they are more than 2,400, or one is out of its ranges: due behind the
    /// 28th of a month, more than 5,000,000,000 cents or so many left open, or a weight above
    /// 12,060,000,000,000.
    pub fn new(rows: Vec<WeighedCharge>) -> Option<WeighedCharges>
        ensures value { IfSome result (λ kept. kept ≡ rows.items) }
        ensures some { AreWeighedInRange rows.items → IsSome result }
    {
        if rows.len() > Month::COUNT as usize || !are_weighed(rows.as_slice()) {
            return None;
        }
        Some(WeighedCharges { rows })
    }

    /// The rows, as they were given.
    pub fn rows(&self) -> &[WeighedCharge]
        ensures value { result.now ≡ self.now }
        ensures range { All IsWeighedInRange result.now }
    {
        self.rows.as_slice()
    }

    /// All charges, in cents.
    pub fn charged(&self) -> u64
        ensures { result ≡ charged_in self.now }
    {
        add_charges(self.rows.as_slice())
    }

    /// What is open of them, in cents.
    pub fn open(&self) -> u64
        ensures { result ≡ open_in self.now }
    {
        add_open(self.rows.as_slice())
    }

    /// What is open of those due before a day, in cents: the arrears, where due days rise with the
    /// months.
    pub fn arrears(&self, day: Day) -> u64
        ensures { result ≡ arrears_in self.now day }
    {
        add_due(self.rows.as_slice(), day)
    }

    /// The interest of all charges, in cents, that of each rounded down once at the rate of its own
    /// month, on a day that is not before that of a payment. For each charge it takes a search among
    /// the rates.
    pub fn interest(&self, rates: &RateTable, day: Day) -> u64
        ensures { result ≡ interest_in rates.now self.now day }
    {
        add_interest(self.rows.as_slice(), rates, day)
    }
}

// Whether each row is in its ranges.
fn are_weighed(rows: &[WeighedCharge]) -> bool
    ensures { IsTrue result ↔ All IsWeighedInRange rows.now }
{
    for row in rows {
        if !is_weighed(row) {
            return false;
        }
    }
    true
}

// Whether a row is in its ranges.
fn is_weighed(row: &WeighedCharge) -> bool
    ensures { IsTrue result ↔ IsWeighedInRange row.now }
{
    row.due.day_of_month() <= RateRow::LAST_DAY
        && row.cents <= Charge::MAX_CENTS
        && row.left <= Charge::MAX_CENTS
        && row.weight <= Charge::MAX_WEIGHT
}

// All charges, in cents.
fn add_charges(rows: &[WeighedCharge]) -> u64
    requires { charged_in rows.now < 2 ^ 64 }
    ensures { result ≡ charged_in rows.now }
{
    rows.iter().map(|row| row.cents).sum()
}

// What is open of them.
fn add_open(rows: &[WeighedCharge]) -> u64
    requires { open_in rows.now < 2 ^ 64 }
    ensures { result ≡ open_in rows.now }
{
    rows.iter().map(|row| row.left).sum()
}

// What is open of those due before a day.
fn add_due(rows: &[WeighedCharge], day: Day) -> u64
    requires { open_in rows.now < 2 ^ 64 }
    ensures { result ≡ arrears_in rows.now day }
{
    rows.iter()
        .filter(|row| row.due < day)
        .map(|row| row.left)
        .sum()
}

// The interest of all charges on a day, in cents.
fn add_interest(rows: &[WeighedCharge], rates: &RateTable, day: Day) -> u64
    requires { AreWeighedInRange rows.now }
    ensures { result ≡ interest_in rates.now rows.now day }
{
    let mut total = 0;
    for row in rows {
        total += interest_of(row, rates, day);
    }
    total
}

/// The interest of a charge on a day that is not before that of a payment, in cents, rounded down
/// once.
pub fn interest_of(row: &WeighedCharge, rates: &RateTable, day: Day) -> u64
    requires { IsWeighedInRange row.now }
    ensures value { result ≡ row_interest rates.now day row.now }
    ensures range { result ≤ 2 * most_charge_interest }
{
    let weight = row.weight + row.left * u64::from(begun_months(row.due, day));
    weight * interest_rate(rates, row.month) / 10_000
}

// The interest rate in force for a month, in hundredths of a percent, and 0 where none is.
fn interest_rate(rates: &RateTable, month: Month) -> u64
    ensures value { result ≡ interest_rate rates.now month }
    ensures range { result ≤ 1_000 }
{
    match rates.in_force(month) {
        Some(row) => u64::from(row.interest_rate()),
        None => 0,
    }
}
