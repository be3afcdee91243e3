//! Rate rows, the table of them, and the contribution at a rate.
ghost use Rattle.std.specs.Prelude.{◌≡◌, ◌≤◌, ◌<◌, ◌++◌, ◌∷◌, [], IsSome, IfSome, IfOk, OnOk};
ghost use Rattle.std.specs.Prelude.{OnErr, ◌↔◌, length, Err, option_copied};
ghost use Rattle.std.specs.List.Sorted.{IsPartitionPoint};
ghost use Rattle.clear_money.specs.Limits.{most_base};
ghost use Rattle.clear_money.specs.Rates.{IsRate, IsDayOfEachMonth, contribution_of};
ghost use Rattle.clear_money.specs.Rates.{rate_in_force, IsRising, last_first};

use crate::months::Month;
use std::alloc::{AllocError, Global};
use std::marker::Model;

/// The rates from a month on.
#[derive(Clone, Copy)]
pub struct RateRow {
    first: Month,
    contribution_rate: u16,
    report_day: u8,
    due_day: u8,
    interest_rate: u16,
    entitlement_rate: u16,
}

impl Model for RateRow {
    ghost use Rattle.clear_money.specs.Rates.{Rate, IsRate};

    ghost Value = { Rate };

    ghost view = { λ a. record {
      first = a.first;
      contribution_rate = a.contribution_rate;
      report_day = a.report_day;
      due_day = a.due_day;
      interest_rate = a.interest_rate;
      entitlement_rate = a.entitlement_rate;
    } };

    ghost invariant = { λ a. IsRate (record {
      first = a.first;
      contribution_rate = a.contribution_rate;
      report_day = a.report_day;
      due_day = a.due_day;
      interest_rate = a.interest_rate;
      entitlement_rate = a.entitlement_rate;
    }) };

    ghost inverse = { λ r. record {
      first = r.first;
      contribution_rate = r.contribution_rate;
      report_day = r.report_day;
      due_day = r.due_day;
      interest_rate = r.interest_rate;
      entitlement_rate = r.entitlement_rate;
    } };
}

impl RateRow {
    /// The greatest contribution rate and the greatest entitlement rate, in hundredths of a
    /// percent.
    pub const MAX_SHARE: u16 = 10_000;

    /// The greatest interest rate for each begun month, in hundredths of a percent.
    pub const MAX_INTEREST_RATE: u16 = 1_000;

    /// The last day that each month has: the greatest report day and the greatest due day.
    pub const LAST_DAY: u8 = 28;

    /// The rates from `first` on. In hundredths of a percent, `contribution_rate` is 0 to 10,000,
    /// `interest_rate` for each begun month 0 to 1,000, and `entitlement_rate` 0 to 10,000;
    /// `report_day` and `due_day` are days 1 to 28 of the following month. None outside these
    /// ranges.
    pub fn new(
        first: Month,
        contribution_rate: u16,
        report_day: u8,
        due_day: u8,
        interest_rate: u16,
        entitlement_rate: u16,
    ) -> Option<RateRow>
        ensures some { IsSome result ↔ IsRate (record {
          first = first;
          contribution_rate = contribution_rate;
          report_day = report_day;
          due_day = due_day;
          interest_rate = interest_rate;
          entitlement_rate = entitlement_rate;
        }) }
        ensures value { IfSome result (λ r. r ≡ record {
          first = first;
          contribution_rate = contribution_rate;
          report_day = report_day;
          due_day = due_day;
          interest_rate = interest_rate;
          entitlement_rate = entitlement_rate;
        }) }
    {
        // No effect at run time: the proof reads the month's range from this call.
        let _number = first.number();
        if contribution_rate > Self::MAX_SHARE || entitlement_rate > Self::MAX_SHARE {
            return None;
        }
        if interest_rate > Self::MAX_INTEREST_RATE {
            return None;
        }
        if report_day < 1 || report_day > Self::LAST_DAY {
            return None;
        }
        if due_day < 1 || due_day > Self::LAST_DAY {
            return None;
        }
        Some(RateRow {
            first,
            contribution_rate,
            report_day,
            due_day,
            interest_rate,
            entitlement_rate,
        })
    }

    /// The first month for which the row holds.
    pub fn first(&self) -> Month
        ensures { result ≡ self.now.first }
    {
        self.first
    }

    /// The contribution rate in hundredths of a percent.
    pub fn contribution_rate(&self) -> u16
        ensures value { result ≡ self.now.contribution_rate }
        ensures range { result ≤ 10_000 }
    {
        self.contribution_rate
    }

    /// The day of the following month by which a report is to be in.
    pub fn report_day(&self) -> u8
        ensures value { result ≡ self.now.report_day }
        ensures range { IsDayOfEachMonth result }
    {
        self.report_day
    }

    /// The day of the following month on which a contribution is due.
    pub fn due_day(&self) -> u8
        ensures value { result ≡ self.now.due_day }
        ensures range { IsDayOfEachMonth result }
    {
        self.due_day
    }

    /// The interest rate for each begun month in hundredths of a percent.
    pub fn interest_rate(&self) -> u16
        ensures value { result ≡ self.now.interest_rate }
        ensures range { result ≤ 1_000 }
    {
        self.interest_rate
    }

    /// The entitlement rate in hundredths of a percent.
    pub fn entitlement_rate(&self) -> u16
        ensures value { result ≡ self.now.entitlement_rate }
        ensures range { result ≤ 10_000 }
    {
        self.entitlement_rate
    }
}

/// The contribution for a base of at most 5,000,000,000 cents, at a rate in hundredths of a
/// percent, in cents.
pub fn contribution(base: u64, rate: u16) -> u64
    requires base { base ≤ most_base }
    requires rate { rate ≤ 10_000 }
    ensures { result ≡ contribution_of base rate }
{
    (base * u64::from(rate) + 5_000) / 10_000
}

/// Rate rows, one at least, whose first months rise. A contract sees them as a list.
#[derive(Drop)]
pub struct RateTable {
    rows: Vec<RateRow>,
}

impl Model for RateTable {
    ghost use Rattle.std.specs.Prelude.{List, length, ◌<◌};
    ghost use Rattle.clear_money.specs.Rates.{Rate, IsRising};

    ghost Value = { List Rate };

    ghost view = { λ a. a.rows.items };

    ghost invariant = { λ a. (0 < length a.rows.items) × IsRising a.rows.items };
}

/// Why a row is not added.
#[derive(Clone, Copy)]
pub enum PushFault {
    /// Its first month is not after the last row's.
    RateOrder,
    Memory,
}

impl RateTable {
    /// A table of one row.
    pub fn first(alloc: Global, row: RateRow) -> Result<RateTable, AllocError>
        ensures { IfOk result (λ table. table ≡ row ∷ []) }
    {
        let mut rows = Vec::new(alloc);
        rows.push(row)?;
        Ok(RateTable { rows })
    }

    /// Adds a row behind the last, if its first month is later. A refusal changes nothing.
    pub fn push(&mut self, row: RateRow) -> Result<(), PushFault>
        ensures order { (result ≡ Err PushFault.RateOrder) ↔ (row.first ≤ last_first self.old) }
        ensures ok { OnOk result (self.new ≡ self.old ++ row ∷ []) }
        ensures err { OnErr result (self.new ≡ self.old) }
    {
        if row.first() <= last_month(self.rows.as_slice()) {
            return Err(PushFault::RateOrder);
        }
        if self.rows.push(row).is_err() {
            return Err(PushFault::Memory);
        }
        Ok(())
    }

    /// The row in force for a month: the one with the greatest first month not after it.
    pub fn in_force(&self, month: Month) -> Option<&RateRow>
        ensures { option_copied result ≡ rate_in_force self.now month }
    {
        find_in_force(self.rows.as_slice(), month)
    }

    /// The rows, the first months rising.
    pub fn as_slice(&self) -> &[RateRow]
        ensures rows { result.now ≡ self.now }
        ensures some { 0 < length result.now }
        ensures rising { IsRising result.now }
    {
        self.rows.as_slice()
    }
}

/// The first month of the last row.
pub fn last_month(rows: &[RateRow]) -> Month
    requires { 0 < length rows.now }
    ensures { result ≡ last_first rows.now }
{
    rows[rows.len() - 1].first()
}

// The last row whose first month is not after the month, found by a search.
fn find_in_force(rows: &[RateRow], month: Month) -> Option<&RateRow>
    requires { IsRising rows.now }
    ensures { option_copied result ≡ rate_in_force rows.now month }
{
    let begun = count_begun(rows, month);
    if begun == 0 {
        return None;
    }
    Some(&rows[begun - 1])
}

// How many rows have begun by a month: they are the first of all.
fn count_begun(rows: &[RateRow], month: Month) -> usize
    requires { IsRising rows.now }
    ensures bound { result ≤ length rows.now }
    ensures begun { IsPartitionPoint (λ r. r.first ≤ month) (λ r. month < r.first) rows.now result }
{
    rows.partition_point(|row| row.first() <= month)
}
