//! The records of a worker, and what they say of it.
ghost use Rattle.std.specs.Prelude.{◌≡◌, ◌≤◌, ◌<◌, ◌^◌, IfErr, IfOk, IfSome, IsSome, filter};
ghost use Rattle.std.specs.Prelude.{map, not};
ghost use Rattle.std.specs.List.{AllByRecursion};
ghost use Rattle.clear_book.specs.Book.{Book};
ghost use Rattle.clear_book.specs.Limits.{most_gross};
ghost use Rattle.clear_book.specs.Machine.{IsLawful};
ghost use Rattle.clear_book.specs.Own.Worker.{worker_on};
ghost use Rattle.clear_book.specs.RowRanges.{IsWageRow};
ghost use Rattle.clear_book.specs.Workers.{is_withdrawn};
ghost use Rattle.clear_records.specs.Earned.{account_told, claimed_total, earned_total, earned_told};
ghost use Rattle.clear_records.specs.Records.{AreWorkerRecords};

use crate::balance::{claimed_cents, earned_cents, entitlement};
use clear_book::documents::EarnedLine;
use clear_book::rows::{ClaimRow, WageRow};
use clear_money::days::Day;
use clear_money::numbers::WorkerNo;
use clear_money::rates::RateTable;
use clear_values::causes::{Fault, StoreCause};
use std::alloc::Global;
use std::marker::Model;

/// The records of a worker.
#[derive(Drop)]
pub struct WorkerRecords {
    /// The rates of all months.
    pub rates: RateTable,
    /// Its lines in the latest reports, by firm and month.
    pub wages: Vec<WageRow>,
    /// All claims for it, also those that are withdrawn, by their numbers.
    pub claims: Vec<ClaimRow>,
}

/// What is told of a worker on a day.
#[derive(Drop)]
pub struct WorkerAccount {
    pub worker: WorkerNo,
    pub day: Day,
    /// What it has earned, by firm, then month.
    pub earned: Vec<EarnedLine>,
    /// The claims for it that aren't withdrawn, by their numbers.
    pub claims: Vec<ClaimRow>,
    /// In cents.
    pub balance: u64,
}

impl Model for WorkerAccount {
    ghost use Rattle.clear_book.specs.Documents.Worker.{WorkerAccount as Account};

    ghost Value = { Account };

    ghost view = { λ a. record {
      worker = a.worker;
      day = a.day;
      earned = a.earned.items;
      claims = a.claims.items;
      balance = a.balance;
    } };
}

/// What is told of a worker on a day. Refused with `StoreCause::Row` are amounts whose sum is 2^64
/// cents or more, and a line whose gross amount times its entitlement rate, in hundredths of a
/// percent, is as much.
pub fn worker_account(
    alloc: Global,
    worker: WorkerNo,
    day: Day,
    records: &WorkerRecords,
) -> Result<WorkerAccount, Fault>
    ensures told { (b : Book) → IsLawful b → AreWorkerRecords b worker records.now
        → IfOk result (λ account. account ≡ worker_on b day worker) }
    ensures memory { (b : Book) → IsLawful b → AreWorkerRecords b worker records.now
        → IfErr result (λ fault. fault ≡ Fault.Memory) }
    // Whatever the records are.
    ensures account { IfOk result (λ account. account ≡ account_told worker day records.now) }
    ensures fault { AllByRecursion IsWageRow records.now.wages.items
        → earned_total records.now < 2 ^ 64 → claimed_total records.now < 2 ^ 64
        → IfErr result (λ fault. fault ≡ Fault.Memory) }
{
    let Some(earned) = earned_cents(&records.rates, records.wages.as_slice()) else {
        return Err(Fault::Store(StoreCause::Row));
    };
    let Some(claimed) = claimed_cents(records.claims.as_slice()) else {
        return Err(Fault::Store(StoreCause::Row));
    };
    let lines = earned_lines(alloc, &records.rates, records.wages.as_slice())?;
    let claims = standing_claims(alloc, records.claims.as_slice())?;
    Ok(WorkerAccount {
        worker,
        day,
        earned: lines,
        claims,
        balance: earned.saturating_sub(claimed),
    })
}

// The lines of what is earned.
fn earned_lines(
    alloc: Global,
    rates: &RateTable,
    rows: &[WageRow],
) -> Result<Vec<EarnedLine>, Fault>
    ensures lines { IfOk result (λ lines. lines.items ≡ map (earned_told rates.now) rows.now) }
    ensures fault { AllByRecursion IsWageRow rows.now
        → IfErr result (λ fault. fault ≡ Fault.Memory) }
{
    let mut lines = Vec::new(alloc);
    for row in rows {
        let line = match earned_line(rates, row) {
            Some(line) => line,
            None => return Err(Fault::Store(StoreCause::Row)),
        };
        lines.push(line)?;
    }
    Ok(lines)
}

// What a wage row earns. None where its gross amount times its entitlement rate, in hundredths of a
// percent, is 2^64 or more.
fn earned_line(rates: &RateTable, row: &WageRow) -> Option<EarnedLine>
    ensures value { IfSome result (λ line. line ≡ earned_told rates.now row.now) }
    ensures some { row.now.gross ≤ most_gross → IsSome result }
{
    match entitlement(rates, row) {
        Some(cents) => Some(EarnedLine {
            employer: row.employer,
            month: row.month,
            cents,
        }),
        None => None,
    }
}

// The claims that aren't withdrawn.
fn standing_claims(alloc: Global, rows: &[ClaimRow]) -> Result<Vec<ClaimRow>, Fault>
    ensures claims { IfOk result (λ claims. claims.items
        ≡ filter (λ claim. not (is_withdrawn claim.state)) rows.now) }
    ensures fault { IfErr result (λ fault. fault ≡ Fault.Memory) }
{
    let mut claims = Vec::new(alloc);
    for row in rows {
        if !row.state.is_withdrawn() {
            claims.push(*row)?;
        }
    }
    Ok(claims)
}
