//! Employers and the numbers of their credits, each found by one search, and the limits on what
//! stands after a bank file.
ghost use Rattle.std.specs.Prelude.{◌≡◌, ℕ, ◌+◌, ◌<◌, ◌^◌, List, IfOk, OnOk, false, if◌then◌else◌};
ghost use Rattle.std.specs.List.{list_any};
ghost use Rattle.std.specs.Option.{option_map_or};
ghost use Rattle.clear_bank.specs.declared.lines.Purpose.{Purpose};
ghost use Rattle.clear_book.specs.declared.rows.BankRow.{BankRow};
ghost use Rattle.clear_book.specs.Checks.{first_of};
ghost use Rattle.clear_book.specs.Lines.{credit_count, credit_of_line, credits_of_lines};
ghost use Rattle.clear_book.specs.Lines.{employer_of_line, is_credit_of, suspense_count};
ghost use Rattle.clear_book.specs.Own.ImportBank.{is_over, limit_rules};
ghost use Rattle.clear_rules.specs.Counts.{AreCountsOf, IsIndexOf, count_in, count_indexed};
ghost use Rattle.clear_rules.specs.Counts.{count_then, counts_for, is_indexed};
ghost use Rattle.clear_rules.specs.Decisions.{Refuses};

use super::EmployerCredits;
use clear_bank::lines::{BankLine, Purpose};
use clear_book::limits::{MAX_CREDITS, MAX_SUSPENSE};
use clear_book::rows::BankRow;
use clear_book::rules::{Limit, Rule};
use clear_money::numbers::EmployerNo;
use std::alloc::{AllocError, Global};
use std::collections::BTreeMap;

/// The number of credits for each purpose, by employer.
#[derive(Drop)]
pub(super) struct CreditCounts {
    contributions: BTreeMap<EmployerNo, u64>,
    interest: BTreeMap<EmployerNo, u64>,
}

/// The employers of a view by their numbers: of two with one number the first.
pub(super) fn index_employers(
    alloc: Global,
    employers: &[EmployerCredits],
) -> Result<BTreeMap<EmployerNo, EmployerCredits>, AllocError>
    ensures { IfOk result (IsIndexOf employers.now) }
{
    let mut index = BTreeMap::new(alloc);
    for credits in employers {
        if !index.contains_key(&credits.employer) {
            index.insert(credits.employer, *credits)?;
        }
    }
    Ok(index)
}

/// The employer of a new line: the one that it names, if that is registered.
pub(super) fn employer_of(
    index: &BTreeMap<EmployerNo, EmployerCredits>,
    line: &BankLine,
) -> Option<EmployerNo>
    ensures { result ≡ employer_of_line (is_indexed index.now) line.now }
{
    let employer = line.employer?;
    if index.contains_key(&employer) {
        Some(employer)
    } else {
        None
    }
}

/// The limits on what stands after these rows: `OverLimit` of lines in suspense, `OverLimit` of
/// credits.
pub(super) fn check_limits(
    alloc: Global,
    suspense: u64,
    index: &BTreeMap<EmployerNo, EmployerCredits>,
    rows: &[BankRow],
) -> Result<(), Rule>
    ensures { Refuses result (first_of (limit_rules (suspense + suspense_count rows.now)
        (count_then index.now rows.now) rows.now)) }
{
    if suspense.saturating_add(count_waiting(rows)) > MAX_SUSPENSE {
        return Err(Rule::OverLimit(Limit::Suspense));
    }
    let counts = count_all_credits(alloc, rows)?;
    if has_over(index, &counts, rows) {
        return Err(Rule::OverLimit(Limit::Credits));
    }
    Ok(())
}

// How many lines are in suspense.
fn count_waiting(rows: &[BankRow]) -> u64
    ensures { result ≡ suspense_count rows.now }
{
    let mut count = 0;
    for row in rows {
        if row.employer.is_none() {
            count += 1;
        }
    }
    count
}

// How many credits each employer has for each purpose.
fn count_all_credits(alloc: Global, rows: &[BankRow]) -> Result<CreditCounts, AllocError>
    ensures { IfOk result (AreCountsOf rows.now) }
{
    Ok(CreditCounts {
        contributions: count_credits(alloc, rows, Purpose::Contribution)?,
        interest: count_credits(alloc, rows, Purpose::Interest)?,
    })
}

// How many credits each employer has for a purpose.
fn count_credits(
    alloc: Global,
    rows: &[BankRow],
    purpose: Purpose,
) -> Result<BTreeMap<EmployerNo, u64>, AllocError>
    ensures { IfOk result (λ counts.
        (e : ℕ) → count_in counts e ≡ credit_count (credits_of_lines rows.now) e purpose) }
{
    let mut counts = BTreeMap::new(alloc);
    for row in rows {
        count_credit(&mut counts, row, purpose)?;
    }
    Ok(counts)
}

// Counts the credit that a row is, if it is one for the purpose.
fn count_credit(
    counts: &mut BTreeMap<EmployerNo, u64>,
    row: &BankRow,
    purpose: Purpose,
) -> Result<(), AllocError>
    requires { (e : ℕ) → count_in counts.old e + 1 < 2 ^ 64 }
    ensures { OnOk result ((e : ℕ) → count_in counts.new e ≡ count_in counts.old e
        + (if option_map_or (is_credit_of e purpose) (credit_of_line row.now row.now.employer) false
        then 1 else 0)) }
{
    let Some(employer) = row.employer else {
        return Ok(());
    };
    if row.line.purpose != purpose {
        return Ok(());
    }
    let count = number_in(counts, employer);
    counts.insert(employer, count + 1)?;
    Ok(())
}

// Whether an employer of these rows has too many credits for a purpose.
fn has_over(
    index: &BTreeMap<EmployerNo, EmployerCredits>,
    counts: &CreditCounts,
    rows: &[BankRow],
) -> bool
    requires { AreCountsOf rows.now counts.now }
    ensures { result ≡ list_any (is_over (count_then index.now rows.now))
        (credits_of_lines rows.now) }
{
    for row in rows {
        if is_over(index, counts, row) {
            return true;
        }
    }
    false
}

// Whether the employer of a row has too many credits for its purpose.
fn is_over(
    index: &BTreeMap<EmployerNo, EmployerCredits>,
    counts: &CreditCounts,
    row: &BankRow,
) -> bool
    ensures { (rows : List BankRow) → AreCountsOf rows counts.now
        → result ≡ option_map_or (is_over (count_then index.now rows))
        (credit_of_line row.now row.now.employer) false }
{
    let Some(employer) = row.employer else {
        return false;
    };
    let new = counts.of(employer, row.line.purpose);
    credits_before(index, employer, row.line.purpose).saturating_add(new) > MAX_CREDITS
}

// How many credits an employer had for a purpose before the file.
fn credits_before(
    index: &BTreeMap<EmployerNo, EmployerCredits>,
    employer: EmployerNo,
    purpose: Purpose,
) -> u64
    ensures { result ≡ count_indexed index.now employer purpose }
{
    let Some(credits) = index.get(&employer) else {
        return 0;
    };
    match purpose {
        Purpose::Contribution => credits.contribution_count,
        Purpose::Interest => credits.interest_count,
    }
}

impl CreditCounts {
    // The number of an employer's credits for a purpose.
    fn of(&self, employer: EmployerNo, purpose: Purpose) -> u64
        ensures { result ≡ count_in (counts_for self.now purpose) employer }
    {
        match purpose {
            Purpose::Contribution => number_in(&self.contributions, employer),
            Purpose::Interest => number_in(&self.interest, employer),
        }
    }
}

// The count of an employer, 0 where there is none.
fn number_in(counts: &BTreeMap<EmployerNo, u64>, employer: EmployerNo) -> u64
    ensures { result ≡ count_in counts.now employer }
{
    counts.get(&employer).copied().unwrap_or(0)
}
