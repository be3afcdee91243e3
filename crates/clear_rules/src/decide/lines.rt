//! What is asked of a report's month and lines, be it the first or a correction, and what is owed
//! for it.
ghost use Rattle.std.specs.Prelude.{◌≡◌, ◌≤◌, All, IfOk, OnOk, false, length};
ghost use Rattle.std.specs.Option.{option_map};
ghost use Rattle.clear_book.specs.Accounts.{base_of, contribution_of_lines, due_by, kept_charge};
ghost use Rattle.clear_book.specs.Checks.{first_of};
ghost use Rattle.clear_book.specs.Limits.{most_base, most_gross, most_lines};
ghost use Rattle.clear_book.specs.Own.Lines.{has_large_gross, month_rules, size_rules};
ghost use Rattle.clear_book.specs.Own.Lines.{twice_rule, worker_twice};
ghost use Rattle.clear_book.specs.Tables.{member_in};
ghost use Rattle.clear_rules.specs.Decisions.{Obeys, Refuses};

use clear_book::limits::{MAX_GROSS, MAX_LINES};
use clear_book::rows::{EmployerRow, KeptCharge};
use clear_book::rules::{Limit, Rule};
use clear_book::texts::WageLine;
use clear_money::days::{Day, due_day};
use clear_money::months::Month;
use clear_money::numbers::{EmployerNo, WorkerNo};
use clear_money::rates::{RateRow, contribution};
use std::alloc::{AllocError, Global};
use std::collections::BTreeSet;

/// The contribution for lines within the limits of an employer's month, at the rate row in force
/// for it, as it is kept while nothing is paid of it. Without a rate row, which no reported month of
/// a lawful book lacks, it is 0 cents, due on 2000-01-01.
pub(super) fn kept_charge(
    row: Option<RateRow>,
    employer: EmployerNo,
    month: Month,
    lines: &[WageLine],
) -> KeptCharge
    requires few { length lines.now ≤ most_lines }
    requires small { All (λ line. line.gross ≤ most_gross) lines.now }
    ensures value { result ≡ kept_charge row employer month lines.now }
    ensures bound { result.cents ≤ most_base }
{
    let cents = charge(row, lines);
    KeptCharge {
        employer,
        month,
        due: due_by(&row, month),
        cents,
        left: cents,
        weight: 0,
    }
}

// The day on which the contribution of a month is due at a rate row, and 2000-01-01 without one.
fn due_by(row: &Option<RateRow>, month: Month) -> Day
    ensures { result ≡ due_by row.now month }
{
    match row {
        Some(row) => due_day(month, row),
        None => Day::first(),
    }
}

// The contribution in cents for lines within the limits at a rate row, and 0 without one.
fn charge(row: Option<RateRow>, lines: &[WageLine]) -> u64
    requires few { length lines.now ≤ most_lines }
    requires small { All (λ line. line.gross ≤ most_gross) lines.now }
    ensures value { result ≡ contribution_of_lines row lines.now }
    ensures bound { result ≤ most_base }
{
    let base = base(lines);
    match row {
        Some(row) => contribution(base, row.contribution_rate()),
        None => 0,
    }
}

// The sum of the gross amounts.
fn base(lines: &[WageLine]) -> u64
    requires few { length lines.now ≤ most_lines }
    requires small { All (λ line. line.gross ≤ most_gross) lines.now }
    ensures value { result ≡ base_of lines.now }
    ensures bound { result ≤ most_base }
{
    let mut total = 0;
    for line in lines {
        total += line.gross;
    }
    total
}

/// The rules on a month that an employer reports, which has a row if it is registered:
/// `UnknownEmployer`, `MonthOutside`, `MonthAhead`, in this order.
pub(super) fn check_month(day: Day, month: Month, member: &Option<EmployerRow>) -> Result<(), Rule>
    ensures { Obeys result (first_of (month_rules (option_map member_in member.now) day month)) }
{
    let Some(member) = member else {
        return Err(Rule::UnknownEmployer);
    };
    if !member.is_member_in(month) {
        return Err(Rule::MonthOutside);
    }
    if day.month_number() < month.number() {
        return Err(Rule::MonthAhead);
    }
    Ok(())
}

/// `WorkerTwice` where a worker stands in two lines, or `Memory`. It costs n log n steps for n
/// lines.
pub(super) fn check_workers(alloc: Global, lines: &[WageLine]) -> Result<(), Rule>
    ensures { Refuses result (twice_rule (worker_twice lines.now)) }
{
    match find_worker_twice(alloc, lines)? {
        Some(worker) => Err(Rule::WorkerTwice(worker)),
        None => Ok(()),
    }
}

/// `OverLimit` of 500 lines, `OverLimit` of 10,000,000 cents gross, in this order.
pub(super) fn check_sizes(lines: &[WageLine]) -> Result<(), Rule>
    ensures rule { Obeys result (first_of (size_rules lines.now)) }
    ensures few { OnOk result (length lines.now ≤ most_lines) }
    ensures small { OnOk result (All (λ line. line.gross ≤ most_gross) lines.now) }
{
    if lines.len() > MAX_LINES {
        return Err(Rule::OverLimit(Limit::Lines));
    }
    if has_large_gross(lines) {
        return Err(Rule::OverLimit(Limit::Gross));
    }
    Ok(())
}

// The worker of the first line whose worker stands in an earlier line.
fn find_worker_twice(alloc: Global, lines: &[WageLine]) -> Result<Option<WorkerNo>, AllocError>
    ensures { IfOk result (λ worker. worker ≡ worker_twice lines.now) }
{
    let mut seen = BTreeSet::new(alloc);
    for line in lines {
        if !seen.insert(line.worker)? {
            return Ok(Some(line.worker));
        }
    }
    Ok(None)
}

fn has_large_gross(lines: &[WageLine]) -> bool
    ensures test { result ≡ has_large_gross lines.now }
    ensures small { result ≡ false → All (λ line. line.gross ≤ most_gross) lines.now }
{
    lines.iter().any(|line| line.gross > MAX_GROSS)
}
