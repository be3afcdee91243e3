//! The decision on a correction.
ghost use Rattle.std.specs.Prelude.{◌≡◌, ◌≤◌, ◌+◌, All, IfOk, OnOk, Some, length};
ghost use Rattle.std.specs.Option.{option_map};
ghost use Rattle.clear_book.specs.declared.calls.Command.TheVariants.{Correct as DoCorrect};
ghost use Rattle.clear_book.specs.Book.{Book};
ghost use Rattle.clear_book.specs.Limits.{most_base, most_gross, most_lines};
ghost use Rattle.clear_book.specs.Own.Correct.{correct_reply, own_correct, stale_rule};
ghost use Rattle.clear_book.specs.Tables.{member_in};
ghost use Rattle.clear_rules.specs.Decisions.{Obeys, Refuses, IsJudged, TakesTables};
ghost use Rattle.clear_rules.specs.Views.Report.{IsReportView, charge_for, next_report};

use super::lines::{check_month, check_sizes, check_workers, kept_charge};
use super::report::ReportView;
use clear_book::calls::Correction;
use clear_book::limits::MAX_VERSIONS;
use clear_book::outcomes::Reply;
use clear_book::rows::{Change, Decision, ReportRow};
use clear_book::rules::{Limit, Rule};
use clear_money::days::Day;
use std::alloc::Global;

/// Decides on a correction: `UnknownEmployer`, `MonthOutside`, `MonthAhead`, `StaleVersion`,
/// `WorkerTwice`, `OverLimit` of 10,000 versions, `OverLimit` of 500 lines, `OverLimit` of
/// 10,000,000 cents gross, in this order. `Memory` may stand in place of any answer.
///
/// An accepted correction is the month's next version: its lines stand in the place of the month's,
/// as if they had been reported at first. It costs n log n steps for n lines.
pub fn decide_correct(
    alloc: Global,
    day: Day,
    correction: &Correction,
    view: &ReportView,
) -> Result<Decision, Rule>
    // The answer is the judge's, where the view is the book's, but for want of memory.
    ensures judged { (b : Book) → IsReportView b correction.now.report view.now
        → IsJudged b day (DoCorrect correction.now) result }
    // Where the judge gives the reply, the change takes the tables of a lawful book to those of the
    // next.
    ensures change { (b : Book) → IsReportView b correction.now.report view.now
        → IfOk result (TakesTables b day (DoCorrect correction.now)) }
    ensures rule { Refuses result (own_correct (option_map member_in view.now.member)
        view.now.version day correction.now) }
    ensures made { IfOk result (λ decision. decision.change
        ≡ Change.ReplaceReport (next_report correction.now) correction.now.report.lines
        (charge_for correction.now.report view.now)) }
    ensures reply { IfOk result (λ decision. decision.reply
        ≡ correct_reply correction.now view.now.row) }
    ensures few { OnOk result (length correction.now.report.lines ≤ most_lines) }
    ensures small { OnOk result
        (All (λ line. line.gross ≤ most_gross) correction.now.report.lines) }
    ensures bound { OnOk result
        ((charge_for correction.now.report view.now).cents ≤ most_base) }
{
    let version = check_correction(alloc, day, correction, view)?;
    let report = &correction.report;
    let Ok(copied) = report.lines.copied() else {
        return Err(Rule::Memory);
    };
    let row = ReportRow {
        employer: report.employer,
        month: report.month,
        version,
    };
    let lines = report.lines.as_slice();
    let charge = kept_charge(view.row, report.employer, report.month, lines);
    let reply = Reply::Reported {
        version,
        charge: charge.cents,
    };
    Ok(Decision {
        change: Change::ReplaceReport(row, copied, charge),
        reply,
    })
}

// The own rules of a correction, and the version that it is.
fn check_correction(
    alloc: Global,
    day: Day,
    correction: &Correction,
    view: &ReportView,
) -> Result<u32, Rule>
    ensures rule { Refuses result (own_correct (option_map member_in view.now.member)
        view.now.version day correction.now) }
    ensures version { IfOk result (λ version. version ≡ correction.now.version + 1) }
    ensures few { OnOk result (length correction.now.report.lines ≤ most_lines) }
    ensures small { OnOk result
        (All (λ line. line.gross ≤ most_gross) correction.now.report.lines) }
{
    let report = &correction.report;
    check_month(day, report.month, &view.member)?;
    let current = current_version(view.version, correction.version)?;
    let lines = report.lines.as_slice();
    check_workers(alloc, lines)?;
    if current >= MAX_VERSIONS {
        return Err(Rule::OverLimit(Limit::Versions));
    }
    check_sizes(lines)?;
    Ok(current + 1)
}

// The latest version of the month, if it is the one that is to be replaced.
fn current_version(version: Option<u32>, replaced: u32) -> Result<u32, Rule>
    ensures rule { Obeys result (stale_rule version replaced) }
    ensures latest { IfOk result (λ current. version ≡ Some current) }
    ensures same { IfOk result (λ current. current ≡ replaced) }
{
    let Some(current) = version else {
        return Err(Rule::StaleVersion(0));
    };
    if current != replaced {
        return Err(Rule::StaleVersion(current));
    }
    Ok(current)
}
