//! The decision on a month's first report.
ghost use Rattle.std.specs.Prelude.{◌≡◌, ◌≤◌, All, IfOk, OnOk, length};
ghost use Rattle.std.specs.Option.{option_map};
ghost use Rattle.clear_book.specs.declared.calls.Command.TheVariants.{Report as DoReport};
ghost use Rattle.clear_book.specs.Book.{Book};
ghost use Rattle.clear_book.specs.Limits.{most_gross, most_lines};
ghost use Rattle.clear_book.specs.Own.Report.{own_report, report_reply};
ghost use Rattle.clear_book.specs.Tables.{member_in};
ghost use Rattle.clear_rules.specs.Decisions.{Refuses, IsJudged, TakesTables};
ghost use Rattle.clear_rules.specs.Views.Report.{IsReportView, charge_for, first_report};

use super::lines::{check_month, check_sizes, check_workers, kept_charge};
use clear_book::calls::WageReport;
use clear_book::outcomes::Reply;
use clear_book::rows::{Change, Decision, EmployerRow, ReportRow};
use clear_book::rules::Rule;
use clear_money::days::Day;
use clear_money::rates::RateRow;
use std::alloc::Global;

/// What a report is judged by, be it the first of its month or a correction.
#[derive(Drop)]
pub struct ReportView {
    /// The employer, if it is registered.
    pub member: Option<EmployerRow>,
    /// The version of the month's report, if it has one.
    pub version: Option<u32>,
    /// The rate row in force for the month.
    pub row: Option<RateRow>,
}

/// Decides on a month's first report: `UnknownEmployer`, `MonthOutside`, `MonthAhead`,
/// `ReportExists`, `WorkerTwice`, `OverLimit` of 500 lines, `OverLimit` of 10,000,000 cents gross,
/// in this order. `Memory` may stand in place of any answer. It costs n log n steps for n lines.
pub fn decide_report(
    alloc: Global,
    day: Day,
    report: &WageReport,
    view: &ReportView,
) -> Result<Decision, Rule>
    // The answer is the judge's, where the view is the book's, but for want of memory.
    ensures judged { (b : Book) → IsReportView b report.now view.now
        → IsJudged b day (DoReport report.now) result }
    // Where the judge gives the reply, the change takes the tables of a lawful book to those of the
    // next.
    ensures change { (b : Book) → IsReportView b report.now view.now
        → IfOk result (TakesTables b day (DoReport report.now)) }
    ensures rule { Refuses result (own_report (option_map member_in view.now.member)
        view.now.version day report.now.month report.now.lines) }
    ensures made { IfOk result (λ decision. decision.change
        ≡ Change.AddReport (first_report report.now) report.now.lines
        (charge_for report.now view.now)) }
    ensures reply { IfOk result (λ decision. decision.reply
        ≡ report_reply view.now.row report.now.lines) }
    ensures few { OnOk result (length report.now.lines ≤ most_lines) }
    ensures small { OnOk result (All (λ line. line.gross ≤ most_gross) report.now.lines) }
{
    let lines = report.lines.as_slice();
    check_report(alloc, day, report, view)?;
    let Ok(copied) = report.lines.copied() else {
        return Err(Rule::Memory);
    };
    let row = ReportRow {
        employer: report.employer,
        month: report.month,
        version: 1,
    };
    let charge = kept_charge(view.row, report.employer, report.month, lines);
    let reply = Reply::Reported {
        version: 1,
        charge: charge.cents,
    };
    Ok(Decision {
        change: Change::AddReport(row, copied, charge),
        reply,
    })
}

// The own rules of a first report.
fn check_report(alloc: Global, day: Day, report: &WageReport, view: &ReportView) -> Result<(), Rule>
    ensures rule { Refuses result (own_report (option_map member_in view.now.member)
        view.now.version day report.now.month report.now.lines) }
    ensures few { OnOk result (length report.now.lines ≤ most_lines) }
    ensures small { OnOk result (All (λ line. line.gross ≤ most_gross) report.now.lines) }
{
    check_month(day, report.month, &view.member)?;
    if let Some(version) = view.version {
        return Err(Rule::ReportExists(version));
    }
    let lines = report.lines.as_slice();
    check_workers(alloc, lines)?;
    check_sizes(lines)
}
