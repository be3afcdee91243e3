//! What a report or a correction is judged by.
ghost use Rattle.std.specs.Prelude.{◌≡◌, ◌∷◌, [], IfErr, IfOk};
ghost use Rattle.clear_money.specs.Rates.{rate_in_force};
ghost use Rattle.clear_book.specs.Keyed.{find_row};
ghost use Rattle.clear_book.specs.RowRanges.{AreInRange};
ghost use Rattle.clear_book.specs.Tables.{employer_key, version_at};
ghost use Rattle.clear_schema.specs.Frame.{Leaves};
ghost use Rattle.clear_schema.specs.Faults.{IsOfDisk};
ghost use Rattle.clear_debts.specs.Reads.{OfTables};

use crate::lookups::{rate_for, version_of};
use crate::member::find_member;
use clear_book::calls::WageReport;
use clear_rules::decide::report::ReportView;
use clear_schema::fault::Fault;
use sqlite::{Alter, Transaction};

/// What a report or a correction is judged by: the firm, the version of the month's latest report,
/// 1 to 10,000, and the rate row in force for the month, each if there is one. Where the rows lie
/// in their ranges, no fault is one of a key or of a row.
pub fn report_view<S: Alter>(
    tx: &mut Transaction<'_, S>,
    report: &WageReport,
) -> Result<ReportView, Fault>
    ensures same_reference { tx.new.conn.ghost_name ≡ tx.old.conn.ghost_name }
    ensures member { OfTables S.Store tx.old.conn.now tx.new.conn.now (λ t.
        IfOk result (λ view. view.member
        ≡ find_row employer_key t.employers (report.now.employer ∷ []))) }
    ensures version { OfTables S.Store tx.old.conn.now tx.new.conn.now (λ t.
        IfOk result (λ view. view.version
        ≡ version_at t.reports report.now.employer report.now.month)) }
    ensures row { OfTables S.Store tx.old.conn.now tx.new.conn.now (λ t.
        IfOk result (λ view. view.row ≡ rate_in_force t.rates report.now.month)) }
    ensures fault { OfTables S.Store tx.old.conn.now tx.new.conn.now (λ t.
        AreInRange t → IfErr result IsOfDisk) }
    ensures leaves { Leaves S.Store tx.old.conn.now tx.new.conn.now result }
{
    let member = find_member(tx, report.employer)?;
    let version = version_of(tx, report.employer, report.month)?;
    let row = rate_for(tx, report.month)?;
    Ok(ReportView {
        member,
        version,
        row,
    })
}
