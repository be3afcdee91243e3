//! What the end of a membership is judged by.
ghost use Rattle.std.specs.Prelude.{◌≡◌, ◌∷◌, [], IfErr, IfOk};
ghost use Rattle.clear_book.specs.Keyed.{find_row};
ghost use Rattle.clear_book.specs.RowRanges.{AreInRange};
ghost use Rattle.clear_book.specs.Tables.{employer_key};
ghost use Rattle.clear_schema.specs.Frame.{Leaves};
ghost use Rattle.clear_schema.specs.Faults.{IsOfDisk};
ghost use Rattle.clear_views.specs.Ends.{last_report};
ghost use Rattle.clear_debts.specs.Reads.{OfTables};

use crate::member::find_member;
use clear_book::calls::MembershipEnd;
use clear_firms::reports::find_last_report;
use clear_money::months::Month;
use clear_money::numbers::EmployerNo;
use clear_rules::decide::end::EndView;
use clear_schema::fault::Fault;
use sqlite::{Alter, Transaction};

/// What the end of a firm's membership is judged by: the firm, if it is registered, and the
/// greatest month of which it has a report, if there is one: a search by a key each. Where the rows
/// lie in their ranges, no fault is one of a key or of a row.
pub fn end_view<S: Alter>(
    tx: &mut Transaction<'_, S>,
    end: &MembershipEnd,
) -> Result<EndView, Fault>
    ensures same_reference { tx.new.conn.ghost_name ≡ tx.old.conn.ghost_name }
    ensures member { OfTables S.Store tx.old.conn.now tx.new.conn.now (λ t.
        IfOk result (λ view. view.member
        ≡ find_row employer_key t.employers (end.now.employer ∷ []))) }
    ensures reported { OfTables S.Store tx.old.conn.now tx.new.conn.now (λ t.
        IfOk result (λ view. view.reported ≡ last_report t end.now.employer)) }
    ensures fault { OfTables S.Store tx.old.conn.now tx.new.conn.now (λ t.
        AreInRange t → IfErr result IsOfDisk) }
    ensures leaves { Leaves S.Store tx.old.conn.now tx.new.conn.now result }
{
    let member = find_member(tx, end.employer)?;
    let reported = last_month(tx, end.employer)?;
    Ok(EndView { member, reported })
}

// The greatest month of which a firm has a report, if there is one.
fn last_month<S: Alter>(
    tx: &mut Transaction<'_, S>,
    employer: EmployerNo,
) -> Result<Option<Month>, Fault>
    ensures same_reference { tx.new.conn.ghost_name ≡ tx.old.conn.ghost_name }
    ensures reported { OfTables S.Store tx.old.conn.now tx.new.conn.now (λ t.
        IfOk result (λ month. month ≡ last_report t employer)) }
    ensures fault { OfTables S.Store tx.old.conn.now tx.new.conn.now (λ t.
        AreInRange t → IfErr result IsOfDisk) }
    ensures leaves { Leaves S.Store tx.old.conn.now tx.new.conn.now result }
{
    match find_last_report(tx, employer)? {
        Some(row) => Ok(Some(row.month)),
        None => Ok(None),
    }
}
