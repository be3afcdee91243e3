//! What an assignment is judged by.
ghost use Rattle.std.specs.Prelude.{◌≡◌, ◌&&◌, nat_le, IfErr, IfOk};
ghost use Rattle.clear_book.specs.Book.{Book};
ghost use Rattle.clear_book.specs.Keyed.{find_row};
ghost use Rattle.clear_book.specs.Limits.{most_credits};
ghost use Rattle.clear_book.specs.Lines.{credit_count};
ghost use Rattle.clear_book.specs.Own.Assign.{is_full, is_suspended};
ghost use Rattle.clear_book.specs.RowRanges.{AreInRange};
ghost use Rattle.clear_book.specs.Tables.{Stands, bank_key};
ghost use Rattle.clear_rules.specs.Views.Assign.{IsAssignView};
ghost use Rattle.clear_schema.specs.Frame.{Leaves};
ghost use Rattle.clear_schema.specs.Faults.{IsOfDisk};
ghost use Rattle.clear_schema.specs.Values.{counts_of};
ghost use Rattle.clear_debts.specs.Reads.{LeavesOpen, OfTables};

use crate::member::find_member;
use clear_bank::lines::Purpose;
use clear_book::calls::Assignment;
use clear_book::limits::MAX_CREDITS;
use clear_book::numbers::SerialCount;
use clear_book::rows::BankRow;
use clear_ledger::bank::find_line;
use clear_ledger::credits::credit_count;
use clear_money::numbers::EmployerNo;
use clear_rules::decide::assign::AssignView;
use clear_schema::counts::Counts;
use clear_schema::fault::Fault;
use sqlite::{Alter, Transaction};

/// What an assignment is judged by, where these counts stand: whether the firm is registered, the
/// line of the reference, if there is one, and whether the firm has as many credits for the line's
/// purpose as it may have.
///
/// It takes one search for the firm and one for the line. Once 100,000 serials were given, it also
/// reads the firm's credits for the purpose of a line in suspense; while there are fewer, the firm
/// can't have as many credits. Where the rows lie in their ranges, no fault is one of a key or of a
/// row.
pub fn assign_view<S: Alter>(
    tx: &mut Transaction<'_, S>,
    counts: &Counts,
    assignment: &Assignment,
) -> Result<AssignView, Fault>
    ensures same_reference { tx.new.conn.ghost_name ≡ tx.old.conn.ghost_name }
    ensures line { OfTables S.Store tx.old.conn.now tx.new.conn.now (λ t.
        IfOk result (λ view. view.line ≡ find_row bank_key t.bank assignment.now.reference)) }
    ensures view { OfTables S.Store tx.old.conn.now tx.new.conn.now (λ t.
        counts.now ≡ counts_of t → (b : Book) → Stands b t
        → IfOk result (IsAssignView b assignment.now)) }
    // While fewer serials were given than a firm may have credits, the firm is never taken for full.
    ensures full { OfTables S.Store tx.old.conn.now tx.new.conn.now (λ t.
        IfOk result (λ view. view.full
        ≡ (nat_le most_credits counts.now.serial && is_suspended view.line
        && is_full (credit_count t.credits assignment.now.employer) view.line))) }
    ensures fault { OfTables S.Store tx.old.conn.now tx.new.conn.now (λ t.
        AreInRange t → IfErr result IsOfDisk) }
    ensures leaves { Leaves S.Store tx.old.conn.now tx.new.conn.now result }
{
    let registered = find_member(tx, assignment.employer)?.is_some();
    let line = find_line(tx, &assignment.reference)?;
    let full = is_full(tx, counts.serial, assignment.employer, &line)?;
    Ok(AssignView {
        registered,
        line,
        full,
    })
}

// Whether so many serials were given that a firm could have as many credits as it may have, there
// is a line in suspense, and the firm has as many for its purpose. Where one of the first two
// isn't so, nothing is read.
fn is_full<S: Alter>(
    tx: &mut Transaction<'_, S>,
    serials: SerialCount,
    employer: EmployerNo,
    line: &Option<BankRow>,
) -> Result<bool, Fault>
    ensures same_reference { tx.new.conn.ghost_name ≡ tx.old.conn.ghost_name }
    ensures full { OfTables S.Store tx.old.conn.now tx.new.conn.now (λ t.
        IfOk result (λ full. full
        ≡ (nat_le most_credits serials && is_suspended line.now
        && is_full (credit_count t.credits employer) line.now))) }
    ensures fault { OfTables S.Store tx.old.conn.now tx.new.conn.now (λ t.
        AreInRange t → IfErr result IsOfDisk) }
    ensures leaves { LeavesOpen S.Store tx.old.conn.now tx.new.conn.now result }
{
    if serials.count() < MAX_CREDITS {
        return Ok(false);
    }
    match line {
        Some(row) if row.employer.is_none() => has_all_credits(tx, employer, row.line.purpose),
        Some(_) => Ok(false),
        None => Ok(false),
    }
}

// Whether a firm has as many credits for a purpose as it may have.
fn has_all_credits<S: Alter>(
    tx: &mut Transaction<'_, S>,
    employer: EmployerNo,
    purpose: Purpose,
) -> Result<bool, Fault>
    ensures same_reference { tx.new.conn.ghost_name ≡ tx.old.conn.ghost_name }
    ensures full { OfTables S.Store tx.old.conn.now tx.new.conn.now (λ t.
        IfOk result (λ full. full ≡ nat_le most_credits (credit_count t.credits employer purpose))) }
    ensures fault { OfTables S.Store tx.old.conn.now tx.new.conn.now (λ t.
        AreInRange t → IfErr result IsOfDisk) }
    ensures leaves { Leaves S.Store tx.old.conn.now tx.new.conn.now result }
{
    let count = credit_count(tx, employer, purpose)?;
    Ok(count >= MAX_CREDITS)
}
