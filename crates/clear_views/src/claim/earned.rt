//! What a worker has earned.
ghost use Rattle.std.specs.Prelude.{◌≡◌, ◌==◌, ◌<◌, ◌^◌, IfErr, IfOk, sum_by};
ghost use Rattle.std.specs.List.{AllByRecursion, list_any};
ghost use Rattle.clear_money.specs.Rates.{rate_in_force};
ghost use Rattle.clear_book.specs.RowRanges.{AreInRange, IsWageRow};
ghost use Rattle.clear_book.specs.Tables.{table_entitlement, wages_of_worker};
ghost use Rattle.clear_book.specs.Workers.{entitlement_for};
ghost use Rattle.clear_schema.specs.Frame.{Leaves};
ghost use Rattle.clear_schema.specs.Faults.{IsOfDisk};
ghost use Rattle.clear_debts.specs.Reads.{OfTables};

use clear_book::rows::WageRow;
use clear_book::rules::StoreCause;
use clear_firms::rates::rate_table;
use clear_firms::wages::worker_wages;
use clear_money::numbers::{EmployerNo, WorkerNo};
use clear_money::rates::RateTable;
use clear_records::balance::earned_cents;
use clear_schema::fault::Fault;
use sqlite::{Alter, Transaction};

/// What a worker has earned.
#[derive(Clone, Copy)]
pub(super) struct Earned {
    /// Whether a latest report of the firm has a line of the worker.
    pub(super) employed: bool,
    /// With the lines of all firms, in cents.
    pub(super) entitlement: u64,
}

/// What a worker has earned with its lines in the latest reports of all firms, and whether this
/// firm has one of them.
pub(super) fn read_earned<S: Alter>(
    tx: &mut Transaction<'_, S>,
    employer: EmployerNo,
    worker: WorkerNo,
) -> Result<Earned, Fault>
    ensures same_reference { tx.new.conn.ghost_name ≡ tx.old.conn.ghost_name }
    ensures employed { OfTables S.Store tx.old.conn.now tx.new.conn.now (λ t.
        IfOk result (λ earned. earned.employed
        ≡ list_any (λ row. row.employer == employer) (wages_of_worker t worker))) }
    ensures entitlement { OfTables S.Store tx.old.conn.now tx.new.conn.now (λ t.
        IfOk result (λ earned. earned.entitlement ≡ table_entitlement t worker)) }
    ensures fault { OfTables S.Store tx.old.conn.now tx.new.conn.now (λ t.
        AreInRange t → table_entitlement t worker < 2 ^ 64 → IfErr result IsOfDisk) }
    ensures leaves { Leaves S.Store tx.old.conn.now tx.new.conn.now result }
{
    let rates = rate_table(tx)?;
    let rows = worker_wages(tx, worker)?;
    earned_with(&rates, rows.as_slice(), employer)
}

// What is earned with these lines, and whether the firm has one of them.
fn earned_with(rates: &RateTable, rows: &[WageRow], employer: EmployerNo) -> Result<Earned, Fault>
    ensures employed { IfOk result (λ earned. earned.employed
        ≡ list_any (λ row. row.employer == employer) rows.now) }
    ensures entitlement { IfOk result (λ earned. earned.entitlement
        ≡ sum_by (λ row. entitlement_for (rate_in_force rates.now row.month) row.gross) rows.now) }
    ensures fault { AllByRecursion IsWageRow rows.now
        → sum_by (λ row. entitlement_for (rate_in_force rates.now row.month) row.gross) rows.now
        < 2 ^ 64 → IfErr result IsOfDisk }
{
    match earned_cents(rates, rows) {
        Some(entitlement) => Ok(Earned {
            employed: has_line(rows, employer),
            entitlement,
        }),
        None => Err(Fault::Store(StoreCause::Row)),
    }
}

// Whether a firm has one of these lines.
fn has_line(rows: &[WageRow], employer: EmployerNo) -> bool
    ensures { result ≡ list_any (λ row. row.employer == employer) rows.now }
{
    rows.iter().any(|row| row.employer == employer)
}
