//! What is found of a month: the version of a firm's report, and the rates.
ghost use Rattle.std.specs.Prelude.{◌≡◌, IfErr, IfOk};
ghost use Rattle.clear_money.specs.Rates.{rate_in_force};
ghost use Rattle.clear_book.specs.RowRanges.{AreInRange};
ghost use Rattle.clear_book.specs.Tables.{version_at};
ghost use Rattle.clear_schema.specs.Frame.{Leaves};
ghost use Rattle.clear_schema.specs.Faults.{IsOfDisk};
ghost use Rattle.clear_debts.specs.Reads.{OfTables};

use clear_firms::rates::find_rate;
use clear_firms::reports::find_report;
use clear_money::months::Month;
use clear_money::numbers::EmployerNo;
use clear_money::rates::RateRow;
use clear_schema::fault::Fault;
use sqlite::{Alter, Transaction};

// The version of a month's latest report, if it has one.
pub(crate) fn version_of<S: Alter>(
    tx: &mut Transaction<'_, S>,
    employer: EmployerNo,
    month: Month,
) -> Result<Option<u32>, Fault>
    ensures same_reference { tx.new.conn.ghost_name ≡ tx.old.conn.ghost_name }
    ensures version { OfTables S.Store tx.old.conn.now tx.new.conn.now (λ t.
        IfOk result (λ version. version ≡ version_at t.reports employer month)) }
    ensures fault { OfTables S.Store tx.old.conn.now tx.new.conn.now (λ t.
        AreInRange t → IfErr result IsOfDisk) }
    ensures leaves { Leaves S.Store tx.old.conn.now tx.new.conn.now result }
{
    match find_report(tx, employer, month)? {
        Some(row) => Ok(Some(row.version)),
        None => Ok(None),
    }
}

// The rate row in force for a month, if there is one.
pub(crate) fn rate_for<S: Alter>(
    tx: &mut Transaction<'_, S>,
    month: Month,
) -> Result<Option<RateRow>, Fault>
    ensures same_reference { tx.new.conn.ghost_name ≡ tx.old.conn.ghost_name }
    ensures row { OfTables S.Store tx.old.conn.now tx.new.conn.now (λ t.
        IfOk result (λ row. row ≡ rate_in_force t.rates month)) }
    ensures fault { OfTables S.Store tx.old.conn.now tx.new.conn.now (λ t.
        AreInRange t → IfErr result IsOfDisk) }
    ensures leaves { Leaves S.Store tx.old.conn.now tx.new.conn.now result }
{
    find_rate(tx, month)
}
