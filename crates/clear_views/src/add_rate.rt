//! What new rates are judged by.
ghost use Rattle.std.specs.Prelude.{◌≡◌, ◌≢◌, [], IfErr, IfOk, OnOk};
ghost use Rattle.clear_money.specs.Rates.{last_first};
ghost use Rattle.clear_book.specs.RowRanges.{AreInRange};
ghost use Rattle.clear_schema.specs.Frame.{Leaves};
ghost use Rattle.clear_schema.specs.Faults.{IsOfDisk};
ghost use Rattle.clear_debts.specs.Reads.{OfTables};

use clear_book::rules::StoreCause;
use clear_firms::rates::find_last_rate;
use clear_money::months::Month;
use clear_schema::fault::Fault;
use sqlite::{Alter, Transaction};

/// What new rates are judged by: the first month of the last row that stands, found by a search. That
/// no row stands is a fault of the row. Where the rows lie in their ranges, no fault is one of a key
/// or of a row.
pub fn add_rate_view<S: Alter>(tx: &mut Transaction<'_, S>) -> Result<Month, Fault>
    ensures same_reference { tx.new.conn.ghost_name ≡ tx.old.conn.ghost_name }
    ensures last { OfTables S.Store tx.old.conn.now tx.new.conn.now (λ t.
        IfOk result (λ month. month ≡ last_first t.rates)) }
    ensures none { OfTables S.Store tx.old.conn.now tx.new.conn.now (λ t.
        OnOk result (t.rates ≢ [])) }
    ensures fault { OfTables S.Store tx.old.conn.now tx.new.conn.now (λ t.
        AreInRange t → IfErr result IsOfDisk) }
    // That no row stands is never told as a key that stands.
    ensures cause { OfTables S.Store tx.old.conn.now tx.new.conn.now (λ t.
        IfErr result (λ fault. fault ≢ Fault.Store StoreCause.Constraint)) }
    ensures leaves { Leaves S.Store tx.old.conn.now tx.new.conn.now result }
{
    match find_last_rate(tx)? {
        Some(row) => Ok(row.first()),
        None => Err(Fault::Store(StoreCause::Row)),
    }
}
