//! Whether a contribution that is to be kept is kept already.
ghost use Rattle.std.specs.Prelude.{◌≡◌, ◌↔◌, IfErr, IfOk, IsTrue, Some};
ghost use Rattle.std.specs.List.{AllByRecursion};
ghost use Rattle.clear_values.specs.RowRanges.{IsKeptCharge};
ghost use Rattle.clear_book.specs.Tables.{charge_at, charge_in};
ghost use Rattle.clear_schema.specs.Frame.{Leaves};
ghost use Rattle.clear_schema.specs.Faults.{IsOfDisk};
ghost use Rattle.clear_debts.specs.Reads.{OfTables};

use clear_firms::charges::find_charge;
use clear_schema::fault::Fault;
use clear_values::rows::KeptCharge;
use sqlite::{Alter, Transaction};

/// Whether just this contribution is kept of its firm and month, whatever is paid of it: a
/// correction that leaves it leaves the pieces, and what is open of it.
pub fn charge_stands<S: Alter>(
    tx: &mut Transaction<'_, S>,
    charge: &KeptCharge,
) -> Result<bool, Fault>
    ensures same_reference { tx.new.conn.ghost_name ≡ tx.old.conn.ghost_name }
    ensures stands { OfTables S.Store tx.old.conn.now tx.new.conn.now (λ t.
        IfOk result (λ stands. IsTrue stands ↔
        (charge_at t.charges charge.now.employer charge.now.month ≡ Some (charge_in charge.now)))) }
    ensures fault { OfTables S.Store tx.old.conn.now tx.new.conn.now (λ t.
        AllByRecursion IsKeptCharge t.charges → IfErr result IsOfDisk) }
    ensures leaves { Leaves S.Store tx.old.conn.now tx.new.conn.now result }
{
    match find_charge(tx, charge.employer, charge.month)? {
        Some(kept) => Ok(is_same(&kept, charge)),
        None => Ok(false),
    }
}

// Whether two rows keep one contribution, whatever is paid of it.
fn is_same(kept: &KeptCharge, other: &KeptCharge) -> bool
    ensures { IsTrue result ↔ (charge_in kept.now ≡ charge_in other.now) }
{
    kept.month == other.month && kept.due == other.due && kept.cents == other.cents
}
