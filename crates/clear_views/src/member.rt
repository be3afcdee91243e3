//! A firm, if it is registered.
ghost use Rattle.std.specs.Prelude.{◌≡◌, ◌∷◌, [], IfErr, IfOk};
ghost use Rattle.clear_book.specs.Keyed.{find_row};
ghost use Rattle.clear_book.specs.RowRanges.{AreInRange};
ghost use Rattle.clear_book.specs.Tables.{employer_key};
ghost use Rattle.clear_schema.specs.Frame.{Leaves};
ghost use Rattle.clear_schema.specs.Faults.{IsOfDisk};
ghost use Rattle.clear_debts.specs.Reads.{OfTables};

use clear_book::rows::EmployerRow;
use clear_firms::employers::find_employer;
use clear_money::numbers::EmployerNo;
use clear_schema::fault::Fault;
use sqlite::{Alter, Transaction};

/// A firm, if it is registered. Where the rows lie in their ranges, no fault is one of a key or of
/// a row.
pub fn find_member<S: Alter>(
    tx: &mut Transaction<'_, S>,
    employer: EmployerNo,
) -> Result<Option<EmployerRow>, Fault>
    ensures same_reference { tx.new.conn.ghost_name ≡ tx.old.conn.ghost_name }
    ensures member { OfTables S.Store tx.old.conn.now tx.new.conn.now (λ t.
        IfOk result (λ row. row ≡ find_row employer_key t.employers (employer ∷ []))) }
    ensures fault { OfTables S.Store tx.old.conn.now tx.new.conn.now (λ t.
        AreInRange t → IfErr result IsOfDisk) }
    ensures leaves { Leaves S.Store tx.old.conn.now tx.new.conn.now result }
{
    find_employer(tx, employer)
}
