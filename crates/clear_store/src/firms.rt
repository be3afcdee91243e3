//! Rates and firms: added, and a firm whose membership ends.
ghost use Rattle.std.specs.Prelude.{◌≡◌};
ghost use Rattle.clear_values.specs.Tables.{changed};
ghost use Rattle.clear_store.specs.Changes.{IsEmployerThere, IsFree, IsLastRate, Puts};

use clear_firms::employers::{insert_employer, replace_employer};
use clear_firms::rates::insert_rate;
use clear_money::rates::RateRow;
use clear_schema::fault::Fault;
use clear_values::rows::{Change, EmployerRow};
use sqlite::{Alter, Transaction};

// Adds a row of rates behind the others.
pub(crate) fn add_rate<S: Alter>(tx: &mut Transaction<'_, S>, row: &RateRow) -> Result<(), Fault>
    ensures same_reference { tx.new.conn.ghost_name ≡ tx.old.conn.ghost_name }
    ensures puts { Puts S.Store tx.old.conn.now tx.new.conn.now result (IsLastRate row.now)
        (IsFree (Change.AddRate row.now)) (Unit {0}) (changed (Change.AddRate row.now)) }
{
    insert_rate(tx, row)
}

// Adds a firm.
pub(crate) fn add_employer<S: Alter>(
    tx: &mut Transaction<'_, S>,
    row: &EmployerRow,
) -> Result<(), Fault>
    ensures same_reference { tx.new.conn.ghost_name ≡ tx.old.conn.ghost_name }
    ensures puts { Puts S.Store tx.old.conn.now tx.new.conn.now result (λ _. Unit {0})
        (IsFree (Change.AddEmployer row.now)) (Unit {0}) (changed (Change.AddEmployer row.now)) }
{
    insert_employer(tx, row)
}

// Puts a firm in the place of the one of its number.
pub(crate) fn put_employer<S: Alter>(
    tx: &mut Transaction<'_, S>,
    row: &EmployerRow,
) -> Result<(), Fault>
    ensures same_reference { tx.new.conn.ghost_name ≡ tx.old.conn.ghost_name }
    ensures puts { Puts S.Store tx.old.conn.now tx.new.conn.now result (IsEmployerThere row.now)
        (λ _. Unit {0}) (Unit {0}) (changed (Change.EndMembership row.now)) }
{
    replace_employer(tx, row)
}
