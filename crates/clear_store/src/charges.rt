//! The contributions that are kept, and what is open of several of them, put into the table.
ghost use Rattle.std.specs.Prelude.{◌≡◌};
ghost use Rattle.std.specs.List.{AllByRecursion};
ghost use Rattle.clear_values.specs.Keyed.{replaced_rows};
ghost use Rattle.clear_values.specs.Tables.{charge_key};
ghost use Rattle.clear_firms.specs.Amounts.{AreInRange};
ghost use Rattle.clear_store.specs.Changes.{Puts};

use crate::each::put_each;
use clear_firms::charges::Charges;
use clear_schema::fault::Fault;
use clear_values::rows::KeptCharge;
use sqlite::{Alter, Transaction};

/// Writes contributions in the places of those of their months, with what is open of them and their
/// weights as they are now. Where none is kept of a month, nothing is written for it.
///
/// It is done only where the cents and what is open of each are at most 5,000,000,000 cents, and its
/// weight is at most 12,060,000,000,000 cents. `Fault::Store(StoreCause::Row)` comes only where one of
/// them is more. After an error a part of the change may be done: the transaction is to be rolled back.
pub fn settle_charges<S: Alter>(
    tx: &mut Transaction<'_, S>,
    rows: &[KeptCharge],
) -> Result<(), Fault>
    ensures same_reference { tx.new.conn.ghost_name ≡ tx.old.conn.ghost_name }
    ensures puts { Puts S.Store tx.old.conn.now tx.new.conn.now result (λ _. Unit {0})
        (λ _. Unit {0}) (AllByRecursion AreInRange rows.now)
        (λ t. record t { charges = replaced_rows charge_key t.charges rows.now }) }
{
    put_each(tx, &Charges, rows)
}
