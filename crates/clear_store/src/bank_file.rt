//! The new lines of a bank file, and the credits that they are.
ghost use Rattle.std.specs.Prelude.{◌≡◌};
ghost use Rattle.clear_values.specs.Credits.{credit_key, credits_of_lines};
ghost use Rattle.clear_values.specs.Keyed.{with_rows};
ghost use Rattle.clear_values.specs.Tables.{bank_key, serial_key};
ghost use Rattle.clear_store.specs.Changes.{AreFree, AreSerials, HaveSerials, Puts};

use crate::each::put_each;
use crate::new_credits::credits_of_rows;
use clear_ledger::bank::Bank;
use clear_ledger::credits::Credits;
use clear_schema::fault::Fault;
use clear_values::rows::BankRow;
use sqlite::{Alter, Transaction};
use std::alloc::Global;

// Adds the credits that bank lines are for their firms.
pub(crate) fn insert_credits_of<S: Alter>(
    alloc: Global,
    tx: &mut Transaction<'_, S>,
    rows: &[BankRow],
) -> Result<(), Fault>
    ensures same_reference { tx.new.conn.ghost_name ≡ tx.old.conn.ghost_name }
    ensures puts { Puts S.Store tx.old.conn.now tx.new.conn.now result (λ _. Unit {0})
        (λ t. AreFree credit_key t.credits (credits_of_lines rows.now))
        (HaveSerials (credits_of_lines rows.now))
        (λ t. record t {
          credits = with_rows credit_key t.credits (credits_of_lines rows.now);
        }) }
{
    let credits = credits_of_rows(alloc, rows)?;
    put_each(tx, &Credits, credits.as_slice())
}

// Adds the new lines of a bank file, and the credits that they are.
pub(crate) fn add_lines<S: Alter>(
    alloc: Global,
    tx: &mut Transaction<'_, S>,
    rows: &[BankRow],
) -> Result<(), Fault>
    ensures same_reference { tx.new.conn.ghost_name ≡ tx.old.conn.ghost_name }
    ensures puts { Puts S.Store tx.old.conn.now tx.new.conn.now result (λ _. Unit {0})
        (λ t. AreFree bank_key t.bank rows.now × AreFree serial_key t.bank rows.now
        × AreFree credit_key t.credits (credits_of_lines rows.now)) (AreSerials rows.now)
        (λ t. record t {
          bank = with_rows bank_key t.bank rows.now;
          credits = with_rows credit_key t.credits (credits_of_lines rows.now);
        }) }
{
    put_each(tx, &Bank, rows)?;
    insert_credits_of(alloc, tx, rows)
}
