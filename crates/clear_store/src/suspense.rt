//! Lines that go out of suspense.
ghost use Rattle.std.specs.Prelude.{◌≡◌};
ghost use Rattle.clear_values.specs.Tables.{changed};
ghost use Rattle.clear_store.specs.Changes.{IsFree, IsInRange, IsThere, Puts};

use crate::bank_file::insert_credits_of;
use clear_ledger::bank::assign_line;
use clear_schema::fault::Fault;
use clear_values::rows::{BankRow, Change};
use sqlite::{Alter, Transaction};
use std::alloc::Global;
use std::slice;

// Puts a line in the place of the one that it is but for its firm, and adds the credit that it is.
pub(crate) fn put_line<S: Alter>(
    alloc: Global,
    tx: &mut Transaction<'_, S>,
    row: &BankRow,
) -> Result<(), Fault>
    ensures same_reference { tx.new.conn.ghost_name ≡ tx.old.conn.ghost_name }
    ensures puts { Puts S.Store tx.old.conn.now tx.new.conn.now result
        (IsThere (Change.AssignLine row.now)) (IsFree (Change.AssignLine row.now))
        (IsInRange (Change.AssignLine row.now)) (changed (Change.AssignLine row.now)) }
{
    assign_line(tx, row)?;
    insert_credits_of(alloc, tx, slice::from_ref(row))
}
