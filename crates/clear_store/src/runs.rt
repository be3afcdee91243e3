//! Reminder runs, and their reminders.
ghost use Rattle.std.specs.Prelude.{◌≡◌};
ghost use Rattle.clear_values.specs.Keyed.{with_row, with_rows};
ghost use Rattle.clear_values.specs.Tables.{reminder_key, run_key};
ghost use Rattle.clear_store.specs.Changes.{IsFree, IsInRange, Puts};

use crate::each::put_each;
use clear_ledger::reminders::Reminders;
use clear_ledger::runs::insert_run;
use clear_schema::fault::Fault;
use clear_values::rows::{Change, ReminderRow, RunRow};
use sqlite::{Alter, Transaction};

// Adds a reminder run and its reminders.
pub(crate) fn add_run<S: Alter>(
    tx: &mut Transaction<'_, S>,
    row: &RunRow,
    reminders: &[ReminderRow],
) -> Result<(), Fault>
    ensures same_reference { tx.new.conn.ghost_name ≡ tx.old.conn.ghost_name }
    ensures puts { Puts S.Store tx.old.conn.now tx.new.conn.now result (λ _. Unit {0})
        (IsFree (Change.AddRun row.now reminders.now))
        (IsInRange (Change.AddRun row.now reminders.now))
        (λ t. record t {
          runs = with_row run_key t.runs row.now;
          reminders = with_rows reminder_key t.reminders reminders.now;
        }) }
{
    insert_run(tx, row)?;
    put_each(tx, &Reminders, reminders)
}
