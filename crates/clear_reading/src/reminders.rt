//! The document of a reminder run, told outside of a transaction.
ghost use Rattle.std.specs.Prelude.{◌≡◌, false};
ghost use Rattle.std.specs.List.{AllByRecursion};
ghost use Rattle.clear_values.specs.RowRanges.{IsReminderRow};
ghost use Rattle.clear_reading.specs.Documents.{reminded, run_over};
ghost use Rattle.clear_reading.specs.Reader.{TellsDocument, TellsOnlyWhere};

use crate::telling::{DocumentHead, tell_rows};
use clear_book::documents::Document;
use clear_ledger::reminders::{Reminders, read_reminders};
use clear_schema::fault::{Fault, fault_of};
use clear_texts::reminders::remind_text;
use clear_texts::rows::RowSource;
use clear_values::rows::{ReminderRow, RunRow};
use sqlite::{Alter, Connection};
use std::alloc::Global;

/// The document of a reminder run over the reminders that the table holds, which are read one at a
/// time. Nothing is changed. It takes as many steps as the run has reminders. It is told only where
/// each of them is in its ranges.
pub fn tell_reminders<S: Alter>(
    alloc: Global,
    conn: &mut Connection<S>,
    run: &RunRow,
) -> Result<Document, Fault>
    requires outside { conn.old.in_transaction ≡ false }
    ensures mode { conn.new.in_transaction ≡ false }
    ensures tells { TellsDocument S.Store conn.old conn.new (run_over run.now)
        (λ t. Unit {0}) result }
    ensures only { TellsOnlyWhere S.Store conn.old conn.new
        (λ t. AllByRecursion IsReminderRow (reminded run.now.run t)) result }
{
    match read_reminders(conn, run.run) {
        Ok(mut rows) => tell_rows(alloc, run, &mut rows),
        Err(error) => Err(fault_of(error)),
    }
}

// The reminders of the run are told, whatever they are.
impl DocumentHead for RunRow {
    ghost use Rattle.clear_book.specs.Documents.Reminders.{reminders_text};

    type Table = Reminders;

    ghost text_of = { reminders_text };

    ghost are_right = { λ run reminders. Unit {0} };

    fn append<R: RowSource<Row = ReminderRow>>(
        &self,
        alloc: Global,
        rows: &mut R,
        text: &mut String,
    ) -> Result<(), Fault> {
        remind_text(alloc, self, rows, text)
    }
}
