//! The document of the lines in suspense, told outside of a transaction.
ghost use Rattle.std.specs.Prelude.{◌≡◌, false};
ghost use Rattle.clear_values.specs.RowRanges.{IsBankRow};
ghost use Rattle.clear_reading.specs.Documents.{suspended, suspense_over};
ghost use Rattle.clear_reading.specs.Look.{AreFewSuspended};
ghost use Rattle.clear_reading.specs.Reader.{AreAddable, TellsDocument, TellsOnlyWhere};

use crate::telling::{DocumentHead, tell_rows};
use clear_book::documents::Document;
use clear_ledger::bank::{Bank, read_suspense};
use clear_money::days::Day;
use clear_schema::fault::{Fault, fault_of};
use clear_texts::rows::RowSource;
use clear_texts::suspense::suspense_text;
use clear_values::rows::BankRow;
use sqlite::{Alter, Connection};
use std::alloc::Global;

/// The document of the lines in suspense on a day, which are read one at a time, by their serials.
/// Nothing is changed. It takes one pass over all bank lines. It is told only where each line in
/// suspense is in its ranges. Such lines that come to 2^64 cents or more are refused with
/// `Fault::Store(StoreCause::Row)`.
pub fn tell_suspense<S: Alter>(
    alloc: Global,
    conn: &mut Connection<S>,
    day: Day,
) -> Result<Document, Fault>
    requires outside { conn.old.in_transaction ≡ false }
    ensures mode { conn.new.in_transaction ≡ false }
    ensures tells { TellsDocument S.Store conn.old conn.new (suspense_over day)
        AreFewSuspended result }
    ensures only { TellsOnlyWhere S.Store conn.old conn.new
        (λ t. AreAddable IsBankRow (λ row. row.line.cents) (suspended t)) result }
{
    match read_suspense(conn) {
        Ok(mut rows) => tell_rows(alloc, &day, &mut rows),
        Err(error) => Err(fault_of(error)),
    }
}

// The lines in suspense on the day are told, and their amounts are added up.
impl DocumentHead for Day {
    ghost use Rattle.std.specs.Prelude.{◌<◌, ◌^◌, sum_by};
    ghost use Rattle.clear_book.specs.Documents.Suspense.{suspense_text};

    type Table = Bank;

    ghost text_of = { suspense_text };

    ghost are_right = { λ day rows. sum_by (λ row. row.line.cents) rows < 2 ^ 64 };

    fn append<R: RowSource<Row = BankRow>>(
        &self,
        alloc: Global,
        rows: &mut R,
        text: &mut String,
    ) -> Result<(), Fault> {
        suspense_text(alloc, *self, rows, text)
    }
}
