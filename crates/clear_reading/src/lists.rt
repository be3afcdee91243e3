//! The document of a payout list, told outside of a transaction.
ghost use Rattle.std.specs.Prelude.{◌≡◌, false};
ghost use Rattle.std.specs.List.{AllByRecursion};
ghost use Rattle.clear_values.specs.RowRanges.{IsClaimRow};
ghost use Rattle.clear_reading.specs.Documents.{list_over, listed};
ghost use Rattle.clear_reading.specs.Reader.{TellsDocument, TellsOnlyWhere};

use crate::telling::{DocumentHead, tell_rows};
use clear_book::documents::Document;
use clear_payouts::claims::{Claims, read_listed};
use clear_schema::fault::{Fault, fault_of};
use clear_texts::payout::payout_text;
use clear_texts::rows::RowSource;
use clear_values::rows::{ClaimRow, ListRow};
use sqlite::{Alter, Connection};
use std::alloc::Global;

/// The document of a payout list over the claims that the table holds, which are read one at a time.
/// Nothing is changed. It takes as many steps as the list has claims. It is told only where each claim
/// on the list is in its ranges.
pub fn tell_list<S: Alter>(
    alloc: Global,
    conn: &mut Connection<S>,
    list: &ListRow,
) -> Result<Document, Fault>
    requires outside { conn.old.in_transaction ≡ false }
    ensures mode { conn.new.in_transaction ≡ false }
    ensures tells { TellsDocument S.Store conn.old conn.new (list_over list.now)
        (λ t. Unit {0}) result }
    ensures only { TellsOnlyWhere S.Store conn.old conn.new
        (λ t. AllByRecursion IsClaimRow (listed list.now.list t)) result }
{
    match read_listed(conn, list.list) {
        Ok(mut rows) => tell_rows(alloc, list, &mut rows),
        Err(error) => Err(fault_of(error)),
    }
}

// The claims on the list are told, whatever they are.
impl DocumentHead for ListRow {
    ghost use Rattle.clear_book.specs.Documents.Payout.{payout_text};

    type Table = Claims;

    ghost text_of = { payout_text };

    ghost are_right = { λ list claims. Unit {0} };

    fn append<R: RowSource<Row = ClaimRow>>(
        &self,
        alloc: Global,
        rows: &mut R,
        text: &mut String,
    ) -> Result<(), Fault> {
        payout_text(alloc, self, rows, text)
    }
}
