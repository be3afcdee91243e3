//! The statement of a firm, whose pieces are read one at a time, outside of a transaction.
ghost use Rattle.std.specs.Prelude.{◌≡◌, false};
ghost use Rattle.clear_reading.specs.Paid.{ArePiecesFor, pieces_for};
ghost use Rattle.clear_reading.specs.Reader.{TellsDocument, TellsOnlyWhere};
ghost use Rattle.clear_texts.specs.Paid.{statement_paid};

use crate::telling::{DocumentHead, tell_rows};
use clear_book::documents::Document;
use clear_ledger::pieces::{Pieces, read_pieces};
use clear_records::statement::StatementHead;
use clear_schema::fault::{Fault, fault_of};
use clear_texts::paid::statement_text;
use clear_texts::rows::RowSource;
use clear_values::rows::PieceRow;
use sqlite::{Alter, Connection};
use std::alloc::Global;

/// The statement of a firm, each of whose charges is followed by the pieces that the table holds of
/// it, which are read one at a time. Nothing is changed. It takes as many steps as the firm has
/// charges and pieces. A piece of a month that has no charge, and more rows than an account has, are
/// refused with `Fault::Store(StoreCause::Row)`: so no piece is left out.
pub fn tell_statement<S: Alter>(
    alloc: Global,
    conn: &mut Connection<S>,
    head: &StatementHead,
) -> Result<Document, Fault>
    requires outside { conn.old.in_transaction ≡ false }
    ensures mode { conn.new.in_transaction ≡ false }
    ensures tells { TellsDocument S.Store conn.old conn.new
        (λ t. statement_paid head.now (pieces_for head.now t)) (ArePiecesFor head.now) result }
    ensures only { TellsOnlyWhere S.Store conn.old conn.new (ArePiecesFor head.now) result }
{
    match read_pieces(conn, head.firm.employer) {
        Ok(mut rows) => tell_rows(alloc, head, &mut rows),
        Err(error) => Err(fault_of(error)),
    }
}

// Each piece must stand under one of the charges.
impl DocumentHead for StatementHead {
    ghost use Rattle.clear_texts.specs.Paid.{ArePiecesOf, statement_paid};

    type Table = Pieces;

    ghost text_of = { statement_paid };

    ghost are_right = { ArePiecesOf };

    fn append<R: RowSource<Row = PieceRow>>(
        &self,
        _alloc: Global,
        rows: &mut R,
        text: &mut String,
    ) -> Result<(), Fault> {
        statement_text(self, rows, text)
    }
}
