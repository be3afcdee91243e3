//! The rows of charges, each with a piece that pays it, over a source of pieces.
ghost use Rattle.std.specs.Prelude.{◌≡◌, ◌++◌, List, None, Some, IfErr, IfOk, string_bytes};
ghost use Rattle.std.specs.Iterator.{YieldsThen};
ghost use Rattle.std.specs.Option.{option_map};
ghost use Rattle.clear_book.specs.declared.rows.PieceRow.{PieceRow};
ghost use Rattle.clear_book.specs.Own.Statement.{payment_in};
ghost use Rattle.clear_texts.specs.Paid.{ArePiecesOf, statement_paid};
ghost use Rattle.clear_texts.specs.PaidSteps.{is_under};
ghost use Rattle.clear_texts.specs.Rows.{IsCutOffUnless};

use crate::rows::{ChargeRow, RowSource};
use crate::statement::append_statement;
use clear_book::documents::{ChargeState, Payment};
use clear_book::rows::PieceRow;
use clear_money::months::Month;
use clear_records::statement::StatementHead;
use clear_values::causes::{Fault, StoreCause};
use std::mem;

/// Appends the statement of a firm, whose charges are paid by the pieces that the source gives up to
/// its end: each piece stands under the charge of its month. It reads one piece ahead. It is refused
/// for want of memory, for what the source tells, and, with `Fault::Store(StoreCause::Row)`, for a
/// piece that stands under none of the charges, and for more rows than an account has: so no piece is
/// left out. A refusal may leave a part of the text.
pub fn statement_text<R: RowSource<Row = PieceRow>>(
    head: &StatementHead,
    pieces: &mut R,
    text: &mut String,
) -> Result<(), Fault>
    ensures written { IfOk result (λ _. (given : List PieceRow)
        × YieldsThen R.next_gives pieces.old given None pieces.new
        × ArePiecesOf head.now given
        × (string_bytes text.new ≡ string_bytes text.old ++ statement_paid head.now given)) }
    ensures refused { IfErr result (λ fault. IsCutOffUnless R.next_gives R.next_refuses
        (ArePiecesOf head.now) pieces.old fault pieces.new) }
{
    let mut next = pieces.next()?;
    append_ahead(head, pieces, &mut next, text)
}

// Appends the statement over a piece that is read, and those that the source still gives.
fn append_ahead<R: RowSource<Row = PieceRow>>(
    head: &StatementHead,
    pieces: &mut R,
    next: &mut Option<PieceRow>,
    text: &mut String,
) -> Result<(), Fault>
    ensures written { (start : R) → R.next_gives start next.old pieces.old
        → IfOk result (λ _. (given : List PieceRow)
        × YieldsThen R.next_gives start given None pieces.new
        × ArePiecesOf head.now given
        × (string_bytes text.new ≡ string_bytes text.old ++ statement_paid head.now given)) }
    ensures refused { (start : R) → R.next_gives start next.old pieces.old
        → IfErr result (λ fault. IsCutOffUnless R.next_gives R.next_refuses
        (ArePiecesOf head.now) start fault pieces.new) }
{
    let mut rows = PaidRows {
        pieces,
        next,
        charges: head.charges.as_slice(),
        place: 0,
    };
    append_rows(head, &mut rows, text)
}

/// The rows of charges, over a source of the pieces that pay them.
#[derive(Drop)]
pub struct PaidRows<'a, R> {
    /// The source of the pieces.
    pub(crate) pieces: &'a mut R,
    /// The piece that it gave last, and that no row tells yet.
    pub(crate) next: &'a mut Option<PieceRow>,
    pub(crate) charges: &'a [ChargeState],
    /// The place of the charge that is to be told next, from 0.
    pub(crate) place: usize,
}

impl<R: RowSource<Row = PieceRow>> RowSource for PaidRows<'_, R> {
    ghost use Rattle.clear_texts.specs.PaidSteps.{GivesRow, RefusesRow};

    type Row = ChargeRow;

    ghost next_gives = { GivesRow R.next_gives };

    ghost next_refuses = { RefusesRow R.next_gives R.next_refuses };

    fn next(&mut self) -> Result<Option<ChargeRow>, Fault> {
        let state = match self.charges.get(self.place) {
            Some(state) => *state,
            None => return end_pieces(self.next),
        };
        if !is_under(self.next, state.month) {
            self.place += 1;
            return Ok(Some(ChargeRow { state, piece: None }));
        }
        let following = self.pieces.next()?;
        let piece = mem::replace(self.next, following);
        if !is_under(self.next, state.month) {
            self.place += 1;
        }
        Ok(Some(ChargeRow {
            state,
            piece: payment(piece),
        }))
    }
}

// Nothing, where no piece is left that stands under no charge.
fn end_pieces(next: &Option<PieceRow>) -> Result<Option<ChargeRow>, Fault>
    ensures ends { IfOk result (λ found. (found ≡ None) × (next.now ≡ None)) }
    ensures refused { IfErr result (λ fault. (fault ≡ Fault.Store StoreCause.Row)
        × ((piece : PieceRow) × (next.now ≡ Some piece))) }
{
    match next {
        Some(_piece) => Err(Fault::Store(StoreCause::Row)),
        None => Ok(None),
    }
}

// Whether there is a next piece, and it is of a month.
fn is_under(next: &Option<PieceRow>, month: Month) -> bool
    ensures { result ≡ is_under month next.now }
{
    match next {
        Some(piece) => piece.month == month,
        None => false,
    }
}

// What is told of a piece, if there is one.
fn payment(piece: Option<PieceRow>) -> Option<Payment>
    ensures { result ≡ option_map payment_in piece }
{
    match piece {
        Some(piece) => Some(Payment {
            day: piece.day,
            cents: piece.cents,
            reference: piece.reference,
        }),
        None => None,
    }
}

// Appends the statement over the rows of all its charges.
fn append_rows<R: RowSource<Row = PieceRow>>(
    head: &StatementHead,
    rows: &mut PaidRows<'_, R>,
    text: &mut String,
) -> Result<(), Fault>
    requires all { rows.old.place ≡ 0 }
    requires charges { rows.old.charges.now ≡ head.now.charges.items }
    ensures same_source { rows.new.pieces.ghost_name ≡ rows.old.pieces.ghost_name }
    ensures written { (start : R) → R.next_gives start rows.old.next.now rows.old.pieces.now
        → IfOk result (λ _. (given : List PieceRow)
        × YieldsThen R.next_gives start given None rows.new.pieces.now
        × ArePiecesOf head.now given
        × (string_bytes text.new ≡ string_bytes text.old ++ statement_paid head.now given)) }
    ensures refused { (start : R) → R.next_gives start rows.old.next.now rows.old.pieces.now
        → IfErr result (λ fault. IsCutOffUnless R.next_gives R.next_refuses
        (ArePiecesOf head.now) start fault rows.new.pieces.now) }
{
    append_statement(
        text,
        &head.firm,
        head.interest_credits.as_slice(),
        head.missing.as_slice(),
        rows,
    )?;
    Ok(())
}
