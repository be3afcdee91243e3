//! The rows of the pieces of an account from a place on.
ghost use Rattle.std.specs.Prelude.{◌≡◌, ◌<◌, All, IfErr, IfOk, drop, length, map};
ghost use Rattle.std.specs.List.{AllByRecursion};
ghost use Rattle.clear_account.specs.Account.{IsAccount};
ghost use Rattle.clear_account.specs.Suffix.{pieces_behind};
ghost use Rattle.clear_kept.specs.Dated.{placed};
ghost use Rattle.clear_kept.specs.Start.{StartsAt};
ghost use Rattle.clear_values.specs.RowRanges.{IsCreditRow, IsPieceRow};
ghost use Rattle.clear_book.specs.Pieces.{piece_row};
ghost use Rattle.clear_pieces.specs.Firm.{HasItsRows, pieces_from, rows_placed};

use crate::firm::FirmAccount;
use clear_account::entries::{Charge, Credit};
use clear_account::refill::refill;
use clear_account::turns::Turns;
use clear_kept::dated::place_pieces;
use clear_kept::rows::{DatedPiece, PlacedPiece};
use clear_kept::start::Start;
use clear_schema::fault::Fault;
use clear_values::causes::StoreCause;
use clear_values::rows::{CreditRow, PieceRow};
use std::alloc::{AllocError, Global};

/// The rows of the pieces of the contributions and credits that reach beyond a start, by month, then
/// by credit.
///
/// It takes at most one turn more than there are of them. Rows that are not those of the credits are a
/// fault of the row.
pub fn pieces_to_put(
    alloc: Global,
    firm: &FirmAccount,
    start: &Start,
) -> Result<Vec<PieceRow>, Fault>
    requires { StartsAt firm.now.account.charges firm.now.account.credits start.now }
    ensures rows { HasItsRows firm.now
        → IfOk result (λ rows. rows.items ≡ pieces_from firm.now start.now) }
    ensures ranges { HasItsRows firm.now → AllByRecursion IsCreditRow firm.now.rows.items
        → IfOk result (λ rows. AllByRecursion IsPieceRow rows.items) }
    ensures err { HasItsRows firm.now → IfErr result (λ fault. fault ≡ Fault.Memory) }
{
    let credits = firm.account.all_credits();
    if firm.rows.len() != credits.len() {
        return Err(Fault::Store(StoreCause::Row));
    }
    let placed = refill_from(alloc, firm.account.all_charges(), credits, start)?;
    let rows = &firm.rows.as_slice()[start.credits.count..];
    Ok(rows_of(alloc, placed.as_slice(), rows)?)
}

// The pieces of the charges and credits that reach beyond a start, each with the place of its credit
// among these credits.
fn refill_from(
    alloc: Global,
    charges: &[Charge],
    credits: &[Credit],
    start: &Start,
) -> Result<Vec<PlacedPiece>, Fault>
    requires account { IsAccount charges.now credits.now }
    requires start { StartsAt charges.now credits.now start.now }
    ensures pieces { IfOk result (λ pieces. pieces.items
        ≡ map (placed (drop start.now.credits.count credits.now))
        (pieces_behind start.now.charges.cents start.now.credits.cents
        (drop start.now.charges.count charges.now)
        (drop start.now.credits.count credits.now))) }
    ensures within { IfOk result (λ pieces.
        All (λ r. r.place < length (drop start.now.credits.count credits.now)) pieces.items) }
    ensures err { IfErr result (λ fault. fault ≡ Fault.Memory) }
{
    let charges = &charges[start.charges.count..];
    let credits = &credits[start.credits.count..];
    let mut turns = Turns::new();
    let pieces = match refill(
        alloc,
        start.charges.cents,
        start.credits.cents,
        charges,
        credits,
        &mut turns,
    ) {
        Ok(pieces) => pieces,
        Err(_) => return Err(Fault::Memory),
    };
    Ok(place_pieces(alloc, pieces.as_slice(), credits)?)
}

// The rows of pieces whose credits have their places among these.
fn rows_of(
    alloc: Global,
    placed: &[PlacedPiece],
    credits: &[CreditRow],
) -> Result<Vec<PieceRow>, AllocError>
    requires { All (λ r. r.place < length credits.now) placed.now }
    ensures { IfOk result (λ rows. rows.items ≡ rows_placed credits.now placed.now) }
{
    let mut rows = Vec::new(alloc);
    for piece in placed {
        let row = row_of(&piece.piece, &credits[piece.place])?;
        rows.push(row)?;
    }
    Ok(rows)
}

// The row of what a credit pays of the contribution of a month.
fn row_of(piece: &DatedPiece, credit: &CreditRow) -> Result<PieceRow, AllocError>
    ensures { IfOk result (λ row. row ≡ piece_row piece.now.month credit.now piece.now.cents) }
{
    Ok(PieceRow {
        employer: credit.employer,
        month: piece.month,
        day: credit.day,
        serial: credit.serial,
        cents: piece.cents,
        reference: credit.reference.copied()?,
    })
}
