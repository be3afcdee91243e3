//! The rows of pieces.
ghost use Rattle.std.specs.Prelude.{◌≡◌, ◌≢◌, ◌<◌, All, AllPairs, IfOk, length, map};
ghost use Rattle.clear_account.specs.Account.{HoldsSerial, credit_at};
ghost use Rattle.clear_kept.specs.Dated.{placed};

use crate::rows::{DatedPiece, PlacedPiece};
use clear_account::entries::{Credit, Piece};
use clear_money::days::Day;
use std::alloc::{AllocError, Global};

/// The rows of pieces, each with the day of its payment, which is one of these, and with the place
/// of that in the list: what else is known of a payment is taken from there.
///
/// Where the pieces name the payments in order, it takes one pass over both.
pub fn place_pieces(
    alloc: Global,
    pieces: &[Piece],
    credits: &[Credit],
) -> Result<Vec<PlacedPiece>, AllocError>
    requires differ { AllPairs (λ k l. k.serial ≢ l.serial) credits.now }
    requires held { All (λ p. HoldsSerial credits.now p.serial) pieces.now }
    ensures rows { IfOk result (λ rows. rows.items ≡ map (placed credits.now) pieces.now) }
    ensures within { IfOk result (λ rows. All (λ r. r.place < length credits.now) rows.items) }
    ensures serials { IfOk result (λ rows.
        All (λ r. (credit_at credits.now r.place).serial ≡ r.piece.serial) rows.items) }
{
    let mut rows = Vec::new(alloc);
    let mut place = 0;
    for piece in pieces {
        place = find_serial(credits, place, piece.serial);
        rows.push(PlacedPiece {
            piece: date_piece(piece, credits[place].day),
            place,
        })?;
    }
    Ok(rows)
}

fn date_piece(piece: &Piece, day: Day) -> DatedPiece
    ensures { result ≡ record {
      month = piece.now.month;
      day = day;
      serial = piece.now.serial;
      cents = piece.now.cents;
    } }
{
    DatedPiece {
        month: piece.month,
        day,
        serial: piece.serial,
        cents: piece.cents,
    }
}

// The place of the payment of a serial, looked for from a place on first.
fn find_serial(credits: &[Credit], from: usize, serial: u64) -> usize
    requires { HoldsSerial credits.now serial }
    ensures within { result < length credits.now }
    ensures found { (credit_at credits.now result).serial ≡ serial }
{
    for place in from..credits.len() {
        if credits[place].serial == serial {
            return place;
        }
    }
    for place in 0..credits.len() {
        if credits[place].serial == serial {
            return place;
        }
    }
    unreachable!()
}
