//! The pieces of a firm from a month and a credit on, put in the place of those that stood.
ghost use Rattle.std.specs.Prelude.{◌≡◌, Err};
ghost use Rattle.std.specs.List.{AllByRecursion};
ghost use Rattle.clear_values.specs.Keyed.{with_rows, without_rows};
ghost use Rattle.clear_values.specs.RowRanges.{IsPieceRow, IsSerial};
ghost use Rattle.clear_values.specs.Tables.{is_piece_key_from, piece_key, with_pieces};
ghost use Rattle.clear_store.specs.Changes.{AreFree, Puts};

use crate::each::put_each;
pub use clear_ledger::pieces::PieceFrom;
use clear_ledger::pieces::{Pieces, delete_pieces};
use clear_schema::fault::Fault;
use clear_values::causes::StoreCause;
use clear_values::rows::PieceRow;
use sqlite::{Alter, Transaction};

/// Puts rows in the place of a firm's pieces of a month or a later one, whose credit is that of a
/// day and a serial or a later one. All other pieces stay, whatever they hold.
///
/// It is done only where no other piece, and no row before it, has a row's key, and each number is in
/// its range: a serial is from 1 to 500,000,000,000, and the cents are at most 5,000,000,000.
/// `Fault::Store(StoreCause::Constraint)` comes only where a key is not free, and
/// `Fault::Store(StoreCause::Row)` only where a number is out of its range. After an error a part of
/// the change may be done: the transaction is to be rolled back.
pub fn replace_pieces<S: Alter>(
    tx: &mut Transaction<'_, S>,
    from: &PieceFrom,
    rows: &[PieceRow],
) -> Result<(), Fault>
    ensures same_reference { tx.new.conn.ghost_name ≡ tx.old.conn.ghost_name }
    ensures puts { Puts S.Store tx.old.conn.now tx.new.conn.now result (λ _. Unit {0})
        (λ t. AreFree piece_key (without_rows piece_key
        (is_piece_key_from from.now.employer from.now.month from.now.day from.now.serial)
        t.pieces) rows.now)
        (IsSerial from.now.serial × AllByRecursion IsPieceRow rows.now)
        (λ t. record t {
          pieces = with_pieces from.now.employer from.now.month from.now.day
              from.now.serial rows.now t.pieces;
        }) }
    // From a serial that no credit can have, nothing is done.
    ensures refused { ¬ IsSerial from.now.serial
        → (result ≡ Err (Fault.Store StoreCause.Row)) × (tx.new.conn.now ≡ tx.old.conn.now) }
{
    delete_pieces(tx, from)?;
    insert_pieces(tx, rows)
}

/// Adds pieces, one after another. All that stand stay, whatever they hold.
///
/// Where it is done, what a fault tells, and what an error leaves, are as of `replace_pieces`.
pub fn insert_pieces<S: Alter>(tx: &mut Transaction<'_, S>, rows: &[PieceRow]) -> Result<(), Fault>
    ensures same_reference { tx.new.conn.ghost_name ≡ tx.old.conn.ghost_name }
    ensures puts { Puts S.Store tx.old.conn.now tx.new.conn.now result (λ _. Unit {0})
        (λ t. AreFree piece_key t.pieces rows.now) (AllByRecursion IsPieceRow rows.now)
        (λ t. record t { pieces = with_rows piece_key t.pieces rows.now }) }
{
    put_each(tx, &Pieces, rows)
}
