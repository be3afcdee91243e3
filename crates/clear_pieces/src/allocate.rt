//! The pieces of a firm in the tables, allocated anew from the first changed place on, and what is
//! open of its contributions.
ghost use Rattle.std.specs.Prelude.{◌≡◌, ◌≤◌, length};
ghost use Rattle.std.specs.List.{AllByRecursion};
ghost use Rattle.clear_account.specs.Account.{IsAccount, charged_up_to};
ghost use Rattle.clear_kept.specs.Start.{StartsAt};
ghost use Rattle.clear_values.specs.Keyed.{replaced_rows};
ghost use Rattle.clear_values.specs.RowRanges.{IsKeptCharge, IsSerial};
ghost use Rattle.clear_values.specs.Tables.{charge_key, with_pieces};
ghost use Rattle.clear_book.specs.Allocated.{kept_charges};
ghost use Rattle.clear_book.specs.Tables.{table_credits};
ghost use Rattle.clear_pieces.specs.Allocates.{Allocates, Alters, Settles};
ghost use Rattle.clear_pieces.specs.Behind.{IsWeighedBefore, rows_from};
ghost use Rattle.clear_pieces.specs.Anew.{ArePuttable, FromCharge, FromCredit};
ghost use Rattle.clear_pieces.specs.Anew.{IsFreeBehind, IsFreeFromCharge, IsFreeFromCredit};
ghost use Rattle.clear_pieces.specs.Firm.{HasItsRows, IsAccountOf, KeepsAccount, pieces_from};
ghost use Rattle.clear_pieces.specs.Firm.{settled_from};

use crate::behind::{NewCredits, allocate_behind};
use crate::charges::charges_to_put;
use crate::firm::{FirmAccount, read_firm};
use crate::pieces::pieces_to_put;
use clear_account::places::Front;
use clear_kept::start::{Start, start_of_charge, start_of_credits};
use clear_ledger::credits::credits_from;
use clear_money::months::Month;
use clear_money::numbers::EmployerNo;
use clear_schema::fault::Fault;
use clear_store::charges::settle_charges;
use clear_store::pieces::{PieceFrom, replace_pieces};
use clear_values::lines::Purpose;
use clear_values::rows::CreditRow;
use sqlite::{Alter, Transaction};
use std::alloc::Global;

// The greatest number that a column can hold.
const MAX_STORED: u64 = i64::MAX as u64;

/// Puts the pieces of a firm anew after the contribution of a month was changed or put in, and
/// what is open of its contributions from that month on. The tables hold the contribution
/// already.
///
/// It reads the firm's whole account: each contribution that is kept, and each credit for
/// contributions. Where no credit reaches beyond the contributions of earlier months, no piece is put.
/// A key that is not free is refused with `Fault::Store(StoreCause::Constraint)`, and rows that make up
/// no account with `Fault::Store(StoreCause::Row)`. After an error a part may be done: the
/// transaction is to be rolled back.
pub fn allocate_from_charge<S: Alter>(
    alloc: Global,
    tx: &mut Transaction<'_, S>,
    employer: EmployerNo,
    month: Month,
) -> Result<(), Fault>
    ensures same_reference { tx.new.conn.ghost_name ≡ tx.old.conn.ghost_name }
    ensures allocates { Allocates S.Store tx.old.conn.now tx.new.conn.now result
        (λ t pieces charges. IsAccount (kept_charges t employer) (table_credits t employer)
        → FromCharge t employer month pieces charges)
        (λ t. KeepsAccount t employer × IsFreeFromCharge t employer month) }
{
    let firm = read_firm(alloc, tx, employer)?;
    put_from_charge(alloc, tx, &firm, employer, month)
}

/// Puts the pieces of a firm anew after credits for contributions were put in, and what is open of
/// the contributions that reach beyond the credits before the first of them. The tables hold the
/// credits already.
///
/// Where no contribution reaches beyond the credits that come before the first, nothing is put.
/// Where all new credits come behind all others, only these and what is open are taken, and pieces
/// are only added, else the whole account is read. What is refused, and what an error leaves, are as of
/// `allocate_from_charge`.
pub fn allocate_from_credits<S: Alter>(
    alloc: Global,
    tx: &mut Transaction<'_, S>,
    employer: EmployerNo,
    added: &NewCredits,
) -> Result<(), Fault>
    ensures same_reference { tx.new.conn.ghost_name ≡ tx.old.conn.ghost_name }
    ensures allocates { Allocates S.Store tx.old.conn.now tx.new.conn.now result
        (λ t pieces charges. IsAccount (kept_charges t employer) (table_credits t employer)
        → IsWeighedBefore t employer added.now → FromCredit t employer added.now pieces charges)
        (λ t. KeepsAccount t employer × IsWeighedBefore t employer added.now
        × IsFreeFromCredit t employer added.now.first × IsFreeBehind t employer added.now
        × IsSerial added.now.first.serial) }
{
    // A greater serial stands in no table, and can't be asked for.
    if added.first.serial > MAX_STORED {
        return allocate_whole(alloc, tx, employer, added);
    }
    let behind = credits_from(
        tx,
        employer,
        Purpose::Contribution,
        added.first.day,
        added.first.serial,
    )?;
    allocate_read(alloc, tx, employer, added, behind)
}

// Puts them anew, `behind` being all of the firm's credits for contributions from the first new
// one on.
fn allocate_read<S: Alter>(
    alloc: Global,
    tx: &mut Transaction<'_, S>,
    employer: EmployerNo,
    added: &NewCredits,
    behind: Vec<CreditRow>,
) -> Result<(), Fault>
    ensures same_reference { tx.new.conn.ghost_name ≡ tx.old.conn.ghost_name }
    ensures allocates { Allocates S.Store tx.old.conn.now tx.new.conn.now result
        (λ t pieces charges. IsAccount (kept_charges t employer) (table_credits t employer)
        → behind.items ≡ rows_from t employer added.now.first → IsWeighedBefore t employer added.now
        → FromCredit t employer added.now pieces charges)
        (λ t. KeepsAccount t employer × (behind.items ≡ rows_from t employer added.now.first)
        × IsWeighedBefore t employer added.now × IsFreeFromCredit t employer added.now.first
        × IsFreeBehind t employer added.now × IsSerial added.now.first.serial) }
{
    if behind.len() as u64 == added.count {
        allocate_behind(alloc, tx, employer, added, behind)
    } else {
        allocate_whole(alloc, tx, employer, added)
    }
}

// Puts them anew from the whole account.
fn allocate_whole<S: Alter>(
    alloc: Global,
    tx: &mut Transaction<'_, S>,
    employer: EmployerNo,
    added: &NewCredits,
) -> Result<(), Fault>
    ensures same_reference { tx.new.conn.ghost_name ≡ tx.old.conn.ghost_name }
    ensures allocates { Allocates S.Store tx.old.conn.now tx.new.conn.now result
        (λ t pieces charges. IsAccount (kept_charges t employer) (table_credits t employer)
        → FromCredit t employer added.now pieces charges)
        (λ t. KeepsAccount t employer × IsFreeFromCredit t employer added.now.first
        × IsSerial added.now.first.serial) }
{
    let firm = read_firm(alloc, tx, employer)?;
    put_from_credit(alloc, tx, &firm, employer, added)
}

// Puts the pieces of a firm from the contribution of a month on, where a credit reaches beyond its
// place, and the rows of its contributions from that month on.
fn put_from_charge<S: Alter>(
    alloc: Global,
    tx: &mut Transaction<'_, S>,
    firm: &FirmAccount,
    employer: EmployerNo,
    month: Month,
) -> Result<(), Fault>
    ensures same_reference { tx.new.conn.ghost_name ≡ tx.old.conn.ghost_name }
    ensures allocates { Allocates S.Store tx.old.conn.now tx.new.conn.now result
        (λ t pieces charges. IsAccountOf t employer firm.now
        → FromCharge t employer month pieces charges)
        (λ t. IsAccountOf t employer firm.now × KeepsAccount t employer
        × IsFreeFromCharge t employer month) }
{
    let credits = firm.account.all_credits();
    let start = start_of_charge(firm.account.all_charges(), credits, month);
    match credits.get(start.credits.count) {
        Some(credit) => {
            let from = PieceFrom {
                employer,
                month,
                day: credit.day,
                serial: credit.serial,
            };
            put_anew(alloc, tx, firm, &start, &from)
        }
        None => put_charges(alloc, tx, firm, employer, start.rows),
    }
}

// Puts the pieces of a firm from a credit on, and the rows of its contributions, where one reaches
// beyond the place of the credit.
fn put_from_credit<S: Alter>(
    alloc: Global,
    tx: &mut Transaction<'_, S>,
    firm: &FirmAccount,
    employer: EmployerNo,
    added: &NewCredits,
) -> Result<(), Fault>
    ensures same_reference { tx.new.conn.ghost_name ≡ tx.old.conn.ghost_name }
    ensures allocates { Allocates S.Store tx.old.conn.now tx.new.conn.now result
        (λ t pieces charges. IsAccountOf t employer firm.now
        → FromCredit t employer added.now pieces charges)
        (λ t. IsAccountOf t employer firm.now × KeepsAccount t employer
        × IsFreeFromCredit t employer added.now.first × IsSerial added.now.first.serial) }
{
    let charges = firm.account.all_charges();
    let start = start_of_credits(charges, firm.account.all_credits(), &added.first);
    match charges.get(start.charges.count) {
        Some(charge) => {
            let from = PieceFrom {
                employer,
                month: charge.month,
                day: added.first.day,
                serial: added.first.serial,
            };
            put_anew(alloc, tx, firm, &start, &from)
        }
        None => Ok(()),
    }
}

// Puts the pieces that reach beyond a start in the place of those that stand from one on, and the
// rows of contributions from the start's on.
fn put_anew<S: Alter>(
    alloc: Global,
    tx: &mut Transaction<'_, S>,
    firm: &FirmAccount,
    start: &Start,
    from: &PieceFrom,
) -> Result<(), Fault>
    requires { StartsAt firm.now.account.charges firm.now.account.credits start.now }
    ensures same_reference { tx.new.conn.ghost_name ≡ tx.old.conn.ghost_name }
    ensures alters { Alters S.Store tx.old.conn.now tx.new.conn.now result
        (λ t rows. record t {
          pieces = with_pieces from.now.employer from.now.month from.now.day from.now.serial rows
              t.pieces;
          charges = replaced_rows charge_key t.charges (settled_from from.now.employer
              firm.now.account.charges firm.now.account.credits start.now.rows.count);
        })
        (λ t rows. HasItsRows firm.now → rows ≡ pieces_from firm.now start.now)
        (λ t. ArePuttable t firm.now start.now from.now
        × AllByRecursion IsKeptCharge (settled_from from.now.employer firm.now.account.charges
        firm.now.account.credits start.now.rows.count)) }
{
    put_pieces(alloc, tx, firm, start, from)?;
    put_charges(alloc, tx, firm, from.employer, start.rows)
}

// Puts the pieces that reach beyond a start in the place of those that stand from one on.
fn put_pieces<S: Alter>(
    alloc: Global,
    tx: &mut Transaction<'_, S>,
    firm: &FirmAccount,
    start: &Start,
    from: &PieceFrom,
) -> Result<(), Fault>
    requires { StartsAt firm.now.account.charges firm.now.account.credits start.now }
    ensures same_reference { tx.new.conn.ghost_name ≡ tx.old.conn.ghost_name }
    ensures alters { Alters S.Store tx.old.conn.now tx.new.conn.now result
        (λ t rows. record t {
          pieces = with_pieces from.now.employer from.now.month from.now.day from.now.serial rows
              t.pieces;
        })
        (λ t rows. HasItsRows firm.now → rows ≡ pieces_from firm.now start.now)
        (λ t. ArePuttable t firm.now start.now from.now) }
{
    let rows = pieces_to_put(alloc, firm, start)?;
    replace_pieces(tx, from, rows.as_slice())
}

// Writes what is open of a firm's contributions behind a front, and their weights so far.
#[tactic(auto, using(crate::proofs::RangeLemmas::amounts_in_range))]
fn put_charges<S: Alter>(
    alloc: Global,
    tx: &mut Transaction<'_, S>,
    firm: &FirmAccount,
    employer: EmployerNo,
    front: Front,
) -> Result<(), Fault>
    requires within { front.count ≤ length firm.now.account.charges }
    requires front { front.cents ≡ charged_up_to firm.now.account.charges front.count }
    ensures same_reference { tx.new.conn.ghost_name ≡ tx.old.conn.ghost_name }
    ensures settles { Settles S.Store tx.old.conn.now tx.new.conn.now result
        (settled_from employer firm.now.account.charges firm.now.account.credits front.count)
        (Unit {0}) }
{
    let rows = charges_to_put(alloc, firm, employer, front)?;
    settle_charges(tx, rows.as_slice())
}
