//! New credits of a firm that come behind all others: they pay what is open of its contributions. None
//! of its other credits is read; its contributions are each looked at once, and only those with an
//! open part are taken.
ghost use Rattle.std.specs.Prelude.{◌≡◌, ◌≤◌, [], All, IfErr, IfOk, length, map};
ghost use Rattle.std.specs.List.{AllByRecursion};
ghost use Rattle.clear_account.specs.Account.{IsAccount, IsCharge, charged_up_to};
ghost use Rattle.clear_kept.specs.Start.{StartsAt};
ghost use Rattle.clear_values.specs.Keyed.{AreOnce, with_rows};
ghost use Rattle.clear_values.specs.RowRanges.{IsCreditRow, IsKeptCharge};
ghost use Rattle.clear_values.specs.Tables.{piece_key};
ghost use Rattle.clear_book.specs.Accounts.{row_credit};
ghost use Rattle.clear_book.specs.Allocated.{kept_charges};
ghost use Rattle.clear_book.specs.Limits.{most_credits};
ghost use Rattle.clear_book.specs.Tables.{charge_in, table_credits};
ghost use Rattle.clear_schema.specs.Faults.{IsOfDisk};
ghost use Rattle.clear_schema.specs.Frame.{Leaves};
ghost use Rattle.clear_store.specs.Changes.{AreFree};
ghost use Rattle.clear_pieces.specs.Filled.{credit_serial, with_charges, with_credits};
ghost use Rattle.clear_pieces.specs.Allocates.{Allocates, Alters, Settles};
ghost use Rattle.clear_pieces.specs.Anew.{FromCredit, IsFreeBehind};
ghost use Rattle.clear_pieces.specs.Behind.{AreLast, IsOpenFirm, IsWeighedBefore, open_row};
ghost use Rattle.clear_pieces.specs.Behind.{paid_charges, paid_rows, rows_from, with_paid};
ghost use Rattle.clear_pieces.specs.Firm.{HasItsRows, KeepsAccount, pieces_from};
ghost use Rattle.clear_debts.specs.Reads.{OfTables};

use crate::charges::charges_to_put;
use crate::credits::add_credits;
use crate::firm::{FirmAccount, add_charges};
use crate::pieces::pieces_to_put;
use clear_account::entries::Credit;
use clear_account::places::Front;
use clear_account::plain::Plain;
use clear_firms::charges::open_charges_of;
use clear_kept::start::{Start, start_of_credits};
use clear_money::numbers::EmployerNo;
use clear_schema::fault::Fault;
use clear_store::charges::settle_charges;
use clear_store::pieces::insert_pieces;
use clear_values::causes::StoreCause;
use clear_values::rows::{CreditRow, KeptCharge};
use sqlite::{Alter, Transaction};
use std::alloc::{AllocError, Global};

/// The new credits of a firm for contributions.
#[derive(Clone, Copy)]
pub struct NewCredits {
    /// The first of them by day and serial.
    pub first: Credit,
    /// How many they are, or fewer: a smaller number may cost steps, and changes no result.
    pub count: u64,
}

/// What is open of a firm's contributions, and the credits that are to pay it.
#[derive(Drop)]
pub struct OpenFirm {
    /// Its contributions of which a part is open, as they are kept, the months rising.
    pub charges: Vec<KeptCharge>,
    /// An account of what is open of each, and of these credits.
    pub unpaid: FirmAccount,
}

/// Puts the pieces that new credits pay of what is open, and what is then open of the firm's
/// contributions. `behind` are all of the firm's credits for contributions from the first new one
/// on, and the tables keep what the credits before it leave open. Pieces that stand stay.
///
/// What is refused, and what an error leaves, are as of `allocate_from_charge`.
pub fn allocate_behind<S: Alter>(
    alloc: Global,
    tx: &mut Transaction<'_, S>,
    employer: EmployerNo,
    added: &NewCredits,
    behind: Vec<CreditRow>,
) -> Result<(), Fault>
    ensures same_reference { tx.new.conn.ghost_name ≡ tx.old.conn.ghost_name }
    ensures allocates { Allocates S.Store tx.old.conn.now tx.new.conn.now result
        (λ t pieces charges. IsAccount (kept_charges t employer) (table_credits t employer)
        → behind.items ≡ rows_from t employer added.now.first → AreLast t employer added.now
        → IsWeighedBefore t employer added.now → FromCredit t employer added.now pieces charges)
        (λ t. KeepsAccount t employer × (behind.items ≡ rows_from t employer added.now.first)
        × AreLast t employer added.now × IsWeighedBefore t employer added.now
        × IsFreeBehind t employer added.now) }
{
    let firm = read_open(alloc, tx, employer, behind)?;
    put_behind(alloc, tx, &firm, employer, added)
}

// What is open of a firm's contributions, with these credits.
fn read_open<S: Alter>(
    alloc: Global,
    tx: &mut Transaction<'_, S>,
    employer: EmployerNo,
    behind: Vec<CreditRow>,
) -> Result<OpenFirm, Fault>
    ensures same_reference { tx.new.conn.ghost_name ≡ tx.old.conn.ghost_name }
    ensures firm { OfTables S.Store tx.old.conn.now tx.new.conn.now (λ t.
        (first : Credit) → IsAccount (kept_charges t employer) (table_credits t employer)
        → behind.items ≡ rows_from t employer first → IfOk result (IsOpenFirm t employer first)) }
    ensures fault { OfTables S.Store tx.old.conn.now tx.new.conn.now (λ t.
        (first : Credit) → KeepsAccount t employer → behind.items ≡ rows_from t employer first
        → IfErr result IsOfDisk) }
    ensures leaves { Leaves S.Store tx.old.conn.now tx.new.conn.now result }
{
    let charges = open_charges_of(tx, employer)?;
    let unpaid = open_account(alloc, charges.as_slice(), behind)?;
    Ok(OpenFirm { charges, unpaid })
}

// An account of what is open of contributions, and of credits.
fn open_account(
    alloc: Global,
    charges: &[KeptCharge],
    behind: Vec<CreditRow>,
) -> Result<FirmAccount, Fault>
    ensures charges { IfOk result (λ firm. firm.account.charges
        ≡ with_charges (map charge_in (map open_row charges.now)) []) }
    ensures credits { IfOk result (λ firm. firm.account.credits
        ≡ with_credits (map row_credit behind.items) []) }
    ensures rows { IfOk result (λ firm. firm.rows.items ≡ behind.items) }
    ensures fault { All IsCharge (map charge_in (map open_row charges.now))
        → AreOnce credit_serial behind.items → length behind.items ≤ most_credits
        → IfErr result IsOfDisk }
{
    let mut account = Plain::new(alloc);
    let opened = open_rows(alloc, charges)?;
    add_charges(&mut account, opened.as_slice())?;
    add_credits(alloc, &mut account, behind.as_slice())?;
    Ok(FirmAccount {
        account,
        rows: behind,
    })
}

// These contributions, each with what is open of it as its cents.
fn open_rows(alloc: Global, rows: &[KeptCharge]) -> Result<Vec<KeptCharge>, AllocError>
    ensures { IfOk result (λ opened. opened.items ≡ map open_row rows.now) }
{
    let mut opened = Vec::new(alloc);
    for row in rows {
        opened.push(opened_row(row))?;
    }
    Ok(opened)
}

// This contribution with what is open of it as its cents.
fn opened_row(row: &KeptCharge) -> KeptCharge
    ensures { result ≡ open_row row.now }
{
    KeptCharge {
        cents: row.left,
        ..*row
    }
}

// Adds the pieces of new credits that come behind all others, and puts the rows of the firm's
// contributions, where a part of one is open.
fn put_behind<S: Alter>(
    alloc: Global,
    tx: &mut Transaction<'_, S>,
    firm: &OpenFirm,
    employer: EmployerNo,
    added: &NewCredits,
) -> Result<(), Fault>
    ensures same_reference { tx.new.conn.ghost_name ≡ tx.old.conn.ghost_name }
    ensures allocates { Allocates S.Store tx.old.conn.now tx.new.conn.now result
        (λ t pieces charges. IsAccount (kept_charges t employer) (table_credits t employer)
        → IsOpenFirm t employer added.now.first firm.now → AreLast t employer added.now
        → IsWeighedBefore t employer added.now → FromCredit t employer added.now pieces charges)
        (λ t. KeepsAccount t employer × IsOpenFirm t employer added.now.first firm.now
        × AreLast t employer added.now × IsWeighedBefore t employer added.now
        × IsFreeBehind t employer added.now) }
{
    let charges = firm.unpaid.account.all_charges();
    let start = start_of_credits(charges, firm.unpaid.account.all_credits(), &added.first);
    if start.charges.count >= charges.len() {
        return Ok(());
    }
    add_pieces(alloc, tx, &firm.unpaid, &start)?;
    put_paid(alloc, tx, firm, employer, start.rows)
}

// Adds the pieces that reach beyond a start to those that stand.
fn add_pieces<S: Alter>(
    alloc: Global,
    tx: &mut Transaction<'_, S>,
    firm: &FirmAccount,
    start: &Start,
) -> Result<(), Fault>
    requires { StartsAt firm.now.account.charges firm.now.account.credits start.now }
    ensures same_reference { tx.new.conn.ghost_name ≡ tx.old.conn.ghost_name }
    ensures alters { Alters S.Store tx.old.conn.now tx.new.conn.now result
        (λ t rows. record t { pieces = with_rows piece_key t.pieces rows })
        (λ t rows. HasItsRows firm.now → rows ≡ pieces_from firm.now start.now)
        (λ t. HasItsRows firm.now × AllByRecursion IsCreditRow firm.now.rows.items
        × AreFree piece_key t.pieces (pieces_from firm.now start.now)) }
{
    let rows = pieces_to_put(alloc, firm, start)?;
    insert_pieces(tx, rows.as_slice())
}

// Writes what more is paid of a firm's contributions behind a front, and what it weighs.
#[tactic(auto, using(crate::proofs::RangeLemmas::amounts_in_range))]
fn put_paid<S: Alter>(
    alloc: Global,
    tx: &mut Transaction<'_, S>,
    firm: &OpenFirm,
    employer: EmployerNo,
    front: Front,
) -> Result<(), Fault>
    requires within { front.count ≤ length firm.now.unpaid.account.charges }
    requires front { front.cents ≡ charged_up_to firm.now.unpaid.account.charges front.count }
    ensures same_reference { tx.new.conn.ghost_name ≡ tx.old.conn.ghost_name }
    ensures settles { Settles S.Store tx.old.conn.now tx.new.conn.now result
        (paid_charges employer firm.now front.count)
        (length firm.now.charges.items ≡ length firm.now.unpaid.account.charges) }
{
    let rows = paid_charges(alloc, firm, employer, front)?;
    settle_charges(tx, rows.as_slice())
}

// A firm's contributions behind a front, with what more is paid of them.
fn paid_charges(
    alloc: Global,
    firm: &OpenFirm,
    employer: EmployerNo,
    front: Front,
) -> Result<Vec<KeptCharge>, Fault>
    requires within { front.count ≤ length firm.now.unpaid.account.charges }
    requires front { front.cents ≡ charged_up_to firm.now.unpaid.account.charges front.count }
    ensures rows { IfOk result (λ rows.
        rows.items ≡ paid_charges employer firm.now front.count) }
    ensures fault { length firm.now.charges.items ≡ length firm.now.unpaid.account.charges
        → AllByRecursion IsKeptCharge (paid_charges employer firm.now front.count)
        → IfErr result IsOfDisk }
{
    if firm.charges.len() != firm.unpaid.account.all_charges().len() {
        return Err(Fault::Store(StoreCause::Row));
    }
    let paid = charges_to_put(alloc, &firm.unpaid, employer, front)?;
    let kept = &firm.charges.as_slice()[front.count..];
    join(alloc, kept, paid.as_slice())
}

// These contributions, each with what more is paid of it. Weights that are too great together are
// a fault of the row.
fn join(alloc: Global, kept: &[KeptCharge], paid: &[KeptCharge]) -> Result<Vec<KeptCharge>, Fault>
    requires { length kept.now ≡ length paid.now }
    ensures rows { IfOk result (λ rows. rows.items ≡ paid_rows kept.now paid.now) }
    ensures fault { AllByRecursion IsKeptCharge (paid_rows kept.now paid.now)
        → IfErr result IsOfDisk }
{
    let mut rows = Vec::new(alloc);
    for place in 0..kept.len() {
        let row = add_paid(&kept[place], &paid[place])?;
        rows.push(row)?;
    }
    Ok(rows)
}

// This contribution with what more is paid of it.
fn add_paid(row: &KeptCharge, paid: &KeptCharge) -> Result<KeptCharge, Fault>
    ensures row { IfOk result (λ both. both ≡ with_paid row.now paid.now) }
    ensures fault { IsKeptCharge (with_paid row.now paid.now) → IfErr result IsOfDisk }
{
    let Some(weight) = row.weight.checked_add(paid.weight) else {
        return Err(Fault::Store(StoreCause::Row));
    };
    Ok(KeptCharge {
        left: paid.left,
        weight,
        ..*row
    })
}
