//! The pieces of all firms whose account a change changes, and what is open of their
//! contributions, kept right.
ghost use Rattle.std.specs.Prelude.{◌≡◌, ℕ, IfErr, IfOk, List, None, OnOk, Some};
ghost use Rattle.std.specs.BTreeMap.{get};
ghost use Rattle.std.specs.Ordering.{nat_cmp};
ghost use Rattle.sqlite.specs.Held.{state};
ghost use Rattle.clear_values.specs.declared.rows.CreditRow.{CreditRow};
ghost use Rattle.clear_values.specs.declared.rows.KeptCharge.{KeptCharge};
ghost use Rattle.clear_values.specs.declared.rows.PieceRow.{PieceRow};
ghost use Rattle.clear_values.specs.Credits.{credits_of_lines, set_offs_of};
ghost use Rattle.clear_values.specs.RowRanges.{AreInRange};
ghost use Rattle.clear_book.specs.Accounts.{row_credit};
ghost use Rattle.clear_book.specs.Allocated.{AreAllocated, KeepsKeys};
ghost use Rattle.clear_book.specs.Tables.{Tables};
ghost use Rattle.clear_schema.specs.Faults.{IsOfDisk};
ghost use Rattle.clear_schema.specs.Frame.{GoesOn};
ghost use Rattle.clear_schema.specs.Held.{HasTables};
ghost use Rattle.clear_pieces.specs.Keeping.{AreCreditsPut, AreFirst, AreFollowing, IsPut, Keeps};
ghost use Rattle.clear_pieces.specs.Keeping.{AreForInterest, AreTogether, ConcernsNone};
ghost use Rattle.clear_pieces.specs.Keeping.{IsOfCorrection, TellsStood};
ghost use Rattle.clear_pieces.specs.Keeping.{alone, credit_for};
ghost use Rattle.clear_pieces.specs.Keeping.{earlier as earlier_credit};
ghost use Rattle.clear_debts.specs.Reads.{OfTables};

use crate::allocate::{allocate_from_charge, allocate_from_credits};
use crate::behind::NewCredits;
use crate::credits::credit_of;
use crate::stands::charge_stands;
use clear_account::entries::Credit;
use clear_money::numbers::EmployerNo;
use clear_schema::fault::Fault;
use clear_store::new_credits::{credits_of_rows, set_offs};
use clear_values::lines::Purpose;
use clear_values::rows::{BankRow, Change, ClaimRow, CreditRow};
use sqlite::{Alter, Transaction};
use std::alloc::{AllocError, Global};
use std::collections::BTreeMap;
use std::slice;

/// Whether the contribution that a change is to put stands already as it is: only a correction's
/// can. It is asked before the change is put, and changes nothing. A row out of its range is refused
/// with `Fault::Store(StoreCause::Row)`.
pub fn charge_stood<S: Alter>(tx: &mut Transaction<'_, S>, change: &Change) -> Result<bool, Fault>
    ensures same_reference { tx.new.conn.ghost_name ≡ tx.old.conn.ghost_name }
    ensures told { OfTables S.Store tx.old.conn.now tx.new.conn.now (λ t.
        IfOk result (TellsStood change.now t)) }
    ensures corrections { IfOk result (IsOfCorrection change.now) }
    ensures fault { OfTables S.Store tx.old.conn.now tx.new.conn.now (λ t.
        AreInRange t → IfErr result IsOfDisk) }
    ensures still { OfTables S.Store tx.old.conn.now tx.new.conn.now (λ t.
        OnOk result (HasTables t (state S.Store tx.new.conn.now).now)) }
    ensures stays { GoesOn S.Store tx.old.conn.now tx.new.conn.now result }
{
    match change {
        Change::ReplaceReport(_, _, charge) => charge_stands(tx, charge),
        Change::AddRate(_) => Ok(false),
        Change::AddEmployer(_) => Ok(false),
        Change::EndMembership(_) => Ok(false),
        Change::AddReport(_, _, _) => Ok(false),
        Change::AddBankLines(_) => Ok(false),
        Change::AssignLine(_) => Ok(false),
        Change::AddClaim(_) => Ok(false),
        Change::WithdrawClaim(_) => Ok(false),
        Change::ReleaseClaim { .. } => Ok(false),
        Change::AddList(_, _) => Ok(false),
        Change::AddRun(_, _) => Ok(false),
    }
}

/// Puts the pieces of each firm whose account a change has changed, which was put before, from
/// the first changed place on; the other pieces stay, whatever they hold. What is open of the
/// firm's contributions, and their weights so far, are written from there on, too. Where the
/// contribution of a correction stood already, or a change puts none and no credit for contributions,
/// nothing is read or written; else the firm's whole account is read, or where all new credits come
/// behind its others only what is open of it. The credits of the change are made as rows once more,
/// each with a text of its reference, which is not read here.
///
/// What no book holds is refused with `Fault::Store(StoreCause::Row)`. A fault may leave a part
/// written, which a rollback of the transaction takes back: what is committed stays as it was.
pub fn keep_pieces<S: Alter>(
    alloc: Global,
    tx: &mut Transaction<'_, S>,
    change: &Change,
    stood: bool,
) -> Result<(), Fault>
    ensures same_reference { tx.new.conn.ghost_name ≡ tx.old.conn.ghost_name }
    ensures keeps { OfTables S.Store tx.old.conn.now tx.new.conn.now (λ v.
        OnOk result ((pieces : List PieceRow) × (charges : List KeptCharge)
        × HasTables (record v { pieces = pieces; charges = charges })
        (state S.Store tx.new.conn.now).now × ((t : Tables) → IsPut change.now t v
        → TellsStood change.now t stood → AreFollowing t v pieces charges))) }
    ensures fault { OfTables S.Store tx.old.conn.now tx.new.conn.now (λ v.
        (t : Tables) → IsPut change.now t v → TellsStood change.now t stood
        → (g : PieceRow → PieceRow) → KeepsKeys g → AreAllocated g t → AreInRange v
        → IfErr result IsOfDisk) }
    ensures stays { GoesOn S.Store tx.old.conn.now tx.new.conn.now result }
    // Nothing is read or written where the change concerns no account, whatever the tables hold.
    ensures rests { ConcernsNone change.now stood → tx.new.conn.now ≡ tx.old.conn.now }
{
    match change {
        Change::AddRate(_) => Ok(()),
        Change::AddEmployer(_) => Ok(()),
        Change::EndMembership(_) => Ok(()),
        Change::AddReport(_, _, charge) => {
            allocate_from_charge(alloc, tx, charge.employer, charge.month)
        }
        Change::ReplaceReport(_, _, charge) => {
            if stood {
                return Ok(());
            }
            allocate_from_charge(alloc, tx, charge.employer, charge.month)
        }
        Change::AddBankLines(rows) => keep_lines(alloc, tx, rows.as_slice()),
        Change::AssignLine(row) => keep_lines(alloc, tx, slice::from_ref(row)),
        Change::AddClaim(_) => Ok(()),
        Change::WithdrawClaim(_) => Ok(()),
        Change::ReleaseClaim { claim, serial } => keep_release(alloc, tx, claim, *serial),
        Change::AddList(_, _) => Ok(()),
        Change::AddRun(_, _) => Ok(()),
    }
}

// Keeps each firm of lines that are new, or that were assigned.
fn keep_lines<S: Alter>(
    alloc: Global,
    tx: &mut Transaction<'_, S>,
    rows: &[BankRow],
) -> Result<(), Fault>
    ensures same_reference { tx.new.conn.ghost_name ≡ tx.old.conn.ghost_name }
    ensures keeps { Keeps S.Store tx.old.conn.now tx.new.conn.now result
        (AreCreditsPut (credits_of_lines rows.now)) }
    ensures rests { AreForInterest (credits_of_lines rows.now)
        → tx.new.conn.now ≡ tx.old.conn.now }
{
    let news = credits_of_rows(alloc, rows)?;
    keep_credits(alloc, tx, news.as_slice())
}

// Keeps the firm of a claim that was released.
fn keep_release<S: Alter>(
    alloc: Global,
    tx: &mut Transaction<'_, S>,
    claim: &ClaimRow,
    serial: u64,
) -> Result<(), Fault>
    ensures same_reference { tx.new.conn.ghost_name ≡ tx.old.conn.ghost_name }
    ensures keeps { Keeps S.Store tx.old.conn.now tx.new.conn.now result
        (AreCreditsPut (set_offs_of claim.now serial)) }
    ensures rests { AreForInterest (set_offs_of claim.now serial)
        → tx.new.conn.now ≡ tx.old.conn.now }
{
    let news = set_offs(alloc, claim, serial)?;
    keep_credits(alloc, tx, news.as_slice())
}

// Keeps each firm that has a new credit for contributions.
fn keep_credits<S: Alter>(
    alloc: Global,
    tx: &mut Transaction<'_, S>,
    news: &[CreditRow],
) -> Result<(), Fault>
    ensures same_reference { tx.new.conn.ghost_name ≡ tx.old.conn.ghost_name }
    ensures keeps { Keeps S.Store tx.old.conn.now tx.new.conn.now result
        (AreCreditsPut news.now) }
    ensures rests { AreForInterest news.now → tx.new.conn.now ≡ tx.old.conn.now }
{
    let firms = new_credits(alloc, news)?;
    keep_firms(alloc, tx, &firms)
}

// Keeps each firm from its first new credit on, one firm after another.
fn keep_firms<S: Alter>(
    alloc: Global,
    tx: &mut Transaction<'_, S>,
    firms: &BTreeMap<EmployerNo, NewCredits>,
) -> Result<(), Fault>
    ensures same_reference { tx.new.conn.ghost_name ≡ tx.old.conn.ghost_name }
    ensures keeps { (news : List CreditRow) → AreFirst (get nat_cmp firms.now) news
        → Keeps S.Store tx.old.conn.now tx.new.conn.now result (AreCreditsPut news) }
    ensures rests { ((e : ℕ) → get nat_cmp firms.now e ≡ None)
        → tx.new.conn.now ≡ tx.old.conn.now }
{
    for (employer, credits) in firms {
        allocate_from_credits(alloc, tx, *employer, credits)?;
    }
    Ok(())
}

// Of each firm the new credits for contributions.
fn new_credits(
    alloc: Global,
    news: &[CreditRow],
) -> Result<BTreeMap<EmployerNo, NewCredits>, AllocError>
    ensures { IfOk result (λ firms. AreFirst (get nat_cmp firms) news.now) }
{
    let mut firms = BTreeMap::new(alloc);
    for row in news {
        enter(&mut firms, row)?;
    }
    Ok(firms)
}

// Enters a new credit among those of its firm, if it is for contributions.
fn enter(firms: &mut BTreeMap<EmployerNo, NewCredits>, row: &CreditRow) -> Result<(), AllocError>
    ensures { OnOk result ((e : ℕ) → AreTogether (get nat_cmp firms.old e) (credit_for row.now e)
        (get nat_cmp firms.new e)) }
{
    match row.purpose {
        Purpose::Contribution => {
            let credits = with_new(firms, row);
            firms.insert(row.employer, credits)?;
            Ok(())
        }
        Purpose::Interest => Ok(()),
    }
}

// The new credits of a firm and one more.
fn with_new(firms: &BTreeMap<EmployerNo, NewCredits>, row: &CreditRow) -> NewCredits
    ensures { AreTogether (get nat_cmp firms.now row.now.employer)
        (Some (alone (row_credit row.now))) (Some result) }
{
    let credit = credit_of(row);
    match firms.get(&row.employer) {
        Some(credits) => NewCredits {
            first: earlier(&credits.first, &credit),
            count: credits.count.saturating_add(1),
        },
        None => NewCredits {
            first: credit,
            count: 1,
        },
    }
}

// Of two credits the one that comes first.
fn earlier(former: &Credit, other: &Credit) -> Credit
    ensures { result ≡ earlier_credit former.now other.now }
{
    if other.is_before(former) {
        *other
    } else {
        *former
    }
}
