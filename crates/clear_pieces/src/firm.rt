//! A firm's account, read from the rows that keep it.
ghost use Rattle.std.specs.Prelude.{◌≡◌, [], All, IfErr, IfOk, OnOk, map};
ghost use Rattle.clear_account.specs.Account.{IsCharge, with_charge};
ghost use Rattle.clear_book.specs.Allocated.{contribution_rows, kept_charges};
ghost use Rattle.clear_book.specs.Tables.{charge_in, table_credits};
ghost use Rattle.clear_schema.specs.Frame.{Leaves};
ghost use Rattle.clear_schema.specs.Faults.{IsOfDisk};
ghost use Rattle.clear_pieces.specs.Filled.{with_charges, with_credits};
ghost use Rattle.clear_pieces.specs.Firm.{KeepsAccount};
ghost use Rattle.clear_debts.specs.Reads.{OfTables};

use crate::credits::add_credits;
use clear_account::entries::{AccountFault, Charge};
use clear_account::keeper::Keeper;
use clear_account::plain::Plain;
use clear_firms::charges::charges_of;
use clear_ledger::credits::credits_of;
use clear_money::numbers::EmployerNo;
use clear_money::rates::RateRow;
use clear_schema::fault::Fault;
use clear_values::causes::StoreCause;
use clear_values::lines::Purpose;
use clear_values::rows::{CreditRow, KeptCharge};
use sqlite::{Alter, Transaction};
use std::alloc::Global;

/// A firm's account as the tables keep it.
#[derive(Drop)]
pub struct FirmAccount {
    /// Its contributions, and its credits for them.
    pub account: Plain,
    /// The rows of these credits, by day and serial.
    pub rows: Vec<CreditRow>,
}

/// The account of a firm: its kept contributions, and its credits for them.
///
/// A contribution above 5,000,000,000 cents or due behind the 28th of a month, a serial that stands
/// twice, and more credits than an account has, are a fault of the row.
pub fn read_firm<S: Alter>(
    alloc: Global,
    tx: &mut Transaction<'_, S>,
    employer: EmployerNo,
) -> Result<FirmAccount, Fault>
    ensures same_reference { tx.new.conn.ghost_name ≡ tx.old.conn.ghost_name }
    ensures charges { OfTables S.Store tx.old.conn.now tx.new.conn.now (λ t.
        IfOk result (λ firm. firm.account.charges ≡ with_charges (kept_charges t employer) [])) }
    ensures credits { OfTables S.Store tx.old.conn.now tx.new.conn.now (λ t.
        IfOk result (λ firm. firm.account.credits ≡ with_credits (table_credits t employer) [])) }
    ensures rows { OfTables S.Store tx.old.conn.now tx.new.conn.now (λ t.
        IfOk result (λ firm. firm.rows.items ≡ contribution_rows t employer)) }
    ensures fault { OfTables S.Store tx.old.conn.now tx.new.conn.now (λ t.
        KeepsAccount t employer → IfErr result IsOfDisk) }
    ensures leaves { Leaves S.Store tx.old.conn.now tx.new.conn.now result }
{
    let mut account = Plain::new(alloc);
    read_charges(tx, &mut account, employer)?;
    let rows = read_credits(alloc, tx, &mut account, employer)?;
    Ok(FirmAccount { account, rows })
}

// Adds the contributions that are kept of a firm to an account.
fn read_charges<S: Alter>(
    tx: &mut Transaction<'_, S>,
    account: &mut Plain,
    employer: EmployerNo,
) -> Result<(), Fault>
    ensures same_reference { tx.new.conn.ghost_name ≡ tx.old.conn.ghost_name }
    ensures charges { OfTables S.Store tx.old.conn.now tx.new.conn.now (λ t.
        OnOk result (account.new.charges
        ≡ with_charges (kept_charges t employer) account.old.charges)) }
    ensures credits { account.new.credits ≡ account.old.credits }
    ensures fault { OfTables S.Store tx.old.conn.now tx.new.conn.now (λ t.
        KeepsAccount t employer → IfErr result IsOfDisk) }
    ensures leaves { Leaves S.Store tx.old.conn.now tx.new.conn.now result }
{
    let rows = charges_of(tx, employer)?;
    add_charges(account, rows.as_slice())
}

// Adds the credits of a firm for contributions to an account, which has none yet, and gives their
// rows.
fn read_credits<S: Alter>(
    alloc: Global,
    tx: &mut Transaction<'_, S>,
    account: &mut Plain,
    employer: EmployerNo,
) -> Result<Vec<CreditRow>, Fault>
    requires none { account.old.credits ≡ [] }
    ensures same_reference { tx.new.conn.ghost_name ≡ tx.old.conn.ghost_name }
    ensures rows { OfTables S.Store tx.old.conn.now tx.new.conn.now (λ t.
        IfOk result (λ rows. rows.items ≡ contribution_rows t employer)) }
    ensures credits { OfTables S.Store tx.old.conn.now tx.new.conn.now (λ t.
        OnOk result (account.new.credits ≡ with_credits (table_credits t employer) [])) }
    ensures charges { account.new.charges ≡ account.old.charges }
    ensures fault { OfTables S.Store tx.old.conn.now tx.new.conn.now (λ t.
        KeepsAccount t employer → IfErr result IsOfDisk) }
    ensures leaves { Leaves S.Store tx.old.conn.now tx.new.conn.now result }
{
    let rows = credits_of(tx, employer, Purpose::Contribution)?;
    add_credits(alloc, account, rows.as_slice())?;
    Ok(rows)
}

/// Adds contributions to an account.
pub(crate) fn add_charges(account: &mut Plain, rows: &[KeptCharge]) -> Result<(), Fault>
    ensures charges { OnOk result (account.new.charges
        ≡ with_charges (map charge_in rows.now) account.old.charges) }
    ensures credits { account.new.credits ≡ account.old.credits }
    ensures fault { All IsCharge (map charge_in rows.now) → IfErr result IsOfDisk }
{
    for row in rows {
        add_charge(account, row)?;
    }
    Ok(())
}

// Adds a contribution to an account.
fn add_charge(account: &mut Plain, row: &KeptCharge) -> Result<(), Fault>
    ensures charges { OnOk result (account.new.charges
        ≡ with_charge (charge_in row.now) account.old.charges) }
    ensures credits { account.new.credits ≡ account.old.credits }
    ensures fault { IsCharge (charge_in row.now) → IfErr result IsOfDisk }
{
    if row.cents > Charge::MAX_CENTS || row.due.day_of_month() > RateRow::LAST_DAY {
        return Err(Fault::Store(StoreCause::Row));
    }
    let charge = Charge {
        month: row.month,
        due: row.due,
        cents: row.cents,
    };
    match account.set_charge(charge) {
        Ok(()) => Ok(()),
        Err(AccountFault::Memory) => Err(Fault::Memory),
        Err(AccountFault::OverLimit) => unreachable!(),
    }
}
