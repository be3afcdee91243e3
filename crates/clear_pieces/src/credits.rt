//! The payments of a firm, added to its account.
ghost use Rattle.std.specs.Prelude.{◌≡◌, ◌≤◌, ◌+◌, ◌↔◌, [], IfErr, IfOk, IsTrue, OnOk};
ghost use Rattle.std.specs.Prelude.{length, map};
ghost use Rattle.clear_account.specs.Account.{HoldsSerial, with_credit};
ghost use Rattle.clear_book.specs.Accounts.{row_credit};
ghost use Rattle.clear_book.specs.Keyed.{AreOnce};
ghost use Rattle.clear_book.specs.Limits.{most_credits};
ghost use Rattle.clear_schema.specs.Faults.{IsOfDisk};
ghost use Rattle.clear_pieces.specs.Filled.{credit_serial, with_credits};

use clear_account::entries::{AccountFault, Credit};
use clear_account::keeper::Keeper;
use clear_account::plain::Plain;
use clear_book::rows::CreditRow;
use clear_book::rules::StoreCause;
use clear_schema::fault::Fault;
use std::alloc::{AllocError, Global};
use std::collections::BTreeSet;

/// Adds payments to an account, which has none yet. A serial that stands twice, and more payments
/// than an account has, are a fault of the row.
pub fn add_credits(alloc: Global, account: &mut Plain, rows: &[CreditRow]) -> Result<(), Fault>
    requires none { account.old.credits ≡ [] }
    ensures credits { OnOk result (account.new.credits
        ≡ with_credits (map row_credit rows.now) []) }
    ensures charges { account.new.charges ≡ account.old.charges }
    ensures fault { AreOnce credit_serial rows.now → length rows.now ≤ most_credits
        → IfErr result IsOfDisk }
{
    if !has_serials_once(alloc, rows)? {
        return Err(Fault::Store(StoreCause::Row));
    }
    add_each(account, rows)
}

// Whether no serial stands twice.
fn has_serials_once(alloc: Global, rows: &[CreditRow]) -> Result<bool, AllocError>
    ensures { IfOk result (λ once. IsTrue once ↔ AreOnce credit_serial rows.now) }
{
    let mut seen = BTreeSet::new(alloc);
    for row in rows {
        if !seen.insert(row.serial)? {
            return Ok(false);
        }
    }
    Ok(true)
}

// Adds payments, no two with one serial, to an account that has none yet.
fn add_each(account: &mut Plain, rows: &[CreditRow]) -> Result<(), Fault>
    requires none { account.old.credits ≡ [] }
    requires once { AreOnce credit_serial rows.now }
    ensures credits { OnOk result (account.new.credits
        ≡ with_credits (map row_credit rows.now) []) }
    ensures charges { account.new.charges ≡ account.old.charges }
    ensures fault { length rows.now ≤ most_credits → IfErr result IsOfDisk }
{
    for row in rows {
        add_credit(account, row)?;
    }
    Ok(())
}

// Adds a payment to an account.
fn add_credit(account: &mut Plain, row: &CreditRow) -> Result<(), Fault>
    requires { ¬ HoldsSerial account.old.credits row.now.serial }
    ensures credits { OnOk result (account.new.credits
        ≡ with_credit (row_credit row.now) account.old.credits) }
    ensures charges { account.new.charges ≡ account.old.charges }
    ensures fault { length account.old.credits + 1 ≤ most_credits → IfErr result IsOfDisk }
{
    match account.add_credit(credit_of(row)) {
        Ok(()) => Ok(()),
        Err(AccountFault::Memory) => Err(Fault::Memory),
        Err(AccountFault::OverLimit) => Err(Fault::Store(StoreCause::Row)),
    }
}

/// The credit that a row is.
pub fn credit_of(row: &CreditRow) -> Credit
    ensures { result ≡ row_credit row.now }
{
    Credit {
        day: row.day,
        serial: row.serial,
        cents: row.cents,
    }
}
