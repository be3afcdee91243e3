//! What is kept of a firm's contributions, and what it paid of them.
ghost use Rattle.std.specs.Prelude.{◌≡◌, ◌≤◌, IfErr, IfOk, IsOk, length, map};
ghost use Rattle.std.specs.List.{sum};
ghost use Rattle.clear_account.specs.Account.{credited};
ghost use Rattle.clear_book.specs.Accounts.{charges_of, credits_of};
ghost use Rattle.clear_book.specs.Allocated.{StandsWeighed, weighed_in, weighed_rows};
ghost use Rattle.clear_book.specs.Book.{Book};
ghost use Rattle.clear_book.specs.Limits.{most_credits};
ghost use Rattle.clear_book.specs.Machine.{IsLawful};
ghost use Rattle.clear_book.specs.Tables.{table_credits};
ghost use Rattle.clear_kept.specs.Owing.{AreWeighedInRange};
ghost use Rattle.clear_kept.specs.Weighed.{weighed_charges};
ghost use Rattle.clear_schema.specs.Frame.{Leaves};
ghost use Rattle.clear_schema.specs.Faults.{IsOfDisk};
ghost use Rattle.clear_debts.specs.Owing.{credited_by, HasKept};
ghost use Rattle.clear_debts.specs.Reads.{LeavesOpen, OfTables};

use clear_bank::lines::Purpose;
use clear_book::limits::MAX_CREDITED;
use clear_book::rows::KeptCharge;
use clear_book::rules::StoreCause;
use clear_firms::charges::charges_of;
use clear_kept::owing::WeighedCharges;
use clear_kept::rows::WeighedCharge;
use clear_ledger::credits::credit_amounts;
use clear_money::numbers::{Amount, EmployerNo};
use clear_schema::fault::Fault;
use sqlite::{Alter, Transaction};
use std::alloc::Global;

/// A firm's contributions, and what it paid of them.
#[derive(Drop)]
pub struct KeptAccount {
    /// The contributions with what is open of them, the months rising.
    pub charges: WeighedCharges,
    /// All payments of contributions, in cents.
    pub credited: u64,
}

/// The contributions of a firm as they are kept, and what it paid of them.
///
/// It reads the firm's contributions, at most 2,400, once. Where a part of one is open, the
/// payments are what is charged less what is open; only where none is, the amounts of the firm's
/// credits for contributions are read, too, each once. What no book holds is refused with
/// `Fault::Store(StoreCause::Row)`: a value out of its range, and more contributions or credits
/// than an account has.
pub fn find_account<S: Alter>(
    alloc: Global,
    tx: &mut Transaction<'_, S>,
    employer: EmployerNo,
) -> Result<KeptAccount, Fault>
    ensures same_reference { tx.new.conn.ghost_name ≡ tx.old.conn.ghost_name }
    ensures account { OfTables S.Store tx.old.conn.now tx.new.conn.now (λ t.
        (b : Book) → IsLawful b → StandsWeighed b t
        → IfOk result (λ found.
        (found.charges ≡ weighed_charges (charges_of b employer) (credits_of b employer))
        × (found.credited ≡ credited (credits_of b employer)))) }
    // Whatever the tables hold, it is what is kept: where a part is open, no payment is read.
    ensures kept { OfTables S.Store tx.old.conn.now tx.new.conn.now (λ t.
        IfOk result (λ found. found.charges ≡ weighed_rows t employer)) }
    ensures credited { OfTables S.Store tx.old.conn.now tx.new.conn.now (λ t.
        IfOk result (λ found. found.credited
        ≡ credited_by found.charges (table_credits t employer))) }
    ensures fault { OfTables S.Store tx.old.conn.now tx.new.conn.now (λ t.
        (b : Book) → IsLawful b → StandsWeighed b t → IfErr result IsOfDisk) }
    ensures leaves { Leaves S.Store tx.old.conn.now tx.new.conn.now result }
{
    let charges = find_charges(alloc, tx, employer)?;
    let credited = find_credited(tx, &charges, employer)?;
    Ok(KeptAccount { charges, credited })
}

/// The contributions of a firm as they are kept, the months rising. It reads each of them once.
pub(crate) fn find_charges<S: Alter>(
    alloc: Global,
    tx: &mut Transaction<'_, S>,
    employer: EmployerNo,
) -> Result<WeighedCharges, Fault>
    ensures same_reference { tx.new.conn.ghost_name ≡ tx.old.conn.ghost_name }
    ensures charges { OfTables S.Store tx.old.conn.now tx.new.conn.now (λ t.
        IfOk result (λ charges. charges ≡ weighed_rows t employer)) }
    ensures fault { OfTables S.Store tx.old.conn.now tx.new.conn.now (λ t.
        HasKept t employer → IfErr result IsOfDisk) }
    ensures leaves { Leaves S.Store tx.old.conn.now tx.new.conn.now result }
{
    let rows = charges_of(tx, employer)?;
    weigh_rows(alloc, rows.as_slice())
}

// Kept contributions, each with what is open of it.
fn weigh_rows(alloc: Global, rows: &[KeptCharge]) -> Result<WeighedCharges, Fault>
    ensures charges { IfOk result (λ charges. charges ≡ map weighed_in rows.now) }
    ensures fault { AreWeighedInRange (map weighed_in rows.now) → IfErr result IsOfDisk }
{
    let mut weighed = Vec::new(alloc);
    for row in rows {
        weighed.push(weighed_in(row))?;
    }
    match WeighedCharges::new(weighed) {
        Some(charges) => Ok(charges),
        None => Err(Fault::Store(StoreCause::Row)),
    }
}

// A kept contribution with what is open of it.
fn weighed_in(row: &KeptCharge) -> WeighedCharge
    ensures { result ≡ weighed_in row.now }
{
    WeighedCharge {
        month: row.month,
        due: row.due,
        cents: row.cents,
        left: row.left,
        weight: row.weight,
    }
}

// What a firm paid of these contributions, in cents. Where a part of one is open, nothing is read.
fn find_credited<S: Alter>(
    tx: &mut Transaction<'_, S>,
    charges: &WeighedCharges,
    employer: EmployerNo,
) -> Result<u64, Fault>
    ensures same_reference { tx.new.conn.ghost_name ≡ tx.old.conn.ghost_name }
    ensures credited { OfTables S.Store tx.old.conn.now tx.new.conn.now (λ t.
        IfOk result (λ cents. cents ≡ credited_by charges.now (table_credits t employer))) }
    ensures fault { OfTables S.Store tx.old.conn.now tx.new.conn.now (λ t.
        HasKept t employer → IfErr result IsOfDisk) }
    ensures leaves { LeavesOpen S.Store tx.old.conn.now tx.new.conn.now result }
{
    let open = charges.open();
    if open > 0 {
        return Ok(charges.charged().saturating_sub(open));
    }
    add_paid(tx, employer)
}

// The credits of a firm for contributions, in cents.
fn add_paid<S: Alter>(tx: &mut Transaction<'_, S>, employer: EmployerNo) -> Result<u64, Fault>
    ensures same_reference { tx.new.conn.ghost_name ≡ tx.old.conn.ghost_name }
    ensures paid { OfTables S.Store tx.old.conn.now tx.new.conn.now (λ t.
        IfOk result (λ cents. cents ≡ credited (table_credits t employer))) }
    ensures fault { OfTables S.Store tx.old.conn.now tx.new.conn.now (λ t.
        HasKept t employer → IfErr result IsOfDisk) }
    ensures leaves { Leaves S.Store tx.old.conn.now tx.new.conn.now result }
{
    let amounts = credit_amounts(tx, employer, Purpose::Contribution)?;
    add_amounts(amounts.as_slice())
}

/// The sum of amounts, in cents. Where those before one already come to more than `MAX_CREDITED`, as the
/// credits of an account never do, it is refused with `Fault::Store(StoreCause::Row)`.
pub(crate) fn add_amounts(amounts: &[Amount]) -> Result<u64, Fault>
    ensures fits { length amounts.now ≤ most_credits → IsOk result }
    ensures value { IfOk result (λ cents. cents ≡ sum amounts.now) }
{
    let mut sum = 0;
    for amount in amounts {
        if sum > MAX_CREDITED {
            return Err(Fault::Store(StoreCause::Row));
        }
        sum += amount.cents();
    }
    Ok(sum)
}
