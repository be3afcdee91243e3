//! What a firm has overdue on a day, by what is kept of it.
ghost use Rattle.std.specs.Prelude.{◌≡◌, ◌≤◌, IfErr, IfOk, None, length};
ghost use Rattle.clear_book.specs.Allocated.{StandsWeighed};
ghost use Rattle.clear_book.specs.Book.{Book, rates_of};
ghost use Rattle.clear_book.specs.Judge.{day_back};
ghost use Rattle.clear_book.specs.Limits.{most_credits, most_months};
ghost use Rattle.clear_book.specs.Machine.{IsLawful};
ghost use Rattle.clear_schema.specs.Frame.{Leaves};
ghost use Rattle.clear_schema.specs.Faults.{IsOfDisk};
ghost use Rattle.clear_debts.specs.Overdue.{AreKept, IsFirm, interest_amounts, overdue_told};
ghost use Rattle.clear_debts.specs.Reads.{OfTables};

use crate::owing::{add_amounts, find_charges};
use clear_bank::lines::Purpose;
use clear_book::rows::EmployerRow;
use clear_kept::owing::WeighedCharges;
use clear_ledger::credits::credit_amounts;
use clear_money::days::Day;
use clear_money::months::Month;
use clear_money::numbers::Amount;
use clear_money::rates::RateTable;
use clear_records::arrears::interest_arrears;
use clear_records::missing::missing_months;
use clear_schema::fault::Fault;
use sqlite::{Alter, Transaction};
use std::alloc::Global;

/// What a firm has overdue on a day.
#[derive(Clone, Copy)]
pub struct Overdue {
    /// How many months miss their report.
    pub missing: u32,
    /// The first of them, if there is one.
    pub first: Option<Month>,
    /// What is in arrears of contributions, in cents.
    pub arrears: u64,
    /// What is in arrears of interest, in cents.
    pub interest: u64,
    /// How many credits it has for interest.
    pub interest_count: u64,
}

/// What a firm has overdue on a day that is not before the ledger day, at these rates. It reads each
/// contribution that is kept of the firm and the amount of each of its credits for interest once. It
/// takes a step for each of these and for each member month before that of the day, and a search
/// among the rates for each contribution and each such month. What no book holds is refused with
/// `Fault::Store(StoreCause::Row)`: a value out of its range, and more contributions or credits than
/// an account has.
pub fn read_overdue<S: Alter>(
    alloc: Global,
    tx: &mut Transaction<'_, S>,
    rates: &RateTable,
    member: &EmployerRow,
    day: Day,
) -> Result<Overdue, Fault>
    ensures same_reference { tx.new.conn.ghost_name ≡ tx.old.conn.ghost_name }
    ensures overdue { OfTables S.Store tx.old.conn.now tx.new.conn.now (λ t.
        (b : Book) → IsLawful b → StandsWeighed b t → day_back t.day day ≡ None
        → rates.now ≡ rates_of b → IsFirm b member.now
        → IfOk result (λ overdue. overdue ≡ overdue_told b day member.now.employer)) }
    ensures fault { OfTables S.Store tx.old.conn.now tx.new.conn.now (λ t.
        (b : Book) → IsLawful b → StandsWeighed b t → IfErr result IsOfDisk) }
    ensures leaves { Leaves S.Store tx.old.conn.now tx.new.conn.now result }
{
    let charges = find_charges(alloc, tx, member.employer)?;
    let paid = credit_amounts(tx, member.employer, Purpose::Interest)?;
    overdue_on(alloc, rates, member, &charges, paid.as_slice(), day)
}

// What a firm has overdue on a day by its contributions and the amounts of its credits for interest.
fn overdue_on(
    alloc: Global,
    rates: &RateTable,
    member: &EmployerRow,
    charges: &WeighedCharges,
    paid: &[Amount],
    day: Day,
) -> Result<Overdue, Fault>
    ensures overdue { (b : Book) → AreKept b day rates.now member.now charges.now
        → paid.now ≡ interest_amounts b member.now.employer
        → IfOk result (λ overdue. overdue ≡ overdue_told b day member.now.employer) }
    ensures fault { length paid.now ≤ most_credits → IfErr result IsOfDisk }
{
    let sum = add_amounts(paid)?;
    let months = missing_months(alloc, member, rates, charges.rows(), day)?;
    Ok(Overdue {
        missing: month_count(&months),
        first: months.first().copied(),
        arrears: charges.arrears(day),
        interest: interest_arrears(rates, charges, sum, day),
        interest_count: paid.len() as u64,
    })
}

// How many months these are: there are 2,400 at most.
fn month_count(months: &[Month]) -> u32
    ensures { length months.now ≤ most_months → result ≡ length months.now }
{
    months.len().min(Month::COUNT as usize) as u32
}
