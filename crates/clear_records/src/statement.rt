//! The records of a firm's statement on a day, and what they say of it, but for the pieces that pay its
//! charges.
ghost use Rattle.std.specs.Prelude.{◌≡◌, ℕ, IfErr, IfOk};
ghost use Rattle.clear_book.specs.Book.{Book};
ghost use Rattle.clear_records.specs.Records.{AreStatementRecords, IsFor, IsHead};

use crate::arrears::{add_credits, interest_arrears};
use crate::charges::charge_states;
use crate::firm::{firm_account, whole_payments};
use crate::missing::missing_months;
use clear_book::documents::{ChargeState, FirmAccount, Payment};
use clear_book::rows::{CreditRow, EmployerRow, ReportRow};
use clear_kept::owing::WeighedCharges;
use clear_money::days::Day;
use clear_money::months::Month;
use clear_money::rates::RateTable;
use clear_values::causes::{Fault, StoreCause};
use std::alloc::Global;

/// The records of a firm's statement, but for the pieces that pay its charges.
#[derive(Drop)]
pub struct StatementRecords {
    pub member: EmployerRow,
    /// The rates of all months.
    pub rates: RateTable,
    /// The latest report of each month, the months rising.
    pub reports: Vec<ReportRow>,
    /// Its charges with what is open of them, the months rising.
    pub charges: WeighedCharges,
    /// Its credits for interest, by day and serial.
    pub interest_credits: Vec<CreditRow>,
    /// The cents that are credited for contributions and not yet charged.
    pub prepaid: u64,
}

/// What a statement tells, but for the pieces that pay its charges.
#[derive(Drop)]
pub struct StatementHead {
    pub firm: FirmAccount,
    /// Its charges as they stand, the months rising.
    pub charges: Vec<ChargeState>,
    /// Its credits for interest, by day and serial.
    pub interest_credits: Vec<Payment>,
    /// The months without a report, rising.
    pub missing: Vec<Month>,
}

/// What the statement of a firm tells on a day, by its records, but for the pieces that pay its
/// charges. Records that no book has are refused with `StoreCause::Row` where they have credits for
/// interest of which those before one already come to more than those of an account do; else the
/// contract says of such records only that the statement is for their firm and this day.
pub fn statement_head(
    alloc: Global,
    records: &StatementRecords,
    day: Day,
) -> Result<StatementHead, Fault>
    ensures head { (b : Book) (e : ℕ) → AreStatementRecords b e day records.now
        → IfOk result (IsHead b e day) }
    ensures fault { (b : Book) (e : ℕ) → AreStatementRecords b e day records.now
        → IfErr result (λ fault. fault ≡ Fault.Memory) }
    // Whatever the records are.
    ensures firm { IfOk result (IsFor records.now.member.employer day) }
{
    let credits = records.interest_credits.as_slice();
    let Some(paid) = add_credits(credits) else {
        return Err(Fault::Store(StoreCause::Row));
    };
    let interest = interest_arrears(&records.rates, &records.charges, paid, day);
    let rows = records.charges.rows();
    let missing = missing_months(alloc, &records.member, &records.rates, rows, day)?;
    let charges = charge_states(alloc, records, day)?;
    let interest_credits = whole_payments(alloc, credits)?;
    Ok(StatementHead {
        firm: firm_account(records, day, interest)?,
        charges,
        interest_credits,
        missing,
    })
}
